/// Which kind of message an original is (ISO 8583:1993).
#[derive(Clone, Copy, PartialEq, Eq)]
pub enum OriginalKind {
    /// Authorization request, 1100 or 1101.
    Request,
    /// Authorization advice, 1120 or 1121.
    Advice,
}
