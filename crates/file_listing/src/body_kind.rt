/// What the bodies of a file are.
#[derive(Clone, Copy, Debug, PartialEq, Eq)]
pub enum BodyKind {
    /// Messages, or what is none.
    Message,
    /// Replies.
    Reply,
}
