/// Which messages are read: those that are taken in, or the replies that are given out.
#[derive(Clone, Copy)]
pub(crate) enum Side {
    /// 1100, 1101, 1120, 1121, 1420 and 1421.
    TakenIn,
    /// 1110, 1130 and 1430.
    GivenOut,
}
