use issuer_rows::{Frame, ReplyBody};

/// A body of a batch, and the reply to it.
#[derive(Clone, Copy)]
pub struct Exchange {
    /// The body: a message (ISO 8583:1993), or the fault of a body that is none.
    pub frame: Frame,
    /// What it was answered.
    pub reply: ReplyBody,
}
