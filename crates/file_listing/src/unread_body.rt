use issuer_rows::FrameFault;

/// The first body of a batch that is no message.
#[derive(Clone, Copy, Debug, PartialEq, Eq)]
pub struct UnreadBody {
    /// Its number, from 0: so many bodies before it are messages.
    pub number: u32,
    /// The byte of the file at which its length begins.
    pub at: usize,
    /// Why it is no message.
    pub fault: FrameFault,
}
