/// Why there is no body where one is to begin.
#[derive(Clone, Copy, Debug, PartialEq, Eq)]
pub enum WrongBody {
    /// This length stands there, and it is outside 1 to 512.
    Length(u16),
    /// The file ends within it.
    Ends,
    /// It is to be a reply, and is the text of no reply and of no fault.
    NoReply,
}
