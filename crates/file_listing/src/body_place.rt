ghost use Rattle.std.specs.Prelude.{◌≡◌};
ghost use Rattle.file_listing.specs.Places.{fault_of_body};

use crate::wrong_body::WrongBody;
use file_laws::BatchFault;

/// The first body that is wrong.
#[derive(Clone, Copy, Debug, PartialEq, Eq)]
pub struct BodyPlace {
    /// Its number, from 0: so many bodies before it are whole.
    pub number: u32,
    /// How many bodies are announced.
    pub of: u32,
    /// The byte of the file at which its length begins.
    pub at: usize,
    /// What is wrong with it.
    pub wrong: WrongBody,
}

impl BodyPlace {
    // Which fault it is.
    pub(crate) fn fault(&self) -> BatchFault
        ensures { result ≡ fault_of_body self.now.number self.now.wrong }
    {
        match &self.wrong {
            WrongBody::Length(_) => BatchFault::Length,
            WrongBody::Ends => BatchFault::Ended,
            WrongBody::NoReply => BatchFault::Body(self.number),
        }
    }
}
