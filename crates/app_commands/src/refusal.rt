ghost use Rattle.std.specs.Prelude.{◌≡◌, None};
ghost use Rattle.app_commands.specs.Fault.{fault_of_line};

use crate::fault::Fault;
use app_words::LineFault;

/// Why the program doesn't do what its words say, and what a person is told of it.
#[derive(Drop)]
pub(crate) struct Refusal {
    /// Why.
    pub(crate) fault: Fault,
    /// The line behind the fault's, if there is one.
    pub(crate) words: Option<Vec<u8>>,
}

impl From<Fault> for Refusal {
    ghost from_gives = { λ fault refusal. (refusal.fault ≡ fault) × (refusal.words ≡ None) };

    fn from(fault: Fault) -> Refusal {
        Refusal { fault, words: None }
    }
}

impl From<LineFault> for Refusal {
    ghost from_gives = { λ line refusal. (refusal.fault ≡ fault_of_line line) × (refusal.words ≡ None) };

    fn from(line: LineFault) -> Refusal {
        Refusal::from(Fault::from(line))
    }
}
