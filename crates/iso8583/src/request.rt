ghost use Rattle.std.specs.Prelude.{◌≡◌, ◌↔◌, IsTrue};

use crate::account_id::AccountId;
use crate::function_code::FunctionCode;
use crate::transaction::Transaction;

/// Authorization request, 1100, or its repeat, 1101 (ISO 8583:1993).
#[derive(Clone, Copy)]
pub struct Request {
    /// Whether it is a repeat.
    pub repeat: bool,
    /// Element 24.
    pub function: FunctionCode,
    /// Element 102, if it is present.
    pub account: Option<AccountId>,
    /// All other elements.
    pub transaction: Transaction,
}

impl Request {
    /// Whether the other is the same.
    pub fn is_same(&self, other: &Request) -> bool
        ensures { IsTrue result ↔ (self.now ≡ other.now) }
    {
        self.repeat == other.repeat
            && self.function == other.function
            && self.account == other.account
            && self.transaction.is_same(&other.transaction)
    }
}
