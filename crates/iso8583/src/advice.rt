ghost use Rattle.std.specs.Prelude.{◌≡◌, ◌↔◌, IsTrue};

use crate::account_id::AccountId;
use crate::action::Action;
use crate::function_code::FunctionCode;
use crate::transaction::Transaction;

/// Authorization advice, 1120, or its repeat, 1121 (ISO 8583:1993): the acquirer reports what it decided for the issuer.
#[derive(Clone, Copy)]
pub struct Advice {
    /// Whether it is a repeat.
    pub repeat: bool,
    /// Element 24.
    pub function: FunctionCode,
    /// Element 39: what the acquirer answered.
    pub action: Action,
    /// Element 102, if it is present.
    pub account: Option<AccountId>,
    /// All other elements.
    pub transaction: Transaction,
}

impl Advice {
    /// Whether the other is the same.
    pub fn is_same(&self, other: &Advice) -> bool
        ensures { IsTrue result ↔ (self.now ≡ other.now) }
    {
        self.repeat == other.repeat
            && self.function == other.function
            && self.action == other.action
            && self.account == other.account
            && self.transaction.is_same(&other.transaction)
    }
}
