use crate::account_id::AccountId;
use crate::action::Action;
use crate::verdict::Verdict;

/// What a message is answered: elements 38, 39 and 102 of its reply, by the reply's type (ISO 8583:1993). Element 102 is
/// the message's, if it is present there; a reversal has none.
#[derive(Clone, Copy, PartialEq, Eq)]
pub enum Answer {
    /// To a request, 1110.
    Request(Verdict, Option<AccountId>),
    /// To an advice, 1130.
    Advice(Action, Option<AccountId>),
    /// To a reversal, 1430.
    Reversal(Action),
}
