ghost use Rattle.std.specs.Prelude.{◌≡◌};
ghost use Rattle.issuer_laws.specs.Rules.{IsDecidedBy, decided_by};

use crate::advices::rule_of_advice;
use crate::card_facts::CardFacts;
use crate::requests::rule_of_request;
use crate::reversal_facts::ReversalFacts;
use crate::reversals::rule_of_reversal;
use iso8583::Message;
use issuer_laws::DecisionRule;
use issuer_rows::{Book, Frame};

/// The rule that decides a body on this book: the first of its table's conditions that holds. By that rule it is answered, and rows are
/// written.
pub fn rule_of(book: &Book, frame: &Frame) -> DecisionRule
    ensures rule { result ≡ decided_by book.now frame.now }
    ensures decided { IsDecidedBy book.now frame.now result }
{
    first_rule(book, frame)
}

// The first rule of the body's table whose condition holds.
fn first_rule(book: &Book, frame: &Frame) -> DecisionRule
    ensures { result ≡ decided_by book.now frame.now }
{
    match frame {
        Frame::Good(Message::Request(request)) => {
            let facts = CardFacts::of(book, &request.transaction, &request.account);
            rule_of_request(request, &facts)
        }
        Frame::Good(Message::Advice(advice)) => {
            let facts = CardFacts::of(book, &advice.transaction, &advice.account);
            rule_of_advice(advice, &facts)
        }
        Frame::Good(Message::Reversal(reversal)) => {
            rule_of_reversal(reversal, &ReversalFacts::of(book, reversal))
        }
        Frame::Bad(_) => DecisionRule::NoMessage,
    }
}
