//! The elements of a reply.

ghost use Rattle.std.specs.Prelude.{◌≡◌, option_map};
ghost use Rattle.serde_json.specs.Data.{string};
ghost use Rattle.iso_laws.specs.Replies.{answer_account, answer_action, answer_approval, reply_mti, reply_texts, verdict_action, verdict_approval};
ghost use Rattle.iso_laws.specs.Types.{mti_text};
ghost use Rattle.iso_laws.specs.declared.element.Element.TheVariants as element;
ghost use Rattle.message_text.specs.Values.{IsValueOf, value_data};

use crate::element_value::ElementValue;
use crate::has_elements::HasElements;
use crate::transaction_values::{account_value, alphanumeric_text, value_in_transaction};
use iso_laws::Element;
use iso_shown::CardNumbers;
use iso8583::{Answer, Reply, Verdict};

// The value of element 38.
fn approval_value(answer: &Answer) -> Option<ElementValue<'_>>
    ensures { option_map value_data result ≡ option_map string (answer_approval answer.now) }
{
    match answer {
        Answer::Request(Verdict::Approved(code), _) => {
            Some(ElementValue::Text(alphanumeric_text(&code.0)))
        }
        _ => None,
    }
}

// Element 39 of an 1110.
fn verdict_value(verdict: &Verdict) -> ElementValue<'_>
    ensures { value_data result ≡ string (verdict_action verdict.now) }
{
    match verdict {
        Verdict::Approved(_) => ElementValue::Text("000"),
        Verdict::Declined(code) => ElementValue::Action(code.action()),
    }
}

// The value of element 39.
fn action_value(answer: &Answer) -> ElementValue<'_>
    ensures { value_data result ≡ string (answer_action answer.now) }
{
    match answer {
        Answer::Request(verdict, _) => verdict_value(verdict),
        Answer::Advice(action, _) | Answer::Reversal(action) => ElementValue::Action(*action),
    }
}

// The value of element 102.
fn answer_account_value(cards: CardNumbers, answer: &Answer) -> Option<ElementValue<'_>>
    ensures { IsValueOf cards element.Account (answer_account answer.now) result }
{
    match answer {
        Answer::Request(_, account) | Answer::Advice(_, account) => account_value(cards, account),
        Answer::Reversal(_) => None,
    }
}

impl HasElements for Reply {
    ghost texts = { reply_texts };

    fn value(&self, cards: CardNumbers, element: Element) -> Option<ElementValue<'_>> {
        match element {
            Element::Approval => approval_value(&self.answer),
            Element::Action => Some(action_value(&self.answer)),
            Element::Account => answer_account_value(cards, &self.answer),
            _ => value_in_transaction(cards, &self.transaction, element),
        }
    }
}

/// The four digits of a reply's type.
pub(crate) fn type_of_reply(reply: &Reply) -> &'static str
    ensures { result.now ≡ mti_text (reply_mti reply.now) }
{
    match &reply.answer {
        Answer::Request(_, _) => "1110",
        Answer::Advice(_, _) => "1130",
        Answer::Reversal(_) => "1430",
    }
}
