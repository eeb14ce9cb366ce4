//! The elements of a message.

ghost use Rattle.std.specs.Prelude.{◌≡◌, Some, option_map, take};
ghost use Rattle.iso8583.specs.Number.{number_of};
ghost use Rattle.book_laws.specs.Text.{numeral};
ghost use Rattle.iso8583.specs.declared.message.Message.TheVariants as message;
ghost use Rattle.iso_laws.specs.Messages.{message_texts, mti_of, scope_amount, scope_function};
ghost use Rattle.iso_laws.specs.Types.{mti_text};
ghost use Rattle.iso_laws.specs.declared.element.Element.TheVariants as element;
ghost use Rattle.message_text.specs.Values.{IsValueOf, value_data};

use crate::element_value::ElementValue;
use crate::has_elements::HasElements;
use crate::transaction_values::{account_value, value_in_transaction};
use iso_laws::Element;
use iso_shown::CardNumbers;
use iso8583::{Advice, Message, Request, Reversal, ReversalScope};

// The value of an element of a request.
fn value_in_request(
    cards: CardNumbers,
    request: &Request,
    element: Element,
) -> Option<ElementValue<'_>>
    ensures { IsValueOf cards element (message_texts (message.Request request.now) element) result }
{
    match element {
        Element::Function => Some(ElementValue::Text(request.function.0.as_str())),
        Element::Account => account_value(cards, &request.account),
        _ => value_in_transaction(cards, &request.transaction, element),
    }
}

// The value of an element of an advice.
fn value_in_advice(
    cards: CardNumbers,
    advice: &Advice,
    element: Element,
) -> Option<ElementValue<'_>>
    ensures { IsValueOf cards element (message_texts (message.Advice advice.now) element) result }
{
    match element {
        Element::Function => Some(ElementValue::Text(advice.function.0.as_str())),
        Element::Action => Some(ElementValue::Action(advice.action)),
        Element::Account => account_value(cards, &advice.account),
        _ => value_in_transaction(cards, &advice.transaction, element),
    }
}

// Element 24 of a reversal.
fn scope_function(scope: &ReversalScope) -> &'static str
    ensures { result.now ≡ scope_function scope.now }
{
    match scope {
        ReversalScope::Full => "400",
        ReversalScope::Partial(_) => "401",
    }
}

// The value of element 30.
fn original_amount(scope: &ReversalScope) -> Option<ElementValue<'_>>
    ensures { option_map value_data result ≡ option_map (λ text. numeral (number_of (take 12 text))) (scope_amount scope.now) }
{
    match scope {
        ReversalScope::Full => None,
        ReversalScope::Partial(amount) => Some(ElementValue::Number(amount.minor())),
    }
}

// The value of an element of a reversal.
fn value_in_reversal(
    cards: CardNumbers,
    reversal: &Reversal,
    element: Element,
) -> Option<ElementValue<'_>>
    ensures { IsValueOf cards element (message_texts (message.Reversal reversal.now) element) result }
{
    match element {
        Element::Function => Some(ElementValue::Text(scope_function(&reversal.scope))),
        Element::OriginalAmount => original_amount(&reversal.scope),
        Element::Original => Some(ElementValue::Original(&reversal.original)),
        _ => value_in_transaction(cards, &reversal.transaction, element),
    }
}

impl HasElements for Message {
    ghost texts = { message_texts };

    fn value(&self, cards: CardNumbers, element: Element) -> Option<ElementValue<'_>> {
        match self {
            Message::Request(request) => value_in_request(cards, request, element),
            Message::Advice(advice) => value_in_advice(cards, advice, element),
            Message::Reversal(reversal) => value_in_reversal(cards, reversal, element),
        }
    }
}

/// The four digits of a message's type.
pub(crate) fn type_of_message(message: &Message) -> &'static str
    ensures { result.now ≡ mti_text (mti_of message.now) }
{
    match message {
        Message::Request(request) if request.repeat => "1101",
        Message::Request(_) => "1100",
        Message::Advice(advice) if advice.repeat => "1121",
        Message::Advice(_) => "1120",
        Message::Reversal(reversal) if reversal.repeat => "1421",
        Message::Reversal(_) => "1420",
    }
}
