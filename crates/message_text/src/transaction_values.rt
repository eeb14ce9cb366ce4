//! The elements that each message and each reply has.

ghost use Rattle.std.specs.Prelude.{◌≡◌, Some, option_map};
ghost use Rattle.std.specs.Str.{IsUtf8};
ghost use Rattle.iso_laws.specs.Messages.{account_text};
ghost use Rattle.iso_laws.specs.Transactions.{transaction_texts};
ghost use Rattle.iso_laws.specs.declared.element.Element.TheVariants as element;
ghost use Rattle.serde_json.specs.Data.{string};
ghost use Rattle.iso_shown.specs.Shown.{shown_account, shown_card};
ghost use Rattle.message_text.specs.Values.{IsValueOf, value_data};

use crate::element_value::ElementValue;
use iso_laws::Element;
use iso_shown::CardNumbers;
use iso8583::{AccountId, Alphanumeric, Pan, Printable, Retrieval, Transaction};

// Bytes of ASCII as text.
fn text_of(bytes: &[u8]) -> &str
    requires { IsUtf8 bytes.now }
    ensures { result.now ≡ bytes.now }
{
    str::from_utf8(bytes).unwrap()
}

/// Letters, digits and spaces as text.
#[tactic(auto, using(book_laws::proofs::Characters::alphanumeric_utf8))]
pub(crate) fn alphanumeric_text<const N: usize>(text: &Alphanumeric<N>) -> &str
    ensures { result.now ≡ text.now }
{
    text_of(text.as_slice())
}

// Printable characters as text.
#[tactic(auto, using(iso8583::proofs::AsciiLaws::printable_utf8))]
fn printable_text<const N: usize>(text: &Printable<N>) -> &str
    ensures { result.now ≡ text.now }
{
    text_of(text.as_slice())
}

// The value of element 37.
fn retrieval_value(retrieval: &Option<Retrieval>) -> Option<ElementValue<'_>>
    ensures { option_map value_data result ≡ option_map string (option_map (λ r. r.0) retrieval.now) }
{
    match retrieval {
        Some(retrieval) => Some(ElementValue::Text(alphanumeric_text(&retrieval.0))),
        None => None,
    }
}

// The value of element 2.
fn card_value(cards: CardNumbers, pan: &Pan) -> ElementValue<'_>
    ensures { value_data result ≡ string (shown_card cards pan.now.0) }
{
    match cards {
        CardNumbers::Masked => ElementValue::Masked(*pan),
        CardNumbers::Full => ElementValue::Text(pan.as_str()),
    }
}

// The name of an account, which may be a card number.
fn account_name(cards: CardNumbers, id: &AccountId) -> ElementValue<'_>
    ensures { value_data result ≡ string (shown_account cards id.now.0) }
{
    match (cards, Pan::new(id.as_slice())) {
        (CardNumbers::Masked, Some(pan)) => ElementValue::Masked(pan),
        _ => ElementValue::Text(id.as_str()),
    }
}

/// The value of element 102.
pub(crate) fn account_value(
    cards: CardNumbers,
    account: &Option<AccountId>,
) -> Option<ElementValue<'_>>
    ensures { IsValueOf cards element.Account (account_text account.now) result }
{
    match account {
        Some(id) => Some(account_name(cards, id)),
        None => None,
    }
}

/// The value of an element that each message has, or that each may have.
pub(crate) fn value_in_transaction(
    cards: CardNumbers,
    transaction: &Transaction,
    element: Element,
) -> Option<ElementValue<'_>>
    ensures { IsValueOf cards element (transaction_texts transaction.now element) result }
{
    match element {
        Element::Pan => Some(card_value(cards, &transaction.pan)),
        Element::Processing => Some(ElementValue::Text(transaction.processing.0.as_str())),
        Element::Amount => Some(ElementValue::Number(transaction.amount.minor())),
        Element::Transmission => Some(ElementValue::Text(transaction.transmission.0.as_str())),
        Element::Stan => Some(ElementValue::Text(transaction.stan.as_str())),
        Element::Stamp => Some(ElementValue::Text(transaction.stamp.as_str())),
        Element::Acquirer => Some(ElementValue::Text(transaction.acquirer.as_str())),
        Element::Retrieval => retrieval_value(&transaction.retrieval),
        Element::Terminal => Some(ElementValue::Text(printable_text(&transaction.terminal.0))),
        Element::Currency => Some(ElementValue::Text(transaction.currency.0.as_str())),
        _ => None,
    }
}
