//! Values of elements, from texts that were tested.

ghost use Rattle.std.specs.Prelude.{◌≡◌, IfSome, take, option_map};
ghost use Rattle.iso8583.specs.Number.{number_of};
ghost use Rattle.iso_laws.specs.Messages.{account_from, type_kind, type_repeat, original_from};
ghost use Rattle.iso_laws.specs.Transactions.{retrieval_from};
ghost use Rattle.iso_laws.specs.Elements.{IsText};

use crate::value_test::is_text;
use iso_laws::Element;
use iso8583::{
    AccountId, Acquirer, Action, Alphanumeric, Amount, Digits, DigitsUpTo, Identity, LocalStamp,
    OriginalKind, OriginalRef, PrintableUpTo, Retrieval, Stan,
};

/// Element 37, if it is there.
pub(crate) fn retrieval(text: Option<&[u8; 12]>) -> Option<Retrieval>
    requires { IfSome (option_map (λ t. t.now) text) (IsText Element.Retrieval) }
    ensures { result ≡ retrieval_from (option_map (λ t. t.now) text.entry) }
{
    Some(Retrieval(Alphanumeric::of_text(text?)))
}

/// Element 102, if it is there.
pub(crate) fn account(text: Option<&[u8]>) -> Option<AccountId>
    requires { IfSome (option_map (λ t. t.now) text) (IsText Element.Account) }
    ensures { result ≡ account_from (option_map (λ t. t.now) text.entry) }
{
    Some(AccountId(PrintableUpTo::of_text(text?)))
}

/// Element 30: its first twelve digits, behind which zeros stand.
#[tactic(auto, using(iso_laws::proofs::Amounts::original_amount))]
pub(crate) fn original_amount(text: &[u8]) -> Amount
    requires { IsText Element.OriginalAmount text.now }
    ensures { result ≡ number_of (take 12 text.now) }
{
    let (digits, _) = text.split_at(12);
    Amount::from_digits(&Digits::of_text(digits))
}

/// Element 39.
pub(crate) fn action(text: &[u8]) -> Action
    requires { IsText Element.Action text.now }
    ensures { result ≡ number_of text.now }
{
    Action::from_digits(&Digits::of_text(text))
}

/// The type of an original: its kind, and whether it was a repeat.
fn original_type(text: &[u8]) -> (OriginalKind, bool)
    ensures kind { result.0 ≡ type_kind text.now }
    ensures repeat { result.1 ≡ type_repeat text.now }
{
    if is_text(text, b"1100") {
        (OriginalKind::Request, false)
    } else if is_text(text, b"1101") {
        (OriginalKind::Request, true)
    } else if is_text(text, b"1120") {
        (OriginalKind::Advice, false)
    } else {
        (OriginalKind::Advice, true)
    }
}

/// Element 56.
pub(crate) fn original(text: &[u8]) -> OriginalRef
    requires { IsText Element.Original text.now }
    ensures { result ≡ original_from text.now }
{
    let (kind, repeat) = original_type(&text[..4]);
    OriginalRef {
        kind,
        repeat,
        identity: Identity {
            acquirer: Acquirer(DigitsUpTo::of_text(&text[24..])),
            stan: Stan(Digits::of_text(&text[4..10])),
            stamp: LocalStamp::of_text(&text[10..22]),
        },
    }
}
