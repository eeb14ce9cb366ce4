ghost use Rattle.std.specs.Prelude.{◌≡◌};
ghost use Rattle.std.specs.FinMap as map;
ghost use Rattle.issuer_laws.specs.Parts.{budget_at, payer_at, second_key};
ghost use Rattle.issuer_rows.specs.Typed.{card_in};
ghost use Rattle.engine_parts.specs.Ties.{budget_key};

use iso8583::{AccountId, Identity, Pan, PanPrefix};
use issuer_rows::{Book, CardRow, Payer, RowKey, RowVal};

/// The row of a card, if there is one.
pub(crate) fn card_of(book: &Book, pan: &Pan) -> Option<CardRow>
    ensures { result ≡ card_in (map.get book.now (RowKey.Card pan.now)) }
{
    match book.row(&RowKey::Card(*pan)) {
        Some(RowVal::Card(card)) => Some(*card),
        _ => None,
    }
}

/// The prefix of a card, if it has a budget.
pub(crate) fn budget_of(book: &Book, pan: &Pan) -> Option<PanPrefix>
    ensures { budget_at book.now pan.now ≡ budget_key result }
{
    match book.row(&RowKey::Budget(pan.prefix())) {
        Some(_) => Some(pan.prefix()),
        None => None,
    }
}

/// The account that paid for the original of this identity, if one did.
pub(crate) fn paying_account(book: &Book, identity: &Identity) -> Option<AccountId>
    ensures { payer_at book.now identity.now ≡ second_key result }
{
    let Some(RowVal::Kept(kept)) = book.row(&RowKey::Original(*identity)) else {
        return None;
    };
    let outcome = kept.outcome();
    match outcome.payment()?.payer {
        Payer::Account(id) => Some(id),
        Payer::Budget => None,
    }
}
