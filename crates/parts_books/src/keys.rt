ghost use Rattle.std.specs.Prelude.{◌≡◌, ◌++◌, Some, IfOk, OnOk};
ghost use Rattle.std.specs.FinMap as map;
ghost use Rattle.issuer_laws.specs.Parts.{account_keys, accounts_at, budget_at, funds_at, may_need, may_need_first, payer_at, paying_keys};
ghost use Rattle.issuer_rows.specs.declared.original_row.OriginalRow.{OriginalRow};
ghost use Rattle.parts_books.specs.PartBooks.{accounts_of, lent_keys};

use iso8583::{Identity, Message, Pan, Reversal, Transaction};
use issuer_rows::{Book, CardRow, Frame, Kept, Payer, RowKey, RowVal};
use std::alloc::{AllocError, Global};

// How many rows a message may need at most: a request's day, original, card, two accounts and budget; or a reversal's, with what paid.
const MOST_NEEDED: usize = 6;

/// The keys of the rows that a message may need. It fails only where memory runs out.
pub(crate) fn needed_keys(
    alloc: Global,
    book: &Book,
    frame: &Frame,
) -> Result<Vec<RowKey>, AllocError>
    ensures { IfOk result (λ keys. keys.items ≡ may_need book.now frame.now) }
{
    let mut keys = Vec::with_capacity(alloc, MOST_NEEDED)?;
    push_needed(&mut keys, book, frame)?;
    Ok(keys)
}

/// The keys of the accounts of the rows under these. It fails only where memory runs out.
pub(crate) fn lent_keys(
    alloc: Global,
    book: &Book,
    keys: &[RowKey],
) -> Result<Vec<RowKey>, AllocError>
    ensures { IfOk result (λ lent. lent.items ≡ lent_keys book.now keys.now) }
{
    let mut lent = Vec::new(alloc);
    for key in keys {
        push_accounts_of(&mut lent, book, key)?;
    }
    Ok(lent)
}

// Appends the keys of the rows that a message may need.
fn push_needed(keys: &mut Vec<RowKey>, book: &Book, frame: &Frame) -> Result<(), AllocError>
    ensures { OnOk result (keys.new.items ≡ keys.old.items ++ may_need book.now frame.now) }
{
    match frame {
        Frame::Good(Message::Request(request)) => {
            let transaction = &request.transaction;
            keys.push(RowKey::Velocity(transaction.pan, transaction.stamp.day()))?;
            push_first(keys, book, transaction)?;
            Ok(())
        }
        Frame::Good(Message::Advice(advice)) => push_first(keys, book, &advice.transaction),
        Frame::Good(Message::Reversal(reversal)) => push_reversal(keys, book, reversal),
        Frame::Bad(_) => Ok(()),
    }
}

// Appends the keys of the accounts of the row under this one, if there is such a row.
fn push_accounts_of(keys: &mut Vec<RowKey>, book: &Book, key: &RowKey) -> Result<(), AllocError>
    ensures { OnOk result (keys.new.items ≡ keys.old.items ++ accounts_of (map.get book.now key.now)) }
{
    match book.row(key) {
        Some(RowVal::Card(card)) => push_card(keys, card),
        Some(RowVal::Kept(kept)) => push_paying(keys, kept),
        _ => Ok(()),
    }
}

// Appends the keys that any request or advice may need.
fn push_first(
    keys: &mut Vec<RowKey>,
    book: &Book,
    transaction: &Transaction,
) -> Result<(), AllocError>
    ensures { OnOk result (keys.new.items ≡ keys.old.items ++ may_need_first book.now transaction.now) }
{
    keys.push(RowKey::Original(transaction.identity()))?;
    keys.push(RowKey::Card(transaction.pan))?;
    push_funds(keys, book, &transaction.pan)?;
    Ok(())
}

// Appends the keys that a reversal may need.
fn push_reversal(keys: &mut Vec<RowKey>, book: &Book, reversal: &Reversal) -> Result<(), AllocError>
    ensures { OnOk result (keys.new.items ≡ keys.old.items ++ may_need book.now (Frame.Good (Message.Reversal reversal.now))) }
{
    let original = reversal.original.identity;
    let pan = reversal.transaction.pan;
    keys.push(RowKey::Original(original))?;
    keys.push(RowKey::Velocity(pan, original.stamp.day()))?;
    push_payer(keys, book, &original)?;
    push_funds(keys, book, &pan)?;
    Ok(())
}

// Appends the key of the account that paid for the original of this identity, if one did.
fn push_payer(keys: &mut Vec<RowKey>, book: &Book, identity: &Identity) -> Result<(), AllocError>
    ensures { OnOk result (keys.new.items ≡ keys.old.items ++ payer_at book.now identity.now) }
{
    match book.row(&RowKey::Original(*identity)) {
        Some(RowVal::Kept(kept)) => push_paying(keys, kept),
        _ => Ok(()),
    }
}

// Appends the key of the account that paid for an original, if one did.
fn push_paying(keys: &mut Vec<RowKey>, kept: &Kept) -> Result<(), AllocError>
    ensures { OnOk result (keys.new.items ≡ keys.old.items ++ paying_keys (Some (OriginalRow.Kept kept.now))) }
{
    let Some(payment) = kept.outcome().payment() else {
        return Ok(());
    };
    match payment.payer {
        Payer::Account(id) => {
            keys.push(RowKey::Account(id))?;
            Ok(())
        }
        Payer::Budget => Ok(()),
    }
}

// Appends the keys of what a card's message may be paid from.
fn push_funds(keys: &mut Vec<RowKey>, book: &Book, pan: &Pan) -> Result<(), AllocError>
    ensures { OnOk result (keys.new.items ≡ keys.old.items ++ funds_at book.now pan.now) }
{
    push_accounts(keys, book, pan)?;
    push_budget(keys, book, pan)?;
    Ok(())
}

// Appends the keys of the accounts of the card of this number, if there is one.
fn push_accounts(keys: &mut Vec<RowKey>, book: &Book, pan: &Pan) -> Result<(), AllocError>
    ensures { OnOk result (keys.new.items ≡ keys.old.items ++ accounts_at book.now pan.now) }
{
    match book.row(&RowKey::Card(*pan)) {
        Some(RowVal::Card(card)) => push_card(keys, card),
        _ => Ok(()),
    }
}

// Appends the keys of a card's accounts.
fn push_card(keys: &mut Vec<RowKey>, card: &CardRow) -> Result<(), AllocError>
    ensures { OnOk result (keys.new.items ≡ keys.old.items ++ account_keys (Some card.now)) }
{
    keys.push(RowKey::Account(card.accounts.first()))?;
    if let Some(second) = card.accounts.second() {
        keys.push(RowKey::Account(second))?;
    }
    Ok(())
}

// Appends the key of the budget of a card's prefix, if there is one.
fn push_budget(keys: &mut Vec<RowKey>, book: &Book, pan: &Pan) -> Result<(), AllocError>
    ensures { OnOk result (keys.new.items ≡ keys.old.items ++ budget_at book.now pan.now) }
{
    let budget = RowKey::Budget(pan.prefix());
    if book.row(&budget).is_some() {
        keys.push(budget)?;
    }
    Ok(())
}
