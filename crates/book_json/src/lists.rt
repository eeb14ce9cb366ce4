//! The lists of rows in a book's text.

ghost use Rattle.std.specs.Prelude.{◌≡◌, None, IfErr};
ghost use Rattle.std.specs.FinMap as map;
ghost use Rattle.issuer_rows.specs.RowVal.{IsOfKind};
ghost use Rattle.serde_json.specs.View.{view, items_view};
ghost use Rattle.book_laws.specs.Cards.{migrated_card};
ghost use Rattle.book_laws.specs.Lists.{has_old_cards, with_row, with_rows, add_entry, add_entries, add_list};
ghost use Rattle.book_laws.specs.Steps.{GivesOrMemory};
ghost use Rattle.book_laws.specs.declared.row_list.RowList.TheVariants.{Cards};

use book_entries::{entry_of, old_card_of};
use book_laws::{BookVersion, OldCard, RowList, TextFault, own_account};
use issuer_rows::{Book, RowKey, RowVal};
use serde_json::Value;

/// Writes a row to the book, unless an earlier entry has its key.
fn put_new(list: RowList, key: RowKey, val: RowVal, book: &mut Book) -> Result<(), TextFault>
    requires { IsOfKind key val }
    ensures gives { GivesOrMemory (λ _. book.new) result (with_row list book.old (key, val)) }
    // Only a row that isn't there takes memory.
    ensures full { IfErr result (λ fault. fault ≡ TextFault.OutOfMemory → map.get book.old key ≡ None) }
{
    if book.get(&key).is_some() {
        return Err(TextFault::Shape(list.part()));
    }
    book.put(key, val)?;
    Ok(())
}

/// Writes a card of versions 1 and 2 to the book, and its own account.
fn put_old_card(card: &OldCard, book: &mut Book) -> Result<(), TextFault>
    ensures { GivesOrMemory (λ _. book.new) result (with_rows Cards book.old (migrated_card card.now)) }
{
    let account = RowKey::Account(own_account(card.pan));
    put_new(
        RowList::Cards,
        RowKey::Card(card.pan),
        RowVal::Card(card.card_row()),
        book,
    )?;
    book.put(account, RowVal::Account(card.account_row()))?;
    Ok(())
}

/// Whether the list has cards with their own money.
pub fn has_old_cards(version: BookVersion, list: RowList) -> bool
    ensures { result ≡ has_old_cards version list }
{
    match list {
        RowList::Cards => version.has_card_money(),
        _ => false,
    }
}

/// Writes an entry's rows to the book.
pub fn add_entry(
    version: BookVersion,
    list: RowList,
    entry: &Value,
    book: &mut Book,
) -> Result<(), TextFault>
    ensures { GivesOrMemory (λ _. book.new) result (add_entry version list (view entry.now) book.old) }
{
    if has_old_cards(version, list) {
        let card = old_card_of(entry)?;
        return put_old_card(&card, book);
    }
    let (key, val) = entry_of(version, list, entry)?;
    put_new(list, key, val, book)
}

/// Writes the rows of entries to the book.
fn add_entries(
    version: BookVersion,
    list: RowList,
    entries: &[Value],
    book: &mut Book,
) -> Result<(), TextFault>
    ensures { GivesOrMemory (λ _. book.new) result (add_entries version list (items_view entries.now) book.old) }
{
    for entry in entries {
        add_entry(version, list, entry, book)?;
    }
    Ok(())
}

/// Writes the rows of a list of the top object to the book, if the version has it.
#[tactic(auto, unfolding(book_laws::specs::Lists::add_list))]
pub(crate) fn add_list(
    version: BookVersion,
    list: RowList,
    top: &Value,
    book: &mut Book,
) -> Result<(), TextFault>
    ensures { GivesOrMemory (λ _. book.new) result (add_list version list (view top.now) book.old) }
{
    if !version.has_list(list) {
        return Ok(());
    }
    let Some(entries) = top.get(list.key()).and_then(Value::as_array) else {
        return Err(TextFault::Shape(list.part()));
    };
    add_entries(version, list, entries, book)
}
