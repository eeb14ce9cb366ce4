//! What a row says of its book's text: it is read again as the row, since its fields are in their ranges. Their types alone have them
//! there, so that nothing is computed.

ghost use Rattle.std.specs.Prelude.{◌≡◌, ◌<◌, ◌^◌, Some, IfSome};
ghost use Rattle.issuer_words.specs.Words.{HasDigits, IsOfKind};
ghost use Rattle.issuer_rows.specs.declared.row_key.RowKey.TheVariants as key;
ghost use Rattle.issuer_rows.specs.declared.row_val.RowVal.TheVariants as val;
ghost use Rattle.book_laws.specs.Originals.{kept_of, entry_of_kept};
ghost use Rattle.book_laws.specs.Ranges.{AreDigits, IsIdentity, IsAccountId, IsApproval, IsCard, IsDayRow, IsBudget, IsMark, IsAccount};
ghost use Rattle.book_laws.specs.Text.{IsReadAgain};

use iso8583::{AccountId, Day, Identity, Pan, PanPrefix};
use issuer_rows::{AccountRow, BudgetRow, CardRow, Kept, Mark, RowKey, RowVal, VelocityRow};

fn card_in_range(pan: Pan, card: CardRow)
    ensures { IsCard pan card }
{}

fn day_in_range(pan: Pan, day: Day, row: VelocityRow)
    ensures { IsDayRow pan day row }
{}

fn budget_in_range(prefix: PanPrefix, row: BudgetRow)
    ensures { IsBudget prefix row }
{}

fn identity_in_range(identity: Identity)
    ensures { IsIdentity identity }
{}

fn mark_in_range(identity: Identity, mark: Mark)
    ensures { IsMark identity mark }
{
    identity_in_range(identity);
    identity_in_range(mark.reversal);
}

fn account_in_range(id: AccountId, row: AccountRow)
    ensures { IsAccount id row }
{}

// What is kept of an original is in range, and is what is kept of what the text says of it.
fn kept_in_range(kept: Kept)
    ensures account { IfSome (entry_of_kept kept).account IsAccountId }
    ensures action { (entry_of_kept kept).action < 1000 }
    ensures amount { (entry_of_kept kept).amount < 10 ^ 12 }
    ensures approval { IfSome (entry_of_kept kept).approval IsApproval }
    ensures pan { HasDigits 12 19 (entry_of_kept kept).pan.0 }
    ensures processing { AreDigits 6 (entry_of_kept kept).processing.0 }
    ensures reversed { IfSome (entry_of_kept kept).reversed IsIdentity }
    ensures stay { (entry_of_kept kept).stay < 10 ^ 12 }
    ensures back { kept_of (entry_of_kept kept) ≡ Some kept }
{}

fn kept_is_read(identity: Identity, kept: &Kept)
    ensures { IsReadAgain (key.Original identity, val.Kept kept.now) }
{
    identity_in_range(identity);
    kept_in_range(*kept);
}

/// A row is read again from the text that is written of it. Nothing is done: this is a law.
pub fn row_is_read(key: &RowKey, val: &RowVal)
    requires { IsOfKind key.now val.now }
    ensures { IsReadAgain (key.now, val.now) }
{
    match (key, val) {
        (RowKey::Card(pan), RowVal::Card(card)) => card_in_range(*pan, *card),
        (RowKey::Velocity(pan, day), RowVal::Velocity(row)) => day_in_range(*pan, *day, *row),
        (RowKey::Budget(prefix), RowVal::Budget(row)) => budget_in_range(*prefix, *row),
        (RowKey::Original(identity), RowVal::Kept(kept)) => kept_is_read(*identity, kept),
        (RowKey::Original(identity), RowVal::Ahead(mark)) => mark_in_range(*identity, *mark),
        (RowKey::Account(id), RowVal::Account(row)) => account_in_range(*id, *row),
        _ => unreachable!(),
    }
}
