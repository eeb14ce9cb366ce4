//! The row that an entry of a list is.

ghost use Rattle.std.specs.Prelude.{◌≡◌, IfOk};
ghost use Rattle.issuer_rows.specs.RowVal.{IsOfKind};
ghost use Rattle.serde_json.specs.View.{view};
ghost use Rattle.book_laws.specs.Lists.{entry_of, card_row_of};

use crate::cards::card_of;
use crate::entries::{account_of, budget_of, day_of, mark_of};
use crate::originals::original_of;
use book_laws::{BookVersion, RowList, TextFault};
use issuer_rows::{RowKey, RowVal};
use serde_json::Value;

fn card_row_of(entry: &Value) -> Result<(RowKey, RowVal), TextFault>
    ensures value { result ≡ card_row_of (view entry.now) }
    ensures kind { IfOk result (λ row. IsOfKind row.0 row.1) }
{
    let (pan, card) = card_of(entry)?;
    Ok((RowKey::Card(pan), RowVal::Card(card)))
}

/// The row that an entry of a list is.
pub fn entry_of(
    version: BookVersion,
    list: RowList,
    entry: &Value,
) -> Result<(RowKey, RowVal), TextFault>
    ensures value { result ≡ entry_of version list (view entry.now) }
    ensures kind { IfOk result (λ row. IsOfKind row.0 row.1) }
{
    match list {
        RowList::Cards => card_row_of(entry),
        RowList::Days => day_of(entry),
        RowList::Budgets => budget_of(entry),
        RowList::Originals => original_of(version, entry),
        RowList::Ahead => mark_of(entry),
        RowList::Accounts => account_of(entry),
    }
}
