ghost use Rattle.std.specs.Prelude.{◌≡◌, None, IfErr, OnOk, OnErr};
ghost use Rattle.issuer_rows.specs.Funds.{key_of_funds, row_of_funds, with_balance};
ghost use Rattle.issuer_view.specs.RowSets.{value_in, put};

use issuer_rows::{AccountRow, Balance, BudgetRow, Funds, RowKey, RowVal};
use issuer_view::{Recorder, RowSource, Stop};

// Writes the row of what pays or is paid back, with this balance; it is not written yet.
#[inline(always)]
pub(crate) fn put_funds<S: RowSource>(
    funds: &Funds,
    balance: Balance,
    rows: &mut Recorder<S>,
) -> Result<(), Stop>
    requires absent { value_in rows.old.writes (key_of_funds funds.now) ≡ None }
    ensures ok { OnOk result (rows.new ≡ record rows.old { writes = put rows.old.writes (key_of_funds funds.now) (row_of_funds (with_balance funds.now balance)) }) }
    ensures err { OnErr result (rows.new ≡ rows.old) }
    ensures stop { IfErr result (λ stop. stop ≡ Stop.OutOfMemory) }
{
    match funds {
        Funds::Account(id, row) => {
            let left = AccountRow {
                available: balance,
                ..*row
            };
            rows.write_new(&RowKey::Account(*id), &RowVal::Account(left))
        }
        Funds::Budget(prefix, row) => {
            let left = BudgetRow {
                left: balance,
                ..*row
            };
            rows.write_new(&RowKey::Budget(*prefix), &RowVal::Budget(left))
        }
    }
}
