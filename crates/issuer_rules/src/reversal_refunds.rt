ghost use Rattle.std.specs.Prelude.{◌≡◌, ◌-◌, Some};
ghost use Rattle.issuer_words.specs.Words.{identity_of, settled};
ghost use Rattle.iso8583.specs.declared.message.Message.TheVariants as message;
ghost use Rattle.issuer_rows.specs.ReversalTable as table;
ghost use Rattle.issuer_rows.specs.declared.frame.Frame.TheVariants.{Good};
ghost use Rattle.issuer_rules.specs.Following.{Follows};
ghost use Rattle.issuer_rules.specs.Stage.{DecidesReversal};

use crate::put_funds::put_funds;
use crate::reversal_answers::unchanged;
use crate::reversal_facts::{day_is_short, given_back, spent_less};
use iso8583::{Action, Reversal};
use issuer_rows::{Funds, Kept, ReplyBody, RowKey, RowVal, VelocityRow};
use issuer_view::{Recorder, RowSource, Stop};

// The original, reversed by this message.
fn reversed(reversal: &Reversal, kept: &Kept) -> Kept
    ensures { result ≡ settled kept.now (identity_of reversal.now.transaction) (kept.now.amount - table.given_back reversal.now kept.now) }
{
    let stay = kept.amount().saturating_sub(given_back(reversal, kept));
    kept.settled(reversal.transaction.identity(), stay)
}

// Reverses an advice: the difference goes back to the row that paid, and out of what stays of the original.
pub(crate) fn reverse_advice<S: RowSource>(
    reversal: &Reversal,
    kept: &Kept,
    paid: &Funds,
    rows: &mut Recorder<S>,
) -> Result<ReplyBody, Stop>
    requires follows { Follows (Good (message.Reversal reversal.now)) rows.old.reads rows.old.writes (table.reversed_advice reversal.now kept.now paid.now) }
    ensures { DecidesReversal S.answers S.book reversal.now rows.old rows.new result }
{
    let Some(balance) = paid.balance().checked_add(given_back(reversal, kept)) else {
        return Ok(unchanged(reversal, Action::SYSTEM_MALFUNCTION));
    };
    let original = RowVal::Kept(reversed(reversal, kept));
    rows.write(RowKey::Original(reversal.original.identity), original)?;
    put_funds(paid, balance, rows)?;
    Ok(unchanged(reversal, Action::REVERSED))
}

// Reverses a request: the difference goes back to the row that paid, out of what stays of the original, and out of its day.
pub(crate) fn reverse_request<S: RowSource>(
    reversal: &Reversal,
    kept: &Kept,
    paid: &Funds,
    day: &VelocityRow,
    rows: &mut Recorder<S>,
) -> Result<ReplyBody, Stop>
    requires follows { Follows (Good (message.Reversal reversal.now)) rows.old.reads rows.old.writes (table.on_original_day reversal.now kept.now paid.now (Some day.now)) }
    ensures { DecidesReversal S.answers S.book reversal.now rows.old rows.new result }
{
    let Some(balance) = paid.balance().checked_add(given_back(reversal, kept)) else {
        return Ok(unchanged(reversal, Action::SYSTEM_MALFUNCTION));
    };
    if day_is_short(reversal, kept, day) {
        return Ok(unchanged(reversal, Action::SYSTEM_MALFUNCTION));
    }
    let original = RowVal::Kept(reversed(reversal, kept));
    let day_key = RowKey::Velocity(kept.card(), reversal.original.identity.stamp.day());
    let spent = RowVal::Velocity(spent_less(reversal, kept, day));
    rows.write(RowKey::Original(reversal.original.identity), original)?;
    rows.write(day_key, spent)?;
    put_funds(paid, balance, rows)?;
    Ok(unchanged(reversal, Action::REVERSED))
}
