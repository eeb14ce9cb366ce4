ghost use Rattle.std.specs.Prelude.{◌≡◌, ◌∷◌, [], ◌==◌, not, true, Some};
ghost use Rattle.std.specs.List.{list_all};
ghost use Rattle.issuer_rows.specs.Kept.{payment_of_outcome};
ghost use Rattle.iso8583.specs.declared.message.Message.TheVariants as message;
ghost use Rattle.issuer_rows.specs.ReversalTable as table;
ghost use Rattle.issuer_rows.specs.declared.frame.Frame.TheVariants.{Good};
ghost use Rattle.issuer_rules.specs.Following.{Follows, IsAt, kinds_read};
ghost use Rattle.issuer_rules.specs.Stage.{DecidesReversal};

use crate::reversal_answers::{answer_settled, mark_ahead, settle_unposted, unchanged};
use crate::reversal_facts::{account_funds, budget_funds, is_named, is_wrong_part};
use crate::reversal_refunds::{reverse_advice, reverse_request};
use crate::typed::{account_in, budget_in, original_in, velocity_in};
use iso8583::{AccountId, Action, OriginalKind, Reversal};
use issuer_rows::{Funds, Kept, OriginalRow, Payer, ReplyBody, RowKey};
use issuer_view::{Recorder, RowSource, Stop};

// Decides a reversal advice.
pub(crate) fn decide_reversal<S: RowSource>(
    reversal: &Reversal,
    rows: &mut Recorder<S>,
) -> Result<ReplyBody, Stop>
    requires at { IsAt (Good (message.Reversal reversal.now)) rows.old [] (table.reversal_plan reversal.now) }
    ensures { DecidesReversal S.answers S.book reversal.now rows.old rows.new result }
{
    let key = RowKey::Original(reversal.original.identity);
    rows.ask(&key)?;
    match original_in(rows.latest()) {
        Some(row) => decide_on_row(reversal, &row, rows),
        None => mark_ahead(reversal, rows),
    }
}

// Decides a reversal of an identity that was seen before.
fn decide_on_row<S: RowSource>(
    reversal: &Reversal,
    row: &OriginalRow,
    rows: &mut Recorder<S>,
) -> Result<ReplyBody, Stop>
    requires at { IsAt (Good (message.Reversal reversal.now)) rows.old (3 ∷ []) (table.on_reversed reversal.now (Some row.now)) }
    ensures { DecidesReversal S.answers S.book reversal.now rows.old rows.new result }
{
    match row {
        OriginalRow::Ahead(_) => Ok(unchanged(reversal, Action::NOT_TRACED)),
        OriginalRow::Kept(kept) => decide_on_kept(reversal, kept, rows),
    }
}

// Decides a reversal of an original that is kept.
fn decide_on_kept<S: RowSource>(
    reversal: &Reversal,
    kept: &Kept,
    rows: &mut Recorder<S>,
) -> Result<ReplyBody, Stop>
    requires at { IsAt (Good (message.Reversal reversal.now)) rows.old (3 ∷ []) (table.on_kept reversal.now kept.now) }
    ensures { DecidesReversal S.answers S.book reversal.now rows.old rows.new result }
{
    if !is_named(reversal, kept) {
        return Ok(unchanged(reversal, Action::NOT_TRACED));
    }
    match kept.outcome().reversal() {
        Some(by) => Ok(answer_settled(reversal, kept, &by, rows)),
        None => decide_on_payment(reversal, kept, rows),
    }
}

// Decides a reversal of an original that has none.
fn decide_on_payment<S: RowSource>(
    reversal: &Reversal,
    kept: &Kept,
    rows: &mut Recorder<S>,
) -> Result<ReplyBody, Stop>
    requires at { IsAt (Good (message.Reversal reversal.now)) rows.old (3 ∷ []) (table.on_payment reversal.now kept.now (payment_of_outcome kept.now.outcome)) }
    ensures { DecidesReversal S.answers S.book reversal.now rows.old rows.new result }
{
    let Some(payment) = kept.outcome().payment() else {
        return settle_unposted(reversal, kept, rows);
    };
    if is_wrong_part(reversal, kept) {
        return Ok(unchanged(reversal, Action::INVALID_AMOUNT));
    }
    match payment.payer {
        Payer::Account(id) => decide_by_account(reversal, kept, id, rows),
        Payer::Budget => decide_by_budget(reversal, kept, rows),
    }
}

// Decides a reversal of an original that an account paid.
fn decide_by_account<S: RowSource>(
    reversal: &Reversal,
    kept: &Kept,
    id: AccountId,
    rows: &mut Recorder<S>,
) -> Result<ReplyBody, Stop>
    requires at { IsAt (Good (message.Reversal reversal.now)) rows.old (3 ∷ []) (table.by_payer reversal.now kept.now (Payer.Account id)) }
    ensures { DecidesReversal S.answers S.book reversal.now rows.old rows.new result }
{
    let paying = id;
    let key = RowKey::Account(paying);
    rows.ask(&key)?;
    let paid = account_funds(id, account_in(rows.latest()));
    decide_on_paid(reversal, kept, &paid, rows)
}

// Decides a reversal of an original that the budget paid.
fn decide_by_budget<S: RowSource>(
    reversal: &Reversal,
    kept: &Kept,
    rows: &mut Recorder<S>,
) -> Result<ReplyBody, Stop>
    requires at { IsAt (Good (message.Reversal reversal.now)) rows.old (3 ∷ []) (table.by_payer reversal.now kept.now Payer.Budget) }
    ensures { DecidesReversal S.answers S.book reversal.now rows.old rows.new result }
{
    let key = RowKey::Budget(kept.card().prefix());
    rows.ask(&key)?;
    let paid = budget_funds(kept.card().prefix(), budget_in(rows.latest()));
    decide_on_paid(reversal, kept, &paid, rows)
}

// Decides a reversal of an original of which it is known what paid.
fn decide_on_paid<S: RowSource>(
    reversal: &Reversal,
    kept: &Kept,
    paid: &Option<Funds>,
    rows: &mut Recorder<S>,
) -> Result<ReplyBody, Stop>
    requires follows { Follows (Good (message.Reversal reversal.now)) rows.old.reads rows.old.writes (table.on_paid reversal.now kept.now paid.now) }
    requires days { list_all (λ kind. not (1 == kind)) (kinds_read rows.old.reads) ≡ true }
    ensures { DecidesReversal S.answers S.book reversal.now rows.old rows.new result }
{
    let Some(paid) = paid else {
        return Ok(unchanged(reversal, Action::NOT_TRACED));
    };
    match kept.outcome().kind() {
        OriginalKind::Request => decide_on_day(reversal, kept, paid, rows),
        OriginalKind::Advice => reverse_advice(reversal, kept, paid, rows),
    }
}

// Decides a reversal of a request: the day on which it was spent.
fn decide_on_day<S: RowSource>(
    reversal: &Reversal,
    kept: &Kept,
    paid: &Funds,
    rows: &mut Recorder<S>,
) -> Result<ReplyBody, Stop>
    requires follows { Follows (Good (message.Reversal reversal.now)) rows.old.reads rows.old.writes (table.looked_for_day reversal.now kept.now paid.now) }
    requires days { list_all (λ kind. not (1 == kind)) (kinds_read rows.old.reads) ≡ true }
    ensures { DecidesReversal S.answers S.book reversal.now rows.old rows.new result }
{
    let key = RowKey::Velocity(kept.card(), reversal.original.identity.stamp.day());
    rows.ask(&key)?;
    match velocity_in(rows.latest()) {
        Some(day) => reverse_request(reversal, kept, paid, &day, rows),
        None => Ok(unchanged(reversal, Action::NOT_TRACED)),
    }
}
