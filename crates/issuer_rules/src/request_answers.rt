ghost use Rattle.std.specs.Prelude.{◌≡◌, ◌+◌, ◌^◌, ◌<◌, ◌≤◌, ◌&&◌, length, None, IsSome, IfErr, IfSome, OnOk, OnErr};
ghost use Rattle.iso8583.specs.declared.message.Message.TheVariants as message;
ghost use Rattle.iso8583.specs.declared.original_kind.OriginalKind.TheVariants as kind;
ghost use Rattle.issuer_words.specs.Words.{IsOfKind, balance_of, day_of, identity_of, is_of_same, original_in};
ghost use Rattle.issuer_rows.specs.RequestTable as table;
ghost use Rattle.issuer_rows.specs.declared.frame.Frame.TheVariants.{Good};
ghost use Rattle.issuer_rules.specs.Following.{Follows, Concludes};
ghost use Rattle.issuer_rules.specs.Stage.{DecidesRequest};
ghost use Rattle.issuer_view.specs.RowSets.{value_in, latest, put};

use crate::facts::{is_marked, is_of_same, kept_of};
use crate::put_funds::put_funds;
use crate::request_facts::kept_verdict;
use iso8583::{Amount, Approval, DeclineCode, OriginalKind, Request, Transaction, Verdict};
use issuer_rows::{
    Balance, CardRow, Count, Funds, Kept, Mark, OriginalOutcome, OriginalRow, Payment, RowKey,
    RowVal, VelocityRow,
};
use issuer_view::{Recorder, RowSource, Stop};

// Declines a request, and keeps that.
pub(crate) fn decline<S: RowSource>(
    request: &Request,
    key: &RowKey,
    code: DeclineCode,
    rows: &mut Recorder<S>,
) -> Result<Verdict, Stop>
    requires named { key.now ≡ RowKey.Original (identity_of request.now.transaction) }
    requires follows { Follows (Good (message.Request request.now)) rows.old.reads rows.old.writes (table.declined_request request.now code) }
    ensures { DecidesRequest S.answers S.book request.now rows.old rows.new result }
{
    let kept = kept_of(&request.transaction, OriginalOutcome::Declined(code, None));
    rows.write_copy(key, &kept)?;
    Ok(Verdict::Declined(code))
}

// Answers a request of an identity that was seen before. Not inlined, so that one that wasn't pays nothing for its row.
#[inline(never)]
pub(crate) fn answer_again<S: RowSource>(
    request: &Request,
    key: &RowKey,
    rows: &mut Recorder<S>,
) -> Result<Verdict, Stop>
    requires named { key.now ≡ RowKey.Original (identity_of request.now.transaction) }
    requires some { 0 < length rows.old.reads }
    requires seen { IsSome (latest rows.old.reads) }
    requires kind { IfSome (latest rows.old.reads) (IsOfKind key.now) }
    requires follows { Follows (Good (message.Request request.now)) rows.old.reads rows.old.writes (table.on_original request.now (original_in (latest rows.old.reads))) }
    ensures { DecidesRequest S.answers S.book request.now rows.old rows.new result }
{
    match *rows.latest() {
        Some(RowVal::Ahead(mark)) => answer_marked(request, key, &mark, rows),
        Some(RowVal::Kept(kept)) => Ok(answer_kept(request, &kept, rows)),
        _ => unreachable!(),
    }
}

// Answers a request of an identity that a mark stands at.
fn answer_marked<S: RowSource>(
    request: &Request,
    key: &RowKey,
    mark: &Mark,
    rows: &mut Recorder<S>,
) -> Result<Verdict, Stop>
    requires named { key.now ≡ RowKey.Original (identity_of request.now.transaction) }
    requires follows { Follows (Good (message.Request request.now)) rows.old.reads rows.old.writes (table.request_again request.now (OriginalRow.Ahead mark.now)) }
    ensures { DecidesRequest S.answers S.book request.now rows.old rows.new result }
{
    if !is_marked(mark, &request.transaction, OriginalKind::Request) {
        return Ok(Verdict::Declined(DeclineCode::DUPLICATE));
    }
    let outcome = OriginalOutcome::Declined(DeclineCode::NOT_TRACED, Some(mark.reversal));
    rows.write_copy(key, &kept_of(&request.transaction, outcome))?;
    Ok(Verdict::Declined(DeclineCode::NOT_TRACED))
}

// Whether it is a repeat of the request that is kept.
fn is_repeat_of(request: &Request, kept: &Kept) -> bool
    ensures { result ≡ (request.now.repeat && is_of_same kept.now request.now.transaction kind.Request) }
{
    request.repeat && is_of_same(kept, &request.transaction, OriginalKind::Request)
}

// The answer to a request of an identity that was decided before.
fn answer_kept<S: RowSource>(request: &Request, kept: &Kept, rows: &Recorder<S>) -> Verdict
    requires { Follows (Good (message.Request request.now)) rows.now.reads rows.now.writes (table.request_again request.now (OriginalRow.Kept kept.now)) }
    ensures { Concludes (Good (message.Request request.now)) rows.now.reads rows.now.writes (table.reply_to_request request.now result) }
{
    let _ = rows;
    if is_repeat_of(request, kept) {
        return kept_verdict(&kept.outcome());
    }
    Verdict::Declined(DeclineCode::DUPLICATE)
}

// Approves a request: it is kept, the card's approvals and its day rise, and the amount is taken from what pays.
pub(crate) fn approve<S: RowSource>(
    request: &Request,
    key: &RowKey,
    card: &CardRow,
    day: &VelocityRow,
    paying: &Funds,
    rows: &mut Recorder<S>,
) -> Result<Verdict, Stop>
    requires named { key.now ≡ RowKey.Original (identity_of request.now.transaction) }
    requires follows { Follows (Good (message.Request request.now)) rows.old.reads rows.old.writes (table.approved request.now card.now day.now paying.now) }
    requires approvals { card.now.approvals < 999999 }
    requires count { day.now.count < 999999 }
    requires sum { day.now.sum + request.now.transaction.amount ≤ 10 ^ 15 }
    requires covered { request.now.transaction.amount ≤ balance_of paying.now }
    ensures { DecidesRequest S.answers S.book request.now rows.old rows.new result }
{
    let amount = request.transaction.amount;
    let approvals = next_of(card.approvals);
    let count = next_of(day.count);
    let sum = sum_of(day.sum, amount);
    // What pays covers the amount.
    let balance = paying.balance().saturating_sub(amount);
    let code = Approval::of_count(approvals.number());
    let answer_code = code;
    let verdict = Verdict::Approved(answer_code);
    let payment = Payment {
        payer: paying.payer(),
        settlement: None,
    };
    let kept = kept_of(
        &request.transaction,
        OriginalOutcome::Approved(code, payment),
    );
    rows.write_new(key, &kept)?;
    charge_card(&request.transaction, card, approvals, rows)?;
    charge_day(&request.transaction, count, sum, rows)?;
    put_funds(paying, balance, rows)?;
    Ok(verdict)
}

// One more approval, where there is room for it.
fn next_of(count: Count) -> Count
    requires { count < 999999 }
    ensures { result ≡ count + 1 }
{
    match count.checked_next() {
        Some(next) => next,
        None => unreachable!(),
    }
}

// What was spent and this amount, where that is a balance.
fn sum_of(spent: Balance, amount: Amount) -> Balance
    requires { spent + amount ≤ 10 ^ 15 }
    ensures { result ≡ spent + amount }
{
    match spent.checked_add(amount) {
        Some(sum) => sum,
        None => unreachable!(),
    }
}

// Writes the card with so many approvals. A function of its own, so that the card is copied as a whole.
#[inline(never)]
fn charge_card<S: RowSource>(
    transaction: &Transaction,
    card: &CardRow,
    approvals: Count,
    rows: &mut Recorder<S>,
) -> Result<(), Stop>
    requires absent { value_in rows.old.writes (RowKey.Card transaction.now.pan) ≡ None }
    ensures ok { OnOk result (rows.new ≡ record rows.old { writes = put rows.old.writes (RowKey.Card transaction.now.pan) (RowVal.Card (record card.now { approvals = approvals })) }) }
    ensures err { OnErr result (rows.new ≡ rows.old) }
    ensures stop { IfErr result (λ stop. stop ≡ Stop.OutOfMemory) }
{
    let charged = CardRow { approvals, ..*card };
    rows.write_new(&RowKey::Card(transaction.pan), &RowVal::Card(charged))
}

// Writes what was spent with the card on its day. A function of its own, so that nothing of another row is copied with it.
#[inline(never)]
fn charge_day<S: RowSource>(
    transaction: &Transaction,
    count: Count,
    sum: Balance,
    rows: &mut Recorder<S>,
) -> Result<(), Stop>
    requires absent { value_in rows.old.writes (RowKey.Velocity transaction.now.pan (day_of transaction.now.stamp)) ≡ None }
    ensures ok { OnOk result (rows.new ≡ record rows.old { writes = put rows.old.writes (RowKey.Velocity transaction.now.pan (day_of transaction.now.stamp)) (RowVal.Velocity (record { count = count; sum = sum })) }) }
    ensures err { OnErr result (rows.new ≡ rows.old) }
    ensures stop { IfErr result (λ stop. stop ≡ Stop.OutOfMemory) }
{
    let key = RowKey::Velocity(transaction.pan, transaction.stamp.day());
    rows.write_new(&key, &RowVal::Velocity(VelocityRow { count, sum }))
}
