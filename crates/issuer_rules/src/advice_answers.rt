ghost use Rattle.std.specs.Prelude.{◌≡◌, ◌≤◌, ◌&&◌};
ghost use Rattle.iso8583.specs.declared.message.Message.TheVariants as message;
ghost use Rattle.iso8583.specs.declared.original_kind.OriginalKind.TheVariants as kind;
ghost use Rattle.issuer_rows.specs.AdviceTable as table;
ghost use Rattle.issuer_words.specs.Words.{balance_of, is_of_same};
ghost use Rattle.issuer_rows.specs.declared.frame.Frame.TheVariants.{Good};
ghost use Rattle.issuer_rules.specs.Following.{Follows, Concludes};
ghost use Rattle.issuer_rules.specs.Stage.{DecidesAdvice};

use crate::facts::{is_marked, is_of_same, kept_of};
use crate::put_funds::put_funds;
use iso8583::{Action, Advice, Answer, OriginalKind, Reply};
use issuer_rows::{
    Funds, Kept, Mark, OriginalOutcome, OriginalRow, Payment, ReplyBody, RowKey, UnpostedAction,
};
use issuer_view::{Recorder, RowSource, Stop};

// The reply to an advice: it repeats the advice's elements beside its action.
fn reply_to(advice: &Advice, action: Action) -> ReplyBody
    ensures { result ≡ table.reply_to_advice advice.now action }
{
    ReplyBody::Reply(Reply {
        transaction: advice.transaction,
        answer: Answer::Advice(action, advice.account),
    })
}

// Acknowledges an advice without liability, and keeps that.
pub(crate) fn acknowledge<S: RowSource>(
    advice: &Advice,
    rows: &mut Recorder<S>,
) -> Result<ReplyBody, Stop>
    requires follows { Follows (Good (message.Advice advice.now)) rows.old.reads rows.old.writes (table.acknowledged advice.now) }
    ensures { DecidesAdvice S.answers S.book advice.now rows.old rows.new result }
{
    let key = RowKey::Original(advice.transaction.identity());
    let outcome = OriginalOutcome::Acknowledged(UnpostedAction::ACKNOWLEDGED, None);
    rows.write(key, kept_of(&advice.transaction, outcome))?;
    Ok(reply_to(advice, Action::ACKNOWLEDGED))
}

// Answers an advice of an identity that was seen before.
pub(crate) fn answer_again<S: RowSource>(
    advice: &Advice,
    row: &OriginalRow,
    rows: &mut Recorder<S>,
) -> Result<ReplyBody, Stop>
    requires follows { Follows (Good (message.Advice advice.now)) rows.old.reads rows.old.writes (table.advice_again advice.now row.now) }
    ensures { DecidesAdvice S.answers S.book advice.now rows.old rows.new result }
{
    match row {
        OriginalRow::Ahead(mark) => answer_marked(advice, mark, rows),
        OriginalRow::Kept(kept) => Ok(answer_kept(advice, kept, rows)),
    }
}

// Answers an advice of an identity that a mark stands at.
fn answer_marked<S: RowSource>(
    advice: &Advice,
    mark: &Mark,
    rows: &mut Recorder<S>,
) -> Result<ReplyBody, Stop>
    requires follows { Follows (Good (message.Advice advice.now)) rows.old.reads rows.old.writes (table.advice_again advice.now (OriginalRow.Ahead mark.now)) }
    ensures { DecidesAdvice S.answers S.book advice.now rows.old rows.new result }
{
    if !is_marked(mark, &advice.transaction, OriginalKind::Advice) {
        return Ok(reply_to(advice, Action::DUPLICATE));
    }
    let key = RowKey::Original(advice.transaction.identity());
    let outcome = OriginalOutcome::Acknowledged(UnpostedAction::ACKNOWLEDGED, Some(mark.reversal));
    rows.write(key, kept_of(&advice.transaction, outcome))?;
    Ok(reply_to(advice, Action::ACKNOWLEDGED))
}

// Whether it is a repeat of the advice that is kept.
fn is_repeat_of(advice: &Advice, kept: &Kept) -> bool
    ensures { result ≡ (advice.now.repeat && is_of_same kept.now advice.now.transaction kind.Advice) }
{
    advice.repeat && is_of_same(kept, &advice.transaction, OriginalKind::Advice)
}

// The answer to an advice of an identity that was decided before.
fn answer_kept<S: RowSource>(advice: &Advice, kept: &Kept, rows: &Recorder<S>) -> ReplyBody
    requires { Follows (Good (message.Advice advice.now)) rows.now.reads rows.now.writes (table.advice_again advice.now (OriginalRow.Kept kept.now)) }
    ensures { Concludes (Good (message.Advice advice.now)) rows.now.reads rows.now.writes result }
{
    let _ = rows;
    if is_repeat_of(advice, kept) {
        return reply_to(advice, kept.outcome().action());
    }
    reply_to(advice, Action::DUPLICATE)
}

// Accepts an advice with liability: it is kept, and the amount is taken from what pays.
pub(crate) fn accept<S: RowSource>(
    advice: &Advice,
    paying: &Funds,
    rows: &mut Recorder<S>,
) -> Result<ReplyBody, Stop>
    requires follows { Follows (Good (message.Advice advice.now)) rows.old.reads rows.old.writes (table.accepted advice.now paying.now) }
    requires covered { advice.now.transaction.amount ≤ balance_of paying.now }
    ensures { DecidesAdvice S.answers S.book advice.now rows.old rows.new result }
{
    // What pays covers the amount.
    let balance = paying.balance().saturating_sub(advice.transaction.amount);
    let payment = Payment {
        payer: paying.payer(),
        settlement: None,
    };
    let kept = kept_of(&advice.transaction, OriginalOutcome::Accepted(payment));
    rows.write(RowKey::Original(advice.transaction.identity()), kept)?;
    put_funds(paying, balance, rows)?;
    Ok(reply_to(advice, Action::LIABILITY_ACCEPTED))
}
