ghost use Rattle.std.specs.Prelude.{◌≡◌, ◌&&◌, None, Some};
ghost use Rattle.issuer_rows.specs.Facts.{identity_of, is_same_identity};
ghost use Rattle.iso8583.specs.declared.message.Message.TheVariants as message;
ghost use Rattle.issuer_rows.specs.ReversalTable as table;
ghost use Rattle.issuer_rows.specs.declared.frame.Frame.TheVariants.{Good};
ghost use Rattle.issuer_rules.specs.Following.{Follows, Concludes};
ghost use Rattle.issuer_rules.specs.Stage.{DecidesReversal};

use crate::facts::is_same_identity;
use iso8583::{Action, Amount, Answer, Identity, Reply, Reversal};
use issuer_rows::{Kept, Mark, ReplyBody, RowKey, RowVal};
use issuer_view::{Recorder, RowSource, Stop};

// The reply to a reversal: it repeats the reversal's elements beside its action.
pub(crate) fn unchanged(reversal: &Reversal, action: Action) -> ReplyBody
    ensures { result ≡ table.reply_to_reversal reversal.now action }
{
    ReplyBody::Reply(Reply {
        transaction: reversal.transaction,
        answer: Answer::Reversal(action),
    })
}

// Writes a mark for an original that wasn't seen yet.
pub(crate) fn mark_ahead<S: RowSource>(
    reversal: &Reversal,
    rows: &mut Recorder<S>,
) -> Result<ReplyBody, Stop>
    requires follows { Follows (Good (message.Reversal reversal.now)) rows.old.reads rows.old.writes (table.marked_ahead reversal.now) }
    ensures { DecidesReversal S.answers S.book reversal.now rows.old rows.new result }
{
    let mark = Mark {
        card: reversal.transaction.pan,
        kind: reversal.original.kind,
        reversal: reversal.transaction.identity(),
    };
    let key = RowKey::Original(reversal.original.identity);
    rows.write(key, RowVal::Ahead(mark))?;
    Ok(unchanged(reversal, Action::NOT_TRACED))
}

// Whether it is a repeat of the reversal that the original has.
fn is_repeat_of(reversal: &Reversal, by: &Identity) -> bool
    ensures { result ≡ (reversal.now.repeat && is_same_identity by.now (identity_of reversal.now.transaction)) }
{
    reversal.repeat && is_same_identity(by, &reversal.transaction.identity())
}

// The answer to a reversal of an original that has one already.
pub(crate) fn answer_settled<S: RowSource>(
    reversal: &Reversal,
    kept: &Kept,
    by: &Identity,
    rows: &Recorder<S>,
) -> ReplyBody
    requires { Follows (Good (message.Reversal reversal.now)) rows.now.reads rows.now.writes (table.on_reversal reversal.now kept.now (Some by.now)) }
    ensures { Concludes (Good (message.Reversal reversal.now)) rows.now.reads rows.now.writes result }
{
    let _ = kept;
    let _ = rows;
    if is_repeat_of(reversal, by) {
        return unchanged(reversal, Action::REVERSED);
    }
    unchanged(reversal, Action::DUPLICATE)
}

// Keeps that an original that wasn't posted is reversed.
pub(crate) fn settle_unposted<S: RowSource>(
    reversal: &Reversal,
    kept: &Kept,
    rows: &mut Recorder<S>,
) -> Result<ReplyBody, Stop>
    requires follows { Follows (Good (message.Reversal reversal.now)) rows.old.reads rows.old.writes (table.on_payment reversal.now kept.now None) }
    ensures { DecidesReversal S.answers S.book reversal.now rows.old rows.new result }
{
    let settled = kept.settled(reversal.transaction.identity(), Amount::ZERO);
    let key = RowKey::Original(reversal.original.identity);
    rows.write(key, RowVal::Kept(settled))?;
    Ok(unchanged(reversal, Action::REVERSED))
}
