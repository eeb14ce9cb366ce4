ghost use Rattle.std.specs.Prelude.{◌≡◌, ◌⊎◌, Err, IfOk, IfErr, IfSome};
ghost use Rattle.issuer_words.specs.Words.{IsLocal, IsTrueExecution, reply_of, writes_of};
ghost use Rattle.issuer_view.specs.Recording.{AgreesWithBook, IsStopOf};

use crate::decide::Decide;
use crate::read_set::ReadSet;
use crate::recorder::Recorder;
use crate::row_source::RowSource;
use crate::stop::Stop;
use crate::write_set::WriteSet;
use issuer_rows::{Frame, ReplyBody};
use std::alloc::Global;
use std::marker::Model;

/// A decision that was made, with the rows that it read. On every book that agrees with them the decision table gives
/// its frame this reply, writes these rows, and needs no other row.
#[derive(Drop)]
pub struct Execution {
    frame: Frame,
    reads: ReadSet,
    writes: WriteSet,
    reply: ReplyBody,
}

impl Model for Execution {
    ghost use Rattle.issuer_rows.specs.Agreement.{Executed, IsLocal};

    ghost Value = { Executed };

    ghost view = { λ e. record { frame = e.frame; reads = e.reads; writes = e.writes; reply = e.reply } };

    ghost invariant = { λ e. IsLocal e.frame e.reads e.writes e.reply };
}

impl Execution {
    /// A decision of this body that read and wrote these rows, where it is that of the decision table.
    pub fn new(frame: Frame, reads: ReadSet, writes: WriteSet, reply: ReplyBody) -> Execution
        requires { IsLocal frame reads writes reply }
        ensures { result ≡ record { frame = frame; reads = reads; writes = writes; reply = reply } }
    {
        Execution {
            frame,
            reads,
            writes,
            reply,
        }
    }

    /// The body that was decided.
    pub fn frame(&self) -> &Frame
        ensures frame { result.now ≡ self.now.frame }
        ensures local { IsTrueExecution self.now }
    {
        &self.frame
    }

    /// The rows that were read.
    pub fn reads(&self) -> &ReadSet
        ensures { result.now ≡ self.now.reads }
    {
        &self.reads
    }

    /// The rows that are written.
    pub fn writes(&self) -> &WriteSet
        ensures { result.now ≡ self.now.writes }
    {
        &self.writes
    }

    /// The reply to the body.
    pub fn reply(&self) -> &ReplyBody
        ensures { result.now ≡ self.now.reply }
    {
        &self.reply
    }

    /// The body, the rows that were read, the rows that are written, and the reply.
    pub fn into_parts(self) -> (Frame, ReadSet, WriteSet, ReplyBody)
        ensures frame { result.0 ≡ self.frame }
        ensures reads { result.1 ≡ self.reads }
        ensures writes { result.2 ≡ self.writes }
        ensures reply { result.3 ≡ self.reply }
        ensures local { IsTrueExecution self }
    {
        let Execution {
            frame,
            reads,
            writes,
            reply,
        } = self;
        (frame, reads, writes, reply)
    }
}

/// Decides a body on the rows of a source, and keeps what it read and wrote. It fails where the decision stops: at a question to the
/// source, or where memory runs out.
pub fn execute<S: RowSource, F: Decide>(
    alloc: Global,
    frame: &Frame,
    source: S,
    decision: &F,
) -> Result<Execution, Stop>
    ensures frame { IfOk result (λ e. e.frame ≡ frame.now) }

    // On a known book, reply and rows are those of the decision table there, and it stops only where memory runs out.
    ensures agrees { IfOk result (λ e. AgreesWithBook (S.book source) e.reads) }
    ensures reply { IfOk result (λ e. IfSome (S.book source) (λ rows. e.reply ≡ reply_of rows frame.now)) }
    ensures writes { IfOk result (λ e. IfSome (S.book source) (λ rows. e.writes ≡ writes_of rows frame.now)) }
    // It stops where a question to the source did, or memory ran out.
    ensures stop { IfErr result (λ stop. (stop ≡ Stop.OutOfMemory) ⊎ ((asked : S) × IsStopOf S.answers asked stop)) }
    ensures stops { IfSome (S.book source) (λ _. IfErr result (λ stop. stop ≡ Stop.OutOfMemory)) }
{
    let mut recorder = Recorder::new(alloc, source);
    let decided = decision.decide(frame, &mut recorder);
    executed(frame, recorder, decided)
}

// What a decision that ended so comes to.
fn executed<S: RowSource>(
    frame: &Frame,
    recorder: Recorder<S>,
    decided: Result<ReplyBody, Stop>,
) -> Result<Execution, Stop>
    requires { IfOk decided (λ reply. IsLocal frame.now recorder.reads recorder.writes reply) }
    ensures frame { IfOk result (λ e. e.frame ≡ frame.now) }
    ensures agrees { IfOk result (λ e. AgreesWithBook (S.book recorder.source) e.reads) }
    ensures reply { IfOk result (λ e. IfSome (S.book recorder.source) (λ rows. e.reply ≡ reply_of rows frame.now)) }
    ensures writes { IfOk result (λ e. IfSome (S.book recorder.source) (λ rows. e.writes ≡ writes_of rows frame.now)) }
    ensures stop { IfErr result (λ stop. decided ≡ Err stop) }
{
    let (_, reads, writes) = recorder.into_parts();
    match decided {
        Ok(reply) => Ok(Execution {
            frame: *frame,
            reads,
            writes,
            reply,
        }),
        Err(stop) => Err(stop),
    }
}
