ghost use Rattle.std.specs.Prelude.{◌≡◌, ◌⊎◌, IfOk, IfErr, IfSome};
ghost use Rattle.issuer_rows.specs.Agreement.{IsLocal};
ghost use Rattle.issuer_view.specs.Recording.{IsNew, IsStopOf};

use crate::recorder::Recorder;
use crate::row_source::RowSource;
use crate::stop::Stop;
use issuer_rows::{Frame, ReplyBody};

/// A way to decide messages that is local. Where it replies, its reply and the rows that it writes are those of the decision table on
/// every book that agrees with the rows that it read, and no other row is needed there.
pub trait Decide {
    /// Decides one body. The recorder has read and written nothing yet.
    fn decide<S: RowSource>(&self, frame: &Frame, rows: &mut Recorder<S>) -> Result<ReplyBody, Stop>
        requires { IsNew rows.old }
        ensures local { IfOk result (λ reply. IsLocal frame.now rows.new.reads rows.new.writes reply) }

        // It stops where its source's last question did, or memory ran out.
        ensures stop { IfErr result (λ stop. (stop ≡ Stop.OutOfMemory) ⊎ IsStopOf S.answers rows.new.source stop) }
        // A known book stays, and it stops only where memory runs out.
        ensures stops { IfSome (S.book rows.old.source) (λ _. IfErr result (λ stop. stop ≡ Stop.OutOfMemory)) }
        ensures book { S.book rows.new.source ≡ S.book rows.old.source };
}
