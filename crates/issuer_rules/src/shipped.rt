ghost use Rattle.std.specs.Prelude.{◌≡◌, ◌⊎◌, IfOk, IfErr, IfSome};
ghost use Rattle.issuer_words.specs.Words.{CodecFault, IsLocal};
ghost use Rattle.issuer_rules.specs.Needs.{ReadsNeeds, ReadsAllNeeds};
ghost use Rattle.issuer_view.specs.Recording.{IsNew, IsStopOf};

use crate::advice::decide_advice;
use crate::request::decide_request;
use crate::reversal::decide_reversal;
use iso8583::{Answer, Message, Reply};
use issuer_rows::{Frame, ReplyBody};
use issuer_view::{Decide, Recorder, RowSource, Stop};

/// Decides one body by the decision table, over any source of rows. It reads the rows that the table needs, each where the table comes to
/// it, and no other. The reply's action code is one of ISO 8583:1993.
pub fn decide<S: RowSource>(frame: &Frame, rows: &mut Recorder<S>) -> Result<ReplyBody, Stop>
    requires { IsNew rows.old }
    ensures local { IfOk result (λ reply. IsLocal frame.now rows.new.reads rows.new.writes reply) }
    // A body that is no message is answered its fault, whatever the source and the memory.
    ensures bad { (fault : CodecFault) → frame.now ≡ Frame.Bad fault → result ≡ Ok (ReplyBody.Fault fault) }
    // It stops where the source does or memory runs out; the rows that were read are the first of those that are needed,
    // and all of them where it replies.
    ensures stop { IfErr result (λ stop. (stop ≡ Stop.OutOfMemory) ⊎ IsStopOf S.answers rows.new.source stop) }
    ensures needs { ReadsNeeds frame.now rows.new.reads }
    ensures all { IfOk result (λ _. ReadsAllNeeds frame.now rows.new.reads) }
    // A known book stays, and it stops only where memory runs out.
    ensures stops { IfSome (S.book rows.old.source) (λ _. IfErr result (λ stop. stop ≡ Stop.OutOfMemory)) }
    ensures book { S.book rows.new.source ≡ S.book rows.old.source }
{
    Shipped.decide(frame, rows)
}

/// The decision of this issuer: the decision tables of requests, advices and reversals (ISO 8583:1993).
#[derive(Clone, Copy, Debug)]
pub struct Shipped;

impl Decide for Shipped {
    #[tactic(auto, using(crate::proofs::FollowingLaws::concluded_all))]
    fn decide<S: RowSource>(&self, frame: &Frame, rows: &mut Recorder<S>) -> Result<ReplyBody, Stop>
        requires { IsNew rows.old }
        ensures local { IfOk result (λ reply. IsLocal frame.now rows.new.reads rows.new.writes reply) }
        ensures bad { (fault : CodecFault) → frame.now ≡ Frame.Bad fault → result ≡ Ok (ReplyBody.Fault fault) }
        ensures stop { IfErr result (λ stop. (stop ≡ Stop.OutOfMemory) ⊎ IsStopOf S.answers rows.new.source stop) }
        ensures needs { ReadsNeeds frame.now rows.new.reads }
        ensures all { IfOk result (λ _. ReadsAllNeeds frame.now rows.new.reads) }
        ensures stops { IfSome (S.book rows.old.source) (λ _. IfErr result (λ stop. stop ≡ Stop.OutOfMemory)) }
        ensures book { S.book rows.new.source ≡ S.book rows.old.source }
    {
        match frame {
            Frame::Good(message) => match message {
                Message::Request(request) => {
                    let verdict = decide_request(request, rows)?;
                    Ok(ReplyBody::Reply(Reply {
                        transaction: request.transaction,
                        answer: Answer::Request(verdict, request.account),
                    }))
                }
                Message::Advice(advice) => decide_advice(advice, rows),
                Message::Reversal(reversal) => decide_reversal(reversal, rows),
            },
            Frame::Bad(fault) => Ok(ReplyBody::Fault(*fault)),
        }
    }
}
