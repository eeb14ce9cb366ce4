//! The line of a reply.

ghost use Rattle.std.specs.Prelude.{◌≡◌, ◌++◌, ◌∷◌, IfOk, OnOk};
ghost use Rattle.iso_laws.specs.Replies.{answer_action, verdict_action, reply_mti};
ghost use Rattle.iso_laws.specs.Types.{mti_text};
ghost use Rattle.file_listing.specs.Lines.{reply_line, reply_words, approval_word};

use crate::writing::{put_number, put_word};
use iso8583::{Answer, Reply, Verdict};
use issuer_rows::ReplyBody;
use std::alloc::{AllocError, Global};

/// The line of the reply at this place, in ASCII: the place, the reply's type, its action, its approval code (`-` where it has none) and
/// its trace number, as `0 1110 000 000001 000001`. For a body that is no message: the place and the fault, as `1 F05049`. It fails only
/// where memory runs out.
pub fn reply_line(alloc: Global, place: u32, reply: &ReplyBody) -> Result<Vec<u8>, AllocError>
    ensures { IfOk result (λ line. line.items ≡ reply_line place reply.now) }
{
    let mut line = Vec::new(alloc);
    put_number(&mut line, u64::from(place))?;
    match reply {
        ReplyBody::Reply(reply) => put_reply(&mut line, reply)?,
        ReplyBody::Fault(fault) => put_word(&mut line, &fault.body())?,
    }
    Ok(line)
}

/// Appends the words of a reply.
fn put_reply(line: &mut Vec<u8>, reply: &Reply) -> Result<(), AllocError>
    ensures { OnOk result (line.new.items ≡ line.old.items ++ reply_words reply.now) }
{
    put_word(line, mti_of(reply))?;
    put_action(line, &reply.answer)?;
    put_approval(line, &reply.answer)?;
    put_word(line, reply.transaction.stan.as_slice())
}

/// The four digits of a reply's type.
fn mti_of(reply: &Reply) -> &[u8]
    ensures { result.now ≡ mti_text (reply_mti reply.now) }
{
    match &reply.answer {
        Answer::Request(_, _) => b"1110",
        Answer::Advice(_, _) => b"1130",
        Answer::Reversal(_) => b"1430",
    }
}

/// Appends element 39.
fn put_action(line: &mut Vec<u8>, answer: &Answer) -> Result<(), AllocError>
    ensures { OnOk result (line.new.items ≡ line.old.items ++ 32 ∷ answer_action answer.now) }
{
    match answer {
        Answer::Request(verdict, _) => put_verdict(line, verdict),
        Answer::Advice(action, _) | Answer::Reversal(action) => {
            put_word(line, action.digits().as_slice())
        }
    }
}

/// Appends element 39 of an 1110.
fn put_verdict(line: &mut Vec<u8>, verdict: &Verdict) -> Result<(), AllocError>
    ensures { OnOk result (line.new.items ≡ line.old.items ++ 32 ∷ verdict_action verdict.now) }
{
    match verdict {
        Verdict::Approved(_) => put_word(line, b"000"),
        Verdict::Declined(code) => put_word(line, code.action().digits().as_slice()),
    }
}

/// Appends element 38, or that there is none.
fn put_approval(line: &mut Vec<u8>, answer: &Answer) -> Result<(), AllocError>
    ensures { OnOk result (line.new.items ≡ line.old.items ++ 32 ∷ approval_word answer.now) }
{
    match answer {
        Answer::Request(Verdict::Approved(code), _) => put_word(line, code.as_slice()),
        _ => put_word(line, b"-"),
    }
}
