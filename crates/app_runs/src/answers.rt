ghost use Rattle.std.specs.Prelude.{◌≡◌, IfOk};
ghost use Rattle.app_runs.specs.Answers.{IsAnswerTo, answer_text};

use engine_locked::run;
use engine_workers::{NoHook, Workers};
use file_laws::frame_of;
use iso_codec::encode_reply;
use issuer_rows::{Book, ReplyBody};
use issuer_rules::Shipped;
use std::alloc::{AllocError, Global};
use std::sync::Wait;
use std::thread::Threads;

/// The answer to one body on the book: the reply's bytes, or `F` with the fault of a body that is no message. The only
/// fault is out of memory.
pub fn answer_on<R: Threads + Wait + Sync>(
    rt: &R,
    alloc: Global,
    book: &Book,
    body: &[u8],
    workers: Workers,
) -> Result<Vec<u8>, AllocError>
    ensures { IfOk result (λ text. IsAnswerTo book.now body.now text.items) }
{
    let frames = [frame_of(body)];
    let outcome = run(rt, alloc, book, &frames, workers, &Shipped, &NoHook)?;
    match outcome.replies.first() {
        Some(reply) => text_of(alloc, reply),
        None => unreachable!(),
    }
}

// The bytes of a reply.
fn text_of(alloc: Global, reply: &ReplyBody) -> Result<Vec<u8>, AllocError>
    ensures { IfOk result (λ text. text.items ≡ answer_text reply.now) }
{
    let mut text = Vec::new(alloc);
    match reply {
        ReplyBody::Reply(reply) => encode_reply(reply, &mut text).map_err(|_| AllocError)?,
        ReplyBody::Fault(fault) => text.extend_from_slice(&fault.body())?,
    }
    Ok(text)
}
