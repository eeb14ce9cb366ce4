ghost use Rattle.std.specs.Prelude.{◌≡◌, IfOk, string_bytes};
ghost use Rattle.app_runs.specs.Answers.{IsAnswerInDigits};
ghost use Rattle.app_runs.specs.SampleBook.{sample_rows};

use crate::answers::answer_on;
use crate::sample::sample_book;
use engine_workers::Workers;
use std::alloc::{AllocError, Global};
use std::sync::Wait;
use std::thread::Threads;

/// The reply to one body on the sample book, in hexadecimal. It fails only where memory runs out.
pub fn decide_one<R: Threads + Wait + Sync>(
    rt: &R,
    alloc: Global,
    body: &[u8],
) -> Result<String, AllocError>
    ensures { IfOk result (λ text. IsAnswerInDigits sample_rows body.now (string_bytes text)) }
{
    let reply = answer_on(rt, alloc, &sample_book(alloc)?, body, two_workers())?;
    hex::encode(alloc, reply)
}

fn two_workers() -> Workers
    ensures { result ≡ 2 }
{
    let Some(workers) = Workers::new(2) else {
        unreachable!()
    };
    workers
}
