ghost use Rattle.std.specs.Prelude.{◌<◌, ◌≤◌, length, IfOk};
ghost use Rattle.issuer_reasons.specs.Explained.{Explains, ExplainsAt};

use crate::explanation::Explanation;
use crate::messages::rule_of;
use issuer_fold::{PlainRows, Prefix};
use issuer_rows::{Book, Frame};
use issuer_rules::{decide, decide_all};
use issuer_view::{Execution, Recorder, Stop};
use std::alloc::{AllocError, Global};

/// Why a body is decided so on this book. It fails only where memory runs out.
pub fn explain(alloc: Global, book: &Book, frame: &Frame) -> Result<Explanation, AllocError>
    ensures { IfOk result (Explains book.now frame.now) }
{
    let rule = rule_of(book, frame);
    let mut recorder = Recorder::new(alloc, PlainRows::new(book));
    let decided = decide(frame, &mut recorder);
    let (_, reads, writes) = recorder.into_parts();
    match decided {
        Ok(reply) => Ok(Explanation {
            rule,
            execution: Execution::new(*frame, reads, writes, reply),
        }),
        Err(Stop::OutOfMemory) => Err(AllocError),
        Err(_) => unreachable!(),
    }
}

/// Why the body at this place of a batch is decided so: those before it are decided on the book first, one after another. It fails only
/// where memory runs out.
pub fn explain_at(
    alloc: Global,
    book: Book,
    frames: &[Frame],
    index: usize,
) -> Result<Explanation, AllocError>
    requires within { index < length frames.now }
    requires frames { length frames.now ≤ 65536 }
    ensures { IfOk result (ExplainsAt book frames.now index) }
{
    let before = decide_all(alloc, Prefix::new(alloc, book), &frames[..index])?;
    explain(alloc, &before.book, &frames[index])
}
