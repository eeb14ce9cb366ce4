//! A batch that is decided by either engine, and what it comes to.
ghost use Rattle.std.specs.Prelude.{◌≤◌, length};

use engine_locked::run;
use engine_parts::run_apart;
use engine_split::run_split;
use engine_workers::{Engine, Hook, Workers};
use issuer_fold::RunOutcome;
use issuer_rows::{Book, Frame};
use issuer_view::Decide;
use std::alloc::Global;
use std::sync::Wait;
use std::thread::Threads;
use std::time::Clock;
use test_fixtures::{first_wrong, frames, opening};

/// How many threads took part, and how many of the bodies the workers committed.
#[derive(Clone, Copy)]
pub(crate) struct Commits {
    pub(crate) started: u32,
    pub(crate) committed: usize,
    pub(crate) bodies: usize,
}

/// The bodies, decided on the book by so many workers of this engine; nothing where memory runs out. Parts have no hook.
pub(crate) fn decided_by<R: Clock + Threads + Wait + Sync, F: Decide + Sync, G: Hook>(
    rt: &R,
    alloc: Global,
    run_by: (Engine, u32),
    book: &Book,
    frames: &[Frame],
    decision: &F,
    hook: &G,
) -> Option<RunOutcome>
    requires { length frames.now ≤ 65536 }
{
    let workers = Workers::new(run_by.1)?;
    match run_by.0 {
        Engine::Locked => run(rt, alloc, book, frames, workers, decision, hook).ok(),
        Engine::Split => run_split(rt, alloc, book, frames, workers, decision, hook).ok(),
        Engine::Parts => run_apart(rt, alloc, book, frames, workers, decision).ok(),
    }
}

// The batch on this book, with these bodies.
fn came_on<'a, R: Clock + Threads + Wait + Sync, F: Decide + Sync, G: Hook>(
    rt: &R,
    alloc: Global,
    run_by: (Engine, u32),
    batch: &'a str,
    book: &Book,
    frames: &[Frame],
    decision: &F,
    hook: &G,
) -> Result<Commits, &'a str> {
    if frames.len() > 64 {
        return Err("64 bodies at most");
    }
    let Some(outcome) = decided_by(rt, alloc, run_by, book, frames, decision, hook) else {
        return Err("room");
    };
    match first_wrong(alloc, batch, &outcome.replies, &outcome.book) {
        Some(line) => Err(line),
        None => Ok(Commits {
            started: outcome.started,
            committed: outcome.committed as usize,
            bodies: frames.len(),
        }),
    }
}

// The batch on this book.
fn came_from<'a, R: Clock + Threads + Wait + Sync, F: Decide + Sync, G: Hook>(
    rt: &R,
    alloc: Global,
    run_by: (Engine, u32),
    batch: &'a str,
    book: &Book,
    decision: &F,
    hook: &G,
) -> Result<Commits, &'a str> {
    match frames(alloc, batch) {
        Ok(frames) => came_on(rt, alloc, run_by, batch, book, &frames, decision, hook),
        Err(_) => Err("room"),
    }
}

/// The batch, decided by so many workers of this engine: what it comes to, or its first line that isn't so.
pub(crate) fn came<'a, R: Clock + Threads + Wait + Sync, F: Decide + Sync, G: Hook>(
    rt: &R,
    alloc: Global,
    run_by: (Engine, u32),
    batch: &'a str,
    decision: &F,
    hook: &G,
) -> Result<Commits, &'a str> {
    match opening(alloc, batch) {
        Some(book) => came_from(rt, alloc, run_by, batch, &book, decision, hook),
        None => Err("its book"),
    }
}

/// Whether the batch comes out as it states, and the workers committed all of it.
pub(crate) fn is_committed<R: Clock + Threads + Wait + Sync, F: Decide + Sync, G: Hook>(
    rt: &R,
    alloc: Global,
    run_by: (Engine, u32),
    batch: &str,
    decision: &F,
    hook: &G,
) -> bool {
    match came(rt, alloc, run_by, batch, decision, hook) {
        Ok(came) => came.committed == came.bodies,
        Err(_) => false,
    }
}
