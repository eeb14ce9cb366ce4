ghost use Rattle.std.specs.Prelude.{◌≡◌, ℕ, ◌≤◌, [], length, IfOk};
ghost use Rattle.split_state.specs.CursorRule.{publisher};
ghost use Rattle.issuer_fold.specs.Run.{IsRun, IsStarted};

use crate::board::{Board, Storage};
use crate::leader::Leader;
use crate::leader_ledger::LeaderLedger;
use crate::run_brand::RunBrand;
use crate::turns::SplitWorker;
use crate::worker_state::WorkerState;
use engine_workers::{Hook, Workers};
use issuer_fold::{Prefix, RunOutcome};
use issuer_rows::{Book, Frame};
use issuer_rules::decide_all;
use issuer_view::Decide;
use split_state::{CursorSeat, Cursors, Ledger, Published};
use std::alloc::{AllocError, Global};
use std::marker::Brand;
use std::sync::Wait;
use std::thread;
use std::thread::Threads;

/// Decides the messages that a ledger leaves on several threads, through slots, shards and the ledger. The rows that no execution wrote
/// are seen in this book, which is the ledger's as it is now.
pub(crate) fn decide_together<R: Threads + Wait + Sync, F: Decide + Sync, G: Hook>(
    rt: &R,
    alloc: Global,
    seen: &Book,
    frames: &[Frame],
    ledger: Ledger<'_>,
    workers: Workers,
    decision: &F,
    hook: &G,
) -> Result<RunOutcome, AllocError>
    requires few { length frames.now ≤ 65536 }
    requires frames { ledger.frames ≡ frames.now }
    ensures { IfOk result (IsRun ledger.entry.opening frames.now workers) }
{
    let first = ledger.count();
    let storage = Storage::new(alloc, frames, first as usize)?;
    let (cursors, seat) = Cursors::new(alloc, u64::from(first), frames.len() as u64)?;
    let (ledger, started) = ledger_of::<Brand, R, F, G>(
        rt, alloc, seen, frames, workers, decision, hook, cursors, seat, ledger, storage,
    );
    outcome_of(alloc, ledger, frames, started)
}

// The ledger as the workers leave it, and how many threads took part.
fn ledger_of<'a, B: RunBrand + Send + Sync, R: Threads + Wait + Sync, F: Decide + Sync, G: Hook>(
    rt: &R,
    alloc: Global,
    seen: &Book,
    frames: &[Frame],
    workers: Workers,
    decision: &F,
    hook: &G,
    cursors: Cursors,
    mut seat: CursorSeat,
    ledger: Ledger<'a>,
    storage: Storage,
) -> (Ledger<'a>, u32)
    requires batch { (ledger.opening ≡ B.opening) × (ledger.frames ≡ B.frames) }
    requires table { (cursors ≡ B.table) × (seat.table_id ≡ B.table) }
    requires first { seat.me ≡ (publisher (length ledger.frames), []) }
    requires slots { length storage.slots.items ≡ length ledger.frames }
    ensures opening { result.0.opening ≡ B.opening }
    ensures frames { result.0.frames ≡ B.frames }
    ensures started { IsStarted result.1 workers }
{
    let place = WorkerState::new(alloc, cursors.another(&mut seat));
    let mut leader_ledger: LeaderLedger<'a, B> = LeaderLedger::new(Published::new(ledger, seat));
    leader_ledger.publish(&cursors);
    let leader = Leader::new(alloc, place, leader_ledger);
    let board = Board::new(alloc, cursors, storage);
    let worker = SplitWorker {
        rt,
        alloc,
        board: &board,
        seen,
        frames,
        decision,
        hook,
    };
    let (leader_ledger, started) = work_together(&worker, leader, workers);
    (leader_ledger.into_ledger(), started)
}

// Starts the other workers and works as the first; returns the ledger, and how many took part.
fn work_together<
    'a,
    B: RunBrand + Send + Sync,
    R: Threads + Wait + Sync,
    F: Decide + Sync,
    G: Hook,
>(
    worker: &SplitWorker<'_, B, R, F, G>,
    mut leader: Leader<'a, B>,
    workers: Workers,
) -> (LeaderLedger<'a, B>, u32)
    ensures { IsStarted result.1 workers }
{
    let count = workers.count();
    thread::scope(
        thread::scope_env(),
        worker.rt,
        move |scope| -> (LeaderLedger<'_, B>, u32)
            requires { IsStarted count 64 }
            ensures { IsStarted result.1 count }
        {
            let mut started = 1u32;
            for _number in 1..count {
                let other = leader.another(worker.board);
                if scope.spawn(move || worker.work(other)).is_ok() {
                    started += 1;
                }
            }
            (worker.lead(leader), started)
        },
    )
}

/// What the ledger has, which the workers committed, then what they left, decided one after another by the shipped decision.
#[tactic(auto, using(issuer_fold::proofs::FoldLaws::rows_of_both, issuer_fold::proofs::FoldLaws::replies_of_both))]
pub(crate) fn outcome_of(
    alloc: Global,
    ledger: Ledger<'_>,
    frames: &[Frame],
    started: u32,
) -> Result<RunOutcome, AllocError>
    requires few { length frames.now ≤ 65536 }
    requires frames { ledger.frames ≡ frames.now }
    ensures run { (workers : ℕ) → IsStarted started workers → IfOk result (IsRun ledger.entry.opening frames.now workers) }
    ensures kept { IfOk result (λ outcome. outcome.committed ≡ ledger.entry.count) }
{
    let prefix = ledger.into_prefix();
    let committed = prefix.count;
    let Prefix { book, replies, .. } = decide_all(alloc, prefix, frames)?;
    Ok(RunOutcome {
        replies,
        book,
        started,
        committed,
    })
}
