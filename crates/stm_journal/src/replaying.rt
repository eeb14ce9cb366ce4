ghost use Rattle.std.specs.Prelude.{◌≡◌, ◌≤◌, ◌⊎◌, Err, ℕ, length, IfOk, OnOk, IsTrue, IsFalse};
ghost use Rattle.issuer_words.specs.Words.{Agrees, decision, keys_read};
ghost use Rattle.stm_core_laws.specs.Words.{opening_play, slot};
ghost use Rattle.stm_journal_text.specs.Logged.{log_rows, IsUnlogged, IsUnloggedEvent, IsFirstUnlogged, greatest};
ghost use Rattle.stm_journal_text.specs.Plays.{EntryStep, Plays};
ghost use Rattle.stm_scheduler.specs.Board.{mark};

use crate::asking::ask;
use crate::logged_rows::LoggedRows;
use issuer_rows::{Book, Frame};
use issuer_rules::decide;
use issuer_view::{Execution, Recorder, Stop};
use std::alloc::{AllocError, Global};
use stm_core::Core;
use stm_core_laws::{CoreFault, Seat};
use stm_journal_text::{CoreAnswer, Entry, Event, ReplayFault};
use stm_memory::Version;

/// Plays a journal again, on a core of this book and these bodies without limits but those of the numbers. A finish is decided anew, by
/// the decision table on the rows that the core logged. An entry whose decision needs a row that wasn't logged is
/// [`ReplayFault::Unlogged`]. The fault is never `Line`; and memory can run out.
pub fn replay(
    alloc: Global,
    book: &Book,
    frames: &[Frame],
    entries: &[Entry],
) -> Result<Core, ReplayFault>
    requires { length frames.now ≤ 65536 }
    ensures played { IfOk result (λ core. Plays (opening_play book.now frames.now greatest) entries.now core) }
    ensures unlogged { (n : ℕ) → result ≡ Err (ReplayFault.Unlogged n) → IsFirstUnlogged (opening_play book.now frames.now greatest) entries.now n }
    ensures exact { (n : ℕ) → IsFirstUnlogged (opening_play book.now frames.now greatest) entries.now n → (result ≡ Err (ReplayFault.Unlogged n)) ⊎ (result ≡ Err ReplayFault.OutOfMemory) }
    ensures lines { (n : ℕ) → ¬ (result ≡ Err (ReplayFault.Line n)) }
{
    match Core::new(alloc, book, frames) {
        Ok(mut core) => match play_all(alloc, &mut core, frames, entries) {
            Ok(()) => Ok(core),
            Err(fault) => Err(fault),
        },
        Err(_) => Err(ReplayFault::OutOfMemory),
    }
}

// Plays the entries, one after another, from where the core stands.
fn play_all(
    alloc: Global,
    core: &mut Core,
    frames: &[Frame],
    entries: &[Entry],
) -> Result<(), ReplayFault>
    requires { core.old.state.frames ≡ frames.now }
    ensures played { OnOk result (Plays core.old entries.now core.new) }
    ensures unlogged { (n : ℕ) → result ≡ Err (ReplayFault.Unlogged n) → IsFirstUnlogged core.old entries.now n }
    ensures exact { (n : ℕ) → IsFirstUnlogged core.old entries.now n → (result ≡ Err (ReplayFault.Unlogged n)) ⊎ (result ≡ Err ReplayFault.OutOfMemory) }
    ensures lines { (n : ℕ) → ¬ (result ≡ Err (ReplayFault.Line n)) }
{
    for index in 0..entries.len() {
        if !play_entry(alloc, core, frames, &entries[index])? {
            return Err(ReplayFault::Unlogged(index + 1));
        }
    }
    Ok(())
}

// Plays one entry again; false where the table needs a row that wasn't logged.
#[tactic(auto, using(crate::proofs::Replayed::asked_again))]
fn play_entry(
    alloc: Global,
    core: &mut Core,
    frames: &[Frame],
    entry: &Entry,
) -> Result<bool, AllocError>
    requires { core.old.state.frames ≡ frames.now }
    ensures played { IfOk result (λ done. IsTrue done → EntryStep core.old entry.now core.new) }
    ensures unlogged { IfOk result (λ done. IsFalse done → IsUnloggedEvent core.old.state entry.now.event) }
{
    if let Event::Finish(version) = &entry.event {
        return finish_again(alloc, core, frames, entry.seat, *version);
    }
    match ask(core, entry.seat, &entry.event) {
        CoreAnswer::Refused(CoreFault::OutOfMemory) => Err(AllocError),
        _ => Ok(true),
    }
}

// Decides the version's message anew on the rows that it logged, and hands it in; false where the table needs another row. A version
// that isn't running is refused whatever is handed in.
fn finish_again(
    alloc: Global,
    core: &mut Core,
    frames: &[Frame],
    seat: Seat,
    version: Version,
) -> Result<bool, AllocError>
    requires { core.old.state.frames ≡ frames.now }
    ensures played { IfOk result (λ done. IsTrue done → EntryStep core.old (record { seat = seat; event = Event.Finish version }) core.new) }
    ensures unlogged { IfOk result (λ done. IsFalse done → IsUnlogged core.old.state version) }
{
    if !core.is_running(version) {
        return Ok(true);
    }
    let execution = decide_on_log(alloc, core, version, &frames[version.index as usize])?;
    let _ = execution.frame();
    match core.finish(alloc, version, execution) {
        Ok(_) => Ok(true),
        Err(CoreFault::OtherReads) => Ok(false),
        Err(CoreFault::OutOfMemory) => Err(AllocError),
        Err(CoreFault::Exhausted) => Ok(true),
        Err(CoreFault::NotRunning | CoreFault::Outdated) => unreachable!(),
    }
}

/// What the decision table gives the body on the rows that this version logged, which is the present one of its message.
pub fn decide_on_log(
    alloc: Global,
    core: &Core,
    version: Version,
    frame: &Frame,
) -> Result<Execution, AllocError>
    requires { (mark core.now.state.board version.index).incarnation ≡ version.incarnation }
    ensures frame { IfOk result (λ x. x.frame ≡ frame.now) }
    ensures agrees { IfOk result (λ x. Agrees x.reads (log_rows (slot core.now.state version.index).log)) }
    ensures keys { IfOk result (λ x. keys_read x.reads ≡ (decision (log_rows (slot core.now.state version.index).log) frame.now).needs) }
{
    let mut recorder = Recorder::new(alloc, LoggedRows::new(core, version));
    let reply = match decide(frame, &mut recorder) {
        Ok(reply) => reply,
        Err(Stop::OutOfMemory) => return Err(AllocError),
        Err(Stop::Blocked(_) | Stop::Lost) => unreachable!(),
    };
    let (_, reads, writes) = recorder.into_parts();
    Ok(Execution::new(*frame, reads, writes, reply))
}
