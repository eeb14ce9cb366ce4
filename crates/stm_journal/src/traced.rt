ghost use Rattle.std.specs.Prelude.{◌≡◌, ◌≤◌, [], true, false, length, Err, IfOk, IfSome, OnOk};
ghost use Rattle.stm_journal.specs.Answered.{claimed, was_read, validated, ended, committed};
ghost use Rattle.stm_journal.specs.Finished.{IsFinished};
ghost use Rattle.issuer_rows.specs.RowVal.{IsOfKind};
ghost use Rattle.stm_journal.specs.Journaled.{IsJournalStep};
ghost use Rattle.stm_journal_text.specs.Words.{FinishAnswersTo, IsAnswerOfKind, IsNoFinish};
ghost use Rattle.stm_journal_text.specs.Words.{IsPlayed, greatest};
ghost use Rattle.stm_core_laws.specs.Play.{opening_play};

use crate::asking::{
    ask, begin_validation, claim, commit, end_validation, enters, enters_claim, enters_read,
    hand_in, read_into, validate_one,
};
use crate::entering::enter;
use crate::shared_core::SharedCore;
use issuer_rows::{Book, Frame, RowKey, RowVal};
use issuer_view::Execution;
use std::alloc::{AllocError, Global};
use std::marker::Model;
use stm_core::{Core, Unread};
use stm_core_laws::{CoreFault, Limits, Seat};
use stm_journal_text::{CoreAnswer, Entry, Event};
use stm_memory::Version;
use stm_scheduler::Task;

/// A core with its journal: what was asked of it, in order; and the stop mark of its workers. The core is the play of the entries.
#[derive(Drop)]
pub struct Traced {
    core: Core,
    entries: Vec<Entry>,
    stopped: bool,
}

impl Model for Traced {
    ghost use Rattle.stm_journal.specs.Journaled.{Journaled, journaled_code};
    ghost use Rattle.stm_journal_text.specs.Plays.{IsPlayed};
    ghost use Rattle.stm_journal_text.specs.contracts.entry.Entry.{the_row as entry_row};
    ghost use Rattle.stm_core.specs.contracts.speculative.Core.{the_row as core_row};

    ghost Value = { Journaled };

    ghost coded = { journaled_code core_row.coded entry_row.coded };

    ghost view = { λ t. record { core = t.core; entries = t.entries.items; stopped = t.stopped } };

    ghost invariant = { λ t. IsPlayed t.core t.entries.items };
}

impl Traced {
    /// A core in its opening state, over copies of the book and the frames, without limits but those of the numbers. Its journal is
    /// empty. It fails only where memory runs out.
    pub fn new(alloc: Global, book: &Book, frames: &[Frame]) -> Result<Traced, AllocError>
        requires { length frames.now ≤ 65536 }
        ensures core { IfOk result (λ traced. traced.core ≡ opening_play book.now frames.now greatest) }
        ensures entries { IfOk result (λ traced. traced.entries ≡ []) }
        ensures stopped { IfOk result (λ traced. traced.stopped ≡ false) }
    {
        let limits = Limits {
            incarnation: u32::MAX,
            epoch: u64::MAX,
        };
        Traced::with_limits(alloc, book, frames, limits)
    }

    /// The same with these limits of the core.
    pub fn with_limits(
        alloc: Global,
        book: &Book,
        frames: &[Frame],
        limits: Limits,
    ) -> Result<Traced, AllocError>
        requires { length frames.now ≤ 65536 }
        ensures core { IfOk result (λ traced. traced.core ≡ opening_play book.now frames.now limits) }
        ensures entries { IfOk result (λ traced. traced.entries ≡ []) }
        ensures stopped { IfOk result (λ traced. traced.stopped ≡ false) }
    {
        Ok(Traced {
            core: Core::with_limits(alloc, book, frames, limits)?,
            entries: Vec::new(alloc),
            stopped: false,
        })
    }

    /// The core.
    pub fn core(&self) -> &Core
        ensures core { result.now ≡ self.now.core }
        ensures played { IsPlayed self.now.core self.now.entries }
    {
        &self.core
    }

    /// The journal: the entries in the order of asking.
    pub fn entries(&self) -> &[Entry]
        ensures { result.now ≡ self.now.entries }
    {
        &self.entries
    }

    /// Sets the stop mark.
    pub fn stop(&mut self)
        ensures core { self.new.core ≡ self.old.core }
        ensures entries { self.new.entries ≡ self.old.entries }
        ensures stopped { self.new.stopped ≡ true }
    {
        self.stopped = true;
    }

    /// Whether the stop mark is set.
    pub fn stopped(&self) -> bool
        ensures { result ≡ self.now.stopped }
    {
        self.stopped
    }

    /// Asks the core, at this seat. Room for the entry is made first. Out of memory and a claim that nothing is handed out for enter
    /// nothing; every other answer enters the event.
    #[tactic(auto, using(crate::proofs::Asked::played_on, crate::proofs::Asked::played_still))]
    pub fn step(&mut self, seat: Seat, event: Event) -> CoreAnswer
        requires { IsNoFinish event }
        ensures step { IsJournalStep self.old self.new seat event result }
        ensures kind { IsAnswerOfKind event result }
    {
        if self.entries.reserve(1).is_err() {
            return CoreAnswer::Refused(CoreFault::OutOfMemory);
        }
        let answer = ask(&mut self.core, seat, &event);
        if enters(&answer) {
            enter(&mut self.entries, Entry { seat, event });
        }
        answer
    }

    /// Hands in the execution of a version, at this seat. Room for the entry is made first. Out of memory, and an execution that did not
    /// read what the version was answered, enter nothing; every other answer enters the event.
    pub fn finish(
        &mut self,
        alloc: Global,
        seat: Seat,
        version: Version,
        execution: Execution,
    ) -> CoreAnswer
        ensures step { IsJournalStep self.old self.new seat (Event.Finish version) result }
        ensures answer { FinishAnswersTo self.old.core version execution result self.new.core }
    {
        self.finish_copy(alloc, seat, version, &execution)
    }

    /// The core and its journal.
    pub fn into_parts(self) -> (Core, Vec<Entry>)
        ensures core { result.0 ≡ self.core }
        ensures entries { result.1.items ≡ self.entries }
        ensures played { IsPlayed self.core self.entries }
    {
        let Traced {
            core,
            entries,
            stopped: _,
        } = self;
        (core, entries)
    }
}

// Each call asks the core as [`Traced::step`] does, with the core's own answer.
impl SharedCore for Traced {
    ghost known_exhausted = { λ t. IsFinished t.core t.entries };

    ghost mark = { λ t. t.stopped };

    fn stop(&mut self)
        ensures core { self.new.core ≡ self.old.core }
        ensures entries { self.new.entries ≡ self.old.entries }
        ensures stopped { self.new.stopped ≡ true }
    {
        self.stopped = true;
    }

    fn stopped(&self) -> bool
        ensures { result ≡ self.now.stopped }
    {
        self.stopped
    }

    fn block(&mut self, seat: Seat, version: Version, on: u32) -> CoreAnswer
        ensures step { IsJournalStep self.old self.new seat (Event.Block version on) result }
    {
        self.step(seat, Event::Block(version, on))
    }

    #[tactic(auto, using(crate::proofs::Asked::played_still))]
    fn claim(&mut self, seat: Seat) -> Result<Task, CoreFault>
        ensures step { IsJournalStep self.old self.new seat Event.Claim (claimed result) }
    {
        self.entries.reserve(1)?;
        let task = claim(&mut self.core, seat);
        if enters_claim(&task) {
            enter(
                &mut self.entries,
                Entry {
                    seat,
                    event: Event::Claim,
                },
            );
        }
        Ok(task)
    }

    #[tactic(auto, using(crate::proofs::Asked::played_still))]
    fn read_into(
        &mut self,
        seat: Seat,
        version: Version,
        row: &RowKey,
        value: &mut Option<RowVal>,
    ) -> Result<(), Unread>
        ensures step { IsJournalStep self.old self.new seat (Event.Read version row.now) (was_read result value.new) }
        ensures kind { OnOk result (IfSome value.new (IsOfKind row.now)) }
    {
        self.entries.reserve(1)?;
        let answer = read_into(&mut self.core, seat, version, row, value);
        if enters_read(&answer) {
            enter(
                &mut self.entries,
                Entry {
                    seat,
                    event: Event::Read(version, *row),
                },
            );
        }
        answer
    }

    fn begin_validation(&mut self, seat: Seat, version: Version) -> Result<bool, CoreFault>
        ensures step { IsJournalStep self.old self.new seat (Event.BeginValidation version) (validated result) }
    {
        self.entries.reserve(1)?;
        let answer = begin_validation(&mut self.core, seat, version);
        enter(
            &mut self.entries,
            Entry {
                seat,
                event: Event::BeginValidation(version),
            },
        );
        answer
    }

    fn validate_one(&mut self, seat: Seat) -> Result<bool, CoreFault>
        ensures step { IsJournalStep self.old self.new seat Event.ValidateOne (validated result) }
    {
        self.entries.reserve(1)?;
        let answer = validate_one(&mut self.core, seat);
        enter(
            &mut self.entries,
            Entry {
                seat,
                event: Event::ValidateOne,
            },
        );
        answer
    }

    fn end_validation(&mut self, seat: Seat) -> Result<bool, CoreFault>
        ensures step { IsJournalStep self.old self.new seat Event.EndValidation (ended result) }
        ensures exhausted { result ≡ Err CoreFault.Exhausted → IsFinished self.new.core self.new.entries }
    {
        self.entries.reserve(1)?;
        let answer = end_validation(&mut self.core, seat);
        enter(
            &mut self.entries,
            Entry {
                seat,
                event: Event::EndValidation,
            },
        );
        answer
    }

    fn commit(&mut self, seat: Seat) -> Result<bool, CoreFault>
        ensures step { IsJournalStep self.old self.new seat Event.Commit (committed result) }
    {
        self.entries.reserve(1)?;
        let is_committed = commit(&mut self.core, seat);
        enter(
            &mut self.entries,
            Entry {
                seat,
                event: Event::Commit,
            },
        );
        Ok(is_committed)
    }

    fn finish_copy(
        &mut self,
        alloc: Global,
        seat: Seat,
        version: Version,
        execution: &Execution,
    ) -> CoreAnswer
        ensures step { IsJournalStep self.old self.new seat (Event.Finish version) result }
        ensures answer { FinishAnswersTo self.old.core version execution.now result self.new.core }
    {
        if self.entries.reserve(1).is_err() {
            return CoreAnswer::Refused(CoreFault::OutOfMemory);
        }
        let named = version;
        let answer = hand_in(&mut self.core, alloc, seat, version, execution);
        if enters(&answer) {
            enter(
                &mut self.entries,
                Entry {
                    seat,
                    event: Event::Finish(named),
                },
            );
        }
        answer
    }
}
