ghost use Rattle.std.specs.Prelude.{◌≡◌, ◌≤◌, true, false, length, IfOk, IfSome, OnOk};
ghost use Rattle.stm_journal.specs.Answered.{claimed, was_read, validated, ended, committed};
ghost use Rattle.stm_journal.specs.SomePlay.{IsSomePlay};
ghost use Rattle.stm_journal.specs.Marked.{IsMarkedStep};
ghost use Rattle.stm_journal_text.specs.Answers.{FinishAnswers};
ghost use Rattle.issuer_rows.specs.RowVal.{IsOfKind};
ghost use Rattle.stm_core_laws.specs.Play.{opening_play};

use crate::asking::{
    begin_validation, block, claim, commit, end_validation, hand_in, read_into, validate_one,
};
use crate::shared_core::SharedCore;
use issuer_rows::{Book, Frame, RowKey, RowVal};
use issuer_view::Execution;
use std::alloc::{AllocError, Global};
use std::marker::Model;
use stm_core::{Core, Unread};
use stm_core_laws::{CoreFault, Limits, Seat};
use stm_journal_text::{CoreAnswer, Event};
use stm_memory::Version;
use stm_scheduler::Task;

/// A core that keeps no journal, and the stop mark of its workers. The core is the play of some entries all the same.
#[derive(Drop)]
pub struct Untraced {
    core: Core,
    stopped: bool,
}

impl Model for Untraced {
    ghost use Rattle.stm_journal.specs.Marked.{Marked, marked_code};
    ghost use Rattle.stm_journal.specs.SomePlay.{IsSomePlay};
    ghost use Rattle.stm_core.specs.contracts.speculative.Core.{the_row as core_row};

    ghost Value = { Marked };

    ghost coded = { marked_code core_row.coded };

    ghost view = { λ u. record { core = u.core; stopped = u.stopped } };

    ghost invariant = { λ u. IsSomePlay u.core };
}

impl Untraced {
    /// A core in its opening state, over copies of the book and the frames, with these limits. It fails only where memory runs out.
    pub fn with_limits(
        alloc: Global,
        book: &Book,
        frames: &[Frame],
        limits: Limits,
    ) -> Result<Untraced, AllocError>
        requires { length frames.now ≤ 65536 }
        ensures core { IfOk result (λ untraced. untraced.core ≡ opening_play book.now frames.now limits) }
        ensures stopped { IfOk result (λ untraced. untraced.stopped ≡ false) }
    {
        Ok(Untraced {
            core: Core::with_limits(alloc, book, frames, limits)?,
            stopped: false,
        })
    }

    /// The core.
    pub fn core(&self) -> &Core
        ensures { result.now ≡ self.now.core }
    {
        &self.core
    }

    /// The core, without its stop mark.
    pub fn into_core(self) -> Core
        ensures core { result ≡ self.core }
        ensures played { IsSomePlay self.core }
    {
        let Untraced { core, stopped: _ } = self;
        core
    }
}

impl SharedCore for Untraced {
    ghost known_exhausted = { λ _. Unit {0} };

    ghost mark = { λ u. u.stopped };

    fn stop(&mut self)
        ensures core { self.new.core ≡ self.old.core }
        ensures stopped { self.new.stopped ≡ true }
    {
        self.stopped = true;
    }

    fn stopped(&self) -> bool
        ensures { result ≡ self.now.stopped }
    {
        self.stopped
    }

    fn claim(&mut self, seat: Seat) -> Result<Task, CoreFault>
        ensures step { IsMarkedStep self.old self.new seat Event.Claim (claimed result) }
    {
        Ok(claim(&mut self.core, seat))
    }

    fn read_into(
        &mut self,
        seat: Seat,
        version: Version,
        row: &RowKey,
        value: &mut Option<RowVal>,
    ) -> Result<(), Unread>
        ensures step { IsMarkedStep self.old self.new seat (Event.Read version row.now) (was_read result value.new) }
        ensures kind { OnOk result (IfSome value.new (IsOfKind row.now)) }
    {
        read_into(&mut self.core, seat, version, row, value)
    }

    fn block(&mut self, seat: Seat, version: Version, on: u32) -> CoreAnswer
        ensures step { IsMarkedStep self.old self.new seat (Event.Block version on) result }
    {
        block(&mut self.core, seat, version, on)
    }

    fn finish_copy(
        &mut self,
        alloc: Global,
        seat: Seat,
        version: Version,
        execution: &Execution,
    ) -> CoreAnswer
        ensures step { IsMarkedStep self.old self.new seat (Event.Finish version) result }
        ensures answer { FinishAnswers self.old.core version execution.now result self.new.core }
    {
        hand_in(&mut self.core, alloc, seat, version, execution)
    }

    fn begin_validation(&mut self, seat: Seat, version: Version) -> Result<bool, CoreFault>
        ensures step { IsMarkedStep self.old self.new seat (Event.BeginValidation version) (validated result) }
    {
        begin_validation(&mut self.core, seat, version)
    }

    fn validate_one(&mut self, seat: Seat) -> Result<bool, CoreFault>
        ensures step { IsMarkedStep self.old self.new seat Event.ValidateOne (validated result) }
    {
        validate_one(&mut self.core, seat)
    }

    fn end_validation(&mut self, seat: Seat) -> Result<bool, CoreFault>
        ensures step { IsMarkedStep self.old self.new seat Event.EndValidation (ended result) }
    {
        end_validation(&mut self.core, seat)
    }

    fn commit(&mut self, seat: Seat) -> Result<bool, CoreFault>
        ensures step { IsMarkedStep self.old self.new seat Event.Commit (committed result) }
    {
        Ok(commit(&mut self.core, seat))
    }
}
