ghost use Rattle.std.specs.Prelude.{◌≡◌, Bool, true, Err, IfSome, OnOk};
ghost use Rattle.issuer_rows.specs.RowVal.{IsOfKind};

use issuer_rows::{RowKey, RowVal};
use issuer_view::Execution;
use std::alloc::Global;
use stm_core::Unread;
use stm_core_laws::{CoreFault, Seat};
use stm_journal_text::CoreAnswer;
use stm_memory::Version;
use stm_scheduler::Task;

/// A core that workers share, whether it keeps a journal or not: what they ask of it.
pub trait SharedCore {
    // What is known once the end of a validation is answered that no incarnation or epoch is left.
    ghost known_exhausted: { Self → Type 0 };

    // Whether the stop mark is set. `stop` alone changes that.
    ghost mark: { Self → Bool };

    /// Sets the stop mark.
    fn stop(&mut self)
        ensures mark { mark self.new ≡ true };

    /// Whether the stop mark is set.
    fn stopped(&self) -> bool
        ensures mark { result ≡ mark self.now };

    /// Claims the next task. It fails only where memory runs out.
    fn claim(&mut self, seat: Seat) -> Result<Task, CoreFault>
        ensures mark { mark self.new ≡ mark self.old };

    /// Asks for a row. It is written to a place of the caller's.
    fn read_into(
        &mut self,
        seat: Seat,
        version: Version,
        row: &RowKey,
        value: &mut Option<RowVal>,
    ) -> Result<(), Unread>
        ensures kind { OnOk result (IfSome value.new (IsOfKind row.now)) }
        ensures mark { mark self.new ≡ mark self.old };

    /// Aborts a version that met an ESTIMATE of the message at `on`.
    fn block(&mut self, seat: Seat, version: Version, on: u32) -> CoreAnswer
        ensures mark { mark self.new ≡ mark self.old };

    /// Hands in the execution of a version, which stays with the caller.
    fn finish_copy(
        &mut self,
        alloc: Global,
        seat: Seat,
        version: Version,
        execution: &Execution,
    ) -> CoreAnswer
        ensures mark { mark self.new ≡ mark self.old };

    /// Begins a validation of the version. Returns whether it is at its end.
    fn begin_validation(&mut self, seat: Seat, version: Version) -> Result<bool, CoreFault>
        ensures mark { mark self.new ≡ mark self.old };

    /// Resolves the next read of the seat's validation again. Returns whether the validation is at its end then.
    fn validate_one(&mut self, seat: Seat) -> Result<bool, CoreFault>
        ensures mark { mark self.new ≡ mark self.old };

    /// Closes the seat's validation. Returns whether the version passed it.
    fn end_validation(&mut self, seat: Seat) -> Result<bool, CoreFault>
        ensures exhausted { result ≡ Err CoreFault.Exhausted → known_exhausted self.new }
        ensures mark { mark self.new ≡ mark self.old };

    /// Commits the next message, if it can be. It fails only where memory runs out.
    fn commit(&mut self, seat: Seat) -> Result<bool, CoreFault>
        ensures mark { mark self.new ≡ mark self.old };
}
