ghost use Rattle.std.specs.Prelude.{◌≡◌, Some, IfSome};
ghost use Rattle.stm_journal_text.specs.Logged.{log_rows, logged_book};
ghost use Rattle.issuer_rows.specs.RowVal.{IsOfKind};
ghost use Rattle.stm_scheduler.specs.Board.{mark};
ghost use Rattle.stm_core_laws.specs.State.{slot};

use issuer_rows::{RowKey, RowVal};
use issuer_view::{RowSource, Stop};
use stm_core::Core;
use stm_memory::Version;

/// The rows that a version logged; any other is absent.
#[derive(Drop)]
pub(crate) struct LoggedRows<'a> {
    core: &'a Core,
    version: Version,
    ghost present: { (mark core.now.state.board version.index).incarnation ≡ version.incarnation },
}

impl<'a> LoggedRows<'a> {
    /// The rows that this version logged.
    pub(crate) fn new(core: &'a Core, version: Version) -> LoggedRows<'a>
        requires { (mark core.now.state.board version.index).incarnation ≡ version.incarnation }
        ensures core { result.core.now ≡ core.now }
        ensures version { result.version ≡ version }
    {
        LoggedRows { core, version }
    }
}

impl RowSource for LoggedRows<'_> {
    ghost book = { λ s. Some (logged_book (slot s.core.now.state s.version.index).log) };

    ghost answers = { λ _ _ _ _. Unit {0} };

    #[tactic(auto, using(crate::proofs::Replayed::get_logged))]
    fn read(&mut self, key: &RowKey) -> Result<Option<RowVal>, Stop> {
        Ok(logged_row(self.core, self.version, key))
    }
}

// The row as the version logged it; absent if it did not.
fn logged_row(core: &Core, version: Version, key: &RowKey) -> Option<RowVal>
    requires { (mark core.now.state.board version.index).incarnation ≡ version.incarnation }
    ensures value { result ≡ log_rows (slot core.now.state version.index).log key.now }
    ensures kind { IfSome result (IsOfKind key.now) }
{
    match core.logged(version, key) {
        Some(value) => value,
        None => None,
    }
}
