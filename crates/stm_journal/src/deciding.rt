ghost use Rattle.std.specs.Prelude.{◌≡◌, ◌<◌, IfSome, None, length};
ghost use Rattle.std.specs.List.{AllByRecursion};
ghost use Rattle.stm_journal.specs.Turns.{IsFirstUnlogged};
ghost use Rattle.stm_journal_text.specs.Logged.{IsLogged};
ghost use Rattle.issuer_rows.specs.Agreement.{keys_read};
ghost use Rattle.stm_scheduler.specs.Board.{mark};
ghost use Rattle.stm_core_laws.specs.State.{slot};

use issuer_rows::RowKey;
use issuer_view::ReadSet;
use stm_core::Core;
use stm_memory::Version;

/// The present version of the message at this index.
pub(crate) fn present_version(core: &Core, index: u32) -> Version
    requires { index < length core.now.state.frames }
    ensures { result ≡ record { index = index; incarnation = (mark core.now.state.board index).incarnation } }
{
    let incarnation = core.incarnation(index);
    Version { index, incarnation }
}

/// The first of these rows that wasn't logged for the message at this index.
pub(crate) fn first_unlogged(core: &Core, index: u32, reads: &ReadSet) -> Option<RowKey>
    requires { index < length core.now.state.frames }
    ensures first { IfSome result (IsFirstUnlogged (slot core.now.state index).log (keys_read reads.now)) }
    ensures all { result ≡ None → AllByRecursion (IsLogged (slot core.now.state index).log) (keys_read reads.now) }
{
    let version = present_version(core, index);
    for place in 0..reads.len() {
        let (row, _) = reads.at(place);
        if core.logged(version, &row).is_none() {
            return Some(row);
        }
    }
    None
}
