ghost use Rattle.std.specs.Prelude.{◌≡◌, ◌↔◌, ◌<◌, length, IsTrue};
ghost use Rattle.stm_scheduler.specs.Board.{IsRunning, IsOpen};

use stm_memory::Version;
use stm_scheduler::{Scheduler, Status};

/// Whether the version was handed out, and has neither finished nor been aborted.
pub(crate) fn is_running(scheduler: &Scheduler, version: Version) -> bool
    ensures running { IsTrue result ↔ IsRunning scheduler.now.board version }
    ensures within { IsTrue result → version.index < length scheduler.now.board.marks }
{
    (version.index as usize) < scheduler.len()
        && scheduler.status(version.index) == Status::Running
        && scheduler.incarnation(version.index) == version.incarnation
}

/// Whether the version is executed and not committed.
pub(crate) fn is_open(scheduler: &Scheduler, version: Version) -> bool
    ensures opened { IsTrue result ↔ IsOpen scheduler.now.board version }
    ensures within { IsTrue result → version.index < length scheduler.now.board.marks }
{
    (version.index as usize) < scheduler.len()
        && scheduler.status(version.index) == Status::Executed
        && scheduler.incarnation(version.index) == version.incarnation
        && scheduler.committed() <= version.index
}
