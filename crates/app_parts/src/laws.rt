//! What the files of parts come to.

ghost use Rattle.app_parts_folder.specs.Joining.{Names};
ghost use Rattle.app_parts_folder.specs.Parting.{Parting};
ghost use Rattle.app_parts.specs.Run.{JoinsOneRun};

use file_devices::Files;

/// A batch that `part` put in parts, each of which was decided one message after another by whatever decides so: what `join` puts together are
/// the replies and the book of deciding the whole batch one message after another.
pub fn parts_are_one_run<F: Files>(before: &F, after: &F)
    ensures { (names : Names) (p : Parting) → JoinsOneRun (F.is_known before.now) (F.holds before.now) (F.holds after.now) names p }
{}
