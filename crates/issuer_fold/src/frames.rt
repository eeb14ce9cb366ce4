ghost use Rattle.std.specs.Prelude.{◌≡◌, ◌↔◌, IsTrue};

use issuer_rows::Frame;

/// Whether both lists have the same bodies.
pub fn are_same_frames(mine: &[Frame], theirs: &[Frame]) -> bool
    ensures { IsTrue result ↔ (mine.now ≡ theirs.now) }
{
    if mine.len() != theirs.len() {
        return false;
    }
    for index in 0..mine.len() {
        if !mine[index].is_same(&theirs[index]) {
            return false;
        }
    }
    true
}
