ghost use Rattle.std.specs.Prelude.{◌≡◌, ◌↔◌, IsTrue};

use crate::kept::Kept;
use crate::mark::Mark;

/// What is known of the message of an identity.
#[derive(Clone, Copy)]
pub enum OriginalRow {
    /// It was decided.
    Kept(Kept),
    /// Its reversal came ahead of it.
    Ahead(Mark),
}

impl OriginalRow {
    /// Whether the other is the same.
    pub fn is_same(&self, other: &OriginalRow) -> bool
        ensures { IsTrue result ↔ (self.now ≡ other.now) }
    {
        match (self, other) {
            (OriginalRow::Kept(mine), OriginalRow::Kept(theirs)) => mine.is_same(theirs),
            (OriginalRow::Ahead(mine), OriginalRow::Ahead(theirs)) => mine.is_same(theirs),
            _ => false,
        }
    }
}
