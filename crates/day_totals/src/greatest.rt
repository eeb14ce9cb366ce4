//! The greatest totals.

ghost use Rattle.std.specs.Prelude.{◌≡◌, IfOk, string_bytes};
ghost use Rattle.day_totals.specs.Day.{AreGreatest, rank, shown};

use crate::total::Total;
use std::alloc::AllocError;
use std::cmp::Ordering;

/// The ten greatest totals, the greatest first, and of equal ones the one first whose name comes first. All, where there are no more
/// than ten. It fails only where memory runs out.
pub fn greatest_of(totals: Vec<Total>) -> Result<Vec<Total>, AllocError>
    ensures { IfOk result (λ greatest. AreGreatest (shown totals.items) (shown greatest.items)) }
{
    let mut ranked = totals;
    ranked.sort_by(rank)?;
    ranked.truncate(10);
    Ok(ranked)
}

// Which of two totals comes first.
fn rank(mine: &Total, theirs: &Total) -> Ordering
    ensures { result ≡ rank (string_bytes mine.now.name, mine.now.sum) (string_bytes theirs.now.name, theirs.now.sum) }
{
    match theirs.sum.cmp(&mine.sum) {
        Ordering::Equal => mine.name.cmp(&theirs.name),
        unequal => unequal,
    }
}
