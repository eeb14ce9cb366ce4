ghost use Rattle.std.specs.Prelude.{◌≡◌, ◌≤◌, ◌++◌, drop, length, IfOk};
ghost use Rattle.issuer_rows.specs.Fold.{rows_after, replies_to};

use crate::shipped::Shipped;
use issuer_fold::{Prefix, decide_all_by};
use issuer_rows::Frame;
use std::alloc::{AllocError, Global};

/// Decides the bodies that a prefix leaves, one after another, by the decision table. It fails only where memory runs out, and the prefix
/// is gone then.
pub fn decide_all(alloc: Global, prefix: Prefix, frames: &[Frame]) -> Result<Prefix, AllocError>
    requires count { prefix.count ≤ length frames.now }
    requires frames { length frames.now ≤ 65536 }
    ensures count { IfOk result (λ after. after.count ≡ length frames.now) }
    ensures book { IfOk result (λ after. after.book ≡ rows_after prefix.book (drop prefix.count frames.now)) }
    ensures replies { IfOk result (λ after. after.replies.items ≡ prefix.replies.items ++ replies_to prefix.book (drop prefix.count frames.now)) }
{
    decide_all_by(alloc, prefix, frames, &Shipped)
}
