//! Bytes that are taken behind those that stay.

ghost use Rattle.std.specs.Prelude.{◌≡◌, ◌+◌, ◌-◌, ◌<◌, ◌≤◌, ◌++◌, [], take, drop, length, slice_range, false, IfOk, OnErr, IsTrue};
ghost use Rattle.file_devices.specs.Devices.{failed_after_take};

use file_devices::{Broken, Source};

/// Moves a part of the buffer to its front.
pub(crate) fn move_to_front(buffer: &mut [u8], from: usize, to: usize)
    requires order { from ≤ to }
    requires within { to ≤ length buffer.old }
    ensures { take (to - from) buffer.new ≡ slice_range buffer.old from to }
{
    buffer.copy_within(from..to, 0);
}

/// Takes the next bytes into the buffer behind so many that stay, and returns how many came; 0 at the end.
pub(crate) fn take_behind<R: Source>(
    source: &mut R,
    buffer: &mut [u8],
    count: usize,
) -> Result<usize, Broken>
    requires room { count < length buffer.old }
    ensures failed { R.has_failed source.new ≡ failed_after_take result (R.has_failed source.old) }
    ensures device { IsTrue (failed_after_take result false) → R.may_fail source.old }
    ensures may { R.may_fail source.new → R.may_fail source.old }
    ensures known { R.is_known source.old → R.is_known source.new }
    ensures size { length buffer.new ≡ length buffer.old }
    ensures within { IfOk result (λ more. count + more ≤ length buffer.new) }
    ensures stay { take count buffer.new ≡ take count buffer.old }
    ensures bytes { IfOk result (λ more. R.is_known source.old → R.remaining source.old ≡ take more (drop count buffer.new) ++ R.remaining source.new) }
    ensures end { IfOk result (λ more. R.is_known source.old → more ≡ 0 → R.remaining source.old ≡ []) }
    ensures kept { OnErr result (R.is_known source.old → R.remaining source.new ≡ R.remaining source.old) }
{
    source.take(&mut buffer[count..])
}
