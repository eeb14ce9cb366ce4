use std::num::NonZeroU64;

/// What follows for a whole file from how far it is read. All numbers are rounded down.
#[derive(Clone, Copy)]
pub(crate) struct Estimate {
    /// How many bytes the file has.
    pub(crate) whole: u64,
    /// How much of it is read, in per cent.
    pub(crate) percent: u64,
    /// How many bytes were read a second.
    pub(crate) rate: u64,
    /// In how many seconds the rest is read, if it is read as fast.
    pub(crate) left: u128,
}

impl Estimate {
    ghost use Rattle.std.specs.Prelude.{◌≡◌, ◌≤◌};
    ghost use Rattle.std.specs.Int.NonZero.{non_zero_u64_get};
    ghost use Rattle.switch.specs.Advancing.{estimated, left_of, percent_of};

    /// Of so many bytes that are read in so many seconds, of a file that has as many as the third number says.
    pub(crate) fn new(read: NonZeroU64, seconds: NonZeroU64, whole: u64) -> Estimate
        ensures { result ≡ estimated (non_zero_u64_get read) (non_zero_u64_get seconds) whole }
    {
        Estimate {
            whole,
            percent: Estimate::percent_of(read.get(), whole),
            rate: read.get() / seconds.get(),
            left: Estimate::left_of(read, seconds, whole),
        }
    }

    // How much is read, in per cent.
    fn percent_of(read: u64, whole: u64) -> u64
        ensures percent { result ≡ percent_of read whole }
        ensures within { result ≤ 100 }
    {
        if whole <= read {
            return 100;
        }
        (u128::from(read) * 100 / u128::from(whole)) as u64
    }

    // In how many seconds the rest is read.
    fn left_of(read: NonZeroU64, seconds: NonZeroU64, whole: u64) -> u128
        ensures { result ≡ left_of (non_zero_u64_get read) (non_zero_u64_get seconds) whole }
    {
        let rest = whole.saturating_sub(read.get());
        u128::from(rest) * u128::from(seconds.get()) / u128::from(read.get())
    }
}
