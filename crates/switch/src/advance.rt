use crate::estimate::Estimate;
use std::fmt;
use std::num::NonZeroU64;

/// How far a file is read. Its text is what a person is told, as `read 120 of 400 MiB, 30 %, in 3 s, 40 MiB/s, 7 s left`, or where that isn't
/// known, `read 120 MiB in 3 s`.
#[derive(Clone, Copy)]
pub(crate) struct Advance {
    /// How many bytes are read.
    pub(crate) read: u64,
    /// How many seconds have gone by since it was opened.
    pub(crate) seconds: u64,
    /// How many bytes it has, where that is known.
    pub(crate) whole: Option<u64>,
}

impl Advance {
    ghost use Rattle.std.specs.Prelude.{◌≡◌};
    ghost use Rattle.switch.specs.Advancing.{estimate_of};

    /// What follows for the whole file: nothing where its size isn't known, before something is read, and within the first second.
    pub(crate) fn estimate(&self) -> Option<Estimate>
        ensures { result ≡ estimate_of self.now }
    {
        let whole = self.whole?;
        let read = NonZeroU64::new(self.read)?;
        let seconds = NonZeroU64::new(self.seconds)?;
        Some(Estimate::new(read, seconds, whole))
    }
}

impl fmt::Display for Advance {
    ghost use Rattle.std.specs.Prelude.{Some};
    ghost use Rattle.switch.specs.Advancing.{advance_words};

    ghost output = { λ advance. Some (advance_words advance) };

    fn fmt<W: fmt::Write>(&self, f: &mut fmt::Formatter<W>) -> fmt::Result {
        let read = self.read / 1_048_576;
        let seconds = self.seconds;
        match self.estimate() {
            Some(estimate) => {
                let (whole, rate) = (estimate.whole / 1_048_576, estimate.rate / 1_048_576);
                let (percent, left) = (estimate.percent, estimate.left);
                write!(
                    f,
                    "read {read} of {whole} MiB, {percent} %, in {seconds} s, {rate} MiB/s, {left} s left"
                )
            }
            None => write!(f, "read {read} MiB in {seconds} s"),
        }
    }
}
