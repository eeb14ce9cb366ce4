use file_devices::{Broken, IntoWrite, Sink};
use std::io::Stdout;

/// A file that is written beside its target, or standard output, which is written where it stands.
#[derive(Drop)]
pub(crate) struct StreamOutput<S> {
    to: To<S>,
    has_failed: bool,
}

// What is written.
#[derive(Drop)]
enum To<S> {
    File(S),
    Standard(IntoWrite<Stdout>),
}

impl<S: Sink> StreamOutput<S> {
    ghost use Rattle.std.specs.Prelude.{◌≡◌, Some, false};
    ghost use Rattle.switch.specs.declared.stream_output.To.TheVariants.{File};

    /// A file.
    pub(crate) fn file(file: S) -> StreamOutput<S>
        ensures file { result.to ≡ File file }
        ensures fresh { result.has_failed ≡ false }
    {
        StreamOutput {
            to: To::File(file),
            has_failed: false,
        }
    }

    /// Standard output.
    pub(crate) fn standard(stream: Stdout) -> StreamOutput<S>
        ensures { result.has_failed ≡ false }
    {
        StreamOutput {
            to: To::Standard(IntoWrite::new(stream)),
            has_failed: false,
        }
    }

    /// The file, unless it is standard output.
    pub(crate) fn into_file(self) -> Option<S>
        ensures { (file : S) → self.to ≡ File file → result ≡ Some file }
    {
        match self.to {
            To::File(file) => Some(file),
            To::Standard(_) => None,
        }
    }
}

impl<S: Sink> Sink for StreamOutput<S> {
    ghost use Rattle.std.specs.Prelude.{[]};

    ghost is_known = { λ _. ⊥ };

    ghost written = { λ _. [] };

    ghost has_failed = { λ output. output.has_failed };

    ghost may_fail = { λ _. Unit {0} };

    fn put(&mut self, bytes: &[u8]) -> Result<usize, Broken> {
        let put = match &mut self.to {
            To::File(file) => file.put(bytes),
            To::Standard(stream) => stream.put(bytes),
        };
        match put {
            Ok(0) => {
                self.has_failed = true;
                Ok(0)
            }
            Ok(count) => Ok(count),
            Err(broken) => {
                self.has_failed = true;
                Err(broken)
            }
        }
    }
}
