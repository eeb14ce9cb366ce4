use file_devices::{Broken, FromRead, Source};
use std::io::Stdin;

/// A file that is read, or standard input, which is read where it stands.
#[derive(Drop)]
pub(crate) struct StreamInput<S> {
    from: From<S>,
    has_failed: bool,
}

// What is read.
#[derive(Drop)]
enum From<S> {
    File(S),
    Standard(FromRead<Stdin>),
}

impl<S: Source> StreamInput<S> {
    ghost use Rattle.std.specs.Prelude.{◌≡◌, false};

    /// A file.
    pub(crate) fn file(file: S) -> StreamInput<S>
        ensures { result.has_failed ≡ false }
    {
        StreamInput {
            from: From::File(file),
            has_failed: false,
        }
    }

    /// Standard input.
    pub(crate) fn standard(stream: Stdin) -> StreamInput<S>
        ensures { result.has_failed ≡ false }
    {
        StreamInput {
            from: From::Standard(FromRead::new(stream)),
            has_failed: false,
        }
    }
}

impl<S: Source> Source for StreamInput<S> {
    ghost use Rattle.std.specs.Prelude.{[]};

    ghost is_known = { λ _. ⊥ };

    ghost remaining = { λ _. [] };

    ghost has_failed = { λ input. input.has_failed };

    ghost may_fail = { λ _. Unit {0} };

    fn take(&mut self, buffer: &mut [u8]) -> Result<usize, Broken> {
        let taken = match &mut self.from {
            From::File(file) => file.take(buffer),
            From::Standard(stream) => stream.take(buffer),
        };
        match taken {
            Ok(count) => Ok(count),
            Err(broken) => {
                self.has_failed = true;
                Err(broken)
            }
        }
    }
}
