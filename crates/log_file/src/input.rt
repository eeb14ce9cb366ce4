ghost use Rattle.std.specs.Prelude.{◌<◌, ◌≤◌, length};

use file_devices::Source;
use file_laws::LogFault;
use std::alloc::{AllocError, Global};

// How many bytes are asked for at once.
const PIECE: usize = 65_536;

/// A source, and what was taken from it and not read yet.
#[derive(Drop)]
pub(crate) struct Input<R> {
    pub(crate) source: R,
    alloc: Global,
    piece: Vec<u8>,
    taken: Vec<u8>,
    start: usize,
    ghost room: { 0 < length piece.items },
    ghost within: { start ≤ length taken.items },
}

impl<R: Source + Drop> Input<R> {
    ghost use Rattle.std.specs.Prelude.{◌≡◌, ◌+◌, ◌<◌, ◌≤◌, ◌++◌, [], false, true, length, drop, IfOk, IfErr, IsTrue, OnOk, Ok};
    ghost use Rattle.file_laws.specs.LogFault.{is_of_bytes};
    ghost use Rattle.log_file.specs.Ahead.{ahead, held};
    ghost use Rattle.log_file.specs.Device.{UsesFile};

    /// Nothing was taken yet.
    pub(crate) fn new(alloc: Global, source: R) -> Result<Input<R>, AllocError>
        ensures source { IfOk result (λ input. input.source ≡ source) }
        ensures held { IfOk result (λ input. held input ≡ []) }
    {
        Ok(Input {
            source,
            alloc,
            piece: vec![in alloc; 0; PIECE]?,
            taken: Vec::new(alloc),
            start: 0,
        })
    }

    /// The bytes that were taken and not read yet.
    pub(crate) fn held(&self) -> &[u8]
        ensures { result.now ≡ held self.now }
    {
        &self.taken[self.start..]
    }

    /// Goes on behind so many of them.
    pub(crate) fn skip(&mut self, count: usize)
        requires { count ≤ length (held self.old) }
        ensures held { held self.new ≡ drop count (held self.old) }
        ensures source { self.new.source ≡ self.old.source }
    {
        self.start += count;
    }

    // Takes more bytes, and returns whether there were some.
    fn take_more(&mut self) -> Result<bool, LogFault>
        ensures file { UsesFile R.is_known R.has_failed R.may_fail self.old.source self.new.source result }
        ensures fault { IfErr result (λ e. ¬ IsTrue (is_of_bytes e)) }
        ensures bytes { IfOk result (λ some. R.is_known self.old.source → ahead R.remaining self.new ≡ ahead R.remaining self.old) }
        ensures more { result ≡ Ok true → length (held self.old) < length (held self.new) }
        ensures end { result ≡ Ok false → R.is_known self.old.source → R.remaining self.new.source ≡ [] }
        ensures same { result ≡ Ok false → length (held self.new) ≡ length (held self.old) }
    {
        let mut left = Vec::new(self.alloc);
        left.extend_from_slice(&self.taken[self.start..])?;
        let Ok(count) = self.source.take(self.piece.as_mut_slice()) else {
            return Err(LogFault::Failed);
        };
        left.extend_from_slice(&self.piece[..count])?;
        self.taken = left;
        self.start = 0;
        Ok(count > 0)
    }

    /// Takes bytes until so many are held, or the source is at its end. Returns whether they are.
    pub(crate) fn fill(&mut self, wanted: usize) -> Result<bool, LogFault>
        ensures file { UsesFile R.is_known R.has_failed R.may_fail self.old.source self.new.source result }
        ensures fault { IfErr result (λ e. ¬ IsTrue (is_of_bytes e)) }
        ensures bytes { OnOk result (R.is_known self.old.source → ahead R.remaining self.new ≡ ahead R.remaining self.old) }
        ensures enough { result ≡ Ok true → wanted ≤ length (held self.new) }
        ensures less { result ≡ Ok false → length (held self.new) < wanted }
        ensures end { result ≡ Ok false → R.is_known self.old.source → R.remaining self.new.source ≡ [] }
    {
        while self.taken.len() - self.start < wanted {
            if !self.take_more()? {
                return Ok(false);
            }
        }
        Ok(true)
    }
}
