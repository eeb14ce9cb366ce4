//! A source and a sink in memory that fail at a stated call.

ghost use Rattle.std.specs.Prelude.{◌≡◌, ◌<◌, ◌≤◌, ◌++◌, [], false, length, take, IfOk, OnErr};

use crate::broken::Broken;
use crate::sink::Sink;
use crate::source::Source;
use std::alloc::Global;

/// Bytes in memory that are given in pieces, by a source whose calls fail once so many were answered.
#[derive(Drop)]
pub struct FailingSource<'a> {
    rest: &'a [u8],
    piece: usize,
    answers: u64,
    has_failed: bool,
    ghost room: { 0 < piece },
}

impl<'a> FailingSource<'a> {
    /// Gives at most `piece` bytes a call. So many calls are answered; each one after them fails.
    pub fn new(bytes: &'a [u8], piece: usize, answers: u64) -> FailingSource<'a>
        requires { 0 < piece }
        ensures bytes { result.rest.now ≡ bytes.now }
        ensures piece { result.piece ≡ piece }
        ensures answers { result.answers ≡ answers }
        ensures fresh { result.has_failed ≡ false }
    {
        FailingSource {
            rest: bytes,
            piece,
            answers,
            has_failed: false,
        }
    }
}

impl Source for FailingSource<'_> {
    ghost is_known = { λ _. Unit {0} };

    ghost remaining = { λ source. source.rest.now };

    ghost has_failed = { λ source. source.has_failed };

    ghost may_fail = { λ _. Unit {0} };

    fn take(&mut self, buffer: &mut [u8]) -> Result<usize, Broken> {
        if self.answers == 0 {
            self.has_failed = true;
            return Err(Broken);
        }
        self.answers -= 1;
        let count = self.rest.len().min(buffer.len()).min(self.piece);
        let (front, rest) = self.rest.split_at(count);
        buffer[..count].copy_from_slice(front);
        self.rest = rest;
        Ok(count)
    }
}

/// Bytes that are taken in pieces and kept in memory, by a sink whose calls fail once so many were answered.
#[derive(Drop)]
pub struct FailingSink {
    taken: Vec<u8>,
    piece: usize,
    answers: u64,
    has_failed: bool,
}

impl FailingSink {
    /// Takes at most `piece` bytes a call. So many calls are answered; each one after them fails, and so does one for which memory runs
    /// out.
    pub fn new(alloc: Global, piece: usize, answers: u64) -> FailingSink
        ensures taken { result.taken.items ≡ [] }
        ensures piece { result.piece ≡ piece }
        ensures answers { result.answers ≡ answers }
        ensures fresh { result.has_failed ≡ false }
    {
        FailingSink {
            taken: Vec::new(alloc),
            piece,
            answers,
            has_failed: false,
        }
    }

    /// The bytes that were taken.
    pub fn taken(&self) -> &[u8]
        ensures { result.now ≡ self.now.taken.items }
    {
        &self.taken
    }

    // Takes the front of the bytes, where a call is answered.
    fn take_front(&mut self, bytes: &[u8]) -> Result<usize, Broken>
        ensures failed { self.new.has_failed ≡ self.old.has_failed }
        ensures count { IfOk result (λ n. n ≤ length bytes.now) }
        ensures bytes { IfOk result (λ n. self.new.taken.items ≡ self.old.taken.items ++ take n bytes.now) }
        ensures err { OnErr result (self.new.taken.items ≡ self.old.taken.items) }
    {
        if self.answers == 0 {
            return Err(Broken);
        }
        self.answers -= 1;
        let count = bytes.len().min(self.piece);
        match self.taken.extend_from_slice(&bytes[..count]) {
            Ok(()) => Ok(count),
            Err(_) => Err(Broken),
        }
    }
}

impl Sink for FailingSink {
    ghost is_known = { λ _. Unit {0} };

    ghost written = { λ sink. sink.taken.items };

    ghost has_failed = { λ sink. sink.has_failed };

    ghost may_fail = { λ _. Unit {0} };

    fn put(&mut self, bytes: &[u8]) -> Result<usize, Broken> {
        let taken = self.take_front(bytes);
        if matches!(taken, Ok(0) | Err(_)) {
            self.has_failed = true;
        }
        taken
    }
}
