ghost use Rattle.std.specs.Prelude.{◌≡◌, ◌<◌, ◌≤◌, ◌++◌, [], false, length, take, drop};

use crate::growing_file::GrowingFile;
use file_devices::Broken;

/// A file in memory that grows, whose calls that write fail once so many were answered. It knows how much of it was synced.
#[derive(Drop)]
pub struct MemoryLog {
    bytes: Vec<u8>,
    synced: usize,
    piece: usize,
    answers: u64,
    has_failed: bool,
    ghost within: { synced ≤ length bytes.items },
    ghost room: { 0 < piece },
}

impl MemoryLog {
    /// A file that has these bytes, all of them synced. It takes and gives at most `piece` bytes a call. So many calls that write are
    /// answered; each one after them fails, and so does one for which memory runs out.
    pub fn new(bytes: Vec<u8>, piece: usize, answers: u64) -> MemoryLog
        requires { 0 < piece }
        ensures bytes { result.bytes ≡ bytes }
        ensures synced { result.synced ≡ length bytes.items }
        ensures answers { result.answers ≡ answers }
        ensures fresh { result.has_failed ≡ false }
    {
        MemoryLog {
            synced: bytes.len(),
            bytes,
            piece,
            answers,
            has_failed: false,
        }
    }

    /// All that the file has.
    pub fn bytes(&self) -> &[u8]
        ensures { result.now ≡ self.now.bytes.items }
    {
        &self.bytes
    }

    /// What a crash keeps of it.
    pub fn synced(&self) -> &[u8]
        ensures { result.now ≡ take self.now.synced self.now.bytes.items }
    {
        &self.bytes[..self.synced]
    }

    // Whether one more call that writes is answered.
    fn answers(&mut self) -> bool
        ensures bytes { self.new.bytes ≡ self.old.bytes }
        ensures synced { self.new.synced ≡ self.old.synced }
        ensures failed { self.new.has_failed ≡ self.old.has_failed }
    {
        if self.answers == 0 {
            return false;
        }
        self.answers -= 1;
        true
    }
}

impl GrowingFile for MemoryLog {
    ghost is_known = { λ _. Unit {0} };

    ghost synced = { λ log. take log.synced log.bytes.items };

    ghost unsynced = { λ log. drop log.synced log.bytes.items };

    ghost has_failed = { λ log. log.has_failed };

    ghost may_fail = { λ _. Unit {0} };

    fn read_at(&self, at: u64, buffer: &mut [u8]) -> Result<usize, Broken> {
        let start = self.bytes.len().min(at as usize);
        let (_, rest) = self.bytes.split_at(start);
        let count = rest.len().min(buffer.len()).min(self.piece);
        let (front, _) = rest.split_at(count);
        buffer[..count].copy_from_slice(front);
        Ok(count)
    }

    fn put(&mut self, bytes: &[u8]) -> Result<usize, Broken> {
        let count = bytes.len().min(self.piece);
        if count == 0 {
            self.has_failed = true;
            return Ok(0);
        }
        if !self.answers() || self.bytes.extend_from_slice(&bytes[..count]).is_err() {
            self.has_failed = true;
            return Err(Broken);
        }
        Ok(count)
    }

    fn sync(&mut self) -> Result<(), Broken> {
        if !self.answers() {
            self.has_failed = true;
            return Err(Broken);
        }
        self.synced = self.bytes.len();
        Ok(())
    }

    fn cut(&mut self, size: u64) -> Result<(), Broken> {
        if !self.answers() {
            self.has_failed = true;
            return Err(Broken);
        }
        let size = size as usize;
        self.bytes.truncate(size);
        self.synced = self.synced.min(size);
        Ok(())
    }
}
