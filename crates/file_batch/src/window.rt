ghost use Rattle.std.specs.Prelude.{◌<◌, ◌≤◌, length};

use byteorder::{BigEndian, ByteOrder};
use file_devices::Source;
use file_laws::BatchFault;
use std::alloc::{AllocError, Global};

// How many bytes are asked for at once.
const PIECE: usize = 65_536;

/// What was taken from a source and not read yet, and the field that was read last. Its methods read a file's parts from
/// the left, each time from the same source: `Ended` where the source ends first, `Device` exactly where a call of the
/// source failed, and `OutOfMemory`.
#[derive(Drop)]
pub struct Window {
    pub(crate) piece: Vec<u8>,
    pub(crate) start: usize,
    pub(crate) end: usize,
    /// The bytes of the field that was read last, as far as it was read.
    pub field: Vec<u8>,
    ghost in_order: { start ≤ end },
    ghost within: { end ≤ length piece.items },
    ghost room: { 0 < length piece.items },
}

impl Window {
    ghost use Rattle.std.specs.Prelude.{◌≡◌, ◌+◌, ◌<◌, ◌≤◌, ◌++◌, [], length, OnOk, OnErr, IfOk, IfErr, IfSome, IsTrue};
    ghost use Rattle.file_laws.specs.BatchFault.{is_of_bytes};
    ghost use Rattle.file_batch.specs.Device.{UsesDevice};
    ghost use Rattle.file_laws.specs.Reading.{Gives, field_at};
    ghost use Rattle.file_batch.specs.Window.{part, ahead, HasBody};

    /// A window of which nothing was taken yet. Memory can run out.
    pub fn new(alloc: Global) -> Result<Window, AllocError>
        ensures { IfOk result (λ w. part w.piece.items w.start w.end ≡ []) }
    {
        Ok(Window {
            piece: vec![in alloc; 0; PIECE]?,
            start: 0,
            end: 0,
            field: Vec::new(alloc),
        })
    }

    // Takes the next piece, where all of the last one was read.
    fn refill<R: Source>(&mut self, source: &mut R) -> Result<(), BatchFault>
        ensures device { UsesDevice R.is_known R.has_failed R.may_fail source.old source.new result }
        ensures some { OnOk result (self.new.start < self.new.end) }
        ensures bytes { OnOk result (R.is_known source.old → R.remaining source.old ≡ ahead self.new (R.remaining source.new)) }
        ensures ended { IfErr result (λ e. IsTrue (is_of_bytes e) → (e ≡ BatchFault.Ended) × (R.is_known source.old → R.remaining source.old ≡ [])) }
        ensures end { IfErr result (λ e. IsTrue (is_of_bytes e) → R.is_known source.old → R.remaining source.new ≡ []) }
        ensures field { self.new.field ≡ self.old.field }
    {
        self.start = 0;
        self.end = 0;
        let Ok(count) = source.take(self.piece.as_mut_slice()) else {
            return Err(BatchFault::Device);
        };
        if count == 0 {
            return Err(BatchFault::Ended);
        }
        self.end = count;
        Ok(())
    }

    /// Sees that a byte is there to be read.
    pub(crate) fn make_ready<R: Source>(&mut self, source: &mut R) -> Result<(), BatchFault>
        ensures device { UsesDevice R.is_known R.has_failed R.may_fail source.old source.new result }
        ensures some { OnOk result (self.new.start < self.new.end) }
        ensures bytes { OnOk result (R.is_known source.old →
            ahead self.old (R.remaining source.old) ≡ ahead self.new (R.remaining source.new)) }
        ensures ended { IfErr result (λ e. IsTrue (is_of_bytes e) → (e ≡ BatchFault.Ended)
            × (R.is_known source.old → ahead self.old (R.remaining source.old) ≡ [])) }
        ensures end { IfErr result (λ e. IsTrue (is_of_bytes e) → R.is_known source.old → R.remaining source.new ≡ []) }
        ensures field { self.new.field ≡ self.old.field }
    {
        if self.start == self.end {
            self.refill(source)?;
        }
        Ok(())
    }

    /// How many bytes the next body has, where all of it was taken from the source already and its length is one of a body.
    #[inline(always)]
    pub(crate) fn body_there(&self) -> Option<usize>
        ensures { IfSome result (HasBody self.now) }
    {
        let (length, rest) = self.piece[self.start..self.end].split_first_chunk::<2>()?;
        let size = BigEndian::read_u16(length) as usize;
        if size == 0 || size > 512 || rest.len() < size {
            return None;
        }
        Some(size)
    }

    // Moves at most so many of the bytes that are there into the field.
    fn move_on(&mut self, wanted: usize) -> Result<(), AllocError>
        requires wanted { 0 < wanted }
        requires some { self.old.start < self.old.end }
        ensures more { OnOk result (length self.old.field.items < length self.new.field.items) }
        ensures most { OnOk result (length self.new.field.items ≤ length self.old.field.items + wanted) }
        ensures err { OnErr result (length self.new.field.items ≡ length self.old.field.items) }
        ensures bytes { OnOk result (
            self.new.field.items ++ part self.new.piece.items self.new.start self.new.end
            ≡ self.old.field.items ++ part self.old.piece.items self.old.start self.old.end) }
    {
        let count = wanted.min(self.end - self.start);
        let part = &self.piece[self.start..self.start + count];
        self.field.extend_from_slice(part)?;
        self.start += count;
        Ok(())
    }

    /// Reads the next field, of so many bytes.
    pub(crate) fn read_field<R: Source>(
        &mut self,
        source: &mut R,
        size: usize,
    ) -> Result<(), BatchFault>
        ensures device { UsesDevice R.is_known R.has_failed R.may_fail source.old source.new result }
        ensures size { OnOk result (length self.new.field.items ≡ size) }
        // Only bytes of the field take memory: for a field that is whole memory never runs out.
        ensures memory { IfErr result (λ e. e ≡ BatchFault.OutOfMemory → length self.new.field.items < size) }
        ensures gives { R.is_known source.old → Gives (λ _. self.new.field.items) result
            (ahead self.new (R.remaining source.new)) (field_at size (ahead self.old (R.remaining source.old))) }
    {
        self.field.clear();
        while self.field.len() < size {
            self.make_ready(source)?;
            let wanted = size - self.field.len();
            self.move_on(wanted)?;
        }
        Ok(())
    }
}
