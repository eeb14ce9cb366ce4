ghost use Rattle.std.specs.Prelude.{◌≡◌, ◌<◌, ◌≤◌, length, IfOk, IfErr};
ghost use Rattle.file_batch.specs.Device.{UsesDevice};
ghost use Rattle.file_laws.specs.Reading.{Gives, magic_at, number_at, version_at, count_at, head_at, length_at, body_at};
ghost use Rattle.file_batch.specs.Window.{ahead};

use crate::window::Window;
use byteorder::{BigEndian, ByteOrder};
use file_devices::Source;
use file_laws::BatchFault;

impl Window {
    /// Reads the four letters that a file begins with. Others are `Magic`.
    #[tactic(auto, unfolding(file_laws::specs::Reading::magic_at))]
    pub fn read_magic<R: Source>(&mut self, source: &mut R, magic: &[u8]) -> Result<(), BatchFault>
        ensures device { UsesDevice R.is_known R.has_failed R.may_fail source.old source.new result }
        ensures memory { IfErr result (λ e. e ≡ BatchFault.OutOfMemory → length self.new.field.items < 4) }
        ensures gives { R.is_known source.old → Gives (λ _. magic.now) result
            (ahead self.new (R.remaining source.new)) (magic_at magic.now (ahead self.old (R.remaining source.old))) }
    {
        self.read_field(source, 4)?;
        if self.field.as_slice() != magic {
            return Err(BatchFault::Magic);
        }
        Ok(())
    }

    // A number of two bytes.
    #[tactic(auto, unfolding(file_laws::specs::Reading::number_at))]
    pub(crate) fn read_short<R: Source>(&mut self, source: &mut R) -> Result<u16, BatchFault>
        ensures device { UsesDevice R.is_known R.has_failed R.may_fail source.old source.new result }
        ensures memory { IfErr result (λ e. e ≡ BatchFault.OutOfMemory → length self.new.field.items < 2) }
        ensures gives { R.is_known source.old → Gives (λ n. n) result
            (ahead self.new (R.remaining source.new)) (number_at 2 (ahead self.old (R.remaining source.old))) }
    {
        self.read_field(source, 2)?;
        Ok(BigEndian::read_u16(&self.field))
    }

    /// Reads a number of four bytes, the highest first.
    #[tactic(auto, unfolding(file_laws::specs::Reading::number_at))]
    pub fn read_long<R: Source>(&mut self, source: &mut R) -> Result<u32, BatchFault>
        ensures device { UsesDevice R.is_known R.has_failed R.may_fail source.old source.new result }
        ensures memory { IfErr result (λ e. e ≡ BatchFault.OutOfMemory → length self.new.field.items < 4) }
        ensures gives { R.is_known source.old → Gives (λ n. n) result
            (ahead self.new (R.remaining source.new)) (number_at 4 (ahead self.old (R.remaining source.old))) }
    {
        self.read_field(source, 4)?;
        Ok(BigEndian::read_u32(&self.field))
    }

    /// Reads the version, two bytes. Another than 1 is `Version`.
    #[tactic(auto, unfolding(file_laws::specs::Reading::version_at))]
    pub fn read_version<R: Source>(&mut self, source: &mut R) -> Result<u16, BatchFault>
        ensures device { UsesDevice R.is_known R.has_failed R.may_fail source.old source.new result }
        ensures memory { IfErr result (λ e. e ≡ BatchFault.OutOfMemory → length self.new.field.items < 2) }
        ensures gives { R.is_known source.old → Gives (λ n. n) result
            (ahead self.new (R.remaining source.new)) (version_at (ahead self.old (R.remaining source.old))) }
    {
        let version = self.read_short(source)?;
        if version != 1 {
            return Err(BatchFault::Version);
        }
        Ok(version)
    }

    /// Reads a count, four bytes. More than 65,536 is `Count`.
    #[tactic(auto, unfolding(file_laws::specs::Reading::count_at))]
    pub fn read_count<R: Source>(&mut self, source: &mut R) -> Result<u32, BatchFault>
        ensures device { UsesDevice R.is_known R.has_failed R.may_fail source.old source.new result }
        ensures memory { IfErr result (λ e. e ≡ BatchFault.OutOfMemory → length self.new.field.items < 4) }
        ensures most { IfOk result (λ n. n ≤ 65536) }
        ensures gives { R.is_known source.old → Gives (λ n. n) result
            (ahead self.new (R.remaining source.new)) (count_at (ahead self.old (R.remaining source.old))) }
    {
        let count = self.read_long(source)?;
        if count > 65_536 {
            return Err(BatchFault::Count);
        }
        Ok(count)
    }

    // The head of a file, and its count.
    #[tactic(auto, unfolding(file_laws::specs::Reading::head_at))]
    pub(crate) fn read_head<R: Source>(
        &mut self,
        source: &mut R,
        magic: &[u8],
    ) -> Result<u32, BatchFault>
        ensures device { UsesDevice R.is_known R.has_failed R.may_fail source.old source.new result }
        ensures most { IfOk result (λ n. n ≤ 65536) }
        ensures gives { R.is_known source.old → Gives (λ n. n) result
            (ahead self.new (R.remaining source.new)) (head_at magic.now (ahead self.old (R.remaining source.old))) }
    {
        self.read_magic(source, magic)?;
        self.read_version(source)?;
        self.read_count(source)
    }

    // The length of a body.
    #[tactic(auto, unfolding(file_laws::specs::Reading::length_at))]
    pub(crate) fn read_length<R: Source>(&mut self, source: &mut R) -> Result<u16, BatchFault>
        ensures device { UsesDevice R.is_known R.has_failed R.may_fail source.old source.new result }
        ensures memory { IfErr result (λ e. e ≡ BatchFault.OutOfMemory → length self.new.field.items < 2) }
        ensures gives { R.is_known source.old → Gives (λ n. n) result
            (ahead self.new (R.remaining source.new)) (length_at (ahead self.old (R.remaining source.old))) }
    {
        let length = self.read_short(source)?;
        if length == 0 || length > 512 {
            return Err(BatchFault::Length);
        }
        Ok(length)
    }

    // The next body, into the field.
    #[tactic(auto, unfolding(file_laws::specs::Reading::body_at))]
    pub(crate) fn read_body<R: Source>(&mut self, source: &mut R) -> Result<(), BatchFault>
        ensures device { UsesDevice R.is_known R.has_failed R.may_fail source.old source.new result }
        ensures gives { R.is_known source.old → Gives (λ _. self.new.field.items) result
            (ahead self.new (R.remaining source.new)) (body_at (ahead self.old (R.remaining source.old))) }
    {
        let length = self.read_length(source)?;
        self.read_field(source, length as usize)
    }
}
