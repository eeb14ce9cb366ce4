ghost use Rattle.std.specs.Prelude.{◌≡◌, ◌⊎◌, ◌<◌, [], length, Some, None, IfOk, IfErr, IfSome, OnOk, OnErr};
ghost use Rattle.std.specs.FinMap as map;
ghost use Rattle.issuer_rows.specs.RowVal.{IsOfKind};
ghost use Rattle.issuer_view.specs.Recording.{answer_of, kept, AgreesWithBook, AsksOnce, IsStopOf};
ghost use Rattle.issuer_view.specs.RowSets.{value_in, latest, logged, put};

use crate::read_set::ReadSet;
use crate::row_source::RowSource;
use crate::stop::Stop;
use crate::write_set::WriteSet;
use issuer_rows::{RowKey, RowVal};
use std::alloc::Global;
use std::marker::Model;

/// Records what one decision reads from a source and what it writes.
#[derive(Drop)]
pub struct Recorder<S: RowSource> {
    source: S,
    reads: ReadSet,
    writes: WriteSet,
}

impl<S: RowSource> Model for Recorder<S> {
    ghost use Rattle.issuer_view.specs.Recording.{Recording, AgreesWithBook};

    ghost Value = { Recording S };

    ghost view = { λ r. record { source = r.source; reads = r.reads; writes = r.writes } };

    ghost invariant = { λ r. AgreesWithBook (S.book r.source) r.reads };
}

impl<S: RowSource> Recorder<S> {
    /// A recorder that has read and written nothing.
    pub fn new(alloc: Global, source: S) -> Recorder<S>
        ensures { result ≡ record { source = source; reads = []; writes = [] } }
    {
        Recorder {
            source,
            reads: ReadSet::new(alloc),
            writes: WriteSet::new(alloc),
        }
    }

    /// A recorder that has read and written nothing, over the memory of these sets; what they held is gone.
    pub fn over(source: S, mut reads: ReadSet, mut writes: WriteSet) -> Recorder<S>
        ensures { result ≡ record { source = source; reads = []; writes = [] } }
    {
        reads.clear();
        writes.clear();
        Recorder {
            source,
            reads,
            writes,
        }
    }

    /// What the row is: as it is written, else as it was read, else as the source answers, which is then logged. It stops where the
    /// source does or memory runs out.
    pub fn read(&mut self, key: &RowKey) -> Result<Option<RowVal>, Stop>
        // A row that is written or was read is answered as it is kept, and nothing changes.
        ensures kept { IfSome (kept self.old key.now) (λ row. (result ≡ Ok row) × (self.new ≡ self.old)) }

        // For any other row the source is asked once, and its answer is logged.
        ensures asked { kept self.old key.now ≡ None → AsksOnce S.answers self.old.source key.now result self.new.source }
        ensures logged { kept self.old key.now ≡ None → IfOk result (λ row. self.new.reads ≡ logged self.old.reads key.now row) }
        ensures err { OnErr result (self.new.reads ≡ self.old.reads) }
        ensures writes { self.new.writes ≡ self.old.writes }
        ensures kind { IfOk result (λ row. IfSome row (IsOfKind key.now)) }

        // A known book stays, and it stops only where memory runs out.
        ensures stops { IfSome (S.book self.old.source) (λ _. IfErr result (λ stop. stop ≡ Stop.OutOfMemory)) }
        ensures book { S.book self.new.source ≡ S.book self.old.source }
    {
        if let Some(row) = self.writes.get(key) {
            return Ok(Some(row));
        }
        if let Some(row) = self.reads.get(key) {
            return Ok(row);
        }
        self.reads.ask(key, &mut self.source)?;
        Ok(*self.reads.latest())
    }

    /// Reads a row that was neither written nor read yet: the source's answer is logged, and is the latest.
    #[inline(always)]
    pub fn ask(&mut self, key: &RowKey) -> Result<(), Stop>
        requires { kept self.old key.now ≡ None }

        // The source is asked once, and its answer is logged.
        ensures asked { AsksOnce S.answers self.old.source key.now (answer_of result (latest self.new.reads)) self.new.source }
        ensures logged { OnOk result (self.new.reads ≡ logged self.old.reads key.now (latest self.new.reads)) }
        ensures some { OnOk result (0 < length self.new.reads) }
        ensures err { OnErr result (self.new.reads ≡ self.old.reads) }
        ensures writes { self.new.writes ≡ self.old.writes }
        ensures kind { OnOk result (IfSome (latest self.new.reads) (IsOfKind key.now)) }

        // It stops where the source does or memory runs out. A known book stays, and there it stops only where memory runs out.
        ensures stop { IfErr result (λ stop. (stop ≡ Stop.OutOfMemory) ⊎ IsStopOf S.answers self.new.source stop) }
        ensures stops { IfSome (S.book self.old.source) (λ _. IfErr result (λ stop. stop ≡ Stop.OutOfMemory)) }
        ensures book { S.book self.new.source ≡ S.book self.old.source }
    {
        self.reads.ask(key, &mut self.source)
    }

    /// What the row that was read last was.
    #[inline(always)]
    pub fn latest(&self) -> &Option<RowVal>
        requires { 0 < length self.now.reads }
        ensures { result.now ≡ latest self.now.reads }
    {
        self.reads.latest()
    }

    /// Writes a row, over the value that it has; a row that is written already takes no memory. It stops only where memory runs out.
    pub fn write(&mut self, key: RowKey, row: RowVal) -> Result<(), Stop>
        requires { IsOfKind key row }
        ensures ok { OnOk result (self.new ≡ record self.old { writes = put self.old.writes key row }) }
        ensures err { OnErr result (self.new ≡ self.old) }
        ensures stop { IfErr result (λ stop. stop ≡ Stop.OutOfMemory) }
        ensures absent { OnErr result (value_in self.old.writes key ≡ None) }
    {
        self.write_copy(&key, &row)
    }

    /// Writes a copy of a row, over the value that it has; a row that is written already takes no memory. It stops only where memory runs
    /// out.
    pub fn write_copy(&mut self, key: &RowKey, row: &RowVal) -> Result<(), Stop>
        requires { IsOfKind key.now row.now }
        ensures ok { OnOk result (self.new ≡ record self.old { writes = put self.old.writes key.now row.now }) }
        ensures err { OnErr result (self.new ≡ self.old) }
        ensures stop { IfErr result (λ stop. stop ≡ Stop.OutOfMemory) }
        ensures absent { OnErr result (value_in self.old.writes key.now ≡ None) }
    {
        self.writes.put_copy(key, row)?;
        Ok(())
    }

    /// Writes a copy of a row that is not written yet, so it isn't looked for. It stops only where memory runs out.
    pub fn write_new(&mut self, key: &RowKey, row: &RowVal) -> Result<(), Stop>
        requires kind { IsOfKind key.now row.now }
        requires absent { value_in self.old.writes key.now ≡ None }
        ensures ok { OnOk result (self.new ≡ record self.old { writes = put self.old.writes key.now row.now }) }
        ensures err { OnErr result (self.new ≡ self.old) }
        ensures stop { IfErr result (λ stop. stop ≡ Stop.OutOfMemory) }
    {
        self.writes.put_new(key, row)?;
        Ok(())
    }

    /// The source, the rows that were read and the rows that are written.
    pub fn into_parts(self) -> (S, ReadSet, WriteSet)
        ensures source { result.0 ≡ self.source }
        ensures reads { result.1 ≡ self.reads }
        ensures writes { result.2 ≡ self.writes }
        ensures agrees { AgreesWithBook (S.book self.source) self.reads }
    {
        let Recorder {
            source,
            reads,
            writes,
        } = self;
        (source, reads, writes)
    }
}
