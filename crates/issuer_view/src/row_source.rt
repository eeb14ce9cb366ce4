ghost use Rattle.std.specs.Prelude.{◌≡◌, Option, Result, IfOk, IfErr, IfSome, OnOk};
ghost use Rattle.std.specs.FinMap as map;
ghost use Rattle.issuer_words.specs.Words.{IsOfKind, RowKey, RowVal, Rows};
ghost use Rattle.issuer_view.specs.Recording.{answer_of};
ghost use Rattle.issuer_view.specs.declared.stop.Stop.{Stop};

use crate::stop::Stop;
use issuer_rows::{RowKey, RowVal};

/// Whatever rows can be asked of: a book, or a core in which other messages are decided at the same time.
pub trait RowSource: Drop {
    // The book behind it, where it is known.
    ghost book: { Self → Option Rows };

    // What one question does: the source before, the row, the answer, the source after.
    ghost answers: { Self → RowKey → Result (Option RowVal) Stop → Self → Type 0 };

    /// What the row is: its value, or that it is absent.
    fn read(&mut self, key: &RowKey) -> Result<Option<RowVal>, Stop>
        ensures answers { answers self.old key.now result self.new }

        // The value is of its key's kind.
        ensures kind { IfOk result (λ row. IfSome row (IsOfKind key.now)) }

        // A known book stays, gives the answer, and never blocks.
        ensures known { IfOk result (λ row. IfSome (book self.old) (λ rows. row ≡ map.get rows key.now)) }
        ensures stops { IfSome (book self.old) (λ _. IfErr result (λ stop. stop ≡ Stop.OutOfMemory)) }
        ensures same { book self.new ≡ book self.old };

    /// Writes what the row is to a place of the caller's, so that it isn't copied from hand to hand.
    fn read_into(&mut self, key: &RowKey, row: &mut Option<RowVal>) -> Result<(), Stop>
        ensures answers { answers self.old key.now (answer_of result row.new) self.new }
        ensures kind { OnOk result (IfSome row.new (IsOfKind key.now)) }
        ensures known { OnOk result (IfSome (book self.old) (λ rows. row.new ≡ map.get rows key.now)) }
        ensures stops { IfSome (book self.old) (λ _. IfErr result (λ stop. stop ≡ Stop.OutOfMemory)) }
        ensures same { book self.new ≡ book self.old }
    {
        *row = self.read(key)?;
        Ok(())
    }
}
