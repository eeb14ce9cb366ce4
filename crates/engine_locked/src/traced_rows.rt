ghost use Rattle.std.specs.Prelude.{◌≡◌, None};

use crate::core_rows::answered;
use issuer_rows::{RowKey, RowVal};
use issuer_view::{RowSource, Stop};
use stm_core_laws::Seat;
use stm_journal::{SharedCore, Traced};
use stm_memory::Version;

/// The rows that one version of a message sees in a core that no other thread has.
#[derive(Drop)]
pub(crate) struct TracedRows<'a> {
    traced: &'a mut Traced,
    seat: Seat,
    version: Version,
}

impl<'a> TracedRows<'a> {
    /// The rows that this version sees, asked for at this seat.
    pub(crate) fn new(traced: &'a mut Traced, seat: Seat, version: Version) -> TracedRows<'a>
        ensures seat { result.seat ≡ seat }
        ensures version { result.version ≡ version }
    {
        TracedRows {
            traced,
            seat,
            version,
        }
    }
}

impl RowSource for TracedRows<'_> {
    // Which book a version sees isn't known: messages before it may not have finished.
    ghost book = { λ _. None };

    ghost answers = { λ old row result new. new.version ≡ old.version };

    fn read(&mut self, key: &RowKey) -> Result<Option<RowVal>, Stop> {
        let mut row = None;
        self.read_into(key, &mut row)?;
        Ok(row)
    }

    fn read_into(&mut self, key: &RowKey, row: &mut Option<RowVal>) -> Result<(), Stop> {
        let answer = self.traced.read_into(self.seat, self.version, key, row);
        answered(answer)
    }
}
