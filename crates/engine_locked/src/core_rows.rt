ghost use Rattle.std.specs.Prelude.{◌≡◌, ◌↔◌, ℕ, None, Ok, Err};
ghost use Rattle.stm_core_laws.specs.declared.core_fault.CoreFault.TheVariants as fault;
ghost use Rattle.stm_core.specs.declared.unread.Unread.TheVariants as unread;
ghost use Rattle.issuer_view.specs.declared.stop.Stop.TheVariants as stop;

use engine_workers::lock;
use issuer_rows::{RowKey, RowVal};
use issuer_view::{RowSource, Stop};
use std::sync::{Mutex, Wait};
use stm_core::Unread;
use stm_core_laws::{CoreFault, Seat};
use stm_journal::SharedCore;
use stm_memory::Version;

/// The rows that one version of a message sees in the shared core: what the nearest messages before it wrote (Block-STM). The lock is
/// taken for each of them, and held no longer.
#[derive(Drop)]
pub struct CoreRows<'a, R: Wait, C: SharedCore> {
    rt: &'a R,
    core: &'a Mutex<C>,
    seat: Seat,
    version: Version,
}

impl<'a, R: Wait, C: SharedCore> CoreRows<'a, R, C> {
    /// The rows that this version sees, asked for at this seat.
    pub fn new(rt: &'a R, core: &'a Mutex<C>, seat: Seat, version: Version) -> CoreRows<'a, R, C>
        ensures seat { result.seat ≡ seat }
        ensures version { result.version ≡ version }
    {
        CoreRows {
            rt,
            core,
            seat,
            version,
        }
    }
}

impl<R: Wait, C: SharedCore> RowSource for CoreRows<'_, R, C> {
    // Which book a version sees isn't known: other messages may not have finished.
    ghost book = { λ _. None };

    // Nor is what other workers do between two questions.
    ghost answers = { λ old row result new. new.version ≡ old.version };

    fn read(&mut self, key: &RowKey) -> Result<Option<RowVal>, Stop> {
        let mut row = None;
        self.read_into(key, &mut row)?;
        Ok(row)
    }

    fn read_into(&mut self, key: &RowKey, row: &mut Option<RowVal>) -> Result<(), Stop> {
        let mut core = lock(self.rt, self.core);
        answered(core.read_into(self.seat, self.version, key, row))
    }
}

/// Why the decision stops where no row was answered: an ESTIMATE blocks it.
pub(crate) fn answered(answer: Result<(), Unread>) -> Result<(), Stop>
    ensures row { (result ≡ Ok tt) ↔ (answer ≡ Ok tt) }
    ensures blocked { (at : ℕ) → (result ≡ Err (stop.Blocked at)) ↔ (answer ≡ Err (unread.Estimate at)) }
    ensures memory { (result ≡ Err stop.OutOfMemory) ↔ (answer ≡ Err (unread.Refused fault.OutOfMemory)) }
{
    match answer {
        Ok(()) => Ok(()),
        Err(Unread::Estimate(at)) => Err(Stop::Blocked(at)),
        Err(Unread::Refused(CoreFault::OutOfMemory)) => Err(Stop::OutOfMemory),
        Err(Unread::Refused(_)) => Err(Stop::Lost),
    }
}
