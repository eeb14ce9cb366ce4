//! The rows of a core, as one version sees them.
ghost use Rattle.std.specs.Prelude.{None};

use issuer_rows::{RowKey, RowVal};
use issuer_view::{RowSource, Stop};
use stm_core::Core;
use stm_core_laws::{CoreFault, Got};
use stm_memory::Version;

/// The rows that one version sees.
#[derive(Drop)]
pub(crate) struct Rows<'a> {
    pub(crate) core: &'a mut Core,
    pub(crate) version: Version,
}

impl RowSource for Rows<'_> {
    ghost book = { λ _. None };

    ghost answers = { λ _ _ _ _. Unit {0} };

    fn read(&mut self, key: &RowKey) -> Result<Option<RowVal>, Stop> {
        match self.core.read(self.version, key) {
            Ok(Got::Row(row)) => Ok(row),
            Ok(Got::Estimate(at)) => Err(Stop::Blocked(at)),
            Err(CoreFault::OutOfMemory) => Err(Stop::OutOfMemory),
            Err(_) => Err(Stop::Lost),
        }
    }
}
