ghost use Rattle.std.specs.Prelude.{◌≡◌, ℕ, List, ◌++◌, IfOk};

use log_file::{GrowingFile, HostLog, OpenFault};
use std::fs::File;
use std::rt;

/// The logs of hosts, by the names of their files.
pub trait Logs {
    /// A log that is open to grow, and that no other host has, until it is dropped.
    type Log: GrowingFile + Drop;

    // The log of this name has these bytes.
    ghost holds: { Self → List ℕ → List ℕ → Type 0 };

    /// Opens the log of this name, or makes one that is empty. Another host may have it.
    fn open(&self, name: &str) -> Result<Self::Log, OpenFault>
        ensures { (bytes : List ℕ) → holds self.now name.now bytes
            → IfOk result (λ log. Self.Log.is_known log × (Self.Log.synced log ++ Self.Log.unsynced log ≡ bytes)) };
}

/// The logs in the files of a host. What they have is not known.
#[derive(Drop)]
pub struct HostLogs<R> {
    host: R,
}

impl<R: rt::Files<File = File> + Copy> HostLogs<R> {
    /// The logs in the files of this host.
    pub fn new(host: R) -> HostLogs<R> {
        HostLogs { host }
    }
}

impl<R: rt::Files<File = File> + Copy> Logs for HostLogs<R> {
    type Log = HostLog;

    ghost holds = { λ _ _ _. ⊥ };

    fn open(&self, name: &str) -> Result<HostLog, OpenFault> {
        HostLog::open(&self.host, name)
    }
}
