ghost use Rattle.std.specs.Prelude.{◌≡◌, ℕ, List, Err, IfOk};

use crate::locked_log::LockedLog;
use log_file::OpenFault;

/// Logs by the names of their files.
pub trait LockedLogs {
    /// A log that no host has, until it is dropped.
    type Log: LockedLog + Drop;

    // The log of this name has these bytes.
    ghost holds: { Self → List ℕ → List ℕ → Type 0 };
    // A call that reads the log of this name may fail.
    ghost reading: { Self → List ℕ → Type 0 };
    // A host may have the log of this name.
    ghost in_use: { Self → List ℕ → Type 0 };

    /// Opens the log of this name, which has to be there and stays as it is. One that has known bytes is opened, unless a host has it or
    /// memory runs out.
    fn open(&self, name: &str) -> Result<Self::Log, OpenFault>
        ensures log { (bytes : List ℕ) → holds self.now name.now bytes
            → IfOk result (λ log. Self.Log.is_known log × (Self.Log.bytes log ≡ bytes)) }
        ensures device { IfOk result (λ log. Self.Log.may_fail log → reading self.now name.now) }
        ensures in_use { result ≡ Err OpenFault.InUse → in_use self.now name.now }
        ensures absent { result ≡ Err OpenFault.Refused → (bytes : List ℕ) → ¬ holds self.now name.now bytes };
}
