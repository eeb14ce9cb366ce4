ghost use Rattle.std.specs.Prelude.{◌≡◌, ◌≢◌, ◌<◌, ℕ, List, IfErr, IfOk, Ok, Err, IsTrue};
ghost use Rattle.sha2.specs.Sha256.{sha256};
ghost use Rattle.app_parts_folder.specs.Texts.{IsHeld, IsReadingFault};

use app_jobs::JobFault;
use file_devices::{Files, read_file};
use sha2::{Digest, Sha256};
use std::alloc::Global;

/// What the file of this name holds.
pub fn read_text<F: Files>(alloc: Global, files: &F, name: &str) -> Result<Vec<u8>, JobFault>
    ensures held { IfOk result (λ bytes. IsHeld (F.is_known files.now) (F.holds files.now) name.now bytes.items) }
    ensures fault { IfErr result (IsReadingFault (F.holds files.now) (F.failing files.now) name.now) }
{
    Ok(read_file(alloc, files, name)?)
}

/// The digest of these bytes.
pub fn digest_of(bytes: &[u8]) -> [u8; 32]
    ensures { result ≡ sha256 bytes.now }
{
    Sha256::digest(bytes)
}
