ghost use Rattle.std.specs.Prelude.{◌≡◌, [], false, IfOk};

use crate::broken::Broken;
use crate::host::beside::Beside;
use crate::host::target::HostTarget;
use crate::sink::{IntoWrite, Sink};
use std::alloc::Global;
use std::fs::{File, OpenFile, OpenOptions, Permissions};
use std::io::ErrorKind;
use std::path::Path;
use std::{fs, io, rt};

/// A file of the host that is written: beside its target, until it is put in its place; or a device, which is written as it is.
#[derive(Drop)]
pub struct HostOutput<R: rt::Files + Copy> {
    sink: IntoWrite<R::File>,
    waiting: Option<Waiting<R>>,
}

// A file that waits to be put in the place of its target.
#[derive(Drop)]
struct Waiting<R: rt::Files + Copy> {
    beside: Beside<R>,
    target: String,
}

impl<R: rt::Files<File = File> + Copy> HostOutput<R> {
    /// A file that can be put in the place of this name. A file that is there has to allow that it is written.
    pub(crate) fn create(host: R, alloc: Global, name: &str) -> io::Result<HostOutput<R>>
        ensures { IfOk result (λ output. output.sink.has_failed ≡ false) }
    {
        match HostTarget::of(&host, alloc, name)? {
            HostTarget::Absent(path) => HostOutput::beside(host, alloc, path, None),
            HostTarget::Plain(path, permissions) => {
                check_writable(&host, path.as_str(), &permissions)?;
                HostOutput::beside(host, alloc, path, Some(permissions))
            }
            HostTarget::Device => Ok(HostOutput {
                sink: IntoWrite::new(OpenOptions::new().write(true).open(&host, name)?),
                waiting: None,
            }),
        }
    }

    // A new file beside the target, with the permissions of the one that it replaces. Its folder has to be one that can be opened, as it is
    // in the end, to be synced.
    fn beside(
        host: R,
        alloc: Global,
        target: String,
        permissions: Option<Permissions>,
    ) -> io::Result<HostOutput<R>>
        ensures { IfOk result (λ output. output.sink.has_failed ≡ false) }
    {
        open_folder_of(&host, target.as_str())?;
        let (file, beside) = Beside::new(host, alloc, target.as_str())?;
        if let Some(permissions) = permissions {
            file.set_permissions(permissions)?;
        }
        Ok(HostOutput {
            sink: IntoWrite::new(file),
            waiting: Some(Waiting { beside, target }),
        })
    }

    /// Returns when what was written is on the disk. A device is left to itself.
    pub(crate) fn sync(&self) -> io::Result<()> {
        match &self.waiting {
            Some(_) => self.sink.writer().sync_all(),
            None => Ok(()),
        }
    }

    /// Renames the file to its target.
    pub(crate) fn put_in_place(&mut self) -> io::Result<()> {
        match &mut self.waiting {
            Some(waiting) => waiting.beside.rename_to(waiting.target.as_str()),
            None => Ok(()),
        }
    }

    /// Returns when the folder of the target is on the disk, so that a crash doesn't undo the rename.
    pub(crate) fn sync_folder(&self, host: &R) -> io::Result<()> {
        match &self.waiting {
            Some(waiting) => sync_folder_of(host, waiting.target.as_str()),
            None => Ok(()),
        }
    }
}

impl<R: rt::Files + Copy> Sink for HostOutput<R> {
    ghost is_known = { λ _. ⊥ };

    ghost written = { λ _. [] };

    ghost has_failed = { λ output. output.sink.has_failed };

    ghost may_fail = { λ _. Unit {0} };

    fn put(&mut self, bytes: &[u8]) -> Result<usize, Broken> {
        self.sink.put(bytes)
    }
}

// Whether a file may be written, though a rename could pass over that.
fn check_writable<R: rt::Files>(host: &R, path: &str, permissions: &Permissions) -> io::Result<()> {
    if permissions.readonly() {
        return Err(io::Error::from(ErrorKind::PermissionDenied));
    }
    OpenOptions::new().write(true).open(host, path)?;
    Ok(())
}

// Opens the folder of this path.
fn open_folder_of<R: rt::Files>(host: &R, path: &str) -> io::Result<R::File> {
    let folder = match Path::new(path).parent() {
        Some(folder) if !folder.as_str().is_empty() => folder.as_str(),
        _ => ".",
    };
    fs::open(host, folder)
}

// Syncs the folder of this path, where its file system can.
fn sync_folder_of<R: rt::Files>(host: &R, path: &str) -> io::Result<()> {
    match open_folder_of(host, path)?.sync_all() {
        Err(error) if error.kind() == ErrorKind::InvalidInput => Ok(()),
        synced => synced,
    }
}
