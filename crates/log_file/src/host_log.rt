ghost use Rattle.std.specs.Prelude.{◌≡◌, [], false, IfOk};

use crate::growing_file::GrowingFile;
use crate::open_fault::OpenFault;
use file_devices::Broken;
use std::fs::{File, OpenFile, OpenOptions, TryLockError};
use std::io::{ErrorKind, Write};
use std::os::unix::prelude::{FileExt, OpenOptionsExt};
use std::path::Path;
use std::{fs, io, rt};

// Who may read and write a new file: its owner alone.
const OWNER_ALONE: u32 = 0o600;

/// A file of the host that grows, locked alone until it is dropped: an advisory lock on the file itself. What it has is not known.
#[derive(Drop)]
pub struct HostLog {
    file: File,
    has_failed: bool,
}

impl HostLog {
    /// Opens the file of this name, or makes it, and locks it. Its folder is synced, so that a crash doesn't take a new file away. It
    /// has to be a plain file, and a link to one is followed.
    pub fn open<R: rt::Files<File = File>>(host: &R, name: &str) -> Result<HostLog, OpenFault>
        ensures { IfOk result (λ log. log.has_failed ≡ false) }
    {
        let file = match open_plain(host, name) {
            Ok(file) => file,
            Err(error) => return Err(refused(&error)),
        };
        match file.try_lock() {
            Ok(()) => {}
            Err(TryLockError::WouldBlock) => return Err(OpenFault::InUse),
            Err(TryLockError::Error(error)) => return Err(refused(&error)),
        }
        match sync_folder_of(host, name) {
            Ok(()) => Ok(HostLog {
                file,
                has_failed: false,
            }),
            Err(error) => Err(refused(&error)),
        }
    }
}

impl GrowingFile for HostLog {
    ghost is_known = { λ _. ⊥ };

    ghost synced = { λ _. [] };

    ghost unsynced = { λ _. [] };

    ghost has_failed = { λ log. log.has_failed };

    ghost may_fail = { λ _. Unit {0} };

    fn read_at(&self, at: u64, buffer: &mut [u8]) -> Result<usize, Broken> {
        match self.file.read_at(buffer, at) {
            Ok(count) if at.checked_add(count as u64).is_some() => Ok(count),
            _ => Err(Broken),
        }
    }

    fn put(&mut self, bytes: &[u8]) -> Result<usize, Broken> {
        match self.file.write(bytes) {
            Ok(0) => {
                self.has_failed = true;
                Ok(0)
            }
            Ok(count) => Ok(count),
            Err(_) => {
                self.has_failed = true;
                Err(Broken)
            }
        }
    }

    fn sync(&mut self) -> Result<(), Broken> {
        match self.file.sync_all() {
            Ok(()) => Ok(()),
            Err(_) => {
                self.has_failed = true;
                Err(Broken)
            }
        }
    }

    fn cut(&mut self, size: u64) -> Result<(), Broken> {
        match self.file.set_len(size) {
            Ok(()) => Ok(()),
            Err(_) => {
                self.has_failed = true;
                Err(Broken)
            }
        }
    }
}

// Opens a plain file, which is made where nothing has its name. What else may stand there is never opened.
fn open_plain<R: rt::Files<File = File>>(host: &R, name: &str) -> io::Result<File> {
    match fs::metadata(host, name) {
        Ok(metadata) if !metadata.is_file() => return Err(io::Error::from(ErrorKind::InvalidInput)),
        Ok(_) => {}
        Err(error) if error.kind() == ErrorKind::NotFound => {}
        Err(error) => return Err(error),
    }
    let file = OpenOptions::new()
        .read(true)
        .append(true)
        .create(true)
        .mode(OWNER_ALONE)
        .open(host, name)?;
    if !file.metadata()?.is_file() {
        return Err(io::Error::from(ErrorKind::InvalidInput));
    }
    Ok(file)
}

// Syncs the folder of this path, where its file system can.
fn sync_folder_of<R: rt::Files<File = File>>(host: &R, path: &str) -> io::Result<()> {
    let folder = match Path::new(path).parent() {
        Some(folder) if !folder.as_str().is_empty() => folder.as_str(),
        _ => ".",
    };
    match fs::open(host, folder)?.sync_all() {
        Err(error) if error.kind() == ErrorKind::InvalidInput => Ok(()),
        synced => synced,
    }
}

// Why a file is not opened.
fn refused(error: &io::Error) -> OpenFault {
    match error.kind() {
        ErrorKind::OutOfMemory => OpenFault::OutOfMemory,
        _ => OpenFault::Refused,
    }
}
