ghost use Rattle.std.specs.Prelude.{[]};

use crate::locked_log::LockedLog;
use crate::locked_logs::LockedLogs;
use file_devices::Broken;
use log_file::OpenFault;
use std::fs::{File, OpenFile, OpenOptions, TryLockError};
use std::io::ErrorKind;
use std::os::unix::prelude::FileExt;
use std::{fs, io, rt};

/// A log of the host, locked with others that read it, and against a host that would grow it, until it is dropped: an advisory lock on
/// the file itself. What it has is not known.
#[derive(Drop)]
pub struct HostLockedLog {
    file: File,
}

impl LockedLog for HostLockedLog {
    ghost is_known = { λ _. ⊥ };

    ghost bytes = { λ _. [] };

    ghost may_fail = { λ _. Unit {0} };

    fn read_at(&self, at: u64, buffer: &mut [u8]) -> Result<usize, Broken> {
        match self.file.read_at(buffer, at) {
            Ok(count) if at.checked_add(count as u64).is_some() => Ok(count),
            _ => Err(Broken),
        }
    }
}

/// The logs in the files of a host. What they have is not known.
#[derive(Drop)]
pub struct HostLockedLogs<R> {
    host: R,
}

impl<R: rt::Files<File = File> + Copy> HostLockedLogs<R> {
    /// The logs in the files of this host.
    pub fn new(host: R) -> HostLockedLogs<R> {
        HostLockedLogs { host }
    }
}

impl<R: rt::Files<File = File> + Copy> LockedLogs for HostLockedLogs<R> {
    type Log = HostLockedLog;

    ghost holds = { λ _ _ _. ⊥ };

    ghost reading = { λ _ _. Unit {0} };

    ghost in_use = { λ _ _. Unit {0} };

    fn open(&self, name: &str) -> Result<HostLockedLog, OpenFault> {
        let file = match open_plain(&self.host, name) {
            Ok(file) => file,
            Err(error) => return Err(refused(&error)),
        };
        match file.try_lock_shared() {
            Ok(()) => Ok(HostLockedLog { file }),
            Err(TryLockError::WouldBlock) => Err(OpenFault::InUse),
            Err(TryLockError::Error(error)) => Err(refused(&error)),
        }
    }
}

// Opens a plain file, to read it. None is made, and what else may stand there is never opened.
fn open_plain<R: rt::Files<File = File>>(host: &R, name: &str) -> io::Result<File> {
    if !fs::metadata(host, name)?.is_file() {
        return Err(io::Error::from(ErrorKind::InvalidInput));
    }
    let file = OpenOptions::new().read(true).open(host, name)?;
    if !file.metadata()?.is_file() {
        return Err(io::Error::from(ErrorKind::InvalidInput));
    }
    Ok(file)
}

// Why a file is not opened.
fn refused(error: &io::Error) -> OpenFault {
    match error.kind() {
        ErrorKind::OutOfMemory => OpenFault::OutOfMemory,
        _ => OpenFault::Refused,
    }
}
