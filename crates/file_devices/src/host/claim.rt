use crate::host::beside::OWNER_ALONE;
use crate::host::target::{HostTarget, hidden_path};
use std::alloc::Global;
use std::fs::{File, OpenFile, OpenOptions, TryLockError};
use std::io::{ErrorKind, Read, Seek, SeekFrom, Write};
use std::os::unix::prelude::{MetadataExt, OpenOptionsExt};
use std::path::Path;
use std::{fs, io, rt};

// How often a lock is tried again that another run has just given up.
const TRIES: u32 = 100;

// A file's name has at most 255 bytes.
const LONGEST_NOTE: usize = 512;

/// The lock on a file of the host, until it is dropped: an advisory lock on the hidden file `.NAME.switch-lock` beside it. A device has
/// none, nor a file in whose folder none can be made. A file that is locked itself, as a running host has its log, isn't claimed alone.
#[derive(Drop)]
pub struct HostClaim<R: rt::Files<File = File> + Copy> {
    _lock: Option<HostLock<R>>,
}

impl<R: rt::Files<File = File> + Copy> HostClaim<R> {
    /// Claims the file of this name, alone or to read it with others. `None` where another run has claimed it.
    pub(crate) fn new(
        host: R,
        alloc: Global,
        name: &str,
        is_shared: bool,
    ) -> io::Result<Option<HostClaim<R>>> {
        let target = match HostTarget::of(&host, alloc, name) {
            Ok(target) => target,
            // What is wrong with the name is told when it is opened or made.
            Err(error) => return no_lock(error),
        };
        let Some(path) = target.path() else {
            return Ok(Some(HostClaim { _lock: None }));
        };
        if !is_shared && is_locked(&host, &target) {
            return Ok(None);
        }
        match HostLock::new(host, alloc, path, is_shared) {
            Ok(Some(lock)) => Ok(Some(HostClaim { _lock: Some(lock) })),
            Ok(None) => Ok(None),
            Err(error) => no_lock(error),
        }
    }
}

// Whether another program has locked the file itself. One that can't be opened isn't written either.
fn is_locked<R: rt::Files<File = File>>(host: &R, target: &HostTarget) -> bool {
    let HostTarget::Plain(path, _) = target else {
        return false;
    };
    match fs::open(host, path.as_str()) {
        Ok(file) => matches!(file.try_lock_shared(), Err(TryLockError::WouldBlock)),
        Err(_) => false,
    }
}

// A claim without a lock, unless memory ran out.
fn no_lock<R: rt::Files<File = File> + Copy>(error: io::Error) -> io::Result<Option<HostClaim<R>>> {
    match error.kind() {
        ErrorKind::OutOfMemory => Err(error),
        _ => Ok(Some(HostClaim { _lock: None })),
    }
}

// A file that is locked. It is removed where it is dropped, unless others have locked it, too, or it is a stranger's.
struct HostLock<R: rt::Files<File = File> + Copy> {
    host: R,
    path: String,
    file: File,
    is_ours: bool,
}

impl<R: rt::Files<File = File> + Copy> Drop for HostLock<R> {
    fn drop(self) {
        if self.is_ours && self.file.try_lock().is_ok() {
            // One that stays does no harm.
            let _ = fs::remove_file(&self.host, self.path.as_str());
        }
        let HostLock {
            host: _,
            path: _,
            file: _,
            is_ours: _,
        } = self;
    }
}

impl<R: rt::Files<File = File> + Copy> HostLock<R> {
    // Locks the file that belongs to the target, and takes away what a run left beside it that was killed. `None` where another run
    // has locked it, or something stands in its place.
    fn new(
        host: R,
        alloc: Global,
        target: &str,
        is_shared: bool,
    ) -> io::Result<Option<HostLock<R>>> {
        let path = hidden_path(alloc, target, "lock")?;
        for _ in 0..TRIES {
            if !is_plain_or_absent(&host, path.as_str())? {
                return Ok(None);
            }
            let file = open_lock(&host, path.as_str())?;
            if !try_lock(&file, is_shared)? {
                return Ok(None);
            }
            if is_still_there(&host, &file, path.as_str())? {
                let note = LockNote::read(alloc, target, &file)?;
                let is_ours = if is_shared {
                    matches!(note, LockNote::Empty)
                } else {
                    take_leftover(&host, &file, &note)?
                };
                return Ok(Some(HostLock {
                    host,
                    path,
                    file,
                    is_ours,
                }));
            }
        }
        Ok(None)
    }
}

// The file that locks, which is made where it isn't there.
fn open_lock<R: rt::Files<File = File> + Copy>(host: &R, path: &str) -> io::Result<File> {
    OpenOptions::new()
        .read(true)
        .write(true)
        .create(true)
        .mode(OWNER_ALONE)
        .open(host, path)
}

// Whether the file could be locked.
fn try_lock(file: &File, is_shared: bool) -> io::Result<bool> {
    let locked = if is_shared {
        file.try_lock_shared()
    } else {
        file.try_lock()
    };
    match locked {
        Ok(()) => Ok(true),
        Err(TryLockError::WouldBlock) => Ok(false),
        Err(TryLockError::Error(error)) => Err(error),
    }
}

// Whether the path is still this file's: another run may have removed it before it was locked.
fn is_still_there<R: rt::Files<File = File> + Copy>(
    host: &R,
    file: &File,
    path: &str,
) -> io::Result<bool> {
    let locked = file.metadata()?;
    match fs::metadata(host, path) {
        Ok(there) => Ok(there.dev() == locked.dev() && there.ino() == locked.ino()),
        Err(error) if error.kind() == ErrorKind::NotFound => Ok(false),
        Err(error) => Err(error),
    }
}

// What a file that locks holds.
#[derive(Drop)]
enum LockNote {
    // Nothing: no run writes the target, or it has made no file beside it yet.
    Empty,
    // The name of the file that a run writes beside the target, or wrote when it was killed. This is its path.
    Beside(String),
    // Something else, of a stranger.
    Strange,
}

impl LockNote {
    // What this file holds.
    fn read(alloc: Global, target: &str, lock: &File) -> io::Result<LockNote> {
        let mut note = [0; LONGEST_NOTE];
        let mut lock = lock;
        let count = lock.read(&mut note)?;
        if count == 0 {
            return Ok(LockNote::Empty);
        }
        match std::str::from_utf8(&note[..count]) {
            Ok(name) => LockNote::of_name(alloc, target, name),
            Err(_) => Ok(LockNote::Strange),
        }
    }

    // What this name says: it is one that this program gives files beside the target, or a stranger's.
    fn of_name(alloc: Global, target: &str, name: &str) -> io::Result<LockNote> {
        let number = name.rsplit_once('-').map_or("", |(_, number)| number);
        if number.is_empty() || !number.bytes().all(|digit| digit.is_ascii_digit()) {
            return Ok(LockNote::Strange);
        }
        let path = hidden_path(alloc, target, number)?;
        if Path::new(path.as_str()).file_name() == Some(name) {
            Ok(LockNote::Beside(path))
        } else {
            Ok(LockNote::Strange)
        }
    }
}

// Takes away what a run left beside the target that was killed. Returns whether the file that locks may be removed in the end, since it
// is no stranger's.
fn take_leftover<R: rt::Files<File = File> + Copy>(
    host: &R,
    lock: &File,
    note: &LockNote,
) -> io::Result<bool> {
    match note {
        LockNote::Empty => Ok(true),
        LockNote::Strange => Ok(false),
        LockNote::Beside(path) => match fs::remove_file(host, path.as_str()) {
            Err(error) if error.kind() != ErrorKind::NotFound => Err(error),
            _ => {
                lock.set_len(0)?;
                Ok(true)
            }
        },
    }
}

/// Writes the name of a file beside the target into the file that locks it, where there is one that is no stranger's, so that the next
/// run takes the file away where this one is killed.
pub(crate) fn note_beside<R: rt::Files<File = File> + Copy>(
    host: &R,
    alloc: Global,
    target: &str,
    path: &str,
) -> io::Result<()> {
    let lock = hidden_path(alloc, target, "lock")?;
    if !is_plain_or_absent(host, lock.as_str())? {
        return Ok(());
    }
    let opened = OpenOptions::new()
        .read(true)
        .write(true)
        .open(host, lock.as_str());
    let Ok(mut file) = opened else {
        return Ok(());
    };
    if matches!(LockNote::read(alloc, target, &file)?, LockNote::Strange) {
        return Ok(());
    }
    let Some(name) = Path::new(path).file_name() else {
        return Ok(());
    };
    file.set_len(0)?;
    file.seek(SeekFrom::Start(0))?;
    file.write_all(name.as_bytes())
}

// Whether a plain file has this path, or none: what else may stand there is never opened.
fn is_plain_or_absent<R: rt::Files<File = File> + Copy>(host: &R, path: &str) -> io::Result<bool> {
    match fs::symlink_metadata(host, path) {
        Ok(metadata) => Ok(metadata.is_file()),
        Err(error) if error.kind() == ErrorKind::NotFound => Ok(true),
        Err(error) => Err(error),
    }
}
