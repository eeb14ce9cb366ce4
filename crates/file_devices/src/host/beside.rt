use crate::host::claim::note_beside;
use crate::host::target::hidden_path;
use std::alloc::Global;
use std::fs::{File, OpenOptions};
use std::io::ErrorKind;
use std::os::unix::prelude::OpenOptionsExt;
use std::{fs, io, rt};

// How many names are tried.
const TRIES: u32 = 1_000;

// Who may read and write a new file: its owner alone.
pub(crate) const OWNER_ALONE: u32 = 0o600;

/// A file beside another one, that is renamed to it in the end. It is removed where it is dropped before.
pub(crate) struct Beside<R: rt::Files + Copy> {
    host: R,
    path: String,
    is_there: bool,
}

impl<R: rt::Files + Copy> Drop for Beside<R> {
    fn drop(self) {
        if self.is_there {
            // Nothing more can be done where this fails; the next run of the same file tries again.
            let _ = fs::remove_file(&self.host, self.path.as_str());
        }
        let Beside {
            host: _,
            path: _,
            is_there: _,
        } = self;
    }
}

impl<R: rt::Files<File = File> + Copy> Beside<R> {
    /// A new file beside this one, under a name that isn't there, and open to be written. Its owner alone may read it. The file that
    /// locks the target, if there is one, has its name.
    pub(crate) fn new(host: R, alloc: Global, target: &str) -> io::Result<(R::File, Beside<R>)> {
        for number in 0..TRIES {
            let ending = format!(in alloc; "{number}")?;
            let path = hidden_path(alloc, target, ending.as_str())?;
            if is_absent(&host, path.as_str())? {
                note_beside(&host, alloc, target, path.as_str())?;
                match new_file(&host, path.as_str()) {
                    Ok(file) => return Ok((file, Beside::at(host, path))),
                    Err(error) if error.kind() == ErrorKind::AlreadyExists => {}
                    Err(error) => return Err(error),
                }
            }
        }
        Err(io::Error::from(ErrorKind::AlreadyExists))
    }

    // The file of this path.
    fn at(host: R, path: String) -> Beside<R> {
        Beside {
            host,
            path,
            is_there: true,
        }
    }

    /// Renames the file to its target.
    pub(crate) fn rename_to(&mut self, target: &str) -> io::Result<()> {
        fs::rename(&self.host, self.path.as_str(), target)?;
        self.is_there = false;
        Ok(())
    }
}

// Makes a new file of this path.
fn new_file<R: rt::Files>(host: &R, path: &str) -> io::Result<R::File> {
    OpenOptions::new()
        .write(true)
        .create_new(true)
        .mode(OWNER_ALONE)
        .open(host, path)
}

// Whether nothing has this path.
fn is_absent<R: rt::Files>(host: &R, path: &str) -> io::Result<bool> {
    match fs::symlink_metadata(host, path) {
        Ok(_) => Ok(false),
        Err(error) if error.kind() == ErrorKind::NotFound => Ok(true),
        Err(error) => Err(error),
    }
}
