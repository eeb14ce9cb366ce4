//! A folder of the host, over which a script is played.
//!
//! Beside what every script may say, `link NAME TARGET` makes a symbolic link, `same NAME OTHER` a second name of a file, and `folder
//! NAME` a folder. `mode NAME 600` says who may do what with a file, and `moded NAME 600` that it is so. `claim NAME` claims a file as
//! another run does that writes it, `release all` gives up what was claimed. `count N` says how many names the folder has, and `end FOLDER`
//! removes it.

use crate::script::Stage;
use file_devices::{Files, HostClaim, HostFiles};
use std::alloc::Global;
use std::fs::{File, Permissions};
use std::os::unix::prelude::{MetadataExt, PermissionsExt};
use std::{fs, rt};

/// The files below a folder, which is made anew for each case.
#[derive(Drop)]
pub(crate) struct HostStage<R: rt::Files<File = File> + AllocGlobal + Copy> {
    host: R,
    folder: &'static str,
    files: HostFiles<R>,
    claims: Vec<HostClaim<R>>,
}

impl<R: rt::Files<File = File> + AllocGlobal + Copy> HostStage<R> {
    /// The folder of this name, below the one that the test runs in.
    pub(crate) fn new(host: R, folder: &'static str) -> HostStage<R> {
        HostStage {
            host,
            folder,
            files: HostFiles::new(host, host.alloc()),
            claims: Vec::new(host.alloc()),
        }
    }

    // Makes a link, or a second name.
    fn is_linked(&self, verb: &str, rest: &str) -> bool {
        match rest.split_once(' ') {
            Some((name, target)) if verb == "link" => self.host.symlink(target, name).is_ok(),
            Some((name, other)) => self.host.hard_link(other, name).is_ok(),
            None => false,
        }
    }

    // Sets who may do what with a file, or looks whether it is so.
    fn is_mode(&self, verb: &str, rest: &str) -> Option<bool> {
        let (name, digits) = rest.split_once(' ')?;
        let mode = u32::from_str_radix(digits, 8).ok()?;
        if verb == "mode" {
            return Some(fs::set_permissions(
                &self.host,
                name,
                Permissions::from_mode(mode),
            ).is_ok());
        }
        let metadata = fs::metadata(&self.host, name).ok()?;
        Some(metadata.mode() & 0o777 == mode)
    }

    // Claims a file as another run does.
    fn is_claimed(&mut self, name: &str) -> Option<()> {
        let claim = self.files.claim(name).ok()?;
        self.claims.push(claim).ok()
    }

    // How many names the folder has.
    fn count(&self) -> Option<usize> {
        let mut count = 0usize;
        for entry in fs::read_dir(&self.host, self.folder).ok()? {
            entry.ok()?;
            count = count.checked_add(1)?;
        }
        Some(count)
    }
}

impl<R: rt::Files<File = File> + AllocGlobal + Copy> Stage for HostStage<R> {
    type Files = HostFiles<R>;

    fn files(&mut self) -> &mut HostFiles<R> {
        &mut self.files
    }

    fn get(&self, _alloc: Global, name: &str) -> Option<Vec<u8>> {
        fs::read(&self.host, name).ok()
    }

    fn put(&mut self, name: &str, bytes: Vec<u8>) -> Option<()> {
        fs::write(&self.host, name, bytes).ok()
    }

    fn clear(&mut self) -> bool {
        let _ = fs::remove_dir_all(&self.host, self.folder);
        fs::create_dir(&self.host, self.folder).is_ok()
    }

    fn does(&mut self, verb: &str, rest: &str) -> Option<bool> {
        match verb {
            "link" | "same" => Some(self.is_linked(verb, rest)),
            "folder" => Some(fs::create_dir(&self.host, rest).is_ok()),
            "mode" | "moded" => Some(self.is_mode(verb, rest) == Some(true)),
            "claim" => Some(self.is_claimed(rest).is_some()),
            "release" => {
                self.claims.clear();
                Some(true)
            }
            "count" => Some(self.count() == rest.parse().ok()),
            "end" => Some(fs::remove_dir_all(&self.host, rest).is_ok()),
            _ => None,
        }
    }
}
