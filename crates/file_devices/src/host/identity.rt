use std::alloc::Global;
use std::io::ErrorKind;
use std::os::unix::prelude::MetadataExt;
use std::path::Path;
use std::{fs, io, rt};

/// Which file a name is of.
#[derive(Drop)]
pub(crate) enum FileIdentity {
    /// The file, or the folder, of this inode of this device.
    Node(u64, u64),
    /// None is there yet; one would have this name in the folder of this inode of this device.
    Absent(u64, u64, String),
    /// A device or a pipe, of which nothing is lost where it has several uses.
    Device,
    /// That can't be found out.
    Unknown,
}

impl FileIdentity {
    /// The identity of the file of this name. Links are followed.
    pub(crate) fn of<R: rt::Files>(
        host: &R,
        alloc: Global,
        name: &str,
    ) -> io::Result<FileIdentity> {
        match fs::metadata(host, name) {
            Ok(metadata) if metadata.is_file() || metadata.is_dir() => {
                Ok(FileIdentity::Node(metadata.dev(), metadata.ino()))
            }
            Ok(_) => Ok(FileIdentity::Device),
            Err(error) if error.kind() == ErrorKind::NotFound => {
                FileIdentity::of_absent(host, alloc, name)
            }
            Err(error) if error.kind() == ErrorKind::OutOfMemory => Err(error),
            Err(_) => Ok(FileIdentity::Unknown),
        }
    }

    // The identity of a file that isn't there.
    fn of_absent<R: rt::Files>(host: &R, alloc: Global, name: &str) -> io::Result<FileIdentity> {
        let path = Path::new(name);
        let (Some(folder), Some(file)) = (path.parent(), path.file_name()) else {
            return Ok(FileIdentity::Unknown);
        };
        let folder = match folder.as_str() {
            "" => ".",
            folder => folder,
        };
        match fs::metadata(host, folder) {
            Ok(metadata) => Ok(FileIdentity::Absent(
                metadata.dev(),
                metadata.ino(),
                String::from_str(alloc, file)?,
            )),
            Err(_) => Ok(FileIdentity::Unknown),
        }
    }

    /// Whether two names of these identities are one file's, where it can be found out.
    pub(crate) fn is_same(&self, other: &FileIdentity) -> Option<bool> {
        match (self, other) {
            (FileIdentity::Unknown, _) | (_, FileIdentity::Unknown) => None,
            (FileIdentity::Node(device, inode), FileIdentity::Node(other_device, other_inode)) => {
                Some(device == other_device && inode == other_inode)
            }
            (
                FileIdentity::Absent(device, inode, name),
                FileIdentity::Absent(other_device, other_inode, other_name),
            ) => Some(device == other_device && inode == other_inode && name == other_name),
            _ => Some(false),
        }
    }
}
