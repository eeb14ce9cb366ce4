use std::alloc::Global;
use std::fs::{Metadata, Permissions};
use std::io::ErrorKind;
use std::path::Path;
use std::{fs, io, rt};

/// Where a name leads that is to be written.
#[derive(Drop)]
pub(crate) enum HostTarget {
    /// There is no file of this path.
    Absent(String),
    /// A plain file of this path, and who may do what with it.
    Plain(String, Permissions),
    /// A device or a pipe, which is written as it is.
    Device,
}

impl HostTarget {
    /// Where the name leads. A link is followed; one that leads nowhere is a fault, and so is a folder, also where none is there.
    pub(crate) fn of<R: rt::Files>(host: &R, alloc: Global, name: &str) -> io::Result<HostTarget> {
        match fs::symlink_metadata(host, name) {
            Ok(metadata) if metadata.is_symlink() => HostTarget::of_link(host, alloc, name),
            Ok(metadata) => HostTarget::of_kind(alloc, name, &metadata),
            Err(error) if error.kind() == ErrorKind::NotFound => HostTarget::absent(alloc, name),
            Err(error) => Err(error),
        }
    }

    // A file that isn't there. Only a folder's name ends as these.
    fn absent(alloc: Global, name: &str) -> io::Result<HostTarget> {
        if name.ends_with("/") || name.ends_with("/.") {
            return Err(io::Error::from(ErrorKind::IsADirectory));
        }
        Ok(HostTarget::Absent(String::from_str(alloc, name)?))
    }

    // Where a link leads.
    fn of_link<R: rt::Files>(host: &R, alloc: Global, name: &str) -> io::Result<HostTarget> {
        let metadata = fs::metadata(host, name)?;
        if !metadata.is_file() {
            return HostTarget::of_kind(alloc, name, &metadata);
        }
        let path = host.canonicalize(alloc, name)?;
        HostTarget::of_kind(alloc, path.as_str(), &metadata)
    }

    // What stands there.
    fn of_kind(alloc: Global, path: &str, metadata: &Metadata) -> io::Result<HostTarget> {
        if metadata.is_dir() {
            return Err(io::Error::from(ErrorKind::IsADirectory));
        }
        if !metadata.is_file() {
            return Ok(HostTarget::Device);
        }
        let path = String::from_str(alloc, path)?;
        Ok(HostTarget::Plain(path, metadata.permissions()))
    }

    /// The path of what is put in place, where that is a plain file.
    pub(crate) fn path(&self) -> Option<&str> {
        match self {
            HostTarget::Absent(path) | HostTarget::Plain(path, _) => Some(path.as_str()),
            HostTarget::Device => None,
        }
    }
}

/// The path of a hidden file beside this one, that belongs to it by its name: `.NAME.switch-ENDING`.
pub(crate) fn hidden_path(alloc: Global, path: &str, ending: &str) -> io::Result<String> {
    let path = Path::new(path);
    let Some(name) = path.file_name() else {
        return Err(io::Error::from(ErrorKind::InvalidInput));
    };
    let hidden = format!(in alloc; ".{name}.switch-{ending}")?;
    let beside = path.with_file_name(alloc, hidden.as_str())?;
    Ok(String::from_str(alloc, beside.as_str())?)
}
