use std::fmt;
use std::io::ErrorKind;

/// What the host says where a file can't be read or written.
#[derive(Clone, Copy, Debug, PartialEq, Eq)]
pub enum HostReason {
    /// It isn't there.
    NotFound,
    /// This user may not.
    NotAllowed,
    /// It is a directory.
    Directory,
    /// A part of its name is no directory.
    NoDirectory,
    /// The file system is read-only.
    ReadOnly,
    /// No space is left on the device.
    Full,
    /// The name can't be one.
    Name,
    /// Another program uses it.
    Busy,
    /// Anything else.
    Failed,
}

impl From<ErrorKind> for HostReason {
    fn from(kind: ErrorKind) -> HostReason {
        match kind {
            ErrorKind::NotFound => HostReason::NotFound,
            ErrorKind::PermissionDenied => HostReason::NotAllowed,
            ErrorKind::IsADirectory => HostReason::Directory,
            ErrorKind::NotADirectory => HostReason::NoDirectory,
            ErrorKind::ReadOnlyFilesystem => HostReason::ReadOnly,
            ErrorKind::StorageFull | ErrorKind::QuotaExceeded => HostReason::Full,
            ErrorKind::InvalidFilename | ErrorKind::InvalidInput => HostReason::Name,
            ErrorKind::ResourceBusy | ErrorKind::WouldBlock => HostReason::Busy,
            _ => HostReason::Failed,
        }
    }
}

impl fmt::Display for HostReason {
    ghost use Rattle.std.specs.Prelude.{Some};
    ghost use Rattle.file_devices.specs.HostReason.{host_text};

    ghost output = { λ reason. Some (host_text reason) };

    fn fmt<W: fmt::Write>(&self, f: &mut fmt::Formatter<W>) -> fmt::Result {
        match self {
            HostReason::NotFound => f.write_str("no such file or directory"),
            HostReason::NotAllowed => f.write_str("permission denied"),
            HostReason::Directory => f.write_str("is a directory"),
            HostReason::NoDirectory => f.write_str("a part of the name is no directory"),
            HostReason::ReadOnly => f.write_str("read-only file system"),
            HostReason::Full => f.write_str("no space left on the device"),
            HostReason::Name => f.write_str("no name of a file"),
            HostReason::Busy => f.write_str("in use by another program"),
            HostReason::Failed => f.write_str("input or output failed"),
        }
    }
}
