//! Why a file can't be read or written.

ghost use Rattle.std.specs.Prelude.{Some};
ghost use Rattle.outside.specs.Reasons.{reason_of};

use std::{fmt, io};

/// Why a file can't be read or written.
#[derive(Clone, Copy)]
pub enum Failure {
    /// The file or its folder doesn't exist.
    Missing,
    /// Memory ran out.
    Memory,
    /// The file may not be read, or may not be written.
    Denied,
    /// The file is a folder.
    Folder,
    /// A folder in its path is a file.
    NoFolder,
    /// The disk is full, or the user's quota is used up.
    Full,
    /// Nothing can be written to this disk.
    ReadOnly,
    /// Any other error of the system: its errno, or 0.
    System { number: u32 },
}

impl From<&io::Error> for Failure {
    fn from(error: &io::Error) -> Failure {
        match error.kind() {
            io::ErrorKind::NotFound => Failure::Missing,
            io::ErrorKind::OutOfMemory => Failure::Memory,
            io::ErrorKind::PermissionDenied => Failure::Denied,
            io::ErrorKind::IsADirectory => Failure::Folder,
            io::ErrorKind::NotADirectory => Failure::NoFolder,
            io::ErrorKind::StorageFull | io::ErrorKind::QuotaExceeded => Failure::Full,
            io::ErrorKind::ReadOnlyFilesystem => Failure::ReadOnly,
            _ => Failure::System {
                number: error.raw_os_error().unwrap_or(0).unsigned_abs(),
            },
        }
    }
}

/// The reason, in words.
impl fmt::Display for Failure {
    ghost output = { λ failure. Some (reason_of failure) };

    fn fmt<W: fmt::Write>(&self, f: &mut fmt::Formatter<W>) -> fmt::Result {
        match self {
            Failure::Missing => f.write_str("there is no such file or folder"),
            Failure::Memory => f.write_str("memory ran out"),
            Failure::Denied => f.write_str("the permission for it is missing"),
            Failure::Folder => f.write_str("it is a folder"),
            Failure::NoFolder => f.write_str("a part of its path is a file and no folder"),
            Failure::Full => f.write_str("the disk is full"),
            Failure::ReadOnly => f.write_str("nothing can be written to this disk"),
            Failure::System { number } => write!(f, "the system gives error {number}"),
        }
    }
}
