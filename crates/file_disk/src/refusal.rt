//! Why the disks of a folder are not opened.
use std::alloc::{AllocError, AllocFailed};
use std::io;
use thiserror::Error;

/// Why the disks of a folder are not opened, in words for a person.
#[derive(Debug, Drop, Error)]
pub enum OpenRefusal {
    /// The folder is not there, or is none, or may not be used now.
    #[error("the folder {0}")]
    Folder(Cause),
    /// The file of the disk of this number, 1 to 8, is not as it has to be, or cannot be made.
    #[error("disk{0} {1}")]
    Disk(u8, Cause),
    /// There was no memory.
    #[error("there is no memory for opening them")]
    OutOfMemory,
}

/// What is the matter with the folder or with a file in it.
#[derive(Debug, Drop, Error)]
pub enum Cause {
    /// A call of the operating system failed.
    #[error("cannot be used: {0}")]
    System(io::Error),
    /// Another run uses it, or another program has locked it.
    #[error("is locked: another run uses it")]
    IsLocked,
    /// The system gave it the number of a standard stream.
    #[error("has the number of a standard stream")]
    IsStream,
    /// It is no ordinary file.
    #[error("is no ordinary file")]
    IsNoFile,
    /// It has this many bytes, which is none of the sizes that are wanted.
    #[error("has {bytes} bytes")]
    HasAnotherSize { bytes: u64 },
}

impl From<AllocError> for OpenRefusal {
    fn from(_: AllocError) -> OpenRefusal {
        OpenRefusal::OutOfMemory
    }
}

impl<T: Drop> From<AllocFailed<T>> for OpenRefusal {
    fn from(_: AllocFailed<T>) -> OpenRefusal {
        OpenRefusal::OutOfMemory
    }
}

impl From<io::Error> for Cause {
    fn from(error: io::Error) -> Cause {
        Cause::System(error)
    }
}
