//! How the folder and its files are taken for one run alone.
ghost use Rattle.std.specs.Prelude.{◌↔◌, IfOk, IsTrue, OnOk};
ghost use Rattle.std.specs.Fd.{file_raw_fd};
ghost use Rattle.file_disk.specs.Numbers.{IsApart};

use crate::refusal::Cause;
use std::fs::{File, TryLockError};
use std::mem;
use std::os::fd::{AsRawFd, RawFd};
use std::rt::HostRuntime;

/// The last of the numbers of the three standard streams.
const STANDARD_ERROR: RawFd = 2;

/// How many standard streams there are.
const STREAMS: u8 = 3;

// Whether an open file has none of the numbers of the standard streams.
fn is_apart(file: &File) -> bool
    ensures { IsTrue result ↔ IsApart (file_raw_fd file.now) }
{
    file.as_raw_fd() > STANDARD_ERROR
}

/// Locks an open file for this run alone, until it is closed. One that stands for a standard stream is refused.
pub fn claim(file: &File) -> Result<(), Cause>
    ensures apart { OnOk result (IsApart (file_raw_fd file.now)) }
{
    if !is_apart(file) {
        return Err(Cause::IsStream);
    }
    match file.try_lock() {
        Ok(()) => Ok(()),
        Err(TryLockError::WouldBlock) => Err(Cause::IsLocked),
        Err(TryLockError::Error(error)) => Err(Cause::System(error)),
    }
}

/// Opens a folder, apart from the standard streams.
///
/// The system gives the lowest number that is free. So where a standard stream is closed, the folder stands in its place from here to
/// the end of the program, and no disk ever does: a folder can be neither read nor written as a file.
pub fn open_apart(rt: &HostRuntime, folder: &str) -> Result<File, Cause>
    ensures apart { IfOk result (λ f. IsApart (file_raw_fd f)) }
{
    for _ in 0..=STREAMS {
        let opened = File::open(rt, folder)?;
        if is_apart(&opened) {
            return Ok(opened);
        }
        mem::forget(opened);
    }
    Err(Cause::IsStream)
}
