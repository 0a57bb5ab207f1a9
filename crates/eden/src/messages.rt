//! The lines on standard error, which tell a person what failed. Where one cannot be written, nothing else changes.
use crate::OLD_SIZE;
use crate::blank::DISK_SIZE;
use eden_shell::Outcome;
use file_disk::{Cause, OpenRefusal};
use std::io;

/// Tells why the disks of a folder are not opened.
pub fn tell_refusal(rt: &HostRuntime, folder: &str, refusal: &OpenRefusal) {
    let _ = match refusal {
        OpenRefusal::Disk(_, Cause::HasAnotherSize { .. }) => {
            eprintln!(rt;
                "eden: cannot open the disks of {folder:?}: {refusal}, where {OLD_SIZE} or {DISK_SIZE} are wanted"
            )
        }
        _ => eprintln!(rt; "eden: cannot open the disks of {folder:?}: {refusal}"),
    };
}

/// Tells that there was no memory.
pub fn tell_no_memory(rt: &HostRuntime, what: &str) {
    let _ = eprintln!(rt; "eden: there is no memory for {what}");
}

/// Tells that a standard stream failed, and why, where that is known.
pub fn tell_failure(rt: &HostRuntime, what: &str, failure: Option<io::Error>) {
    let _ = match failure {
        Some(error) => eprintln!(rt; "eden: {what}: {error}"),
        None => eprintln!(rt; "eden: {what}"),
    };
}

/// Tells what ended a run before its time: a read or a write that failed, or want of memory.
pub fn tell_outcome(
    rt: &HostRuntime,
    outcome: &Outcome,
    reading: Option<io::Error>,
    writing: Option<io::Error>,
) {
    match outcome {
        Outcome::ReadFault => tell_failure(rt, "cannot read standard input", reading),
        Outcome::WriteFault => tell_failure(rt, "cannot write standard output", writing),
        Outcome::OutOfMemory => tell_no_memory(rt, "what the words ask for"),
        Outcome::Ran | Outcome::BadWords | Outcome::BadScript { .. } | Outcome::TooLong => {}
    }
}
