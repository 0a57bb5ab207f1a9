//! The disks of a host's folder: eight files, each of which is a disk.
#![tactic(auto)]

mod claim;
mod folder;
mod host_disk;
mod refusal;

pub use folder::open_disks;
pub use host_disk::FileDisk;
pub use refusal::{Cause, OpenRefusal};
