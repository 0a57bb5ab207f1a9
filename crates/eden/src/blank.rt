//! The disks of a run that keeps nothing.
ghost use Rattle.std.specs.Prelude.{◌≡◌, IfOk, length};
ghost use Rattle.std.specs.List.{All};
ghost use Rattle.eden_disk.specs.SimDisk.{blank_of};

use eden_disk::SimDisk;
use std::alloc::{AllocError, Global};

/// How many disks there are.
const DISKS: u8 = 8;

/// How many bytes each disk has.
pub const DISK_SIZE: u32 = 4_194_304;

/// Eight disks of zero bytes, in memory.
pub fn blank_disks(alloc: Global) -> Result<Vec<SimDisk>, AllocError>
    ensures eight { IfOk result (λ disks. length disks.items ≡ 8) }
    ensures sizes { IfOk result (λ disks. All (λ d. d.counts.size ≡ 4194304) disks.items) }
    ensures blank { IfOk result (λ disks. All (λ d. d ≡ blank_of 4194304) disks.items) }
{
    let mut disks = Vec::with_capacity(alloc, usize::from(DISKS))?;
    for _ in 0..DISKS {
        disks.push(SimDisk::new(alloc, DISK_SIZE)?)?;
    }
    Ok(disks)
}
