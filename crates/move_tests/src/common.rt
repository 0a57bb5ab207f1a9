//! Disks, and scripts that are carried out over them.
ghost use Rattle.std.specs.Prelude.{◌≡◌, length};

use eden_disk::SimDisk;
use move_world::{Moved, carry_moves, read_script};
use passive_store::Store;
use std::alloc::Global;
use std::process::Abort;

/// Eight blank disks of this size.
pub fn blank_disks(rt: &impl Abort, alloc: Global, size: u32) -> Vec<SimDisk>
    ensures { length result.items ≡ 8 }
{
    let mut disks = Vec::new(alloc);
    for _ in 0..8u8 {
        let disk = SimDisk::new(alloc, size).expect(rt, "memory");
        disks.push(disk).expect(rt, "memory");
    }
    disks
}

/// Carries a script out over eight disks.
pub fn carried<St: Store + Drop>(
    rt: &impl Abort,
    alloc: Global,
    script: &str,
    disks: &mut Vec<St::Device>,
) -> Box<Moved>
where
    St::Device: Drop,
    requires { length disks.old.items ≡ 8 }
    ensures { length disks.new.items ≡ 8 }
{
    assert!(rt; script.len() <= 1_000_000);
    let script = read_script(alloc, script.as_bytes()).expect(rt, "a script");
    let moved = carry_moves::<St>(alloc, script, disks).expect(rt, "memory");
    Box::new(alloc, moved).expect(rt, "memory")
}
