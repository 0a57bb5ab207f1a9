//! What the tests of disks and of stores share: bytes by their parts, disks, and faults of a disk. Want of memory ends the
//! process, and so fails the test.
ghost use Rattle.std.specs.Prelude.{◌≡◌, ◌<◌, ◌^◌, IsTrue, length};

use eden_disk::{Arm, Disk, ImageMode, SimDisk};
use std::alloc::Global;
use std::process::Abort;

/// A part of some bytes, and how often it stands there.
pub(crate) type Bytes = (&'static [u8], usize);

/// The bytes that a power cut leaves where a disk is unsynced.
pub(crate) const MODES: &[ImageMode] = &[
    ImageMode::Keep,
    ImageMode::Lose,
    ImageMode::Garble { byte: 225 },
    ImageMode::Garble { byte: 0 },
];

/// What befalls a disk: a stop or a failure in a device call, or a power cut between two of them.
#[derive(Clone, Copy)]
pub(crate) enum Harm {
    Stop,
    Fail,
    Cut,
}

/// Makes bytes of their part.
pub(crate) fn make_bytes(rt: &impl Abort, alloc: Global, bytes: Bytes) -> Vec<u8> {
    let (part, times) = bytes;
    let mut made = Vec::new(alloc);
    for _ in 0..times {
        made.extend_from_slice(part).expect(rt, "memory");
    }
    made
}

/// A disk of this size, of zero bytes.
pub(crate) fn blank_disk(rt: &impl Abort, alloc: Global, size: u32) -> Box<SimDisk>
    ensures { IsTrue result.value.counts.power × (result.value.counts.size ≡ size) }
{
    let disk = SimDisk::new(alloc, size).expect(rt, "memory");
    Box::new(alloc, disk).expect(rt, "memory")
}

/// A disk that holds this image.
pub(crate) fn disk_with(rt: &impl Abort, alloc: Global, image: Vec<u8>) -> Box<SimDisk>
    requires { length image.items < 2 ^ 32 }
    ensures { IsTrue result.value.counts.power × (result.value.counts.size ≡ length image.items) }
{
    let disk = SimDisk::of(alloc, image).expect(rt, "memory");
    Box::new(alloc, disk).expect(rt, "memory")
}

/// Whether bytes are these.
pub(crate) fn are_bytes(found: &[u8], bytes: Bytes) -> bool {
    let (part, times) = bytes;
    let count = part.len();
    if count == 0 {
        return found.is_empty();
    }
    for (place, byte) in found.iter().enumerate() {
        if *byte != part[place % count] {
            return false;
        }
    }
    found.len() == count.saturating_mul(times)
}

/// Asks a disk for what is to befall it in the device call that comes so many calls later.
pub(crate) fn arm(disk: &mut SimDisk, harm: Harm, after: u32, mode: ImageMode)
    ensures { disk.new.counts ≡ disk.old.counts }
{
    let after = after.max(1);
    match harm {
        Harm::Stop => disk.arm(Arm::Stop { after, mode }),
        Harm::Fail => disk.arm(Arm::Fail { after }),
        Harm::Cut => {}
    }
}

/// Cuts the power of a disk, unless a stop has done so.
pub(crate) fn cut_power(disk: &mut SimDisk, harm: Harm, mode: ImageMode) {
    match harm {
        Harm::Stop => {}
        Harm::Fail | Harm::Cut => disk.cut_power(mode),
    }
}

/// Clock, faults, stops and wants.
pub(crate) fn counts<D: Disk>(disk: &D) -> [u64; 4] {
    [disk.clock(), disk.faults(), disk.stops(), disk.wants()]
}

/// What they are behind so many device calls, the last of which was stopped, failed, or was none of both.
pub(crate) fn counts_behind(harm: Harm, calls: u32) -> [u64; 4] {
    let calls = calls as u64;
    match harm {
        Harm::Stop => [calls, 0, 1, 0],
        Harm::Fail => [calls, 1, 0, 0],
        Harm::Cut => [calls, 0, 0, 0],
    }
}
