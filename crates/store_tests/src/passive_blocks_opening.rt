ghost use Rattle.std.specs.Prelude.{◌≡◌, ◌≤◌, ◌+◌, IsTrue, length};

use crate::changes::refusal_of_blocks;
use crate::disks::{blank_disk, disk_with};
use eden_disk::{Disk, SimDisk};
use passive_store::StoreRefusal;
use std::alloc::Global;
use std::process::Abort;

/// The bytes of a disk.
const SIZE: usize = 32_768;

/// Of Eject 1 of node 1: a value of three bytes under sequence 1 on block 2.
const VALUE: [u8; 32] = [
    0xE1, 1, 1, 0, 0, 0, 1, 0, 0, 0, 1, 0, 0, 0, 0, 0, 0, 0, 1, 0, 0, 0, 3, 0, 2, 0, 0, 0, 0, 0, 0,
    0,
];

/// The place of head 3.
const THIRD: u32 = 1120;

/// The place of head 5.
const FIFTH: u32 = 1184;

/// Places and bytes at which a head differs from `VALUE`.
type Changed = &'static [(usize, u8)];

/// Of 1,023 bytes, which take two blocks.
const LONG: Changed = &[(21, 3), (22, 0xFF)];

/// Head 3 and head 5, where there is one, and the next block of block 2; the place that is damaged, and the device calls.
type Row = (Changed, Option<Changed>, u8, Option<u32>, u64);

const DISKS: &[Row] = &[
    // Each of these heads breaks a rule of the format, behind a sync, a look, and heads 0 to 3.
    // no kind
    (&[(1, 0)], None, 0, Some(THIRD), 6),
    (&[(1, 3)], None, 0, Some(THIRD), 6),
    // a removal with a length, and one with a block
    (&[(1, 2)], None, 0, Some(THIRD), 6),
    (&[(1, 2), (22, 0)], None, 0, Some(THIRD), 6),
    // another node
    (&[(2, 2)], None, 0, Some(THIRD), 6),
    // an epoch alone, and a serial alone
    (&[(10, 0)], None, 0, Some(THIRD), 6),
    (&[(6, 0)], None, 0, Some(THIRD), 6),
    // the sequence 0, and one past 2^63
    (&[(18, 0)], None, 0, Some(THIRD), 6),
    (&[(11, 0x80)], None, 0, Some(THIRD), 6),
    // a length past the limit
    (&[(19, 1)], None, 0, Some(THIRD), 6),
    // a block of heads, and one past the disk
    (&[(24, 1)], None, 0, Some(THIRD), 6),
    (&[(24, 32)], None, 0, Some(THIRD), 6),
    // a byte behind the fields
    (&[(31, 1)], None, 0, Some(THIRD), 6),
    // two heads of one sequence
    (&[], Some(&[(10, 2), (24, 3)]), 0, Some(FIFTH), 8),
    // a chain on a block of another: all 32 heads, and the block of the first value
    (&[], Some(&[(10, 2), (18, 2)]), 0, Some(FIFTH), 35),
    // a chain that ends late, and one that ends early
    (&[], None, 3, Some(THIRD), 35),
    (LONG, None, 0, Some(THIRD), 35),
    // a head is tested before any chain
    (&[], Some(&[(1, 0)]), 3, Some(FIFTH), 8),
    // a value on two blocks is opened: all 32 heads, and two blocks
    (LONG, None, 3, None, 36),
    // a superseded value has no chain: block 2 is of the first, which does not count, and names a block that is none
    (&[], Some(&[(18, 2), (24, 3)]), 200, None, 35),
];

/// A head that differs from `VALUE` at some places.
fn changed(places: Changed) -> [u8; 32] {
    let mut head = VALUE;
    for (place, byte) in places {
        if *place < 32 {
            head[*place] = *byte;
        }
    }
    head
}

/// Bytes on an image from a place on.
fn stamp(image: &mut Vec<u8>, place: usize, bytes: &[u8])
    requires { place + length bytes.now ≤ length image.old.items }
    ensures { length image.new.items ≡ length image.old.items }
{
    image[place..place + bytes.len()].copy_from_slice(bytes);
}

/// So many zeros.
fn zeros(rt: &impl Abort, alloc: Global, count: usize) -> Vec<u8>
    ensures { length result.items ≡ count }
{
    vec![in alloc; 0u8; count].expect(rt, "memory")
}

/// On an image: a byte that says that blocks stand there, two heads, and the first bytes of a value on block 2.
fn stamp_blocks(image: &mut Vec<u8>, third: Changed, fifth: Option<Changed>, next: u8)
    requires { length image.old.items ≡ 32768 }
    ensures { length image.new.items ≡ 32768 }
{
    stamp(image, 1, &[0xEB]);
    stamp(image, THIRD as usize, &changed(third));
    if let Some(fifth) = fifth {
        stamp(image, FIFTH as usize, &changed(fifth));
    }
    stamp(image, 2048, &[0, next, 7, 8, 9]);
}

/// A disk of 32 heads from byte 1,024 on, and 30 blocks for data, from block 2 on.
fn make_disk(
    rt: &impl Abort,
    alloc: Global,
    third: Changed,
    fifth: Option<Changed>,
    next: u8,
) -> Box<SimDisk>
    ensures { IsTrue result.value.counts.power }
{
    let mut image = zeros(rt, alloc, SIZE);
    stamp_blocks(&mut image, third, fifth, next);
    disk_with(rt, alloc, image)
}

/// How a disk that is damaged at a place is refused.
fn damaged(place: Option<u32>) -> Option<StoreRefusal> {
    let place = place?;
    Some(StoreRefusal::Damaged { place })
}

/// Whether a disk is opened, or damaged at a place, with so many device calls.
fn is_opened_so(
    rt: &impl Abort,
    alloc: Global,
    disk: Box<SimDisk>,
    place: Option<u32>,
    calls: u64,
) -> bool
    requires { IsTrue disk.value.counts.power }
{
    let (disk, refusal) = refusal_of_blocks(rt, alloc, disk);
    refusal == damaged(place) && disk.clock() == calls
}

/// Whether a disk is opened or damaged as its row says.
fn is_answered(rt: &impl Abort, alloc: Global, &(third, fifth, next, place, calls): &Row) -> bool {
    let disk = make_disk(rt, alloc, third, fifth, next);
    is_opened_so(rt, alloc, disk, place, calls)
}

#[test]
fn heads_and_chains_are_opened_or_damaged(rt: HostRuntime) {
    for (i, row) in DISKS.iter().enumerate() {
        assert!(rt; is_answered(&rt, rt.alloc(), row), "disk {i}");
    }
}

#[test]
fn a_size_that_is_not_allowed_is_damaged(rt: HostRuntime) {
    for &size in &[0, 17, 1024, 32_767, 32_769, 33_792, 65_535] {
        let disk = blank_disk(&rt, rt.alloc(), size);
        assert!(rt;
            is_opened_so(&rt, rt.alloc(), disk, Some(0), 0),
            "size {size}"
        );
    }
}
