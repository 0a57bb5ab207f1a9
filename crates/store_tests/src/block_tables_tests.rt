ghost use Rattle.std.specs.Prelude.{◌≡◌, IsTrue, length};

use crate::disks::blank_disk;
use block_tables::{
    HeadFields, NumberSet, Peaks, blocks_of, is_block_size, read_gate, read_head, read_next,
    spell_head, write_block, write_gate, write_head,
};
use capability::Uid;
use eden_disk::Disk;
use std::alloc::Global;
use std::process::Abort;

const HEAD: HeadFields = HeadFields {
    number: 1,
    uid: Uid {
        node: 1,
        epoch: 1,
        serial: 1,
    },
    removal: false,
    sequence: 2,
    size: 18,
    first: 3,
};

#[test]
fn a_head_as_bytes(rt: HostRuntime) {
    let bytes = spell_head(HEAD);
    let wanted = [
        1, 1, 0, 0, 0, 1, 0, 0, 0, 1, 0, 0, 0, 0, 0, 0, 0, 2, 0, 0, 0, 18, 0, 3, 0, 0, 0, 0, 0, 0,
        0,
    ];
    assert!(rt; bytes == wanted);
}

/// Sizes of disks, and whether they are allowed.
const SIZES: &[(u32, bool)] = &[
    (32_768, true),
    (67_108_864, true),
    (0, false),
    (32_769, false),
    (67_141_632, false),
];

#[test]
fn sizes_of_disks_and_values(rt: HostRuntime) {
    for &(size, is_allowed) in SIZES {
        assert!(rt; is_block_size(size) == is_allowed, "{size}");
    }
    for &(size, count) in &[(0, 1), (1022, 1), (1023, 2), (262_144, 257)] {
        assert!(rt; blocks_of(size) == count, "{size}");
    }
}

/// Seventy places, each with 0.
fn seventy_places(rt: &impl Abort, alloc: Global) -> Box<Peaks>
    ensures { length result.value ≡ 70 }
{
    let peaks = Peaks::new(alloc, 70).expect(rt, "memory");
    Box::new(alloc, peaks).expect(rt, "memory")
}

#[test]
fn the_greatest_of_numbers_that_are_set(rt: HostRuntime) {
    let mut peaks = seventy_places(&rt, rt.alloc());
    assert!(rt; peaks.greatest() == 0);
    // a place, the number that is set there, and the greatest one then
    for &(place, value, greatest) in &[
        (3, 5, 5),
        (4, 2, 5),
        (69, 4, 5),
        (4, 3, 5),
        (3, 1, 4),
        (69, 0, 3),
        (4, 0, 1),
    ] {
        if place < 70 {
            peaks.set(place, value);
        }
        assert!(rt; peaks.greatest() == greatest, "{place} {value}");
    }
}

/// An empty set of numbers below 200.
fn empty_set(rt: &impl Abort, alloc: Global) -> Box<NumberSet>
    ensures { length result.value ≡ 200 }
{
    let set = NumberSet::new(alloc, 200).expect(rt, "memory");
    Box::new(alloc, set).expect(rt, "memory")
}

/// Takes a number into a set of numbers below 200, or out of it.
fn put_in_or_out(set: &mut NumberSet, number: u32, is_in: bool)
    requires { length set.old ≡ 200 }
    ensures { length set.new ≡ 200 }
{
    if number >= 200 {
        return;
    }
    if is_in {
        set.insert(number);
    } else {
        set.remove(number);
    }
}

/// Whether a set has 130, and neither 131 nor 3.
fn has_130(set: &NumberSet) -> bool
    requires { length set.now ≡ 200 }
{
    set.contains(130) && !set.contains(131) && !set.contains(3)
}

#[test]
fn the_least_of_a_set(rt: HostRuntime) {
    let mut set = empty_set(&rt, rt.alloc());
    assert!(rt; set.first().is_none());
    // a number, whether it is taken in or out, and the least one then
    for &(number, is_in, first) in &[
        (130, true, 130),
        (3, true, 3),
        (199, true, 3),
        (3, false, 130),
    ] {
        put_in_or_out(&mut set, number, is_in);
        assert!(rt; set.first() == Some(first), "{number}");
    }
    assert!(rt; has_130(&set));
}

/// Writes a head, and answers what is read of it before its gate is written and behind that.
fn write_and_read_head<D: Disk>(
    rt: &impl Abort,
    disk: &mut D,
) -> (Option<HeadFields>, bool, Option<HeadFields>)
    requires power { IsTrue (D.counts disk.old).power }
    requires size { (D.counts disk.old).size ≡ 32768 }
    ensures power { IsTrue (D.counts disk.new).power }
    ensures size { (D.counts disk.new).size ≡ 32768 }
{
    write_head(disk, HEAD).expect(rt, "the head is written");
    let before = read_head(disk, 1, 1).expect(rt, "the head is read");
    write_gate(disk, 1, 0xE1).expect(rt, "the gate is written");
    let gate = read_gate(disk, 1).expect(rt, "the gate is read");
    let behind = read_head(disk, 1, 1).expect(rt, "the head is read again");
    (before, gate, behind)
}

/// Writes a block, and answers the number of the next one that is read there.
fn write_and_read_block<D: Disk>(rt: &impl Abort, disk: &mut D) -> u16
    requires power { IsTrue (D.counts disk.old).power }
    requires size { (D.counts disk.old).size ≡ 32768 }
{
    write_block(disk, 3, 4, &[7, 7]).expect(rt, "the block is written");
    read_next(disk, 3).expect(rt, "the next block is read")
}

#[test]
fn a_head_and_a_block_on_a_disk(rt: HostRuntime) {
    let mut disk = blank_disk(&rt, rt.alloc(), 32_768);
    let head = write_and_read_head(&rt, &mut *disk);
    assert!(rt; head == (None, true, Some(HEAD)));
    assert!(rt; write_and_read_block(&rt, &mut *disk) == 4);
    assert!(rt; disk.clock() == 7);
}
