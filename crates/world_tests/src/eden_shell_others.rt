//! Disks that no node of a script has: a run leaves them as they are, whatever they hold.
ghost use Rattle.std.specs.Prelude.{◌≡◌, length};

use crate::fixtures::{DISK_SIZE, sink_of, source_of, words_of};
use eden_disk::{Disk, SimDisk};
use eden_shell::{Outcome, eden};
use std::alloc::Global;
use std::process::Abort;

/// What is written where a head of blocks belongs, and never synced.
const ODD: &[u8] = b"neither a head nor an epoch, and not at rest";

/// A disk that may not be handed in for a node: what was written on it is not synced, and is nothing that a store writes.
fn odd_disk(rt: &impl Abort, alloc: Global) -> SimDisk {
    let mut disk = SimDisk::new(alloc, DISK_SIZE).expect(rt, "memory");
    disk.write(1_024, ODD).expect(rt, "a write");
    disk
}

/// A blank disk, and behind it seven odd ones.
fn odd_disks(rt: &impl Abort, alloc: Global) -> Vec<SimDisk>
    ensures { length result.items ≡ 8 }
{
    let mut disks = Vec::new(alloc);
    let blank = SimDisk::new(alloc, DISK_SIZE).expect(rt, "memory");
    disks.push(blank).expect(rt, "memory");
    for _ in 0..7u8 {
        disks.push(odd_disk(rt, alloc)).expect(rt, "memory");
    }
    disks
}

/// Whether a disk was left alone: it has made the one call that wrote on it, and shows what it did then.
fn is_left(rt: &impl Abort, alloc: Global, disk: &SimDisk) -> bool {
    let image = odd_disk(rt, alloc).image(alloc).expect(rt, "memory");
    disk.clock() == 1 && disk.image(alloc).expect(rt, "memory") == image
}

/// Scripts of one node, and their transcripts.
const ROWS: &[(&str, &str)] = &[
    (
        "nodes 1\ncreate c 1 Cell\ncall a c.Set(5)\ngo 100\ncall b c.Save()\ngo 100\ncrash 1\nrestart 1\ncall e c.Get()\ngo 100\nend\n",
        "node 1 up epoch 1\nc is 1.1.1\na ok ()\nquiet\nb ok (0)\nquiet\nnode 1 down crash\nnode 1 up epoch 2\ne ok (5)\nquiet\n",
    ),
    ("nodes 1\nend\n", "node 1 up epoch 1\n"),
];

/// Whether a script runs to its end over such disks, has this transcript, and leaves all but the first alone.
fn is_transcript(rt: &impl Abort, alloc: Global, script: &str, transcript: &str) -> bool {
    let words = words_of(rt, alloc, &["run"]);
    let mut source = source_of(rt, alloc, script, 0, &[]);
    let mut sink = sink_of(rt, alloc, 4096, 10_000, &[]);
    let mut disks = odd_disks(rt, alloc);
    let report = eden(alloc, &words, &mut *source, &mut *sink, &mut disks);
    let others = disks.get(1..).expect(rt, "the others");
    for disk in others {
        assert!(rt; is_left(rt, alloc, disk), "{script}");
    }
    report.outcome == Outcome::Ran && sink.written() == transcript.as_bytes()
}

#[test]
fn others_are_left(rt: HostRuntime) {
    let alloc = rt.alloc();
    for (place, &(script, transcript)) in ROWS.iter().enumerate() {
        assert!(rt; is_transcript(&rt, alloc, script, transcript), "{place}");
    }
}
