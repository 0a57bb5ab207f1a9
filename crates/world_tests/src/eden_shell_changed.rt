//! Disks whose reads show one changed byte: an Eject starts from what is read of its disk, and from no copy in memory.
ghost use Rattle.std.specs.Prelude.{◌≡◌, length};

use crate::fixtures::{DISK_SIZE, sink_of, source_of, words_of};
use eden_disk::SimDisk;
use eden_shell::{Outcome, eden};
use history_tests::common::Changed;
use std::alloc::Global;
use std::process::Abort;

/// The place of the last letter of `Cell` in the block of the first Cell that is saved. Heads take the block 1, and the epoch the block 2.
const PLACE: u32 = 3_079;

/// Eight disks of zero bytes that show another letter there.
fn changed_disks(rt: &impl Abort, alloc: Global) -> Vec<Changed>
    ensures { length result.items ≡ 8 }
{
    let mut disks = Vec::new(alloc);
    for _ in 0..8u8 {
        let disk = SimDisk::new(alloc, DISK_SIZE).expect(rt, "memory");
        let changed = Changed {
            disk,
            place: PLACE,
            byte: b'x',
        };
        disks.push(changed).expect(rt, "memory");
    }
    disks
}

/// Scripts, and their transcripts. Behind a crash, and behind a `Sleep`, what is kept of the Cell is of no type.
const ROWS: &[(&str, &str)] = &[
    (
        "nodes 1\ncreate c 1 Cell\ncall a c.Set(5)\ngo 100\ncall b c.Save()\ngo 100\ncall d c.Set(9)\ngo 100\n\
        crash 1\nrestart 1\ncall e c.Get()\ngo 100\nend\n",
        "node 1 up epoch 1\nc is 1.1.1\na ok ()\nquiet\nb ok (0)\nquiet\nd ok ()\nquiet\n\
        node 1 down crash\nnode 1 up epoch 2\ne refused 8 damaged\nquiet\n",
    ),
    (
        "nodes 1\ncreate c 1 Cell\ncall a c.Save()\ngo 100\ncall s c.Sleep()\ngo 100\ncall b c.Get()\ngo 100\nend\n",
        "node 1 up epoch 1\nc is 1.1.1\na ok (0)\nquiet\ns refused 9 dropped\nquiet\nb refused 8 damaged\nquiet\n",
    ),
];

/// Whether a script runs to its end over such disks, and has this transcript.
fn is_transcript(rt: &impl Abort, alloc: Global, script: &str, transcript: &str) -> bool {
    let words = words_of(rt, alloc, &["run"]);
    let mut source = source_of(rt, alloc, script, 0, &[]);
    let mut sink = sink_of(rt, alloc, 4096, 10_000, &[]);
    let mut disks = changed_disks(rt, alloc);
    let report = eden(alloc, &words, &mut *source, &mut *sink, &mut disks);
    report.outcome == Outcome::Ran && sink.written() == transcript.as_bytes()
}

#[test]
fn starts_read_the_disk(rt: HostRuntime) {
    let alloc = rt.alloc();
    for (place, &(script, transcript)) in ROWS.iter().enumerate() {
        assert!(rt; is_transcript(&rt, alloc, script, transcript), "{place}");
    }
}
