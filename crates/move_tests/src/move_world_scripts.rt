//! Scripts of Ejects that wander, with what they write.

use crate::common::{blank_disks, carried};
use eden_disk::SimDisk;
use move_world::read_script;
use passive_blocks::BlockStore;
use passive_store::LogStore;
use script_words::{ScriptCause, ScriptRefusal};
use std::alloc::Global;
use std::process::Abort;

/// A script, and what it writes.
type Row<'a> = (&'a str, &'a str);

/// Whether a script writes this text over logs.
fn writes_over_logs(rt: &impl Abort, alloc: Global, script: &str, text: &str) -> bool {
    let mut disks = blank_disks(rt, alloc, 8192);
    let moved = carried::<LogStore<SimDisk>>(rt, alloc, script, &mut disks);
    moved.text.as_slice() == text.as_bytes()
}

/// Whether it writes this text over blocks.
fn writes_over_blocks(rt: &impl Abort, alloc: Global, script: &str, text: &str) -> bool {
    let mut disks = blank_disks(rt, alloc, 65_536);
    let moved = carried::<BlockStore<SimDisk>>(rt, alloc, script, &mut disks);
    moved.text.as_slice() == text.as_bytes()
}

/// Scripts that write the same over both.
const WRITTEN: &[Row<'static>] = &[
    ("nodes 8\nend", ""),
    // an Eject goes from one node to another; its letter comes twice; then it is closed
    (
        "nodes 2\nmake 1 1 5\nmove 1 1.1.1 2\nwake 1 1.1.1\ncarry 1 2 1\nwake 2 1.1.1\nsave 2 1.1.1 6\ncarry 1 2 1\ncarry 2 1 1\n\
        wake 1 1.1.1\nend\n",
        "1 1.1.1 made\n1 1.1.1 lent 2\n1 1.1.1 refused lent 2\n2 1.1.1 here\n2 1.1.1 active 5\n2 1.1.1 saved\n2 1.1.1 ignored\n\
        1 1.1.1 gone 2\n1 1.1.1 refused gone 2\n",
    ),
    // its disk stops in the last device call of the lending, which is kept: the letter is given anew
    (
        "nodes 2\nmake 1 1 5\nstop 1 4 keep\nmove 1 1.1.1 2\nrestart 1\nwake 1 1.1.1\nagain 1 1.1.1\ncarry 1 2 1\nwake 2 1.1.1\nend\n",
        "1 1.1.1 made\nnode 1 down stop\nnode 1 up\n1 1.1.1 refused lent 2\n1 1.1.1 sent\n2 1.1.1 here\n2 1.1.1 active 5\n",
    ),
    // the same, and it is lost: the Eject is still here
    (
        "nodes 2\nmake 1 1 5\nstop 1 4 lose\nmove 1 1.1.1 2\nrestart 1\nagain 1 1.1.1\nwake 1 1.1.1\nend\n",
        "1 1.1.1 made\nnode 1 down stop\nnode 1 up\n1 1.1.1 refused unknown\n1 1.1.1 active 5\n",
    ),
    // there and back, with letters that come late
    (
        "nodes 2\nmake 1 1 \"a\"\nmove 1 1.1.1 2\ncarry 1 2 1\nmove 2 1.1.1 1\ncarry 2 1 2\nwake 1 1.1.1\ncarry 1 2 1\ncarry 2 1 1\n\
        wake 2 1.1.1\ncarry 1 2 2\nwake 2 1.1.1\nend\n",
        "1 1.1.1 made\n1 1.1.1 lent 2\n2 1.1.1 here\n2 1.1.1 lent 1\n1 1.1.1 here\n1 1.1.1 active \"a\"\n2 1.1.1 ignored\n1 1.1.1 ignored\n\
        2 1.1.1 refused lent 1\n2 1.1.1 gone 1\n2 1.1.1 refused gone 1\n",
    ),
    // what is refused
    (
        "nodes 2\nwake 1 1.1.1\nsave 1 1.1.1 1\nmove 1 1.1.1 2\nagain 1 1.1.1\nmake 1 1 1\nmake 1 1 2\nagain 1 1.1.1\nsave 1 1.1.1 2\n\
        wake 2 1.1.1\ncarry 1 2 1\nend\n",
        "1 1.1.1 refused unknown\n1 1.1.1 refused unknown\n1 1.1.1 refused unknown\n1 1.1.1 refused unknown\n1 1.1.1 made\n\
        1 1.1.1 refused there\n1 1.1.1 refused unknown\n1 1.1.1 refused asleep\n2 1.1.1 refused unknown\nno packet\n",
    ),
    // a crash takes the active part and leaves the value
    (
        "nodes 2\nmake 1 7 [1, 2]\nwake 1 1.1.7\nsave 1 1.1.7 none\ncrash 1\nwake 1 1.1.7\ncrash 1\nrestart 1\nrestart 1\nsave 1 1.1.7 1\n\
        wake 1 1.1.7\ncrash 2 keep\nstop 2 1 lose\nend\n",
        "1 1.1.7 made\n1 1.1.7 active [1, 2]\n1 1.1.7 saved\nnode 1 down crash\nnode 1 state\nnode 1 state\nnode 1 up\nnode 1 state\n\
        1 1.1.7 refused asleep\n1 1.1.7 active <none>\nnode 2 down crash\nnode 2 state\n",
    ),
    // a fault takes it too, and the next call settles
    (
        "nodes 1\nmake 1 1 5\nwake 1 1.1.1\nfail 1 1\nsave 1 1.1.1 6\nsave 1 1.1.1 7\nwake 1 1.1.1\nfail 1 1\nwake 1 1.1.1\nsave 1 1.1.1 8\n\
        end\n",
        "1 1.1.1 made\n1 1.1.1 active 5\n1 1.1.1 refused fault\n1 1.1.1 refused asleep\n1 1.1.1 active 5\n1 1.1.1 refused fault\n\
        1 1.1.1 refused asleep\n",
    ),
    // a disk that stops as it is opened, and then opens
    (
        "nodes 1\nstop 1 1 lose\nmake 1 1 5\nrestart 1\nmake 1 1 5\nend\n",
        "node 1 down stop\nnode 1 up\n1 1.1.1 made\n",
    ),
];

#[test]
fn scripts_are_written(rt: HostRuntime) {
    for (place, &(script, text)) in WRITTEN.iter().enumerate() {
        assert!(rt; writes_over_logs(&rt, rt.alloc(), script, text), "{place}");
        assert!(rt;
            writes_over_blocks(&rt, rt.alloc(), script, text),
            "{place}"
        );
    }
}

/// A lending reads no record where a call left in memory what it needs: the failure that is asked for comes behind its put, of four
/// device calls over a log, and then in the reading of a waking. Behind a restart the lending reads, so that
/// it is its last sync that fails.
const READ: &[Row<'static>] = &[
    (
        "nodes 2\nmake 1 1 5\nfail 1 5\nmove 1 1.1.1 2\nwake 1 1.1.1\nend\n",
        "1 1.1.1 made\n1 1.1.1 lent 2\n1 1.1.1 refused fault\n",
    ),
    (
        "nodes 2\nmake 1 1 5\ncrash 1\nrestart 1\nfail 1 5\nmove 1 1.1.1 2\nwake 1 1.1.1\nend\n",
        "1 1.1.1 made\nnode 1 down crash\nnode 1 up\n1 1.1.1 refused fault\n1 1.1.1 refused lent 2\n",
    ),
];

#[test]
fn a_lending_reads_no_record_that_it_knows(rt: HostRuntime) {
    for (place, &(script, text)) in READ.iter().enumerate() {
        assert!(rt; writes_over_logs(&rt, rt.alloc(), script, text), "{place}");
    }
}

/// Whether a script is refused for this line and this cause.
fn is_refused(rt: &impl Abort, alloc: Global, script: &str, wanted: (u32, ScriptCause)) -> bool {
    assert!(rt; script.len() <= 1_000_000);
    match read_script(alloc, script.as_bytes()) {
        Err(ScriptRefusal::Bad { line, cause }) => (line, cause) == wanted,
        _ => false,
    }
}

/// Scripts that are refused, with the line and the cause.
const REFUSED: &[(&str, (u32, ScriptCause))] = &[
    ("", (1, ScriptCause::NoEnd)),
    ("nodes 2\nend\nend\n", (3, ScriptCause::AfterEnd)),
    ("nodes 2\nboot 1\nend\n", (2, ScriptCause::NoCommand)),
    ("wake 1 1.1.1\n", (1, ScriptCause::Misplaced)),
    ("nodes 2\nnodes 2\n", (2, ScriptCause::Misplaced)),
    ("nodes 9\n", (1, ScriptCause::BadNumber)),
    ("nodes 0\n", (1, ScriptCause::BadNumber)),
    ("nodes 2\nmake 3 1 5\n", (2, ScriptCause::BadNumber)),
    ("nodes 2\nmake 1 0 5\n", (2, ScriptCause::BadNumber)),
    ("nodes 2\nmake 1 1\n", (2, ScriptCause::BadForm)),
    ("nodes 2\nmake 1 1 1.1.1\n", (2, ScriptCause::BadForm)),
    ("nodes 2\nwake 1 1.2.1\n", (2, ScriptCause::BadNumber)),
    ("nodes 2\nwake 1 1.1\n", (2, ScriptCause::BadForm)),
    ("nodes 2\nmove 1 1.1.1 3\n", (2, ScriptCause::BadNumber)),
    ("nodes 2\ncarry 1 2 0\n", (2, ScriptCause::BadNumber)),
    ("nodes 2\nstop 1 1\n", (2, ScriptCause::BadForm)),
    ("nodes 2\nfail 1 0\n", (2, ScriptCause::BadNumber)),
];

#[test]
fn scripts_are_refused(rt: HostRuntime) {
    for (place, &(script, wanted)) in REFUSED.iter().enumerate() {
        assert!(rt; is_refused(&rt, rt.alloc(), script, wanted), "{place}");
    }
}
