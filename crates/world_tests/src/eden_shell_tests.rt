use crate::fixtures::{blank_disks, sink_of, source_of, words_of};
use eden_script::ScriptCause;
use eden_shell::*;
use std::alloc::Global;
use std::process::Abort;

const SCRIPT: &str =
    "nodes 1\ncreate c 1 Cell\ncall a c.Set(5)\ngo 100\ncall b c.Get()\ngo 100\nend\n";

const TRANSCRIPT: &str = "node 1 up epoch 1\nc is 1.1.1\na ok ()\nquiet\nb ok (5)\nquiet\n";

/// What a call said.
#[derive(Drop)]
struct Said {
    outcome: Outcome,
    entries: usize,
    text: Vec<u8>,
}

/// What is said to these words over blank disks, where these reads and writes fail. Line ends make the script that long.
fn call_of(
    rt: &impl Abort,
    alloc: Global,
    words: &[&str],
    (text, size): (&str, usize),
    (reads, writes): (&[u32], &[u32]),
) -> Said {
    let words = words_of(rt, alloc, words);
    let mut source = source_of(rt, alloc, text, size, reads);
    let mut sink = sink_of(rt, alloc, 4096, 1_048_576, writes);
    let mut disks = blank_disks(rt, alloc, 1_048_576);
    let report = eden(alloc, &words, &mut *source, &mut *sink, &mut disks);
    Said {
        outcome: report.outcome,
        entries: report.history.entries.len(),
        text: sink.written().to_vec(alloc).expect(rt, "memory"),
    }
}

const USAGE: &str =
    "usage: eden run [--trace] | host DIR [--trace] | gen N | wire | twin | run --full | move\n";

const NO_COMMAND: Outcome = Outcome::BadScript {
    line: 1,
    cause: ScriptCause::NoCommand,
};

const BOOTS: &str = "nodes 1\nend\n";

/// A script of a wire whose second packet comes first, and what it writes.
const REORDERS: &str =
    "stations 2\nsend 1 2 \"a\"\nsend 1 2 \"b\"\ncarry 1 2 2\ncarry 1 2 1\ncarry 1 2 1\n\
    carry 1 2 2\ncarry 2 1 4\nend\n";

const REORDERED: &str = "2 from 1 \"a\"\n2 from 1 \"b\"\n1 2 sent 2 known 2 delivered 2\n";

/// One that sends a value again, and what it writes.
const AGAIN: &str = "stations 2\nagain 1 2\nsend 1 2 7\nagain 1 2\ncarry 1 2 2\ncarry 1 2 3\nend\n";

const SENT_AGAIN: &str = "nothing\n2 from 1 7\nno packet\n1 2 sent 1 known 0 delivered 1\n";

/// A script of an Eject that wanders, whose letter comes twice, and what it writes.
const WANDERS: &str =
    "nodes 2\nmake 1 1 5\nmove 1 1.1.1 2\nwake 1 1.1.1\ncarry 1 2 1\nwake 2 1.1.1\nsave 2 1.1.1 6\n\
    carry 1 2 1\ncarry 2 1 1\nwake 1 1.1.1\nend\n";

const WANDERED: &str =
    "1 1.1.1 made\n1 1.1.1 lent 2\n1 1.1.1 refused lent 2\n2 1.1.1 here\n2 1.1.1 active 5\n\
    2 1.1.1 saved\n2 1.1.1 ignored\n1 1.1.1 gone 2\n1 1.1.1 refused gone 2\n";

/// One whose node goes down while it lends, and what it writes.
const LENDS: &str =
    "nodes 2\nmake 1 1 5\nstop 1 4 keep\nmove 1 1.1.1 2\nrestart 1\nwake 1 1.1.1\nagain 1 1.1.1\n\
    carry 1 2 1\nwake 2 1.1.1\nend\n";

const LENT: &str =
    "1 1.1.1 made\nnode 1 down stop\nnode 1 up\n1 1.1.1 refused lent 2\n1 1.1.1 sent\n\
    2 1.1.1 here\n2 1.1.1 active 5\n";

/// A script of a pair of disks, each of which is blanked, and what it writes.
const BLANKED: &str =
    "twins\nopen 1\nput 1 1 \"a\"\nclose 1\nblank 1\nopen 1\nget 1 1\nclose 1\nblank 2\nopen 1\n\
    get 1 1\nend\n";

const SURVIVED: &str =
    "open 1 both\nput 1 1 ok\nclose 1\nblank 1\nopen 1 both\nget 1 1 \"a\"\nclose 1\nblank 2\n\
    open 1 both\nget 1 1 \"a\"\n";

/// One with a disk that fails, and what it writes.
const FAILED: &str =
    "twins\nopen 1\nput 1 1 \"a\"\nfail 2 1\nput 1 1 \"b\"\nclose 1\nopen 1\nget 1 1\n\
    delete 1 1\nget 1 1\nend\n";

const KEPT: &str =
    "open 1 both\nput 1 1 ok\nput 1 1 ok\nclose 1\nopen 1 both\nget 1 1 \"b\"\ndelete 1 1 ok\n\
    get 1 1 none\n";

/// The words, the script and its size, the outcome and its status, and what is written.
const CALLS: &[(&[&str], (&str, usize), Outcome, u8, &str)] = &[
    (&["run"], (SCRIPT, 0), Outcome::Ran, 0, TRANSCRIPT),
    (
        &["run"],
        ("frob", 0),
        NO_COMMAND,
        3,
        "bad script line 1: no command\n",
    ),
    (&["walk"], (SCRIPT, 0), Outcome::BadWords, 2, USAGE),
    (&[], (SCRIPT, 0), Outcome::BadWords, 2, USAGE),
    (&["wire"], (REORDERS, 0), Outcome::Ran, 0, REORDERED),
    (&["wire"], (AGAIN, 0), Outcome::Ran, 0, SENT_AGAIN),
    (
        &["wire"],
        (SCRIPT, 0),
        NO_COMMAND,
        3,
        "bad script line 1: no command\n",
    ),
    (&["move"], (WANDERS, 0), Outcome::Ran, 0, WANDERED),
    (&["move"], (LENDS, 0), Outcome::Ran, 0, LENT),
    (&["twin"], (BLANKED, 0), Outcome::Ran, 0, SURVIVED),
    (&["twin"], (FAILED, 0), Outcome::Ran, 0, KEPT),
    (
        &["move"],
        (AGAIN, 0),
        NO_COMMAND,
        3,
        "bad script line 1: no command\n",
    ),
    (
        &["host", "d"],
        (BOOTS, 0),
        Outcome::Ran,
        0,
        "node 1 up epoch 1\n",
    ),
    (
        &["run"],
        (BOOTS, 1_048_577),
        Outcome::TooLong,
        7,
        "script too long\n",
    ),
];

/// Whether the call ended so, with this status, and wrote this.
fn is_said(said: &Said, outcome: Outcome, code: u8, text: &str) -> bool {
    said.outcome == outcome
        && status(&said.outcome) == code
        && said.text.as_slice() == text.as_bytes()
}

/// How calls end, and what they write.
#[test]
fn outcomes(rt: HostRuntime) {
    let alloc = rt.alloc();
    for (place, &(words, script, outcome, code, text)) in CALLS.iter().enumerate() {
        let said = call_of(&rt, alloc, words, script, (&[], &[]));
        assert!(rt; is_said(&said, outcome, code, text), "{place}");
    }
}

/// The words, the script, the reads and the writes that fail, the outcome, and the least numbers of entries and of bytes.
const ENDS: &[(&[&str], &str, (&[u32], &[u32]), Outcome, usize, usize)] = &[
    (&["run"], SCRIPT, (&[], &[]), Outcome::Ran, 1, 1),
    (&["run", "--trace"], SCRIPT, (&[], &[]), Outcome::Ran, 1, 1),
    (
        &["host", "d", "--trace"],
        SCRIPT,
        (&[], &[]),
        Outcome::Ran,
        1,
        1,
    ),
    (&["gen", "7"], SCRIPT, (&[], &[]), Outcome::Ran, 1, 1),
    (&["run"], BOOTS, (&[1], &[]), Outcome::ReadFault, 0, 0),
    (&["run"], BOOTS, (&[], &[1]), Outcome::WriteFault, 1, 0),
    (&["wire"], AGAIN, (&[], &[]), Outcome::Ran, 0, 1),
    (&["wire"], AGAIN, (&[1], &[]), Outcome::ReadFault, 0, 0),
    (&["wire"], AGAIN, (&[], &[1]), Outcome::WriteFault, 0, 0),
    (&["move"], WANDERS, (&[], &[]), Outcome::Ran, 0, 1),
    (&["move"], WANDERS, (&[1], &[]), Outcome::ReadFault, 0, 0),
    (&["move"], WANDERS, (&[], &[1]), Outcome::WriteFault, 0, 0),
    (&["twin"], FAILED, (&[], &[]), Outcome::Ran, 0, 1),
    (&["twin"], FAILED, (&[1], &[]), Outcome::ReadFault, 0, 0),
    (&["twin"], FAILED, (&[], &[1]), Outcome::WriteFault, 0, 0),
];

/// Whether the call ended so, with so many entries and bytes or more.
fn is_ended(said: &Said, outcome: Outcome, entries: usize, bytes: usize) -> bool {
    said.outcome == outcome && said.entries >= entries && said.text.len() >= bytes
}

// With ample memory what asks for a run comes to its end: a body that always answers OutOfMemory keeps each clause, and fails here. A read
// or a write that fails ends the call; the history is whole behind a write.
#[test]
fn always_out_of_memory(rt: HostRuntime) {
    let alloc = rt.alloc();
    for (place, &(words, script, failing, outcome, entries, bytes)) in ENDS.iter().enumerate() {
        let said = call_of(&rt, alloc, words, (script, 0), failing);
        assert!(rt; is_ended(&said, outcome, entries, bytes), "{place}");
    }
}
