//! Scripts of pairs of disks, with what they write; and a short script in which each device call of a disk is refused.
ghost use Rattle.std.specs.Prelude.{◌≡◌, length, IfOk};

use eden_disk::SimDisk;
use passive_blocks::BlockStore;
use std::alloc::{AllocError, Global};
use std::process::Abort;
use twin_world::{Answer, Entry, TwinCommand, Twinned, carry_twins, read_script};

/// Eight disks of zero bytes, where there is memory.
fn made_disks(alloc: Global) -> Result<Vec<SimDisk>, AllocError>
    ensures { IfOk result (λ disks. length disks.items ≡ 8) }
{
    let mut disks = Vec::new(alloc);
    for _ in 0..8u8 {
        disks.push(SimDisk::new(alloc, 65_536)?)?;
    }
    Ok(disks)
}

/// Carries a script out over blank disks; one that is refused gives nothing.
fn carried(rt: &impl Abort, alloc: Global, script: &str) -> Option<Twinned> {
    assert!(rt; script.len() < 1_000_000);
    let mut disks = made_disks(alloc).expect(rt, "memory");
    match read_script(alloc, script.as_bytes()) {
        Ok(script) => {
            let done = carry_twins::<BlockStore<SimDisk>>(alloc, script, &mut disks);
            Some(done.expect(rt, "memory"))
        }
        Err(_) => None,
    }
}

/// Whether a script writes this text.
fn writes(rt: &impl Abort, alloc: Global, script: &str, text: &str) -> bool {
    match carried(rt, alloc, script) {
        Some(done) => done.text.as_slice() == text.as_bytes(),
        None => false,
    }
}

/// Scripts, each with the text that it writes.
const ROWS: &[(&str, &str)] = &[
    // a blanked disk is filled from the other, whichever it is
    (
        "twins\nopen 1\nput 1 1 \"a\"\nclose 1\nblank 1\nopen 1\nget 1 1\nclose 1\nblank 2\nopen 1\nget 1 1\nend\n",
        "open 1 both\nput 1 1 ok\nclose 1\nblank 1\nopen 1 both\nget 1 1 \"a\"\nclose 1\nblank 2\nopen 1 both\nget 1 1 \"a\"\n",
    ),
    // a disk that fails is out of use, and the other is right at the next opening
    (
        "twins\nopen 1\nput 1 1 \"a\"\nfail 2 1\nput 1 1 \"b\"\nclose 1\nopen 1\nget 1 1\ndelete 1 1\nget 1 1\nend\n",
        "open 1 both\nput 1 1 ok\nput 1 1 ok\nclose 1\nopen 1 both\nget 1 1 \"b\"\ndelete 1 1 ok\nget 1 1 none\n",
    ),
    (
        "twins\nopen 4\nput 4 9 \"a\"\nfail 7 1\nput 4 9 \"b\"\nclose 4\nblank 7\nopen 4\nget 4 9\nend\n",
        "open 4 both\nput 4 9 ok\nput 4 9 ok\nclose 4\nblank 7\nopen 4 both\nget 4 9 \"b\"\n",
    ),
    // commands on a node in another state
    (
        "twins\nput 1 1 \"a\"\nget 2 7\ndelete 3 1\nclose 4\nopen 1\nopen 1\nblank 1\nblank 3\nend\n",
        "put 1 1 state\nget 2 7 state\ndelete 3 1 state\nclose 4 state\nopen 1 both\nopen 1 state\nblank 1 state\nblank 3\n",
    ),
    // a disk that fails at an opening, and one that fails behind it
    (
        "twins\nopen 1\nput 1 1 \"a\"\nclose 1\nfail 1 1\nopen 1\nget 1 1\nfail 2 1\nget 1 1\nget 1 1\nend\n",
        "open 1 both\nput 1 1 ok\nclose 1\nopen 1 second\nget 1 1 \"a\"\nget 1 1 lost\nget 1 1 state\n",
    ),
    // a stop closes the node, and an opening gives power again
    (
        "twins\nopen 2\nput 2 1 \"a\"\nstop 3 1 lose\nput 2 1 \"b\"\nget 2 1\nopen 2\nget 2 1\nend\n",
        "open 2 both\nput 2 1 ok\nput 2 1 stop\nget 2 1 state\nopen 2 both\nget 2 1 \"a\"\n",
    ),
    // a blanking that is cut short: its disk is filled again
    (
        "twins\nopen 1\nput 1 1 \"a\"\nclose 1\nfail 1 1\nblank 1\nstop 2 1 keep\nblank 2\nend\n",
        "open 1 both\nput 1 1 ok\nclose 1\nblank 1 fault\nblank 2 stop\n",
    ),
    // nothing was put, and both disks are lost
    (
        "twins\nopen 1\nget 1 1\ndelete 1 1\nclose 1\nfail 1 1\nfail 2 1\nopen 1\nopen 1\nend\n",
        "open 1 both\nget 1 1 none\ndelete 1 1 ok\nclose 1\nopen 1 lost\nopen 1 both\n",
    ),
    // the disk that is right fails while it fills the other, in its device call 72: behind 69 of its opening, the look at its
    // generation and at the first text
    (
        "twins\nopen 1\nput 1 1 \"a\"\nput 1 2 \"b\"\nfail 2 1\nput 1 1 \"c\"\nclose 1\nfail 1 72\nopen 1\nget 1 1\nget 1 2\nclose 1\nopen 1\nget 1 2\nend\n",
        "open 1 both\nput 1 1 ok\nput 1 2 ok\nput 1 1 ok\nclose 1\nopen 1 second\nget 1 1 \"c\"\nget 1 2 none\nclose 1\nopen 1 both\nget 1 2 none\n",
    ),
    ("twins\nend\n", ""),
];

#[test]
fn twins_write_what_they_did(rt: HostRuntime) {
    let alloc = rt.alloc();
    for &(script, text) in ROWS {
        assert!(rt; writes(&rt, alloc, script, text));
    }
}

/// Lines that are refused.
const BAD: &[&str] = &[
    "open 1\nend\n",
    "twins\nopen 5\nend\n",
    "twins\nblank 9\nend\n",
    "twins\nput 1 0 \"a\"\nend\n",
    "twins\nfail 1 0\nend\n",
    "twins\nopen 1\n",
];

#[test]
fn twins_are_refused(rt: HostRuntime) {
    let alloc = rt.alloc();
    for &script in BAD {
        assert!(rt; carried(&rt, alloc, script).is_none());
    }
}

/// What is held under two serials, and what may be held besides, as a change to it was begun: each by its first byte, 0 for nothing.
#[derive(Clone, Copy)]
struct Held {
    held: [u8; 2],
    begun: [u8; 2],
}

/// The first byte of a text, 0 of none.
fn first_byte(text: &[u8]) -> u8 {
    match text {
        [byte, ..] => *byte,
        [] => 0,
    }
}

/// What is held under a serial behind a change, by its answer.
fn changes(held: &mut Held, serial: u32, byte: u8, answer: &Answer) {
    let place = if serial == 1 { 0usize } else { 1 };
    match answer {
        Answer::Made => {
            held.held[place] = byte;
            held.begun[place] = byte;
        }
        Answer::Refused { .. } => held.begun[place] = byte,
        _ => (),
    }
}

/// Whether a look gives what is held.
fn is_held(held: &Held, serial: u32, answer: &Answer) -> bool {
    let place = if serial == 1 { 0usize } else { 1 };
    match answer {
        Answer::Found { text } => {
            let byte = match text {
                Some(body) => first_byte(body.as_slice()),
                None => 0,
            };
            byte == held.held[place] || byte == held.begun[place]
        }
        _ => true,
    }
}

/// Whether an entry gives what is held, and what is held behind it.
fn is_right(held: &mut Held, entry: &Entry) -> bool {
    match &entry.command {
        TwinCommand::Put { serial, text, .. } => {
            changes(held, *serial, first_byte(text.as_slice()), &entry.answer);
            true
        }
        TwinCommand::Delete { serial, .. } => {
            changes(held, *serial, 0, &entry.answer);
            true
        }
        TwinCommand::Get { serial, .. } => is_held(held, *serial, &entry.answer),
        _ => true,
    }
}

/// Whether each look of a log gives what is held, and the last opening and the looks behind it are not refused.
fn all_right(entries: &[Entry]) -> bool {
    let mut held = Held {
        held: [0, 0],
        begun: [0, 0],
    };
    let mut looks = 0u32;
    for entry in entries {
        if !is_right(&mut held, entry) {
            return false;
        }
        if let Answer::Found { .. } = &entry.answer {
            looks = looks.saturating_add(1);
        }
    }
    2 <= looks
}

/// A short script, whose commands are carried out behind what disturbs a disk.
const SHORT: &str =
    "open 1\nput 1 1 \"a\"\nput 1 2 \"b\"\nput 1 1 \"c\"\nget 1 1\ndelete 1 2\nget 1 2\nclose 1\nopen 1\nopen 1\nget 1 1\nget 1 2\nend\n";

fn number(rt: &impl Abort, out: &mut String, n: u32) {
    let tens = (n / 10 % 10) as u8;
    let ones = (n % 10) as u8;
    if tens > 0 {
        out.push(char::from(b'0' + tens)).expect(rt, "memory");
    }
    out.push(char::from(b'0' + ones)).expect(rt, "memory");
}

/// Whether all is right where this is asked of a disk before the short script, so many calls later.
fn withstands(
    rt: &impl Abort,
    alloc: Global,
    word: &str,
    disk: u32,
    after: u32,
    mode: &str,
) -> bool {
    let mut script = String::from_str(alloc, "twins\n").expect(rt, "memory");
    script.push_str(word).expect(rt, "memory");
    number(rt, &mut script, disk);
    script.push_str(" ").expect(rt, "memory");
    number(rt, &mut script, after);
    script.push_str(mode).expect(rt, "memory");
    script.push_str(SHORT).expect(rt, "memory");
    match carried(rt, alloc, script.as_str()) {
        Some(done) => all_right(&done.log.entries),
        None => false,
    }
}

/// How a disk is disturbed.
const DISTURBED: &[(&str, &str)] = &[
    ("fail ", "\n"),
    ("stop ", " lose\n"),
    ("stop ", " keep\n"),
    ("stop ", " garble 237\n"),
];

#[test]
fn each_refused_call_is_withstood(rt: HostRuntime) {
    let alloc = rt.alloc();
    for disk in 1..=2u32 {
        for after in 1..=99u32 {
            for &(word, mode) in DISTURBED {
                assert!(rt; withstands(&rt, alloc, word, disk, after, mode));
            }
        }
    }
}

/// The parts of a short script, between which a disk is blanked.
const PARTS: &[&str] = &[
    "open 1\n",
    "put 1 1 \"a\"\n",
    "put 1 2 \"b\"\n",
    "put 1 1 \"c\"\n",
    "delete 1 2\n",
    "put 1 2 \"d\"\n",
];

/// Whether all is right where a disk is blanked behind so many parts.
fn withstands_blank(rt: &impl Abort, alloc: Global, disk: u32, behind: usize) -> bool {
    let mut script = String::from_str(alloc, "twins\n").expect(rt, "memory");
    let mut count = 0usize;
    for &part in PARTS {
        script.push_str(part).expect(rt, "memory");
        count = count.saturating_add(1);
        if count == behind {
            script.push_str("close 1\nblank ").expect(rt, "memory");
            number(rt, &mut script, disk);
            script.push_str("\nopen 1\n").expect(rt, "memory");
        }
    }
    script
        .push_str("get 1 1\nget 1 2\nend\n")
        .expect(rt, "memory");
    match carried(rt, alloc, script.as_str()) {
        Some(done) => all_right(&done.log.entries),
        None => false,
    }
}

#[test]
fn each_blanking_is_withstood(rt: HostRuntime) {
    let alloc = rt.alloc();
    for disk in 1..=2u32 {
        for behind in 1..=6usize {
            assert!(rt; withstands_blank(&rt, alloc, disk, behind));
        }
    }
}

/// A line that puts a text of one byte.
fn put_line(rt: &impl Abort, script: &mut String, serial: u32) {
    script.push_str("put 1 ").expect(rt, "memory");
    number(rt, script, serial);
    script.push_str(" \"a\"\n").expect(rt, "memory");
}

/// Whether a change was made, had no room, or neither.
fn letter(answer: &Answer) -> u8 {
    match answer {
        Answer::Made => b'm',
        Answer::NoRoom => b'f',
        _ => b'o',
    }
}

/// What the commands of a script are answered, a letter each.
fn answered(rt: &impl Abort, alloc: Global, script: &str) -> Vec<u8> {
    let mut letters = Vec::new(alloc);
    if let Some(done) = carried(rt, alloc, script) {
        for entry in &done.log.entries {
            letters.push(letter(&entry.answer)).expect(rt, "memory");
        }
    }
    letters
}

/// Of 64 texts 59 find room, since of 61 blocks one has the generation and one stays free; a removal needs none.
const ANSWERED: &[u8] = b"ommmmmmmmmmmmmmmmmmmmmmmmmmmmmmmmmmmmmmmmmmmmmmmmmmmmmmmmmmmfffffmmmo";

#[test]
fn a_put_without_room_changes_nothing(rt: HostRuntime) {
    let alloc = rt.alloc();
    let mut script = String::from_str(alloc, "twins\nopen 1\n").expect(&rt, "memory");
    for serial in 1..=64u32 {
        put_line(&rt, &mut script, serial);
    }
    script
        .push_str("delete 1 64\ndelete 1 1\nput 1 64 \"b\"\nget 1 64\nend\n")
        .expect(&rt, "memory");
    assert!(rt; answered(&rt, alloc, script.as_str()).as_slice() == ANSWERED);
}
