//! The power of a disk is cut in each device call of a move, and letters come in every order.

use crate::common::{blank_disks, carried};
use eden_disk::SimDisk;
use eden_value::Value;
use move_world::{Answer, Ended, Entry};
use passive_blocks::BlockStore;
use passive_store::LogStore;
use std::alloc::{AllocError, Global};
use std::process::Abort;

/// Behind a stop of one disk in so many device calls, in this mode: an Eject is made, lent, taken, woken, saved and closed.
fn move_script(
    alloc: Global,
    node: u32,
    after: u32,
    mode: &str,
    letters: &str,
) -> Result<String, AllocError> {
    format!(in alloc;
        "nodes 2\nstop {node} {after} {mode}\nmake 1 1 5\nmove 1 1.1.1 2\ncarry 1 2 1\nwake 2 1.1.1\nsave 2 1.1.1 6\ncarry 2 1 1\n\
        restart 1\nrestart 2\nagain 1 1.1.1\n{letters}restart 1\nrestart 2\nagain 1 1.1.1\n{letters}restart 1\nrestart 2\n\
        wake 1 1.1.1\nwake 2 1.1.1\nrestart 1\nrestart 2\nwake 1 1.1.1\nwake 2 1.1.1\nend\n"
    )
}

/// The letters of such a script, in each order.
const ORDERS: &[&str] = &[
    "carry 1 2 1\ncarry 1 2 2\ncarry 2 1 1\n",
    "carry 1 2 1\ncarry 2 1 1\ncarry 1 2 2\n",
    "carry 1 2 2\ncarry 1 2 1\ncarry 2 1 1\n",
    "carry 1 2 2\ncarry 2 1 1\ncarry 1 2 1\n",
    "carry 2 1 1\ncarry 1 2 1\ncarry 1 2 2\n",
    "carry 2 1 1\ncarry 1 2 2\ncarry 1 2 1\n",
];

const MODES: &[&str] = &["lose", "keep", "garble 225"];

/// Whether the command at this place was carried out.
fn is_done(entries: &[Entry], place: usize) -> bool {
    match entries.get(place) {
        Some(entry) => matches!(
            &entry.answer,
            Answer::Ends {
                how: Ended::Answered { .. }
            }
        ),
        None => false,
    }
}

/// The number that a waking at this place gave, if it gave one.
fn shown(entries: &[Entry], place: usize) -> Option<i64> {
    match entries.get(place) {
        Some(entry) => match &entry.answer {
            Answer::Shows {
                value: Value::Int { n },
            } => Some(*n),
            _ => None,
        },
        None => None,
    }
}

/// Whether not both nodes have the Eject; and one of them has it, with the value that was acknowledged last or one that was cut short
/// since, unless its making was never acknowledged.
fn is_whole(entries: &[Entry]) -> bool {
    let first = shown(entries, entries.len().saturating_sub(2));
    let second = shown(entries, entries.len().saturating_sub(1));
    let made = is_done(entries, 1);
    let saved = is_done(entries, 5);
    match (first, second) {
        (Some(_), Some(_)) => false,
        (Some(n), None) | (None, Some(n)) => n == 6 || (n == 5 && !saved),
        (None, None) => !made,
    }
}

/// Whether it is so over logs.
fn survives_over_logs(
    rt: &impl Abort,
    alloc: Global,
    node: u32,
    after: u32,
    mode: &str,
    letters: &str,
) -> bool {
    let script = move_script(alloc, node, after, mode, letters).expect(rt, "memory");
    let mut disks = blank_disks(rt, alloc, 8192);
    let moved = carried::<LogStore<SimDisk>>(rt, alloc, script.as_str(), &mut disks);
    is_whole(moved.log.entries.as_slice())
}

/// Whether it is so over blocks.
fn survives_over_blocks(
    rt: &impl Abort,
    alloc: Global,
    node: u32,
    after: u32,
    mode: &str,
    letters: &str,
) -> bool {
    let script = move_script(alloc, node, after, mode, letters).expect(rt, "memory");
    let mut disks = blank_disks(rt, alloc, 32_768);
    let moved = carried::<BlockStore<SimDisk>>(rt, alloc, script.as_str(), &mut disks);
    is_whole(moved.log.entries.as_slice())
}

/// After how many device calls of which node its disk stops, at most: from there on the last wakings would be cut short.
const LAST: &[(u32, u32)] = &[(1, 24), (2, 12)];

#[test]
fn no_eject_is_in_two_places_or_lost_over_logs(rt: HostRuntime) {
    let alloc = rt.alloc();
    for &(node, last) in LAST {
        for after in 0..last {
            for &mode in MODES {
                for &letters in ORDERS {
                    assert!(rt;
                        survives_over_logs(&rt, alloc, node, after + 1, mode, letters),
                        "{node} {after} {mode}"
                    );
                }
            }
        }
    }
}

#[test]
fn no_eject_is_in_two_places_or_lost_over_blocks(rt: HostRuntime) {
    let alloc = rt.alloc();
    for &(node, last) in LAST {
        for after in 0..last {
            for &mode in MODES {
                for &letters in ORDERS {
                    assert!(rt;
                        survives_over_blocks(&rt, alloc, node, after + 1, mode, letters),
                        "{node} {after} {mode}"
                    );
                }
            }
        }
    }
}
