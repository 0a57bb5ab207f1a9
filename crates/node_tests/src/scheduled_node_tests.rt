ghost use Rattle.eden_kernel.specs.Stands.{held, IsWhole};

use crate::common::{are_few, ask, fall_of, native_types, no_calls, places};
use eden_disk::ImageMode;
use eden_kernel::TurnEnd;
use epl_syntax::Types;
use history_tests::common::{FIRST, Log, blank, text};
use invocation::Calls;
use journal::Key;
use passive_store::{Doubt, Store};
use scheduled_node::ScheduledNode;
use std::alloc::Global;
use std::process::Abort;

/// What is done to a node, or asked of it.
#[derive(Clone, Copy)]
enum Act {
    /// A new Cell, which is the first Eject.
    Create,
    /// The shell asks it for an operation, with this number or with none.
    Ask(&'static [u8], Option<i64>),
    Deliver,
    /// The turn of the next key.
    Turn,
    /// The next key.
    Next,
    /// Whether there is one key, which is the next and the last.
    HasOneKey,
    /// Whether an answer waits for the shell.
    HasAnswer,
}

/// What an act showed.
#[derive(Clone, Copy, PartialEq)]
enum Seen {
    Done,
    /// The kind and the process of a key.
    Key(u8, u8),
    NoKey,
    Is(bool),
}

/// A node that has come up.
fn up<St: Store>(rt: &impl Abort, alloc: Global, disk: St::Device) -> Box<ScheduledNode<St>>
where
    St::Device: Drop,
    ensures { IsWhole (held St.seen result.value.node) }
{
    let (node, _) = ScheduledNode::boot(alloc, disk, 1, None)
        .map_err(fall_of)
        .expect(rt, "a boot");
    Box::new(alloc, node).expect(rt, "memory")
}

/// A new Cell, which is the first Eject.
fn create<St: Store>(rt: &impl Abort, alloc: Global, types: &Types, node: &mut ScheduledNode<St>)
    requires { IsWhole (held St.seen node.old.node) }
    ensures { IsWhole (held St.seen node.new.node) }
{
    let name = text(alloc, b"Cell").expect(rt, "memory");
    let kind = edentypes::find(types, &name).expect(rt, "a Cell is native");
    let created = node.create(alloc, types, kind).expect(rt, "memory");
    assert!(rt; created == Ok(FIRST), "it is another Eject");
}

/// The kind and the process of a key of a node that goes on, whose turn is taken.
fn turn<St: Store>(
    rt: &impl Abort,
    alloc: Global,
    types: &Types,
    calls: &mut Calls,
    node: &mut ScheduledNode<St>,
    key: Key,
) -> Seen
    requires { IsWhole (held St.seen node.old.node) }
    ensures { IsWhole (held St.seen node.new.node) }
{
    assert!(rt; are_few(calls), "too many calls");
    assert!(rt; node.has_turn(calls, key), "the node has no such turn");
    let (event, behind) = node
        .turn(alloc, types, calls, &places(), key)
        .expect(rt, "memory");
    drop(event);
    match behind {
        TurnEnd::Up => Seen::Key(key.kind, key.process),
        TurnEnd::Down => panic!(rt; "the node is down"),
    }
}

/// Whether there is one key, which is the next and the last.
fn has_one_key<St: Store>(node: &ScheduledNode<St>) -> bool {
    let first = node.key_at(0).break_value();
    let behind = node.key_at(3).continue_value();
    first.is_some() && behind == Some(2) && node.next(None) == first && node.next(first).is_none()
}

fn take<St: Store>(
    rt: &impl Abort,
    alloc: Global,
    types: &Types,
    calls: &mut Calls,
    node: &mut ScheduledNode<St>,
    act: Act,
) -> Seen
    requires { IsWhole (held St.seen node.old.node) }
    ensures { IsWhole (held St.seen node.new.node) }
{
    match act {
        Act::Create => {
            create(rt, alloc, types, node);
            Seen::Done
        }
        Act::Ask(operation, number) => {
            ask(rt, alloc, calls, FIRST, operation, number);
            Seen::Done
        }
        Act::Deliver => {
            let key = Key {
                station: 1,
                kind: 1,
                sender: 0,
                uid: FIRST,
                process: 0,
            };
            let _shown = turn(rt, alloc, types, calls, node, key);
            Seen::Done
        }
        Act::Turn => {
            let key = node.next(None).expect(rt, "a key");
            turn(rt, alloc, types, calls, node, key)
        }
        Act::Next => match node.next(None) {
            Some(key) => Seen::Key(key.kind, key.process),
            None => Seen::NoKey,
        },
        Act::HasOneKey => Seen::Is(has_one_key(node)),
        Act::HasAnswer => Seen::Is(calls.waiting(1, 0)),
    }
}

/// A node does what stands in these rows, and shows what stands there.
fn check_rows<St: Store>(
    rt: &impl Abort,
    alloc: Global,
    types: &Types,
    calls: &mut Calls,
    node: &mut ScheduledNode<St>,
    rows: &[(Act, Seen)],
)
    requires { IsWhole (held St.seen node.old.node) }
{
    for (place, &(act, wanted)) in rows.iter().enumerate() {
        let seen = take(rt, alloc, types, calls, node, act);
        assert!(rt; seen == wanted, "the row at {place}");
    }
}

/// A node that boots over a disk, does what stands in these rows and shows what stands there, and crashes.
fn run<St: Store + Drop>(
    rt: &impl Abort,
    alloc: Global,
    disk: St::Device,
    rows: &[(Act, Seen)],
) -> (St::Device, Option<Doubt>)
where
    St::Device: Drop,
{
    let types = native_types(rt, alloc);
    let mut calls = no_calls(rt, alloc);
    let mut node = up::<St>(rt, alloc, disk);
    check_rows(rt, alloc, &types, &mut calls, &mut node, rows);
    Box::into_inner(node).crash(ImageMode::Lose)
}

const ANSWERED: &[(Act, Seen)] = &[
    (Act::Next, Seen::NoKey),
    (Act::Create, Seen::Done),
    (Act::Next, Seen::NoKey),
    (Act::Ask(b"Set", Some(5)), Seen::Done),
    (Act::Deliver, Seen::Done),
    (Act::HasOneKey, Seen::Is(true)),
    (Act::Turn, Seen::Key(3, 0)),
    (Act::Turn, Seen::Key(4, 1)),
    (Act::HasAnswer, Seen::Is(true)),
];

const SAVED: &[(Act, Seen)] = &[
    (Act::Create, Seen::Done),
    (Act::Ask(b"Save", None), Seen::Done),
    (Act::Deliver, Seen::Done),
    (Act::Turn, Seen::Key(3, 0)),
    (Act::Turn, Seen::Key(4, 1)),
    (Act::Turn, Seen::Key(5, 0)),
    (Act::Turn, Seen::Key(5, 0)),
    (Act::Turn, Seen::Key(5, 0)),
    (Act::Turn, Seen::Key(5, 0)),
    (Act::Turn, Seen::Key(4, 1)),
];

/// The Eject is passive, and is started by its next call.
const WOKEN: &[(Act, Seen)] = &[
    (Act::Next, Seen::NoKey),
    (Act::Ask(b"Get", None), Seen::Done),
    (Act::Deliver, Seen::Done),
    (Act::Turn, Seen::Key(2, 0)),
    (Act::Turn, Seen::Key(3, 0)),
    (Act::Turn, Seen::Key(4, 1)),
];

/// A run that leaves nothing in doubt, and one of another node over the disk that it leaves.
fn run_twice<St: Store + Drop>(
    rt: &impl Abort,
    alloc: Global,
    disk: St::Device,
    first: &[(Act, Seen)],
    second: &[(Act, Seen)],
)
where
    St::Device: Drop,
{
    let (disk, doubt) = run::<St>(rt, alloc, disk, first);
    assert!(rt; doubt.is_none(), "a crash with a doubt");
    drop(run::<St>(rt, alloc, disk, second));
}

#[test]
fn a_cell_from_its_creation_to_its_answer(rt: HostRuntime) {
    let disk = blank(rt.alloc()).expect(&rt, "memory");
    drop(run::<Log>(&rt, rt.alloc(), disk, ANSWERED));
}

#[test]
fn a_cell_that_saves_and_a_crash(rt: HostRuntime) {
    let disk = blank(rt.alloc()).expect(&rt, "memory");
    run_twice::<Log>(&rt, rt.alloc(), disk, SAVED, WOKEN);
}
