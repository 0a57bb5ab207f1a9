//! A node and those that ask it, act by act.
ghost use Rattle.std.specs.Prelude.{IfSome};
ghost use Rattle.eden_kernel.specs.Stands.{held, IsWhole};
ghost use Rattle.eden_kernel.specs.DiskTurns.{IsWholeBehind};

use crate::common::{are_few, ask, fall_of, native_types, no_calls, number_in, places};
use eden_disk::ImageMode;
use eden_kernel::{Node, TurnEnd};
use eden_value::Status;
use epl_syntax::Types;
use history_tests::common::{FIRST, Log, arm_of, blank, uid_of};
use invocation::{Calls, Delivery};
use journal::{Event, RequestEnd, StartEnd};
use passive_store::{Doubt, Pick, Store};
use std::alloc::Global;
use std::process::Abort;

/// What is kept of a Cell of 5.
pub const CELL: &[u8] = &[
    1, 4, b'C', b'e', b'l', b'l', 0, 1, 1, 1, 0, 0, 0, 0, 0, 0, 0, 5,
];

/// No representation.
pub const DAMAGED: &[u8] = &[7];

/// What a node does, its disk, or the shell. Turns are those of the first Eject.
#[derive(Clone, Copy)]
pub enum Act {
    /// The shell asks the Eject of this serial for an operation, with this number or with none.
    Ask(u32, &'static [u8], Option<i64>),
    Deliver,
    Activate,
    Start,
    Process,
    Store,
    /// Its process is told that its call is broken.
    Break,
    /// The disk is to fail behind so many device calls.
    Fail(u8),
    /// The disk is to stop behind so many, in this mode.
    Stop(u8, ImageMode),
}

/// What an act showed of what is compared.
#[derive(Clone, Copy, Debug, PartialEq)]
pub enum Seen {
    Nothing,
    /// A request was delivered, and refused so, or not.
    Request(Option<Status>),
    Activation(StartEnd),
    Store(RequestEnd),
}

/// What the last of some acts showed, and whether the node goes on.
pub type TurnShown = (Seen, TurnEnd);

/// The disk of a node in its first epoch, on which these bytes are kept of one Eject.
pub fn seeded<St: Store + Drop>(
    rt: &impl Abort,
    alloc: Global,
    disk: St::Device,
    bytes: &[u8],
) -> St::Device
where
    St::Device: Drop,
{
    assert!(rt; bytes.len() <= 100, "too many bytes");
    let (mut store, _) = checkpoint::boot::<St>(alloc, disk, 1, None)
        .map_err(fall_of)
        .expect(rt, "a boot");
    store.put(alloc, FIRST, bytes).expect(rt, "a put");
    store.close()
}

/// A node that boots with its disk in doubt: its epoch, and what the boot found.
pub fn up<St: Store>(
    rt: &impl Abort,
    alloc: Global,
    disk: St::Device,
    doubt: Option<Doubt>,
) -> (Box<Node<St>>, u32, Option<Pick>)
where
    St::Device: Drop,
    ensures { IsWhole (held St.seen result.0.value) }
{
    let (node, note) = Node::boot(alloc, disk, 1, doubt)
        .map_err(fall_of)
        .expect(rt, "a boot");
    let node = Box::new(alloc, node).expect(rt, "memory");
    (node, note.epoch, note.pick)
}

/// What comes next from the shell is delivered, where the node hears it.
fn deliver<St: Store>(
    rt: &impl Abort,
    alloc: Global,
    node: &mut Node<St>,
    types: &Types,
    calls: &mut Calls,
) -> Seen
    requires { IsWhole (held St.seen node.old) }
    ensures { IsWhole (held St.seen node.new) }
{
    if !node.ejects().hears(calls, 0) {
        return Seen::Nothing;
    }
    let event = node.deliver(alloc, types, calls, 0).expect(rt, "memory");
    let seen = match &event {
        Event::Request { refused, .. } => Seen::Request(*refused),
        _ => Seen::Nothing,
    };
    drop(event);
    seen
}

/// The first Eject is activated. None where it may not be, as at the turns below.
fn activate<St: Store>(
    rt: &impl Abort,
    alloc: Global,
    node: &mut Node<St>,
    types: &Types,
    calls: &mut Calls,
) -> Option<TurnShown>
    requires { IsWhole (held St.seen node.old) }
    ensures { IfSome result (λ r. IsWholeBehind r.1 (held St.seen node.new)) }
{
    if !node.may_activate(FIRST) {
        return None;
    }
    let (event, behind) = node
        .activate(alloc, types, calls, FIRST)
        .expect(rt, "memory");
    let seen = match &event {
        Event::Activate { end, .. } => Seen::Activation(*end),
        _ => panic!(rt; "an activation shows another event"),
    };
    drop(event);
    Some((seen, behind))
}

/// An invocation starts at it.
fn start<St: Store>(
    rt: &impl Abort,
    alloc: Global,
    node: &mut Node<St>,
    types: &Types,
    calls: &mut Calls,
) -> Option<Seen>
    requires { IsWhole (held St.seen node.old) }
    ensures { IfSome result (λ _. IsWhole (held St.seen node.new)) }
{
    if !node.may_start(calls, FIRST) {
        return None;
    }
    drop(node.start(alloc, types, calls, FIRST).expect(rt, "memory"));
    Some(Seen::Nothing)
}

/// Its first process takes a turn.
fn process<St: Store>(
    rt: &impl Abort,
    alloc: Global,
    node: &mut Node<St>,
    types: &Types,
    calls: &mut Calls,
) -> Option<Seen>
    requires { IsWhole (held St.seen node.old) }
    ensures { IfSome result (λ _. IsWhole (held St.seen node.new)) }
{
    assert!(rt; are_few(calls), "too many calls");
    if !node.may_process(FIRST, 1) {
        return None;
    }
    let turn = node.process(alloc, types, calls, &places(), FIRST, 1);
    drop(turn.expect(rt, "memory"));
    Some(Seen::Nothing)
}

/// The store takes a turn.
fn store_turn<St: Store>(
    rt: &impl Abort,
    alloc: Global,
    node: &mut Node<St>,
    calls: &mut Calls,
) -> Option<TurnShown>
    requires { IsWhole (held St.seen node.old) }
    ensures { IfSome result (λ r. IsWholeBehind r.1 (held St.seen node.new)) }
{
    if !node.pending() {
        return None;
    }
    let (event, behind) = node.store_turn(alloc, calls).expect(rt, "memory");
    let seen = match &event {
        Event::Store { end, .. } => Seen::Store(*end),
        _ => panic!(rt; "a turn of the store shows another event"),
    };
    drop(event);
    Some((seen, behind))
}

/// The first process of the Eject is told that its call is broken.
fn tell_broken<St: Store>(alloc: Global, node: &mut Node<St>) -> Seen
    requires { IsWhole (held St.seen node.old) }
    ensures { IsWhole (held St.seen node.new) }
{
    node.broken(alloc, FIRST, 1);
    Seen::Nothing
}

/// The disk is to fail, or to stop in this mode, behind so many device calls.
fn arm<St: Store>(node: &mut Node<St>, stop: Option<ImageMode>, made: u8) -> Seen
    requires { IsWhole (held St.seen node.old) }
    ensures { IsWhole (held St.seen node.new) }
{
    node.arm(arm_of(stop, u32::from(made) + 1));
    Seen::Nothing
}

/// An act behind which the node goes on. None where it may not be.
fn go_on<St: Store>(
    rt: &impl Abort,
    alloc: Global,
    node: &mut Node<St>,
    types: &Types,
    calls: &mut Calls,
    act: Act,
) -> Option<Seen>
    requires { IsWhole (held St.seen node.old) }
    ensures { IfSome result (λ _. IsWhole (held St.seen node.new)) }
{
    match act {
        Act::Ask(serial, operation, number) => {
            ask(rt, alloc, calls, uid_of(serial), operation, number);
            Some(Seen::Nothing)
        }
        Act::Deliver => Some(deliver(rt, alloc, node, types, calls)),
        Act::Start => start(rt, alloc, node, types, calls),
        Act::Process => process(rt, alloc, node, types, calls),
        Act::Break => Some(tell_broken(alloc, node)),
        Act::Fail(made) => Some(arm(node, None, made)),
        Act::Stop(made, mode) => Some(arm(node, Some(mode), made)),
        _ => None,
    }
}

/// An act. None where it may not be.
fn take<St: Store>(
    rt: &impl Abort,
    alloc: Global,
    node: &mut Node<St>,
    types: &Types,
    calls: &mut Calls,
    act: Act,
) -> Option<TurnShown>
    requires { IsWhole (held St.seen node.old) }
    ensures { IfSome result (λ r. IsWholeBehind r.1 (held St.seen node.new)) }
{
    match act {
        Act::Activate => activate(rt, alloc, node, types, calls),
        Act::Store => store_turn(rt, alloc, node, calls),
        _ => Some((go_on(rt, alloc, node, types, calls, act)?, TurnEnd::Up)),
    }
}

/// The acts, up to the first behind which the node is down. What the last showed, or None where one may not be.
pub fn run<St: Store>(
    rt: &impl Abort,
    alloc: Global,
    node: &mut Node<St>,
    types: &Types,
    calls: &mut Calls,
    acts: &[Act],
) -> Option<TurnShown>
    requires { IsWhole (held St.seen node.old) }
    ensures { IfSome result (λ r. IsWholeBehind r.1 (held St.seen node.new)) }
{
    let mut last = Seen::Nothing;
    for &act in acts {
        match take(rt, alloc, node, types, calls, act)? {
            (seen, TurnEnd::Up) => last = seen,
            (seen, TurnEnd::Down) => return Some((seen, TurnEnd::Down)),
        }
    }
    Some((last, TurnEnd::Up))
}

/// The acts, behind which the node goes on.
pub fn run_on<St: Store>(
    rt: &impl Abort,
    alloc: Global,
    node: &mut Node<St>,
    types: &Types,
    calls: &mut Calls,
    acts: &[Act],
)
    requires { IsWhole (held St.seen node.old) }
    ensures { IsWhole (held St.seen node.new) }
{
    match run(rt, alloc, node, types, calls, acts) {
        Some((_, TurnEnd::Up)) => {}
        last => panic!(rt; "the node does not go on: {last:?}"),
    }
}

/// The first Eject is asked for its number, and started from what is kept.
const GET: &[Act] = &[
    Act::Ask(1, b"Get", None),
    Act::Deliver,
    Act::Activate,
    Act::Start,
    Act::Process,
];

/// The number that the shell is answered.
fn answered(calls: &mut Calls) -> Option<i64> {
    let delivery = calls.deliver(1, 0);
    let number = match &delivery {
        Some(Delivery::Reply { results, .. }) => number_in(results),
        _ => None,
    };
    drop(delivery);
    number
}

/// What a node finds that boots over this disk: what it picks, and the number of the Cell.
pub fn found<St: Store + Drop>(
    rt: &impl Abort,
    alloc: Global,
    disk: St::Device,
    doubt: Option<Doubt>,
) -> (Option<Pick>, Option<i64>)
where
    St::Device: Drop,
{
    let types = native_types(rt, alloc);
    let mut calls = no_calls(rt, alloc);
    let (mut node, _, pick) = up::<St>(rt, alloc, disk, doubt);
    run_on(rt, alloc, &mut node, &types, &mut calls, GET);
    (pick, answered(&mut calls))
}

/// What acts come to behind those before, or None where the last may not be: at a node that boots over a disk on which these bytes
/// are kept of the first Eject.
fn shown_on<St: Store + Drop>(
    rt: &impl Abort,
    alloc: Global,
    disk: St::Device,
    bytes: &[u8],
    before: &[Act],
    acts: &[Act],
) -> Option<TurnShown>
where
    St::Device: Drop,
{
    let types = native_types(rt, alloc);
    let mut calls = no_calls(rt, alloc);
    let disk = seeded::<St>(rt, alloc, disk, bytes);
    let (mut node, _, _) = up::<St>(rt, alloc, disk, None);
    run_on(rt, alloc, &mut node, &types, &mut calls, before);
    run(rt, alloc, &mut node, &types, &mut calls, acts)
}

/// The same on a blank disk.
pub fn shown(
    rt: &impl Abort,
    alloc: Global,
    bytes: &[u8],
    before: &[Act],
    acts: &[Act],
) -> Option<TurnShown> {
    let disk = blank(alloc).expect(rt, "memory");
    shown_on::<Log>(rt, alloc, disk, bytes, before, acts)
}
