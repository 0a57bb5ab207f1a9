ghost use Rattle.std.specs.Prelude.{◌≡◌, ◌≤◌, ◌<◌, length, IsTrue};
ghost use Rattle.eden_model.specs.Traffic.{asking_station};

use crate::common::text;
use capability::{Cap, Rights, Uid};
use eden_value::{Items, Status, Value};
use invocation::*;
use locator::Places;
use std::alloc::Global;
use std::process::Abort;

/// A call, a question, or something that happens. Each Eject is the first one of its node.
#[derive(Clone, Copy)]
enum Step {
    /// The shell asks a node, with so many arguments.
    ShellAsks(u8, usize),
    /// An Eject of a node asks, from a process, a node.
    EjectAsks(u8, u8, u8),
    IsClosed { call: u32 },
    /// How many arguments the call has.
    Arguments { call: u32 },
    /// From a station to another, as the two after it.
    Waits(u8, u8),
    Next(u8, u8),
    Deliver(u8, u8),
    Answer { call: u32 },
    Orphan { node: u8 },
    BreakLink(u8, u8),
    BreakNode { node: u8 },
}

/// What is seen of it. `Refused` says that nothing was asked, as nothing may be.
#[derive(Clone, Copy, PartialEq)]
enum Seen {
    Done,
    Refused,
    No,
    Yes,
    Nothing,
    Count { n: usize },
    Call { call: u32 },
    /// A call that is answered at once.
    AtOnce(u32, Status),
    /// So many calls are broken, and the first of them.
    Broken(usize, u32),
    Request { call: u32 },
    Reply(Reply),
}

/// The reply to a call, and whether a process asked.
#[derive(Clone, Copy, PartialEq)]
struct Reply {
    call: u32,
    status: Status,
    count: usize,
    was_open: bool,
    by_process: bool,
}

fn truth(holds: bool) -> Seen {
    if holds { Seen::Yes } else { Seen::No }
}

/// The first Eject of the node.
fn uid_at(node: u8) -> Uid
    ensures { result ≡ record { node = node; epoch = 1; serial = 1 } }
{
    Uid {
        node,
        epoch: 1,
        serial: 1,
    }
}

/// As many numbers.
fn numbers(rt: &impl Abort, alloc: Global, count: usize) -> Items {
    let mut values = Vec::new(alloc);
    for _ in 0..count {
        values.push(Value::Int { n: 7 }).expect(rt, "memory");
    }
    Items { values }
}

/// Whether another call may be asked.
fn may_ask(calls: &Calls) -> bool
    ensures { IsTrue result → length calls.now.calls < 4294967295 }
{
    calls.call(u32::MAX).is_none()
}

/// Asks the first Eject of a node.
fn ask(
    rt: &impl Abort,
    alloc: Global,
    calls: &mut Calls,
    asker: Asker,
    node: u8,
    count: usize,
    places: &Places,
) -> Seen
    requires { asking_station asker ≤ 8 }
{
    if !may_ask(calls) {
        return Seen::Refused;
    }
    let target = Cap {
        uid: uid_at(node),
        rights: Rights { bits: 65_535 },
    };
    let args = numbers(rt, alloc, count);
    let asked = calls.ask(alloc, asker, target, text(rt, alloc, b"Get"), args, places);
    let Asked { call, at_once } = asked.expect(rt, "memory");
    match at_once {
        Some(status) => Seen::AtOnce(call, status),
        None => Seen::Call { call },
    }
}

/// Asks in the shell's name.
fn shell_asks(
    rt: &impl Abort,
    alloc: Global,
    calls: &mut Calls,
    node: u8,
    count: usize,
    places: &Places,
) -> Seen {
    let name = text(rt, alloc, b"Get");
    ask(rt, alloc, calls, Asker::Shell { name }, node, count, places)
}

/// Asks in the name of the first Eject of a node, from a process of it.
fn eject_asks(
    rt: &impl Abort,
    alloc: Global,
    calls: &mut Calls,
    (own, process, node): (u8, u8, u8),
    places: &Places,
) -> Seen {
    if own > 8 {
        return Seen::Refused;
    }
    let uid = uid_at(own);
    let asker = Asker::Eject { uid, process };
    ask(rt, alloc, calls, asker, node, 1, places)
}

fn is_closed(calls: &Calls, number: u32) -> Seen {
    match calls.call(number) {
        Some(call) => truth(call.closed),
        None => Seen::Nothing,
    }
}

fn arguments(calls: &Calls, number: u32) -> Seen {
    match calls.call(number) {
        Some(call) => Seen::Count {
            n: call.args.values.len(),
        },
        None => Seen::Nothing,
    }
}

fn next(calls: &Calls, from: u8, to: u8) -> Seen
    requires from { from ≤ 8 }
    requires to { to ≤ 8 }
{
    match calls.first(from, to) {
        Some(message) => Seen::Call {
            call: message.number(),
        },
        None => Seen::Nothing,
    }
}

fn delivered(calls: &mut Calls, from: u8, to: u8) -> Seen
    requires from { from ≤ 8 }
    requires to { to ≤ 8 }
{
    match calls.deliver(from, to) {
        Some(Delivery::Request { call }) => Seen::Request { call },
        Some(
            Delivery::Reply {
                call,
                status,
                results,
                was_open,
                process,
            },
        ) => Seen::Reply(Reply {
            call,
            status,
            count: results.values.len(),
            was_open,
            by_process: process.is_some(),
        }),
        None => Seen::Nothing,
    }
}

/// Answers the call with one number.
fn answer(rt: &impl Abort, alloc: Global, calls: &mut Calls, number: u32) -> Seen {
    let results = numbers(rt, alloc, 1);
    let is_taken = calls.answer(alloc, number, Status::Ok, results);
    truth(is_taken.expect(rt, "memory"))
}

fn broken(numbers: &[u32]) -> Seen {
    match numbers {
        [] => Seen::Nothing,
        [call, ..] => Seen::Broken(numbers.len(), *call),
    }
}

/// Breaks the calls over a link.
fn link_broken(rt: &impl Abort, alloc: Global, calls: &mut Calls, a: u8, b: u8) -> Seen {
    if a > 8 || b > 8 {
        return Seen::Refused;
    }
    let cut = calls.break_link(alloc, a, b).expect(rt, "memory");
    broken(cut.as_slice())
}

/// Breaks the calls to a node and from it.
fn node_broken(rt: &impl Abort, alloc: Global, calls: &mut Calls, node: u8) -> Seen {
    if node > 8 {
        return Seen::Refused;
    }
    let lost = calls.break_node(alloc, node).expect(rt, "memory");
    broken(lost.as_slice())
}

/// What is seen between two stations.
fn seen_between(calls: &mut Calls, step: Step) -> Seen {
    match step {
        Step::Waits(from, to) if from <= 8 && to <= 8 => truth(calls.waiting(from, to)),
        Step::Next(from, to) if from <= 8 && to <= 8 => next(calls, from, to),
        Step::Deliver(from, to) if from <= 8 && to <= 8 => delivered(calls, from, to),
        _ => Seen::Refused,
    }
}

fn stepped(rt: &impl Abort, alloc: Global, calls: &mut Calls, places: &Places, step: Step) -> Seen {
    match step {
        Step::ShellAsks(node, count) => shell_asks(rt, alloc, calls, node, count, places),
        Step::EjectAsks(own, process, node) => {
            eject_asks(rt, alloc, calls, (own, process, node), places)
        }
        Step::IsClosed { call } => is_closed(calls, call),
        Step::Arguments { call } => arguments(calls, call),
        Step::Answer { call } => answer(rt, alloc, calls, call),
        Step::Orphan { node } => {
            calls.orphan(uid_at(node));
            Seen::Done
        }
        Step::BreakLink(a, b) => link_broken(rt, alloc, calls, a, b),
        Step::BreakNode { node } => node_broken(rt, alloc, calls, node),
        _ => seen_between(calls, step),
    }
}

/// The steps are made, and what stands beside them is seen.
fn takes_steps(
    rt: &impl Abort,
    alloc: Global,
    calls: &mut Calls,
    places: &Places,
    steps: &[(Step, Seen)],
) {
    for (i, &(step, wanted)) in steps.iter().enumerate() {
        assert!(rt;
            stepped(rt, alloc, calls, places, step) == wanted,
            "step {i}"
        );
    }
}

/// Three nodes, of which the first two are up.
fn two_of_three() -> Places
    ensures { result.nodes ≡ 3 }
{
    let mut places = Places::new(3);
    places.set_up(1, true);
    places.set_up(2, true);
    places
}

/// No calls yet.
fn no_calls(rt: &impl Abort, alloc: Global) -> Box<Calls> {
    let calls = Calls::new(alloc).expect(rt, "memory");
    Box::new(alloc, calls).expect(rt, "memory")
}

/// The steps are made from the start, where the first two of three nodes are up.
fn from_start(rt: &impl Abort, alloc: Global, steps: &[(Step, Seen)]) {
    let mut calls = no_calls(rt, alloc);
    takes_steps(rt, alloc, &mut calls, &two_of_three(), steps);
}

/// Nothing is cut yet.
const REFUSED: &[(Step, Seen)] = &[
    // 9 bytes more than 65,529
    (Step::ShellAsks(1, 7282), Seen::AtOnce(1, Status::TooLarge)),
    (Step::ShellAsks(1, 7281), Seen::Call { call: 2 }),
    // down
    (Step::ShellAsks(3, 1), Seen::AtOnce(3, Status::Unreachable)),
];

/// The shell does not reach node 2.
const CUT: &[(Step, Seen)] = &[
    (Step::ShellAsks(2, 1), Seen::AtOnce(4, Status::Unreachable)),
    // too large comes first
    (Step::ShellAsks(2, 7282), Seen::AtOnce(5, Status::TooLarge)),
    // the shell
    (Step::ShellAsks(0, 1), Seen::AtOnce(6, Status::Unreachable)),
    // no station
    (
        Step::ShellAsks(200, 1),
        Seen::AtOnce(7, Status::Unreachable),
    ),
    (Step::IsClosed { call: 1 }, Seen::Yes),
    (Step::IsClosed { call: 2 }, Seen::No),
    (Step::Waits(0, 2), Seen::No),
];

#[test]
fn refused_at_once(rt: HostRuntime) {
    let mut places = two_of_three();
    let mut calls = no_calls(&rt, rt.alloc());
    takes_steps(&rt, rt.alloc(), &mut calls, &places, REFUSED);
    places.set_link(0, 2, false);
    takes_steps(&rt, rt.alloc(), &mut calls, &places, CUT);
}

const CRASH: &[(Step, Seen)] = &[
    (Step::ShellAsks(3, 1), Seen::AtOnce(1, Status::Unreachable)),
    (Step::ShellAsks(1, 1), Seen::Call { call: 2 }),
    (Step::ShellAsks(2, 1), Seen::Call { call: 3 }),
    (Step::Waits(0, 1), Seen::Yes),
    (Step::BreakNode { node: 1 }, Seen::Broken(1, 2)),
    (Step::Waits(0, 1), Seen::No),
    (Step::Answer { call: 2 }, Seen::No),
    (Step::Next(0, 2), Seen::Call { call: 3 }),
    (Step::Deliver(0, 2), Seen::Request { call: 3 }),
    (Step::Answer { call: 3 }, Seen::Yes),
    (Step::IsClosed { call: 3 }, Seen::No),
    // the shell asked
    (
        Step::Deliver(2, 0),
        Seen::Reply(Reply {
            call: 3,
            status: Status::Ok,
            count: 1,
            was_open: true,
            by_process: false,
        }),
    ),
    (Step::IsClosed { call: 3 }, Seen::Yes),
    (Step::Answer { call: 3 }, Seen::No),
    (Step::Deliver(2, 0), Seen::Nothing),
    // the arguments are let go
    (Step::Arguments { call: 3 }, Seen::Count { n: 0 }),
    (Step::Arguments { call: 4 }, Seen::Nothing),
];

#[test]
fn a_crash_breaks_the_calls_to_its_node(rt: HostRuntime) {
    from_start(&rt, rt.alloc(), CRASH);
}

const CUT_AND_ORPHAN: &[(Step, Seen)] = &[
    (Step::ShellAsks(1, 1), Seen::Call { call: 1 }),
    (Step::ShellAsks(2, 1), Seen::Call { call: 2 }),
    (Step::EjectAsks(1, 1, 1), Seen::Call { call: 3 }),
    (Step::Arguments { call: 1 }, Seen::Count { n: 1 }),
    (Step::BreakLink(1, 0), Seen::Broken(1, 1)),
    // lost with the request
    (Step::Arguments { call: 1 }, Seen::Count { n: 0 }),
    // another link
    (Step::IsClosed { call: 2 }, Seen::No),
    // no link
    (Step::IsClosed { call: 3 }, Seen::No),
    (Step::BreakLink(1, 1), Seen::Nothing),
    (Step::Waits(1, 1), Seen::Yes),
    (Step::Orphan { node: 1 }, Seen::Done),
    (Step::IsClosed { call: 3 }, Seen::Yes),
    // the request goes on, with its arguments
    (Step::Waits(1, 1), Seen::Yes),
    (Step::Arguments { call: 3 }, Seen::Count { n: 1 }),
    (Step::Deliver(1, 1), Seen::Request { call: 3 }),
    (Step::Answer { call: 3 }, Seen::No),
    (Step::Arguments { call: 3 }, Seen::Count { n: 0 }),
    // never given, and not yet given
    (Step::Answer { call: 0 }, Seen::No),
    (Step::Answer { call: 4 }, Seen::No),
];

#[test]
fn a_cut_and_an_orphan(rt: HostRuntime) {
    from_start(&rt, rt.alloc(), CUT_AND_ORPHAN);
}

const ORPHANS: &[(Step, Seen)] = &[
    (Step::EjectAsks(1, 1, 1), Seen::Call { call: 1 }),
    (Step::EjectAsks(2, 1, 2), Seen::Call { call: 2 }),
    (Step::EjectAsks(1, 2, 1), Seen::Call { call: 3 }),
    (Step::EjectAsks(1, 3, 1), Seen::Call { call: 4 }),
    (Step::Answer { call: 1 }, Seen::Yes),
    (Step::Deliver(1, 1), Seen::Request { call: 1 }),
    (Step::Deliver(1, 1), Seen::Request { call: 3 }),
    (Step::Deliver(1, 1), Seen::Request { call: 4 }),
    (
        Step::Deliver(1, 1),
        Seen::Reply(Reply {
            call: 1,
            status: Status::Ok,
            count: 1,
            was_open: true,
            by_process: true,
        }),
    ),
    // the reply has come
    (Step::IsClosed { call: 1 }, Seen::Yes),
    (Step::IsClosed { call: 3 }, Seen::No),
    (Step::Orphan { node: 1 }, Seen::Done),
    (Step::IsClosed { call: 3 }, Seen::Yes),
    (Step::IsClosed { call: 4 }, Seen::Yes),
    // another Eject's
    (Step::IsClosed { call: 2 }, Seen::No),
    (Step::Orphan { node: 2 }, Seen::Done),
    (Step::IsClosed { call: 2 }, Seen::Yes),
];

#[test]
fn an_orphan_closes_its_own_calls_alone(rt: HostRuntime) {
    from_start(&rt, rt.alloc(), ORPHANS);
}
