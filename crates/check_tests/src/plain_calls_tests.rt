ghost use Rattle.std.specs.Prelude.{◌≡◌, ◌<◌, length, IsTrue};

use capability::{Cap, Rights, Uid};
use eden_model::Asker;
use eden_value::{Items, Status, Txt, texted};
use plain_calls::*;
use std::alloc::Global;
use std::process::Abort;

/// A call, a question, or something that happens. Each Eject is the first one of its node.
#[derive(Clone, Copy)]
enum Step {
    /// The shell asks a node.
    ShellAsks { node: u8 },
    /// The first process of a node's Eject asks another node.
    EjectAsks(u8, u8),
    Hold { call: u32 },
    Reply { call: u32 },
    Receive { call: u32 },
    BreakNode { node: u8 },
    BreakLink(u8, u8),
    Orphan { node: u8 },
    /// From a station to another.
    Next(u8, u8),
    IsOpen { call: u32 },
    /// The names of the shell's open calls to a node.
    NamesTo { node: u8 },
    /// The processes with open calls to a node.
    ProcessesTo { node: u8 },
}

/// What is seen of it.
#[derive(Clone, Copy, PartialEq)]
enum Seen {
    Done,
    No,
    Yes,
    Nothing,
    Count { n: usize },
    Call { call: u32 },
}

/// The first Eject of the node.
fn uid_at(node: u8) -> Uid {
    Uid {
        node,
        epoch: 1,
        serial: 1,
    }
}

/// No values.
fn none(alloc: Global) -> Items {
    Items {
        values: Vec::new(alloc),
    }
}

/// A text of these bytes.
fn text(rt: &impl Abort, alloc: Global, bytes: &[u8]) -> Txt {
    let bytes = Vec::from_slice(alloc, bytes).expect(rt, "memory");
    texted(bytes).expect(rt, "memory")
}

/// Whether another call may be asked.
fn may_ask(calls: &PlainCalls) -> bool
    ensures { IsTrue result → length calls.now.calls.items < 4294967295 }
{
    calls.calls.len() < 4_294_967_295
}

/// Asks the first Eject of a node.
fn ask(rt: &impl Abort, alloc: Global, calls: &mut PlainCalls, asker: Asker, node: u8) -> Seen {
    if !may_ask(calls) {
        return Seen::Nothing;
    }
    let target = Cap {
        uid: uid_at(node),
        rights: Rights { bits: 65_535 },
    };
    let operation = text(rt, alloc, b"Get");
    let call = calls
        .ask(asker, target, operation, none(alloc), None)
        .expect(rt, "memory");
    Seen::Call { call }
}

/// Answers a call.
fn reply(rt: &impl Abort, alloc: Global, calls: &mut PlainCalls, call: u32) -> Seen {
    calls
        .reply(Status::Ok, none(alloc), call)
        .expect(rt, "memory");
    Seen::Done
}

/// What is asked of the calls.
fn ask_about(rt: &impl Abort, alloc: Global, calls: &PlainCalls, step: Step) -> Seen {
    match step {
        Step::Next(from, to) => match calls.next_message(from, to) {
            Some(call) => Seen::Call { call },
            None => Seen::Nothing,
        },
        Step::IsOpen { call } => match calls.call(call) {
            Some(found) => { if found.open { Seen::Yes } else { Seen::No } }
            None => Seen::Nothing,
        },
        Step::NamesTo { node } => {
            let names = calls
                .names(alloc, Among::ToNode { node })
                .expect(rt, "memory");
            Seen::Count { n: names.len() }
        }
        Step::ProcessesTo { node } => {
            let processes = calls
                .processes(alloc, Among::ToNode { node })
                .expect(rt, "memory");
            Seen::Count { n: processes.len() }
        }
        _ => Seen::Nothing,
    }
}

/// Makes a step.
fn make(rt: &impl Abort, alloc: Global, calls: &mut PlainCalls, step: Step) -> Seen {
    match step {
        Step::ShellAsks { node } => {
            let name = text(rt, alloc, b"a");
            ask(rt, alloc, calls, Asker::Shell { name }, node)
        }
        Step::EjectAsks(from, node) => {
            let uid = uid_at(from);
            ask(rt, alloc, calls, Asker::Eject { uid, process: 1 }, node)
        }
        Step::Hold { call } => {
            calls.hold(call);
            Seen::Done
        }
        Step::Reply { call } => reply(rt, alloc, calls, call),
        Step::Receive { call } => {
            calls.receive(call);
            Seen::Done
        }
        Step::BreakNode { node } => {
            calls.break_node(node);
            Seen::Done
        }
        Step::BreakLink(a, b) => {
            calls.break_link(a, b);
            Seen::Done
        }
        Step::Orphan { node } => {
            calls.orphan(uid_at(node));
            Seen::Done
        }
        _ => ask_about(rt, alloc, calls, step),
    }
}

/// Makes the steps in turn, and sees at each what is given beside it.
fn see(rt: &impl Abort, alloc: Global, steps: &[(Step, Seen)]) {
    let mut calls = PlainCalls::new(alloc);
    for &(step, seen) in steps {
        assert!(rt; make(rt, alloc, &mut calls, step) == seen);
    }
}

/// Two calls of the shell, one of which is answered.
const ANSWERED: &[(Step, Seen)] = &[
    (Step::ShellAsks { node: 1 }, Seen::Call { call: 1 }),
    (Step::ShellAsks { node: 1 }, Seen::Call { call: 2 }),
    (Step::Next(0, 1), Seen::Call { call: 1 }),
    (Step::Next(1, 0), Seen::Nothing),
    (Step::Hold { call: 1 }, Seen::Done),
    (Step::Next(0, 1), Seen::Call { call: 2 }),
    (Step::Reply { call: 1 }, Seen::Done),
    (Step::Next(1, 0), Seen::Call { call: 1 }),
    (Step::IsOpen { call: 1 }, Seen::Yes),
    (Step::Receive { call: 1 }, Seen::Done),
    (Step::Next(1, 0), Seen::Nothing),
    (Step::IsOpen { call: 1 }, Seen::No),
    (Step::IsOpen { call: 3 }, Seen::Nothing),
];

#[test]
fn a_call_goes_and_comes(rt: HostRuntime) {
    see(&rt, rt.alloc(), ANSWERED);
}

/// Node 1 falls, the link of nodes 2 and 3 is cut, and the Eject of node 2 loses its active part.
const CLOSED: &[(Step, Seen)] = &[
    (Step::ShellAsks { node: 1 }, Seen::Call { call: 1 }),
    (Step::EjectAsks(2, 1), Seen::Call { call: 2 }),
    (Step::EjectAsks(1, 1), Seen::Call { call: 3 }),
    (Step::EjectAsks(2, 3), Seen::Call { call: 4 }),
    (Step::NamesTo { node: 1 }, Seen::Count { n: 1 }),
    (Step::ProcessesTo { node: 1 }, Seen::Count { n: 1 }),
    (Step::BreakNode { node: 1 }, Seen::Done),
    (Step::NamesTo { node: 1 }, Seen::Count { n: 0 }),
    (Step::Next(2, 1), Seen::Nothing),
    (Step::Next(2, 3), Seen::Call { call: 4 }),
    (Step::BreakLink(3, 2), Seen::Done),
    (Step::Next(2, 3), Seen::Nothing),
    (Step::IsOpen { call: 4 }, Seen::No),
    (Step::EjectAsks(2, 3), Seen::Call { call: 5 }),
    (Step::Orphan { node: 2 }, Seen::Done),
    (Step::IsOpen { call: 5 }, Seen::No),
    (Step::Next(2, 3), Seen::Call { call: 5 }),
    (Step::Reply { call: 5 }, Seen::Done),
    (Step::Next(3, 2), Seen::Nothing),
];

#[test]
fn a_crash_a_cut_and_an_end_close_calls(rt: HostRuntime) {
    see(&rt, rt.alloc(), CLOSED);
}
