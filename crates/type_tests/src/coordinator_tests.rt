ghost use Rattle.std.specs.Prelude.{◌≡◌, ◌≤◌, ◌<◌, length, true, slice_get, IfSome};
ghost use Rattle.eden_model.specs.Crew.{Runs, Holds};

use capability::Seq;
use coordinator::*;
use std::alloc::Global;
use std::mem::size_of;
use std::process::Abort;

/// A question to a coordinator, or something that happens.
#[derive(Clone, Copy)]
enum Step {
    IsFull,
    Startable,
    Serves { process: u8 },
    NextReady { after: u8 },
    Monitors,
    Conditions,
    MonitorOf { condition: u8 },
    /// Of a process and a monitor.
    Holds(u8, u8),
    Runnable { process: u8 },
    Awaits { process: u8 },
    Offer { call: u32 },
    Start,
    Resume { process: u8 },
    /// Of a process.
    By(u8, Act),
}

/// What a process does that runs.
#[derive(Clone, Copy)]
enum Act {
    Block,
    Enter { monitor: u8 },
    Leave { monitor: u8 },
    Wait { condition: u8 },
    Signal { condition: u8 },
    End,
}

/// What a coordinator answers. `Refused` says that nothing was asked of it, as nothing may be.
#[derive(Clone, Copy, PartialEq)]
enum Seen {
    Done,
    Refused,
    No,
    Yes,
    Nothing,
    Number { n: u64 },
    /// A call, and its process.
    Started(u32, u8),
}

fn truth(holds: bool) -> Seen {
    if holds { Seen::Yes } else { Seen::No }
}

fn process(found: Option<u8>) -> Seen {
    match found {
        Some(n) => Seen::Number { n: u64::from(n) },
        None => Seen::Nothing,
    }
}

fn call(found: Option<u32>) -> Seen {
    match found {
        Some(n) => Seen::Number { n: u64::from(n) },
        None => Seen::Nothing,
    }
}

fn count(n: usize) -> Seen {
    Seen::Number { n: n as u64 }
}

fn offered(rt: &impl Abort, c: &mut Coordinator, call: u32) -> Seen {
    match c.offer(call, 0) {
        Ok(()) => Seen::Yes,
        Err(OfferRefusal::Busy) => Seen::No,
        Err(OfferRefusal::OutOfMemory) => panic!(rt; "memory"),
    }
}

fn started(rt: &impl Abort, c: &mut Coordinator) -> Seen {
    match c.start().expect(rt, "memory") {
        Some(Started { call, process }) => Seen::Started(call, process),
        None => Seen::Nothing,
    }
}

fn resumed(c: &mut Coordinator, process: u8) -> Seen {
    if !c.awaits(process) {
        return Seen::Refused;
    }
    c.resume(process);
    Seen::Done
}

/// Whether the process holds the monitor of the condition.
fn holds_for(c: &Coordinator, process: u8, condition: u8) -> bool
    ensures { result ≡ true → (condition < length c.now.crew.conditions)
        × IfSome (slice_get c.now.crew.conditions condition) (λ it. Holds c.now.crew process it.monitor) }
{
    match c.monitor_of(condition) {
        Some(monitor) => (condition as usize) < c.conditions() && c.holds(process, monitor),
        None => false,
    }
}

fn acted(c: &mut Coordinator, process: u8, act: Act) -> Seen
    requires { Runs c.old.crew process }
{
    match act {
        Act::Block => c.block(process),
        Act::Enter { monitor } => {
            if monitor < 1 || c.monitors() < monitor as usize {
                return Seen::Refused;
            }
            return truth(c.enter(process, monitor));
        }
        Act::Leave { monitor } => {
            if !c.holds(process, monitor) {
                return Seen::Refused;
            }
            c.leave(process, monitor);
        }
        Act::Wait { condition } => {
            if !holds_for(c, process, condition) {
                return Seen::Refused;
            }
            c.wait(process, condition);
        }
        Act::Signal { condition } => {
            if !holds_for(c, process, condition) {
                return Seen::Refused;
            }
            c.signal(process, condition);
        }
        Act::End => c.end(process),
    }
    Seen::Done
}

/// The answer to a question.
fn asked(c: &Coordinator, step: Step) -> Seen {
    match step {
        Step::IsFull => truth(c.is_full()),
        Step::Startable => call(c.startable()),
        Step::Serves { process } => call(c.serves(process)),
        Step::NextReady { after } => process(c.next_ready(after)),
        Step::Monitors => count(c.monitors()),
        Step::Conditions => count(c.conditions()),
        Step::MonitorOf { condition } => process(c.monitor_of(condition)),
        Step::Holds(process, monitor) => truth(c.holds(process, monitor)),
        Step::Runnable { process } => truth(c.runnable(process)),
        Step::Awaits { process } => truth(c.awaits(process)),
        _ => Seen::Refused,
    }
}

fn stepped(rt: &impl Abort, c: &mut Coordinator, step: Step) -> Seen {
    match step {
        Step::Offer { call } => offered(rt, c, call),
        Step::Start => started(rt, c),
        Step::Resume { process } => resumed(c, process),
        Step::By(process, act) if c.runnable(process) => acted(c, process, act),
        Step::By(_, _) => Seen::Refused,
        _ => asked(c, step),
    }
}

/// The coordinator takes the steps, and answers what stands beside them.
fn takes_steps(rt: &impl Abort, c: &mut Coordinator, steps: &[(Step, Seen)]) {
    for (i, &(step, wanted)) in steps.iter().enumerate() {
        assert!(rt; stepped(rt, c, step) == wanted, "step {i}");
    }
}

/// A coordinator of one class with this limit, and of no process, monitor or condition.
fn idle(rt: &impl Abort, alloc: Global, limit: u8) -> Box<Coordinator> {
    let limits = Seq {
        items: vec![in alloc; limit].expect(rt, "memory"),
    };
    let conditions = Seq {
        items: Vec::new(alloc),
    };
    let setup = Setup {
        limits,
        declared: 0,
        monitors: 0,
        conditions,
    };
    let c = Coordinator::new(alloc, setup).expect(rt, "memory");
    Box::new(alloc, c).expect(rt, "memory")
}

/// A coordinator of three processes, and of a monitor with a condition.
fn monitored(rt: &impl Abort, alloc: Global) -> Box<Coordinator> {
    let limits = Seq {
        items: Vec::new(alloc),
    };
    let conditions = Seq {
        items: vec![in alloc; 1].expect(rt, "memory"),
    };
    let setup = Setup {
        limits,
        declared: 3,
        monitors: 1,
        conditions,
    };
    let c = Coordinator::new(alloc, setup).expect(rt, "memory");
    Box::new(alloc, c).expect(rt, "memory")
}

/// Whether so many calls run in the end, so many are queued, and this one is the first of those.
fn leaves(c: Box<Coordinator>, running: usize, queued: usize, first: u32) -> bool {
    let parts = Box::into_inner(c).into_parts();
    let calls = parts.queued.as_slice();
    parts.running.pairs.len() == running
        && calls.len() == queued
        && calls.first().copied() == Some(first)
}

/// The 65th call comes, and the first one starts.
const FULL: &[(Step, Seen)] = &[
    (Step::IsFull, Seen::Yes),
    (Step::Offer { call: 164 }, Seen::No),
    (Step::Startable, Seen::Number { n: 100 }),
    (Step::Start, Seen::Started(100, 1)),
    (Step::Runnable { process: 1 }, Seen::Yes),
    (Step::Serves { process: 1 }, Seen::Number { n: 100 }),
    (Step::Serves { process: 2 }, Seen::Nothing),
    (Step::Startable, Seen::Nothing),
    (Step::Start, Seen::Nothing),
];

/// The calls from 100 on, up to one, find room in the coordinator and are taken.
fn takes_calls(rt: &impl Abort, c: &mut Coordinator, past: u32) {
    for call in 100..past {
        assert!(rt;
            !c.is_full() && offered(rt, c, call) == Seen::Yes,
            "call {call}"
        );
    }
}

#[test]
fn one_of_a_class_with_limit_one(rt: HostRuntime) {
    let mut c = idle(&rt, rt.alloc(), 1);
    takes_calls(&rt, &mut c, 164);
    takes_steps(&rt, &mut c, FULL);
    assert!(rt; leaves(c, 1, 63, 101));
}

/// The processes from 1 on, up to one, start with the calls of their places.
fn start_in_order(rt: &impl Abort, c: &mut Coordinator, past: u8) {
    for process in 1..past {
        let wanted = Seen::Started(99 + u32::from(process), process);
        assert!(rt; started(rt, c) == wanted, "process {process}");
    }
}

/// Sixteen calls have started.
const SIXTEEN: &[(Step, Seen)] = &[
    (Step::Start, Seen::Nothing),
    (Step::NextReady { after: 15 }, Seen::Number { n: 16 }),
];

#[test]
fn room_grows_to_sixteen_processes(rt: HostRuntime) {
    let mut c = idle(&rt, rt.alloc(), 16);
    takes_calls(&rt, &mut c, 117);
    start_in_order(&rt, &mut c, 17);
    takes_steps(&rt, &mut c, SIXTEEN);
    assert!(rt; leaves(c, 16, 1, 116));
}

const ENTER: Act = Act::Enter { monitor: 1 };

const LEAVE: Act = Act::Leave { monitor: 1 };

const WAIT: Act = Act::Wait { condition: 0 };

const SIGNAL: Act = Act::Signal { condition: 0 };

/// The monitor passes from process to process.
const PASSES: &[(Step, Seen)] = &[
    (Step::Monitors, Seen::Number { n: 1 }),
    (Step::Conditions, Seen::Number { n: 1 }),
    (Step::MonitorOf { condition: 0 }, Seen::Number { n: 1 }),
    (Step::MonitorOf { condition: 1 }, Seen::Nothing),
    (Step::By(1, ENTER), Seen::Yes),
    (Step::Holds(1, 1), Seen::Yes),
    (Step::Holds(2, 1), Seen::No),
    (Step::Holds(1, 0), Seen::No),
    (Step::By(2, ENTER), Seen::No),
    (Step::NextReady { after: 0 }, Seen::Number { n: 1 }),
    (Step::NextReady { after: 1 }, Seen::Number { n: 3 }),
    (Step::NextReady { after: 3 }, Seen::Nothing),
    (Step::Runnable { process: 2 }, Seen::No),
    (Step::By(1, WAIT), Seen::Done),
    // the monitor was left to it
    (Step::Runnable { process: 2 }, Seen::Yes),
    (Step::By(3, ENTER), Seen::No),
    (Step::By(2, SIGNAL), Seen::Done),
    // behind process 3
    (Step::Runnable { process: 1 }, Seen::No),
    (Step::By(2, LEAVE), Seen::Done),
    (Step::Runnable { process: 3 }, Seen::Yes),
    (Step::By(3, Act::End), Seen::Done),
    (Step::Runnable { process: 1 }, Seen::Yes),
    (Step::Runnable { process: 3 }, Seen::No),
    (Step::Awaits { process: 1 }, Seen::No),
    (Step::By(1, Act::Block), Seen::Done),
    (Step::Runnable { process: 1 }, Seen::No),
    (Step::Awaits { process: 1 }, Seen::Yes),
    (Step::NextReady { after: 0 }, Seen::Number { n: 2 }),
    (Step::Resume { process: 1 }, Seen::Done),
    (Step::By(1, LEAVE), Seen::Done),
    // free again
    (Step::By(2, ENTER), Seen::Yes),
];

#[test]
fn a_monitor_passes_in_order(rt: HostRuntime) {
    let mut c = monitored(&rt, rt.alloc());
    takes_steps(&rt, &mut c, PASSES);
}

#[test]
fn sizes_of_its_parts(rt: HostRuntime) {
    assert!(rt; size_of::<Coordinator>() == 144 && size_of::<Slot>() == 16);
    assert!(rt; size_of::<Monitor>() == 32 && size_of::<Condition>() == 32);
}
