use crate::common::text;
use capability::{Seq, Uid};
use eden_disk::{Arm, ImageMode};
use eden_value::{Items, Status, Txt, Value};
use epl_syntax::FaultCause;
use journal::*;
use passive_store::Pick;
use std::alloc::Global;
use std::process::Abort;

const CELL: Uid = Uid {
    node: 1,
    epoch: 2,
    serial: 3,
};

const STOP: Arm = Arm::Stop {
    after: 3,
    mode: ImageMode::Garble { byte: 225 },
};

/// What is told of an event: the rest is the same in all of a kind.
#[derive(Clone, Copy)]
enum Told {
    Boot(BootEnd),
    Crash(u8),
    Still,
    Cut,
    Armed,
    Made(Status),
    Void,
    Asked(u32, &'static [u8], Option<Status>),
    Request(Option<Status>),
    Reply,
    Refused(Status),
    Activate(StartEnd, Option<Pick>),
    Start,
    Turn(Shown),
    Store(u64, RequestEnd),
    Spent,
    Left,
}

/// The clock of the disk of node 1, and the name of the call that was broken; or no disk and no call.
type Touched = Option<(u64, &'static [u8])>;

/// In which modes an entry has its lines.
type Modes = &'static [(Mode, bool)];

/// A text of these bytes.
fn txt(rt: &impl Abort, alloc: Global, bytes: &[u8]) -> Txt {
    text(alloc, bytes).expect(rt, "memory")
}

/// The one name that these bytes are.
fn names(rt: &impl Abort, alloc: Global, one: &[u8]) -> Names {
    Seq {
        items: vec![in alloc; txt(rt, alloc, one)].expect(rt, "memory"),
    }
}

/// A reply of an integer and a text.
fn reply(rt: &impl Abort, alloc: Global) -> Event {
    let text_value = Value::Text {
        text: txt(rt, alloc, b"a\"b"),
    };
    let values = vec![in alloc; Value::Int { n: -5 }, text_value].expect(rt, "memory");
    Event::Reply {
        call: 2,
        from: 1,
        to: 0,
        name: Some(txt(rt, alloc, b"b")),
        status: Status::Ok,
        results: Items { values },
    }
}

/// A reply of no results.
fn refused(rt: &impl Abort, alloc: Global, status: Status) -> Event {
    Event::Reply {
        call: 2,
        from: 1,
        to: 0,
        name: Some(txt(rt, alloc, b"b")),
        status,
        results: Items {
            values: Vec::new(alloc),
        },
    }
}

fn turn_of(told: Told) -> Event {
    match told {
        Told::Activate(end, pick) => Event::Activate {
            uid: CELL,
            end,
            pick,
        },
        Told::Start => Event::Start {
            call: 7,
            uid: CELL,
            process: 1,
        },
        Told::Turn(shown) => Event::Process {
            uid: CELL,
            process: 1,
            shown,
        },
        Told::Store(clock, end) => Event::Store {
            uid: CELL,
            clock,
            end,
            pick: None,
        },
        _ => Event::Spent,
    }
}

fn with_name(rt: &impl Abort, alloc: Global, told: Told) -> Event {
    match told {
        Told::Made(status) => Event::Made {
            name: txt(rt, alloc, b"x"),
            status,
            uid: None,
        },
        Told::Void => Event::Void {
            name: txt(rt, alloc, b"x"),
        },
        Told::Asked(call, name, at_once) => Event::Asked {
            call,
            name: txt(rt, alloc, name),
            at_once,
        },
        Told::Left => Event::Left {
            names: names(rt, alloc, b"f"),
        },
        Told::Reply => reply(rt, alloc),
        Told::Refused(status) => refused(rt, alloc, status),
        _ => turn_of(told),
    }
}

fn event(rt: &impl Abort, alloc: Global, told: Told) -> Event {
    match told {
        Told::Boot(end) => Event::Boot {
            node: 1,
            epoch: 1,
            end,
            pick: None,
            began: true,
        },
        Told::Crash(node) => Event::Crash { node },
        Told::Still => Event::Still { node: 1, up: true },
        Told::Cut => Event::Link {
            a: 1,
            b: 2,
            joined: false,
        },
        Told::Armed => Event::Armed {
            node: 1,
            what: STOP,
        },
        Told::Request(refused) => Event::Request {
            call: 1,
            from: 0,
            to: 1,
            refused,
        },
        _ => with_name(rt, alloc, told),
    }
}

fn entry(rt: &impl Abort, alloc: Global, told: Told, touched: Touched) -> Entry {
    let event = event(rt, alloc, told);
    match touched {
        None => Entry {
            event,
            node: 0,
            clock: 0,
            broken: Seq {
                items: Vec::new(alloc),
            },
        },
        Some((clock, broken)) => Entry {
            event,
            node: 1,
            clock,
            broken: names(rt, alloc, broken),
        },
    }
}

/// An entry that is easily let go.
fn boxed_entry(rt: &impl Abort, alloc: Global, told: Told, touched: Touched) -> Box<Entry> {
    Box::new(alloc, entry(rt, alloc, told, touched)).expect(rt, "memory")
}

/// A line that stands before those of a test.
fn begun(rt: &impl Abort, alloc: Global) -> Vec<u8> {
    Vec::from_slice(alloc, b"a\n").expect(rt, "memory")
}

/// Whether the entry has these lines in a mode, behind what was there.
fn has_lines(rt: &impl Abort, alloc: Global, mode: Mode, entry: &Entry, wanted: &[u8]) -> bool {
    let mut out = begun(rt, alloc);
    line(alloc, mode, entry, &mut out).expect(rt, "memory");
    out.starts_with(b"a\n") && out.ends_with(wanted) && out.len() == wanted.len() + 2
}

/// The lines of commands.
const COMMAND: Modes = &[
    (Mode::Plain, true),
    (Mode::Trace, true),
    (Mode::Summary, false),
];

/// Those of turns.
const TURN: Modes = &[(Mode::Trace, true), (Mode::Plain, false)];

const PLAIN: Modes = &[(Mode::Plain, true)];

const TRACE: Modes = &[(Mode::Trace, true)];

const FULL: Modes = &[(Mode::Full, true)];

const LINES: &[(Modes, Told, Touched, &[u8])] = &[
    (
        COMMAND,
        Told::Boot(BootEnd::Up),
        None,
        b"node 1 up epoch 1\n",
    ),
    (
        COMMAND,
        Told::Boot(BootEnd::DiskFault),
        None,
        b"node 1 down disk fault\n",
    ),
    (
        COMMAND,
        Told::Boot(BootEnd::Stop),
        None,
        b"node 1 down stop\n",
    ),
    (
        COMMAND,
        Told::Boot(BootEnd::Damaged { place: 16 }),
        None,
        b"node 1 down damaged 16\n",
    ),
    (
        COMMAND,
        Told::Boot(BootEnd::EpochsSpent),
        None,
        b"node 1 down epochs spent\n",
    ),
    (
        COMMAND,
        Told::Boot(BootEnd::Full),
        None,
        b"node 1 down full\n",
    ),
    (COMMAND, Told::Crash(2), None, b"node 2 down crash\n"),
    (COMMAND, Told::Still, None, b"node 1 is up\n"),
    (COMMAND, Told::Spent, None, b"spent\n"),
    (TURN, Told::Cut, None, b"+ cut 1 2\n"),
    (TURN, Told::Armed, None, b"+ stop 1 3 garble 225\n"),
    (
        TURN,
        Told::Request(Some(Status::Gone)),
        None,
        b"+ request 1 0 1 refused 4\n",
    ),
    (
        TURN,
        Told::Request(Some(Status::Busy)),
        None,
        b"+ request 1 0 1 refused 10\n",
    ),
    (
        TURN,
        Told::Activate(StartEnd::Damaged, None),
        None,
        b"+ activate 1.2.3 damaged\n",
    ),
    (TURN, Told::Start, None, b"+ start 7 1.2.3 1\n"),
    (
        TURN,
        Told::Turn(Shown::Invoke { call: 8 }),
        None,
        b"+ process 1.2.3 1 invoke 8\n",
    ),
    (
        TURN,
        Told::Turn(Shown::Created { uid: CELL }),
        None,
        b"+ process 1.2.3 1 create 1.2.3\n",
    ),
    (
        TURN,
        Told::Turn(Shown::Refused {
            status: Status::TooMany,
        }),
        None,
        b"+ process 1.2.3 1 create refused 13\n",
    ),
    (
        TURN,
        Told::Turn(Shown::Checkpoint),
        None,
        b"+ process 1.2.3 1 checkpoint\n",
    ),
    (
        TURN,
        Told::Store(15, RequestEnd::Part),
        None,
        b"+ store 1.2.3 15 part\n",
    ),
    // A reply prints its results.
    (PLAIN, Told::Reply, None, b"b ok (-5, \"a\\\"b\")\n"),
    (
        PLAIN,
        Told::Refused(Status::Busy),
        None,
        b"b refused 10 busy\n",
    ),
    (
        PLAIN,
        Told::Refused(Status::TooLarge),
        None,
        b"b refused 11 too large\n",
    ),
    (
        TRACE,
        Told::Refused(Status::Full),
        None,
        b"+ reply 2 1 0\nb refused 12 full\n",
    ),
    // Commands show their names.
    (
        PLAIN,
        Told::Made(Status::TooMany),
        None,
        b"x refused 13 too many\n",
    ),
    (
        PLAIN,
        Told::Made(Status::SerialsSpent),
        None,
        b"x refused 14 serials spent\n",
    ),
    (PLAIN, Told::Void, None, b"x void\n"),
    (PLAIN, Told::Left, None, b"open f\n"),
    // Lines of a trace come first, and disks last.
    (
        TRACE,
        Told::Turn(Shown::Fault {
            cause: FaultCause::ZeroDivisor,
        }),
        None,
        b"+ process 1.2.3 1 fault\neject 1.2.3 fault zero divisor\n",
    ),
    (
        FULL,
        Told::Store(18, RequestEnd::Stop),
        Some((18, b"f")),
        b"node 1 down stop\nf refused 6 broken\n+ disk 1 18 - -\n",
    ),
    (
        FULL,
        Told::Activate(StartEnd::Ok, Some(Pick::Old)),
        Some((18, b"f")),
        b"+ activate 1.2.3 ok\nf refused 6 broken\n+ disk 1 18 old -\n",
    ),
];

/// Whether the entry has these lines in the modes in which it has any, and none in the others.
fn has_lines_in(rt: &impl Abort, alloc: Global, entry: &Entry, modes: Modes, lines: &[u8]) -> bool {
    for &(mode, shown) in modes {
        let wanted: &[u8] = if shown { lines } else { b"" };
        if !has_lines(rt, alloc, mode, entry, wanted) {
            return false;
        }
    }
    true
}

#[test]
fn entries_have_their_lines(rt: HostRuntime) {
    let alloc = rt.alloc();
    for (place, &(modes, told, touched, lines)) in LINES.iter().enumerate() {
        let entry = boxed_entry(&rt, alloc, told, touched);
        assert!(rt; has_lines_in(&rt, alloc, &entry, modes, lines), "{place}");
    }
}

const HISTORY: &[(Told, Touched)] = &[
    (Told::Asked(1, b"a", None), None),
    (Told::Request(None), None),
    (Told::Crash(1), Some((11, b"a"))),
    (Told::Asked(2, b"b", Some(Status::Unreachable)), None),
    (Told::Asked(3, b"d", None), None),
];

/// The entries of that history.
fn history(rt: &impl Abort, alloc: Global) -> Box<History> {
    let mut entries = Vec::new(alloc);
    for &(told, touched) in HISTORY {
        entries
            .push(entry(rt, alloc, told, touched))
            .expect(rt, "memory");
    }
    Box::new(alloc, History { entries }).expect(rt, "memory")
}

#[test]
fn a_summary_counts_calls_and_turns(rt: HostRuntime) {
    let alloc = rt.alloc();
    let mut out = begun(&rt, alloc);
    summary(alloc, &history(&rt, alloc), &mut out).expect(&rt, "memory");
    let wanted = b"a\ncalls 3 ok 0 refused 2 open 1 turns 1\n".as_slice();
    assert!(rt; out.as_slice() == wanted);
}
