use crate::common::{are_few, ask, assert_same, integers, no_calls, number_in, places};
use capability::Uid;
use checkpoint::{StoreEnd, Worker};
use eden_value::Status;
use edentypes::{Begun, Kind, find};
use ejects::*;
use epl_syntax::{Native, Types};
use history_tests::common::{FIRST, text, uid_of};
use invocation::{Calls, Delivery};
use journal::{Event, Shown};
use std::alloc::Global;
use std::process::Abort;

/// A node with a Cell.
#[derive(Drop)]
struct Bench {
    alloc: Global,
    types: Types,
    cell: Kind,
    ejects: Ejects,
    worker: Worker,
}

/// What is done to a node: to the Eject of a serial, by a call of an operation with a number or with none.
#[derive(Clone, Copy)]
enum Act {
    /// A new Cell.
    Create,
    /// Something is kept of it.
    Note(u32),
    /// A request is delivered.
    Request(u32, &'static [u8], Option<i64>),
    /// An invocation starts.
    Start(u32, &'static [u8], Option<i64>),
    /// A process takes a turn, which serves the one call or goes on with it.
    Turn(u32, &'static [u8], Option<i64>),
    /// All three.
    Call(u32, &'static [u8], Option<i64>),
    May(u32),
    NextReady(u32),
    /// Of the node.
    Number,
    /// Whether the store has a request.
    Pending,
    /// The request of the store ends, which is a removal, or not.
    StoreEnds(u32, bool, StoreEnd),
    /// A settling has found that something is kept, or nothing.
    Settles(u32, bool),
    /// An Eject starts from this number.
    Wake(u32, i64),
    /// Its queue is answered with this status.
    TurnAway(u32, Status),
    /// Its process is told that its call is broken.
    Break(u32),
}

/// What an act showed.
#[derive(Clone, Copy, Debug, PartialEq)]
enum Seen {
    Done,
    Refused,
    Created(Uid),
    /// How a request was refused, or None where it joined a queue.
    Request(Option<Status>),
    /// What a turn showed, and the reply that it sent to the shell, if it sent one.
    Turn(Shown, Option<Reply>),
    Reply(Option<Reply>),
    /// Whether an Eject may be woken, start an invocation, and run.
    May(bool, bool, bool),
    Number(Option<u8>),
    Is(bool),
}

/// The status of a reply, and its integer, if it has one.
type Reply = (Status, Option<i64>);

fn new_bench(rt: &impl Abort, alloc: Global) -> Box<Bench> {
    let types = Types::native(alloc).expect(rt, "memory");
    let name = text(alloc, b"Cell").expect(rt, "memory");
    let cell = find(&types, &name).expect(rt, "a Cell is native");
    let bench = Bench {
        alloc,
        types,
        cell,
        ejects: Ejects::new(alloc, 1, 1).expect(rt, "memory"),
        worker: Worker::new(alloc),
    };
    Box::new(alloc, bench).expect(rt, "memory")
}

/// The one call that the shell asks of an Eject.
fn asked(
    rt: &impl Abort,
    alloc: Global,
    serial: u32,
    operation: &[u8],
    number: Option<i64>,
) -> Box<Calls> {
    let mut calls = no_calls(rt, alloc);
    ask(rt, alloc, &mut calls, uid_of(serial), operation, number);
    calls
}

/// The reply that is on its way to the shell.
fn replied(calls: &mut Calls) -> Option<Reply> {
    let delivery = calls.deliver(1, 0);
    let reply = match &delivery {
        Some(
            Delivery::Reply {
                status,
                results,
                ..
            },
        ) => Some((*status, number_in(results))),
        _ => None,
    };
    drop(delivery);
    reply
}

impl Bench {
    fn create(&mut self, rt: &impl Abort) -> Seen {
        let created = self
            .ejects
            .create(self.alloc, &self.types, self.cell)
            .expect(rt, "memory");
        Seen::Created(created.expect(rt, "a new Cell"))
    }

    fn request(
        &mut self,
        rt: &impl Abort,
        serial: u32,
        operation: &[u8],
        number: Option<i64>,
    ) -> Seen {
        let mut calls = asked(rt, self.alloc, serial, operation, number);
        assert!(rt; self.ejects.hears(&calls, 0), "no request is heard");
        let event = self
            .ejects
            .deliver(self.alloc, &self.types, &mut calls, 0)
            .expect(rt, "memory");
        let seen = match &event {
            Event::Request { refused, .. } => Seen::Request(*refused),
            _ => panic!(rt; "a delivery shows another event"),
        };
        drop(event);
        seen
    }

    fn start(
        &mut self,
        rt: &impl Abort,
        serial: u32,
        operation: &[u8],
        number: Option<i64>,
    ) -> Seen {
        let asked = asked(rt, self.alloc, serial, operation, number);
        let calls: &Calls = &asked;
        let uid = uid_of(serial);
        assert!(rt; self.ejects.may_begin(calls, uid), "it may not start");
        let started = self.ejects.start(self.alloc, &self.types, calls, uid);
        drop(started.expect(rt, "memory"));
        Seen::Done
    }

    fn turn(
        &mut self,
        rt: &impl Abort,
        serial: u32,
        operation: &[u8],
        number: Option<i64>,
    ) -> Seen {
        let mut calls = asked(rt, self.alloc, serial, operation, number);
        assert!(rt; are_few(&calls), "too many calls");
        let uid = uid_of(serial);
        assert!(rt; self.ejects.is_ready(uid, 1), "it may not run");
        let event = self
            .ejects
            .process(
                self.alloc,
                &self.types,
                &mut calls,
                &places(),
                &mut self.worker,
                uid,
                1,
                true,
            )
            .expect(rt, "memory");
        let shown = match &event {
            Event::Process { shown, .. } => *shown,
            _ => panic!(rt; "a turn shows another event"),
        };
        drop(event);
        Seen::Turn(shown, replied(&mut calls))
    }

    fn store_ends(&mut self, rt: &impl Abort, serial: u32, removal: bool, end: StoreEnd) -> Seen {
        let mut calls = no_calls(rt, self.alloc);
        self.ejects
            .store_ends(
                self.alloc,
                &mut calls,
                uid_of(serial),
                Some(1),
                removal,
                end,
            )
            .expect(rt, "memory");
        Seen::Done
    }

    fn wake(&mut self, rt: &impl Abort, serial: u32, number: i64) -> Seen {
        let uid = uid_of(serial);
        if self.ejects.is_active(uid) {
            return Seen::Refused;
        }
        let mut calls = asked(rt, self.alloc, serial, b"Get", None);
        let begun = Begun {
            kind: Kind::Native {
                native: Native::Cell,
            },
            durable: integers(rt, self.alloc, Some(number)),
        };
        self.ejects
            .wake(self.alloc, &self.types, &mut calls, uid, &begun)
            .expect(rt, "memory");
        Seen::Done
    }

    fn turn_away(&mut self, rt: &impl Abort, serial: u32, status: Status) -> Seen {
        let mut calls = asked(rt, self.alloc, serial, b"Get", None);
        self.ejects
            .turn_away(self.alloc, &mut calls, uid_of(serial), status)
            .expect(rt, "memory");
        Seen::Reply(replied(&mut calls))
    }

    /// What is seen of the node.
    fn look(&self, rt: &impl Abort, act: Act) -> Seen {
        match act {
            Act::May(serial) => {
                let may = self.ejects.may(uid_of(serial));
                Seen::May(may.wake, may.start, may.run)
            }
            Act::NextReady(serial) => Seen::Number(self.ejects.next_ready(uid_of(serial), 0)),
            Act::Number => Seen::Number(Some(self.ejects.number())),
            Act::Pending => Seen::Is(self.worker.pending()),
            _ => panic!(rt; "no act of these"),
        }
    }

    fn note(&mut self, rt: &impl Abort, serial: u32) -> Seen {
        let uid = uid_of(serial);
        if self.ejects.is_active(uid) {
            return Seen::Refused;
        }
        self.ejects.note(self.alloc, uid).expect(rt, "memory");
        Seen::Done
    }

    /// What comes from outside of the Ejects.
    fn hear(&mut self, rt: &impl Abort, act: Act) -> Seen {
        match act {
            Act::Note(serial) => self.note(rt, serial),
            Act::StoreEnds(serial, removal, end) => self.store_ends(rt, serial, removal, end),
            Act::Settles(serial, stays) => {
                self.ejects.settles(uid_of(serial), stays);
                Seen::Done
            }
            Act::Wake(serial, number) => self.wake(rt, serial, number),
            Act::TurnAway(serial, status) => self.turn_away(rt, serial, status),
            Act::Break(serial) => {
                self.ejects.broken(self.alloc, uid_of(serial), 1);
                Seen::Done
            }
            _ => self.look(rt, act),
        }
    }

    fn take(&mut self, rt: &impl Abort, act: Act) -> Seen {
        match act {
            Act::Create => self.create(rt),
            Act::Request(serial, operation, number) => self.request(rt, serial, operation, number),
            Act::Start(serial, operation, number) => self.start(rt, serial, operation, number),
            Act::Turn(serial, operation, number) => self.turn(rt, serial, operation, number),
            Act::Call(serial, operation, number) => {
                let _refused = self.request(rt, serial, operation, number);
                let _started = self.start(rt, serial, operation, number);
                self.turn(rt, serial, operation, number)
            }
            _ => self.hear(rt, act),
        }
    }
}

const CREATED: (Act, Seen) = (Act::Create, Seen::Created(FIRST));

const SAVED: (Act, Seen) = (
    Act::Call(1, b"Save", None),
    Seen::Turn(Shown::Checkpoint, None),
);

const RETURN: Shown = Shown::Return { call: 1 };

const RUNS: &[(&str, &[(Act, Seen)])] = &[
    (
        "a Cell keeps what it is set to",
        &[
            CREATED,
            (
                Act::Call(1, b"Set", Some(5)),
                Seen::Turn(RETURN, Some((Status::Ok, None))),
            ),
            (
                Act::Call(1, b"Get", None),
                Seen::Turn(RETURN, Some((Status::Ok, Some(5)))),
            ),
            (
                Act::Request(1, b"Got", None),
                Seen::Request(Some(Status::NoOperation)),
            ),
            (
                Act::Request(1, b"Set", None),
                Seen::Request(Some(Status::BadArguments)),
            ),
            (
                Act::Request(9, b"Get", None),
                Seen::Request(Some(Status::Gone)),
            ),
        ],
    ),
    (
        "a save waits for the store, which keeps it",
        &[
            CREATED,
            SAVED,
            (Act::Pending, Seen::Is(true)),
            (Act::May(1), Seen::May(false, false, false)),
            (Act::StoreEnds(1, false, StoreEnd::Done), Seen::Done),
            (Act::May(1), Seen::May(false, false, true)),
            (
                Act::Turn(1, b"Save", None),
                Seen::Turn(RETURN, Some((Status::Ok, Some(0)))),
            ),
        ],
    ),
    (
        "a save waits for the store, which is full",
        &[
            CREATED,
            SAVED,
            (Act::Pending, Seen::Is(true)),
            (Act::May(1), Seen::May(false, false, false)),
            (Act::StoreEnds(1, false, StoreEnd::Full), Seen::Done),
            (Act::May(1), Seen::May(false, false, true)),
            (
                Act::Turn(1, b"Save", None),
                Seen::Turn(RETURN, Some((Status::Ok, Some(12)))),
            ),
        ],
    ),
    (
        "a save waits for the store, which fails",
        &[
            CREATED,
            SAVED,
            (Act::Pending, Seen::Is(true)),
            (Act::May(1), Seen::May(false, false, false)),
            (Act::StoreEnds(1, false, StoreEnd::Fault), Seen::Done),
            (Act::May(1), Seen::May(false, false, true)),
            (
                Act::Turn(1, b"Save", None),
                Seen::Turn(RETURN, Some((Status::Ok, Some(7)))),
            ),
        ],
    ),
    (
        "an Eject that sleeps is woken",
        &[
            CREATED,
            (
                Act::Call(1, b"Sleep", None),
                Seen::Turn(Shown::Deactivate, Some((Status::Dropped, None))),
            ),
            (Act::May(1), Seen::May(false, false, false)),
            (Act::Request(1, b"Get", None), Seen::Request(None)),
            (Act::May(1), Seen::May(true, false, false)),
            (Act::Wake(1, 9), Seen::Done),
            (Act::May(1), Seen::May(false, true, false)),
            (Act::Start(1, b"Get", None), Seen::Done),
            (Act::NextReady(1), Seen::Number(Some(1))),
            (
                Act::Turn(1, b"Get", None),
                Seen::Turn(RETURN, Some((Status::Ok, Some(9)))),
            ),
        ],
    ),
    (
        "an Eject that is removed is gone",
        &[
            CREATED,
            (
                Act::Call(1, b"Kill", None),
                Seen::Turn(Shown::Destroy, None),
            ),
            (Act::StoreEnds(1, true, StoreEnd::Done), Seen::Done),
            (
                Act::Request(1, b"Get", None),
                Seen::Request(Some(Status::Gone)),
            ),
        ],
    ),
    (
        "a passive Eject does not start, and then a settling finds nothing kept of it",
        &[
            (Act::Number, Seen::Number(Some(1))),
            (Act::Note(9), Seen::Done),
            (Act::Request(9, b"Get", None), Seen::Request(None)),
            (
                Act::TurnAway(9, Status::Damaged),
                Seen::Reply(Some((Status::Damaged, None))),
            ),
            (Act::May(9), Seen::May(false, false, false)),
            (Act::Settles(9, true), Seen::Done),
            (Act::Request(9, b"Get", None), Seen::Request(None)),
            (Act::Settles(9, false), Seen::Done),
            (
                Act::Request(9, b"Get", None),
                Seen::Request(Some(Status::Gone)),
            ),
        ],
    ),
    (
        "a process that waits is told that its call is broken",
        &[
            CREATED,
            SAVED,
            (Act::Break(1), Seen::Done),
            (Act::May(1), Seen::May(false, false, true)),
            (Act::Break(1), Seen::Done),
            (Act::May(1), Seen::May(false, false, true)),
        ],
    ),
];

/// The acts of a run, each of which shows at a new node what stands there.
fn check(rt: &impl Abort, alloc: Global, run: &str, rows: &[(Act, Seen)]) {
    let mut bench = new_bench(rt, alloc);
    for &(act, wanted) in rows {
        assert_same(rt, &bench.take(rt, act), &wanted, run);
    }
}

#[test]
fn acts_show_what_they_do(rt: HostRuntime) {
    for &(run, rows) in RUNS {
        check(&rt, rt.alloc(), run, rows);
    }
}
