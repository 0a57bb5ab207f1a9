use capability::Uid;
use eject_table::*;
use std::alloc::Global;
use std::process::Abort;

/// Something that is asked of a table, of the Eject with a serial.
#[derive(Clone, Copy)]
enum Step {
    Create { value: u32 },
    Find { serial: u32 },
    Note { serial: u32 },
    /// With a value.
    Wake(u32, u32),
    Active { serial: u32 },
    /// Its value from now on.
    Change(u32, u32),
    Count,
    First,
    After { serial: u32 },
    Drop { serial: u32 },
    Forget { serial: u32 },
}

/// What a table answers. `Refused` says that nothing was asked of it, as nothing may be.
#[derive(Clone, Copy, PartialEq)]
enum Seen {
    Done,
    Refused,
    Nothing,
    Number { n: u32 },
    Stands(EjectStanding),
    Full(CreateRefusal),
}

/// The uid of node 1 in epoch 1 with this serial.
fn uid(serial: u32) -> Uid {
    Uid {
        node: 1,
        epoch: 1,
        serial,
    }
}

fn number(found: Option<u32>) -> Seen {
    match found {
        Some(n) => Seen::Number { n },
        None => Seen::Nothing,
    }
}

/// The serial of a uid of node 1 in epoch 1.
fn serial(found: Option<Uid>) -> Seen {
    match found {
        Some(
            Uid {
                node: 1,
                epoch: 1,
                serial,
            },
        ) => Seen::Number { n: serial },
        Some(_) => Seen::Refused,
        None => Seen::Nothing,
    }
}

fn created(rt: &impl Abort, table: &mut EjectTable<u32>, alloc: Global, value: u32) -> Seen {
    match table.create(alloc, value) {
        Ok(uid) => serial(Some(uid)),
        Err((_, CreateRefusal::OutOfMemory)) => panic!(rt; "memory"),
        Err((back, refusal)) => {
            if back == value {
                Seen::Full(refusal)
            } else {
                Seen::Refused
            }
        }
    }
}

/// Notes the Eject where it is not active.
fn noted(rt: &impl Abort, table: &mut EjectTable<u32>, alloc: Global, uid: Uid) -> Seen {
    match table.find(uid) {
        EjectStanding::Active => return Seen::Refused,
        EjectStanding::Passive => table.note_passive(alloc, uid).expect(rt, "memory"),
        EjectStanding::Absent => table.note_passive(alloc, uid).expect(rt, "memory"),
    }
    Seen::Done
}

/// Wakes the Eject where it is passive.
fn woken(table: &mut EjectTable<u32>, alloc: Global, uid: Uid, value: u32) -> Seen {
    match table.find(uid) {
        EjectStanding::Passive => match table.wake(alloc, uid, value) {
            Ok(()) => Seen::Done,
            Err(_) => Seen::Nothing,
        },
        _ => Seen::Refused,
    }
}

/// Forgets the Eject where it is not active.
fn forgotten(table: &mut EjectTable<u32>, uid: Uid) -> Seen {
    match table.find(uid) {
        EjectStanding::Active => return Seen::Refused,
        EjectStanding::Passive => table.forget(uid),
        EjectStanding::Absent => table.forget(uid),
    }
    Seen::Done
}

fn changed(table: &mut EjectTable<u32>, uid: Uid, value: u32) -> Seen {
    match table.active_mut(uid) {
        Some(held) => {
            *held = value;
            Seen::Done
        }
        None => Seen::Nothing,
    }
}

/// The answer to a question.
fn asked(table: &EjectTable<u32>, step: Step) -> Seen {
    match step {
        Step::Find { serial } => Seen::Stands(table.find(uid(serial))),
        Step::Active { serial } => number(table.active(uid(serial)).copied()),
        Step::Count => Seen::Number { n: table.count() },
        Step::First => serial(table.after(None)),
        Step::After { serial: last } => serial(table.after(Some(uid(last)))),
        _ => Seen::Refused,
    }
}

fn stepped(rt: &impl Abort, table: &mut EjectTable<u32>, alloc: Global, step: Step) -> Seen {
    match step {
        Step::Create { value } => created(rt, table, alloc, value),
        Step::Note { serial } => noted(rt, table, alloc, uid(serial)),
        Step::Wake(serial, value) => woken(table, alloc, uid(serial), value),
        Step::Change(serial, value) => changed(table, uid(serial), value),
        Step::Drop { serial } => number(table.drop_active(uid(serial), true)),
        Step::Forget { serial } => forgotten(table, uid(serial)),
        _ => asked(table, step),
    }
}

/// The table takes the steps, and answers what stands beside them.
fn takes_steps(
    rt: &impl Abort,
    alloc: Global,
    table: &mut EjectTable<u32>,
    steps: &[(Step, Seen)],
) {
    for (i, &(step, wanted)) in steps.iter().enumerate() {
        assert!(rt; stepped(rt, table, alloc, step) == wanted, "step {i}");
    }
}

/// A table of node 1 in an epoch, whose last serial is this.
fn new_table(rt: &impl Abort, alloc: Global, epoch: u32, last: u32) -> Box<EjectTable<u32>> {
    let table = EjectTable::new(alloc, 1, epoch, last).expect(rt, "memory");
    Box::new(alloc, table).expect(rt, "memory")
}

const ABSENT: Seen = Seen::Stands(EjectStanding::Absent);

const PASSIVE: Seen = Seen::Stands(EjectStanding::Passive);

const ACTIVE: Seen = Seen::Stands(EjectStanding::Active);

/// The last serial is given, and there is none past it.
const SPENT: &[(Step, Seen)] = &[
    (Step::Create { value: 7 }, Seen::Number { n: 4_294_967_295 }),
    (
        Step::Create { value: 8 },
        Seen::Full(CreateRefusal::SerialsSpent),
    ),
];

#[test]
fn serials_are_spent(rt: HostRuntime) {
    let mut table = new_table(&rt, rt.alloc(), 1, 4_294_967_294);
    takes_steps(&rt, rt.alloc(), &mut table, SPENT);
}

const STANDINGS: &[(Step, Seen)] = &[
    (Step::Find { serial: 1 }, ABSENT),
    (Step::Note { serial: 1 }, Seen::Done),
    (Step::Find { serial: 1 }, PASSIVE),
    (Step::Wake(1, 5), Seen::Done),
    (Step::Find { serial: 1 }, ACTIVE),
    (Step::Active { serial: 1 }, Seen::Number { n: 5 }),
    (Step::Change(1, 6), Seen::Done),
    (Step::Note { serial: 3 }, Seen::Done),
    (Step::Count, Seen::Number { n: 2 }),
    (Step::First, Seen::Number { n: 1 }),
    (Step::After { serial: 1 }, Seen::Number { n: 3 }),
    (Step::After { serial: 3 }, Seen::Nothing),
    (Step::Drop { serial: 1 }, Seen::Number { n: 6 }),
    (Step::Drop { serial: 1 }, Seen::Nothing),
    (Step::Find { serial: 1 }, PASSIVE),
    (Step::Forget { serial: 1 }, Seen::Done),
    (Step::Find { serial: 1 }, ABSENT),
];

#[test]
fn standings_change(rt: HostRuntime) {
    let mut table = new_table(&rt, rt.alloc(), 2, 0);
    takes_steps(&rt, rt.alloc(), &mut table, STANDINGS);
}

/// So many Ejects are created, each with the next serial.
fn creates(rt: &impl Abort, alloc: Global, table: &mut EjectTable<u32>, most: u32) {
    for value in 0..most {
        let wanted = Seen::Number { n: value + 1 };
        assert!(rt; created(rt, table, alloc, value) == wanted, "Eject {value}");
    }
}

#[test]
fn at_most_so_many(rt: HostRuntime) {
    let mut table = new_table(&rt, rt.alloc(), 1, 0);
    creates(&rt, rt.alloc(), &mut table, 4096);
    let wanted = Seen::Full(CreateRefusal::TooMany);
    assert!(rt; created(&rt, &mut table, rt.alloc(), 8) == wanted);
}
