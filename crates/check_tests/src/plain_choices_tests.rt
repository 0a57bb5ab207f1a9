use journal::{BootEnd, RequestEnd, StartEnd};
use passive_store::Pick;
use plain_choices::*;
use std::process::Abort;

/// What a disk may decide, or may not.
#[derive(Clone, Copy)]
enum Choice {
    /// A boot, by its facts: the epoch that it shows, its end, its pick, and whether the epoch's put was begun.
    Boot(BootFacts, u32, BootEnd, Option<Pick>, bool),
    /// A turn of a store.
    Store(Work, RequestEnd, Option<Pick>),
    /// A device call of a request's own, with this end, by how many it has made, on a disk of this size.
    Own(RequestEnd, u32, u32),
    /// An activation, by its facts.
    Start(StartFacts, StartEnd, Option<Pick>),
    /// The clock of an entry that touches a disk, or none, behind the last one there.
    Clock(bool, Option<u64>, u64),
    /// The clock of a turn of a store, and that of its entry.
    StoreClock(bool, Option<u64>, u64, u64),
}

/// A disk on which nothing is stored, and nothing in doubt.
const BLANK: BootFacts = BootFacts {
    damaged: None,
    overfull: false,
    allowed: true,
    doubted: false,
    stored: None,
    room: true,
    untold: false,
};

/// Epoch 1 is stored.
const SECOND: BootFacts = BootFacts {
    damaged: None,
    overfull: false,
    allowed: true,
    doubted: false,
    stored: Some(1),
    room: true,
    untold: false,
};

/// The last epoch is stored.
const LAST: BootFacts = BootFacts {
    damaged: None,
    overfull: false,
    allowed: true,
    doubted: false,
    stored: Some(4_294_967_295),
    room: true,
    untold: false,
};

/// A blank disk with its first damaged place.
const DAMAGED: BootFacts = BootFacts {
    damaged: Some(17),
    overfull: false,
    allowed: true,
    doubted: false,
    stored: None,
    room: true,
    untold: false,
};

/// The put of epoch 1 is in doubt, and a settling finds it made.
const DOUBTED: BootFacts = BootFacts {
    damaged: None,
    overfull: false,
    allowed: true,
    doubted: true,
    stored: Some(1),
    room: true,
    untold: false,
};

/// There is no room for an epoch.
const CROWDED: BootFacts = BootFacts {
    damaged: None,
    overfull: false,
    allowed: true,
    doubted: false,
    stored: None,
    room: false,
    untold: false,
};

/// What is kept leaves room for an epoch, and the last sequence is used.
const LAST_SEQUENCE: BootFacts = BootFacts {
    damaged: None,
    overfull: false,
    allowed: true,
    doubted: false,
    stored: Some(1),
    room: true,
    untold: true,
};

/// Whether it may be.
fn may_be(choice: Choice) -> bool {
    match choice {
        Choice::Boot(facts, epoch, end, pick, began) => may_boot(&facts, epoch, end, pick, began),
        Choice::Store(work, end, pick) => may_end(work, end, pick),
        Choice::Own(end, made, size) => has_call_left(true, end, made, size),
        Choice::Start(facts, end, pick) => may_start(&facts, end, pick),
        Choice::Clock(touched, before, clock) => may_show(touched, before, clock),
        Choice::StoreClock(touched, before, shown, clock) => {
            may_show_store(touched, before, shown, clock)
        }
    }
}

fn decide(rt: &impl Abort, choices: &[(Choice, bool)]) {
    for &(choice, may) in choices {
        assert!(rt; may_be(choice) == may);
    }
}

const BOOTS: &[(Choice, bool)] = &[
    (Choice::Boot(BLANK, 1, BootEnd::Up, None, true), true),
    (Choice::Boot(BLANK, 2, BootEnd::Up, None, true), false),
    (Choice::Boot(BLANK, 1, BootEnd::Up, None, false), false),
    (
        Choice::Boot(BLANK, 0, BootEnd::DiskFault, None, false),
        true,
    ),
    (Choice::Boot(BLANK, 1, BootEnd::Stop, None, true), true),
    (Choice::Boot(BLANK, 0, BootEnd::Full, None, false), false),
    (Choice::Boot(SECOND, 2, BootEnd::Up, None, true), true),
    (
        Choice::Boot(LAST, 0, BootEnd::EpochsSpent, None, false),
        true,
    ),
    (
        Choice::Boot(DAMAGED, 0, BootEnd::Damaged { place: 17 }, None, false),
        true,
    ),
    (
        Choice::Boot(DAMAGED, 0, BootEnd::Damaged { place: 18 }, None, false),
        false,
    ),
    // what is in doubt is settled
    (Choice::Boot(DOUBTED, 2, BootEnd::Up, None, true), false),
    (
        Choice::Boot(DOUBTED, 2, BootEnd::Up, Some(Pick::New), true),
        true,
    ),
    (Choice::Boot(CROWDED, 0, BootEnd::Full, None, false), true),
    (Choice::Boot(CROWDED, 1, BootEnd::Up, None, true), false),
    (
        Choice::Boot(LAST_SEQUENCE, 0, BootEnd::Full, None, false),
        true,
    ),
    (
        Choice::Boot(LAST_SEQUENCE, 2, BootEnd::Up, None, true),
        false,
    ),
    (
        Choice::Boot(LAST_SEQUENCE, 2, BootEnd::DiskFault, None, true),
        false,
    ),
    (
        Choice::Boot(LAST_SEQUENCE, 0, BootEnd::DiskFault, None, false),
        true,
    ),
];

#[test]
fn boots(rt: HostRuntime) {
    decide(&rt, BOOTS);
}

/// What is kept starts no Eject; with the change in doubt made it would.
const LATER: StartFacts = StartFacts {
    doubted: true,
    old: Found::Unreadable,
    new: Found::Starts,
};

/// Nothing is kept, and nothing in doubt.
const GONE: StartFacts = StartFacts {
    doubted: false,
    old: Found::Nothing,
    new: Found::Nothing,
};

const TURNS: &[(Choice, bool)] = &[
    (Choice::Store(Work::Syncs, RequestEnd::Part, None), true),
    (Choice::Store(Work::Syncs, RequestEnd::Done, None), false),
    (
        Choice::Store(Work::Reads, RequestEnd::Part, Some(Pick::Old)),
        true,
    ),
    (Choice::Store(Work::Reads, RequestEnd::Part, None), false),
    (Choice::Store(Work::Unkept, RequestEnd::Done, None), true),
    (Choice::Store(Work::Unkept, RequestEnd::Fault, None), false),
    (
        Choice::Store(Work::WithoutRoom, RequestEnd::Full, None),
        true,
    ),
    (Choice::Store(Work::Calls, RequestEnd::Full, None), false),
    // 2 * (1024 / 1024) + 4 calls
    (Choice::Own(RequestEnd::Done, 5, 1024), true),
    (Choice::Own(RequestEnd::Part, 5, 1024), false),
    (Choice::Own(RequestEnd::Done, 6, 1024), false),
    (Choice::Start(GONE, StartEnd::Gone, None), true),
    (Choice::Start(GONE, StartEnd::Fault, None), false),
    (Choice::Start(LATER, StartEnd::Ok, Some(Pick::New)), true),
    (Choice::Start(LATER, StartEnd::Ok, Some(Pick::Old)), false),
    (
        Choice::Start(LATER, StartEnd::Damaged, Some(Pick::Old)),
        true,
    ),
    (Choice::Start(LATER, StartEnd::Stop, None), true),
];

#[test]
fn turns(rt: HostRuntime) {
    decide(&rt, TURNS);
}

const CLOCKS: &[(Choice, bool)] = &[
    (Choice::Clock(true, None, 7), true),
    (Choice::Clock(true, Some(7), 7), true),
    (Choice::Clock(true, Some(7), 6), false),
    (Choice::Clock(false, Some(7), 7), false),
    (Choice::Clock(false, Some(7), 0), true),
    (Choice::StoreClock(true, Some(7), 8, 8), true),
    (Choice::StoreClock(true, Some(7), 7, 7), false),
    (Choice::StoreClock(true, Some(7), 7, 8), false),
    (Choice::StoreClock(false, Some(7), 7, 0), true),
    (
        Choice::StoreClock(true, Some(u64::MAX), u64::MAX, u64::MAX),
        true,
    ),
];

#[test]
fn clocks(rt: HostRuntime) {
    decide(&rt, CLOCKS);
}
