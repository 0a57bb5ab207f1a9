ghost use Rattle.std.specs.Prelude.{◌≡◌, ◌≤◌, IsTrue};
ghost use Rattle.passive_store.specs.Kept.{Idle};

use crate::calls::{Answer, Call, play_over_log};
use crate::changes::{
    Asked, COUNT, EPOCH, FIRST, SECOND, keeps_changes, make_changes, make_part, open,
};
use crate::disks::{Bytes, Harm, MODES, arm, blank_disk, counts, counts_behind, cut_power};
use eden_disk::{Disk, ImageMode, SimDisk};
use passive_blocks::BlockStore;
use passive_store::{
    LogStore, Pick, Store, StoreRefusal, images_are_told_by_marks, log_layout_is_a_layout,
    picks_are_told_by_marks,
};
use std::alloc::Global;
use std::process::Abort;

/// A layout, the size of a disk of it, and after how many device calls of it a blank one is opened, and each change made.
#[derive(Clone, Copy)]
struct Layout {
    is_log: bool,
    size: u32,
    opening: u32,
    ends: [u32; 5],
}

const LOG: Layout = Layout {
    is_log: true,
    size: 4096,
    opening: 7,
    ends: [11, 15, 19, 23, 27],
};

/// The least disk of blocks: 32 heads, and 30 blocks for data. The fourth change writes three blocks, and the last closes
/// the head before it.
const BLOCKS: Layout = Layout {
    is_log: false,
    size: 32_768,
    opening: 38,
    ends: [43, 48, 53, 60, 65],
};

/// How many changes so many device calls make.
fn acknowledged(layout: Layout, calls: u32) -> u32 {
    let [first, second, third, fourth, fifth] = layout.ends;
    if calls < first {
        0
    } else if calls < second {
        1
    } else if calls < third {
        2
    } else if calls < fourth {
        3
    } else if calls < fifth {
        4
    } else {
        5
    }
}

/// The device calls of an opening and of the first changes, so many.
fn calls_of(layout: Layout, made: u32) -> u32 {
    match made {
        0 => layout.opening,
        1 => layout.ends[0],
        2 => layout.ends[1],
        3 => layout.ends[2],
        4 => layout.ends[3],
        _ => layout.ends[4],
    }
}

/// Makes changes up to the first refusal, and some device calls of the next one. It answers how many were acknowledged.
fn make_all<St: Store>(
    rt: &impl Abort,
    alloc: Global,
    store: &mut St,
    count: u32,
    part: Option<u32>,
) -> u32
    requires power { IsTrue (St.seen store.old).disk.counts.power }
    requires idle { (St.seen store.old).work ≡ Idle }
    requires node { (St.seen store.old).node ≡ 1 }
{
    match (make_changes(rt, alloc, store, count), part) {
        (Err(made), _) => made,
        (Ok(()), None) => count,
        (Ok(()), Some(calls)) => {
            let _ = make_part(rt, alloc, store, count, calls);
            count
        }
    }
}

/// Opens a disk, makes changes up to the first refusal, and some device calls of the next one. It answers how many were
/// acknowledged.
fn run<St: Store>(
    rt: &impl Abort,
    alloc: Global,
    disk: Box<St::Device>,
    count: u32,
    part: Option<u32>,
) -> (Box<St::Device>, u32)
where
    St::Device: Drop,
    requires { IsTrue (St.Device.counts disk.value).power }
{
    let (disk, made) = match open::<St>(alloc, Box::into_inner(disk)) {
        Ok(mut store) => {
            let made = make_all(rt, alloc, &mut store, count, part);
            (store.close(), made)
        }
        Err((disk, _)) => (disk, 0),
    };
    (Box::new(alloc, disk).expect(rt, "memory"), made)
}

/// Runs a blank disk into a harm behind so many device calls.
fn run_into(
    rt: &impl Abort,
    alloc: Global,
    layout: Layout,
    harm: Harm,
    calls: u32,
    mode: ImageMode,
) -> (Box<SimDisk>, u32) {
    let mut disk = blank_disk(rt, alloc, layout.size);
    arm(&mut disk, harm, calls, mode);
    let (count, part) = match harm {
        Harm::Stop | Harm::Fail => (COUNT, None),
        Harm::Cut => {
            let count = acknowledged(layout, calls);
            (count, Some(calls.saturating_sub(calls_of(layout, count))))
        }
    };
    if layout.is_log {
        run::<LogStore<SimDisk>>(rt, alloc, disk, count, part)
    } else {
        run::<BlockStore<SimDisk>>(rt, alloc, disk, count, part)
    }
}

/// Whether a store has the acknowledged changes, with or without the next one.
fn keeps_either<St: Store>(rt: &impl Abort, alloc: Global, store: &mut St, made: u32) -> bool
    requires power { IsTrue (St.seen store.old).disk.counts.power }
    requires idle { (St.seen store.old).work ≡ Idle }
{
    keeps_changes(rt, alloc, store, made) || keeps_changes(rt, alloc, store, made.saturating_add(1))
}

/// Whether a disk is opened again and has the acknowledged changes, with or without the next one.
fn survives<St: Store + Drop>(
    rt: &impl Abort,
    alloc: Global,
    disk: Box<St::Device>,
    made: u32,
) -> bool
where
    St::Device: Drop,
    requires { IsTrue (St.Device.counts disk.value).power }
{
    match open::<St>(alloc, Box::into_inner(disk)) {
        Ok(mut store) => keeps_either(rt, alloc, &mut store, made),
        Err(_) => false,
    }
}

/// Whether a harm behind so many device calls loses no acknowledged change.
fn outlives(
    rt: &impl Abort,
    alloc: Global,
    layout: Layout,
    harm: Harm,
    calls: u32,
    mode: ImageMode,
) -> bool {
    let (mut disk, made) = run_into(rt, alloc, layout, harm, calls, mode);
    let done = match harm {
        Harm::Stop | Harm::Fail => calls.saturating_sub(1),
        Harm::Cut => calls,
    };
    let is_run = counts(&*disk) == counts_behind(harm, calls) && made == acknowledged(layout, done);
    cut_power(&mut disk, harm, mode);
    disk.restart();
    let is_kept = if layout.is_log {
        survives::<LogStore<SimDisk>>(rt, alloc, disk, made)
    } else {
        survives::<BlockStore<SimDisk>>(rt, alloc, disk, made)
    };
    is_run && is_kept
}

/// The harm behind so many device calls that loses a change, if one does. A cut counts once the disk is opened.
fn first_lost(
    rt: &impl Abort,
    alloc: Global,
    layout: Layout,
    calls: u32,
    mode: ImageMode,
) -> Option<&'static str> {
    if !outlives(rt, alloc, layout, Harm::Stop, calls, mode) {
        Some("stop")
    } else if !outlives(rt, alloc, layout, Harm::Fail, calls, mode) {
        Some("failure")
    } else if calls >= layout.opening && !outlives(rt, alloc, layout, Harm::Cut, calls, mode) {
        Some("cut")
    } else {
        None
    }
}

/// A stop and a failure in each device call, and a power cut between any two of them once the disk is opened.
fn outlives_all(rt: &impl Abort, alloc: Global, layout: Layout) {
    for calls in 1..=layout.ends[4] {
        for &mode in MODES {
            let lost = first_lost(rt, alloc, layout, calls, mode);
            assert!(rt; lost.is_none(), "{lost:?} {calls}");
        }
    }
}

#[test]
fn a_log_outlives_stops_failures_and_power_cuts(rt: HostRuntime) {
    outlives_all(&rt, rt.alloc(), LOG);
}

#[test]
fn blocks_outlive_stops_failures_and_power_cuts(rt: HostRuntime) {
    outlives_all(&rt, rt.alloc(), BLOCKS);
}

/// The longest body that finds room in a log of 4,096 bytes with the epoch.
const LONGEST: Bytes = (&[5], 4045);

const ROOM: &[(Call, Answer)] = &[
    (Call::Put(EPOCH, (&[0, 0, 0, 1], 1)), Answer::Made),
    (Call::Room, Answer::Room(Some(4045))),
    (
        Call::FailToPut(FIRST, LONGEST, FIRST),
        Answer::Asked(Asked {
            unsure: Some(FIRST),
            working_on: None,
            picked: None,
            mark: None,
            holds: false,
            after: None,
            room: Some(4045),
            clock: 12,
        }),
    ),
    (
        Call::Ask(FIRST),
        Answer::Asked(Asked {
            unsure: None,
            working_on: None,
            picked: Some(Pick::Old),
            mark: None,
            holds: false,
            after: None,
            room: Some(4045),
            clock: 14,
        }),
    ),
    (Call::Put(FIRST, LONGEST), Answer::Made),
    (Call::Get(FIRST, Some(LONGEST)), Answer::Is(true)),
    (Call::Room, Answer::Room(None)),
    (Call::Delete(FIRST), Answer::Refused(StoreRefusal::Full)),
];

/// All questions, with no change made, behind a put that failed, behind its settling, and behind a removal.
const QUESTIONS: &[(Call, Answer)] = &[
    (Call::Put(EPOCH, (&[0, 0, 0, 1], 1)), Answer::Made),
    (Call::Put(FIRST, (&[1, 2, 3], 1)), Answer::Made),
    (Call::Put(SECOND, (&[7], 1)), Answer::Made),
    (
        Call::Ask(FIRST),
        Answer::Asked(Asked {
            unsure: None,
            working_on: None,
            picked: None,
            mark: Some(35),
            holds: true,
            after: Some(SECOND),
            room: Some(4011),
            clock: 19,
        }),
    ),
    (
        Call::Ask(EPOCH),
        Answer::Asked(Asked {
            unsure: None,
            working_on: None,
            picked: None,
            mark: Some(16),
            holds: true,
            after: Some(FIRST),
            room: Some(4011),
            clock: 19,
        }),
    ),
    (
        Call::Ask(SECOND),
        Answer::Asked(Asked {
            unsure: None,
            working_on: None,
            picked: None,
            mark: Some(53),
            holds: true,
            after: None,
            room: Some(4011),
            clock: 19,
        }),
    ),
    (
        Call::FailAndStep(SECOND, (&[8, 8], 1), FIRST),
        Answer::Asked(Asked {
            unsure: Some(SECOND),
            working_on: None,
            picked: None,
            mark: Some(35),
            holds: true,
            after: Some(SECOND),
            room: Some(4011),
            clock: 20,
        }),
    ),
    (
        Call::Ask(FIRST),
        Answer::Asked(Asked {
            unsure: None,
            working_on: None,
            picked: Some(Pick::Old),
            mark: Some(35),
            holds: true,
            after: Some(SECOND),
            room: Some(4011),
            clock: 22,
        }),
    ),
    (Call::ChangeBySteps(4), Answer::Made),
    (
        Call::Ask(FIRST),
        Answer::Asked(Asked {
            unsure: None,
            working_on: None,
            picked: Some(Pick::Old),
            mark: Some(35),
            holds: true,
            after: None,
            room: Some(3996),
            clock: 26,
        }),
    ),
];

#[test]
fn what_a_log_answers(rt: HostRuntime) {
    for &calls in &[ROOM, QUESTIONS] {
        play_over_log(&rt, rt.alloc(), LOG.size, calls);
    }
}

#[test]
fn laws_are_there_to_be_called(_rt: HostRuntime) {
    picks_are_told_by_marks();
    log_layout_is_a_layout();
    images_are_told_by_marks();
}
