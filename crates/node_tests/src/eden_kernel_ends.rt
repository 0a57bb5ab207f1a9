//! Every end of a turn of the store, of an activation and of a boot, at each device call, and what the next boot finds.
ghost use Rattle.eden_kernel.specs.Stands.{held, IsWhole};

use crate::common::{assert_same, native_types, no_calls};
use crate::eden_kernel_acts::{
    Act, CELL, DAMAGED, Seen, TurnShown, found, run, run_on, seeded, shown, up,
};
use eden_disk::{Disk, ImageMode};
use eden_kernel::{Node, TurnEnd};
use history_tests::common::{Changed, Log, arm_of, blank};
use journal::{BootEnd, RequestEnd, StartEnd};
use passive_store::{LogStore, Pick, Store};
use std::alloc::Global;
use std::process::Abort;

/// A Cell of 5 is set to 9, and asks that this is kept.
const SAVING: &[Act] = &[
    Act::Ask(1, b"Set", Some(9)),
    Act::Deliver,
    Act::Activate,
    Act::Start,
    Act::Process,
    Act::Ask(1, b"Save", None),
    Act::Deliver,
    Act::Start,
    Act::Process,
];

/// What a boot picks, and the number of the Cell that it finds.
type Found = (Option<Pick>, Option<i64>);

/// What a save came to: what its last turn showed, whether a node that is up has more to keep, and what the next boot finds.
type Saved = (TurnShown, bool, Found);

/// A save with this trouble, and these turns of the store: what the last showed.
fn save<St: Store>(
    rt: &impl Abort,
    alloc: Global,
    node: &mut Node<St>,
    trouble: &[Act],
    turns: &[Act],
) -> TurnShown
    requires { IsWhole (held St.seen node.old) }
{
    let types = native_types(rt, alloc);
    let mut calls = no_calls(rt, alloc);
    run_on(rt, alloc, node, &types, &mut calls, SAVING);
    run_on(rt, alloc, node, &types, &mut calls, trouble);
    run(rt, alloc, node, &types, &mut calls, turns).expect(rt, "turns of the store")
}

/// A save with this trouble and these turns of the store, and a power cut, if the node is up then.
fn saved_on<St: Store + Drop>(
    rt: &impl Abort,
    alloc: Global,
    disk: St::Device,
    trouble: &[Act],
    turns: &[Act],
    mode: ImageMode,
) -> Saved
where
    St::Device: Drop,
{
    let disk = seeded::<St>(rt, alloc, disk, CELL);
    let (mut node, _, _) = up::<St>(rt, alloc, disk, None);
    let last = save(rt, alloc, &mut *node, trouble, turns);
    let is_up = last.1 == TurnEnd::Up;
    let pending = is_up && node.pending();
    let (disk, doubt) = if is_up {
        Box::into_inner(node).crash(mode)
    } else {
        Box::into_inner(node).close()
    };
    (last, pending, found::<St>(rt, alloc, disk, doubt))
}

/// The same on a blank disk.
fn saved(rt: &impl Abort, alloc: Global, trouble: &[Act], turns: &[Act], mode: ImageMode) -> Saved {
    let disk = blank(alloc).expect(rt, "memory");
    saved_on::<Log>(rt, alloc, disk, trouble, turns, mode)
}

const GARBLE: ImageMode = ImageMode::Garble { byte: 225 };

const OLD: Found = (Some(Pick::Old), Some(5));

const NEW: Found = (Some(Pick::New), Some(9));

const STOP: TurnShown = (Seen::Store(RequestEnd::Stop), TurnEnd::Down);

const PART: TurnShown = (Seen::Store(RequestEnd::Part), TurnEnd::Up);

const DONE: TurnShown = (Seen::Store(RequestEnd::Done), TurnEnd::Up);

const FAULT: TurnShown = (Seen::Store(RequestEnd::Fault), TurnEnd::Up);

const KEEP: ImageMode = ImageMode::Keep;

const LOSE: ImageMode = ImageMode::Lose;

const STORE: Act = Act::Store;

// A save makes four device calls: the record behind its closed gate, a sync, the open gate, a sync.
const SAVES: &[(&[Act], &[Act], ImageMode, Saved)] = &[
    // A stop in each.
    (&[Act::Stop(0, KEEP)], &[STORE; 5], KEEP, (STOP, false, OLD)),
    (&[Act::Stop(0, LOSE)], &[STORE; 5], LOSE, (STOP, false, OLD)),
    (
        &[Act::Stop(0, GARBLE)],
        &[STORE; 5],
        GARBLE,
        (STOP, false, OLD),
    ),
    (&[Act::Stop(1, KEEP)], &[STORE; 5], KEEP, (STOP, false, OLD)),
    (&[Act::Stop(1, LOSE)], &[STORE; 5], LOSE, (STOP, false, OLD)),
    (
        &[Act::Stop(1, GARBLE)],
        &[STORE; 5],
        GARBLE,
        (STOP, false, OLD),
    ),
    (&[Act::Stop(2, KEEP)], &[STORE; 5], KEEP, (STOP, false, NEW)),
    (&[Act::Stop(2, LOSE)], &[STORE; 5], LOSE, (STOP, false, OLD)),
    (
        &[Act::Stop(2, GARBLE)],
        &[STORE; 5],
        GARBLE,
        (STOP, false, NEW),
    ),
    (&[Act::Stop(3, KEEP)], &[STORE; 5], KEEP, (STOP, false, NEW)),
    (&[Act::Stop(3, LOSE)], &[STORE; 5], LOSE, (STOP, false, OLD)),
    (
        &[Act::Stop(3, GARBLE)],
        &[STORE; 5],
        GARBLE,
        (STOP, false, NEW),
    ),
    // A power cut behind each.
    (
        &[],
        &[],
        KEEP,
        ((Seen::Nothing, TurnEnd::Up), true, (None, Some(5))),
    ),
    (&[], &[STORE; 1], LOSE, (PART, true, OLD)),
    (&[], &[STORE; 2], GARBLE, (PART, true, OLD)),
    (&[], &[STORE; 3], KEEP, (PART, true, NEW)),
    (&[], &[STORE; 3], LOSE, (PART, true, OLD)),
    (&[], &[STORE; 4], LOSE, (DONE, false, (None, Some(9)))),
    // A fault in each: a write that fails writes the first half of its bytes, of a gate none.
    (&[Act::Fail(0)], &[STORE; 1], KEEP, (FAULT, false, OLD)),
    (&[Act::Fail(1)], &[STORE; 2], KEEP, (FAULT, false, OLD)),
    (&[Act::Fail(2)], &[STORE; 3], KEEP, (FAULT, false, OLD)),
    (&[Act::Fail(3)], &[STORE; 4], KEEP, (FAULT, false, NEW)),
];

#[test]
fn each_end_of_a_turn_of_the_store(rt: HostRuntime) {
    for &(trouble, turns, mode, wanted) in SAVES {
        let seen = saved(&rt, rt.alloc(), trouble, turns, mode);
        assert_same(&rt, &seen, &wanted, "a save");
    }
}

/// What is found of a Cell that is kept on a disk.
fn found_on<St: Store + Drop>(rt: &impl Abort, alloc: Global, disk: St::Device) -> Found
where
    St::Device: Drop,
{
    let disk = seeded::<St>(rt, alloc, disk, CELL);
    found::<St>(rt, alloc, disk, None)
}

/// The place of the number in the record of the Cell, which stands behind that of the epoch.
const NUMBER: u32 = 67;

/// What is found where a disk shows 6 in place of the number 5.
fn found_changed(rt: &impl Abort, alloc: Global) -> Found {
    let disk = blank(alloc).expect(rt, "memory");
    let disk = Changed {
        disk,
        place: NUMBER,
        byte: 6,
    };
    found_on::<LogStore<Changed>>(rt, alloc, disk)
}

// An Eject starts from what is read of its disk, and never from a copy.
#[test]
fn a_start_reads_the_disk(rt: HostRuntime) {
    assert_same(
        &rt,
        &found_changed(&rt, rt.alloc()),
        &(None, Some(6)),
        "a start",
    );
}

/// The Eject has a queued call.
const ASKED: &[Act] = &[Act::Ask(1, b"Get", None), Act::Deliver];

/// It has, behind a save that failed: a sync and a read of the settling come before the read of what is kept.
const UNSETTLED: &[Act] = &[
    Act::Ask(1, b"Set", Some(9)),
    Act::Deliver,
    Act::Activate,
    Act::Start,
    Act::Process,
    Act::Ask(1, b"Save", None),
    Act::Deliver,
    Act::Start,
    Act::Process,
    Act::Fail(0),
    Act::Store,
    Act::Process,
    Act::Ask(1, b"Sleep", None),
    Act::Deliver,
    Act::Start,
    Act::Process,
    Act::Ask(1, b"Get", None),
    Act::Deliver,
];

const WAKE: Act = Act::Activate;

const WOKEN: TurnShown = (Seen::Activation(StartEnd::Ok), TurnEnd::Up);

const UNREAD: TurnShown = (Seen::Activation(StartEnd::Fault), TurnEnd::Up);

const HALTED: TurnShown = (Seen::Activation(StartEnd::Stop), TurnEnd::Down);

const SPOILT: TurnShown = (Seen::Activation(StartEnd::Damaged), TurnEnd::Up);

const ACTIVATIONS: &[(&[u8], &[Act], &[Act], TurnShown)] = &[
    (CELL, ASKED, &[WAKE], WOKEN),
    (CELL, ASKED, &[Act::Fail(0), WAKE], UNREAD),
    (CELL, ASKED, &[Act::Stop(0, KEEP), WAKE], HALTED),
    (DAMAGED, ASKED, &[WAKE], SPOILT),
    (CELL, UNSETTLED, &[WAKE], WOKEN),
    (CELL, UNSETTLED, &[Act::Fail(0), WAKE], UNREAD),
    (CELL, UNSETTLED, &[Act::Fail(1), WAKE], UNREAD),
    (CELL, UNSETTLED, &[Act::Fail(2), WAKE], UNREAD),
    (CELL, UNSETTLED, &[Act::Stop(0, KEEP), WAKE], HALTED),
    (CELL, UNSETTLED, &[Act::Stop(1, KEEP), WAKE], HALTED),
    (CELL, UNSETTLED, &[Act::Stop(2, KEEP), WAKE], HALTED),
];

#[test]
fn each_end_of_an_activation(rt: HostRuntime) {
    for &(bytes, before, acts, wanted) in ACTIVATIONS {
        let seen = shown(&rt, rt.alloc(), bytes, before, acts);
        assert_same(&rt, &seen, &Some(wanted), "an activation");
    }
}

/// The device calls of a boot over a disk on which an epoch and a Cell are kept.
const BOOT: u8 = 10;

/// Those of a first boot, up to its end.
const FIRST_BOOT: u8 = 11;

/// How often the disk of a node failed. The node is let go of.
fn faults_of<St: Store + Drop>(node: Node<St>) -> u64
where
    St::Device: Drop,
{
    node.disk().faults()
}

/// How a boot ends whose disk fails, or stops in this mode, behind so many device calls; how often it failed; and the number of the
/// Cell, if one is kept, that the next boot finds where this one was cut.
fn boot_in_trouble_on<St: Store + Drop>(
    rt: &impl Abort,
    alloc: Global,
    mut disk: St::Device,
    is_kept: bool,
    stop: Option<ImageMode>,
    made: u8,
) -> (Option<BootEnd>, u64, Option<i64>)
where
    St::Device: Drop,
{
    if is_kept {
        disk = seeded::<St>(rt, alloc, disk, CELL);
    }
    disk.arm(arm_of(stop, u32::from(made) + 1));
    match Node::<St>::boot(alloc, disk, 1, None) {
        Ok((node, _)) => (Some(BootEnd::Up), faults_of(node), None),
        Err((disk, fall)) => {
            let faults = disk.faults();
            let number = if is_kept {
                found::<St>(rt, alloc, disk, fall.doubt).1
            } else {
                None
            };
            (fall.end, faults, number)
        }
    }
}

/// The same of a disk that is blank at first.
fn boot_in_trouble(
    rt: &impl Abort,
    alloc: Global,
    is_kept: bool,
    stop: Option<ImageMode>,
    made: u8,
) -> (Option<BootEnd>, u64, Option<i64>) {
    let disk = blank(alloc).expect(rt, "memory");
    boot_in_trouble_on::<Log>(rt, alloc, disk, is_kept, stop, made)
}

/// How a boot in trouble ends, how often its disk failed, and the number that the next one finds.
type Fall = (BootEnd, u64, Option<i64>);

// Whatever a stop in a boot leaves, the Eject is there at the next one.
const BOOTS: &[(bool, Option<ImageMode>, u8, Fall)] = &[
    (false, None, FIRST_BOOT, (BootEnd::DiskFault, 1, None)),
    (true, Some(KEEP), BOOT, (BootEnd::Stop, 0, Some(5))),
    (true, Some(LOSE), BOOT, (BootEnd::Stop, 0, Some(5))),
    (true, Some(GARBLE), BOOT, (BootEnd::Stop, 0, Some(5))),
];

/// How a boot is to end whose disk is in trouble behind so many device calls: cut as this says, or up where it makes no more calls.
fn end_behind(
    made: u8,
    calls: u8,
    (end, faults, number): Fall,
) -> (Option<BootEnd>, u64, Option<i64>) {
    if made < calls {
        (Some(end), faults, number)
    } else {
        (Some(BootEnd::Up), 0, None)
    }
}

#[test]
fn trouble_in_each_device_call_of_a_boot(rt: HostRuntime) {
    for &(is_kept, stop, calls, cut) in BOOTS {
        for made in 0..=calls {
            let seen = boot_in_trouble(&rt, rt.alloc(), is_kept, stop, made);
            assert_same(&rt, &seen, &end_behind(made, calls, cut), made);
        }
    }
}
