use crate::common::assert_same;
use crate::eden_kernel_acts::{Act, DAMAGED, Seen, TurnShown, seeded, shown, up};
use eden_disk::{Arm, Disk, ImageMode};
use eden_kernel::{Node, TurnEnd};
use eden_value::Status;
use history_tests::common::{Log, blank};
use journal::BootEnd;
use passive_store::{Doubt, Store};
use std::alloc::Global;
use std::process::Abort;

const ACCEPTED: Option<TurnShown> = Some((Seen::Request(None), TurnEnd::Up));

const GONE: Option<TurnShown> = Some((Seen::Request(Some(Status::Gone)), TurnEnd::Up));

const NONE: Option<TurnShown> = Some((Seen::Nothing, TurnEnd::Up));

/// An Eject of which something is kept is asked, and one of which nothing is.
const ASKED: &[Act] = &[Act::Ask(1, b"Get", None), Act::Ask(2, b"Get", None)];

const ROWS: &[(&[Act], &[Act], Option<TurnShown>)] = &[
    // Requests of passive and of absent Ejects.
    (ASKED, &[Act::Deliver; 1], ACCEPTED),
    (ASKED, &[Act::Deliver; 2], GONE),
    (ASKED, &[Act::Deliver; 3], NONE),
    // Turns of what is not there.
    (&[], &[Act::Start], None),
    (&[], &[Act::Activate], None),
    (&[], &[Act::Process], None),
    (&[], &[Act::Break], NONE),
];

#[test]
fn requests_and_turns_of_a_node_of_passive_ejects(rt: HostRuntime) {
    for &(before, acts, wanted) in ROWS {
        let seen = shown(&rt, rt.alloc(), DAMAGED, before, acts);
        assert_same(&rt, &seen, &wanted, "the acts");
    }
}

/// The epoch of the second boot of a disk.
fn second_epoch<St: Store + Drop>(rt: &impl Abort, alloc: Global, disk: St::Device) -> u32
where
    St::Device: Drop,
{
    let disk = seeded::<St>(rt, alloc, disk, DAMAGED);
    let (_, epoch, _) = up::<St>(rt, alloc, disk, None);
    epoch
}

/// That of a blank disk.
fn epoch_of_a_second_boot(rt: &impl Abort, alloc: Global) -> u32 {
    let disk = blank(alloc).expect(rt, "memory");
    second_epoch::<Log>(rt, alloc, disk)
}

#[test]
fn a_boot_begins_the_next_epoch(rt: HostRuntime) {
    assert_eq!(rt; epoch_of_a_second_boot(&rt, rt.alloc()), 2);
}

/// A node whose next device call is to fail, and a crash: its epoch, whether it had a doubt, whether its disk was called, and the
/// disk with what is in doubt.
fn crashed<St: Store + Drop>(
    rt: &impl Abort,
    alloc: Global,
    disk: St::Device,
) -> ((u32, bool, bool), St::Device, Option<Doubt>)
where
    St::Device: Drop,
{
    let (mut node, epoch, _) = up::<St>(rt, alloc, disk, None);
    let in_doubt = node.doubt().is_some();
    let clock = node.disk().clock();
    node.arm(Arm::Fail { after: 1 });
    let called = node.disk().clock() != clock;
    let (disk, doubt) = Box::into_inner(node).crash(ImageMode::Keep);
    ((epoch, in_doubt, called), disk, doubt)
}

/// How a boot ends that does not bring the node up, and the disk.
fn fallen<St: Store + Drop>(
    rt: &impl Abort,
    alloc: Global,
    disk: St::Device,
) -> (Option<BootEnd>, St::Device)
where
    St::Device: Drop,
{
    match Node::<St>::boot(alloc, disk, 1, None) {
        Ok((_, _)) => panic!(rt; "the node is up"),
        Err((disk, fall)) => (fall.end, disk),
    }
}

/// The epoch of the next boot, and what it leaves as it is closed: what is in doubt, and how often the disk failed.
fn closed<St: Store + Drop>(
    rt: &impl Abort,
    alloc: Global,
    disk: St::Device,
) -> (u32, Option<Doubt>, u64)
where
    St::Device: Drop,
{
    let (node, epoch, _) = up::<St>(rt, alloc, disk, None);
    let (disk, doubt) = Box::into_inner(node).close();
    (epoch, doubt, disk.faults())
}

/// What is seen of a crash and of two boots after it, and what is in doubt behind the first and the last.
#[derive(Debug, Drop, PartialEq)]
struct Crash {
    seen: (u32, bool, bool),
    doubt: Option<Doubt>,
    fallen: (Option<BootEnd>, u64),
    closed: (u32, Option<Doubt>, u64),
}

fn cut_on<St: Store + Drop>(rt: &impl Abort, alloc: Global, disk: St::Device) -> Crash
where
    St::Device: Drop,
{
    let (seen, disk, doubt) = crashed::<St>(rt, alloc, disk);
    let (end, disk) = fallen::<St>(rt, alloc, disk);
    let fallen = (end, disk.faults());
    let closed = closed::<St>(rt, alloc, disk);
    Crash {
        seen,
        doubt,
        fallen,
        closed,
    }
}

fn cut(rt: &impl Abort, alloc: Global) -> Crash {
    let disk = blank(alloc).expect(rt, "memory");
    cut_on::<Log>(rt, alloc, disk)
}

// What was armed falls due in the next boot.
#[test]
fn a_crash_and_a_boot_after_it(rt: HostRuntime) {
    let wanted = Crash {
        seen: (1, false, false),
        doubt: None,
        fallen: (Some(BootEnd::DiskFault), 1),
        closed: (2, None, 1),
    };
    assert_same(&rt, &cut(&rt, rt.alloc()), &wanted, "a crash");
}
