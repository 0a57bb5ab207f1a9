//! Calls of a store as the rows of a table, each with what it answers.
ghost use Rattle.std.specs.Prelude.{◌≡◌, IsTrue, OnOk};
ghost use Rattle.passive_store.specs.Kept.{Idle};

use crate::changes::{
    Asked, ask, change_by_steps, delete, fail_to_put, keeps, open, put, settle_all, settle_by_steps,
};
use crate::disks::{Bytes, blank_disk};
use capability::Uid;
use eden_disk::{Arm, Disk, SimDisk};
use passive_blocks::BlockStore;
use passive_store::{LogStore, Store, StoreRefusal};
use std::alloc::Global;
use std::process::Abort;

/// A call of a store.
#[derive(Clone, Copy)]
pub(crate) enum Call {
    Put(Uid, Bytes),
    Delete(Uid),
    /// One of the five changes, by its steps.
    ChangeBySteps(u32),
    /// A put whose first device call fails, all questions of another uid, and a settling.
    FailToPut(Uid, Bytes, Uid),
    /// The same, with a settling by its steps.
    FailAndStep(Uid, Bytes, Uid),
    /// Whether these bytes are read under a uid, or none.
    Get(Uid, Option<Bytes>),
    Settle,
    Holds(Uid),
    After(Option<Uid>),
    /// What no change is under way for, and what is in doubt.
    Idle,
    Room,
    Clock,
    /// All questions of a uid.
    Ask(Uid),
}

/// What it answers.
#[derive(Clone, Copy, PartialEq)]
pub(crate) enum Answer {
    Made,
    Is(bool),
    Named(Option<Uid>),
    Idle(Option<Uid>, Option<Uid>),
    Room(Option<u32>),
    Clock(u64),
    Asked(Asked),
    Refused(StoreRefusal),
}

/// Asks a store what it answers without a device call.
fn question<St: Store>(store: &St, call: Call) -> Answer {
    match call {
        Call::Holds(uid) => Answer::Is(store.holds(uid)),
        Call::After(uid) => Answer::Named(store.after(uid)),
        Call::Idle => Answer::Idle(store.working_on(), store.unsure()),
        Call::Room => Answer::Room(store.room()),
        Call::Clock => Answer::Clock(store.disk().clock()),
        Call::Ask(uid) => Answer::Asked(ask(store, uid)),
        _ => Answer::Made,
    }
}

/// Makes a put fail in its first device call, asks a uid then, and settles it.
fn fail_and_settle<St: Store>(
    rt: &impl Abort,
    alloc: Global,
    store: &mut St,
    change: (Uid, Bytes),
    asked: Uid,
    is_by_steps: bool,
) -> Answer
    requires power { IsTrue (St.seen store.old).disk.counts.power }
    requires idle { (St.seen store.old).work ≡ Idle }
    requires node { (St.seen store.old).node ≡ 1 }
    ensures power { IsTrue (St.seen store.new).disk.counts.power }
    ensures idle { (St.seen store.new).work ≡ Idle }
    ensures node { (St.seen store.new).node ≡ 1 }
{
    let (uid, bytes) = change;
    store.disk_mut_arm(Arm::Fail { after: 1 });
    fail_to_put(rt, alloc, store, uid, bytes);
    let answer = Answer::Asked(ask(store, asked));
    if is_by_steps {
        settle_by_steps(store).expect(rt, "the put is settled by steps");
    } else {
        settle_all(store).expect(rt, "the put is settled");
    }
    answer
}

/// Makes a change or a settling.
fn make_change<St: Store>(
    rt: &impl Abort,
    alloc: Global,
    store: &mut St,
    call: Call,
) -> Result<(), StoreRefusal>
    requires power { IsTrue (St.seen store.old).disk.counts.power }
    requires idle { (St.seen store.old).work ≡ Idle }
    requires node { (St.seen store.old).node ≡ 1 }
    ensures power { OnOk result (IsTrue (St.seen store.new).disk.counts.power) }
    ensures idle { OnOk result ((St.seen store.new).work ≡ Idle) }
    ensures node { OnOk result ((St.seen store.new).node ≡ 1) }
{
    match call {
        Call::Put(uid, bytes) => put(rt, alloc, store, uid, bytes),
        Call::Delete(uid) => delete(alloc, store, uid),
        Call::ChangeBySteps(number) => change_by_steps(rt, alloc, store, number),
        _ => settle_all(store),
    }
}

/// Reads under a uid, or makes a put that fails and settles it.
fn read_or_fail<St: Store>(rt: &impl Abort, alloc: Global, store: &mut St, call: Call) -> Answer
    requires power { IsTrue (St.seen store.old).disk.counts.power }
    requires idle { (St.seen store.old).work ≡ Idle }
    requires node { (St.seen store.old).node ≡ 1 }
    ensures power { IsTrue (St.seen store.new).disk.counts.power }
    ensures idle { (St.seen store.new).work ≡ Idle }
    ensures node { (St.seen store.new).node ≡ 1 }
{
    match call {
        Call::FailToPut(uid, bytes, asked) => {
            fail_and_settle(rt, alloc, store, (uid, bytes), asked, false)
        }
        Call::FailAndStep(uid, bytes, asked) => {
            fail_and_settle(rt, alloc, store, (uid, bytes), asked, true)
        }
        Call::Get(uid, bytes) => Answer::Is(keeps(rt, alloc, store, uid, bytes)),
        _ => Answer::Made,
    }
}

/// Makes a call, and tells what it answers.
fn make_call<St: Store>(
    rt: &impl Abort,
    alloc: Global,
    store: &mut St,
    call: Call,
) -> Result<Answer, StoreRefusal>
    requires power { IsTrue (St.seen store.old).disk.counts.power }
    requires idle { (St.seen store.old).work ≡ Idle }
    requires node { (St.seen store.old).node ≡ 1 }
    ensures power { OnOk result (IsTrue (St.seen store.new).disk.counts.power) }
    ensures idle { OnOk result ((St.seen store.new).work ≡ Idle) }
    ensures node { OnOk result ((St.seen store.new).node ≡ 1) }
{
    match call {
        Call::Put(..) | Call::Delete(_) | Call::ChangeBySteps(_) | Call::Settle => {
            make_change(rt, alloc, store, call)?;
            Ok(Answer::Made)
        }
        Call::FailToPut(..) | Call::FailAndStep(..) | Call::Get(..) => {
            Ok(read_or_fail(rt, alloc, store, call))
        }
        _ => Ok(question(store, call)),
    }
}

/// Asserts that a row of a table answers what stands beside it.
fn expect_answer(rt: &impl Abort, row: usize, answer: Answer, wanted: Answer) {
    assert!(rt; answer == wanted, "row {row}");
}

/// Makes the calls of a table, and asserts that each answers what stands beside it. A refusal is the last answer.
fn play<St: Store>(rt: &impl Abort, alloc: Global, store: &mut St, calls: &[(Call, Answer)])
    requires power { IsTrue (St.seen store.old).disk.counts.power }
    requires idle { (St.seen store.old).work ≡ Idle }
    requires node { (St.seen store.old).node ≡ 1 }
{
    for (row, &(call, wanted)) in calls.iter().enumerate() {
        match make_call(rt, alloc, store, call) {
            Ok(answer) => expect_answer(rt, row, answer, wanted),
            Err(refusal) => {
                expect_answer(rt, row, Answer::Refused(refusal), wanted);
                assert!(rt; row + 1 == calls.len(), "a refusal in row {row}");
                return;
            }
        }
    }
}

/// The same over a disk that is opened.
fn play_over<St: Store + Drop>(
    rt: &impl Abort,
    alloc: Global,
    disk: Box<St::Device>,
    calls: &[(Call, Answer)],
)
where
    St::Device: Drop,
    requires power { IsTrue (St.Device.counts disk.value).power }
{
    let opened = open::<St>(alloc, Box::into_inner(disk));
    let mut store = opened.ok().expect(rt, "the disk is opened");
    play(rt, alloc, &mut store, calls);
}

/// The same over a log on a blank disk of this size.
pub(crate) fn play_over_log(rt: &impl Abort, alloc: Global, size: u32, calls: &[(Call, Answer)]) {
    let disk = blank_disk(rt, alloc, size);
    play_over::<LogStore<SimDisk>>(rt, alloc, disk, calls);
}

/// The same over blocks on a blank disk of this size.
pub(crate) fn play_over_blocks(
    rt: &impl Abort,
    alloc: Global,
    size: u32,
    calls: &[(Call, Answer)],
) {
    let disk = blank_disk(rt, alloc, size);
    play_over::<BlockStore<SimDisk>>(rt, alloc, disk, calls);
}
