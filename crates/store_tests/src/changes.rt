//! Calls of a store under short contracts, of which the tests of stores are made.
ghost use Rattle.std.specs.Prelude.{◌≡◌, ◌≤◌, ◌<◌, ◌+◌, IsTrue, true, false, length, IfOk, OnOk, Option};
ghost use Rattle.passive_store.specs.Kept.{IsOwn, IsEject, Idle, is_busy, is_unsettled, is_synced, calls_left};

use crate::disks::{Bytes, are_bytes, make_bytes};
use capability::{Body, Uid};
use eden_disk::{Disk, SimDisk};
use passive_blocks::BlockStore;
use passive_store::{Pick, Progress, Store, StoreRefusal, finish, settle_whole};
use std::alloc::Global;
use std::process::Abort;

pub(crate) const EPOCH: Uid = Uid {
    node: 1,
    epoch: 0,
    serial: 0,
};

pub(crate) const FIRST: Uid = Uid {
    node: 1,
    epoch: 1,
    serial: 1,
};

pub(crate) const SECOND: Uid = Uid {
    node: 1,
    epoch: 1,
    serial: 2,
};

pub(crate) const THIRD: Uid = Uid {
    node: 1,
    epoch: 1,
    serial: 3,
};

/// How a call is refused that no store may be asked.
const WRONG_CALL: StoreRefusal = StoreRefusal::Damaged { place: 0 };

/// The epoch, three puts and a removal: a uid, and what is put under it.
const CHANGES: &[(Uid, Option<Bytes>)] = &[
    (EPOCH, Some((&[0, 0, 0, 1], 1))),
    (FIRST, Some((&[1, 2, 3], 1))),
    (SECOND, Some((&[7], 1))),
    (FIRST, Some((&[9], 3000))),
    (SECOND, None),
];

/// How many changes there are.
pub(crate) const COUNT: u32 = 5;

/// One of the five changes, or the last one.
fn change_of(number: u32) -> (Uid, Option<Bytes>) {
    CHANGES[number.min(COUNT - 1) as usize]
}

/// What is kept behind no change, behind the first one, and so on.
const KEPT: &[&[(Uid, Option<Bytes>)]] = &[
    &[(EPOCH, None), (FIRST, None), (SECOND, None)],
    &[
        (EPOCH, Some((&[0, 0, 0, 1], 1))),
        (FIRST, None),
        (SECOND, None),
    ],
    &[
        (EPOCH, Some((&[0, 0, 0, 1], 1))),
        (FIRST, Some((&[1, 2, 3], 1))),
        (SECOND, None),
    ],
    &[
        (EPOCH, Some((&[0, 0, 0, 1], 1))),
        (FIRST, Some((&[1, 2, 3], 1))),
        (SECOND, Some((&[7], 1))),
    ],
    &[
        (EPOCH, Some((&[0, 0, 0, 1], 1))),
        (FIRST, Some((&[9], 3000))),
        (SECOND, Some((&[7], 1))),
    ],
    &[
        (EPOCH, Some((&[0, 0, 0, 1], 1))),
        (FIRST, Some((&[9], 3000))),
        (SECOND, None),
    ],
];

/// Whether so many bytes may be kept under a uid of node 1.
fn may_keep(uid: Uid, count: usize) -> bool
    ensures own { IsTrue result → IsOwn 1 uid count }
    ensures limit { IsTrue result → count ≤ 262144 }
{
    if uid.node != 1 || count > 262_144 {
        return false;
    }
    if uid.epoch == 0 {
        return uid.serial == 0 && count == 4;
    }
    uid.serial != 0
}

/// Makes bytes that may be kept under a uid of node 1.
fn make_body(rt: &impl Abort, alloc: Global, uid: Uid, bytes: Bytes) -> Vec<u8>
    ensures own { IsOwn 1 uid (length result.items) }
    ensures limit { length result.items ≤ 262144 }
{
    let body = make_bytes(rt, alloc, bytes);
    assert!(rt; may_keep(uid, body.len()));
    body
}

/// Whether a uid is that of an Eject of node 1.
fn is_eject(uid: Uid) -> bool
    ensures { IsTrue result → IsEject 1 uid }
{
    uid.node == 1 && uid.epoch != 0 && uid.serial != 0
}

/// Opens a disk of node 1, and hands it back where it is refused.
pub(crate) fn open<St: Store>(
    alloc: Global,
    disk: St::Device,
) -> Result<St, (St::Device, StoreRefusal)>
    requires power { IsTrue (St.Device.counts disk).power }
    ensures power { IfOk result (λ s. IsTrue (St.seen s).disk.counts.power) }
    ensures idle { IfOk result (λ s. (St.seen s).work ≡ Idle) }
    ensures node { IfOk result (λ s. (St.seen s).node ≡ 1) }
{
    St::open_disk(alloc, disk, 1)
}

/// Opens a disk of node 1 and closes it, and answers it with its refusal.
fn refusal_of<St: Store>(
    rt: &impl Abort,
    alloc: Global,
    disk: Box<St::Device>,
) -> (Box<St::Device>, Option<StoreRefusal>)
where
    St::Device: Drop,
    requires power { IsTrue (St.Device.counts disk.value).power }
{
    let (disk, refusal) = match open::<St>(alloc, Box::into_inner(disk)) {
        Ok(store) => (store.close(), None),
        Err((disk, refusal)) => (disk, Some(refusal)),
    };
    (Box::new(alloc, disk).expect(rt, "memory"), refusal)
}

/// The same of a disk of blocks.
pub(crate) fn refusal_of_blocks(
    rt: &impl Abort,
    alloc: Global,
    disk: Box<SimDisk>,
) -> (Box<SimDisk>, Option<StoreRefusal>)
    requires power { IsTrue disk.value.counts.power }
{
    refusal_of::<BlockStore<SimDisk>>(rt, alloc, disk)
}

/// Puts bytes under a uid.
pub(crate) fn put<St: Store>(
    rt: &impl Abort,
    alloc: Global,
    store: &mut St,
    uid: Uid,
    bytes: Bytes,
) -> Result<(), StoreRefusal>
    requires power { IsTrue (St.seen store.old).disk.counts.power }
    requires idle { (St.seen store.old).work ≡ Idle }
    requires node { (St.seen store.old).node ≡ 1 }
    ensures power { OnOk result (IsTrue (St.seen store.new).disk.counts.power) }
    ensures idle { OnOk result ((St.seen store.new).work ≡ Idle) }
    ensures node { (St.seen store.new).node ≡ 1 }
{
    let body = make_body(rt, alloc, uid, bytes);
    store.put(alloc, uid, &body)
}

/// Removes what is kept under a uid.
pub(crate) fn delete<St: Store>(alloc: Global, store: &mut St, uid: Uid) -> Result<(), StoreRefusal>
    requires power { IsTrue (St.seen store.old).disk.counts.power }
    requires idle { (St.seen store.old).work ≡ Idle }
    requires node { (St.seen store.old).node ≡ 1 }
    ensures power { OnOk result (IsTrue (St.seen store.new).disk.counts.power) }
    ensures idle { OnOk result ((St.seen store.new).work ≡ Idle) }
    ensures node { (St.seen store.new).node ≡ 1 }
{
    if !is_eject(uid) {
        return Err(WRONG_CALL);
    }
    store.delete(alloc, uid)
}

/// Makes one of the five changes.
pub(crate) fn change<St: Store>(
    rt: &impl Abort,
    alloc: Global,
    store: &mut St,
    number: u32,
) -> Result<(), StoreRefusal>
    requires power { IsTrue (St.seen store.old).disk.counts.power }
    requires idle { (St.seen store.old).work ≡ Idle }
    requires node { (St.seen store.old).node ≡ 1 }
    ensures power { OnOk result (IsTrue (St.seen store.new).disk.counts.power) }
    ensures idle { OnOk result ((St.seen store.new).work ≡ Idle) }
    ensures node { OnOk result ((St.seen store.new).node ≡ 1) }
{
    match change_of(number) {
        (uid, Some(bytes)) => { put(rt, alloc, store, uid, bytes) }
        (uid, None) => delete(alloc, store, uid),
    }
}

/// Makes the first changes, so many. Where one is refused it answers how many were acknowledged.
pub(crate) fn make_changes<St: Store>(
    rt: &impl Abort,
    alloc: Global,
    store: &mut St,
    count: u32,
) -> Result<(), u32>
    requires power { IsTrue (St.seen store.old).disk.counts.power }
    requires idle { (St.seen store.old).work ≡ Idle }
    requires node { (St.seen store.old).node ≡ 1 }
    ensures power { OnOk result (IsTrue (St.seen store.new).disk.counts.power) }
    ensures idle { OnOk result ((St.seen store.new).work ≡ Idle) }
    ensures node { OnOk result ((St.seen store.new).node ≡ 1) }
{
    for number in 0..count {
        match change(rt, alloc, store, number) {
            Ok(()) => {}
            Err(_) => return Err(number),
        }
    }
    Ok(())
}

/// Begins the job of a put.
fn begin_put<St: Store>(
    rt: &impl Abort,
    alloc: Global,
    store: &mut St,
    uid: Uid,
    bytes: Bytes,
) -> Result<(), StoreRefusal>
    requires idle { (St.seen store.old).work ≡ Idle }
    requires node { (St.seen store.old).node ≡ 1 }
    ensures busy { OnOk result (IsTrue (is_busy (St.seen store.new).work)) }
    ensures calls { OnOk result (1 ≤ calls_left (St.seen store.new).work) }
    ensures disk { (St.seen store.new).disk ≡ (St.seen store.old).disk }
    ensures node { (St.seen store.new).node ≡ 1 }
{
    let body = make_body(rt, alloc, uid, bytes);
    store.begin_put(alloc, uid, &body)
}

/// Begins the job of a removal.
fn begin_delete<St: Store>(alloc: Global, store: &mut St, uid: Uid) -> Result<(), StoreRefusal>
    requires idle { (St.seen store.old).work ≡ Idle }
    requires node { (St.seen store.old).node ≡ 1 }
    ensures busy { OnOk result (IsTrue (is_busy (St.seen store.new).work)) }
    ensures calls { OnOk result (1 ≤ calls_left (St.seen store.new).work) }
    ensures disk { (St.seen store.new).disk ≡ (St.seen store.old).disk }
    ensures node { (St.seen store.new).node ≡ 1 }
{
    if !is_eject(uid) || !store.holds(uid) {
        return Err(WRONG_CALL);
    }
    store.begin_delete(alloc, uid)
}

/// Begins the job of one of the five changes.
fn begin<St: Store>(
    rt: &impl Abort,
    alloc: Global,
    store: &mut St,
    number: u32,
) -> Result<(), StoreRefusal>
    requires power { IsTrue (St.seen store.old).disk.counts.power }
    requires idle { (St.seen store.old).work ≡ Idle }
    requires node { (St.seen store.old).node ≡ 1 }
    ensures power { IsTrue (St.seen store.new).disk.counts.power }
    ensures busy { OnOk result (IsTrue (is_busy (St.seen store.new).work)) }
    ensures calls { OnOk result (1 ≤ calls_left (St.seen store.new).work) }
    ensures node { (St.seen store.new).node ≡ 1 }
{
    match change_of(number) {
        (uid, Some(bytes)) => { begin_put(rt, alloc, store, uid, bytes) }
        (uid, None) => begin_delete(alloc, store, uid),
    }
}

/// Makes some device calls of a change, one by one.
pub(crate) fn make_part<St: Store>(
    rt: &impl Abort,
    alloc: Global,
    store: &mut St,
    number: u32,
    calls: u32,
) -> Result<(), StoreRefusal>
    requires power { IsTrue (St.seen store.old).disk.counts.power }
    requires idle { (St.seen store.old).work ≡ Idle }
    requires node { (St.seen store.old).node ≡ 1 }
{
    begin(rt, alloc, store, number)?;
    for _ in 0..calls {
        if let Progress::Done = store.advance()? {
            return Ok(());
        }
    }
    Ok(())
}

/// Makes the device calls of a job up to its end.
fn finish_job<St: Store>(store: &mut St) -> Result<(), StoreRefusal>
    requires power { IsTrue (St.seen store.old).disk.counts.power }
    requires busy { IsTrue (is_busy (St.seen store.old).work) }
    requires calls { 1 ≤ calls_left (St.seen store.old).work }
    ensures power { OnOk result (IsTrue (St.seen store.new).disk.counts.power) }
    ensures idle { OnOk result ((St.seen store.new).work ≡ Idle) }
    ensures node { (St.seen store.new).node ≡ (St.seen store.old).node }
{
    finish(store)?;
    Ok(())
}

/// Makes a change by its steps.
pub(crate) fn change_by_steps<St: Store>(
    rt: &impl Abort,
    alloc: Global,
    store: &mut St,
    number: u32,
) -> Result<(), StoreRefusal>
    requires power { IsTrue (St.seen store.old).disk.counts.power }
    requires idle { (St.seen store.old).work ≡ Idle }
    requires node { (St.seen store.old).node ≡ 1 }
    ensures power { OnOk result (IsTrue (St.seen store.new).disk.counts.power) }
    ensures idle { OnOk result ((St.seen store.new).work ≡ Idle) }
    ensures node { OnOk result ((St.seen store.new).node ≡ 1) }
{
    begin(rt, alloc, store, number)?;
    finish_job(store)
}

/// Whether a body is there, and is this one; or whether none is.
fn is_body(found: &Option<Body>, bytes: Option<Bytes>) -> bool {
    match (found, bytes) {
        (Some(body), Some(bytes)) => are_bytes(body.as_slice(), bytes),
        (None, None) => true,
        _ => false,
    }
}

/// Whether a store keeps these bytes under a uid, or none.
pub(crate) fn keeps<St: Store>(
    rt: &impl Abort,
    alloc: Global,
    store: &mut St,
    uid: Uid,
    bytes: Option<Bytes>,
) -> bool
    requires power { IsTrue (St.seen store.old).disk.counts.power }
    requires idle { (St.seen store.old).work ≡ Idle }
    ensures power { IsTrue (St.seen store.new).disk.counts.power }
    ensures idle { (St.seen store.new).work ≡ Idle }
    ensures node { (St.seen store.new).node ≡ (St.seen store.old).node }
{
    let found = store.get(alloc, uid).expect(rt, "the bytes are read");
    is_body(&found, bytes)
}

/// Whether a store keeps all of this.
pub(crate) fn keeps_all<St: Store>(
    rt: &impl Abort,
    alloc: Global,
    store: &mut St,
    all: &[(Uid, Option<Bytes>)],
) -> bool
    requires power { IsTrue (St.seen store.old).disk.counts.power }
    requires idle { (St.seen store.old).work ≡ Idle }
    ensures power { IsTrue (St.seen store.new).disk.counts.power }
    ensures idle { (St.seen store.new).work ≡ Idle }
{
    for &(uid, bytes) in all {
        if !keeps(rt, alloc, store, uid, bytes) {
            return false;
        }
    }
    true
}

/// Whether a store keeps what so many changes leave.
pub(crate) fn keeps_changes<St: Store>(
    rt: &impl Abort,
    alloc: Global,
    store: &mut St,
    made: u32,
) -> bool
    requires power { IsTrue (St.seen store.old).disk.counts.power }
    requires idle { (St.seen store.old).work ≡ Idle }
    ensures power { IsTrue (St.seen store.new).disk.counts.power }
    ensures idle { (St.seen store.new).work ≡ Idle }
{
    keeps_all(rt, alloc, store, KEPT[made.min(COUNT) as usize])
}

/// Opens a disk and answers it, and whether it keeps all of this.
pub(crate) fn look<St: Store>(
    rt: &impl Abort,
    alloc: Global,
    disk: Box<St::Device>,
    all: &[(Uid, Option<Bytes>)],
) -> (Box<St::Device>, bool)
where
    St::Device: Drop,
    requires { IsTrue (St.Device.counts disk.value).power }
{
    let (disk, is_kept) = match open::<St>(alloc, Box::into_inner(disk)) {
        Err((disk, _)) => (disk, false),
        Ok(mut store) => {
            let is_kept = keeps_all(rt, alloc, &mut store, all);
            (store.close(), is_kept)
        }
    };
    (Box::new(alloc, disk).expect(rt, "memory"), is_kept)
}

/// A put that is to fail.
pub(crate) fn fail_to_put<St: Store>(
    rt: &impl Abort,
    alloc: Global,
    store: &mut St,
    uid: Uid,
    bytes: Bytes,
)
    requires power { IsTrue (St.seen store.old).disk.counts.power }
    requires idle { (St.seen store.old).work ≡ Idle }
    requires node { (St.seen store.old).node ≡ 1 }
    ensures power { IsTrue (St.seen store.new).disk.counts.power }
    ensures idle { is_busy (St.seen store.new).work ≡ false }
    ensures unsettled { IsTrue (is_unsettled (St.seen store.new).work) }
    ensures unsynced { is_synced (St.seen store.new).work ≡ false }
    ensures node { (St.seen store.new).node ≡ 1 }
{
    let body = make_body(rt, alloc, uid, bytes);
    match store.put(alloc, uid, &body) {
        Err(StoreRefusal::Failed) => {}
        _ => panic!(rt; "the put does not fail"),
    }
}

/// Settles a store on which no job goes on.
pub(crate) fn settle_all<St: Store>(store: &mut St) -> Result<(), StoreRefusal>
    requires power { IsTrue (St.seen store.old).disk.counts.power }
    requires idle { is_busy (St.seen store.old).work ≡ false }
    ensures power { OnOk result (IsTrue (St.seen store.new).disk.counts.power) }
    ensures idle { OnOk result ((St.seen store.new).work ≡ Idle) }
    ensures node { (St.seen store.new).node ≡ (St.seen store.old).node }
{
    store.settle()?;
    Ok(())
}

/// Settles a store by its steps.
pub(crate) fn settle_by_steps<St: Store>(store: &mut St) -> Result<(), StoreRefusal>
    requires power { IsTrue (St.seen store.old).disk.counts.power }
    requires idle { is_busy (St.seen store.old).work ≡ false }
    requires unsettled { IsTrue (is_unsettled (St.seen store.old).work) }
    requires unsynced { is_synced (St.seen store.old).work ≡ false }
    ensures power { OnOk result (IsTrue (St.seen store.new).disk.counts.power) }
    ensures idle { OnOk result ((St.seen store.new).work ≡ Idle) }
    ensures node { (St.seen store.new).node ≡ (St.seen store.old).node }
{
    settle_whole(store)?;
    Ok(())
}

/// What a store answers without a device call.
#[derive(Clone, Copy, PartialEq)]
pub(crate) struct Asked {
    pub(crate) unsure: Option<Uid>,
    pub(crate) working_on: Option<Uid>,
    pub(crate) picked: Option<Pick>,
    pub(crate) mark: Option<u64>,
    pub(crate) holds: bool,
    pub(crate) after: Option<Uid>,
    pub(crate) room: Option<u32>,
    pub(crate) clock: u64,
}

/// Asks a store of a uid.
pub(crate) fn ask<St: Store>(store: &St, uid: Uid) -> Asked {
    Asked {
        unsure: store.unsure(),
        working_on: store.working_on(),
        picked: store.picked(),
        mark: store.mark(uid),
        holds: store.holds(uid),
        after: store.after(Some(uid)),
        room: store.room(),
        clock: store.disk().clock(),
    }
}
