//! One of the two disks of a twin.
ghost use Rattle.std.specs.Prelude.{◌≡◌, ◌≤◌, ◌<◌, Option, Bool, IsTrue, is_some, IfSome, IfOk, IfErr, length};
ghost use Rattle.twin_store.specs.Ranks.{rank_of, IsLater};
ghost use Rattle.std.specs.FinMap as map;
ghost use Rattle.eden_disk.specs.Calls.{calls_until};
ghost use Rattle.passive_store.specs.Kept.{IsOwn, IsEject, IsNextKept};
ghost use Rattle.passive_store.specs.Seen.{asked, disk_seen};
ghost use Rattle.twin_store.specs.Serving.{IfFound, IsPassedOn, stops_at};
ghost use Rattle.twin_store.specs.Footings.{Footing, IsFooted};
ghost use Rattle.twin_store.specs.Sides.{side_seen, is_in_use, disk_of, bodies_on, IsSideReady, SideServes, IsOpenedSide, IsNextOn};
ghost use Rattle.twin_store.specs.Sides.{SideArms, IsShortOn, HasRoomOn};

use crate::served::{TwinRefusal, delete_in, get_in, put_in};
use capability::{Body, Uid};
use eden_disk::{Arm, Disk};
use passive_store::{Store, StoreRefusal};
use std::alloc::Global;

/// One of the two disks: with a store, which is in use or has left use; or one that could not be opened.
#[derive(Drop)]
pub enum Side<St: Store> {
    /// It was opened.
    Opened { store: St, used: bool },
    /// It failed as it was opened, or its image has no map.
    Shut { disk: St::Device },
}

// The place of a uid among those of its node.
fn rank(uid: Uid) -> u64
    ensures place { result ≡ rank_of uid }
    ensures small { uid.serial ≤ 4294967295 }
    ensures fits { rank_of uid < 18446744073709551616 }
{
    u64::from(uid.epoch) * 4_294_967_296 + u64::from(uid.serial)
}

// The next uid of an Eject behind this one, or the first, of which something is kept.
fn next_kept<St: Store>(store: &St, from: Option<Uid>) -> Option<Uid>
    requires own { IfSome from (IsEject (St.seen store.now).node) }
    ensures next { IsTrue St.Device.tells → IsNextKept (St.seen store.now).node (St.seen store.now).kept from result }
    ensures later { IfSome result (IsLater from) }
    ensures own { IfSome result (IsEject (St.seen store.now).node) }
    ensures fits { IfSome result (λ uid. rank_of uid < 18446744073709551616) }
{
    let next = store.after(from)?;
    let place = rank(next);
    match from {
        Some(uid) if rank(uid) >= place => None,
        _ => Some(next),
    }
}

impl<St: Store> Side<St> {
    /// Opens a disk. One that fails, or whose image has no map, is out of use.
    pub(crate) fn open(
        alloc: Global,
        disk: St::Device,
        node: u8,
    ) -> Result<Side<St>, (St::Device, TwinRefusal)>
        requires power { IsTrue (St.Device.counts disk).power }
        requires node { (1 ≤ node) × (node ≤ 8) }
        ensures opened { let look = disk_seen St.Device.counts St.Device.told St.Device.due in
            IfOk result (λ side. IsOpenedSide St.Device.tells St.layout node (look disk) (side_seen St.seen look side)) }
        ensures refused { IfErr result (λ r. IsPassedOn r.1) }
        ensures same { let look = disk_seen St.Device.counts St.Device.told St.Device.due in
            IfErr result (λ r. (look r.0).counts.faults ≡ (look disk).counts.faults) }
        ensures stops { let look = disk_seen St.Device.counts St.Device.told St.Device.due in
            IfErr result (λ r. (look r.0).counts.stops ≡ stops_at r.1 (look disk).counts.stops) }
        ensures stands { let look = disk_seen St.Device.counts St.Device.told St.Device.due in
            IsTrue St.Device.tells → IfErr result (λ r. (footing : Footing)
            → IsFooted St.layout node footing (look disk).told → IsFooted St.layout node footing (look r.0).told) }
    {
        // What a read sees is an image that a crash may leave: so says the size.
        let _ = disk.size();
        match St::open_disk(alloc, disk, node) {
            Ok(store) => Ok(Side::Opened { store, used: true }),
            Err((disk, refusal)) => match refusal {
                StoreRefusal::Failed => Ok(Side::Shut { disk }),
                StoreRefusal::Damaged { .. } => Ok(Side::Shut { disk }),
                StoreRefusal::Stopped => Err((disk, TwinRefusal::Stopped)),
                StoreRefusal::Full => Err((disk, TwinRefusal::Full)),
                StoreRefusal::OutOfMemory => Err((disk, TwinRefusal::OutOfMemory)),
            },
        }
    }

    /// Whether it is in use.
    pub(crate) fn in_use(&self) -> bool
        ensures { result ≡ is_in_use (side_seen St.seen (disk_seen St.Device.counts St.Device.told St.Device.due) self.now) }
    {
        match self {
            Side::Opened { used, .. } => *used,
            Side::Shut { .. } => false,
        }
    }

    /// The next uid of an Eject behind this one, or the first, of which something is kept on a disk in use.
    pub(crate) fn next(&self, from: Option<Uid>, node: u8) -> Option<Uid>
        requires ready { IsSideReady node (side_seen St.seen (disk_seen St.Device.counts St.Device.told St.Device.due) self.now) }
        requires own { IfSome from (IsEject node) }
        ensures next { let side = side_seen St.seen (disk_seen St.Device.counts St.Device.told St.Device.due) self.now in
            IsTrue St.Device.tells → is_in_use side ≡ Bool.true → IsNextOn node side from result }
        ensures later { IfSome result (IsLater from) }
        ensures own { IfSome result (IsEject node) }
        ensures fits { IfSome result (λ uid. rank_of uid < 18446744073709551616) }
    {
        match self {
            Side::Opened { store, used } if *used => next_kept(store, from),
            _ => None,
        }
    }

    /// Whether something is kept under a uid on a disk in use.
    pub(crate) fn holds(&self, uid: Uid) -> bool
        ensures { let side = side_seen St.seen (disk_seen St.Device.counts St.Device.told St.Device.due) self.now in
            IsTrue St.Device.tells → is_in_use side ≡ Bool.true → result ≡ is_some (map.get (bodies_on side) uid) }
    {
        match self {
            Side::Opened { store, used } if *used => store.holds(uid),
            _ => false,
        }
    }

    /// Gives the disk back.
    pub(crate) fn close(self) -> St::Device
        ensures { let look = disk_seen St.Device.counts St.Device.told St.Device.due in
            look result ≡ disk_of (side_seen St.seen look self) }
    {
        match self {
            Side::Opened { store, used: _ } => store.close(),
            Side::Shut { disk } => disk,
        }
    }

    /// Hands a request for a failure or a stop to the disk, in use or not.
    pub(crate) fn arm(&mut self, what: Arm)
        requires { 1 ≤ calls_until what }
        ensures { let of = side_seen St.seen (disk_seen St.Device.counts St.Device.told St.Device.due) in
            SideArms St.Device.tells St.Device.obeys what (of self.old) (of self.new) }
    {
        match self {
            Side::Opened { store, .. } => store.disk_mut_arm(what),
            Side::Shut { disk } => disk.arm(what),
        }
    }

    /// How many device calls of the disk failed.
    pub(crate) fn faults(&self) -> u64
        ensures { let look = disk_seen St.Device.counts St.Device.told St.Device.due in
            result ≡ (disk_of (side_seen St.seen look self.now)).counts.faults }
    {
        match self {
            Side::Opened { store, .. } => store.disk().faults(),
            Side::Shut { disk } => disk.faults(),
        }
    }

    /// Whether a body of this length has room, on a disk in use.
    pub(crate) fn has_room(&self, length: usize) -> bool
        ensures no { result ≡ Bool.false → IsShortOn St.Device.tells St.layout length
            (side_seen St.seen (disk_seen St.Device.counts St.Device.told St.Device.due) self.now) }
        ensures yes { result ≡ Bool.true → HasRoomOn St.Device.tells St.layout length
            (side_seen St.seen (disk_seen St.Device.counts St.Device.told St.Device.due) self.now) }
    {
        match self {
            Side::Opened { store, used: true } => match store.room() {
                Some(room) => length <= room as usize,
                None => false,
            },
            _ => true,
        }
    }

    /// Puts bytes, where it is in use. None where it is not, or where the disk fails, so that it leaves use.
    pub(crate) fn put(
        &mut self,
        alloc: Global,
        node: u8,
        uid: Uid,
        body: &[u8],
    ) -> Result<Option<()>, TwinRefusal>
        requires ready { IsSideReady node (side_seen St.seen (disk_seen St.Device.counts St.Device.told St.Device.due) self.old) }
        requires own { IsOwn node uid (length body.now) }
        requires limit { length body.now ≤ 262144 }
        ensures { let of = side_seen St.seen (disk_seen St.Device.counts St.Device.told St.Device.due) in
            SideServes St.Device.tells St.layout node (Option.Some (asked uid (Option.Some body.now))) result (of self.old) (of self.new) }
    {
        match self {
            Side::Opened { store, used } if *used => {
                let done = put_in(alloc, store, node, uid, body)?;
                *used = done.is_some();
                Ok(done)
            }
            _ => Ok(None),
        }
    }

    /// Removes what is kept under a uid, likewise.
    pub(crate) fn delete(
        &mut self,
        alloc: Global,
        node: u8,
        uid: Uid,
    ) -> Result<Option<()>, TwinRefusal>
        requires ready { IsSideReady node (side_seen St.seen (disk_seen St.Device.counts St.Device.told St.Device.due) self.old) }
        requires own { IsEject node uid }
        ensures { let of = side_seen St.seen (disk_seen St.Device.counts St.Device.told St.Device.due) in
            SideServes St.Device.tells St.layout node (Option.Some (asked uid Option.None)) result (of self.old) (of self.new) }
    {
        match self {
            Side::Opened { store, used } if *used => {
                let done = delete_in(alloc, store, node, uid)?;
                *used = done.is_some();
                Ok(done)
            }
            _ => Ok(None),
        }
    }

    /// What is kept under a uid, likewise.
    pub(crate) fn get(
        &mut self,
        alloc: Global,
        node: u8,
        uid: Uid,
    ) -> Result<Option<Option<Body>>, TwinRefusal>
        requires ready { IsSideReady node (side_seen St.seen (disk_seen St.Device.counts St.Device.told St.Device.due) self.old) }
        ensures serves { let of = side_seen St.seen (disk_seen St.Device.counts St.Device.told St.Device.due) in
            SideServes St.Device.tells St.layout node Option.None result (of self.old) (of self.new) }
        ensures found { let of = side_seen St.seen (disk_seen St.Device.counts St.Device.told St.Device.due) in
            IsTrue St.Device.tells → is_in_use (of self.old) ≡ Bool.true → IfFound result (map.get (bodies_on (of self.old)) uid) }
    {
        match self {
            Side::Opened { used, store } if *used => {
                let found = get_in(alloc, store, node, uid)?;
                *used = found.is_some();
                Ok(found)
            }
            _ => Ok(None),
        }
    }
}
