// A store: a finite map from uids to bytes, with at most one change under way or in doubt.
ghost use Rattle.std.specs.Prelude.{◌≡◌, ◌≢◌, ◌≤◌, ℕ, Bool, IsTrue, IsSome, is_some, List, length, IfSome, Option, Result};
ghost use Rattle.std.specs.FinMap as map;
ghost use Rattle.eden_disk.specs.Calls.{armed, calls_until};
ghost use Rattle.passive_store.specs.declared.store.StoreRefusal.TheVariants.{OutOfMemory, Damaged};
ghost use Rattle.passive_store.specs.Kept.{Layout, Idle, unsure_in, worked_on, is_busy, is_unsettled, refused, IsOwn, IsEject, body_at};
ghost use Rattle.passive_store.specs.Kept.{IsNextKept};
ghost use Rattle.passive_store.specs.Seen.{Seen, disk_seen, opened, disk_opened, asked, Opens, SettlesOneCall, Settled, Begins, Advances};
ghost use Rattle.passive_store.specs.Seen.{Arms, Puts, Deletes, Gets};

use capability::{Body, Uid};
use eden_disk::{Arm, Disk, DiskRefusal};
use std::alloc::{AllocError, Global};

/// How a call of a store is refused.
#[derive(Clone, Copy, Debug, PartialEq, Eq)]
pub enum StoreRefusal {
    /// A device call failed.
    Failed,
    /// The disk stopped in a device call. It has no power until it is restarted.
    Stopped,
    /// The change has no room; or, at an opening, what another layout kept on the disk is too much to be brought over.
    Full,
    /// The bytes from this place on are not what the layout has there: of a log no record, of blocks no head or chain.
    Damaged { place: u32 },
    /// There was no memory for the call.
    OutOfMemory,
}

impl From<AllocError> for StoreRefusal {
    ghost from_gives = { λ _ e. e ≡ OutOfMemory };

    fn from(_: AllocError) -> Self {
        StoreRefusal::OutOfMemory
    }
}

impl From<DiskRefusal> for StoreRefusal {
    ghost from_gives = { λ refusal e. e ≡ refused refusal };

    fn from(refusal: DiskRefusal) -> Self {
        match refusal {
            DiskRefusal::Failed => StoreRefusal::Failed,
            DiskRefusal::Stopped => StoreRefusal::Stopped,
        }
    }
}

/// What a settling found: the state before the change in doubt, or the one behind it.
#[derive(Clone, Copy, Debug, PartialEq, Eq)]
pub enum Pick {
    /// The change was not made.
    Old,
    /// The change was made.
    New,
}

/// Whether a call of steps was the last of them.
#[derive(Clone, Copy, Debug, PartialEq, Eq)]
pub enum Progress {
    /// More steps are left.
    Going,
    /// It was the last step.
    Done,
}

/// A doubt, as one may note it before a store is opened anew: its uid, and the mark that it had then.
///
/// Where the uid has another mark after the opening, the change in doubt was made.
#[derive(Clone, Copy, Debug, PartialEq, Eq)]
pub struct Doubt {
    /// The uid whose change was in doubt.
    pub uid: Uid,
    /// Its mark when the doubt was noted, or None where nothing was kept under it.
    pub mark: Option<u64>,
}

/// A store over a disk: bytes under each uid of one node, which outlive a crash at any moment.
///
/// A change is a put or a removal. It is a job of some device calls, which a caller makes one by one (`begin_put`,
/// `begin_delete`, `advance`) or all at once (`put`, `delete`). The layout gives these calls and their order. From the end
/// of the first of them on the change is in doubt: a crash leaves it made or not made, and never a part of it. Where a call
/// is refused the job ends and the doubt stays. The next change, `get` or `settle` settles it by a sync and a read, which
/// tell which of the two states is there (`picked`).
/// At most one change is under way or in doubt.
///
/// Where the clock of the disk stands at 2^64 - 1, each call that makes a device call is refused, as the disk's is:
/// `DeviceCalls` says so (`counted`).
///
/// After `Stopped` only `unsure`, `picked`, `mark`, `disk` and `close` are of use. What the contracts say of contents
/// they say of a disk that tells its own.
pub trait Store: Sized {
    type Device: Disk;

    /// What the layout says of images, and of the room on them.
    ghost layout: { Layout };

    /// What is seen of a store: what it keeps and works on, and what its disk shows.
    ghost seen: { Self → Seen };

    /// Opens the disk of a node. On a blank disk an empty store is made. A refusal hands the disk back.
    ///
    /// A disk whose size the layout does not allow is damaged at its first byte, and no device call is made on it.
    fn open_disk(
        alloc: Global,
        disk: Self::Device,
        node: u8,
    ) -> Result<Self, (Self::Device, StoreRefusal)>
        requires power { IsTrue (Self.Device.counts disk).power }
        requires node { (1 ≤ node) × (node ≤ 8) }
        ensures size { layout.allows (Self.Device.counts disk).size ≡ Bool.false → result ≡ Result.Err (disk, Damaged 0) }
        ensures opens { let of = disk_seen Self.Device.counts Self.Device.told Self.Device.due in
            Opens Self.Device.tells Self.Device.obeys layout node (opened seen result) (of disk) (disk_opened seen of result) };

    fn disk(&self) -> &Self::Device
        ensures { disk_seen Self.Device.counts Self.Device.told Self.Device.due result.now ≡ (seen self.now).disk };

    /// Gives the disk back.
    fn close(self) -> Self::Device
        ensures { disk_seen Self.Device.counts Self.Device.told Self.Device.due result ≡ (seen self).disk };

    /// Hands a request for a failure or a stop to the disk. It is counted from now, and no other call asks for one.
    fn disk_mut_arm(&mut self, what: Arm)
        requires { 1 ≤ calls_until what }
        ensures { Arms Self.Device.tells Self.Device.obeys what (seen self.old) (seen self.new) };

    /// The uid of the change in doubt.
    fn unsure(&self) -> Option<Uid>
        ensures { result ≡ unsure_in (seen self.now).work };

    /// The uid that a job works on, from its begin to its end.
    fn working_on(&self) -> Option<Uid>
        ensures { result ≡ worked_on (seen self.now).work };

    /// What the settling of the last `put`, `delete`, `get`, `settle` or `settle_step` found; None where it ended none.
    fn picked(&self) -> Option<Pick>
        ensures { result ≡ (seen self.now).picked };

    /// The mark of what counts for a uid, or None where it is not kept.
    fn mark(&self, uid: Uid) -> Option<u64>
        ensures { IsTrue Self.Device.tells → result ≡ map.get (seen self.now).kept.marks uid };

    /// Whether bytes are kept under a uid.
    fn holds(&self, uid: Uid) -> bool
        ensures { IsTrue Self.Device.tells → result ≡ is_some (body_at (seen self.now).kept uid) };

    /// The next kept uid of an Eject behind a given one, or the first, in ascending order.
    fn after(&self, uid: Option<Uid>) -> Option<Uid>
        ensures next { IsTrue Self.Device.tells → IsNextKept (seen self.now).node (seen self.now).kept uid result }
        ensures own { IfSome result (λ u. IsEject (seen self.now).node u) };

    /// The length of the longest body that a put finds room for, or None where there is room for none.
    fn room(&self) -> Option<u32>
        ensures { let s = seen self.now in
            IsTrue Self.Device.tells → 1 ≤ s.more → result ≡ layout.room_of s.disk.counts.size s.kept.bodies s.kept.ledger };

    /// Makes the next device call of a settling: its sync, or then its read. A refusal begins the settling anew.
    fn settle_step(&mut self) -> Result<Progress, StoreRefusal>
        requires power { IsTrue (seen self.old).disk.counts.power }
        requires unsettled { IsTrue (is_unsettled (seen self.old).work) }
        ensures { SettlesOneCall Self.Device.tells Self.Device.obeys layout result (seen self.old) (seen self.new) };

    /// Begins a job that puts bytes under a uid. It makes no device call, and a refusal leaves all as it was.
    fn begin_put(&mut self, alloc: Global, uid: Uid, body: &[u8]) -> Result<(), StoreRefusal>
        requires idle { (seen self.old).work ≡ Idle }
        requires own { IsOwn (seen self.old).node uid (length body.now) }
        requires limit { length body.now ≤ 262144 }
        ensures { Begins Self.Device.tells layout (asked uid (Option.Some body.now)) result (seen self.old) (seen self.new) };

    /// Begins a job that removes a kept uid. It makes no device call, and a refusal leaves all as it was.
    fn begin_delete(&mut self, alloc: Global, uid: Uid) -> Result<(), StoreRefusal>
        requires idle { (seen self.old).work ≡ Idle }
        requires eject { IsEject (seen self.old).node uid }
        requires kept { IsTrue Self.Device.tells → IsSome (body_at (seen self.old).kept uid) }
        ensures { Begins Self.Device.tells layout (asked uid Option.None) result (seen self.old) (seen self.new) };

    /// Makes the next device call of the job. The last one makes the change; a refused one ends the job in doubt.
    /// The first begins the doubt: a crash in the middle of it leaves the change not made.
    fn advance(&mut self) -> Result<Progress, StoreRefusal>
        requires power { IsTrue (seen self.old).disk.counts.power }
        requires busy { IsTrue (is_busy (seen self.old).work) }
        ensures { Advances Self.Device.tells Self.Device.obeys layout result (seen self.old) (seen self.new) };

    /// Settles the change in doubt by a sync and a read. Without one, or while a job goes on, it makes no device call.
    fn settle(&mut self) -> Result<(), StoreRefusal>
        requires { IsTrue (seen self.old).disk.counts.power }
        ensures { Settled Self.Device.tells Self.Device.obeys layout result (seen self.old) (seen self.new) };

    /// Puts bytes under a uid: takes its memory, settles, looks for room, and makes all device calls of the job.
    fn put(&mut self, alloc: Global, uid: Uid, body: &[u8]) -> Result<(), StoreRefusal>
        requires power { IsTrue (seen self.old).disk.counts.power }
        requires idle { is_busy (seen self.old).work ≡ Bool.false }
        requires own { IsOwn (seen self.old).node uid (length body.now) }
        requires limit { length body.now ≤ 262144 }
        ensures { let ask = asked uid (Option.Some body.now) in
            Puts Self.Device.tells Self.Device.obeys layout ask result (seen self.old) (seen self.new) };

    /// Removes what is kept under a uid, likewise. Where nothing is, it is done with the settling, whatever the room.
    fn delete(&mut self, alloc: Global, uid: Uid) -> Result<(), StoreRefusal>
        requires power { IsTrue (seen self.old).disk.counts.power }
        requires idle { is_busy (seen self.old).work ≡ Bool.false }
        requires eject { IsEject (seen self.old).node uid }
        ensures { Deletes Self.Device.tells Self.Device.obeys layout (asked uid Option.None) result (seen self.old) (seen self.new) };

    /// What is kept under a uid that no job works on, once the doubt is settled.
    fn get(&mut self, alloc: Global, uid: Uid) -> Result<Option<Body>, StoreRefusal>
        requires power { IsTrue (seen self.old).disk.counts.power }
        requires other { worked_on (seen self.old).work ≢ Option.Some uid }
        ensures { Gets Self.Device.tells Self.Device.obeys layout uid result (seen self.old) (seen self.new) };
}
