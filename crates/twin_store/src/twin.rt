//! A store over two disks.
ghost use Rattle.std.specs.Prelude.{◌≡◌, ◌⊎◌, ◌↔◌, ◌≤◌, ◌<◌, Bool, Option, IsTrue, OnOk, IfOk, IfErr, Result, length};
ghost use Rattle.twin_store.specs.declared.served.TwinRefusal.TheVariants.{Lost, Full, GenerationsSpent};
ghost use Rattle.eden_disk.specs.Calls.{calls_until};
ghost use Rattle.passive_store.specs.Kept.{IsEject};
ghost use Rattle.passive_store.specs.Seen.{asked, disk_seen};
ghost use Rattle.twin_store.specs.Sides.{is_in_use, disk_of, IsLostDisk};
ghost use Rattle.twin_store.specs.Twins.{twin_seen, IsTwinReady, LooksFirst, TwinGets, TwinChanges, ChangesFirst, ChangesSecond};
ghost use Rattle.twin_store.specs.Twins.{AreReady, TwinMoves, TwinGoes, IsOpenedTwin, StaysVouched, AreAtRest, ReadsBoth, IsLess};
ghost use Rattle.twin_store.specs.Sides.{RoseOnce, StopsAt, IsShortOn, HasRoomOn};
ghost use Rattle.passive_store.specs.Layout.{IsLayout};
ghost use Rattle.twin_store.specs.Twins.{FullOrFits, TwinArms, IsAlone, IsGenerationKept, Gathers, RaisesAlone, AgreesAlone, IsSpentOpening};
ghost use Rattle.twin_store.specs.Rooms.{RoomIsLength, AllTellRoom, IsShort};
ghost use Rattle.twin_store.specs.Twins.{AreRead, IsEven, IsBrought, IsLevel, Levels, Agrees};

use crate::comparing::bring;
use crate::copying::copy;
use crate::generations::{generation, put_generation, raise};
use crate::served::TwinRefusal;
use crate::side::Side;
use capability::{Body, Uid};
use eden_disk::Arm;
use passive_store::Store;
use std::alloc::Global;

/// Two disks of a node that hold the same bytes under the same uids, of which either may be lost.
///
/// Each carries a store, whose reserved uid holds a generation. A change goes to the first disk in use, then to the
/// second. A disk that fails is out of use until the next opening, and the other gets the next generation before anything
/// more is done. So at an opening the greater generation is right.
#[derive(Drop)]
pub struct TwinStore<St: Store> {
    node: u8,
    // the greatest generation that was read or put
    generation: u32,
    first: Side<St>,
    second: Side<St>,
}

impl<St: Store> TwinStore<St> {
    /// Opens the two disks of a node. The one of the lesser generation is emptied and filled from the other; where both
    /// have the same, the second is brought to the first's values. A refusal hands both disks back.
    pub fn open_twin(
        alloc: Global,
        first: St::Device,
        second: St::Device,
        node: u8,
    ) -> Result<TwinStore<St>, (St::Device, St::Device, TwinRefusal)>
        requires first { IsTrue (St.Device.counts first).power }
        requires second { IsTrue (St.Device.counts second).power }
        requires node { (1 ≤ node) × (node ≤ 8) }
        ensures opened { let look = disk_seen St.Device.counts St.Device.told St.Device.due in
            IfOk result (λ t. IsOpenedTwin St.Device.tells St.layout node (look first) (look second) (twin_seen St.seen look t)) }

        // Both disks are lost only where each met a fault in this call, or has no map.
        ensures lost { let look = disk_seen St.Device.counts St.Device.told St.Device.due in
            IfErr result (λ r. r.2 ≡ Lost → IsLostDisk St.Device.tells St.layout node (look first) (look r.0)
            × IsLostDisk St.Device.tells St.layout node (look second) (look r.1)) }

        // Behind a refusal both disks vouch for what they vouched for before it.
        ensures vouched { let look = disk_seen St.Device.counts St.Device.told St.Device.due in
            IfErr result (λ r. StaysVouched St.Device.tells St.layout node (look first) (look r.0) (look second) (look r.1)) }

        // The count of faults of each disk is as it was, or rose by one.
        ensures counts { let look = disk_seen St.Device.counts St.Device.told St.Device.due in
            IfErr result (λ r. RoseOnce (look first) (look r.0) × RoseOnce (look second) (look r.1)) }

        // Stopped comes only where the count of stops of a disk rose in this call.
        ensures stopped { let look = disk_seen St.Device.counts St.Device.told St.Device.due in
            IfErr result (λ r. StopsAt r.2 (look first) (look r.0) (look second) (look r.1)) }

        // GenerationsSpent comes only where one disk is lost and the greatest generation is found, and an opening that leaves one
        // disk found another generation on it (`opened`).
        ensures spent { let look = disk_seen St.Device.counts St.Device.told St.Device.due in
            IfErr result (λ r. r.2 ≡ GenerationsSpent
            → IsSpentOpening St.Device.tells St.layout node (look first) (look r.0) (look second) (look r.1)) }

        // An image that keeps too much to be opened is refused as Full, but where its disk fails, or a stop or want of memory
        // comes first.
        ensures overfull { let look = disk_seen St.Device.counts St.Device.told St.Device.due in IsTrue St.Device.tells
            → IsLayout St.layout
            → IfErr result (λ r. FullOrFits St.layout node r.2 (look first) (look r.0) (look second) (look r.1)) }
    {
        let first = match Side::open(alloc, first, node) {
            Ok(side) => side,
            Err((disk, refusal)) => return Err((disk, second, refusal)),
        };
        let second = match Side::open(alloc, second, node) {
            Ok(side) => side,
            Err((disk, refusal)) => return Err((first.close(), disk, refusal)),
        };
        let mut twin = TwinStore {
            node,
            generation: 0,
            first,
            second,
        };
        match twin.agree(alloc) {
            Ok(()) => Ok(twin),
            Err(refusal) => {
                let (first, second) = twin.close();
                Err((first, second, refusal))
            }
        }
    }

    /// Puts bytes under the uid of an Eject.
    pub fn put(&mut self, alloc: Global, uid: Uid, body: &[u8]) -> Result<(), TwinRefusal>
        requires ready { IsTwinReady (twin_seen St.seen (disk_seen St.Device.counts St.Device.told St.Device.due) self.old) }
        requires own { IsEject (twin_seen St.seen (disk_seen St.Device.counts St.Device.told St.Device.due) self.old).node uid }
        requires limit { length body.now ≤ 262144 }
        ensures changes { let of = twin_seen St.seen (disk_seen St.Device.counts St.Device.told St.Device.due) in
            TwinChanges St.Device.tells St.layout (Option.Some (asked uid (Option.Some body.now))) result (of self.old) (of self.new) }

        // Where a disk in use tells that it has no room, the put is refused, and nothing changes.
        ensures short { let of = twin_seen St.seen (disk_seen St.Device.counts St.Device.told St.Device.due) in IsTrue St.Device.tells
            → IsShort St.layout (length body.now) (of self.old) → (result ≡ Result.Err Full) × (of self.new ≡ of self.old) }

        // Where the disks in use tell their room, and none leaves use, it is refused so exactly there.
        ensures exact { let of = twin_seen St.seen (disk_seen St.Device.counts St.Device.told St.Device.due) in IsTrue St.Device.tells
            → RoomIsLength St.layout → AllTellRoom (of self.old) (of self.new)
            → (result ≡ Result.Err Full) ↔ IsShort St.layout (length body.now) (of self.old) }
    {
        let length = body.len();
        if !self.has_room(length) {
            return Err(TwinRefusal::Full);
        }
        self.put_first(alloc, uid, body)?;
        self.put_second(alloc, uid, body)
    }

    // The same on the first disk, where it is in use. Where it fails, the second gets the next generation.
    fn put_first(&mut self, alloc: Global, uid: Uid, body: &[u8]) -> Result<(), TwinRefusal>
        requires ready { IsTwinReady (twin_seen St.seen (disk_seen St.Device.counts St.Device.told St.Device.due) self.old) }
        requires own { IsEject (twin_seen St.seen (disk_seen St.Device.counts St.Device.told St.Device.due) self.old).node uid }
        requires limit { length body.now ≤ 262144 }
        ensures { let of = twin_seen St.seen (disk_seen St.Device.counts St.Device.told St.Device.due) in
            ChangesFirst St.Device.tells St.layout (Option.Some (asked uid (Option.Some body.now))) result (of self.old) (of self.new) }
    {
        let node = self.node;
        let generation = self.generation;
        if !self.first.in_use() {
            return Ok(());
        }
        match self.first.put(alloc, node, uid, body)? {
            Some(()) => Ok(()),
            None => {
                self.generation = raise(alloc, &mut self.second, node, generation)?;
                Ok(())
            }
        }
    }

    // The same on the second disk, where it is in use. Where it fails, the first gets the next generation.
    fn put_second(&mut self, alloc: Global, uid: Uid, body: &[u8]) -> Result<(), TwinRefusal>
        requires ready { IsTwinReady (twin_seen St.seen (disk_seen St.Device.counts St.Device.told St.Device.due) self.old) }
        requires own { IsEject (twin_seen St.seen (disk_seen St.Device.counts St.Device.told St.Device.due) self.old).node uid }
        requires limit { length body.now ≤ 262144 }
        ensures { let of = twin_seen St.seen (disk_seen St.Device.counts St.Device.told St.Device.due) in
            ChangesSecond St.Device.tells St.layout (Option.Some (asked uid (Option.Some body.now))) result (of self.old) (of self.new) }
    {
        let node = self.node;
        let generation = self.generation;
        if !self.second.in_use() {
            return Ok(());
        }
        match self.second.put(alloc, node, uid, body)? {
            Some(()) => Ok(()),
            None => {
                self.generation = raise(alloc, &mut self.first, node, generation)?;
                Ok(())
            }
        }
    }

    /// Removes what is kept under the uid of an Eject.
    pub fn delete(&mut self, alloc: Global, uid: Uid) -> Result<(), TwinRefusal>
        requires ready { IsTwinReady (twin_seen St.seen (disk_seen St.Device.counts St.Device.told St.Device.due) self.old) }
        requires own { IsEject (twin_seen St.seen (disk_seen St.Device.counts St.Device.told St.Device.due) self.old).node uid }
        ensures { let of = twin_seen St.seen (disk_seen St.Device.counts St.Device.told St.Device.due) in
            TwinChanges St.Device.tells St.layout (Option.Some (asked uid Option.None)) result (of self.old) (of self.new) }
    {
        self.delete_first(alloc, uid)?;
        self.delete_second(alloc, uid)
    }

    // The same on the first disk, where it is in use. Where it fails, the second gets the next generation.
    fn delete_first(&mut self, alloc: Global, uid: Uid) -> Result<(), TwinRefusal>
        requires ready { IsTwinReady (twin_seen St.seen (disk_seen St.Device.counts St.Device.told St.Device.due) self.old) }
        requires own { IsEject (twin_seen St.seen (disk_seen St.Device.counts St.Device.told St.Device.due) self.old).node uid }
        ensures { let of = twin_seen St.seen (disk_seen St.Device.counts St.Device.told St.Device.due) in
            ChangesFirst St.Device.tells St.layout (Option.Some (asked uid Option.None)) result (of self.old) (of self.new) }
    {
        let node = self.node;
        let generation = self.generation;
        if !self.first.in_use() {
            return Ok(());
        }
        match self.first.delete(alloc, node, uid)? {
            Some(()) => Ok(()),
            None => {
                self.generation = raise(alloc, &mut self.second, node, generation)?;
                Ok(())
            }
        }
    }

    // The same on the second disk, where it is in use. Where it fails, the first gets the next generation.
    fn delete_second(&mut self, alloc: Global, uid: Uid) -> Result<(), TwinRefusal>
        requires ready { IsTwinReady (twin_seen St.seen (disk_seen St.Device.counts St.Device.told St.Device.due) self.old) }
        requires own { IsEject (twin_seen St.seen (disk_seen St.Device.counts St.Device.told St.Device.due) self.old).node uid }
        ensures { let of = twin_seen St.seen (disk_seen St.Device.counts St.Device.told St.Device.due) in
            ChangesSecond St.Device.tells St.layout (Option.Some (asked uid Option.None)) result (of self.old) (of self.new) }
    {
        let node = self.node;
        let generation = self.generation;
        if !self.second.in_use() {
            return Ok(());
        }
        match self.second.delete(alloc, node, uid)? {
            Some(()) => Ok(()),
            None => {
                self.generation = raise(alloc, &mut self.first, node, generation)?;
                Ok(())
            }
        }
    }

    /// What is kept under the uid of an Eject.
    pub fn get(&mut self, alloc: Global, uid: Uid) -> Result<Option<Body>, TwinRefusal>
        requires ready { IsTwinReady (twin_seen St.seen (disk_seen St.Device.counts St.Device.told St.Device.due) self.old) }
        requires own { IsEject (twin_seen St.seen (disk_seen St.Device.counts St.Device.told St.Device.due) self.old).node uid }
        ensures { let of = twin_seen St.seen (disk_seen St.Device.counts St.Device.told St.Device.due) in
            TwinGets St.Device.tells St.layout uid result (of self.old) (of self.new) }
    {
        match self.get_first(alloc, uid)? {
            Some(found) => Ok(found),
            None => self.get_second(alloc, uid),
        }
    }

    // What is kept on the first disk, or None where it is not in use: where it fails, the second gets the next generation.
    fn get_first(&mut self, alloc: Global, uid: Uid) -> Result<Option<Option<Body>>, TwinRefusal>
        requires ready { IsTwinReady (twin_seen St.seen (disk_seen St.Device.counts St.Device.told St.Device.due) self.old) }
        requires own { IsEject (twin_seen St.seen (disk_seen St.Device.counts St.Device.told St.Device.due) self.old).node uid }
        ensures { let of = twin_seen St.seen (disk_seen St.Device.counts St.Device.told St.Device.due) in
            LooksFirst St.Device.tells St.layout uid result (of self.old) (of self.new) }
    {
        let node = self.node;
        let generation = self.generation;
        if !self.first.in_use() {
            return Ok(None);
        }
        match self.first.get(alloc, node, uid)? {
            Some(found) => Ok(Some(found)),
            None => {
                self.generation = raise(alloc, &mut self.second, node, generation)?;
                Ok(None)
            }
        }
    }

    // What is kept on the second disk, the first being out of use.
    fn get_second(&mut self, alloc: Global, uid: Uid) -> Result<Option<Body>, TwinRefusal>
        requires ready { IsTwinReady (twin_seen St.seen (disk_seen St.Device.counts St.Device.told St.Device.due) self.old) }
        requires own { IsEject (twin_seen St.seen (disk_seen St.Device.counts St.Device.told St.Device.due) self.old).node uid }
        requires alone { is_in_use (twin_seen St.seen (disk_seen St.Device.counts St.Device.told St.Device.due)
            self.old).first ≡ Bool.false }
        ensures { let of = twin_seen St.seen (disk_seen St.Device.counts St.Device.told St.Device.due) in
            TwinGets St.Device.tells St.layout uid result (of self.old) (of self.new) }
    {
        let node = self.node;
        match self.second.get(alloc, node, uid)? {
            Some(found) => Ok(found),
            None => Err(TwinRefusal::Lost),
        }
    }

    /// Whether the first disk is in use, and whether the second is.
    pub fn in_use(&self) -> (bool, bool)
        ensures { let t = twin_seen St.seen (disk_seen St.Device.counts St.Device.told St.Device.due) self.now in
            (result.0 ≡ is_in_use t.first) × (result.1 ≡ is_in_use t.second) }
    {
        (self.first.in_use(), self.second.in_use())
    }

    /// How many device calls of the first disk failed, and how many of the second.
    pub fn faults(&self) -> (u64, u64)
        ensures { let t = twin_seen St.seen (disk_seen St.Device.counts St.Device.told St.Device.due) self.now in
            (result.0 ≡ (disk_of t.first).counts.faults) × (result.1 ≡ (disk_of t.second).counts.faults) }
    {
        (self.first.faults(), self.second.faults())
    }

    /// Whether each disk in use says that a body of this length has room. It makes no device call.
    ///
    /// It says no only where a disk in use has none, and yes only where each has, as far as their stores tell their room.
    pub fn has_room(&self, length: usize) -> bool
        ensures no { let t = twin_seen St.seen (disk_seen St.Device.counts St.Device.told St.Device.due) self.now in
            result ≡ Bool.false
            → IsShortOn St.Device.tells St.layout length t.first ⊎ IsShortOn St.Device.tells St.layout length t.second }
        ensures yes { let t = twin_seen St.seen (disk_seen St.Device.counts St.Device.told St.Device.due) self.now in
            result ≡ Bool.true
            → HasRoomOn St.Device.tells St.layout length t.first × HasRoomOn St.Device.tells St.layout length t.second }
    {
        self.first.has_room(length) && self.second.has_room(length)
    }

    /// Hands a request for a failure or a stop to the second disk, or to the first, in use or not.
    pub fn arm(&mut self, second: bool, what: Arm)
        requires { 1 ≤ calls_until what }
        ensures { let of = twin_seen St.seen (disk_seen St.Device.counts St.Device.told St.Device.due) in
            TwinArms St.Device.tells St.Device.obeys second what (of self.old) (of self.new) }
    {
        if second {
            self.second.arm(what);
        } else {
            self.first.arm(what);
        }
    }

    /// Gives both disks back.
    pub fn close(self) -> (St::Device, St::Device)
        ensures { let look = disk_seen St.Device.counts St.Device.told St.Device.due in let t = twin_seen St.seen look self in
            (look result.0 ≡ disk_of t.first) × (look result.1 ≡ disk_of t.second) }
    {
        let TwinStore {
            node: _,
            generation: _,
            first,
            second,
        } = self;
        (first.close(), second.close())
    }

    // Makes both disks hold the same, of the same generation, or leaves one in use, of a greater one.
    fn agree(&mut self, alloc: Global) -> Result<(), TwinRefusal>
        requires ready { AreReady (twin_seen St.seen (disk_seen St.Device.counts St.Device.told St.Device.due) self.old) }
        ensures moves { let of = twin_seen St.seen (disk_seen St.Device.counts St.Device.told St.Device.due) in
            TwinGoes result (of self.old) (of self.new) }
        ensures agrees { let of = twin_seen St.seen (disk_seen St.Device.counts St.Device.told St.Device.due) in
            IsTrue St.Device.tells → AreAtRest St.layout (of self.old) → Agrees St.layout result (of self.old) (of self.new) }
        ensures alone { let of = twin_seen St.seen (disk_seen St.Device.counts St.Device.told St.Device.due) in
            IfErr result (λ e. e ≡ GenerationsSpent → IsAlone (of self.new)) }
        ensures greatest { let of = twin_seen St.seen (disk_seen St.Device.counts St.Device.told St.Device.due) in
            IsTrue St.Device.tells → AreAtRest St.layout (of self.old) → AgreesAlone result (of self.old) (of self.new) }
    {
        self.copy_right(alloc)?;
        self.leave_one(alloc)
    }

    // Copies the disk of the greater generation to the other, or the first to the second.
    fn copy_right(&mut self, alloc: Global) -> Result<(), TwinRefusal>
        requires ready { AreReady (twin_seen St.seen (disk_seen St.Device.counts St.Device.told St.Device.due) self.old) }
        ensures moves { let of = twin_seen St.seen (disk_seen St.Device.counts St.Device.told St.Device.due) in
            TwinMoves result (of self.old) (of self.new) }
        ensures levels { let of = twin_seen St.seen (disk_seen St.Device.counts St.Device.told St.Device.due) in
            IsTrue St.Device.tells → AreAtRest St.layout (of self.old) → Levels St.layout result (of self.old) (of self.new) }
        ensures gathers { let of = twin_seen St.seen (disk_seen St.Device.counts St.Device.told St.Device.due) in
            IsTrue St.Device.tells → AreAtRest St.layout (of self.old) → OnOk result (Gathers (of self.old) (of self.new)) }
    {
        let (first, second) = self.read_generations(alloc)?;
        match first {
            Some(first) => match second {
                Some(second) => self.copy_by(alloc, first, second),
                None => Ok(()),
            },
            None => Ok(()),
        }
    }

    // The same, by the generations that were read on both.
    fn copy_by(&mut self, alloc: Global, first: u32, second: u32) -> Result<(), TwinRefusal>
        requires ready { AreReady (twin_seen St.seen (disk_seen St.Device.counts St.Device.told St.Device.due) self.old) }
        ensures moves { let of = twin_seen St.seen (disk_seen St.Device.counts St.Device.told St.Device.due) in
            TwinMoves result (of self.old) (of self.new) }
        ensures levels { let of = twin_seen St.seen (disk_seen St.Device.counts St.Device.told St.Device.due) in
            IsTrue St.Device.tells → AreAtRest St.layout (of self.old) → AreRead (of self.old) (Option.Some first) (Option.Some second)
            → Levels St.layout result (of self.old) (of self.new) }
        ensures kept { IsGenerationKept self.old.generation self.new.generation }
    {
        if first < second {
            return self.refill_first(alloc);
        }
        if second < first {
            return self.refill_second(alloc);
        }
        self.bring_second(alloc)
    }

    // The generations of both disks, as far as they are in use; the greatest is noted.
    fn read_generations(&mut self, alloc: Global) -> Result<(Option<u32>, Option<u32>), TwinRefusal>
        requires ready { AreReady (twin_seen St.seen (disk_seen St.Device.counts St.Device.told St.Device.due) self.old) }
        ensures moves { let of = twin_seen St.seen (disk_seen St.Device.counts St.Device.told St.Device.due) in
            TwinMoves result (of self.old) (of self.new) }
        ensures reads { let of = twin_seen St.seen (disk_seen St.Device.counts St.Device.told St.Device.due) in
            IsTrue St.Device.tells → AreAtRest St.layout (of self.old) → ReadsBoth St.layout result (of self.old) (of self.new) }
    {
        let node = self.node;
        let first = generation(alloc, &mut self.first, node)?;
        let second = generation(alloc, &mut self.second, node)?;
        self.generation = first.unwrap_or(0).max(second.unwrap_or(0));
        Ok((first, second))
    }

    // Where one disk has left use, the other gets the next generation.
    fn leave_one(&mut self, alloc: Global) -> Result<(), TwinRefusal>
        requires ready { AreReady (twin_seen St.seen (disk_seen St.Device.counts St.Device.told St.Device.due) self.old) }
        ensures moves { let of = twin_seen St.seen (disk_seen St.Device.counts St.Device.told St.Device.due) in
            TwinGoes result (of self.old) (of self.new) }
        ensures agrees { let of = twin_seen St.seen (disk_seen St.Device.counts St.Device.told St.Device.due) in
            IsTrue St.Device.tells → IsLevel St.layout (of self.old) → Agrees St.layout result (of self.old) (of self.new) }
        ensures raises { let of = twin_seen St.seen (disk_seen St.Device.counts St.Device.told St.Device.due) in
            RaisesAlone result (of self.old) (of self.new) }
    {
        let node = self.node;
        let generation = self.generation;
        if !self.first.in_use() {
            self.generation = raise(alloc, &mut self.second, node, generation)?;
        } else if !self.second.in_use() {
            self.generation = raise(alloc, &mut self.first, node, generation)?;
        }
        Ok(())
    }

    // The first disk is emptied, filled from the second, and gets its generation last.
    fn refill_first(&mut self, alloc: Global) -> Result<(), TwinRefusal>
        requires ready { AreReady (twin_seen St.seen (disk_seen St.Device.counts St.Device.told St.Device.due) self.old) }
        ensures moves { let of = twin_seen St.seen (disk_seen St.Device.counts St.Device.told St.Device.due) in
            TwinMoves result (of self.old) (of self.new) }
        ensures levels { let of = twin_seen St.seen (disk_seen St.Device.counts St.Device.told St.Device.due) in
            IsTrue St.Device.tells → IsLess St.layout (of self.old).node (of self.old).generation (of self.old).first (of self.old).second
            → Levels St.layout result (of self.old) (of self.new) }
        ensures kept { self.new.generation ≡ self.old.generation }
    {
        let node = self.node;
        let generation = self.generation;
        copy(alloc, true, &mut self.second, &mut self.first, node)?;
        if self.second.in_use() {
            put_generation(alloc, &mut self.first, node, generation)?;
        }
        Ok(())
    }

    // The second disk is emptied, filled from the first, and gets its generation last.
    fn refill_second(&mut self, alloc: Global) -> Result<(), TwinRefusal>
        requires ready { AreReady (twin_seen St.seen (disk_seen St.Device.counts St.Device.told St.Device.due) self.old) }
        ensures moves { let of = twin_seen St.seen (disk_seen St.Device.counts St.Device.told St.Device.due) in
            TwinMoves result (of self.old) (of self.new) }
        ensures levels { let of = twin_seen St.seen (disk_seen St.Device.counts St.Device.told St.Device.due) in
            IsTrue St.Device.tells → IsLess St.layout (of self.old).node (of self.old).generation (of self.old).second (of self.old).first
            → Levels St.layout result (of self.old) (of self.new) }
        ensures kept { self.new.generation ≡ self.old.generation }
    {
        let node = self.node;
        let generation = self.generation;
        copy(alloc, true, &mut self.first, &mut self.second, node)?;
        if self.first.in_use() {
            put_generation(alloc, &mut self.second, node, generation)?;
        }
        Ok(())
    }

    // The second disk is brought to the first's values.
    fn bring_second(&mut self, alloc: Global) -> Result<(), TwinRefusal>
        requires ready { AreReady (twin_seen St.seen (disk_seen St.Device.counts St.Device.told St.Device.due) self.old) }
        ensures moves { let of = twin_seen St.seen (disk_seen St.Device.counts St.Device.told St.Device.due) in
            TwinMoves result (of self.old) (of self.new) }
        ensures levels { let of = twin_seen St.seen (disk_seen St.Device.counts St.Device.told St.Device.due) in
            IsTrue St.Device.tells → IsEven St.layout (of self.old).node (of self.old).generation (of self.old).first (of self.old).second
            → Levels St.layout result (of self.old) (of self.new) }
        ensures kept { IsGenerationKept self.old.generation self.new.generation }
    {
        let node = self.node;
        bring(alloc, &mut self.first, &mut self.second, node)?;
        if self.generation == 0 {
            return self.begin_both(alloc);
        }
        Ok(())
    }

    // Where neither disk has a generation, the second gets the first one, then the first.
    fn begin_both(&mut self, alloc: Global) -> Result<(), TwinRefusal>
        requires ready { AreReady (twin_seen St.seen (disk_seen St.Device.counts St.Device.told St.Device.due) self.old) }
        requires none { (twin_seen St.seen (disk_seen St.Device.counts St.Device.told St.Device.due) self.old).generation ≡ 0 }
        ensures moves { let of = twin_seen St.seen (disk_seen St.Device.counts St.Device.told St.Device.due) in
            TwinMoves result (of self.old) (of self.new) }
        ensures levels { let of = twin_seen St.seen (disk_seen St.Device.counts St.Device.told St.Device.due) in
            IsTrue St.Device.tells → IsBrought St.layout (of self.old) → Levels St.layout result (of self.old) (of self.new) }
        ensures kept { IsGenerationKept self.old.generation self.new.generation }
    {
        let node = self.node;
        if !self.first.in_use() {
            return Ok(());
        }
        if !self.second.in_use() {
            return Ok(());
        }
        self.generation = 1;
        match put_generation(alloc, &mut self.second, node, 1)? {
            Some(()) => {
                put_generation(alloc, &mut self.first, node, 1)?;
                Ok(())
            }
            None => Ok(()),
        }
    }
}
