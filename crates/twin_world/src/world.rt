//! The world of a script: the places of four nodes.
ghost use Rattle.std.specs.Prelude.{◌≡◌, ◌≤◌, ℕ, IfOk, IfErr, [], length, map};
ghost use Rattle.std.specs.Vec.{vec_capacity};
ghost use Rattle.passive_store.specs.Seen.{disk_seen};
ghost use Rattle.twin_world.specs.Commands.{IsInReach};
ghost use Rattle.twin_world.specs.Disks.{KeepNothing, CanRise};
ghost use Rattle.twin_world.specs.View.{meant};
ghost use Rattle.twin_world.specs.Worlds.{standings, IsWorld, AreBlank, CanGoOn, Moves, LastPair, all_disks};

use crate::act::{act_at, disks_in, node};
use crate::answer::Done;
use crate::commands::TwinCommand;
use crate::place::Place;
use passive_store::Store;
use std::alloc::{AllocError, Global};

/// The places of four nodes.
#[derive(Drop)]
pub struct TwinWorld<St: Store> {
    /// What stands at the place of each node.
    pub places: Vec<Place<St>>,
}

impl<St: Store> TwinWorld<St>
where
    St::Device: Drop,
{
    /// Carries out a command.
    pub fn step(&mut self, alloc: Global, command: &TwinCommand) -> Result<Done, AllocError>
        requires world { IsWorld (standings St.seen (disk_seen St.Device.counts St.Device.told St.Device.due) self.old.places.items) }
        requires reach { IsInReach (meant command.now) }
        ensures { let look = disk_seen St.Device.counts St.Device.told St.Device.due in
            Moves St.Device.tells St.layout (meant command.now) result (standings St.seen look self.old.places.items)
            (standings St.seen look self.new.places.items) }
    {
        let n = node(command);
        act_at(alloc, n, &mut self.places[usize::from(n) - 1], command)
    }
}

/// The last two of some disks, as the place of a node.
fn last_pair<St: Store>(disks: &mut Vec<St::Device>) -> Place<St>
    requires { 2 ≤ length disks.old.items }
    ensures { LastPair disks.old.items disks.new.items result }
{
    match disks.pop() {
        Some(second) => match disks.pop() {
            Some(first) => Place::Rest { first, second },
            None => unreachable!(),
        },
        None => unreachable!(),
    }
}

impl<St: Store + Drop> TwinWorld<St>
where
    St::Device: Drop,
{
    /// A world over eight disks, two for each node: all nodes are closed. Where there is no memory it gives the disks back.
    pub fn new(
        alloc: Global,
        disks: Vec<St::Device>,
    ) -> Result<TwinWorld<St>, (Vec<St::Device>, AllocError)>
        requires eight { length disks.items ≡ 8 }
        ensures world { IfOk result (λ w. IsWorld (standings St.seen (disk_seen St.Device.counts St.Device.told St.Device.due)
            w.places.items)) }
        ensures rise { let look = disk_seen St.Device.counts St.Device.told St.Device.due in (k : ℕ) → CanRise k (map look disks.items)
            → IfOk result (λ w. CanGoOn k (standings St.seen look w.places.items)) }
        ensures blank { let look = disk_seen St.Device.counts St.Device.told St.Device.due in KeepNothing St.layout (map look disks.items)
            → IfOk result (λ w. AreBlank St.layout (standings St.seen look w.places.items)) }
        ensures stand { let look = disk_seen St.Device.counts St.Device.told St.Device.due in
            IfOk result (λ w. all_disks (standings St.seen look w.places.items) ≡ map look disks.items) }
        ensures kept { IfErr result (λ e. e.0 ≡ disks) }
    {
        let mut places = Vec::new(alloc);
        if let Err(e) = places.reserve(4) {
            return Err((disks, e));
        }
        let mut disks = disks;
        let fourth = last_pair(&mut disks);
        let third = last_pair(&mut disks);
        let second = last_pair(&mut disks);
        let first = last_pair(&mut disks);
        places.push_reserved(first);
        places.push_reserved(second);
        places.push_reserved(third);
        places.push_reserved(fourth);
        Ok(TwinWorld { places })
    }

    /// The disks, in the order of their places, put into a vector that has room for them.
    pub fn close(self, room: Vec<St::Device>) -> Vec<St::Device>
        requires world { IsWorld (standings St.seen (disk_seen St.Device.counts St.Device.told St.Device.due) self.places.items) }
        requires empty { room.items ≡ [] }
        requires room { 8 ≤ vec_capacity room }
        ensures eight { length result.items ≡ 8 }
        ensures given { let look = disk_seen St.Device.counts St.Device.told St.Device.due in
            map look result.items ≡ all_disks (standings St.seen look self.places.items) }
    {
        let mut disks = room;
        for place in self.places {
            if let Some((first, second)) = disks_in(place) {
                disks.push_reserved(first);
                disks.push_reserved(second);
            }
        }
        disks
    }
}
