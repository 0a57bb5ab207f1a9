//! A world is made of disks, and gives them back.
ghost use Rattle.std.specs.Prelude.{◌≡◌, ◌≤◌, IfOk, IfErr, [], length, map};
ghost use Rattle.std.specs.List.{filter_map};
ghost use Rattle.std.specs.Vec.{vec_capacity};
ghost use Rattle.passive_store.specs.Seen.{disk_seen};
ghost use Rattle.move_world.specs.Disks.{KeepNothing, shown_in};
ghost use Rattle.move_world.specs.Kept.{rows};
ghost use Rattle.move_world.specs.Logs.{blank_world};
ghost use Rattle.move_world.specs.Worlds.{standings, IsWorld, IsOf};
ghost use Rattle.move_world.specs.Counted.{AreTheDisks};
ghost use Rattle.move_world.specs.declared.seat.Seat.TheVariants as place;

use crate::letters::Letters;
use crate::seat::{Seat, disk_in};
use crate::world::MoveWorld;
use passive_store::Store;
use std::alloc::{AllocError, Global};

/// The places of these disks. Where there is no memory it gives the disks back.
fn first_seats<St: Store + Drop>(
    alloc: Global,
    disks: Vec<St::Device>,
) -> Result<Vec<Seat<St>>, (Vec<St::Device>, AllocError)>
where
    St::Device: Drop,
    ensures ok { IfOk result (λ seats. seats.items ≡ map (λ d. place.Shut d) disks.items) }
    ensures err { IfErr result (λ e. e.0 ≡ disks) }
{
    let mut seats = Vec::new(alloc);
    if let Err(e) = seats.reserve(disks.len()) {
        return Err((disks, e));
    }
    for disk in disks {
        seats.push_reserved(Seat::Shut { disk });
    }
    Ok(seats)
}

impl<St: Store + Drop> MoveWorld<St>
where
    St::Device: Drop,
{
    /// A world over eight disks, by the numbers of their nodes: all nodes are down, and no letter was sent. Where there is no memory it
    /// gives the disks back.
    pub fn new(
        alloc: Global,
        disks: Vec<St::Device>,
    ) -> Result<MoveWorld<St>, (Vec<St::Device>, AllocError)>
        requires eight { length disks.items ≡ 8 }
        ensures world { IfOk result (λ w. IsWorld
            (standings St.seen (disk_seen St.Device.counts St.Device.told St.Device.due) w.seats.items) (rows w.letters)) }
        ensures blank { let look = disk_seen St.Device.counts St.Device.told St.Device.due in KeepNothing St.layout (map look disks.items)
            → IfOk result (λ w. IsOf St.layout (standings St.seen look w.seats.items) (rows w.letters) blank_world) }
        ensures counts { let look = disk_seen St.Device.counts St.Device.told St.Device.due in
            IfOk result (λ w. AreTheDisks (map look disks.items) (standings St.seen look w.seats.items)) }
        ensures kept { IfErr result (λ e. e.0 ≡ disks) }
    {
        let letters = match Letters::new(alloc) {
            Ok(letters) => letters,
            Err(e) => return Err((disks, e)),
        };
        let seats = first_seats(alloc, disks)?;
        Ok(MoveWorld { seats, letters })
    }

    /// The disks, in the order of their places, put into a vector that has room for them.
    pub fn close(self, room: Vec<St::Device>) -> Vec<St::Device>
        requires world { IsWorld (standings St.seen (disk_seen St.Device.counts St.Device.told St.Device.due) self.seats.items)
            (rows self.letters) }
        requires empty { room.items ≡ [] }
        requires room { 8 ≤ vec_capacity room }
        ensures disks { let look = disk_seen St.Device.counts St.Device.told St.Device.due in
            map look result.items ≡ filter_map (shown_in St.seen look) self.seats.items }
        ensures counts { let look = disk_seen St.Device.counts St.Device.told St.Device.due in
            AreTheDisks (map look result.items) (standings St.seen look self.seats.items) }
        ensures eight { length result.items ≡ 8 }
    {
        let mut disks = room;
        for seat in self.seats {
            if let Some(disk) = disk_in(seat) {
                disks.push_reserved(disk);
            }
        }
        disks
    }
}
