//! The nodes with their calls, their links and the names of a script, and what each entry of a history does to them.
#![tactic(auto)]

ghost use Rattle.std.specs.Prelude.{◌≡◌, ◌≤◌, [], length, IfOk, IfErr};
ghost use Rattle.std.specs.Vec.{vec_capacity};
ghost use Rattle.passive_store.specs.Seen.{disk_seen};
ghost use Rattle.eden_world.specs.Opened.{StandsOpened};
ghost use Rattle.eden_world.specs.Seated.{AreGiven, Begins, FitsTogether, IsSeated, asked_in};

mod asking;
mod boots;
mod breaks;
mod commands;
mod creating;
mod entries;
mod keys;
mod law;
mod machine;
mod naming;
mod seats;
mod turns;

use epl_syntax::Types;
use invocation::Calls;
pub use law::a_turn_is_a_step;
use locator::Places;
use passive_store::Store;
pub use seats::Seat;
use seats::{disk_in, first_seats};
use shell_names::ShellNames;
use std::alloc::{AllocError, Global};

/// The number of places, at most.
pub const PLACES: u8 = 8;

/// A world of eight places at most, with the types that its script knows.
#[derive(Drop)]
pub struct World<St: Store + Drop>
where
    St::Device: Drop,
{
    types: Types,
    seats: Vec<Seat<St>>,
    calls: Calls,
    places: Places,
    names: ShellNames,
}

impl<St: Store + Drop> World<St>
where
    St::Device: Drop,
{
    /// A world before its first event, over eight disks at most, one for each of its nodes: all nodes are down, and all links joined. Where
    /// there is no memory it gives the disks back.
    pub fn new(
        alloc: Global,
        types: Types,
        disks: Vec<St::Device>,
    ) -> Result<World<St>, (Vec<St::Device>, AllocError)>
        requires few { length disks.items ≤ 8 }
        ensures begins { IfOk result (Begins types disks.items) }
        ensures whole { IfOk result (FitsTogether St.seen) }
        ensures stands { let look = disk_seen St.Device.counts St.Device.told St.Device.due in
            IfOk result (StandsOpened St.Device.tells St.layout St.seen look types disks.items) }
        ensures kept { IfErr result (λ e. e.0 ≡ disks) }
        ensures asked { IfOk result (λ w. asked_in w ≡ 0) }
    {
        let calls = match Calls::new(alloc) {
            Ok(calls) => calls,
            Err(e) => return Err((disks, e)),
        };
        let seats = first_seats(alloc, disks)?;
        Ok(World {
            types,
            seats,
            calls,
            places: Places::new(PLACES),
            names: ShellNames::new(alloc),
        })
    }

    /// The disks, in the order of their places, put into a vector that has room for them.
    pub fn close(self, room: Vec<St::Device>) -> Vec<St::Device>
        requires seated { IsSeated self }
        requires empty { room.items ≡ [] }
        requires room { 8 ≤ vec_capacity room }
        ensures disks { AreGiven St.seen (disk_seen St.Device.counts St.Device.told St.Device.due) self result.items }
        ensures few { length result.items ≤ 8 }
    {
        let mut disks = room;
        for seat in self.seats {
            if let Some(disk) = disk_in(seat) {
                disks.push_reserved(disk);
            }
        }
        disks
    }
}
