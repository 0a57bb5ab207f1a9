//! The places of the world.
ghost use Rattle.std.specs.Prelude.{◌≡◌, ◌==◌, ℕ, false, None, Some, unwrap_or, option_copied, map, is_some, IfOk, IfErr};
ghost use Rattle.std.specs.Option.{option_map};
ghost use Rattle.passive_store.specs.Seen.{disk_seen};
ghost use Rattle.scheduled_node.specs.declared.ScheduledNode.{ScheduledNode};
ghost use Rattle.eden_world.specs.InHand.{place_at, seen_at, AreWhole, HaveAgendas};
ghost use Rattle.eden_world.specs.Seated.{TakesPlace, KeepsRest, Vacates, station_at, station_in, clock_in, shown_in};
ghost use Rattle.eden_world.specs.declared.seats.Seat.TheVariants as place;

use crate::World;
use eden_disk::{Disk, ImageMode};
use passive_store::{Doubt, Store};
use scheduled_node::ScheduledNode;
use std::alloc::{AllocError, Global};
use std::mem;

/// What stands at a place.
#[derive(Drop)]
pub enum Seat<St: Store + Drop>
where
    St::Device: Drop,
{
    /// A node that is up.
    Up {
        station: ScheduledNode<St>,
    },
    /// The disk of a node that is down, with what is in doubt there.
    Down {
        disk: St::Device,
        doubt: Option<Doubt>,
    },
    /// Nothing, while a node comes up or goes down.
    Moving,
}

// The places of these disks, whose nodes are down. Where there is no memory it gives the disks back.
pub(crate) fn first_seats<St: Store + Drop>(
    alloc: Global,
    disks: Vec<St::Device>,
) -> Result<Vec<Seat<St>>, (Vec<St::Device>, AllocError)>
where
    St::Device: Drop,
    ensures ok { IfOk result (λ seats. seats.items ≡ map (λ d. place.Down d None) disks.items) }
    ensures err { IfErr result (λ e. e.0 ≡ disks) }
{
    let mut seats = Vec::new(alloc);
    if let Err(e) = seats.reserve(disks.len()) {
        return Err((disks, e));
    }
    for disk in disks {
        seats.push_reserved(Seat::Down { disk, doubt: None });
    }
    Ok(seats)
}

// The disk of a place, as it was seen there.
pub(crate) fn disk_in<St: Store + Drop>(seat: Seat<St>) -> Option<St::Device>
where
    St::Device: Drop,
    ensures { option_map (disk_seen St.Device.counts St.Device.told St.Device.due) result
        ≡ shown_in St.seen (disk_seen St.Device.counts St.Device.told St.Device.due) seat }
{
    match seat {
        Seat::Up { station } => {
            let (disk, _) = station.close();
            Some(disk)
        }
        Seat::Down { disk, .. } => Some(disk),
        Seat::Moving => None,
    }
}

// The node goes down: by a crash, whose images are of this mode, or as its disk stopped.
fn down<St: Store + Drop>(station: ScheduledNode<St>, mode: Option<ImageMode>) -> Seat<St>
where
    St::Device: Drop,
    ensures { Vacates St.Device.tells St.Device.obeys St.layout St.seen (disk_seen St.Device.counts St.Device.told St.Device.due) mode
        station (Some result) }
{
    match mode {
        Some(mode) => {
            let (disk, doubt) = station.crash(mode);
            Seat::Down { disk, doubt }
        }
        None => {
            let (disk, doubt) = station.close();
            Seat::Down { disk, doubt }
        }
    }
}

// What stands at a place goes down, if it is a node that is up.
fn lowered<St: Store + Drop>(seat: Seat<St>, mode: Option<ImageMode>) -> Seat<St>
where
    St::Device: Drop,
    ensures down { (s : ScheduledNode _ _) → seat ≡ place.Up s
        → Vacates St.Device.tells St.Device.obeys St.layout St.seen (disk_seen St.Device.counts St.Device.told St.Device.due) mode s
        (Some result) }
    ensures idle { station_in (Some seat) ≡ None → result ≡ seat }
{
    match seat {
        Seat::Up { station } => down(station, mode),
        other => other,
    }
}

impl<St: Store + Drop> World<St>
where
    St::Device: Drop,
{
    /// What stands at a place.
    pub fn seat(&self, number: u8) -> Option<&Seat<St>>
        ensures { option_copied result ≡ place_at self.now number }
    {
        self.seats.get(usize::from(number.checked_sub(1)?))
    }

    // The node at a place, if it is up.
    pub(crate) fn station(&self, number: u8) -> Option<&ScheduledNode<St>>
        ensures { option_copied result ≡ station_at self.now number }
    {
        match self.seat(number) {
            Some(Seat::Up { station }) => Some(station),
            _ => None,
        }
    }

    // Whether a node is up at a place.
    pub(crate) fn is_up(&self, number: u8) -> bool
        ensures { result ≡ is_some (station_at self.now number) }
    {
        self.station(number).is_some()
    }

    // This stands at a place from now on, if there is such a place. What stood there.
    fn swap(&mut self, number: u8, new: Seat<St>) -> Seat<St>
        ensures old { result ≡ unwrap_or (place_at self.old number) new }
        ensures takes { TakesPlace number new self.old self.new }
    {
        let Some(index) = number.checked_sub(1) else {
            return new;
        };
        match self.seats.get_mut(usize::from(index)) {
            Some(seat) => mem::replace(seat, new),
            None => new,
        }
    }

    // What stands at a place is taken from there, for as long as it moves.
    pub(crate) fn unseat(&mut self, number: u8) -> Seat<St>
        ensures old { result ≡ unwrap_or (place_at self.old number) place.Moving }
        ensures takes { TakesPlace number place.Moving self.old self.new }
        ensures whole { AreWhole St.seen self.old → AreWhole St.seen self.new }
        ensures agendas { HaveAgendas self.old → HaveAgendas self.new }
    {
        self.swap(number, Seat::Moving)
    }

    // This stands at a place from now on, if there is such a place.
    pub(crate) fn set_seat(&mut self, number: u8, new: Seat<St>)
        ensures takes { TakesPlace number new self.old self.new }
    {
        self.swap(number, new);
    }

    // The node at a place goes down: by a crash, whose images are of this mode, or as its disk stopped.
    pub(crate) fn vacate(&mut self, number: u8, mode: Option<ImageMode>)
        ensures down { (s : ScheduledNode _ _) → station_at self.old number ≡ Some s
            → Vacates St.Device.tells St.Device.obeys St.layout St.seen (disk_seen St.Device.counts St.Device.told St.Device.due) mode s
            (place_at self.new number) }
        ensures idle { station_at self.old number ≡ None → place_at self.new number ≡ place_at self.old number }
        ensures others { (m : ℕ) → (m == number) ≡ false → place_at self.new m ≡ place_at self.old m }
        ensures rest { KeepsRest self.old self.new }
        ensures whole { AreWhole St.seen self.old → AreWhole St.seen self.new }
        ensures agendas { HaveAgendas self.old → HaveAgendas self.new }
    {
        let seat = lowered(self.unseat(number), mode);
        self.set_seat(number, seat);
    }

    // The clock of the disk at a place.
    pub(crate) fn clock_at(&self, number: u8) -> u64
        ensures { let look = disk_seen St.Device.counts St.Device.told St.Device.due in
            result ≡ clock_in (seen_at St.seen look (place_at self.now number)) }
    {
        match self.seat(number) {
            Some(Seat::Up { station }) => station.disk().clock(),
            Some(Seat::Down { disk, .. }) => disk.clock(),
            _ => 0,
        }
    }
}
