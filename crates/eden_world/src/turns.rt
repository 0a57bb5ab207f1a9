//! Turns: of the shell, and of the nodes.
ghost use Rattle.std.specs.Prelude.{◌≡◌, ◌<◌, ◌≤◌, IfErr, IfOk, IsSomeAnd, IsTrue, OnOk, Some, length, OnErr, suc, true};
ghost use Rattle.passive_store.specs.Seen.{disk_seen};
ghost use Rattle.journal.specs.Enabled as enabled;
ghost use Rattle.runs.specs.Room.{most_calls};
ghost use Rattle.ejects.specs.Counts.{AsksOneAtMost};
ghost use Rattle.eden_kernel.specs.Stands.{held, IsWhole};
ghost use Rattle.eden_kernel.specs.Turns.{clock_of};
ghost use Rattle.scheduled_node.specs.declared.ScheduledNode.{ScheduledNode as Manned};
ghost use Rattle.scheduled_node.specs.Keys.{HasTurn as NodeHasTurn};
ghost use Rattle.eden_world.specs.Listed.{HasTurn, shell_hears};
ghost use Rattle.eden_world.specs.Seated.{EachShows, FitsTogether, KeepsDisks, asked_in, heeds, station_at, station_in};
ghost use Rattle.eden_world.specs.Taken.{TakesAtEach, StarvesAtEach};
ghost use Rattle.eden_world.specs.Turning.{StarvesThere, TurnsHere, TurnsThere};
ghost use Rattle.eden_world.specs.declared.seats.Seat.TheVariants as place;

use crate::breaks::name_of_call;
pub(crate) use crate::entries::entry_of_none as plain;
use crate::entries::entry_of_turn;
use crate::{Seat, World};
use eden_disk::Disk;
use eden_kernel::TurnEnd;
use epl_syntax::Types;
use invocation::{Calls, Delivery};
use journal::{Entry, Event, Key};
use locator::Places;
use passive_store::Store;
use scheduled_node::ScheduledNode;
use std::alloc::{AllocError, Global};

// What a turn of a node came to, and the clocks of its disk before and behind it.
struct TurnTaken {
    event: Event,
    end: TurnEnd,
    before: u64,
    after: u64,
}

// The clock of the disk of a node.
fn clock_of_disk<St: Store + Drop>(station: &ScheduledNode<St>) -> u64
where
    St::Device: Drop,
    ensures { result ≡ clock_of (held St.seen station.now.node) }
{
    station.disk().clock()
}

// The node that is up there takes the turn of a key, in its place.
fn turn_in<St: Store + Drop>(
    seat: &mut Seat<St>,
    alloc: Global,
    types: &Types,
    calls: &mut Calls,
    places: &Places,
    key: Key,
) -> Result<TurnTaken, AllocError>
where
    St::Device: Drop,
    requires calls { length calls.old.calls < 4294967295 }
    requires whole { (s : Manned _ _) → seat.old ≡ place.Up s → IsWhole (held St.seen s.node) }
    requires has { IsSomeAnd (station_in (Some seat.old)) (λ s. NodeHasTurn types.now (held St.seen s.node) calls.old key) }
    ensures turns { IfOk result (λ t. TurnsThere St.Device.tells St.Device.obeys St.layout St.seen types.now places.now key
        t seat.old calls.old seat.new calls.new) }
    ensures starves { IfErr result (λ e. StarvesThere St.Device.tells St.Device.obeys St.layout St.seen types.now calls.old seat.old seat.new) }
    ensures asks { OnOk result (AsksOneAtMost calls.old calls.new) }
{
    match seat {
        Seat::Up { station } => {
            let before = clock_of_disk(station);
            let (event, end) = station.turn(alloc, types, calls, places, key)?;
            let after = clock_of_disk(station);
            Ok(TurnTaken {
                event,
                end,
                before,
                after,
            })
        }
        Seat::Down { .. } => unreachable!(),
        Seat::Moving => unreachable!(),
    }
}

impl<St: Store + Drop> World<St>
where
    St::Device: Drop,
{
    // The shell hears the first message from a station, which answers a call of its own.
    fn hear(&mut self, alloc: Global, from: u8) -> Result<Entry, AllocError>
        requires whole { FitsTogether St.seen self.old }
        requires from { from ≤ 8 }
        requires hears { shell_hears from self.old.calls ≡ true }
        ensures whole { OnOk result (FitsTogether St.seen self.new) }
        ensures taken { IfOk result (λ e. TakesAtEach St.Device.tells St.layout St.seen
            (disk_seen St.Device.counts St.Device.told St.Device.due) self.old self.new (enabled.delivery 0 from) e) }
        ensures starved { IfErr result (λ e. StarvesAtEach St.Device.tells St.layout St.seen
            (disk_seen St.Device.counts St.Device.told St.Device.due) self.old self.new (enabled.delivery 0 from)) }
        ensures shows { IfOk result (λ e. EachShows (heeds St.Device.tells St.Device.obeys) St.seen
            (disk_seen St.Device.counts St.Device.told St.Device.due) self.old e self.new) }
        ensures leaves { let look = disk_seen St.Device.counts St.Device.told St.Device.due in
            OnErr result (KeepsDisks (heeds St.Device.tells St.Device.obeys) St.seen look self.old self.new) }
        ensures asks { OnOk result (AsksOneAtMost self.old.calls self.new.calls) }
    {
        let Some(message) = self.calls.first(from, 0) else {
            unreachable!()
        };
        let Some(name) = name_of_call(&self.calls, message.number())? else {
            unreachable!()
        };
        match self.calls.deliver(from, 0) {
            Some(
                Delivery::Reply {
                    call,
                    status,
                    results,
                    was_open,
                    ..
                },
            ) => {
                self.names.hear(alloc, &name, status, &results, was_open)?;
                let event = Event::Reply {
                    call,
                    from,
                    to: 0,
                    name: Some(name),
                    status,
                    results,
                };
                Ok(plain(alloc, event))
            }
            _ => unreachable!(),
        }
    }

    // The node at the place of a key takes its turn there.
    fn turn_here(&mut self, alloc: Global, key: Key) -> Result<TurnTaken, AllocError>
        requires calls { length self.old.calls.calls < 4294967295 }
        requires whole { FitsTogether St.seen self.old }
        requires node { 1 ≤ key.station }
        requires has { IsSomeAnd (station_at self.old key.station)
            (λ s. NodeHasTurn self.old.types (held St.seen s.node) self.old.calls key) }
        ensures turns { IfOk result (λ t. TurnsHere St.Device.tells St.Device.obeys St.layout St.seen key t self.old self.new) }
        ensures starved { IfErr result (λ e. StarvesAtEach St.Device.tells St.layout St.seen
            (disk_seen St.Device.counts St.Device.told St.Device.due) self.old self.new key) }
        ensures leaves { let look = disk_seen St.Device.counts St.Device.told St.Device.due in
            OnErr result (KeepsDisks (heeds St.Device.tells St.Device.obeys) St.seen look self.old self.new) }
        ensures asks { OnOk result (AsksOneAtMost self.old.calls self.new.calls) }
    {
        match self.seats.get_mut(usize::from(key.station) - 1) {
            Some(seat) => turn_in(seat, alloc, &self.types, &mut self.calls, &self.places, key),
            None => unreachable!(),
        }
    }

    // A node takes the turn of a key. Where its disk stops it is closed, and its calls break.
    fn turn_at(&mut self, alloc: Global, key: Key) -> Result<Entry, AllocError>
        requires whole { FitsTogether St.seen self.old }
        requires node { 1 ≤ key.station }
        requires has { IsSomeAnd (station_at self.old key.station)
            (λ s. NodeHasTurn self.old.types (held St.seen s.node) self.old.calls key) }
        requires calls { length self.old.calls.calls < 4294967295 }
        ensures whole { OnOk result (FitsTogether St.seen self.new) }
        ensures taken { IfOk result (λ e. TakesAtEach St.Device.tells St.layout St.seen
            (disk_seen St.Device.counts St.Device.told St.Device.due) self.old self.new key e) }
        ensures starved { IfErr result (λ e. StarvesAtEach St.Device.tells St.layout St.seen
            (disk_seen St.Device.counts St.Device.told St.Device.due) self.old self.new key) }
        ensures shows { IfOk result (λ e. EachShows (heeds St.Device.tells St.Device.obeys) St.seen
            (disk_seen St.Device.counts St.Device.told St.Device.due) self.old e self.new) }
        ensures leaves { let look = disk_seen St.Device.counts St.Device.told St.Device.due in
            OnErr result (KeepsDisks (heeds St.Device.tells St.Device.obeys) St.seen look self.old self.new) }
        ensures asks { OnOk result (AsksOneAtMost self.old.calls self.new.calls) }
    {
        let TurnTaken {
            event,
            end,
            before,
            after,
        } = self.turn_here(alloc, key)?;
        let number = key.station;
        match end {
            TurnEnd::Up => Ok(entry_of_turn(alloc, event, number, before, after)),
            TurnEnd::Down => {
                self.vacate(number, None);
                let broken = self.lose(alloc, number)?;
                let mut entry = entry_of_turn(alloc, event, number, before, after);
                entry.broken = broken;
                Ok(entry)
            }
        }
    }

    /// The turn of an enabled key.
    pub fn take_key(&mut self, alloc: Global, key: Key) -> Result<Entry, AllocError>
        requires whole { FitsTogether St.seen self.old }
        requires enabled { HasTurn St.seen self.old key }
        requires calls { asked_in self.old < most_calls }
        ensures whole { OnOk result (FitsTogether St.seen self.new) }
        ensures taken { IfOk result (λ e. TakesAtEach St.Device.tells St.layout St.seen
            (disk_seen St.Device.counts St.Device.told St.Device.due) self.old self.new key e) }
        ensures starved { IfErr result (λ e. StarvesAtEach St.Device.tells St.layout St.seen
            (disk_seen St.Device.counts St.Device.told St.Device.due) self.old self.new key) }
        ensures shows { IfOk result (λ e. EachShows (heeds St.Device.tells St.Device.obeys) St.seen
            (disk_seen St.Device.counts St.Device.told St.Device.due) self.old e self.new) }
        ensures leaves { let look = disk_seen St.Device.counts St.Device.told St.Device.due in
            OnErr result (KeepsDisks (heeds St.Device.tells St.Device.obeys) St.seen look self.old self.new) }
        ensures asks { OnOk result (asked_in self.new ≤ suc (asked_in self.old)) }
    {
        if key.station == 0 {
            return self.hear(alloc, key.sender);
        }
        self.turn_at(alloc, key)
    }
}
