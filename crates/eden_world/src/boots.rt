//! Nodes come up.
ghost use Rattle.std.specs.Prelude.{◌≡◌, ◌≤◌, IfOk, IfErr, OnOk, OnErr};
ghost use Rattle.passive_store.specs.Seen.{disk_seen};
ghost use Rattle.journal.specs.declared.command.Command.TheVariants as commands;
ghost use Rattle.journal.specs.declared.event.Event.TheVariants as events;
ghost use Rattle.ejects.specs.Counts.{AsksOneAtMost};
ghost use Rattle.eden_world.specs.Carried.{CarriesBy, Starves};
ghost use Rattle.eden_world.specs.Seated.{EachShows, FitsTogether, KeepsDisks, heeds};

use crate::entries::{entry, entry_of_none};
use crate::{Seat, World};
use checkpoint::{BootFall, BootNote};
use journal::{BootEnd, Entry, Event};
use passive_store::Store;
use scheduled_node::ScheduledNode;
use std::alloc::{AllocError, Global};

// The event of a boot.
fn boot_event(number: u8, note: &BootNote, end: BootEnd) -> Event
    ensures { result ≡ events.Boot number note.now.epoch end note.now.pick note.now.began }
{
    Event::Boot {
        node: number,
        epoch: note.epoch,
        end,
        pick: note.pick,
        began: note.began,
    }
}

impl<St: Store + Drop> World<St>
where
    St::Device: Drop,
{
    // A node is booted, unless it is up. Where there is no such place nothing is.
    pub(crate) fn restart(&mut self, alloc: Global, number: u8) -> Result<Entry, AllocError>
        requires whole { FitsTogether St.seen self.old }
        requires first { 1 ≤ number }
        requires last { number ≤ 8 }
        ensures whole { OnOk result (FitsTogether St.seen self.new) }
        ensures carried { let look = disk_seen St.Device.counts St.Device.told St.Device.due in
            IfOk result (CarriesBy St.Device.tells St.layout St.seen look self.old self.new (commands.Restart number)) }
        ensures starved { let look = disk_seen St.Device.counts St.Device.told St.Device.due in
            IfErr result (λ _. Starves St.Device.tells St.layout St.seen look self.old self.new (commands.Restart number)) }
        ensures shows { let look = disk_seen St.Device.counts St.Device.told St.Device.due in
            IfOk result (λ e. EachShows (heeds St.Device.tells St.Device.obeys) St.seen look self.old e self.new) }
        ensures leaves { let look = disk_seen St.Device.counts St.Device.told St.Device.due in
            OnErr result (KeepsDisks (heeds St.Device.tells St.Device.obeys) St.seen look self.old self.new) }
        ensures asks { OnOk result (AsksOneAtMost self.old.calls self.new.calls) }
    {
        if self.station(number).is_some() {
            let event = Event::Still {
                node: number,
                up: true,
            };
            return Ok(entry_of_none(alloc, event));
        }
        if self.seat(number).is_none() {
            let event = Event::Still {
                node: number,
                up: false,
            };
            return Ok(entry_of_none(alloc, event));
        }
        let (disk, doubt) = match self.unseat(number) {
            Seat::Down { disk, doubt } => (disk, doubt),
            _ => unreachable!(),
        };
        match ScheduledNode::<St>::boot(alloc, disk, number, doubt) {
            Ok((station, note)) => {
                self.set_seat(number, Seat::Up { station });
                self.places.set_up(number, true);
                let clock = self.clock_at(number);
                let event = boot_event(number, &note, BootEnd::Up);
                Ok(entry(alloc, event, number, clock))
            }
            Err((disk, fall)) => {
                let BootFall { note, end, doubt } = fall;
                self.set_seat(number, Seat::Down { disk, doubt });
                let clock = self.clock_at(number);
                match end {
                    Some(end) => Ok(entry(alloc, boot_event(number, &note, end), number, clock)),
                    None => Err(AllocError),
                }
            }
        }
    }
}
