//! The world is a machine that runs scripts.
ghost use Rattle.std.specs.Prelude.{ℕ};
ghost use Rattle.passive_store.specs.Seen.{disk_seen};
ghost use Rattle.eden_world.specs.InHand.{Did, Ends, Stands};
ghost use Rattle.eden_world.specs.Listed.{HasTurn};
ghost use Rattle.eden_world.specs.Seated.{EachShows, FitsTogether, KeepsDisks, asked_in, heeds};

use crate::World;
use capability::Cap;
use eden_value::Txt;
use journal::{Command, Entry, Key, Ref};
use passive_store::Store;
use runs::Machine;
use std::alloc::{AllocError, Global};

impl<St: Store + Drop> Machine for World<St>
where
    St::Device: Drop,
{
    ghost whole = { FitsTogether St.seen };

    ghost stands = { Stands St.Device.tells St.layout St.seen (disk_seen St.Device.counts St.Device.told St.Device.due) };

    ghost did = { Did St.layout St.seen (disk_seen St.Device.counts St.Device.told St.Device.due) };

    ghost starved = { Ends St.layout St.seen (disk_seen St.Device.counts St.Device.told St.Device.due) };

    ghost shows = { EachShows (heeds St.Device.tells St.Device.obeys) St.seen (disk_seen St.Device.counts St.Device.told St.Device.due) };

    ghost enables = { HasTurn St.seen };

    ghost asked = { asked_in };

    ghost leaves = { KeepsDisks (heeds St.Device.tells St.Device.obeys) St.seen (disk_seen St.Device.counts St.Device.told St.Device.due) };

    fn calls_asked(&self) -> usize {
        self.calls.all().len()
    }

    fn following(&self, last: Option<Key>) -> Option<Key> {
        self.key_following(last)
    }

    fn may_take(&self, key: Key) -> bool {
        self.has_turn(key)
    }

    fn item(&self, i: u32) -> Option<Key> {
        self.key_at(i)
    }

    fn take(&mut self, alloc: Global, key: Key) -> Result<Entry, AllocError> {
        self.take_key(alloc, key)
    }

    fn carry_out(&mut self, alloc: Global, command: &Command) -> Result<Entry, AllocError> {
        self.carry(alloc, command)
    }

    fn look_up(
        &mut self,
        alloc: Global,
        name: &Txt,
        directory: Option<Cap>,
        component: &Txt,
    ) -> Result<Entry, AllocError> {
        self.walk(alloc, name, directory, component)
    }

    fn capability(&self, by: &Ref) -> Option<Cap> {
        self.names.capability(by)
    }

    fn found(&self, name: &Txt) -> bool {
        self.names.found(name)
    }

    fn next_directory(&self, name: &Txt) -> Option<Cap> {
        self.names.next_directory(name)
    }

    fn is_open(&self, call: u32) -> bool {
        match self.calls.call(call) {
            Some(call) => !call.closed,
            None => false,
        }
    }
}
