//! Ejects are created by command.
ghost use Rattle.std.specs.Prelude.{◌≡◌, ℕ, List, Some, IfOk, IfErr, OnOk, OnErr, is_some, true};
ghost use Rattle.epl_syntax.specs.Meaning.{type_of, types_in};
ghost use Rattle.edentypes.specs.View.{kind_in};
ghost use Rattle.passive_store.specs.Seen.{disk_seen};
ghost use Rattle.journal.specs.declared.command.Command.TheVariants as commands;
ghost use Rattle.ejects.specs.Counts.{AsksOneAtMost};
ghost use Rattle.eden_world.specs.Carried.{CarriesBy, CreatesIn, EndsStill};
ghost use Rattle.eden_world.specs.Creating.{MadeAt, creates_at, status_of};
ghost use Rattle.scheduled_node.specs.Scheduled.{uid_made};
ghost use Rattle.eden_world.specs.Seated.{EachShows, FitsTogether, KeepsDisks, heeds, station_at};

use crate::entries::entry_of_none;
use crate::{Seat, World};
use capability::Uid;
use eden_value::{Status, Txt};
use edentypes::Kind;
use journal::Entry;
use passive_store::Store;
use std::alloc::{AllocError, Global};

// How a creation ended, and the uid of the new Eject, if there is one.
fn ended(made: Result<Uid, Status>) -> (Status, Option<Uid>)
    ensures status { result.0 ≡ status_of made }
    ensures uid { result.1 ≡ uid_made made }
{
    match made {
        Ok(uid) => (Status::Ok, Some(uid)),
        Err(status) => (status, None),
    }
}

impl<St: Store + Drop> World<St>
where
    St::Device: Drop,
{
    // The node that is up there creates an Eject of this type, whatever its name, or says why not.
    fn create_at(
        &mut self,
        alloc: Global,
        node: u8,
        kind: Kind,
    ) -> Result<Result<Uid, Status>, AllocError>
        requires whole { FitsTogether St.seen self.old }
        requires up { is_some (station_at self.old node) ≡ true }
        ensures whole { OnOk result (FitsTogether St.seen self.new) }
        ensures made { (name : List ℕ) → type_of (types_in self.old.types) name ≡ Some (kind_in self.old.types kind)
            → IfOk result (CreatesIn St.Device.tells St.layout St.seen node name self.old self.new) }
        ensures starved { let look = disk_seen St.Device.counts St.Device.told St.Device.due in
            IfErr result (λ _. EndsStill St.Device.tells St.layout St.seen look self.old self.new) }
        ensures leaves { let look = disk_seen St.Device.counts St.Device.told St.Device.due in
            OnErr result (KeepsDisks (heeds St.Device.tells St.Device.obeys) St.seen look self.old self.new) }
        ensures calls { self.new.calls ≡ self.old.calls }
    {
        match self.unseat(node) {
            Seat::Up { mut station } => {
                let made = station.create(alloc, &self.types, kind);
                self.set_seat(node, Seat::Up { station });
                made
            }
            Seat::Down { .. } => unreachable!(),
            Seat::Moving => unreachable!(),
        }
    }

    // The same of a node that is reached and up, by the name of a type that there is; else none is created.
    fn create_reached(
        &mut self,
        alloc: Global,
        node: u8,
        type_name: &Txt,
    ) -> Result<Result<Uid, Status>, AllocError>
        requires { FitsTogether St.seen self.old }
        ensures whole { OnOk result (FitsTogether St.seen self.new) }
        ensures made { IfOk result (MadeAt (creates_at self.old node type_name.now) St.Device.tells St.layout St.seen node type_name.now
            self.old self.new) }
        ensures starved { let look = disk_seen St.Device.counts St.Device.told St.Device.due in
            IfErr result (λ _. EndsStill St.Device.tells St.layout St.seen look self.old self.new) }
        ensures leaves { let look = disk_seen St.Device.counts St.Device.told St.Device.due in
            OnErr result (KeepsDisks (heeds St.Device.tells St.Device.obeys) St.seen look self.old self.new) }
        ensures calls { self.new.calls ≡ self.old.calls }
    {
        match edentypes::find(&self.types, type_name) {
            Some(kind) if self.places.reach(0, node) && self.is_up(node) => {
                self.create_at(alloc, node, kind)
            }
            _ => Ok(Err(Status::Unreachable)),
        }
    }

    // An Eject of this type is created on a node, if that is reached. The name stands for its capability, or for nothing.
    pub(crate) fn create(
        &mut self,
        alloc: Global,
        name: &Txt,
        node: u8,
        type_name: &Txt,
    ) -> Result<Entry, AllocError>
        requires { FitsTogether St.seen self.old }
        ensures whole { OnOk result (FitsTogether St.seen self.new) }
        ensures carried { let look = disk_seen St.Device.counts St.Device.told St.Device.due in
            IfOk result (CarriesBy St.Device.tells St.layout St.seen look self.old self.new (commands.Create name.now node type_name.now)) }
        ensures starved { let look = disk_seen St.Device.counts St.Device.told St.Device.due in
            IfErr result (λ _. EndsStill St.Device.tells St.layout St.seen look self.old self.new) }
        ensures shows { let look = disk_seen St.Device.counts St.Device.told St.Device.due in
            IfOk result (λ e. EachShows (heeds St.Device.tells St.Device.obeys) St.seen look self.old e self.new) }
        ensures leaves { let look = disk_seen St.Device.counts St.Device.told St.Device.due in
            OnErr result (KeepsDisks (heeds St.Device.tells St.Device.obeys) St.seen look self.old self.new) }
        ensures asks { OnOk result (AsksOneAtMost self.old.calls self.new.calls) }
    {
        let made = self.create_reached(alloc, node, type_name)?;
        let (status, uid) = ended(made);
        let event = self.names.create(alloc, name, status, uid)?;
        Ok(entry_of_none(alloc, event))
    }
}
