//! Commands that change what names stand for.
ghost use Rattle.std.specs.Prelude.{IfOk, IfErr, OnOk, OnErr};
ghost use Rattle.passive_store.specs.Seen.{disk_seen};
ghost use Rattle.journal.specs.declared.command.Command.TheVariants as commands;
ghost use Rattle.ejects.specs.Counts.{AsksOneAtMost};
ghost use Rattle.eden_world.specs.Carried.{CarriesBy, EndsStill};
ghost use Rattle.eden_world.specs.Seated.{EachShows, FitsTogether, KeepsDisks, heeds};

use crate::World;
use crate::entries::entry_of_none;
use capability::{Rights, Uid};
use eden_value::Txt;
use journal::{Entry, Ref};
use passive_store::Store;
use std::alloc::{AllocError, Global};

impl<St: Store + Drop> World<St>
where
    St::Device: Drop,
{
    // A name stands for the capability of this uid from now on.
    pub(crate) fn hold(&mut self, alloc: Global, name: &Txt, uid: Uid) -> Result<Entry, AllocError>
        requires { FitsTogether St.seen self.old }
        ensures whole { OnOk result (FitsTogether St.seen self.new) }
        ensures carried { let look = disk_seen St.Device.counts St.Device.told St.Device.due in
            IfOk result (CarriesBy St.Device.tells St.layout St.seen look self.old self.new (commands.Hold name.now uid)) }
        ensures starved { let look = disk_seen St.Device.counts St.Device.told St.Device.due in
            IfErr result (λ _. EndsStill St.Device.tells St.layout St.seen look self.old self.new) }
        ensures shows { let look = disk_seen St.Device.counts St.Device.told St.Device.due in
            IfOk result (λ e. EachShows (heeds St.Device.tells St.Device.obeys) St.seen look self.old e self.new) }
        ensures leaves { let look = disk_seen St.Device.counts St.Device.told St.Device.due in
            OnErr result (KeepsDisks (heeds St.Device.tells St.Device.obeys) St.seen look self.old self.new) }
        ensures asks { OnOk result (AsksOneAtMost self.old.calls self.new.calls) }
    {
        let event = self.names.hold(alloc, name, uid)?;
        Ok(entry_of_none(alloc, event))
    }

    // A name stands for a capability with fewer rights from now on, if there is such a capability.
    pub(crate) fn restrict(
        &mut self,
        alloc: Global,
        name: &Txt,
        target: &Ref,
        mask: Rights,
    ) -> Result<Entry, AllocError>
        requires { FitsTogether St.seen self.old }
        ensures whole { OnOk result (FitsTogether St.seen self.new) }
        ensures carried { let look = disk_seen St.Device.counts St.Device.told St.Device.due in
            IfOk result (CarriesBy St.Device.tells St.layout St.seen look self.old self.new (commands.Restrict name.now target.now mask)) }
        ensures starved { let look = disk_seen St.Device.counts St.Device.told St.Device.due in
            IfErr result (λ _. EndsStill St.Device.tells St.layout St.seen look self.old self.new) }
        ensures shows { let look = disk_seen St.Device.counts St.Device.told St.Device.due in
            IfOk result (λ e. EachShows (heeds St.Device.tells St.Device.obeys) St.seen look self.old e self.new) }
        ensures leaves { let look = disk_seen St.Device.counts St.Device.told St.Device.due in
            OnErr result (KeepsDisks (heeds St.Device.tells St.Device.obeys) St.seen look self.old self.new) }
        ensures asks { OnOk result (AsksOneAtMost self.old.calls self.new.calls) }
    {
        let event = self.names.restrict(alloc, name, target, mask)?;
        Ok(entry_of_none(alloc, event))
    }
}
