//! Calls of the shell.
ghost use Rattle.std.specs.Prelude.{◌≡◌, ◌∷◌, [], IfOk, IfErr, OnOk, codes, OnErr, ◌<◌, length};
ghost use Rattle.journal.specs.Run.{lookup_args};
ghost use Rattle.passive_store.specs.Seen.{disk_seen};
ghost use Rattle.journal.specs.declared.command.Command.TheVariants as commands;
ghost use Rattle.ejects.specs.Counts.{AsksOneAtMost};
ghost use Rattle.eden_world.specs.Carried.{CallsBy, CarriesBy, EndsStill, LooksUpBy, WalksBy};
ghost use Rattle.eden_world.specs.Seated.{EachShows, FitsTogether, KeepsDisks, heeds};

use crate::World;
use crate::entries::entry_of_none;
use capability::Cap;
use eden_model::Asker;
use eden_value::{Items, Txt, Value, texted};
use invocation::Asked;
use journal::{Args, Entry, Event, Ref};
use passive_store::Store;
use std::alloc::{AllocError, Global};

// The operation by which a directory is asked for a component, and its argument.
fn look_up_of(alloc: Global, component: &Txt) -> Result<(Txt, Items), AllocError>
    ensures { IfOk result (λ it. (it.0 ≡ codes "LookUp") × (it.1 ≡ lookup_args (component.now ∷ []))) }
{
    let operation = texted(b"LookUp".to_vec(alloc)?)?;
    let mut values = Vec::new(alloc);
    values.reserve(1)?;
    values.push_reserved(Value::Text {
        text: component.share()?,
    });
    Ok((operation, Items { values }))
}

impl<St: Store + Drop> World<St>
where
    St::Device: Drop,
{
    // The shell asks a call under this name.
    fn ask(
        &mut self,
        alloc: Global,
        name: &Txt,
        target: Cap,
        operation: Txt,
        args: Items,
    ) -> Result<Entry, AllocError>
        requires whole { FitsTogether St.seen self.old }
        requires calls { length self.old.calls.calls < 4294967295 }
        ensures whole { OnOk result (FitsTogether St.seen self.new) }
        ensures called { let look = disk_seen St.Device.counts St.Device.told St.Device.due in
            IfOk result (CallsBy St.Device.tells St.layout St.seen look self.old self.new name.now target operation args) }
        ensures walked { let look = disk_seen St.Device.counts St.Device.told St.Device.due in
            IfOk result (WalksBy St.Device.tells St.layout St.seen look self.old self.new name.now target operation args) }
        ensures starved { let look = disk_seen St.Device.counts St.Device.told St.Device.due in
            IfErr result (λ _. EndsStill St.Device.tells St.layout St.seen look self.old self.new) }
        ensures shows { let look = disk_seen St.Device.counts St.Device.told St.Device.due in
            IfOk result (λ e. EachShows (heeds St.Device.tells St.Device.obeys) St.seen look self.old e self.new) }
        ensures leaves { let look = disk_seen St.Device.counts St.Device.told St.Device.due in
            OnErr result (KeepsDisks (heeds St.Device.tells St.Device.obeys) St.seen look self.old self.new) }
        ensures asks { OnOk result (AsksOneAtMost self.old.calls self.new.calls) }
    {
        let asker = Asker::Shell {
            name: name.share()?,
        };
        let Asked { call, at_once } = self
            .calls
            .ask(alloc, asker, target, operation, args, &self.places)?;
        let event = self.names.ask(alloc, name, call, at_once)?;
        Ok(entry_of_none(alloc, event))
    }

    // What the arguments of a call stand for, and the call; or it is void.
    pub(crate) fn call(
        &mut self,
        alloc: Global,
        name: &Txt,
        target: &Ref,
        operation: &Txt,
        args: &Args,
    ) -> Result<Entry, AllocError>
        requires whole { FitsTogether St.seen self.old }
        requires calls { length self.old.calls.calls < 4294967295 }
        ensures whole { OnOk result (FitsTogether St.seen self.new) }
        ensures carried { let look = disk_seen St.Device.counts St.Device.told St.Device.due in
            IfOk result (CarriesBy St.Device.tells St.layout St.seen look self.old self.new
            (commands.Call name.now target.now operation.now args.now)) }
        ensures starved { let look = disk_seen St.Device.counts St.Device.told St.Device.due in
            IfErr result (λ _. EndsStill St.Device.tells St.layout St.seen look self.old self.new) }
        ensures shows { let look = disk_seen St.Device.counts St.Device.told St.Device.due in
            IfOk result (λ e. EachShows (heeds St.Device.tells St.Device.obeys) St.seen look self.old e self.new) }
        ensures leaves { let look = disk_seen St.Device.counts St.Device.told St.Device.due in
            OnErr result (KeepsDisks (heeds St.Device.tells St.Device.obeys) St.seen look self.old self.new) }
        ensures asks { OnOk result (AsksOneAtMost self.old.calls self.new.calls) }
    {
        match self.names.ready(alloc, target, args)? {
            Some((cap, items)) => {
                let operation = operation.share()?;
                self.ask(alloc, name, cap, operation, items)
            }
            None => {
                let name = name.share()?;
                Ok(entry_of_none(alloc, Event::Void { name }))
            }
        }
    }

    // A walk under this name asks this directory, if it is one, for a component.
    pub(crate) fn walk(
        &mut self,
        alloc: Global,
        name: &Txt,
        directory: Option<Cap>,
        component: &Txt,
    ) -> Result<Entry, AllocError>
        requires whole { FitsTogether St.seen self.old }
        requires calls { length self.old.calls.calls < 4294967295 }
        ensures whole { OnOk result (FitsTogether St.seen self.new) }
        ensures looked { let look = disk_seen St.Device.counts St.Device.told St.Device.due in
            IfOk result (LooksUpBy St.Device.tells St.layout St.seen look self.old self.new name.now directory component.now) }
        ensures starved { let look = disk_seen St.Device.counts St.Device.told St.Device.due in
            IfErr result (λ _. EndsStill St.Device.tells St.layout St.seen look self.old self.new) }
        ensures shows { let look = disk_seen St.Device.counts St.Device.told St.Device.due in
            IfOk result (λ e. EachShows (heeds St.Device.tells St.Device.obeys) St.seen look self.old e self.new) }
        ensures leaves { let look = disk_seen St.Device.counts St.Device.told St.Device.due in
            OnErr result (KeepsDisks (heeds St.Device.tells St.Device.obeys) St.seen look self.old self.new) }
        ensures asks { OnOk result (AsksOneAtMost self.old.calls self.new.calls) }
    {
        match directory {
            Some(cap) => {
                let (operation, args) = look_up_of(alloc, component)?;
                self.ask(alloc, name, cap, operation, args)
            }
            None => {
                let name = name.share()?;
                Ok(entry_of_none(alloc, Event::Void { name }))
            }
        }
    }
}
