//! Walks: one call for each component of a path, and turns in between.
ghost use Rattle.std.specs.Prelude.{◌≡◌, ◌<◌, ◌+◌, ℕ, length, IfOk, OnOk, OnErr};
ghost use Rattle.journal.specs.Run.{components};
ghost use Rattle.journal.specs.declared.command.Command.TheVariants as command;
ghost use Rattle.runs.specs.Machines.{IsLeft};
ghost use Rattle.runs.specs.Walks.{sent};

use crate::machine::Machine;
use crate::path::components;
use crate::run::{Choice, Run};
use capability::Cap;
use eden_value::Txt;
use journal::{Entry, Event, Ref};
use std::alloc::{AllocError, Global};

// The number of the call that was sent, if it waits for an answer.
fn sent(entry: &Entry) -> Option<u32>
    ensures { result ≡ sent entry.now.event }
{
    match &entry.event {
        Event::Asked {
            call,
            at_once: None,
            ..
        } => Some(*call),
        _ => None,
    }
}

impl<M: Machine> Run<M> {
    ghost use Rattle.runs.specs.Runs.{CarriesCommand, PartOfCommand, KeepsShown, KeepsShownSoFar, HasNumbers, SparesNumbers};
    ghost use Rattle.runs.specs.Walks.{Asks, AskFails, Waits, PartOfWait};

    // Looks a component up, and tells the number of the call if its answer is waited for.
    fn ask(
        &mut self,
        alloc: Global,
        name: &Txt,
        directory: Option<Cap>,
        component: &Txt,
    ) -> Result<Option<u32>, AllocError>
        requires whole { M.whole self.old.machine }
        requires calls { HasNumbers M.asked self.old 1 }
        ensures done { IfOk result (Asks M.stands M.did self.old self.new name.now directory component.now) }
        ensures fails { OnErr result (AskFails M.stands M.did M.starved self.old self.new name.now directory component.now) }
        ensures history { OnErr result (self.new.history.items ≡ self.old.history.items) }
        ensures left { OnErr result (IsLeft M.whole M.leaves self.old.machine self.new.machine) }
        ensures shown { OnOk result (KeepsShown M.shows self.old self.new) }
        ensures whole { OnOk result (M.whole self.new.machine) }
        ensures asks { OnOk result (SparesNumbers M.asked self.old 1 self.new 0) }
    {
        self.history.reserve(1)?;
        let entry = self.machine.look_up(alloc, name, directory, component)?;
        let call = sent(&entry);
        self.again = false;
        self.history.push_reserved(entry);
        Ok(call)
    }

    // Takes turns until the call is answered, and tells whether it was: there may be no turn left.
    fn wait(&mut self, alloc: Global, name: &Txt, call: u32) -> Result<bool, AllocError>
        requires whole { M.whole self.old.machine }
        requires calls { HasNumbers M.asked self.old 0 }
        ensures done { IfOk result (Waits M.stands M.did self.old self.new name.now call) }
        ensures part { OnErr result (PartOfWait M.stands M.did M.starved self.old self.new name.now call) }
        ensures shown { OnOk result (KeepsShown M.shows self.old self.new) }
        ensures whole { OnOk result (M.whole self.new.machine) }
        ensures shown_part { OnErr result (KeepsShownSoFar M.shows M.whole M.leaves self.old self.new) }
        ensures asks { OnOk result (SparesNumbers M.asked self.old 0 self.new 0) }
    {
        while self.take_turn(alloc, Choice::Following)? {
            if !self.machine.is_open(call) {
                return Ok(true);
            }
        }
        Ok(false)
    }

    // Looks the components of a path up, one behind the other.
    pub fn walk(
        &mut self,
        alloc: Global,
        name: &Txt,
        target: &Ref,
        path: &Txt,
    ) -> Result<(), AllocError>
        requires whole { M.whole self.old.machine }
        requires calls { HasNumbers M.asked self.old (length (components path.now)) }
        ensures done { OnOk result (CarriesCommand M.stands M.did self.old self.new (command.Walk name.now target.now path.now)) }
        ensures part { OnErr result (PartOfCommand M.stands M.did M.starved self.old self.new (command.Walk name.now target.now path.now)) }
        ensures shown { OnOk result (KeepsShown M.shows self.old self.new) }
        ensures whole { OnOk result (M.whole self.new.machine) }
        ensures shown_part { OnErr result (KeepsShownSoFar M.shows M.whole M.leaves self.old self.new) }
        ensures asks { OnOk result (SparesNumbers M.asked self.old (length (components path.now)) self.new 0) }
    {
        let parts = components(alloc, path.as_slice())?;
        let mut directory = self.machine.capability(target);
        for part in &parts {
            let Some(call) = self.ask(alloc, name, directory, part)? else {
                return Ok(());
            };
            if !self.wait(alloc, name, call)? {
                return Ok(());
            }
            if !self.machine.found(name) {
                return Ok(());
            }
            directory = self.machine.next_directory(name);
        }
        Ok(())
    }
}
