//! The processes of an active Eject.
ghost use Rattle.std.specs.Prelude.{◌≡◌, IfOk, IfSome, IsSomeAnd, Some};
ghost use Rattle.std.specs.Option.{option_map};
ghost use Rattle.eden_model.specs.Crew.{Runs, Waits, outside, set_waits};
ghost use Rattle.epl_syntax.specs.Meaning.{Turned};
ghost use Rattle.epl_syntax.specs.Rules.OfTypes.{TypeList};
ghost use Rattle.journal.specs.Ejects.{on_active, on_crew, told};
ghost use Rattle.journal.specs.Processes.{serving, turn_of, turned, waits_or_told, without_process};
ghost use Rattle.active_part.specs.View.{coordination_of, stepped, MayTake};
ghost use Rattle.plain_ejects.specs.View.{eject_of, active_in};

use crate::PlainEject;
use active_part::Step;
use capability::Uid;
use eden_value::Status;
use epl_syntax::{Answer, Effect, Types};
use std::alloc::{AllocError, Global};

impl PlainEject {
    /// A process that waits for what is outside is told an answer.
    pub fn tell(&mut self, process: u8, answer: Answer)
        ensures { (ts : TypeList) → IfSome (active_in ts self.old) (λ it. Waits it.crew process outside)
            → eject_of ts self.new ≡ on_active (told process answer) (eject_of ts self.old) }
    {
        match &mut self.part {
            Some(part) => part.tell(process, answer),
            None => {}
        }
    }

    /// A process that runs takes its turn, up to its effect.
    pub fn turn(
        &mut self,
        alloc: Global,
        types: &Types,
        process: u8,
        me: Uid,
    ) -> Result<Option<Effect>, AllocError>
        requires { IfSome self.old.part (λ it. Runs (coordination_of it).crew process) }
        ensures { IfOk result (λ it. IfSome it (λ e. (t : Turned)
            → IsSomeAnd (active_in types.now self.old) (λ a. turn_of me a process ≡ Some t)
            → (e ≡ t.effect) × (eject_of types.now self.new ≡ on_active (turned process t) (eject_of types.now self.old)))) }
    {
        match &mut self.part {
            Some(part) => Ok(Some(part.turn(alloc, types, process, me)?)),
            None => Ok(None),
        }
    }

    /// A process that runs ends; the call that it served.
    pub fn end(&mut self, process: u8) -> Option<u32>
        requires { IfSome self.old.part (λ it. Runs (coordination_of it).crew process) }
        ensures served { (ts : TypeList) → IfSome (active_in ts self.old) (λ a. result ≡ option_map (λ i. i.call) (serving a process)) }
        ensures after { (ts : TypeList) → eject_of ts self.new ≡ on_active (without_process process) (eject_of ts self.old) }
    {
        match &mut self.part {
            Some(part) => part.end(process),
            None => None,
        }
    }

    /// A process that runs waits for the store.
    pub fn wait(&mut self, process: u8)
        requires { IfSome self.old.part (λ it. Runs (coordination_of it).crew process) }
        ensures { (ts : TypeList) → eject_of ts self.new ≡ on_active (on_crew (set_waits process outside)) (eject_of ts self.old) }
    {
        match &mut self.part {
            Some(part) => part.block(process),
            None => {}
        }
    }

    /// A process that runs waits for a call that it made, or is told the status that refused it at once.
    pub fn ask(&mut self, alloc: Global, process: u8, at_once: Option<Status>)
        requires { IfSome self.old.part (λ it. Runs (coordination_of it).crew process) }
        ensures { (ts : TypeList) → eject_of ts self.new ≡ on_active (waits_or_told process at_once) (eject_of ts self.old) }
    {
        match &mut self.part {
            Some(part) => part.ask(alloc, process, at_once),
            None => {}
        }
    }

    /// A process that runs does something at its monitors, where it may.
    pub fn coordinate(&mut self, process: u8, step: Step)
        requires { IfSome self.old.part (λ it. Runs (coordination_of it).crew process) }
        ensures { (ts : TypeList) → IfSome self.old.part (λ it. MayTake (coordination_of it).crew process step)
            → eject_of ts self.new ≡ on_active (on_crew (stepped step process)) (eject_of ts self.old) }
    {
        match &mut self.part {
            Some(part) => part.coordinate(process, step),
            None => {}
        }
    }
}
