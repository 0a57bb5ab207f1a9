//! Turns of processes.
ghost use Rattle.std.specs.Prelude.{◌≡◌, ◌↔◌, ◌≤◌, IsSome, IsSomeAnd, IsTrue, true, false, ◌<◌, ℕ, Bool};
ghost use Rattle.std.specs.Prelude.{IfOk, OnOk, Some, None, length};
ghost use Rattle.std.specs.Option.{option_map};
ghost use Rattle.epl_syntax.specs.Meaning.{Turned};
ghost use Rattle.journal.specs.Processes.{turn_of};
ghost use Rattle.journal.specs.World.{Site};
ghost use Rattle.journal.specs.Sites.{IsSoundSite};
ghost use Rattle.epl_syntax.specs.Rules.OfTypes.{TypeList};
ghost use Rattle.active_part.specs.Body.{Body, active_of};
ghost use Rattle.ejects.specs.Counts.{AsksNone, AsksOneAtMost};
ghost use Rattle.ejects.specs.Parts.{Parts, body_at, IsAt, IsStep};
ghost use Rattle.active_part.specs.View.{stepped, MayTake};
ghost use Rattle.ejects.specs.Replies.{Returned, Invoked, Reaches};
ghost use Rattle.passive_store.specs.Kept.{Work, IsEject};
ghost use Rattle.journal.specs.Step.{site_turn};
ghost use Rattle.checkpoint.specs.Asked.{requests_of, AllOfNode};
ghost use Rattle.checkpoint.specs.Queues.{AllAnswerBut};
ghost use Rattle.ejects.specs.Asking.{RequestsAre};
ghost use Rattle.ejects.specs.Creations.{MayTurn};
ghost use Rattle.ejects.specs.Events.{IsTurnOf};
ghost use Rattle.ejects.specs.Marks.{IsReady};
ghost use Rattle.ejects.specs.Turned.{HasTurned, shown_step};
ghost use Rattle.journal.specs.declared.event.Event.TheVariants as event;
ghost use Rattle.ejects.specs.Passive.{IsKeptIn};
ghost use Rattle.active_part.specs.Bodies.{turned_body, ended_body, asking_body, crewed_body, serves_of};
ghost use Rattle.ejects.specs.View.{RunsIn, part_at, parts_of, with_body};

use crate::Ejects;
use crate::replies::send_results;
use active_part::Step;
use capability::{Cap, Uid};
use checkpoint::Worker;
use eden_value::{Items, Status, Txt};
use epl_syntax::{Effect, Types};
use invocation::{Asker, Calls};
use journal::{Event, Shown};
use locator::Places;
use std::alloc::{AllocError, Global};

impl Ejects {
    /// Whether the Eject is active and this process of it waits for nothing.
    pub fn is_ready(&self, uid: Uid, process: u8) -> bool
        ensures { (ts : TypeList) → IsTrue result ↔ IsReady (body_at (parts_of ts self.now) uid) process }
    {
        match self.table.active(uid) {
            Some(part) => part.runs(process),
            None => false,
        }
    }

    // A process takes its turn, up to its effect.
    fn turn_at(
        &mut self,
        alloc: Global,
        types: &Types,
        uid: Uid,
        process: u8,
    ) -> Result<Effect, AllocError>
        requires { RunsIn self.old uid process }
        ensures turned { IfOk result (λ e. (b : Body) (t : Turned) → body_at (parts_of types.now self.old) uid ≡ Some b
            → turn_of uid (active_of b) process ≡ Some t
            → (e ≡ t.effect) × (parts_of types.now self.new ≡ with_body uid (turned_body process t b) (parts_of types.now self.old))) }
        ensures runs { OnOk result (RunsIn self.new uid process) }
    {
        match self.table.active_mut(uid) {
            Some(part) => {
                let effect = part.turn(alloc, types, process, uid)?;
                Ok(effect)
            }
            None => unreachable!(),
        }
    }

    // A process ends; the call that it served.
    pub(crate) fn end_at(&mut self, uid: Uid, process: u8) -> Option<u32>
        requires { RunsIn self.old uid process }
        ensures { (ts : TypeList) (b : Body) → body_at (parts_of ts self.old) uid ≡ Some b
            → (result ≡ option_map (λ i. i.call) (serves_of b process))
            × (parts_of ts self.new ≡ with_body uid (ended_body process b) (parts_of ts self.old)) }
    {
        match self.table.active_mut(uid) {
            Some(part) => part.end(process),
            None => unreachable!(),
        }
    }

    // A process returns: it ends, and the call that it served is answered.
    fn returns(
        &mut self,
        alloc: Global,
        calls: &mut Calls,
        uid: Uid,
        process: u8,
        results: Items,
    ) -> Result<Shown, AllocError>
        requires { RunsIn self.old uid process }
        ensures returned { IfOk result (λ said. (ts : TypeList) (b : Body) → body_at (parts_of ts self.old) uid ≡ Some b
            → Returned uid process results b (parts_of ts self.old) (parts_of ts self.new) calls.old calls.new said) }
        ensures asks { OnOk result (AsksNone calls.old calls.new) }
    {
        match self.end_at(uid, process) {
            Some(call) => {
                send_results(alloc, calls, call, results)?;
                Ok(Shown::Return { call })
            }
            None => Ok(Shown::End),
        }
    }

    // A process does something at its monitors, where it may.
    pub(crate) fn coordinate_at(&mut self, uid: Uid, process: u8, step: Step)
        requires { RunsIn self.old uid process }
        ensures { (ts : TypeList) (b : Body) → body_at (parts_of ts self.old) uid ≡ Some b → MayTake b.crew.crew process step
            → parts_of ts self.new ≡ with_body uid (crewed_body (stepped step process) b) (parts_of ts self.old) }
    {
        match self.table.active_mut(uid) {
            Some(part) => part.coordinate(process, step),
            None => unreachable!(),
        }
    }

    // The same, and what is shown of it.
    fn coordinates(&mut self, uid: Uid, process: u8, step: Step) -> Shown
        requires { RunsIn self.old uid process }
        ensures shown { result ≡ shown_step step }
        ensures parts { (ts : TypeList) (b : Body) → body_at (parts_of ts self.old) uid ≡ Some b → MayTake b.crew.crew process step
            → parts_of ts self.new ≡ with_body uid (crewed_body (stepped step process) b) (parts_of ts self.old) }
    {
        self.coordinate_at(uid, process, step);
        match step {
            Step::Lock { .. } => Shown::Lock,
            Step::Leave { .. } => Shown::Leave,
            Step::Wait { .. } => Shown::Wait,
            Step::Signal { .. } => Shown::Signal,
        }
    }

    // A process waits for the call that it made, or is told at once.
    fn ask_at(&mut self, alloc: Global, uid: Uid, process: u8, at_once: Option<Status>)
        requires { RunsIn self.old uid process }
        ensures { (ts : TypeList) (b : Body) → body_at (parts_of ts self.old) uid ≡ Some b
            → parts_of ts self.new ≡ with_body uid (asking_body process at_once b) (parts_of ts self.old) }
    {
        match self.table.active_mut(uid) {
            Some(part) => part.ask(alloc, process, at_once),
            None => unreachable!(),
        }
    }

    // A process asks an operation of an Eject.
    fn invokes(
        &mut self,
        alloc: Global,
        calls: &mut Calls,
        places: &Places,
        uid: Uid,
        process: u8,
        target: Cap,
        operation: Txt,
        args: Items,
    ) -> Result<Shown, AllocError>
        requires calls { length calls.old.calls < 4294967295 }
        requires node { uid.node ≤ 8 }
        requires runs { RunsIn self.old uid process }
        ensures invoked { IfOk result (λ said. (ts : TypeList) (b : Body) → body_at (parts_of ts self.old) uid ≡ Some b
            → Invoked places.now uid process target operation args b (parts_of ts self.old) (parts_of ts self.new)
            calls.old calls.new said) }
        ensures asks { OnOk result (AsksOneAtMost calls.old calls.new) }
    {
        let asker = Asker::Eject { uid, process };
        let asked = calls.ask(alloc, asker, target, operation, args, places)?;
        self.ask_at(alloc, uid, process, asked.at_once);
        Ok(Shown::Invoke { call: asked.call })
    }

    // What a process asks for in its turn is carried out, and shown.
    fn carry_out(
        &mut self,
        alloc: Global,
        types: &Types,
        calls: &mut Calls,
        places: &Places,
        worker: &mut Worker,
        uid: Uid,
        process: u8,
        stays: bool,
        effect: Effect,
    ) -> Result<Shown, AllocError>
        requires calls { length calls.old.calls < 4294967295 }
        requires node { uid.node ≤ 8 }
        requires runs { RunsIn self.old uid process }
        ensures parts { IfOk result (λ said. (reach : ℕ → Bool) (n : Parts) (s : Site) → IsSoundSite s → IsAt n calls.old s
            → HasTurned uid process effect n (parts_of types.now self.old)
            → IsKeptIn s uid stays → Reaches reach places.now uid.node → MayTurn s
            → IsStep reach (parts_of types.now self.new) calls.new s (event.Process uid process said)) }
        ensures requests { IfOk result (λ said. (reach : ℕ → Bool) (n : Parts) (s : Site) (work : Work) (size : ℕ) → IsSoundSite s
            → IsAt n calls.old s → HasTurned uid process effect n (parts_of types.now self.old)
            → IsKeptIn s uid stays → RequestsAre work size worker.old s
            → (site_turn reach (event.Process uid process said) s).node.requests ≡ requests_of work worker.new.requests.items) }
        ensures begun { worker.new.begun ≡ worker.old.begun }
        ensures of_node { (k : ℕ) → IsEject k uid → AllOfNode k worker.old.requests.items → AllOfNode k worker.new.requests.items }
        ensures answers { AllAnswerBut worker.old.begun worker.old.requests.items
            → AllAnswerBut worker.new.begun worker.new.requests.items }
        ensures asks { OnOk result (AsksOneAtMost calls.old calls.new) }
    {
        match effect {
            Effect::Return { results } => self.returns(alloc, calls, uid, process, results),
            Effect::Invoke {
                target,
                operation,
                args,
            } => self.invokes(alloc, calls, places, uid, process, target, operation, args),
            Effect::Create { type_name } => self.creates(alloc, types, uid, process, &type_name),
            Effect::Checkpoint => {
                self.checkpoints(alloc, types, worker, uid, process)?;
                Ok(Shown::Checkpoint)
            }
            Effect::Destroy => {
                self.destroys(worker, uid, process)?;
                Ok(Shown::Destroy)
            }
            Effect::Fault { cause } => {
                self.faults(alloc, calls, uid, stays)?;
                worker.drop_requests(uid);
                Ok(Shown::Fault { cause })
            }
            Effect::Deactivate => {
                self.sleeps(alloc, calls, uid, stays)?;
                worker.drop_requests(uid);
                Ok(Shown::Deactivate)
            }
            Effect::End => {
                let _served = self.end_at(uid, process);
                Ok(Shown::End)
            }
            Effect::Lock { monitor } => Ok(self.coordinates(uid, process, Step::Lock { monitor })),
            Effect::Leave { monitor } => Ok(self.coordinates(
                uid,
                process,
                Step::Leave { monitor },
            )),
            Effect::Wait { condition } => Ok(self.coordinates(
                uid,
                process,
                Step::Wait { condition },
            )),
            Effect::Signal { condition } => Ok(self.coordinates(
                uid,
                process,
                Step::Signal { condition },
            )),
            Effect::Yield => Ok(Shown::Yield),
        }
    }

    /// A process that is not blocked takes its turn. `stays` says whether something is kept of its Eject, or may be.
    ///
    /// The requests of `worker` go on to be those of the node.
    pub fn process(
        &mut self,
        alloc: Global,
        types: &Types,
        calls: &mut Calls,
        places: &Places,
        worker: &mut Worker,
        uid: Uid,
        process: u8,
        stays: bool,
    ) -> Result<Event, AllocError>
        requires calls { length calls.old.calls < 4294967295 }
        requires node { uid.node ≤ 8 }
        requires ready { IsReady (body_at (parts_of types.now self.old) uid) process }
        ensures event { IfOk result (IsTurnOf uid process) }
        ensures parts { IfOk result (λ e. (reach : ℕ → Bool) (s : Site) → IsSoundSite s → IsAt (parts_of types.now self.old) calls.old s
            → IsKeptIn s uid stays → Reaches reach places.now uid.node → MayTurn s
            → IsStep reach (parts_of types.now self.new) calls.new s e) }
        ensures requests { IfOk result (λ e. (reach : ℕ → Bool) (s : Site) (work : Work) (size : ℕ) → IsSoundSite s
            → IsAt (parts_of types.now self.old) calls.old s → IsKeptIn s uid stays → RequestsAre work size worker.old s
            → (site_turn reach e s).node.requests ≡ requests_of work worker.new.requests.items) }
        ensures begun { worker.new.begun ≡ worker.old.begun }
        ensures of_node { (k : ℕ) → IsEject k uid → AllOfNode k worker.old.requests.items → AllOfNode k worker.new.requests.items }
        ensures answers { AllAnswerBut worker.old.begun worker.old.requests.items
            → AllAnswerBut worker.new.begun worker.new.requests.items }
        ensures asks { OnOk result (AsksOneAtMost calls.old calls.new) }
    {
        let effect = self.turn_at(alloc, types, uid, process)?;
        let shown = self.carry_out(
            alloc, types, calls, places, worker, uid, process, stays, effect,
        )?;
        Ok(Event::Process {
            uid,
            process,
            shown,
        })
    }
}
