//! An active part of an Eject.
#![tactic(auto)]

mod fresh;
mod part;
mod task_list;

ghost use Rattle.std.specs.Prelude.{◌≡◌, ◌≤◌, ◌<◌, ◌↔◌, true, IsTrue, IfOk, OnOk, OnErr, IsSome, IfSome, length, Some, []};
ghost use Rattle.std.specs.Option.{option_map};
ghost use Rattle.capability.specs.declared.TheConstants.{BODY_LIMIT};
ghost use Rattle.coordinator.specs.Ready.{AscendPast, next_ready};
ghost use Rattle.eden_codec.specs.Spelling.{spelling};
ghost use Rattle.eden_model.specs.Crew.{Runs, Waits, outside, set_waits, startable, serving_pairs};
ghost use Rattle.epl_syntax.specs.declared.effect.Answer.TheVariants.{Go};
ghost use Rattle.epl_syntax.specs.Meaning as meaning;
ghost use Rattle.epl_syntax.specs.Meaning.{Turned, rep_of};
ghost use Rattle.epl_syntax.specs.Rules.OfTypes.{TypeList};
ghost use Rattle.edentypes.specs.Fitting.{FitsKind, RestFits};
ghost use Rattle.edentypes.specs.View.{kind_in, rest_of, turned_of};
ghost use Rattle.journal.specs.FitTurns.{HoldsFor};
ghost use Rattle.journal.specs.Processes.{turn_of};
ghost use Rattle.active_part.specs.Body.{active_of, calls_of};
ghost use Rattle.active_part.specs.Bodies.{joined_body, turned_body, ended_body, told_body, asking_body, crewed_body, serves_of};
ghost use Rattle.active_part.specs.View.{IsEncoded};
ghost use Rattle.active_part.specs.View.{body_of, coordination_of, stepped, MayTake, IsStarted, StartsNext};

use capability::{Body, Uid};
use coordinator::{Coordinator, OfferRefusal, Parts, Started};
use eden_codec::{EncodeRefusal, encode_rep};
use eden_value::{Items, Status};
use edentypes::{Kind, Rest, Values, begin, rep};
use epl_syntax::{Answer, Effect, Types};
use invocation::Call;
pub use part::Part;
use std::alloc::{AllocError, Global};
use std::mem::replace;

/// What a process is to do, and what its next turn is told.
#[derive(Drop)]
pub struct Doing {
    pub rest: Rest,
    pub answer: Answer,
}

/// What a process does at its monitors. Conditions are counted from 0, and monitors from 1.
#[derive(Clone, Copy, Debug)]
pub enum Step {
    Lock { monitor: u8 },
    Leave { monitor: u8 },
    Wait { condition: u8 },
    Signal { condition: u8 },
}

/// No values.
pub fn no_items(alloc: Global) -> Items
    ensures { result ≡ [] }
{
    Items {
        values: Vec::new(alloc),
    }
}

impl Part {
    /// Of which type the Eject is.
    pub fn kind(&self) -> Kind
        ensures { (ts : TypeList) → kind_in ts result ≡ (body_of ts self.now).kind }
    {
        self.kind
    }

    /// Whether 64 invocations are queued.
    pub fn is_full(&self) -> bool
        ensures { (ts : TypeList) → IsTrue result ↔ (64 ≤ length (body_of ts self.now).crew.queued) }
    {
        self.crew.is_full()
    }

    /// The invocation joins the queue, unless there is no memory for it. A refusal changes nothing.
    pub fn offer(&mut self, call: u32, class: u8) -> Result<(), AllocError>
        requires room { length (coordination_of self.old).queued < 64 }
        ensures after { OnOk result ((ts : TypeList) → body_of ts self.new
            ≡ joined_body (record { call = call; class = class }) (body_of ts self.old)) }
        ensures unchanged { OnErr result ((ts : TypeList) → body_of ts self.new ≡ body_of ts self.old) }
    {
        match self.crew.offer(call, class) {
            Ok(()) => Ok(()),
            Err(OfferRefusal::OutOfMemory) => Err(AllocError),
            Err(OfferRefusal::Busy) => unreachable!(),
        }
    }

    /// The call that may start.
    pub fn startable(&self) -> Option<u32>
        ensures { (ts : TypeList) → result
            ≡ option_map (λ i. i.call) (startable (body_of ts self.now).crew.crew (body_of ts self.now).crew.queued) }
    {
        self.crew.startable()
    }
}

// A process takes its turn over the values, up to its effect. Its next turn is told to go on.
fn take_turn(
    alloc: Global,
    types: &Types,
    kind: Kind,
    vars: &mut Values,
    doing: &mut Doing,
    me: Uid,
) -> Result<Effect, AllocError>
    requires vars { FitsKind kind vars.old }
    requires rest { RestFits kind doing.old.rest }
    ensures turned { IfOk result (λ e. turned_of vars.new (rest_of (kind_in types.now kind) doing.new.rest) e
        ≡ meaning.turn (kind_in types.now kind) vars.old (rest_of (kind_in types.now kind) doing.old.rest) doing.old.answer me) }
    ensures answer { OnOk result (doing.new.answer ≡ Go) }
    ensures vars { FitsKind kind vars.new }
    ensures rest { RestFits kind doing.new.rest }
{
    let answer = replace(&mut doing.answer, Answer::Go);
    let effect = edentypes::turn(alloc, types, kind, vars, &mut doing.rest, answer, me)?;
    Ok(effect)
}

// The invocation that may start leaves the queue and runs. A refusal changes nothing.
fn start_next(crew: &mut Coordinator) -> Result<Started, AllocError>
    requires may { IsSome (startable crew.old.crew crew.old.queued) }
    ensures started { IfOk result (StartsNext crew.old crew.new) }
    ensures unchanged { OnErr result (crew.new ≡ crew.old) }
{
    match crew.start() {
        Ok(Some(started)) => Ok(started),
        Ok(None) => unreachable!(),
        Err(_) => Err(AllocError),
    }
}

impl Part {
    /// The invocation that may start leaves the queue and runs. A refusal changes nothing.
    pub fn start(
        &mut self,
        alloc: Global,
        types: &Types,
        asked: &Call,
    ) -> Result<Started, AllocError>
        requires may { IsSome (startable (coordination_of self.old).crew (coordination_of self.old).queued) }
        ensures started { IfOk result (IsStarted (body_of types.now self.old) (body_of types.now self.new) asked.now) }
        ensures unchanged { OnErr result ((ts : TypeList) → body_of ts self.new ≡ body_of ts self.old) }
    {
        let rest = begin(alloc, types, self.kind, &asked.operation, &asked.args)?;
        let process = self.crew.next_number();
        let doing = Doing {
            rest,
            answer: Answer::Go,
        };
        self.tasks.add(process, doing)?;
        match start_next(&mut self.crew) {
            Ok(started) => Ok(started),
            Err(refused) => {
                self.tasks.remove(process);
                Err(refused)
            }
        }
    }

    /// A process takes its turn, up to its effect. It waits for what it waited for.
    pub fn turn(
        &mut self,
        alloc: Global,
        types: &Types,
        process: u8,
        me: Uid,
    ) -> Result<Effect, AllocError>
        requires { Runs (coordination_of self.old).crew process }
        ensures turned { IfOk result (λ e. (t : Turned) → turn_of me (active_of (body_of types.now self.old)) process ≡ Some t
            → (e ≡ t.effect) × (body_of types.now self.new ≡ turned_body process t (body_of types.now self.old))) }
        ensures crew { coordination_of self.new ≡ coordination_of self.old }
    {
        self.crew.processes_ascend();
        let place = self.tasks.find(process);
        let (_, doing) = &mut self.tasks.entries[place];
        let effect = take_turn(alloc, types, self.kind, &mut self.vars, doing, me)?;
        Ok(effect)
    }

    /// The bytes that are to be kept of the Eject as it is now. None where they are too many.
    pub fn encoded(&self, alloc: Global, types: &Types) -> Result<Option<Body>, AllocError>
        ensures bytes { IfOk result (IsEncoded (spelling (rep_of (body_of types.now self.now).kind (body_of types.now self.now).vars))) }
        ensures within { IfOk result (λ it. IfSome it (λ body. length body ≤ BODY_LIMIT)) }
    {
        let now = rep(alloc, types, self.kind, &self.vars)?;
        match encode_rep(alloc, &now) {
            Ok(body) => Ok(Some(body)),
            Err(EncodeRefusal::TooLarge) => Ok(None),
            Err(EncodeRefusal::OutOfMemory) => Err(AllocError),
        }
    }

    /// A process that runs ends; the call that it served.
    pub fn end(&mut self, process: u8) -> Option<u32>
        requires { Runs (coordination_of self.old).crew process }
        ensures call { (ts : TypeList) → result ≡ option_map (λ i. i.call) (serves_of (body_of ts self.old) process) }
        ensures after { (ts : TypeList) → body_of ts self.new ≡ ended_body process (body_of ts self.old) }
    {
        let call = self.crew.serves(process);
        self.tasks.remove(process);
        self.crew.end(process);
        call
    }

    /// A process that waits for what is outside is told what it waited for. For any other nothing changes.
    pub fn tell(&mut self, process: u8, answer: Answer)
        ensures told { (ts : TypeList) → Waits (body_of ts self.old).crew.crew process outside
            → body_of ts self.new ≡ told_body process answer (body_of ts self.old) }
        ensures other { (ts : TypeList) → (Waits (body_of ts self.old).crew.crew process outside → ⊥)
            → body_of ts self.new ≡ body_of ts self.old }
    {
        if !self.crew.awaits(process) {
            return;
        }
        self.crew.processes_ascend();
        self.tasks.answer(process, answer);
        self.crew.resume(process);
    }

    /// A process that runs is told at once.
    pub fn tell_at_once(&mut self, process: u8, answer: Answer)
        requires { Runs (coordination_of self.old).crew process }
        ensures { (ts : TypeList) → body_of ts self.new ≡ told_body process answer (body_of ts self.old) }
    {
        self.crew.processes_ascend();
        self.tasks.answer(process, answer);
    }

    /// A process that runs waits for a reply or for the store.
    pub fn block(&mut self, process: u8)
        requires { Runs (coordination_of self.old).crew process }
        ensures { (ts : TypeList) → body_of ts self.new ≡ crewed_body (set_waits process outside) (body_of ts self.old) }
    {
        self.crew.block(process);
    }

    /// A process that runs waits for a call that it made, or is told at once.
    pub fn ask(&mut self, alloc: Global, process: u8, at_once: Option<Status>)
        requires { Runs (coordination_of self.old).crew process }
        ensures { (ts : TypeList) → body_of ts self.new ≡ asking_body process at_once (body_of ts self.old) }
    {
        match at_once {
            None => self.block(process),
            Some(status) => {
                let answer = Answer::Reply {
                    status,
                    results: no_items(alloc),
                };
                self.tell_at_once(process, answer);
            }
        }
    }
}

// Whether the process holds the monitor of a condition.
fn holds_for(crew: &Coordinator, process: u8, condition: u8) -> bool
    ensures { IsTrue result ↔ HoldsFor crew.now.crew process condition }
{
    match crew.monitor_of(condition) {
        Some(monitor) => crew.holds(process, monitor),
        None => false,
    }
}

// Whether a process that runs may take this step.
fn may_take(crew: &Coordinator, process: u8, step: Step) -> bool
    ensures { IsTrue result ↔ MayTake crew.now.crew process step }
{
    match step {
        Step::Lock { monitor } => 1 <= monitor && (monitor as usize) <= crew.monitors(),
        Step::Leave { monitor } => crew.holds(process, monitor),
        Step::Wait { condition } => holds_for(crew, process, condition),
        Step::Signal { condition } => holds_for(crew, process, condition),
    }
}

// A process that runs takes the step.
fn take_step(crew: &mut Coordinator, process: u8, step: Step)
    requires runs { Runs crew.old.crew process }
    requires may { MayTake crew.old.crew process step }
    ensures { crew.new ≡ record crew.old { crew = stepped step process crew.old.crew } }
{
    match step {
        Step::Lock { monitor } => {
            let _held = crew.enter(process, monitor);
        }
        Step::Leave { monitor } => crew.leave(process, monitor),
        Step::Wait { condition } => crew.wait(process, condition),
        Step::Signal { condition } => crew.signal(process, condition),
    }
}

impl Part {
    /// A process that runs does something at its monitors, which a checked program does only where it may. Elsewhere nothing changes.
    pub fn coordinate(&mut self, process: u8, step: Step)
        requires { Runs (coordination_of self.old).crew process }
        ensures after { MayTake (coordination_of self.old).crew process step
            → (ts : TypeList) → body_of ts self.new ≡ crewed_body (stepped step process) (body_of ts self.old) }
        ensures unchanged { (MayTake (coordination_of self.old).crew process step → ⊥)
            → (ts : TypeList) → body_of ts self.new ≡ body_of ts self.old }
    {
        if may_take(&self.crew, process, step) {
            take_step(&mut self.crew, process, step);
        }
    }
}

impl Part {
    /// The first process past a number that waits for nothing.
    pub fn next_ready(&self, after: u8) -> Option<u8>
        ensures next { (ts : TypeList) → result ≡ next_ready after (body_of ts self.now).crew.crew.processes }
        ensures ascend { (ts : TypeList) → AscendPast 0 (body_of ts self.now).crew.crew.processes }
    {
        self.crew.processes_ascend();
        self.crew.next_ready(after)
    }

    /// Whether the process is there and waits for nothing.
    pub fn runs(&self, process: u8) -> bool
        ensures { (ts : TypeList) → IsTrue result ↔ Runs (body_of ts self.now).crew.crew process }
    {
        self.crew.runnable(process)
    }

    /// The calls that run, by process number, and those that are queued.
    pub fn into_parts(self) -> Parts
        ensures running { (ts : TypeList) → result.running ≡ serving_pairs (body_of ts self).crew.crew.processes }
        ensures queued { (ts : TypeList) → result.queued ≡ calls_of (body_of ts self).crew.queued }
    {
        self.crew.into_parts()
    }
}
