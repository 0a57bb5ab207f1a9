//! The processes of an active Eject: who runs, who waits for whom, and which invocation may start.
//!
//! An Eject has at most 16 processes, and at most 64 invocations are queued for it. Each operation
//! belongs to a class, and of each class no more invocations run at once than its limit says.
//! A monitor has one holder, an entry queue, and conditions on which processes wait.
//!
//! Classes and conditions are counted from 0, monitors and processes from 1. `Coordinator::new`
//! takes the memory of an idle Eject; `offer` and `start` take more at the first need, and change
//! nothing for want of it. Every other call succeeds without any.
#![tactic(auto)]

mod monitors;
mod parts;
mod process_queue;
mod queue;
mod slots;

ghost use Rattle.std.specs.Prelude.{◌≡◌, ◌<◌, ◌≤◌, ◌+◌, ◌==◌, ◌↔◌, ◌++◌, ◌∷◌, [], ℕ, List, length, map, Some, None, IfSome, IsSome};
ghost use Rattle.std.specs.Prelude.{IfOk, OnOk, OnErr, IsErrOf, IsTrue, slice_get};
ghost use Rattle.std.specs.List.{All};
ghost use Rattle.std.specs.Option.{option_map};
ghost use Rattle.eden_model.specs.Crew.{Crew, Coordination, Runs, Waits as WaitsFor, Holds, outside, nothing, is_free, locked, left};
ghost use Rattle.eden_model.specs.Crew.{waited, signalled, set_waits, ended, startable, started_in, least_free, fresh, serving_pairs};
ghost use Rattle.eden_model.specs.Map.{with_item};
ghost use Rattle.coordinator.specs.Ready.{call_served, next_ready, AscendPast};
ghost use Rattle.coordinator.specs.View.{setup_of};

use crate::monitors::{admit, is_held, join, new_conditions, new_monitors, pass_on, pass_on_all};
use crate::queue::Queue;
use crate::slots::{
    call_of, declared_slots, insert_slot, is_outside, is_running, least_free, next_past,
    next_to_start, remove_slot, served_pairs, set_slots,
};
use capability::Seq;
pub use monitors::{Condition, Monitor};
pub use parts::{OfferRefusal, Pairs, Parts, Setup, Started};
pub use process_queue::ProcessQueue;
pub use slots::{Serving, Slot, Waits};
use std::alloc::{AllocError, Global};
use std::marker::Model;

/// The processes of one active Eject, and the invocations that are queued for it.
#[derive(Drop)]
pub struct Coordinator {
    limits: Seq<u8>,
    slots: Vec<Slot>,
    monitors: Vec<Monitor>,
    conditions: Vec<Condition>,
    queued: Queue,
}

impl Model for Coordinator {
    ghost use Rattle.eden_model.specs.Crew.{Coordination};

    ghost Value = { Coordination };

    ghost use Rattle.coordinator.specs.View.{view_of};
    ghost use Rattle.coordinator.specs.Whole.{IsWhole};

    ghost view = { view_of };

    ghost invariant = { IsWhole };
}

impl Coordinator {
    /// The declared processes run under the numbers 1 upward, all monitors are free, and nothing is
    /// queued. No room is taken for other processes, nor for invocations.
    pub fn new(alloc: Global, setup: Setup) -> Result<Coordinator, AllocError>
        requires declared { setup.declared ≤ 8 }
        requires monitors { setup.monitors ≤ 8 }
        requires conditions { All (λ m. (1 ≤ m) × (m ≤ setup.monitors)) setup.conditions }
        ensures { IfOk result (λ c. c ≡ fresh (setup_of setup)) }
    {
        let slots = declared_slots(alloc, setup.declared)?;
        let monitors = new_monitors(alloc, setup.monitors)?;
        let conditions = new_conditions(alloc, setup.conditions.as_slice())?;
        Ok(Coordinator {
            limits: setup.limits,
            slots,
            monitors,
            conditions,
            queued: Queue::new(alloc),
        })
    }

    /// Whether 64 invocations are queued, so that the next one is refused.
    pub fn is_full(&self) -> bool
        ensures { IsTrue result ↔ (64 ≤ length self.now.queued) }
    {
        self.queued.len() >= 64
    }

    /// The invocation goes to the back of the queue, unless 64 are queued, or there is no memory
    /// for it. A refusal changes nothing.
    pub fn offer(&mut self, call: u32, class: u8) -> Result<(), OfferRefusal>
        ensures busy { IsErrOf result OfferRefusal.Busy ↔ (length self.old.queued ≡ 64) }
        ensures after { OnOk result (self.new ≡ record self.old {
          queued = self.old.queued ++ record { call = call; class = class } ∷ [];
        }) }
        ensures room { OnOk result (length self.old.queued < 64) }
        ensures unchanged { OnErr result (self.new ≡ self.old) }
    {
        if self.queued.len() >= 64 {
            return Err(OfferRefusal::Busy);
        }
        self.queued.push(call, class)?;
        Ok(())
    }

    /// The call that `start` would start: the earliest one queued whose class is below its limit,
    /// while fewer than 16 processes exist. None exactly where there is none.
    pub fn startable(&self) -> Option<u32>
        ensures { result ≡ option_map (λ i. i.call) (startable self.now.crew self.now.queued) }
    {
        match next_to_start(&self.slots, self.limits.as_slice(), &self.queued) {
            Some(next) => Some(next.call),
            None => None,
        }
    }

    /// The number of the process in which `start` would run an invocation: the least that is free.
    pub fn next_number(&self) -> u8
        ensures { result ≡ least_free self.now.crew }
    {
        least_free(&self.slots)
    }

    /// The startable invocation leaves the queue and runs, in a process of the least free number.
    /// None exactly where there is none, and then nothing changes; nor does anything for want of
    /// memory, which only an invocation that would start can meet.
    pub fn start(&mut self) -> Result<Option<Started>, AllocError>
        ensures call { IfOk result (λ it. option_map (λ s. s.call) it
            ≡ option_map (λ i. i.call) (startable self.old.crew self.old.queued)) }
        ensures process { IfOk result (λ it. IfSome it (λ s. s.process ≡ least_free self.old.crew)) }
        ensures after { OnOk result (self.new
            ≡ with_item (startable self.old.crew self.old.queued) (λ i. started_in i self.old) self.old) }
        ensures unchanged { OnErr result (self.new ≡ self.old) }
        ensures refused { OnErr result (IsSome (startable self.old.crew self.old.queued)) }
    {
        match next_to_start(&self.slots, self.limits.as_slice(), &self.queued) {
            Some(next) => {
                let call = next.call;
                let process = least_free(&self.slots);
                insert_slot(&mut self.slots, process, next)?;
                self.queued.remove(call);
                Ok(Some(Started { call, process }))
            }
            None => Ok(None),
        }
    }

    /// The call that the process serves. None where there is no such process, or it serves none.
    pub fn serves(&self, process: u8) -> Option<u32>
        ensures { result ≡ call_served process self.now.crew.processes }
    {
        call_of(&self.slots, process)
    }

    /// The first process past a number that waits for nothing. None exactly where there is none.
    pub fn next_ready(&self, after: u8) -> Option<u8>
        ensures { result ≡ next_ready after self.now.crew.processes }
    {
        next_past(&self.slots, after)
    }

    /// The numbers of the processes ascend, and are 1 to 16.
    pub fn processes_ascend(&self)
        ensures { AscendPast 0 self.now.crew.processes }
    {
        let _slots = &self.slots;
    }

    /// How many monitors there are.
    pub fn monitors(&self) -> usize
        ensures { result ≡ length self.now.crew.monitors }
    {
        self.monitors.len()
    }

    /// How many conditions there are.
    pub fn conditions(&self) -> usize
        ensures { result ≡ length self.now.crew.conditions }
    {
        self.conditions.len()
    }

    /// The monitor of a condition. None exactly where there is no such condition.
    pub fn monitor_of(&self, condition: u8) -> Option<u8>
        ensures { result ≡ option_map (λ it. it.monitor) (slice_get self.now.crew.conditions condition) }
    {
        match self.conditions.get(condition as usize) {
            Some(target) => Some(target.monitor),
            None => None,
        }
    }

    /// Whether the process holds the monitor.
    pub fn holds(&self, process: u8, monitor: u8) -> bool
        ensures { IsTrue result ↔ Holds self.now.crew process monitor }
    {
        monitor > 0 && is_held(&self.monitors, process, (monitor - 1) as usize)
    }

    /// Whether the process is there and waits for nothing.
    pub fn runnable(&self, process: u8) -> bool
        ensures { IsTrue result ↔ Runs self.now.crew process }
    {
        is_running(&self.slots, process)
    }

    /// Whether the process is there and waits for a reply or for the store.
    pub fn awaits(&self, process: u8) -> bool
        ensures { IsTrue result ↔ WaitsFor self.now.crew process outside }
    {
        is_outside(&self.slots, process)
    }

    /// The process waits for a reply or for the store.
    pub fn block(&mut self, process: u8)
        requires { Runs self.old.crew process }
        ensures { self.new ≡ record self.old { crew = set_waits process outside self.old.crew } }
    {
        set_slots(&mut self.slots, process, Waits::Outside);
    }

    /// The reply or the store's answer, for which the process waited, has come.
    pub fn resume(&mut self, process: u8)
        requires { WaitsFor self.old.crew process outside }
        ensures { self.new ≡ record self.old { crew = set_waits process nothing self.old.crew } }
    {
        set_slots(&mut self.slots, process, Waits::Nothing);
    }

    /// The process becomes the holder of a free monitor, and else the last of its entry queue.
    /// Answers whether it now holds the monitor.
    pub fn enter(&mut self, process: u8, monitor: u8) -> bool
        requires runs { Runs self.old.crew process }
        requires from { 1 ≤ monitor }
        requires to { monitor ≤ length self.old.crew.monitors }
        ensures held { result ≡ is_free self.old.crew monitor }
        ensures after { self.new ≡ record self.old { crew = locked process monitor self.old.crew } }
    {
        admit(&mut self.slots, &mut self.monitors, process, monitor)
    }

    /// The monitor passes from the process to the head of the entry queue, or is free.
    pub fn leave(&mut self, process: u8, monitor: u8)
        requires runs { Runs self.old.crew process }
        requires holds { Holds self.old.crew process monitor }
        ensures { self.new ≡ record self.old { crew = left monitor self.old.crew } }
    {
        pass_on(&mut self.slots, &mut self.monitors, monitor);
    }

    /// The process leaves the condition's monitor, and is the last of those who wait on it.
    pub fn wait(&mut self, process: u8, condition: u8)
        requires runs { Runs self.old.crew process }
        requires within { condition < length self.old.crew.conditions }
        requires holds { IfSome (slice_get self.old.crew.conditions condition)
            (λ it. Holds self.old.crew process it.monitor) }
        ensures { self.new ≡ record self.old { crew = waited process condition self.old.crew } }
    {
        let target = &mut self.conditions[condition as usize];
        let monitor = target.monitor;
        target.waiters.push(process);
        pass_on(&mut self.slots, &mut self.monitors, monitor);
        set_slots(&mut self.slots, process, Waits::Condition { condition });
    }

    /// The process that has waited longest on the condition goes to the back of the entry queue.
    /// The signaller keeps the monitor. Nothing happens where nobody waits.
    pub fn signal(&mut self, process: u8, condition: u8)
        requires runs { Runs self.old.crew process }
        requires within { condition < length self.old.crew.conditions }
        requires holds { IfSome (slice_get self.old.crew.conditions condition)
            (λ it. Holds self.old.crew process it.monitor) }
        ensures { self.new ≡ record self.old { crew = signalled condition self.old.crew } }
    {
        let target = &mut self.conditions[condition as usize];
        let monitor = target.monitor;
        if let Some(next) = target.waiters.pop() {
            join(&mut self.slots, &mut self.monitors, next, monitor);
        }
    }

    /// The process is gone. Each monitor that it held passes to the head of its entry queue.
    pub fn end(&mut self, process: u8)
        requires { Runs self.old.crew process }
        ensures { self.new ≡ record self.old { crew = ended process self.old.crew } }
    {
        pass_on_all(&mut self.slots, &mut self.monitors, process);
        remove_slot(&mut self.slots, process);
    }

    /// The calls that run, by process number, and those that are queued, in order.
    pub fn into_parts(self) -> Parts
        ensures running { result.running ≡ serving_pairs self.crew.processes }
        ensures queued { result.queued ≡ map (λ i. i.call) self.queued }
    {
        let pairs = served_pairs(&self.slots);
        let numbers = self.queued.into_numbers();
        Parts {
            running: Pairs { pairs },
            queued: Seq { items: numbers },
        }
    }
}
