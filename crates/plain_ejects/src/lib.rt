//! An Eject as the definitions have it: its active part or none, its queued calls, what is kept of it, and what may be kept instead.
//!
//! Each call is one change of the Eject of the definitions, and its contract is that equation. The active part is that of `active_part`.
#![tactic(auto)]

mod processes;
mod storage;

ghost use Rattle.std.specs.Prelude.{◌≡◌, ◌↔◌, ◌≤◌, ◌++◌, ◌∷◌, [], false, None, IsTrue, OnOk, is_some, length};
ghost use Rattle.std.specs.Option.{option_map};
ghost use Rattle.capability.specs.declared.TheConstants.{BODY_LIMIT};
ghost use Rattle.eden_model.specs.Crew.{serving_pairs};
ghost use Rattle.epl_syntax.specs.Rules.OfTypes.{TypeList};
ghost use Rattle.journal.specs.Crashes.{fallen};
ghost use Rattle.journal.specs.Ejects.{is_there, newborn, with_active, with_queued};
ghost use Rattle.active_part.specs.Body.{active_of, calls_of};
ghost use Rattle.active_part.specs.View.{body_of};
ghost use Rattle.plain_ejects.specs.Limits.{HasPlace, length_doubted, length_kept};

use active_part::Part;
use capability::{Body, CallNumbers};
use checkpoint::Wish;
use coordinator::Pairs;
use std::alloc::{AllocError, Global};
use std::mem::replace;
pub use storage::is_within_limit;

/// An Eject. At most 64 calls are queued while it is passive, and no body is past its limit.
#[derive(Drop)]
pub struct PlainEject {
    /// What of it is in memory, with the calls that are queued then. None where it is passive.
    pub part: Option<Part>,
    /// The calls that are queued while it is passive, the first to arrive in front.
    pub waiting: CallNumbers,
    /// The bytes that are kept of it, as far as is known.
    pub kept: Option<Body>,
    /// The change to what is kept of which it is not known whether it was made.
    pub doubt: Option<Wish>,
    pub ghost few: { length waiting ≤ 64 },
    pub ghost kept_within: { length_kept kept ≤ BODY_LIMIT },
    pub ghost doubt_within: { length_doubted doubt ≤ BODY_LIMIT },
}

/// No calls.
fn no_calls(alloc: Global) -> CallNumbers
    ensures { result ≡ [] }
{
    CallNumbers {
        items: Vec::new(alloc),
    }
}

/// How many calls there are.
fn count(calls: &CallNumbers) -> usize
    ensures { result ≡ length calls.now }
{
    calls.items.len()
}

/// The queued calls of an active part, and those that run, each with the process that serves it.
fn taken_apart(part: Part) -> (CallNumbers, Pairs)
    ensures queued { (ts : TypeList) → result.0 ≡ calls_of (body_of ts part).crew.queued }
    ensures few { length result.0 ≤ 64 }
    ensures running { (ts : TypeList) → result.1 ≡ serving_pairs (body_of ts part).crew.crew.processes }
{
    let parts = part.into_parts();
    (parts.queued, parts.running)
}

impl PlainEject {
    ghost use Rattle.plain_ejects.specs.View.{eject_of, active_in, with_body};

    /// A new Eject with this active part, in which nothing is queued.
    pub fn created(alloc: Global, part: Part) -> PlainEject
        ensures { (ts : TypeList) → (body_of ts part).crew.queued ≡ [] → eject_of ts result ≡ newborn (active_of (body_of ts part)) }
    {
        PlainEject {
            part: Some(part),
            waiting: no_calls(alloc),
            kept: None,
            doubt: None,
        }
    }

    /// Whether it has an active part.
    pub fn is_active(&self) -> bool
        ensures { (ts : TypeList) → result ≡ is_some (eject_of ts self.now).active }
    {
        self.part.is_some()
    }

    /// Whether it is active, kept or in doubt; else it is gone.
    pub fn is_there(&self) -> bool
        ensures { (ts : TypeList) → result ≡ is_there (eject_of ts self.now) }
    {
        self.part.is_some() || (self.kept.is_some() || self.doubt.is_some())
    }

    /// Whether 64 calls are queued, so that one more is refused, and there may be no place for it.
    pub fn is_full(&self) -> bool
        ensures full { (ts : TypeList) → IsTrue result ↔ (64 ≤ length (eject_of ts self.now).queued) }
        ensures room { result ≡ false → HasPlace self.now.part self.now.waiting }
    {
        match &self.part {
            Some(part) => part.is_full(),
            None => count(&self.waiting) >= 64,
        }
    }

    /// A call joins the queue. Its class counts where the Eject is active.
    pub fn enqueue(&mut self, call: u32, class: u8) -> Result<(), AllocError>
        requires room { HasPlace self.old.part self.old.waiting }
        ensures { OnOk result ((ts : TypeList) → eject_of ts self.new
            ≡ with_queued ((eject_of ts self.old).queued ++ call ∷ []) (eject_of ts self.old)) }
    {
        match &mut self.part {
            Some(part) => part.offer(call, class),
            None => {
                self.waiting.items.push(call)?;
                Ok(())
            }
        }
    }

    /// Its active part goes, and what is queued stays. The calls that ran, each with the process that served it, by process number; none
    /// where it was passive.
    pub fn deactivate(&mut self) -> Option<Pairs>
        ensures running { (ts : TypeList) → result ≡ option_map (λ it. serving_pairs it.crew.processes) (active_in ts self.old) }
        ensures after { (ts : TypeList) → eject_of ts self.new ≡ with_active None (eject_of ts self.old) }
    {
        match replace(&mut self.part, None) {
            Some(part) => {
                let (queued, running) = taken_apart(part);
                self.waiting = queued;
                Some(running)
            }
            None => None,
        }
    }

    /// It is active with this part, in which all its queued calls stand.
    pub fn wake(&mut self, part: Part)
        ensures { (ts : TypeList) → eject_of ts self.new ≡ with_body (body_of ts part) (eject_of ts self.old) }
    {
        self.part = Some(part);
    }

    /// The queued calls of a passive Eject, in order. None is queued any more.
    pub fn turn_away(&mut self, alloc: Global) -> CallNumbers
        requires passive { self.old.part ≡ None }
        ensures queued { (ts : TypeList) → result ≡ (eject_of ts self.old).queued }
        ensures after { (ts : TypeList) → eject_of ts self.new ≡ with_queued [] (eject_of ts self.old) }
    {
        replace(&mut self.waiting, no_calls(alloc))
    }

    /// Its node has crashed: the active part and the queue are gone. What is kept of it, or in doubt, stays.
    pub fn fall(&mut self, alloc: Global)
        ensures { (ts : TypeList) → eject_of ts self.new ≡ fallen (eject_of ts self.old) }
    {
        self.part = None;
        self.waiting = no_calls(alloc);
    }
}
