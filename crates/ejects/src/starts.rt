//! Invocations start.
ghost use Rattle.std.specs.Prelude.{◌≡◌, ◌↔◌, IfSome, IsSome, IsSomeAnd, IsTrue, is_some, ◌<◌, ℕ, Bool};
ghost use Rattle.std.specs.Prelude.{IfOk, Some, None};
ghost use Rattle.epl_syntax.specs.Rules.OfTypes.{TypeList};
ghost use Rattle.active_part.specs.Body.{Body};
ghost use Rattle.ejects.specs.Events.{IsStartOf};
ghost use Rattle.ejects.specs.Marks.{MayBegin, may_start};
ghost use Rattle.ejects.specs.Parts.{body_at, Steps};
ghost use Rattle.invocation.specs.Numbers.{item_in};
ghost use Rattle.active_part.specs.View.{coordination_of, IsStarted};
ghost use Rattle.eden_model.specs.Crew.{startable};
ghost use Rattle.ejects.specs.Replies.{StartsAt};
ghost use Rattle.ejects.specs.View.{part_at, parts_of, with_body};

use crate::Ejects;
use capability::Uid;
use coordinator::Started;
use epl_syntax::Types;
use invocation::{Call, Calls};
use journal::Event;
use std::alloc::{AllocError, Global};

// Whether there is a call, and it was asked.
fn is_asked(calls: &Calls, call: Option<u32>) -> bool
    ensures { IsTrue result ↔ IsSomeAnd call (λ k. IsSome (item_in k calls.now.calls)) }
{
    match call {
        Some(call) => calls.call(call).is_some(),
        None => false,
    }
}

impl Ejects {
    // The call that may start at an Eject.
    fn startable_at(&self, uid: Uid) -> Option<u32>
        ensures starts { IfSome result (λ call. (ts : TypeList) → StartsAt (body_at (parts_of ts self.now) uid) call) }
        ensures none { (ts : TypeList) → may_start (body_at (parts_of ts self.now) uid) ≡ is_some result }
    {
        match self.table.active(uid) {
            Some(part) => part.startable(),
            None => None,
        }
    }

    // The invocation that may start begins; the process that serves it.
    fn begin_at(
        &mut self,
        alloc: Global,
        types: &Types,
        uid: Uid,
        asked: &Call,
    ) -> Result<Started, AllocError>
        requires { IsSomeAnd (part_at self.old uid)
            (λ a. IsSome (startable (coordination_of a).crew (coordination_of a).queued)) }
        ensures { IfOk result (λ st. (b : Body) → body_at (parts_of types.now self.old) uid ≡ Some b
            → (now : Body) × IsStarted b now asked.now st
            × (parts_of types.now self.new ≡ with_body uid now (parts_of types.now self.old))) }
    {
        match self.table.active_mut(uid) {
            Some(part) => {
                let started = part.start(alloc, types, asked)?;
                Ok(started)
            }
            None => unreachable!(),
        }
    }

    /// Whether the Eject is active, and an invocation may start of which the call was asked.
    pub fn may_begin(&self, calls: &Calls, uid: Uid) -> bool
        ensures { (ts : TypeList) → IsTrue result ↔ MayBegin calls.now (body_at (parts_of ts self.now) uid) }
    {
        match self.table.active(uid) {
            Some(part) => is_asked(calls, part.startable()),
            None => false,
        }
    }

    /// An invocation that may start at an Eject starts.
    pub fn start(
        &mut self,
        alloc: Global,
        types: &Types,
        calls: &Calls,
        uid: Uid,
    ) -> Result<Event, AllocError>
        requires { MayBegin calls.now (body_at (parts_of types.now self.old) uid) }
        ensures event { IfOk result (IsStartOf uid) }
        ensures steps { IfOk result (λ e. (reach : ℕ → Bool)
            → Steps reach (parts_of types.now self.old) calls.now (parts_of types.now self.new) calls.now e) }
    {
        let Some(call) = self.startable_at(uid) else {
            unreachable!()
        };
        let Some(asked) = calls.call(call) else {
            unreachable!()
        };
        let started = self.begin_at(alloc, types, uid, asked)?;
        Ok(Event::Start {
            call,
            uid,
            process: started.process,
        })
    }
}
