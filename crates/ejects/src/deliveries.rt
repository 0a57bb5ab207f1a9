//! Messages are delivered.
ghost use Rattle.std.specs.Prelude.{◌≡◌, ◌≤◌, ℕ, Bool, IfOk, IsTrue, None, OnOk, is_some};
ghost use Rattle.eden_model.specs.Map.{with_item};
ghost use Rattle.eden_model.specs.Traffic.{waiting_process};
ghost use Rattle.invocation.specs.Numbers.{item_in};
ghost use Rattle.ejects.specs.Counts.{AsksNone};
ghost use Rattle.ejects.specs.Events.{IsDelivery};
ghost use Rattle.ejects.specs.Hears.{hears};
ghost use Rattle.ejects.specs.Parts.{Steps};
ghost use Rattle.ejects.specs.View.{parts_of, number_of};

use crate::Ejects;
use epl_syntax::Types;
use invocation::{Calls, Delivery, Message};
use journal::Event;
use std::alloc::{AllocError, Global};

// Whether a process asked the call of this number.
fn is_by_process(calls: &Calls, call: u32) -> bool
    ensures { result ≡ is_some (with_item (item_in call calls.now.calls) (λ c. waiting_process c.asker) None) }
{
    match calls.call(call) {
        Some(asked) => asked.process().is_some(),
        None => false,
    }
}

impl Ejects {
    /// Whether a message from a station is on its way here, and the first is a request, or the reply to a call of a process.
    pub fn hears(&self, calls: &Calls, from: u8) -> bool
        requires { from ≤ 8 }
        ensures { result ≡ hears from (number_of self.now) calls.now }
    {
        match calls.first(from, self.number()) {
            Some(Message::Request { .. }) => true,
            Some(Message::Reply { call, .. }) => is_by_process(calls, *call),
            None => false,
        }
    }

    /// The first message from a station is delivered: a request, or the reply to a call of a process.
    pub fn deliver(
        &mut self,
        alloc: Global,
        types: &Types,
        calls: &mut Calls,
        from: u8,
    ) -> Result<Event, AllocError>
        requires from { from ≤ 8 }
        requires hears { IsTrue (hears from (number_of self.old) calls.old) }
        ensures event { IfOk result (IsDelivery from (number_of self.old)) }
        ensures steps { IfOk result (λ e. (reach : ℕ → Bool)
            → Steps reach (parts_of types.now self.old) calls.old (parts_of types.now self.new) calls.new e) }
        ensures asks { OnOk result (AsksNone calls.old calls.new) }
    {
        match calls.deliver(from, self.number()) {
            Some(Delivery::Request { call }) => self.request(alloc, types, calls, from, call),
            Some(
                Delivery::Reply {
                    call,
                    status,
                    results,
                    was_open,
                    process,
                },
            ) => match process {
                Some(asker) => self.hear(alloc, from, call, status, results, was_open, asker),
                None => unreachable!(),
            },
            None => unreachable!(),
        }
    }
}
