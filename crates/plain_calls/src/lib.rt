//! All calls ever made and the messages on their way, kept as plain lists: what the definitions say, made executable, and slow.
//!
//! Each call of this crate is one change of `Traffic`, or answers what is asked of it, and its contract is that equation.
#![tactic(auto)]

mod call;
mod closing;
mod transit;

ghost use Rattle.std.specs.Prelude.{◌≡◌, ◌<◌, ◌++◌, [], IfOk, OnOk, length, option_copied};
ghost use Rattle.std.specs.Option.{option_map};
ghost use Rattle.eden_model.specs.Traffic as traffic;
ghost use Rattle.plain_calls.specs.View.{call_of, traffic_of, no_traffic, hits_of};
ghost use Rattle.plain_calls.specs.Changes.{received, delivered, name_among, process_among, listed};

use crate::call::{item_at, new_call, put_at, shut_at};
use crate::closing::{Cause, close_each};
use crate::transit::{first_between, let_go, lose, send_unless};
pub use call::{Among, Call, Place};
use capability::{Cap, Uid};
use eden_model::Asker;
use eden_value::{Items, Status, Txt};
use std::alloc::{AllocError, Global};

/// All calls that were ever made, and the messages on their way.
#[derive(Drop)]
pub struct PlainCalls {
    /// The calls by their numbers, which are counted from 1.
    pub calls: Vec<Call>,
    /// The numbers of the calls whose request or reply is on its way, in the order of sending.
    pub transit: Vec<u32>,
}

/// The name of a call of the shell joins the names, where the call is one of these.
fn list_name(
    alloc: Global,
    among: Among,
    call: &Call,
    names: &mut Vec<Txt>,
) -> Result<(), AllocError>
    ensures { OnOk result (names.new.items ≡ names.old.items ++ listed (name_among among (call_of call.now))) }
{
    if !among.has(call) {
        return Ok(());
    }
    match &call.asker {
        Asker::Shell { name } => {
            names.push(name.share()?)?;
            Ok(())
        }
        Asker::Eject { .. } => Ok(()),
    }
}

/// The process that made a call joins the others, where the call is one of these.
fn list_process(among: Among, call: &Call, processes: &mut Vec<(Uid, u8)>) -> Result<(), AllocError>
    ensures { OnOk result (processes.new.items ≡ processes.old.items ++ listed (process_among among (call_of call.now))) }
{
    if !among.has(call) {
        return Ok(());
    }
    match &call.asker {
        Asker::Shell { .. } => Ok(()),
        Asker::Eject { uid, process } => {
            processes.push((*uid, *process))?;
            Ok(())
        }
    }
}

impl PlainCalls {
    /// No call was made, and no message is on its way.
    pub fn new(alloc: Global) -> PlainCalls
        ensures { traffic_of result ≡ no_traffic }
    {
        PlainCalls {
            calls: Vec::new(alloc),
            transit: Vec::new(alloc),
        }
    }

    /// The call of this number. None where the number was never given.
    pub fn call(&self, number: u32) -> Option<&Call>
        ensures { option_map call_of (option_copied result) ≡ traffic.call_at (traffic_of self.now) number }
    {
        item_at(&self.calls, number)
    }

    /// The number that the next call gets.
    pub fn next_number(&self) -> u32
        requires few { length self.now.calls.items < 4294967295 }
        ensures { result ≡ traffic.next_call (traffic_of self.now) }
    {
        self.calls.len() as u32 + 1
    }

    /// The message that is delivered next from station `a` to station `b`, by the number of its call.
    pub fn next_message(&self, a: u8, b: u8) -> Option<u32>
        ensures { result ≡ traffic.next_message (traffic_of self.now) a b }
    {
        first_between(&self.calls, &self.transit, a, b)
    }

    /// A new call, under the next number. Its request is sent where no status refuses it at once.
    pub fn ask(
        &mut self,
        asker: Asker,
        target: Cap,
        operation: Txt,
        args: Items,
        at_once: Option<Status>,
    ) -> Result<u32, AllocError>
        requires few { length self.old.calls.items < 4294967295 }
        ensures number { IfOk result (λ k. k ≡ traffic.next_call (traffic_of self.old)) }
        ensures calls { IfOk result (λ k.
            traffic_of self.new ≡ traffic.with_call k asker target operation args at_once (traffic_of self.old)) }
    {
        let number = self.next_number();
        send_unless(&mut self.transit, number, at_once)?;
        self.calls
            .push(new_call(asker, target, operation, args, at_once))?;
        Ok(number)
    }

    /// The request of a call has come to its target, and is held there.
    pub fn hold(&mut self, number: u32)
        ensures { traffic_of self.new ≡ delivered number (traffic_of self.old) }
    {
        let_go(&mut self.transit, number);
        put_at(&mut self.calls, number, Place::Held);
    }

    /// The request of a call is refused where it arrives: its message is no longer on its way, and a reply is sent where the call
    /// is open.
    pub fn refuse(&mut self, alloc: Global, number: u32, status: Status) -> Result<(), AllocError>
        ensures { OnOk result (traffic_of self.new ≡ traffic.replied status [] number (traffic.taken number (traffic_of self.old))) }
    {
        let_go(&mut self.transit, number);
        self.reply(status, no_items(alloc), number)
    }

    /// A reply is sent where the call is open; else the call is over.
    pub fn reply(&mut self, status: Status, results: Items, number: u32) -> Result<(), AllocError>
        ensures { OnOk result (traffic_of self.new ≡ traffic.replied status results number (traffic_of self.old)) }
    {
        let Some(call) = item_at(&self.calls, number) else {
            return Ok(());
        };
        if call.open {
            self.transit.push(number)?;
            put_at(&mut self.calls, number, Place::Answered { status, results });
        } else {
            put_at(&mut self.calls, number, Place::Done);
        }
        Ok(())
    }

    /// These calls are answered with a status and no results, in order.
    pub fn reply_all(
        &mut self,
        alloc: Global,
        status: Status,
        numbers: &[u32],
    ) -> Result<(), AllocError>
        ensures { OnOk result (traffic_of self.new ≡ traffic.all_replied status numbers.now (traffic_of self.old)) }
    {
        for number in numbers {
            self.reply(status, no_items(alloc), *number)?;
        }
        Ok(())
    }

    /// The reply of a call has come: its message is no longer on its way, and the call is over.
    pub fn receive(&mut self, number: u32)
        ensures { traffic_of self.new ≡ received number (traffic_of self.old) }
    {
        let_go(&mut self.transit, number);
        shut_at(&mut self.calls, number);
    }

    /// Nobody waits any more for the calls of an Eject, since it lost its active part.
    pub fn orphan(&mut self, uid: Uid)
        ensures { traffic_of self.new ≡ traffic.orphaned uid (traffic_of self.old) }
    {
        close_each(&mut self.calls, Cause::Lost { uid });
    }

    /// A node has crashed: the calls to it and from it are closed, and their messages are lost.
    pub fn break_node(&mut self, node: u8)
        ensures { traffic_of self.new ≡ traffic.without_node node (traffic_of self.old) }
    {
        lose(&self.calls, &mut self.transit, Cause::Crash { node });
        close_each(&mut self.calls, Cause::Crash { node });
    }

    /// A link is cut: the calls over it are closed, and their messages are lost.
    pub fn break_link(&mut self, a: u8, b: u8)
        ensures { traffic_of self.new ≡ traffic.without_link a b (traffic_of self.old) }
    {
        lose(&self.calls, &mut self.transit, Cause::Cut { a, b });
        close_each(&mut self.calls, Cause::Cut { a, b });
    }

    /// The names of the shell's calls among these, by call number.
    pub fn names(&self, alloc: Global, among: Among) -> Result<Vec<Txt>, AllocError>
        ensures { IfOk result (λ names. names.items ≡ traffic.names_of (hits_of among) (traffic_of self.now)) }
    {
        let mut names = Vec::new(alloc);
        for call in &self.calls {
            list_name(alloc, among, call, &mut names)?;
        }
        Ok(names)
    }

    /// The processes that made the calls among these, by call number, each with its Eject.
    pub fn processes(&self, alloc: Global, among: Among) -> Result<Vec<(Uid, u8)>, AllocError>
        ensures { IfOk result (λ processes. processes.items ≡ traffic.processes_of (hits_of among) (traffic_of self.now)) }
    {
        let mut processes = Vec::new(alloc);
        for call in &self.calls {
            list_process(among, call, &mut processes)?;
        }
        Ok(processes)
    }
}

/// No values.
fn no_items(alloc: Global) -> Items
    ensures { result ≡ [] }
{
    Items {
        values: Vec::new(alloc),
    }
}
