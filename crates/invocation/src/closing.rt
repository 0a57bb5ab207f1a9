//! The calls by number, and what closes many of them at once.
ghost use Rattle.std.specs.Prelude.{◌≡◌, ◌≤◌, ◌<◌, ◌-◌, IfOk, length, option_copied};
ghost use Rattle.eden_model.specs.Traffic.{is_link};
ghost use Rattle.std.specs.List.{All, filter};
ghost use Rattle.invocation.specs.Mail.{IsGiven, is_open, received, number_of, delivery_of};
ghost use Rattle.invocation.specs.Numbers.{item_in, passes_at, changed_at_all};
ghost use Rattle.invocation.specs.Causes.{hits, ends, breaks, is_broken, closed_by};
ghost use Rattle.invocation.specs.Listed.{is_live};

use crate::call::{Call, Delivery, Message, station};
use capability::Uid;
use std::alloc::{AllocError, Global};

/// What closes open calls: an Eject that lost its active part, a cut of a link, or a crash.
#[derive(Clone, Copy)]
pub enum Cause {
    Lost { uid: Uid },
    Cut { a: u8, b: u8 },
    Crash { node: u8 },
}

impl Cause {
    /// Whether it closes the call, where that is open.
    fn hits(self, call: &Call) -> bool
        ensures { result ≡ hits self call.now }
    {
        let from = station(&call.asker);
        let to = call.target.uid.node;
        match self {
            Cause::Lost { uid } => call.is_of(uid),
            Cause::Cut { a, b } => is_link(a, b, from, to),
            Cause::Crash { node } => to == node || from == node,
        }
    }

    /// Whether the call, where it is open, is answered `broken`.
    fn breaks(self, call: &Call) -> bool
        ensures { result ≡ breaks self call.now }
    {
        let from = station(&call.asker);
        let to = call.target.uid.node;
        match self {
            Cause::Lost { .. } => false,
            Cause::Cut { a, b } => is_link(a, b, from, to),
            Cause::Crash { node } => to == node && from != node,
        }
    }

    /// Whether nothing is to come of the call at its target either.
    fn ends(self, call: &Call) -> bool
        ensures { result ≡ ends self call.now }
    {
        match self {
            Cause::Crash { node } => call.target.uid.node == node,
            _ => false,
        }
    }

    /// Whether the call is open and is answered `broken`.
    fn is_breaking(self, call: &Call) -> bool
        ensures { result ≡ is_broken self call.now }
    {
        !call.closed && self.breaks(call)
    }

    /// Closes the call where the cause hits it, and lets its arguments go where it is over.
    fn close(self, alloc: Global, call: &mut Call)
        ensures { call.new ≡ closed_by self call.old }
    {
        if self.ends(call) {
            call.finish(alloc);
        } else if self.hits(call) {
            call.closed = true;
        }
    }
}

/// Whether `x` and `y` are the two ends of the link between `a` and `b`. No link leads from a station
/// to itself.
fn is_link(a: u8, b: u8, x: u8, y: u8) -> bool
    ensures { result ≡ is_link a b x y }
{
    x != y && ((x == a && y == b) || (x == b && y == a))
}

/// The call of this number.
pub fn call_at(calls: &[Call], number: u32) -> Option<&Call>
    ensures { option_copied result ≡ item_in number calls.now }
{
    if number == 0 {
        return None;
    }
    calls.get((number - 1) as usize)
}

/// Whether there is an open call of this number.
pub fn is_open_at(calls: &[Call], number: u32) -> bool
    ensures { result ≡ passes_at is_open calls.now number }
{
    match call_at(calls, number) {
        Some(call) => !call.closed,
        None => false,
    }
}

/// Whether there is a live call of this number.
pub fn is_live_at(calls: &[Call], number: u32) -> bool
    ensures { result ≡ passes_at is_live calls.now number }
{
    match call_at(calls, number) {
        Some(call) => call.is_live(),
        None => false,
    }
}

/// The numbers of a list whose calls are answered `broken`.
pub fn broken_numbers(
    alloc: Global,
    calls: &[Call],
    index: &[u32],
    cause: Cause,
) -> Result<Vec<u32>, AllocError>
    requires { All (IsGiven calls.now) index.now }
    ensures { IfOk result (λ v. v.items ≡ filter (passes_at (is_broken cause) calls.now) index.now) }
{
    let mut broken = Vec::new(alloc);
    for i in 0..index.len() {
        let number = index[i];
        if cause.is_breaking(&calls[(number - 1) as usize]) {
            broken.push(number)?;
        }
    }
    Ok(broken)
}

/// Closes each call of a list that the cause hits.
pub fn close_each(alloc: Global, calls: &mut Vec<Call>, index: &[u32], cause: Cause)
    requires { All (IsGiven calls.old.items) index.now }
    ensures { calls.new.items ≡ changed_at_all (closed_by cause) 1 index.now calls.old.items }
{
    for i in 0..index.len() {
        let call = &mut calls[(index[i] - 1) as usize];
        cause.close(alloc, call);
    }
}

/// A message has come. A reply closes its call, whose arguments are let go; a request changes
/// nothing here.
pub fn receive(alloc: Global, calls: &mut Vec<Call>, message: Message) -> Delivery
    requires { IsGiven calls.old.items (number_of message) }
    ensures told { result ≡ delivery_of message calls.old.items }
    ensures calls { calls.new.items ≡ received message calls.old.items }
{
    match message {
        Message::Request { call } => Delivery::Request { call },
        Message::Reply {
            call,
            status,
            results,
        } => {
            let asked = &mut calls[(call - 1) as usize];
            let was_open = !asked.closed;
            let process = asked.process();
            asked.finish(alloc);
            Delivery::Reply {
                call,
                status,
                results,
                was_open,
                process,
            }
        }
    }
}
