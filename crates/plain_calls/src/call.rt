//! A call, and where it stands.
ghost use Rattle.std.specs.Prelude.{◌≡◌, map, option_copied};
ghost use Rattle.eden_model.specs.Traffic as traffic;
ghost use Rattle.plain_calls.specs.View.{place_of, call_of, at_number, hits_of};
ghost use Rattle.plain_calls.specs.Changes.{placed, shut};

use capability::{Cap, Uid};
use eden_model::Asker;
use eden_value::{Items, Status, Txt};
use std::alloc::AllocError;

/// Where a call stands.
#[derive(Drop)]
pub enum Place {
    /// Its request is on its way.
    Asked,
    /// It is at its target, queued or running.
    Held,
    /// Its reply is on its way.
    Answered { status: Status, results: Items },
    /// It is over.
    Done,
}

/// A call: who asked what of whom.
#[derive(Drop)]
pub struct Call {
    /// Who asked.
    pub asker: Asker,
    /// The capability by which it was asked.
    pub target: Cap,
    /// The name of the operation.
    pub operation: Txt,
    /// The arguments.
    pub args: Items,
    /// Whether somebody still waits for its answer.
    pub open: bool,
    /// Where it stands.
    pub place: Place,
}

/// Some of the calls.
#[derive(Clone, Copy)]
pub enum Among {
    /// The open ones to this node from another station.
    ToNode { node: u8 },
    /// The open ones over the link between two stations.
    OverLink { a: u8, b: u8 },
    /// The open ones.
    Open,
}

/// The station of the asker, to which a reply goes: 0 for the shell, else the node of its Eject.
pub fn station(asker: &Asker) -> u8
    ensures { result ≡ traffic.asking_station asker.now }
{
    match asker {
        Asker::Shell { .. } => 0,
        Asker::Eject { uid, .. } => uid.node,
    }
}

/// Whether `x` and `y` are the two ends of the link between `a` and `b`. No link leads from a station to itself.
fn is_link(a: u8, b: u8, x: u8, y: u8) -> bool
    ensures { result ≡ traffic.is_link a b x y }
{
    x != y && ((x == a && y == b) || (x == b && y == a))
}

/// Whether asker and target of the call are at the two ends of this link.
pub fn is_on_link(a: u8, b: u8, call: &Call) -> bool
    ensures { result ≡ traffic.on_link a b (call_of call.now) }
{
    is_link(a, b, station(&call.asker), call.target.uid.node)
}

impl Among {
    /// Whether the call is one of them.
    pub fn has(self, call: &Call) -> bool
        ensures { result ≡ hits_of self (call_of call.now) }
    {
        match self {
            Among::ToNode { node } => {
                call.open && (call.target.uid.node == node && station(&call.asker) != node)
            }
            Among::OverLink { a, b } => call.open && is_on_link(a, b, call),
            Among::Open => call.open,
        }
    }
}

/// A new call. It is asked, or over at once where a status refuses it.
pub fn new_call(
    asker: Asker,
    target: Cap,
    operation: Txt,
    args: Items,
    at_once: Option<Status>,
) -> Call
    ensures { call_of result ≡ traffic.new_call asker target operation args at_once }
{
    let (open, place) = match at_once {
        None => (true, Place::Asked),
        Some(_) => (false, Place::Done),
    };
    Call {
        asker,
        target,
        operation,
        args,
        open,
        place,
    }
}

/// The call of this number, counted from 1.
pub fn item_at(calls: &[Call], number: u32) -> Option<&Call>
    ensures { option_copied result ≡ at_number number calls.now }
{
    calls.get(number.checked_sub(1)? as usize)
}

/// The call of this number stands at a place, where there is such a call.
pub fn put_at(calls: &mut Vec<Call>, number: u32, place: Place)
    ensures { calls.new.items ≡ placed number place calls.old.items }
{
    let Some(index) = number.checked_sub(1) else {
        return;
    };
    match calls.get_mut(index as usize) {
        Some(call) => call.place = place,
        None => {}
    }
}

/// The call of this number is over, and nobody waits for it, where there is such a call.
pub fn shut_at(calls: &mut Vec<Call>, number: u32)
    ensures { calls.new.items ≡ shut number calls.old.items }
{
    let Some(index) = number.checked_sub(1) else {
        return;
    };
    match calls.get_mut(index as usize) {
        Some(call) => {
            call.open = false;
            call.place = Place::Done;
        }
        None => {}
    }
}
