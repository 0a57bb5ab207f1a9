//! What closes many calls at once.
ghost use Rattle.std.specs.Prelude.{◌≡◌, map};
ghost use Rattle.eden_model.specs.Traffic as traffic;
ghost use Rattle.plain_calls.specs.View.{place_of, call_of};
ghost use Rattle.plain_calls.specs.Changes.{closed_by, hits_by, ends_by};

use crate::call::{Call, Place, is_on_link, station};
use capability::Uid;
use eden_model::Asker;

/// What closes calls: an Eject that lost its active part, a crash of a node, or a cut of a link.
#[derive(Clone, Copy)]
pub enum Cause {
    Lost { uid: Uid },
    Crash { node: u8 },
    Cut { a: u8, b: u8 },
}

/// Whether a process of this Eject asked.
fn asks(uid: Uid, asker: &Asker) -> bool
    ensures { result ≡ traffic.asks uid asker.now }
{
    match asker {
        Asker::Shell { .. } => false,
        Asker::Eject { uid: own, .. } => *own == uid,
    }
}

/// Whether a request or a reply is on its way.
fn is_in_transit(place: &Place) -> bool
    ensures { result ≡ traffic.in_transit (place_of place.now) }
{
    match place {
        Place::Asked => true,
        Place::Held => false,
        Place::Answered { .. } => true,
        Place::Done => false,
    }
}

impl Cause {
    /// Whether it closes the call.
    pub fn hits(self, call: &Call) -> bool
        ensures { result ≡ hits_by self (call_of call.now) }
    {
        match self {
            Cause::Lost { uid } => asks(uid, &call.asker),
            Cause::Crash { node } => call.target.uid.node == node || station(&call.asker) == node,
            Cause::Cut { a, b } => is_on_link(a, b, call),
        }
    }

    /// Whether the call is over with it: it was to run where the node falls, or its message was on its way.
    fn ends(self, call: &Call) -> bool
        ensures { result ≡ ends_by self (call_of call.now) }
    {
        match self {
            Cause::Lost { .. } => false,
            Cause::Crash { node } => { call.target.uid.node == node || is_in_transit(&call.place) }
            Cause::Cut { .. } => is_in_transit(&call.place),
        }
    }

    /// Closes the call where the cause hits it.
    fn close(self, call: &mut Call)
        ensures { call_of call.new ≡ closed_by self (call_of call.old) }
    {
        if self.hits(call) {
            call.open = false;
            if self.ends(call) {
                call.place = Place::Done;
            }
        }
    }
}

/// Closes each of the calls that the cause hits.
pub fn close_each(calls: &mut Vec<Call>, cause: Cause)
    ensures { map call_of calls.new.items ≡ map (closed_by cause) (map call_of calls.old.items) }
{
    for i in 0..calls.len() {
        cause.close(&mut calls[i]);
    }
}
