//! The invocations that are queued.
ghost use Rattle.std.specs.Prelude.{◌≡◌, ◌≤◌, ◌<◌, ◌++◌, ◌∷◌, [], length, map, OnOk, OnErr, Some, slice_get};
ghost use Rattle.coordinator.specs.View.{invocation_of};
ghost use Rattle.coordinator.specs.Queued.{invocations};
ghost use Rattle.eden_model.specs.Crew.{without_call};

use crate::slots::Serving;
use std::alloc::{AllocError, Global};
use std::marker::Model;

/// Invocations in the order of coming: their numbers, and beside them their classes.
///
/// The numbers stand alone, so that they can be handed out as they are. Memory is taken as
/// invocations come, and kept as they go.
#[derive(Drop)]
pub struct Queue {
    calls: Vec<u32>,
    classes: Vec<u8>,
}

impl Model for Queue {
    ghost use Rattle.std.specs.Prelude.{List};
    ghost use Rattle.eden_model.specs.Crew.{Invocation};

    ghost Value = { List Invocation };

    ghost use Rattle.coordinator.specs.Queued.{queued_of, IsQueue};

    ghost view = { queued_of };

    ghost invariant = { IsQueue };
}

impl Queue {
    /// The empty queue, which takes no memory.
    pub fn new(alloc: Global) -> Queue
        ensures { result ≡ [] }
    {
        Queue {
            calls: Vec::new(alloc),
            classes: Vec::new(alloc),
        }
    }

    /// How many are queued.
    pub fn len(&self) -> usize
        ensures { result ≡ length self.now }
    {
        self.calls.len()
    }

    /// The invocation at a place.
    pub fn at(&self, place: usize) -> Serving
        requires { place < length self.now }
        ensures { slice_get self.now place ≡ Some (invocation_of result) }
    {
        let call = self.calls[place];
        let class = self.classes[place];
        Serving { call, class }
    }

    /// The invocation is the last of the queue.
    pub fn push(&mut self, call: u32, class: u8) -> Result<(), AllocError>
        ensures pushed { OnOk result (self.new ≡ self.old ++ record { call = call; class = class } ∷ []) }
        ensures unchanged { OnErr result (self.new ≡ self.old) }
    {
        self.calls.reserve(1)?;
        self.classes.reserve(1)?;
        self.calls.push_reserved(call);
        self.classes.push_reserved(class);
        Ok(())
    }

    /// The call leaves the queue.
    pub fn remove(&mut self, call: u32)
        ensures { self.new ≡ without_call call self.old }
    {
        remove_from(&mut self.calls, &mut self.classes, call);
    }

    /// The numbers of the calls, in order.
    pub fn into_numbers(self) -> Vec<u32>
        ensures { result.items ≡ map (λ i. i.call) self }
    {
        self.calls
    }
}

/// Removes a call's number and its class, wherever they stand.
fn remove_from(calls: &mut Vec<u32>, classes: &mut Vec<u8>, call: u32)
    requires { length calls.old.items ≡ length classes.old.items }
    ensures after { invocations calls.new.items classes.new.items
        ≡ without_call call (invocations calls.old.items classes.old.items) }
    ensures same { length calls.new.items ≡ length classes.new.items }
{
    let count = calls.len();
    for done in 0..count {
        let place = count - 1 - done;
        if calls[place] == call {
            calls.remove(place);
            classes.remove(place);
        }
    }
}
