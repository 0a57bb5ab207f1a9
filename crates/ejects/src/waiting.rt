//! The queues of passive Ejects.
ghost use Rattle.std.specs.Prelude.{◌≡◌, ◌≤◌, length};

use capability::CallNumbers;
use std::marker::Model;

/// The calls that are queued for a passive Eject, in order: at most 64, so that there is a place for each when it is active.
#[derive(Drop)]
pub struct Waiting {
    calls: CallNumbers,
}

impl Model for Waiting {
    ghost use Rattle.std.specs.Prelude.{◌≤◌, ℕ, List, length};

    ghost Value = { List ℕ };

    ghost view = { λ w. w.calls };

    ghost invariant = { λ w. length w.calls ≤ 64 };
}

impl Waiting {
    /// These calls.
    pub fn of(calls: CallNumbers) -> Waiting
        requires { length calls ≤ 64 }
        ensures { result ≡ calls }
    {
        Waiting { calls }
    }

    /// How many there are.
    pub fn len(&self) -> usize
        ensures { result ≡ length self.now }
    {
        self.calls.items.len()
    }

    /// The calls, in order.
    pub fn into_calls(self) -> CallNumbers
        ensures same { result ≡ self }
        ensures few { length result ≤ 64 }
    {
        self.calls
    }
}
