//! A queue of process numbers, of which there are at most sixteen.
ghost use Rattle.std.specs.Prelude.{◌≡◌, ◌<◌, ◌++◌, ◌∷◌, [], length};
ghost use Rattle.eden_model.specs.Map.{first, rest};

use arrayvec::ArrayVec;
use std::marker::Model;

/// Numbers of processes, the first to come first.
#[derive(Drop)]
pub struct ProcessQueue {
    numbers: ArrayVec<u8, 16>,
}

impl Model for ProcessQueue {
    ghost use Rattle.std.specs.Prelude.{ℕ, List};

    ghost Value = { List ℕ };

    ghost view = { λ l. l.numbers.items };
}

impl ProcessQueue {
    /// The empty queue.
    pub fn new() -> ProcessQueue
        ensures { result ≡ [] }
    {
        ProcessQueue {
            numbers: ArrayVec::new(),
        }
    }

    /// The process is the last of the queue.
    pub fn push(&mut self, number: u8)
        requires { length self.old < 16 }
        ensures { self.new ≡ self.old ++ number ∷ [] }
    {
        self.numbers.push(number);
    }

    /// The head of the queue leaves it.
    pub fn pop(&mut self) -> Option<u8>
        ensures first { result ≡ first self.old }
        ensures rest { self.new ≡ rest self.old }
    {
        if self.numbers.is_empty() {
            None
        } else {
            Some(self.numbers.remove(0))
        }
    }
}
