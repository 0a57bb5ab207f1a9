//! What a coordinator is made of, and what is left of it.
ghost use Rattle.std.specs.Prelude.{◌≡◌, ◌≤◌, length};

use arrayvec::ArrayVec;
use capability::{CallNumbers, Seq};
use std::alloc::AllocError;
use std::marker::Model;
use thiserror::Error;

/// Numbers of processes, each with the number of the call that it serves.
#[derive(Drop)]
pub struct Pairs {
    pub pairs: ArrayVec<(u8, u32), 16>,
}

impl Model for Pairs {
    ghost use Rattle.std.specs.Prelude.{ℕ, List};

    ghost Value = { List (ℕ × ℕ) };

    ghost view = { λ p. p.pairs.items };
}

/// How an active part is laid out.
///
/// Classes and conditions are counted from 0, monitors and processes from 1.
#[derive(Drop)]
pub struct Setup {
    /// The limits of the classes: how many invocations of each class may run at once, 1 to 16.
    pub limits: Seq<u8>,
    /// How many processes the type declares. They run from the start.
    pub declared: u8,
    /// How many monitors there are.
    pub monitors: u8,
    /// The monitors of the conditions, counted from 1.
    pub conditions: Seq<u8>,
}

/// A call that was started, and the process that serves it.
#[derive(Clone, Copy, Debug)]
pub struct Started {
    pub call: u32,
    pub process: u8,
}

/// What an active part still owes an answer as it is given up.
#[derive(Drop)]
pub struct Parts {
    /// The processes that serve a call, by number, each with its call.
    pub running: Pairs,
    /// The calls that are queued, in order.
    pub queued: CallNumbers,
    pub ghost few: { length queued ≤ 64 },
}

/// Why `offer` refuses an invocation.
#[derive(Clone, Copy, Debug, PartialEq, Eq, Error)]
pub enum OfferRefusal {
    /// 64 invocations are queued.
    #[error("64 invocations are queued")]
    Busy,
    /// There is no memory for one more queued invocation.
    #[error("there is no memory for the invocation")]
    OutOfMemory,
}

impl From<AllocError> for OfferRefusal {
    ghost use Rattle.coordinator.specs.declared.parts.OfferRefusal.TheVariants.{OutOfMemory};

    ghost from_gives = { λ _ e. e ≡ OutOfMemory };

    fn from(_: AllocError) -> Self {
        OfferRefusal::OutOfMemory
    }
}
