//! How a call of a node is refused.
ghost use Rattle.std.specs.Prelude.{◌≡◌};
ghost use Rattle.eden_move.specs.declared.refusal.MoveRefusal.TheVariants.{OutOfMemory};
ghost use Rattle.eden_move.specs.Calls.{refusal_by};

use passive_store::StoreRefusal;
use std::alloc::AllocError;

/// How a call of a node is refused.
#[derive(Clone, Copy, Debug, PartialEq, Eq)]
pub enum MoveRefusal {
    /// There is a record already.
    There,
    /// The Eject is lent to this node.
    Lent { to: u8 },
    /// It has gone to this node.
    Gone { to: u8 },
    /// There is no record, or none that is lent.
    Unknown,
    /// It has no active part.
    Asleep,
    /// Its record would be longer than a representation may be.
    TooLarge,
    /// Its generation is the last one.
    GenerationsSpent,
    /// What is kept spells no record.
    Damaged,
    /// A device call failed.
    Fault,
    /// The disk stopped in a device call.
    Stopped,
    /// The record has no room.
    Full,
    /// There was no memory for the call.
    OutOfMemory,
}

impl From<AllocError> for MoveRefusal {
    ghost from_gives = { λ _ e. e ≡ OutOfMemory };

    fn from(_: AllocError) -> MoveRefusal {
        MoveRefusal::OutOfMemory
    }
}

impl From<StoreRefusal> for MoveRefusal {
    ghost from_gives = { λ refusal e. e ≡ refusal_by refusal };

    fn from(refusal: StoreRefusal) -> MoveRefusal {
        match refusal {
            StoreRefusal::Failed => MoveRefusal::Fault,
            StoreRefusal::Stopped => MoveRefusal::Stopped,
            StoreRefusal::Full => MoveRefusal::Full,
            StoreRefusal::Damaged { place: _ } => MoveRefusal::Damaged,
            StoreRefusal::OutOfMemory => MoveRefusal::OutOfMemory,
        }
    }
}
