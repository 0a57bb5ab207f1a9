//! Why an expression has no value.
ghost use Rattle.std.specs.Prelude.{◌≡◌};
ghost use Rattle.epl_values.specs.declared.stop.Stop.TheVariants.{Memory};

use epl_syntax::FaultCause;
use std::alloc::{AllocError, AllocFailed};

/// Want of memory, or a fault of the process.
#[derive(Drop)]
pub enum Stop {
    Memory,
    Fault { cause: FaultCause },
}

impl From<AllocError> for Stop {
    ghost from_gives = { λ _ e. e ≡ Memory };

    fn from(_e: AllocError) -> Stop {
        Stop::Memory
    }
}

impl<T: Drop> From<AllocFailed<T>> for Stop {
    ghost from_gives = { λ _ e. e ≡ Memory };

    fn from(_e: AllocFailed<T>) -> Stop {
        Stop::Memory
    }
}
