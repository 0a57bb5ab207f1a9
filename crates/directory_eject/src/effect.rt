//! What operations return.
ghost use Rattle.std.specs.Prelude.{◌≡◌, IfOk, pos, [], ◌∷◌};
ghost use Rattle.eden_value.specs.Datum.{number, cap};
ghost use Rattle.epl_syntax.specs.declared.effect.Effect.TheVariants as effects;
ghost use Rattle.epl_syntax.specs.Simple.{returns_code};

use capability::Cap;
use eden_value::{Items, Value};
use epl_syntax::Effect;
use std::alloc::{AllocError, Global};

/// What was asked was done.
pub(crate) const DONE: u8 = 0;

/// The name that is to be added is there.
pub(crate) const NAME_TAKEN: u8 = 1;

/// The name is not there.
pub(crate) const NO_NAME: u8 = 1;

/// There are as many entries as there may be.
pub(crate) const FULL: u8 = 2;

/// The change was made, and is not known to be kept.
pub(crate) const NOT_KEPT: u8 = 3;

/// One number is returned.
pub(crate) fn code(alloc: Global, n: u8) -> Result<Effect, AllocError>
    ensures { IfOk result (λ effect. effect ≡ returns_code n) }
{
    let values = vec![in alloc; Value::Int { n: n as i64 }]?;
    Ok(Effect::Return {
        results: Items { values },
    })
}

/// A number and a capability are returned.
pub(crate) fn code_and_cap(alloc: Global, n: u8, held: Option<Cap>) -> Result<Effect, AllocError>
    ensures { IfOk result (λ effect. effect ≡ effects.Return (number (pos n) ∷ cap held ∷ [])) }
{
    let values = vec![in alloc; Value::Int { n: n as i64 }, Value::Cap { cap: held }]?;
    Ok(Effect::Return {
        results: Items { values },
    })
}
