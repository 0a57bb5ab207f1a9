//! Values of constants.
ghost use Rattle.std.specs.Prelude.{◌≡◌, IfOk};
ghost use Rattle.eden_value.specs.View.{datum};
ghost use Rattle.epl_syntax.specs.Tree.{constant};
ghost use Rattle.epl_syntax.specs.Memory as meaning;

use eden_value::{Value, listed};
use epl_syntax::Const;
use std::alloc::{AllocError, Global};

/// The value of a constant.
pub fn value_of_constant(alloc: Global, c: &Const) -> Result<Value, AllocError>
    ensures { IfOk result (λ v. datum v ≡ meaning.value_of_constant (constant c.now)) }
{
    match c {
        Const::Int { n } => Ok(Value::Int { n: *n }),
        Const::Text { text } => {
            let text = text.share()?;
            Ok(Value::Text { text })
        }
        Const::Bool { b } => Ok(Value::Bool { b: *b }),
        Const::Absent => Ok(Value::Cap { cap: None }),
        Const::EmptyList { .. } => {
            let items = listed(Vec::new(alloc))?;
            Ok(Value::List { items })
        }
    }
}
