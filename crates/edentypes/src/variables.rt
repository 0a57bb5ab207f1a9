//! The variables of a type, and their values.
ghost use Rattle.std.specs.Prelude.{◌≡◌, IfOk, map};
ghost use Rattle.eden_value.specs.Datum.{list, no_data};
ghost use Rattle.eden_value.specs.Shape.{has_shape};
ghost use Rattle.eden_value.specs.View.{datum, datums};
ghost use Rattle.epl_syntax.specs.Kinds.{have_shapes};
ghost use Rattle.epl_syntax.specs.Memory as memory;
ghost use Rattle.epl_syntax.specs.Outline as outline;
ghost use Rattle.epl_syntax.specs.Tree as tree;
ghost use Rattle.edentypes.specs.Forms.{slot_of, slot_of_variable};

use crate::kinds::Kinded;
use crate::native::{First, Slot};
use eden_value::{Value, copy, has_kind, listed, texted};
use epl_syntax::{Const, VarDecl};
use std::alloc::{AllocError, Global};

/// A variable of a type: its kind, whether a checkpoint keeps it, and what it holds at first.
pub(crate) trait Variable {
    ghost use Rattle.epl_syntax.specs.Outline.{Slot};

    ghost slot: { Self → Slot };

    /// Whether a checkpoint keeps it.
    fn is_durable(&self) -> bool
        ensures { result ≡ (slot self.now).durable };

    /// Whether a value is of its kind.
    fn may_hold(&self, value: &Value) -> bool
        ensures { result ≡ has_shape (datum value.now) (slot self.now).kind };

    /// What it holds at first.
    fn first(&self, alloc: Global) -> Result<Value, AllocError>
        ensures { IfOk result (λ value. datum value ≡ (slot self.now).start) };
}

fn empty_list(alloc: Global) -> Result<Value, AllocError>
    ensures { IfOk result (λ value. datum value ≡ list no_data) }
{
    let items = listed(Vec::new(alloc))?;
    Ok(Value::List { items })
}

impl Variable for Slot {
    ghost slot = { slot_of };

    fn is_durable(&self) -> bool {
        self.durable
    }

    fn may_hold(&self, value: &Value) -> bool {
        self.kind.takes(value)
    }

    fn first(&self, alloc: Global) -> Result<Value, AllocError> {
        match self.first {
            First::Zero => Ok(Value::Int { n: 0 }),
            First::False => Ok(Value::Bool { b: false }),
            First::True => Ok(Value::Bool { b: true }),
            First::NoText => {
                let text = texted(Vec::new(alloc))?;
                Ok(Value::Text { text })
            }
            First::NoCap => Ok(Value::Cap { cap: None }),
            First::NoItems => empty_list(alloc),
        }
    }
}

/// The value of a constant.
fn value_of(alloc: Global, constant: &Const) -> Result<Value, AllocError>
    ensures { IfOk result (λ value. datum value ≡ memory.value_of_constant (tree.constant constant.now)) }
{
    match constant {
        Const::Int { n } => Ok(Value::Int { n: *n }),
        Const::Text { text } => {
            let text = text.share()?;
            Ok(Value::Text { text })
        }
        Const::Bool { b } => Ok(Value::Bool { b: *b }),
        Const::Absent => Ok(Value::Cap { cap: None }),
        Const::EmptyList { .. } => empty_list(alloc),
    }
}

impl Variable for VarDecl {
    ghost slot = { slot_of_variable };

    fn is_durable(&self) -> bool {
        self.durable
    }

    fn may_hold(&self, value: &Value) -> bool {
        has_kind(value, &self.kind.kind)
    }

    fn first(&self, alloc: Global) -> Result<Value, AllocError> {
        value_of(alloc, &self.start.value)
    }
}

/// The values of all variables, where the durable ones have these: the working ones begin anew.
pub(crate) fn with_kept<V: Variable>(
    alloc: Global,
    vars: &[V],
    durable: &[Value],
) -> Result<Vec<Value>, AllocError>
    ensures { IfOk result (λ made. datums made.items ≡ outline.with_kept (map V.slot vars.now) (datums durable.now)) }
{
    let mut rest = durable;
    let mut made = Vec::with_capacity(alloc, vars.len())?;
    for var in vars {
        if var.is_durable() {
            match rest.split_first() {
                Some((value, others)) => {
                    made.push(copy(alloc, value)?)?;
                    rest = others;
                }
                None => made.push(var.first(alloc)?)?,
            }
        } else {
            made.push(var.first(alloc)?)?;
        }
    }
    Ok(made)
}

/// Of the values of all variables those of the durable ones.
pub(crate) fn only_kept<V: Variable>(
    alloc: Global,
    vars: &[V],
    values: &[Value],
) -> Result<Vec<Value>, AllocError>
    ensures { IfOk result (λ made. datums made.items ≡ outline.only_kept (map V.slot vars.now) (datums values.now)) }
{
    let mut rest = values;
    let mut made = Vec::new(alloc);
    for var in vars {
        let Some((value, others)) = rest.split_first() else {
            return Ok(made);
        };
        if var.is_durable() {
            made.push(copy(alloc, value)?)?;
        }
        rest = others;
    }
    Ok(made)
}

/// Whether there are as many values as durable variables, each of its variable's kind.
pub(crate) fn fit_kept<V: Variable>(vars: &[V], values: &[Value]) -> bool
    ensures { result ≡ have_shapes (datums values.now) (outline.kinds_kept (map V.slot vars.now)) }
{
    let mut rest = values;
    for var in vars {
        if var.is_durable() {
            let Some((value, others)) = rest.split_first() else {
                return false;
            };
            if !var.may_hold(value) {
                return false;
            }
            rest = others;
        }
    }
    rest.is_empty()
}
