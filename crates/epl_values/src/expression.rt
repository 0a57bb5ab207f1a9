//! Values of expressions.
ghost use Rattle.std.specs.Prelude.{◌≡◌, true, Ok, IfSome};
ghost use Rattle.eden_value.specs.View.{datum, datums};
ghost use Rattle.epl_syntax.specs.Tree as tree;
ghost use Rattle.epl_syntax.specs.Bindings.{variable, each_of_expression, each_of_expressions};
ghost use Rattle.epl_syntax.specs.Operators as operators;
ghost use Rattle.epl_syntax.specs.Memory as memory;
ghost use Rattle.epl_syntax.specs.Expressions as meaning;
ghost use Rattle.epl_values.specs.Comes.{Comes, Decided, IsNumber};
ghost use Rattle.epl_values.specs.Variables as spec;

use crate::builtin::{applied, item_at};
use crate::constant::value_of_constant;
use crate::operator::{before_operand, list_of, of_both, of_integers};
use crate::stop::Stop;
use crate::variables::{Variables, value_named};
use capability::mint;
use eden_value::{Value, copy};
use epl_syntax::{Const, Expr, FaultCause, Name, Operator, Program};
use std::alloc::Global;

/// A copy of the value of a variable.
pub fn copy_named(
    alloc: Global,
    program: &Program,
    vars: &Variables,
    name: &Name,
) -> Result<Value, Stop>
    requires { spec.is_found program.now vars.now.owner variable name.now ≡ true }
    ensures { Comes datum result (memory.value_as (spec.memory (tree.type_tree program.now) vars.now) name.now.text) }
{
    match value_named(program, vars, name) {
        Some(value) => Ok(copy(alloc, value)?),
        None => Err(Stop::Fault {
            cause: FaultCause::BadKind,
        }),
    }
}

/// Whether the left value of `or` or `and` is that of the whole.
fn is_decided(operator: Operator, left: &Value) -> bool
    ensures { Decided result operator (datum left.now) }
{
    match (operator, left) {
        (Operator::Or, Value::Bool { b }) => *b,
        (Operator::And, Value::Bool { b }) => !*b,
        _ => false,
    }
}

/// The number that a constant or a variable is, if it is one. Nothing is copied.
fn number_in(program: &Program, vars: &Variables, e: &Expr) -> Option<i64>
    requires { each_of_expression (spec.is_found program.now vars.now.owner) (tree.expression e.now) ≡ true }
    ensures { IfSome result (IsNumber (spec.memory (tree.type_tree program.now) vars.now) (tree.expression e.now)) }
{
    match e {
        Expr::Const {
            value: Const::Int { n },
            ..
        } => Some(*n),
        Expr::Name { name } => match value_named(program, vars, name) {
            Some(Value::Int { n }) => Some(*n),
            _ => None,
        },
        _ => None,
    }
}

/// The numbers on both sides of an operator, if each is a constant or a variable that is one.
fn numbers_in(program: &Program, vars: &Variables, left: &Expr, right: &Expr) -> Option<(i64, i64)>
    requires left { each_of_expression (spec.is_found program.now vars.now.owner) (tree.expression left.now) ≡ true }
    requires right { each_of_expression (spec.is_found program.now vars.now.owner) (tree.expression right.now) ≡ true }
    ensures left { IfSome result (λ it. IsNumber (spec.memory (tree.type_tree program.now) vars.now) (tree.expression left.now) it.0) }
    ensures right { IfSome result (λ it. IsNumber (spec.memory (tree.type_tree program.now) vars.now) (tree.expression right.now) it.1) }
{
    let left = number_in(program, vars, left)?;
    let right = number_in(program, vars, right)?;
    Some((left, right))
}

/// The value of an expression. An operator between two numbers, as most of a turn has them, is worked out without copies of them.
#[cycle(expression)]
pub fn value_of(alloc: Global, program: &Program, vars: &Variables, e: &Expr) -> Result<Value, Stop>
    requires { each_of_expression (spec.is_found program.now vars.now.owner) (tree.expression e.now) ≡ true }
    ensures { Comes datum result (meaning.value_of (spec.memory (tree.type_tree program.now) vars.now) (tree.expression e.now)) }
{
    match e {
        Expr::Const { value, .. } => Ok(value_of_constant(alloc, value)?),
        Expr::Name { name } => copy_named(alloc, program, vars, name),
        Expr::Me { .. } => Ok(Value::Cap {
            cap: Some(mint(vars.me)),
        }),
        Expr::Unary { prefix, of, .. } => {
            let value = value_of(alloc, program, vars, of)?;
            before_operand(*prefix, value)
        }
        Expr::Binary {
            operator,
            left,
            right,
            ..
        } => {
            if let Some((a, b)) = numbers_in(program, vars, left, right) {
                return of_integers(*operator, a, b);
            }
            let left = value_of(alloc, program, vars, left)?;
            if is_decided(*operator, &left) {
                return Ok(left);
            }
            let right = value_of(alloc, program, vars, right)?;
            of_both(*operator, left, right)
        }
        Expr::Index { of, at, .. } => {
            let list = value_of(alloc, program, vars, of)?;
            let place = value_of(alloc, program, vars, at)?;
            item_at(list, place)
        }
        Expr::ListOf { items, .. } => {
            let values = values_of(alloc, program, vars, items)?;
            list_of(values)
        }
        Expr::Apply { builtin, args, .. } => {
            let values = values_of(alloc, program, vars, args)?;
            applied(alloc, *builtin, values)
        }
    }
}

/// The values of several, in order.
#[cycle(expression)]
pub fn values_of(
    alloc: Global,
    program: &Program,
    vars: &Variables,
    es: &[Expr],
) -> Result<Vec<Value>, Stop>
    requires { each_of_expressions (spec.is_found program.now vars.now.owner) (tree.expressions es.now) ≡ true }
    ensures { Comes (λ v. datums v.items) result
        (meaning.values_of (spec.memory (tree.type_tree program.now) vars.now) (tree.expressions es.now)) }
{
    let mut values = Vec::with_capacity(alloc, es.len())?;
    for e in es {
        values.push(value_of(alloc, program, vars, e)?)?;
    }
    Ok(values)
}
