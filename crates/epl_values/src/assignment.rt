//! Assignments. A text or a list that grows behind its own value stays where it is.
ghost use Rattle.std.specs.Prelude.{◌≡◌, true, is_some, Ok, IsTrue};
ghost use Rattle.eden_value.specs.Datum.{text, list, data_of};
ghost use Rattle.eden_value.specs.View.{datum, datums};
ghost use Rattle.epl_syntax.specs.Tree as tree;
ghost use Rattle.epl_syntax.specs.Bindings.{variable, each_of_expression};
ghost use Rattle.epl_syntax.specs.Memory as variables;
ghost use Rattle.epl_syntax.specs.Operators as operators;
ghost use Rattle.epl_syntax.specs.Operators.{found};
ghost use Rattle.epl_syntax.specs.Expressions as meaning;
ghost use Rattle.epl_values.specs.Comes.{Joins, Moves, setting};
ghost use Rattle.epl_values.specs.Variables as spec;

use crate::expression::value_of;
use crate::operator::joined;
use crate::stop::Stop;
use crate::variables::{Variables, replace, set, value_named};
use eden_value::{DEPTH_LIMIT, LIST_LIMIT, Listed, TEXT_LIMIT, Txt, Value, are_shallow};
use epl_syntax::{Expr, FaultCause, Name, Operator, Program, same_text};
use std::alloc::Global;

/// Whether one list may stand behind another.
fn lists_may_join(a: &Listed, b: &Listed) -> Result<(), FaultCause>
    ensures { Joins result (operators.joined (list (data_of a.now)) (list (data_of b.now))) }
{
    if a.values.len() + b.values.len() > LIST_LIMIT {
        return Err(FaultCause::TooLong);
    }
    if !are_shallow(a.as_slice(), DEPTH_LIMIT - 1) {
        return Err(FaultCause::TooDeep);
    }
    if !are_shallow(b.as_slice(), DEPTH_LIMIT - 1) {
        return Err(FaultCause::TooDeep);
    }
    Ok(())
}

/// Whether one text may stand behind another.
fn texts_may_join(a: &Txt, b: &Txt) -> Result<(), FaultCause>
    ensures { Joins result (operators.joined (text a.now) (text b.now)) }
{
    if a.bytes.len() + b.bytes.len() > TEXT_LIMIT {
        return Err(FaultCause::TooLong);
    }
    Ok(())
}

/// Whether one value may stand behind another.
fn may_join(a: &Value, b: &Value) -> Result<(), FaultCause>
    ensures { Joins result (operators.joined (datum a.now) (datum b.now)) }
{
    match (a, b) {
        (Value::Text { text: a }, Value::Text { text: b }) => texts_may_join(a, b),
        (Value::List { items: a }, Value::List { items: b }) => lists_may_join(a, b),
        _ => Err(FaultCause::BadKind),
    }
}

/// Whether a value may stand behind that of a variable.
fn may_grow(
    program: &Program,
    vars: &Variables,
    name: &Name,
    right: &Value,
) -> Result<(), FaultCause>
    requires { spec.is_found program.now vars.now.owner variable name.now ≡ true }
    ensures { Joins result (found (variables.value_as (spec.memory (tree.type_tree program.now) vars.now) name.now.text)
        (λ d. operators.joined d (datum right.now))) }
{
    match value_named(program, vars, name) {
        Some(left) => may_join(left, right),
        None => Err(FaultCause::BadKind),
    }
}

/// A value goes behind that of a variable, where it may.
fn put_behind(
    program: &Program,
    vars: &mut Variables,
    name: &Name,
    right: Value,
) -> Result<(), Stop>
    requires name { spec.is_found program.now vars.old.owner variable name.now ≡ true }
    requires joins { Joins (Ok (tt)) (found (variables.value_as (spec.memory (tree.type_tree program.now) vars.old) name.now.text)
        (λ d. operators.joined d (datum right))) }
    ensures moves { Moves result (spec.memory (tree.type_tree program.now) vars.new) (spec.memory (tree.type_tree program.now) vars.old)
        (found (found (variables.value_as (spec.memory (tree.type_tree program.now) vars.old) name.now.text)
        (λ d. operators.joined d (datum right))) (setting name.now.text (spec.memory (tree.type_tree program.now) vars.old))) }
    ensures owner { vars.new.owner ≡ vars.old.owner }
{
    match replace(program, vars, name, Value::Int { n: 0 }) {
        Some(left) => match joined(left, right) {
            Ok(longer) => {
                set(program, vars, name, longer);
                Ok(())
            }
            Err(stop) => Err(stop),
        },
        None => Err(Stop::Fault {
            cause: FaultCause::BadKind,
        }),
    }
}

/// Whether an expression is just this name.
fn is_named(e: &Expr, text: &Txt) -> bool
    ensures { IsTrue result → (m : variables.Memory) → meaning.value_of m (tree.expression e.now) ≡ variables.value_as m text.now }
{
    match e {
        Expr::Name { name } => same_text(&name.text, text),
        _ => false,
    }
}

fn has_value(program: &Program, vars: &Variables, name: &Name) -> bool
    requires { spec.is_found program.now vars.now.owner variable name.now ≡ true }
    ensures { result ≡ is_some (spec.value_as_named (spec.memory (tree.type_tree program.now) vars.now) name.now.text) }
{
    match value_named(program, vars, name) {
        Some(_) => true,
        None => false,
    }
}

/// `name := name & right`: the right side goes behind the value that is there, which is not copied.
fn grow(
    alloc: Global,
    program: &Program,
    vars: &mut Variables,
    name: &Name,
    right: &Expr,
) -> Result<(), Stop>
    requires name { spec.is_found program.now vars.old.owner variable name.now ≡ true }
    requires value { each_of_expression (spec.is_found program.now vars.old.owner) (tree.expression right.now) ≡ true }
    ensures moves { Moves result (spec.memory (tree.type_tree program.now) vars.new) (spec.memory (tree.type_tree program.now) vars.old)
        (found (found (variables.value_as (spec.memory (tree.type_tree program.now) vars.old) name.now.text)
        (λ d. found (meaning.value_of (spec.memory (tree.type_tree program.now) vars.old) (tree.expression right.now))
        (operators.joined d)))
        (setting name.now.text (spec.memory (tree.type_tree program.now) vars.old))) }
    ensures owner { vars.new.owner ≡ vars.old.owner }
{
    if !has_value(program, vars, name) {
        return Err(Stop::Fault {
            cause: FaultCause::BadKind,
        });
    }
    match value_of(alloc, program, vars, right) {
        Ok(right) => match may_grow(program, vars, name, &right) {
            Ok(()) => put_behind(program, vars, name, right),
            Err(cause) => Err(Stop::Fault { cause }),
        },
        Err(stop) => Err(stop),
    }
}

/// The value of an expression goes into a variable.
fn overwrite(
    alloc: Global,
    program: &Program,
    vars: &mut Variables,
    name: &Name,
    e: &Expr,
) -> Result<(), Stop>
    requires name { spec.is_found program.now vars.old.owner variable name.now ≡ true }
    requires value { each_of_expression (spec.is_found program.now vars.old.owner) (tree.expression e.now) ≡ true }
    ensures moves { Moves result (spec.memory (tree.type_tree program.now) vars.new) (spec.memory (tree.type_tree program.now) vars.old)
        (found (meaning.value_of (spec.memory (tree.type_tree program.now) vars.old) (tree.expression e.now))
        (setting name.now.text (spec.memory (tree.type_tree program.now) vars.old))) }
    ensures owner { vars.new.owner ≡ vars.old.owner }
{
    let value = value_of(alloc, program, vars, e)?;
    set(program, vars, name, value);
    Ok(())
}

/// `name := e`. Where it faults, all variables stay.
pub fn assign(
    alloc: Global,
    program: &Program,
    vars: &mut Variables,
    name: &Name,
    e: &Expr,
) -> Result<(), Stop>
    requires name { spec.is_found program.now vars.old.owner variable name.now ≡ true }
    requires value { each_of_expression (spec.is_found program.now vars.old.owner) (tree.expression e.now) ≡ true }
    ensures moves { Moves result (spec.memory (tree.type_tree program.now) vars.new) (spec.memory (tree.type_tree program.now) vars.old)
        (found (meaning.value_of (spec.memory (tree.type_tree program.now) vars.old) (tree.expression e.now))
        (setting name.now.text (spec.memory (tree.type_tree program.now) vars.old))) }
    ensures owner { vars.new.owner ≡ vars.old.owner }
{
    match e {
        Expr::Binary {
            operator: Operator::Join,
            left,
            right,
            ..
        } => {
            if is_named(left, &name.text) {
                grow(alloc, program, vars, name, right)
            } else {
                overwrite(alloc, program, vars, name, e)
            }
        }
        _ => overwrite(alloc, program, vars, name, e),
    }
}
