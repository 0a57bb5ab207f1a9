//! One walk through a body, which notes the binding of each name in it.
//!
//! Each part is walked, also behind one whose bindings did not all stand in the table yet.
ghost use Rattle.std.specs.Prelude.{◌≡◌, ◌&&◌, map};
ghost use Rattle.std.specs.List.{list_all};
ghost use Rattle.epl_syntax.specs.Tree as tree;
ghost use Rattle.epl_syntax.specs.Bindings.{has_binding, each_of_expression, each_of_target, each_of_statement, variable};
ghost use Rattle.epl_check.specs.Noted.{names_of, Noted};

use crate::noted::{BodyNames, note_condition, note_monitor, note_variable, note_variables};
use epl_syntax::{Binding, Expr, Name, Stmt, Target};

/// Notes the bindings of the names in an expression.
#[cycle(expression)]
fn note_expression(names: &BodyNames<'_>, bindings: &mut [Binding], e: &Expr) -> bool
    ensures { Noted result bindings.old bindings.new
        (each_of_expression (has_binding bindings.old (names_of names.now)) (tree.expression e.now)) }
{
    match e {
        Expr::Const { .. } | Expr::Me { .. } => true,
        Expr::Name { name } => note_variable(names, bindings, name),
        Expr::Unary { of, .. } => note_expression(names, bindings, of),
        Expr::Binary { left, right, .. } => {
            note_expression(names, bindings, left) & note_expression(names, bindings, right)
        }
        Expr::Index { of, at, .. } => {
            note_expression(names, bindings, of) & note_expression(names, bindings, at)
        }
        Expr::ListOf { items, .. } => note_expressions(names, bindings, items),
        Expr::Apply { args, .. } => note_expressions(names, bindings, args),
    }
}

#[cycle(expression)]
fn note_expressions(names: &BodyNames<'_>, bindings: &mut [Binding], es: &[Expr]) -> bool
    ensures { Noted result bindings.old bindings.new
        (list_all (each_of_expression (has_binding bindings.old (names_of names.now))) (map tree.expression es.now)) }
{
    let mut stood = true;
    for e in es {
        stood &= note_expression(names, bindings, e);
    }
    stood
}

fn note_target(names: &BodyNames<'_>, bindings: &mut [Binding], target: &Target) -> bool
    ensures { Noted result bindings.old bindings.new (each_of_target (has_binding bindings.old (names_of names.now)) target.now) }
{
    match target {
        Target::Name { name } => note_variable(names, bindings, name),
        Target::Me { .. } => true,
    }
}

/// Notes the names of an assignment.
pub(crate) fn note_assignment(
    names: &BodyNames<'_>,
    bindings: &mut [Binding],
    name: &Name,
    value: &Expr,
) -> bool
    ensures { Noted result bindings.old bindings.new (has_binding bindings.old (names_of names.now) variable name.now
        && each_of_expression (has_binding bindings.old (names_of names.now)) (tree.expression value.now)) }
{
    note_variable(names, bindings, name) & note_expression(names, bindings, value)
}

/// Notes the names of an invocation.
fn note_invocation(
    names: &BodyNames<'_>,
    bindings: &mut [Binding],
    target: &Target,
    args: &[Expr],
    status: &Name,
    gives: &[Name],
) -> bool
    ensures { Noted result bindings.old bindings.new (each_of_target (has_binding bindings.old (names_of names.now)) target.now
        && list_all (each_of_expression (has_binding bindings.old (names_of names.now))) (map tree.expression args.now)
        && has_binding bindings.old (names_of names.now) variable status.now
        && list_all (has_binding bindings.old (names_of names.now) variable) gives.now) }
{
    note_target(names, bindings, target)
        & note_expressions(names, bindings, args)
        & note_variable(names, bindings, status)
        & note_variables(names, bindings, gives)
}

/// Notes the bindings of the names in a statement.
#[cycle(statement)]
fn note_statement(names: &BodyNames<'_>, bindings: &mut [Binding], s: &Stmt) -> bool
    ensures { Noted result bindings.old bindings.new
        (each_of_statement (has_binding bindings.old (names_of names.now)) (tree.statement s.now)) }
{
    match s {
        Stmt::Assign { name, value } => note_assignment(names, bindings, name, value),
        Stmt::If {
            test: asked,
            so,
            otherwise,
            ..
        } => {
            note_expression(names, bindings, asked)
                & note_block(names, bindings, so)
                & note_block(names, bindings, otherwise)
        }
        Stmt::While {
            test: asked,
            body,
            ..
        } => note_expression(names, bindings, asked) & note_block(names, bindings, body),
        Stmt::With { monitor, body, .. } => {
            note_monitor(names, bindings, monitor) & note_block(names, bindings, body)
        }
        Stmt::Wait { condition, .. } | Stmt::Signal { condition, .. } => {
            note_condition(names, bindings, condition)
        }
        Stmt::Yield { .. } | Stmt::Deactivate { .. } => true,
        Stmt::Checkpoint { status, .. } | Stmt::Destroy { status, .. } => {
            note_variable(names, bindings, status)
        }
        Stmt::Create { status, gives, .. } => {
            note_variable(names, bindings, status) & note_variable(names, bindings, gives)
        }
        Stmt::Invoke {
            target,
            args,
            status,
            gives,
            ..
        } => note_invocation(names, bindings, target, args, status, gives),
        Stmt::Return { results, .. } => note_expressions(names, bindings, results),
    }
}

#[cycle(statement)]
pub(crate) fn note_block(names: &BodyNames<'_>, bindings: &mut [Binding], body: &[Stmt]) -> bool
    ensures { Noted result bindings.old bindings.new
        (list_all (each_of_statement (has_binding bindings.old (names_of names.now))) (map tree.statement body.now)) }
{
    let mut stood = true;
    for s in body {
        stood &= note_statement(names, bindings, s);
    }
    stood
}
