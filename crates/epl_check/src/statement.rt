//! The rules that a statement breaks.
ghost use Rattle.std.specs.Prelude.{◌≡◌, ◌++◌, length, map, OnOk};
ghost use Rattle.std.specs.List.{flat_map};
ghost use Rattle.epl_syntax.specs.Tree as tree;
ghost use Rattle.epl_syntax.specs.Rules.First.{least};
ghost use Rattle.epl_syntax.specs.Rules.InExpressions as expressions;
ghost use Rattle.epl_syntax.specs.Rules.InStatements as rules;
ghost use Rattle.eden_value.specs.Shape.{shape, truths};
ghost use Rattle.epl_check.specs.View.{results_of, seen, broken_value, kind_wanted};

use crate::difference::Difference;
use crate::expression::{check_expression, check_use, place_of, stands_in};
use crate::first::{First, tell_difference, tell_if};
use crate::fit::{fit, fit_known};
use crate::scope::Scope;
use eden_value::Kind;
use epl_syntax::{Expr, Name, Rule, Stmt, Target, WrittenKind};
use std::alloc::AllocError;

/// An expression that stands for a kind.
#[tactic(auto, using(crate::proofs::Least::least_append))]
fn check_as(
    wanted: &Kind,
    scope: &Scope<'_>,
    held: Option<usize>,
    e: &Expr,
    first: &mut First,
) -> Result<(), AllocError>
    ensures { OnOk result (first.new ≡ least first.old
        (rules.broken_as (shape wanted.now) (seen scope.now) held (tree.expression e.now))) }
{
    let kind = check_expression(scope, held, e, first)?;
    fit(wanted, &kind, place_of(e), first);
    Ok(())
}

/// A variable that has to be of a kind.
#[tactic(auto, using(crate::proofs::Least::least_append))]
fn check_variable(
    wanted: &Kind,
    scope: &Scope<'_>,
    held: Option<usize>,
    name: &Name,
    first: &mut First,
) -> Result<(), AllocError>
    ensures { OnOk result (first.new ≡ least first.old
        (rules.broken_variable (shape wanted.now) (seen scope.now) held name.now)) }
{
    let kind = check_use(scope, held, name, first)?;
    fit(wanted, &kind, name.place, first);
    Ok(())
}

#[tactic(auto, using(crate::proofs::Least::least_append))]
fn check_assignment(
    scope: &Scope<'_>,
    held: Option<usize>,
    name: &Name,
    value: &Expr,
    first: &mut First,
) -> Result<(), AllocError>
    ensures { OnOk result (first.new ≡ least first.old
        (rules.broken_assignment (seen scope.now) held name.now (tree.expression value.now))) }
{
    let wanted = check_use(scope, held, name, first)?;
    let kind = check_expression(scope, held, value, first)?;
    fit_known(&wanted, &kind, place_of(value), first);
    Ok(())
}

fn check_target(
    scope: &Scope<'_>,
    held: Option<usize>,
    target: &Target,
    first: &mut First,
) -> Result<(), AllocError>
    ensures { OnOk result (first.new ≡ least first.old (rules.broken_target (seen scope.now) held target.now)) }
{
    match target {
        Target::Name { name } => check_variable(&Kind::Cap, scope, held, name, first),
        Target::Me { .. } => Ok(()),
    }
}

fn check_expressions(
    scope: &Scope<'_>,
    held: Option<usize>,
    es: &[Expr],
    first: &mut First,
) -> Result<(), AllocError>
    ensures { OnOk result (first.new ≡ least first.old
        (flat_map (λ e. expressions.broken_expression (seen scope.now) held (tree.expression e)) es.now)) }
{
    for e in es {
        check_expression(scope, held, e, first)?;
    }
    Ok(())
}

fn check_uses(
    scope: &Scope<'_>,
    held: Option<usize>,
    names: &[Name],
    first: &mut First,
) -> Result<(), AllocError>
    ensures { OnOk result (first.new ≡ least first.old (rules.broken_uses (seen scope.now) held names.now)) }
{
    for name in names {
        check_use(scope, held, name, first)?;
    }
    Ok(())
}

fn check_type(scope: &Scope<'_>, name: &Name, first: &mut First)
    ensures { first.new ≡ least first.old (rules.broken_type (seen scope.now) name.now) }
{
    tell_if(
        !scope.is_type(&name.text),
        Rule::UnknownName,
        name.place,
        first,
    );
}

fn check_condition(
    scope: &Scope<'_>,
    held: Option<usize>,
    condition: &Name,
    place: u32,
    first: &mut First,
)
    ensures { first.new ≡ least first.old (rules.broken_condition (seen scope.now) held condition.now place) }
{
    match scope.condition_named(&condition.text) {
        None => tell_if(true, Rule::UnknownName, condition.place, first),
        Some(monitor) => tell_if(!stands_in(held, monitor), Rule::Unguarded, place, first),
    }
}

/// The head of a `with`.
#[tactic(auto, using(crate::proofs::Least::least_append))]
fn check_with(scope: &Scope<'_>, held: Option<usize>, monitor: &Name, place: u32, first: &mut First)
    ensures { first.new ≡ least first.old (rules.broken_with (seen scope.now) held monitor.now place) }
{
    tell_if(held.is_some(), Rule::Nested, place, first);
    if scope.monitor_named(&monitor.text).is_none() {
        tell_if(true, Rule::UnknownName, monitor.place, first);
    }
}

/// What the body of a `with` holds.
fn held_in(scope: &Scope<'_>, monitor: &Name) -> Option<usize>
    ensures { result ≡ rules.held_in (seen scope.now) monitor.now }
{
    match scope.monitor_named(&monitor.text) {
        None => Some(0),
        Some(number) => Some(number),
    }
}

/// One value of a `return`, of the kind that is wanted at its place, if one is.
#[tactic(auto, using(crate::proofs::Least::least_append))]
fn check_value(
    scope: &Scope<'_>,
    held: Option<usize>,
    wanted: Option<&WrittenKind>,
    e: &Expr,
    first: &mut First,
) -> Result<(), AllocError>
    ensures { OnOk result (first.new ≡ least first.old
        (broken_value (seen scope.now) held (kind_wanted wanted.entry) (tree.expression e.now))) }
{
    match wanted {
        None => {
            check_expression(scope, held, e, first)?;
            Ok(())
        }
        Some(kind) => check_as(&kind.kind, scope, held, e, first),
    }
}

fn check_values(
    scope: &Scope<'_>,
    held: Option<usize>,
    wanted: &[WrittenKind],
    values: &[Expr],
    first: &mut First,
) -> Result<(), AllocError>
    ensures { OnOk result (first.new ≡ least first.old
        (rules.broken_values (seen scope.now) held (map tree.written wanted.now) (map tree.expression values.now))) }
{
    for i in 0..values.len() {
        check_value(scope, held, wanted.get(i), &values[i], first)?;
    }
    Ok(())
}

#[tactic(auto, using(crate::proofs::Least::least_append))]
fn check_return(
    scope: &Scope<'_>,
    held: Option<usize>,
    values: &[Expr],
    place: u32,
    first: &mut First,
) -> Result<(), AllocError>
    ensures { OnOk result (first.new ≡ least first.old
        (rules.broken_return (seen scope.now) held (map tree.expression values.now) place)) }
{
    match scope.results() {
        None => {
            tell_difference(true, Difference::Return, place, first);
            check_values(scope, held, &[], values, first)
        }
        Some(wanted) => {
            let difference = Difference::Count {
                wanted: wanted.len(),
                found: values.len(),
            };
            tell_difference(values.len() != wanted.len(), difference, place, first);
            check_values(scope, held, wanted, values, first)
        }
    }
}

#[tactic(auto, using(crate::proofs::Least::least_append))]
fn check_create(
    scope: &Scope<'_>,
    held: Option<usize>,
    type_name: &Name,
    status: &Name,
    gives: &Name,
    first: &mut First,
) -> Result<(), AllocError>
    ensures { OnOk result (first.new ≡ least first.old
        (rules.broken_create (seen scope.now) held type_name.now status.now gives.now)) }
{
    check_type(scope, type_name, first);
    check_variable(&Kind::Int, scope, held, status, first)?;
    check_variable(&Kind::Cap, scope, held, gives, first)
}

#[tactic(auto, using(crate::proofs::Least::least_append))]
fn check_invoke(
    scope: &Scope<'_>,
    held: Option<usize>,
    target: &Target,
    args: &[Expr],
    status: &Name,
    gives: &[Name],
    first: &mut First,
) -> Result<(), AllocError>
    ensures { OnOk result (first.new ≡ least first.old
        (rules.broken_invoke (seen scope.now) held target.now (map tree.expression args.now) status.now gives.now)) }
{
    check_target(scope, held, target, first)?;
    check_expressions(scope, held, args, first)?;
    check_variable(&Kind::Int, scope, held, status, first)?;
    check_uses(scope, held, gives, first)
}

/// Tells the rules that a statement breaks. `held` is the number of the monitor in whose `with` it
/// stands, 0 for one that is not known.
#[cycle(statement)]
#[tactic(auto, using(crate::proofs::Least::least_append))]
fn check_statement(
    scope: &Scope<'_>,
    held: Option<usize>,
    s: &Stmt,
    first: &mut First,
) -> Result<(), AllocError>
    ensures { OnOk result (first.new ≡ least first.old (rules.broken_statement (seen scope.now) held (tree.statement s.now))) }
{
    match s {
        Stmt::Assign { name, value } => check_assignment(scope, held, name, value, first),
        Stmt::If {
            test,
            so,
            otherwise,
            ..
        } => {
            check_tested(scope, held, so, test, first)?;
            check_block(scope, held, otherwise, first)
        }
        Stmt::While {
            test: going,
            body,
            ..
        } => check_tested(scope, held, body, going, first),
        Stmt::With {
            monitor,
            body,
            place,
        } => {
            check_with(scope, held, monitor, *place, first);
            check_block(scope, held_in(scope, monitor), body, first)
        }
        Stmt::Wait { condition, place } | Stmt::Signal { condition, place } => {
            check_condition(scope, held, condition, *place, first);
            Ok(())
        }
        Stmt::Yield { .. } | Stmt::Deactivate { .. } => Ok(()),
        Stmt::Checkpoint { status, .. } | Stmt::Destroy { status, .. } => {
            check_variable(&Kind::Int, scope, held, status, first)
        }
        Stmt::Create {
            type_name,
            status,
            gives,
            ..
        } => check_create(scope, held, type_name, status, gives, first),
        Stmt::Invoke {
            target,
            args,
            status,
            gives,
            ..
        } => check_invoke(scope, held, target, args, status, gives, first),
        Stmt::Return { results, place } => check_return(scope, held, results, *place, first),
    }
}

/// A block, and the test that stands before it.
#[cycle(statement)]
#[tactic(auto, using(crate::proofs::Least::least_append))]
fn check_tested(
    scope: &Scope<'_>,
    held: Option<usize>,
    body: &[Stmt],
    asked: &Expr,
    first: &mut First,
) -> Result<(), AllocError>
    ensures { OnOk result (first.new ≡ least first.old (rules.broken_as truths (seen scope.now) held (tree.expression asked.now)
        ++ rules.broken_block (seen scope.now) held (tree.statements body.now))) }
{
    check_as(&Kind::Bool, scope, held, asked, first)?;
    check_block(scope, held, body, first)
}

#[cycle(statement)]
#[tactic(auto, using(crate::proofs::Least::least_append))]
pub(crate) fn check_block(
    scope: &Scope<'_>,
    held: Option<usize>,
    statements: &[Stmt],
    first: &mut First,
) -> Result<(), AllocError>
    ensures { OnOk result (first.new ≡ least first.old (rules.broken_block (seen scope.now) held (tree.statements statements.now))) }
{
    for s in statements {
        check_statement(scope, held, s, first)?;
    }
    Ok(())
}
