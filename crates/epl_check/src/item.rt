//! The rules that the items of a type break.
ghost use Rattle.std.specs.Prelude.{◌≡◌, ◌++◌, map, [], OnOk, Some, None};
ghost use Rattle.std.specs.List.{flat_map};
ghost use Rattle.epl_syntax.specs.Tree as tree;
ghost use Rattle.epl_syntax.specs.Rules.First.{least};
ghost use Rattle.epl_syntax.specs.Rules.InItems as rules;
ghost use Rattle.epl_syntax.specs.Rules.InExpressions as expressions;
ghost use Rattle.epl_syntax.specs.Rules.InStatements as statements;
ghost use Rattle.epl_check.specs.Numbered.{IsIndex};
ghost use Rattle.epl_check.specs.View.{found, kind_found, results_of, seen, types_seen};

use crate::expression::{check_expression, place_of};
use crate::first::{First, tell_if};
use crate::fit::{check_constant, check_kind, fit};
use crate::index::{Listed, Numbers, index};
use crate::names::{check_among, check_as_variables, check_count, check_doubled, is_past};
use crate::scope::{Scope, Surroundings};
use crate::statement::check_block;
use eden_value::{Kind, Txt};
use epl_syntax::{
    Assignment, ClassDecl, LocalDecl, Name, Number, OpDecl, ParDecl, ProcDecl, Rule, Start, Stmt,
    UpgradeDecl, VarDecl, WrittenKind, same_text,
};
use std::alloc::{AllocError, Global};

/// Tells where a number is outside its limits.
pub(crate) fn check_number(low: u64, high: u64, number: &Number, first: &mut First)
    ensures { first.new ≡ least first.old (rules.outside low high number.now) }
{
    tell_if(
        number.n < low || number.n > high,
        Rule::BadLimit,
        number.place,
        first,
    );
}

#[tactic(auto, using(crate::proofs::Least::least_append))]
fn check_start(
    alloc: Global,
    kind: &WrittenKind,
    start: &Start,
    first: &mut First,
) -> Result<(), AllocError>
    ensures { OnOk result (first.new ≡ least first.old
        (rules.broken_start (tree.written kind.now) (tree.beginning start.now))) }
{
    let found = Some(check_constant(alloc, &start.value, first)?);
    fit(&kind.kind, &found, start.place, first);
    Ok(())
}

#[tactic(auto, using(crate::proofs::Least::least_append))]
fn check_var(alloc: Global, v: &VarDecl, first: &mut First) -> Result<(), AllocError>
    ensures { OnOk result (first.new ≡ least first.old (rules.broken_var (tree.variable v.now))) }
{
    check_kind(&v.kind, first);
    check_start(alloc, &v.kind, &v.start, first)
}

pub(crate) fn check_vars(
    alloc: Global,
    vars: &[VarDecl],
    first: &mut First,
) -> Result<(), AllocError>
    ensures { OnOk result (first.new ≡ least first.old (flat_map rules.broken_var (map tree.variable vars.now))) }
{
    for v in vars {
        check_var(alloc, v, first)?;
    }
    Ok(())
}

#[tactic(auto, using(crate::proofs::Least::least_append))]
fn check_local(alloc: Global, v: &LocalDecl, first: &mut First) -> Result<(), AllocError>
    ensures { OnOk result (first.new ≡ least first.old (rules.broken_local (tree.local_of v.now))) }
{
    check_kind(&v.kind, first);
    check_start(alloc, &v.kind, &v.start, first)
}

fn check_locals(alloc: Global, locals: &[LocalDecl], first: &mut First) -> Result<(), AllocError>
    ensures { OnOk result (first.new ≡ least first.old (flat_map rules.broken_local (map tree.local_of locals.now))) }
{
    for v in locals {
        check_local(alloc, v, first)?;
    }
    Ok(())
}

pub(crate) fn check_params(params: &[ParDecl], first: &mut First)
    ensures { first.new ≡ least first.old (flat_map rules.broken_param (map tree.parameter params.now)) }
{
    for p in params {
        check_kind(&p.kind, first);
    }
}

fn check_kinds(kinds: &[WrittenKind], first: &mut First)
    ensures { first.new ≡ least first.old (flat_map expressions.broken_kind (map tree.written kinds.now)) }
{
    for kind in kinds {
        check_kind(kind, first);
    }
}

pub(crate) fn check_classes(classes: &[ClassDecl], first: &mut First)
    ensures { first.new ≡ least first.old (flat_map rules.broken_class classes.now) }
{
    for c in classes {
        check_number(1, 16, &c.limit, first);
    }
}

/// The names of one body: its parameters and its other variables.
fn check_names(
    vars: Listed<'_, VarDecl>,
    params: &[ParDecl],
    locals: &[LocalDecl],
    first: &mut First,
)
    requires { IsIndex vars.numbers.now (map (λ v. v.name) vars.items.now) }
    ensures { first.new ≡ least first.old (rules.broken_names (rules.names_of_vars (map tree.variable vars.entry.items.now))
        (rules.names_of_params (map tree.parameter params.now) ++ rules.names_of_locals (map tree.local_of locals.now))) }
{
    let none: &[Name] = &[];
    check_doubled(params, locals, none, first);
    check_doubled(locals, none, none, first);
    check_as_variables(vars, params, first);
    check_as_variables(vars, locals, first);
}

/// Tells where an operation has more than so many results.
fn check_result_count(results: &[WrittenKind], first: &mut First)
    ensures { first.new ≡ least first.old (rules.too_many 8 (map (λ k. k.place) (map tree.written results.now))) }
{
    if let Some(kind) = results.get(8) {
        tell_if(true, Rule::BadLimit, kind.place, first);
    }
}

/// Tells where a body has more than so many variables.
fn check_local_count(locals: &[LocalDecl], first: &mut First)
    ensures { first.new ≡ least first.old
        (rules.too_many 32 (rules.places_of (rules.names_of_locals (map tree.local_of locals.now)))) }
{
    check_count(32, locals, first);
}

/// What stands before the body of an operation.
#[tactic(auto, using(crate::proofs::Least::least_append))]
fn check_head(classes: &[ClassDecl], o: &OpDecl, first: &mut First)
    ensures { first.new ≡ least first.old (rules.broken_head (map (λ c. c.name) classes.now) (tree.operation o.now)) }
{
    check_number(0, 65_535, &o.needs, first);
    check_among(classes, &o.class, first);
    check_count(8, &o.params, first);
    check_result_count(&o.results, first);
    check_count(32, &o.locals, first);
}

/// The variables of the type.
fn vars_in<'a>(around: &Surroundings<'a>) -> Listed<'a, VarDecl>
    ensures items { result.items.now ≡ around.now.program.now.vars.items }
    ensures numbers { result.numbers.now ≡ around.now.vars.now }
{
    Listed {
        items: &around.program.vars,
        numbers: around.vars,
    }
}

/// A list of nothing.
fn none_of<'a, T>(none: &'a Numbers) -> Listed<'a, T>
    ensures items { result.items.now ≡ [] }
    ensures numbers { result.numbers.now ≡ none.now }
{
    Listed {
        items: &[],
        numbers: none,
    }
}

/// What the names of a body of the type stand for.
#[tactic(auto, unfolding(crate::specs::View::seen))]
fn body_scope<'a>(
    around: &Surroundings<'a>,
    params: Listed<'a, ParDecl>,
    locals: Listed<'a, LocalDecl>,
    results: Option<&'a [WrittenKind]>,
) -> Scope<'a>
    requires params { IsIndex params.numbers.now (map (λ p. p.name) params.items.now) }
    requires locals { IsIndex locals.numbers.now (map (λ v. v.name) locals.items.now) }
    ensures { seen result ≡ rules.scope_in (tree.type_tree around.now.program.now)
        (types_seen around.now.program.now.name around.now.earlier.now)
        (map tree.parameter params.entry.items.now) (map tree.local_of locals.entry.items.now) (results_of results.entry) }
{
    let program = around.program;
    Scope {
        alloc: around.alloc,
        params,
        locals,
        vars: vars_in(around),
        monitors: Listed {
            items: &program.monitors,
            numbers: around.monitors,
        },
        conditions: Listed {
            items: &program.conditions,
            numbers: around.conditions,
        },
        own: &program.name,
        earlier: around.earlier,
        results,
    }
}

/// The declarations of a body.
#[tactic(auto, using(crate::proofs::Least::least_append))]
fn check_declared(alloc: Global, o: &OpDecl, first: &mut First) -> Result<(), AllocError>
    ensures { OnOk result (first.new ≡ least first.old (rules.broken_declared (tree.operation o.now))) }
{
    check_params(&o.params, first);
    check_kinds(&o.results, first);
    check_locals(alloc, &o.locals, first)
}

/// The statements of an operation or a process.
fn check_body<'a>(
    around: &Surroundings<'a>,
    params: &'a [ParDecl],
    locals: &'a [LocalDecl],
    results: Option<&'a [WrittenKind]>,
    body: &'a [Stmt],
    first: &mut First,
) -> Result<(), AllocError>
    ensures { OnOk result (first.new ≡ least first.old (statements.broken_block
        (rules.scope_in (tree.type_tree around.now.program.now)
        (types_seen around.now.program.now.name around.now.earlier.now)
        (map tree.parameter params.now) (map tree.local_of locals.now) (results_of results.entry)) None (tree.statements body.now))) }
{
    let param_numbers = index(around.alloc, params)?;
    let local_numbers = index(around.alloc, locals)?;
    let params = Listed {
        items: params,
        numbers: &param_numbers,
    };
    let locals = Listed {
        items: locals,
        numbers: &local_numbers,
    };
    let scope = body_scope(around, params, locals, results);
    check_block(&scope, None, body, first)
}

#[tactic(auto, using(crate::proofs::Least::least_append))]
fn check_operation<'a>(
    around: &Surroundings<'a>,
    o: &'a OpDecl,
    first: &mut First,
) -> Result<(), AllocError>
    ensures { OnOk result (first.new ≡ least first.old
        (rules.broken_operation (tree.type_tree around.now.program.now)
        (types_seen around.now.program.now.name around.now.earlier.now) (tree.operation o.now))) }
{
    check_head(&around.program.classes, o, first);
    check_names(vars_in(around), &o.params, &o.locals, first);
    check_declared(around.alloc, o, first)?;
    check_body(
        around,
        &o.params,
        &o.locals,
        Some(&o.results),
        &o.body,
        first,
    )
}

#[tactic(auto, using(crate::proofs::Least::least_append))]
fn check_process<'a>(
    around: &Surroundings<'a>,
    p: &'a ProcDecl,
    first: &mut First,
) -> Result<(), AllocError>
    ensures { OnOk result (first.new ≡ least first.old
        (rules.broken_process (tree.type_tree around.now.program.now)
        (types_seen around.now.program.now.name around.now.earlier.now) (tree.process p.now))) }
{
    check_local_count(&p.locals, first);
    check_names(vars_in(around), &[], &p.locals, first);
    check_locals(around.alloc, &p.locals, first)?;
    check_body(around, &[], &p.locals, None, &p.body, first)
}

/// The operations of the type.
pub(crate) fn check_operations(
    around: &Surroundings<'_>,
    first: &mut First,
) -> Result<(), AllocError>
    ensures { OnOk result (first.new ≡ least first.old
        (flat_map (rules.broken_operation (tree.type_tree around.now.program.now)
        (types_seen around.now.program.now.name around.now.earlier.now))
        (map tree.operation around.now.program.now.operations.items))) }
{
    for o in &around.program.operations {
        check_operation(around, o, first)?;
    }
    Ok(())
}

/// The processes of the type.
pub(crate) fn check_processes(
    around: &Surroundings<'_>,
    first: &mut First,
) -> Result<(), AllocError>
    ensures { OnOk result (first.new ≡ least first.old
        (flat_map (rules.broken_process (tree.type_tree around.now.program.now)
        (types_seen around.now.program.now.name around.now.earlier.now))
        (map tree.process around.now.program.now.processes.items))) }
{
    for p in &around.program.processes {
        check_process(around, p, first)?;
    }
    Ok(())
}

/// The kind of the durable variable of a name.
fn durable_named<'a>(vars: &'a [VarDecl], text: &Txt) -> Option<&'a WrittenKind>
    ensures { kind_found result ≡ rules.durable_named (map tree.variable vars.now) text.now }
{
    for v in vars {
        if v.durable && same_text(&v.name.text, text) {
            return Some(&v.kind);
        }
    }
    None
}

/// Tells where a kind stands for one that is written, if one is.
fn fit_written(wanted: Option<&WrittenKind>, kind: &Option<Kind>, place: u32, first: &mut First)
    ensures { first.new ≡ least first.old (expressions.misfit_known (kind_found wanted.entry) (found kind.now) place) }
{
    if let Some(wanted) = wanted {
        fit(&wanted.kind, kind, place, first);
    }
}

/// An assignment of an upgrade: a durable variable gets a value of its kind.
#[tactic(auto, using(crate::proofs::Least::least_append))]
fn check_change(
    scope: &Scope<'_>,
    vars: &[VarDecl],
    change: &Assignment,
    first: &mut First,
) -> Result<(), AllocError>
    ensures { OnOk result (first.new ≡ least first.old
        (rules.broken_change (seen scope.now) (map tree.variable vars.now) (tree.change change.now))) }
{
    let place = place_of(&change.value);
    if is_past(first, change.name.place) && is_past(first, place) {
        // What the name stands for changes nothing any more.
        check_expression(scope, None, &change.value, first)?;
        return Ok(());
    }
    let wanted = durable_named(vars, &change.name.text);
    tell_if(
        wanted.is_none(),
        Rule::UnknownName,
        change.name.place,
        first,
    );
    let kind = check_expression(scope, None, &change.value, first)?;
    fit_written(wanted, &kind, place, first);
    Ok(())
}

fn check_changes(
    scope: &Scope<'_>,
    vars: &[VarDecl],
    changes: &[Assignment],
    first: &mut First,
) -> Result<(), AllocError>
    ensures { OnOk result (first.new ≡ least first.old
        (flat_map (rules.broken_change (seen scope.now) (map tree.variable vars.now)) (map tree.change changes.now))) }
{
    for change in changes {
        check_change(scope, vars, change, first)?;
    }
    Ok(())
}

/// Tells where an upgrade has more than so many assignments.
fn check_change_count(changes: &[Assignment], first: &mut First)
    ensures { first.new ≡ least first.old
        (rules.too_many 64 (rules.places_of (rules.names_of_changes (map tree.change changes.now)))) }
{
    check_count(64, changes, first);
}

/// The names of an upgrade.
fn check_param_names(vars: Listed<'_, VarDecl>, params: &[ParDecl], first: &mut First)
    requires { IsIndex vars.numbers.now (map (λ v. v.name) vars.items.now) }
    ensures { first.new ≡ least first.old (rules.broken_names (rules.names_of_vars (map tree.variable vars.entry.items.now))
        (rules.names_of_params (map tree.parameter params.now))) }
{
    check_names(vars, params, &[], first);
}

/// Tells where an upgrade has more than so many parameters.
fn check_param_count(params: &[ParDecl], first: &mut First)
    ensures { first.new ≡ least first.old
        (rules.too_many 64 (rules.places_of (rules.names_of_params (map tree.parameter params.now)))) }
{
    check_count(64, params, first);
}

/// The number of a version, which is 1 where none is written.
fn version_number(version: &Option<Number>) -> u64
    ensures { result ≡ rules.version_number version.now }
{
    match version {
        None => 1,
        Some(number) => number.n,
    }
}

pub(crate) fn check_version(version: &Option<Number>, first: &mut First)
    ensures { first.new ≡ least first.old (rules.broken_version version.now) }
{
    if let Some(number) = version {
        check_number(1, 65_535, number, first);
    }
}

/// What the names of an upgrade stand for.
#[tactic(auto, unfolding(crate::specs::View::seen))]
fn upgrade_scope<'a>(around: &Surroundings<'a>, params: Listed<'a, ParDecl>) -> Scope<'a>
    requires { IsIndex params.numbers.now (map (λ p. p.name) params.items.now) }
    ensures { seen result ≡ rules.scope_of_upgrade (types_seen around.now.program.now.name around.now.earlier.now)
        (map tree.parameter params.entry.items.now) }
{
    let none = around.none;
    Scope {
        alloc: around.alloc,
        params,
        locals: none_of(none),
        vars: none_of(none),
        monitors: none_of(none),
        conditions: none_of(none),
        own: &around.program.name,
        earlier: around.earlier,
        results: None,
    }
}

/// What an upgrade gives to the variables.
fn check_upgrade_body<'a>(
    around: &Surroundings<'a>,
    u: &'a UpgradeDecl,
    first: &mut First,
) -> Result<(), AllocError>
    ensures { OnOk result (first.new ≡ least first.old
        (flat_map (rules.broken_change (rules.scope_of_upgrade (types_seen around.now.program.now.name around.now.earlier.now)
        (map tree.parameter u.now.params.items)) (map tree.variable around.now.program.now.vars.items))
        (map tree.change u.now.assignments.items))) }
{
    let param_numbers = index(around.alloc, u.params.as_slice())?;
    let params = Listed {
        items: u.params.as_slice(),
        numbers: &param_numbers,
    };
    let scope = upgrade_scope(around, params);
    check_changes(&scope, &around.program.vars, &u.assignments, first)
}

#[tactic(auto, using(crate::proofs::Least::least_append))]
fn check_upgrade<'a>(
    around: &Surroundings<'a>,
    u: &'a UpgradeDecl,
    first: &mut First,
) -> Result<(), AllocError>
    ensures { OnOk result (first.new ≡ least first.old
        (rules.broken_upgrade (tree.type_tree around.now.program.now)
        (types_seen around.now.program.now.name around.now.earlier.now) (tree.upgrade u.now))) }
{
    let version = version_number(&around.program.version);
    check_number(1, version.saturating_sub(1), &u.from, first);
    check_param_count(&u.params, first);
    check_change_count(&u.assignments, first);
    check_param_names(vars_in(around), &u.params, first);
    check_params(&u.params, first);
    check_upgrade_body(around, u, first)
}

/// The upgrades of the type.
pub(crate) fn check_upgrades(around: &Surroundings<'_>, first: &mut First) -> Result<(), AllocError>
    ensures { OnOk result (first.new ≡ least first.old
        (flat_map (rules.broken_upgrade (tree.type_tree around.now.program.now)
        (types_seen around.now.program.now.name around.now.earlier.now))
        (map tree.upgrade around.now.program.now.upgrades.items))) }
{
    for u in &around.program.upgrades {
        check_upgrade(around, u, first)?;
    }
    Ok(())
}
