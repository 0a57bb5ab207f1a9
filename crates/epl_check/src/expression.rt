//! The rules that an expression breaks, and its kind.
ghost use Rattle.std.specs.Prelude.{◌≡◌, ◌==◌, ◌++◌, length, not, IfOk, OnOk, None, Some};
ghost use Rattle.epl_syntax.specs.Tree as tree;
ghost use Rattle.epl_syntax.specs.declared.rule.Rule.TheVariants.{KindDiffers};
ghost use Rattle.epl_syntax.specs.Rules.First.{least, broken_if};
ghost use Rattle.epl_syntax.specs.Rules.KindsOf as kinds;
ghost use Rattle.epl_syntax.specs.Rules.InExpressions as rules;
ghost use Rattle.epl_syntax.specs.Rules.InStatements as statements;
ghost use Rattle.eden_value.specs.Shape.{ints, shape};
ghost use Rattle.epl_check.specs.View.{found, first_of, seen, seen_of};

use crate::difference::Difference;
use crate::first::{First, tell_difference, tell_if};
use crate::fit::{
    Operand, arity, check_constant, fit, fit_argument, fit_known, fit_list, kind_of_application,
    kind_of_prefix, operated,
};
use crate::kinds::{copy_of, if_listed, item_of};
use crate::scope::{Scope, Variable};
use eden_value::Kind;
use epl_syntax::{Builtin, Expr, Name, Prefix, Rule};
use std::alloc::{AllocError, Global};

/// The place of an expression's first token.
pub(crate) fn place_of(e: &Expr) -> u32
    ensures { result ≡ rules.place_of (tree.expression e.now) }
{
    match e {
        Expr::Name { name } => name.place,
        Expr::Const { place, .. }
        | Expr::Me { place }
        | Expr::Unary { place, .. }
        | Expr::Binary { place, .. }
        | Expr::Index { place, .. }
        | Expr::ListOf { place, .. }
        | Expr::Apply { place, .. } => *place,
    }
}

fn is_guarded(held: Option<usize>, monitor: u32) -> bool
    ensures { result ≡ rules.is_guarded held monitor }
{
    monitor == 0 || stands_in(held, monitor)
}

/// Whether something stands in a `with` of a monitor.
pub(crate) fn stands_in(held: Option<usize>, monitor: u32) -> bool
    ensures { result ≡ rules.stands_in held monitor }
{
    match held {
        None => false,
        Some(held) => held == monitor as usize,
    }
}

/// The kind of a variable, if there is one.
fn kind_of_variable(
    alloc: Global,
    variable: Option<Variable<'_>>,
) -> Result<Option<Kind>, AllocError>
    ensures { IfOk result (λ k. found k ≡ kinds.seen_kind (seen_of variable.entry)) }
{
    match variable {
        None => Ok(None),
        Some(variable) => {
            let kind = copy_of(alloc, variable.kind)?;
            Ok(Some(kind))
        }
    }
}

fn check_use_of(held: Option<usize>, variable: Option<Variable<'_>>, place: u32, first: &mut First)
    ensures { first.new ≡ least first.old (rules.broken_use_of held (seen_of variable.entry) place) }
{
    match variable {
        None => tell_if(true, Rule::UnknownName, place, first),
        Some(variable) => tell_if(
            !is_guarded(held, variable.monitor),
            Rule::Unguarded,
            place,
            first,
        ),
    }
}

/// The use of a variable, and its kind.
pub(crate) fn check_use(
    scope: &Scope<'_>,
    held: Option<usize>,
    name: &Name,
    first: &mut First,
) -> Result<Option<Kind>, AllocError>
    ensures kind { IfOk result (λ k. found k ≡ kinds.kind_named (seen scope.now) name.now.text) }
    ensures told { first.new ≡ least first.old (rules.broken_use (seen scope.now) held name.now) }
{
    let variable = scope.variable_named(&name.text);
    check_use_of(held, variable, name.place, first);
    kind_of_variable(scope.alloc, variable)
}

/// The first of several, where so many came before this one.
fn first_of(i: usize, first: Option<Kind>, this: Option<Kind>) -> Option<Kind>
    ensures { found result ≡ first_of i (found first) (found this) }
{
    if i == 0 { this } else { first }
}

/// The same, where both are lent.
fn first_at<'a>(i: usize, first: &'a Option<Kind>, this: &'a Option<Kind>) -> &'a Option<Kind>
    ensures { found result.now ≡ first_of i (found first.now) (found this.now) }
{
    if i == 0 { this } else { first }
}

/// Tells the rules that an expression breaks, and its kind. `held` is the number of the monitor in
/// whose `with` it stands.
#[cycle(expression)]
#[tactic(auto, using(crate::proofs::Least::least_append))]
pub(crate) fn check_expression(
    scope: &Scope<'_>,
    held: Option<usize>,
    e: &Expr,
    first: &mut First,
) -> Result<Option<Kind>, AllocError>
    ensures kind { IfOk result (λ k. found k ≡ kinds.kind_of (seen scope.now) (tree.expression e.now)) }
    ensures told { OnOk result (first.new ≡ least first.old
        (rules.broken_expression (seen scope.now) held (tree.expression e.now))) }
{
    match e {
        Expr::Const { value, .. } => {
            let kind = check_constant(scope.alloc, value, first)?;
            Ok(Some(kind))
        }
        Expr::Name { name } => check_use(scope, held, name, first),
        Expr::Me { .. } => Ok(Some(Kind::Cap)),
        Expr::Unary { prefix, of, .. } => check_prefixed(scope, held, *prefix, of, first),
        Expr::Binary {
            operator,
            left,
            right,
            ..
        } => {
            let left_kind = check_expression(scope, held, left, first)?;
            let right_kind = check_expression(scope, held, right, first)?;
            let right = Operand {
                kind: &right_kind,
                place: place_of(right),
            };
            Ok(operated(*operator, left_kind, place_of(left), right, first))
        }
        Expr::Index { of, at, .. } => {
            let kind = check_list(scope, held, of, first)?;
            check_number(scope, held, at, first)?;
            Ok(item_of(kind))
        }
        Expr::ListOf { items, .. } => {
            let item = check_items(scope, held, items, first)?;
            if_listed(scope.alloc, item)
        }
        Expr::Apply {
            builtin,
            args,
            place,
        } => check_application(scope, held, *builtin, args, *place, first),
    }
}

/// An operand behind a prefix, and the kind of the whole.
#[cycle(expression)]
#[tactic(auto, using(crate::proofs::Least::least_append))]
fn check_prefixed(
    scope: &Scope<'_>,
    held: Option<usize>,
    prefix: Prefix,
    of: &Expr,
    first: &mut First,
) -> Result<Option<Kind>, AllocError>
    ensures kind { IfOk result (λ k. found k ≡ Some (kinds.kind_of_prefix prefix)) }
    ensures told { OnOk result (first.new ≡ least first.old
        (statements.broken_as (kinds.kind_of_prefix prefix) (seen scope.now) held (tree.expression of.now))) }
{
    let wanted = kind_of_prefix(prefix);
    let kind = check_expression(scope, held, of, first)?;
    fit(&wanted, &kind, place_of(of), first);
    Ok(Some(wanted))
}

/// An expression that has to be a list, and its kind.
#[cycle(expression)]
#[tactic(auto, using(crate::proofs::Least::least_append))]
fn check_list(
    scope: &Scope<'_>,
    held: Option<usize>,
    e: &Expr,
    first: &mut First,
) -> Result<Option<Kind>, AllocError>
    ensures kind { IfOk result (λ k. found k ≡ kinds.kind_of (seen scope.now) (tree.expression e.now)) }
    ensures told { OnOk result (first.new ≡ least first.old
        (rules.broken_expression (seen scope.now) held (tree.expression e.now)
        ++ rules.failing kinds.is_list (kinds.kind_of (seen scope.now) (tree.expression e.now))
        (rules.place_of (tree.expression e.now)))) }
{
    let kind = check_expression(scope, held, e, first)?;
    fit_list(&kind, place_of(e), first);
    Ok(kind)
}

/// An expression that has to be a number, as the place in a list is.
#[cycle(expression)]
#[tactic(auto, using(crate::proofs::Least::least_append))]
fn check_number(
    scope: &Scope<'_>,
    held: Option<usize>,
    e: &Expr,
    first: &mut First,
) -> Result<(), AllocError>
    ensures { OnOk result (first.new ≡ least first.old
        (statements.broken_as ints (seen scope.now) held (tree.expression e.now))) }
{
    let kind = check_expression(scope, held, e, first)?;
    fit(&Kind::Int, &kind, place_of(e), first);
    Ok(())
}

/// What a built-in function gives of its arguments, of which there are as many as it takes.
#[cycle(expression)]
#[tactic(auto, using(crate::proofs::Least::least_append))]
fn check_application(
    scope: &Scope<'_>,
    held: Option<usize>,
    builtin: Builtin,
    args: &[Expr],
    place: u32,
    first: &mut First,
) -> Result<Option<Kind>, AllocError>
    ensures kind { IfOk result (λ k. found k ≡ kinds.kind_of_application builtin
        (kinds.kind_of_first (seen scope.now) (tree.expressions args.now))) }
    ensures told { OnOk result (first.new ≡ least first.old
        (broken_if (not (length args.now == length (kinds.argument_tests builtin None))) KindDiffers place
        ++ rules.broken_arguments (seen scope.now) held
        (kinds.argument_tests builtin (kinds.kind_of_first (seen scope.now) (tree.expressions args.now))) (tree.expressions args.now))) }
{
    let difference = Difference::Count {
        wanted: arity(builtin),
        found: args.len(),
    };
    tell_difference(args.len() != arity(builtin), difference, place, first);
    let of_first = check_arguments(scope, held, builtin, args, first)?;
    Ok(kind_of_application(builtin, of_first))
}

/// The items of a list, which are of the kind of the first one; that kind.
#[cycle(expression)]
#[tactic(auto, using(crate::proofs::Least::least_append))]
fn check_items(
    scope: &Scope<'_>,
    held: Option<usize>,
    items: &[Expr],
    first: &mut First,
) -> Result<Option<Kind>, AllocError>
    ensures kind { IfOk result (λ k. found k ≡ kinds.kind_of_first (seen scope.now) (tree.expressions items.now)) }
    ensures told { OnOk result (first.new ≡ least first.old
        (rules.broken_items (seen scope.now) held
        (kinds.kind_of_first (seen scope.now) (tree.expressions items.now)) (tree.expressions items.now))) }
{
    let mut of_first = None;
    for i in 0..items.len() {
        let e = &items[i];
        let kind = check_expression(scope, held, e, first)?;
        let known = first_at(i, &of_first, &kind);
        fit_known(known, &kind, place_of(e), first);
        of_first = first_of(i, of_first, kind);
    }
    Ok(of_first)
}

/// The arguments of a built-in function, each as its place wants it; the kind of the first.
#[cycle(expression)]
#[tactic(auto, using(crate::proofs::Least::least_append))]
fn check_arguments(
    scope: &Scope<'_>,
    held: Option<usize>,
    builtin: Builtin,
    args: &[Expr],
    first: &mut First,
) -> Result<Option<Kind>, AllocError>
    ensures kind { IfOk result (λ k. found k ≡ kinds.kind_of_first (seen scope.now) (tree.expressions args.now)) }
    ensures told { OnOk result (first.new ≡ least first.old
        (rules.broken_arguments (seen scope.now) held
        (kinds.argument_tests builtin (kinds.kind_of_first (seen scope.now) (tree.expressions args.now))) (tree.expressions args.now))) }
{
    let mut of_first = None;
    for i in 0..args.len() {
        let e = &args[i];
        let kind = check_expression(scope, held, e, first)?;
        let known = first_at(i, &of_first, &kind);
        fit_argument(builtin, i, known, &kind, place_of(e), first);
        of_first = first_of(i, of_first, kind);
    }
    Ok(of_first)
}
