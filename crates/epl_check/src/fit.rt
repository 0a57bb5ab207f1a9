//! Whether kinds fit, and what operators and built-in functions give.
ghost use Rattle.std.specs.Prelude.{◌≡◌, IfOk, None, length};
ghost use Rattle.eden_value.specs.Shape.{shape};
ghost use Rattle.epl_syntax.specs.Tree.{written, constant};
ghost use Rattle.epl_syntax.specs.Rules.First.{least};
ghost use Rattle.epl_syntax.specs.Rules.KindsOf as kinds;
ghost use Rattle.epl_syntax.specs.Rules.InExpressions as rules;
ghost use Rattle.epl_check.specs.View.{found, passes_at, at_place};

use crate::difference::{Difference, shape_of};
use crate::first::{First, tell_difference, tell_if};
use crate::kinds::{copy_of, has_size, if_list, if_sized, is_list, is_within, list_of, same};
use eden_value::Kind;
use epl_syntax::{Builtin, Const, Operator, Prefix, Rule, WrittenKind};
use std::alloc::{AllocError, Global};

/// A kind that is written is at most so many lists deep.
const DEPTH_LIMIT: u8 = 4;

/// Tells where one kind stands for another.
pub(crate) fn fit(wanted: &Kind, kind: &Option<Kind>, place: u32, first: &mut First)
    ensures { first.new ≡ least first.old (rules.misfit (shape wanted.now) (found kind.now) place) }
{
    if let Some(kind) = kind {
        let difference = Difference::Kind {
            wanted: shape_of(wanted),
            found: shape_of(kind),
        };
        tell_difference(!same(wanted, kind), difference, place, first);
    }
}

/// The same, where the wanted kind may be unknown.
pub(crate) fn fit_known(wanted: &Option<Kind>, kind: &Option<Kind>, place: u32, first: &mut First)
    ensures { first.new ≡ least first.old (rules.misfit_known (found wanted.now) (found kind.now) place) }
{
    if let Some(wanted) = wanted {
        fit(wanted, kind, place, first);
    }
}

/// Tells where a kind is not one of lists.
pub(crate) fn fit_list(kind: &Option<Kind>, place: u32, first: &mut First)
    ensures { first.new ≡ least first.old (rules.failing kinds.is_list (found kind.now) place) }
{
    if let Some(kind) = kind {
        let found = shape_of(kind);
        tell_difference(!is_list(kind), Difference::List { found }, place, first);
    }
}

/// Tells where a kind is neither text nor one of lists.
fn fit_sized(kind: &Option<Kind>, place: u32, first: &mut First)
    ensures { first.new ≡ least first.old (rules.failing kinds.has_size (found kind.now) place) }
{
    if let Some(kind) = kind {
        let found = shape_of(kind);
        tell_difference(!has_size(kind), Difference::Sized { found }, place, first);
    }
}

/// Tells where the right operand of `&` does not fit the left one.
fn fit_joined(left: &Option<Kind>, right: &Option<Kind>, place: u32, first: &mut First)
    ensures { first.new ≡ least first.old (rules.misjoined (kinds.sized_kind (found left.now)) (found right.now) place) }
{
    match left {
        Some(left) if has_size(left) => fit(left, right, place, first),
        _ => fit_sized(right, place, first),
    }
}

/// An operand's kind and its place.
#[derive(Clone, Copy)]
pub(crate) struct Operand<'a> {
    /// Its kind, or None where that is not known.
    pub kind: &'a Option<Kind>,
    /// Where its first token stands.
    pub place: u32,
}

#[tactic(auto, using(crate::proofs::Least::least_append))]
fn fit_both(wanted: &Kind, left: Operand<'_>, right: Operand<'_>, first: &mut First)
    ensures { first.new ≡ least first.old
        (rules.two_of (shape wanted.now) (found left.entry.kind.now) left.entry.place (found right.entry.kind.now) right.entry.place) }
{
    fit(wanted, left.kind, left.place, first);
    fit(wanted, right.kind, right.place, first);
}

/// Tells which operands of an operator do not fit.
#[tactic(auto, using(crate::proofs::Least::least_append))]
fn fit_operands(operator: Operator, left: Operand<'_>, right: Operand<'_>, first: &mut First)
    ensures { first.new ≡ least first.old
        (rules.misfit_operands operator (found left.entry.kind.now) left.entry.place (found right.entry.kind.now) right.entry.place) }
{
    match operator {
        Operator::Or | Operator::And => fit_both(&Kind::Bool, left, right, first),
        Operator::Equal | Operator::Different => {
            fit_known(left.kind, right.kind, right.place, first)
        }
        Operator::Join => {
            fit_sized(left.kind, left.place, first);
            fit_joined(left.kind, right.kind, right.place, first);
        }
        Operator::Less
        | Operator::LessEqual
        | Operator::Greater
        | Operator::GreaterEqual
        | Operator::Add
        | Operator::Subtract
        | Operator::Multiply
        | Operator::Divide
        | Operator::Modulo => fit_both(&Kind::Int, left, right, first),
    }
}

/// The kind of an operand behind a prefix, which is that of the whole.
pub(crate) fn kind_of_prefix(prefix: Prefix) -> Kind
    ensures { shape result ≡ kinds.kind_of_prefix prefix }
{
    match prefix {
        Prefix::Not => Kind::Bool,
        Prefix::Negate => Kind::Int,
    }
}

/// What an operator gives.
fn kind_of_operation(operator: Operator, left: Option<Kind>) -> Option<Kind>
    ensures { found result ≡ kinds.kind_of_operation operator (found left) }
{
    match operator {
        Operator::Or
        | Operator::And
        | Operator::Equal
        | Operator::Different
        | Operator::Less
        | Operator::LessEqual
        | Operator::Greater
        | Operator::GreaterEqual => Some(Kind::Bool),
        Operator::Join => if_sized(left),
        Operator::Add
        | Operator::Subtract
        | Operator::Multiply
        | Operator::Divide
        | Operator::Modulo => Some(Kind::Int),
    }
}

/// The kind that an operator gives. An operand of another kind than the operator takes is told at its place.
pub(crate) fn operated(
    operator: Operator,
    left: Option<Kind>,
    left_place: u32,
    right: Operand<'_>,
    first: &mut First,
) -> Option<Kind>
    ensures kind { found result ≡ kinds.kind_of_operation operator (found left) }
    ensures told { first.new ≡ least first.old
        (rules.misfit_operands operator (found left) left_place (found right.entry.kind.now) right.entry.place) }
{
    let operand = Operand {
        kind: &left,
        place: left_place,
    };
    fit_operands(operator, operand, right, first);
    kind_of_operation(operator, left)
}

/// What a built-in function gives, by the kind of its first argument.
pub(crate) fn kind_of_application(builtin: Builtin, of_first: Option<Kind>) -> Option<Kind>
    ensures { found result ≡ kinds.kind_of_application builtin (found of_first) }
{
    match builtin {
        Builtin::Size => Some(Kind::Int),
        Builtin::Str | Builtin::Part => Some(Kind::Text),
        Builtin::Put | Builtin::Cut => if_list(of_first),
        Builtin::Restrict => Some(Kind::Cap),
    }
}

/// How many arguments a built-in function takes.
pub(crate) fn arity(builtin: Builtin) -> usize
    ensures { result ≡ length (kinds.argument_tests builtin None) }
{
    match builtin {
        Builtin::Size | Builtin::Str => 1,
        Builtin::Cut | Builtin::Restrict => 2,
        Builtin::Put | Builtin::Part => 3,
    }
}

/// The one at a place from 0, and behind the third true.
fn at_place(i: usize, first: bool, second: bool, third: bool) -> bool
    ensures { result ≡ at_place i first second third }
{
    match i {
        0 => first,
        1 => second,
        2 => third,
        _ => true,
    }
}

/// Whether a kind is that of a list's items, where this is known.
fn is_item_of(list: &Option<Kind>, kind: &Kind) -> bool
    ensures { result ≡ kinds.is_item_of (found list.now) (shape kind.now) }
{
    match list {
        Some(Kind::List { of }) => same(of, kind),
        _ => true,
    }
}

/// Whether the argument at a place may be of a kind.
#[tactic(auto, using(crate::proofs::ArgumentTests::one_test, crate::proofs::ArgumentTests::two_tests, crate::proofs::ArgumentTests::three_tests))]
fn argument_fits(builtin: Builtin, i: usize, of_first: &Option<Kind>, kind: &Kind) -> bool
    ensures { result ≡ passes_at (kinds.argument_tests builtin (found of_first.now)) i (shape kind.now) }
{
    let is_int = same(&Kind::Int, kind);
    match builtin {
        Builtin::Size => at_place(i, has_size(kind), true, true),
        Builtin::Str => at_place(i, is_int, true, true),
        Builtin::Put => at_place(i, is_list(kind), is_int, is_item_of(of_first, kind)),
        Builtin::Cut => at_place(i, is_list(kind), is_int, true),
        Builtin::Part => at_place(i, same(&Kind::Text, kind), is_int, is_int),
        Builtin::Restrict => at_place(i, same(&Kind::Cap, kind), is_int, true),
    }
}

/// Tells where a written kind is too deep.
pub(crate) fn check_kind(kind: &WrittenKind, first: &mut First)
    ensures { first.new ≡ least first.old (rules.broken_kind (written kind.now)) }
{
    tell_if(
        !is_within(&kind.kind, DEPTH_LIMIT),
        Rule::BadLimit,
        kind.place,
        first,
    );
}

/// The kind of a constant, in which a kind may be written.
pub(crate) fn check_constant(
    alloc: Global,
    value: &Const,
    first: &mut First,
) -> Result<Kind, AllocError>
    ensures kind { IfOk result (λ k. shape k ≡ kinds.kind_of_constant (constant value.now)) }
    ensures told { first.new ≡ least first.old (rules.broken_constant (constant value.now)) }
{
    match value {
        Const::Int { .. } => Ok(Kind::Int),
        Const::Text { .. } => Ok(Kind::Text),
        Const::Bool { .. } => Ok(Kind::Bool),
        Const::Absent => Ok(Kind::Cap),
        Const::EmptyList { of } => {
            check_kind(of, first);
            let item = copy_of(alloc, &of.kind)?;
            list_of(alloc, item)
        }
    }
}

/// What differs at an argument that does not fit its place.
fn argument_difference(
    builtin: Builtin,
    i: usize,
    of_first: &Option<Kind>,
    kind: &Kind,
) -> Difference {
    let found = shape_of(kind);
    let wanted = match (builtin, i, of_first) {
        (Builtin::Size, _, _) => return Difference::Sized { found },
        (Builtin::Put | Builtin::Cut, 0, _) => return Difference::List { found },
        (Builtin::Put, 2, Some(Kind::List { of })) => shape_of(of),
        (Builtin::Part, 0, _) => shape_of(&Kind::Text),
        (Builtin::Restrict, 0, _) => shape_of(&Kind::Cap),
        _ => shape_of(&Kind::Int),
    };
    Difference::Kind { wanted, found }
}

/// Tells where an argument is not as its place wants it.
pub(crate) fn fit_argument(
    builtin: Builtin,
    i: usize,
    of_first: &Option<Kind>,
    kind: &Option<Kind>,
    place: u32,
    first: &mut First,
)
    ensures { first.new ≡ least first.old
        (rules.failing (passes_at (kinds.argument_tests builtin (found of_first.now)) i) (found kind.now) place) }
{
    if let Some(kind) = kind {
        let difference = argument_difference(builtin, i, of_first, kind);
        tell_difference(
            !argument_fits(builtin, i, of_first, kind),
            difference,
            place,
            first,
        );
    }
}
