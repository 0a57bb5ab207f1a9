//! What a step does.
ghost use Rattle.std.specs.Prelude.{◌≡◌, List, map, true};
ghost use Rattle.std.specs.List.{list_all};
ghost use Rattle.eden_value.specs.View.{datum};
ghost use Rattle.epl_syntax.specs.Tree as tree;
ghost use Rattle.epl_syntax.specs.Tree.{type_tree};
ghost use Rattle.epl_syntax.specs.Operators.{found};
ghost use Rattle.epl_syntax.specs.Expressions as expressions;
ghost use Rattle.epl_syntax.specs.Statements as meaning;
ghost use Rattle.epl_syntax.specs.Statements.{Step, does};
ghost use Rattle.epl_values.specs.Comes.{Comes};
ghost use Rattle.epl_values.specs.Variables.{memory, is_found};
ghost use Rattle.epl_syntax.specs.Bindings.{each_of_expression, each_of_target, each_of_statement};
ghost use Rattle.epl_run.specs.Acts as spec;
ghost use Rattle.epl_run.specs.declared.act.Act.TheVariants.{Enter, End};
ghost use Rattle.epl_run.specs.Acts.{Behind};
ghost use Rattle.epl_run.specs.Blocks.{IsCounted};
ghost use Rattle.capability.specs.declared.Cap.{Cap as Capability};
ghost use Rattle.epl_syntax.specs.declared.effect.Effect.{Effect as Happening};

use crate::block::{condition_number, monitor_number};
use crate::rest::Branch;
use capability::{Cap, mint};
use eden_value::{Items, Txt, Value};
use epl_syntax::{Effect, Expr, FaultCause, Program, Stmt, Target};
use epl_values::{Stop, Variables, assign, value_named, value_of, values_of};
use std::alloc::Global;

/// What comes of a step: the next one; a branch first, and then this step again or the next one; or an
/// effect, which of a `with` is the lock of its monitor, with its branch before the rest.
#[derive(Drop)]
pub(crate) enum Act {
    Next,
    Enter { branch: Branch, again: bool },
    End { effect: Effect },
    Lock { monitor: u8 },
}

/// The value of a test.
pub(crate) fn tested(
    alloc: Global,
    program: &Program,
    vars: &Variables,
    e: &Expr,
) -> Result<bool, Stop>
    requires { each_of_expression (is_found program.now vars.now.owner) (tree.expression e.now) ≡ true }
    ensures { Comes (λ b. b) result
        (found (expressions.value_of (memory (type_tree program.now) vars.now) (tree.expression e.now)) spec.truth_in) }
{
    match value_of(alloc, program, vars, e)? {
        Value::Bool { b } => Ok(b),
        _ => Err(Stop::Fault {
            cause: FaultCause::BadKind,
        }),
    }
}

/// The capability of the Eject that is invoked.
fn target_of(program: &Program, vars: &Variables, target: &Target) -> Result<Cap, Stop>
    requires { each_of_target (is_found program.now vars.now.owner) target.now ≡ true }
    ensures { Comes (λ (c : Capability). c) result (meaning.target_of (memory (type_tree program.now) vars.now) target.now) }
{
    match target {
        Target::Me { .. } => Ok(mint(vars.me)),
        Target::Name { name } => match value_named(program, vars, name) {
            None => Err(Stop::Fault {
                cause: FaultCause::BadKind,
            }),
            Some(Value::Cap { cap: Some(cap) }) => Ok(*cap),
            Some(_) => Err(Stop::Fault {
                cause: FaultCause::NoCapability,
            }),
        },
    }
}

/// An invocation: its target is looked at first, then its arguments.
#[tactic(auto, using(crate::proofs::Found::row_given))]
fn invoked(
    alloc: Global,
    program: &Program,
    vars: &Variables,
    target: &Target,
    operation: &Txt,
    args: &[Expr],
) -> Result<Effect, Stop>
    requires target { each_of_target (is_found program.now vars.now.owner) target.now ≡ true }
    requires args { list_all (each_of_expression (is_found program.now vars.now.owner)) (map tree.expression args.now) ≡ true }
    ensures { Comes (λ (e : Happening). e) result
        (spec.invocation (memory (type_tree program.now) vars.now) target.now operation.now (tree.expressions args.now)) }
{
    let target = target_of(program, vars, target)?;
    let values = values_of(alloc, program, vars, args)?;
    Ok(Effect::Invoke {
        target,
        operation: operation.share()?,
        args: Items { values },
    })
}

/// The end of a turn.
fn ends(effect: Effect) -> Act
    ensures { result ≡ End effect }
{
    Act::End { effect }
}

/// A branch of a step first, and then this step again or the next one.
fn enters(branch: Branch, again: bool) -> Act
    ensures { result ≡ Enter branch again }
{
    Act::Enter { branch, again }
}

/// What a return gives.
#[tactic(auto, using(crate::proofs::Found::row_given))]
fn returned(
    alloc: Global,
    program: &Program,
    vars: &Variables,
    results: &[Expr],
) -> Result<Effect, Stop>
    requires { list_all (each_of_expression (is_found program.now vars.now.owner)) (map tree.expression results.now) ≡ true }
    ensures { Comes (λ (e : Happening). e) result
        (spec.returned (memory (type_tree program.now) vars.now) (tree.expressions results.now)) }
{
    let values = values_of(alloc, program, vars, results)?;
    Ok(Effect::Return {
        results: Items { values },
    })
}

/// An effect whose answer sets variables.
fn awaiting(alloc: Global, program: &Program, vars: &Variables, s: &Stmt) -> Result<Act, Stop>
    requires { each_of_statement (is_found program.now vars.now.owner) (tree.statement s.now) ≡ true }
    ensures { (rest : List Step) → spec.NeedsAnswer (tree.statement s.now)
        → Behind (type_tree program.now) vars.now (does (tree.statement s.now)) rest result
        (meaning.came_of (type_tree program.now) (memory (type_tree program.now) vars.now) (does (tree.statement s.now)) rest) }
{
    match s {
        Stmt::Checkpoint { .. } => Ok(ends(Effect::Checkpoint)),
        Stmt::Destroy { .. } => Ok(ends(Effect::Destroy)),
        Stmt::Create { type_name, .. } => Ok(ends(Effect::Create {
            type_name: type_name.text.share()?,
        })),
        Stmt::Invoke {
            target,
            operation,
            args,
            ..
        } => Ok(ends(invoked(alloc, program, vars, target, &operation.text, args)?)),
        _ => Ok(Act::Next),
    }
}

/// A step that is a statement.
pub(crate) fn made_of(
    alloc: Global,
    program: &Program,
    vars: &mut Variables,
    s: &Stmt,
) -> Result<Act, Stop>
    requires counted { IsCounted program.now }
    requires found { each_of_statement (is_found program.now vars.old.owner) (tree.statement s.now) ≡ true }
    ensures behind { (rest : List Step) → Behind (type_tree program.now) vars.new (does (tree.statement s.now)) rest result
        (meaning.came_of (type_tree program.now) (memory (type_tree program.now) vars.old) (does (tree.statement s.now)) rest) }
    ensures owner { vars.new.owner ≡ vars.old.owner }
{
    match s {
        Stmt::Assign { name, value } => {
            assign(alloc, program, vars, name, value)?;
            Ok(Act::Next)
        }
        Stmt::If { test: asked, .. } => {
            if tested(alloc, program, vars, asked)? {
                Ok(enters(Branch::So, false))
            } else {
                Ok(enters(Branch::Otherwise, false))
            }
        }
        Stmt::While { test: asked, .. } => {
            if tested(alloc, program, vars, asked)? {
                Ok(enters(Branch::Body, true))
            } else {
                Ok(Act::Next)
            }
        }
        Stmt::With { monitor, .. } => Ok(Act::Lock {
            monitor: monitor_number(program, monitor),
        }),
        Stmt::Wait { condition, .. } => Ok(ends(Effect::Wait {
            condition: condition_number(program, condition),
        })),
        Stmt::Signal { condition, .. } => Ok(ends(Effect::Signal {
            condition: condition_number(program, condition),
        })),
        Stmt::Yield { .. } => Ok(ends(Effect::Yield)),
        Stmt::Deactivate { .. } => Ok(ends(Effect::Deactivate)),
        Stmt::Return { results, .. } => Ok(ends(returned(alloc, program, vars, results)?)),
        Stmt::Checkpoint { .. }
        | Stmt::Destroy { .. }
        | Stmt::Create { .. }
        | Stmt::Invoke { .. } => { awaiting(alloc, program, vars, s) }
    }
}
