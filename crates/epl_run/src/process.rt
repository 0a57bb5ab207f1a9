//! A turn of a process.
ghost use Rattle.std.specs.Prelude.{◌≡◌, IfOk, map, true};
ghost use Rattle.epl_syntax.specs.Memory.{variables};
ghost use Rattle.epl_syntax.specs.Tree.{type_tree, statement};
ghost use Rattle.epl_syntax.specs.Turns as turns;
ghost use Rattle.epl_values.specs.Comes.{Moves};
ghost use Rattle.epl_values.specs.Variables.{memory};
ghost use Rattle.epl_syntax.specs.Bindings.{is_resolved};
ghost use Rattle.epl_run.specs.Blocks as blocks;
ghost use Rattle.epl_run.specs.Blocks.{IsCounted};

use crate::answer::take_answer;
use crate::block::last_made;
use crate::rest::{Frame, Rest};
use crate::run::run;
use capability::Uid;
use eden_value::Items;
use epl_syntax::{Answer, Effect, Program, Stmt};
use epl_values::{Owner, Stop, Variables};
use smallvec::SmallVec;
use std::alloc::{AllocError, Global};
use std::mem;

/// The statements of a body.
fn body_of(program: &Program, owner: Owner) -> &[Stmt]
    ensures { map statement result.now ≡ blocks.body_of (type_tree program.now) owner }
{
    match owner {
        Owner::Operation { at } => match program.operations.get(at) {
            Some(operation) => &operation.body,
            None => &[],
        },
        Owner::Process { at } => match program.processes.get(at) {
            Some(process) => &process.body,
            None => &[],
        },
        Owner::Upgrade { .. } | Owner::Nothing => &[],
    }
}

/// Whether a body has to return.
fn has_to_return(owner: Owner) -> bool
    ensures { result ≡ blocks.has_to_return owner }
{
    match owner {
        Owner::Operation { .. } => true,
        Owner::Process { .. } | Owner::Upgrade { .. } | Owner::Nothing => false,
    }
}

/// The answer is taken.
#[tactic(auto, using(crate::proofs::Rows::steps_map, crate::proofs::Turned::told_go, crate::proofs::Found::of_body, crate::proofs::Found::statements_found))]
fn told(
    program: &Program,
    vars: &mut Variables,
    frames: &[Frame],
    answer: Answer,
) -> Result<(), Stop>
    requires counted { IsCounted program.now }
    requires resolved { is_resolved program.now ≡ true }
    ensures told { Moves result (memory (type_tree program.now) vars.new) (memory (type_tree program.now) vars.old)
        (turns.told (blocks.awaited (type_tree program.now) (blocks.body_steps (type_tree program.now) vars.old.owner) frames.now)
        answer (memory (type_tree program.now) vars.old)) }
    ensures owner { vars.new.owner ≡ vars.old.owner }
{
    match answer {
        Answer::Go => Ok(()),
        _ => {
            let body = body_of(program, vars.owner);
            let made = last_made(program, body, frames);
            take_answer(program, vars, made, answer)
        }
    }
}

/// The answer is taken, and then steps are made up to the next effect.
#[tactic(auto, using(crate::proofs::Rows::steps_map, crate::proofs::Found::statements_found))]
fn go_on(
    alloc: Global,
    program: &Program,
    vars: &mut Variables,
    frames: &mut SmallVec<Frame, 8>,
    answer: Answer,
) -> Result<Effect, AllocError>
    requires counted { IsCounted program.now }
    requires resolved { is_resolved program.now ≡ true }
    ensures came { IfOk result (λ e. blocks.Came (type_tree program.now) (blocks.body_steps (type_tree program.now) vars.old.owner)
        e vars.new frames.new.items
        (blocks.came_to (type_tree program.now) (blocks.has_to_return vars.old.owner)
        (blocks.rest_of (type_tree program.now) (blocks.body_steps (type_tree program.now) vars.old.owner) frames.old.items)
        (memory (type_tree program.now) vars.old)
        (turns.told (blocks.awaited (type_tree program.now) (blocks.body_steps (type_tree program.now) vars.old.owner) frames.old.items)
        answer (memory (type_tree program.now) vars.old)))) }
    ensures owner { vars.new.owner ≡ vars.old.owner }
{
    match told(program, vars, frames.as_slice(), answer) {
        Ok(()) => {
            let body = body_of(program, vars.owner);
            let returns = has_to_return(vars.owner);
            run(alloc, program, body, returns, vars, frames)
        }
        Err(Stop::Fault { cause }) => {
            frames.clear();
            Ok(Effect::Fault { cause })
        }
        Err(Stop::Memory) => Err(AllocError),
    }
}

/// No more values than the type has variables.
#[tactic(auto, using(crate::proofs::Held::held_values))]
pub(crate) fn keep_declared(program: &Program, vars: &mut Items)
    ensures { vars.new ≡ turns.values_in (variables (type_tree program.now).vars vars.old) }
{
    vars.values.truncate(program.vars.len());
}

/// A turn of a process of the Eject `me`, up to its next effect: from the values of the Eject's variables, what is left to
/// do and the answer to the last effect.
///
/// Where memory runs out, the turn is lost: the values and what is left are neither those before it nor those after it.
pub fn turn(
    alloc: Global,
    program: &Program,
    vars: &mut Items,
    rest: &mut Rest,
    answer: Answer,
    me: Uid,
) -> Result<Effect, AllocError>
    requires counted { IsCounted program.now }
    requires resolved { is_resolved program.now ≡ true }
    ensures { IfOk result (λ e. turns.process_turn (type_tree program.now) vars.old
        (blocks.left_of (type_tree program.now) rest.old) answer me
        ≡ (vars.new, blocks.left_of (type_tree program.now) rest.new, e)) }
{
    mem::swap(&mut rest.variables.vars, vars);
    rest.variables.me = me;
    let came = go_on(
        alloc,
        program,
        &mut rest.variables,
        &mut rest.frames,
        answer,
    );
    mem::swap(&mut rest.variables.vars, vars);
    keep_declared(program, vars);
    came
}
