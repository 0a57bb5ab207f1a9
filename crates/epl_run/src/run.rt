//! Steps until the next effect.
ghost use Rattle.std.specs.Prelude.{◌≡◌, ◌<◌, ◌≤◌, ◌^◌, ◌-◌, ◌+◌, ◌*◌, ◌++◌, ◌∷◌, [], ℕ, Bool, List, IfOk, Some, length, slice_get, true};
ghost use Rattle.epl_syntax.specs.Tree.{type_tree, statement};
ghost use Rattle.epl_syntax.specs.Statements as meaning;
ghost use Rattle.epl_syntax.specs.Statements.{Step};
ghost use Rattle.epl_syntax.specs.Turns as turns;
ghost use Rattle.epl_values.specs.Variables.{memory, is_found};
ghost use Rattle.epl_run.specs.Found.{each_in};
ghost use Rattle.epl_run.specs.Acts.{Behind};
ghost use Rattle.epl_run.specs.Blocks as blocks;
ghost use Rattle.epl_run.specs.Blocks.{IsCounted};

use crate::act::{Act, made_of};
use crate::block::{Block, block_of, inner};
use crate::rest::{Branch, Frame};
use epl_syntax::{Effect, FaultCause, Program, Stmt};
use epl_values::{Stop, Variables};
use smallvec::SmallVec;
use std::alloc::{AllocError, Global};

/// The most steps of a turn.
const BUDGET: u32 = 10_000;

/// How many steps a block has.
#[tactic(auto, using(crate::proofs::Rows::steps_length))]
fn steps_of(block: Block<'_>) -> usize
    ensures { result ≡ length (blocks.steps_in block.entry) }
{
    match block.leaves {
        Some(_) => block.statements.len() + 1,
        None => block.statements.len(),
    }
}

/// What comes of the step at a place of a block.
#[tactic(auto, using(crate::proofs::Rows::get_step, crate::proofs::Rows::get_end))]
fn step(
    alloc: Global,
    program: &Program,
    vars: &mut Variables,
    block: Block<'_>,
    place: usize,
) -> Result<Act, Stop>
    requires counted { IsCounted program.now }
    requires within { place < length (blocks.steps_in block) }
    requires found { each_in (is_found program.now vars.old.owner) block.statements.now ≡ true }
    ensures behind { (s : Step) (rest : List Step) → slice_get (blocks.steps_in block.entry) place ≡ Some s
        → Behind (type_tree program.now) vars.new s rest result
        (meaning.came_of (type_tree program.now) (memory (type_tree program.now) vars.old) s rest) }
    ensures owner { vars.new.owner ≡ vars.old.owner }
{
    match block.statements.get(place) {
        Some(s) => made_of(alloc, program, vars, s),
        None => Ok(Act::End {
            effect: Effect::Leave {
                monitor: block.leaves.unwrap_or(0),
            },
        }),
    }
}

/// The frame behind its step, or before it again.
fn kept(frame: Frame, again: bool) -> Frame
    requires { frame.next < 2 ^ 64 - 1 }
    ensures { result ≡ blocks.kept frame again }
{
    if again {
        frame
    } else {
        Frame {
            next: frame.next + 1,
            ..frame
        }
    }
}

/// The frame of a branch that is entered at a step.
fn entered(frame: Frame, branch: Branch) -> Frame
    ensures { result ≡ blocks.entered frame branch }
{
    Frame {
        entered: frame.next,
        branch,
        next: 0,
    }
}

/// How a process ends where nothing is left.
fn end(returns: bool) -> Effect
    ensures { result ≡ blocks.last_effect returns }
{
    if returns {
        Effect::Fault {
            cause: FaultCause::NoReturn,
        }
    } else {
        Effect::End
    }
}

/// Makes the steps of a block from a frame on, and of the blocks that it enters, up to an effect or to the end of the innermost of
/// them. So many steps may be made, and `left` is how many are left.
fn run_block(
    alloc: Global,
    program: &Program,
    body: &[Stmt],
    vars: &mut Variables,
    frames: &mut SmallVec<Frame, 8>,
    at: (Frame, Block<'_>),
    left: &mut u32,
) -> Result<Option<Effect>, AllocError>
    requires counted { IsCounted program.now }
    requires block { blocks.steps_in at.1 ≡ blocks.own (type_tree program.now)
        (blocks.block_at (type_tree program.now) (blocks.steps_of body.now) frames.old.items) at.0 }
    requires found { each_in (is_found program.now vars.old.owner) at.1.statements.now ≡ true }
    ensures went { (returns : Bool) → IfOk result (λ r. blocks.Went (type_tree program.now) (blocks.steps_of body.now) returns r vars.new
        frames.new.items left.new (turns.run left.old (type_tree program.now) returns (memory (type_tree program.now) vars.old)
        (blocks.rest_of (type_tree program.now) (blocks.steps_of body.now) (frames.old.items ++ at.entry.0 ∷ [])))) }
    ensures fewer { 2 * left.new + length frames.new.items ≤ 2 * left.old + length frames.old.items }
    ensures owner { vars.new.owner ≡ vars.old.owner }
{
    let (mut frame, mut block) = at;
    while frame.next < steps_of(block) {
        if *left == 0 {
            frames.clear();
            return Ok(Some(Effect::Fault {
                cause: FaultCause::Budget,
            }));
        }
        *left -= 1;
        match step(alloc, program, vars, block, frame.next) {
            Ok(Act::Next) => frame = kept(frame, false),
            Ok(Act::Enter { branch, again }) => {
                block = inner(program, block, frame.next, branch);
                frames.push(kept(frame, again))?;
                frame = entered(frame, branch);
            }
            Ok(Act::End { effect }) => {
                frames.push(kept(frame, false))?;
                return Ok(Some(effect));
            }
            Ok(Act::Lock { monitor }) => {
                frames.push(kept(frame, false))?;
                frames.push(entered(frame, Branch::Held))?;
                return Ok(Some(Effect::Lock { monitor }));
            }
            Err(Stop::Fault { cause }) => {
                frames.clear();
                return Ok(Some(Effect::Fault { cause }));
            }
            Err(Stop::Memory) => return Err(AllocError),
        }
    }
    Ok(None)
}

/// Makes the steps behind the frames up to an effect.
pub(crate) fn run(
    alloc: Global,
    program: &Program,
    body: &[Stmt],
    returns: bool,
    vars: &mut Variables,
    frames: &mut SmallVec<Frame, 8>,
) -> Result<Effect, AllocError>
    requires counted { IsCounted program.now }
    requires found { each_in (is_found program.now vars.old.owner) body.now ≡ true }
    ensures came { IfOk result (λ e. blocks.Came (type_tree program.now) (blocks.steps_of body.now) e vars.new frames.new.items
        (turns.run turns.budget (type_tree program.now) returns (memory (type_tree program.now) vars.old)
        (blocks.rest_of (type_tree program.now) (blocks.steps_of body.now) frames.old.items))) }
    ensures owner { vars.new.owner ≡ vars.old.owner }
{
    let mut left = BUDGET;
    while let Some(frame) = frames.pop() {
        let block = block_of(program, body, frames.as_slice(), frame);
        if let Some(effect) = run_block(
            alloc,
            program,
            body,
            vars,
            frames,
            (frame, block),
            &mut left,
        )? {
            return Ok(effect);
        }
    }
    Ok(end(returns))
}
