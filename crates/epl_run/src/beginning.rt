//! How processes begin.
ghost use Rattle.std.specs.Prelude.{◌≡◌, ◌<◌, Some, map, length, slice_get, IfOk};
ghost use Rattle.std.specs.Option.{option_map};
ghost use Rattle.epl_syntax.specs.Tree.{type_tree, local_of};
ghost use Rattle.epl_syntax.specs.Turns as turns;
ghost use Rattle.epl_run.specs.Begins as spec;
ghost use Rattle.epl_run.specs.Blocks as blocks;

use crate::rest::{Frame, Rest};
use capability::Uid;
use eden_value::{Items, Txt, copy_items};
use epl_syntax::{LocalDecl, Program};
use epl_values::{Owner, Variables, place_of, value_of_constant};
use smallvec::SmallVec;
use std::alloc::{AllocError, Global};

/// The values with which variables of a body begin.
fn local_starts(alloc: Global, locals: &[LocalDecl]) -> Result<Items, AllocError>
    ensures { IfOk result (λ v. v ≡ spec.local_starts (map local_of locals.now)) }
{
    let mut values = Vec::with_capacity(alloc, locals.len())?;
    for local in locals {
        values.push(value_of_constant(alloc, &local.start.value)?)?;
    }
    Ok(Items { values })
}

/// A body from its first statement on.
fn whole(alloc: Global, owner: Owner, params: Items, locals: Items) -> Result<Rest, AllocError>
    ensures { IfOk result (λ r. spec.IsWhole owner params locals r) }
{
    let mut frames = SmallVec::new(alloc);
    frames.push(Frame::default())?;
    Ok(Rest {
        variables: Variables {
            owner,
            params,
            locals,
            vars: Items {
                values: Vec::new(alloc),
            },
            me: Uid {
                node: 0,
                epoch: 0,
                serial: 0,
            },
        },
        frames,
    })
}

/// An operation begins, with arguments. Where the type has none of this name, nothing is left to do.
#[tactic(auto, using(crate::proofs::Counted::place_in))]
pub fn begin(
    alloc: Global,
    program: &Program,
    operation: &Txt,
    args: &Items,
) -> Result<Rest, AllocError>
    ensures { IfOk result (λ r. blocks.left_of (type_tree program.now) r
        ≡ turns.operation_left (type_tree program.now) operation.now args.now) }
{
    let params = copy_items(alloc, args)?;
    match place_of(&program.operations, operation) {
        Some(at) => {
            let locals = local_starts(alloc, &program.operations[at].locals)?;
            whole(alloc, Owner::Operation { at }, params, locals)
        }
        None => {
            let locals = local_starts(alloc, &[])?;
            whole(alloc, Owner::Nothing, params, locals)
        }
    }
}

/// The declared process at a place begins.
fn process_at(alloc: Global, program: &Program, at: usize) -> Result<Rest, AllocError>
    requires { at < length program.now.processes.items }
    ensures { IfOk result (λ r. Some (blocks.left_of (type_tree program.now) r)
        ≡ option_map turns.process_left (slice_get (type_tree program.now).processes at)) }
{
    let locals = local_starts(alloc, &program.processes[at].locals)?;
    let params = local_starts(alloc, &[])?;
    whole(alloc, Owner::Process { at }, params, locals)
}

/// The declared processes, in order, as they begin.
pub fn processes(alloc: Global, program: &Program) -> Result<Vec<Rest>, AllocError>
    ensures { IfOk result (λ v. map (blocks.left_of (type_tree program.now)) v.items
        ≡ map turns.process_left (type_tree program.now).processes) }
{
    let mut begun = Vec::with_capacity(alloc, program.processes.len())?;
    for at in 0..program.processes.len() {
        begun.push(process_at(alloc, program, at)?)?;
    }
    Ok(begun)
}
