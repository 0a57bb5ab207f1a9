//! Turns.
ghost use Rattle.std.specs.Prelude.{◌≡◌, IfOk, cond};
ghost use Rattle.epl_syntax.specs.declared.types.Native.TheVariants as types;
ghost use Rattle.epl_syntax.specs.Natives as natives;
ghost use Rattle.epl_syntax.specs.Simple.{returns_code, is_fine};
ghost use Rattle.directory_eject.specs.Stages.{stage_of};

use crate::directory::Directory;
use crate::effect::{DONE, NOT_KEPT, code};
use crate::stage::Stage;
use eden_value::Status;
use epl_syntax::{Answer, Effect};
use std::alloc::{AllocError, Global};
use std::mem;

/// What is returned after the checkpoint of a change.
fn acknowledged(alloc: Global, answer: &Answer) -> Result<Effect, AllocError>
    ensures { IfOk result (λ effect. effect ≡ returns_code (cond (is_fine answer.now) 0 3)) }
{
    match answer {
        Answer::Code { status: Status::Ok } => code(alloc, DONE),
        _ => code(alloc, NOT_KEPT),
    }
}

/// A turn of an operation, up to its next effect. Where memory runs out, the directory and the stage are given up.
pub fn native_turn(
    alloc: Global,
    directory: &mut Directory,
    stage: &mut Stage,
    answer: Answer,
) -> Result<Effect, AllocError>
    ensures { IfOk result (λ effect. natives.native_turn types.Directory directory.old (stage_of stage.old) answer
        ≡ (directory.new, stage_of stage.new, effect)) }
{
    match mem::replace(stage, Stage::Changed) {
        Stage::Adds { name, held } => directory.add(alloc, name, held),
        Stage::Looks { name } => directory.look_up(alloc, &name),
        Stage::Deletes { name } => directory.delete(alloc, &name),
        Stage::Tells => directory.list(alloc),
        Stage::Changed => acknowledged(alloc, &answer),
    }
}
