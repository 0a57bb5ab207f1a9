//! Turns of processes.
ghost use Rattle.std.specs.Prelude.{◌≡◌, IfOk, true};
ghost use Rattle.epl_syntax.specs.Edentype.{native as native_type, declared as declared_type};
ghost use Rattle.epl_syntax.specs.Cell as cells;
ghost use Rattle.epl_syntax.specs.Meaning as meaning;
ghost use Rattle.epl_syntax.specs.Natives as natives;
ghost use Rattle.epl_syntax.specs.Bindings.{is_resolved};
ghost use Rattle.epl_syntax.specs.Rules.Limits.{IsWithinLimits};
ghost use Rattle.epl_syntax.specs.Tree.{type_tree};
ghost use Rattle.epl_syntax.specs.declared.types.Native.TheVariants as types;
ghost use Rattle.directory_eject.specs.Stages as directories;
ghost use Rattle.transput.specs.View as streams;
ghost use Rattle.transput.specs.View.{native_of};
ghost use Rattle.directory_eject.specs.Kept.{MayStart};
ghost use Rattle.edentypes.specs.Fitting.{FitsIf, FitsKind, RestFits, is_directory_rest, is_directory_type};
ghost use Rattle.edentypes.specs.View.{kind_in, rest_of, turned_of, stage_of as cell_stage};

use crate::form::{Form, form_at};
use crate::held::Values;
use crate::native::stream_of;
use crate::{CellStage, Kind, Rest, cell};
use capability::Uid;
use directory_eject::Directory;
use epl_syntax::{Answer, Effect, Native, Program, Types};
use std::alloc::{AllocError, Global};
use std::mem::replace;
use transput::Stream;

/// A process of a Cell takes a turn.
fn cell_turn(
    alloc: Global,
    vars: &mut Values,
    stage: &mut CellStage,
    answer: &Answer,
) -> Result<Effect, AllocError>
    ensures { IfOk result (λ effect. (vars.new, cell_stage stage.new, effect)
        ≡ cells.cell_turn vars.old (cell_stage stage.old) answer.now) }
{
    let mut items = replace(vars, Values::none(alloc)).into_items(alloc)?;
    let effect = cell::turn(alloc, &mut items, stage, answer)?;
    *vars = Values::plain(items);
    Ok(effect)
}

/// A process of a Directory takes a turn.
fn directory_turn(
    alloc: Global,
    vars: &mut Values,
    stage: &mut directory_eject::Stage,
    answer: Answer,
) -> Result<Effect, AllocError>
    requires { MayStart vars.old }
    ensures same { IfOk result (λ effect. (vars.new, directories.stage_of stage.new, effect)
        ≡ natives.native_turn types.Directory vars.old (directories.stage_of stage.old) answer) }
    ensures fit { MayStart vars.new }
{
    let none = Values::entries(Directory::new(alloc));
    let mut directory = replace(vars, none).into_directory(alloc)?;
    let effect = directory_eject::native_turn(alloc, &mut directory, stage, answer)?;
    *vars = Values::entries(directory);
    Ok(effect)
}

/// A process of a stream takes a turn.
fn stream_turn(
    alloc: Global,
    stream: Stream,
    vars: &mut Values,
    stage: &mut transput::Stage,
    answer: Answer,
) -> Result<Effect, AllocError>
    ensures { IfOk result (λ effect. (vars.new, streams.stage_of stage.new, effect)
        ≡ natives.native_turn (native_of stream) vars.old (streams.stage_of stage.old) answer) }
{
    let mut items = replace(vars, Values::none(alloc)).into_items(alloc)?;
    let effect = transput::native_turn(alloc, stream, &mut items, stage, answer)?;
    *vars = Values::plain(items);
    Ok(effect)
}

/// A process of a native type takes a turn. What is left of another type comes to nothing.
fn native_turn(
    alloc: Global,
    native: Native,
    vars: &mut Values,
    rest: &mut Rest,
    answer: Answer,
    _me: Uid,
) -> Result<Effect, AllocError>
    requires vars { FitsIf (is_directory_type native) vars.old }
    requires rest { is_directory_rest rest.old ≡ is_directory_type native }
    ensures same { IfOk result (λ effect. turned_of vars.new (rest_of (native_type native) rest.new) effect
        ≡ meaning.turn (native_type native) vars.old (rest_of (native_type native) rest.old) answer _me) }
    ensures vars { FitsIf (is_directory_type native) vars.new }
    ensures rest { is_directory_rest rest.new ≡ is_directory_type native }
{
    match rest {
        Rest::Cell { stage } => cell_turn(alloc, vars, stage, &answer),
        Rest::Directory { stage } => directory_turn(alloc, vars, stage, answer),
        Rest::Stream { stage } => stream_turn(alloc, stream_of(native), vars, stage, answer),
        Rest::Declared { .. } => Ok(Effect::End),
    }
}

/// A process of a declared type takes a turn. What is left of another type comes to nothing.
fn declared_turn(
    alloc: Global,
    program: &Program,
    vars: &mut Values,
    rest: &mut Rest,
    answer: Answer,
    me: Uid,
) -> Result<Effect, AllocError>
    requires limits { IsWithinLimits program.now }
    requires resolved { is_resolved program.now ≡ true }
    ensures same { IfOk result (λ effect. turned_of vars.new (rest_of (declared_type (type_tree program.now)) rest.new) effect
        ≡ meaning.turn (declared_type (type_tree program.now)) vars.old (rest_of (declared_type (type_tree program.now)) rest.old)
        answer me) }
    ensures rest { is_directory_rest rest.new ≡ is_directory_rest rest.old }
{
    match rest {
        Rest::Declared { rest } => {
            let mut shared = replace(vars, Values::none(alloc)).into_items(alloc)?;
            let effect = epl_run::turn(alloc, program, &mut shared, rest, answer, me)?;
            *vars = Values::plain(shared);
            Ok(effect)
        }
        _ => Ok(Effect::End),
    }
}

/// A process of the Eject `me` takes a turn, up to its effect.
///
/// Where memory runs out, values and what is left may have changed, but still are such as an Eject of the type may have.
pub fn turn(
    alloc: Global,
    types: &Types,
    kind: Kind,
    vars: &mut Values,
    rest: &mut Rest,
    answer: Answer,
    me: Uid,
) -> Result<Effect, AllocError>
    requires vars { FitsKind kind vars.old }
    requires rest { RestFits kind rest.old }
    ensures same { IfOk result (λ effect. turned_of vars.new (rest_of (kind_in types.now kind) rest.new) effect
        ≡ meaning.turn (kind_in types.now kind) vars.old (rest_of (kind_in types.now kind) rest.old) answer me) }
    ensures vars { FitsKind kind vars.new }
    ensures rest { RestFits kind rest.new }
{
    match form_at(types, kind) {
        Form::Native { native } => native_turn(alloc, native, vars, rest, answer, me),
        Form::Declared { program } => declared_turn(alloc, program, vars, rest, answer, me),
    }
}
