//! Cell: it holds an integer.
ghost use Rattle.std.specs.Prelude.{◌≡◌, IfOk, [], ◌∷◌};
ghost use Rattle.eden_value.specs.Datum.{number};
ghost use Rattle.eden_value.specs.View.{datums};
ghost use Rattle.epl_syntax.specs.Cell as meaning;
ghost use Rattle.edentypes.specs.View.{stage_of};

use eden_value::{Items, Txt, Value, copy_items};
use epl_syntax::{Answer, Effect, is_called};
use std::alloc::{AllocError, Global};

/// What is left to do of an operation of a Cell.
#[derive(Clone, Copy, Debug, PartialEq, Eq)]
pub enum CellStage {
    /// It sets the value and returns.
    Sets { n: i64 },
    /// It returns the value.
    Gets,
    /// It makes a checkpoint.
    Saves,
    /// It returns the checkpoint's status.
    Saved,
    /// It deactivates the Cell.
    Sleeps,
    /// It destroys the Cell.
    Kills,
    /// It returns the status of the destroy.
    Killed,
}

/// The stage of Set with its argument.
fn sets_to(args: &[Value]) -> CellStage
    ensures { stage_of result ≡ meaning.sets_to (datums args.now) }
{
    match args {
        [Value::Int { n }] => CellStage::Sets { n: *n },
        _ => CellStage::Gets,
    }
}

/// An operation begins.
pub(crate) fn begin(operation: &Txt, args: &Items) -> CellStage
    ensures { stage_of result ≡ meaning.first_stage operation.now args.now }
{
    if is_called(operation, b"Set") {
        sets_to(&args.values)
    } else if is_called(operation, b"Get") {
        CellStage::Gets
    } else if is_called(operation, b"Save") {
        CellStage::Saves
    } else if is_called(operation, b"Sleep") {
        CellStage::Sleeps
    } else {
        CellStage::Kills
    }
}

/// One number, as the values of a Cell or as results.
fn one_number(alloc: Global, n: i64) -> Result<Items, AllocError>
    ensures { IfOk result (λ made. made ≡ number n ∷ []) }
{
    let mut values = Vec::with_capacity(alloc, 1)?;
    values.push(Value::Int { n })?;
    Ok(Items { values })
}

/// The number of the status that a checkpoint or a destroy was answered with, as a result.
fn code_of(alloc: Global, answer: &Answer) -> Result<Items, AllocError>
    ensures { IfOk result (λ made. made ≡ meaning.code_of answer.now) }
{
    match answer {
        Answer::Code { status } => one_number(alloc, i64::from(status.number())),
        _ => Ok(Items {
            values: Vec::new(alloc),
        }),
    }
}

/// A turn: the values after it, what is left to do, and the effect.
pub(crate) fn turn(
    alloc: Global,
    vars: &mut Items,
    stage: &mut CellStage,
    answer: &Answer,
) -> Result<Effect, AllocError>
    ensures { IfOk result (λ effect. (vars.new, stage_of stage.new, effect) ≡ meaning.cell_turn vars.old (stage_of stage.old) answer.now) }
{
    match *stage {
        CellStage::Sets { n } => {
            *vars = one_number(alloc, n)?;
            Ok(Effect::Return {
                results: Items {
                    values: Vec::new(alloc),
                },
            })
        }
        CellStage::Gets => {
            let results = copy_items(alloc, vars)?;
            Ok(Effect::Return { results })
        }
        CellStage::Saves => {
            *stage = CellStage::Saved;
            Ok(Effect::Checkpoint)
        }
        CellStage::Sleeps => Ok(Effect::Deactivate),
        CellStage::Kills => {
            *stage = CellStage::Killed;
            Ok(Effect::Destroy)
        }
        CellStage::Saved | CellStage::Killed => {
            let results = code_of(alloc, answer)?;
            Ok(Effect::Return { results })
        }
    }
}
