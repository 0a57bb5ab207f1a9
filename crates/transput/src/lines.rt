//! Lines: the first stage of a stream, a list of texts that is filled once.
ghost use Rattle.std.specs.Prelude.{◌≡◌, IfOk, OnOk};
ghost use Rattle.eden_value.specs.View.{datums};
ghost use Rattle.epl_syntax.specs.declared.effect.Answer.TheVariants as answer;
ghost use Rattle.epl_syntax.specs.Outline.{starts};
ghost use Rattle.epl_syntax.specs.Simple.{argument, items_in};
ghost use Rattle.epl_syntax.specs.Lines as lines;
ghost use Rattle.transput.specs.View.{lines_stage};

use crate::effects::{
    END, NOT_OPENED, OPENED, OUT_OF_REACH, TROUBLE, is_fine, returns_code, returns_item,
    returns_none,
};
use crate::values::{copied_items, items_at, no_items, number_at, take_items, truth_at};
use eden_value::{Items, Txt, Value, copy, listed};
use epl_syntax::{Answer, Effect, is_called};
use std::alloc::{AllocError, Global};

/// What is left to do of an operation of Lines.
#[derive(Drop)]
pub enum LinesStage {
    /// It is filled with items, and then saved.
    Fills { items: Items },
    /// The save of what it was filled with is told.
    FillSaved,
    /// It hands out the item at a position, saved before where it was not.
    Transfers { position: i64 },
    /// The save is told, and the item at a position is handed out.
    TransferSaved { position: i64 },
}

/// The values of the variables with these.
fn values_of(alloc: Global, filled: bool, items: Items, saved: bool) -> Result<Items, AllocError>
    ensures { IfOk result (λ vars. vars ≡ lines.values_of (record { filled = filled; items = items; saved = saved })) }
{
    let values = vec![in alloc;
        Value::Bool { b: filled },
        Value::List {
            items: listed(items.values)?
        },
        Value::Bool { b: saved },
    ]?;
    Ok(Items { values })
}

/// What it holds was saved, or has to be.
fn set_saved(alloc: Global, vars: &mut Items, saved: bool) -> Result<(), AllocError>
    ensures { OnOk result (vars.new ≡ lines.values_of (record (lines.source vars.old) { saved = saved })) }
{
    let filled = truth_at(vars, 0);
    let items = take_items(alloc, vars, 1)?;
    *vars = values_of(alloc, filled, items, saved)?;
    Ok(())
}

/// The item at a position.
fn item_at(alloc: Global, vars: &Items, position: i64) -> Result<Effect, AllocError>
    ensures { IfOk result (λ effect. effect ≡ lines.item_at (items_in (argument 1 vars.now)) position) }
{
    if position < 0 {
        return returns_none(alloc, OUT_OF_REACH);
    }
    let items = items_at(vars, 1);
    let place = position as usize;
    match items.get(place) {
        Some(item) => returns_item(alloc, copy(alloc, item)?),
        None => returns_none(
            alloc,
            if place == items.len() {
                END
            } else {
                OUT_OF_REACH
            },
        ),
    }
}

/// A turn of Lines. What is left to do, and the effect.
pub fn lines_turn(
    alloc: Global,
    vars: &mut Items,
    stage: LinesStage,
    answer: &Answer,
) -> Result<(LinesStage, Effect), AllocError>
    ensures { IfOk result (λ r. (vars.new, lines_stage r.0, r.1) ≡ lines.lines_turn vars.old (lines_stage stage) answer.now) }
{
    match stage {
        LinesStage::Fills { items } => fills(alloc, vars, items),
        LinesStage::FillSaved => fill_saved(alloc, vars, answer),
        LinesStage::Transfers { position } => transfers(alloc, vars, position),
        LinesStage::TransferSaved { position } => transfer_saved(alloc, vars, position, answer),
    }
}

/// It is filled with items, where it was not, and then saved.
fn fills(alloc: Global, vars: &mut Items, items: Items) -> Result<(LinesStage, Effect), AllocError>
    ensures { IfOk result (λ r. (vars.new, lines_stage r.0, r.1) ≡ lines.lines_turn vars.old (lines.fills items) answer.Go) }
{
    if truth_at(vars, 0) {
        return Ok((LinesStage::FillSaved, returns_code(alloc, NOT_OPENED)?));
    }
    *vars = values_of(alloc, true, items, false)?;
    Ok((LinesStage::FillSaved, Effect::Checkpoint))
}

/// The save of what it was filled with is told.
fn fill_saved(
    alloc: Global,
    vars: &mut Items,
    answer: &Answer,
) -> Result<(LinesStage, Effect), AllocError>
    ensures { IfOk result (λ r. (vars.new, lines_stage r.0, r.1) ≡ lines.lines_turn vars.old lines.fill_saved answer.now) }
{
    if !is_fine(answer) {
        return Ok((LinesStage::FillSaved, returns_code(alloc, TROUBLE)?));
    }
    set_saved(alloc, vars, true)?;
    Ok((LinesStage::FillSaved, returns_code(alloc, OPENED)?))
}

/// The save is told, and the item at a position is handed out.
fn transfer_saved(
    alloc: Global,
    vars: &mut Items,
    position: i64,
    answer: &Answer,
) -> Result<(LinesStage, Effect), AllocError>
    ensures { IfOk result (λ r. (vars.new, lines_stage r.0, r.1)
        ≡ lines.lines_turn vars.old (lines.transfer_saved position) answer.now) }
{
    if !is_fine(answer) {
        return Ok((LinesStage::FillSaved, returns_none(alloc, TROUBLE)?));
    }
    let effect = item_at(alloc, vars, position)?;
    set_saved(alloc, vars, true)?;
    Ok((LinesStage::FillSaved, effect))
}

/// The item at a position is handed out, where it was filled, and saved before where it was not.
fn transfers(
    alloc: Global,
    vars: &mut Items,
    position: i64,
) -> Result<(LinesStage, Effect), AllocError>
    ensures { IfOk result (λ r. (vars.new, lines_stage r.0, r.1) ≡ lines.lines_turn vars.old (lines.transfers position) answer.Go) }
{
    if !truth_at(vars, 0) {
        return Ok((LinesStage::FillSaved, returns_none(alloc, TROUBLE)?));
    }
    if truth_at(vars, 2) {
        return Ok((LinesStage::FillSaved, item_at(alloc, vars, position)?));
    }
    set_saved(alloc, vars, false)?;
    Ok((LinesStage::TransferSaved { position }, Effect::Checkpoint))
}

/// How an operation of Lines begins.
pub fn lines_begin(alloc: Global, operation: &Txt, args: &Items) -> Result<LinesStage, AllocError>
    ensures { IfOk result (λ stage. lines_stage stage ≡ lines.first_stage operation.now args.now) }
{
    if is_called(operation, b"Fill") {
        let items = copied_items(alloc, args, 0)?;
        return Ok(LinesStage::Fills { items });
    }
    Ok(LinesStage::Transfers {
        position: number_at(args, 0),
    })
}

/// The values of the variables of a new Lines.
pub fn lines_values(alloc: Global) -> Result<Items, AllocError>
    ensures { IfOk result (λ vars. vars ≡ starts lines.lines.slots) }
{
    values_of(alloc, false, no_items(alloc), true)
}
