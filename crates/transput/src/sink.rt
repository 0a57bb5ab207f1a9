//! Sink: the last stage of a stream, which keeps the items of the stage before.
ghost use Rattle.std.specs.Prelude.{◌≡◌, ◌<◌, ◌^◌, IfOk, pos, int_le, length, true, false, [], ◌∷◌};
ghost use Rattle.epl_syntax.specs.declared.effect.Answer.TheVariants as answer;
ghost use Rattle.epl_syntax.specs.declared.effect.Effect.TheVariants.{Return};
ghost use Rattle.epl_syntax.specs.Outline.{starts};
ghost use Rattle.epl_syntax.specs.Simple.{argument, returns_code};
ghost use Rattle.epl_syntax.specs.Streams.{asks_for};
ghost use Rattle.epl_syntax.specs.Sink as sink;
ghost use Rattle.eden_value.specs.View.{datum};
ghost use Rattle.transput.specs.View.{drain_of, sink_stage, pumped_of, came_of};

use crate::effects::{
    END, Heard, ITEM, NOT_OPENED, OPENED, OUT_OF_REACH, TROUBLE, asks_for, came, is_fine,
    returns_code,
};
use crate::pump::Pump;
use crate::values::{cap_at, no_items, number_at, take_items, truth_at};
use capability::Cap;
use eden_value::{Items, LIST_LIMIT, Txt, Value, copy, listed};
use epl_syntax::{Answer, Effect, is_called};
use std::alloc::{AllocError, Global};

/// What is left to do of an operation of a Sink.
#[derive(Clone, Copy, Debug, PartialEq, Eq)]
pub enum SinkStage {
    /// It is opened with a capability, and then saved.
    Opens { src: Option<Cap> },
    /// The save of what it was opened with is told.
    OpenSaved,
    /// It takes so many items.
    Pumps { wanted: i64 },
    /// The answer of the stage before is told, where so many items were taken.
    Asked { pump: Pump },
    /// The save of the last item is told.
    ItemSaved { wanted: i64, taken: u64 },
    /// It returns the items.
    Reads,
}

/// What a Sink holds.
#[derive(Drop)]
struct Drain {
    /// The stage before.
    src: Option<Cap>,
    items: Items,
    /// Whether what it holds was saved.
    saved: bool,
}

/// What a turn comes to.
#[derive(Drop)]
struct Pumped {
    drain: Drain,
    stage: SinkStage,
    effect: Effect,
}

impl Drain {
    /// What stands in the values of the variables, which are taken away.
    fn of(alloc: Global, vars: &mut Items) -> Result<Drain, AllocError>
        ensures { IfOk result (λ drain. drain_of drain ≡ sink.drain vars.old) }
    {
        let src = cap_at(vars, 0);
        let saved = truth_at(vars, 2);
        let items = take_items(alloc, vars, 1)?;
        Ok(Drain { src, items, saved })
    }

    /// The values of the variables.
    fn into_values(self, alloc: Global) -> Result<Items, AllocError>
        ensures { IfOk result (λ vars. vars ≡ sink.values_of (drain_of self)) }
    {
        let values = vec![in alloc;
            Value::Cap { cap: self.src },
            Value::List {
                items: listed(self.items.values)?
            },
            Value::Bool { b: self.saved },
        ]?;
        Ok(Items { values })
    }
}

/// What it holds was saved.
fn acknowledged(drain: Drain) -> Drain
    ensures { drain_of result ≡ record (drain_of drain) { saved = true } }
{
    Drain {
        saved: true,
        ..drain
    }
}

/// A code is returned, and nothing else.
fn answers_code(alloc: Global, drain: Drain, code: u8) -> Result<Pumped, AllocError>
    ensures { IfOk result (λ p. pumped_of p ≡ sink.answers (drain_of drain) (returns_code code)) }
{
    Ok(Pumped {
        drain,
        stage: SinkStage::Reads,
        effect: returns_code(alloc, code)?,
    })
}

/// A code is returned, and how many items are held.
fn counts(alloc: Global, drain: Drain, code: u8) -> Result<Pumped, AllocError>
    ensures { IfOk result (λ p. pumped_of p ≡ sink.counts (drain_of drain) code) }
{
    let held = drain.items.values.len() as i64;
    let values = vec![in alloc; Value::Int { n: i64::from(code) }, Value::Int { n: held }]?;
    let results = Items { values };
    Ok(Pumped {
        drain,
        stage: SinkStage::Reads,
        effect: Effect::Return { results },
    })
}

/// It is saved, and goes on so.
fn saves(drain: Drain, stage: SinkStage) -> Pumped
    ensures { pumped_of result ≡ sink.saves (drain_of drain) (sink_stage stage) }
{
    Pumped {
        drain: Drain {
            saved: false,
            ..drain
        },
        stage,
        effect: Effect::Checkpoint,
    }
}

/// Whether no more than so many were wanted.
fn is_enough(wanted: i64, taken: u64) -> bool
    ensures exact { result ≡ int_le wanted (pos taken) }
    ensures fewer { result ≡ false → taken < 2 ^ 63 }
{
    wanted < 0 || wanted as u64 <= taken
}

/// The stage before is asked for the next item, where so many items were taken.
fn asks(
    alloc: Global,
    drain: Drain,
    src: Cap,
    wanted: i64,
    taken: u64,
) -> Result<Pumped, AllocError>
    requires { taken < 2 ^ 63 }
    ensures { IfOk result (λ p. pumped_of p
        ≡ (sink.values_of (drain_of drain), sink.asked wanted taken, asks_for src (pos (length drain.items)))) }
{
    let held = drain.items.values.len() as i64;
    let effect = asks_for(alloc, src, held)?;
    Ok(Pumped {
        drain,
        stage: SinkStage::Asked {
            pump: Pump { wanted, taken },
        },
        effect,
    })
}

/// It goes on where so many items were taken: it is saved, or all was taken, or it is full, or the stage before is asked
/// for the next item.
fn goes_on(alloc: Global, drain: Drain, wanted: i64, taken: u64) -> Result<Pumped, AllocError>
    ensures { IfOk result (λ p. pumped_of p ≡ sink.goes_on (drain_of drain) wanted taken) }
{
    if !drain.saved {
        return Ok(saves(drain, SinkStage::ItemSaved { wanted, taken }));
    }
    if is_enough(wanted, taken) {
        return counts(alloc, drain, ITEM);
    }
    if drain.items.values.len() == LIST_LIMIT {
        return counts(alloc, drain, OUT_OF_REACH);
    }
    match drain.src {
        Some(src) => asks(alloc, drain, src, wanted, taken),
        None => counts(alloc, drain, TROUBLE),
    }
}

/// What the stage before answered is taken: an item is added last, and not saved yet.
fn after_asking(alloc: Global, drain: Drain, pump: Pump, heard: Heard) -> Result<Pumped, AllocError>
    ensures { IfOk result (λ p. pumped_of p ≡ sink.after_asking (drain_of drain) pump.wanted pump.taken (came_of heard)) }
{
    match heard {
        Heard::Item { text } => {
            let mut drain = drain;
            drain.items.values.push(Value::Text { text })?;
            drain.saved = false;
            goes_on(alloc, drain, pump.wanted, pump.taken + 1)
        }
        Heard::End => counts(alloc, drain, END),
        Heard::Nothing => counts(alloc, drain, TROUBLE),
    }
}

/// The values of the variables are those after the turn.
fn ends(alloc: Global, vars: &mut Items, after: Pumped) -> Result<(SinkStage, Effect), AllocError>
    ensures { IfOk result (λ r. (vars.new, sink_stage r.0, r.1) ≡ pumped_of after) }
{
    *vars = after.drain.into_values(alloc)?;
    Ok((after.stage, after.effect))
}

/// It is opened with a capability, where it is not open and the capability is present.
fn opens(
    alloc: Global,
    vars: &mut Items,
    src: Option<Cap>,
) -> Result<(SinkStage, Effect), AllocError>
    ensures { IfOk result (λ r. (vars.new, sink_stage r.0, r.1) ≡ sink.sink_turn vars.old (sink.opens src) answer.Go) }
{
    let drain = Drain::of(alloc, vars)?;
    if drain.src.is_some() || src.is_none() {
        let after = answers_code(alloc, drain, NOT_OPENED)?;
        return ends(alloc, vars, after);
    }
    let drain = Drain { src, ..drain };
    ends(alloc, vars, saves(drain, SinkStage::OpenSaved))
}

/// The save of what it was opened with is told.
fn open_saved(
    alloc: Global,
    vars: &mut Items,
    answer: &Answer,
) -> Result<(SinkStage, Effect), AllocError>
    ensures { IfOk result (λ r. (vars.new, sink_stage r.0, r.1) ≡ sink.sink_turn vars.old sink.open_saved answer.now) }
{
    let drain = Drain::of(alloc, vars)?;
    if !is_fine(answer) {
        let after = answers_code(alloc, drain, TROUBLE)?;
        return ends(alloc, vars, after);
    }
    let after = answers_code(alloc, acknowledged(drain), OPENED)?;
    ends(alloc, vars, after)
}

/// It takes so many items, where it is open.
fn pumps(alloc: Global, vars: &mut Items, wanted: i64) -> Result<(SinkStage, Effect), AllocError>
    ensures { IfOk result (λ r. (vars.new, sink_stage r.0, r.1) ≡ sink.sink_turn vars.old (sink.pumps wanted) answer.Go) }
{
    let drain = Drain::of(alloc, vars)?;
    if drain.src.is_none() {
        let after = counts(alloc, drain, TROUBLE)?;
        return ends(alloc, vars, after);
    }
    let after = goes_on(alloc, drain, wanted, 0)?;
    ends(alloc, vars, after)
}

/// The save of the last item is told.
fn item_saved(
    alloc: Global,
    vars: &mut Items,
    wanted: i64,
    taken: u64,
    answer: &Answer,
) -> Result<(SinkStage, Effect), AllocError>
    ensures { IfOk result (λ r. (vars.new, sink_stage r.0, r.1)
        ≡ sink.sink_turn vars.old (sink.item_saved wanted taken) answer.now) }
{
    let drain = Drain::of(alloc, vars)?;
    if !is_fine(answer) {
        let after = counts(alloc, drain, TROUBLE)?;
        return ends(alloc, vars, after);
    }
    let after = goes_on(alloc, acknowledged(drain), wanted, taken)?;
    ends(alloc, vars, after)
}

/// A copy of the items, and of the absent capability where there are none.
fn copied_items(alloc: Global, vars: &Items) -> Result<Value, AllocError>
    ensures { IfOk result (λ items. datum items ≡ argument 1 vars.now) }
{
    match vars.values.get(1) {
        Some(value) => copy(alloc, value),
        None => Ok(Value::Cap { cap: None }),
    }
}

/// The items are returned.
fn reads(alloc: Global, vars: &Items) -> Result<Effect, AllocError>
    ensures { IfOk result (λ effect. effect ≡ Return (argument 1 vars.now ∷ [])) }
{
    let items = copied_items(alloc, vars)?;
    let values = vec![in alloc; items]?;
    let results = Items { values };
    Ok(Effect::Return { results })
}

/// A turn of a Sink. What is left to do, and the effect.
pub fn sink_turn(
    alloc: Global,
    vars: &mut Items,
    stage: SinkStage,
    answer: Answer,
) -> Result<(SinkStage, Effect), AllocError>
    ensures { IfOk result (λ r. (vars.new, sink_stage r.0, r.1) ≡ sink.sink_turn vars.old (sink_stage stage) answer) }
{
    match stage {
        SinkStage::Opens { src } => opens(alloc, vars, src),
        SinkStage::OpenSaved => open_saved(alloc, vars, &answer),
        SinkStage::Pumps { wanted } => pumps(alloc, vars, wanted),
        SinkStage::Asked { pump } => {
            let drain = Drain::of(alloc, vars)?;
            let after = after_asking(alloc, drain, pump, came(answer))?;
            ends(alloc, vars, after)
        }
        SinkStage::ItemSaved { wanted, taken } => item_saved(alloc, vars, wanted, taken, &answer),
        SinkStage::Reads => Ok((SinkStage::Reads, reads(alloc, vars)?)),
    }
}

/// How an operation of a Sink begins.
pub fn sink_begin(operation: &Txt, args: &Items) -> SinkStage
    ensures { sink_stage result ≡ sink.first_stage operation.now args.now }
{
    if is_called(operation, b"Open") {
        return SinkStage::Opens {
            src: cap_at(args, 0),
        };
    }
    if is_called(operation, b"Pump") {
        return SinkStage::Pumps {
            wanted: number_at(args, 0),
        };
    }
    SinkStage::Reads
}

/// The values of the variables of a new Sink.
pub fn sink_values(alloc: Global) -> Result<Items, AllocError>
    ensures { IfOk result (λ vars. vars ≡ starts sink.sink.slots) }
{
    let drain = Drain {
        src: None,
        items: no_items(alloc),
        saved: true,
    };
    drain.into_values(alloc)
}
