//! What stages of streams end their turns in, and what they are told.
ghost use Rattle.std.specs.Prelude.{◌≡◌, IfOk};
ghost use Rattle.eden_value.specs.View.{datum, datums};
ghost use Rattle.epl_syntax.specs.Simple.{returns_code, is_fine};
ghost use Rattle.epl_syntax.specs.Streams as streams;
ghost use Rattle.transput.specs.View.{came_of, came_as, pair_in, pair_of};

use capability::Cap;
use eden_value::{Items, Status, Txt, Value, texted};
use epl_syntax::{Answer, Effect};
use std::alloc::{AllocError, Global};

/// An item is there.
pub const ITEM: u8 = 0;

/// The stream has ended.
pub const END: u8 = 1;

/// The position is out of reach, or a Sink is full.
pub const OUT_OF_REACH: u8 = 2;

/// There is trouble, and it may be tried again.
pub const TROUBLE: u8 = 3;

/// The stage is open, or filled.
pub const OPENED: u8 = 0;

/// The stage was open before, or was given no stage before it.
pub const NOT_OPENED: u8 = 1;

/// What the stage before answered.
#[derive(Drop)]
pub enum Heard {
    Item { text: Txt },
    End,
    Nothing,
}

/// A text of these bytes.
fn text_of(alloc: Global, bytes: &[u8]) -> Result<Txt, AllocError>
    ensures { IfOk result (λ text. text ≡ bytes.now) }
{
    texted(Vec::from_slice(alloc, bytes)?)
}

/// A code is returned, and nothing else.
pub fn returns_code(alloc: Global, code: u8) -> Result<Effect, AllocError>
    ensures { IfOk result (λ effect. effect ≡ returns_code code) }
{
    let values = vec![in alloc; Value::Int { n: i64::from(code) }]?;
    let results = Items { values };
    Ok(Effect::Return { results })
}

/// An item is returned.
pub fn returns_item(alloc: Global, item: Value) -> Result<Effect, AllocError>
    ensures { IfOk result (λ effect. effect ≡ streams.returns_item (datum item)) }
{
    let values = vec![in alloc; Value::Int { n: i64::from(ITEM) }, item]?;
    let results = Items { values };
    Ok(Effect::Return { results })
}

/// A code is returned, and no item.
pub fn returns_none(alloc: Global, code: u8) -> Result<Effect, AllocError>
    ensures { IfOk result (λ effect. effect ≡ streams.returns_none code) }
{
    let text = texted(Vec::new(alloc))?;
    let values = vec![in alloc; Value::Int { n: i64::from(code) }, Value::Text { text }]?;
    let results = Items { values };
    Ok(Effect::Return { results })
}

/// The stage before is asked for the item at a position.
pub fn asks_for(alloc: Global, target: Cap, position: i64) -> Result<Effect, AllocError>
    ensures { IfOk result (λ effect. effect ≡ streams.asks_for target position) }
{
    let operation = text_of(alloc, b"Transfer")?;
    let values = vec![in alloc; Value::Int { n: position }]?;
    let args = Items { values };
    Ok(Effect::Invoke {
        target,
        operation,
        args,
    })
}

/// Whether a checkpoint was acknowledged.
pub fn is_fine(answer: &Answer) -> bool
    ensures { result ≡ is_fine answer.now }
{
    matches!(answer, Answer::Code { status: Status::Ok })
}

/// The two values, where there are just two.
fn pair(results: Items) -> Option<(Value, Value)>
    ensures { pair_of result ≡ pair_in results }
{
    let mut values = results.values;
    if values.len() != 2 {
        return None;
    }
    let second = values.pop()?;
    let first = values.pop()?;
    Some((first, second))
}

/// What a code and an item come to.
fn came_with(code: Value, item: Value) -> Heard
    ensures { came_of result ≡ came_as (datum code) (datum item) }
{
    match (code, item) {
        (Value::Int { n: 0 }, Value::Text { text }) => Heard::Item { text },
        (Value::Int { n: 1 }, Value::Text { .. }) => Heard::End,
        _ => Heard::Nothing,
    }
}

/// What the answer of the stage before comes to.
pub fn came(answer: Answer) -> Heard
    ensures { came_of result ≡ streams.came answer }
{
    let Answer::Reply {
        status: Status::Ok,
        results,
    } = answer
    else {
        return Heard::Nothing;
    };
    match pair(results) {
        Some((code, item)) => came_with(code, item),
        None => Heard::Nothing,
    }
}
