//! What operators give of values.
ghost use Rattle.std.specs.Prelude.{◌≡◌};
ghost use Rattle.eden_value.specs.Datum.{number, text, list, data_of};
ghost use Rattle.eden_value.specs.View.{datum, datums};
ghost use Rattle.epl_syntax.specs.Operators as meaning;
ghost use Rattle.epl_values.specs.Comes.{Comes};

use crate::numbers::{negated, of_numbers};
use crate::stop::Stop;
use eden_value::{Listed, TEXT_LIMIT, Txt, Value, ValueRefusal, equal, texted};
use epl_syntax::{FaultCause, Operator, Prefix};

/// The list of these values, within its limits.
pub(crate) fn list_of(values: Vec<Value>) -> Result<Value, Stop>
    ensures { Comes datum result (meaning.list_of (datums values.items)) }
{
    match eden_value::list_of(values) {
        Ok(list) => Ok(list),
        Err(ValueRefusal::TooLong) => Err(Stop::Fault {
            cause: FaultCause::TooLong,
        }),
        Err(ValueRefusal::TooDeep) => Err(Stop::Fault {
            cause: FaultCause::TooDeep,
        }),
        Err(ValueRefusal::OutOfMemory) => Err(Stop::Memory),
        Err(ValueRefusal::BadByte) => unreachable!(),
    }
}

/// One text behind another.
fn joined_texts(a: Txt, b: &Txt) -> Result<Value, Stop>
    ensures { Comes datum result (meaning.joined (text a) (text b.now)) }
{
    if a.bytes.len() + b.bytes.len() > TEXT_LIMIT {
        return Err(Stop::Fault {
            cause: FaultCause::TooLong,
        });
    }
    let mut bytes = a.into_bytes()?;
    bytes.extend_from_slice(b.as_slice())?;
    let text = texted(bytes)?;
    Ok(Value::Text { text })
}

/// One list behind another.
#[tactic(auto, using(crate::proofs::Operands::listed, crate::proofs::Operands::append_datums))]
fn joined_lists(a: Listed, b: Listed) -> Result<Value, Stop>
    ensures { Comes datum result (meaning.joined (list (data_of a)) (list (data_of b))) }
{
    let mut behind = b.into_values()?;
    let mut values = a.into_values()?;
    values.append(&mut behind)?;
    list_of(values)
}

/// `&`: two texts or two lists.
pub(crate) fn joined(a: Value, b: Value) -> Result<Value, Stop>
    ensures { Comes datum result (meaning.joined (datum a) (datum b)) }
{
    match (a, b) {
        (Value::Text { text: a }, Value::Text { text: b }) => joined_texts(a, &b),
        (Value::List { items: a }, Value::List { items: b }) => joined_lists(a, b),
        _ => Err(Stop::Fault {
            cause: FaultCause::BadKind,
        }),
    }
}

/// An operator that takes two numbers.
fn between_numbers(operator: Operator, a: Value, b: Value) -> Result<Value, Stop>
    ensures { Comes datum result (meaning.numbers (datum a) (datum b) (meaning.of_numbers operator)) }
{
    match (a, b) {
        (Value::Int { n: a }, Value::Int { n: b }) => of_numbers(operator, a, b),
        _ => Err(Stop::Fault {
            cause: FaultCause::BadKind,
        }),
    }
}

/// An operator between two numbers.
pub(crate) fn of_integers(operator: Operator, a: i64, b: i64) -> Result<Value, Stop>
    ensures { Comes datum result (meaning.of_both operator (number a) (number b)) }
{
    match operator {
        Operator::Or | Operator::And => Ok(Value::Int { n: b }),
        Operator::Equal => Ok(Value::Bool { b: a == b }),
        Operator::Different => Ok(Value::Bool { b: a != b }),
        Operator::Join => Err(Stop::Fault {
            cause: FaultCause::BadKind,
        }),
        Operator::Less
        | Operator::LessEqual
        | Operator::Greater
        | Operator::GreaterEqual
        | Operator::Add
        | Operator::Subtract
        | Operator::Multiply
        | Operator::Divide
        | Operator::Modulo => of_numbers(operator, a, b),
    }
}

/// An operator between two values.
#[tactic(auto, using(crate::proofs::Operands::compared))]
pub(crate) fn of_both(operator: Operator, a: Value, b: Value) -> Result<Value, Stop>
    ensures { Comes datum result (meaning.of_both operator (datum a) (datum b)) }
{
    if let (Value::Int { n: a }, Value::Int { n: b }) = (&a, &b) {
        return of_integers(operator, *a, *b);
    }
    match operator {
        Operator::Or | Operator::And => Ok(b),
        Operator::Equal => Ok(Value::Bool { b: equal(&a, &b) }),
        Operator::Different => Ok(Value::Bool { b: !equal(&a, &b) }),
        Operator::Join => joined(a, b),
        Operator::Less
        | Operator::LessEqual
        | Operator::Greater
        | Operator::GreaterEqual
        | Operator::Add
        | Operator::Subtract
        | Operator::Multiply
        | Operator::Divide
        | Operator::Modulo => between_numbers(operator, a, b),
    }
}

/// `not` and the sign.
pub(crate) fn before_operand(prefix: Prefix, value: Value) -> Result<Value, Stop>
    ensures { Comes datum result (meaning.before_operand prefix (datum value)) }
{
    match (prefix, value) {
        (Prefix::Not, Value::Bool { b }) => Ok(Value::Bool { b: !b }),
        (Prefix::Negate, Value::Int { n }) => negated(n),
        _ => Err(Stop::Fault {
            cause: FaultCause::BadKind,
        }),
    }
}
