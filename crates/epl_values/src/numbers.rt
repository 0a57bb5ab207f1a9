//! Operators between numbers.
ghost use Rattle.std.specs.Prelude.{◌≡◌, ◌+ℤ◌, ◌-ℤ◌, ◌*ℤ◌, neg_ℤ, int_div, int_rem};
ghost use Rattle.eden_value.specs.View.{datum};
ghost use Rattle.epl_syntax.specs.Operators as meaning;
ghost use Rattle.epl_values.specs.Comes.{Comes};

use crate::stop::Stop;
use eden_value::Value;
use epl_syntax::{FaultCause, Operator};

fn sum(a: i64, b: i64) -> Result<Value, Stop>
    ensures { Comes datum result (meaning.in_64_bits (a +ℤ b)) }
{
    match a.checked_add(b) {
        Some(n) => Ok(Value::Int { n }),
        None => Err(Stop::Fault {
            cause: FaultCause::Overflow,
        }),
    }
}

fn difference(a: i64, b: i64) -> Result<Value, Stop>
    ensures { Comes datum result (meaning.in_64_bits (a -ℤ b)) }
{
    match a.checked_sub(b) {
        Some(n) => Ok(Value::Int { n }),
        None => Err(Stop::Fault {
            cause: FaultCause::Overflow,
        }),
    }
}

fn product(a: i64, b: i64) -> Result<Value, Stop>
    ensures { Comes datum result (meaning.in_64_bits (a *ℤ b)) }
{
    match a.checked_mul(b) {
        Some(n) => Ok(Value::Int { n }),
        None => Err(Stop::Fault {
            cause: FaultCause::Overflow,
        }),
    }
}

/// A number with the other sign.
pub(crate) fn negated(n: i64) -> Result<Value, Stop>
    ensures { Comes datum result (meaning.in_64_bits (neg_ℤ n)) }
{
    match n.checked_neg() {
        Some(n) => Ok(Value::Int { n }),
        None => Err(Stop::Fault {
            cause: FaultCause::Overflow,
        }),
    }
}

fn quotient(a: i64, b: i64) -> Result<Value, Stop>
    ensures { Comes datum result (meaning.divided int_div a b) }
{
    if b == 0 {
        return Err(Stop::Fault {
            cause: FaultCause::ZeroDivisor,
        });
    }
    match a.checked_div(b) {
        Some(n) => Ok(Value::Int { n }),
        None => Err(Stop::Fault {
            cause: FaultCause::Overflow,
        }),
    }
}

fn remainder(a: i64, b: i64) -> Result<Value, Stop>
    ensures { Comes datum result (meaning.divided int_rem a b) }
{
    if b == 0 {
        return Err(Stop::Fault {
            cause: FaultCause::ZeroDivisor,
        });
    }
    if b == -1 {
        return Ok(Value::Int { n: 0 });
    }
    Ok(Value::Int { n: a % b })
}

/// What an operator gives of two numbers.
pub(crate) fn of_numbers(operator: Operator, a: i64, b: i64) -> Result<Value, Stop>
    ensures { Comes datum result (meaning.of_numbers operator a b) }
{
    match operator {
        Operator::Less => Ok(Value::Bool { b: a < b }),
        Operator::LessEqual => Ok(Value::Bool { b: a <= b }),
        Operator::Greater => Ok(Value::Bool { b: b < a }),
        Operator::GreaterEqual => Ok(Value::Bool { b: b <= a }),
        Operator::Add => sum(a, b),
        Operator::Subtract => difference(a, b),
        Operator::Multiply => product(a, b),
        Operator::Divide => quotient(a, b),
        Operator::Modulo => remainder(a, b),
        Operator::Or | Operator::And | Operator::Equal | Operator::Different | Operator::Join =>
            Err(Stop::Fault {
                cause: FaultCause::BadKind,
            }),
    }
}
