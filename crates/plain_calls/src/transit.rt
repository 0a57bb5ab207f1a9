//! The messages on their way, by the numbers of their calls in the order of sending.
ghost use Rattle.std.specs.Prelude.{◌≡◌, ◌==◌, ◌++◌, ◌∷◌, [], false, not, cond, OnOk};
ghost use Rattle.std.specs.List.{filter};
ghost use Rattle.eden_model.specs.Map.{first, is_none};
ghost use Rattle.plain_calls.specs.View.{call_of};
ghost use Rattle.plain_calls.specs.Changes.{hits_by, goes_by_call, goes_number, hits_number};

use crate::call::{Call, Place, item_at, station};
use crate::closing::Cause;
use eden_value::Status;
use std::alloc::AllocError;

/// Whether the call's message goes from station `a` to station `b`.
fn goes(call: &Call, a: u8, b: u8) -> bool
    ensures { result ≡ goes_by_call a b (call_of call.now) }
{
    let asker = station(&call.asker);
    let target = call.target.uid.node;
    match &call.place {
        Place::Asked => asker == a && target == b,
        Place::Held => false,
        Place::Answered { .. } => asker == b && target == a,
        Place::Done => false,
    }
}

/// Whether the message of the call of this number goes from station `a` to station `b`.
pub fn goes_at(calls: &[Call], number: u32, a: u8, b: u8) -> bool
    ensures { result ≡ goes_number a b calls.now number }
{
    match item_at(calls, number) {
        Some(call) => goes(call, a, b),
        None => false,
    }
}

/// Whether the cause closes the call of this number.
fn is_hit(calls: &[Call], number: u32, cause: Cause) -> bool
    ensures { result ≡ hits_number cause calls.now number }
{
    match item_at(calls, number) {
        Some(call) => cause.hits(call),
        None => false,
    }
}

/// The first message from station `a` to station `b`, if there is one.
pub fn first_between(calls: &[Call], transit: &[u32], a: u8, b: u8) -> Option<u32>
    ensures { result ≡ first (filter (goes_number a b calls.now) transit.now) }
{
    for number in transit {
        if goes_at(calls, *number, a, b) {
            return Some(*number);
        }
    }
    None
}

/// The message of the call of this number is sent, unless a status refuses it.
pub fn send_unless(
    transit: &mut Vec<u32>,
    number: u32,
    refused: Option<Status>,
) -> Result<(), AllocError>
    ensures { OnOk result (transit.new.items ≡ cond (is_none refused) (transit.old.items ++ number ∷ []) transit.old.items) }
{
    match refused {
        Some(_) => {}
        None => transit.push(number)?,
    }
    Ok(())
}

/// The message of the call of this number is no longer on its way.
pub fn let_go(transit: &mut Vec<u32>, number: u32)
    ensures { transit.new.items ≡ filter (λ k. not (k == number)) transit.old.items }
{
    transit.retain(|other| *other != number);
}

/// The messages of the calls that the cause closes are lost.
pub fn lose(calls: &[Call], transit: &mut Vec<u32>, cause: Cause)
    ensures { transit.new.items ≡ filter (λ k. not (hits_number cause calls.now k)) transit.old.items }
{
    transit.retain(|number| !is_hit(calls, *number, cause));
}
