//! Numbers at their places.

ghost use Rattle.std.specs.Prelude.{◌≡◌, ◌≤◌, ◌<◌, ◌==◌, length, map, not, IfOk, true};
ghost use Rattle.std.specs.List.{list_all, list_any};
ghost use Rattle.script_words.specs.Form as digit;
ghost use Rattle.script_words.specs.View.{Gives};
ghost use Rattle.line_forms.specs.Reading as reading;
ghost use Rattle.line_forms.specs.Spelling as spelling;
ghost use Rattle.line_forms.specs.Tests as tests;
ghost use Rattle.line_forms.specs.Words.{nows, AllDigits, numbers_of};

use crate::form::{Bound, Mark, Place};
use script_words::{Fault, Piece, ScriptCause, digits, same_number, within, word};
use std::alloc::Global;

fn mark_word(mark: Mark) -> &'static [u8]
    ensures { result.now ≡ spelling.mark_word mark }
{
    match mark {
        Mark::Blank => b" ",
        Mark::Point => b".",
    }
}

/// The digits at a place, and what stands behind them.
fn read_place(place: Place, bytes: &[u8]) -> Result<Piece<'_>, Fault>
    ensures read { Gives (λ x. (x.0.now, x.1.now)) result (reading.read_place place bytes.now) }
    ensures digits { IfOk result (λ x. list_all digit.is_digit x.0.now ≡ true) }
{
    let rest = word(bytes, mark_word(place.mark))?;
    match digits(rest) {
        Ok(found) => Ok(found),
        Err(fault) => Err(fault),
    }
}

/// The digits at each place, and what stands behind the last.
pub fn read_places<'a>(
    alloc: Global,
    places: &[Place],
    bytes: &'a [u8],
) -> Result<(Vec<&'a [u8]>, &'a [u8]), Fault>
    ensures read { Gives (λ x. (nows x.0.items, x.1.now)) result (reading.read_places places.now bytes.now) }
    ensures digits { IfOk result (λ x. AllDigits x.0.items) }
    ensures length { IfOk result (λ x. length x.0.items ≡ length places.now) }
{
    let mut words = Vec::new(alloc);
    let mut rest = bytes;
    for place in places {
        let (number, behind) = read_place(*place, rest)?;
        words.push(number)?;
        rest = behind;
    }
    Ok((words, rest))
}

fn is_station(bound: Bound) -> bool
    ensures { result ≡ spelling.is_station bound }
{
    match bound {
        Bound::Station => true,
        _ => false,
    }
}

/// Whether no station among these has the number of a word.
fn is_new(number: &[u8], places: &[Place], words: &[&[u8]]) -> bool
    requires digits { list_all digit.is_digit number.now ≡ true }
    requires words { AllDigits words.now }
    ensures { result ≡ not (list_any (λ m. digit.number_of number.now == m) (spelling.stations places.now (numbers_of words.now))) }
{
    let Some((place, places)) = places.split_first() else {
        return true;
    };
    let Some((other, words)) = words.split_first() else {
        return true;
    };
    if is_station(place.high) && same_number(number, other) {
        return false;
    }
    is_new(number, places, words)
}

/// Whether the stations among some words differ.
fn stations_differ(places: &[Place], words: &[&[u8]]) -> bool
    requires words { AllDigits words.now }
    ensures { result ≡ spelling.all_differ (spelling.stations places.now (numbers_of words.now)) }
{
    let Some((place, places)) = places.split_first() else {
        return true;
    };
    let Some((number, words)) = words.split_first() else {
        return true;
    };
    if is_station(place.high) && !is_new(number, places, words) {
        return false;
    }
    stations_differ(places, words)
}

/// Refuses a line two of whose stations have one number.
pub fn apart(places: &[Place], words: &[&[u8]]) -> Result<(), Fault>
    requires words { AllDigits words.now }
    ensures { Gives (λ x. x) result (reading.apart places.now (nows words.now)) }
{
    if stations_differ(places, words) {
        Ok(())
    } else {
        Err(Fault::Bad {
            cause: ScriptCause::BadForm,
        })
    }
}

fn top(most: u32, high: Bound) -> u32
    ensures { result ≡ tests.top most high }
{
    match high {
        Bound::UpTo { most } => most,
        Bound::Node => most,
        Bound::Station => most,
    }
}

/// The numbers of some words, each in the range of its place, where the first line has the number `most`.
pub fn ranged(
    alloc: Global,
    most: u32,
    places: &[Place],
    words: &[&[u8]],
) -> Result<Vec<u32>, Fault>
    requires { length words.now ≡ length places.now }
    ensures { Gives (λ v. v.items) result (reading.ranged most places.now (nows words.now)) }
{
    let mut numbers = Vec::with_capacity(alloc, places.len())?;
    for (i, place) in places.iter().enumerate() {
        let high = top(most, place.high);
        let number = within(place.low as u64, high as u64, words[i])?;
        numbers.push(number as u32)?;
    }
    Ok(numbers)
}
