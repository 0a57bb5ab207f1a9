//! The values of a call, as far as they have their form.

use crate::pieces::{Halt, Left, Spot, behind, name, number, quoted, reference, stop};

/// The greatest depth of lists.
const DEPTH_LIMIT: usize = 4;

/// The most items of a list.
const ITEM_LIMIT: u32 = 256;

/// A word of values alone, which is no name.
fn constant(bytes: &[u8]) -> Left<'_> {
    let (word, rest) = name(true, bytes)?;
    let is_word = word == b"true".as_slice()
        || word == b"false".as_slice()
        || word == b"none".as_slice();
    let is_alone = match rest {
        [b'.', digit, ..] => !digit.is_ascii_digit(),
        _ => true,
    };
    if is_word && is_alone {
        Ok(rest)
    } else {
        Err(stop(bytes))
    }
}

/// A value that is no list.
fn flat<'a>(bytes: &'a [u8], spots: &mut Vec<Spot<'a>>) -> Left<'a> {
    match bytes {
        [b'"', ..] => quoted(bytes),
        [b'-', rest @ ..] => number(0, 9_223_372_036_854_775_808, rest, spots),
        [b, ..] if b.is_ascii_digit() => number(0, 9_223_372_036_854_775_807, bytes, spots),
        _ => match constant(bytes) {
            Ok(rest) => Ok(rest),
            Err(_) => reference(bytes, spots),
        },
    }
}

/// How many items stand so far in each list that is open.
#[derive(Drop)]
struct Open {
    counts: [u32; 4],
    depth: usize,
}

impl Open {
    /// One item more in the innermost list. It is no list's item in the call itself.
    fn counts_one(&mut self) -> bool {
        match self.depth.checked_sub(1) {
            Some(inner) => match self.counts.get_mut(inner) {
                Some(count) => {
                    *count = count.saturating_add(1);
                    *count <= ITEM_LIMIT
                }
                None => false,
            },
            None => true,
        }
    }

    /// Opens a list.
    fn opens(&mut self) -> bool {
        match self.counts.get_mut(self.depth) {
            Some(count) => {
                *count = 0;
                self.depth = self.depth.saturating_add(1);
                true
            }
            None => false,
        }
    }
}

/// What is left behind a value or the beginning of a list, and whether the list is empty or the value whole.
fn one<'a>(
    open: &mut Open,
    bytes: &'a [u8],
    spots: &mut Vec<Spot<'a>>,
) -> Result<(bool, &'a [u8]), Halt> {
    if !open.counts_one() {
        return Err(stop(bytes));
    }
    match bytes {
        [b'[', rest @ ..] => {
            if open.opens() {
                Ok((rest.starts_with(b"]"), rest))
            } else {
                Err(stop(bytes))
            }
        }
        _ => match flat(bytes, spots) {
            Ok(rest) => Ok((true, rest)),
            Err(halt) => Err(halt),
        },
    }
}

/// What is left behind the ends of lists.
fn closed<'a>(open: &mut Open, bytes: &'a [u8]) -> &'a [u8] {
    for (i, b) in bytes.iter().enumerate() {
        if *b != b']' || open.depth == 0 {
            return &bytes[i..];
        }
        open.depth = open.depth.saturating_sub(1);
    }
    &bytes[bytes.len()..]
}

/// What is left behind the beginning of a list, behind a value with its comma, or behind all with their parenthesis; and whether it is all.
fn step<'a>(
    open: &mut Open,
    bytes: &'a [u8],
    spots: &mut Vec<Spot<'a>>,
) -> Result<(bool, &'a [u8]), Halt> {
    let (whole, rest) = one(open, bytes, spots)?;
    if !whole {
        return Ok((false, rest));
    }
    let rest = closed(open, rest);
    match rest {
        [b')', more @ ..] if open.depth == 0 => return Ok((true, more)),
        _ => {}
    }
    match behind(b", ", rest) {
        Ok(more) => Ok((false, more)),
        Err(halt) => Err(halt),
    }
}

/// Values with commas, and the parenthesis behind them.
pub fn values<'a>(bytes: &'a [u8], spots: &mut Vec<Spot<'a>>) -> Left<'a> {
    match bytes {
        [b')', more @ ..] => return Ok(more),
        _ => {}
    }
    let mut open = Open {
        counts: [0; 4],
        depth: 0,
    };
    let mut rest = bytes;
    for _ in 0..bytes.len() {
        let (whole, more) = step(&mut open, rest, spots)?;
        if whole {
            return Ok(more);
        }
        rest = more;
    }
    Err(stop(rest))
}
