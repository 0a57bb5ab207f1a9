//! Reading a command from left to right, up to where it has not its form.

use crate::form::{Form, Piece, pieces_of};
use crate::values::values;
use eden_value::is_name_byte;
use std::alloc::{AllocError, AllocFailed, Global};

/// What a word of a command is.
#[derive(Clone, Copy)]
pub enum Role {
    /// A number with these bounds.
    Number { low: u64, high: u64 },
    /// A name that a line before has to introduce.
    Used,
}

/// A word of a command, and how many bytes of the line begin with it.
#[derive(Clone, Copy)]
pub struct Spot<'a> {
    pub role: Role,
    pub word: &'a [u8],
    pub left: usize,
}

/// Why reading stops.
#[derive(Drop)]
pub enum Halt {
    /// The line has not its form where so many bytes are left.
    At { left: usize },
    /// No memory was left.
    Memory,
}

impl From<AllocError> for Halt {
    ghost use Rattle.std.specs.Prelude.{◌≡◌};
    ghost use Rattle.mistakes.specs.declared.pieces.Halt.TheVariants.{Memory};

    ghost from_gives = { λ _ e. e ≡ Memory };

    fn from(_: AllocError) -> Halt {
        Halt::Memory
    }
}

impl<T: Drop> From<AllocFailed<T>> for Halt {
    ghost use Rattle.std.specs.Prelude.{◌≡◌};
    ghost use Rattle.mistakes.specs.declared.pieces.Halt.TheVariants.{Memory};

    ghost from_gives = { λ _ e. e ≡ Memory };

    fn from(_: AllocFailed<T>) -> Halt {
        Halt::Memory
    }
}

/// What is left behind a piece, or where it stops.
pub type Left<'a> = Result<&'a [u8], Halt>;

/// Here the line has not its form.
pub fn stop(bytes: &[u8]) -> Halt {
    Halt::At { left: bytes.len() }
}

/// What is behind these bytes, which have to stand here.
pub fn behind<'a>(word: &[u8], bytes: &'a [u8]) -> Left<'a> {
    if bytes.starts_with(word) {
        Ok(&bytes[word.len().min(bytes.len())..])
    } else {
        Err(stop(bytes))
    }
}

fn is_letter(small: bool, b: u8) -> bool {
    if small {
        b.is_ascii_lowercase()
    } else {
        b.is_ascii_uppercase()
    }
}

/// Whether a small or a capital letter stands in front.
fn begins_so(small: bool, bytes: &[u8]) -> bool {
    match bytes.first() {
        Some(b) => is_letter(small, *b),
        None => false,
    }
}

/// Whether a word is a name with such a letter in front.
fn is_name(small: bool, word: &[u8]) -> bool {
    begins_so(small, word) && word.len() <= 32
}

/// A name, of which the first letter is as asked for.
pub fn name<'a>(small: bool, bytes: &'a [u8]) -> Result<(&'a [u8], &'a [u8]), Halt> {
    let n = bytes.iter().take_while(|b| is_name_byte(**b)).count();
    let word = &bytes[..n];
    if is_name(small, word) {
        Ok((word, &bytes[n..]))
    } else {
        Err(stop(bytes))
    }
}

/// Digits, at least one, that stand for a number within its bounds.
pub fn number<'a>(low: u64, high: u64, bytes: &'a [u8], spots: &mut Vec<Spot<'a>>) -> Left<'a> {
    let n = bytes.iter().take_while(|b| b.is_ascii_digit()).count();
    if n == 0 {
        return Err(stop(bytes));
    }
    spots.push(Spot {
        role: Role::Number { low, high },
        word: &bytes[..n],
        left: bytes.len(),
    })?;
    Ok(&bytes[n..])
}

/// NAME, or NAME.K.
pub fn reference<'a>(bytes: &'a [u8], spots: &mut Vec<Spot<'a>>) -> Left<'a> {
    let (word, rest) = name(true, bytes)?;
    spots.push(Spot {
        role: Role::Used,
        word,
        left: bytes.len(),
    })?;
    match rest {
        [b'.', digit, ..] if digit.is_ascii_digit() => number(1, 8, &rest[1..], spots),
        _ => Ok(rest),
    }
}

/// What is behind a text, of which so many bytes are left with its last quote.
fn behind_text(count: usize, bytes: &[u8], left: usize) -> Left<'_> {
    if count <= 1024 {
        Ok(&bytes[bytes.len() - left.min(bytes.len())..])
    } else {
        Err(stop(bytes))
    }
}

/// A text in quotes.
pub fn quoted(bytes: &[u8]) -> Left<'_> {
    let rest = behind(b"\"", bytes)?;
    let mut escaped = false;
    let mut count = 0usize;
    for (i, b) in rest.iter().enumerate() {
        if escaped {
            if *b != b'"' && *b != b'\\' {
                return Err(Halt::At {
                    left: rest.len() - i + 1,
                });
            }
            escaped = false;
            count = count.saturating_add(1);
        } else if *b == b'"' {
            return behind_text(count, bytes, rest.len() - i - 1);
        } else if *b == b'\\' {
            escaped = true;
        } else {
            count = count.saturating_add(1);
        }
    }
    Err(Halt::At {
        left: usize::from(escaped),
    })
}

/// A mode, with the blank before it.
fn mode<'a>(bytes: &'a [u8], spots: &mut Vec<Spot<'a>>) -> Left<'a> {
    if let Ok(rest) = behind(b" keep", bytes) {
        return Ok(rest);
    }
    if let Ok(rest) = behind(b" lose", bytes) {
        return Ok(rest);
    }
    let rest = behind(b" ", bytes)?;
    let rest = behind(b"garble ", rest)?;
    number(0, 255, rest, spots)
}

/// What is left behind a piece.
fn piece<'a>(piece: Piece, nodes: u64, bytes: &'a [u8], spots: &mut Vec<Spot<'a>>) -> Left<'a> {
    match piece {
        Piece::Byte { b } => behind(&[b], bytes),
        Piece::NewName => match name(true, bytes) {
            Ok((_, rest)) => Ok(rest),
            Err(halt) => Err(halt),
        },
        Piece::Upper => match name(false, bytes) {
            Ok((_, rest)) => Ok(rest),
            Err(halt) => Err(halt),
        },
        Piece::Reference => reference(bytes, spots),
        Piece::Number { low, high } => number(low, high, bytes, spots),
        Piece::Node => number(1, nodes, bytes, spots),
        Piece::Station => number(0, nodes, bytes, spots),
        Piece::Values => values(bytes, spots),
        Piece::Text => quoted(bytes),
        Piece::CrashMode if bytes.is_empty() => Ok(bytes),
        Piece::Mode | Piece::CrashMode => mode(bytes, spots),
    }
}

/// A command as far as it has its form: its numbers and names, and how many bytes are left where it stops, if it does.
#[derive(Drop)]
pub struct Read<'a> {
    pub spots: Vec<Spot<'a>>,
    pub stops: Option<usize>,
}

/// Reads what stands behind the word of a command, where there are so many nodes.
pub fn read_form<'a>(
    alloc: Global,
    form: Form,
    nodes: u64,
    bytes: &'a [u8],
) -> Result<Read<'a>, AllocError> {
    let mut spots = Vec::new(alloc);
    let mut rest = bytes;
    for one in pieces_of(form) {
        match piece(*one, nodes, rest, &mut spots) {
            Ok(behind) => rest = behind,
            Err(Halt::At { left }) => {
                return Ok(Read {
                    spots,
                    stops: Some(left),
                });
            }
            Err(Halt::Memory) => return Err(AllocError),
        }
    }
    let stops = if rest.is_empty() {
        None
    } else {
        Some(rest.len())
    };
    Ok(Read { spots, stops })
}
