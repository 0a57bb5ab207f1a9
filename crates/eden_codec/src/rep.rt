//! Representations, and their names.
ghost use Rattle.std.specs.Prelude.{◌≡◌};
ghost use Rattle.grammar.specs.Gives.{Gives};
ghost use Rattle.eden_codec.specs.Reading.{name_at};

use crate::field::{Alphabet, byte_of};
use crate::value::bytes_of;
use eden_value::{Items, Txt, texted};
use grammar::{Stop, number_of};
use std::alloc::Global;

/// What is kept of an Eject: its type's name and version, and its durable values.
///
/// A name has 1 to 32 bytes: a capital letter, then letters, digits and `_`. Versions begin at 1. There
/// are at most 64 values.
#[derive(Drop)]
pub struct Rep {
    pub type_name: Txt,
    pub version: u16,
    pub values: Items,
}

pub fn name_of(alloc: Global, bytes: &[u8]) -> Result<(Txt, &[u8]), Stop>
    ensures { Gives (λ x. (x.0, x.1.now)) result (name_at bytes.now) }
{
    let (count, rest) = number_of(bytes, 1, 1, 32)?;
    let (first, rest) = byte_of(Alphabet::Upper, rest)?;
    let (mut bytes, rest) = bytes_of(alloc, Alphabet::Name, count - 1, rest)?;
    bytes.insert(0, first)?;
    Ok((texted(bytes)?, rest))
}
