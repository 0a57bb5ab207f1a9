//! Bytes read as a representation.
ghost use Rattle.std.specs.Prelude.{◌≡◌, ◌↔◌, ◌<◌, ◌≤◌, ℕ, length, IfOk};
ghost use Rattle.grammar.specs.Gives.{Gives};
ghost use Rattle.grammar.specs.Reading.{whole};
ghost use Rattle.grammar.specs.FirstBad.{FirstBad};
ghost use Rattle.eden_codec.specs.Form.{IsRep};
ghost use Rattle.eden_codec.specs.Reading.{rep_at};
ghost use Rattle.eden_codec.specs.Spells.{SpellsRep};

use crate::rep::{Rep, name_of};
use crate::value::items_of;
use capability::BODY_LIMIT;
use grammar::{Stop, number_of};
use std::alloc::Global;

/// Why bytes were not read as a representation.
#[derive(Drop)]
pub enum DecodeRefusal {
    /// There are more than `BODY_LIMIT` bytes.
    TooLarge,
    /// They spell none. The place, counted from 0, is the first whose byte no spelling with the same
    /// bytes before it has, or the number of bytes where there is no such place.
    NotRep { place: u32 },
    OutOfMemory,
}

fn rep_of(alloc: Global, bytes: &[u8]) -> Result<(Rep, &[u8]), Stop>
    ensures { Gives (λ x. (x.0, x.1.now)) result (rep_at bytes.now) }
{
    let (_, rest) = number_of(bytes, 1, 1, 1)?;
    let (type_name, rest) = name_of(alloc, rest)?;
    let (version, rest) = number_of(rest, 2, 1, 0xFFFF)?;
    let (values, rest) = items_of(alloc, rest)?;
    let rep = Rep {
        type_name,
        version: version as u16,
        values,
    };
    Ok((rep, rest))
}

fn whole_rep(alloc: Global, bytes: &[u8]) -> Result<Rep, Stop>
    ensures { Gives (λ r. r) result (whole (rep_at bytes.now)) }
{
    let (rep, rest) = rep_of(alloc, bytes)?;
    if rest.is_empty() {
        Ok(rep)
    } else {
        Err(Stop::At { left: rest.len() })
    }
}

/// The representation that the bytes spell, all of them.
pub fn decode_rep(alloc: Global, bytes: &[u8]) -> Result<Rep, DecodeRefusal>
    ensures ok { IfOk result (λ rep. SpellsRep bytes.now rep) }
    ensures form { IfOk result IsRep }
    ensures too_large { (result ≡ Err DecodeRefusal.TooLarge) ↔ (BODY_LIMIT < length bytes.now) }
    ensures not_rep { (place : ℕ) → result ≡ Err (DecodeRefusal.NotRep place) → FirstBad SpellsRep bytes.now place }
{
    if bytes.len() > BODY_LIMIT as usize {
        return Err(DecodeRefusal::TooLarge);
    }
    match whole_rep(alloc, bytes) {
        Ok(rep) => Ok(rep),
        Err(Stop::Memory) => Err(DecodeRefusal::OutOfMemory),
        Err(Stop::At { left }) => Err(DecodeRefusal::NotRep {
            place: (bytes.len() - left) as u32,
        }),
    }
}
