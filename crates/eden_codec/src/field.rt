//! Bytes at the front of bytes.
ghost use Rattle.std.specs.Prelude.{◌≡◌};
ghost use Rattle.grammar.specs.Gives.{Gives};
ghost use Rattle.grammar.specs.Reading.{one_of};
ghost use Rattle.eden_codec.specs.Alphabet.{in_alphabet};
ghost use Rattle.eden_codec.specs.Reading.{truth_at};

use eden_value::{is_name_byte, is_printable};
use grammar::Stop;

/// Which bytes may stand at a place.
#[derive(Clone, Copy)]
pub enum Alphabet {
    Printable,
    Upper,
    Name,
}

fn is_in(alphabet: Alphabet, b: u8) -> bool
    ensures { result ≡ in_alphabet alphabet b }
{
    match alphabet {
        Alphabet::Printable => is_printable(b),
        Alphabet::Upper => b.is_ascii_uppercase(),
        Alphabet::Name => is_name_byte(b),
    }
}

pub fn byte_of(alphabet: Alphabet, bytes: &[u8]) -> Result<(u8, &[u8]), Stop>
    ensures { Gives (λ x. (x.0, x.1.now)) result (one_of (in_alphabet alphabet) bytes.now) }
{
    match bytes {
        [b, rest @ ..] if is_in(alphabet, *b) => Ok((*b, rest)),
        _ => Err(Stop::At { left: bytes.len() }),
    }
}

pub fn truth_of(bytes: &[u8]) -> Result<(bool, &[u8]), Stop>
    ensures { Gives (λ x. (x.0, x.1.now)) result (truth_at bytes.now) }
{
    match bytes {
        [0, rest @ ..] => Ok((false, rest)),
        [1, rest @ ..] => Ok((true, rest)),
        _ => Err(Stop::At { left: bytes.len() }),
    }
}
