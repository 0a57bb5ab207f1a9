//! Numbers at the front of bytes, the highest byte first.
ghost use Rattle.std.specs.Prelude.{◌≡◌, ◌+◌, ◌*◌, ◌^◌, ◌≤◌, ◌<◌, IfOk};
ghost use Rattle.grammar.specs.Gives.{Gives};
ghost use Rattle.grammar.specs.Numbers.{number_from, number_at};

use crate::stop::Stop;

/// A number of `width` more bytes that begins with `begun`.
fn number_more(
    bytes: &[u8],
    width: u32,
    least: u64,
    most: u64,
    begun: u64,
) -> Result<(u64, &[u8]), Stop>
    requires { (begun + 1) * 256 ^ width ≤ 2 ^ 64 }
    ensures { Gives (λ x. (x.0, x.1.now)) result (number_from least most width begun bytes.now) }
{
    if width == 0 {
        return Ok((begun, bytes));
    }
    let scale = 256u64.pow(width - 1);
    match bytes {
        [b, rest @ ..] => {
            let next = begun * 256 + u64::from(*b);
            if next <= most / scale && least / scale <= next {
                number_more(rest, width - 1, least, most, next)
            } else {
                Err(Stop::At { left: bytes.len() })
            }
        }
        [] => Err(Stop::At { left: 0 }),
    }
}

/// A number of `width` bytes, the highest first, from `least` to `most`, and the bytes behind it.
///
/// It stops at the first byte with which no such number goes on.
pub fn number_of(bytes: &[u8], width: u32, least: u64, most: u64) -> Result<(u64, &[u8]), Stop>
    requires width { width ≤ 8 }
    requires least { least < 256 ^ width }
    requires bounds { least ≤ most }
    ensures exact { Gives (λ x. (x.0, x.1.now)) result (number_at width least most bytes.now) }
    ensures within { IfOk result (λ x. (least ≤ x.0) × (x.0 ≤ most)) }
{
    number_more(bytes, width, least, most, 0)
}
