//! The lines of a script of a wire.

ghost use Rattle.std.specs.Prelude.{◌≡◌, ◌++◌, ◌≤◌, ◌<◌, ◌+◌, codes, length, OnOk};
ghost use Rattle.std.specs.Fmt.{decimal};
ghost use Rattle.eden_value.specs.View.{datum};
ghost use Rattle.lossy_wire.specs.Texts as texts;

use eden_value::{Value, print};
use itoa::Buffer;
use std::alloc::{AllocError, Global};

fn add_number(n: u64, out: &mut Vec<u8>) -> Result<(), AllocError>
    ensures { OnOk result (out.new.items ≡ out.old.items ++ decimal n) }
{
    let mut digits = Buffer::new();
    out.extend_from_slice(digits.format(n).as_bytes())
}

/// `B from A V`
pub fn add_delivery(
    alloc: Global,
    a: u8,
    b: u8,
    value: &Value,
    out: &mut Vec<u8>,
) -> Result<(), AllocError>
    ensures { OnOk result (out.new.items ≡ out.old.items ++ texts.delivery a b (datum value.now)) }
{
    add_number(b as u64, out)?;
    out.extend_from_slice(b" from ")?;
    add_number(a as u64, out)?;
    out.extend_from_slice(b" ")?;
    print(alloc, value, out)?;
    out.extend_from_slice(b"\n")
}

/// `A B sent S`
fn add_front(a: usize, b: usize, sent: u32, out: &mut Vec<u8>) -> Result<(), AllocError>
    ensures { OnOk result (out.new.items ≡ out.old.items ++ texts.sum_front a b sent) }
{
    add_number(a as u64, out)?;
    out.extend_from_slice(b" ")?;
    add_number(b as u64, out)?;
    out.extend_from_slice(b" sent ")?;
    add_number(sent as u64, out)
}

/// ` known K delivered D`
fn add_back(known: u32, delivered: u32, out: &mut Vec<u8>) -> Result<(), AllocError>
    ensures { OnOk result (out.new.items ≡ out.old.items ++ texts.sum_back known delivered) }
{
    out.extend_from_slice(b" known ")?;
    add_number(known as u64, out)?;
    out.extend_from_slice(b" delivered ")?;
    add_number(delivered as u64, out)?;
    out.extend_from_slice(b"\n")
}

/// The last line of the pair at a place, if something was sent.
pub fn add_sum(
    place: usize,
    sent: u32,
    known: u32,
    delivered: u32,
    out: &mut Vec<u8>,
) -> Result<(), AllocError>
    requires { place < 64 }
    ensures { OnOk result (out.new.items ≡ out.old.items ++ texts.sum_line place sent known delivered) }
{
    if sent > 0 {
        add_front(place / 8 + 1, place % 8 + 1, sent, out)?;
        add_back(known, delivered, out)?;
    }
    Ok(())
}
