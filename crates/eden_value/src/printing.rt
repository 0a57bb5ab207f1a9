//! The text of values.
ghost use Rattle.std.specs.Prelude.{◌≡◌, ◌++◌, ◌<◌, OnOk, OnErr};
ghost use Rattle.std.specs.Fmt.{decimal, signed_decimal};
ghost use Rattle.eden_value.specs.View.{datum, datums};
ghost use Rattle.eden_value.specs.Printed as text;

use crate::value::Value;
use capability::{Cap, Uid};
use itoa::Buffer;
use std::alloc::{AllocError, Global};

fn add_int(n: i64, out: &mut Vec<u8>) -> Result<(), AllocError>
    ensures { OnOk result (out.new.items ≡ out.old.items ++ signed_decimal n) }
{
    let mut digits = Buffer::new();
    out.extend_from_slice(digits.format(n).as_bytes())
}

fn add_number(n: u32, out: &mut Vec<u8>) -> Result<(), AllocError>
    ensures { OnOk result (out.new.items ≡ out.old.items ++ decimal n) }
{
    let mut digits = Buffer::new();
    out.extend_from_slice(digits.format(n).as_bytes())
}

fn add_quoted(bytes: &[u8], out: &mut Vec<u8>) -> Result<(), AllocError>
    ensures { OnOk result (out.new.items ≡ out.old.items ++ text.quoted bytes.now) }
{
    for b in bytes {
        if *b == b'"' || *b == b'\\' {
            out.push(b'\\')?;
        }
        out.push(*b)?;
    }
    Ok(())
}

fn hex_digit(n: u16) -> u8
    requires { n < 16 }
    ensures { result ≡ text.hex_digit n }
{
    if n < 10 {
        b'0' + n as u8
    } else {
        b'a' - 10 + n as u8
    }
}

fn add_hex(n: u16, out: &mut Vec<u8>) -> Result<(), AllocError>
    ensures { OnOk result (out.new.items ≡ out.old.items ++ text.hex n) }
{
    let digits = [
        hex_digit(n / 4096),
        hex_digit(n / 256 % 16),
        hex_digit(n / 16 % 16),
        hex_digit(n % 16),
    ];
    out.extend_from_slice(&digits)
}

fn add_uid(uid: Uid, out: &mut Vec<u8>) -> Result<(), AllocError>
    ensures { OnOk result (out.new.items ≡ out.old.items ++ text.printed_uid uid) }
{
    add_number(u32::from(uid.node), out)?;
    out.push(b'.')?;
    add_number(uid.epoch, out)?;
    out.push(b'.')?;
    add_number(uid.serial, out)?;
    Ok(())
}

fn add_cap(cap: Option<Cap>, out: &mut Vec<u8>) -> Result<(), AllocError>
    ensures { OnOk result (out.new.items ≡ out.old.items ++ text.printed_cap cap) }
{
    let Some(cap) = cap else {
        return out.extend_from_slice(b"<none>");
    };
    out.push(b'<')?;
    add_uid(cap.uid, out)?;
    out.push(b':')?;
    add_hex(cap.rights.bits, out)?;
    out.push(b'>')?;
    Ok(())
}

#[cycle(print)]
fn add_value(value: &Value, out: &mut Vec<u8>) -> Result<(), AllocError>
    ensures { OnOk result (out.new.items ≡ out.old.items ++ text.printed (datum value.now)) }
{
    match value {
        Value::Int { n } => add_int(*n, out),
        Value::Bool { b } => out.extend_from_slice(if *b { b"true" } else { b"false" }),
        Value::Text { text } => {
            out.push(b'"')?;
            add_quoted(text.as_slice(), out)?;
            out.push(b'"')?;
            Ok(())
        }
        Value::Cap { cap } => add_cap(*cap, out),
        Value::List { items } => {
            out.push(b'[')?;
            add_row(items.values.as_slice(), out)?;
            out.push(b']')?;
            Ok(())
        }
    }
}

#[cycle(print)]
fn add_row(values: &[Value], out: &mut Vec<u8>) -> Result<(), AllocError>
    ensures { OnOk result (out.new.items ≡ out.old.items ++ text.printed_row (datums values.now)) }
{
    let mut first = true;
    for value in values {
        if !first {
            out.extend_from_slice(b", ")?;
        }
        first = false;
        add_value(value, out)?;
    }
    Ok(())
}

/// Appends the text of a value. Where memory runs out, `out` is as before.
///
/// An integer is printed in decimals, a truth value as `true` or `false`, a text in double quotes
/// with `\"` and `\\` in it, a capability as `<1.1.1:ffff>`, none as `<none>`, a list as `[a, b]`.
pub fn print(alloc: Global, value: &Value, out: &mut Vec<u8>) -> Result<(), AllocError>
    ensures ok { OnOk result (out.new.items ≡ out.old.items ++ text.printed (datum value.now)) }
    ensures err { OnErr result (out.new.items ≡ out.old.items) }
{
    let mut text = Vec::new(alloc);
    add_value(value, &mut text)?;
    out.extend_from_slice(&text)
}
