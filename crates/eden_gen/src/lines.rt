//! The lines of a script.
ghost use Rattle.std.specs.Prelude.{◌≡◌, ◌<◌, ◌≤◌, ◌+◌, ◌++◌, codes, length, OnOk};
ghost use Rattle.std.specs.Fmt.{decimal};
ghost use Rattle.eden_gen.specs.Generated.{call_text, crash_text, create_text, node_of, set_text};

use itoa::Buffer;
use std::alloc::AllocError;

fn add_number(n: u64, out: &mut Vec<u8>) -> Result<(), AllocError>
    ensures text { OnOk result (out.new.items ≡ out.old.items ++ decimal n) }
    ensures short { OnOk result (length out.new.items ≤ length out.old.items + 20) }
{
    let mut digits = Buffer::new();
    out.extend_from_slice(digits.format(n).as_bytes())
}

// The node of a Cell.
pub fn node_of(cell: u64) -> u64
    requires { 0 < cell }
    ensures { result ≡ node_of cell }
{
    (cell - 1) % 3 + 1
}

// `create c4 1 Cell`
pub fn add_creation(cell: u64, out: &mut Vec<u8>) -> Result<(), AllocError>
    requires { 0 < cell }
    ensures text { OnOk result (out.new.items ≡ out.old.items ++ create_text cell) }
    ensures short { OnOk result (length out.new.items ≤ length out.old.items + 60) }
{
    out.extend_from_slice(b"create c")?;
    add_number(cell, out)?;
    out.push(b' ')?;
    add_number(node_of(cell), out)?;
    out.extend_from_slice(b" Cell\n")
}

// `call q7 c4.Get()`
pub fn add_call(round: u64, cell: u64, operation: &str, out: &mut Vec<u8>) -> Result<(), AllocError>
    ensures text { OnOk result (out.new.items ≡ out.old.items ++ call_text round cell operation.now) }
    ensures short { OnOk result (length out.new.items ≤ length out.old.items + (100 + length operation.now)) }
{
    out.extend_from_slice(b"call q")?;
    add_number(round, out)?;
    out.extend_from_slice(b" c")?;
    add_number(cell, out)?;
    out.push(b'.')?;
    out.extend_from_slice(operation.as_bytes())?;
    out.push(b'\n')?;
    Ok(())
}

// `call q7 c4.Set(5)`
pub fn add_set(round: u64, cell: u64, value: u64, out: &mut Vec<u8>) -> Result<(), AllocError>
    ensures text { OnOk result (out.new.items ≡ out.old.items ++ call_text round cell (set_text value)) }
    ensures short { OnOk result (length out.new.items ≤ length out.old.items + 100) }
{
    out.extend_from_slice(b"call q")?;
    add_number(round, out)?;
    out.extend_from_slice(b" c")?;
    add_number(cell, out)?;
    out.extend_from_slice(b".Set(")?;
    add_number(value, out)?;
    out.extend_from_slice(b")\n")
}

// `crash 1` and `restart 1`
pub fn add_crash(node: u64, out: &mut Vec<u8>) -> Result<(), AllocError>
    ensures text { OnOk result (out.new.items ≡ out.old.items ++ crash_text node) }
    ensures short { OnOk result (length out.new.items ≤ length out.old.items + 100) }
{
    out.extend_from_slice(b"crash ")?;
    add_number(node, out)?;
    out.extend_from_slice(b"\nrestart ")?;
    add_number(node, out)?;
    out.push(b'\n')?;
    Ok(())
}
