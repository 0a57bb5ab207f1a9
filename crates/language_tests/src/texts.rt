//! Texts of types: the examples of the manual, texts of many parts, and how a text is read.
ghost use Rattle.std.specs.Prelude.{◌≡◌, true};
ghost use Rattle.epl_parser.specs.Program.{TypeIs};
ghost use Rattle.epl_syntax.specs.Bindings.{is_resolved};
ghost use Rattle.epl_syntax.specs.Rules.OfTypes.{HasMonitors};

use epl_check::resolve;
use epl_parser::{conditions_are_in_monitors, parse_edentype};
use epl_syntax::{ParseRefusal, Program};
use std::alloc::Global;
use std::process::Abort;

pub(crate) const GATE: &[u8] = b"edentype Gate class pass limit 2 class one limit 1 \
        monitor M working free : bool = false condition c end \
        operation Pass needs 1 class pass () returns (int) var r : int = 0 with M do while not free do \
        wait c end r := 1 end return (r) end \
        operation Open needs 2 class one () returns () with M do free := true signal c end return () end \
        endtype";

pub(crate) const PEER: &[u8] = b"edentype Peer class all limit 1 \
        operation Poke needs 1 class all (other : cap, back : cap) returns (int) var s : int = 0 \
        var r : int = 0 invoke other.Poke(back, other) status s gives (r) return (s) end endtype";

pub(crate) const MAILBOX: &[u8] =
    b"edentype Mailbox durable box : list of text = list(text) class all limit 1 \
        operation Deliver needs 1 class all (m : text) returns (int) var s : int = 0 box := box & [m] \
        checkpoint s return (s) end \
        operation Read needs 2 class all () returns (list of text) return (box) end endtype";

pub(crate) const HALF: &[u8] =
    b"edentype Half class all limit 1 operation Part needs 1 class all (n : int) returns (int) return (10 / n) end endtype";

pub(crate) const SPIN: &[u8] = b"edentype Spin class all limit 1 \
        operation Run needs 1 class all (n : int) returns (int) var i : int = 0 while i < n do i := i + 1 \
        end return (i) end endtype";

pub(crate) const HOARD: &[u8] =
    b"edentype Hoard durable l : list of text = list(text) durable s : text = \"\" class all limit 1 \
        operation Fill needs 1 class all (n : int, m : int) returns (int) var t : text = \"x\" \
        var c : int = 0 while size(t) < 1024 do t := t & t end while size(l) < n do l := l & [t] end \
        s := part(t, 0, m) checkpoint c return (c) end \
        operation Show needs 2 class all () returns (list of text, text) return (l, s) end endtype";

pub(crate) const ONCE: &[u8] = b"edentype Once class all limit 2 monitor M working n : int = 0 end \
        operation Read needs 1 class all () returns (int) var r : int = 0 with M do r := n end return (r) \
        end process P with M do n := 7 end end endtype";

pub(crate) const BOXED: &[u8] = b"edentype Box durable held : cap = none class all limit 1 \
        operation Keep needs 1 class all (c : cap) returns (int) var s : int = 0 held := restrict(c, 65535) \
        checkpoint s return (s) end \
        operation Fetch needs 2 class all () returns (cap) return (held) end endtype";

pub(crate) const TALLY: &[u8] = b"edentype Tally durable n : int = 0 class all limit 1 \
        operation Add needs 1 class all (k : int) returns (int) var s : int = 0 n := n + k checkpoint s \
        return (s) end endtype";

pub(crate) const TALLY_2: &[u8] =
    b"edentype Tally version 2 durable n : int = 0 durable twice : int = 0 class all limit 1 \
        operation Both needs 1 class all () returns (int, int) return (n, twice) end \
        upgrade from 1 (old : int) n := old twice := old * 2 end endtype";

/// The type of a text that is not too long for a test, or why it is refused.
pub(crate) fn parsed(alloc: Global, text: &[u8]) -> Result<Program, ParseRefusal>
    ensures { TypeIs text.now result }
{
    if text.len() > 2_000_000 {
        return Err(ParseRefusal::OutOfMemory);
    }
    parse_edentype(alloc, text)
}

/// The type of a text that is one.
pub(crate) fn type_of(rt: &impl Abort, alloc: Global, text: &[u8]) -> Box<Program>
    ensures { HasMonitors result.value }
{
    conditions_are_in_monitors();
    let program = parsed(alloc, text).expect(rt, "a type");
    Box::new(alloc, program).expect(rt, "memory")
}

/// The type of a text that is one, with its names resolved.
pub(crate) fn resolved(rt: &impl Abort, alloc: Global, text: &[u8]) -> Box<Program>
    ensures monitors { HasMonitors result.value }
    ensures resolved { is_resolved result.value ≡ true }
{
    let mut program = type_of(rt, alloc, text);
    resolve(alloc, &mut program, text.len()).expect(rt, "memory");
    program
}

/// A part of a text: what stands before each of its copies but number 0, the copy, in which `#`
/// stands for its number, the first number, and the one past the last.
pub(crate) type Part<'a> = (&'a [u8], &'a [u8], u32, u32);

/// A part that stands once.
pub(crate) fn once(text: &[u8]) -> Part<'_> {
    (b"", text, 0, 1)
}

/// Puts these bytes behind a text.
pub(crate) fn append(rt: &impl Abort, text: &mut Vec<u8>, bytes: &[u8]) {
    text.extend_from_slice(bytes).expect(rt, "memory");
}

/// Puts a copy with its number behind a text.
fn append_numbered(rt: &impl Abort, alloc: Global, text: &mut Vec<u8>, copy: &[u8], number: u32) {
    let digits = number.to_string(alloc).expect(rt, "memory");
    for byte in copy {
        if *byte == b'#' {
            append(rt, text, digits.as_bytes());
        } else {
            text.push(*byte).expect(rt, "memory");
        }
    }
}

/// Puts the copies of a part behind a text.
fn append_part(
    rt: &impl Abort,
    alloc: Global,
    text: &mut Vec<u8>,
    &(between, copy, first, past): &Part<'_>,
) {
    let is_numbered = copy.contains(&b'#');
    for number in first..past {
        if number > 0 {
            append(rt, text, between);
        }
        if is_numbered {
            append_numbered(rt, alloc, text, copy, number);
        } else {
            append(rt, text, copy);
        }
    }
}

/// The text of these parts.
pub(crate) fn built(rt: &impl Abort, alloc: Global, parts: &[Part<'_>]) -> Vec<u8> {
    let mut text = Vec::new(alloc);
    for part in parts {
        append_part(rt, alloc, &mut text, part);
    }
    text
}
