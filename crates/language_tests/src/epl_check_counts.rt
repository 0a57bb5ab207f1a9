//! Types of many parts: one part too many breaks a rule, and a long text is checked in time.
use crate::marked::{is_answered, types_with_older};
use crate::texts::{Part, built, once};
use epl_syntax::{Rule, Types};
use std::alloc::Global;
use std::process::Abort;

/// How often a part may stand in a type, what stands before, the part, what stands between two of
/// them, and what stands behind. In the part `#` stands for a number, and `|` is the mark.
type Row = (u32, [&'static [u8]; 4]);

const PARTS: &[Row] = &[
    (
        64,
        [b"edentype A ", b"durable |v# : int = 0", b" ", b" endtype"],
    ),
    (
        63,
        [
            b"edentype A durable a : int = 0 monitor M ",
            b"working |v# : int = 0",
            b" ",
            b" end endtype",
        ],
    ),
    (
        16,
        [b"edentype A ", b"class |c# limit 1", b" ", b" endtype"],
    ),
    (8, [b"edentype A ", b"monitor |M# end", b" ", b" endtype"]),
    (
        32,
        [
            b"edentype A monitor M ",
            b"condition |c#",
            b" ",
            b" end endtype",
        ],
    ),
    (
        31,
        [
            b"edentype A monitor L condition a end monitor M ",
            b"condition |c#",
            b" ",
            b" end endtype",
        ],
    ),
    (
        32,
        [
            b"edentype A class all limit 1 ",
            b"operation |O# needs 1 class all () returns () end",
            b" ",
            b" endtype",
        ],
    ),
    (8, [b"edentype A ", b"process |P# end", b" ", b" endtype"]),
    // parts of bodies
    (
        32,
        [
            b"edentype A process R ",
            b"var |v# : int = 0",
            b" ",
            b" end endtype",
        ],
    ),
    (
        32,
        [
            b"edentype A class all limit 1 operation O needs 1 class all (p : int, q : int) returns () ",
            b"var |v# : int = 0",
            b" ",
            b" end endtype",
        ],
    ),
    (
        8,
        [
            b"edentype A class all limit 1 operation O needs 1 class all (",
            b"|v# : int",
            b", ",
            b") returns () var v : int = 0 end endtype",
        ],
    ),
    (
        8,
        [
            b"edentype A class all limit 1 operation O needs 1 class all () returns (",
            b"|int",
            b", ",
            b") end endtype",
        ],
    ),
    (
        64,
        [
            b"edentype A version 2 upgrade from 1 (",
            b"|v# : int",
            b", ",
            b") end endtype",
        ],
    ),
    (
        64,
        [
            b"edentype A version 2 durable n : int = 0 upgrade from 1 () ",
            b"|n := #",
            b" ",
            b" end endtype",
        ],
    ),
];

/// Whether a type with so many parts keeps the rules, or breaks this one at the last of them.
fn is_answered_with(
    rt: &impl Abort,
    alloc: Global,
    types: &Types,
    [head, part, between, tail]: [&[u8]; 4],
    count: u32,
    rule: Option<Rule>,
) -> bool {
    let text = built(
        rt,
        alloc,
        &[once(head), (between, part, 0, count), once(tail)],
    );
    is_answered(rt, alloc, types, rule, &text)
}

/// Whether a type with so many parts keeps the rules, and in one with one more the last breaks one.
fn is_limit(rt: &impl Abort, alloc: Global, types: &Types, &(most, texts): &Row) -> bool {
    is_answered_with(rt, alloc, types, texts, most, None)
        && is_answered_with(
            rt,
            alloc,
            types,
            texts,
            most.saturating_add(1),
            Some(Rule::BadLimit),
        )
}

#[test]
fn each_count_has_its_limit(rt: HostRuntime) {
    let types = types_with_older(&rt, rt.alloc());
    for row in PARTS {
        assert!(rt; is_limit(&rt, rt.alloc(), &types, row), "{}", row.0);
    }
}

/// The parts of a long text, how many bytes it has with its marks, and the rule that it breaks.
type Long = (&'static [Part<'static>], usize, Option<Rule>);

const LONG: &[Long] = &[
    // one class too many, which is also named as the first one: at one place the order is that of the rules
    (
        &[
            (b"", b"edentype A ", 0, 1),
            (b" ", b"class c# limit 1", 0, 16),
            (b"", b" class |c0 limit 1 endtype", 0, 1),
        ],
        314,
        Some(Rule::Doubled),
    ),
    // 1 MiB of text
    (
        &[
            (b"", b"edentype A process P var s : int = 0", 0, 1),
            (b"", b" s := s + 1", 0, 95_300),
            (b"", b" end endtype", 0, 1),
            (b"", b" ", 0, 228),
        ],
        1_048_576,
        None,
    ),
    // very many variables behind a process that uses the last ones; the mark stands at the first one too many
    (
        &[
            (b"", b"edentype A process P |", 0, 1),
            (b"", b"v21999 := v21998 ", 0, 30_000),
            (b"", b"end ", 0, 1),
            (b"", b"durable v# : int = 0 ", 0, 64),
            (b"", b"durable |v# : int = 0 ", 64, 65),
            (b"", b"durable v# : int = 0 ", 65, 22_000),
            (b"", b"endtype", 0, 1),
        ],
        1_048_924,
        Some(Rule::BadLimit),
    ),
    // and behind one that uses none of them
    (
        &[
            (b"", b"edentype A process P |", 0, 1),
            (b"", b"x := x ", 0, 40_000),
            (b"", b"end ", 0, 1),
            (b"", b"durable v# : int = 0 ", 0, 30_000),
            (b"", b"endtype", 0, 1),
        ],
        1_018_923,
        Some(Rule::UnknownName),
    ),
    // very many upgrades, each from another version, and a last one from the first's
    (
        &[
            (b"", b"edentype A version 65535 ", 0, 1),
            (b"", b"upgrade from # () end ", 1, 40_000),
            (b"", b"upgrade from |1 () end endtype", 0, 1),
        ],
        1_028_923,
        Some(Rule::Doubled),
    ),
];

/// Whether a long text has so many bytes, and keeps the rules or breaks this one at its mark.
fn is_checked(rt: &impl Abort, alloc: Global, types: &Types, &(parts, bytes, rule): &Long) -> bool {
    let text = built(rt, alloc, parts);
    text.len() == bytes && is_answered(rt, alloc, types, rule, &text)
}

#[test]
fn long_types_are_checked(rt: HostRuntime) {
    let types = types_with_older(&rt, rt.alloc());
    for row in LONG {
        assert!(rt; is_checked(&rt, rt.alloc(), &types, row), "{}", row.1);
    }
}
