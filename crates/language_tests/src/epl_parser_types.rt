use crate::texts::{
    BOXED, GATE, HALF, HOARD, MAILBOX, ONCE, PEER, Part, SPIN, TALLY_2, built, once, parsed,
    type_of,
};
use epl_syntax::{ParseRefusal, Program, Stmt};
use std::alloc::Global;
use std::process::Abort;

/// How many variables, classes, monitors, conditions, operations, processes and upgrades a type has.
fn counts(p: &Program) -> [usize; 7] {
    [
        p.vars.len(),
        p.classes.len(),
        p.monitors.len(),
        p.conditions.len(),
        p.operations.len(),
        p.processes.len(),
        p.upgrades.len(),
    ]
}

/// A text, its version, and its counts.
const READ: &[(&[u8], Option<u64>, [usize; 7])] = &[
    (GATE, None, [1, 2, 1, 1, 2, 0, 0]),
    (PEER, None, [0, 1, 0, 0, 1, 0, 0]),
    (MAILBOX, None, [1, 1, 0, 0, 2, 0, 0]),
    (HALF, None, [0, 1, 0, 0, 1, 0, 0]),
    (SPIN, None, [0, 1, 0, 0, 1, 0, 0]),
    (HOARD, None, [2, 1, 0, 0, 2, 0, 0]),
    (ONCE, None, [1, 1, 1, 0, 1, 1, 0]),
    (BOXED, None, [1, 1, 0, 0, 2, 0, 0]),
    (TALLY_2, Some(2), [2, 1, 0, 0, 1, 0, 1]),
    (b"edentype A endtype", None, [0, 0, 0, 0, 0, 0, 0]),
];

/// Whether the type of a text has this version and these counts.
fn is_read_as(
    rt: &impl Abort,
    alloc: Global,
    text: &[u8],
    version: Option<u64>,
    wanted: [usize; 7],
) -> bool {
    let p = type_of(rt, alloc, text);
    p.version.as_ref().map(|number| number.n) == version && counts(&p) == wanted
}

#[test]
fn the_types_of_the_manual_are_read(rt: HostRuntime) {
    for (i, &(text, version, wanted)) in READ.iter().enumerate() {
        assert!(rt;
            is_read_as(&rt, rt.alloc(), text, version, wanted),
            "at {i}"
        );
    }
}

/// A text, and the place of the first token that does not go on.
const BAD: &[(&[u8], u32)] = &[
    (b"edentype A foo", 11),
    (b"", 0),
    (b"edentype", 8),
    (b"edentype A", 10),
    (b"edentype a endtype", 9),
    (b"edentype A endtype x", 19),
    (b"edentype A endtype ~", 19),
    (b"edentype A ~ endtype", 11),
    (b"edentype A foo ~", 11),
    (b"edentype A version endtype", 19),
    (b"edentype A version 1 version 2 endtype", 21),
    (b"edentype A upgrade 1 () end endtype", 19),
    (
        b"edentype A upgrade from 1 () end class c limit 1 endtype",
        33,
    ),
    (b"edentype A class c limit -1 endtype", 25),
    (b"edentype A monitor M class c limit 1 end endtype", 21),
    (b"edentype A durable n : int endtype", 27),
    (b"edentype A durable n : int = 1 + 1 endtype", 31),
    (
        b"edentype A process P x := 1 var y : int = 1 end endtype",
        28,
    ),
    (b"edentype A process P x := 1 = 1 = 1 end endtype", 32),
    (b"edentype A process P return (1,) end endtype", 31),
    (
        b"edentype A process P if true then else else end end endtype",
        39,
    ),
    (
        b"edentype A process P invoke a.B() status c gives () end endtype",
        50,
    ),
    // before a token that is too deep
    (
        b"edentype A process P x := 1 1 := ((((((((((((((((((((((((((((((((((((((((1",
        28,
    ),
];

/// A front, a part, a back, how often the part may stand there, and the place past it.
type Deep = ([&'static [u8]; 3], u32, u32);

const DEEP: &[Deep] = &[
    // statements: the last of 33 is too deep
    ([b"edentype A process P ", b"with M do ", b""], 32, 341),
    // kinds: 31 lists of int, and the int of 32 lists is too deep
    (
        [b"edentype A durable n : ", b"list of ", b"int = "],
        31,
        279,
    ),
    // expressions: what stands in 32 parentheses
    ([b"edentype A process P x := ", b"(", b"1"], 31, 58),
    // operators: the last of 32
    ([b"edentype A process P x := 1", b"+1", b""], 31, 89),
    // operators in front: the last of 32
    ([b"edentype A process P x := ", b"-", b"1"], 31, 57),
];

/// Why a text is refused.
fn refusal(alloc: Global, text: &[u8]) -> Option<ParseRefusal> {
    parsed(alloc, text).err()
}

#[test]
fn a_text_is_refused_at_the_first_token_that_does_not_go_on(rt: HostRuntime) {
    for &(text, place) in BAD {
        let wanted = Some(ParseRefusal::BadToken { place });
        assert!(rt; refusal(rt.alloc(), text) == wanted, "at {place}");
    }
}

/// Why a text is refused in which a part stands so many times between a front and a back, and how long it is.
fn refusal_with(
    rt: &impl Abort,
    alloc: Global,
    [front, part, back]: [&[u8]; 3],
    count: u32,
) -> (Option<ParseRefusal>, usize) {
    let text = built(rt, alloc, &[once(front), (b"", part, 0, count), once(back)]);
    (refusal(alloc, &text), text.len())
}

/// Whether a text with so many parts breaks off, and is refused at its end.
fn is_refused_at_its_end(rt: &impl Abort, alloc: Global, texts: [&[u8]; 3], count: u32) -> bool {
    match refusal_with(rt, alloc, texts, count) {
        (Some(ParseRefusal::BadToken { place }), length) => place as usize == length,
        _ => false,
    }
}

/// Whether so many parts fit, and with one more a token is too deep at this place.
fn is_deepest(rt: &impl Abort, alloc: Global, &(texts, most, place): &Deep) -> bool {
    let (refused, _) = refusal_with(rt, alloc, texts, most.saturating_add(1));
    refused == Some(ParseRefusal::TooDeep { place })
        && is_refused_at_its_end(rt, alloc, texts, most)
}

#[test]
fn a_token_is_at_most_32_deep(rt: HostRuntime) {
    for row in DEEP {
        assert!(rt; is_deepest(&rt, rt.alloc(), row), "at {}", row.2);
    }
    // the first refusal is answered
    let text: &[u8] = b"edentype A process P x := (((((((((((((((((((((((((((((((((((((((() 1 ~";
    let wanted = Some(ParseRefusal::TooDeep { place: 58 });
    assert!(rt; refusal(rt.alloc(), text) == wanted);
}

/// The place of an `if` that begins these statements, its statements, and those behind its `else`.
fn first_if(statements: &[Stmt]) -> Option<(u32, &[Stmt], &[Stmt])> {
    match statements.first()? {
        Stmt::If {
            so,
            otherwise,
            place,
            ..
        } => Some((*place, so, otherwise)),
        _ => None,
    }
}

/// The statements of the first declared process.
fn first_body(program: &Program) -> Option<&[Stmt]> {
    Some(&program.processes.first()?.body)
}

#[test]
fn else_goes_with_the_nearest_if(rt: HostRuntime) {
    let text = b"edentype A process P if a then if b then yield else yield end end end endtype";
    let p = type_of(&rt, rt.alloc(), text);
    let mut statements = first_body(&p).expect(&rt, "a process");
    // The place of each `if`, and how many statements stand behind its `else`.
    for &wanted in &[(21, 0), (31, 1)] {
        let (place, so, otherwise) = first_if(statements).expect(&rt, "an `if`");
        assert!(rt; (place, otherwise.len()) == wanted);
        statements = so;
    }
}

/// A text of a mebibyte.
const LONG: &[Part<'static>] = &[
    (b"", b"edentype A process P ", 0, 1),
    (b"", b"x := x + 1\n", 0, 95_000),
    (b"", b"end endtype", 0, 1),
];

#[test]
fn a_text_of_a_mebibyte_is_read(rt: HostRuntime) {
    let text = built(&rt, rt.alloc(), LONG);
    let p = type_of(&rt, rt.alloc(), &text);
    let statements = first_body(&p).expect(&rt, "a process");
    assert!(rt; statements.len() == 95_000);
}
