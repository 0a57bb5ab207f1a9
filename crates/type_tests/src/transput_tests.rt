use crate::common::{Given, items_of, text};
use eden_value::{Items, Status, Txt, Value, print};
use epl_syntax::{Answer, Effect, Native};
use std::alloc::Global;
use std::process::Abort;
use transput::*;

/// The begin of an operation, or what a turn is told of the effect before.
#[derive(Clone, Copy)]
enum Told {
    Open,
    Fill,
    Transfer { position: i64 },
    Pump { wanted: i64 },
    Read,
    Saved,
    Failed,
    Item { text: &'static str },
    End,
    Broken,
}

/// The stage before.
const SOURCE: Given = Given::FullCap { serial: 1 };

const SOURCE_ALONE: &[Given] = &[SOURCE];

const SOURCE_AND_TWO: &[Given] = &[SOURCE, Given::Number { n: 2 }];

const SOURCE_AND_ONE: &[Given] = &[SOURCE, Given::Number { n: 1 }];

const SOURCE_AND_NAME: &[Given] = &[SOURCE, Given::Name { bytes: b"a" }];

/// Lines is filled with two texts.
const LINES: &[(Told, &str)] = &[
    (Told::Transfer { position: 0 }, r#"return (3, "")"#),
    (Told::Fill, "checkpoint"),
    (Told::Failed, "return (3)"),
    (Told::Fill, "return (1)"),
    (Told::Transfer { position: 1 }, "checkpoint"),
    (Told::Failed, r#"return (3, "")"#),
    (Told::Transfer { position: 1 }, "checkpoint"),
    (Told::Saved, r#"return (0, "y")"#),
    (Told::Transfer { position: 0 }, r#"return (0, "x")"#),
    (Told::Transfer { position: 1 }, r#"return (0, "y")"#),
    (Told::Transfer { position: 2 }, r#"return (1, "")"#),
    (Told::Transfer { position: 3 }, r#"return (2, "")"#),
    (Told::Transfer { position: -1 }, r#"return (2, "")"#),
    (Told::Fill, "return (1)"),
    (Told::Transfer { position: 2 }, r#"return (1, "")"#),
];

/// Take hands on two items.
const TAKE: &[(Told, &str)] = &[
    (Told::Open, "checkpoint"),
    (Told::Saved, "return (0)"),
    (Told::Transfer { position: 0 }, "invoke 1 Transfer (0)"),
    (Told::Item { text: "x" }, "checkpoint"),
    (Told::Saved, r#"return (0, "x")"#),
    (Told::Transfer { position: 1 }, "invoke 1 Transfer (1)"),
    (Told::Item { text: "y" }, "checkpoint"),
    (Told::Saved, r#"return (0, "y")"#),
    (Told::Transfer { position: 2 }, r#"return (1, "")"#),
];

/// Skip leaves out one item.
const SKIP: &[(Told, &str)] = &[
    (Told::Open, "checkpoint"),
    (Told::Saved, "return (0)"),
    (Told::Transfer { position: 0 }, "invoke 1 Transfer (0)"),
    (Told::Item { text: "x" }, "checkpoint"),
    (Told::Saved, "invoke 1 Transfer (1)"),
    (Told::Item { text: "y" }, "checkpoint"),
    (Told::Saved, r#"return (0, "y")"#),
];

/// Only hands on the items that begin with `a`.
const ONLY: &[(Told, &str)] = &[
    (Told::Open, "checkpoint"),
    (Told::Saved, "return (0)"),
    (Told::Transfer { position: 0 }, "invoke 1 Transfer (0)"),
    (Told::Item { text: "ba" }, "checkpoint"),
    (Told::Saved, "invoke 1 Transfer (1)"),
    (Told::Item { text: "" }, "checkpoint"),
    (Told::Saved, "invoke 1 Transfer (2)"),
    (Told::Item { text: "ab" }, "checkpoint"),
    (Told::Saved, r#"return (0, "ab")"#),
];

/// Number meets all that may go wrong.
const NUMBER: &[(Told, &str)] = &[
    (Told::Transfer { position: 0 }, r#"return (3, "")"#),
    (Told::Open, "checkpoint"),
    (Told::Failed, "return (3)"),
    (Told::Open, "return (1)"),
    (Told::Transfer { position: 0 }, "checkpoint"),
    (Told::Saved, "invoke 1 Transfer (0)"),
    (Told::Item { text: "x" }, "checkpoint"),
    (Told::Saved, r#"return (0, "1: x")"#),
    (Told::Transfer { position: 0 }, r#"return (0, "1: x")"#),
    (Told::Transfer { position: 5 }, r#"return (2, "")"#),
    (Told::Transfer { position: -1 }, r#"return (2, "")"#),
    (Told::Transfer { position: 1 }, "invoke 1 Transfer (1)"),
    (Told::Broken, r#"return (3, "")"#),
    (Told::Transfer { position: 1 }, "invoke 1 Transfer (1)"),
    (Told::Item { text: "y" }, "checkpoint"),
    (Told::Failed, r#"return (3, "")"#),
    (Told::Transfer { position: 1 }, "checkpoint"),
    (Told::Saved, r#"return (0, "2: y")"#),
    (Told::Transfer { position: 2 }, "invoke 1 Transfer (2)"),
    (Told::End, r#"return (1, "")"#),
];

/// Sink takes two items and meets the end.
const SINK: &[(Told, &str)] = &[
    (Told::Pump { wanted: 1 }, "return (3, 0)"),
    (Told::Open, "checkpoint"),
    (Told::Saved, "return (0)"),
    (Told::Open, "return (1)"),
    (Told::Pump { wanted: 0 }, "return (0, 0)"),
    (Told::Pump { wanted: -1 }, "return (0, 0)"),
    (Told::Pump { wanted: 2 }, "invoke 1 Transfer (0)"),
    (Told::Item { text: "x" }, "checkpoint"),
    (Told::Saved, "invoke 1 Transfer (1)"),
    (Told::Item { text: "y" }, "checkpoint"),
    (Told::Saved, "return (0, 2)"),
    (Told::Pump { wanted: 10 }, "invoke 1 Transfer (2)"),
    (Told::End, "return (1, 2)"),
    (Told::Pump { wanted: 1 }, "invoke 1 Transfer (2)"),
    (Told::Broken, "return (3, 2)"),
    (Told::Read, r#"return (["x", "y"])"#),
    (Told::Read, r#"return (["x", "y"])"#),
];

fn reply(rt: &impl Abort, alloc: Global, status: Status, results: &[Given]) -> Answer {
    Answer::Reply {
        status,
        results: items_of(rt, alloc, results),
    }
}

/// The stage in which an operation of this name begins with these arguments.
fn began(
    rt: &impl Abort,
    alloc: Global,
    stream: Stream,
    name: &[u8],
    args: &[Given],
) -> Option<Box<Stage>> {
    let name = text(rt, alloc, name);
    let args = items_of(rt, alloc, args);
    let stage = native_begin(alloc, stream, &name, &args).expect(rt, "memory");
    Some(Box::new(alloc, stage).expect(rt, "memory"))
}

/// What `Open` is given: the stage before, and the argument where there is one.
fn to_open(stream: Stream) -> &'static [Given] {
    match stream {
        Stream::Take => SOURCE_AND_TWO,
        Stream::Skip => SOURCE_AND_ONE,
        Stream::Only => SOURCE_AND_NAME,
        _ => SOURCE_ALONE,
    }
}

/// The stage in which an operation begins, if one does.
fn begun(rt: &impl Abort, alloc: Global, stream: Stream, told: Told) -> Option<Box<Stage>> {
    match told {
        Told::Open => began(rt, alloc, stream, b"Open", to_open(stream)),
        Told::Fill => {
            let lines = Given::Names { all: &[b"x", b"y"] };
            began(rt, alloc, stream, b"Fill", &[lines])
        }
        Told::Transfer { position } => {
            let at = Given::Number { n: position };
            began(rt, alloc, stream, b"Transfer", &[at])
        }
        Told::Pump { wanted } => {
            let count = Given::Number { n: wanted };
            began(rt, alloc, stream, b"Pump", &[count])
        }
        Told::Read => began(rt, alloc, stream, b"Read", &[]),
        _ => None,
    }
}

fn answer_of(rt: &impl Abort, alloc: Global, told: Told) -> Answer {
    match told {
        Told::Saved => Answer::Code { status: Status::Ok },
        Told::Failed => Answer::Code {
            status: Status::StoreFault,
        },
        Told::Item { text } => {
            let item = Given::Name {
                bytes: text.as_bytes(),
            };
            reply(rt, alloc, Status::Ok, &[Given::Number { n: 0 }, item])
        }
        Told::End => {
            let nothing = Given::Name { bytes: b"" };
            reply(rt, alloc, Status::Ok, &[Given::Number { n: 1 }, nothing])
        }
        Told::Broken => reply(rt, alloc, Status::Broken, &[]),
        _ => Answer::Go,
    }
}

/// Adds a text to what is shown.
fn add(rt: &impl Abort, bytes: &[u8], out: &mut Vec<u8>) {
    out.extend_from_slice(bytes).expect(rt, "memory");
}

fn add_row(rt: &impl Abort, alloc: Global, items: &Items, out: &mut Vec<u8>) {
    add(rt, b"(", out);
    for (i, value) in items.values.iter().enumerate() {
        if i > 0 {
            add(rt, b", ", out);
        }
        print(alloc, value, out).expect(rt, "memory");
    }
    add(rt, b")", out);
}

fn add_invocation(
    rt: &impl Abort,
    alloc: Global,
    serial: u32,
    (operation, args): (&Txt, &Items),
    out: &mut Vec<u8>,
) {
    add(rt, b"invoke ", out);
    let n = i64::from(serial);
    print(alloc, &Value::Int { n }, out).expect(rt, "memory");
    add(rt, b" ", out);
    add(rt, &operation.bytes, out);
    add(rt, b" ", out);
    add_row(rt, alloc, args, out);
}

fn add_effect(rt: &impl Abort, alloc: Global, effect: &Effect, out: &mut Vec<u8>) {
    match effect {
        Effect::Invoke {
            target,
            operation,
            args,
        } => add_invocation(rt, alloc, target.uid.serial, (operation, args), out),
        Effect::Return { results } => {
            add(rt, b"return ", out);
            add_row(rt, alloc, results, out);
        }
        Effect::Checkpoint => add(rt, b"checkpoint", out),
        _ => add(rt, b"another", out),
    }
}

/// Whether an effect is this one.
fn is_shown(rt: &impl Abort, alloc: Global, effect: &Effect, want: &str) -> bool {
    let mut out = Vec::new(alloc);
    add_effect(rt, alloc, effect, &mut out);
    out.as_slice() == want.as_bytes()
}

/// The effect in which a turn ends.
fn turned(
    rt: &impl Abort,
    alloc: Global,
    stream: Stream,
    vars: &mut Items,
    stage: &mut Stage,
    told: Told,
) -> Box<Effect> {
    let answer = answer_of(rt, alloc, told);
    let effect = native_turn(alloc, stream, vars, stage, answer).expect(rt, "memory");
    Box::new(alloc, effect).expect(rt, "memory")
}

/// A stage in which no operation has begun.
fn idle(rt: &impl Abort, alloc: Global) -> Box<Stage> {
    let stage = Stage::OfSink {
        stage: SinkStage::Reads,
    };
    Box::new(alloc, stage).expect(rt, "memory")
}

/// An operation begins in its stage, if one does.
fn begins(rt: &impl Abort, alloc: Global, stream: Stream, told: Told, stage: &mut Box<Stage>) {
    if let Some(first) = begun(rt, alloc, stream, told) {
        *stage = first;
    }
}

/// Whether a turn, which may be the first of an operation, ends in this effect.
fn ends_in(
    rt: &impl Abort,
    alloc: Global,
    stream: Stream,
    vars: &mut Items,
    stage: &mut Box<Stage>,
    (told, want): (Told, &str),
) -> bool {
    begins(rt, alloc, stream, told, stage);
    let effect = turned(rt, alloc, stream, vars, stage, told);
    is_shown(rt, alloc, &effect, want)
}

/// An Eject with these values takes a turn for each row, and each ends in the effect of its row.
fn takes_turns(
    rt: &impl Abort,
    alloc: Global,
    stream: Stream,
    mut vars: Items,
    rows: &[(Told, &'static str)],
) {
    let mut stage = idle(rt, alloc);
    for (i, &row) in rows.iter().enumerate() {
        assert!(rt;
            ends_in(rt, alloc, stream, &mut vars, &mut stage, row),
            "{stream:?}, turn {i}"
        );
    }
}

/// The turns of each stream.
const TURNS: &[(Stream, &[(Told, &str)])] = &[
    (Stream::Lines, LINES),
    (Stream::Take, TAKE),
    (Stream::Skip, SKIP),
    (Stream::Only, ONLY),
    (Stream::Number, NUMBER),
    (Stream::Sink, SINK),
];

#[test]
fn each_type_takes_its_turns(rt: HostRuntime) {
    for &(stream, rows) in TURNS {
        let vars = native_values(rt.alloc(), stream).expect(&rt, "memory");
        takes_turns(&rt, rt.alloc(), stream, vars, rows);
    }
}

/// The values of a new Eject, those of them that are stored, and those of one that starts from the stored ones.
fn values_shown(rt: &impl Abort, alloc: Global, stream: Stream) -> Vec<u8> {
    let mut out = Vec::new(alloc);
    let vars = native_values(alloc, stream).expect(rt, "memory");
    add_row(rt, alloc, &vars, &mut out);
    let durable = native_durable(alloc, stream, &vars).expect(rt, "memory");
    add_row(rt, alloc, &durable, &mut out);
    let again = native_restart(stream, durable).expect(rt, "memory");
    add_row(rt, alloc, &again, &mut out);
    out
}

/// What `values_shown` shows of each stream.
const VALUES: &[(Stream, &str)] = &[
    (
        Stream::Lines,
        "(false, [], true)(false, [])(false, [], true)",
    ),
    (
        Stream::Take,
        r#"(<none>, 0, 0, 0, "", true)(<none>, 0, 0, 0, "")(<none>, 0, 0, 0, "", true)"#,
    ),
    (
        Stream::Skip,
        r#"(<none>, 0, 0, 0, "", true)(<none>, 0, 0, 0, "")(<none>, 0, 0, 0, "", true)"#,
    ),
    (
        Stream::Only,
        r#"(<none>, "", 0, 0, "", true)(<none>, "", 0, 0, "")(<none>, "", 0, 0, "", true)"#,
    ),
    (
        Stream::Number,
        r#"(<none>, 0, 0, "", true)(<none>, 0, 0, "")(<none>, 0, 0, "", true)"#,
    ),
    (
        Stream::Sink,
        "(<none>, [], true)(<none>, [])(<none>, [], true)",
    ),
];

#[test]
fn values_at_first_stored_and_again(rt: HostRuntime) {
    for &(stream, want) in VALUES {
        let shown = values_shown(&rt, rt.alloc(), stream);
        assert!(rt; shown.as_slice() == want.as_bytes(), "{stream:?}");
    }
}

/// Native types, and the stream that each one is.
const NATIVE: &[(Native, Option<Stream>)] = &[
    (Native::Cell, None),
    (Native::Directory, None),
    (Native::Lines, Some(Stream::Lines)),
    (Native::Only, Some(Stream::Only)),
    (Native::Sink, Some(Stream::Sink)),
];

#[test]
fn two_native_types_are_no_streams(rt: HostRuntime) {
    for &(native, want) in NATIVE {
        assert!(rt; Stream::of(native) == want, "{want:?}");
    }
}

/// How many items a Number took in and how many it handed on, and whether it starts from that.
const COUNTED: &[(i64, i64, bool)] = &[
    (0, 0, true),
    (2, 2, true),
    (2, 1, true),
    (1, 2, false),
    (2, -1, false),
];

/// Whether a stream starts from these stored values.
fn starts(rt: &impl Abort, alloc: Global, stream: Stream, stored: &[Given]) -> bool {
    native_start(stream, &items_of(rt, alloc, stored))
}

/// Whether a Number starts that took in so many items and handed on so many.
fn number_starts(rt: &impl Abort, alloc: Global, got: i64, made: i64) -> bool {
    let stored = [
        Given::NoCap,
        Given::Number { n: got },
        Given::Number { n: made },
        Given::Name { bytes: b"" },
    ];
    starts(rt, alloc, Stream::Number, &stored)
}

#[test]
fn no_more_was_handed_on_than_taken_in(rt: HostRuntime) {
    for &(got, made, want) in COUNTED {
        assert!(rt;
            number_starts(&rt, rt.alloc(), got, made) == want,
            "at {got} and {made}"
        );
    }
    assert!(rt; starts(&rt, rt.alloc(), Stream::Lines, &[]));
}

/// The one item that a Sink holds many times.
const ITEM: &[u8] = b"x";

/// The items of a Sink, which were saved, and the turn that it takes.
const HELD: &[(&[&[u8]], &[(Told, &str)])] = &[
    (
        &[ITEM; 255],
        &[(Told::Pump { wanted: 1 }, "invoke 1 Transfer (255)")],
    ),
    (
        &[ITEM; 256],
        &[(Told::Pump { wanted: 1 }, "return (2, 256)")],
    ),
];

#[test]
fn a_sink_holds_256_items(rt: HostRuntime) {
    for &(all, rows) in HELD {
        let held = [SOURCE, Given::Names { all }, Given::True];
        let vars = items_of(&rt, rt.alloc(), &held);
        takes_turns(&rt, rt.alloc(), Stream::Sink, vars, rows);
    }
}
