use crate::fixtures::{by, txt};
use capability::{Cap, Rights, Uid};
use eden_value::{Items, Status, Txt, Value, listed, print};
use journal::{Arg, Args, Event};
use shell_names::ShellNames;
use std::alloc::{AllocError, Global};
use std::process::Abort;

fn uid_of(serial: u32) -> Uid {
    Uid {
        node: 1,
        epoch: 1,
        serial,
    }
}

fn maybe_uid(serial: Option<u32>) -> Option<Uid> {
    Some(uid_of(serial?))
}

/// The capability of this serial with these rights.
fn cap_of(serial: u32, bits: u16) -> Cap {
    Cap {
        uid: uid_of(serial),
        rights: Rights { bits },
    }
}

/// The same, if there is one.
fn maybe_cap(of: Option<(u32, u16)>) -> Option<Cap> {
    let (serial, bits) = of?;
    Some(cap_of(serial, bits))
}

/// The number 7, in so many lists.
fn nested(rt: &impl Abort, alloc: Global, deep: u8) -> Value {
    let mut value = Value::Int { n: 7 };
    for _ in 0..deep {
        let values = vec![in alloc; value].expect(rt, "memory");
        let items = listed(values).expect(rt, "memory");
        value = Value::List { items };
    }
    value
}

/// An argument in so many lists.
fn nested_argument(rt: &impl Abort, alloc: Global, inner: Arg, deep: u8) -> Arg {
    let mut arg = inner;
    for _ in 0..deep {
        let args = vec![in alloc; arg].expect(rt, "memory");
        arg = Arg::List {
            items: Args { args },
        };
    }
    arg
}

/// The results of a look-up that found a directory, and two values more.
fn results(rt: &impl Abort, alloc: Global) -> Items {
    let values = vec![in alloc;
        Value::Int { n: 0 },
        Value::Cap {
            cap: Some(cap_of(2, 6))
        },
        Value::Cap { cap: None },
        nested(rt, alloc, 3),
    ]
    .expect(rt, "memory");
    Items { values }
}

/// `a` is a capability, `r` has results, `n` stands for nothing.
fn some_names(rt: &impl Abort, alloc: Global) -> Box<ShellNames> {
    let mut names = Box::new(alloc, ShellNames::new(alloc)).expect(rt, "memory");
    names
        .bind_capability(alloc, &txt(rt, alloc, "a"), cap_of(1, 0xFFFF))
        .expect(rt, "memory");
    names
        .bind_results(alloc, &txt(rt, alloc, "r"), results(rt, alloc))
        .expect(rt, "memory");
    names
        .bind_nothing(alloc, &txt(rt, alloc, "n"))
        .expect(rt, "memory");
    names
}

/// A question about a name, with what it is to be answered.
#[derive(Clone, Copy)]
enum Ask<'a> {
    /// The number of a result, and how its value is printed; the empty text where there is none.
    Value(u8, &'a str),
    /// The number of a result, and the serial and the rights of the capability that it is.
    Capability(u8, Option<(u32, u16)>),
    /// Whether its call found something.
    IsFound(bool),
    /// The directory that it found.
    Next(Option<(u32, u16)>),
    /// How the number 3 and the result of this number, in so many lists, are printed as arguments.
    Arguments(u8, u8, &'a str),
    /// Whether it may be called with the first result of this name.
    IsReady(&'a str, bool),
}

/// Whether it is printed so; where there is none, as the empty text.
fn is_printed(rt: &impl Abort, alloc: Global, value: Option<Value>, wanted: &str) -> bool {
    let mut out = Vec::new(alloc);
    if let Some(value) = &value {
        print(alloc, value, &mut out).expect(rt, "memory");
    }
    out.as_slice() == wanted.as_bytes()
}

/// Whether the result of a name is printed so.
fn is_value(
    rt: &impl Abort,
    alloc: Global,
    names: &ShellNames,
    name: &str,
    (k, wanted): (u8, &str),
) -> bool {
    let value = names.value(alloc, &txt(rt, alloc, name), k);
    is_printed(rt, alloc, value.expect(rt, "memory"), wanted)
}

/// Whether the result of a name is this capability, or none.
fn is_capability(
    rt: &impl Abort,
    alloc: Global,
    names: &ShellNames,
    name: &str,
    (k, wanted): (u8, Option<(u32, u16)>),
) -> bool {
    names.capability(&by(rt, alloc, name, k)) == maybe_cap(wanted)
}

/// The number 3, and the result of a name in so many lists.
fn arguments(rt: &impl Abort, alloc: Global, name: &str, k: u8, deep: u8) -> Args {
    let inner = Arg::Named {
        by: by(rt, alloc, name, k),
    };
    let first = Arg::Plain {
        value: Value::Int { n: 3 },
    };
    let second = nested_argument(rt, alloc, inner, deep);
    let args = vec![in alloc; first, second].expect(rt, "memory");
    Args { args }
}

/// Whether these arguments of a call are printed so.
fn are_arguments(
    rt: &impl Abort,
    alloc: Global,
    names: &ShellNames,
    args: &Args,
    wanted: &str,
) -> bool {
    let value = match names.arguments(alloc, args).expect(rt, "memory") {
        Some(items) => Some(Value::List {
            items: listed(items.values).expect(rt, "memory"),
        }),
        None => None,
    };
    is_printed(rt, alloc, value, wanted)
}

/// Whether the name may be called with the first result of another.
fn is_ready(rt: &impl Abort, alloc: Global, names: &ShellNames, name: &str, given: &str) -> bool {
    let target = by(rt, alloc, name, 0);
    let args = arguments(rt, alloc, given, 1, 0);
    let ready = names.ready(alloc, &target, &args);
    ready.expect(rt, "memory").is_some()
}

/// Whether the question about the name is answered so.
fn is_so(rt: &impl Abort, alloc: Global, names: &ShellNames, name: &str, ask: Ask) -> bool {
    match ask {
        Ask::Value(k, wanted) => is_value(rt, alloc, names, name, (k, wanted)),
        Ask::Capability(k, wanted) => is_capability(rt, alloc, names, name, (k, wanted)),
        Ask::IsFound(wanted) => names.found(&txt(rt, alloc, name)) == wanted,
        Ask::Next(wanted) => names.next_directory(&txt(rt, alloc, name)) == maybe_cap(wanted),
        Ask::Arguments(k, deep, wanted) => {
            let args = arguments(rt, alloc, name, k, deep);
            are_arguments(rt, alloc, names, &args, wanted)
        }
        Ask::IsReady(given, wanted) => is_ready(rt, alloc, names, name, given) == wanted,
    }
}

/// What a name comes to stand for.
#[derive(Clone, Copy)]
enum NameChange {
    /// The one result 5.
    Five,
    /// What is held, of this serial.
    Hold(u32),
    /// The result of this number of `r` with two of its rights, which is a capability or is none.
    Restrict(u8, bool),
    /// What was created, by its serial, or was refused.
    Create(Status, Option<u32>),
    /// A call of this number.
    Ask(u32),
    /// The answer to a call that may be open.
    Hear(Status, bool),
}

/// The event of a change, behind a Box, since it is dear to let go.
fn boxed(rt: &impl Abort, alloc: Global, event: Result<Event, AllocError>) -> Box<Event> {
    Box::new(alloc, event.expect(rt, "memory")).expect(rt, "memory")
}

/// Whether a name was bound by `hold`, or else by `restrict`.
fn is_bound(event: &Event, by_hold: bool) -> bool {
    matches!(event, Event::Bound { held, .. } if *held == by_hold)
}

/// The name comes to stand for the one result 5.
fn bind_five(rt: &impl Abort, alloc: Global, names: &mut ShellNames, name: &Txt) {
    let values = vec![in alloc; Value::Int { n: 5 }].expect(rt, "memory");
    let bound = names.bind_results(alloc, name, Items { values });
    bound.expect(rt, "memory");
}

/// The call of the name, which may be open, is answered.
fn hear(
    rt: &impl Abort,
    alloc: Global,
    names: &mut ShellNames,
    name: &Txt,
    status: Status,
    is_open: bool,
) {
    let values = results(rt, alloc);
    let heard = names.hear(alloc, name, status, &values, is_open);
    heard.expect(rt, "memory");
}

/// Whether a hold is told so.
fn is_held(
    rt: &impl Abort,
    alloc: Global,
    names: &mut ShellNames,
    name: &Txt,
    serial: u32,
) -> bool {
    let event = boxed(rt, alloc, names.hold(alloc, name, uid_of(serial)));
    is_bound(&event, true)
}

/// Whether a restriction of a result of `r`, which is a capability or is none, is told so.
fn is_restricted(
    rt: &impl Abort,
    alloc: Global,
    names: &mut ShellNames,
    name: &Txt,
    (k, is_capability): (u8, bool),
) -> bool {
    let target = by(rt, alloc, "r", k);
    let rights = Rights { bits: 3 };
    let event = boxed(rt, alloc, names.restrict(alloc, name, &target, rights));
    if is_capability {
        is_bound(&event, false)
    } else {
        matches!(&*event, Event::Void { .. })
    }
}

/// Whether a creation is told so.
fn is_created(
    rt: &impl Abort,
    alloc: Global,
    names: &mut ShellNames,
    name: &Txt,
    (status, made): (Status, Option<Uid>),
) -> bool {
    let event = boxed(rt, alloc, names.create(alloc, name, status, made));
    matches!(&*event, Event::Made { status: said, uid, .. } if *said == status && *uid == made)
}

/// Whether a call of this number is told so.
fn is_asked(
    rt: &impl Abort,
    alloc: Global,
    names: &mut ShellNames,
    name: &Txt,
    number: u32,
) -> bool {
    let event = boxed(rt, alloc, names.ask(alloc, name, number, None));
    matches!(&*event, Event::Asked { call, .. } if *call == number)
}

/// Makes the change, and whether its event says so.
fn is_told(
    rt: &impl Abort,
    alloc: Global,
    names: &mut ShellNames,
    name: &Txt,
    change: NameChange,
) -> bool {
    match change {
        NameChange::Five => {
            bind_five(rt, alloc, names, name);
            true
        }
        NameChange::Hold(serial) => is_held(rt, alloc, names, name, serial),
        NameChange::Restrict(k, is_capability) => is_restricted(
            rt,
            alloc,
            names,
            name,
            (k, is_capability),
        ),
        NameChange::Create(status, serial) => {
            is_created(rt, alloc, names, name, (status, maybe_uid(serial)))
        }
        NameChange::Ask(number) => is_asked(rt, alloc, names, name, number),
        NameChange::Hear(status, is_open) => {
            hear(rt, alloc, names, name, status, is_open);
            true
        }
    }
}

/// Changes of names, and then questions about them, each with its name.
type Row<'a> = (&'a [(&'a str, NameChange)], &'a [(&'a str, Ask<'a>)]);

/// Makes these changes, which are told so.
fn change_all(
    rt: &impl Abort,
    alloc: Global,
    names: &mut ShellNames,
    changes: &[(&str, NameChange)],
) {
    for &(name, change) in changes {
        let is_told = is_told(rt, alloc, names, &txt(rt, alloc, name), change);
        assert!(rt; is_told, "{name} is changed");
    }
}

/// Asks these questions, which are answered so.
fn ask_all(rt: &impl Abort, alloc: Global, names: &ShellNames, asks: &[(&str, Ask)]) {
    for (place, &(name, ask)) in asks.iter().enumerate() {
        let is_so = is_so(rt, alloc, names, name, ask);
        assert!(rt; is_so, "{name}, question {place}");
    }
}

/// Changes the names and asks about them, row by row.
fn all_is_so(rt: &impl Abort, alloc: Global, rows: &[Row]) {
    let mut names = some_names(rt, alloc);
    for (changes, asks) in rows {
        change_all(rt, alloc, &mut *names, changes);
        ask_all(rt, alloc, &names, asks);
    }
}

const AT_FIRST: &[Row<'static>] = &[(&[], FIRST_ASKS)];

const FIRST_ASKS: &[(&str, Ask<'static>)] = &[
    ("a", Ask::Value(0, "<1.1.1:ffff>")),
    ("a", Ask::Value(1, "")),
    ("r", Ask::Value(0, "")),
    ("r", Ask::Value(1, "0")),
    ("r", Ask::Value(2, "<1.1.2:0006>")),
    ("r", Ask::Value(4, "[[[7]]]")),
    ("r", Ask::Value(5, "")),
    ("n", Ask::Value(0, "")),
    ("n", Ask::Value(1, "")),
    ("x", Ask::Value(0, "")),
    // References.
    ("a", Ask::Capability(0, Some((1, 0xFFFF)))),
    ("a", Ask::Capability(1, None)),
    ("r", Ask::Capability(1, None)),
    ("r", Ask::Capability(2, Some((2, 6)))),
    ("r", Ask::Capability(3, None)),
    ("r", Ask::Capability(5, None)),
    ("n", Ask::Capability(0, None)),
    ("x", Ask::Capability(0, None)),
    // Walks.
    ("r", Ask::IsFound(true)),
    ("r", Ask::Next(Some((2, 6)))),
    ("a", Ask::IsFound(false)),
    ("a", Ask::Next(None)),
    // Arguments nest four deep.
    ("x", Ask::Arguments(0, 1, "")),
    ("r", Ask::Arguments(4, 0, "[3, [[[7]]]]")),
    ("r", Ask::Arguments(4, 1, "[3, [[[[7]]]]]")),
    ("r", Ask::Arguments(4, 2, "")),
    ("a", Ask::Arguments(0, 4, "[3, [[[[<1.1.1:ffff>]]]]]")),
    ("a", Ask::Arguments(0, 5, "")),
    // Calls.
    ("a", Ask::IsReady("r", true)),
    ("n", Ask::IsReady("r", false)),
    ("a", Ask::IsReady("n", false)),
];

#[test]
fn names_have_values(rt: HostRuntime) {
    all_is_so(&rt, rt.alloc(), AT_FIRST);
}

/// The later one counts, and another name is as it was.
const TWO_MEANINGS: &[Row<'static>] = &[(
    &[("a", NameChange::Five)],
    &[
        ("a", Ask::Value(1, "5")),
        ("a", Ask::Capability(0, None)),
        ("a", Ask::IsFound(false)),
        ("r", Ask::IsFound(true)),
    ],
)];

#[test]
fn of_two_meanings_the_later_counts(rt: HostRuntime) {
    all_is_so(&rt, rt.alloc(), TWO_MEANINGS);
}

const COMMANDS: &[Row<'static>] = &[(
    &[
        ("h", NameChange::Hold(9)),
        ("s", NameChange::Restrict(2, true)),
        ("v", NameChange::Restrict(3, false)),
        ("c", NameChange::Create(Status::Ok, Some(4))),
        ("d", NameChange::Create(Status::Full, None)),
    ],
    &[
        ("h", Ask::Capability(0, Some((9, 0xFFFF)))),
        ("s", Ask::Capability(0, Some((2, 2)))),
        ("v", Ask::Capability(0, None)),
        ("c", Ask::Capability(0, Some((4, 0xFFFF)))),
        ("d", Ask::Capability(0, None)),
    ],
)];

#[test]
fn commands_bind_their_names(rt: HostRuntime) {
    all_is_so(&rt, rt.alloc(), COMMANDS);
}

/// Until it is answered.
const CALLS: &[Row<'static>] = &[
    (&[("r", NameChange::Ask(3))], &[("r", Ask::IsFound(false))]),
    (
        &[("r", NameChange::Hear(Status::Ok, false))],
        &[("r", Ask::IsFound(false))],
    ),
    (
        &[("r", NameChange::Hear(Status::Ok, true))],
        &[("r", Ask::IsFound(true))],
    ),
    (
        &[("r", NameChange::Hear(Status::Gone, false))],
        &[("r", Ask::IsFound(true))],
    ),
    (
        &[("r", NameChange::Hear(Status::Gone, true))],
        &[("r", Ask::IsFound(false))],
    ),
];

#[test]
fn a_call_stands_for_nothing_until_it_is_answered(rt: HostRuntime) {
    all_is_so(&rt, rt.alloc(), CALLS);
}
