ghost use Rattle.std.specs.Prelude.{◌≡◌};
ghost use Rattle.edentypes.specs.Fitting.{FitsKind, RestFits};
ghost use Rattle.edentypes.specs.declared.Kind.TheVariants as kinds;

use crate::common::{Given, items_of, printed, returned, text};
use capability::{Cap, Rights, Uid};
use coordinator::Coordinator;
use eden_codec::Rep;
use eden_value::{Items, Status, Txt};
use edentypes::*;
use epl_syntax::{Answer, Effect, Native, Types};
use std::alloc::Global;
use std::process::Abort;

const ME: Uid = Uid {
    node: 1,
    epoch: 1,
    serial: 1,
};

/// A name, its type, and how many variables that has, of which so many are durable.
type Named = (&'static [u8], Option<Native>, usize, usize);

const NAMES: &[Named] = &[
    (b"Cell", Some(Native::Cell), 1, 1),
    (b"Directory", Some(Native::Directory), 2, 2),
    (b"Lines", Some(Native::Lines), 3, 2),
    (b"Take", Some(Native::Take), 6, 5),
    (b"Skip", Some(Native::Skip), 6, 5),
    (b"Only", Some(Native::Only), 6, 5),
    (b"Number", Some(Native::Number), 5, 4),
    (b"Sink", Some(Native::Sink), 3, 2),
    (b"Cel", None, 0, 0),
];

/// The native types.
fn native(rt: &impl Abort, alloc: Global) -> Box<Types> {
    let types = Types::native(alloc).expect(rt, "memory");
    Box::new(alloc, types).expect(rt, "memory")
}

/// The kind of a native type.
fn kind_of(native: Native) -> Kind
    ensures { result ≡ kinds.Native native }
{
    Kind::Native { native }
}

/// The values of a new Eject.
fn new_values(rt: &impl Abort, alloc: Global, types: &Types, kind: Kind) -> Box<Values>
    ensures { FitsKind kind result.value }
{
    let vars = first_values(alloc, types, kind).expect(rt, "memory");
    Box::new(alloc, vars).expect(rt, "memory")
}

/// The values of an Eject, as the text of a list.
fn shown(rt: &impl Abort, alloc: Global, vars: &Values) -> Vec<u8> {
    printed(rt, alloc, vars.items(alloc).expect(rt, "memory"))
}

/// How many values an Eject has.
fn count_of(rt: &impl Abort, alloc: Global, vars: &Values) -> usize {
    vars.items(alloc).expect(rt, "memory").values.len()
}

/// What is kept of an Eject with these values.
fn kept_of(rt: &impl Abort, alloc: Global, types: &Types, kind: Kind, vars: &Values) -> Rep {
    rep(alloc, types, kind, vars).expect(rt, "memory")
}

/// The values of an Eject that starts from what is kept.
fn values_again(rt: &impl Abort, alloc: Global, types: &Types, kept: &Rep) -> Box<Values> {
    let found = start_from(alloc, types, kept, ME).expect(rt, "memory");
    let begun = found.expect(rt, "it fits");
    let vars = start(alloc, types, &begun).expect(rt, "memory");
    Box::new(alloc, vars).expect(rt, "memory")
}

/// What is kept of an Eject that has its first values: so many of them, under its type's name, in version 1.
fn is_kept(kept: &Rep, name: &Txt, durable: usize) -> bool {
    kept.type_name.bytes == name.bytes && kept.version == 1 && kept.values.values.len() == durable
}

/// Whether an Eject starts from what is kept with these values.
fn starts_with(rt: &impl Abort, alloc: Global, types: &Types, kept: &Rep, vars: &Values) -> bool {
    let again = values_again(rt, alloc, types, kept);
    shown(rt, alloc, &again) == shown(rt, alloc, vars)
}

/// Whether an Eject that has its first values, and so many, starts from what is kept of it with the same values.
fn starts_as_kept(
    rt: &impl Abort,
    alloc: Global,
    (types, kind): (&Types, Kind),
    name: &Txt,
    (variables, durable): (usize, usize),
) -> bool {
    let vars = new_values(rt, alloc, types, kind);
    let kept = kept_of(rt, alloc, types, kind, &vars);
    count_of(rt, alloc, &vars) == variables
        && is_kept(&kept, name, durable)
        && starts_with(rt, alloc, types, &kept, &vars)
}

/// How many classes it has.
fn count_classes(rt: &impl Abort, alloc: Global, types: &Types, kind: Kind) -> usize {
    let made = setup(alloc, types, kind).expect(rt, "memory");
    made.limits.as_slice().len()
}

/// The coordinator with which it starts.
fn crew_of(rt: &impl Abort, alloc: Global, types: &Types, kind: Kind) -> Box<Coordinator> {
    let made = setup(alloc, types, kind).expect(rt, "memory");
    let crew = Coordinator::new(alloc, made).expect(rt, "memory");
    Box::new(alloc, crew).expect(rt, "memory")
}

/// Whether it has no processes, one class and no monitors.
fn is_plain(rt: &impl Abort, alloc: Global, types: &Types, kind: Kind) -> bool {
    let begun = processes(alloc, types, kind).expect(rt, "memory");
    begun.is_empty()
        && count_classes(rt, alloc, types, kind) == 1
        && crew_of(rt, alloc, types, kind).monitors() == 0
}

/// Whether the name is that of the type, which starts, or of none.
fn is_named(
    rt: &impl Abort,
    alloc: Global,
    types: &Types,
    &(name, native, variables, durable): &Named,
) -> bool {
    let name = text(rt, alloc, name);
    match (find(types, &name), native) {
        (Some(kind), Some(native)) => {
            kind == kind_of(native)
                && is_plain(rt, alloc, types, kind)
                && starts_as_kept(rt, alloc, (types, kind), &name, (variables, durable))
        }
        (found, _) => found.is_none() && native.is_none(),
    }
}

#[test]
fn every_native_type_starts(rt: HostRuntime) {
    let types = native(&rt, rt.alloc());
    for (i, named) in NAMES.iter().enumerate() {
        assert!(rt; is_named(&rt, rt.alloc(), &types, named), "at {i}");
    }
}

/// A type, the rights of the capability, an operation, the values that it is given, and what is wrong.
type Asked = (Native, u16, &'static [u8], &'static [Given], Option<Status>);

const CALLS: &[Asked] = &[
    (Native::Cell, 1, b"Set", &[Given::Number { n: 5 }], None),
    (
        Native::Cell,
        0xFFFE,
        b"Set",
        &[Given::Number { n: 5 }],
        Some(Status::NoRight),
    ),
    (Native::Cell, 1, b"Set", &[], Some(Status::BadArguments)),
    (Native::Cell, 0, b"Put", &[], Some(Status::NoOperation)),
    (Native::Cell, 16, b"Kill", &[], None),
    (Native::Directory, 8, b"List", &[], None),
    (
        Native::Directory,
        2,
        b"LookUp",
        &[Given::Number { n: 1 }],
        Some(Status::BadArguments),
    ),
    (
        Native::Lines,
        2,
        b"Transfer",
        &[Given::Number { n: 0 }],
        None,
    ),
    (
        Native::Sink,
        4,
        b"Read",
        &[Given::Number { n: 7 }],
        Some(Status::BadArguments),
    ),
];

/// Whether the call fits, in class 0, or this is wrong with it.
fn is_fit(fit: Fit, wrong: Option<Status>) -> bool {
    match fit {
        Fit::Fits { class } => class == 0 && wrong.is_none(),
        Fit::Misfits { status } => wrong == Some(status),
    }
}

/// Whether a call of a native type fits, or this is wrong with it.
fn is_judged(
    rt: &impl Abort,
    alloc: Global,
    types: &Types,
    &(native, bits, operation, args, wrong): &Asked,
) -> bool {
    let target = Cap {
        uid: ME,
        rights: Rights { bits },
    };
    let operation = text(rt, alloc, operation);
    let args = items_of(rt, alloc, args);
    is_fit(
        fit_call(types, kind_of(native), target, &operation, &args),
        wrong,
    )
}

#[test]
fn calls_fit_or_not(rt: HostRuntime) {
    let types = native(&rt, rt.alloc());
    for (i, asked) in CALLS.iter().enumerate() {
        assert!(rt; is_judged(&rt, rt.alloc(), &types, asked), "call {i}");
    }
}

/// What is kept of an Eject: its type's name, its version and its values. And the type of the Eject that starts from it, with its
/// durable values, if one does.
type KeptRow = (
    &'static [u8],
    u16,
    &'static [Given],
    Option<(Native, &'static [u8])>,
);

const KEPT: &[KeptRow] = &[
    (
        b"Cell",
        1,
        &[Given::Number { n: 7 }],
        Some((Native::Cell, b"[7]")),
    ),
    (b"Cell", 2, &[Given::Number { n: 7 }], None),
    (b"Cell", 1, &[], None),
    (
        b"Cell",
        1,
        &[Given::Number { n: 7 }, Given::Number { n: 8 }],
        None,
    ),
    (b"Cel", 1, &[Given::Number { n: 7 }], None),
    (
        b"Directory",
        1,
        &[
            Given::Names { all: &[b"a", b"b"] },
            Given::Caps { all: &[None, None] },
        ],
        Some((Native::Directory, b"[[\"a\", \"b\"], [<none>, <none>]]")),
    ),
    (
        b"Directory",
        1,
        &[
            Given::Names { all: &[b"a", b"a"] },
            Given::Caps { all: &[None, None] },
        ],
        None,
    ),
];

/// The type of the Eject that starts from what is kept, and its durable values, as the text of a list.
fn started(rt: &impl Abort, alloc: Global, types: &Types, kept: &Rep) -> Option<(Kind, Vec<u8>)> {
    match start_from(alloc, types, kept, ME).expect(rt, "memory") {
        Some(begun) => Some((begun.kind, printed(rt, alloc, begun.durable))),
        None => None,
    }
}

fn is_started(found: &Option<(Kind, Vec<u8>)>, wanted: Option<(Native, &[u8])>) -> bool {
    match (found, wanted) {
        (Some((kind, durable)), Some((native, values))) => {
            *kind == kind_of(native) && durable.as_slice() == values
        }
        (None, None) => true,
        _ => false,
    }
}

/// What is kept of an Eject of this type and version with these values.
fn rep_of(rt: &impl Abort, alloc: Global, name: &[u8], version: u16, values: &[Given]) -> Rep {
    Rep {
        type_name: text(rt, alloc, name),
        version,
        values: items_of(rt, alloc, values),
    }
}

/// Whether an Eject starts from what is kept as it has to, or does not.
fn starts_so(
    rt: &impl Abort,
    alloc: Global,
    types: &Types,
    &(name, version, values, wanted): &KeptRow,
) -> bool {
    let kept = rep_of(rt, alloc, name, version, values);
    let found = started(rt, alloc, types, &kept);
    is_started(&found, wanted)
}

#[test]
fn ejects_start_from_what_is_kept(rt: HostRuntime) {
    let types = native(&rt, rt.alloc());
    for (i, kept) in KEPT.iter().enumerate() {
        assert!(rt; starts_so(&rt, rt.alloc(), &types, kept), "at {i}");
    }
}

/// An operation, its arguments, and the status of its checkpoint or its end.
type Call = (&'static [u8], &'static [Given], Status);

/// A process takes a turn.
fn turned(
    rt: &impl Abort,
    alloc: Global,
    types: &Types,
    kind: Kind,
    vars: &mut Values,
    rest: &mut Rest,
    answer: Answer,
) -> Box<Effect>
    requires vars { FitsKind kind vars.old }
    requires rest { RestFits kind rest.old }
    ensures vars { FitsKind kind vars.new }
    ensures rest { RestFits kind rest.new }
{
    let effect = turn(alloc, types, kind, vars, rest, answer, ME).expect(rt, "memory");
    Box::new(alloc, effect).expect(rt, "memory")
}

/// The process of an operation with its arguments.
fn begun(
    rt: &impl Abort,
    alloc: Global,
    types: &Types,
    kind: Kind,
    operation: &[u8],
    args: &[Given],
) -> Box<Rest>
    ensures { RestFits kind result.value }
{
    let operation = text(rt, alloc, operation);
    let args = items_of(rt, alloc, args);
    let rest = begin(alloc, types, kind, &operation, &args).expect(rt, "memory");
    Box::new(alloc, rest).expect(rt, "memory")
}

/// The last effect of an operation. The process of a checkpoint or of the end of what is kept is answered with the status.
fn last_effect(
    rt: &impl Abort,
    alloc: Global,
    types: &Types,
    kind: Kind,
    vars: &mut Values,
    rest: &mut Rest,
    status: Status,
) -> Box<Effect>
    requires vars { FitsKind kind vars.old }
    requires rest { RestFits kind rest.old }
    ensures { FitsKind kind vars.new }
{
    let effect = turned(rt, alloc, types, kind, vars, rest, Answer::Go);
    if matches!(*effect, Effect::Checkpoint | Effect::Destroy) {
        let told = Answer::Code { status };
        turned(rt, alloc, types, kind, vars, rest, told)
    } else {
        effect
    }
}

/// The answer of an operation, as the text of a list, or that it ends the active part.
fn carried_out(
    rt: &impl Abort,
    alloc: Global,
    types: &Types,
    kind: Kind,
    vars: &mut Values,
    call: Call,
) -> Vec<u8>
    requires { FitsKind kind vars.old }
    ensures { FitsKind kind vars.new }
{
    let (operation, args, status) = call;
    let mut rest = begun(rt, alloc, types, kind, operation, args);
    let effect = last_effect(rt, alloc, types, kind, vars, &mut rest, status);
    returned(rt, alloc, &effect)
}

/// Whether an operation returns this.
fn returns(
    rt: &impl Abort,
    alloc: Global,
    types: &Types,
    kind: Kind,
    vars: &mut Values,
    call: Call,
    wanted: &[u8],
) -> bool
    requires { FitsKind kind vars.old }
    ensures { FitsKind kind vars.new }
{
    carried_out(rt, alloc, types, kind, vars, call).as_slice() == wanted
}

/// An operation of a Cell of value 3, the value after it, and what it returns at last.
const CELL: &[(Call, &[u8], &[u8])] = &[
    (
        (b"Set", &[Given::Number { n: 5 }], Status::Full),
        b"[5]",
        b"[]",
    ),
    ((b"Get", &[], Status::Full), b"[3]", b"[3]"),
    ((b"Save", &[], Status::Full), b"[3]", b"[12]"),
    ((b"Sleep", &[], Status::Full), b"[3]", b"deactivate"),
    ((b"Kill", &[], Status::Full), b"[3]", b"[12]"),
];

/// Whether the values of an Eject are these, as the text of a list.
fn are_shown(rt: &impl Abort, alloc: Global, vars: &Values, wanted: &[u8]) -> bool {
    shown(rt, alloc, vars).as_slice() == wanted
}

/// The values of a Cell of value 3.
fn cell_of_three(rt: &impl Abort, alloc: Global) -> Box<Values> {
    let items = items_of(rt, alloc, &[Given::Number { n: 3 }]);
    Box::new(alloc, Values::plain(items)).expect(rt, "memory")
}

/// Whether an operation of a Cell of value 3 leaves this value and returns this.
fn cell_answers(
    rt: &impl Abort,
    alloc: Global,
    types: &Types,
    call: Call,
    (after, wanted): (&[u8], &[u8]),
) -> bool {
    let kind = kind_of(Native::Cell);
    let mut vars = cell_of_three(rt, alloc);
    returns(rt, alloc, types, kind, &mut vars, call, wanted) && are_shown(rt, alloc, &vars, after)
}

#[test]
fn a_cell_takes_its_turns(rt: HostRuntime) {
    let types = native(&rt, rt.alloc());
    for (i, &(call, after, wanted)) in CELL.iter().enumerate() {
        assert!(rt;
            cell_answers(&rt, rt.alloc(), &types, call, (after, wanted)),
            "operation {i}"
        );
    }
}

/// Operations of a new Directory, and what they return.
const DIRECTORY: &[(Call, &[u8])] = &[
    (
        (
            b"AddEntry",
            &[Given::Name { bytes: b"a" }, Given::NoCap],
            Status::Ok,
        ),
        b"[0]",
    ),
    (
        (
            b"AddEntry",
            &[Given::Name { bytes: b"a" }, Given::NoCap],
            Status::Ok,
        ),
        b"[1]",
    ),
    (
        (
            b"AddEntry",
            &[Given::Name { bytes: b"b" }, Given::NoCap],
            Status::Full,
        ),
        b"[3]",
    ),
    ((b"List", &[], Status::Ok), b"[[\"a\", \"b\"]]"),
];

/// Operations of a new Lines, and what they return.
const LINES: &[(Call, &[u8])] = &[
    (
        (b"Transfer", &[Given::Number { n: 0 }], Status::Ok),
        b"[3, \"\"]",
    ),
    (
        (b"Fill", &[Given::Names { all: &[b"x"] }], Status::Ok),
        b"[0]",
    ),
    (
        (b"Transfer", &[Given::Number { n: 0 }], Status::Ok),
        b"[0, \"x\"]",
    ),
];

/// An operation of a new Sink, and what it returns.
const SINK: &[(Call, &[u8])] = &[((b"Read", &[], Status::Ok), b"[[]]")];

/// Whether an Eject starts from what is kept of these values.
fn starts_again(rt: &impl Abort, alloc: Global, types: &Types, kind: Kind, vars: &Values) -> bool {
    let kept = kept_of(rt, alloc, types, kind, vars);
    started(rt, alloc, types, &kept).is_some()
}

/// Whether an operation returns this, and an Eject starts from what is kept after it.
fn answers(
    rt: &impl Abort,
    alloc: Global,
    types: &Types,
    kind: Kind,
    vars: &mut Values,
    call: Call,
    wanted: &[u8],
) -> bool
    requires { FitsKind kind vars.old }
    ensures { FitsKind kind vars.new }
{
    returns(rt, alloc, types, kind, vars, call, wanted)
        && starts_again(rt, alloc, types, kind, vars)
}

/// A new Eject of a native type carries out the operations, and each returns what stands beside it.
fn carries_out(
    rt: &impl Abort,
    alloc: Global,
    types: &Types,
    native: Native,
    calls: &[(Call, &'static [u8])],
) {
    let kind = kind_of(native);
    let mut vars = new_values(rt, alloc, types, kind);
    for (i, &(call, wanted)) in calls.iter().enumerate() {
        assert!(rt;
            answers(rt, alloc, types, kind, &mut vars, call, wanted),
            "{native:?}, operation {i}"
        );
    }
}

#[test]
fn native_types_carry_out_operations(rt: HostRuntime) {
    let types = native(&rt, rt.alloc());
    for &(native, calls) in &[
        (Native::Directory, DIRECTORY),
        (Native::Lines, LINES),
        (Native::Sink, SINK),
    ] {
        carries_out(&rt, rt.alloc(), &types, native, calls);
    }
}
