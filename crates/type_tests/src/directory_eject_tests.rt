ghost use Rattle.std.specs.Prelude.{◌≡◌, ◌∷◌, [], true};
ghost use Rattle.epl_syntax.specs.declared.types.Native.TheVariants as types;
ghost use Rattle.epl_syntax.specs.Edentype.{native};
ghost use Rattle.epl_syntax.specs.Meaning.{durable_kinds};
ghost use Rattle.epl_syntax.specs.Kinds.{have_shapes};
ghost use Rattle.eden_value.specs.Datum.{text as text_datum};

use crate::common::{Given, cap_of, items_of, printed, returned, text};
use capability::Cap;
use directory_eject::*;
use eden_value::{Items, Status, Value, listed};
use epl_syntax::{Answer, Effect};
use std::alloc::Global;
use std::process::Abort;

/// An operation takes a turn.
fn turned(
    rt: &impl Abort,
    alloc: Global,
    directory: &mut Directory,
    stage: &mut Stage,
    answer: Answer,
) -> Box<Effect> {
    let effect = native_turn(alloc, directory, stage, answer).expect(rt, "memory");
    Box::new(alloc, effect).expect(rt, "memory")
}

/// The stage in which an operation of this name begins.
fn begun(rt: &impl Abort, alloc: Global, name: &[u8], args: &Items) -> Box<Stage> {
    let operation = text(rt, alloc, name);
    let stage = native_begin(alloc, &operation, args).expect(rt, "memory");
    Box::new(alloc, stage).expect(rt, "memory")
}

/// The last effect of an operation. The checkpoint of a change is answered with the status.
fn last_effect(
    rt: &impl Abort,
    alloc: Global,
    directory: &mut Directory,
    stage: &mut Stage,
    status: Status,
) -> Box<Effect> {
    let effect = turned(rt, alloc, directory, stage, Answer::Go);
    if matches!(*effect, Effect::Checkpoint) {
        turned(rt, alloc, directory, stage, Answer::Code { status })
    } else {
        effect
    }
}

/// What an operation returns, as the text of a list.
fn carried_out(
    rt: &impl Abort,
    alloc: Global,
    directory: &mut Directory,
    name: &[u8],
    args: &Items,
    status: Status,
) -> Vec<u8> {
    let mut stage = begun(rt, alloc, name, args);
    let effect = last_effect(rt, alloc, directory, &mut stage, status);
    returned(rt, alloc, &effect)
}

/// The values of an operation that takes a name.
fn named(rt: &impl Abort, alloc: Global, name: &[u8]) -> Items
    ensures { result ≡ text_datum name.now ∷ [] }
{
    let name = Value::Text {
        text: text(rt, alloc, name),
    };
    let values = vec![in alloc; name].expect(rt, "memory");
    Items { values }
}

/// The values of an operation that takes a name and a capability.
fn entry(rt: &impl Abort, alloc: Global, name: &[u8], cap: Option<Cap>) -> Items {
    let mut items = named(rt, alloc, name);
    items.values.push(Value::Cap { cap }).expect(rt, "memory");
    items
}

fn add(
    rt: &impl Abort,
    alloc: Global,
    directory: &mut Directory,
    name: &[u8],
    cap: Option<Cap>,
    status: Status,
) -> Vec<u8> {
    let args = entry(rt, alloc, name, cap);
    carried_out(rt, alloc, directory, b"AddEntry", &args, status)
}

fn look_up(rt: &impl Abort, alloc: Global, directory: &mut Directory, name: &[u8]) -> Vec<u8> {
    let args = named(rt, alloc, name);
    carried_out(rt, alloc, directory, b"LookUp", &args, Status::Ok)
}

fn delete(
    rt: &impl Abort,
    alloc: Global,
    directory: &mut Directory,
    name: &[u8],
    status: Status,
) -> Vec<u8> {
    let args = named(rt, alloc, name);
    carried_out(rt, alloc, directory, b"DeleteEntry", &args, status)
}

fn list(rt: &impl Abort, alloc: Global, directory: &mut Directory) -> Vec<u8> {
    let nothing = Items {
        values: Vec::new(alloc),
    };
    carried_out(rt, alloc, directory, b"List", &nothing, Status::Ok)
}

/// A call of one operation.
#[derive(Clone, Copy)]
enum Call {
    /// A name, the node, the serial and the rights of a capability, and the status of the checkpoint.
    Add(&'static [u8], Option<(u8, u32, u16)>, Status),
    LookUp { name: &'static [u8] },
    /// A name, and the status of the checkpoint.
    Delete(&'static [u8], Status),
    List,
}

fn called(rt: &impl Abort, alloc: Global, directory: &mut Directory, call: Call) -> Vec<u8> {
    match call {
        Call::Add(name, cap, status) => add(rt, alloc, directory, name, cap_of(cap), status),
        Call::LookUp { name } => look_up(rt, alloc, directory, name),
        Call::Delete(name, status) => delete(rt, alloc, directory, name, status),
        Call::List => list(rt, alloc, directory),
    }
}

/// Whether the directory answers a call with this.
fn is_answered(
    rt: &impl Abort,
    alloc: Global,
    directory: &mut Directory,
    call: Call,
    wanted: &str,
) -> bool {
    called(rt, alloc, directory, call).as_slice() == wanted.as_bytes()
}

/// The directory answers each call with what stands beside it.
fn answers(
    rt: &impl Abort,
    alloc: Global,
    directory: &mut Directory,
    calls: &[(Call, &'static str)],
) {
    for (i, &(call, wanted)) in calls.iter().enumerate() {
        assert!(rt; is_answered(rt, alloc, directory, call, wanted), "call {i}");
    }
}

/// A directory of no entries.
fn empty(rt: &impl Abort, alloc: Global) -> Box<Directory> {
    Box::new(alloc, Directory::new(alloc)).expect(rt, "memory")
}

const CALLS: &[(Call, &str)] = &[
    (Call::LookUp { name: b"a" }, "[1, <none>]"),
    (Call::List, "[[]]"),
    (Call::Add(b"ann", Some((1, 2, 0xFFFF)), Status::Ok), "[0]"),
    (Call::Add(b"bob", Some((2, 1, 1)), Status::Ok), "[0]"),
    (Call::Add(b"cy", None, Status::Full), "[3]"),
    (Call::Add(b"bob", None, Status::Ok), "[1]"),
    (Call::LookUp { name: b"bob" }, "[0, <2.1.1:0001>]"),
    (Call::LookUp { name: b"cy" }, "[0, <none>]"),
    (Call::List, "[[\"ann\", \"bob\", \"cy\"]]"),
    (Call::Delete(b"ann", Status::Ok), "[0]"),
    (Call::Delete(b"ann", Status::Ok), "[1]"),
    (Call::Delete(b"cy", Status::StoreFault), "[3]"),
    (Call::Add(b"ann", Some((3, 1, 2)), Status::Ok), "[0]"),
    (Call::List, "[[\"bob\", \"ann\"]]"),
    (Call::LookUp { name: b"ann" }, "[0, <3.1.1:0002>]"),
];

#[test]
fn names_keep_their_order(rt: HostRuntime) {
    let mut directory = empty(&rt, rt.alloc());
    answers(&rt, rt.alloc(), &mut directory, CALLS);
}

/// Calls of a directory with 256 entries, of which `aa` is one.
const FULL: &[(Call, &str)] = &[
    (Call::Add(b"more", None, Status::Ok), "[2]"),
    (Call::Add(b"aa", None, Status::Ok), "[1]"),
    (Call::Delete(b"aa", Status::Ok), "[0]"),
    (Call::Add(b"more", None, Status::Ok), "[0]"),
];

/// Whether the entry is added whose two letters spell a number.
fn adds(rt: &impl Abort, alloc: Global, directory: &mut Directory, number: u8) -> bool {
    let name = [b'a' + number / 16, b'a' + number % 16];
    let answer = add(rt, alloc, directory, &name, None, Status::Ok);
    answer.as_slice() == b"[0]".as_slice()
}

/// 256 entries are added.
fn adds_all(rt: &impl Abort, alloc: Global, directory: &mut Directory) {
    for number in 0..256u32 {
        assert!(rt; adds(rt, alloc, directory, number as u8), "entry {number}");
    }
}

#[test]
fn a_directory_has_256_entries_at_most(rt: HostRuntime) {
    let mut directory = empty(&rt, rt.alloc());
    adds_all(&rt, rt.alloc(), &mut directory);
    answers(&rt, rt.alloc(), &mut directory, FULL);
}

/// Stored names and capabilities, and whether a directory starts from them.
const STORED: &[(&[Given], bool)] = &[
    (
        &[
            Given::Names { all: &[b"a", b"b"] },
            Given::Caps {
                all: &[Some(0), Some(1)],
            },
        ],
        true,
    ),
    (
        &[
            Given::Names { all: &[b"a", b"a"] },
            Given::Caps {
                all: &[Some(0), Some(1)],
            },
        ],
        false,
    ),
    (
        &[
            Given::Names { all: &[b"a", b"b"] },
            Given::Caps { all: &[Some(0)] },
        ],
        false,
    ),
    (
        &[
            Given::Names { all: &[b"a", b"b"] },
            Given::Caps {
                all: &[Some(0), Some(1), Some(2)],
            },
        ],
        false,
    ),
];

/// Whether a directory starts from these values.
fn starts(rt: &impl Abort, alloc: Global, given: &[Given]) -> bool {
    native_start(&items_of(rt, alloc, given))
}

#[test]
fn stored_values_have_as_many_capabilities_as_names_and_no_name_twice(rt: HostRuntime) {
    for (i, &(given, wanted)) in STORED.iter().enumerate() {
        assert!(rt; starts(&rt, rt.alloc(), given) == wanted, "at {i}");
    }
}

/// What is kept of a directory with one name and no capability.
fn one_entry(rt: &impl Abort, alloc: Global) -> Items
    ensures { have_shapes result (durable_kinds (native types.Directory)) ≡ true }
{
    let names = Value::List {
        items: listed(named(rt, alloc, b"ann").values).expect(rt, "memory"),
    };
    let no_cap = vec![in alloc; Value::Cap { cap: None }].expect(rt, "memory");
    let held = Value::List {
        items: listed(no_cap).expect(rt, "memory"),
    };
    Items {
        values: vec![in alloc; names, held].expect(rt, "memory"),
    }
}

/// The directory that was kept with one name and no capability.
fn kept(rt: &impl Abort, alloc: Global) -> Box<Directory> {
    let durable = one_entry(rt, alloc);
    assert!(rt; native_start(&durable), "it starts");
    let directory = Directory::from_values(alloc, &durable).expect(rt, "memory");
    Box::new(alloc, directory).expect(rt, "memory")
}

/// Whether the values of a directory are these, as the text of a list.
fn has_values(rt: &impl Abort, alloc: Global, directory: &Directory, wanted: &str) -> bool {
    let values = directory.values(alloc).expect(rt, "memory");
    printed(rt, alloc, values).as_slice() == wanted.as_bytes()
}

/// An entry, and the answer to it.
const SECOND: &[(Call, &str)] = &[(Call::Add(b"bob", Some((1, 2, 3)), Status::Ok), "[0]")];

#[test]
fn a_directory_starts_from_what_was_kept(rt: HostRuntime) {
    let mut directory = kept(&rt, rt.alloc());
    answers(&rt, rt.alloc(), &mut directory, SECOND);
    let wanted = "[[\"ann\", \"bob\"], [<none>, <1.1.2:0003>]]";
    assert!(rt; has_values(&rt, rt.alloc(), &directory, wanted));
}
