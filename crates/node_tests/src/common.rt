//! What tests of several parts of a node have: calls of the shell, and what their arguments hold. Where there is no memory, a test ends.
ghost use Rattle.std.specs.Prelude.{◌≡◌, ◌<◌, true, length};

use capability::{Cap, Rights, Uid};
use checkpoint::BootFall;
use eden_value::{Items, Value};
use epl_syntax::Types;
use history_tests::common::text;
use invocation::{Asker, Calls};
use locator::Places;
use std::alloc::Global;
use std::fmt::{Debug, Display};
use std::process::Abort;

/// What is seen in a case is what is wanted there.
pub fn assert_same<T: Debug + PartialEq>(
    rt: &impl Abort,
    seen: &T,
    wanted: &T,
    case: impl Display + Drop,
) {
    assert_eq!(rt; *seen, *wanted, "case: {case}");
}

/// The one node is up.
pub fn places() -> Places {
    let mut places = Places::new(1);
    places.set_up(1, true);
    places
}

/// How a boot fell, without its disk.
pub fn fall_of<D: Drop>((_, fall): (D, BootFall)) -> BootFall {
    fall
}

/// The native types.
pub fn native_types(rt: &impl Abort, alloc: Global) -> Box<Types> {
    let types = Types::native(alloc).expect(rt, "memory");
    Box::new(alloc, types).expect(rt, "memory")
}

/// No call was asked yet.
pub fn no_calls(rt: &impl Abort, alloc: Global) -> Box<Calls> {
    let calls = Calls::new(alloc).expect(rt, "memory");
    Box::new(alloc, calls).expect(rt, "memory")
}

/// Whether there are fewer than a hundred calls.
pub fn are_few(calls: &Calls) -> bool
    ensures { result ≡ true → length calls.now.calls < 100 }
{
    match calls.call(100) {
        Some(_) => false,
        None => true,
    }
}

/// This number, or nothing.
pub fn integers(rt: &impl Abort, alloc: Global, number: Option<i64>) -> Items {
    let mut values = Vec::new(alloc);
    if let Some(n) = number {
        values.push(Value::Int { n }).expect(rt, "memory");
    }
    Items { values }
}

/// The one number that values are.
pub fn number_in(items: &Items) -> Option<i64> {
    match items.values.as_slice() {
        [Value::Int { n }] => Some(*n),
        _ => None,
    }
}

/// The shell asks an Eject for an operation with this number, or with none.
pub fn ask(
    rt: &impl Abort,
    alloc: Global,
    calls: &mut Calls,
    uid: Uid,
    operation: &[u8],
    number: Option<i64>,
) {
    assert!(rt; are_few(calls), "too many calls");
    let target = Cap {
        uid,
        rights: Rights { bits: 65_535 },
    };
    let asker = Asker::Shell {
        name: text(alloc, b"a").expect(rt, "memory"),
    };
    let operation = text(alloc, operation).expect(rt, "memory");
    let args = integers(rt, alloc, number);
    let _asked = calls
        .ask(alloc, asker, target, operation, args, &places())
        .expect(rt, "memory");
}
