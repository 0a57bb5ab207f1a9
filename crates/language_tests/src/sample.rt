//! Types whose bodies the tests run.
use capability::Uid;
use eden_value::{Items, Txt, Value, listed, texted};
use epl_syntax::Name;
use std::alloc::Global;
use std::process::Abort;

/// The Eject of which they are.
pub(crate) const ME: Uid = Uid {
    node: 1,
    epoch: 1,
    serial: 1,
};

/// An operation with the parameter `p` and a variable `n`, which stands before the type's `n`.
pub(crate) const VALUED: &[u8] =
    b"edentype A durable n : int = 0 durable l : list of int = list(int) \
    operation O needs 1 class all (p : int) returns () var n : int = 0 l := l & [2] return (1, p) end endtype";

/// Version 3 of a type with the variables `n`, `m` and `l`.
pub(crate) const TURNED: &[u8] = b"edentype A version 3 \
    durable n : int = 0 durable m : int = 0 durable l : list of int = list(int) class all limit 1 \
    monitor M condition ready end \
    operation Adds needs 1 class all (p : int) returns (int) var i : int = 0 l := l & [p] n := l[1] return (n) end \
    operation Counts needs 1 class all (p : int) returns (int) var i : int = 0 \
    while i < 3 do n := n + 2 i := i + 1 end return (n) end \
    operation Spins needs 1 class all (p : int) returns (int) var i : int = 0 while true do n := n + 1 end end \
    operation Guards needs 1 class all (p : int) returns (int) var i : int = 0 \
    with M do n := n + 1 wait ready end return (n) end \
    operation Fails needs 1 class all (p : int) returns (int) var i : int = 0 n := n + 1 n := n / 0 return (n) end \
    operation Asks needs 1 class all (p : int) returns (int) var i : int = 0 \
    invoke self.Asks() status n gives (m) return (m) end \
    process P yield end \
    upgrade from 1 (old : int) n := old / 2 end \
    upgrade from 2 (old : int) n := old / 0 end endtype";

pub(crate) fn text(rt: &impl Abort, alloc: Global, bytes: &[u8]) -> Txt {
    let bytes = Vec::from_slice(alloc, bytes).expect(rt, "memory");
    texted(bytes).expect(rt, "memory")
}

/// A name that stands nowhere in a text.
pub(crate) fn named(rt: &impl Abort, alloc: Global, bytes: &[u8]) -> Name {
    let text = text(rt, alloc, bytes);
    Name { text, place: 0 }
}

/// This number alone.
pub(crate) fn only(rt: &impl Abort, alloc: Global, n: i64) -> Items {
    let values = vec![in alloc; Value::Int { n }].expect(rt, "memory");
    Items { values }
}

/// The list of this number.
pub(crate) fn list_of_one(rt: &impl Abort, alloc: Global, n: i64) -> Value {
    let items = listed(only(rt, alloc, n).values).expect(rt, "memory");
    Value::List { items }
}
