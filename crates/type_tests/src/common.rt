//! What the tests of several parts have in common: values from constants, and values as texts.
ghost use Rattle.std.specs.Prelude.{◌≡◌};

use capability::{Cap, Rights, Uid};
use eden_value::{Items, Listed, Txt, Value, copy_items, listed, print, texted};
use epl_syntax::Effect;
use std::alloc::Global;
use std::process::Abort;

/// A value that is given, as a constant.
#[derive(Clone, Copy)]
pub enum Given {
    Number { n: i64 },
    Name { bytes: &'static [u8] },
    NoCap,
    /// A capability of node 1 with this serial and all rights.
    FullCap { serial: u32 },
    True,
    Names { all: &'static [&'static [u8]] },
    /// Capabilities of node 1 with these serials, or none.
    Caps { all: &'static [Option<u32>] },
}

/// A capability of a node, with a serial and rights.
pub fn cap_of(parts: Option<(u8, u32, u16)>) -> Option<Cap> {
    match parts {
        Some((node, serial, bits)) => Some(Cap {
            uid: Uid {
                node,
                epoch: 1,
                serial,
            },
            rights: Rights { bits },
        }),
        None => None,
    }
}

/// A text of these bytes.
pub fn text(rt: &impl Abort, alloc: Global, bytes: &[u8]) -> Txt
    ensures { result ≡ bytes.now }
{
    let bytes = Vec::from_slice(alloc, bytes).expect(rt, "memory");
    texted(bytes).expect(rt, "memory")
}

fn name(rt: &impl Abort, alloc: Global, bytes: &[u8]) -> Value {
    Value::Text {
        text: text(rt, alloc, bytes),
    }
}

fn names(rt: &impl Abort, alloc: Global, all: &[&[u8]]) -> Listed {
    let mut values = Vec::new(alloc);
    for bytes in all {
        values.push(name(rt, alloc, *bytes)).expect(rt, "memory");
    }
    listed(values).expect(rt, "memory")
}

fn caps(rt: &impl Abort, alloc: Global, all: &[Option<u32>]) -> Listed {
    let mut values = Vec::new(alloc);
    for serial in all {
        let parts = match serial {
            Some(serial) => Some((1, *serial, 1)),
            None => None,
        };
        values
            .push(Value::Cap { cap: cap_of(parts) })
            .expect(rt, "memory");
    }
    listed(values).expect(rt, "memory")
}

fn value_of(rt: &impl Abort, alloc: Global, given: Given) -> Value {
    match given {
        Given::Number { n } => Value::Int { n },
        Given::Name { bytes } => name(rt, alloc, bytes),
        Given::NoCap => Value::Cap { cap: None },
        Given::FullCap { serial } => Value::Cap {
            cap: cap_of(Some((1, serial, 0xFFFF))),
        },
        Given::True => Value::Bool { b: true },
        Given::Names { all } => Value::List {
            items: names(rt, alloc, all),
        },
        Given::Caps { all } => Value::List {
            items: caps(rt, alloc, all),
        },
    }
}

/// The values that are given.
pub fn items_of(rt: &impl Abort, alloc: Global, all: &[Given]) -> Items {
    let mut values = Vec::new(alloc);
    for given in all {
        values
            .push(value_of(rt, alloc, *given))
            .expect(rt, "memory");
    }
    Items { values }
}

/// The values as the text of a list.
pub fn printed(rt: &impl Abort, alloc: Global, items: Items) -> Vec<u8> {
    let mut out = Vec::new(alloc);
    let items = listed(items.values).expect(rt, "memory");
    print(alloc, &Value::List { items }, &mut out).expect(rt, "memory");
    out
}

/// What an operation returns, as the text of a list, or that it ends the active part. Nothing for another effect.
pub fn returned(rt: &impl Abort, alloc: Global, effect: &Effect) -> Vec<u8> {
    match effect {
        Effect::Return { results } => {
            printed(rt, alloc, copy_items(alloc, results).expect(rt, "memory"))
        }
        Effect::Deactivate => Vec::from_slice(alloc, b"deactivate").expect(rt, "memory"),
        _ => Vec::new(alloc),
    }
}
