//! What the names in the bodies of types stand for.
use crate::texts::{GATE, ONCE, PEER, TALLY_2, resolved};
use epl_syntax::Binding;
use std::alloc::Global;
use std::process::Abort;

/// A text, and what the names in its bodies stand for, in order.
const NAMES: &[(&[u8], &[Binding])] = &[
    (
        GATE,
        &[
            Binding::Monitor { at: 0 },
            Binding::Variable { at: 0 },
            Binding::Condition { at: 0 },
            Binding::Local { at: 0 },
            Binding::Local { at: 0 },
            Binding::Monitor { at: 0 },
            Binding::Variable { at: 0 },
            Binding::Condition { at: 0 },
        ],
    ),
    // the target, the arguments, the status, the result
    (
        PEER,
        &[
            Binding::Parameter { at: 0 },
            Binding::Parameter { at: 1 },
            Binding::Parameter { at: 0 },
            Binding::Local { at: 0 },
            Binding::Local { at: 1 },
            Binding::Local { at: 0 },
        ],
    ),
    // an upgrade sets variables of the type from its parameters
    (
        TALLY_2,
        &[
            Binding::Variable { at: 0 },
            Binding::Variable { at: 1 },
            Binding::Variable { at: 0 },
            Binding::Parameter { at: 0 },
            Binding::Variable { at: 1 },
            Binding::Parameter { at: 0 },
        ],
    ),
    // a declared process behind an operation
    (
        ONCE,
        &[
            Binding::Monitor { at: 0 },
            Binding::Local { at: 0 },
            Binding::Variable { at: 0 },
            Binding::Local { at: 0 },
            Binding::Monitor { at: 0 },
            Binding::Variable { at: 0 },
        ],
    ),
];

/// The bindings that are known.
fn known(rt: &impl Abort, alloc: Global, bindings: &[Binding]) -> Vec<Binding> {
    let mut known = Vec::new(alloc);
    for binding in bindings {
        if *binding != Binding::ByName {
            known.push(*binding).expect(rt, "memory");
        }
    }
    known
}

/// Whether the table of a text has these bindings and no others that are known, and a place for each byte.
fn has_bindings(rt: &impl Abort, alloc: Global, text: &[u8], wanted: &[Binding]) -> bool {
    let program = resolved(rt, alloc, text);
    let known = known(rt, alloc, &program.bindings);
    known.as_slice() == wanted && program.bindings.len() == text.len()
}

#[test]
fn each_name_has_a_binding(rt: HostRuntime) {
    for (i, &(text, wanted)) in NAMES.iter().enumerate() {
        assert!(rt; has_bindings(&rt, rt.alloc(), text, wanted), "at {i}");
    }
}
