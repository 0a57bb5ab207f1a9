use crate::marked::native_types;
use crate::sample::text;
use epl_syntax::{Native, Types};
use std::alloc::Global;
use std::process::Abort;

const NAMES: &[(&[u8], Option<usize>)] = &[
    (b"Cell", Some(0)),
    (b"Directory", Some(1)),
    (b"Sink", Some(7)),
    (b"Cel", None),
    (b"Sinks", None),
];

const PLACES: &[(usize, Option<Native>)] = &[
    (0, Some(Native::Cell)),
    (7, Some(Native::Sink)),
    (8, None),
];

/// Whether the type of this name is at this place, or where there is no place, no type has the name.
fn is_found(
    rt: &impl Abort,
    alloc: Global,
    types: &Types,
    name: &[u8],
    place: Option<usize>,
) -> bool {
    let name = text(rt, alloc, name);
    types.has(&name) == place.is_some() && types.find(&name) == place
}

/// Each of these places has its native type, and none that is declared.
fn are_places(rt: &impl Abort, types: &Types) {
    for &(place, native) in PLACES {
        assert!(rt;
            types.native_at(place) == native && types.declared_at(place).is_none(),
            "{place}"
        );
    }
}

#[test]
fn every_script_has_the_native_types(rt: HostRuntime) {
    let types = native_types(&rt, rt.alloc());
    for (i, &(name, place)) in NAMES.iter().enumerate() {
        assert!(rt; is_found(&rt, rt.alloc(), &types, name, place), "at {i}");
    }
    are_places(&rt, &types);
}
