ghost use Rattle.std.specs.Prelude.{◌≤◌};

use crate::common::assert_same;
use agenda::Agenda;
use capability::Uid;
use ejects::Ejects;
use journal::Key;
use std::alloc::Global;
use std::process::Abort;

/// A node of this number, without Ejects.
fn no_ejects(rt: &impl Abort, alloc: Global, number: u8) -> Box<Ejects>
    requires { number ≤ 8 }
{
    let ejects = Ejects::new(alloc, number, 1).expect(rt, "memory");
    Box::new(alloc, ejects).expect(rt, "memory")
}

/// An agenda on which nothing is noted.
fn new_agenda(rt: &impl Abort, alloc: Global) -> Box<Agenda> {
    Box::new(alloc, Agenda::new(alloc)).expect(rt, "memory")
}

/// The station and the kind of a key.
fn shown(key: Option<Key>) -> Option<(u8, u8)> {
    match key {
        Some(key) => Some((key.station, key.kind)),
        None => None,
    }
}

/// Whether the store has a request, and the station and the kind of the next key.
const ROWS: &[(bool, Option<(u8, u8)>)] = &[(false, None), (true, Some((3, 5))), (true, None)];

/// The keys that an agenda gives, one after the other.
fn check_keys(rt: &impl Abort, agenda: &Agenda, ejects: &Ejects) {
    let mut found = None;
    for &(pending, wanted) in ROWS {
        found = agenda.next(ejects, None, pending, found);
        assert_same(rt, &shown(found), &wanted, "the keys");
    }
}

#[test]
fn a_node_of_no_ejects_has_the_turns_of_its_store(rt: HostRuntime) {
    let ejects = no_ejects(&rt, rt.alloc(), 3);
    let mut agenda = new_agenda(&rt, rt.alloc());
    let absent = Uid {
        node: 3,
        epoch: 1,
        serial: 1,
    };
    agenda.note(&ejects, absent).expect(&rt, "memory");
    check_keys(&rt, &agenda, &ejects);
}
