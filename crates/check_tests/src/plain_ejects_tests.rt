use active_part::Part;
use capability::Body;
use checkpoint::Wish;
use eden_value::texted;
use edentypes::{find, first_values};
use epl_syntax::Types;
use passive_store::Pick;
use plain_ejects::*;
use std::alloc::Global;
use std::process::Abort;

/// A new Cell.
fn cell(rt: &impl Abort, alloc: Global) -> Option<PlainEject> {
    let types = Types::native(alloc).expect(rt, "memory");
    let bytes = Vec::from_slice(alloc, b"Cell").expect(rt, "memory");
    let name = texted(bytes).expect(rt, "memory");
    let Some(kind) = find(&types, &name) else {
        return None;
    };
    let vars = first_values(alloc, &types, kind).expect(rt, "memory");
    let part = Part::fresh(alloc, &types, kind, vars).expect(rt, "memory");
    Some(PlainEject::created(alloc, part))
}

/// A put of one byte.
fn put(rt: &impl Abort, alloc: Global) -> Wish {
    let items = Vec::from_slice(alloc, &[7]).expect(rt, "memory");
    let body = Body { items };
    Wish::Put { body }
}

/// A put of one byte is in doubt.
fn doubt(rt: &impl Abort, alloc: Global, eject: &mut PlainEject) {
    let wish = put(rt, alloc);
    if is_within_limit(&wish) {
        eject.leave_in_doubt(wish);
    } else {
        assert!(rt; false);
    }
}

/// A call joins the queue, where there is a place for it.
fn queue(rt: &impl Abort, eject: &mut PlainEject, call: u32) {
    assert!(rt; !eject.is_full());
    eject.enqueue(call, 0).expect(rt, "memory");
}

/// How many calls are turned away, of a passive Eject.
fn turned_away(alloc: Global, eject: &mut PlainEject) -> usize {
    if eject.part.is_some() {
        return 0;
    }
    eject.turn_away(alloc).items.len()
}

/// A new Cell with two calls queued, the second behind the end of its active part.
fn queue_stays(rt: &impl Abort, alloc: Global) {
    let Some(mut eject) = cell(rt, alloc) else {
        assert!(rt; false);
        return;
    };
    queue(rt, &mut eject, 1);
    assert!(rt; eject.is_active());
    assert!(rt; eject.deactivate().is_some());
    assert!(rt; !eject.is_there());
    queue(rt, &mut eject, 2);
    assert!(rt; turned_away(alloc, &mut eject) == 2);
    assert!(rt; turned_away(alloc, &mut eject) == 0);
}

#[test]
fn a_queue_stays_behind_the_active_part(rt: HostRuntime) {
    queue_stays(&rt, rt.alloc());
}

/// A new Cell that falls with a put in doubt, which was not made; and then with one that was.
fn doubt_is_settled(rt: &impl Abort, alloc: Global) {
    let Some(mut eject) = cell(rt, alloc) else {
        assert!(rt; false);
        return;
    };
    doubt(rt, alloc, &mut eject);
    eject.fall(alloc);
    assert!(rt; !eject.is_active());
    assert!(rt; eject.is_there());
    eject.settle(Pick::Old);
    assert!(rt; !eject.is_there());
    doubt(rt, alloc, &mut eject);
    eject.settle(Pick::New);
    assert!(rt; eject.is_there());
    eject.keep(Wish::Delete);
    assert!(rt; !eject.is_there());
}

#[test]
fn a_change_in_doubt_is_settled(rt: HostRuntime) {
    doubt_is_settled(&rt, rt.alloc());
}

/// Bodies by their lengths, at the limit and one past it.
const LENGTHS: [(usize, bool); 3] = [(0, true), (262_144, true), (262_145, false)];

/// Whether bodies of these lengths are within the limit.
fn lengths_are_bounded(rt: &impl Abort, alloc: Global) {
    for &(length, within) in &LENGTHS {
        let items = vec![in alloc; 7u8; length].expect(rt, "memory");
        let wish = Wish::Put {
            body: Body { items },
        };
        assert!(rt; is_within_limit(&wish) == within);
    }
    assert!(rt; is_within_limit(&Wish::Delete));
}

#[test]
fn a_body_is_within_its_limit(rt: HostRuntime) {
    lengths_are_bounded(&rt, rt.alloc());
}
