use capability::{Body, CallNumbers, Uid};
use checkpoint::Wish;
use eden_value::Status;
use journal::{BootEnd, RequestEnd};
use passive_store::Pick;
use plain_choices::Work;
use plain_ejects::{PlainEject, is_within_limit};
use plain_stores::*;
use std::alloc::Global;
use std::process::Abort;

/// The Eject of each test.
const ONE: Uid = Uid {
    node: 1,
    epoch: 1,
    serial: 1,
};

/// What happens to a node.
#[derive(Clone, Copy)]
enum Happens {
    /// A put of so many bytes joins the requests.
    Put(usize),
    /// A removal joins them.
    Remove,
    /// The first request makes a device call, and goes on.
    Part,
    /// It is done.
    Done,
    /// A device call of its own fails.
    Fault,
    /// The node crashes.
    Fall,
    /// It boots, with this epoch and this pick.
    Boot(u32, Option<Pick>),
    /// A settling makes this pick.
    Settle(Pick),
}

/// What is seen of a node: whether a change is in doubt, whether that is to be settled, and whether something is kept of the Eject.
#[derive(Clone, Copy)]
struct Seen {
    doubt: bool,
    settle: bool,
    kept: bool,
}

/// Nothing is kept, and nothing in doubt.
const NOTHING: Seen = Seen {
    doubt: false,
    settle: false,
    kept: false,
};

/// A change is in doubt, and the store is at work on it.
const AT_WORK: Seen = Seen {
    doubt: true,
    settle: false,
    kept: false,
};

/// A change is in doubt, and to be settled.
const IN_DOUBT: Seen = Seen {
    doubt: true,
    settle: true,
    kept: false,
};

/// Something is kept.
const KEPT: Seen = Seen {
    doubt: false,
    settle: false,
    kept: true,
};

/// Something is kept, and a change of it is in doubt.
const KEPT_IN_DOUBT: Seen = Seen {
    doubt: true,
    settle: true,
    kept: true,
};

/// A passive Eject of which nothing is kept.
fn nothing_yet(alloc: Global) -> PlainEject {
    PlainEject {
        part: None,
        waiting: CallNumbers {
            items: Vec::new(alloc),
        },
        kept: None,
        doubt: None,
    }
}

/// A node with a blank disk of this size, booted once, that has an Eject.
fn booted(rt: &impl Abort, alloc: Global, size: u32) -> PlainNode {
    let mut node = PlainNode::blank(alloc, 1, size);
    assert!(rt; node.may_boot(1, BootEnd::Up, None, true));
    node.boot(1, BootEnd::Up, None, true);
    let entry = PlainEntry {
        uid: ONE,
        eject: nothing_yet(alloc),
    };
    match node.ejects.push(entry) {
        Ok(()) => {}
        Err(_) => assert!(rt; false),
    }
    node
}

/// A put of so many bytes.
fn put(rt: &impl Abort, alloc: Global, length: usize) -> Wish {
    let items = vec![in alloc; 7u8; length].expect(rt, "memory");
    let body = Body { items };
    Wish::Put { body }
}

/// The store is asked for a change.
fn ask(rt: &impl Abort, node: &mut PlainNode, wish: Wish) {
    if is_within_limit(&wish) {
        node.ask(ONE, 1, wish).expect(rt, "memory");
    } else {
        assert!(rt; false);
    }
}

/// Something happens to the node.
fn let_happen(rt: &impl Abort, alloc: Global, node: &mut PlainNode, what: Happens) {
    match what {
        Happens::Put(length) => ask(rt, node, put(rt, alloc, length)),
        Happens::Remove => ask(rt, node, Wish::Delete),
        Happens::Part => {
            node.doubt_first().expect(rt, "memory");
            node.make_call();
        }
        Happens::Done => {
            node.keep_first().expect(rt, "memory");
            node.end_first(Status::Ok);
        }
        Happens::Fault => {
            node.doubt_first().expect(rt, "memory");
            node.end_first(Status::StoreFault);
        }
        Happens::Fall => node.fall(alloc),
        Happens::Boot(epoch, pick) => {
            assert!(rt; node.may_boot(epoch, BootEnd::Up, pick, true));
            node.boot(epoch, BootEnd::Up, pick, true);
        }
        Happens::Settle(pick) => node.settle(Some(pick)),
    }
}

/// Whether the node is seen so.
fn is_seen(node: &PlainNode, seen: Seen) -> bool {
    node.is_in_doubt() == seen.doubt
        && node.is_to_settle() == seen.settle
        && node.is_kept(ONE) == seen.kept
}

/// A put that is done; then a removal that fails, a crash and a boot that finds it was not made; and one that finds it was.
const WAY: [(Happens, Seen); 14] = [
    (Happens::Put(1), NOTHING),
    (Happens::Part, AT_WORK),
    (Happens::Done, KEPT),
    (Happens::Remove, KEPT),
    (Happens::Fault, KEPT_IN_DOUBT),
    (Happens::Fall, KEPT_IN_DOUBT),
    (Happens::Boot(2, Some(Pick::Old)), KEPT),
    (Happens::Remove, KEPT),
    (Happens::Fault, KEPT_IN_DOUBT),
    (Happens::Settle(Pick::New), NOTHING),
    (Happens::Put(1), NOTHING),
    (Happens::Fault, IN_DOUBT),
    (Happens::Fall, IN_DOUBT),
    (Happens::Boot(3, Some(Pick::New)), KEPT),
];

/// Goes the way, step by step.
fn goes_the_way(rt: &impl Abort, alloc: Global) {
    let mut node = booted(rt, alloc, 4_194_304);
    for &(what, seen) in &WAY {
        let_happen(rt, alloc, &mut node, what);
        assert!(rt; is_seen(&node, seen));
    }
}

#[test]
fn a_put_and_a_removal_go_their_way(rt: HostRuntime) {
    goes_the_way(&rt, rt.alloc());
}

/// Of a turn on a disk of 32 blocks, with the epoch stored, for the first request: what it is about, and an end that it may have.
const TURNS: [(Happens, Work, RequestEnd); 5] = [
    (Happens::Put(28_616), Work::Calls, RequestEnd::Part),
    (Happens::Put(28_617), Work::WithoutRoom, RequestEnd::Full),
    (Happens::Remove, Work::Unkept, RequestEnd::Done),
    (Happens::Put(0), Work::Calls, RequestEnd::Done),
    (Happens::Put(0), Work::Calls, RequestEnd::Stop),
];

/// The turn of a node with this request alone.
fn takes_turn(rt: &impl Abort, alloc: Global, request: Happens, work: Work, end: RequestEnd) {
    let mut node = booted(rt, alloc, 32_768);
    assert!(rt; node.room() == Some(28_616));
    let_happen(rt, alloc, &mut node, request);
    let found = match node.requests.front() {
        Some(first) => node.work_for(first) == work,
        None => false,
    };
    assert!(rt; found);
    assert!(rt; node.may_take_turn(ONE, end, None));
    assert!(rt; !node.may_take_turn(ONE, end, Some(Pick::Old)));
}

#[test]
fn a_turn_is_about_its_first_request(rt: HostRuntime) {
    for &(request, work, end) in &TURNS {
        takes_turn(&rt, rt.alloc(), request, work, end);
    }
}
