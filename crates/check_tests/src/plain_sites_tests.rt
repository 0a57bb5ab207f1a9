ghost use Rattle.std.specs.Prelude.{◌<◌, length, IsTrue};

use active_part::Part;
use capability::{Body, Cap, Rights, Uid};
use checkpoint::Wish;
use eden_model::Asker;
use eden_value::{Items, Status, Txt, texted};
use edentypes::{find, first_values};
use epl_syntax::Types;
use journal::{BootEnd, RequestEnd, StartEnd};
use passive_store::Pick;
use plain_calls::{Place, PlainCalls};
use plain_ejects::is_within_limit;
use plain_sites::*;
use plain_stores::{PlainNode, find as find_eject};
use std::alloc::Global;
use std::process::Abort;

/// A node that is up, and all calls.
#[derive(Drop)]
struct Site {
    types: Types,
    node: PlainNode,
    calls: PlainCalls,
}

/// What a call asks of a Cell, without arguments.
#[derive(Clone, Copy)]
enum Asked {
    /// The value, which needs the second right.
    Get,
    /// A new value, which is lacking.
    Set,
    /// What no Cell has.
    Foo,
}

/// No values.
fn none(alloc: Global) -> Items {
    Items {
        values: Vec::new(alloc),
    }
}

/// A text of these bytes.
fn text(rt: &impl Abort, alloc: Global, bytes: &[u8]) -> Txt {
    let bytes = Vec::from_slice(alloc, bytes).expect(rt, "memory");
    texted(bytes).expect(rt, "memory")
}

/// Node 1 with a blank disk, booted once.
fn booted(rt: &impl Abort, alloc: Global) -> Site {
    let types = Types::native(alloc).expect(rt, "memory");
    let mut node = PlainNode::blank(alloc, 1, 4_194_304);
    node.boot(1, BootEnd::Up, None, true);
    Site {
        types,
        node,
        calls: PlainCalls::new(alloc),
    }
}

/// The uid of the Eject of this serial, in the first epoch of node 1.
fn uid_of(serial: u32) -> Uid {
    Uid {
        node: 1,
        epoch: 1,
        serial,
    }
}

/// A Cell is created, which gets this serial.
fn create(rt: &impl Abort, alloc: Global, site: &mut Site, serial: u32) {
    assert!(rt; next_uid(&site.node) == Ok(uid_of(serial)));
    let name = text(rt, alloc, b"Cell");
    let Some(kind) = find(&site.types, &name) else {
        assert!(rt; false);
        return;
    };
    let vars = first_values(alloc, &site.types, kind).expect(rt, "memory");
    let part = Part::fresh(alloc, &site.types, kind, vars).expect(rt, "memory");
    bear(alloc, &mut site.node, uid_of(serial), part).expect(rt, "memory");
}

/// Whether another call may be asked.
fn may_ask(calls: &PlainCalls) -> bool
    ensures { IsTrue result → length calls.now.calls.items < 4294967295 }
{
    calls.calls.len() < 4_294_967_295
}

/// The shell asks an Eject of node 1; the number of the call.
fn ask(
    rt: &impl Abort,
    alloc: Global,
    site: &mut Site,
    asked: Asked,
    bits: u16,
    serial: u32,
) -> u32 {
    if !may_ask(&site.calls) {
        return 0;
    }
    let name = text(rt, alloc, b"a");
    let operation = match asked {
        Asked::Get => text(rt, alloc, b"Get"),
        Asked::Set => text(rt, alloc, b"Set"),
        Asked::Foo => text(rt, alloc, b"Foo"),
    };
    let target = Cap {
        uid: uid_of(serial),
        rights: Rights { bits },
    };
    site.calls
        .ask(Asker::Shell { name }, target, operation, none(alloc), None)
        .expect(rt, "memory")
}

/// The store is asked for a change of an Eject.
fn request(rt: &impl Abort, node: &mut PlainNode, serial: u32, wish: Wish) {
    if is_within_limit(&wish) {
        node.ask(uid_of(serial), 1, wish).expect(rt, "memory");
    } else {
        assert!(rt; false);
    }
}

/// A put of one byte, which spells no representation.
fn put(rt: &impl Abort, alloc: Global) -> Wish {
    Wish::Put {
        body: Body {
            items: Vec::from_slice(alloc, &[7]).expect(rt, "memory"),
        },
    }
}

/// A call comes to its target; the status that refuses it there.
fn arrive(rt: &impl Abort, alloc: Global, site: &mut Site, number: u32) -> Option<Status> {
    let refused = match site.calls.call(number) {
        Some(call) => refusal(&site.types, &site.node, call),
        None => None,
    };
    deliver(
        alloc,
        &site.types,
        &mut site.node,
        &mut site.calls,
        number,
        refused,
    )
    .expect(rt, "memory");
    refused
}

/// The status with which a call was answered, while its reply is on its way.
fn answer_of(site: &Site, number: u32) -> Option<Status> {
    match site.calls.call(number) {
        Some(call) => match &call.place {
            Place::Answered { status, .. } => Some(*status),
            _ => None,
        },
        None => None,
    }
}

/// Whether somebody waits for the answer of a call.
fn is_open(site: &Site, number: u32) -> bool {
    match site.calls.call(number) {
        Some(call) => call.open,
        None => false,
    }
}

/// Calls to a Cell, by what they ask, their rights and the serial of their target, with the status that refuses each.
const ARRIVALS: [(Asked, u16, u32, Option<Status>); 6] = [
    (Asked::Get, 2, 1, None),
    (Asked::Get, 1, 1, Some(Status::NoRight)),
    (Asked::Set, 1, 1, Some(Status::BadArguments)),
    (Asked::Set, 2, 1, Some(Status::NoRight)),
    (Asked::Foo, 65_535, 1, Some(Status::NoOperation)),
    (Asked::Get, 2, 9, Some(Status::Gone)),
];

/// Calls arrive, and each that is refused is answered so.
fn are_refused(rt: &impl Abort, alloc: Global) {
    let mut site = booted(rt, alloc);
    create(rt, alloc, &mut site, 1);
    for &(asked, bits, serial, refused) in &ARRIVALS {
        let number = ask(rt, alloc, &mut site, asked, bits, serial);
        assert!(rt; arrive(rt, alloc, &mut site, number) == refused);
        assert!(rt; answer_of(&site, number) == refused);
    }
}

#[test]
fn calls_are_refused_where_they_arrive(rt: HostRuntime) {
    are_refused(&rt, rt.alloc());
}

/// Sixty-five calls arrive at a Cell.
fn fill_a_queue(rt: &impl Abort, alloc: Global) {
    let mut site = booted(rt, alloc);
    create(rt, alloc, &mut site, 1);
    for _ in 0..64 {
        let number = ask(rt, alloc, &mut site, Asked::Get, 2, 1);
        assert!(rt; arrive(rt, alloc, &mut site, number).is_none());
    }
    let number = ask(rt, alloc, &mut site, Asked::Get, 2, 1);
    assert!(rt; arrive(rt, alloc, &mut site, number) == Some(Status::Busy));
}

#[test]
fn the_sixty_fifth_call_is_busy(rt: HostRuntime) {
    fill_a_queue(&rt, rt.alloc());
}

/// A call is queued at a new Cell, of which nothing is kept; its active part ends, and then it is gone.
fn sleep_unkept(rt: &impl Abort, alloc: Global) {
    let mut site = booted(rt, alloc);
    create(rt, alloc, &mut site, 1);
    let number = ask(rt, alloc, &mut site, Asked::Get, 2, 1);
    assert!(rt; arrive(rt, alloc, &mut site, number).is_none());
    turn_away_unkept(alloc, &mut site.node, &mut site.calls, uid_of(1)).expect(rt, "memory");
    assert!(rt; answer_of(&site, number).is_none());
    end_active(alloc, &mut site.node, &mut site.calls, uid_of(1)).expect(rt, "memory");
    assert!(rt; answer_of(&site, number).is_none());
    turn_away_unkept(alloc, &mut site.node, &mut site.calls, uid_of(1)).expect(rt, "memory");
    assert!(rt; answer_of(&site, number) == Some(Status::Gone));
    assert!(rt; is_open(&site, number));
    hear(
        &mut site.node,
        &mut site.calls,
        number,
        Status::Gone,
        none(alloc),
    );
    assert!(rt; !is_open(&site, number));
}

#[test]
fn what_is_queued_at_an_eject_that_is_gone_is_answered(rt: HostRuntime) {
    sleep_unkept(&rt, rt.alloc());
}

/// The same where something is kept; the queue stays until it is turned away.
fn sleep_kept(rt: &impl Abort, alloc: Global) {
    let mut site = booted(rt, alloc);
    create(rt, alloc, &mut site, 1);
    request(rt, &mut site.node, 1, put(rt, alloc));
    site.node.keep_first().expect(rt, "memory");
    let number = ask(rt, alloc, &mut site, Asked::Get, 2, 1);
    assert!(rt; arrive(rt, alloc, &mut site, number).is_none());
    end_active(alloc, &mut site.node, &mut site.calls, uid_of(1)).expect(rt, "memory");
    turn_away_unkept(alloc, &mut site.node, &mut site.calls, uid_of(1)).expect(rt, "memory");
    assert!(rt; answer_of(&site, number).is_none());
    turn_away(
        alloc,
        &mut site.node,
        &mut site.calls,
        uid_of(1),
        Status::Damaged,
    )
    .expect(rt, "memory");
    assert!(rt; answer_of(&site, number) == Some(Status::Damaged));
}

#[test]
fn what_is_queued_at_an_eject_that_is_kept_stays(rt: HostRuntime) {
    sleep_kept(&rt, rt.alloc());
}

/// A node with two Cells and a call crashes; booted again it numbers its Ejects anew, in its next epoch.
fn crash_and_boot(rt: &impl Abort, alloc: Global) {
    let mut site = booted(rt, alloc);
    create(rt, alloc, &mut site, 1);
    create(rt, alloc, &mut site, 2);
    let number = ask(rt, alloc, &mut site, Asked::Get, 2, 2);
    crash(alloc, &mut site.node, &mut site.calls);
    assert!(rt; !site.node.up);
    assert!(rt; !is_open(&site, number));
    assert!(rt; site.calls.next_message(0, 1).is_none());
    site.node.boot(2, BootEnd::Up, None, true);
    let next = Uid {
        node: 1,
        epoch: 2,
        serial: 1,
    };
    assert!(rt; next_uid(&site.node) == Ok(next));
}

#[test]
fn a_crash_closes_the_calls(rt: HostRuntime) {
    crash_and_boot(&rt, rt.alloc());
}

/// A removal is done at a Cell in whose queue a call stands: the Cell goes, and the call is answered `gone`.
fn remove(rt: &impl Abort, alloc: Global) {
    let mut site = booted(rt, alloc);
    create(rt, alloc, &mut site, 1);
    let number = ask(rt, alloc, &mut site, Asked::Get, 2, 1);
    assert!(rt; arrive(rt, alloc, &mut site, number).is_none());
    request(rt, &mut site.node, 1, Wish::Delete);
    assert!(rt; site.node.may_take_turn(uid_of(1), RequestEnd::Done, None));
    take_turn(
        alloc,
        &mut site.node,
        &mut site.calls,
        RequestEnd::Done,
        None,
    )
    .expect(rt, "memory");
    assert!(rt; site.node.requests.is_empty());
    assert!(rt; answer_of(&site, number) == Some(Status::Gone));
}

#[test]
fn a_removal_takes_the_eject(rt: HostRuntime) {
    remove(&rt, rt.alloc());
}

/// Turns for three puts: one fails behind its first device call; one is done, behind the settling of what that left in doubt; and in one
/// the disk stops.
const PUT_TURNS: [(RequestEnd, Option<Pick>, Turned); 7] = [
    (RequestEnd::Part, None, Turned::GoesOn),
    (RequestEnd::Fault, None, Turned::IsOver),
    (RequestEnd::Part, None, Turned::GoesOn),
    (RequestEnd::Part, Some(Pick::Old), Turned::GoesOn),
    (RequestEnd::Done, None, Turned::IsOver),
    (RequestEnd::Part, None, Turned::GoesOn),
    (RequestEnd::Stop, None, Turned::Falls),
];

/// What a turn leaves.
#[derive(Clone, Copy, PartialEq)]
enum Turned {
    /// The first request, which goes on.
    GoesOn,
    /// The first request is over.
    IsOver,
    /// The node is down.
    Falls,
}

/// What the node is left as.
fn is_left(site: &Site) -> Turned {
    if !site.node.up {
        Turned::Falls
    } else if site.node.requests.is_empty() {
        Turned::IsOver
    } else {
        Turned::GoesOn
    }
}

/// The store takes its turns, with a put of one byte asked wherever there is no request.
fn take_turns(rt: &impl Abort, alloc: Global) {
    let mut site = booted(rt, alloc);
    create(rt, alloc, &mut site, 1);
    for &(end, pick, turned) in &PUT_TURNS {
        if site.node.requests.is_empty() {
            request(rt, &mut site.node, 1, put(rt, alloc));
        }
        assert!(rt; site.node.may_take_turn(uid_of(1), end, pick));
        take_turn(alloc, &mut site.node, &mut site.calls, end, pick).expect(rt, "memory");
        assert!(rt; is_left(&site) == turned);
    }
    assert!(rt; site.node.is_kept(uid_of(1)));
    assert!(rt; site.node.is_in_doubt());
}

#[test]
fn a_put_and_a_settling_take_their_turns(rt: HostRuntime) {
    take_turns(&rt, rt.alloc());
}

/// A change that is made to what is kept of a Cell, or is in doubt.
#[derive(Clone, Copy)]
enum Change {
    /// None.
    Nothing,
    /// A put of what the Cell is then.
    Itself,
    /// A put of bytes that spell nothing.
    Strange,
    /// A removal.
    Removal,
}

/// The bytes that are to be kept of the first Cell.
fn own_bytes(rt: &impl Abort, alloc: Global, site: &Site) -> Option<Body> {
    match find_eject(&site.node.ejects, uid_of(1)) {
        Some(eject) => match &eject.part {
            Some(part) => part.encoded(alloc, &site.types).expect(rt, "memory"),
            None => None,
        },
        None => None,
    }
}

/// What the store is asked for; nothing where there is no change.
fn wish_of(rt: &impl Abort, alloc: Global, site: &Site, change: Change) -> Option<Wish> {
    match change {
        Change::Nothing => None,
        Change::Itself => match own_bytes(rt, alloc, site) {
            Some(body) => Some(Wish::Put { body }),
            None => None,
        },
        Change::Strange => Some(put(rt, alloc)),
        Change::Removal => Some(Wish::Delete),
    }
}

/// The store makes a change of the first Cell.
fn make(rt: &impl Abort, alloc: Global, site: &mut Site, change: Change) {
    match wish_of(rt, alloc, site, change) {
        Some(wish) => {
            request(rt, &mut site.node, 1, wish);
            site.node.keep_first().expect(rt, "memory");
            site.node.end_first(Status::Ok);
        }
        None => {}
    }
}

/// A change of the first Cell fails in a device call, and is in doubt.
fn leave(rt: &impl Abort, alloc: Global, site: &mut Site, change: Change) {
    match wish_of(rt, alloc, site, change) {
        Some(wish) => {
            request(rt, &mut site.node, 1, wish);
            site.node.doubt_first().expect(rt, "memory");
            site.node.end_first(Status::StoreFault);
        }
        None => {}
    }
}

/// A Cell of which something is kept, and something in doubt, is passive, with a call queued at it.
fn asleep(rt: &impl Abort, alloc: Global, kept: Change, doubted: Change) -> Site {
    let mut site = booted(rt, alloc);
    create(rt, alloc, &mut site, 1);
    make(rt, alloc, &mut site, kept);
    leave(rt, alloc, &mut site, doubted);
    let number = ask(rt, alloc, &mut site, Asked::Get, 2, 1);
    assert!(rt; arrive(rt, alloc, &mut site, number).is_none());
    end_active(alloc, &mut site.node, &mut site.calls, uid_of(1)).expect(rt, "memory");
    site
}

/// Activations: what is kept of the Cell, what is in doubt, the end, the pick, and whether the activation may be so.
const STARTS: [(Change, Change, StartEnd, Option<Pick>, bool); 15] = [
    (Change::Nothing, Change::Nothing, StartEnd::Gone, None, true),
    (Change::Nothing, Change::Nothing, StartEnd::Ok, None, false),
    (Change::Itself, Change::Nothing, StartEnd::Ok, None, true),
    (Change::Itself, Change::Nothing, StartEnd::Stop, None, true),
    (
        Change::Itself,
        Change::Nothing,
        StartEnd::Damaged,
        None,
        false,
    ),
    (
        Change::Itself,
        Change::Nothing,
        StartEnd::Ok,
        Some(Pick::Old),
        false,
    ),
    (
        Change::Strange,
        Change::Nothing,
        StartEnd::Damaged,
        None,
        true,
    ),
    (Change::Strange, Change::Nothing, StartEnd::Ok, None, false),
    (Change::Nothing, Change::Itself, StartEnd::Fault, None, true),
    (Change::Nothing, Change::Itself, StartEnd::Ok, None, false),
    (
        Change::Nothing,
        Change::Itself,
        StartEnd::Gone,
        Some(Pick::Old),
        true,
    ),
    (
        Change::Nothing,
        Change::Itself,
        StartEnd::Ok,
        Some(Pick::New),
        true,
    ),
    (
        Change::Itself,
        Change::Removal,
        StartEnd::Ok,
        Some(Pick::Old),
        true,
    ),
    (
        Change::Itself,
        Change::Removal,
        StartEnd::Gone,
        Some(Pick::New),
        true,
    ),
    (
        Change::Itself,
        Change::Removal,
        StartEnd::Ok,
        Some(Pick::New),
        false,
    ),
];

/// Each activation may be so, or not.
fn may_be_so(rt: &impl Abort, alloc: Global) {
    for &(kept, doubted, end, pick, may) in &STARTS {
        let site = asleep(rt, alloc, kept, doubted);
        let found = may_activate(alloc, &site.types, &site.node, uid_of(1), end, pick).expect(
            rt, "memory",
        );
        assert!(rt; found == may);
        let other = may_activate(alloc, &site.types, &site.node, uid_of(2), end, pick).expect(
            rt, "memory",
        );
        assert!(rt; !other);
    }
}

#[test]
fn an_activation_ends_as_what_is_kept_allows(rt: HostRuntime) {
    may_be_so(&rt, rt.alloc());
}

/// Whether the first Cell is active.
fn is_awake(site: &Site) -> bool {
    match find_eject(&site.node.ejects, uid_of(1)) {
        Some(eject) => eject.is_active(),
        None => false,
    }
}

/// Activations of a Cell of which something is kept, with a call of `Get` and one of `Foo` queued at it: the statuses with which these are
/// answered, whether the Cell is active, and whether the node is up.
const ACTIVATIONS: [(Change, StartEnd, Option<Status>, Option<Status>, bool, bool); 4] = [
    (
        Change::Itself,
        StartEnd::Ok,
        None,
        Some(Status::NoOperation),
        true,
        true,
    ),
    (
        Change::Itself,
        StartEnd::Fault,
        Some(Status::StoreFault),
        Some(Status::StoreFault),
        false,
        true,
    ),
    (
        Change::Strange,
        StartEnd::Damaged,
        Some(Status::Damaged),
        Some(Status::Damaged),
        false,
        true,
    ),
    (Change::Itself, StartEnd::Stop, None, None, false, false),
];

/// Each activation leaves what it does.
fn are_activated(rt: &impl Abort, alloc: Global) {
    for &(kept, end, first, second, active, up) in &ACTIVATIONS {
        let mut site = asleep(rt, alloc, kept, Change::Nothing);
        let number = ask(rt, alloc, &mut site, Asked::Foo, 2, 1);
        assert!(rt; arrive(rt, alloc, &mut site, number).is_none());
        activate(
            alloc,
            &site.types,
            &mut site.node,
            &mut site.calls,
            uid_of(1),
            end,
            None,
        )
        .expect(rt, "memory");
        assert!(rt; answer_of(&site, 1) == first);
        assert!(rt; answer_of(&site, number) == second);
        assert!(rt; is_awake(&site) == active);
        assert!(rt; site.node.up == up);
    }
}

#[test]
fn a_cell_is_awake_or_its_queue_is_turned_away(rt: HostRuntime) {
    are_activated(&rt, rt.alloc());
}
