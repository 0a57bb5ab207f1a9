//! What is asked of a pair of disks that is open.
ghost use Rattle.std.specs.Prelude.{◌≡◌, ◌≤◌, IsTrue, IfErr, Option, length};
ghost use Rattle.passive_store.specs.Seen.{disk_seen};
ghost use Rattle.twin_store.specs.declared.served.TwinRefusal.TheVariants.{Full};
ghost use Rattle.twin_store.specs.Twins.{twin_seen, IsTwinReady, TwinGoes, IsFullTwin};
ghost use Rattle.twin_world.specs.Logs.{change};
ghost use Rattle.twin_world.specs.InHand.{has_left};
ghost use Rattle.twin_world.specs.Asks.{ChangesAs, LooksAs};
ghost use Rattle.twin_world.specs.Commands.{puts, gets, deletes};
ghost use Rattle.twin_world.specs.Places.{asked_for};

use capability::{Body, Uid};
use passive_store::Store;
use std::alloc::Global;
use twin_store::{TwinRefusal, TwinStore};

/// What a call of a pair answered, and which of its disks met a fault in it.
#[derive(Drop)]
pub struct Asked<T> {
    /// What it answered.
    pub answer: Result<T, TwinRefusal>,
    /// Whether the first disk met a fault.
    pub first_failed: bool,
    /// Whether the second did.
    pub second_failed: bool,
}

/// Puts a text under a serial.
pub fn put_text<St: Store>(
    alloc: Global,
    twin: &mut TwinStore<St>,
    n: u8,
    serial: u32,
    text: &[u8],
) -> Asked<()>
    requires ready { IsTwinReady (twin_seen St.seen (disk_seen St.Device.counts St.Device.told St.Device.due) twin.old) }
    requires node { (twin_seen St.seen (disk_seen St.Device.counts St.Device.told St.Device.due) twin.old).node ≡ n }
    requires serial { 1 ≤ serial }
    requires limit { length text.now ≤ 1024 }
    ensures goes { let of = twin_seen St.seen (disk_seen St.Device.counts St.Device.told St.Device.due) in
        TwinGoes result.answer (of twin.old) (of twin.new) }
    ensures full { let of = twin_seen St.seen (disk_seen St.Device.counts St.Device.told St.Device.due) in IfErr result.answer
        (λ e. e ≡ Full → IsFullTwin St.Device.tells St.layout (asked_for (puts n serial text.now)) (of twin.old) (of twin.new)) }
    ensures first { let of = twin_seen St.seen (disk_seen St.Device.counts St.Device.told St.Device.due) in
        result.first_failed ≡ has_left (of twin.old).first (of twin.new).first }
    ensures second { let of = twin_seen St.seen (disk_seen St.Device.counts St.Device.told St.Device.due) in
        result.second_failed ≡ has_left (of twin.old).second (of twin.new).second }
    ensures steps { let of = twin_seen St.seen (disk_seen St.Device.counts St.Device.told St.Device.due) in IsTrue St.Device.tells
        → ChangesAs St.layout n (change serial (Option.Some text.now)) result.answer (of twin.old) (of twin.new) }
{
    let uid = Uid {
        node: n,
        epoch: 1,
        serial,
    };
    let (first, second) = twin.in_use();
    let answer = twin.put(alloc, uid, text);
    let (first_left, second_left) = twin.in_use();
    Asked {
        answer,
        first_failed: first && !first_left,
        second_failed: second && !second_left,
    }
}

/// Removes the text under a serial.
pub fn delete_text<St: Store>(
    alloc: Global,
    twin: &mut TwinStore<St>,
    n: u8,
    serial: u32,
) -> Asked<()>
    requires ready { IsTwinReady (twin_seen St.seen (disk_seen St.Device.counts St.Device.told St.Device.due) twin.old) }
    requires node { (twin_seen St.seen (disk_seen St.Device.counts St.Device.told St.Device.due) twin.old).node ≡ n }
    requires serial { 1 ≤ serial }
    ensures goes { let of = twin_seen St.seen (disk_seen St.Device.counts St.Device.told St.Device.due) in
        TwinGoes result.answer (of twin.old) (of twin.new) }
    ensures full { let of = twin_seen St.seen (disk_seen St.Device.counts St.Device.told St.Device.due) in IfErr result.answer
        (λ e. e ≡ Full → IsFullTwin St.Device.tells St.layout (asked_for (deletes n serial)) (of twin.old) (of twin.new)) }
    ensures first { let of = twin_seen St.seen (disk_seen St.Device.counts St.Device.told St.Device.due) in
        result.first_failed ≡ has_left (of twin.old).first (of twin.new).first }
    ensures second { let of = twin_seen St.seen (disk_seen St.Device.counts St.Device.told St.Device.due) in
        result.second_failed ≡ has_left (of twin.old).second (of twin.new).second }
    ensures steps { let of = twin_seen St.seen (disk_seen St.Device.counts St.Device.told St.Device.due) in IsTrue St.Device.tells
        → ChangesAs St.layout n (change serial Option.None) result.answer (of twin.old) (of twin.new) }
{
    let uid = Uid {
        node: n,
        epoch: 1,
        serial,
    };
    let (first, second) = twin.in_use();
    let answer = twin.delete(alloc, uid);
    let (first_left, second_left) = twin.in_use();
    Asked {
        answer,
        first_failed: first && !first_left,
        second_failed: second && !second_left,
    }
}

/// The text under a serial, or none.
pub fn get_text<St: Store>(
    alloc: Global,
    twin: &mut TwinStore<St>,
    n: u8,
    serial: u32,
) -> Asked<Option<Body>>
    requires ready { IsTwinReady (twin_seen St.seen (disk_seen St.Device.counts St.Device.told St.Device.due) twin.old) }
    requires node { (twin_seen St.seen (disk_seen St.Device.counts St.Device.told St.Device.due) twin.old).node ≡ n }
    requires serial { 1 ≤ serial }
    ensures goes { let of = twin_seen St.seen (disk_seen St.Device.counts St.Device.told St.Device.due) in
        TwinGoes result.answer (of twin.old) (of twin.new) }
    ensures full { let of = twin_seen St.seen (disk_seen St.Device.counts St.Device.told St.Device.due) in IfErr result.answer
        (λ e. e ≡ Full → IsFullTwin St.Device.tells St.layout (asked_for (gets n serial)) (of twin.old) (of twin.new)) }
    ensures first { let of = twin_seen St.seen (disk_seen St.Device.counts St.Device.told St.Device.due) in
        result.first_failed ≡ has_left (of twin.old).first (of twin.new).first }
    ensures second { let of = twin_seen St.seen (disk_seen St.Device.counts St.Device.told St.Device.due) in
        result.second_failed ≡ has_left (of twin.old).second (of twin.new).second }
    ensures steps { let of = twin_seen St.seen (disk_seen St.Device.counts St.Device.told St.Device.due) in IsTrue St.Device.tells
        → LooksAs St.layout n serial result.answer (of twin.old) (of twin.new) }
{
    let uid = Uid {
        node: n,
        epoch: 1,
        serial,
    };
    let (first, second) = twin.in_use();
    let answer = twin.get(alloc, uid);
    let (first_left, second_left) = twin.in_use();
    Asked {
        answer,
        first_failed: first && !first_left,
        second_failed: second && !second_left,
    }
}
