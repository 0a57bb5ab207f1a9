//! The calls of a node, one behind the other, each with its answer, and each refusal.
ghost use Rattle.std.specs.Prelude.{◌≡◌, ◌≤◌, ℕ, IsTrue, Err};
ghost use Rattle.eden_move.specs.declared.refusal.MoveRefusal.TheVariants.{Stopped};
ghost use Rattle.eden_move.specs.Calls.{uid_of};
ghost use Rattle.eden_move.specs.Shown.{IsOpen, IsWanderer};

use capability::Uid;
use eden_disk::{Arm, SimDisk};
use eden_move::{Letter, MoveNode, MoveRefusal};
use eden_value::{Value, copy, listed, texted};
use passive_blocks::BlockStore;
use passive_store::{LogStore, Store};
use std::alloc::Global;
use std::process::Abort;

/// A call on the Eject of node 1 with this serial.
#[derive(Clone, Copy)]
enum Call {
    Make(u32, i64),
    /// With the longest list of the longest texts.
    MakeLong(u32),
    Wake(u32),
    Save(u32, i64),
    Lend(u32, u8),
    Again(u32),
    /// A letter from this node that says *take it*, in this generation and with this value.
    Take(u8, u32, u32, i64),
    /// A letter from this node that says that this generation was taken.
    Known(u8, u32, u32),
    /// The next device call of the disk fails.
    Fail,
}

/// What it answers.
#[derive(Clone, Copy, Debug, PartialEq)]
enum Said {
    Done,
    Shown(i64),
    /// A letter to this node that says *take it*, in this generation and with this value.
    Sent(u8, u32, i64),
    /// Whether the Eject is here, and whether it is gone; and the generation that is answered as known.
    Took(bool, bool, Option<u32>),
    Refused(MoveRefusal),
    /// Anything that no row wants.
    Other,
}

/// An Eject of node 1.
fn uid_with(rt: &impl Abort, serial: u32) -> Uid
    ensures { IsWanderer result }
{
    assert!(rt; serial >= 1);
    Uid {
        node: 1,
        epoch: 1,
        serial,
    }
}

/// A call was refused, and not for a stop.
fn refused(rt: &impl Abort, refusal: MoveRefusal) -> Said
    ensures { refusal ≡ Stopped → ⊥ }
{
    assert!(rt; refusal != MoveRefusal::Stopped);
    Said::Refused(refusal)
}

/// A letter that was given.
fn sent(letter: &Letter) -> Said {
    match letter {
        Letter::Take {
            to,
            generation,
            value: Value::Int { n },
            ..
        } => Said::Sent(*to, *generation, *n),
        _ => Said::Other,
    }
}

/// The generation that a letter says is known.
fn known(letter: &Letter) -> Option<u32> {
    match letter {
        Letter::Known { generation, .. } => Some(*generation),
        Letter::Take { .. } => None,
    }
}

/// A list of 256 texts of 1024 bytes.
fn long_value(rt: &impl Abort, alloc: Global) -> Value {
    let mut bytes = Vec::new(alloc);
    for _ in 0..1024u32 {
        bytes.push(b'a').expect(rt, "memory");
    }
    let text = Value::Text {
        text: texted(bytes).expect(rt, "memory"),
    };
    let mut values = Vec::new(alloc);
    for _ in 0..256u32 {
        let text = copy(alloc, &text).expect(rt, "memory");
        values.push(text).expect(rt, "memory");
    }
    Value::List {
        items: listed(values).expect(rt, "memory"),
    }
}

fn make<St: Store>(rt: &impl Abort, node: &mut MoveNode<St>, serial: u32, value: Value) -> Said
    requires power { IsTrue (St.seen node.old.store).disk.counts.power }
    requires of { IsOpen node.old.number (St.seen node.old.store) }
    ensures power { IsTrue (St.seen node.new.store).disk.counts.power }
    ensures of { IsOpen node.new.number (St.seen node.new.store) }
{
    assert!(rt; serial >= 1);
    match node.make(serial, value) {
        Ok(_) => Said::Done,
        Err(refusal) => refused(rt, refusal),
    }
}

fn wake<St: Store>(rt: &impl Abort, node: &mut MoveNode<St>, serial: u32) -> Said
    requires power { IsTrue (St.seen node.old.store).disk.counts.power }
    requires of { IsOpen node.old.number (St.seen node.old.store) }
    ensures power { IsTrue (St.seen node.new.store).disk.counts.power }
    ensures of { IsOpen node.new.number (St.seen node.new.store) }
{
    match node.wake(uid_with(rt, serial)) {
        Ok(Value::Int { n }) => Said::Shown(n),
        Ok(_) => Said::Other,
        Err(refusal) => refused(rt, refusal),
    }
}

fn save<St: Store>(rt: &impl Abort, node: &mut MoveNode<St>, serial: u32, value: Value) -> Said
    requires power { IsTrue (St.seen node.old.store).disk.counts.power }
    requires of { IsOpen node.old.number (St.seen node.old.store) }
    ensures power { IsTrue (St.seen node.new.store).disk.counts.power }
    ensures of { IsOpen node.new.number (St.seen node.new.store) }
{
    match node.save(uid_with(rt, serial), value) {
        Ok(()) => Said::Done,
        Err(refusal) => refused(rt, refusal),
    }
}

fn lend<St: Store>(rt: &impl Abort, node: &mut MoveNode<St>, serial: u32, to: u8) -> Said
    requires power { IsTrue (St.seen node.old.store).disk.counts.power }
    requires of { IsOpen node.old.number (St.seen node.old.store) }
    ensures power { IsTrue (St.seen node.new.store).disk.counts.power }
    ensures of { IsOpen node.new.number (St.seen node.new.store) }
{
    assert!(rt; to >= 1 && to <= 8 && to != node.number);
    match node.lend(uid_with(rt, serial), to) {
        Ok(letter) => sent(&letter),
        Err(refusal) => refused(rt, refusal),
    }
}

fn again<St: Store>(rt: &impl Abort, node: &mut MoveNode<St>, serial: u32) -> Said
    requires power { IsTrue (St.seen node.old.store).disk.counts.power }
    requires of { IsOpen node.old.number (St.seen node.old.store) }
    ensures power { IsTrue (St.seen node.new.store).disk.counts.power }
    ensures of { IsOpen node.new.number (St.seen node.new.store) }
{
    match node.again(uid_with(rt, serial)) {
        Ok(letter) => sent(&letter),
        Err(refusal) => refused(rt, refusal),
    }
}

fn take<St: Store>(rt: &impl Abort, node: &mut MoveNode<St>, from: u8, letter: &Letter) -> Said
    requires power { IsTrue (St.seen node.old.store).disk.counts.power }
    requires of { IsOpen node.old.number (St.seen node.old.store) }
    requires wanderer { IsWanderer (uid_of letter.now) }
    ensures power { IsTrue (St.seen node.new.store).disk.counts.power }
    ensures of { IsOpen node.new.number (St.seen node.new.store) }
{
    match node.take(from, letter) {
        Ok(took) => {
            let reply = match &took.reply {
                Some(reply) => known(reply),
                None => None,
            };
            Said::Took(took.here, took.closed, reply)
        }
        Err(refusal) => refused(rt, refusal),
    }
}

/// Calls a node.
fn say<St: Store>(rt: &impl Abort, alloc: Global, node: &mut MoveNode<St>, call: Call) -> Said
    requires power { IsTrue (St.seen node.old.store).disk.counts.power }
    requires of { IsOpen node.old.number (St.seen node.old.store) }
    ensures power { IsTrue (St.seen node.new.store).disk.counts.power }
    ensures of { IsOpen node.new.number (St.seen node.new.store) }
{
    match call {
        Call::Make(serial, n) => make(rt, node, serial, Value::Int { n }),
        Call::MakeLong(serial) => make(rt, node, serial, long_value(rt, alloc)),
        Call::Wake(serial) => wake(rt, node, serial),
        Call::Save(serial, n) => save(rt, node, serial, Value::Int { n }),
        Call::Lend(serial, to) => lend(rt, node, serial, to),
        Call::Again(serial) => again(rt, node, serial),
        Call::Take(from, serial, generation, n) => {
            let letter = Letter::Take {
                uid: uid_with(rt, serial),
                to: node.number,
                generation,
                value: Value::Int { n },
            };
            take(rt, node, from, &letter)
        }
        Call::Known(from, serial, generation) => {
            let letter = Letter::Known {
                uid: uid_with(rt, serial),
                to: node.number,
                generation,
            };
            take(rt, node, from, &letter)
        }
        Call::Fail => {
            node.arm(Arm::Fail { after: 1 });
            Said::Done
        }
    }
}

/// A node over this disk.
fn opened<St: Store>(rt: &impl Abort, alloc: Global, disk: St::Device, number: u8) -> MoveNode<St>
where
    St::Device: Drop,
    requires power { IsTrue (St.Device.counts disk).power }
    requires number { (1 ≤ number) × (number ≤ 8) }
    ensures power { IsTrue (St.seen result.store).disk.counts.power }
    ensures of { IsOpen result.number (St.seen result.store) }
{
    match MoveNode::open_node(alloc, disk, number) {
        Ok(node) => node,
        Err(_) => panic!(rt; "the disk is not opened"),
    }
}

/// Calls a node over this disk, each time with the answer of its row.
fn says<St: Store>(
    rt: &impl Abort,
    alloc: Global,
    disk: St::Device,
    number: u8,
    rows: &[(Call, Said)],
)
where
    St::Device: Drop,
    St: Drop,
    requires power { IsTrue (St.Device.counts disk).power }
    requires number { (1 ≤ number) × (number ≤ 8) }
{
    let mut node = opened::<St>(rt, alloc, disk, number);
    for row in rows {
        let (call, wanted) = *row;
        let said = say(rt, alloc, &mut node, call);
        assert!(rt; said == wanted, "{said:?} for {wanted:?}");
    }
}

/// A blank disk of this size.
fn blank_disk(rt: &impl Abort, alloc: Global, size: u32) -> SimDisk
    ensures { IsTrue result.counts.power }
{
    SimDisk::new(alloc, size).expect(rt, "memory")
}

/// At the home of an Eject: it is made, woken, saved, lent, closed and taken back.
const HOME: &[(Call, Said)] = &[
    (Call::Wake(1), Said::Refused(MoveRefusal::Unknown)),
    (Call::Save(1, 5), Said::Refused(MoveRefusal::Unknown)),
    (Call::Lend(1, 2), Said::Refused(MoveRefusal::Unknown)),
    (Call::Again(1), Said::Refused(MoveRefusal::Unknown)),
    (Call::Make(1, 5), Said::Done),
    (Call::Make(1, 6), Said::Refused(MoveRefusal::There)),
    (Call::Again(1), Said::Refused(MoveRefusal::Unknown)),
    (Call::Save(1, 6), Said::Refused(MoveRefusal::Asleep)),
    (Call::Wake(1), Said::Shown(5)),
    (Call::Save(1, 6), Said::Done),
    (Call::Wake(1), Said::Shown(6)),
    (Call::Lend(1, 2), Said::Sent(2, 2, 6)),
    (Call::Wake(1), Said::Refused(MoveRefusal::Lent { to: 2 })),
    (Call::Save(1, 7), Said::Refused(MoveRefusal::Lent { to: 2 })),
    (Call::Lend(1, 3), Said::Refused(MoveRefusal::Lent { to: 2 })),
    (Call::Make(1, 7), Said::Refused(MoveRefusal::There)),
    (Call::Again(1), Said::Sent(2, 2, 6)),
    (Call::Known(2, 1, 1), Said::Took(false, false, None)),
    (Call::Known(2, 1, 2), Said::Took(false, true, None)),
    (Call::Known(2, 1, 2), Said::Took(false, false, None)),
    (Call::Wake(1), Said::Refused(MoveRefusal::Gone { to: 2 })),
    (Call::Save(1, 7), Said::Refused(MoveRefusal::Gone { to: 2 })),
    (Call::Lend(1, 3), Said::Refused(MoveRefusal::Gone { to: 2 })),
    (Call::Again(1), Said::Refused(MoveRefusal::Gone { to: 2 })),
    (Call::Take(2, 1, 3, 8), Said::Took(true, false, Some(3))),
    (Call::Wake(1), Said::Shown(8)),
    (Call::MakeLong(2), Said::Refused(MoveRefusal::TooLarge)),
    (Call::Wake(2), Said::Refused(MoveRefusal::Unknown)),
];

/// At another node: letters come, the last generation among them.
const AWAY: &[(Call, Said)] = &[
    (Call::Take(1, 1, 2, 5), Said::Took(true, false, Some(2))),
    (Call::Take(1, 1, 2, 6), Said::Took(false, false, Some(2))),
    (Call::Take(1, 1, 1, 7), Said::Took(false, false, Some(1))),
    (Call::Wake(1), Said::Shown(5)),
    (
        Call::Take(1, 2, 4_294_967_295, 9),
        Said::Took(true, false, Some(4_294_967_295)),
    ),
    (
        Call::Lend(2, 3),
        Said::Refused(MoveRefusal::GenerationsSpent),
    ),
    (Call::Wake(2), Said::Shown(9)),
    (Call::Known(1, 3, 1), Said::Took(false, false, None)),
];

/// The first device call of a put fails: the Eject is active no more, and the next call settles.
const FAULTS: &[(Call, Said)] = &[
    (Call::Make(1, 5), Said::Done),
    (Call::Wake(1), Said::Shown(5)),
    (Call::Fail, Said::Done),
    (Call::Save(1, 6), Said::Refused(MoveRefusal::Fault)),
    (Call::Save(1, 6), Said::Refused(MoveRefusal::Asleep)),
    (Call::Wake(1), Said::Shown(5)),
    (Call::Fail, Said::Done),
    (Call::Lend(1, 2), Said::Refused(MoveRefusal::Fault)),
    (Call::Wake(1), Said::Shown(5)),
    (Call::Lend(1, 2), Said::Sent(2, 2, 5)),
];

const ROWS: &[(u8, &[(Call, Said)])] = &[(1, HOME), (2, AWAY), (1, FAULTS)];

#[test]
fn calls_over_blocks(rt: HostRuntime) {
    let alloc = rt.alloc();
    for &(number, rows) in ROWS {
        assert!(&rt; number >= 1 && number <= 8);
        let disk = blank_disk(&rt, alloc, 1_048_576);
        says::<BlockStore<SimDisk>>(&rt, alloc, disk, number, rows);
    }
}

#[test]
fn calls_over_logs(rt: HostRuntime) {
    let alloc = rt.alloc();
    for &(number, rows) in ROWS {
        assert!(&rt; number >= 1 && number <= 8);
        let disk = blank_disk(&rt, alloc, 1_048_576);
        says::<LogStore<SimDisk>>(&rt, alloc, disk, number, rows);
    }
}

/// More Ejects are made than find room: the last is refused, and is not there.
fn fills<St: Store>(rt: &impl Abort, alloc: Global, disk: St::Device)
where
    St::Device: Drop,
    St: Drop,
    requires { IsTrue (St.Device.counts disk).power }
{
    let mut node = opened::<St>(rt, alloc, disk, 1);
    for k in 0..64u32 {
        let _ = make(rt, &mut node, k + 1, Value::Int { n: 5 });
    }
    let full = make(rt, &mut node, 65, Value::Int { n: 5 });
    assert!(rt; full == Said::Refused(MoveRefusal::Full));
    let first = wake(rt, &mut node, 1);
    assert!(rt; first == Said::Shown(5));
    let last = wake(rt, &mut node, 65);
    assert!(rt; last == Said::Refused(MoveRefusal::Unknown));
}

#[test]
fn a_disk_that_is_full(rt: HostRuntime) {
    let alloc = rt.alloc();
    let disk = blank_disk(&rt, alloc, 32_768);
    fills::<BlockStore<SimDisk>>(&rt, alloc, disk);
}
