//! The places of nodes.
ghost use Rattle.std.specs.Prelude.{◌≡◌, ◌≢◌, ◌≤◌, ℕ, Bool, not, nat_lt, IsTrue, IfOk, Result, length};
ghost use Rattle.eden_disk.specs.Calls.{calls_until, one_more};
ghost use Rattle.passive_store.specs.Seen.{disk_seen};
ghost use Rattle.twin_store.specs.declared.served.TwinRefusal.TheVariants.{OutOfMemory};
ghost use Rattle.twin_store.specs.Sides.{is_in_use, disk_of};
ghost use Rattle.twin_store.specs.Twins.{twin_seen, IsTwinReady};
ghost use Rattle.twin_world.specs.Commands as command;
ghost use Rattle.twin_world.specs.Commands.{IsNode};
ghost use Rattle.twin_world.specs.InHand.{made_by, found_by};
ghost use Rattle.twin_world.specs.Places.{Serving, Resting, standing, IsSound, Acts, IsLeft, AreLeft, GoesOnAs, IsWoken, IsDoneAs};
ghost use Rattle.twin_world.specs.Places.{IsAskedDisk, IsAsked};
ghost use Rattle.twin_world.specs.declared.answer.Answer.TheVariants as answer;

use crate::answer::{Answer, Done};
use crate::ask::{Asked, delete_text, get_text, put_text};
use capability::Body;
use eden_disk::{Arm, Disk, ImageMode};
use passive_store::Store;
use std::alloc::{AllocError, Global};
use twin_store::{TwinRefusal, TwinStore};

/// What stands at the place of a node.
#[derive(Drop)]
pub enum Place<St: Store> {
    /// Two disks that are open.
    Open {
        twin: TwinStore<St>,
    },
    /// Two disks that are closed.
    Rest {
        first: St::Device,
        second: St::Device,
    },
    /// Nothing, while a command is carried out.
    Away,
}

/// An answer, with no fault.
pub fn plain(answer: Answer) -> Done
    ensures answer { result.answer ≡ answer }
    ensures first { result.first_failed ≡ Bool.false }
    ensures second { result.second_failed ≡ Bool.false }
{
    Done {
        answer,
        first_failed: false,
        second_failed: false,
    }
}

/// A command was refused; want of memory is no answer.
fn refused(
    refusal: TwinRefusal,
    first_failed: bool,
    second_failed: bool,
) -> Result<Done, AllocError>
    ensures answer { IfOk result (λ d. d.answer ≡ answer.Refused refusal) }
    ensures first { IfOk result (λ d. d.first_failed ≡ first_failed) }
    ensures second { IfOk result (λ d. d.second_failed ≡ second_failed) }
    ensures memory { IfOk result (λ d. refusal ≢ OutOfMemory) }
{
    match refusal {
        TwinRefusal::OutOfMemory => Err(AllocError),
        other => Ok(Done {
            answer: Answer::Refused { refusal: other },
            first_failed,
            second_failed,
        }),
    }
}

/// A disk, whose power is cut or not.
fn leave<D: Disk>(disk: D, stopped: bool) -> D
    ensures { let look = disk_seen D.counts D.told D.due in IsLeft D.tells (look disk) (look result) }
{
    if !stopped {
        return disk;
    }
    let mut disk = disk;
    disk.cut_power(ImageMode::Lose);
    disk
}

/// Two disks that are closed. Behind a stop both lose their power.
pub fn rest<St: Store>(first: St::Device, second: St::Device, stopped: bool) -> Place<St>
    ensures { let look = disk_seen St.Device.counts St.Device.told St.Device.due in
        AreLeft St.Device.tells (look first) (look second) (standing St.seen look result) }
{
    let first = leave(first, stopped);
    let second = leave(second, stopped);
    Place::Rest { first, second }
}

/// A pair that refused a call is closed.
fn shut<St: Store>(twin: TwinStore<St>, refusal: TwinRefusal) -> Place<St>
    ensures { let look = disk_seen St.Device.counts St.Device.told St.Device.due in let t = twin_seen St.seen look twin in
        AreLeft St.Device.tells (disk_of t.first) (disk_of t.second) (standing St.seen look result) }
{
    let (first, second) = twin.close();
    rest(first, second, refusal == TwinRefusal::Stopped)
}

/// Whether a count of faults rose. One that is at its end is taken to have risen.
fn rose(before: u64, now: u64) -> bool
    ensures { result ≡ not (nat_lt now (one_more before)) }
{
    now >= before.saturating_add(1)
}

/// A disk has power.
fn woken<D: Disk>(disk: D) -> D
    ensures { let look = disk_seen D.counts D.told D.due in IsWoken D.tells (look disk) (look result) }
{
    let mut disk = disk;
    disk.restart();
    // What a read sees is an image that a crash may leave: so says the size.
    let _ = disk.size();
    disk
}

/// Two disks were opened.
fn opened<St: Store>(
    twin: TwinStore<St>,
    first_before: u64,
    second_before: u64,
) -> (Place<St>, Done)
    ensures place { let look = disk_seen St.Device.counts St.Device.told St.Device.due in
        standing St.seen look result.0 ≡ Serving (twin_seen St.seen look twin) }
    ensures answer { let t = twin_seen St.seen (disk_seen St.Device.counts St.Device.told St.Device.due) twin in
        result.1.answer ≡ answer.Opened (is_in_use t.first) (is_in_use t.second) }
    ensures first { let t = twin_seen St.seen (disk_seen St.Device.counts St.Device.told St.Device.due) twin in
        result.1.first_failed ≡ not (nat_lt (disk_of t.first).counts.faults (one_more first_before)) }
    ensures second { let t = twin_seen St.seen (disk_seen St.Device.counts St.Device.told St.Device.due) twin in
        result.1.second_failed ≡ not (nat_lt (disk_of t.second).counts.faults (one_more second_before)) }
{
    let (first, second) = twin.in_use();
    let (first_now, second_now) = twin.faults();
    let first_failed = rose(first_before, first_now);
    let second_failed = rose(second_before, second_now);
    let done = Done {
        answer: Answer::Opened { first, second },
        first_failed,
        second_failed,
    };
    (Place::Open { twin }, done)
}

/// Opens two disks.
fn open_disks<St: Store>(
    alloc: Global,
    n: u8,
    first: St::Device,
    second: St::Device,
) -> (Place<St>, Result<Done, AllocError>)
    requires node { IsNode n }
    ensures { let look = disk_seen St.Device.counts St.Device.told St.Device.due in
        Acts St.Device.tells St.layout n (command.opens n) result.1 (Resting (look first) (look second)) (standing St.seen look result.0) }
{
    let first = woken(first);
    let second = woken(second);
    let first_before = first.faults();
    let second_before = second.faults();
    match TwinStore::open_twin(alloc, first, second, n) {
        Ok(twin) => {
            let (place, done) = opened(twin, first_before, second_before);
            (place, Ok(done))
        }
        Err((first, second, refusal)) => {
            let first_now = first.faults();
            let second_now = second.faults();
            let first_failed = rose(first_before, first_now);
            let second_failed = rose(second_before, second_now);
            (
                rest(first, second, refusal == TwinRefusal::Stopped),
                refused(refusal, first_failed, second_failed),
            )
        }
    }
}

/// Opens the disks of a node.
pub fn open_place<St: Store>(
    alloc: Global,
    n: u8,
    place: Place<St>,
) -> (Place<St>, Result<Done, AllocError>)
    requires node { IsNode n }
    ensures { let look = disk_seen St.Device.counts St.Device.told St.Device.due in
        Acts St.Device.tells St.layout n (command.opens n) result.1 (standing St.seen look place) (standing St.seen look result.0) }
{
    match place {
        Place::Rest { first, second } => open_disks(alloc, n, first, second),
        other => (other, Ok(plain(Answer::WrongState))),
    }
}

/// Behind a change of an open pair.
fn changed<St: Store>(
    twin: TwinStore<St>,
    asked: Asked<()>,
) -> (Place<St>, Result<Done, AllocError>)
    ensures place { let look = disk_seen St.Device.counts St.Device.told St.Device.due in
        GoesOnAs St.Device.tells asked.answer (twin_seen St.seen look twin) (standing St.seen look result.0) }
    ensures done { IfOk result.1 (IsDoneAs made_by asked) }
{
    let Asked {
        answer,
        first_failed,
        second_failed,
    } = asked;
    match answer {
        Ok(()) => (
            Place::Open { twin },
            Ok(Done {
                answer: Answer::Made,
                first_failed,
                second_failed,
            }),
        ),
        Err(refusal) => (
            shut(twin, refusal),
            refused(refusal, first_failed, second_failed),
        ),
    }
}

/// Behind a look at an open pair.
fn looked<St: Store>(
    twin: TwinStore<St>,
    asked: Asked<Option<Body>>,
) -> (Place<St>, Result<Done, AllocError>)
    ensures place { let look = disk_seen St.Device.counts St.Device.told St.Device.due in
        GoesOnAs St.Device.tells asked.answer (twin_seen St.seen look twin) (standing St.seen look result.0) }
    ensures done { IfOk result.1 (IsDoneAs found_by asked) }
{
    let Asked {
        answer,
        first_failed,
        second_failed,
    } = asked;
    match answer {
        Ok(text) => (
            Place::Open { twin },
            Ok(Done {
                answer: Answer::Found { text },
                first_failed,
                second_failed,
            }),
        ),
        Err(refusal) => (
            shut(twin, refusal),
            refused(refusal, first_failed, second_failed),
        ),
    }
}

/// Puts a text on an open pair. Where there is no room, nothing is asked of a disk.
fn put_open<St: Store>(
    alloc: Global,
    n: u8,
    twin: TwinStore<St>,
    serial: u32,
    text: &[u8],
) -> (Place<St>, Result<Done, AllocError>)
    requires ready { IsTwinReady (twin_seen St.seen (disk_seen St.Device.counts St.Device.told St.Device.due) twin) }
    requires node { (twin_seen St.seen (disk_seen St.Device.counts St.Device.told St.Device.due) twin).node ≡ n }
    requires serial { 1 ≤ serial }
    requires limit { length text.now ≤ 1024 }
    ensures { let look = disk_seen St.Device.counts St.Device.told St.Device.due in
        Acts St.Device.tells St.layout n (command.puts n serial text.now) result.1 (Serving (twin_seen St.seen look twin))
        (standing St.seen look result.0) }
{
    if !twin.has_room(text.len()) {
        return (Place::Open { twin }, Ok(plain(Answer::NoRoom)));
    }
    let mut twin = twin;
    let asked = put_text(alloc, &mut twin, n, serial, text);
    changed(twin, asked)
}

/// Removes a text on an open pair.
fn delete_open<St: Store>(
    alloc: Global,
    n: u8,
    twin: TwinStore<St>,
    serial: u32,
) -> (Place<St>, Result<Done, AllocError>)
    requires ready { IsTwinReady (twin_seen St.seen (disk_seen St.Device.counts St.Device.told St.Device.due) twin) }
    requires node { (twin_seen St.seen (disk_seen St.Device.counts St.Device.told St.Device.due) twin).node ≡ n }
    requires serial { 1 ≤ serial }
    ensures { let look = disk_seen St.Device.counts St.Device.told St.Device.due in
        Acts St.Device.tells St.layout n (command.deletes n serial) result.1 (Serving (twin_seen St.seen look twin))
        (standing St.seen look result.0) }
{
    let mut twin = twin;
    let asked = delete_text(alloc, &mut twin, n, serial);
    changed(twin, asked)
}

/// Reads a text on an open pair.
fn get_open<St: Store>(
    alloc: Global,
    n: u8,
    twin: TwinStore<St>,
    serial: u32,
) -> (Place<St>, Result<Done, AllocError>)
    requires ready { IsTwinReady (twin_seen St.seen (disk_seen St.Device.counts St.Device.told St.Device.due) twin) }
    requires node { (twin_seen St.seen (disk_seen St.Device.counts St.Device.told St.Device.due) twin).node ≡ n }
    requires serial { 1 ≤ serial }
    ensures { let look = disk_seen St.Device.counts St.Device.told St.Device.due in
        Acts St.Device.tells St.layout n (command.gets n serial) result.1 (Serving (twin_seen St.seen look twin))
        (standing St.seen look result.0) }
{
    let mut twin = twin;
    let asked = get_text(alloc, &mut twin, n, serial);
    looked(twin, asked)
}

/// Puts a text.
pub fn put_place<St: Store>(
    alloc: Global,
    n: u8,
    place: Place<St>,
    serial: u32,
    text: &[u8],
) -> (Place<St>, Result<Done, AllocError>)
    requires sound { IsSound n (standing St.seen (disk_seen St.Device.counts St.Device.told St.Device.due) place) }
    requires serial { 1 ≤ serial }
    requires limit { length text.now ≤ 1024 }
    ensures { let look = disk_seen St.Device.counts St.Device.told St.Device.due in
        Acts St.Device.tells St.layout n (command.puts n serial text.now) result.1 (standing St.seen look place)
        (standing St.seen look result.0) }
{
    match place {
        Place::Open { twin } => put_open(alloc, n, twin, serial, text),
        other => (other, Ok(plain(Answer::WrongState))),
    }
}

/// Removes a text.
pub fn delete_place<St: Store>(
    alloc: Global,
    n: u8,
    place: Place<St>,
    serial: u32,
) -> (Place<St>, Result<Done, AllocError>)
    requires sound { IsSound n (standing St.seen (disk_seen St.Device.counts St.Device.told St.Device.due) place) }
    requires serial { 1 ≤ serial }
    ensures { let look = disk_seen St.Device.counts St.Device.told St.Device.due in
        Acts St.Device.tells St.layout n (command.deletes n serial) result.1 (standing St.seen look place)
        (standing St.seen look result.0) }
{
    match place {
        Place::Open { twin } => delete_open(alloc, n, twin, serial),
        other => (other, Ok(plain(Answer::WrongState))),
    }
}

/// Reads a text.
pub fn get_place<St: Store>(
    alloc: Global,
    n: u8,
    place: Place<St>,
    serial: u32,
) -> (Place<St>, Result<Done, AllocError>)
    requires sound { IsSound n (standing St.seen (disk_seen St.Device.counts St.Device.told St.Device.due) place) }
    requires serial { 1 ≤ serial }
    ensures { let look = disk_seen St.Device.counts St.Device.told St.Device.due in
        Acts St.Device.tells St.layout n (command.gets n serial) result.1 (standing St.seen look place)
        (standing St.seen look result.0) }
{
    match place {
        Place::Open { twin } => get_open(alloc, n, twin, serial),
        other => (other, Ok(plain(Answer::WrongState))),
    }
}

/// Closes the disks of a node.
pub fn close_place<St: Store>(place: Place<St>) -> (Place<St>, Done)
    ensures { let look = disk_seen St.Device.counts St.Device.told St.Device.due in (n : ℕ)
        → Acts St.Device.tells St.layout n (command.closes n) (Result.Ok result.1) (standing St.seen look place)
        (standing St.seen look result.0) }
{
    match place {
        Place::Open { twin } => {
            let (first, second) = twin.close();
            (Place::Rest { first, second }, plain(Answer::Made))
        }
        other => (other, plain(Answer::WrongState)),
    }
}

/// Asks a disk for a failure or a stop.
fn armed<D: Disk>(disk: D, what: Arm) -> D
    requires { 1 ≤ calls_until what }
    ensures { let look = disk_seen D.counts D.told D.due in IsAskedDisk (look disk) (look result) }
{
    let mut disk = disk;
    disk.arm(what);
    disk
}

/// Asks one of two disks that are closed.
fn arm_rest<St: Store>(
    first: St::Device,
    second: St::Device,
    second_one: bool,
    what: Arm,
) -> Place<St>
    requires { 1 ≤ calls_until what }
    ensures { let look = disk_seen St.Device.counts St.Device.told St.Device.due in
        IsAsked St.Device.tells (Resting (look first) (look second)) (standing St.seen look result) }
{
    if second_one {
        Place::Rest {
            first,
            second: armed(second, what),
        }
    } else {
        Place::Rest {
            first: armed(first, what),
            second,
        }
    }
}

/// Asks one of the disks of a pair that is open.
fn arm_open<St: Store>(twin: TwinStore<St>, second_one: bool, what: Arm) -> Place<St>
    requires { 1 ≤ calls_until what }
    ensures { let look = disk_seen St.Device.counts St.Device.told St.Device.due in
        IsAsked St.Device.tells (Serving (twin_seen St.seen look twin)) (standing St.seen look result) }
{
    let mut twin = twin;
    twin.arm(second_one, what);
    Place::Open { twin }
}

/// Asks a disk of a node for a failure or a stop, open or not.
pub fn arm_place<St: Store>(place: Place<St>, second_one: bool, what: Arm) -> Place<St>
    requires { 1 ≤ calls_until what }
    ensures { let look = disk_seen St.Device.counts St.Device.told St.Device.due in
        IsAsked St.Device.tells (standing St.seen look place) (standing St.seen look result) }
{
    match place {
        Place::Open { twin } => arm_open(twin, second_one, what),
        Place::Rest { first, second } => arm_rest(first, second, second_one, what),
        Place::Away => Place::Away,
    }
}
