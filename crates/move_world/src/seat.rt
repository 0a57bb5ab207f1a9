//! The places of nodes.
ghost use Rattle.std.specs.Prelude.{◌≡◌, ◌≢◌, ◌≤◌, ◌⊎◌, ℕ, Bool, IsTrue, IfOk, OnOk, Option, Result};
ghost use Rattle.std.specs.Option.{option_map};
ghost use Rattle.eden_value.specs.Datum.{Datum};
ghost use Rattle.eden_disk.specs.Calls.{calls_until};
ghost use Rattle.eden_disk.specs.Told.{contents, Left};
ghost use Rattle.passive_store.specs.Seen.{disk_seen};
ghost use Rattle.move_laws.specs.World.{World as AnyWorld, Ended as AnyEnded, Refused, Stopped};
ghost use Rattle.eden_move.specs.Shown.{IsFitCall, IsWanderer, IsOpen};
ghost use Rattle.move_world.specs.Commands.{IsNode};
ghost use Rattle.move_world.specs.Disks.{disk_at};
ghost use Rattle.move_world.specs.InHand.{ArePostsFit};
ghost use Rattle.move_world.specs.View.{answer_of, how_of};
ghost use Rattle.passive_store.specs.declared.store.StoreRefusal.TheVariants.{OutOfMemory};
ghost use Rattle.move_world.specs.InHand.{Rests};
ghost use Rattle.move_world.specs.Logs.{Down};
ghost use Rattle.move_world.specs.Asking.{manned, how_in, uid_in, call_in, MayAsk, Heard, IsAbout};
ghost use Rattle.move_world.specs.Seats.{standing, opened_as, IsSound, StandsFor, AskedAt, CrashedAt, OpenedAt, ArmedAt, IsCutFrom};
ghost use Rattle.move_world.specs.Seats.{is_serving, Resting};
ghost use Rattle.move_world.specs.Counting.{end_in, refusals_in};
ghost use Rattle.move_world.specs.Counted.{Counted};

use crate::answer::{Answer, Ended};
use crate::ask::{Ask, carry_out};
use eden_disk::{Arm, Disk, ImageMode};
use eden_move::{MoveNode, MoveRefusal};
use passive_store::{Store, StoreRefusal};
use std::alloc::{AllocError, Global};
use std::mem;

/// What stands at the place of a node.
#[derive(Drop)]
pub enum Seat<St: Store> {
    /// A node whose disk was opened. It is up until its disk stops.
    Opened { node: MoveNode<St>, up: bool },
    /// The disk of a node that is down.
    Shut { disk: St::Device },
    /// Nothing, while a node comes up or goes down.
    Moving,
}

/// Whether the disk stopped in the call.
fn is_stop(answer: &Answer) -> bool
    ensures yes { result ≡ Bool.true → how_in (answer_of answer.now) ≡ Refused Stopped }
    ensures not { result ≡ Bool.false → how_in (answer_of answer.now) ≢ Refused Stopped }
{
    match answer {
        Answer::Ends { how } => match how {
            Ended::Refused { refusal } => *refusal == MoveRefusal::Stopped,
            Ended::Answered { .. } => false,
        },
        _ => false,
    }
}

/// Asks a node that is up, and notes whether it is so still.
fn ask_up<St: Store>(
    alloc: Global,
    node: &mut MoveNode<St>,
    up: &mut bool,
    what: &Ask,
) -> Result<Answer, AllocError>
    requires power { IsTrue (St.seen node.old.store).disk.counts.power }
    requires of { IsOpen node.old.number (St.seen node.old.store) }
    requires may { MayAsk node.old.number what.now }
    requires up { up.old ≡ Bool.true }
    ensures heard { Heard St.Device.tells St.layout (uid_in node.old.number what.now) (call_in what.now) result
        (manned St.seen node.old) (manned St.seen node.new) }
    ensures stopped { IfOk result (λ a. up.new ≡ Bool.false → how_in (answer_of a) ≡ Refused Stopped) }
    ensures goes_on { IfOk result (λ a. up.new ≡ Bool.true → how_in (answer_of a) ≢ Refused Stopped) }
{
    let answer = carry_out(alloc, node, what)?;
    if is_stop(&answer) {
        *up = false;
    }
    Ok(answer)
}

/// Asks the node of this number, if it is up.
pub fn ask_seat<St: Store>(
    alloc: Global,
    n: u8,
    seat: &mut Seat<St>,
    what: &Ask,
) -> Result<Answer, AllocError>
    requires sound { IsSound n (standing St.seen (disk_seen St.Device.counts St.Device.told St.Device.due) seat.old) }
    requires may { MayAsk n what.now }
    ensures sound { IsSound n (standing St.seen (disk_seen St.Device.counts St.Device.told St.Device.due) seat.new) }
    ensures about { IfOk result (IsAbout (uid_in n what.now)) }
    ensures counted { let look = disk_seen St.Device.counts St.Device.told St.Device.due in
        IfOk result (λ a. Counted (end_in (answer_of a)) (standing St.seen look seat.old) (standing St.seen look seat.new)) }
    ensures asked { let look = disk_seen St.Device.counts St.Device.told St.Device.due in IsTrue St.Device.tells
        → IsFitCall (call_in what.now) → (w : AnyWorld Datum) → ArePostsFit w.posted
        → StandsFor St.layout n (standing St.seen look seat.old) (w.node n)
        → IfOk result (λ a. AskedAt St.layout n (uid_in n what.now) (call_in what.now) (answer_of a) (standing St.seen look seat.new) w) }
{
    match seat {
        Seat::Opened { node, up } if *up => ask_up(alloc, node, up, what),
        _ => Ok(Answer::WrongState),
    }
}

/// The disk without power, as a crash leaves it.
fn cut<D: Disk>(disk: D, mode: ImageMode) -> D
    ensures counts { refusals_in (D.counts result) ≡ refusals_in (D.counts disk) }
    ensures cut { IsTrue D.tells → IsCutFrom (D.counts disk).clock (D.told disk) (D.told result) }
{
    let mut disk = disk;
    // What a read sees is an image that a crash may leave: so says the size.
    let _ = disk.size();
    disk.cut_power(mode);
    disk
}

/// A node that is up crashes.
fn crash_seat<St: Store>(seat: Seat<St>, mode: ImageMode) -> (Seat<St>, Answer)
    ensures sound { (n : ℕ) → IsSound n (standing St.seen (disk_seen St.Device.counts St.Device.told St.Device.due) seat)
        → IsSound n (standing St.seen (disk_seen St.Device.counts St.Device.told St.Device.due) result.0) }
    ensures counted { let look = disk_seen St.Device.counts St.Device.told St.Device.due in
        Counted (end_in (answer_of result.1)) (standing St.seen look seat) (standing St.seen look result.0) }
    ensures crashed { let look = disk_seen St.Device.counts St.Device.told St.Device.due in IsTrue St.Device.tells
        → (n : ℕ) (w : AnyWorld Datum) → StandsFor St.layout n (standing St.seen look seat) (w.node n)
        → CrashedAt St.layout n (answer_of result.1) (standing St.seen look result.0) w }
{
    match seat {
        Seat::Opened { node, up: true } => (
            Seat::Shut {
                disk: cut(node.crash(), mode),
            },
            Answer::Done,
        ),
        other => (other, Answer::WrongState),
    }
}

/// Why a disk was not opened; want of memory is no answer.
fn down(refusal: StoreRefusal) -> Result<Answer, AllocError>
    ensures { IfOk result (λ a. (answer_of a ≡ Down refusal) × (refusal ≢ OutOfMemory)) }
{
    match refusal {
        StoreRefusal::OutOfMemory => Err(AllocError),
        other => Ok(Answer::Down { refusal: other }),
    }
}

/// Opens a disk. It is given power first.
fn open<St: Store>(alloc: Global, n: u8, disk: St::Device) -> (Seat<St>, Result<Answer, AllocError>)
    requires { IsNode n }
    ensures sound { IsSound n (standing St.seen (disk_seen St.Device.counts St.Device.told St.Device.due) result.0) }
    ensures counted { let look = disk_seen St.Device.counts St.Device.told St.Device.due in
        IfOk result.1 (λ a. Counted (end_in (answer_of a)) (Resting (look disk)) (standing St.seen look result.0)) }
    ensures opened { let look = disk_seen St.Device.counts St.Device.told St.Device.due in IsTrue St.Device.tells
        → (w : AnyWorld Datum) → Rests St.layout n (look disk).told (w.node n)
        → IfOk result.1 (λ a. OpenedAt St.layout n (answer_of a) (standing St.seen look result.0) w) }
{
    let mut disk = disk;
    disk.restart();
    // What a read sees is an image that a crash may leave: so says the size.
    let _ = disk.size();
    match MoveNode::open_node(alloc, disk, n) {
        Ok(node) => (Seat::Opened { node, up: true }, Ok(Answer::Up)),
        Err((disk, refusal)) => (Seat::Shut { disk }, down(refusal)),
    }
}

/// Opens the disk of a node that is down.
fn open_seat<St: Store>(
    alloc: Global,
    n: u8,
    seat: Seat<St>,
) -> (Seat<St>, Result<Answer, AllocError>)
    requires number { IsNode n }
    requires sound { IsSound n (standing St.seen (disk_seen St.Device.counts St.Device.told St.Device.due) seat) }
    ensures sound { IsSound n (standing St.seen (disk_seen St.Device.counts St.Device.told St.Device.due) result.0) }
    ensures counted { let look = disk_seen St.Device.counts St.Device.told St.Device.due in
        IfOk result.1 (λ a. Counted (end_in (answer_of a)) (standing St.seen look seat) (standing St.seen look result.0)) }
    ensures opened { let look = disk_seen St.Device.counts St.Device.told St.Device.due in IsTrue St.Device.tells
        → (w : AnyWorld Datum) → StandsFor St.layout n (standing St.seen look seat) (w.node n)
        → IfOk result.1 (λ a. OpenedAt St.layout n (answer_of a) (standing St.seen look result.0) w) }
{
    match seat {
        Seat::Opened { node, up: false } => open(alloc, n, node.crash()),
        Seat::Shut { disk } => open(alloc, n, disk),
        other => (other, Ok(Answer::WrongState)),
    }
}

/// Asks the disk of a node that is up for a failure or a stop.
pub fn arm_seat<St: Store>(seat: &mut Seat<St>, what: Arm) -> Answer
    requires { 1 ≤ calls_until what }
    ensures sound { (n : ℕ) → IsSound n (standing St.seen (disk_seen St.Device.counts St.Device.told St.Device.due) seat.old)
        → IsSound n (standing St.seen (disk_seen St.Device.counts St.Device.told St.Device.due) seat.new) }
    ensures counted { let look = disk_seen St.Device.counts St.Device.told St.Device.due in
        Counted (end_in (answer_of result)) (standing St.seen look seat.old) (standing St.seen look seat.new) }
    ensures armed { let look = disk_seen St.Device.counts St.Device.told St.Device.due in IsTrue St.Device.tells
        → (n : ℕ) (w : AnyWorld Datum) → StandsFor St.layout n (standing St.seen look seat.old) (w.node n)
        → ArmedAt St.layout n (answer_of result) (standing St.seen look seat.new) w }
{
    match seat {
        Seat::Opened { node, up } if *up => {
            node.arm(what);
            Answer::Done
        }
        _ => Answer::WrongState,
    }
}

/// The disk of a place.
pub fn disk_in<St: Store>(seat: Seat<St>) -> Option<St::Device>
    ensures { let look = disk_seen St.Device.counts St.Device.told St.Device.due in
        option_map look result ≡ disk_at (standing St.seen look seat) }
{
    match seat {
        Seat::Opened { node, up: _ } => Some(node.crash()),
        Seat::Shut { disk } => Some(disk),
        Seat::Moving => None,
    }
}

/// Whether the node at a place is up.
pub fn is_up<St: Store>(seat: &Seat<St>) -> bool
    ensures { result ≡ is_serving (standing St.seen (disk_seen St.Device.counts St.Device.told St.Device.due) seat.now) }
{
    match seat {
        Seat::Opened { up, .. } => *up,
        _ => false,
    }
}

/// The node at a place crashes, if it is up.
pub fn crash_at<St: Store>(seat: &mut Seat<St>, mode: ImageMode) -> Answer
where
    St::Device: Drop,
    ensures sound { (n : ℕ) → IsSound n (standing St.seen (disk_seen St.Device.counts St.Device.told St.Device.due) seat.old)
        → IsSound n (standing St.seen (disk_seen St.Device.counts St.Device.told St.Device.due) seat.new) }
    ensures counted { let look = disk_seen St.Device.counts St.Device.told St.Device.due in
        Counted (end_in (answer_of result)) (standing St.seen look seat.old) (standing St.seen look seat.new) }
    ensures crashed { let look = disk_seen St.Device.counts St.Device.told St.Device.due in IsTrue St.Device.tells
        → (n : ℕ) (w : AnyWorld Datum) → StandsFor St.layout n (standing St.seen look seat.old) (w.node n)
        → CrashedAt St.layout n (answer_of result) (standing St.seen look seat.new) w }
{
    let old = mem::replace(seat, Seat::Moving);
    let (new, answer) = crash_seat(old, mode);
    // Nothing stands there meanwhile.
    let _ = disk_in(mem::replace(seat, new));
    answer
}

/// The disk at a place is opened, if its node is down.
pub fn open_at<St: Store>(alloc: Global, n: u8, seat: &mut Seat<St>) -> Result<Answer, AllocError>
where
    St::Device: Drop,
    requires number { IsNode n }
    requires sound { IsSound n (standing St.seen (disk_seen St.Device.counts St.Device.told St.Device.due) seat.old) }
    ensures sound { IsSound n (standing St.seen (disk_seen St.Device.counts St.Device.told St.Device.due) seat.new) }
    ensures counted { let look = disk_seen St.Device.counts St.Device.told St.Device.due in
        IfOk result (λ a. Counted (end_in (answer_of a)) (standing St.seen look seat.old) (standing St.seen look seat.new)) }
    ensures opened { let look = disk_seen St.Device.counts St.Device.told St.Device.due in IsTrue St.Device.tells
        → (w : AnyWorld Datum) → StandsFor St.layout n (standing St.seen look seat.old) (w.node n)
        → IfOk result (λ a. OpenedAt St.layout n (answer_of a) (standing St.seen look seat.new) w) }
{
    let old = mem::replace(seat, Seat::Moving);
    let (new, answer) = open_seat(alloc, n, old);
    // Nothing stands there meanwhile.
    let _ = disk_in(mem::replace(seat, new));
    answer
}
