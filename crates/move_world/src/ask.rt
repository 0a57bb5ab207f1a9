//! What is asked of a node that is up.
ghost use Rattle.std.specs.Prelude.{◌≡◌, ◌≢◌, ◌≤◌, Bool, IsTrue, IfOk, OnErr, Option, Result};
ghost use Rattle.std.specs.Option.{option_map};
ghost use Rattle.eden_value.specs.View.{datum};
ghost use Rattle.eden_move.specs.declared.refusal.MoveRefusal.TheVariants.{OutOfMemory};
ghost use Rattle.eden_move.specs.Calls.{seen_refusal, seen_letter, uid_of, letter_call, put_by};
ghost use Rattle.eden_move.specs.Shown.{IsOpen, IsWanderer};
ghost use Rattle.move_laws.specs.World.{Refused, Answered};
ghost use Rattle.move_world.specs.Logs.{Ends};
ghost use Rattle.move_world.specs.View.{answer_of};
ghost use Rattle.move_world.specs.declared.ask.Ask.TheVariants as ask;
ghost use Rattle.move_world.specs.Asking.{manned, uid_in, call_in, MayAsk, Heard, IsAbout, IsAboutPost};

use crate::answer::{Answer, Ended};
use capability::Uid;
use eden_move::{Letter, MoveNode, MoveRefusal, Took};
use eden_value::{Value, copy};
use passive_store::Store;
use std::alloc::{AllocError, Global};

/// What is asked of a node.
#[derive(Drop)]
pub enum Ask {
    /// Make an Eject with this serial and this value.
    Make { serial: u32, value: Value },
    /// Make one active.
    Wake { uid: Uid },
    /// Keep this value of one.
    Save { uid: Uid, value: Value },
    /// Lend one to this node.
    Lend { uid: Uid, to: u8 },
    /// Give its letter anew.
    Again { uid: Uid },
    /// Take a letter from this node.
    Take { from: u8, letter: Letter },
}

/// A call was refused; want of memory is no answer.
fn refused(refusal: MoveRefusal) -> Result<Answer, AllocError>
    ensures is { IfOk result (λ a. (answer_of a ≡ Ends (Refused (seen_refusal refusal))) × (refusal ≢ OutOfMemory)) }
    ensures none { OnErr result (refusal ≡ OutOfMemory) }
    ensures about { IfOk result (λ a. (u : Uid) → IsAbout u a) }
{
    match refusal {
        MoveRefusal::OutOfMemory => Err(AllocError),
        other => Ok(Answer::Ends {
            how: Ended::Refused { refusal: other },
        }),
    }
}

/// A call answered.
fn answered(put: bool, post: Option<Letter>) -> Answer
    ensures is { answer_of result ≡ Ends (Answered put (option_map seen_letter post)) }
    ensures about { (u : Uid) → IsAboutPost u post → IsAbout u result }
{
    Answer::Ends {
        how: Ended::Answered { put, post },
    }
}

/// Makes an Eject.
fn ask_make<St: Store>(
    node: &mut MoveNode<St>,
    serial: u32,
    value: Value,
) -> Result<Answer, AllocError>
    requires power { IsTrue (St.seen node.old.store).disk.counts.power }
    requires of { IsOpen node.old.number (St.seen node.old.store) }
    requires may { MayAsk node.old.number (ask.Make serial value) }
    ensures { Heard St.Device.tells St.layout (uid_in node.old.number (ask.Make serial value)) (call_in (ask.Make serial value)) result
        (manned St.seen node.old) (manned St.seen node.new) }
{
    match node.make(serial, value) {
        Ok(_) => Ok(answered(true, None)),
        Err(refusal) => refused(refusal),
    }
}

/// Makes one active.
fn ask_wake<St: Store>(node: &mut MoveNode<St>, uid: Uid) -> Result<Answer, AllocError>
    requires power { IsTrue (St.seen node.old.store).disk.counts.power }
    requires of { IsOpen node.old.number (St.seen node.old.store) }
    requires may { MayAsk node.old.number (ask.Wake uid) }
    ensures { Heard St.Device.tells St.layout (uid_in node.old.number (ask.Wake uid)) (call_in (ask.Wake uid)) result
        (manned St.seen node.old) (manned St.seen node.new) }
{
    match node.wake(uid) {
        Ok(value) => Ok(Answer::Shows { value }),
        Err(refusal) => refused(refusal),
    }
}

/// Keeps a value of one.
fn ask_save<St: Store>(
    node: &mut MoveNode<St>,
    uid: Uid,
    value: Value,
) -> Result<Answer, AllocError>
    requires power { IsTrue (St.seen node.old.store).disk.counts.power }
    requires of { IsOpen node.old.number (St.seen node.old.store) }
    requires may { MayAsk node.old.number (ask.Save uid value) }
    ensures { Heard St.Device.tells St.layout (uid_in node.old.number (ask.Save uid value)) (call_in (ask.Save uid value)) result
        (manned St.seen node.old) (manned St.seen node.new) }
{
    match node.save(uid, value) {
        Ok(()) => Ok(answered(true, None)),
        Err(refusal) => refused(refusal),
    }
}

/// Lends one to another node.
fn ask_lend<St: Store>(node: &mut MoveNode<St>, uid: Uid, to: u8) -> Result<Answer, AllocError>
    requires power { IsTrue (St.seen node.old.store).disk.counts.power }
    requires of { IsOpen node.old.number (St.seen node.old.store) }
    requires may { MayAsk node.old.number (ask.Lend uid to) }
    ensures { Heard St.Device.tells St.layout (uid_in node.old.number (ask.Lend uid to)) (call_in (ask.Lend uid to)) result
        (manned St.seen node.old) (manned St.seen node.new) }
{
    match node.lend(uid, to) {
        Ok(letter) => Ok(answered(true, Some(letter))),
        Err(refusal) => refused(refusal),
    }
}

/// Gives its letter anew.
fn ask_again<St: Store>(node: &mut MoveNode<St>, uid: Uid) -> Result<Answer, AllocError>
    requires power { IsTrue (St.seen node.old.store).disk.counts.power }
    requires of { IsOpen node.old.number (St.seen node.old.store) }
    requires may { MayAsk node.old.number (ask.Again uid) }
    ensures { Heard St.Device.tells St.layout (uid_in node.old.number (ask.Again uid)) (call_in (ask.Again uid)) result
        (manned St.seen node.old) (manned St.seen node.new) }
{
    match node.again(uid) {
        Ok(letter) => Ok(answered(false, Some(letter))),
        Err(refusal) => refused(refusal),
    }
}

/// Whether a letter led to a put.
fn was_put(letter: &Letter, took: &Took) -> bool
    ensures { result ≡ put_by letter.now took.now }
{
    match letter {
        Letter::Take { .. } => took.here,
        Letter::Known { .. } => took.closed,
    }
}

/// What came of a letter: whether a record was put, and the answer to it.
fn took_answer(letter: &Letter, took: Took) -> Answer
    ensures is { answer_of result ≡ Ends (Answered (put_by letter.now took) (option_map seen_letter took.reply)) }
    ensures about { (u : Uid) → IsAboutPost u took.reply → IsAbout u result }
{
    let put = was_put(letter, &took);
    answered(put, took.reply)
}

/// Takes a letter.
fn ask_take<St: Store>(
    node: &mut MoveNode<St>,
    from: u8,
    letter: &Letter,
) -> Result<Answer, AllocError>
    requires power { IsTrue (St.seen node.old.store).disk.counts.power }
    requires of { IsOpen node.old.number (St.seen node.old.store) }
    requires may { IsWanderer (uid_of letter.now) }
    ensures { Heard St.Device.tells St.layout (uid_of letter.now) (letter_call from letter.now) result
        (manned St.seen node.old) (manned St.seen node.new) }
{
    match node.take(from, letter) {
        Ok(took) => Ok(took_answer(letter, took)),
        Err(refusal) => refused(refusal),
    }
}

/// Asks a node that is up.
pub fn carry_out<St: Store>(
    alloc: Global,
    node: &mut MoveNode<St>,
    what: &Ask,
) -> Result<Answer, AllocError>
    requires power { IsTrue (St.seen node.old.store).disk.counts.power }
    requires of { IsOpen node.old.number (St.seen node.old.store) }
    requires may { MayAsk node.old.number what.now }
    ensures { Heard St.Device.tells St.layout (uid_in node.old.number what.now) (call_in what.now) result
        (manned St.seen node.old) (manned St.seen node.new) }
{
    match what {
        Ask::Make { serial, value } => ask_make(node, *serial, copy(alloc, value)?),
        Ask::Wake { uid } => ask_wake(node, *uid),
        Ask::Save { uid, value } => ask_save(node, *uid, copy(alloc, value)?),
        Ask::Lend { uid, to } => ask_lend(node, *uid, *to),
        Ask::Again { uid } => ask_again(node, *uid),
        Ask::Take { from, letter } => ask_take(node, *from, letter),
    }
}
