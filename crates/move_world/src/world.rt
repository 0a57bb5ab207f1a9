//! The world of a script: the places of eight nodes, and the letters between them.
ghost use Rattle.std.specs.Prelude.{◌≡◌, ◌≤◌, IsTrue, IfOk, IfSome, Some, None, length};
ghost use Rattle.std.specs.Option.{option_map};
ghost use Rattle.eden_value.specs.Datum.{Datum};
ghost use Rattle.passive_store.specs.Seen.{disk_seen};
ghost use Rattle.eden_disk.specs.Calls.{calls_until};
ghost use Rattle.move_laws.specs.World.{World as AnyWorld};
ghost use Rattle.script_words.specs.Meaning.{written_mode};
ghost use Rattle.eden_move.specs.Calls.{uid_of, seen_letter};
ghost use Rattle.eden_move.specs.Shown.{IsFitCall, IsFitPost, IsWanderer};
ghost use Rattle.move_world.specs.Commands.{IsNode, IsInReach};
ghost use Rattle.move_world.specs.Commands as commands;
ghost use Rattle.move_world.specs.Kept.{rows};
ghost use Rattle.move_world.specs.View.{answer_of, meant};
ghost use Rattle.move_world.specs.Asking.{uid_in, call_in, MayAsk};
ghost use Rattle.move_world.specs.Seats.{is_serving};
ghost use Rattle.move_world.specs.Worlds.{standings, standing_at, IsWorld, IsOf, Steps, AskedIn, DeliveredIn, ArmedIn, came_as, asked_by};
ghost use Rattle.move_world.specs.Counting.{end_in, node_of};
ghost use Rattle.move_world.specs.Counted.{CountedAt};

use crate::answer::Answer;
use crate::ask::Ask;
use crate::commands::MoveCommand;
use crate::letters::{Letters, copy_letter};
use crate::seat::{Seat, arm_seat, ask_seat, crash_at, is_up, open_at};
use eden_disk::{Arm, ImageMode};
use eden_move::Letter;
use eden_value::copy;
use passive_store::Store;
use std::alloc::{AllocError, Global};

/// The places of eight nodes, and all letters that were sent.
#[derive(Drop)]
pub struct MoveWorld<St: Store> {
    /// What stands at the place of each node.
    pub seats: Vec<Seat<St>>,
    /// The letters.
    pub letters: Letters,
}

/// What a command asks of which node, if it is a call.
fn ask_of(alloc: Global, command: &MoveCommand) -> Result<Option<(u8, Ask)>, AllocError>
    requires { IsInReach (meant command.now) }
    ensures is { IfOk result (λ o. option_map (λ p. (p.0, uid_in p.0 p.1, call_in p.1)) o ≡ asked_by (meant command.now)) }
    ensures may { IfOk result (λ o. IfSome o (λ p. IsNode p.0 × MayAsk p.0 p.1 × IsFitCall (call_in p.1))) }
{
    match command {
        MoveCommand::Make { n, serial, value } => Ok(Some((
            *n,
            Ask::Make {
                serial: *serial,
                value: copy(alloc, value)?,
            },
        ))),
        MoveCommand::Wake { n, uid } => Ok(Some((*n, Ask::Wake { uid: *uid }))),
        MoveCommand::Save { n, uid, value } => Ok(Some((
            *n,
            Ask::Save {
                uid: *uid,
                value: copy(alloc, value)?,
            },
        ))),
        MoveCommand::Move { n, uid, to } => Ok(Some((*n, Ask::Lend { uid: *uid, to: *to }))),
        MoveCommand::Again { n, uid } => Ok(Some((*n, Ask::Again { uid: *uid }))),
        _ => Ok(None),
    }
}

/// A letter came, and the call to which it led was answered so.
fn came(letter: Letter, answer: Answer) -> Answer
    ensures { answer_of result ≡ came_as (uid_of letter) (seen_letter letter) (answer_of answer) }
{
    match answer {
        Answer::Ends { how } => Answer::Comes { letter, how },
        other => other,
    }
}

impl<St: Store> MoveWorld<St>
where
    St::Device: Drop,
{
    /// Whether the node at a place is up.
    fn is_up(&self, n: u8) -> bool
        requires eight { length self.now.seats.items ≡ 8 }
        requires node { IsNode n }
        ensures { result ≡ is_serving (standing_at (standings St.seen (disk_seen St.Device.counts St.Device.told St.Device.due)
            self.now.seats.items) n) }
    {
        is_up(&self.seats[usize::from(n) - 1])
    }

    /// Asks a node, if it is up.
    fn ask(&mut self, alloc: Global, n: u8, what: &Ask) -> Result<Answer, AllocError>
        requires world { IsWorld (standings St.seen (disk_seen St.Device.counts St.Device.told St.Device.due) self.old.seats.items)
            (rows self.old.letters) }
        requires node { IsNode n }
        requires may { MayAsk n what.now }
        ensures world { IsWorld (standings St.seen (disk_seen St.Device.counts St.Device.told St.Device.due) self.new.seats.items)
            (rows self.new.letters) }
        ensures counted { let look = disk_seen St.Device.counts St.Device.told St.Device.due in
            IfOk result (λ a. CountedAt n (end_in (answer_of a))
            (standings St.seen look self.old.seats.items) (standings St.seen look self.new.seats.items)) }
        ensures asked { let look = disk_seen St.Device.counts St.Device.told St.Device.due in IsTrue St.Device.tells
            → IsFitCall (call_in what.now) → (w : AnyWorld Datum)
            → IsOf St.layout (standings St.seen look self.old.seats.items) (rows self.old.letters) w
            → IfOk result (λ a. AskedIn St.layout n (uid_in n what.now) (call_in what.now) (answer_of a)
            (standings St.seen look self.new.seats.items) (rows self.new.letters) w) }
    {
        let answer = ask_seat(alloc, n, &mut self.seats[usize::from(n) - 1], what)?;
        self.letters.note(alloc, n, &answer)?;
        Ok(answer)
    }

    /// A letter comes from node a to node b.
    fn deliver(&mut self, alloc: Global, a: u8, b: u8, letter: Letter) -> Result<Answer, AllocError>
        requires world { IsWorld (standings St.seen (disk_seen St.Device.counts St.Device.told St.Device.due) self.old.seats.items)
            (rows self.old.letters) }
        requires node { IsNode b }
        requires wanderer { IsWanderer (uid_of letter) }
        ensures world { IsWorld (standings St.seen (disk_seen St.Device.counts St.Device.told St.Device.due) self.new.seats.items)
            (rows self.new.letters) }
        ensures counted { let look = disk_seen St.Device.counts St.Device.told St.Device.due in
            IfOk result (λ x. CountedAt b (end_in (answer_of x))
            (standings St.seen look self.old.seats.items) (standings St.seen look self.new.seats.items)) }
        ensures delivered { let look = disk_seen St.Device.counts St.Device.told St.Device.due in IsTrue St.Device.tells
            → IsFitPost (Some (seen_letter letter)) → (w : AnyWorld Datum)
            → IsOf St.layout (standings St.seen look self.old.seats.items) (rows self.old.letters) w
            → IfOk result (λ x. DeliveredIn St.layout a b letter (answer_of x)
            (standings St.seen look self.new.seats.items) (rows self.new.letters) w) }
    {
        let what = Ask::Take {
            from: a,
            letter: copy_letter(alloc, &letter)?,
        };
        let answer = self.ask(alloc, b, &what)?;
        Ok(came(letter, answer))
    }

    /// The letter with a number, from 1, of those from node a to node b, comes.
    fn carry(&mut self, alloc: Global, a: u8, b: u8, i: u32) -> Result<Answer, AllocError>
        requires world { IsWorld (standings St.seen (disk_seen St.Device.counts St.Device.told St.Device.due) self.old.seats.items)
            (rows self.old.letters) }
        requires first { IsNode a }
        requires second { IsNode b }
        requires number { 1 ≤ i }
        ensures world { IsWorld (standings St.seen (disk_seen St.Device.counts St.Device.told St.Device.due) self.new.seats.items)
            (rows self.new.letters) }
        ensures counted { let look = disk_seen St.Device.counts St.Device.told St.Device.due in
            IfOk result (λ x. CountedAt b (end_in (answer_of x))
            (standings St.seen look self.old.seats.items) (standings St.seen look self.new.seats.items)) }
        ensures steps { let look = disk_seen St.Device.counts St.Device.told St.Device.due in IsTrue St.Device.tells → (w : AnyWorld Datum)
            → IsOf St.layout (standings St.seen look self.old.seats.items) (rows self.old.letters) w
            → IfOk result (λ x. Steps St.layout (commands.carries a b i) (answer_of x)
            (standings St.seen look self.new.seats.items) (rows self.new.letters) w) }
    {
        if !self.is_up(b) {
            return Ok(Answer::WrongState);
        }
        match self.letters.at(alloc, a, b, i)? {
            None => Ok(Answer::NoLetter),
            Some(letter) => self.deliver(alloc, a, b, letter),
        }
    }

    /// A node crashes.
    fn crash(&mut self, n: u8, mode: ImageMode) -> Answer
        requires world { IsWorld (standings St.seen (disk_seen St.Device.counts St.Device.told St.Device.due) self.old.seats.items)
            (rows self.old.letters) }
        requires node { IsNode n }
        ensures world { IsWorld (standings St.seen (disk_seen St.Device.counts St.Device.told St.Device.due) self.new.seats.items)
            (rows self.new.letters) }
        ensures counted { let look = disk_seen St.Device.counts St.Device.told St.Device.due in CountedAt n (end_in (answer_of result))
            (standings St.seen look self.old.seats.items) (standings St.seen look self.new.seats.items) }
        ensures steps { let look = disk_seen St.Device.counts St.Device.told St.Device.due in IsTrue St.Device.tells → (w : AnyWorld Datum)
            → IsOf St.layout (standings St.seen look self.old.seats.items) (rows self.old.letters) w
            → Steps St.layout (commands.crashes n (written_mode mode)) (answer_of result)
            (standings St.seen look self.new.seats.items) (rows self.new.letters) w }
    {
        crash_at(&mut self.seats[usize::from(n) - 1], mode)
    }

    /// The disk of a node is opened again.
    fn restart(&mut self, alloc: Global, n: u8) -> Result<Answer, AllocError>
        requires world { IsWorld (standings St.seen (disk_seen St.Device.counts St.Device.told St.Device.due) self.old.seats.items)
            (rows self.old.letters) }
        requires node { IsNode n }
        ensures world { IsWorld (standings St.seen (disk_seen St.Device.counts St.Device.told St.Device.due) self.new.seats.items)
            (rows self.new.letters) }
        ensures counted { let look = disk_seen St.Device.counts St.Device.told St.Device.due in
            IfOk result (λ x. CountedAt n (end_in (answer_of x))
            (standings St.seen look self.old.seats.items) (standings St.seen look self.new.seats.items)) }
        ensures steps { let look = disk_seen St.Device.counts St.Device.told St.Device.due in IsTrue St.Device.tells → (w : AnyWorld Datum)
            → IsOf St.layout (standings St.seen look self.old.seats.items) (rows self.old.letters) w
            → IfOk result (λ x. Steps St.layout (commands.restarts n) (answer_of x)
            (standings St.seen look self.new.seats.items) (rows self.new.letters) w) }
    {
        open_at(alloc, n, &mut self.seats[usize::from(n) - 1])
    }

    /// The disk of a node is asked for a failure or a stop.
    fn arm(&mut self, n: u8, what: Arm) -> Answer
        requires world { IsWorld (standings St.seen (disk_seen St.Device.counts St.Device.told St.Device.due) self.old.seats.items)
            (rows self.old.letters) }
        requires node { IsNode n }
        requires soon { 1 ≤ calls_until what }
        ensures world { IsWorld (standings St.seen (disk_seen St.Device.counts St.Device.told St.Device.due) self.new.seats.items)
            (rows self.new.letters) }
        ensures counted { let look = disk_seen St.Device.counts St.Device.told St.Device.due in CountedAt n (end_in (answer_of result))
            (standings St.seen look self.old.seats.items) (standings St.seen look self.new.seats.items) }
        ensures armed { let look = disk_seen St.Device.counts St.Device.told St.Device.due in IsTrue St.Device.tells → (w : AnyWorld Datum)
            → IsOf St.layout (standings St.seen look self.old.seats.items) (rows self.old.letters) w
            → ArmedIn St.layout n (answer_of result) (standings St.seen look self.new.seats.items) (rows self.new.letters) w }
    {
        arm_seat(&mut self.seats[usize::from(n) - 1], what)
    }

    /// Carries out a command that is no call of a node on an Eject.
    fn other(&mut self, alloc: Global, command: &MoveCommand) -> Result<Answer, AllocError>
        requires world { IsWorld (standings St.seen (disk_seen St.Device.counts St.Device.told St.Device.due) self.old.seats.items)
            (rows self.old.letters) }
        requires reach { IsInReach (meant command.now) }
        requires other { asked_by (meant command.now) ≡ None }
        ensures world { IsWorld (standings St.seen (disk_seen St.Device.counts St.Device.told St.Device.due) self.new.seats.items)
            (rows self.new.letters) }
        ensures counted { let look = disk_seen St.Device.counts St.Device.told St.Device.due in
            IfOk result (λ x. CountedAt (node_of (meant command.now)) (end_in (answer_of x))
            (standings St.seen look self.old.seats.items) (standings St.seen look self.new.seats.items)) }
        ensures steps { let look = disk_seen St.Device.counts St.Device.told St.Device.due in IsTrue St.Device.tells → (w : AnyWorld Datum)
            → IsOf St.layout (standings St.seen look self.old.seats.items) (rows self.old.letters) w
            → IfOk result (λ x. Steps St.layout (meant command.now) (answer_of x)
            (standings St.seen look self.new.seats.items) (rows self.new.letters) w) }
    {
        match command {
            MoveCommand::Carry { a, b, i } => self.carry(alloc, *a, *b, *i),
            MoveCommand::Crash { n, mode } => Ok(self.crash(*n, *mode)),
            MoveCommand::Restart { n } => self.restart(alloc, *n),
            MoveCommand::Fail { n, after } => Ok(self.arm(*n, Arm::Fail { after: *after })),
            MoveCommand::Stop { n, after, mode } => Ok(self.arm(
                *n,
                Arm::Stop {
                    after: *after,
                    mode: *mode,
                },
            )),
            _ => unreachable!(),
        }
    }

    /// Carries out a command.
    pub fn step(&mut self, alloc: Global, command: &MoveCommand) -> Result<Answer, AllocError>
        requires world { IsWorld (standings St.seen (disk_seen St.Device.counts St.Device.told St.Device.due) self.old.seats.items)
            (rows self.old.letters) }
        requires reach { IsInReach (meant command.now) }
        ensures world { IsWorld (standings St.seen (disk_seen St.Device.counts St.Device.told St.Device.due) self.new.seats.items)
            (rows self.new.letters) }
        ensures counted { let look = disk_seen St.Device.counts St.Device.told St.Device.due in
            IfOk result (λ x. CountedAt (node_of (meant command.now)) (end_in (answer_of x))
            (standings St.seen look self.old.seats.items) (standings St.seen look self.new.seats.items)) }
        ensures steps { let look = disk_seen St.Device.counts St.Device.told St.Device.due in IsTrue St.Device.tells → (w : AnyWorld Datum)
            → IsOf St.layout (standings St.seen look self.old.seats.items) (rows self.old.letters) w
            → IfOk result (λ x. Steps St.layout (meant command.now) (answer_of x)
            (standings St.seen look self.new.seats.items) (rows self.new.letters) w) }
    {
        match ask_of(alloc, command)? {
            Some((n, what)) => self.ask(alloc, n, &what),
            None => self.other(alloc, command),
        }
    }
}
