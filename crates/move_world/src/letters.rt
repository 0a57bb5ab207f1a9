//! The letters that nodes sent.
ghost use Rattle.std.specs.Prelude.{◌≡◌, ◌≤◌, ◌<◌, ◌-◌, IfOk, OnOk, OnErr, Bool, length, slice_get};
ghost use Rattle.std.specs.List.{All};
ghost use Rattle.std.specs.Option.{option_map};
ghost use Rattle.eden_move.specs.Calls.{uid_of, seen_letter};
ghost use Rattle.eden_move.specs.Shown.{IsWanderer};
ghost use Rattle.move_world.specs.Commands.{IsNode};
ghost use Rattle.move_world.specs.Logs as logs;
ghost use Rattle.move_world.specs.Kept as kept;
ghost use Rattle.move_world.specs.Worlds as worlds;

use crate::answer::{Answer, Ended};
use eden_move::Letter;
use eden_value::copy;
use std::alloc::{AllocError, Global};

/// The letters from each node to each other, in the order in which they were sent. None ever leaves.
#[derive(Drop)]
pub struct Letters {
    /// By the place of the two nodes.
    pub lists: Vec<Vec<Letter>>,
}

/// The place of two nodes.
fn slot(a: u8, b: u8) -> usize
    requires first { IsNode a }
    requires second { IsNode b }
    ensures place { result ≡ kept.slot a b }
    ensures within { result < 64 }
{
    (a as usize - 1) * 8 + (b as usize - 1)
}

/// The same letter. Its value is shared.
pub fn copy_letter(alloc: Global, letter: &Letter) -> Result<Letter, AllocError>
    ensures about { IfOk result (λ l. uid_of l ≡ uid_of letter.now) }
    ensures same { IfOk result (λ l. seen_letter l ≡ seen_letter letter.now) }
{
    match letter {
        Letter::Take {
            uid,
            to,
            generation,
            value,
        } => Ok(Letter::Take {
            uid: *uid,
            to: *to,
            generation: *generation,
            value: copy(alloc, value)?,
        }),
        Letter::Known {
            uid,
            to,
            generation,
        } => Ok(Letter::Known {
            uid: *uid,
            to: *to,
            generation: *generation,
        }),
    }
}

/// The node to which a letter goes.
fn receiver(letter: &Letter) -> u8
    ensures { result ≡ logs.receiver (seen_letter letter.now) }
{
    match letter {
        Letter::Take { to, .. } => *to,
        Letter::Known { to, .. } => *to,
    }
}

impl Letters {
    /// No letters.
    pub fn new(alloc: Global) -> Result<Letters, AllocError>
        ensures none { IfOk result (λ l. kept.rows l ≡ kept.no_letters) }
        ensures count { IfOk result (λ l. length l.lists.items ≡ 64) }
    {
        let mut lists = Vec::with_capacity(alloc, 64)?;
        for i in 0..64 {
            let _i: usize = i;
            lists.push(Vec::new(alloc))?;
        }
        Ok(Letters { lists })
    }

    /// A letter was sent from node a to node b.
    fn put(&mut self, a: u8, b: u8, letter: Letter) -> Result<(), AllocError>
        requires count { length self.old.lists.items ≡ 64 }
        requires first { IsNode a }
        requires second { IsNode b }
        ensures count { length self.new.lists.items ≡ 64 }
        ensures kept { OnOk result (kept.rows self.new ≡ kept.with_letter (kept.rows self.old) a b letter) }
        ensures same { OnErr result (kept.rows self.new ≡ kept.rows self.old) }
    {
        self.lists[slot(a, b)].push(letter)?;
        Ok(())
    }

    /// A letter was sent from node a. One that goes to no node is not kept.
    pub fn send(&mut self, a: u8, letter: Letter) -> Result<(), AllocError>
        requires count { length self.old.lists.items ≡ 64 }
        requires first { IsNode a }
        ensures count { length self.new.lists.items ≡ 64 }
        ensures kept { OnOk result (kept.IsSent a letter (kept.rows self.old) (kept.rows self.new)) }
        ensures same { OnErr result (kept.rows self.new ≡ kept.rows self.old) }
    {
        let b = receiver(&letter);
        if 1 <= b && b <= 8 {
            self.put(a, b, letter)
        } else {
            Ok(())
        }
    }

    /// The letter with a number, from 1, of those from node a to node b, if there is one.
    pub fn at(&self, alloc: Global, a: u8, b: u8, i: u32) -> Result<Option<Letter>, AllocError>
        requires count { length self.now.lists.items ≡ 64 }
        requires first { IsNode a }
        requires second { IsNode b }
        requires number { 1 ≤ i }
        ensures { IfOk result (λ o. option_map (kept.post_from a) o ≡ slice_get (kept.posts_between (kept.rows self.now) a b) (i - 1)) }
    {
        match self.lists[slot(a, b)].get(i as usize - 1) {
            Some(letter) => Ok(Some(copy_letter(alloc, letter)?)),
            None => Ok(None),
        }
    }
}

/// The letter that an answer gives, if it gives one.
fn given(answer: &Answer) -> Option<&Letter>
    ensures { option_map (λ l. l.now) result ≡ worlds.given answer.now }
{
    match answer {
        Answer::Ends { how } => match how {
            Ended::Refused { .. } => None,
            Ended::Answered { post, .. } => post.as_ref(),
        },
        _ => None,
    }
}

impl Letters {
    /// The letter that an answer gives was sent from this node.
    pub fn note(&mut self, alloc: Global, n: u8, answer: &Answer) -> Result<(), AllocError>
        requires count { length self.old.lists.items ≡ 64 }
        requires first { IsNode n }
        ensures count { length self.new.lists.items ≡ 64 }
        ensures noted { OnOk result (worlds.IsNoted n (worlds.given answer.now) (kept.rows self.old) (kept.rows self.new)) }
        ensures same { OnErr result (kept.rows self.new ≡ kept.rows self.old) }
    {
        match given(answer) {
            Some(letter) => self.send(n, copy_letter(alloc, letter)?),
            None => Ok(()),
        }
    }
}
