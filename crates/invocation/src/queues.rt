//! The queues of messages: one for each ordered pair of stations, and one from each to itself.
ghost use Rattle.std.specs.Prelude.{◌≡◌, ◌≤◌, ◌<◌, ◌+◌, ◌*◌, ◌++◌, ◌∷◌, [], IfOk, MatchResult, replicate, ℕ, true, false, cond};
ghost use Rattle.std.specs.Prelude.{length, slice_index_or, option_copied};
ghost use Rattle.eden_model.specs.Map.{first, rest};
ghost use Rattle.invocation.specs.Queues.{row, sent_to, cut_between, cleared, on_way, sent_from};
ghost use Rattle.invocation.specs.Mail.{let_go};
ghost use Rattle.invocation.specs.Whole.{AllGiven};

use crate::call::{Call, Message};
use std::alloc::{AllocError, Global};
use std::collections::VecDeque;
use std::marker::Model;

/// Messages from one station to another, in the order of sending.
#[derive(Drop)]
pub struct Queue {
    messages: VecDeque<Message>,
}

impl Model for Queue {
    ghost use Rattle.std.specs.Prelude.{List};
    ghost use Rattle.invocation.specs.declared.call.Message.{Message};

    ghost Value = { List Message };

    ghost use Rattle.std.specs.Coded.{codes};
    ghost use Rattle.eden_value.specs.Code.{coded_datum};

    ghost coded = { Prim.hlevel (codes, coded_datum) };

    ghost view = { λ q. q.messages.items };
}

impl Queue {
    fn new(alloc: Global) -> Queue
        ensures { result ≡ [] }
    {
        Queue {
            messages: VecDeque::new(alloc),
        }
    }

    /// The first message, while it waits.
    pub fn head(&self) -> Option<&Message>
        ensures { option_copied result ≡ first self.now }
    {
        self.messages.front()
    }

    /// The first message leaves the queue.
    pub fn take(&mut self) -> Option<Message>
        ensures first { result ≡ first self.old }
        ensures rest { self.new ≡ rest self.old }
    {
        self.messages.pop_front()
    }

    /// The calls of the messages let their arguments go.
    pub fn let_go(&self, alloc: Global, calls: &mut Vec<Call>)
        requires { AllGiven calls.old.items self.now }
        ensures { calls.new.items ≡ let_go self.now calls.old.items }
    {
        for i in 0..self.messages.len() {
            let number = self.messages[i].number();
            let call = &mut calls[(number - 1) as usize];
            call.spend(alloc);
        }
    }

    /// All messages are lost.
    pub fn clear(&mut self)
        ensures { self.new ≡ [] }
    {
        self.messages.clear();
    }

    /// The message is the last of the queue.
    pub fn join(&mut self, message: Message) -> Result<(), AllocError>
        ensures { MatchResult result (λ _. self.new ≡ self.old ++ message ∷ [])
            (λ _. self.new ≡ self.old) }
    {
        match self.messages.push_back(message) {
            Ok(()) => Ok(()),
            Err(_) => Err(AllocError),
        }
    }
}

/// The place of the queue from one station to another.
pub fn pair(from: u8, to: u8) -> usize
    requires from { from ≤ 8 }
    requires to { to ≤ 8 }
    ensures place { result ≡ 9 * from + to }
    ensures within { result < 81 }
{
    9 * from as usize + to as usize
}

/// An empty queue for each ordered pair of stations.
pub fn empty_queues(alloc: Global) -> Result<Vec<Queue>, AllocError>
    ensures { IfOk result (λ v. v.items ≡ replicate 81 []) }
{
    let mut queues = Vec::new(alloc);
    for _i in 0..81usize {
        queues.push(Queue::new(alloc))?;
    }
    Ok(queues)
}

/// Whether a message from any station is on its way to this one.
pub fn is_any_to(queues: &[Queue], to: u8) -> bool
    requires to { to ≤ 8 }
    requires pairs { length queues.now ≡ 81 }
    ensures none { result ≡ false → (from : ℕ) → from ≤ 8 → row from to queues.now ≡ [] }
{
    for from in 0..9u8 {
        if queues[pair(from, to)].head().is_some() {
            return true;
        }
    }
    false
}

/// The message is the last of the queue from one station to the other.
pub fn send(queues: &mut Vec<Queue>, from: u8, to: u8, message: Message) -> Result<(), AllocError>
    requires from { from ≤ 8 }
    requires to { to ≤ 8 }
    requires pairs { length queues.old.items ≡ 81 }
    ensures { MatchResult result (λ _. queues.new.items ≡ sent_to from to message queues.old.items)
        (λ _. queues.new.items ≡ queues.old.items) }
{
    let queue = &mut queues[pair(from, to)];
    queue.join(message)
}

/// The same where the test says so; else the message is dropped.
pub fn send_where(
    test: bool,
    queues: &mut Vec<Queue>,
    from: u8,
    to: u8,
    message: Message,
) -> Result<(), AllocError>
    requires from { test ≡ true → from ≤ 8 }
    requires to { to ≤ 8 }
    requires pairs { length queues.old.items ≡ 81 }
    ensures { MatchResult result (λ _. queues.new.items ≡ cond test (sent_to from to message queues.old.items) queues.old.items)
        (λ _. queues.new.items ≡ queues.old.items) }
{
    if test {
        send(queues, from, to, message)?;
    }
    Ok(())
}

/// The calls whose messages are on the link between the two stations let their arguments go.
pub fn let_go_between(alloc: Global, queues: &[Queue], calls: &mut Vec<Call>, a: u8, b: u8)
    requires from { a ≤ 8 }
    requires to { b ≤ 8 }
    requires pairs { length queues.now ≡ 81 }
    requires given { (i : ℕ) → AllGiven calls.old.items (slice_index_or queues.now i []) }
    ensures { calls.new.items ≡ let_go (on_way a b queues.now) calls.old.items }
{
    if a != b {
        queues[pair(a, b)].let_go(alloc, calls);
        queues[pair(b, a)].let_go(alloc, calls);
    }
}

/// The calls whose messages are on their way from the node let their arguments go.
pub fn let_go_from(alloc: Global, queues: &[Queue], calls: &mut Vec<Call>, node: u8)
    requires node { node ≤ 8 }
    requires pairs { length queues.now ≡ 81 }
    requires given { (i : ℕ) → AllGiven calls.old.items (slice_index_or queues.now i []) }
    ensures { calls.new.items ≡ let_go (sent_from node 9 queues.now) calls.old.items }
{
    for other in 0..9u8 {
        queues[pair(node, other)].let_go(alloc, calls);
    }
}

/// The queues of the link between the two stations are emptied, in both directions. A station's
/// queue to itself is on no link.
pub fn clear_between(queues: &mut Vec<Queue>, a: u8, b: u8)
    requires from { a ≤ 8 }
    requires to { b ≤ 8 }
    requires pairs { length queues.old.items ≡ 81 }
    ensures { queues.new.items ≡ cut_between a b queues.old.items }
{
    if a != b {
        let there = &mut queues[pair(a, b)];
        there.clear();
        let back = &mut queues[pair(b, a)];
        back.clear();
    }
}

/// The queues to and from the node are emptied.
pub fn clear_at(queues: &mut Vec<Queue>, node: u8)
    requires node { node ≤ 8 }
    requires pairs { length queues.old.items ≡ 81 }
    ensures { queues.new.items ≡ cleared node 9 queues.old.items }
{
    for other in 0..9u8 {
        let there = &mut queues[pair(node, other)];
        there.clear();
        let back = &mut queues[pair(other, node)];
        back.clear();
    }
}
