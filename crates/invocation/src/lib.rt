//! Calls: who asked what of whom, and the messages on their way.
//!
//! Sending gives an invocation the next number, from 1. Its request joins the queue from the
//! caller's station to the target's node, and its reply the queue back. There is one queue for each
//! ordered pair of stations, and one from each station to itself that no cut touches. Each call is
//! answered at most once: at once as it is asked, by its reply, or by a cut or a crash.
#![tactic(auto)]

mod askers;
mod call;
mod closing;
mod lists;
mod queues;

ghost use Rattle.std.specs.Prelude.{◌≡◌, ◌≤◌, ◌<◌, ◌+◌, ◌-◌, ◌∷◌, [], ℕ, false, not, List, IfOk, IfSome, MatchResult, length};
ghost use Rattle.std.specs.Prelude.{option_copied};
ghost use Rattle.eden_model.specs.Map.{first};
ghost use Rattle.eden_model.specs.Lines.{has, Distinct};
ghost use Rattle.eden_model.specs.Traffic.{Traffic, asking_station, with_call, replied, without_link, without_node};
ghost use Rattle.eden_model.specs.Traffic.{broken_by_link, broken_by_node, numbers_of};
ghost use Rattle.eden_model.specs.Traffic as traffic;
ghost use Rattle.invocation.specs.Mail.{Mail, no_mail, Delivers, IsGiven, call_of, is_waiting, is_open, Asks, queue_at, with_reply};
ghost use Rattle.invocation.specs.Mail.{refused_at_once, received, broken_where, orphaned, crosses, cut_link, enters, cut_node};
ghost use Rattle.invocation.specs.Numbers.{item_in, passes_at};
ghost use Rattle.invocation.specs.Answered.{MailChange, all_answered};
ghost use Rattle.invocation.specs.Carries.{Carries, CarriesDelivery, no_traffic};

use crate::askers::{close_own, note};
use crate::call::{new_call, station};
use crate::closing::{call_at, receive};
use crate::lists::Index;
use crate::queues::{
    clear_at, clear_between, empty_queues, is_any_to, let_go_between, let_go_from, pair, send,
    send_where,
};
pub use call::{Asked, Call, Delivery, Message};
use capability::{CallNumbers, Cap, MESSAGE_LIMIT, Seq, Uid};
pub use closing::Cause;
use eden_codec::values_size;
pub use eden_model::Asker;
use eden_value::{Items, Status, Txt};
use locator::Places;
pub use queues::Queue;
use std::alloc::{AllocError, Global};
use std::collections::BTreeMap;
use std::marker::Model;

/// All calls that were asked, and the messages on their way.
#[derive(Drop)]
pub struct Calls {
    alloc: Global,
    calls: Vec<Call>,
    // The calls by the cuts and crashes that would close them. A delivery leaves it as it is.
    index: Index,
    // The numbers of the open calls of each Eject that asked, ascending, and perhaps of some that
    // closed since it last asked: so what closes its calls looks at no others.
    made: BTreeMap<Uid, Vec<u32>>,
    // Whether a message may be on its way to each station: where it says no, none is.
    mail: [bool; 9],
    queues: Vec<Queue>,
}

impl Model for Calls {
    ghost use Rattle.invocation.specs.Mail.{Mail};

    ghost Value = { Mail };

    ghost use Rattle.std.specs.Coded.{codes};
    ghost use Rattle.eden_value.specs.Code.{coded_datum};

    ghost coded = { Prim.hlevel (codes, coded_datum) };

    ghost use Rattle.invocation.specs.Whole.{IsWhole};

    ghost view = { λ c. record { calls = c.calls.items; queues = c.queues.items } };

    ghost invariant = { λ c. IsWhole c.calls.items c.index c.made c.mail c.queues.items };
}

impl Calls {
    /// No call was asked, and no message is on its way.
    pub fn new(alloc: Global) -> Result<Calls, AllocError>
        ensures none { IfOk result (λ c. c ≡ no_mail) }
        ensures model { IfOk result (λ c. Carries c no_traffic) }
    {
        let queues = empty_queues(alloc)?;
        let index = Index::new(alloc)?;
        Ok(Calls {
            alloc,
            calls: Vec::new(alloc),
            index,
            made: BTreeMap::new(alloc),
            mail: [false; 9],
            queues,
        })
    }

    /// Whether a message from one station to the other is on its way.
    pub fn waiting(&self, from: u8, to: u8) -> bool
        requires from { from ≤ 8 }
        requires to { to ≤ 8 }
        ensures { result ≡ is_waiting from to self.now }
    {
        self.queues[pair(from, to)].head().is_some()
    }

    /// Whether a message may be on its way to a station. Where it answers no, none is.
    pub fn may_have_mail(&self, to: u8) -> bool
        requires { to ≤ 8 }
        ensures none { result ≡ false → (from : ℕ) → from ≤ 8 → is_waiting from to self.now ≡ false }
    {
        self.mail[to as usize]
    }

    /// The message that is delivered next from one station to the other.
    pub fn first(&self, from: u8, to: u8) -> Option<&Message>
        requires from { from ≤ 8 }
        requires to { to ≤ 8 }
        ensures { option_copied result ≡ first (queue_at from to self.now) }
    {
        self.queues[pair(from, to)].head()
    }

    /// The call of this number, open or closed. None exactly where the number was never given.
    pub fn call(&self, number: u32) -> Option<&Call>
        ensures { option_copied result ≡ item_in number self.now.calls }
    {
        call_at(&self.calls, number)
    }

    /// All calls that were asked, open or closed, in the order of their numbers, which are counted from 1.
    pub fn all(&self) -> &[Call]
        ensures { result.now ≡ self.now.calls }
    {
        self.calls.as_slice()
    }

    /// A new call, under the next number. It is answered at once TooLarge exactly where the
    /// arguments' spelling is longer than 65,536 bytes, else Unreachable exactly where the target's
    /// node is not reached, as where there is no such node. Otherwise its request is sent.
    pub fn ask(
        &mut self,
        alloc: Global,
        asker: Asker,
        target: Cap,
        operation: Txt,
        args: Items,
        places: &Places,
    ) -> Result<Asked, AllocError>
        requires few { length self.old.calls < 4294967295 }
        requires asker { asking_station asker ≤ 8 }
        ensures cases { MatchResult result (Asks asker target operation args places.now self.old self.new)
            (λ _. self.new ≡ self.old) }
        ensures model { (t : Traffic) → Carries self.old t
            → IfOk result (λ it. Carries self.new (with_call it.call asker target operation args it.at_once t)) }
    {
        let call = (self.calls.len() + 1) as u32;
        let from = station(&asker);
        let to = target.uid.node;
        let at_once = refusal(&args, places.reach(from, to));
        self.calls.reserve(1)?;
        match at_once {
            None => {
                self.index.reserve(from, to)?;
                note(self.alloc, &self.calls, &mut self.made, &asker, call)?;
                send(&mut self.queues, from, to, Message::Request { call })?;
                self.mail[to as usize] = true;
                self.index.note(from, to, call);
            }
            Some(_) => {}
        }
        self.calls.push_reserved(new_call(
            alloc,
            asker,
            target,
            operation,
            args,
            at_once.is_some(),
        ));
        Ok(Asked { call, at_once })
    }

    /// Sends a reply and answers true where the call is open; else it answers false. In either case
    /// the call's arguments are let go. A number that was never given changes nothing.
    pub fn answer(
        &mut self,
        _alloc: Global,
        call: u32,
        status: Status,
        results: Items,
    ) -> Result<bool, AllocError>
        ensures cases { MatchResult result
            (λ sent. (sent ≡ passes_at is_open self.old.calls call) × (self.new ≡ with_reply call status results self.old))
            (λ _. self.new ≡ self.old) }
        ensures model { (t : Traffic) → Carries self.old t → has call t.transit ≡ false
            → IfOk result (λ _. Carries self.new (replied status results call t)) }
    {
        let Some(asked) = call_at(&self.calls, call) else {
            return Ok(false);
        };
        let open = !asked.closed;
        let from = asked.target.uid.node;
        let to = station(&asked.asker);
        let message = Message::Reply {
            call,
            status,
            results,
        };
        send_where(open, &mut self.queues, from, to, message)?;
        self.mail[to as usize] |= open;
        let asked = &mut self.calls[(call - 1) as usize];
        asked.spend(self.alloc);
        Ok(open)
    }

    /// Closes the open calls of an Eject that lost its active part. They get no answer.
    pub fn orphan(&mut self, uid: Uid)
        ensures after { self.new ≡ orphaned uid self.old }
        ensures model { (t : Traffic) → Carries self.old t → Carries self.new (traffic.orphaned uid t) }
    {
        close_own(self.alloc, &mut self.calls, &mut self.made, uid);
    }

    /// The link between the two stations is cut: the calls over it are closed, the messages on it
    /// are lost, and the calls that were open are listed, ascending.
    pub fn break_link(&mut self, alloc: Global, a: u8, b: u8) -> Result<CallNumbers, AllocError>
        requires from { a ≤ 8 }
        requires to { b ≤ 8 }
        ensures cases { MatchResult result
            (λ ks. (ks ≡ broken_where (crosses a b) self.old) × (self.new ≡ cut_link a b self.old))
            (λ _. self.new ≡ self.old) }
        ensures model { (t : Traffic) → Carries self.old t
            → IfOk result (λ ks. (ks ≡ numbers_of (broken_by_link a b) t) × Carries self.new (without_link a b t)) }
    {
        let numbers = self.index.broken_by_cut(alloc, &self.calls, a, b)?;
        self.index.close_over(self.alloc, &mut self.calls, a, b);
        let_go_between(self.alloc, &self.queues, &mut self.calls, a, b);
        clear_between(&mut self.queues, a, b);
        Ok(Seq { items: numbers })
    }

    /// The node has crashed: the calls to it and from it are closed, the messages to it and from it
    /// are lost, and the open calls of other stations to it are listed, ascending.
    pub fn break_node(&mut self, alloc: Global, node: u8) -> Result<CallNumbers, AllocError>
        requires { node ≤ 8 }
        ensures cases { MatchResult result
            (λ ks. (ks ≡ broken_where (enters node) self.old) × (self.new ≡ cut_node node self.old))
            (λ _. self.new ≡ self.old) }
        ensures model { (t : Traffic) → Carries self.old t
            → IfOk result (λ ks. (ks ≡ numbers_of (broken_by_node node) t) × Carries self.new (without_node node t)) }
    {
        let numbers = self.index.broken_by_crash(alloc, &self.calls, node)?;
        self.index.close_at(self.alloc, &mut self.calls, node);
        let_go_from(self.alloc, &self.queues, &mut self.calls, node);
        clear_at(&mut self.queues, node);
        Ok(Seq { items: numbers })
    }

    /// The first message from one station to the other arrives. A reply closes its call, and is told
    /// with whether the call was open and which process asked. None exactly where no message is on
    /// its way there.
    pub fn deliver(&mut self, from: u8, to: u8) -> Option<Delivery>
        requires from { from ≤ 8 }
        requires to { to ≤ 8 }
        ensures first { Delivers from to self.old result self.new }
        ensures given { IfSome result (λ d. IsGiven self.new.calls (call_of d)) }
        ensures model { (t : Traffic) → Carries self.old t → CarriesDelivery from to result self.new t }
    {
        let queue = &mut self.queues[pair(from, to)];
        match queue.take() {
            Some(message) => {
                self.mail[to as usize] = is_any_to(&self.queues, to);
                Some(receive(self.alloc, &mut self.calls, message))
            }
            None => None,
        }
    }
}

/// Each call is answered at most once: over any run of changes, no number stands twice among the
/// calls that were refused at once, broken by a cut or a crash, or open as their reply arrived.
pub fn no_call_answered_twice()
    ensures { (m : Mail) (cs : List MailChange) → Distinct (all_answered m cs) }
{}

/// The status that refuses a call at once, if any. TooLarge comes before Unreachable.
fn refusal(args: &Items, reached: bool) -> Option<Status>
    ensures { result ≡ refused_at_once reached args.now }
{
    if values_size(args) > u64::from(MESSAGE_LIMIT) {
        Some(Status::TooLarge)
    } else if reached {
        None
    } else {
        Some(Status::Unreachable)
    }
}
