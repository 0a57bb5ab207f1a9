//! Answers to calls, and processes that are told theirs.
ghost use Rattle.std.specs.Prelude.{◌≡◌, IsSome, false, ◌<◌, [], ℕ, Bool};
ghost use Rattle.std.specs.Prelude.{◌↔◌, IsTrue, IfOk, OnOk, Some, None};
ghost use Rattle.invocation.specs.Carries.{Carries, CarriesDelivery};
ghost use Rattle.eden_model.specs.Crew.{Waits, outside};
ghost use Rattle.eden_model.specs.Lines.{has, Distinct};
ghost use Rattle.journal.specs.Ejects.{tells};
ghost use Rattle.epl_syntax.specs.declared.effect.Answer.TheVariants.{Reply as Told};
ghost use Rattle.eden_model.specs.Traffic.{Traffic, replied, all_replied};
ghost use Rattle.invocation.specs.Mail.{Mail};
ghost use Rattle.invocation.specs.declared.call.Delivery.TheVariants.{Reply};
ghost use Rattle.journal.specs.World.{Site};
ghost use Rattle.journal.specs.Sites.{IsSoundSite};
ghost use Rattle.epl_syntax.specs.Rules.OfTypes.{TypeList};
ghost use Rattle.active_part.specs.Body.{Body};
ghost use Rattle.ejects.specs.Counts.{AsksNone};
ghost use Rattle.ejects.specs.Events.{IsDelivery};
ghost use Rattle.ejects.specs.Marks.{IsLoose, IsLooseIn};
ghost use Rattle.ejects.specs.Parts.{body_at, Stands, IsStep};
ghost use Rattle.ejects.specs.Replies.{AreOut, seconds, sized};
ghost use Rattle.active_part.specs.Bodies.{told_body};
ghost use Rattle.ejects.specs.View.{parts_of, number_of, with_body};

use crate::Ejects;
use active_part::no_items;
use capability::{CallNumbers, MESSAGE_LIMIT, Uid};
use coordinator::Pairs;
use eden_codec::values_size;
use eden_value::{Items, Status, copy_items};
use epl_syntax::Answer;
use invocation::Calls;
use journal::Event;
use std::alloc::{AllocError, Global};

// A call is answered.
pub(crate) fn reply(
    alloc: Global,
    calls: &mut Calls,
    call: u32,
    status: Status,
    results: Items,
) -> Result<(), AllocError>
    ensures model { OnOk result ((t : Traffic) → Carries calls.old t → has call t.transit ≡ false
        → Carries calls.new (replied status results call t)) }
    ensures asks { OnOk result (AsksNone calls.old calls.new) }
{
    let _sent = calls.answer(alloc, call, status, results)?;
    Ok(())
}

// The results of a call that a process served are sent, unless they are too large.
pub(crate) fn send_results(
    alloc: Global,
    calls: &mut Calls,
    call: u32,
    results: Items,
) -> Result<(), AllocError>
    ensures model { OnOk result ((t : Traffic) → Carries calls.old t → has call t.transit ≡ false
        → Carries calls.new (sized results call t)) }
    ensures asks { OnOk result (AsksNone calls.old calls.new) }
{
    if values_size(&results) <= u64::from(MESSAGE_LIMIT) {
        reply(alloc, calls, call, Status::Ok, results)
    } else {
        reply(alloc, calls, call, Status::TooLarge, no_items(alloc))
    }
}

// Each of these calls is answered with the status, in order.
pub(crate) fn reply_all(
    alloc: Global,
    calls: &mut Calls,
    numbers: &CallNumbers,
    status: Status,
) -> Result<(), AllocError>
    ensures model { OnOk result ((t : Traffic) → Carries calls.old t → AreOut t numbers.now → Distinct numbers.now
        → Carries calls.new (all_replied status numbers.now t)) }
    ensures asks { OnOk result (AsksNone calls.old calls.new) }
{
    for number in &numbers.items {
        reply(alloc, calls, *number, status, no_items(alloc))?;
    }
    Ok(())
}

// Each of these calls, which processes serve, is answered with the status, in order.
fn reply_served(
    alloc: Global,
    calls: &mut Calls,
    pairs: &[(u8, u32)],
    status: Status,
) -> Result<(), AllocError>
    ensures model { OnOk result ((t : Traffic) → Carries calls.old t → AreOut t (seconds pairs.now) → Distinct (seconds pairs.now)
        → Carries calls.new (all_replied status (seconds pairs.now) t)) }
    ensures asks { OnOk result (AsksNone calls.old calls.new) }
{
    for pair in pairs {
        reply(alloc, calls, pair.1, status, no_items(alloc))?;
    }
    Ok(())
}

// The same, of an active part.
pub(crate) fn reply_pairs(
    alloc: Global,
    calls: &mut Calls,
    pairs: &Pairs,
    status: Status,
) -> Result<(), AllocError>
    ensures model { OnOk result ((t : Traffic) → Carries calls.old t → AreOut t (seconds pairs.now) → Distinct (seconds pairs.now)
        → Carries calls.new (all_replied status (seconds pairs.now) t)) }
    ensures asks { OnOk result (AsksNone calls.old calls.new) }
{
    reply_served(alloc, calls, pairs.pairs.as_slice(), status)
}

impl Ejects {
    // A process that waits for what is outside is told what it waited for. For any other nothing changes.
    pub(crate) fn tell_at(&mut self, uid: Uid, process: u8, answer: Answer)
        ensures { (ts : TypeList) (b : Body) → body_at (parts_of ts self.old) uid ≡ Some b → Waits b.crew.crew process outside
            → parts_of ts self.new ≡ with_body uid (told_body process answer b) (parts_of ts self.old) }
    {
        match self.table.active_mut(uid) {
            Some(part) => part.tell(process, answer),
            None => {}
        }
    }

    // The same of a process that waits for nothing. For one in a queue of a monitor or a condition nothing changes.
    pub(crate) fn tell_loose(&mut self, uid: Uid, process: u8, answer: Answer)
        ensures { (ts : TypeList) (b : Body) → body_at (parts_of ts self.old) uid ≡ Some b → IsLoose b.crew.crew process
            → parts_of ts self.new ≡ with_body uid (told_body process answer b) (parts_of ts self.old) }
    {
        if self.is_ready(uid, process) {
            self.answer_at(uid, process, answer);
        } else {
            self.tell_at(uid, process, answer);
        }
    }

    // A reply that has come from a station to a process. A call that is closed is told to none.
    pub(crate) fn hear(
        &mut self,
        alloc: Global,
        from: u8,
        call: u32,
        status: Status,
        results: Items,
        was_open: bool,
        asker: (Uid, u8),
    ) -> Result<Event, AllocError>
        ensures event { IfOk result (IsDelivery from (number_of self.old)) }
        ensures steps { IfOk result (λ e. (ts : TypeList) (reach : ℕ → Bool) (later : Mail) (s : Site) → IsSoundSite s
            → Stands (parts_of ts self.old) s
            → CarriesDelivery from (number_of self.old) (Some (Reply call status results was_open (Some asker))) later s.traffic
            → IsStep reach (parts_of ts self.new) later s e) }
    {
        let to = self.table.node();
        if !was_open {
            return Ok(Event::Reply {
                call,
                from,
                to,
                name: None,
                status,
                results,
            });
        }
        let told = copy_items(alloc, &results)?;
        let answer = Answer::Reply {
            status,
            results: told,
        };
        self.tell_at(asker.0, asker.1, answer);
        Ok(Event::Reply {
            call,
            from,
            to,
            name: None,
            status,
            results,
        })
    }

    /// A process that waits for a call elsewhere is told that the call is broken.
    pub fn broken(&mut self, alloc: Global, uid: Uid, process: u8)
        ensures { (ts : TypeList) (s : Site) → Stands (parts_of ts self.old) s → IsLooseIn (body_at (parts_of ts self.old) uid) process
            → Stands (parts_of ts self.new) (tells uid process (Told Status.Broken []) s) }
    {
        let answer = Answer::Reply {
            status: Status::Broken,
            results: no_items(alloc),
        };
        self.tell_loose(uid, process, answer);
    }
}
