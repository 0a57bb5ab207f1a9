//! Requests that are delivered join the queue of their Eject, or are refused.
ghost use Rattle.std.specs.Prelude.{◌≡◌, ◌<◌, ℕ, Bool, IsSomeAnd};
ghost use Rattle.std.specs.Prelude.{IfOk, OnOk, Some, None, length};
ghost use Rattle.invocation.specs.Carries.{CarriesDelivery};
ghost use Rattle.invocation.specs.Mail.{IsGiven};
ghost use Rattle.eden_model.specs.Map.{value_at, uid_cmp};
ghost use Rattle.eden_model.specs.Lines.{has};
ghost use Rattle.invocation.specs.declared.call.Delivery.TheVariants.{Request};
ghost use Rattle.journal.specs.World.{Site};
ghost use Rattle.epl_syntax.specs.Rules.OfTypes.{TypeList};
ghost use Rattle.active_part.specs.Body.{Body};
ghost use Rattle.ejects.specs.Counts.{AsksNone};
ghost use Rattle.ejects.specs.Events.{IsDelivery};
ghost use Rattle.ejects.specs.Parts.{body_at, queue_in, Stands, IsStep};
ghost use Rattle.active_part.specs.View.{body_of, coordination_of};
ghost use Rattle.active_part.specs.Bodies.{joined_body};
ghost use Rattle.ejects.specs.View.{part_at, parts_of, number_of, IsAdmission, IsAdmissionAt, with_body, JoinsPassive};

use crate::replies::reply;
use crate::{Ejects, put_waiting, take_waiting};
use active_part::{Part, no_items};
use capability::Uid;
use eden_value::Status;
use edentypes::{Fit, fit_call};
use eject_table::EjectStanding;
use epl_syntax::Types;
use invocation::{Call, Calls};
use journal::Event;
use std::alloc::{AllocError, Global};

/// What comes of a request at its target.
#[derive(Clone, Copy, Debug)]
pub enum Admission {
    /// It joins the queue of an active Eject, in this class.
    Active { class: u8 },
    /// It joins the queue of a passive one.
    Passive,
    Refused { status: Status },
}

// What comes of a request at an active part.
fn admission_at(types: &Types, part: &Part, asked: &Call) -> Admission
    ensures { IsAdmissionAt (body_of types.now part.now) asked.now result }
{
    if part.is_full() {
        return Admission::Refused {
            status: Status::Busy,
        };
    }
    let fit = fit_call(
        types,
        part.kind(),
        asked.target,
        &asked.operation,
        &asked.args,
    );
    match fit {
        Fit::Fits { class } => Admission::Active { class },
        Fit::Misfits { status } => Admission::Refused { status },
    }
}

impl Ejects {
    // How many calls are queued for a passive Eject.
    pub(crate) fn count_waiting(&self, uid: Uid) -> usize
        ensures { result ≡ length (queue_in (value_at uid_cmp uid self.now.waiting.entries)) }
    {
        match self.waiting.get(&uid) {
            Some(calls) => calls.len(),
            None => 0,
        }
    }

    // What comes of a request for an Eject of the node.
    fn admission(&self, types: &Types, asked: &Call) -> Admission
        ensures { IsAdmission (parts_of types.now self.now) asked.now result }
    {
        let uid = asked.target.uid;
        match self.table.find(uid) {
            EjectStanding::Absent => Admission::Refused {
                status: Status::Gone,
            },
            EjectStanding::Passive => {
                if self.count_waiting(uid) >= 64 {
                    Admission::Refused {
                        status: Status::Busy,
                    }
                } else {
                    Admission::Passive
                }
            }
            EjectStanding::Active => match self.table.active(uid) {
                Some(part) => admission_at(types, part, asked),
                None => unreachable!(),
            },
        }
    }

    // The invocation joins the queue of an active part that has a place for it.
    fn join_active(&mut self, uid: Uid, call: u32, class: u8) -> Result<(), AllocError>
        requires { IsSomeAnd (part_at self.old uid) (λ a. length (coordination_of a).queued < 64) }
        ensures { OnOk result ((ts : TypeList) (b : Body) → body_at (parts_of ts self.old) uid ≡ Some b
            → parts_of ts self.new ≡ with_body uid (joined_body (record { call = call; class = class }) b) (parts_of ts self.old)) }
    {
        match self.table.active_mut(uid) {
            Some(part) => {
                part.offer(call, class)?;
                Ok(())
            }
            None => unreachable!(),
        }
    }

    // The call joins the queue of a passive Eject.
    fn join_passive(&mut self, alloc: Global, uid: Uid, call: u32) -> Result<(), AllocError>
        requires { length (queue_in (value_at uid_cmp uid self.old.waiting.entries)) < 64 }
        ensures { OnOk result ((ts : TypeList) → JoinsPassive uid call (parts_of ts self.old) (parts_of ts self.new)) }
    {
        let mut calls = take_waiting(alloc, &mut self.waiting, uid);
        calls.items.push(call)?;
        put_waiting(&mut self.waiting, uid, calls)
    }

    // A request that has come from a station, of a call that was asked.
    pub(crate) fn request(
        &mut self,
        alloc: Global,
        types: &Types,
        calls: &mut Calls,
        from: u8,
        call: u32,
    ) -> Result<Event, AllocError>
        requires { IsGiven calls.old.calls call }
        ensures event { IfOk result (IsDelivery from (number_of self.old)) }
        ensures steps { IfOk result (λ e. (reach : ℕ → Bool) (s : Site) → Stands (parts_of types.now self.old) s
            → CarriesDelivery from (number_of self.old) (Some (Request call)) calls.old s.traffic
            → IsStep reach (parts_of types.now self.new) calls.new s e) }
        ensures asks { OnOk result (AsksNone calls.old calls.new) }
    {
        let to = self.table.node();
        let Some(asked) = calls.call(call) else {
            unreachable!()
        };
        let uid = asked.target.uid;
        match self.admission(types, asked) {
            Admission::Active { class } => {
                self.join_active(uid, call, class)?;
                Ok(Event::Request {
                    call,
                    from,
                    to,
                    refused: None,
                })
            }
            Admission::Passive => {
                self.join_passive(alloc, uid, call)?;
                Ok(Event::Request {
                    call,
                    from,
                    to,
                    refused: None,
                })
            }
            Admission::Refused { status } => {
                reply(alloc, calls, call, status, no_items(alloc))?;
                Ok(Event::Request {
                    call,
                    from,
                    to,
                    refused: Some(status),
                })
            }
        }
    }
}
