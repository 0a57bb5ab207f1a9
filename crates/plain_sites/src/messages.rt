//! Messages are delivered: a request joins the queue of its Eject or is refused, and a reply closes its call.
ghost use Rattle.std.specs.Prelude.{◌≡◌, ℕ, true, None, IfSome, OnOk, option_copied};
ghost use Rattle.eden_model.specs.Traffic.{Traffic};
ghost use Rattle.epl_syntax.specs.Rules.OfTypes.{TypeList};
ghost use Rattle.active_part.specs.View.{body_of};
ghost use Rattle.journal.specs.Deliveries as deliveries;
ghost use Rattle.journal.specs.Ejects as journal_ejects;
ghost use Rattle.journal.specs.Processes.{class_of};
ghost use Rattle.journal.specs.Sites.{IsSoundSite};
ghost use Rattle.plain_calls.specs.View.{call_of};
ghost use Rattle.plain_ejects.specs.View.{eject_of};
ghost use Rattle.plain_sites.specs.View.{site_at, waiter_of};
ghost use Rattle.plain_stores.specs.View.{site_of};

use crate::ejects::join;
use active_part::Part;
use capability::Uid;
use eden_model::Asker;
use eden_value::{Items, Status};
use edentypes::{Fit, fit_call};
use epl_syntax::{Answer, Types};
use plain_calls::{Call, PlainCalls};
use plain_ejects::PlainEject;
use plain_stores::{PlainNode, find, tell};
use std::alloc::{AllocError, Global};

/// What is wrong with a call to an active part, if anything.
fn misfit_at(types: &Types, part: &Part, call: &Call) -> Option<Status>
    ensures { result ≡ deliveries.misfit (body_of types.now part.now).kind (call_of call.now) }
{
    match fit_call(types, part.kind(), call.target, &call.operation, &call.args) {
        Fit::Fits { .. } => None,
        Fit::Misfits { status } => Some(status),
    }
}

/// The status that refuses a call at an Eject that is there.
fn refusal_by(types: &Types, eject: &PlainEject, call: &Call) -> Option<Status>
    ensures { journal_ejects.is_there (eject_of types.now eject.now) ≡ true
        → result ≡ deliveries.refusal (call_of call.now) (eject_of types.now eject.now) }
{
    if eject.is_full() {
        return Some(Status::Busy);
    }
    match &eject.part {
        Some(part) => misfit_at(types, part, call),
        None => None,
    }
}

/// The status that refuses a call at the node of its target, if one does.
pub fn refusal(types: &Types, node: &PlainNode, call: &Call) -> Option<Status>
    ensures { (t : Traffic) → result ≡ deliveries.refusal_at (site_of types.now t node.now) (call_of call.now) }
{
    match find(&node.ejects, call.target.uid) {
        Some(eject) => {
            if eject.is_there() {
                refusal_by(types, eject, call)
            } else {
                Some(Status::Gone)
            }
        }
        None => Some(Status::Gone),
    }
}

/// The class of the operation of a call that fits an active part, counted from 0.
fn class_by(types: &Types, part: &Part, call: &Call) -> u8
    ensures { deliveries.misfit (body_of types.now part.now).kind (call_of call.now) ≡ None
        → result ≡ class_of (body_of types.now part.now).kind (call_of call.now) }
{
    match fit_call(types, part.kind(), call.target, &call.operation, &call.args) {
        Fit::Fits { class } => class,
        Fit::Misfits { .. } => 0,
    }
}

/// The class in which a call joins the queue of its Eject; of a passive one it does not count.
fn class_at(types: &Types, eject: Option<&PlainEject>, call: &Call) -> u8
    ensures { IfSome (option_copied eject.entry) (λ e. IfSome (eject_of types.now e).active (λ it.
        deliveries.misfit it.kind (call_of call.now) ≡ None → result ≡ class_of it.kind (call_of call.now))) }
{
    match eject {
        Some(eject) => match &eject.part {
            Some(part) => class_by(types, part, call),
            None => 0,
        },
        None => 0,
    }
}

/// The request of a call joins the queue of its Eject.
fn admit(
    types: &Types,
    node: &mut PlainNode,
    calls: &mut PlainCalls,
    number: u32,
) -> Result<(), AllocError>
    ensures { OnOk result ((a b : ℕ) → IsSoundSite (site_at types.now node.old calls.old)
        → deliveries.AllowsRequest (site_at types.now node.old calls.old) number a b None
        → site_at types.now node.new calls.new ≡ deliveries.requested number None (site_at types.now node.old calls.old)) }
{
    let Some(call) = calls.call(number) else {
        return Ok(());
    };
    let uid = call.target.uid;
    let class = class_at(types, find(&node.ejects, uid), call);
    calls.hold(number);
    join(&mut node.ejects, uid, number, class)?;
    Ok(())
}

/// The request of a call is delivered: it is refused with this status, and the refusal travels back; or it joins the queue of its Eject.
pub fn deliver(
    alloc: Global,
    types: &Types,
    node: &mut PlainNode,
    calls: &mut PlainCalls,
    number: u32,
    refused: Option<Status>,
) -> Result<(), AllocError>
    ensures { OnOk result ((a b : ℕ) → IsSoundSite (site_at types.now node.old calls.old)
        → deliveries.AllowsRequest (site_at types.now node.old calls.old) number a b refused
        → site_at types.now node.new calls.new ≡ deliveries.requested number refused (site_at types.now node.old calls.old)) }
{
    match refused {
        Some(status) => calls.refuse(alloc, number, status)?,
        None => admit(types, node, calls, number)?,
    }
    Ok(())
}

/// The process that waits for the answer of a call, if one does.
fn waiter(call: &Call) -> Option<(Uid, u8)>
    ensures { result ≡ waiter_of (call_of call.now) }
{
    if !call.open {
        return None;
    }
    match &call.asker {
        Asker::Shell { .. } => None,
        Asker::Eject { uid, process } => Some((*uid, *process)),
    }
}

/// The reply of a call is delivered: its call is closed, and where it was open until then, the process that asked is told.
pub fn hear(
    node: &mut PlainNode,
    calls: &mut PlainCalls,
    number: u32,
    status: Status,
    values: Items,
)
    ensures { (ts : TypeList) → IsSoundSite (site_at ts node.old calls.old)
        → site_at ts node.new calls.new ≡ deliveries.heard number status values (site_at ts node.old calls.old) }
{
    let Some(call) = calls.call(number) else {
        return;
    };
    let asker = waiter(call);
    calls.receive(number);
    let answer = Answer::Reply {
        status,
        results: values,
    };
    match asker {
        Some((uid, process)) => tell(&mut node.ejects, uid, process, answer),
        None => {}
    }
}
