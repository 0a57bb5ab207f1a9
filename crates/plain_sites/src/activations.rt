//! Passive Ejects are activated.
ghost use Rattle.std.specs.Prelude.{◌≡◌, ◌↔◌, ◌≤◌, Some, IfOk, IfSome, IsSomeAnd, IsTrue, OnOk, is_some, length};
ghost use Rattle.capability.specs.declared.TheConstants.{BODY_LIMIT};
ghost use Rattle.eden_model.specs.Traffic.{Traffic};
ghost use Rattle.epl_syntax.specs.Meaning.{types_in};
ghost use Rattle.epl_syntax.specs.Rules.OfTypes.{TypeList};
ghost use Rattle.passive_store.specs.declared.store.Pick.TheVariants as picked;
ghost use Rattle.journal.specs.Settling.{settled_eject};
ghost use Rattle.journal.specs.Sites.{InOrder, IsSoundSite};
ghost use Rattle.journal.specs.Starts as starts;
ghost use Rattle.journal.specs.World.{eject_in};
ghost use Rattle.plain_choices.specs.View.{IsStartOf, found_in};
ghost use Rattle.plain_ejects.specs.View.{eject_of};
ghost use Rattle.plain_sites.specs.Activations.{IsAsked, MayWake};
ghost use Rattle.plain_sites.specs.View.{IsPassive, site_at};
ghost use Rattle.plain_stores.specs.View.{site_of};

use crate::wakings::{begun_by, begun_from, enter, started};
use crate::{crash, turn_away};
use capability::{Body, Uid};
use checkpoint::Wish;
use eden_value::Status;
use epl_syntax::Types;
use journal::StartEnd;
use passive_store::Pick;
use plain_calls::PlainCalls;
use plain_choices::{Found, StartFacts, may_start};
use plain_ejects::PlainEject;
use plain_stores::{PlainNode, find};
use std::alloc::{AllocError, Global};

/// What is found where these bytes are kept, which are no more than a body may have.
fn found_in_bytes(alloc: Global, types: &Types, bytes: &Body, me: Uid) -> Result<Found, AllocError>
    requires { length bytes.now ≤ BODY_LIMIT }
    ensures { IfOk result (λ it. it ≡ found_in (types_in types.now) me (Some bytes.now)) }
{
    match begun_from(alloc, types, bytes, me)? {
        Some(_) => Ok(Found::Starts),
        None => Ok(Found::Unreadable),
    }
}

/// What is found of an Eject as it is.
fn found_old(alloc: Global, types: &Types, eject: &PlainEject, me: Uid) -> Result<Found, AllocError>
    ensures { IfOk result (λ it. it ≡ found_in (types_in types.now) me (eject_of types.now eject.now).kept) }
{
    match &eject.kept {
        Some(bytes) => found_in_bytes(alloc, types, bytes, me),
        None => Ok(Found::Nothing),
    }
}

/// What is found of an Eject once the change in doubt is made, where there is one.
fn found_new(alloc: Global, types: &Types, eject: &PlainEject, me: Uid) -> Result<Found, AllocError>
    ensures { IfOk result (λ it.
        it ≡ found_in (types_in types.now) me (settled_eject picked.New (eject_of types.now eject.now)).kept) }
{
    match &eject.doubt {
        Some(Wish::Put { body }) => found_in_bytes(alloc, types, body, me),
        Some(Wish::Delete) => Ok(Found::Nothing),
        None => found_old(alloc, types, eject, me),
    }
}

/// What decides how an activation of an Eject may end: what its bytes start, with each pick where there is a doubt. None where the node
/// does not have it.
fn start_facts(
    alloc: Global,
    types: &Types,
    node: &PlainNode,
    uid: Uid,
) -> Result<Option<StartFacts>, AllocError>
    ensures facts { IfOk result (λ it. (t : Traffic) → IfSome it (λ facts. IsStartOf facts (site_of types.now t node.now) uid)) }
    ensures there { IfOk result (λ it. (t : Traffic) → is_some it ≡ is_some (eject_in (site_of types.now t node.now) uid)) }
{
    let Some(eject) = find(&node.ejects, uid) else {
        return Ok(None);
    };
    let old = found_old(alloc, types, eject, uid)?;
    let new = found_new(alloc, types, eject, uid)?;
    Ok(Some(StartFacts {
        doubted: node.is_to_settle(),
        old,
        new,
    }))
}

/// Whether an Eject has no active part, and a call is queued at it.
fn is_asked(eject: &PlainEject) -> bool
    ensures { (ts : TypeList) → IsTrue result ↔ IsAsked (eject_of ts eject.now) }
{
    match &eject.part {
        Some(_) => false,
        None => !eject.waiting.items.is_empty(),
    }
}

/// Whether the store works on this Eject.
fn is_worked_on(node: &PlainNode, uid: Uid) -> bool
    ensures { (ts : TypeList) (t : Traffic) → result ≡ starts.is_worked_on (site_of ts t node.now) uid }
{
    match node.requests.front() {
        Some(request) => request.made > 0 && request.uid == uid,
        None => false,
    }
}

/// Whether an Eject is passive, a call is queued at it, and the store does not work on it.
fn may_wake(node: &PlainNode, uid: Uid) -> bool
    ensures { (ts : TypeList) (t : Traffic) → IsTrue result
        ↔ IsSomeAnd (eject_in (site_of ts t node.now) uid) (MayWake (site_of ts t node.now) uid) }
{
    match find(&node.ejects, uid) {
        Some(eject) => is_asked(eject) && !is_worked_on(node, uid),
        None => false,
    }
}

/// Whether an Eject may be activated with this end and this pick.
pub fn may_activate(
    alloc: Global,
    types: &Types,
    node: &PlainNode,
    uid: Uid,
    end: StartEnd,
    pick: Option<Pick>,
) -> Result<bool, AllocError>
    ensures { IfOk result (λ it. (t : Traffic) → IsTrue it ↔ IsSomeAnd (eject_in (site_of types.now t node.now) uid)
        (starts.AllowsActivate (site_of types.now t node.now) uid end pick)) }
{
    if may_wake(node, uid) {
        match start_facts(alloc, types, node, uid)? {
            Some(facts) => Ok(may_start(&facts, end, pick)),
            None => Ok(false),
        }
    } else {
        Ok(false)
    }
}

/// Where there is a doubt to settle, the settling begins anew, and what was picked settles it.
fn settle_first(node: &mut PlainNode, pick: Option<Pick>)
    ensures { (ts : TypeList) (t : Traffic) → site_of ts t node.new ≡ starts.start_settled pick (site_of ts t node.old) }
{
    if node.is_to_settle() {
        node.unsync();
        node.settle(pick);
    }
}

/// A passive Eject starts from what is kept of it, where it does.
fn wake(
    alloc: Global,
    types: &Types,
    node: &mut PlainNode,
    calls: &mut PlainCalls,
    uid: Uid,
) -> Result<(), AllocError>
    ensures { OnOk result (InOrder (site_at types.now node.old calls.old).node.ejects
        → IsPassive (eject_in (site_at types.now node.old calls.old) uid)
        → site_at types.now node.new calls.new ≡ starts.awake uid (site_at types.now node.old calls.old)) }
{
    let Some(eject) = find(&node.ejects, uid) else {
        return Ok(());
    };
    let Some(begun) = begun_by(alloc, types, eject, uid)? else {
        return Ok(());
    };
    let part = started(alloc, types, calls, &begun, eject.waiting.as_slice())?;
    enter(&mut node.ejects, uid, part);
    Ok(())
}

/// What an activation comes to by its end.
fn come_to(
    alloc: Global,
    types: &Types,
    node: &mut PlainNode,
    calls: &mut PlainCalls,
    uid: Uid,
    end: StartEnd,
) -> Result<(), AllocError>
    ensures { OnOk result (InOrder (site_at types.now node.old calls.old).node.ejects
        → IsPassive (eject_in (site_at types.now node.old calls.old) uid)
        → site_at types.now node.new calls.new ≡ starts.activated uid end (site_at types.now node.old calls.old)) }
{
    match end {
        StartEnd::Ok => wake(alloc, types, node, calls, uid)?,
        StartEnd::Gone => turn_away(alloc, node, calls, uid, Status::Gone)?,
        StartEnd::Fault => turn_away(alloc, node, calls, uid, Status::StoreFault)?,
        StartEnd::Damaged => turn_away(alloc, node, calls, uid, Status::Damaged)?,
        StartEnd::Stop => crash(alloc, node, calls),
    }
    Ok(())
}

/// An Eject was activated, with this end and this pick: it is awake, its queued calls are turned away, or the node crashes; the settling
/// comes first, where there is a doubt to settle.
pub fn activate(
    alloc: Global,
    types: &Types,
    node: &mut PlainNode,
    calls: &mut PlainCalls,
    uid: Uid,
    end: StartEnd,
    pick: Option<Pick>,
) -> Result<(), AllocError>
    ensures { OnOk result (IsSoundSite (site_at types.now node.old calls.old)
        → IsSomeAnd (eject_in (site_at types.now node.old calls.old) uid)
        (starts.AllowsActivate (site_at types.now node.old calls.old) uid end pick)
        → site_at types.now node.new calls.new ≡ starts.activation_turn uid end pick (site_at types.now node.old calls.old)) }
{
    settle_first(node, pick);
    come_to(alloc, types, node, calls, uid, end)?;
    Ok(())
}
