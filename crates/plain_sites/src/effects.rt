//! What the turns of processes end in.
ghost use Rattle.std.specs.Prelude.{◌≡◌, ◌<◌, ◌≤◌, ℕ, Bool, false, [], IfOk, IsTrue, OnOk, Option, Some, is_some, length, slice_get};
ghost use Rattle.capability.specs.declared.TheConstants.{BODY_LIMIT};
ghost use Rattle.eden_codec.specs.Spelling.{spelling};
ghost use Rattle.eden_model.specs.Map.{with_item};
ghost use Rattle.eden_model.specs.Traffic as traffic;
ghost use Rattle.eden_model.specs.Traffic.{Traffic};
ghost use Rattle.eden_value.specs.declared.status.Status.TheVariants as statuses;
ghost use Rattle.epl_syntax.specs.declared.effect.Answer.TheVariants as answers;
ghost use Rattle.epl_syntax.specs.Meaning as meaning;
ghost use Rattle.epl_syntax.specs.Meaning.{rep_of, type_of, types_in};
ghost use Rattle.epl_syntax.specs.Rules.OfTypes.{TypeList};
ghost use Rattle.edentypes.specs.View.{kind_in};
ghost use Rattle.active_part.specs.Body.{active_of};
ghost use Rattle.active_part.specs.View.{MayTake, body_of, stepped};
ghost use Rattle.journal.specs.declared.event.Shown.TheVariants as shown;
ghost use Rattle.journal.specs.Ejects as journal_ejects;
ghost use Rattle.journal.specs.Processes as processes;
ghost use Rattle.journal.specs.Sites.{InOrder};
ghost use Rattle.journal.specs.World.{Active, Eject, on_eject, on_traffic};
ghost use Rattle.plain_calls.specs.View.{traffic_of};
ghost use Rattle.plain_ejects.specs.Limits.{length_put};
ghost use Rattle.plain_ejects.specs.View.{change_of};
ghost use Rattle.plain_sites.specs.Turns.{HasNewUid, MayCome, MayDo, Reaches, RunsAt, answered, come, done_by, shown_step};
ghost use Rattle.plain_sites.specs.View.{site_at};
ghost use Rattle.plain_stores.specs.View.{node_of, site_of};

use crate::births::{bear, next_uid};
use crate::endings::{end_active, turn_away, turn_away_unkept};
use crate::processes::{Deed, act_at, encoded_at, end_at};
use active_part::{Part, Step, no_items};
use capability::{Cap, MESSAGE_LIMIT, Uid, mint};
use checkpoint::Wish;
use eden_codec::values_size;
use eden_model::Asker;
use eden_value::{Items, Status, Txt};
use edentypes::{Kind, find, first_values};
use epl_syntax::{Answer, Effect, Types};
use journal::Shown;
use plain_calls::PlainCalls;
use plain_stores::PlainNode;
use std::alloc::{AllocError, Global};

/// What comes of a turn to its process, at the node.
fn act_on(alloc: Global, node: &mut PlainNode, uid: Uid, process: u8, deed: Deed)
    ensures { (ts : TypeList) (t : Traffic) (e : Eject) (it : Active) → RunsAt (node_of ts node.old).ejects uid process e it
        → MayDo deed process it.crew
        → site_of ts t node.new ≡ on_eject uid (journal_ejects.on_active (done_by deed process)) (site_of ts t node.old) }
{
    act_at(alloc, &mut node.ejects, uid, process, deed);
}

/// The results of a call are sent, or its refusal where they are too large.
fn send_results(
    alloc: Global,
    calls: &mut PlainCalls,
    number: u32,
    results: Items,
) -> Result<(), AllocError>
    ensures { OnOk result (traffic_of calls.new ≡ answered results number (traffic_of calls.old)) }
{
    if values_size(&results) <= u64::from(MESSAGE_LIMIT) {
        calls.reply(Status::Ok, results, number)?;
    } else {
        calls.reply(Status::TooLarge, no_items(alloc), number)?;
    }
    Ok(())
}

/// A process returns: it ends, and the call that it served is answered.
fn returns(
    alloc: Global,
    node: &mut PlainNode,
    calls: &mut PlainCalls,
    uid: Uid,
    process: u8,
    results: Items,
) -> Result<Shown, AllocError>
    ensures shows { IfOk result (λ said. (ts : TypeList) (e : Eject) (it : Active) → RunsAt (node_of ts node.old).ejects uid process e it
        → said ≡ processes.shown_return (processes.serving it process)) }
    ensures changes { OnOk result ((ts : TypeList) (e : Eject) (it : Active) → RunsAt (node_of ts node.old).ejects uid process e it
        → site_at ts node.new calls.new ≡ on_traffic (processes.answers (processes.serving it process) results)
        (on_eject uid (journal_ejects.on_active (processes.without_process process)) (site_at ts node.old calls.old))) }
{
    match end_at(&mut node.ejects, uid, process) {
        Some(call) => {
            send_results(alloc, calls, call, results)?;
            Ok(Shown::Return { call })
        }
        None => Ok(Shown::End),
    }
}

/// A process ends, and answers no call.
fn ends(node: &mut PlainNode, uid: Uid, process: u8)
    ensures { (ts : TypeList) (t : Traffic) (e : Eject) (it : Active) → RunsAt (node_of ts node.old).ejects uid process e it
        → site_of ts t node.new
        ≡ on_eject uid (journal_ejects.on_active (processes.without_process process)) (site_of ts t node.old) }
{
    let _served = end_at(&mut node.ejects, uid, process);
}

/// A process asks its store for a change, and waits for that.
fn ask_store(
    alloc: Global,
    node: &mut PlainNode,
    uid: Uid,
    process: u8,
    wish: Wish,
) -> Result<(), AllocError>
    requires within { length_put wish ≤ BODY_LIMIT }
    ensures { OnOk result ((ts : TypeList) (t : Traffic) (e : Eject) (it : Active)
        → RunsAt (node_of ts node.old).ejects uid process e it
        → site_of ts t node.new ≡ processes.asks_store uid process (change_of wish) (site_of ts t node.old)) }
{
    act_on(alloc, node, uid, process, Deed::Wait);
    node.ask(uid, process, wish)?;
    Ok(())
}

/// A process asks that its Eject is kept as it is now, and waits for that. What is too long is refused at once.
fn checkpoints(
    alloc: Global,
    types: &Types,
    node: &mut PlainNode,
    uid: Uid,
    process: u8,
) -> Result<(), AllocError>
    ensures { OnOk result ((t : Traffic) (e : Eject) (it : Active) → RunsAt (node_of types.now node.old).ejects uid process e it
        → site_of types.now t node.new
        ≡ processes.checkpoints uid process (spelling (rep_of it.kind it.vars)) (site_of types.now t node.old)) }
{
    let encoded = encoded_at(alloc, types, &node.ejects, uid)?;
    match encoded {
        Some(body) => ask_store(alloc, node, uid, process, Wish::Put { body })?,
        None => {
            let status = Status::TooLarge;
            let answer = Answer::Code { status };
            act_on(alloc, node, uid, process, Deed::Hear { answer });
        }
    }
    Ok(())
}

/// The status that refuses a call as it is made, if one does.
fn refusal_at_once(args: &Items, reached: bool) -> Option<Status>
    ensures { result ≡ processes.refused_at_once reached args.now }
{
    if values_size(args) > u64::from(MESSAGE_LIMIT) {
        Some(Status::TooLarge)
    } else if reached {
        None
    } else {
        Some(Status::Unreachable)
    }
}

/// A process makes a call, and waits for the reply unless the call is refused at once.
fn invokes(
    alloc: Global,
    node: &mut PlainNode,
    calls: &mut PlainCalls,
    uid: Uid,
    process: u8,
    target: Cap,
    operation: Txt,
    args: Items,
    reached: bool,
) -> Result<Shown, AllocError>
    requires few { length calls.old.calls.items < 4294967295 }
    ensures shows { IfOk result (λ said. said ≡ shown.Invoke (traffic.next_call (traffic_of calls.old))) }
    ensures changes { OnOk result ((ts : TypeList) (e : Eject) (it : Active) → RunsAt (node_of ts node.old).ejects uid process e it
        → site_at ts node.new calls.new ≡ processes.invokes uid process target operation args (processes.refused_at_once reached args)
        (site_at ts node.old calls.old)) }
{
    let at_once = refusal_at_once(&args, reached);
    act_on(alloc, node, uid, process, Deed::Ask { at_once });
    let asker = Asker::Eject { uid, process };
    let call = calls.ask(asker, target, operation, args, at_once)?;
    Ok(Shown::Invoke { call })
}

/// The active part of a new Eject of this type.
fn new_part(alloc: Global, types: &Types, kind: Kind) -> Result<Part, AllocError>
    ensures active { IfOk result (λ part. active_of (body_of types.now part)
        ≡ journal_ejects.fresh (kind_in types.now kind) (meaning.first_values (kind_in types.now kind))) }
    ensures queued { IfOk result (λ part. (body_of types.now part).crew.queued ≡ []) }
{
    let vars = first_values(alloc, types, kind)?;
    let part = Part::fresh(alloc, types, kind, vars)?;
    Ok(part)
}

/// A process is told of its creation of an Eject.
fn tell_created(
    alloc: Global,
    node: &mut PlainNode,
    uid: Uid,
    process: u8,
    status: Status,
    cap: Option<Cap>,
)
    ensures { (ts : TypeList) (t : Traffic) (e : Eject) (it : Active) → RunsAt (node_of ts node.old).ejects uid process e it
        → site_of ts t node.new ≡ journal_ejects.tells uid process (answers.Created status cap) (site_of ts t node.old) }
{
    let answer = Answer::Created { status, cap };
    act_on(alloc, node, uid, process, Deed::Hear { answer });
}

/// A process creates an Eject of this type, and is told its capability, or why there is none.
fn create(
    alloc: Global,
    types: &Types,
    node: &mut PlainNode,
    uid: Uid,
    process: u8,
    kind: Kind,
) -> Result<Shown, AllocError>
    ensures shows { IfOk result (λ said. (t : Traffic)
        → said ≡ processes.shown_creation (journal_ejects.next_uid (site_of types.now t node.old))) }
    ensures changes { OnOk result ((t : Traffic) (e : Eject) (it : Active) → RunsAt (node_of types.now node.old).ejects uid process e it
        → HasNewUid (site_of types.now t node.old)
        → site_of types.now t node.new ≡ processes.creates uid process (Some (kind_in types.now kind))
        (journal_ejects.next_uid (site_of types.now t node.old)) (site_of types.now t node.old)) }
{
    match next_uid(node) {
        Ok(created) => {
            let part = new_part(alloc, types, kind)?;
            bear(alloc, node, created, part)?;
            tell_created(alloc, node, uid, process, Status::Ok, Some(mint(created)));
            Ok(Shown::Created { uid: created })
        }
        Err(status) => {
            tell_created(alloc, node, uid, process, status, None);
            Ok(Shown::Refused { status })
        }
    }
}

/// The same of the type of this name, where there is one.
fn creates(
    alloc: Global,
    types: &Types,
    node: &mut PlainNode,
    uid: Uid,
    process: u8,
    type_name: &Txt,
) -> Result<Shown, AllocError>
    ensures shows { IfOk result (λ said. (t : Traffic) → IsTrue (is_some (type_of (types_in types.now) type_name.now))
        → said ≡ processes.shown_creation (journal_ejects.next_uid (site_of types.now t node.old))) }
    ensures changes { OnOk result ((t : Traffic) (e : Eject) (it : Active) → RunsAt (node_of types.now node.old).ejects uid process e it
        → HasNewUid (site_of types.now t node.old) → IsTrue (is_some (type_of (types_in types.now) type_name.now))
        → site_of types.now t node.new ≡ processes.creates uid process (type_of (types_in types.now) type_name.now)
        (journal_ejects.next_uid (site_of types.now t node.old)) (site_of types.now t node.old)) }
{
    match find(types, type_name) {
        Some(kind) => create(alloc, types, node, uid, process, kind),
        None => Ok(Shown::Yield),
    }
}

/// The active part of an Eject ends. Where nothing is kept of it, or may be, its queued calls are answered `gone`.
fn deactivates(
    alloc: Global,
    node: &mut PlainNode,
    calls: &mut PlainCalls,
    uid: Uid,
) -> Result<(), AllocError>
    ensures { OnOk result ((ts : TypeList) → InOrder (node_of ts node.old).ejects
        → site_at ts node.new calls.new ≡ journal_ejects.gone_if_unkept uid (journal_ejects.deactivated uid
        (site_at ts node.old calls.old))) }
{
    end_active(alloc, node, calls, uid)?;
    turn_away_unkept(alloc, node, calls, uid)?;
    Ok(())
}

/// The active part of an Eject ends, and its queued calls are answered `dropped`.
fn faults(
    alloc: Global,
    node: &mut PlainNode,
    calls: &mut PlainCalls,
    uid: Uid,
) -> Result<(), AllocError>
    ensures { OnOk result ((ts : TypeList) → InOrder (node_of ts node.old).ejects
        → site_at ts node.new calls.new ≡ journal_ejects.turned_away uid statuses.Dropped (journal_ejects.deactivated uid
        (site_at ts node.old calls.old))) }
{
    end_active(alloc, node, calls, uid)?;
    turn_away(alloc, node, calls, uid, Status::Dropped)?;
    Ok(())
}

/// Whether a node is among those that are reached.
fn is_reached(reached: &[bool], node: u8) -> bool
    ensures { result ≡ with_item (slice_get reached.now node) (λ it. it) false }
{
    match reached.get(node as usize) {
        Some(it) => *it,
        None => false,
    }
}

/// What is shown of a step at the monitors.
fn shown_by(step: Step) -> Shown
    ensures { result ≡ shown_step step }
{
    match step {
        Step::Lock { .. } => Shown::Lock,
        Step::Leave { .. } => Shown::Leave,
        Step::Wait { .. } => Shown::Wait,
        Step::Signal { .. } => Shown::Signal,
    }
}

/// A process does something at its monitors, and what is shown of it.
fn coordinates(alloc: Global, node: &mut PlainNode, uid: Uid, process: u8, step: Step) -> Shown
    ensures shows { result ≡ shown_step step }
    ensures changes { (ts : TypeList) (t : Traffic) (e : Eject) (it : Active) → RunsAt (node_of ts node.old).ejects uid process e it
        → MayTake it.crew process step → site_of ts t node.new
        ≡ on_eject uid (journal_ejects.on_active (journal_ejects.on_crew (stepped step process))) (site_of ts t node.old) }
{
    act_on(alloc, node, uid, process, Deed::Coordinate { step });
    shown_by(step)
}

/// What a process asks for in its turn is carried out, and shown.
pub fn carry_out(
    alloc: Global,
    types: &Types,
    node: &mut PlainNode,
    calls: &mut PlainCalls,
    reached: &[bool],
    uid: Uid,
    process: u8,
    effect: Effect,
) -> Result<Shown, AllocError>
    requires few { length calls.old.calls.items < 4294967295 }
    ensures shows { IfOk result (λ said. (e : Eject) (it : Active)
        → MayCome (site_at types.now node.old calls.old) uid process e it effect
        → said ≡ processes.shown_of (site_at types.now node.old calls.old) (processes.serving it process) effect) }
    ensures changes { OnOk result ((reach : ℕ → Bool) (e : Eject) (it : Active) → Reaches reach reached.now
        → MayCome (site_at types.now node.old calls.old) uid process e it effect
        → site_at types.now node.new calls.new ≡ come reach uid process it effect (site_at types.now node.old calls.old)) }
{
    match effect {
        Effect::Return { results } => returns(alloc, node, calls, uid, process, results),
        Effect::End => {
            ends(node, uid, process);
            Ok(Shown::End)
        }
        Effect::Checkpoint => {
            checkpoints(alloc, types, node, uid, process)?;
            Ok(Shown::Checkpoint)
        }
        Effect::Destroy => {
            ask_store(alloc, node, uid, process, Wish::Delete)?;
            Ok(Shown::Destroy)
        }
        Effect::Deactivate => {
            deactivates(alloc, node, calls, uid)?;
            Ok(Shown::Deactivate)
        }
        Effect::Fault { cause } => {
            faults(alloc, node, calls, uid)?;
            Ok(Shown::Fault { cause })
        }
        Effect::Create { type_name } => creates(alloc, types, node, uid, process, &type_name),
        Effect::Invoke {
            target,
            operation,
            args,
        } => {
            let reached = is_reached(reached, target.uid.node);
            invokes(
                alloc, node, calls, uid, process, target, operation, args, reached,
            )
        }
        Effect::Lock { monitor } => Ok(coordinates(
            alloc,
            node,
            uid,
            process,
            Step::Lock { monitor },
        )),
        Effect::Leave { monitor } => Ok(coordinates(
            alloc,
            node,
            uid,
            process,
            Step::Leave { monitor },
        )),
        Effect::Wait { condition } => Ok(coordinates(
            alloc,
            node,
            uid,
            process,
            Step::Wait { condition },
        )),
        Effect::Signal { condition } => Ok(coordinates(
            alloc,
            node,
            uid,
            process,
            Step::Signal { condition },
        )),
        Effect::Yield => Ok(Shown::Yield),
    }
}
