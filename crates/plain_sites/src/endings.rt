//! Ends of active parts, of queues, and of a node.
ghost use Rattle.std.specs.Prelude.{◌≡◌, OnOk, map};
ghost use Rattle.eden_model.specs.Traffic.{all_replied};
ghost use Rattle.eden_value.specs.declared.status.Status.TheVariants as status;
ghost use Rattle.epl_syntax.specs.Rules.OfTypes.{TypeList};
ghost use Rattle.journal.specs.Crashes.{crashed};
ghost use Rattle.journal.specs.Ejects.{deactivated, gone_if_unkept, turned_away};
ghost use Rattle.journal.specs.Sites.{InOrder};
ghost use Rattle.journal.specs.World.{eject_in};
ghost use Rattle.plain_calls.specs.View.{traffic_of};
ghost use Rattle.plain_sites.specs.View.{IsPassive, site_at};
ghost use Rattle.plain_stores.specs.View.{node_of};

use crate::ejects::{end_part, is_gone, take_queue};
use active_part::no_items;
use capability::Uid;
use coordinator::Pairs;
use eden_value::Status;
use plain_calls::PlainCalls;
use plain_stores::PlainNode;
use std::alloc::{AllocError, Global};

/// The node has crashed: it is down, its Ejects have fallen, and the calls to it and from it are closed.
pub fn crash(alloc: Global, node: &mut PlainNode, calls: &mut PlainCalls)
    ensures { (ts : TypeList) → site_at ts node.new calls.new ≡ crashed (site_at ts node.old calls.old) }
{
    let number = node.number;
    node.fall(alloc);
    calls.break_node(number);
}

/// These calls are answered `dropped`, in the order of the processes that served them.
fn drop_served(
    alloc: Global,
    calls: &mut PlainCalls,
    served: &[(u8, u32)],
) -> Result<(), AllocError>
    ensures { OnOk result (traffic_of calls.new ≡ all_replied status.Dropped (map (λ p. p.1) served.now) (traffic_of calls.old)) }
{
    for pair in served {
        calls.reply(Status::Dropped, no_items(alloc), pair.1)?;
    }
    Ok(())
}

/// The same of an active part that is given up.
fn drop_pairs(alloc: Global, calls: &mut PlainCalls, served: &Pairs) -> Result<(), AllocError>
    ensures { OnOk result (traffic_of calls.new ≡ all_replied status.Dropped (map (λ p. p.1) served.now) (traffic_of calls.old)) }
{
    drop_served(alloc, calls, served.pairs.as_slice())
}

/// The active part of an Eject goes, where it has one: its requests go with it, nobody waits for the calls that it made, and those that it
/// ran are answered `dropped`.
pub fn end_active(
    alloc: Global,
    node: &mut PlainNode,
    calls: &mut PlainCalls,
    uid: Uid,
) -> Result<(), AllocError>
    ensures { OnOk result ((ts : TypeList) → InOrder (node_of ts node.old).ejects
        → site_at ts node.new calls.new ≡ deactivated uid (site_at ts node.old calls.old)) }
{
    match end_part(&mut node.ejects, uid) {
        Some(served) => {
            node.drop_requests(uid);
            calls.orphan(uid);
            drop_pairs(alloc, calls, &served)?;
        }
        None => {}
    }
    Ok(())
}

/// The queued calls of a passive Eject are answered with this status, in order, and none is queued any more.
pub fn turn_away(
    alloc: Global,
    node: &mut PlainNode,
    calls: &mut PlainCalls,
    uid: Uid,
    status: Status,
) -> Result<(), AllocError>
    ensures { OnOk result ((ts : TypeList) → InOrder (node_of ts node.old).ejects
        → IsPassive (eject_in (site_at ts node.old calls.old) uid)
        → site_at ts node.new calls.new ≡ turned_away uid status (site_at ts node.old calls.old)) }
{
    let queued = take_queue(alloc, &mut node.ejects, uid);
    calls.reply_all(alloc, status, queued.as_slice())?;
    Ok(())
}

/// Where an Eject is not active, and nothing is kept of it or may be kept, its queued calls are answered `gone`.
pub fn turn_away_unkept(
    alloc: Global,
    node: &mut PlainNode,
    calls: &mut PlainCalls,
    uid: Uid,
) -> Result<(), AllocError>
    ensures { OnOk result ((ts : TypeList) → InOrder (node_of ts node.old).ejects
        → site_at ts node.new calls.new ≡ gone_if_unkept uid (site_at ts node.old calls.old)) }
{
    if is_gone(&node.ejects, uid) {
        turn_away(alloc, node, calls, uid, Status::Gone)?;
    }
    Ok(())
}
