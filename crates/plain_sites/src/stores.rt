//! Turns of the store of a node.
ghost use Rattle.std.specs.Prelude.{◌≡◌, ◌<◌, IfOk, IsSomeAnd, OnOk, Option, is_some, not};
ghost use Rattle.std.specs.Option.{option_map};
ghost use Rattle.capability.specs.declared.Uid.{Uid as UidOf};
ghost use Rattle.eden_model.specs.Traffic.{Traffic};
ghost use Rattle.epl_syntax.specs.Rules.OfTypes.{TypeList};
ghost use Rattle.passive_store.specs.declared.store.Pick.{Pick as PickOf};
ghost use Rattle.journal.specs.EjectChange.{kept_of};
ghost use Rattle.journal.specs.declared.event.RequestEnd.TheVariants as ended;
ghost use Rattle.journal.specs.Crashes.{crashed};
ghost use Rattle.journal.specs.Settling.{first_request};
ghost use Rattle.journal.specs.Sites.{IsSoundSite};
ghost use Rattle.journal.specs.Stores as turns;
ghost use Rattle.journal.specs.World.{StoreRequest};
ghost use Rattle.plain_choices.specs.View.{work_of};
ghost use Rattle.plain_ejects.specs.View.{change_of};
ghost use Rattle.eden_value.specs.declared.status.Status.TheVariants as status;
ghost use Rattle.plain_sites.specs.View.{Serves, called_again, site_at};
ghost use Rattle.plain_stores.specs.View.{KeptInOrder, node_of, site_of};

use crate::{crash, end_active, turn_away};
use checkpoint::Wish;
use eden_value::Status;
use journal::RequestEnd;
use passive_store::Pick;
use plain_calls::PlainCalls;
use plain_choices::Work;
use plain_stores::PlainNode;
use std::alloc::{AllocError, Global};

/// Whether a change is a removal.
fn is_removal(wish: &Wish) -> bool
    ensures { result ≡ not (is_some (kept_of (change_of wish.now))) }
{
    match wish {
        Wish::Put { .. } => false,
        Wish::Delete => true,
    }
}

/// What the turn of the store is about; none where there is no request.
fn next_work(node: &PlainNode) -> Option<Work>
    ensures { (ts : TypeList) (t : Traffic) → KeptInOrder (site_of ts t node.now)
        → option_map work_of result ≡ option_map (turns.work_of (site_of ts t node.now)) (first_request (node_of ts node.now)) }
{
    match node.requests.front() {
        Some(request) => Some(node.work_for(request)),
        None => None,
    }
}

/// A turn of the sync of a settling.
fn sync(alloc: Global, node: &mut PlainNode, calls: &mut PlainCalls, end: RequestEnd)
    ensures { (ts : TypeList) (r : StoreRequest) (p : Option PickOf) → Serves (site_at ts node.old calls.old) r
        → turns.EndsSo turns.syncs end p
        → site_at ts node.new calls.new ≡ turns.worked turns.syncs r end p (site_at ts node.old calls.old) }
{
    match end {
        RequestEnd::Part => node.sync(),
        RequestEnd::Stop => crash(alloc, node, calls),
        _ => {
            node.unsync();
            node.end_first(Status::StoreFault);
        }
    }
}

/// A turn of the read of a settling, with the pick that it makes.
fn read(
    alloc: Global,
    node: &mut PlainNode,
    calls: &mut PlainCalls,
    end: RequestEnd,
    pick: Option<Pick>,
)
    ensures { (ts : TypeList) (r : StoreRequest) → Serves (site_at ts node.old calls.old) r → turns.EndsSo turns.reads end pick
        → site_at ts node.new calls.new ≡ turns.worked turns.reads r end pick (site_at ts node.old calls.old) }
{
    match end {
        RequestEnd::Part => node.settle(pick),
        RequestEnd::Stop => crash(alloc, node, calls),
        _ => {
            node.unsync();
            node.end_first(Status::StoreFault);
        }
    }
}

/// The first request is over and succeeded; behind a removal the active part ends, and what is queued is answered `gone`.
fn succeed(alloc: Global, node: &mut PlainNode, calls: &mut PlainCalls) -> Result<(), AllocError>
    ensures { OnOk result ((ts : TypeList) (r : StoreRequest) → Serves (site_at ts node.old calls.old) r
        → site_at ts node.new calls.new ≡ turns.done r (site_at ts node.old calls.old)) }
{
    let Some(request) = node.requests.front() else {
        return Ok(());
    };
    let uid = request.uid;
    let removes = is_removal(&request.wish);
    node.end_first(Status::Ok);
    if removes {
        end_active(alloc, node, calls, uid)?;
        turn_away(alloc, node, calls, uid, Status::Gone)?;
    }
    Ok(())
}

/// The last device call of the first request is made.
fn finish(alloc: Global, node: &mut PlainNode, calls: &mut PlainCalls) -> Result<(), AllocError>
    ensures { OnOk result ((ts : TypeList) (r : StoreRequest) → Serves (site_at ts node.old calls.old) r
        → site_at ts node.new calls.new ≡ turns.done r (turns.stored r (site_at ts node.old calls.old))) }
{
    node.keep_first()?;
    succeed(alloc, node, calls)?;
    Ok(())
}

/// A device call of the first request is made, and it goes on.
fn go_on(node: &mut PlainNode) -> Result<(), AllocError>
    ensures { OnOk result ((ts : TypeList) (t : Traffic) (r : StoreRequest) → Serves (site_of ts t node.old) r → r.made < 4294967295
        → site_of ts t node.new ≡ called_again (turns.doubted r (site_of ts t node.old))) }
{
    node.doubt_first()?;
    node.make_call();
    Ok(())
}

/// A device call of the first request fails.
fn fail(node: &mut PlainNode) -> Result<(), AllocError>
    ensures { OnOk result ((ts : TypeList) (t : Traffic) (r : StoreRequest) → Serves (site_of ts t node.old) r
        → site_of ts t node.new ≡ turns.request_ended r status.StoreFault (turns.doubted r (site_of ts t node.old))) }
{
    node.doubt_first()?;
    node.end_first(Status::StoreFault);
    Ok(())
}

/// The disk stops in a device call of the first request.
fn stop(alloc: Global, node: &mut PlainNode, calls: &mut PlainCalls) -> Result<(), AllocError>
    ensures { OnOk result ((ts : TypeList) (r : StoreRequest) → Serves (site_at ts node.old calls.old) r
        → site_at ts node.new calls.new ≡ crashed (turns.doubted r (site_at ts node.old calls.old))) }
{
    node.doubt_first()?;
    crash(alloc, node, calls);
    Ok(())
}

/// The size of the disk of a node.
fn size_of(node: &PlainNode) -> u32
    ensures { result ≡ node.now.size }
{
    node.size
}

/// A turn with a device call of the first request's own.
fn call(
    alloc: Global,
    node: &mut PlainNode,
    calls: &mut PlainCalls,
    end: RequestEnd,
) -> Result<(), AllocError>
    ensures { OnOk result ((ts : TypeList) (r : StoreRequest) (p : Option PickOf) → Serves (site_at ts node.old calls.old) r
        → turns.EndsSo turns.calls end p → (end ≡ ended.Part → r.made < 4294967295)
        → site_at ts node.new calls.new ≡ turns.worked turns.calls r end p (site_at ts node.old calls.old)) }
{
    match end {
        RequestEnd::Part => go_on(node)?,
        RequestEnd::Done => finish(alloc, node, calls)?,
        RequestEnd::Stop => stop(alloc, node, calls)?,
        _ => fail(node)?,
    }
    Ok(())
}

/// The store takes a turn for its first request, which ends so and makes this pick.
pub fn take_turn(
    alloc: Global,
    node: &mut PlainNode,
    calls: &mut PlainCalls,
    end: RequestEnd,
    pick: Option<Pick>,
) -> Result<(), AllocError>
    ensures { OnOk result ((ts : TypeList) (u : UidOf) → IsSoundSite (site_at ts node.old calls.old)
        → KeptInOrder (site_at ts node.old calls.old)
        → IsSomeAnd (first_request (node_of ts node.old)) (turns.AllowsStore (site_at ts node.old calls.old) u end pick)
        → site_at ts node.new calls.new ≡ turns.store_turn end pick (site_at ts node.old calls.old)) }
{
    let Some(work) = next_work(node) else {
        return Ok(());
    };
    // A disk of that size bounds how many calls its requests make.
    let _size = size_of(node);
    match work {
        Work::Syncs => sync(alloc, node, calls, end),
        Work::Reads => read(alloc, node, calls, end, pick),
        Work::Unkept => succeed(alloc, node, calls)?,
        Work::WithoutRoom => node.end_first(Status::Full),
        Work::Calls => call(alloc, node, calls, end)?,
    }
    Ok(())
}
