//! One disk is made to keep what another keeps, the generations aside. It ends early where a disk leaves use.
ghost use Rattle.std.specs.Prelude.{◌≡◌, ◌≤◌, ◌<◌, ◌&&◌, not, is_some, Bool, IsTrue, IfSome};
ghost use Rattle.twin_store.specs.Ranks.{rank_of, IsLater};
ghost use Rattle.passive_store.specs.Kept.{IsEject};
ghost use Rattle.passive_store.specs.Seen.{disk_seen};
ghost use Rattle.std.specs.FinMap as map;
ghost use Rattle.twin_store.specs.Sides.{side_seen, is_in_use, bodies_on, IsSideReady, IsSound, SideMoves, BothMove, IsNextOn};
ghost use Rattle.twin_store.specs.Copies.{IsAtRest, Clears, LooksFor, Fills, TakesOne, CopiesAll, IsCopied};

use crate::generations::begin_filling;
use crate::served::TwinRefusal;
use crate::side::Side;
use capability::{BODY_LIMIT, Body, Uid};
use passive_store::Store;
use std::alloc::Global;

// Whether a uid is spared as the target is cleared: where not all is copied anew and the source keeps something there.
fn spares<St: Store>(all: bool, source: &Side<St>, uid: Uid) -> bool
    ensures { let side = side_seen St.seen (disk_seen St.Device.counts St.Device.told St.Device.due) source.now in
        IsTrue St.Device.tells → is_in_use side ≡ Bool.true → result ≡ (not all && is_some (map.get (bodies_on side) uid)) }
{
    !all && source.holds(uid)
}

// Removes what a disk keeps of Ejects: all, or else what the source does not keep.
fn clear<St: Store>(
    alloc: Global,
    all: bool,
    source: &Side<St>,
    target: &mut Side<St>,
    node: u8,
) -> Result<(), TwinRefusal>
    requires ready { IsSideReady node (side_seen St.seen (disk_seen St.Device.counts St.Device.told St.Device.due) target.old) }
    ensures moves { let of = side_seen St.seen (disk_seen St.Device.counts St.Device.told St.Device.due) in
        SideMoves node result (of target.old) (of target.new) }
    ensures clears { let of = side_seen St.seen (disk_seen St.Device.counts St.Device.told St.Device.due) in
        IsTrue St.Device.tells → is_in_use (of source.now) ≡ Bool.true
        → Clears St.layout all node result (of source.now) (of target.old) (of target.new) }
{
    let mut next = target.next(None, node);
    while let Some(uid) = next {
        if !spares(all, source, uid) {
            target.delete(alloc, node, uid)?;
        }
        next = target.next(Some(uid), node);
    }
    Ok(())
}

/// Whether the target keeps just this body under a uid.
pub(crate) fn has_already<St: Store>(
    alloc: Global,
    target: &mut Side<St>,
    node: u8,
    uid: Uid,
    body: &Body,
) -> Result<bool, TwinRefusal>
    requires ready { IsSideReady node (side_seen St.seen (disk_seen St.Device.counts St.Device.told St.Device.due) target.old) }
    ensures moves { let of = side_seen St.seen (disk_seen St.Device.counts St.Device.told St.Device.due) in
        SideMoves node result (of target.old) (of target.new) }
    ensures looks { let of = side_seen St.seen (disk_seen St.Device.counts St.Device.told St.Device.due) in
        IsTrue St.Device.tells → LooksFor St.layout node uid body.now result (of target.old) (of target.new) }
{
    match target.get(alloc, node, uid)? {
        Some(Some(found)) => Ok(found.as_slice() == body.as_slice()),
        Some(None) => Ok(false),
        None => Ok(false),
    }
}

// Puts a body, where it is not kept already.
fn put_new<St: Store>(
    alloc: Global,
    target: &mut Side<St>,
    node: u8,
    uid: Uid,
    body: &Body,
) -> Result<(), TwinRefusal>
    requires ready { IsSideReady node (side_seen St.seen (disk_seen St.Device.counts St.Device.told St.Device.due) target.old) }
    requires own { IsEject node uid }
    ensures moves { let of = side_seen St.seen (disk_seen St.Device.counts St.Device.told St.Device.due) in
        SideMoves node result (of target.old) (of target.new) }
    ensures fills { let of = side_seen St.seen (disk_seen St.Device.counts St.Device.told St.Device.due) in
        IsTrue St.Device.tells → Fills St.layout node uid body.now result (of target.old) (of target.new) }
{
    // What a store keeps is within the limit.
    if body.as_slice().len() > BODY_LIMIT as usize {
        return Ok(());
    }
    if has_already(alloc, target, node, uid, body)? {
        return Ok(());
    }
    target.put(alloc, node, uid, body.as_slice())?;
    Ok(())
}

// Puts under a uid what the source keeps there, where the target does not keep it already.
fn copy_one<St: Store>(
    alloc: Global,
    source: &mut Side<St>,
    target: &mut Side<St>,
    node: u8,
    uid: Uid,
) -> Result<(), TwinRefusal>
    requires source { IsSideReady node (side_seen St.seen (disk_seen St.Device.counts St.Device.told St.Device.due) source.old) }
    requires target { IsSideReady node (side_seen St.seen (disk_seen St.Device.counts St.Device.told St.Device.due) target.old) }
    requires own { IsEject node uid }
    ensures both { let of = side_seen St.seen (disk_seen St.Device.counts St.Device.told St.Device.due) in
        BothMove node result (of source.old) (of source.new) (of target.old) (of target.new) }
    ensures takes { let of = side_seen St.seen (disk_seen St.Device.counts St.Device.told St.Device.due) in
        IsTrue St.Device.tells → TakesOne St.layout node uid result (of source.old) (of source.new) (of target.old) (of target.new) }
{
    match source.get(alloc, node, uid)? {
        Some(Some(body)) => put_new(alloc, target, node, uid, &body),
        Some(None) => Ok(()),
        None => Ok(()),
    }
}

// The next uid to copy behind this one, or the first, as long as the target is in use.
fn next_to_copy<St: Store>(
    source: &Side<St>,
    target: &Side<St>,
    from: Option<Uid>,
    node: u8,
) -> Option<Uid>
    requires ready { IsSideReady node (side_seen St.seen (disk_seen St.Device.counts St.Device.told St.Device.due) source.now) }
    requires own { IfSome from (IsEject node) }
    ensures next { let of = side_seen St.seen (disk_seen St.Device.counts St.Device.told St.Device.due) in
        IsTrue St.Device.tells → is_in_use (of source.now) ≡ Bool.true → is_in_use (of target.now) ≡ Bool.true
        → IsNextOn node (of source.now) from result }
    ensures some { let of = side_seen St.seen (disk_seen St.Device.counts St.Device.told St.Device.due) in
        IsTrue St.Device.tells → is_in_use (of source.now) ≡ Bool.true
        → IfSome result (λ uid. IsTrue (is_some (map.get (bodies_on (of source.now)) uid))) }
    ensures later { IfSome result (IsLater from) }
    ensures own { IfSome result (IsEject node) }
    ensures fits { IfSome result (λ uid. rank_of uid < 18446744073709551616) }
{
    if target.in_use() {
        source.next(from, node)
    } else {
        None
    }
}

// Puts under each uid what the source keeps there.
fn copy_all<St: Store>(
    alloc: Global,
    source: &mut Side<St>,
    target: &mut Side<St>,
    node: u8,
) -> Result<(), TwinRefusal>
    requires source { IsSideReady node (side_seen St.seen (disk_seen St.Device.counts St.Device.told St.Device.due) source.old) }
    requires target { IsSideReady node (side_seen St.seen (disk_seen St.Device.counts St.Device.told St.Device.due) target.old) }
    ensures both { let of = side_seen St.seen (disk_seen St.Device.counts St.Device.told St.Device.due) in
        BothMove node result (of source.old) (of source.new) (of target.old) (of target.new) }
    ensures copies { let of = side_seen St.seen (disk_seen St.Device.counts St.Device.told St.Device.due) in
        IsTrue St.Device.tells → CopiesAll St.layout node result (of source.old) (of source.new) (of target.old) (of target.new) }
{
    let mut next = next_to_copy(source, target, None, node);
    while let Some(uid) = next {
        copy_one(alloc, source, target, node, uid)?;
        next = next_to_copy(source, target, Some(uid), node);
    }
    Ok(())
}

/// Makes the target keep what the source keeps. Where all is copied anew it is emptied and filled; else what differs is
/// put in its place, one uid after the other, so that each has its old value or the source's.
pub(crate) fn copy<St: Store>(
    alloc: Global,
    all: bool,
    source: &mut Side<St>,
    target: &mut Side<St>,
    node: u8,
) -> Result<(), TwinRefusal>
    requires number { (1 ≤ node) × (node ≤ 8) }
    requires source { IsSideReady node (side_seen St.seen (disk_seen St.Device.counts St.Device.told St.Device.due) source.old) }
    requires target { IsSideReady node (side_seen St.seen (disk_seen St.Device.counts St.Device.told St.Device.due) target.old) }
    ensures both { let of = side_seen St.seen (disk_seen St.Device.counts St.Device.told St.Device.due) in
        BothMove node result (of source.old) (of source.new) (of target.old) (of target.new) }
    ensures copied { let of = side_seen St.seen (disk_seen St.Device.counts St.Device.told St.Device.due) in
        IsTrue St.Device.tells → IsAtRest St.layout node (of source.old) → IsAtRest St.layout node (of target.old)
        → IsSound node (bodies_on (of source.old))
        → IsCopied St.layout all node result (of source.old) (of target.old) (of source.new) (of target.new) }
{
    clear(alloc, all, source, target, node)?;
    if all {
        begin_filling(alloc, target, node)?;
    }
    copy_all(alloc, source, target, node)
}
