//! Whether two disks keep the same, the generations aside. It is looked for before anything is changed, with as few looks as it takes.
ghost use Rattle.std.specs.Prelude.{◌≡◌, ◌⊎◌, ◌≤◌, ◌<◌, Option, Bool, IsTrue, IfSome};
ghost use Rattle.twin_store.specs.Ranks.{rank_of, IsLater};
ghost use Rattle.passive_store.specs.Kept.{IsEject};
ghost use Rattle.passive_store.specs.Seen.{disk_seen};
ghost use Rattle.twin_store.specs.Sides.{side_seen, is_in_use, bodies_on, IsSideReady, IsSound, BothMove, IsNextOn};
ghost use Rattle.twin_store.specs.Copies.{IsAtRest, IsCopied, IsNextNumber, IsNoneBetween, LooksAtBoth, Compares};

use crate::copying::{copy, has_already};
use crate::served::TwinRefusal;
use crate::side::Side;
use capability::Uid;
use passive_store::Store;
use std::alloc::Global;

// Whether a uid has the next number behind another one, so that none lies between.
fn is_next_number(from: Option<Uid>, next: Option<Uid>) -> bool
    ensures { result ≡ Bool.true → IsNextNumber from next }
{
    match from {
        Some(one) => match next {
            Some(two) => {
                two.node == one.node
                    && two.epoch == one.epoch
                    && two.serial > one.serial
                    && two.serial - one.serial == 1
            }
            None => false,
        },
        None => false,
    }
}

// Whether two uids are one, or there is neither.
fn is_one(a: Option<Uid>, b: Option<Uid>) -> bool
    ensures { result ≡ Bool.true → a ≡ b }
{
    match a {
        Some(one) => match b {
            Some(two) => one == two,
            None => false,
        },
        None => match b {
            Some(_) => false,
            None => true,
        },
    }
}

// Whether nothing is kept between a uid and this next one on the target. It is not looked for where none can lie between.
fn goes_along<St: Store>(target: &Side<St>, from: Option<Uid>, next: Option<Uid>, node: u8) -> bool
    requires ready { IsSideReady node (side_seen St.seen (disk_seen St.Device.counts St.Device.told St.Device.due) target.now) }
    requires own { IfSome from (IsEject node) }
    ensures { let of = side_seen St.seen (disk_seen St.Device.counts St.Device.told St.Device.due) in
        IsTrue St.Device.tells → is_in_use (of target.now) ≡ Bool.true → result ≡ Bool.true → IsNoneBetween node (of target.now) from next }
{
    if is_next_number(from, next) {
        return true;
    }
    let there = target.next(from, node);
    is_one(there, next)
}

// The next uid of the source behind this one, or the first, and whether the disks went along up to it; none where they did not.
fn next_of_both<St: Store>(
    alike: bool,
    source: &Side<St>,
    target: &Side<St>,
    from: Option<Uid>,
    node: u8,
) -> (Option<Uid>, bool)
    requires source { IsSideReady node (side_seen St.seen (disk_seen St.Device.counts St.Device.told St.Device.due) source.now) }
    requires target { IsSideReady node (side_seen St.seen (disk_seen St.Device.counts St.Device.told St.Device.due) target.now) }
    requires own { IfSome from (IsEject node) }
    ensures alike { result.1 ≡ Bool.true → alike ≡ Bool.true }
    ensures next { let of = side_seen St.seen (disk_seen St.Device.counts St.Device.told St.Device.due) in
        IsTrue St.Device.tells → is_in_use (of source.now) ≡ Bool.true → result.1 ≡ Bool.true
        → IsNextOn node (of source.now) from result.0 }
    ensures none { let of = side_seen St.seen (disk_seen St.Device.counts St.Device.told St.Device.due) in
        IsTrue St.Device.tells → is_in_use (of target.now) ≡ Bool.true → result.1 ≡ Bool.true
        → IsNoneBetween node (of target.now) from result.0 }
    ensures some { IfSome result.0 (λ uid. result.1 ≡ Bool.true) }
    ensures later { IfSome result.0 (IsLater from) }
    ensures own { IfSome result.0 (IsEject node) }
    ensures fits { IfSome result.0 (λ uid. rank_of uid < 18446744073709551616) }
{
    if !alike {
        return (None, false);
    }
    let next = source.next(from, node);
    if goes_along(target, from, next, node) {
        (next, true)
    } else {
        (None, false)
    }
}

// Whether both disks keep the same under a uid of the source.
fn has_same<St: Store>(
    alloc: Global,
    source: &mut Side<St>,
    target: &mut Side<St>,
    node: u8,
    uid: Uid,
) -> Result<bool, TwinRefusal>
    requires source { IsSideReady node (side_seen St.seen (disk_seen St.Device.counts St.Device.told St.Device.due) source.old) }
    requires target { IsSideReady node (side_seen St.seen (disk_seen St.Device.counts St.Device.told St.Device.due) target.old) }
    ensures both { let of = side_seen St.seen (disk_seen St.Device.counts St.Device.told St.Device.due) in
        BothMove node result (of source.old) (of source.new) (of target.old) (of target.new) }
    ensures looks { let of = side_seen St.seen (disk_seen St.Device.counts St.Device.told St.Device.due) in
        IsTrue St.Device.tells
        → LooksAtBoth St.layout node uid result (of source.old) (of source.new) (of target.old) (of target.new) }
{
    match source.get(alloc, node, uid)? {
        Some(Some(body)) => has_already(alloc, target, node, uid, &body),
        Some(None) => Ok(false),
        None => Ok(false),
    }
}

// Whether both disks keep the same under each uid of an Eject. Where it says no, it may not have looked at all.
fn are_same<St: Store>(
    alloc: Global,
    source: &mut Side<St>,
    target: &mut Side<St>,
    node: u8,
) -> Result<bool, TwinRefusal>
    requires source { IsSideReady node (side_seen St.seen (disk_seen St.Device.counts St.Device.told St.Device.due) source.old) }
    requires target { IsSideReady node (side_seen St.seen (disk_seen St.Device.counts St.Device.told St.Device.due) target.old) }
    ensures both { let of = side_seen St.seen (disk_seen St.Device.counts St.Device.told St.Device.due) in
        BothMove node result (of source.old) (of source.new) (of target.old) (of target.new) }
    ensures compares { let of = side_seen St.seen (disk_seen St.Device.counts St.Device.told St.Device.due) in
        IsTrue St.Device.tells → IsAtRest St.layout node (of source.old) → IsAtRest St.layout node (of target.old)
        → Compares St.layout node result (of source.old) (of source.new) (of target.old) (of target.new) }
{
    let first = next_of_both(true, source, target, None, node);
    let mut next = first.0;
    let mut alike = first.1;
    while let Some(uid) = next {
        let same = has_same(alloc, source, target, node, uid)?;
        let step = next_of_both(same, source, target, Some(uid), node);
        next = step.0;
        alike = step.1;
    }
    Ok(alike)
}

// Whether nothing is left to bring over: both keep the same, or a disk has left use.
fn is_done<St: Store>(same: bool, source: &Side<St>, target: &Side<St>) -> bool
    ensures done { let of = side_seen St.seen (disk_seen St.Device.counts St.Device.told St.Device.due) in
        result ≡ Bool.true → is_in_use (of source.now) ≡ Bool.true → is_in_use (of target.now) ≡ Bool.true → same ≡ Bool.true }
    ensures source { let of = side_seen St.seen (disk_seen St.Device.counts St.Device.told St.Device.due) in
        result ≡ Bool.false → is_in_use (of source.now) ≡ Bool.true }
    ensures target { let of = side_seen St.seen (disk_seen St.Device.counts St.Device.told St.Device.due) in
        result ≡ Bool.false → is_in_use (of target.now) ≡ Bool.true }
{
    if !source.in_use() {
        return true;
    }
    if !target.in_use() {
        return true;
    }
    same
}

/// Brings the target to the source's values: where both keep the same already, nothing is changed.
pub(crate) fn bring<St: Store>(
    alloc: Global,
    source: &mut Side<St>,
    target: &mut Side<St>,
    node: u8,
) -> Result<(), TwinRefusal>
    requires number { (1 ≤ node) × (node ≤ 8) }
    requires source { IsSideReady node (side_seen St.seen (disk_seen St.Device.counts St.Device.told St.Device.due) source.old) }
    requires target { IsSideReady node (side_seen St.seen (disk_seen St.Device.counts St.Device.told St.Device.due) target.old) }
    ensures both { let of = side_seen St.seen (disk_seen St.Device.counts St.Device.told St.Device.due) in
        BothMove node result (of source.old) (of source.new) (of target.old) (of target.new) }
    ensures copied { let of = side_seen St.seen (disk_seen St.Device.counts St.Device.told St.Device.due) in
        IsTrue St.Device.tells → IsAtRest St.layout node (of source.old) → IsAtRest St.layout node (of target.old)
        → IsSound node (bodies_on (of source.old))
        → IsCopied St.layout Bool.false node result (of source.old) (of target.old) (of source.new) (of target.new) }
{
    let same = are_same(alloc, source, target, node)?;
    if is_done(same, source, target) {
        return Ok(());
    }
    copy(alloc, false, source, target, node)
}
