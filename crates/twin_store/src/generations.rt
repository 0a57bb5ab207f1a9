//! The generation that a disk of a pair keeps under the reserved uid.
ghost use Rattle.std.specs.Prelude.{◌≡◌, ◌≤◌, Option, Bool, IsTrue};
ghost use Rattle.std.specs.Int.{w32, to_be_bytes};
ghost use Rattle.passive_store.specs.Kept.{reserved_uid};
ghost use Rattle.passive_store.specs.Seen.{asked, disk_seen};
ghost use Rattle.std.specs.FinMap as map;
ghost use Rattle.twin_store.specs.Vouched.{generation_by, generation_in};
ghost use Rattle.twin_store.specs.Sides.{side_seen, is_in_use, bodies_on, IsSideReady, SideServes, SideMoves};
ghost use Rattle.twin_store.specs.Copies.{BeginsFilling};
ghost use Rattle.twin_store.specs.Twins.{Raises, ReadsGeneration};

use crate::served::TwinRefusal;
use crate::side::Side;
use capability::Uid;
use passive_store::Store;
use std::alloc::Global;

// The uid under which the generation of a node's disks is kept.
fn reserved(node: u8) -> Uid
    ensures { result ≡ reserved_uid node }
{
    Uid {
        node,
        epoch: 0,
        serial: 0,
    }
}

// The number that four bytes spell, the first of them the greatest; 0 of other bytes.
fn number_of(bytes: &[u8]) -> u32
    ensures { result ≡ generation_by (Option.Some bytes.now) }
{
    match bytes {
        [a, b, c, d] => u32::from_be_bytes([*a, *b, *c, *d]),
        _ => 0,
    }
}

/// The generation of a disk, 0 where none is kept; or None where it is out of use.
pub(crate) fn generation<St: Store>(
    alloc: Global,
    side: &mut Side<St>,
    node: u8,
) -> Result<Option<u32>, TwinRefusal>
    requires ready { IsSideReady node (side_seen St.seen (disk_seen St.Device.counts St.Device.told St.Device.due) side.old) }
    ensures { let of = side_seen St.seen (disk_seen St.Device.counts St.Device.told St.Device.due) in
        ReadsGeneration St.Device.tells St.layout node result (of side.old) (of side.new) }
{
    match side.get(alloc, node, reserved(node))? {
        None => Ok(None),
        Some(None) => Ok(Some(0)),
        Some(Some(body)) => Ok(Some(number_of(body.as_slice()))),
    }
}

/// Puts a generation on a disk in use. None where it is not, or where the disk fails.
pub(crate) fn put_generation<St: Store>(
    alloc: Global,
    side: &mut Side<St>,
    node: u8,
    generation: u32,
) -> Result<Option<()>, TwinRefusal>
    requires ready { IsSideReady node (side_seen St.seen (disk_seen St.Device.counts St.Device.told St.Device.due) side.old) }
    requires number { (1 ≤ node) × (node ≤ 8) }
    ensures { let of = side_seen St.seen (disk_seen St.Device.counts St.Device.told St.Device.due) in
        SideServes St.Device.tells St.layout node (Option.Some (asked (reserved_uid node) (Option.Some (to_be_bytes w32 generation))))
        result
        (of side.old) (of side.new) }
{
    side.put(alloc, node, reserved(node), &generation.to_be_bytes())
}

/// A disk that is to be filled gets a generation, where it has none: 0, which says the same.
pub(crate) fn begin_filling<St: Store>(
    alloc: Global,
    side: &mut Side<St>,
    node: u8,
) -> Result<(), TwinRefusal>
    requires ready { IsSideReady node (side_seen St.seen (disk_seen St.Device.counts St.Device.told St.Device.due) side.old) }
    requires number { (1 ≤ node) × (node ≤ 8) }
    ensures moves { let of = side_seen St.seen (disk_seen St.Device.counts St.Device.told St.Device.due) in
        SideMoves node result (of side.old) (of side.new) }
    ensures begins { let of = side_seen St.seen (disk_seen St.Device.counts St.Device.told St.Device.due) in
        IsTrue St.Device.tells → BeginsFilling St.layout node result (of side.old) (of side.new) }
{
    if !side.holds(reserved(node)) {
        put_generation(alloc, side, node, 0)?;
    }
    Ok(())
}

/// A disk in use gets the generation behind this one, since the other has left use.
pub(crate) fn raise<St: Store>(
    alloc: Global,
    side: &mut Side<St>,
    node: u8,
    generation: u32,
) -> Result<u32, TwinRefusal>
    requires ready { IsSideReady node (side_seen St.seen (disk_seen St.Device.counts St.Device.told St.Device.due) side.old) }
    requires number { (1 ≤ node) × (node ≤ 8) }
    ensures { let of = side_seen St.seen (disk_seen St.Device.counts St.Device.told St.Device.due) in
        Raises St.Device.tells St.layout node generation result (of side.old) (of side.new) }
{
    if !side.in_use() {
        return Err(TwinRefusal::Lost);
    }
    let Some(next) = generation.checked_add(1) else {
        return Err(TwinRefusal::GenerationsSpent);
    };
    match put_generation(alloc, side, node, next)? {
        Some(()) => Ok(next),
        None => Err(TwinRefusal::Lost),
    }
}
