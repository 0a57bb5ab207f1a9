// The index of a log: each kept uid, and where its record stands.
ghost use Rattle.std.specs.Prelude.{◌≡◌, ◌&&◌, IsSome, OnOk, is_some};
ghost use Rattle.std.specs.BTreeMap as tree;
ghost use Rattle.capability.specs.Uids.{uid_cmp};
ghost use Rattle.passive_store.specs.Kept.{IsNextOf, reserved_uid};
ghost use Rattle.passive_store.specs.LogState.{SetsSlot, slot_of, slot_at, is_eject};

use capability::Uid;
use std::alloc::AllocError;
use std::collections::BTreeMap;
use std::ops::Bound;

/// Where the record stands that gives a uid its body, and how long the body is. The body begins 15 bytes behind the gate.
#[derive(Clone, Copy, Debug, PartialEq, Eq)]
pub struct Slot {
    /// The place of the record's first byte, its gate.
    pub gate: u32,
    /// The bytes of the body, at most 262,144.
    pub length: u32,
}

/// Makes an empty entry for a uid that has none.
pub fn make_entry(index: &mut BTreeMap<Uid, Option<Slot>>, uid: Uid) -> Result<(), AllocError>
    ensures slots { (q : _) → slot_at index.new q ≡ slot_at index.old q }
    ensures entry { OnOk result (IsSome (tree.get uid_cmp index.new uid)) }
    ensures keys { (q : _) → IsSome (tree.get uid_cmp index.old q) → IsSome (tree.get uid_cmp index.new q) }
{
    if !index.contains_key(&uid) {
        index.insert(uid, None)?;
    }
    Ok(())
}

/// The slot of a record at a place; a removal has none.
pub fn make_slot(removal: bool, gate: u32, length: u32) -> Option<Slot>
    ensures { result ≡ slot_of removal gate length }
{
    if removal {
        None
    } else {
        Some(Slot { gate, length })
    }
}

/// Sets the slot of a uid that has an entry.
pub fn set_slot(index: &mut BTreeMap<Uid, Option<Slot>>, uid: Uid, slot: Option<Slot>)
    requires { IsSome (tree.get uid_cmp index.old uid) }
    ensures sets { SetsSlot index.old index.new uid slot }
    ensures keys { (q : _) → IsSome (tree.get uid_cmp index.old q) → IsSome (tree.get uid_cmp index.new q) }
{
    let _ = index.insert(uid, slot);
}

/// The slot of a uid.
pub fn find_slot(index: &BTreeMap<Uid, Option<Slot>>, uid: Uid) -> Option<Slot>
    ensures { result ≡ slot_at index.now uid }
{
    match index.get(&uid) {
        Some(slot) => *slot,
        None => None,
    }
}

/// Whether an entry has a slot, and its uid is that of an Eject of the node.
fn is_eject_slot(uid: Uid, slot: Option<Slot>, node: u8) -> bool
    ensures { result ≡ (is_some slot && is_eject node uid) }
{
    slot.is_some() && uid.node == node && uid.epoch != 0 && uid.serial != 0
}

/// The first uid of an Eject of the node behind a given one, or of all, that has a slot.
pub fn next_slot(index: &BTreeMap<Uid, Option<Slot>>, from: Option<Uid>, node: u8) -> Option<Uid>
    ensures { IsNextOf (λ uid. is_some (slot_at index.now uid) && is_eject node uid) (reserved_uid node) from result }
{
    let start = match from {
        Some(uid) => Bound::Excluded(uid),
        None => Bound::Unbounded,
    };
    for (uid, slot) in index.range((start, Bound::Unbounded)) {
        if is_eject_slot(*uid, *slot, node) {
            return Some(*uid);
        }
    }
    None
}
