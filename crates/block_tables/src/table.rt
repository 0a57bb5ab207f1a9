// What is known of a disk of blocks in memory: its heads, its blocks, and what is kept.
ghost use Rattle.std.specs.Prelude.{◌≡◌, ◌≤◌, ◌<◌, ◌+◌, ◌-◌, ◌*◌, ◌/◌, ◌^◌, ◌==◌, ◌&&◌, ◌||◌, not, ℕ, Bool, true, false, length, slice_set};
ghost use Rattle.std.specs.Prelude.{[], ◌∷◌, ◌++◌, suc, slice_index};
ghost use Rattle.std.specs.Prelude.{nat_le, IsSome, IfSome, IfOk, IfErr, OnOk, Option, is_some, if◌then◌else◌};
ghost use Rattle.passive_store.specs.declared.store.StoreRefusal.TheVariants.{Full};
ghost use Rattle.passive_store.specs.Kept.{IsNextOf, IsEject, reserved_uid};
ghost use Rattle.passive_store.specs.LogState.{is_eject};
ghost use Rattle.block_tables.specs.Blocks as blocks;
ghost use Rattle.block_tables.specs.Blocks.{has};
ghost use Rattle.block_tables.specs.Members.{is_member};
ghost use Rattle.std.specs.BTreeMap as tree;
ghost use Rattle.capability.specs.Uids.{uid_cmp};
ghost use Rattle.block_tables.specs.Changes.{first_or_zero};
ghost use Rattle.block_tables.specs.BlockState.{AreBlocks, AreDataIn, walk};
ghost use Rattle.block_tables.specs.HeadState.{AreHeads, slot_at, kept_slot, outdated, is_it, is_open, entry_at};
ghost use Rattle.block_tables.specs.TableState.{IsTable, keeper, greatest_in, left_in, sequence_of, spare, fits_in, IsKeptOn};
ghost use Rattle.block_tables.specs.TableState.{blocks_kept, blocks_under, stands_alone};
ghost use Rattle.block_tables.specs.TableState.{blocks_chosen};
ghost use Rattle.block_tables.specs.BlockState.{AreAllFree};

use crate::block_table::BlockTable;
use crate::head_table::HeadTable;
use crate::heads::{HeadFields, LAST_SEQUENCE, blocks_of};
use capability::Uid;
use passive_store::StoreRefusal;
use std::alloc::{AllocError, Global};
use std::ops::Bound;

/// The heads and blocks of a disk, in memory that does not grow but for the entries of uids.
#[derive(Drop)]
pub struct Table {
    /// The heads.
    pub heads: HeadTable,
    /// The blocks.
    pub blocks: BlockTable,
}

impl Table {
    /// The table of a disk of this size on which all heads are closed.
    pub fn new(alloc: Global, size: u32) -> Result<Table, AllocError>
        requires { blocks.is_block_size size ≡ true }
        ensures table { IfOk result IsTable }
        ensures size { IfOk result (λ t. t.blocks.size ≡ size) }
        ensures closed { IfOk result (λ t. (k : ℕ) → is_open (slot_at t.heads.slots.items k) ≡ false) }
        ensures closing { IfOk result (λ t. (k : ℕ) → is_member t.heads.closing k ≡ false) }
        ensures lone { IfOk result (λ t. (k : ℕ) → is_member t.heads.lone k ≡ false) }
        ensures free { IfOk result (λ t. AreAllFree t.blocks) }
    {
        Ok(Table {
            heads: HeadTable::new(alloc, size / 1024)?,
            blocks: BlockTable::new(alloc, size)?,
        })
    }

    /// Makes an empty entry for a uid that has none.
    pub fn make_entry(&mut self, uid: Uid) -> Result<(), AllocError>
        requires { IsTable self.old }
        ensures table { IsTable self.new }
        ensures slots { self.new.heads.slots ≡ self.old.heads.slots }
        ensures entry { OnOk result (IsSome (tree.get uid_cmp self.new.heads.index uid)) }
        ensures entries { (q : _) → entry_at self.new.heads.index q ≡ entry_at self.old.heads.index q }
        ensures keys { (q : _) → IsSome (tree.get uid_cmp self.old.heads.index q) → IsSome (tree.get uid_cmp self.new.heads.index q) }
        ensures closing { self.new.heads.closing ≡ self.old.heads.closing }
        ensures lone { self.new.heads.lone ≡ self.old.heads.lone }
        ensures blocks { self.new.blocks ≡ self.old.blocks }
    {
        self.heads.make_entry(uid)
    }

    /// The head that keeps a value under a uid.
    pub fn value(&self, uid: Uid) -> Option<HeadFields>
        requires { IsTable self.now }
        ensures { result ≡ keeper self.now uid }
    {
        self.heads.value(uid)
    }

    /// The sequence of the head that keeps a value under a uid.
    pub fn mark(&self, uid: Uid) -> Option<u64>
        requires { IsTable self.now }
        ensures { result ≡ sequence_of (keeper self.now uid) }
    {
        match self.heads.value(uid) {
            Some(head) => Some(head.sequence),
            None => None,
        }
    }

    /// The first kept uid of an Eject of the node behind a given one, or of all.
    pub fn after(&self, from: Option<Uid>, node: u8) -> Option<Uid>
        requires { IsTable self.now }
        ensures next { IsNextOf (λ uid. is_some (keeper self.now uid) && is_eject node uid) (reserved_uid node) from result }
        ensures own { IfSome result (λ uid. IsEject node uid) }
    {
        let start = match from {
            Some(uid) => Bound::Excluded(uid),
            None => Bound::Unbounded,
        };
        for (uid, entry) in self.heads.index.range((start, Bound::Unbounded)) {
            if self.heads.keeps_eject(*uid, *entry, node) {
                return Some(*uid);
            }
        }
        None
    }

    /// The length of the longest value that finds room.
    pub fn room(&self) -> Option<u32>
        requires { IsTable self.now }
        ensures { result ≡ (if not (nat_le (2 ^ 63) (greatest_in self.now)) && nat_le 2 (left_in self.now)
            then Option.Some (1022 * (left_in self.now - 1)) else Option.None) }
    {
        if self.heads.greatest() >= LAST_SEQUENCE {
            None
        } else {
            self.blocks.room()
        }
    }

    /// The head and the first block of a change, and its sequence, where it finds room.
    pub fn choose(&mut self, uid: Uid, removal: bool, size: u32) -> Result<HeadFields, StoreRefusal>
        requires table { IsTable self.old }
        requires size { size ≤ 262144 }
        ensures table { IsTable self.new }
        ensures only { IfErr result (λ e. e ≡ Full) }
        ensures same { IfErr result (λ e. self.new ≡ self.old) }
        ensures full { IfErr result (λ e. (k : ℕ) → k < length self.old.heads.slots.items
            → is_open (slot_at self.old.heads.slots.items k) ≡ false → greatest_in self.old < 2 ^ 63
            → fits_in self.old uid removal size ≡ false) }
        ensures uid { IfOk result (λ h. h.uid ≡ uid) }
        ensures removal { IfOk result (λ h. h.removal ≡ removal) }
        ensures size { IfOk result (λ h. h.size ≡ size) }
        ensures sequence { IfOk result (λ h. (h.sequence ≡ greatest_in self.old + 1) × (h.sequence ≤ 2 ^ 63)) }
        ensures number { IfOk result (λ h. h.number < length self.old.heads.slots.items) }
        ensures free { IfOk result (λ h. is_open (slot_at self.old.heads.slots.items h.number) ≡ false) }
        ensures least { IfOk result (λ h. (k : ℕ) → k < h.number → is_open (slot_at self.old.heads.slots.items k) ≡ true) }
        ensures room { IfOk result (λ h. fits_in self.old uid removal size ≡ true) }
        ensures first { IfOk result (λ h. h.first ≡ first_or_zero (blocks_chosen self.old.blocks removal size)) }
        ensures chain { IfOk result (λ h. let chosen = blocks_chosen self.old.blocks removal size in
            1 ≤ length chosen → walk self.new.blocks.next.items h.first (suc (length chosen)) ≡ chosen ++ 0 ∷ []) }
        ensures taken { IfOk result (λ h. (k : ℕ) → is_member self.new.blocks.free k
            ≡ (not (has k (blocks_chosen self.old.blocks removal size)) && is_member self.old.blocks.free k)) }
        ensures others { IfOk result (λ h. (k : ℕ) → has k (blocks_chosen self.old.blocks removal size) ≡ false
            → slice_index self.new.blocks.next.items k ≡ slice_index self.old.blocks.next.items k) }
        ensures needed { self.new.blocks.needed ≡ self.old.blocks.needed }
        ensures disk { self.new.blocks.size ≡ self.old.blocks.size }
        ensures heads { self.new.heads ≡ self.old.heads }
    {
        let Some(number) = self.heads.free_head() else {
            return Err(StoreRefusal::Full);
        };
        let greatest = self.heads.greatest();
        if greatest >= LAST_SEQUENCE || !self.has_room(uid, removal, size) {
            return Err(StoreRefusal::Full);
        }
        let first = self.take_blocks(removal, size);
        Ok(HeadFields {
            number,
            uid,
            removal,
            sequence: greatest + 1,
            size,
            first,
        })
    }

    /// Takes the blocks of a change onto a chain, and answers the first. A removal takes none.
    fn take_blocks(&mut self, removal: bool, size: u32) -> u32
        requires table { IsTable self.old }
        ensures table { IsTable self.new }
        ensures first { result ≡ first_or_zero (blocks_chosen self.old.blocks removal size) }
        ensures chain { let chosen = blocks_chosen self.old.blocks removal size in
            1 ≤ length chosen → walk self.new.blocks.next.items result (suc (length chosen)) ≡ chosen ++ 0 ∷ [] }
        ensures taken { (k : ℕ) → is_member self.new.blocks.free k
            ≡ (not (has k (blocks_chosen self.old.blocks removal size)) && is_member self.old.blocks.free k) }
        ensures others { (k : ℕ) → has k (blocks_chosen self.old.blocks removal size) ≡ false
            → slice_index self.new.blocks.next.items k ≡ slice_index self.old.blocks.next.items k }
        ensures needed { self.new.blocks.needed ≡ self.old.blocks.needed }
        ensures size { self.new.blocks.size ≡ self.old.blocks.size }
        ensures heads { self.new.heads ≡ self.old.heads }
    {
        if removal {
            0
        } else {
            self.blocks.take_chain(blocks_of(size))
        }
    }

    /// Whether the kept values leave room for one of this size. A removal finds room.
    fn has_room(&self, uid: Uid, removal: bool, size: u32) -> bool
        requires table { IsTable self.now }
        requires size { size ≤ 262144 }
        ensures { result ≡ fits_in self.now uid removal size }
    {
        let spare = if uid.epoch == 0 { 0 } else { 1 };
        removal || blocks_of(size) + spare <= self.blocks.left()
    }

    /// A change is made: its head is open, and the value before it is not kept any more.
    pub fn make_change(&mut self, head: HeadFields)
        requires table { IsTable self.old }
        requires number { head.number < length self.old.heads.slots.items }
        requires closed { is_open (slot_at self.old.heads.slots.items head.number) ≡ false }
        requires opened { is_open head ≡ true }
        requires later { (k : ℕ) → (slot_at self.old.heads.slots.items k).sequence < head.sequence }
        requires entry { IsSome (tree.get uid_cmp self.old.heads.index head.uid) }
        requires before { IfSome (keeper self.old head.uid) (IsKeptOn self.old.blocks) }
        requires fits { head.removal ≡ false
            → self.old.blocks.needed + blocks.blocks_of head.size ≤ blocks.data_count self.old.blocks.size }
        ensures table { IsTable self.new }
        ensures slots { self.new.heads.slots.items ≡ slice_set self.old.heads.slots.items head.number head }
        ensures lone { (k : ℕ) → is_member self.new.heads.lone k ≡ false }
        ensures closing { let old = outdated self.old.heads.slots.items head (entry_at self.old.heads.index head.uid).latest in
            (k : ℕ) → is_member self.new.heads.closing k
            ≡ (is_member self.old.heads.lone k || ((head.removal && (k == head.number && stands_alone self.new head.number))
            || (is_it k old || is_member self.old.heads.closing k))) }
        ensures needed { self.new.blocks.needed
            ≡ self.old.blocks.needed - blocks_kept (keeper self.old head.uid) + (if head.removal then 0 else blocks.blocks_of head.size) }
        ensures free { (k : ℕ) → is_member self.new.blocks.free k
            ≡ (has k (blocks_under self.old.blocks (keeper self.old head.uid)) || is_member self.old.blocks.free k) }
        ensures next { self.new.blocks.next ≡ self.old.blocks.next }
        ensures size { self.new.blocks.size ≡ self.old.blocks.size }
        ensures keys { (q : _) → IsSome (tree.get uid_cmp self.old.heads.index q) → IsSome (tree.get uid_cmp self.new.heads.index q) }
    {
        let before = self.heads.count_head(head);
        self.leave(before);
        self.keep(head);
        self.heads.end_job();
    }

    /// A value is kept, or a removal that stands alone is closed by the next change.
    fn keep(&mut self, head: HeadFields)
        requires table { IsTable self.old }
        requires number { head.number < length self.old.heads.slots.items }
        requires fits { head.removal ≡ false
            → self.old.blocks.needed + blocks.blocks_of head.size ≤ blocks.data_count self.old.blocks.size }
        ensures table { IsTable self.new }
        ensures slots { self.new.heads.slots ≡ self.old.heads.slots }
        ensures index { self.new.heads.index ≡ self.old.heads.index }
        ensures lone { self.new.heads.lone ≡ self.old.heads.lone }
        ensures closing { (k : ℕ) → is_member self.new.heads.closing k
            ≡ ((head.removal && (k == head.number && stands_alone self.old head.number)) || is_member self.old.heads.closing k) }
        ensures needed { self.new.blocks.needed ≡ self.old.blocks.needed + (if head.removal then 0 else blocks.blocks_of head.size) }
        ensures free { self.new.blocks.free ≡ self.old.blocks.free }
        ensures next { self.new.blocks.next ≡ self.old.blocks.next }
        ensures size { self.new.blocks.size ≡ self.old.blocks.size }
    {
        if head.removal {
            if self.heads.is_lone(head.number) {
                self.heads.close_later(Some(head.number));
            }
        } else {
            self.blocks.keep(head.size);
        }
    }

    /// The value of a head that counted is not kept any more.
    fn leave(&mut self, before: Option<u32>)
        requires table { IsTable self.old }
        requires number { IfSome before (λ n. n < length self.old.heads.slots.items) }
        requires kept { IfSome (kept_slot self.old.heads.slots.items before) (IsKeptOn self.old.blocks) }
        ensures table { IsTable self.new }
        ensures heads { self.new.heads ≡ self.old.heads }
        ensures needed { self.new.blocks.needed ≡ self.old.blocks.needed - blocks_kept (kept_slot self.old.heads.slots.items before) }
        ensures free { (k : ℕ) → is_member self.new.blocks.free k
            ≡ (has k (blocks_under self.old.blocks (kept_slot self.old.heads.slots.items before)) || is_member self.old.blocks.free k) }
        ensures next { self.new.blocks.next ≡ self.old.blocks.next }
        ensures size { self.new.blocks.size ≡ self.old.blocks.size }
    {
        if let Some(number) = before {
            let slot = self.heads.slot(number);
            if !slot.removal {
                self.blocks.leave(slot.size, slot.first);
            }
        }
    }

    /// A change is not made: its blocks are free.
    pub fn drop_change(&mut self, head: HeadFields)
        requires table { IsTable self.old }
        requires chain { head.removal ≡ false
            → AreDataIn self.old.blocks.size (walk self.old.blocks.next.items head.first (blocks.blocks_of head.size)) }
        ensures table { IsTable self.new }
        ensures slots { self.new.heads.slots ≡ self.old.heads.slots }
        ensures index { self.new.heads.index ≡ self.old.heads.index }
        ensures closing { (k : ℕ) → is_member self.new.heads.closing k
            ≡ (is_member self.old.heads.lone k || is_member self.old.heads.closing k) }
        ensures lone { (k : ℕ) → is_member self.new.heads.lone k ≡ false }
        ensures free { (k : ℕ) → is_member self.new.blocks.free k
            ≡ (has k (blocks_under self.old.blocks (if head.removal then Option.None else Option.Some head))
            || is_member self.old.blocks.free k) }
        ensures needed { self.new.blocks.needed ≡ self.old.blocks.needed }
        ensures next { self.new.blocks.next ≡ self.old.blocks.next }
        ensures size { self.new.blocks.size ≡ self.old.blocks.size }
    {
        if !head.removal {
            self.blocks.free_chain(head.size, head.first);
        }
        self.heads.end_job();
    }
}
