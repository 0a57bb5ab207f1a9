// The heads of a disk in memory: what stands under each number, and of each uid the head that counts.
ghost use Rattle.std.specs.Prelude.{◌≡◌, ◌≤◌, ◌<◌, ◌+◌, ◌==◌, ◌&&◌, ◌||◌, not, ℕ, false, true, length, map, replicate, slice_index};
ghost use Rattle.std.specs.Prelude.{if◌then◌else◌};
ghost use Rattle.std.specs.Prelude.{slice_set, IsSome, IfOk, IfSome, OnOk, Option, is_some};
ghost use Rattle.std.specs.BTreeMap as tree;
ghost use Rattle.capability.specs.Uids.{uid_cmp};
ghost use Rattle.passive_store.specs.LogState.{is_eject};
ghost use Rattle.block_tables.specs.Greatest.{peak};
ghost use Rattle.block_tables.specs.Members.{is_member, IsFirstOf};
ghost use Rattle.block_tables.specs.HeadState.{AreHeads, closed_slot, entry_at, is_open, is_late, outdated, is_it, is_lone, kept_slot};
ghost use Rattle.block_tables.specs.HeadState.{slot_at, one_if_some, closed_entry, lone_in};

use crate::heads::HeadFields;
use crate::index::{IndexEntry, find_entry, make_entry, set_entry};
use crate::number_set::NumberSet;
use crate::peaks::Peaks;
use capability::Uid;
use std::alloc::{AllocError, Global};
use std::collections::BTreeMap;

/// The heads of a disk, in memory that does not grow but for the entries of uids.
#[derive(Drop)]
pub struct HeadTable {
    /// Of each uid the head that counts.
    pub index: BTreeMap<Uid, IndexEntry>,
    /// By its number what an open head says; where none is open the sequence is 0.
    pub slots: Vec<HeadFields>,
    /// By the number of a head its sequence.
    pub sequences: Peaks,
    /// The heads that are closed.
    pub free: NumberSet,
    /// The heads that the next change closes.
    pub closing: NumberSet,
    /// The heads that join those when this change has ended.
    pub lone: NumberSet,
}

impl HeadTable {
    /// The heads of a disk with so many, all of them closed.
    pub fn new(alloc: Global, count: u32) -> Result<HeadTable, AllocError>
        requires { count ≤ 65536 }
        ensures heads { IfOk result AreHeads }
        ensures closed { IfOk result (λ h. h.slots.items ≡ replicate count closed_slot) }
        ensures none { IfOk result (λ h. h.closing ≡ replicate count 0) }
        ensures none_lone { IfOk result (λ h. h.lone ≡ replicate count 0) }
    {
        let mut free = NumberSet::new(alloc, count)?;
        for number in 0..count {
            free.insert(number);
        }
        Ok(HeadTable {
            index: BTreeMap::new(alloc),
            slots: vec![in alloc; closed_slot(); count as usize]?,
            sequences: Peaks::new(alloc, count as usize)?,
            free,
            closing: NumberSet::new(alloc, count)?,
            lone: NumberSet::new(alloc, count)?,
        })
    }

    /// Makes an empty entry for a uid that has none.
    pub fn make_entry(&mut self, uid: Uid) -> Result<(), AllocError>
        requires { AreHeads self.old }
        ensures heads { AreHeads self.new }
        ensures entry { OnOk result (IsSome (tree.get uid_cmp self.new.index uid)) }
        ensures entries { (q : _) → entry_at self.new.index q ≡ entry_at self.old.index q }
        ensures keys { (q : _) → IsSome (tree.get uid_cmp self.old.index q) → IsSome (tree.get uid_cmp self.new.index q) }
        ensures slots { self.new.slots ≡ self.old.slots }
        ensures closing { self.new.closing ≡ self.old.closing }
        ensures lone { self.new.lone ≡ self.old.lone }
    {
        make_entry(&mut self.index, uid)
    }

    /// The value that is kept under a uid, as its head says it.
    pub fn value(&self, uid: Uid) -> Option<HeadFields>
        requires { AreHeads self.now }
        ensures { result ≡ kept_slot self.now.slots.items (entry_at self.now.index uid).latest }
    {
        let number = find_entry(&self.index, uid).latest?;
        let slot = self.slots[number as usize];
        if slot.removal { None } else { Some(slot) }
    }

    /// Whether an entry has a head that keeps a value, and its uid is that of an Eject of the node.
    pub fn keeps_eject(&self, uid: Uid, entry: IndexEntry, node: u8) -> bool
        requires { IfSome entry.latest (λ n. n < length self.now.slots.items) }
        ensures { result ≡ (is_some (kept_slot self.now.slots.items entry.latest) && is_eject node uid) }
    {
        if uid.node != node || uid.epoch == 0 || uid.serial == 0 {
            return false;
        }
        match entry.latest {
            Some(number) => !self.slots[number as usize].removal,
            None => false,
        }
    }

    /// What stands under a number.
    pub fn slot(&self, number: u32) -> HeadFields
        requires { number < length self.now.slots.items }
        ensures { result ≡ slot_at self.now.slots.items number }
    {
        self.slots[number as usize]
    }

    /// The greatest sequence.
    pub fn greatest(&self) -> u64
        requires { AreHeads self.now }
        ensures { result ≡ peak (map (λ slot. slot.sequence) self.now.slots.items) }
    {
        self.sequences.greatest()
    }

    /// The free head that comes first.
    pub fn free_head(&self) -> Option<u32>
        requires { AreHeads self.now }
        ensures { IsFirstOf self.now.free result }
    {
        self.free.first()
    }

    /// The value of a head that counts.
    pub fn value_of_head(&self, number: u32) -> Option<HeadFields>
        requires heads { AreHeads self.now }
        requires number { number < length self.now.slots.items }
        ensures { let slot = slot_at self.now.slots.items number in
            result ≡ (if is_open slot && is_it number (entry_at self.now.index slot.uid).latest && not slot.removal
            then Option.Some slot else Option.None) }
    {
        let slot = &self.slots[number as usize];
        if slot.sequence == 0 || slot.removal {
            return None;
        }
        match find_entry(&self.index, slot.uid).latest {
            Some(latest) if latest == number => Some(*slot),
            _ => None,
        }
    }

    /// Whether a head is a removal that is the only open head of its uid.
    pub fn is_lone(&self, number: u32) -> bool
        requires heads { AreHeads self.now }
        requires number { number < length self.now.slots.items }
        ensures { result ≡ is_lone self.now.slots.items number (entry_at self.now.index (slot_at self.now.slots.items number).uid) }
    {
        let slot = &self.slots[number as usize];
        if slot.sequence == 0 || !slot.removal {
            return false;
        }
        let entry = find_entry(&self.index, slot.uid);
        match entry.latest {
            Some(latest) => latest == number && entry.others == 0,
            None => false,
        }
    }

    /// Counts a new open head. It answers the head of its uid that counted before, where another one counts now.
    pub fn count_head(&mut self, head: HeadFields) -> Option<u32>
        requires heads { AreHeads self.old }
        requires number { head.number < length self.old.slots.items }
        requires closed { is_open (slot_at self.old.slots.items head.number) ≡ false }
        requires opened { is_open head ≡ true }
        requires entry { IsSome (tree.get uid_cmp self.old.index head.uid) }
        ensures heads { AreHeads self.new }
        ensures slots { self.new.slots.items ≡ slice_set self.old.slots.items head.number head }
        ensures before { let latest = (entry_at self.old.index head.uid).latest in
            result ≡ (if is_late self.old.slots.items head latest then latest else Option.None) }
        ensures closing { let old = outdated self.old.slots.items head (entry_at self.old.index head.uid).latest in
            (k : ℕ) → is_member self.new.closing k ≡ (is_it k old || is_member self.old.closing k) }
        ensures lone { self.new.lone ≡ self.old.lone }
        ensures keys { (q : _) → IsSome (tree.get uid_cmp self.old.index q) → IsSome (tree.get uid_cmp self.new.index q) }
    {
        let entry = find_entry(&self.index, head.uid);
        let late = self.is_late(head, entry.latest);
        let old = self.outdated(head, entry.latest);
        self.close_later(old);
        self.slots[head.number as usize] = head;
        self.sequences.set(head.number as usize, head.sequence);
        self.free.remove(head.number);
        let joined = joined_entry(entry, late, head.number);
        set_entry(&mut self.index, head.uid, joined);
        if late { entry.latest } else { None }
    }

    /// Which head of its uid does not count once a new one is open.
    fn outdated(&self, head: HeadFields, latest: Option<u32>) -> Option<u32>
        requires heads { AreHeads self.now }
        requires latest { IfSome latest (λ n. n < length self.now.slots.items) }
        ensures { result ≡ outdated self.now.slots.items head latest }
    {
        let number = latest?;
        if head.sequence < self.slots[number as usize].sequence {
            Some(head.number)
        } else {
            Some(number)
        }
    }

    /// A head joins those that the next change closes.
    pub fn close_later(&mut self, number: Option<u32>)
        requires heads { AreHeads self.old }
        requires number { IfSome number (λ n. n < length self.old.slots.items) }
        ensures heads { AreHeads self.new }
        ensures closing { (k : ℕ) → is_member self.new.closing k ≡ (is_it k number || is_member self.old.closing k) }
        ensures index { self.new.index ≡ self.old.index }
        ensures slots { self.new.slots ≡ self.old.slots }
        ensures sequences { self.new.sequences ≡ self.old.sequences }
        ensures free { self.new.free ≡ self.old.free }
        ensures lone { self.new.lone ≡ self.old.lone }
    {
        if let Some(number) = number {
            self.closing.insert(number);
        }
    }

    /// A head is closed, which does not count or is the only open one of its uid. A removal that then stands alone is closed
    /// by the next change.
    pub fn close_head(&mut self, number: u32)
        requires heads { AreHeads self.old }
        requires number { number < length self.old.slots.items }
        requires opened { is_open (slot_at self.old.slots.items number) ≡ true }
        requires alone { let entry = entry_at self.old.index (slot_at self.old.slots.items number).uid in
            is_it number entry.latest ≡ true → entry.others ≡ 0 }
        ensures heads { AreHeads self.new }
        ensures slots { self.new.slots.items ≡ slice_set self.old.slots.items number closed_slot }
        ensures closing { (k : ℕ) → is_member self.new.closing k ≡ (not (k == number) && is_member self.old.closing k) }
        ensures lone { let entry = entry_at self.old.index (slot_at self.old.slots.items number).uid in
            (k : ℕ) → is_member self.new.lone k ≡
            (is_it k (lone_in self.old.slots.items (closed_entry number entry)) || is_member self.old.lone k) }
        ensures keys { (q : _) → IsSome (tree.get uid_cmp self.old.index q) → IsSome (tree.get uid_cmp self.new.index q) }
    {
        let uid = self.slot(number).uid;
        let entry = find_entry(&self.index, uid);
        let closed = closed_entry(entry, number);
        let lone = self.lone_in(closed);
        self.close_at_end(lone);
        self.slots[number as usize] = closed_slot();
        self.sequences.set(number as usize, 0);
        self.free.insert(number);
        self.closing.remove(number);
        set_entry(&mut self.index, uid, closed);
    }

    /// The removal that is the only open head of its uid, by the entry of that.
    fn lone_in(&self, entry: IndexEntry) -> Option<u32>
        requires heads { AreHeads self.now }
        requires latest { IfSome entry.latest (λ n. n < length self.now.slots.items) }
        ensures lone { result ≡ lone_in self.now.slots.items entry }
        ensures number { IfSome result (λ n. n < length self.now.slots.items) }
    {
        let number = entry.latest?;
        if self.slots[number as usize].removal && entry.others == 0 {
            Some(number)
        } else {
            None
        }
    }

    /// A head joins those that are to be closed once the job has ended.
    fn close_at_end(&mut self, number: Option<u32>)
        requires heads { AreHeads self.old }
        requires number { IfSome number (λ n. n < length self.old.slots.items) }
        ensures heads { AreHeads self.new }
        ensures lone { (k : ℕ) → is_member self.new.lone k ≡ (is_it k number || is_member self.old.lone k) }
        ensures index { self.new.index ≡ self.old.index }
        ensures slots { self.new.slots ≡ self.old.slots }
        ensures sequences { self.new.sequences ≡ self.old.sequences }
        ensures free { self.new.free ≡ self.old.free }
        ensures closing { self.new.closing ≡ self.old.closing }
    {
        if let Some(number) = number {
            self.lone.insert(number);
        }
    }

    /// A job has ended: the removals that came to stand alone are closed by the next one.
    pub fn end_job(&mut self)
        requires { AreHeads self.old }
        ensures heads { AreHeads self.new }
        ensures closing { (k : ℕ) → is_member self.new.closing k ≡ (is_member self.old.lone k || is_member self.old.closing k) }
        ensures lone { (k : ℕ) → is_member self.new.lone k ≡ false }
        ensures index { self.new.index ≡ self.old.index }
        ensures slots { self.new.slots ≡ self.old.slots }
    {
        while let Some(number) = self.lone.first() {
            self.lone.remove(number);
            self.closing.insert(number);
        }
    }

    /// The heads of removals that stand alone join those that the next change closes.
    pub fn close_lone_removals(&mut self)
        requires { AreHeads self.old }
        ensures heads { AreHeads self.new }
        ensures closing { (k : ℕ) → is_member self.new.closing k ≡
            (is_lone self.old.slots.items k (entry_at self.old.index (slot_at self.old.slots.items k).uid)
            || is_member self.old.closing k) }
        ensures lone { self.new.lone ≡ self.old.lone }
        ensures index { self.new.index ≡ self.old.index }
        ensures slots { self.new.slots ≡ self.old.slots }
    {
        for number in 0..self.slots.len() as u32 {
            if self.is_lone(number) {
                self.closing.insert(number);
            }
        }
    }

    /// The head that is to be closed next.
    pub fn next_to_close(&self) -> Option<u32>
        requires { AreHeads self.now }
        ensures { IsFirstOf self.now.closing result }
    {
        self.closing.first()
    }

    /// Whether a head is later than the one of its uid that counts.
    fn is_late(&self, head: HeadFields, latest: Option<u32>) -> bool
        requires heads { AreHeads self.now }
        requires latest { IfSome latest (λ n. n < length self.now.slots.items) }
        ensures { result ≡ is_late self.now.slots.items head latest }
    {
        match latest {
            Some(number) => self.slots[number as usize].sequence <= head.sequence,
            None => true,
        }
    }
}

/// The entry of a uid once a new head of it is open, which is later than the one that counted or not.
fn joined_entry(entry: IndexEntry, late: bool, number: u32) -> IndexEntry
    requires { entry.others ≤ 65536 }
    ensures { result ≡ record {
      latest = if late then Option.Some number else entry.latest;
      others = entry.others + one_if_some entry.latest;
    } }
{
    let others = match entry.latest {
        Some(_) => entry.others + 1,
        None => entry.others,
    };
    let latest = if late { Some(number) } else { entry.latest };
    IndexEntry { latest, others }
}

/// What stands under a number where no head is open.
fn closed_slot() -> HeadFields
    ensures { result ≡ closed_slot }
{
    let nobody = Uid {
        node: 0,
        epoch: 0,
        serial: 0,
    };
    HeadFields {
        number: 0,
        uid: nobody,
        removal: false,
        sequence: 0,
        size: 0,
        first: 0,
    }
}

/// The entry of a uid once a head of it is closed.
fn closed_entry(entry: IndexEntry, number: u32) -> IndexEntry
    requires { is_it number entry.latest ≡ false → 1 ≤ entry.others }
    ensures { result ≡ closed_entry number entry }
{
    let is_latest = match entry.latest {
        Some(latest) => latest == number,
        None => false,
    };
    if is_latest {
        IndexEntry {
            latest: None,
            others: 0,
        }
    } else {
        IndexEntry {
            latest: entry.latest,
            others: entry.others - 1,
        }
    }
}
