//! The processes, each with what it serves and what it waits for.
ghost use Rattle.std.specs.Prelude.{◌≡◌, ◌<◌, ◌≤◌, ◌+◌, ◌↔◌, ◌==◌, IsTrue, ℕ, false, map, filter_map, [], ◌++◌, option_to_list, not};
ghost use Rattle.std.specs.Prelude.{length, Some, OnSome, IfOk, OnOk, OnErr, List, slice_index, slice_index_or, count_by, vec_len};
ghost use Rattle.std.specs.List.{filter, find, list_any, insert};
ghost use Rattle.std.specs.Option.{option_map};
ghost use Rattle.eden_model.specs.Map.{put_at};
ghost use Rattle.std.specs.Ordering.{nat_cmp};
ghost use Rattle.eden_model.specs.Crew.{Monitor, Condition, waits_at, nothing, outside, least_number, is_taken, declared_from, startable};
ghost use Rattle.coordinator.specs.Fields.{slot_pair, with_slot, slot_serves, next_serving, started_slot, is_slot_past};
ghost use Rattle.coordinator.specs.Ready.{call_served, next_ready};
ghost use Rattle.coordinator.specs.View.{process_of, invocation_of};

use crate::queue::Queue;
use arrayvec::ArrayVec;
use std::alloc::{AllocError, Global};

/// What a process waits for.
#[derive(Clone, Copy)]
pub enum Waits {
    Nothing,
    Outside,
    Entry { monitor: u8 },
    Condition { condition: u8 },
}

#[derive(Clone, Copy)]
pub struct Serving {
    pub call: u32,
    pub class: u8,
}

#[derive(Clone, Copy)]
pub struct Slot {
    pub waits: Waits,
    pub number: u8,
    pub serves: Option<Serving>,
}

impl Slot {
    fn waiting(self, process: u8, waits: Waits) -> Slot
        ensures { result ≡ with_slot process waits self }
    {
        if self.number == process {
            Slot { waits, ..self }
        } else {
            self
        }
    }

    fn is_of(&self, class: u8) -> bool
        ensures { result ≡ slot_serves class self.now }
    {
        match self.serves {
            Some(serving) => serving.class == class,
            None => false,
        }
    }

    /// The call that it serves.
    fn call(&self) -> Option<u32>
        ensures { result ≡ option_map (λ s. s.call) self.now.serves }
    {
        match self.serves {
            Some(serving) => Some(serving.call),
            None => None,
        }
    }

    /// Whether its number is past this one, and it waits for nothing.
    fn is_past(&self, number: u8) -> bool
        ensures { result ≡ is_slot_past number self.now }
    {
        number < self.number && self.is_idle()
    }

    fn is_away(&self) -> bool
        ensures { IsTrue result ↔ (self.now.waits ≡ Waits.Outside) }
    {
        matches!(self.waits, Waits::Outside)
    }

    fn is_idle(&self) -> bool
        ensures { IsTrue result ↔ (self.now.waits ≡ Waits.Nothing) }
    {
        matches!(self.waits, Waits::Nothing)
    }
}

/// The declared processes, with room for no others.
pub fn declared_slots(alloc: Global, declared: u8) -> Result<Vec<Slot>, AllocError>
    requires { declared ≤ 8 }
    ensures { IfOk result (λ v. map process_of v.items ≡ declared_from 1 declared) }
{
    let mut slots = Vec::with_capacity(alloc, declared as usize)?;
    for number in 0..declared {
        slots.push_reserved(Slot {
            number: number + 1,
            serves: None,
            waits: Waits::Nothing,
        });
    }
    Ok(slots)
}

pub fn set_slots(slots: &mut Vec<Slot>, process: u8, waits: Waits)
    ensures { slots.new.items ≡ map (with_slot process waits) slots.old.items }
{
    for i in 0..slots.len() {
        let slot = slots[i];
        slots[i] = slot.waiting(process, waits);
    }
}

/// How many processes serve an invocation of the class.
fn served(slots: &[Slot], class: u8) -> usize
    ensures { result ≡ count_by (slot_serves class) slots.now }
{
    slots.iter().filter(|slot| slot.is_of(class)).count()
}

fn limit_of(limits: &[u8], class: u8) -> u8
    ensures { result ≡ slice_index limits.now class }
{
    match limits.get(class as usize) {
        Some(limit) => *limit,
        None => 0,
    }
}

fn may_start(slots: &[Slot], limits: &[u8], serving: Serving) -> bool
    ensures { result ≡ next_serving slots.now limits.now (invocation_of serving) }
{
    served(slots, serving.class) < limit_of(limits, serving.class) as usize
}

/// The earliest invocation that is below its class's limit.
fn first_to_start(slots: &[Slot], limits: &[u8], queued: &Queue) -> Option<Serving>
    ensures { option_map invocation_of result ≡ find (next_serving slots.now limits.now) queued.now }
{
    for place in 0..queued.len() {
        let serving = queued.at(place);
        if may_start(slots, limits, serving) {
            return Some(serving);
        }
    }
    None
}

/// The earliest invocation that may start, while fewer than sixteen processes exist.
pub fn next_to_start(slots: &[Slot], limits: &[u8], queued: &Queue) -> Option<Serving>
    ensures few { OnSome result (length slots.now < 16) }
    ensures found { (ms : List Monitor) (cs : List Condition) → option_map invocation_of result ≡ startable
        (record { limits = limits.now; processes = map process_of slots.now; monitors = ms; conditions = cs }) queued.now }
{
    if slots.len() < 16 {
        first_to_start(slots, limits, queued)
    } else {
        None
    }
}

fn has_number(slots: &[Slot], number: u8) -> bool
    ensures { result ≡ list_any (λ s. s.number == number) slots.now }
{
    slots.iter().any(|slot| slot.number == number)
}

/// The least number that no process has.
pub fn least_free(slots: &[Slot]) -> u8
    ensures { result ≡ least_number (map process_of slots.now) }
{
    for number in 1..17 {
        if !has_number(slots, number) {
            return number;
        }
    }
    17
}

/// How many processes have a number that is at most this one.
fn place_of(slots: &[Slot], number: u8) -> usize
    ensures within { result ≤ length slots.now }
    ensures before { (k : ℕ) (d : Slot) → k < result → (slice_index_or slots.now k d).number ≤ number }
    ensures behind { (d : Slot) → result < length slots.now → number < (slice_index_or slots.now result d).number }
{
    for (i, slot) in slots.iter().enumerate() {
        if number < slot.number {
            return i;
        }
    }
    slots.len()
}

/// A process that serves the invocation joins in the place of its number.
pub fn insert_slot(slots: &mut Vec<Slot>, number: u8, serving: Serving) -> Result<(), AllocError>
    requires { is_taken number (map process_of slots.old.items) ≡ false }
    ensures slots { OnOk result (map process_of slots.new.items
        ≡ put_at nat_cmp number (started_slot serving) (map process_of slots.old.items)) }
    ensures len { OnOk result (length slots.new.items ≡ length slots.old.items + 1) }
    ensures unchanged { OnErr result (slots.new.items ≡ slots.old.items) }
{
    let at = place_of(slots, number);
    let slot = Slot {
        number,
        serves: Some(serving),
        waits: Waits::Nothing,
    };
    slots.insert(at, slot)?;
    Ok(())
}

pub fn remove_slot(slots: &mut Vec<Slot>, process: u8)
    ensures { slots.new.items ≡ filter (λ s. not (s.number == process)) slots.old.items }
{
    slots.retain(|slot| slot.number != process);
}

fn slot_of(slots: &[Slot], process: u8) -> Option<Slot>
    ensures { result ≡ find (λ s. s.number == process) slots.now }
{
    slots.iter().copied().find(|slot| slot.number == process)
}

pub fn is_running(slots: &[Slot], process: u8) -> bool
    ensures { IsTrue result ↔ (waits_at process (map process_of slots.now) ≡ Some nothing) }
{
    match slot_of(slots, process) {
        Some(slot) => slot.is_idle(),
        None => false,
    }
}

/// Whether the process waits for a reply or for the store.
pub fn is_outside(slots: &[Slot], process: u8) -> bool
    ensures { IsTrue result ↔ (waits_at process (map process_of slots.now) ≡ Some outside) }
{
    match slot_of(slots, process) {
        Some(slot) => slot.is_away(),
        None => false,
    }
}

/// The call that the process serves.
pub fn call_of(slots: &[Slot], process: u8) -> Option<u32>
    ensures { result ≡ call_served process (map process_of slots.now) }
{
    match slot_of(slots, process) {
        Some(slot) => slot.call(),
        None => None,
    }
}

/// The first process past a number that waits for nothing.
pub fn next_past(slots: &[Slot], after: u8) -> Option<u8>
    ensures { result ≡ next_ready after (map process_of slots.now) }
{
    match first_past(slots, after) {
        Some(slot) => Some(slot.number),
        None => None,
    }
}

fn first_past(slots: &[Slot], after: u8) -> Option<Slot>
    ensures { result ≡ find (is_slot_past after) slots.now }
{
    slots.iter().copied().find(|slot| slot.is_past(after))
}

fn push_pair(pairs: &mut ArrayVec<(u8, u32), 16>, slot: Slot)
    requires { length pairs.old.items < 16 }
    ensures pairs { pairs.new.items ≡ pairs.old.items ++ option_to_list (slot_pair slot) }
    ensures few { length pairs.new.items ≤ length pairs.old.items + 1 }
{
    if let Some(serving) = slot.serves {
        pairs.push((slot.number, serving.call));
    }
}

/// The processes that serve a call, each with the call.
pub fn served_pairs(slots: &Vec<Slot>) -> ArrayVec<(u8, u32), 16>
    requires { length slots.now.items ≤ 16 }
    ensures { result.items ≡ filter_map slot_pair slots.now.items }
{
    let mut pairs = ArrayVec::new();
    for i in 0..slots.len() {
        let slot = slots[i];
        push_pair(&mut pairs, slot);
    }
    pairs
}
