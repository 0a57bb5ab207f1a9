//! The monitors and the conditions.
ghost use Rattle.std.specs.Prelude.{◌≡◌, ◌<◌, ◌≤◌, ◌+◌, ◌-◌, ◌++◌, ◌∷◌, [], ℕ, List, length, map, None, Some, IfOk, IsTrue, ◌↔◌, slice_get};
ghost use Rattle.std.specs.Prelude.{vec_len};
ghost use Rattle.std.specs.Option.{option_map};
ghost use Rattle.eden_model.specs.Crew.{left, locked, queued_at, leave_held, is_held_by, is_free, free_monitors, quiet_at};
ghost use Rattle.eden_model.specs.Crew as crew;
ghost use Rattle.eden_model.specs.Map.{first, rest};
ghost use Rattle.coordinator.specs.Fields.{EntryRoom};
ghost use Rattle.coordinator.specs.View.{crew_of, monitor_of, condition_of};

use crate::process_queue::ProcessQueue;
use crate::slots::{Slot, Waits, set_slots};
use std::alloc::{AllocError, Global};

/// A monitor: its holder, and the processes that wait to enter, in order of coming.
#[derive(Drop)]
pub struct Monitor {
    pub holder: Option<u8>,
    pub entering: ProcessQueue,
}

/// A condition: its monitor, and the processes that wait on it, the longest waiter first.
#[derive(Drop)]
pub struct Condition {
    pub monitor: u8,
    pub waiters: ProcessQueue,
}

/// Monitors that nobody holds.
pub fn new_monitors(alloc: Global, count: u8) -> Result<Vec<Monitor>, AllocError>
    ensures { IfOk result (λ v. map monitor_of v.items ≡ free_monitors count) }
{
    let mut monitors = Vec::with_capacity(alloc, count as usize)?;
    for _i in 0..count {
        monitors.push_reserved(Monitor {
            holder: None,
            entering: ProcessQueue::new(),
        });
    }
    Ok(monitors)
}

/// Conditions of these monitors, on which nobody waits.
pub fn new_conditions(alloc: Global, monitors: &[u8]) -> Result<Vec<Condition>, AllocError>
    ensures { IfOk result (λ v. map condition_of v.items ≡ map quiet_at monitors.now) }
{
    let mut conditions = Vec::with_capacity(alloc, monitors.len())?;
    for monitor in monitors {
        conditions.push_reserved(Condition {
            monitor: *monitor,
            waiters: ProcessQueue::new(),
        });
    }
    Ok(conditions)
}

impl Monitor {
    /// Whether the process holds the monitor.
    fn is_held_by(&self, process: u8) -> bool
        ensures { result ≡ is_held_by process self.now.holder }
    {
        match self.holder {
            Some(holder) => holder == process,
            None => false,
        }
    }

    /// The head of the entry queue, if there is one, is the holder from now on.
    fn pass(&mut self) -> Option<u8>
        ensures next { result ≡ first self.old.entering }
        ensures monitor { self.new ≡ record { holder = first self.old.entering; entering = rest self.old.entering } }
    {
        let next = self.entering.pop();
        self.holder = next;
        next
    }
}

/// Whether the process holds the monitor at a place.
pub fn is_held(monitors: &[Monitor], process: u8, place: usize) -> bool
    ensures { IsTrue result ↔ (option_map (λ it. it.holder) (slice_get (map monitor_of monitors.now) place) ≡ Some (Some process)) }
{
    match monitors.get(place) {
        Some(monitor) => monitor.is_held_by(process),
        None => false,
    }
}

/// The monitor passes to the process that has waited longest.
pub fn pass_on(slots: &mut Vec<Slot>, monitors: &mut Vec<Monitor>, monitor: u8)
    requires from { 1 ≤ monitor }
    requires to { monitor ≤ length monitors.old.items }
    ensures crew { (ls : List ℕ) (cs : List crew.Condition) → crew_of ls cs slots.new.items monitors.new.items
        ≡ left monitor (crew_of ls cs slots.old.items monitors.old.items) }
    ensures slots { length slots.new.items ≡ length slots.old.items }
    ensures monitors { length monitors.new.items ≡ length monitors.old.items }
{
    let entered = &mut monitors[(monitor - 1) as usize];
    if let Some(next) = entered.pass() {
        set_slots(slots, next, Waits::Nothing);
    }
}

/// The process goes to the back of the monitor's entry queue.
pub fn join(slots: &mut Vec<Slot>, monitors: &mut Vec<Monitor>, process: u8, monitor: u8)
    requires from { 1 ≤ monitor }
    requires to { monitor ≤ length monitors.old.items }
    requires room { EntryRoom monitors.old.items (monitor - 1) }
    ensures crew { (ls : List ℕ) (cs : List crew.Condition) → crew_of ls cs slots.new.items monitors.new.items
        ≡ queued_at (Some process) monitor (crew_of ls cs slots.old.items monitors.old.items) }
    ensures slots { length slots.new.items ≡ length slots.old.items }
    ensures monitors { length monitors.new.items ≡ length monitors.old.items }
{
    let entered = &mut monitors[(monitor - 1) as usize];
    entered.entering.push(process);
    set_slots(slots, process, Waits::Entry { monitor });
}

/// The process holds the monitor if it is free; else it goes to the back of the entry queue.
pub fn admit(slots: &mut Vec<Slot>, monitors: &mut Vec<Monitor>, process: u8, monitor: u8) -> bool
    requires from { 1 ≤ monitor }
    requires to { monitor ≤ length monitors.old.items }
    requires room { EntryRoom monitors.old.items (monitor - 1) }
    ensures held { (ls : List ℕ) (cs : List crew.Condition) → result ≡ is_free (crew_of ls cs slots.old.items monitors.old.items) monitor }
    ensures crew { (ls : List ℕ) (cs : List crew.Condition) → crew_of ls cs slots.new.items monitors.new.items
        ≡ locked process monitor (crew_of ls cs slots.old.items monitors.old.items) }
    ensures slots { length slots.new.items ≡ length slots.old.items }
    ensures monitors { length monitors.new.items ≡ length monitors.old.items }
{
    let place = (monitor - 1) as usize;
    if monitors[place].holder.is_none() {
        let entered = &mut monitors[place];
        entered.holder = Some(process);
        true
    } else {
        join(slots, monitors, process, monitor);
        false
    }
}

/// The monitors that the process holds pass on.
pub fn pass_on_all(slots: &mut Vec<Slot>, monitors: &mut Vec<Monitor>, process: u8)
    requires { length monitors.old.items ≤ 8 }
    ensures crew { (ls : List ℕ) (cs : List crew.Condition) → crew_of ls cs slots.new.items monitors.new.items
        ≡ leave_held process (length monitors.old.items) (crew_of ls cs slots.old.items monitors.old.items) }
    ensures slots { length slots.new.items ≡ length slots.old.items }
    ensures monitors { length monitors.new.items ≡ length monitors.old.items }
{
    for i in 0..monitors.len() as u8 {
        if monitors[i as usize].is_held_by(process) {
            pass_on(slots, monitors, i + 1);
        }
    }
}
