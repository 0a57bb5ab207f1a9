//! What the processes of an Eject are to do.
ghost use Rattle.std.specs.Prelude.{◌≡◌, ◌≤◌, ◌<◌, ◌==◌, ℕ, not, true, false, IfOk, OnOk, OnErr, length, slice_index_or, []};
ghost use Rattle.std.specs.List.{list_any};
ghost use Rattle.std.specs.Ordering.{nat_cmp};
ghost use Rattle.eden_model.specs.Map.{changed_at, put_at, each_value, where_key};
ghost use Rattle.epl_syntax.specs.Edentype.{Edentype};
ghost use Rattle.edentypes.specs.declared.Kind.{Kind};
ghost use Rattle.active_part.specs.Fitting.{RestsFit};
ghost use Rattle.active_part.specs.Places.{Ascend, StandsAt, is_number_in, keys};
ghost use Rattle.active_part.specs.View.{task_of};

use crate::Doing;
use epl_syntax::Answer;
use std::alloc::{AllocError, Global};

/// What the processes of an Eject are to do, in ascending order of their numbers. Room that a process left is used again.
#[derive(Drop)]
pub struct TaskList {
    pub entries: Vec<(u8, Doing)>,
}

/// How many of the first tasks are of lesser numbers.
fn place_of(entries: &[(u8, Doing)], process: u8) -> usize
    ensures within { result ≤ length entries.now }
    ensures before { (k : ℕ) (d : ℕ × Doing) → k < result → (slice_index_or entries.now k d).0 < process }
    ensures behind { (d : ℕ × Doing) → result < length entries.now → process ≤ (slice_index_or entries.now result d).0 }
{
    for (place, entry) in entries.iter().enumerate() {
        if process <= entry.0 {
            return place;
        }
    }
    entries.len()
}

impl TaskList {
    /// No tasks, with room for this many.
    pub fn with_capacity(alloc: Global, count: usize) -> Result<TaskList, AllocError>
        ensures { IfOk result (λ tasks. tasks.entries.items ≡ []) }
    {
        let entries = Vec::with_capacity(alloc, count)?;
        Ok(TaskList { entries })
    }

    /// The place of the process's task.
    pub fn find(&self, process: u8) -> usize
        requires ascend { Ascend 0 (keys self.now.entries.items) }
        requires there { is_number_in process (keys self.now.entries.items) ≡ true }
        ensures { StandsAt process result self.now.entries.items }
    {
        place_of(&self.entries, process)
    }

    /// The next turn of the process is told this.
    pub fn answer(&mut self, process: u8, answer: Answer)
        requires ascend { Ascend 0 (keys self.old.entries.items) }
        requires there { is_number_in process (keys self.old.entries.items) ≡ true }
        ensures after { (t : Edentype) → each_value (task_of t) self.new.entries.items
            ≡ changed_at nat_cmp process (λ x. record x { answer = answer }) (each_value (task_of t) self.old.entries.items) }
        ensures numbers { keys self.new.entries.items ≡ keys self.old.entries.items }
        ensures fit { (k : Kind) → RestsFit k self.old.entries.items → RestsFit k self.new.entries.items }
    {
        let place = self.find(process);
        self.entries[place].1.answer = answer;
    }

    /// A process that had nothing to do has this to do. Without it the others have what they had.
    pub fn add(&mut self, process: u8, doing: Doing) -> Result<(), AllocError>
        requires { is_number_in process (keys self.old.entries.items) ≡ false }
        ensures after { OnOk result ((t : Edentype) → each_value (task_of t) self.new.entries.items
            ≡ put_at nat_cmp process (task_of t doing) (each_value (task_of t) self.old.entries.items)) }
        ensures others { OnOk result ((t : Edentype)
            → where_key nat_cmp (λ k. not (k == process)) (each_value (task_of t) self.new.entries.items)
            ≡ each_value (task_of t) self.old.entries.items) }
        ensures unchanged { OnErr result (self.new.entries.items ≡ self.old.entries.items) }
    {
        self.entries.reserve_exact(1)?;
        let place = place_of(&self.entries, process);
        self.entries.insert(place, (process, doing))?;
        Ok(())
    }

    /// The process has nothing left to do.
    pub fn remove(&mut self, process: u8)
        ensures { (t : Edentype) → each_value (task_of t) self.new.entries.items
            ≡ where_key nat_cmp (λ k. not (k == process)) (each_value (task_of t) self.old.entries.items) }
    {
        self.entries.retain(|entry| entry.0 != process);
    }
}
