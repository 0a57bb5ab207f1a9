// Numbers by place, whose greatest is found without a look at each of them.
ghost use Rattle.std.specs.Prelude.{◌≡◌, ◌<◌, ◌≤◌, ◌^◌, length, replicate, slice_index, slice_set, IfOk};
ghost use Rattle.block_tables.specs.Greatest.{peak};

use std::alloc::{AllocError, Global};
use std::marker::Model;

/// How many places have one peak.
const GROUP: usize = 64;

/// Numbers by place: of each group of places it has the greatest.
#[derive(Drop)]
pub struct Peaks {
    values: Vec<u64>,
    groups: Vec<u64>,
}

impl Model for Peaks {
    ghost use Rattle.std.specs.Prelude.{◌≡◌, ◌<◌, ◌/◌, ◌+◌, ◌*◌, ℕ, List, length, slice_index, slice_range};
    ghost use Rattle.block_tables.specs.Greatest.{peak};

    ghost Value = { List ℕ };

    ghost view = { λ p. p.values.items };

    ghost invariant = { λ p. (length p.groups.items ≡ (length p.values.items + 63) / 64)
        × ((g : ℕ) → g < length p.groups.items → slice_index p.groups.items g ≡ peak (slice_range p.values.items (g * 64) (g * 64 + 64))) };
}

/// The greatest of these numbers, or 0.
fn greatest_of(values: &[u64]) -> u64
    ensures { result ≡ peak values.now }
{
    let mut greatest = 0;
    for value in values {
        if *value > greatest {
            greatest = *value;
        }
    }
    greatest
}

impl Peaks {
    /// So many places, each with 0.
    pub fn new(alloc: Global, count: usize) -> Result<Peaks, AllocError>
        requires { count < 2 ^ 32 }
        ensures { IfOk result (λ p. p ≡ replicate count 0) }
    {
        Ok(Peaks {
            values: vec![in alloc; 0u64; count]?,
            groups: vec![in alloc; 0u64; count.div_ceil(GROUP)]?,
        })
    }

    /// Sets the number at a place.
    pub fn set(&mut self, place: usize, value: u64)
        requires { place < length self.old }
        ensures { self.new ≡ slice_set self.old place value }
    {
        let group = place / GROUP;
        let before = self.values[place];
        self.values[place] = value;
        // Only where the greatest of a group is made less may another take its place: then alone the group is looked at again.
        if value >= self.groups[group] {
            self.groups[group] = value;
        } else if before == self.groups[group] {
            let from = group * GROUP;
            let to = (from + GROUP).min(self.values.len());
            self.groups[group] = greatest_of(&self.values[from..to]);
        }
    }

    /// The greatest of all numbers, or 0 where there is none.
    pub fn greatest(&self) -> u64
        ensures { result ≡ peak self.now }
    {
        greatest_of(&self.groups)
    }
}
