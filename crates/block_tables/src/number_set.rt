// A set of numbers below a bound, in memory of a fixed size.
ghost use Rattle.std.specs.Prelude.{◌≡◌, ◌<◌, ◌≤◌, ◌^◌, ◌+◌, ◌*◌, ◌==◌, ◌||◌, ◌&&◌, not, ℕ, length, replicate, slice_index};
ghost use Rattle.std.specs.Prelude.{slice_range, IfOk, Bool};
ghost use Rattle.block_tables.specs.Members.{is_member, IsFirstOf};

use std::alloc::{AllocError, Global};
use std::marker::Model;

/// How many numbers in a row are a group.
const GROUP: usize = 64;

/// A set of numbers below a bound: a byte for each number, and for each group of them.
#[derive(Drop)]
pub struct NumberSet {
    // of each number 1 where it is a member, else 0
    members: Vec<u8>,
    // of each group 1 where one of its numbers is a member, else 0
    groups: Vec<u8>,
}

impl Model for NumberSet {
    ghost use Rattle.std.specs.Prelude.{◌≡◌, ◌<◌, ◌≤◌, ◌^◌, ◌/◌, ◌+◌, ◌*◌, ℕ, List, length, slice_index, slice_range};
    ghost use Rattle.block_tables.specs.Greatest.{peak};

    ghost Value = { List ℕ };

    ghost view = { λ s. s.members.items };

    ghost invariant = { λ s. (length s.groups.items ≡ (length s.members.items + 63) / 64)
        × ((g : ℕ) → g < length s.groups.items → slice_index s.groups.items g ≡ peak (slice_range s.members.items (g * 64) (g * 64 + 64)))
        × (peak s.members.items ≤ 1)
        × (length s.members.items < 2 ^ 32) };
}

/// The first place whose mark is not 0.
fn first_marked(marks: &[u8]) -> Option<usize>
    ensures { IsFirstOf marks.now result }
{
    marks.iter().position(|mark| *mark > 0)
}

/// Where in a group its first member stands.
fn first_in_group(members: &[u8], group: usize) -> Option<usize>
    requires { group * 64 < length members.now }
    ensures { IsFirstOf (slice_range members.now (group * 64) (group * 64 + 64)) result }
{
    let from = group * GROUP;
    let to = (from + GROUP).min(members.len());
    first_marked(&members[from..to])
}

impl NumberSet {
    /// A set without members.
    pub fn new(alloc: Global, bound: u32) -> Result<NumberSet, AllocError>
        ensures { IfOk result (λ s. s ≡ replicate bound 0) }
    {
        let count = bound as usize;
        Ok(NumberSet {
            members: vec![in alloc; 0u8; count]?,
            groups: vec![in alloc; 0u8; count.div_ceil(GROUP)]?,
        })
    }

    /// Whether a number is a member.
    pub fn contains(&self, number: u32) -> bool
        requires { number < length self.now }
        ensures { result ≡ is_member self.now number }
    {
        self.members[number as usize] > 0
    }

    /// Takes a number in.
    pub fn insert(&mut self, number: u32)
        requires { number < length self.old }
        ensures long { length self.new ≡ length self.old }
        ensures members { (k : ℕ) → is_member self.new k ≡ (k == number || is_member self.old k) }
    {
        let number = number as usize;
        self.members[number] = 1;
        self.groups[number / GROUP] = 1;
    }

    /// Takes a number out.
    pub fn remove(&mut self, number: u32)
        requires { number < length self.old }
        ensures long { length self.new ≡ length self.old }
        ensures members { (k : ℕ) → is_member self.new k ≡ (not (k == number) && is_member self.old k) }
    {
        let number = number as usize;
        let group = number / GROUP;
        self.members[number] = 0;
        let is_left = first_in_group(&self.members, group).is_some();
        self.groups[group] = u8::from(is_left);
    }

    /// The least member.
    pub fn first(&self) -> Option<u32>
        ensures { IsFirstOf self.now result }
    {
        let group = first_marked(&self.groups)?;
        let place = first_in_group(&self.members, group)?;
        Some((group * GROUP + place) as u32)
    }
}
