// The blocks of a disk in memory: which of them are free, and which stands behind each on its chain.
ghost use Rattle.std.specs.Prelude.{◌≡◌, ◌≤◌, ◌<◌, ◌+◌, ◌-◌, ◌*◌, ◌/◌, ◌==◌, ◌&&◌, ◌||◌, not, [], ◌∷◌, ◌++◌, suc, ℕ, true};
ghost use Rattle.std.specs.Prelude.{false, length, take};
ghost use Rattle.std.specs.Prelude.{slice_index, slice_set, nat_le, IsTrue, IfOk, IfSome, Option, if◌then◌else◌};
ghost use Rattle.block_tables.specs.Blocks as blocks;
ghost use Rattle.block_tables.specs.Blocks.{data_count, has};
ghost use Rattle.block_tables.specs.Changes.{first_or_zero};
ghost use Rattle.block_tables.specs.Members.{is_member};
ghost use Rattle.block_tables.specs.BlockState.{AreBlocks, AreDataIn, walk, free_in};

use crate::heads::{DATA, blocks_of, is_data};
use crate::number_set::NumberSet;
use std::alloc::{AllocError, Global};

/// The blocks of a disk, in memory that does not grow.
#[derive(Drop)]
pub struct BlockTable {
    /// The size of the disk.
    pub size: u32,
    /// The blocks that are free.
    pub free: NumberSet,
    /// By the number of a block that is taken: the next one on its chain, or 0.
    pub next: Vec<u32>,
    /// How many blocks all values take that are kept.
    pub needed: u32,
}

impl BlockTable {
    /// The blocks of a disk of this size, all of them free.
    pub fn new(alloc: Global, size: u32) -> Result<BlockTable, AllocError>
        requires { blocks.is_block_size size ≡ true }
        ensures blocks { IfOk result AreBlocks }
        ensures size { IfOk result (λ t. t.size ≡ size) }
        ensures none { IfOk result (λ t. t.needed ≡ 0) }
        ensures free { IfOk result (λ t. (k : ℕ) → is_member t.free k ≡ blocks.is_data size k) }
    {
        let count = size / 1024;
        let mut free = NumberSet::new(alloc, count)?;
        for number in 0..count {
            if is_data(size, number) {
                free.insert(number);
            }
        }
        Ok(BlockTable {
            size,
            free,
            next: vec![in alloc; 0u32; count as usize]?,
            needed: 0,
        })
    }

    /// The blocks that the kept values leave.
    pub fn left(&self) -> u32
        requires { AreBlocks self.now }
        ensures { result ≡ data_count self.now.size - self.now.needed }
    {
        self.size / 1024 - 1 - self.size / 32_768 - self.needed
    }

    /// The length of the longest value that leaves one block free.
    pub fn room(&self) -> Option<u32>
        requires { AreBlocks self.now }
        ensures { let left = data_count self.now.size - self.now.needed in
            result ≡ (if nat_le 2 left then Option.Some (1022 * (left - 1)) else Option.None) }
    {
        let left = self.left();
        if left < 2 {
            None
        } else {
            Some(DATA * (left - 1))
        }
    }

    /// Takes a free block onto a chain. A block that is not free is left, and not taken.
    pub fn take_block(&mut self, block: u32) -> bool
        requires { AreBlocks self.old }
        ensures blocks { AreBlocks self.new }
        ensures taken { result ≡ is_member self.old.free block }
        ensures free { (k : ℕ) → is_member self.new.free k ≡ (not (k == block) && is_member self.old.free k) }
        ensures size { self.new.size ≡ self.old.size }
        ensures next { self.new.next ≡ self.old.next }
        ensures needed { self.new.needed ≡ self.old.needed }
    {
        if block >= self.size / 1024 || !self.free.contains(block) {
            return false;
        }
        self.free.remove(block);
        true
    }

    /// Says which block is behind one.
    pub fn link(&mut self, block: u32, next: u32)
        requires blocks { AreBlocks self.old }
        requires block { block < self.old.size / 1024 }
        requires short { next < 65536 }
        ensures blocks { AreBlocks self.new }
        ensures next { self.new.next.items ≡ slice_set self.old.next.items block next }
        ensures size { self.new.size ≡ self.old.size }
        ensures free { self.new.free ≡ self.old.free }
        ensures needed { self.new.needed ≡ self.old.needed }
    {
        self.next[block as usize] = next;
    }

    /// The block behind one.
    pub fn next(&self, block: u32) -> u32
        requires blocks { AreBlocks self.now }
        requires block { block < self.now.size / 1024 }
        ensures next { result ≡ slice_index self.now.next.items block }
        ensures short { result < 65536 }
    {
        self.next[block as usize]
    }

    /// A value whose chain was followed is kept.
    pub fn keep(&mut self, size: u32)
        requires blocks { AreBlocks self.old }
        requires fits { self.old.needed + blocks.blocks_of size ≤ data_count self.old.size }
        ensures blocks { AreBlocks self.new }
        ensures needed { self.new.needed ≡ self.old.needed + blocks.blocks_of size }
        ensures size { self.new.size ≡ self.old.size }
        ensures free { self.new.free ≡ self.old.free }
        ensures next { self.new.next ≡ self.old.next }
    {
        self.needed += blocks_of(size);
    }

    /// A value is not kept any more: its blocks are free.
    pub fn leave(&mut self, size: u32, first: u32)
        requires blocks { AreBlocks self.old }
        requires kept { blocks.blocks_of size ≤ self.old.needed }
        requires chain { AreDataIn self.old.size (walk self.old.next.items first (blocks.blocks_of size)) }
        ensures blocks { AreBlocks self.new }
        ensures needed { self.new.needed ≡ self.old.needed - blocks.blocks_of size }
        ensures free { (k : ℕ) → is_member self.new.free k
            ≡ (has k (walk self.old.next.items first (blocks.blocks_of size)) || is_member self.old.free k) }
        ensures size { self.new.size ≡ self.old.size }
        ensures next { self.new.next ≡ self.old.next }
    {
        self.free_chain(size, first);
        self.needed -= blocks_of(size);
    }

    /// The blocks of a value are free.
    pub fn free_chain(&mut self, size: u32, first: u32)
        requires blocks { AreBlocks self.old }
        requires chain { AreDataIn self.old.size (walk self.old.next.items first (blocks.blocks_of size)) }
        ensures blocks { AreBlocks self.new }
        ensures free { (k : ℕ) → is_member self.new.free k
            ≡ (has k (walk self.old.next.items first (blocks.blocks_of size)) || is_member self.old.free k) }
        ensures size { self.new.size ≡ self.old.size }
        ensures next { self.new.next ≡ self.old.next }
        ensures needed { self.new.needed ≡ self.old.needed }
    {
        let mut block = first;
        for _ in 0..blocks_of(size) {
            self.free.insert(block);
            block = self.next(block);
        }
    }

    /// Takes the free block that comes first, with none behind it.
    fn take_first(&mut self) -> Option<u32>
        requires { AreBlocks self.old }
        ensures blocks { AreBlocks self.new }
        ensures none { result ≡ Option.None → (self.new ≡ self.old) × (free_in self.old ≡ []) }
        ensures first { IfSome result (λ n. free_in self.old ≡ n ∷ free_in self.new) }
        ensures inside { IfSome result (λ n. (blocks.is_data self.old.size n ≡ true) × (is_member self.old.free n ≡ true)) }
        ensures next { IfSome result (λ n. self.new.next.items ≡ slice_set self.old.next.items n 0) }
        ensures free { IfSome result (λ n. (k : ℕ) → is_member self.new.free k ≡ (not (k == n) && is_member self.old.free k)) }
        ensures behind { IfSome result (λ n. (k : ℕ) → is_member self.new.free k ≡ true → n < k) }
        ensures size { self.new.size ≡ self.old.size }
        ensures needed { self.new.needed ≡ self.old.needed }
    {
        let block = self.free.first()?;
        self.free.remove(block);
        self.next[block as usize] = 0;
        Some(block)
    }

    /// Takes so many free blocks onto a chain, ascending, and answers the first. Behind the last one is none.
    pub fn take_chain(&mut self, count: u32) -> u32
        requires blocks { AreBlocks self.old }
        requires some { 1 ≤ count }
        ensures blocks { AreBlocks self.new }
        ensures first { result ≡ first_or_zero (take count (free_in self.old)) }
        ensures chain { let taken = take count (free_in self.old) in
            1 ≤ length taken → walk self.new.next.items result (suc (length taken)) ≡ taken ++ 0 ∷ [] }
        ensures free { (k : ℕ) → is_member self.new.free k ≡ (not (has k (take count (free_in self.old))) && is_member self.old.free k) }
        ensures others { (k : ℕ) → has k (take count (free_in self.old)) ≡ false
            → slice_index self.new.next.items k ≡ slice_index self.old.next.items k }
        ensures size { self.new.size ≡ self.old.size }
        ensures needed { self.new.needed ≡ self.old.needed }
    {
        let Some(first) = self.take_first() else {
            return 0;
        };
        let mut last = first;
        for _ in 1..count {
            let Some(block) = self.take_first() else {
                return first;
            };
            self.link(last, block);
            last = block;
        }
        first
    }
}
