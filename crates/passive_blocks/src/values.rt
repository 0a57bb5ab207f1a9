// The values of a disk of blocks, as bytes.
ghost use Rattle.std.specs.Prelude.{◌≡◌, ◌⊎◌, ◌≤◌, ◌<◌, ◌+◌, ◌-◌, ◌*◌, ◌++◌, length, take, drop, slice_range, IsTrue, OnOk, IfOk, IfErr};
ghost use Rattle.eden_disk.specs.Told.{contents};
ghost use Rattle.eden_disk.specs.Timed.{Timed};
ghost use Rattle.eden_disk.specs.Calls.{DeviceCalls, Obeyed, ReadTold, end_of};
ghost use Rattle.passive_store.specs.declared.store.StoreRefusal.TheVariants.{OutOfMemory};
ghost use Rattle.passive_store.specs.Kept.{Ran, IsDiskRefusal, end_of_store};
ghost use Rattle.block_tables.specs.Blocks as blocks;
ghost use Rattle.block_tables.specs.Blocks.{body_on};
ghost use Rattle.block_tables.specs.HeadSeen.{head_of};
ghost use Rattle.block_tables.specs.BlockState.{AreBlocks, AreDataIn, walk};
ghost use Rattle.passive_blocks.specs.StoreState.{chain_in};
ghost use Rattle.passive_blocks.specs.ValueState.{ReadsMade};

use block_tables::{BLOCK, BlockTable, DATA, HeadFields, blocks_of};
use eden_disk::{Disk, DiskRefusal};
use passive_store::StoreRefusal;
use std::alloc::Global;

/// Reads the bytes of a value on a block to their places.
fn read_part<D: Disk>(
    disk: &mut D,
    block: u32,
    bytes: &mut Vec<u8>,
    from: usize,
    to: usize,
) -> Result<(), DiskRefusal>
    requires power { IsTrue (D.counts disk.old).power }
    requires range { block * 1024 + 1024 ≤ (D.counts disk.old).size }
    requires few { block < 65536 }
    requires places { (from ≤ to) × (to ≤ from + 1022) × (to ≤ length bytes.old.items) }
    ensures counts { DeviceCalls 1 (D.counts disk.old) (D.counts disk.new) (end_of result) }
    ensures obeyed { IsTrue D.obeys → Obeyed (D.due disk.old) (D.due disk.new) (D.counts disk.old) (D.counts disk.new) (end_of result) }
    ensures timed { IsTrue D.tells → Timed (D.counts disk.old).clock (D.told disk.old) (D.counts disk.new).clock (D.told disk.new) }
    ensures told { IsTrue D.tells → ReadTold (D.counts disk.new).clock (D.told disk.old) (D.told disk.new) (end_of result) }
    ensures long { length bytes.new.items ≡ length bytes.old.items }
    ensures part { IsTrue D.tells
        → OnOk result (bytes.new.items ≡ take from bytes.old.items
        ++ (slice_range (contents (D.told disk.old)).now (block * 1024 + 2) (block * 1024 + 2 + (to - from)) ++ drop to bytes.old.items)) }
{
    disk.read(block * BLOCK + 2, &mut bytes[from..to])
}

/// Reads a value from its chain.
fn read_parts<D: Disk>(
    disk: &mut D,
    table: &BlockTable,
    value: HeadFields,
    bytes: &mut Vec<u8>,
) -> Result<(), DiskRefusal>
    requires power { IsTrue (D.counts disk.old).power }
    requires blocks { AreBlocks table.now }
    requires size { table.now.size ≡ (D.counts disk.old).size }
    requires chain { AreDataIn table.now.size (walk table.now.next.items value.first (blocks.blocks_of value.size)) }
    requires limit { value.size ≤ 67108864 }
    requires long { length bytes.old.items ≡ value.size }
    ensures ran { ReadsMade (blocks.blocks_of value.size) result (D.counts disk.old) (D.counts disk.new) }
    ensures long { length bytes.new.items ≡ value.size }
    ensures obeyed { IsTrue D.obeys → Obeyed (D.due disk.old) (D.due disk.new) (D.counts disk.old) (D.counts disk.new) (end_of result) }
    ensures timed { IsTrue D.tells → Timed (D.counts disk.old).clock (D.told disk.old) (D.counts disk.new).clock (D.told disk.new) }
    ensures told { IsTrue D.tells → ReadTold (D.counts disk.new).clock (D.told disk.old) (D.told disk.new) (end_of result) }
    ensures body { IsTrue D.tells → length (contents (D.told disk.old)).now ≡ (D.counts disk.old).size
        → OnOk result (bytes.new.items ≡ body_on (contents (D.told disk.old)).now (chain_in table.now.next.items (head_of value))) }
{
    let mut block = value.first;
    let mut from = 0;
    for _ in 0..blocks_of(value.size) {
        let to = (from + DATA as usize).min(bytes.len());
        read_part(disk, block, bytes, from, to)?;
        block = table.next(block);
        from = to;
    }
    Ok(())
}

/// Reads the value of a head: the bytes on its chain. Want of memory is found before any device call.
pub fn read_value<D: Disk>(
    alloc: Global,
    disk: &mut D,
    table: &BlockTable,
    value: HeadFields,
) -> Result<Vec<u8>, StoreRefusal>
    requires power { IsTrue (D.counts disk.old).power }
    requires blocks { AreBlocks table.now }
    requires size { table.now.size ≡ (D.counts disk.old).size }
    requires chain { AreDataIn table.now.size (walk table.now.next.items value.first (blocks.blocks_of value.size)) }
    requires limit { value.size ≤ 67108864 }
    ensures only { IfErr result (λ e. IsDiskRefusal e ⊎ (e ≡ OutOfMemory)) }
    ensures ran { Ran 0 (blocks.blocks_of value.size) result (D.counts disk.old) (D.counts disk.new) }
    ensures obeyed { IsTrue D.obeys
        → Obeyed (D.due disk.old) (D.due disk.new) (D.counts disk.old) (D.counts disk.new) (end_of_store result) }
    ensures timed { IsTrue D.tells → Timed (D.counts disk.old).clock (D.told disk.old) (D.counts disk.new).clock (D.told disk.new) }
    ensures told { IsTrue D.tells → ReadTold (D.counts disk.new).clock (D.told disk.old) (D.told disk.new) (end_of_store result) }
    ensures unchanged { IfErr result (λ e. e ≡ OutOfMemory → disk.new ≡ disk.old) }
    ensures long { IfOk result (λ bytes. length bytes.items ≡ value.size) }
    ensures body { IsTrue D.tells → length (contents (D.told disk.old)).now ≡ (D.counts disk.old).size
        → IfOk result (λ bytes. bytes.items ≡ body_on (contents (D.told disk.old)).now (chain_in table.now.next.items (head_of value))) }
{
    let mut bytes = vec![in alloc; 0u8; value.size as usize]?;
    read_parts(disk, table, value, &mut bytes)?;
    Ok(bytes)
}
