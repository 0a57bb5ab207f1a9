// The opening of a disk: the blocks that stand on it, or new ones on a blank disk.
ghost use Rattle.std.specs.Prelude.{◌≡◌, ◌≢◌, ◌⊎◌, ◌≤◌, ◌<◌, ◌+◌, ◌-◌, ◌*◌, ◌/◌, ◌==◌, ◌||◌, ◌∷◌, [], ℕ, true, false, length, slice_set};
ghost use Rattle.std.specs.Prelude.{IsTrue};
ghost use Rattle.std.specs.Prelude.{IfOk, IfErr, OnOk, Option, Result, map, slice_index};
ghost use Rattle.eden_disk.specs.Told.{contents};
ghost use Rattle.eden_disk.specs.Timed.{Timed};
ghost use Rattle.eden_disk.specs.Calls.{DeviceCalls, Obeyed, ReadTold, end_of};
ghost use Rattle.passive_store.specs.declared.store.StoreRefusal.TheVariants.{Full, Damaged, OutOfMemory};
ghost use Rattle.passive_store.specs.Kept.{end_of_store, IsDiskRefusal, OpeningMade};
ghost use Rattle.passive_store.specs.Acts.{CallsTold, Write, Sync};
ghost use Rattle.eden_disk.specs.Held.{Holds, Passes};
ghost use Rattle.passive_store.specs.Kept.{OpeningTold, IsOverfullBy};
ghost use Rattle.passive_blocks.specs.BlockLayout.{format_calls, format_of, block_map, block_layout, block_opening, overfull_by};
ghost use Rattle.passive_blocks.specs.Fits.{Fits};
ghost use Rattle.passive_blocks.specs.NewBlocks.{MayBlank, IsEmptyImage, IsBlankDisk, IsClearedDisk, IsNewBlocks, AreCleared};
ghost use Rattle.passive_blocks.specs.NewBlocks.{clearing_calls};
ghost use Rattle.passive_blocks.specs.Preparing.{AreReady, IsSynced, KeepsThrough, PreparingMade, PreparingTold};
ghost use Rattle.block_tables.specs.Blocks as blocks;
ghost use Rattle.block_tables.specs.Blocks.{has, heads_of, blocks_map, chains_of, changes_on, data_count, keeping, taken_by};
ghost use Rattle.block_tables.specs.HeadState.{heads_in, is_open};
ghost use Rattle.block_tables.specs.BlockState.{AreBlocks, free_in};
ghost use Rattle.block_tables.specs.Members.{is_member};
ghost use Rattle.block_tables.specs.BlockState.{AreAllFree};
ghost use Rattle.passive_blocks.specs.BlockLayout.{reads_of_blocks};
ghost use Rattle.passive_blocks.specs.HeldState.{IsHeld};
ghost use Rattle.std.specs.Prelude.{◌&&◌, ◌^◌, is_some, nat_le, if◌then◌else◌};
ghost use Rattle.passive_blocks.specs.StoreState.{IsTableOf, changes_known};
ghost use Rattle.passive_blocks.specs.Looks.{looked};
ghost use Rattle.passive_blocks.specs.OpeningState.{AreReadTo, AreCounted, heads_read, IsFollowed, IsChainOn};
ghost use Rattle.passive_blocks.specs.OpeningState.{IsChainRead, ChainRead, IsLinkedTo};
ghost use Rattle.passive_blocks.specs.StoreState.{chain_in};

use crate::convert::{BLOCKS, STAGED, bring_over};
use block_tables::{
    BLOCK, BlockTable, HeadFields, LAST_SEQUENCE, Table, blocks_of, head_place, is_block_size,
    read_head, read_next,
};
use eden_disk::{Disk, DiskRefusal};
use passive_store::StoreRefusal;
use std::alloc::Global;
use std::collections::BTreeSet;

/// The first byte of a disk on which a log stands.
const LOG: u8 = 0xED;

/// What stands on a disk.
#[derive(Clone, Copy, Debug, PartialEq, Eq)]
pub enum Format {
    /// Blocks: byte 1 is EB.
    Blocks,
    /// A log: byte 0 is ED, and no blocks stand there. Its heads are staged where byte 2 is EA.
    Log { staged: bool },
    /// Neither.
    Blank,
}

/// Looks what stands on a disk.
fn look<D: Disk>(disk: &mut D) -> Result<Format, DiskRefusal>
    requires power { IsTrue (D.counts disk.old).power }
    requires range { 3 ≤ (D.counts disk.old).size }
    ensures counts { DeviceCalls 1 (D.counts disk.old) (D.counts disk.new) (end_of result) }
    ensures obeyed { IsTrue D.obeys → Obeyed (D.due disk.old) (D.due disk.new) (D.counts disk.old) (D.counts disk.new) (end_of result) }
    ensures timed { IsTrue D.tells → Timed (D.counts disk.old).clock (D.told disk.old) (D.counts disk.new).clock (D.told disk.new) }
    ensures told { IsTrue D.tells → ReadTold (D.counts disk.new).clock (D.told disk.old) (D.told disk.new) (end_of result) }
    ensures found { IsTrue D.tells → IfOk result (λ format. format ≡ looked (contents (D.told disk.old)).now) }
{
    let mut bytes = [0u8; 3];
    disk.read(0, &mut bytes)?;
    if bytes[1] == BLOCKS {
        Ok(Format::Blocks)
    } else if bytes[0] == LOG {
        Ok(Format::Log {
            staged: bytes[2] == STAGED,
        })
    } else {
        Ok(Format::Blank)
    }
}

/// Clears the blocks of heads.
fn clear_heads<D: Disk>(disk: &mut D) -> Result<(), DiskRefusal>
    requires power { IsTrue (D.counts disk.old).power }
    requires allowed { blocks.is_block_size (D.counts disk.old).size ≡ true }
    ensures ran { (made : ℕ)
        × (DeviceCalls made (D.counts disk.old) (D.counts disk.new) (end_of result) × (1 ≤ made)
        × OnOk result (made ≡ (D.counts disk.old).size / 32768)) }
    ensures obeyed { IsTrue D.obeys → Obeyed (D.due disk.old) (D.due disk.new) (D.counts disk.old) (D.counts disk.new) (end_of result) }
    ensures timed { IsTrue D.tells → Timed (D.counts disk.old).clock (D.told disk.old) (D.counts disk.new).clock (D.told disk.new) }
    ensures order { IsTrue D.tells
        → CallsTold (clearing_calls ((D.counts disk.old).size / 32768)) (D.told disk.old) (D.told disk.new) (end_of result) }
    ensures blank { IsTrue D.tells → Holds (Fits MayBlank (D.counts disk.old).size) (contents (D.told disk.old))
        → Passes (Fits MayBlank (D.counts disk.old).size) (D.told disk.old) (D.told disk.new) }
    ensures cleared { IsTrue D.tells → length (contents (D.told disk.old)).now ≡ (D.counts disk.old).size
        → OnOk result (AreCleared (D.counts disk.old).size ((D.counts disk.old).size / 32768) (contents (D.told disk.new)).now) }
{
    let size = disk.size();
    for index in 0..size / 32_768 {
        disk.write((index + 1) * BLOCK, &[0; 1024])?;
    }
    Ok(())
}

/// Says that blocks stand on a disk, once their heads are cleared.
fn mark_blocks<D: Disk>(disk: &mut D) -> Result<(), DiskRefusal>
    requires power { IsTrue (D.counts disk.old).power }
    requires allowed { blocks.is_block_size (D.counts disk.old).size ≡ true }
    ensures ran { (made : ℕ)
        × (DeviceCalls made (D.counts disk.old) (D.counts disk.new) (end_of result) × OnOk result (made ≡ 3)) }
    ensures obeyed { IsTrue D.obeys → Obeyed (D.due disk.old) (D.due disk.new) (D.counts disk.old) (D.counts disk.new) (end_of result) }
    ensures timed { IsTrue D.tells → Timed (D.counts disk.old).clock (D.told disk.old) (D.counts disk.new).clock (D.told disk.new) }
    ensures order { IsTrue D.tells
        → CallsTold (Sync ∷ Write 1 (235 ∷ []) ∷ Sync ∷ []) (D.told disk.old) (D.told disk.new) (end_of result) }
    ensures empty { IsTrue D.tells → IsClearedDisk (D.counts disk.old).size (contents (D.told disk.old))
        → Passes (IsEmptyImage (D.counts disk.old).size) (D.told disk.old) (D.told disk.new) }
    ensures new { IsTrue D.tells → IsClearedDisk (D.counts disk.old).size (contents (D.told disk.old))
        → OnOk result (IsNewBlocks (D.counts disk.old).size (contents (D.told disk.new))) }
{
    disk.sync()?;
    disk.write(1, &[BLOCKS])?;
    disk.sync()
}

/// Makes blocks without open heads on a blank disk.
fn make_blocks<D: Disk>(disk: &mut D) -> Result<(), DiskRefusal>
    requires power { IsTrue (D.counts disk.old).power }
    requires allowed { blocks.is_block_size (D.counts disk.old).size ≡ true }
    ensures ran { (made : ℕ)
        × (DeviceCalls made (D.counts disk.old) (D.counts disk.new) (end_of result) × (1 ≤ made)
        × OnOk result (made ≡ (D.counts disk.old).size / 32768 + 3)) }
    ensures obeyed { IsTrue D.obeys → Obeyed (D.due disk.old) (D.due disk.new) (D.counts disk.old) (D.counts disk.new) (end_of result) }
    ensures timed { IsTrue D.tells → Timed (D.counts disk.old).clock (D.told disk.old) (D.counts disk.new).clock (D.told disk.new) }
    ensures order { IsTrue D.tells
        → CallsTold (format_calls (D.counts disk.old).size) (D.told disk.old) (D.told disk.new) (end_of result) }
    ensures empty { IsTrue D.tells → IsBlankDisk (D.counts disk.old).size (contents (D.told disk.old))
        → Passes (IsEmptyImage (D.counts disk.old).size) (D.told disk.old) (D.told disk.new) }
    ensures new { IsTrue D.tells → IsBlankDisk (D.counts disk.old).size (contents (D.told disk.old))
        → OnOk result (IsNewBlocks (D.counts disk.old).size (contents (D.told disk.new))) }
{
    clear_heads(disk)?;
    mark_blocks(disk)
}

/// Makes blocks of what stands on a disk.
fn prepare<D: Disk>(alloc: Global, disk: &mut D, node: u8) -> Result<(), StoreRefusal>
    requires power { IsTrue (D.counts disk.old).power }
    requires allowed { blocks.is_block_size (D.counts disk.old).size ≡ true }
    ensures ran { (made : ℕ)
        × (DeviceCalls made (D.counts disk.old) (D.counts disk.new) (end_of_store result)
        × (IsTrue D.tells → IsSynced (D.counts disk.old).size (contents (D.told disk.old))
        → PreparingMade node (contents (D.told disk.old)).now result made)) }
    ensures obeyed { IsTrue D.obeys
        → Obeyed (D.due disk.old) (D.due disk.new) (D.counts disk.old) (D.counts disk.new) (end_of_store result) }
    ensures timed { IsTrue D.tells → Timed (D.counts disk.old).clock (D.told disk.old) (D.counts disk.new).clock (D.told disk.new) }
    ensures order { IsTrue D.tells → IsSynced (D.counts disk.old).size (contents (D.told disk.old))
        → PreparingTold node (contents (D.told disk.old)).now (D.told disk.old) (D.told disk.new) result }
    ensures ready { IsTrue D.tells → IsSynced (D.counts disk.old).size (contents (D.told disk.old))
        → OnOk result (AreReady node (contents (D.told disk.old)).now (contents (D.told disk.new))) }
    ensures damaged { IsTrue D.tells → IsSynced (D.counts disk.old).size (contents (D.told disk.old))
        → IfErr result (λ e. (place : ℕ) → e ≡ Damaged place → block_map node (contents (D.told disk.old)).now ≡ Result.Err place) }
    ensures full { IsTrue D.tells → IsSynced (D.counts disk.old).size (contents (D.told disk.old))
        → IsOverfullBy (overfull_by (format_of (contents (D.told disk.old)).now) node (contents (D.told disk.old)).now) result }
    ensures keeps { IsTrue D.tells → IsSynced (D.counts disk.old).size (contents (D.told disk.old))
        → KeepsThrough node (D.told disk.old) (D.told disk.new) }
{
    match look(disk)? {
        Format::Blocks => Ok(()),
        Format::Log { staged } => bring_over(alloc, disk, node, staged),
        Format::Blank => {
            make_blocks(disk)?;
            Ok(())
        }
    }
}

/// Takes up a head that was read. No two that are open have one sequence.
fn take_head(
    sequences: &mut BTreeSet<u64>,
    table: &mut Table,
    head: HeadFields,
) -> Result<(), StoreRefusal>
    requires read { AreReadTo table.old sequences.old.keys head.number }
    requires number { head.number < length table.old.heads.slots.items }
    requires opened { is_open head ≡ true }
    ensures read { OnOk result (AreReadTo table.new sequences.new.keys (head.number + 1)) }
    ensures slots { OnOk result (table.new.heads.slots.items ≡ slice_set table.old.heads.slots.items head.number head) }
    ensures known { OnOk result ((s : ℕ) → has s sequences.new.keys ≡ (head.sequence == s || has s sequences.old.keys)) }
    ensures fresh { OnOk result (has head.sequence sequences.old.keys ≡ false) }
    ensures blocks { table.new.blocks ≡ table.old.blocks }
    ensures only { IfErr result (λ e. (e ≡ OutOfMemory)
        ⊎ ((e ≡ Damaged (blocks.head_place head.number)) × (has head.sequence sequences.old.keys ≡ true))) }
{
    if sequences.contains(&head.sequence) {
        return Err(StoreRefusal::Damaged {
            place: head_place(head.number),
        });
    }
    let Ok(_) = sequences.insert(head.sequence) else {
        return Err(StoreRefusal::OutOfMemory);
    };
    table.make_entry(head.uid)?;
    table.heads.count_head(head);
    Ok(())
}

/// Reads all heads.
fn read_heads<D: Disk>(alloc: Global, disk: &mut D, node: u8) -> Result<Table, StoreRefusal>
    requires power { IsTrue (D.counts disk.old).power }
    requires allowed { blocks.is_block_size (D.counts disk.old).size ≡ true }
    ensures ran { (made : ℕ)
        × (DeviceCalls made (D.counts disk.old) (D.counts disk.new) (end_of_store result)
        × (IsTrue D.tells → OpeningMade (heads_read ((D.counts disk.old).size / 1024) (heads_of node (contents (D.told disk.old)).now))
        result made)) }
    ensures obeyed { IsTrue D.obeys
        → Obeyed (D.due disk.old) (D.due disk.new) (D.counts disk.old) (D.counts disk.new) (end_of_store result) }
    ensures timed { IsTrue D.tells → Timed (D.counts disk.old).clock (D.told disk.old) (D.counts disk.new).clock (D.told disk.new) }
    ensures told { IsTrue D.tells → ReadTold (D.counts disk.new).clock (D.told disk.old) (D.told disk.new) (end_of_store result) }
    ensures never_full { IfErr result (λ e. e ≢ Full) }
    ensures counted { IfOk result AreCounted }
    ensures free { IfOk result (λ t. AreAllFree t.blocks) }
    ensures size { IfOk result (λ t. t.blocks.size ≡ (D.counts disk.old).size) }
    ensures long { IsTrue D.tells → IfOk result (λ t. length (contents (D.told disk.old)).now ≡ t.blocks.size) }
    ensures heads { IsTrue D.tells
        → IfOk result (λ t. heads_of node (contents (D.told disk.old)).now ≡ Result.Ok (heads_in t.heads.slots.items)) }
    ensures damaged { IsTrue D.tells
        → IfErr result (λ e. (place : ℕ) → e ≡ Damaged place → heads_of node (contents (D.told disk.old)).now ≡ Result.Err place) }
{
    let size = disk.size();
    let mut table = Table::new(alloc, size)?;
    let mut sequences = BTreeSet::new(alloc);
    for number in 0..size / BLOCK {
        match read_head(disk, node, number)? {
            Some(head) => take_head(&mut sequences, &mut table, head)?,
            None => {}
        }
    }
    Ok(table)
}

/// Follows the chain of a value. It answers false where it is damaged.
fn follow<D: Disk>(
    disk: &mut D,
    table: &mut BlockTable,
    value: HeadFields,
) -> Result<bool, DiskRefusal>
    requires power { IsTrue (D.counts disk.old).power }
    requires blocks { AreBlocks table.old }
    requires size { table.old.size ≡ (D.counts disk.old).size }
    ensures ran { (made : ℕ)
        × (DeviceCalls made (D.counts disk.old) (D.counts disk.new) (end_of result) × IfErr result (λ e. 1 ≤ made)
        × IfOk result (λ whole. IsFollowed table.old table.new value whole made)
        × (IsTrue D.tells → IfOk result (λ whole. IsChainOn (contents (D.told disk.old)).now table.old table.new value whole made))) }
    ensures obeyed { IsTrue D.obeys → Obeyed (D.due disk.old) (D.due disk.new) (D.counts disk.old) (D.counts disk.new) (end_of result) }
    ensures timed { IsTrue D.tells → Timed (D.counts disk.old).clock (D.told disk.old) (D.counts disk.new).clock (D.told disk.new) }
    ensures told { IsTrue D.tells → ReadTold (D.counts disk.new).clock (D.told disk.old) (D.told disk.new) (end_of result) }
{
    let mut block = value.first;
    for _ in 0..blocks_of(value.size) {
        if !table.take_block(block) {
            return Ok(false);
        }
        let next = read_next(disk, block)? as u32;
        table.link(block, next);
        block = next;
    }
    Ok(block == 0)
}

/// Follows the chain of a value that is kept.
fn read_chain<D: Disk>(
    disk: &mut D,
    table: &mut BlockTable,
    value: HeadFields,
) -> Result<(), StoreRefusal>
    requires power { IsTrue (D.counts disk.old).power }
    requires blocks { AreBlocks table.old }
    requires size { table.old.size ≡ (D.counts disk.old).size }
    requires room { table.old.needed + length (free_in table.old) ≤ data_count table.old.size }
    requires number { value.number < 65536 }
    ensures ran { (made : ℕ)
        × (DeviceCalls made (D.counts disk.old) (D.counts disk.new) (end_of_store result)
        × OnOk result (IsChainRead table.old table.new value made)
        × (IsTrue D.tells → ChainRead (contents (D.told disk.old)).now table.old table.new value result made)) }
    ensures obeyed { IsTrue D.obeys
        → Obeyed (D.due disk.old) (D.due disk.new) (D.counts disk.old) (D.counts disk.new) (end_of_store result) }
    ensures timed { IsTrue D.tells → Timed (D.counts disk.old).clock (D.told disk.old) (D.counts disk.new).clock (D.told disk.new) }
    ensures told { IsTrue D.tells → ReadTold (D.counts disk.new).clock (D.told disk.old) (D.told disk.new) (end_of_store result) }
    ensures only { IfErr result (λ e. IsDiskRefusal e ⊎ (e ≡ Damaged (blocks.head_place value.number))) }
{
    let whole = follow(disk, table, value)?;
    if whole {
        table.keep(value.size);
        Ok(())
    } else {
        Err(StoreRefusal::Damaged {
            place: head_place(value.number),
        })
    }
}

/// Follows the chains of the heads that count.
fn read_chains<D: Disk>(disk: &mut D, table: &mut Table) -> Result<(), StoreRefusal>
    requires power { IsTrue (D.counts disk.old).power }
    requires size { table.old.blocks.size ≡ (D.counts disk.old).size }
    requires counted { AreCounted table.old }
    requires free { AreAllFree table.old.blocks }
    ensures ran { (made : ℕ)
        × (DeviceCalls made (D.counts disk.old) (D.counts disk.new) (end_of_store result)
        × (IsTrue D.tells → OpeningMade (length (taken_by (chains_of (contents (D.told disk.old)).now
        (heads_in table.old.heads.slots.items))))
        result made)) }
    ensures obeyed { IsTrue D.obeys
        → Obeyed (D.due disk.old) (D.due disk.new) (D.counts disk.old) (D.counts disk.new) (end_of_store result) }
    ensures timed { IsTrue D.tells → Timed (D.counts disk.old).clock (D.told disk.old) (D.counts disk.new).clock (D.told disk.new) }
    ensures told { IsTrue D.tells → ReadTold (D.counts disk.new).clock (D.told disk.old) (D.told disk.new) (end_of_store result) }
    ensures never_full { IfErr result (λ e. e ≢ Full) }
    ensures heads { table.new.heads ≡ table.old.heads }
    ensures size { OnOk result (table.new.blocks.size ≡ table.old.blocks.size) }
    ensures linked { OnOk result (IsLinkedTo table.new (length table.old.heads.slots.items)) }
    ensures chains { IsTrue D.tells
        → OnOk result (chains_of (contents (D.told disk.old)).now (heads_in table.old.heads.slots.items)
        ≡ map (chain_in table.new.blocks.next.items) (keeping (heads_in table.old.heads.slots.items))) }
    ensures damaged { IsTrue D.tells
        → IfErr result (λ e. (place : ℕ) → e ≡ Damaged place
        → changes_on (contents (D.told disk.old)).now (chains_of (contents (D.told disk.old)).now (heads_in table.old.heads.slots.items))
        ≡ Result.Err place) }
{
    let size = disk.size();
    for number in 0..size / BLOCK {
        match table.heads.value_of_head(number) {
            Some(value) => read_chain(disk, &mut table.blocks, value)?,
            None => {}
        }
    }
    Ok(())
}

/// Reads the blocks that stand on a disk.
fn read_blocks<D: Disk>(alloc: Global, disk: &mut D, node: u8) -> Result<Table, StoreRefusal>
    requires power { IsTrue (D.counts disk.old).power }
    requires allowed { blocks.is_block_size (D.counts disk.old).size ≡ true }
    ensures ran { (made : ℕ)
        × (DeviceCalls made (D.counts disk.old) (D.counts disk.new) (end_of_store result)
        × (IsTrue D.tells → OpeningMade (reads_of_blocks (contents (D.told disk.old)).now (heads_of node (contents (D.told disk.old)).now))
        result made)) }
    ensures obeyed { IsTrue D.obeys
        → Obeyed (D.due disk.old) (D.due disk.new) (D.counts disk.old) (D.counts disk.new) (end_of_store result) }
    ensures timed { IsTrue D.tells → Timed (D.counts disk.old).clock (D.told disk.old) (D.counts disk.new).clock (D.told disk.new) }
    ensures told { IsTrue D.tells → ReadTold (D.counts disk.new).clock (D.told disk.old) (D.told disk.new) (end_of_store result) }
    ensures never_full { IfErr result (λ e. e ≢ Full) }
    ensures held { IfOk result (λ t. IsHeld (D.counts disk.old).size (D.counts disk.new) t Option.None) }
    ensures lone { IfOk result (λ t. (k : ℕ) → is_member t.heads.lone k ≡ false) }
    ensures table { IsTrue D.tells → slice_index (contents (D.told disk.old)).now 1 ≡ 235
        → IfOk result (IsTableOf node (contents (D.told disk.old)).now) }
    ensures damaged { IsTrue D.tells
        → IfErr result (λ e. (place : ℕ) → e ≡ Damaged place → blocks_map node (contents (D.told disk.old)).now ≡ Result.Err place) }
{
    let mut table = read_heads(alloc, disk, node)?;
    read_chains(disk, &mut table)?;
    table.heads.close_lone_removals();
    Ok(table)
}

/// Opens the blocks of a disk, and makes them first of what stands there. On a disk of a size that is not allowed no call is made.
pub fn open_blocks<D: Disk>(alloc: Global, disk: &mut D, node: u8) -> Result<Table, StoreRefusal>
    requires power { IsTrue (D.counts disk.old).power }
    ensures whole { IsTrue D.tells → length (contents (D.told disk.old)).now ≡ (D.counts disk.old).size }
    ensures small { blocks.is_block_size (D.counts disk.old).size ≡ false → (result ≡ Result.Err (Damaged 0)) × (disk.new ≡ disk.old) }
    ensures ran { (made : ℕ)
        × (DeviceCalls made (D.counts disk.old) (D.counts disk.new) (end_of_store result)
        × (IsTrue D.tells → OpeningMade (length (block_opening node (contents (D.told disk.old)).now)) result made)) }
    ensures order { IsTrue D.tells
        → OpeningTold (block_opening node (contents (D.told disk.old)).now) (D.told disk.old) (D.told disk.new) result }
    ensures obeyed { IsTrue D.obeys
        → Obeyed (D.due disk.old) (D.due disk.new) (D.counts disk.old) (D.counts disk.new) (end_of_store result) }
    ensures timed { IsTrue D.tells → Timed (D.counts disk.old).clock (D.told disk.old) (D.counts disk.new).clock (D.told disk.new) }
    ensures held { IfOk result (λ t. IsHeld (D.counts disk.old).size (D.counts disk.new) t Option.None) }
    ensures lone { IfOk result (λ t. (k : ℕ) → is_member t.heads.lone k ≡ false) }
    ensures table { IsTrue D.tells → IfOk result (IsTableOf node (contents (D.told disk.new)).now) }
    ensures ready { IsTrue D.tells → OnOk result (AreReady node (contents (D.told disk.old)).now (contents (D.told disk.new))) }
    ensures damaged { IsTrue D.tells
        → IfErr result (λ e. (place : ℕ) → e ≡ Damaged place → block_map node (contents (D.told disk.old)).now ≡ Result.Err place) }
    ensures full { IsTrue D.tells → IsOverfullBy (block_layout.is_overfull node (contents (D.told disk.old)).now) result }
    ensures keeps { IsTrue D.tells → KeepsThrough node (D.told disk.old) (D.told disk.new) }
{
    if !is_block_size(disk.size()) {
        return Err(StoreRefusal::Damaged { place: 0 });
    }
    disk.sync()?;
    prepare(alloc, disk, node)?;
    read_blocks(alloc, disk, node)
}

/// For how many more changes the room is told: none, where nothing is free or no value stands under the reserved uid.
fn told_by(free: Option<u32>, left: u32, greatest: u64) -> u64
    ensures { result ≡ (if is_some free && nat_le 1 left then 2 ^ 63 - greatest else 0) }
{
    if free.is_some() && left >= 1 {
        LAST_SEQUENCE.saturating_sub(greatest)
    } else {
        0
    }
}

/// For how many more changes the room of a disk is told that was just opened.
pub fn changes_told(table: &Table) -> u64
    requires { (counts : _) × IsHeld table.now.blocks.size counts table.now Option.None }
    ensures { result ≡ changes_known table.now.blocks.size table.now.blocks.needed (heads_in table.now.heads.slots.items) }
{
    told_by(
        table.heads.free_head(),
        table.blocks.left(),
        table.heads.greatest(),
    )
}
