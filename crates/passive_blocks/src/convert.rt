// How a log becomes blocks: its values are copied behind it, their heads are staged on the last blocks, and moved from there
// to their places.
ghost use Rattle.std.specs.Prelude.{◌≡◌, ◌⊎◌, ◌≤◌, ◌<◌, ◌+◌, ◌*◌, ◌==◌, ◌∷◌, [], IsTrue, IfErr, length, drop, flat_map, slice_range};
ghost use Rattle.std.specs.Prelude.{All, IfOk, IfSome, OnOk, Result, false, if◌then◌else◌, ℕ};
ghost use Rattle.std.specs.BTreeMap as tree;
ghost use Rattle.capability.specs.declared.Uid.{Uid};
ghost use Rattle.capability.specs.Uids.{uid_cmp};
ghost use Rattle.eden_disk.specs.Told.{contents};
ghost use Rattle.eden_disk.specs.Timed.{Timed};
ghost use Rattle.eden_disk.specs.Calls.{DeviceCalls, Obeyed, end_of};
ghost use Rattle.eden_disk.specs.Held.{Passes};
ghost use Rattle.passive_store.specs.declared.store.StoreRefusal.TheVariants.{Damaged, OutOfMemory, Full};
ghost use Rattle.passive_store.specs.Acts.{Write, Sync};
ghost use Rattle.passive_store.specs.Kept.{IsDiskRefusal, IsOverfullBy, end_of_store};
ghost use Rattle.passive_store.specs.LogState.{slot_at};
ghost use Rattle.passive_store.specs.Seen.{disk_seen};
ghost use Rattle.block_tables.specs.Blocks as blocks;
ghost use Rattle.block_tables.specs.Blocks.{numbers};
ghost use Rattle.block_tables.specs.Changes.{chain_writes};
ghost use Rattle.passive_blocks.specs.BlockLayout.{block_map, format_of, overfull_by};
ghost use Rattle.passive_blocks.specs.Conversion.{head_or_blank, heads_spelled, is_too_much, move_calls, part_of};
ghost use Rattle.passive_blocks.specs.Conversion.{staged_calls, finishing_calls};
ghost use Rattle.block_tables.specs.HeadSeen.{head_of};
ghost use Rattle.passive_blocks.specs.Converting.{heads_planned, moved_in, all_moved_in, ArePlanned, IsMovable};
ghost use Rattle.passive_blocks.specs.Converting.{SaysSame, planned, planned_at, slots_in, blocks_together};
ghost use Rattle.passive_blocks.specs.Making.{Makes, Runs};
ghost use Rattle.passive_blocks.specs.Preparing.{AreReady, AreStagedFor, BringingMade, BringingTold, IsLogDisk, KeepsThrough};
ghost use Rattle.passive_blocks.specs.Preparing.{log_calls, log_found};

use block_tables::{BLOCK, DATA, HeadFields, OPEN, blocks_of, spell_head, write_block};
use capability::Uid;
use eden_disk::{Disk, DiskRefusal};
use passive_store::{Slot, StoreRefusal, log_layout_is_a_layout, read_records};
use std::alloc::Global;
use std::collections::BTreeMap;

/// The size of a disk on which a log becomes blocks.
const SIZE: u32 = 4_194_304;

/// The bytes of the log.
const LOG: u32 = 1_048_576;

/// The first block behind the log.
const FIRST: u32 = 1024;

/// The first of the blocks on which heads are staged.
const STAGE: u32 = 3968;

/// The blocks that all heads take.
const HEAD_BLOCKS: u32 = 128;

/// The third byte of a disk on which heads are staged.
pub const STAGED: u8 = 0xEA;

/// The second byte of a disk on which blocks stand.
pub const BLOCKS: u8 = 0xEB;

/// A value of a log: the head that it is to have, and the place of its body.
#[derive(Clone, Copy, Debug, PartialEq, Eq)]
pub struct Moved {
    /// The head that it is to have.
    pub head: HeadFields,
    /// Where its body begins in the log, in bytes.
    pub place: u32,
}

/// A value of a log, by its slot, with the head that it is to have.
fn plan_head(number: u32, first: u32, uid: Uid, slot: Slot) -> Moved
    requires limit { slot.length ≤ 262144 }
    requires placed { slot.gate + 15 + slot.length ≤ 1048576 }
    requires begins { 1024 ≤ first }
    requires room { first + blocks.blocks_of slot.length ≤ 3968 }
    ensures planned { result ≡ planned_at number first uid slot }
    ensures movable { IsMovable result }
{
    let head = HeadFields {
        number,
        uid,
        removal: false,
        sequence: number as u64 + 1,
        size: slot.length,
        first,
    };
    let place = slot.gate + 15;
    Moved { head, place }
}

/// The values of a log with their heads: numbers from 0 on and sequences from 1 on, in the order of uids. They are too much
/// where their blocks find no room before the staged heads.
fn plan_heads(
    alloc: Global,
    index: &BTreeMap<Uid, Option<Slot>>,
) -> Result<Vec<Moved>, StoreRefusal>
    requires limit { (uid : Uid) → IfSome (slot_at index.now uid) (λ s. s.length ≤ 262144) }
    requires placed { (uid : Uid) → IfSome (slot_at index.now uid) (λ s. s.gate + 15 + s.length ≤ 1048576) }
    ensures ordered { tree.IsOrdered uid_cmp index.now }
    ensures planned { IfOk result (λ moved. moved.items ≡ planned index.now) }
    ensures few { IfOk result (λ moved. ArePlanned moved.items) }
    ensures movable { IfOk result (λ moved. All IsMovable moved.items) }
    ensures fits { IfOk result (λ moved. blocks_together (slots_in index.now.entries) ≤ 2944) }
    ensures only { IfErr result (λ e. (e ≡ OutOfMemory) ⊎ ((e ≡ Full) × (2944 < blocks_together (slots_in index.now.entries)))) }
{
    let mut moved = Vec::new(alloc);
    let mut number = 0;
    let mut first = FIRST;
    for (uid, entry) in index {
        if let Some(slot) = *entry {
            let end = first + blocks_of(slot.length);
            if end > STAGE {
                return Err(StoreRefusal::Full);
            }
            let value = plan_head(number, first, *uid, slot);
            if moved.push(value).is_err() {
                return Err(StoreRefusal::OutOfMemory);
            }
            number += 1;
            first = end;
        }
    }
    Ok(moved)
}

/// The block behind one of those up to an end, which stand one behind the other; 0 for none.
fn next_behind(block: u32, end: u32) -> u32
    requires { block < end }
    ensures { result ≡ (if block + 1 == end then 0 else block + 1) }
{
    if block + 1 == end { 0 } else { block + 1 }
}

/// Writes a body on blocks that stand one behind the other.
fn write_chain<D: Disk>(disk: &mut D, first: u32, body: &[u8]) -> Result<(), DiskRefusal>
    requires power { IsTrue (D.counts disk.old).power }
    requires limit { length body.now ≤ 262144 }
    requires range { (first + blocks.blocks_of (length body.now)) * 1024 ≤ (D.counts disk.old).size }
    requires few { first + blocks.blocks_of (length body.now) < 65536 }
    ensures { let seen = disk_seen D.counts D.told D.due in
        Makes D.tells D.obeys (chain_writes (numbers first (blocks.blocks_of (length body.now))) body.now) (seen disk.old) (seen disk.new)
        (end_of result) }
{
    let end = first + blocks_of(body.len() as u32);
    let mut from = 0;
    for block in first..end {
        let next = next_behind(block, end);
        let to = (from + DATA as usize).min(body.len());
        write_block(disk, block, next as u16, &body[from..to])?;
        from = to;
    }
    Ok(())
}

/// Copies a value from the log to its blocks.
fn copy_value<D: Disk>(alloc: Global, disk: &mut D, moved: Moved) -> Result<(), StoreRefusal>
    requires power { IsTrue (D.counts disk.old).power }
    requires size { (D.counts disk.old).size ≡ 4194304 }
    requires whole { IsTrue D.tells → length (contents (D.told disk.old)).now ≡ 4194304 }
    requires movable { IsMovable moved }
    ensures only { IfErr result (λ e. IsDiskRefusal e ⊎ (e ≡ OutOfMemory)) }
    ensures runs { let seen = disk_seen D.counts D.told D.due in
        Runs D.tells D.obeys (move_calls (moved_in (contents (D.told disk.old)).now moved)) (seen disk.old) (seen disk.new) result }
{
    let mut body = vec![in alloc; 0u8; moved.head.size as usize]?;
    disk.read(moved.place, &mut body)?;
    write_chain(disk, moved.head.first, &body)?;
    Ok(())
}

/// Copies all values.
fn copy_values<D: Disk>(alloc: Global, disk: &mut D, moved: &Vec<Moved>) -> Result<(), StoreRefusal>
    requires power { IsTrue (D.counts disk.old).power }
    requires size { (D.counts disk.old).size ≡ 4194304 }
    requires whole { IsTrue D.tells → length (contents (D.told disk.old)).now ≡ 4194304 }
    requires movable { All IsMovable moved.now.items }
    ensures only { IfErr result (λ e. IsDiskRefusal e ⊎ (e ≡ OutOfMemory)) }
    ensures runs { let seen = disk_seen D.counts D.told D.due in
        Runs D.tells D.obeys (flat_map move_calls (all_moved_in (contents (D.told disk.old)).now moved.now.items)) (seen disk.old)
        (seen disk.new) result }
{
    for value in moved {
        copy_value(alloc, disk, *value)?;
    }
    Ok(())
}

/// The bytes of the head with a number: those of an open head, or of a free one.
fn head_bytes(moved: &Vec<Moved>, number: usize) -> [u8; 32]
    requires { ArePlanned moved.now.items }
    ensures { result ≡ head_or_blank (drop number (heads_planned moved.now.items)) }
{
    let mut bytes = [0u8; 32];
    if number < moved.len() {
        bytes[0] = OPEN;
        bytes[1..32].copy_from_slice(&spell_head(moved[number].head));
    }
    bytes
}

/// The bytes of a block of heads.
fn block_bytes(moved: &Vec<Moved>, block: u32) -> [u8; 1024]
    requires planned { ArePlanned moved.now.items }
    requires block { block < 128 }
    ensures { result ≡ part_of (heads_spelled 4096 (heads_planned moved.now.items)) block }
{
    let first = 32 * block as usize;
    let mut bytes = [0u8; 1024];
    for k in 0..32usize {
        bytes[32 * k..32 * k + 32].copy_from_slice(&head_bytes(moved, first + k));
    }
    bytes
}

/// Writes a byte behind all that is written, and makes it stable.
fn write_byte_through<D: Disk>(disk: &mut D, place: u32, byte: u8) -> Result<(), DiskRefusal>
    requires power { IsTrue (D.counts disk.old).power }
    requires range { place + 1 ≤ (D.counts disk.old).size }
    ensures { let seen = disk_seen D.counts D.told D.due in
        Makes D.tells D.obeys (Sync ∷ Write place (byte ∷ []) ∷ Sync ∷ []) (seen disk.old) (seen disk.new) (end_of result) }
{
    disk.sync()?;
    disk.write(place, &[byte])?;
    disk.sync()
}

/// Stages the heads, and says so in a byte.
fn stage_heads<D: Disk>(disk: &mut D, moved: &Vec<Moved>) -> Result<(), DiskRefusal>
    requires power { IsTrue (D.counts disk.old).power }
    requires size { (D.counts disk.old).size ≡ 4194304 }
    requires planned { ArePlanned moved.now.items }
    ensures { let seen = disk_seen D.counts D.told D.due in
        Makes D.tells D.obeys (staged_calls (heads_spelled 4096 (heads_planned moved.now.items))) (seen disk.old) (seen disk.new)
        (end_of result) }
{
    for block in 0..HEAD_BLOCKS {
        disk.write((STAGE + block) * BLOCK, &block_bytes(moved, block))?;
    }
    write_byte_through(disk, 2, STAGED)
}

/// Reads the log of a disk, copies its values and stages their heads. Where they are too much the disk is left as it is.
fn stage_log<D: Disk>(alloc: Global, disk: &mut D, node: u8) -> Result<(), StoreRefusal>
    requires power { IsTrue (D.counts disk.old).power }
    requires size { (D.counts disk.old).size ≡ 4194304 }
    requires whole { IsTrue D.tells → length (contents (D.told disk.old)).now ≡ 4194304 }
    ensures runs { let seen = disk_seen D.counts D.told D.due in
        Runs D.tells D.obeys (log_calls node (contents (D.told disk.old)).now) (seen disk.old) (seen disk.new) result }
    ensures damaged { IsTrue D.tells
        → IfErr result (λ e. (place : ℕ) → e ≡ Damaged place → log_found node (contents (D.told disk.old)).now ≡ Result.Err place) }
    ensures full { IsTrue D.tells → IsOverfullBy (is_too_much (log_found node (contents (D.told disk.old)).now)) result }
    ensures staged { IsTrue D.tells → IsLogDisk false (contents (D.told disk.old))
        → OnOk result (AreStagedFor node (contents (D.told disk.old)).now (contents (D.told disk.new))) }
    ensures says { IsTrue D.tells → IsLogDisk false (contents (D.told disk.old))
        → Passes (λ image. SaysSame node image (contents (D.told disk.old)).now) (D.told disk.old) (D.told disk.new) }
{
    log_layout_is_a_layout();
    let found = read_records(alloc, disk, node, LOG)?;
    let moved = plan_heads(alloc, &found.index)?;
    copy_values(alloc, disk, &moved)?;
    stage_heads(disk, &moved)?;
    Ok(())
}

/// Moves the staged heads to their places, and says in a byte that blocks stand on the disk.
fn move_heads<D: Disk>(disk: &mut D) -> Result<(), DiskRefusal>
    requires power { IsTrue (D.counts disk.old).power }
    requires size { (D.counts disk.old).size ≡ 4194304 }
    requires whole { IsTrue D.tells → length (contents (D.told disk.old)).now ≡ 4194304 }
    ensures { let seen = disk_seen D.counts D.told D.due in
        Makes D.tells D.obeys (finishing_calls (slice_range (contents (D.told disk.old)).now 4063232 4194304)) (seen disk.old)
        (seen disk.new) (end_of result) }
{
    for block in 0..HEAD_BLOCKS {
        let mut bytes = [0u8; 1024];
        disk.read((STAGE + block) * BLOCK, &mut bytes)?;
        disk.write((1 + block) * BLOCK, &bytes)?;
    }
    write_byte_through(disk, 1, BLOCKS)
}

/// Makes blocks of the log on a disk, whose heads may be staged already. A disk of another size has no room for both, and is
/// damaged at its first byte.
pub fn bring_over<D: Disk>(
    alloc: Global,
    disk: &mut D,
    node: u8,
    staged: bool,
) -> Result<(), StoreRefusal>
    requires power { IsTrue (D.counts disk.old).power }
    ensures ran { (made : ℕ)
        × (DeviceCalls made (D.counts disk.old) (D.counts disk.new) (end_of_store result)
        × (IsTrue D.tells → IsLogDisk staged (contents (D.told disk.old))
        → BringingMade node (contents (D.told disk.old)).now result made)) }
    ensures obeyed { IsTrue D.obeys
        → Obeyed (D.due disk.old) (D.due disk.new) (D.counts disk.old) (D.counts disk.new) (end_of_store result) }
    ensures timed { IsTrue D.tells → Timed (D.counts disk.old).clock (D.told disk.old) (D.counts disk.new).clock (D.told disk.new) }
    ensures order { IsTrue D.tells → IsLogDisk staged (contents (D.told disk.old))
        → BringingTold node (contents (D.told disk.old)).now (D.told disk.old) (D.told disk.new) result }
    ensures ready { IsTrue D.tells → IsLogDisk staged (contents (D.told disk.old))
        → OnOk result (AreReady node (contents (D.told disk.old)).now (contents (D.told disk.new))) }
    ensures damaged { IsTrue D.tells → IsLogDisk staged (contents (D.told disk.old))
        → IfErr result (λ e. (place : ℕ) → e ≡ Damaged place → block_map node (contents (D.told disk.old)).now ≡ Result.Err place) }
    ensures full { IsTrue D.tells → IsLogDisk staged (contents (D.told disk.old))
        → IsOverfullBy (overfull_by (format_of (contents (D.told disk.old)).now) node (contents (D.told disk.old)).now) result }
    ensures keeps { IsTrue D.tells → IsLogDisk staged (contents (D.told disk.old)) → KeepsThrough node (D.told disk.old) (D.told disk.new) }
{
    if disk.size() != SIZE {
        return Err(StoreRefusal::Damaged { place: 0 });
    }
    if staged {
        move_heads(disk)?;
        return Ok(());
    }
    stage_log(alloc, disk, node)?;
    // What a disk tells is as long as the disk is.
    let _size = disk.size();
    move_heads(disk)?;
    Ok(())
}
