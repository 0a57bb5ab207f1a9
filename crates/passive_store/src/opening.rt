// The opening of a disk: what a log on it says, or a new log on a blank one.
ghost use Rattle.std.specs.Prelude.{◌≡◌, ◌≢◌, ◌+◌, ◌≤◌, ◌<◌, ◌==◌, ◌∷◌, [], ℕ, true, false, length, map, slice_index, take, IsTrue, IfOk};
ghost use Rattle.std.specs.Prelude.{IfErr, OnOk, Option, Result, if◌then◌else◌};
ghost use Rattle.eden_disk.specs.Told.{contents, at_rest};
ghost use Rattle.eden_disk.specs.Timed.{Timed};
ghost use Rattle.eden_disk.specs.Calls.{DeviceCalls, Obeyed, ReadTold, end_of};
ghost use Rattle.eden_disk.specs.Held.{Passes};
ghost use Rattle.passive_store.specs.declared.store.StoreRefusal.TheVariants.{Full, Damaged};
ghost use Rattle.passive_store.specs.Acts.{CallsTold, Write, Sync};
ghost use Rattle.passive_store.specs.Kept.{end_of_store, OpeningMade, OpeningTold};
ghost use Rattle.passive_store.specs.Log.{records_of, log_map};
ghost use Rattle.passive_store.specs.LogLayout.{log_kept, log_opening, log_format, looks};
ghost use Rattle.passive_store.specs.LogState.{IsPlaced, IsLog};
ghost use Rattle.passive_store.specs.Opening.{IsWalk, ThroughTold, IsEmptyImage, IsBlank, IsNewLog, IsReadied, IsKeptThrough, ReadsMade};
ghost use Rattle.passive_store.specs.Opening.{IsBounded, AreWithinLimit};

use crate::index::{Slot, make_entry, make_slot, set_slot};
use crate::records::read_header;
use crate::store::StoreRefusal;
use capability::Uid;
use eden_disk::{Disk, DiskRefusal};
use std::alloc::Global;
use std::collections::BTreeMap;

/// The first byte of a disk on which a log stands.
const LOG: u8 = 0xED;

/// What stands on a disk, as [`read_records`] finds it: the index of its log, and where the log ends.
#[derive(Drop)]
pub struct Found {
    /// Each uid that a record names, with the slot of the last record that gave it a body, or none where it was removed.
    pub index: BTreeMap<Uid, Option<Slot>>,
    /// How many bytes of the disk, from the first on, the log may fill.
    pub size: u32,
    /// The place of the first closed gate, behind the last record.
    pub tail: u32,
}

/// Writes bytes, and makes them stable.
fn write_through<D: Disk>(disk: &mut D, at: u32, bytes: &[u8]) -> Result<(), DiskRefusal>
    requires power { IsTrue (D.counts disk.old).power }
    requires range { at + length bytes.now ≤ (D.counts disk.old).size }
    ensures ran { (made : ℕ) × (DeviceCalls made (D.counts disk.old) (D.counts disk.new) (end_of result) × OnOk result (made ≡ 2)) }
    ensures obeyed { IsTrue D.obeys → Obeyed (D.due disk.old) (D.due disk.new) (D.counts disk.old) (D.counts disk.new) (end_of result) }
    ensures timed { IsTrue D.tells → Timed (D.counts disk.old).clock (D.told disk.old) (D.counts disk.new).clock (D.told disk.new) }
    ensures order { IsTrue D.tells → CallsTold (Write at bytes.now ∷ Sync ∷ []) (D.told disk.old) (D.told disk.new) (end_of result) }
    ensures told { IsTrue D.tells → ThroughTold at bytes.now (D.told disk.old) (D.told disk.new) (end_of result) }
{
    disk.write(at, bytes)?;
    disk.sync()
}

/// Makes a log without records on a blank disk.
fn format<D: Disk>(disk: &mut D) -> Result<(), DiskRefusal>
    requires power { IsTrue (D.counts disk.old).power }
    requires range { 17 ≤ (D.counts disk.old).size }
    ensures ran { (made : ℕ) × (DeviceCalls made (D.counts disk.old) (D.counts disk.new) (end_of result) × OnOk result (made ≡ 4)) }
    ensures obeyed { IsTrue D.obeys → Obeyed (D.due disk.old) (D.due disk.new) (D.counts disk.old) (D.counts disk.new) (end_of result) }
    ensures timed { IsTrue D.tells → Timed (D.counts disk.old).clock (D.told disk.old) (D.counts disk.new).clock (D.told disk.new) }
    ensures order { IsTrue D.tells → CallsTold log_format (D.told disk.old) (D.told disk.new) (end_of result) }
    ensures empty { IsTrue D.tells → IsBlank (contents (D.told disk.old)) → Passes IsEmptyImage (D.told disk.old) (D.told disk.new) }
    ensures log { IsTrue D.tells → IsBlank (contents (D.told disk.old)) → OnOk result (IsNewLog (contents (D.told disk.new))) }
{
    write_through(disk, 1, &[0; 16])?;
    write_through(disk, 0, &[LOG])
}

/// Whether a log stands on a disk.
fn has_log<D: Disk>(disk: &mut D) -> Result<bool, DiskRefusal>
    requires power { IsTrue (D.counts disk.old).power }
    requires range { 2 ≤ (D.counts disk.old).size }
    ensures counts { DeviceCalls 1 (D.counts disk.old) (D.counts disk.new) (end_of result) }
    ensures obeyed { IsTrue D.obeys → Obeyed (D.due disk.old) (D.due disk.new) (D.counts disk.old) (D.counts disk.new) (end_of result) }
    ensures timed { IsTrue D.tells → Timed (D.counts disk.old).clock (D.told disk.old) (D.counts disk.new).clock (D.told disk.new) }
    ensures told { IsTrue D.tells → ReadTold (D.counts disk.new).clock (D.told disk.old) (D.told disk.new) (end_of result) }
    ensures found { IsTrue D.tells → IfOk result (λ found. found ≡ (slice_index (contents (D.told disk.old)).now 0 == 237)) }
{
    let mut head = [0u8; 2];
    disk.read(0, &mut head)?;
    Ok(head[0] == LOG)
}

/// Looks whether a log stands on a disk, and makes one where none does.
fn ready<D: Disk>(disk: &mut D) -> Result<(), DiskRefusal>
    requires power { IsTrue (D.counts disk.old).power }
    requires range { 17 ≤ (D.counts disk.old).size }
    ensures ran { (made : ℕ)
        × (DeviceCalls made (D.counts disk.old) (D.counts disk.new) (end_of result) × (1 ≤ made)
        × (IsTrue D.tells → OnOk result (made ≡ (if slice_index (contents (D.told disk.old)).now 0 == 237 then 1 else 5)))) }
    ensures obeyed { IsTrue D.obeys → Obeyed (D.due disk.old) (D.due disk.new) (D.counts disk.old) (D.counts disk.new) (end_of result) }
    ensures timed { IsTrue D.tells → Timed (D.counts disk.old).clock (D.told disk.old) (D.counts disk.new).clock (D.told disk.new) }
    ensures order { IsTrue D.tells
        → CallsTold (looks (slice_index (contents (D.told disk.old)).now 0 == 237)) (D.told disk.old) (D.told disk.new) (end_of result) }
    ensures readied { IsTrue D.tells → contents (D.told disk.old) ≡ at_rest (contents (D.told disk.old)).now
        → 17 ≤ length (contents (D.told disk.old)).now → IsReadied (D.told disk.old) (D.told disk.new) (end_of result) }
{
    if has_log(disk)? {
        return Ok(());
    }
    format(disk)
}

/// Reads the records of the log in the first `size` bytes of a disk, up to the first closed gate.
///
/// It looks at no byte before the sixteenth, so that whether a log stands there is its caller's to ask, and it writes
/// nothing. `Damaged` is where a gate is open and no record of the node stands behind it; `Failed` and `Stopped` are
/// the disk's, and `OutOfMemory` comes where the index finds no memory.
pub fn read_records<D: Disk>(
    alloc: Global,
    disk: &mut D,
    node: u8,
    size: u32,
) -> Result<Found, StoreRefusal>
    requires power { IsTrue (D.counts disk.old).power }
    requires within { size ≤ (D.counts disk.old).size }
    requires range { 17 ≤ size }
    ensures ran { (made : ℕ)
        × (DeviceCalls made (D.counts disk.old) (D.counts disk.new) (end_of_store result)
        × (IsTrue D.tells → ReadsMade node (take size (contents (D.told disk.old)).now) result made)) }
    ensures obeyed { IsTrue D.obeys
        → Obeyed (D.due disk.old) (D.due disk.new) (D.counts disk.old) (D.counts disk.new) (end_of_store result) }
    ensures timed { IsTrue D.tells → Timed (D.counts disk.old).clock (D.told disk.old) (D.counts disk.new).clock (D.told disk.new) }
    ensures never_full { IfErr result (λ e. e ≢ Full) }
    ensures told { IsTrue D.tells → ReadTold (D.counts disk.new).clock (D.told disk.old) (D.told disk.new) (end_of_store result) }
    ensures size { IfOk result (λ f. f.size ≡ size) }
    ensures placed { IfOk result (λ f. IsBounded f.size f.tail f.index) }
    ensures limit { IfOk result (λ f. AreWithinLimit f.index) }
    ensures walk { IsTrue D.tells → IfOk result (λ f. IsWalk node f.size f.tail (take size (contents (D.told disk.old)).now) f.index) }
    ensures shut { IsTrue D.tells → IfOk result (λ f. (slice_index (take size (contents (D.told disk.old)).now) f.tail == 225) ≡ false) }
    ensures damaged { IsTrue D.tells → IfErr result (λ e. (place : ℕ)
        → e ≡ Damaged place → records_of node (take size (contents (D.told disk.old)).now) ≡ Result.Err place) }
    ensures map { IsTrue D.tells → (slice_index (take size (contents (D.told disk.old)).now) 0 == 237) ≡ true
        → IfOk result (λ f. log_map node (take size (contents (D.told disk.old)).now) ≡
        Result.Ok (log_kept node f.tail (take size (contents (D.told disk.old)).now))) }
    ensures damaged_log { IsTrue D.tells → (slice_index (take size (contents (D.told disk.old)).now) 0 == 237) ≡ true
        → IfErr result (λ e. (place : ℕ)
        → e ≡ Damaged place → log_map node (take size (contents (D.told disk.old)).now) ≡ Result.Err place) }
{
    // What a disk tells is as long as the disk is.
    let _size = disk.size();
    let mut index = BTreeMap::new(alloc);
    let mut tail = 16;
    while let Some(header) = read_header(disk, node, size, tail)? {
        make_entry(&mut index, header.uid)?;
        let slot = make_slot(header.removal, tail, header.length);
        set_slot(&mut index, header.uid, slot);
        tail = tail + header.length + 15;
    }
    Ok(Found { index, size, tail })
}

/// Opens the log of a disk. One of fewer than 17 bytes has no room for a log, and no call is made on it.
pub fn open_log<D: Disk>(alloc: Global, disk: &mut D, node: u8) -> Result<Found, StoreRefusal>
    requires { IsTrue (D.counts disk.old).power }
    ensures whole { IsTrue D.tells → length (contents (D.told disk.old)).now ≡ (D.counts disk.old).size }
    ensures small { (D.counts disk.old).size < 17 → (result ≡ Result.Err (Damaged 0)) × (disk.new ≡ disk.old) }
    ensures ran { (made : ℕ)
        × (DeviceCalls made (D.counts disk.old) (D.counts disk.new) (end_of_store result)
        × (IsTrue D.tells → OpeningMade (length (log_opening node (contents (D.told disk.old)).now)) result made)) }
    ensures order { IsTrue D.tells
        → OpeningTold (log_opening node (contents (D.told disk.old)).now) (D.told disk.old) (D.told disk.new) result }
    ensures obeyed { IsTrue D.obeys
        → Obeyed (D.due disk.old) (D.due disk.new) (D.counts disk.old) (D.counts disk.new) (end_of_store result) }
    ensures timed { IsTrue D.tells → Timed (D.counts disk.old).clock (D.told disk.old) (D.counts disk.new).clock (D.told disk.new) }
    ensures never_full { IfErr result (λ e. e ≢ Full) }
    ensures placed { IfOk result (λ f. IsPlaced f.size f.tail (D.counts disk.new) f.index Option.None) }
    ensures log { IsTrue D.tells → IfOk result (λ f. IsLog node f.size f.tail (contents (D.told disk.new)) f.index Option.None) }
    ensures map { IsTrue D.tells
        → IfOk result (λ f. log_map node (contents (D.told disk.old)).now ≡
        Result.Ok (log_kept node f.tail (contents (D.told disk.new)).now)) }
    ensures damaged { IsTrue D.tells
        → IfErr result (λ e. (place : ℕ) → e ≡ Damaged place → log_map node (contents (D.told disk.old)).now ≡ Result.Err place) }
    ensures keeps { IsTrue D.tells → IsKeptThrough node (D.told disk.old) (D.told disk.new) }
{
    if disk.size() < 17 {
        return Err(StoreRefusal::Damaged { place: 0 });
    }
    disk.sync()?;
    ready(disk)?;
    let size = disk.size();
    let found = read_records(alloc, disk, node, size)?;
    Ok(found)
}
