// The heads of a disk of blocks, as bytes.
ghost use Rattle.std.specs.Prelude.{◌≡◌, ◌⊎◌, ◌≤◌, ◌<◌, ◌+◌, ◌*◌, ◌^◌, ◌==◌, ◌∷◌, ◌++◌, [], length, slice_index, slice_range};
ghost use Rattle.std.specs.Prelude.{IsTrue, IfOk, IfErr, IfSome, is_some};
ghost use Rattle.std.specs.Int.{w16, w32, w64, from_be_bytes, to_be_bytes};
ghost use Rattle.eden_disk.specs.Told.{contents};
ghost use Rattle.eden_disk.specs.Timed.{Timed};
ghost use Rattle.eden_disk.specs.Calls.{DeviceCalls, Obeyed, ReadTold, end_of};
ghost use Rattle.passive_store.specs.declared.store.StoreRefusal.TheVariants.{Damaged};
ghost use Rattle.passive_store.specs.Acts.{CallTold, Write};
ghost use Rattle.passive_store.specs.Kept.{end_of_store, IsDiskRefusal};
ghost use Rattle.block_tables.specs.Blocks as blocks;
ghost use Rattle.block_tables.specs.Blocks.{is_head, head_in};
ghost use Rattle.block_tables.specs.Changes.{spelled_head};
ghost use Rattle.block_tables.specs.HeadSeen.{head_of, IsHeadThere, IsHeadDamaged};
ghost use Rattle.block_tables.specs.HeadState.{IsRead};

use capability::{BODY_LIMIT, Uid};
use eden_disk::{Disk, DiskRefusal};
use passive_store::StoreRefusal;

/// The gate of a head that is open.
pub const OPEN: u8 = 0xE1;

/// The gate of a head that is free.
pub const CLOSED: u8 = 0;

/// The bytes of a block.
pub const BLOCK: u32 = 1024;

/// The bytes of a value on a block, behind the number of the next one.
pub const DATA: u32 = 1022;

/// The kind of a head, or of a record of a log, that gives its uid a body.
pub const VALUE: u8 = 1;

/// The kind of a head that removes its uid.
const REMOVAL: u8 = 2;

/// The greatest sequence.
pub const LAST_SEQUENCE: u64 = 1 << 63;

/// What an open head says: a value that begins on a block, or a removal, under a sequence.
#[derive(Clone, Copy, Debug, PartialEq, Eq)]
pub struct HeadFields {
    /// The number of the head.
    pub number: u32,
    /// The uid of which it speaks.
    pub uid: Uid,
    /// Whether it removes the uid, and has no value.
    pub removal: bool,
    /// Of the open heads of a uid the one with the greatest sequence counts.
    pub sequence: u64,
    /// The length of the value.
    pub size: u32,
    /// The first block of the value, 0 for a removal.
    pub first: u32,
}

/// Whether a disk of this size can hold blocks.
pub fn is_block_size(size: u32) -> bool
    ensures { result ≡ blocks.is_block_size size }
{
    size % 32_768 == 0 && size >= 32_768 && size <= 67_108_864
}

/// Whether a block of a disk of this size is one for data.
pub fn is_data(size: u32, block: u32) -> bool
    ensures { result ≡ blocks.is_data size block }
{
    block > size / 32_768 && block < size / 1024
}

/// How many blocks a value of this size takes.
pub fn blocks_of(size: u32) -> u32
    ensures { result ≡ blocks.blocks_of size }
{
    if size == 0 { 1 } else { size.div_ceil(1022) }
}

/// The place of the gate of a head.
pub fn head_place(number: u32) -> u32
    requires { number < 65536 }
    ensures { result ≡ blocks.head_place number }
{
    1024 + 32 * number
}

/// The number that two bytes from a place on spell.
pub fn short_at(bytes: &[u8], at: usize) -> u16
    requires { at + 2 ≤ length bytes.now }
    ensures { result ≡ from_be_bytes w16 (slice_range bytes.now at (at + 2)) }
{
    u16::from_be_bytes([bytes[at], bytes[at + 1]])
}

/// The number that four bytes from a place on spell.
pub fn number_at(bytes: &[u8], at: usize) -> u32
    requires { at + 4 ≤ length bytes.now }
    ensures { result ≡ from_be_bytes w32 (slice_range bytes.now at (at + 4)) }
{
    u32::from_be_bytes([bytes[at], bytes[at + 1], bytes[at + 2], bytes[at + 3]])
}

/// The number that eight bytes from a place on spell.
fn long_at(bytes: &[u8], at: usize) -> u64
    requires { at + 8 ≤ length bytes.now }
    ensures { result ≡ from_be_bytes w64 (slice_range bytes.now at (at + 8)) }
{
    u64::from_be_bytes([
        bytes[at],
        bytes[at + 1],
        bytes[at + 2],
        bytes[at + 3],
        bytes[at + 4],
        bytes[at + 5],
        bytes[at + 6],
        bytes[at + 7],
    ])
}

/// Whether all these bytes are 0.
fn is_blank(bytes: &[u8]) -> bool
    ensures { result ≡ blocks.are_blank bytes.now }
{
    bytes.iter().all(|byte| *byte == 0)
}

/// The fields that 32 bytes of a head spell, of whatever format they are.
fn fields_in(bytes: &[u8], number: u32) -> HeadFields
    requires { length bytes.now ≡ 32 }
    ensures { head_of result ≡ head_in number bytes.now }
{
    HeadFields {
        number,
        uid: Uid {
            node: bytes[2],
            epoch: number_at(bytes, 3),
            serial: number_at(bytes, 7),
        },
        removal: bytes[1] == REMOVAL,
        sequence: long_at(bytes, 11),
        size: number_at(bytes, 19),
        first: short_at(bytes, 23) as u32,
    }
}

/// Whether the fields of a head or a record of this kind are of the format.
pub fn are_fields(uid: Uid, size: u32, kind: u8, node: u8) -> bool
    ensures { result ≡ blocks.are_fields node size uid kind }
{
    let known_kind = kind == VALUE || kind == REMOVAL && size == 0;
    let reserved = uid.epoch == 0 && uid.serial == 0 && kind == VALUE && size == 4;
    let eject = uid.epoch != 0 && uid.serial != 0;
    size <= BODY_LIMIT && known_kind && uid.node == node && (reserved || eject)
}

/// Whether 32 bytes of a head, which spell these fields, are of the format.
fn is_good(bytes: &[u8], head: HeadFields, node: u8, size: u32) -> bool
    requires { length bytes.now ≡ 32 }
    ensures { result ≡ is_head node size bytes.now (head_of head) }
{
    let begins = if head.removal {
        head.first == 0
    } else {
        is_data(size, head.first)
    };
    are_fields(head.uid, head.size, bytes[1], node)
        && begins
        && head.sequence >= 1
        && head.sequence <= LAST_SEQUENCE
        && is_blank(&bytes[25..32])
}

/// Reads a head: what it says, or None where its gate is closed.
pub fn read_head<D: Disk>(
    disk: &mut D,
    node: u8,
    number: u32,
) -> Result<Option<HeadFields>, StoreRefusal>
    requires power { IsTrue (D.counts disk.old).power }
    requires range { 1024 + 32 * number + 32 ≤ (D.counts disk.old).size }
    requires few { number < 65536 }
    ensures counts { DeviceCalls 1 (D.counts disk.old) (D.counts disk.new) (end_of_store result) }
    ensures obeyed { IsTrue D.obeys
        → Obeyed (D.due disk.old) (D.due disk.new) (D.counts disk.old) (D.counts disk.new) (end_of_store result) }
    ensures timed { IsTrue D.tells → Timed (D.counts disk.old).clock (D.told disk.old) (D.counts disk.new).clock (D.told disk.new) }
    ensures only { IfErr result (λ e. IsDiskRefusal e ⊎ (e ≡ Damaged (blocks.head_place number))) }
    ensures fields { IfOk result (λ found. IfSome found (IsRead node number)) }
    ensures told { IsTrue D.tells → ReadTold (D.counts disk.new).clock (D.told disk.old) (D.told disk.new) (end_of_store result) }
    ensures head { IsTrue D.tells → IfOk result (IsHeadThere node (contents (D.told disk.old)).now number) }
    ensures damaged { IsTrue D.tells
        → IfErr result (λ e. e ≡ Damaged (blocks.head_place number) → IsHeadDamaged node (contents (D.told disk.old)).now number) }
{
    let size = disk.size();
    let mut bytes = [0u8; 32];
    disk.read(head_place(number), &mut bytes)?;
    if bytes[0] != OPEN {
        return Ok(None);
    }
    let head = fields_in(&bytes, number);
    if is_good(&bytes, head, node, size) {
        Ok(Some(head))
    } else {
        Err(StoreRefusal::Damaged {
            place: head_place(number),
        })
    }
}

/// The bytes of a head behind its gate.
pub fn spell_head(head: HeadFields) -> [u8; 31]
    requires { head.first < 65536 }
    ensures { result ≡ spelled_head (head_of head) }
{
    let kind = if head.removal { REMOVAL } else { VALUE };
    let e = head.uid.epoch.to_be_bytes();
    let s = head.uid.serial.to_be_bytes();
    let q = head.sequence.to_be_bytes();
    let n = head.size.to_be_bytes();
    let f = (head.first as u16).to_be_bytes();
    [
        kind,
        head.uid.node,
        e[0],
        e[1],
        e[2],
        e[3],
        s[0],
        s[1],
        s[2],
        s[3],
        q[0],
        q[1],
        q[2],
        q[3],
        q[4],
        q[5],
        q[6],
        q[7],
        n[0],
        n[1],
        n[2],
        n[3],
        f[0],
        f[1],
        0,
        0,
        0,
        0,
        0,
        0,
        0,
    ]
}

/// Writes a head behind its gate.
pub fn write_head<D: Disk>(disk: &mut D, head: HeadFields) -> Result<(), DiskRefusal>
    requires power { IsTrue (D.counts disk.old).power }
    requires range { 1024 + 32 * head.number + 32 ≤ (D.counts disk.old).size }
    requires few { (head.number < 65536) × (head.first < 65536) }
    ensures counts { DeviceCalls 1 (D.counts disk.old) (D.counts disk.new) (end_of result) }
    ensures obeyed { IsTrue D.obeys → Obeyed (D.due disk.old) (D.due disk.new) (D.counts disk.old) (D.counts disk.new) (end_of result) }
    ensures timed { IsTrue D.tells → Timed (D.counts disk.old).clock (D.told disk.old) (D.counts disk.new).clock (D.told disk.new) }
    ensures told { IsTrue D.tells
        → CallTold (Write (blocks.head_place head.number + 1) (spelled_head (head_of head))) (D.counts disk.new).clock (D.told disk.old)
        (D.told disk.new) (end_of result) }
{
    let bytes = spell_head(head);
    disk.write(head_place(head.number) + 1, &bytes)
}

/// Writes the gate of a head.
pub fn write_gate<D: Disk>(disk: &mut D, number: u32, gate: u8) -> Result<(), DiskRefusal>
    requires power { IsTrue (D.counts disk.old).power }
    requires range { 1024 + 32 * number + 32 ≤ (D.counts disk.old).size }
    requires few { number < 65536 }
    ensures counts { DeviceCalls 1 (D.counts disk.old) (D.counts disk.new) (end_of result) }
    ensures obeyed { IsTrue D.obeys → Obeyed (D.due disk.old) (D.due disk.new) (D.counts disk.old) (D.counts disk.new) (end_of result) }
    ensures timed { IsTrue D.tells → Timed (D.counts disk.old).clock (D.told disk.old) (D.counts disk.new).clock (D.told disk.new) }
    ensures told { IsTrue D.tells
        → CallTold (Write (blocks.head_place number) (gate ∷ [])) (D.counts disk.new).clock (D.told disk.old) (D.told disk.new)
        (end_of result) }
{
    disk.write(head_place(number), &[gate])
}

/// Whether the gate of a head is open.
pub fn read_gate<D: Disk>(disk: &mut D, number: u32) -> Result<bool, DiskRefusal>
    requires power { IsTrue (D.counts disk.old).power }
    requires range { 1024 + 32 * number + 32 ≤ (D.counts disk.old).size }
    requires few { number < 65536 }
    ensures counts { DeviceCalls 1 (D.counts disk.old) (D.counts disk.new) (end_of result) }
    ensures obeyed { IsTrue D.obeys → Obeyed (D.due disk.old) (D.due disk.new) (D.counts disk.old) (D.counts disk.new) (end_of result) }
    ensures timed { IsTrue D.tells → Timed (D.counts disk.old).clock (D.told disk.old) (D.counts disk.new).clock (D.told disk.new) }
    ensures told { IsTrue D.tells → ReadTold (D.counts disk.new).clock (D.told disk.old) (D.told disk.new) (end_of result) }
    ensures gate { IsTrue D.tells
        → IfOk result (λ is_open. is_open ≡ (slice_index (contents (D.told disk.old)).now (blocks.head_place number) == 225)) }
{
    let mut gate = [0u8; 1];
    disk.read(head_place(number), &mut gate)?;
    Ok(gate[0] == OPEN)
}

/// Writes a block: the number of the next one on its chain, 0 for none, and some bytes of a value.
pub fn write_block<D: Disk>(
    disk: &mut D,
    block: u32,
    next: u16,
    part: &[u8],
) -> Result<(), DiskRefusal>
    requires power { IsTrue (D.counts disk.old).power }
    requires range { block * 1024 + 1024 ≤ (D.counts disk.old).size }
    requires few { (block < 65536) × (length part.now ≤ 1022) }
    ensures counts { DeviceCalls 1 (D.counts disk.old) (D.counts disk.new) (end_of result) }
    ensures obeyed { IsTrue D.obeys → Obeyed (D.due disk.old) (D.due disk.new) (D.counts disk.old) (D.counts disk.new) (end_of result) }
    ensures timed { IsTrue D.tells → Timed (D.counts disk.old).clock (D.told disk.old) (D.counts disk.new).clock (D.told disk.new) }
    ensures told { IsTrue D.tells
        → CallTold (Write (block * 1024) (to_be_bytes w16 next ++ part.now)) (D.counts disk.new).clock (D.told disk.old) (D.told disk.new)
        (end_of result) }
{
    let mut bytes = [0u8; 1024];
    let count = 2 + part.len();
    bytes[..2].copy_from_slice(&next.to_be_bytes());
    bytes[2..count].copy_from_slice(part);
    disk.write(block * 1024, &bytes[..count])
}

/// Reads the number of the block behind one on its chain.
pub fn read_next<D: Disk>(disk: &mut D, block: u32) -> Result<u16, DiskRefusal>
    requires power { IsTrue (D.counts disk.old).power }
    requires range { block * 1024 + 1024 ≤ (D.counts disk.old).size }
    requires few { block < 65536 }
    ensures counts { DeviceCalls 1 (D.counts disk.old) (D.counts disk.new) (end_of result) }
    ensures obeyed { IsTrue D.obeys → Obeyed (D.due disk.old) (D.due disk.new) (D.counts disk.old) (D.counts disk.new) (end_of result) }
    ensures timed { IsTrue D.tells → Timed (D.counts disk.old).clock (D.told disk.old) (D.counts disk.new).clock (D.told disk.new) }
    ensures told { IsTrue D.tells → ReadTold (D.counts disk.new).clock (D.told disk.old) (D.told disk.new) (end_of result) }
    ensures next { IsTrue D.tells → IfOk result (λ next. next ≡ blocks.next_block (contents (D.told disk.old)).now block) }
{
    let mut bytes = [0u8; 2];
    disk.read(block * 1024, &mut bytes)?;
    Ok(short_at(&bytes, 0))
}
