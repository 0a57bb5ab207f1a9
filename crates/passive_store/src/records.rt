// The records of a log, as bytes.
ghost use Rattle.std.specs.Prelude.{◌≡◌, ◌⊎◌, ◌+◌, ◌≤◌, ◌==◌, ◌&&◌, nat_le, not, [], ◌∷◌, ◌++◌, length, slice_index};
ghost use Rattle.std.specs.Prelude.{slice_range, take, drop, IsTrue, IfOk, IfErr, IfSome, is_some};
ghost use Rattle.std.specs.Int.{w32, from_be_bytes};
ghost use Rattle.eden_disk.specs.Told.{contents};
ghost use Rattle.eden_disk.specs.Timed.{Timed};
ghost use Rattle.eden_disk.specs.Calls.{DeviceCalls, Obeyed, ReadTold, end_of};
ghost use Rattle.passive_store.specs.declared.store.StoreRefusal.TheVariants.{Damaged};
ghost use Rattle.passive_store.specs.Kept.{end_of_store, IsDiskRefusal};
ghost use Rattle.passive_store.specs.Log.{length_of, uid_of, kind_of, are_fields};
ghost use Rattle.passive_store.specs.LogLayout.{spelled_record};
ghost use Rattle.passive_store.specs.Records.{IsHeader, IsHeaderAt, IsDamagedAt};

use crate::store::StoreRefusal;
use capability::{BODY_LIMIT, Uid};
use eden_disk::{Disk, DiskRefusal};
use std::alloc::{AllocError, Global};

/// The gate of a record that stands.
pub const OPEN: u8 = 0xE1;

/// The kind of a record that gives its uid a body.
pub const VALUE: u8 = 1;

/// The kind of a record that removes its uid.
pub const DELETED: u8 = 2;

/// What a record says between its gate and its body.
#[derive(Clone, Copy, Debug, PartialEq, Eq)]
pub struct Header {
    /// The uid that the record gives a body, or removes.
    pub uid: Uid,
    /// Whether the record removes its uid.
    pub removal: bool,
    /// How many bytes of body stand behind the header, 0 in a removal.
    pub length: u32,
}

/// The bytes of a record, from behind its gate to the closed gate that follows. A removal has no body.
pub fn make_record(
    alloc: Global,
    node: u8,
    uid: Uid,
    kind: u8,
    body: &[u8],
) -> Result<Vec<u8>, AllocError>
    requires limit { length body.now ≤ 262144 }
    ensures record_of { IfOk result (λ v. v.items ≡ spelled_record node uid kind (length body.now) body.now ++ 0 ∷ []) }
{
    let mut bytes = Vec::with_capacity(alloc, body.len() + 15)?;
    let length = body.len() as u32;
    bytes.extend_from_slice(&length.to_be_bytes())?;
    bytes.push(node)?;
    bytes.extend_from_slice(&uid.epoch.to_be_bytes())?;
    bytes.extend_from_slice(&uid.serial.to_be_bytes())?;
    bytes.push(kind)?;
    bytes.extend_from_slice(body)?;
    bytes.push(0)?;
    Ok(bytes)
}

/// The number that the four bytes from a place on spell.
fn number_at(bytes: &[u8], at: usize) -> u32
    requires { at + 4 ≤ length bytes.now }
    ensures { result ≡ from_be_bytes w32 (slice_range bytes.now at (at + 4)) }
{
    u32::from_be_bytes([bytes[at], bytes[at + 1], bytes[at + 2], bytes[at + 3]])
}

/// The header that 14 bytes spell, where its record fits before the end of the log that many bytes behind its gate.
fn parse_header(fields: &[u8], node: u8, left: u32) -> Option<Header>
    requires { length fields.now ≡ 14 }
    ensures found { is_some result ≡
        (nat_le (14 + length_of fields.now + 1) left && are_fields node (length_of fields.now) (uid_of fields.now) (kind_of fields.now)) }
    ensures header { IfSome result (λ h. IsHeader h fields.now) }
    ensures limit { IfSome result (λ h. h.length ≤ 262144) }
{
    let length = number_at(fields, 0);
    let uid = Uid {
        node: fields[4],
        epoch: number_at(fields, 5),
        serial: number_at(fields, 9),
    };
    let kind = fields[13];
    if length as u64 + 15 <= left as u64 && are_of_format(node, length, uid, kind) {
        Some(Header {
            uid,
            removal: kind != VALUE,
            length,
        })
    } else {
        None
    }
}

/// Whether the fields of a record are of the format.
fn are_of_format(node: u8, length: u32, uid: Uid, kind: u8) -> bool
    ensures format { result ≡ are_fields node length uid kind }
    ensures limit { IsTrue result → length ≤ 262144 }
{
    let known_kind = kind == VALUE || kind == DELETED && length == 0;
    let reserved = uid.epoch == 0 && uid.serial == 0 && kind == VALUE && length == 4;
    let eject = uid.epoch != 0 && uid.serial != 0;
    length <= BODY_LIMIT && known_kind && uid.node == node && (reserved || eject)
}

/// Reads the place of a record of a log in the first `size` bytes of a disk: its header, or None where its gate is closed.
pub fn read_header<D: Disk>(
    disk: &mut D,
    node: u8,
    size: u32,
    place: u32,
) -> Result<Option<Header>, StoreRefusal>
    requires power { IsTrue (D.counts disk.old).power }
    requires within { size ≤ (D.counts disk.old).size }
    requires range { place + 1 ≤ size }
    ensures counts { DeviceCalls 1 (D.counts disk.old) (D.counts disk.new) (end_of_store result) }
    ensures obeyed { IsTrue D.obeys
        → Obeyed (D.due disk.old) (D.due disk.new) (D.counts disk.old) (D.counts disk.new) (end_of_store result) }
    ensures timed { IsTrue D.tells → Timed (D.counts disk.old).clock (D.told disk.old) (D.counts disk.new).clock (D.told disk.new) }
    ensures only { IfErr result (λ e. IsDiskRefusal e ⊎ (e ≡ Damaged place)) }
    ensures told { IsTrue D.tells → ReadTold (D.counts disk.new).clock (D.told disk.old) (D.told disk.new) (end_of_store result) }
    ensures fits { IfOk result (λ found. IfSome found (λ h. place + h.length + 16 ≤ size)) }
    ensures limit { IfOk result (λ found. IfSome found (λ h. h.length ≤ 262144)) }
    ensures header { IsTrue D.tells → IfOk result (λ found. IsHeaderAt node (take size (contents (D.told disk.old)).now) place found) }
    ensures damaged { IsTrue D.tells
        → IfErr result (λ e. e ≡ Damaged place → IsDamagedAt node (take size (contents (D.told disk.old)).now) place) }
{
    // What a disk tells is as long as the disk is.
    let _size = disk.size();
    let left = size - place;
    let mut bytes = [0u8; 15];
    let count = left.min(15) as usize;
    disk.read(place, &mut bytes[..count])?;
    if bytes[0] != OPEN {
        return Ok(None);
    }
    match parse_header(&bytes[1..15], node, left - 1) {
        Some(header) => Ok(Some(header)),
        None => Err(StoreRefusal::Damaged { place }),
    }
}

/// Whether the gate at a place is open.
pub fn read_gate<D: Disk>(disk: &mut D, place: u32) -> Result<bool, DiskRefusal>
    requires power { IsTrue (D.counts disk.old).power }
    requires range { place + 1 ≤ (D.counts disk.old).size }
    ensures counts { DeviceCalls 1 (D.counts disk.old) (D.counts disk.new) (end_of result) }
    ensures obeyed { IsTrue D.obeys → Obeyed (D.due disk.old) (D.due disk.new) (D.counts disk.old) (D.counts disk.new) (end_of result) }
    ensures timed { IsTrue D.tells → Timed (D.counts disk.old).clock (D.told disk.old) (D.counts disk.new).clock (D.told disk.new) }
    ensures told { IsTrue D.tells → ReadTold (D.counts disk.new).clock (D.told disk.old) (D.told disk.new) (end_of result) }
    ensures gate { IsTrue D.tells → IfOk result (λ is_open. is_open ≡ (slice_index (contents (D.told disk.old)).now place == 225)) }
{
    let mut gate = [0u8; 1];
    disk.read(place, &mut gate)?;
    Ok(gate[0] == OPEN)
}
