//! Bytes of which memory holds those in front of some place.
ghost use Rattle.std.specs.Prelude.{◌≡◌, ◌+◌, ◌-◌, ◌++◌, ◌≤◌, ◌<◌, ◌^◌, length, max, replicate, slice_range, OnOk, OnErr, IsTrue};
ghost use Rattle.std.specs.Prelude.{vec_capacity};
ghost use Rattle.std.specs.List.{All};
ghost use Rattle.eden_disk.specs.Told.{overlay};
ghost use Rattle.eden_disk.specs.SimDisk.{zeros};

use std::alloc::{AllocError, Global};
use std::marker::Model;

/// So many bytes, of which memory holds those in front of some place. All behind it are zeros.
///
/// Only `reach` takes memory, up to a place; in front of that place the bytes can then be written. A call costs time in the
/// bytes that it is given, and in the zeros between them and those that were held: zeros that are written behind all that
/// is held are not. A contract sees all bytes, and how far memory reaches.
#[derive(Drop)]
pub struct Front {
    bytes: Vec<u8>,
    reach: u32,
    size: u32,
}

// Each item is a byte.
fn are_bytes(bytes: &[u8])
    ensures { All (λ byte. byte < 256) bytes.now }
{}

impl Model for Front {
    ghost use Rattle.std.specs.Prelude.{length, vec_capacity};
    ghost use Rattle.eden_disk.specs.Fronts.{Fronted, IsFront, with_zeros};

    ghost Value = { Fronted };

    ghost view = { λ i. record { bytes = with_zeros i.bytes.items i.size; held = length i.bytes.items; reach = i.reach } };

    ghost invariant = { λ i. IsFront (length i.bytes.items) i.reach i.size (vec_capacity i.bytes) };
}

impl Front {
    /// So many zeros, which take no memory.
    pub fn blank(alloc: Global, size: u32) -> Front
        ensures bytes { result.bytes ≡ zeros size }
        ensures reach { result.reach ≡ 0 }
    {
        Front {
            bytes: Vec::new(alloc),
            reach: 0,
            size,
        }
    }

    /// These bytes.
    pub fn of(bytes: Vec<u8>) -> Front
        requires { length bytes.items < 2 ^ 32 }
        ensures bytes { result.bytes ≡ bytes.items }
        ensures reach { result.reach ≡ length bytes.items }
    {
        let size = bytes.len() as u32;
        Front {
            bytes,
            reach: size,
            size,
        }
    }

    /// Each is a byte.
    pub fn holds_bytes(&self)
        ensures { All (λ byte. byte < 256) self.now.bytes }
    {
        are_bytes(&self.bytes);
    }

    pub fn size(&self) -> u32
        ensures { result ≡ length self.now.bytes }
    {
        self.size
    }

    /// Takes the memory for the bytes up to a place. Where there is none nothing changes.
    pub fn reach(&mut self, alloc: Global, upto: u32) -> Result<(), AllocError>
        requires { upto ≤ length self.old.bytes }
        ensures bytes { self.new.bytes ≡ self.old.bytes }
        ensures ok { OnOk result (self.new.reach ≡ max self.old.reach upto) }
        ensures err { OnErr result (self.new.reach ≡ self.old.reach) }
    {
        if self.reach < upto {
            make_room(alloc, &mut self.bytes, upto as usize)?;
            self.reach = upto;
        }
        Ok(())
    }

    // Has memory hold the bytes up to a place that it reaches.
    fn hold(&mut self, upto: usize)
        requires { upto ≤ self.old.reach }
        ensures bytes { self.new.bytes ≡ self.old.bytes }
        ensures reach { self.new.reach ≡ self.old.reach }
        ensures held { upto ≤ self.new.held }
    {
        pad(&mut self.bytes, upto);
    }

    pub fn read(&self, at: u32, out: &mut [u8])
        requires { at + length out.old ≤ length self.now.bytes }
        ensures { out.new ≡ slice_range self.now.bytes at (at + length out.old) }
    {
        let from = self.bytes.len().min(at as usize);
        let until = self.bytes.len().min(at as usize + out.len());
        let held = until - from;
        out[..held].copy_from_slice(&self.bytes[from..until]);
        out[held..].fill(0);
    }

    /// Writes bytes over those at a place.
    pub fn put(&mut self, at: u32, bytes: &[u8])
        requires { at + length bytes.now ≤ self.old.reach }
        ensures bytes { self.new.bytes ≡ overlay at bytes.now self.old.bytes }
        ensures reach { self.new.reach ≡ self.old.reach }
    {
        let from = at as usize;
        if self.bytes.len() <= from && are_zeros(bytes) {
            return;
        }
        let until = from + bytes.len();
        self.hold(until);
        self.bytes[from..until].copy_from_slice(bytes);
    }

    /// Writes one byte over so many.
    pub fn fill(&mut self, at: u32, len: u32, byte: u8)
        requires { at + len ≤ self.old.reach }
        ensures bytes { self.new.bytes ≡ overlay at (replicate len byte) self.old.bytes }
        ensures reach { self.new.reach ≡ self.old.reach }
    {
        let from = at as usize;
        let until = from + len as usize;
        self.hold(until);
        self.bytes[from..until].fill(byte);
    }

    /// Writes what others have at a place over the bytes there.
    pub fn copy_from(&mut self, other: &Front, at: u32, len: u32)
        requires self_reach { at + len ≤ self.old.reach }
        requires other_reach { at + len ≤ other.now.reach }
        ensures bytes { self.new.bytes ≡ overlay at (slice_range other.now.bytes at (at + len)) self.old.bytes }
        ensures reach { self.new.reach ≡ self.old.reach }
    {
        let from = at as usize;
        if self.bytes.len() <= from && other.bytes.len() <= from {
            return;
        }
        let until = from + len as usize;
        self.hold(until);
        other.read(at, &mut self.bytes[from..until]);
    }
}

/// Whether all are zeros.
fn are_zeros(bytes: &[u8]) -> bool
    ensures { IsTrue result → bytes.now ≡ replicate (length bytes.now) 0 }
{
    let mut greatest = 0;
    for byte in bytes {
        greatest = greatest.max(*byte);
    }
    greatest == 0
}

/// Makes room up to a length. Of the old memory only what is held is looked at, where a growth in place would copy it whole.
fn make_room(alloc: Global, bytes: &mut Vec<u8>, upto: usize) -> Result<(), AllocError>
    ensures items { bytes.new.items ≡ bytes.old.items }
    ensures capacity { vec_capacity bytes.old ≤ vec_capacity bytes.new }
    ensures room { OnOk result (upto ≤ vec_capacity bytes.new) }
{
    if bytes.capacity() < upto {
        let room = bytes.capacity().saturating_mul(2).max(upto);
        let mut roomy = Vec::with_capacity(alloc, room)?;
        roomy.extend_from_slice(bytes)?;
        *bytes = roomy;
    }
    Ok(())
}

/// Adds zeros up to a length, for which there is room.
fn pad(bytes: &mut Vec<u8>, upto: usize)
    requires { upto ≤ vec_capacity bytes.old }
    ensures items { bytes.new.items ≡ bytes.old.items ++ replicate (upto - length bytes.old.items) 0 }
    ensures capacity { vec_capacity bytes.old ≤ vec_capacity bytes.new }
{
    if bytes.len() < upto {
        let _ = bytes.resize(upto, 0);
    }
}
