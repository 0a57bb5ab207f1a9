//! The bytes of a disk in memory.
ghost use Rattle.std.specs.Prelude.{◌≡◌, ◌+◌, ◌≤◌, ◌<◌, ◌^◌, length, replicate, slice_range, IfOk, OnOk};
ghost use Rattle.std.specs.List.{All};
ghost use Rattle.eden_disk.specs.Told.{overlay};
ghost use Rattle.eden_disk.specs.SimDisk.{zeros};

use crate::front::Front;
use std::alloc::{AllocError, Global};
use std::marker::Model;

/// The first part is one of so many, and the second one has all others.
const PARTS: u32 = 32;

/// So many bytes in two parts, of each of which memory holds those in front of some place. All others are zeros.
///
/// A store that has a table in front of its data takes both up from their fronts: so memory holds what it uses, and not
/// all that lies between. Only `reach` takes memory, up to a place; in front of that place the bytes can then be written.
/// A contract sees all bytes, and how far memory reaches.
#[derive(Drop)]
pub struct Image {
    size: u32,
    first: Front,
    rest: Front,
}

impl Model for Image {
    ghost use Rattle.std.specs.Prelude.{◌++◌};
    ghost use Rattle.eden_disk.specs.Imaged.{Imaged, IsParted, reach_of};

    ghost Value = { Imaged };

    ghost view = { λ i. record { bytes = i.first.bytes ++ i.rest.bytes; reach = reach_of i.first i.rest } };

    ghost invariant = { λ i. IsParted i.size i.first i.rest };
}

impl Image {
    /// An image of zeros, which takes no memory.
    pub fn blank(alloc: Global, size: u32) -> Image
        ensures { result.bytes ≡ zeros size }
    {
        let first = size / PARTS;
        Image {
            size,
            first: Front::blank(alloc, first),
            rest: Front::blank(alloc, size - first),
        }
    }

    /// An image of these bytes.
    pub fn of(alloc: Global, bytes: &[u8]) -> Result<Image, AllocError>
        requires { length bytes.now < 2 ^ 32 }
        ensures bytes { IfOk result (λ i. i.bytes ≡ bytes.now) }
    {
        let size = bytes.len() as u32;
        let (first, rest) = bytes.split_at((size / PARTS) as usize);
        Ok(Image {
            size,
            first: Front::of(Vec::from_slice(alloc, first)?),
            rest: Front::of(Vec::from_slice(alloc, rest)?),
        })
    }

    /// Each is a byte.
    pub fn holds_bytes(&self)
        ensures { All (λ byte. byte < 256) self.now.bytes }
    {
        self.first.holds_bytes();
        self.rest.holds_bytes();
    }

    pub fn size(&self) -> u32
        ensures { result ≡ length self.now.bytes }
    {
        self.size
    }

    /// Takes the memory for the bytes up to a place. Where there is none no byte changes.
    pub fn reach(&mut self, alloc: Global, upto: u32) -> Result<(), AllocError>
        requires { upto ≤ length self.old.bytes }
        ensures bytes { self.new.bytes ≡ self.old.bytes }
        ensures grows { self.old.reach ≤ self.new.reach }
        ensures ok { OnOk result (upto ≤ self.new.reach) }
    {
        let first = self.first.size();
        if upto <= first {
            self.first.reach(alloc, upto)
        } else {
            self.first.reach(alloc, first)?;
            self.rest.reach(alloc, upto - first)
        }
    }

    pub fn read(&self, at: u32, out: &mut [u8])
        requires { at + length out.old ≤ length self.now.bytes }
        ensures { out.new ≡ slice_range self.now.bytes at (at + length out.old) }
    {
        let first = self.first.size();
        if first <= at {
            self.rest.read(at - first, out);
        } else {
            let here = out.len().min((first - at) as usize);
            let (front, behind) = out.split_at_mut(here);
            self.first.read(at, front);
            self.rest.read(0, behind);
        }
    }

    /// Writes bytes over those at a place.
    pub fn put(&mut self, at: u32, bytes: &[u8])
        requires { at + length bytes.now ≤ self.old.reach }
        ensures bytes { self.new.bytes ≡ overlay at bytes.now self.old.bytes }
        ensures reach { self.new.reach ≡ self.old.reach }
    {
        let first = self.first.size();
        if first <= at {
            self.rest.put(at - first, bytes);
        } else {
            let here = bytes.len().min((first - at) as usize);
            let (front, behind) = bytes.split_at(here);
            self.first.put(at, front);
            self.rest.put(0, behind);
        }
    }

    /// Writes one byte over so many.
    pub fn fill(&mut self, at: u32, len: u32, byte: u8)
        requires { at + len ≤ self.old.reach }
        ensures bytes { self.new.bytes ≡ overlay at (replicate len byte) self.old.bytes }
        ensures reach { self.new.reach ≡ self.old.reach }
    {
        let first = self.first.size();
        if first <= at {
            self.rest.fill(at - first, len, byte);
        } else {
            let here = len.min(first - at);
            self.first.fill(at, here, byte);
            self.rest.fill(0, len - here, byte);
        }
    }

    /// Writes what another image of the same size has at a place over the bytes there.
    pub fn copy_from(&mut self, other: &Image, at: u32, len: u32)
        requires same { length self.old.bytes ≡ length other.now.bytes }
        requires self_reach { at + len ≤ self.old.reach }
        requires other_reach { at + len ≤ other.now.reach }
        ensures bytes { self.new.bytes ≡ overlay at (slice_range other.now.bytes at (at + len)) self.old.bytes }
        ensures reach { self.new.reach ≡ self.old.reach }
    {
        let first = self.first.size();
        if first <= at {
            self.rest.copy_from(&other.rest, at - first, len);
        } else {
            let here = len.min(first - at);
            self.first.copy_from(&other.first, at, here);
            self.rest.copy_from(&other.rest, 0, len - here);
        }
    }
}
