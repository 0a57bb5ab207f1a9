//! What a disk in memory holds.
ghost use Rattle.std.specs.Prelude.{◌≡◌, ◌+◌, ◌≤◌, ◌<◌, ◌^◌, length, [], ◌∷◌, ◌++◌, IfOk, OnOk, OnErr, slice_range};
ghost use Rattle.std.specs.Prelude.{map, reverse, vec_len, vec_capacity};
ghost use Rattle.std.specs.List.{All};
ghost use Rattle.eden_disk.specs.Images.{garbled, image_left, half_written, after_cut};
ghost use Rattle.eden_disk.specs.SimDisk.{zeros};
ghost use Rattle.eden_disk.specs.Telling.{told_with};
ghost use Rattle.eden_disk.specs.Spans.{range_of, AllFit, AreHeld, AgreeElsewhere};

use crate::disk::ImageMode;
use crate::image::Image;
use crate::telling::{Change, Telling};
use std::alloc::{AllocError, Global};
use std::marker::Model;

/// Places that were written since the last sync.
#[derive(Clone, Copy, Debug)]
pub struct Span {
    pub at: u32,
    pub len: u32,
}

/// The bytes as a read sees them and as of the last sync, which differ at most at the unsynced places. A call costs
/// time in the bytes that it is given, a sync and a cut in those that were written since the last one. A write takes the
/// room for both up to its place: so a sync and a cut take none.
///
/// Contracts see what it tells, of which only what code reads takes memory.
#[derive(Drop)]
pub struct Medium {
    alloc: Global,
    seen: Image,
    stable: Image,
    unsynced: Vec<Span>,
    telling: Telling,
}

impl Model for Medium {
    ghost use Rattle.std.specs.Prelude.{◌<◌, ◌^◌, length};
    ghost use Rattle.eden_disk.specs.Told.{Told, contents};
    ghost use Rattle.eden_disk.specs.Spans.{IsKeptBy, AreHeld};

    ghost Value = { Told };

    ghost view = { λ p. p.telling.told };

    ghost invariant = { λ p. IsKeptBy (contents p.telling.told) p.seen.bytes p.stable.bytes p.unsynced.items
        × (length p.seen.bytes < 2 ^ 32) × AreHeld p.seen.reach p.stable.reach p.unsynced.items };
}

impl Medium {
    ghost use Rattle.eden_disk.specs.Told.{Told, contents, noted, Left, Wrote, Synced};
    ghost use Rattle.eden_disk.specs.Calls.{IsCut};

    /// A medium of zeros, which takes no memory.
    pub fn blank(alloc: Global, size: u32) -> Medium
        ensures { result ≡ record { image = zeros size; acts = [] } }
    {
        Medium {
            alloc,
            seen: Image::blank(alloc, size),
            stable: Image::blank(alloc, size),
            unsynced: Vec::new(alloc),
            telling: tell(&Telling::new(), Change::Blank { size }),
        }
    }

    /// A medium that holds this image, with nothing unsynced.
    pub fn of(alloc: Global, image: Vec<u8>) -> Result<Medium, AllocError>
        requires { length image.items < 2 ^ 32 }
        ensures { IfOk result (λ m. m ≡ record { image = image.items; acts = [] }) }
    {
        let telling = tell(&Telling::new(), Change::Begun { image: &image });
        Ok(Medium {
            alloc,
            seen: Image::of(alloc, &image)?,
            stable: Image::of(alloc, &image)?,
            unsynced: Vec::new(alloc),
            telling,
        })
    }

    pub fn size(&self) -> u32
        ensures size { result ≡ length (contents self.now).now }
        ensures whole { Left (contents self.now) (contents self.now).now }
    {
        self.seen.size()
    }

    /// It tells bytes.
    pub fn holds_bytes(&self)
        ensures { All (λ byte. byte < 256) (contents self.now).now }
    {
        self.seen.holds_bytes();
    }

    /// A copy of all bytes as a read sees them.
    pub fn image(&self, alloc: Global) -> Result<Vec<u8>, AllocError>
        ensures { IfOk result (λ bytes. bytes.items ≡ (contents self.now).now) }
    {
        let mut bytes = vec![in alloc; 0u8; self.seen.size() as usize]?;
        self.seen.read(0, &mut bytes);
        Ok(bytes)
    }

    pub fn read(&self, at: u32, out: &mut [u8])
        requires { at + length out.old ≤ length (contents self.now).now }
        ensures { out.new ≡ slice_range (contents self.now).now at (at + length out.old) }
    {
        self.seen.read(at, out);
    }

    /// Makes all bytes stable.
    pub fn sync(&mut self, clock: u64)
        ensures { self.new ≡ noted (Synced clock) self.old }
    {
        copy_spans(&mut self.stable, &self.seen, &self.unsynced);
        self.unsynced.clear();
        self.telling = tell(&self.telling, Change::Synced { clock });
    }

    /// Writes bytes. Where there is no memory nothing changes.
    pub fn write(&mut self, clock: u64, at: u32, bytes: &[u8]) -> Result<(), AllocError>
        requires { at + length bytes.now ≤ length (contents self.old).now }
        ensures ok { OnOk result (self.new ≡ noted (Wrote clock at bytes.now) self.old) }
        ensures err { OnErr result (self.new ≡ self.old) }
    {
        self.unsynced.reserve(1)?;
        let len = bytes.len() as u32;
        self.stable.reach(self.alloc, at + len)?;
        self.seen.reach(self.alloc, at + len)?;
        self.seen.put(at, bytes);
        push_within(&mut self.unsynced, Span { at, len });
        self.telling = tell(&self.telling, Change::Written { clock, at, bytes });
        Ok(())
    }

    /// Writes the first half of the bytes, as a write that fails in its midst, and what stood behind it: its whole
    /// range is unsynced.
    pub fn write_half(&mut self, clock: u64, at: u32, bytes: &[u8]) -> Result<(), AllocError>
        requires { at + length bytes.now ≤ length (contents self.old).now }
        ensures ok { OnOk result (self.new ≡ noted (Wrote clock at (half_written at bytes.now (contents self.old).now)) self.old) }
        ensures err { OnErr result (self.new ≡ self.old) }
    {
        let half = bytes.len() / 2;
        let mut left = Vec::from_slice(self.alloc, bytes)?;
        self.read(at + half as u32, &mut left[half..]);
        self.write(clock, at, &left)
    }

    /// Leaves an image, as a power cut does.
    pub fn cut(&mut self, clock: u64, mode: ImageMode)
        ensures exact { self.new ≡ after_cut mode clock self.old }
        ensures cut { IsCut clock self.old self.new }
        ensures image { (contents self.new).now ≡ image_left mode (contents self.old) }
        ensures size { length (contents self.new).now ≡ length (contents self.old).now }
    {
        if self.unsynced.is_empty() {
            return;
        }
        leave(&mut self.seen, &mut self.stable, &self.unsynced, mode);
        self.unsynced.clear();
        self.telling = tell(&self.telling, Change::Cut { clock, mode });
    }
}

/// What is told with one more change.
fn tell(telling: &Telling, change: Change<'_>) -> Telling
    ensures { result.told ≡ told_with change.entry telling.now.told }
{
    telling.then(&change)
}

/// Adds an item for which there is room.
fn push_within<T: Drop>(items: &mut Vec<T>, item: T)
    requires { vec_len items.old + 1 ≤ vec_capacity items.old }
    ensures items { items.new.items ≡ items.old.items ++ item ∷ [] }
    ensures len { vec_len items.new ≡ vec_len items.old + 1 }
    ensures capacity { vec_capacity items.old ≤ vec_capacity items.new }
{
    let _ = items.push(item);
}

/// Makes both the image that a power cut leaves.
fn leave(seen: &mut Image, stable: &mut Image, unsynced: &Vec<Span>, mode: ImageMode)
    requires same { length seen.old.bytes ≡ length stable.old.bytes }
    requires fit { AllFit (length seen.old.bytes) unsynced.now.items }
    requires held { AreHeld seen.old.reach stable.old.reach unsynced.now.items }
    requires elsewhere { AgreeElsewhere (map range_of (reverse unsynced.now.items)) seen.old.bytes stable.old.bytes }
    ensures seen { seen.new.bytes
        ≡ image_left mode (record {
          now = seen.old.bytes;
          stable = stable.old.bytes;
          unsynced = map range_of (reverse unsynced.now.items);
        }) }
    ensures stable { stable.new.bytes ≡ seen.new.bytes }
    ensures len { length seen.new.bytes ≡ length seen.old.bytes }
{
    match mode {
        ImageMode::Keep => copy_spans(stable, seen, unsynced),
        ImageMode::Lose => copy_spans(seen, stable, unsynced),
        ImageMode::Garble { byte } => {
            garble(stable, unsynced, byte);
            copy_spans(seen, stable, unsynced);
        }
    }
}

/// Writes one byte at each of these places.
fn garble(into: &mut Image, spans: &Vec<Span>, byte: u8)
    requires fit { AllFit (length into.old.bytes) spans.now.items }
    requires held { AllFit into.old.reach spans.now.items }
    ensures after { into.new.bytes ≡ garbled byte (map range_of (reverse spans.now.items)) into.old.bytes }
    ensures len { length into.new.bytes ≡ length into.old.bytes }
    ensures reach { into.new.reach ≡ into.old.reach }
{
    for span in spans {
        into.fill(span.at, span.len, byte);
    }
}

/// Makes the bytes of `into` those of `from`, from which they differ at these places alone.
fn copy_spans(into: &mut Image, from: &Image, spans: &Vec<Span>)
    requires same { length into.old.bytes ≡ length from.now.bytes }
    requires fit { AllFit (length into.old.bytes) spans.now.items }
    requires into_held { AllFit into.old.reach spans.now.items }
    requires from_held { AllFit from.now.reach spans.now.items }
    requires elsewhere { AgreeElsewhere (map range_of (reverse spans.now.items)) into.old.bytes from.now.bytes }
    ensures { into.new.bytes ≡ from.now.bytes }
{
    for span in spans {
        into.copy_from(from, span.at, span.len);
    }
}
