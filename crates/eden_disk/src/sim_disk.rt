// A disk in memory that tells all that it holds, and fails and stops exactly as it is armed.
ghost use Rattle.std.specs.Prelude.{◌≡◌, ◌+◌, ◌≤◌, ◌<◌, ◌-◌, ◌^◌, ℕ, Bool, true, IsTrue, length, [], slice_range, IfOk, OnOk};
ghost use Rattle.std.specs.Prelude.{OnErr, Err, Some, None};
ghost use Rattle.std.specs.List.{All};
ghost use Rattle.eden_disk.specs.Told.{contents, Left};
ghost use Rattle.eden_disk.specs.Calls.{end_of, calls_until, one_more, DeviceCall, Obeys, IsSpent, ReadTold, SyncTold, WriteTold, IsCut};
ghost use Rattle.eden_disk.specs.SimDisk.{begun_with, blank_of, due_of, next_end, mode_of, counted, failed, stopped, without_memory};
ghost use Rattle.eden_disk.specs.SimDisk.{after_read, after_sync, after_write, after_power_cut, armed_with, IsCall};

use crate::disk::{Arm, Disk, DiskRefusal, ImageMode};
use crate::medium::Medium;
use std::alloc::{AllocError, Global};
use std::marker::Model;

/// An armed stop: the clock at which it falls due, and the image that it leaves.
#[derive(Clone, Copy, Debug)]
pub struct ArmedStop {
    pub due: u128,
    pub mode: ImageMode,
}

/// A disk in memory, for simulations and tests. It tells all that it holds, and fails and stops exactly as it is armed.
///
/// An armed failure or stop falls on one device call, and a stop goes before a failure. A write that is armed to fail
/// writes the first half of its bytes, rounded down, and its whole range is unsynced. A write that is armed to stop has
/// written all its bytes when the power goes. The image that a power cut leaves has, at the unsynced places, the bytes
/// of its mode, and elsewhere what was synced.
///
/// Beside the two images, as of now and as of the last sync, it holds where it is unsynced. A write takes the room for both
/// images up to its place. Of each of two parts of an image it holds the bytes up to the last one that was written and is
/// not zero, and maybe some zeros behind it. So a blank disk takes no memory for its bytes, and zeros that are written over
/// it are not held.
///
/// Of the device calls only `write` takes memory, before it does anything else. Where there is none it changes nothing but
/// the clock and the counts of faults and wants, and answers `Failed`.
#[derive(Drop)]
pub struct SimDisk {
    medium: Medium,
    size: u32,
    power: bool,
    clock: u64,
    faults: u64,
    stops: u64,
    wants: u64,
    failure: Option<u128>,
    stop: Option<ArmedStop>,
}

impl Model for SimDisk {
    ghost use Rattle.std.specs.Prelude.{◌≡◌, length};
    ghost use Rattle.eden_disk.specs.Told.{contents, Left};
    ghost use Rattle.eden_disk.specs.SimDisk.{Simulated};

    ghost Value = { Simulated };

    ghost view = { λ d. record {
      counts = record {
        size = d.size;
        power = d.power;
        clock = d.clock;
        faults = d.faults;
        stops = d.stops;
        wants = d.wants;
      };
      told = d.medium;
      failure = d.failure;
      stop = d.stop;
    } };

    ghost invariant = { λ d. length (contents d.medium).now ≡ d.size };
}

impl SimDisk {
    /// A disk of zero bytes, with power and no faults. It takes no memory for them.
    pub fn new(alloc: Global, size: u32) -> Result<SimDisk, AllocError>
        ensures { IfOk result (λ d. d ≡ blank_of size) }
    {
        Ok(SimDisk::begin(Medium::blank(alloc, size)))
    }

    /// A disk that holds this image, with power and no faults.
    pub fn of(alloc: Global, image: Vec<u8>) -> Result<SimDisk, AllocError>
        requires { length image.items < 2 ^ 32 }
        ensures { IfOk result (λ d. d ≡ begun_with image.items) }
    {
        let medium = Medium::of(alloc, image)?;
        Ok(SimDisk::begin(medium))
    }

    /// A disk over a medium that has told no change.
    fn begin(medium: Medium) -> SimDisk
        requires { medium.acts ≡ [] }
        ensures { result ≡ begun_with medium.image }
    {
        let size = medium.size();
        SimDisk {
            medium,
            size,
            power: true,
            clock: 0,
            faults: 0,
            stops: 0,
            wants: 0,
            failure: None,
            stop: None,
        }
    }

    /// What a read sees are bytes, each below 256.
    pub fn holds_bytes(&self)
        ensures { All (λ byte. byte < 256) (contents self.now.told).now }
    {
        self.medium.holds_bytes();
    }

    /// A copy of all bytes as a read sees them.
    pub fn image(&self, alloc: Global) -> Result<Vec<u8>, AllocError>
        ensures { IfOk result (λ bytes. bytes.items ≡ (contents self.now.told).now) }
    {
        self.medium.image(alloc)
    }

    /// Counts a device call, and says how it is to end.
    fn count_call(&mut self) -> Result<(), DiskRefusal>
        ensures after { self.new ≡ counted self.old }
        ensures end { end_of result ≡ next_end self.old }
        ensures spent { 2 ^ 64 - 1 ≤ self.old.counts.clock → result ≡ Err DiskRefusal.Failed }
    {
        if self.clock == u64::MAX {
            return Err(DiskRefusal::Failed);
        }
        self.clock += 1;
        let clock = self.clock as u128;
        if let Some(stop) = self.stop {
            if stop.due == clock {
                return Err(DiskRefusal::Stopped);
            }
        }
        if let Some(due) = self.failure {
            if due == clock {
                return Err(DiskRefusal::Failed);
            }
        }
        Ok(())
    }

    fn fail(&mut self) -> DiskRefusal
        ensures after { self.new ≡ failed self.old }
        ensures refusal { result ≡ DiskRefusal.Failed }
    {
        self.faults = self.faults.saturating_add(1);
        DiskRefusal::Failed
    }

    fn stop(&mut self) -> DiskRefusal
        ensures after { self.new ≡ stopped self.old }
        ensures cut { IsCut self.old.counts.clock self.old.told self.new.told }
        ensures refusal { result ≡ DiskRefusal.Stopped }
    {
        let mode = match self.stop {
            Some(stop) => stop.mode,
            None => ImageMode::Keep,
        };
        self.medium.cut(self.clock, mode);
        self.power = false;
        self.stops = self.stops.saturating_add(1);
        DiskRefusal::Stopped
    }

    fn want(&mut self) -> DiskRefusal
        ensures after { self.new ≡ record (failed self.old) {
          counts = record
              (failed self.old).counts { wants = one_more self.old.counts.wants };
        } }
        ensures refusal { result ≡ DiskRefusal.Failed }
    {
        self.wants = self.wants.saturating_add(1);
        self.fail()
    }
}

impl Disk for SimDisk {
    ghost tells = { true };

    ghost obeys = { true };

    ghost counts = { λ d. d.counts };

    ghost told = { λ d. d.told };

    ghost due = { due_of };

    fn size(&self) -> u32 {
        self.medium.size()
    }

    fn clock(&self) -> u64 {
        self.clock
    }

    fn faults(&self) -> u64 {
        self.faults
    }

    fn stops(&self) -> u64 {
        self.stops
    }

    fn wants(&self) -> u64 {
        self.wants
    }

    fn read(&mut self, at: u32, out: &mut [u8]) -> Result<(), DiskRefusal>
        requires power { IsTrue self.old.counts.power }
        requires range { at + length out.old ≤ self.old.counts.size }
        ensures counts { DeviceCall self.old.counts self.new.counts (end_of result) }
        ensures obeys { Obeys (due_of self.old) (due_of self.new) self.old.counts self.new.counts (end_of result) }
        ensures spent { 2 ^ 64 - 1 ≤ self.old.counts.clock
            → IsSpent self.old.counts self.new.counts self.old.told self.new.told (end_of result) }
        ensures told { ReadTold self.new.counts.clock self.old.told self.new.told (end_of result) }
        ensures bytes { OnOk result (out.new ≡ slice_range (contents self.old.told).now at (at + length out.old)) }
        ensures end { end_of result ≡ next_end self.old }
        ensures after { self.new ≡ after_read (end_of result) self.old }
        ensures unread { OnErr result (out.new ≡ out.old) }
    {
        match self.count_call() {
            Ok(()) => {
                self.medium.read(at, out);
                Ok(())
            }
            Err(DiskRefusal::Failed) => Err(self.fail()),
            Err(DiskRefusal::Stopped) => Err(self.stop()),
        }
    }

    fn write(&mut self, at: u32, bytes: &[u8]) -> Result<(), DiskRefusal>
        requires power { IsTrue self.old.counts.power }
        requires range { at + length bytes.now ≤ self.old.counts.size }
        ensures counts { DeviceCall self.old.counts self.new.counts (end_of result) }
        ensures obeys { Obeys (due_of self.old) (due_of self.new) self.old.counts self.new.counts (end_of result) }
        ensures spent { 2 ^ 64 - 1 ≤ self.old.counts.clock
            → IsSpent self.old.counts self.new.counts self.old.told self.new.told (end_of result) }
        ensures told { WriteTold self.new.counts.clock at bytes.now self.old.told self.new.told (end_of result) }
        ensures after { IsCall (after_write at bytes.now) self.old self.new result }
    {
        let is_spent = self.clock == u64::MAX;
        match self.count_call() {
            Ok(()) => {
                if self.medium.write(self.clock, at, bytes).is_err() {
                    return Err(self.want());
                }
                Ok(())
            }
            Err(DiskRefusal::Failed) => {
                if is_spent {
                    return Err(self.fail());
                }
                if self.medium.write_half(self.clock, at, bytes).is_err() {
                    return Err(self.want());
                }
                Err(self.fail())
            }
            Err(DiskRefusal::Stopped) => {
                if self.medium.write(self.clock, at, bytes).is_err() {
                    return Err(self.want());
                }
                Err(self.stop())
            }
        }
    }

    fn sync(&mut self) -> Result<(), DiskRefusal>
        requires { IsTrue self.old.counts.power }
        ensures counts { DeviceCall self.old.counts self.new.counts (end_of result) }
        ensures obeys { Obeys (due_of self.old) (due_of self.new) self.old.counts self.new.counts (end_of result) }
        ensures spent { 2 ^ 64 - 1 ≤ self.old.counts.clock
            → IsSpent self.old.counts self.new.counts self.old.told self.new.told (end_of result) }
        ensures told { SyncTold self.new.counts.clock self.old.told self.new.told (end_of result) }
        ensures end { end_of result ≡ next_end self.old }
        ensures after { self.new ≡ after_sync (end_of result) self.old }
    {
        match self.count_call() {
            Ok(()) => {
                self.medium.sync(self.clock);
                Ok(())
            }
            Err(DiskRefusal::Failed) => Err(self.fail()),
            Err(DiskRefusal::Stopped) => Err(self.stop()),
        }
    }

    fn cut_power(&mut self, mode: ImageMode)
        ensures counts { self.new.counts ≡ record self.old.counts { power = Bool.false } }
        ensures told { IsCut self.old.counts.clock self.old.told self.new.told }
        ensures after { self.new ≡ after_power_cut mode self.old }
    {
        self.medium.cut(self.clock, mode);
        self.power = false;
    }

    fn restart(&mut self)
        ensures { self.new ≡ record self.old { counts = record self.old.counts { power = Bool.true } } }
    {
        self.power = true;
    }

    fn arm(&mut self, what: Arm)
        requires { 1 ≤ calls_until what }
        ensures { self.new ≡ armed_with what self.old }
    {
        match what {
            Arm::Fail { after } => self.failure = Some(self.clock as u128 + after as u128),
            Arm::Stop { after, mode } => {
                let due = self.clock as u128 + after as u128;
                self.stop = Some(ArmedStop { due, mode });
            }
        }
    }
}
