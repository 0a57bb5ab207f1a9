//! What tests of a node and of its disk have.
ghost use Rattle.std.specs.Prelude.{◌≡◌, false};
ghost use Rattle.eden_disk.specs.Calls.{calls_until};
ghost use Rattle.eden_disk.specs.SimDisk.{due_of};

use capability::Uid;
use eden_disk::{Arm, Disk, DiskRefusal, ImageMode, SimDisk};
use eden_value::{Txt, texted};
use passive_store::LogStore;
use std::alloc::{AllocError, Global};

/// The first Eject of a node.
pub const FIRST: Uid = Uid {
    node: 1,
    epoch: 1,
    serial: 1,
};

/// The size of a disk.
pub const SIZE: u32 = 4096;

pub type Log = LogStore<SimDisk>;

/// A blank disk of that size.
pub fn blank(alloc: Global) -> Result<SimDisk, AllocError> {
    SimDisk::new(alloc, SIZE)
}

/// The Eject of the first epoch of the one node that has this serial.
pub fn uid_of(serial: u32) -> Uid
    ensures { result.node ≡ 1 }
{
    Uid {
        node: 1,
        epoch: 1,
        serial,
    }
}

/// A text of these bytes.
pub fn text(alloc: Global, bytes: &[u8]) -> Result<Txt, AllocError> {
    texted(bytes.to_vec(alloc)?)
}

/// A failure, or a stop in this mode, of the device call that comes so many calls later.
pub fn arm_of(stop: Option<ImageMode>, after: u32) -> Arm
    ensures { calls_until result ≡ after }
{
    match stop {
        Some(mode) => Arm::Stop { after, mode },
        None => Arm::Fail { after },
    }
}

/// A disk that tells nothing, and whose reads show another byte than was written at one place.
#[derive(Drop)]
pub struct Changed {
    pub disk: SimDisk,
    pub place: u32,
    pub byte: u8,
}

impl Changed {
    /// Shows the other byte among those that were read from a place on.
    fn change(&self, at: u32, out: &mut [u8]) {
        if let Some(behind) = self.place.checked_sub(at) {
            if let Some(shown) = out.get_mut(behind as usize) {
                *shown = self.byte;
            }
        }
    }
}

impl Disk for Changed {
    ghost tells = { false };

    ghost obeys = { false };

    ghost counts = { λ d. d.disk.counts };

    ghost told = { λ d. d.disk.told };

    ghost due = { λ d. due_of d.disk };

    fn size(&self) -> u32 {
        self.disk.size()
    }

    fn clock(&self) -> u64 {
        self.disk.clock()
    }

    fn faults(&self) -> u64 {
        self.disk.faults()
    }

    fn stops(&self) -> u64 {
        self.disk.stops()
    }

    fn wants(&self) -> u64 {
        self.disk.wants()
    }

    fn read(&mut self, at: u32, out: &mut [u8]) -> Result<(), DiskRefusal> {
        let read = self.disk.read(at, out);
        self.change(at, out);
        read
    }

    fn write(&mut self, at: u32, bytes: &[u8]) -> Result<(), DiskRefusal> {
        self.disk.write(at, bytes)
    }

    fn sync(&mut self) -> Result<(), DiskRefusal> {
        self.disk.sync()
    }

    fn cut_power(&mut self, mode: ImageMode) {
        self.disk.cut_power(mode);
    }

    fn restart(&mut self) {
        self.disk.restart();
    }

    fn arm(&mut self, what: Arm) {
        self.disk.arm(what);
    }
}
