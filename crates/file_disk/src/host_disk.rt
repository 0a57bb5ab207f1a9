//! A disk that is a file. It tells nothing of its contents, and is never armed.
ghost use Rattle.std.specs.Prelude.{◌≡◌, IsTrue, None, [], false, true};
ghost use Rattle.eden_disk.specs.Calls.{DeviceCall, end_of};
ghost use Rattle.std.specs.Fd.{file_raw_fd};
ghost use Rattle.file_disk.specs.Counted.{counts_of, first_counts};
ghost use Rattle.file_disk.specs.Numbers.{number_of};

use eden_disk::{Arm, Disk, DiskRefusal, ImageMode};
use std::fs::File;
use std::io;
use std::os::unix::fs::FileExt;

/// A file as a disk, with its power and the counts of its calls.
///
/// An error of the file is a fault. It never stops, and wants no memory. What it holds is the host's, so that it tells
/// nothing of it, and no power cut harms it: the modes of a cut are for disks in memory.
#[derive(Drop)]
pub struct FileDisk {
    file: File,
    size: u32,
    power: bool,
    clock: u64,
    faults: u64,
}

impl FileDisk {
    /// A file of this size as a disk, with power and no faults.
    pub(crate) fn new(file: File, size: u32) -> FileDisk
        ensures counts { counts_of result ≡ first_counts size }
        ensures file { number_of result ≡ file_raw_fd file }
    {
        FileDisk {
            file,
            size,
            power: true,
            clock: 0,
            faults: 0,
        }
    }

    // Counts a device call, which ends as its file did. At the last clock it fails.
    fn count(&mut self, done: io::Result<()>) -> Result<(), DiskRefusal>
        requires power { IsTrue (counts_of self.old).power }
        ensures { DeviceCall (counts_of self.old) (counts_of self.new) (end_of result) }
    {
        let is_last = self.clock == u64::MAX;
        self.clock = self.clock.saturating_add(1);
        if is_last || done.is_err() {
            self.faults = self.faults.saturating_add(1);
            return Err(DiskRefusal::Failed);
        }
        Ok(())
    }
}

impl Disk for FileDisk {
    ghost tells = { false };

    ghost obeys = { false };

    ghost counts = { counts_of };

    ghost told = { λ _. record { image = []; acts = [] } };

    ghost due = { λ _. record { failure = None; stop = None } };

    fn size(&self) -> u32 {
        self.size
    }

    fn clock(&self) -> u64 {
        self.clock
    }

    fn faults(&self) -> u64 {
        self.faults
    }

    fn stops(&self) -> u64 {
        0
    }

    fn wants(&self) -> u64 {
        0
    }

    fn read(&mut self, at: u32, out: &mut [u8]) -> Result<(), DiskRefusal> {
        let read = self.file.read_exact_at(out, u64::from(at));
        self.count(read)
    }

    fn write(&mut self, at: u32, bytes: &[u8]) -> Result<(), DiskRefusal> {
        let written = self.file.write_all_at(bytes, u64::from(at));
        self.count(written)
    }

    /// What was written has reached the medium once it answers.
    fn sync(&mut self) -> Result<(), DiskRefusal> {
        let synced = self.file.sync_data();
        self.count(synced)
    }

    fn cut_power(&mut self, _mode: ImageMode) {
        self.power = false;
    }

    fn restart(&mut self) {
        self.power = true;
    }

    fn arm(&mut self, _what: Arm) {}
}
