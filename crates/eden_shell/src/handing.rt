//! Disks in memory from one run to the next.
ghost use Rattle.std.specs.Prelude.{◌≡◌};
ghost use Rattle.journal.specs.Standing.{DiskRun};
ghost use Rattle.journal.specs.LegalRun.{IsHandedOn};

use crate::law::a_power_cut_hands_on;
use eden_disk::{Disk, ImageMode, SimDisk};

/// Cuts the power of a disk in memory that a run gave back, and gives it power again. So it is at rest, holds bytes, and is handed on to the
/// next run with nothing to be taken for granted.
pub fn hand_on(disk: &mut SimDisk, mode: ImageMode)
    ensures { (d next : DiskRun) → d.after ≡ disk.old.told → next.before ≡ disk.new.told → IsHandedOn d next }
{
    a_power_cut_hands_on();
    disk.cut_power(mode);
    disk.restart();
    disk.holds_bytes();
}
