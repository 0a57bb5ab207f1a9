// A disk by what it shows: its counts, what it tells of its contents, and when an armed fault falls due.
ghost use Rattle.std.specs.Prelude.{◌≡◌, ◌+◌, ◌≤◌, ◌<◌, ◌-◌, ◌^◌, ℕ, Bool, IsTrue, List, length, OnOk, slice_range};
ghost use Rattle.eden_disk.specs.Told.{Told, contents, Left};
ghost use Rattle.eden_disk.specs.Calls.{Counts, Due, DeviceCall, Obeys, armed, calls_until, end_of, IsSpent, ReadTold, SyncTold};
ghost use Rattle.eden_disk.specs.Calls.{WriteTold, IsCut};

/// How a device call is refused.
#[derive(Clone, Copy, Debug, PartialEq, Eq)]
pub enum DiskRefusal {
    /// A fault. The disk keeps its power.
    Failed,
    /// The disk stopped in the call, and has no power until it is restarted.
    Stopped,
}

/// The bytes that a power cut leaves where a disk in memory was written since the last sync.
#[derive(Clone, Copy, Debug, PartialEq, Eq)]
pub enum ImageMode {
    /// As a read saw them.
    Keep,
    /// As of the last sync.
    Lose,
    /// This byte everywhere.
    Garble { byte: u8 },
}

/// A request for one failure, or one stop, of a device call to come: the next one is 1 call later.
#[derive(Clone, Copy, Debug, PartialEq, Eq)]
pub enum Arm {
    /// That call is answered `Failed`.
    Fail { after: u32 },
    /// That call is answered `Stopped`, and what it leaves of unsynced bytes is told by the mode.
    Stop { after: u32, mode: ImageMode },
}

/// A disk: bytes that are read, written and synced, and that a power cut may harm where they are unsynced.
///
/// `read`, `write` and `sync` are the device calls. They need power, and a range within the size. The clock counts
/// them, the refused ones included. The counts stand still at 2^64 - 1, and no other call raises one.
///
/// A disk may tell its contents, and may obey `arm`. Code that is generic over the disk cannot ask whether it does.
pub trait Disk {
    /// Whether the disk tells its contents. A real one does not, and then `told` says nothing.
    ghost tells: { Bool };

    /// Whether the disk does what `arm` asks. One that does not leaves `due` open.
    ghost obeys: { Bool };

    /// Size, power, and the counts of calls, faults, stops and wants.
    ghost counts: { Self → Counts };

    /// The image that the disk began with, and what has changed it since.
    ghost told: { Self → Told };

    /// The clocks at which an armed failure and an armed stop fall due.
    ghost due: { Self → Due };

    /// The size in bytes.
    fn size(&self) -> u32
        ensures size { result ≡ (counts self.now).size }
        ensures told { IsTrue tells → length (contents (told self.now)).now ≡ result }

        // What a read sees is itself an image that a crash may leave.
        ensures whole { IsTrue tells → Left (contents (told self.now)) (contents (told self.now)).now };

    /// The number of device calls so far.
    fn clock(&self) -> u64
        ensures { result ≡ (counts self.now).clock };

    /// The number of device calls that were answered `Failed`.
    fn faults(&self) -> u64
        ensures { result ≡ (counts self.now).faults };

    /// The number of device calls that were answered `Stopped`.
    fn stops(&self) -> u64
        ensures { result ≡ (counts self.now).stops };

    /// The number of device calls that found no memory. Each of them is a fault too.
    fn wants(&self) -> u64
        ensures { result ≡ (counts self.now).wants };

    /// Reads the bytes from `at` on.
    fn read(&mut self, at: u32, out: &mut [u8]) -> Result<(), DiskRefusal>
        requires power { IsTrue (counts self.old).power }
        requires range { at + length out.old ≤ (counts self.old).size }
        ensures counts { DeviceCall (counts self.old) (counts self.new) (end_of result) }
        ensures obeys { IsTrue obeys → Obeys (due self.old) (due self.new) (counts self.old) (counts self.new) (end_of result) }
        ensures spent { IsTrue tells → 2 ^ 64 - 1 ≤ (counts self.old).clock
            → IsSpent (counts self.old) (counts self.new) (told self.old) (told self.new) (end_of result) }
        ensures told { IsTrue tells → ReadTold (counts self.new).clock (told self.old) (told self.new) (end_of result) }
        ensures bytes { IsTrue tells → OnOk result (out.new ≡ slice_range (contents (told self.old)).now at (at + length out.old)) };

    /// Writes bytes from `at` on. They are unsynced, and a power cut may leave any bytes in their place, until a sync
    /// has succeeded. A failed write may leave any bytes in its range, unsynced too.
    fn write(&mut self, at: u32, bytes: &[u8]) -> Result<(), DiskRefusal>
        requires power { IsTrue (counts self.old).power }
        requires range { at + length bytes.now ≤ (counts self.old).size }
        ensures counts { DeviceCall (counts self.old) (counts self.new) (end_of result) }
        ensures obeys { IsTrue obeys → Obeys (due self.old) (due self.new) (counts self.old) (counts self.new) (end_of result) }
        ensures spent { IsTrue tells → 2 ^ 64 - 1 ≤ (counts self.old).clock
            → IsSpent (counts self.old) (counts self.new) (told self.old) (told self.new) (end_of result) }
        ensures told { IsTrue tells → WriteTold (counts self.new).clock at bytes.now (told self.old) (told self.new) (end_of result) };

    /// Makes all that was written last through a power cut. A failed sync changes nothing.
    fn sync(&mut self) -> Result<(), DiskRefusal>
        requires { IsTrue (counts self.old).power }
        ensures counts { DeviceCall (counts self.old) (counts self.new) (end_of result) }
        ensures obeys { IsTrue obeys → Obeys (due self.old) (due self.new) (counts self.old) (counts self.new) (end_of result) }
        ensures spent { IsTrue tells → 2 ^ 64 - 1 ≤ (counts self.old).clock
            → IsSpent (counts self.old) (counts self.new) (told self.old) (told self.new) (end_of result) }
        ensures told { IsTrue tells → SyncTold (counts self.new).clock (told self.old) (told self.new) (end_of result) };

    /// Takes the power away, between two device calls. `mode` is a wish: the disk leaves one image that it may leave.
    fn cut_power(&mut self, mode: ImageMode)
        ensures counts { counts self.new ≡ record (counts self.old) { power = Bool.false } }
        ensures told { IsTrue tells → IsCut (counts self.old).clock (told self.old) (told self.new) }
        ensures due { due self.new ≡ due self.old };

    /// Gives a disk power again. To one that has power it does nothing.
    fn restart(&mut self)
        ensures counts { counts self.new ≡ record (counts self.old) { power = Bool.true } }
        ensures told { told self.new ≡ told self.old }
        ensures due { due self.new ≡ due self.old };

    /// Asks for one failure, or one stop, of the device call that comes so many calls later, in place of an earlier
    /// request of its sort. No other call changes when it falls due.
    fn arm(&mut self, what: Arm)
        requires { 1 ≤ calls_until what }
        ensures counts { counts self.new ≡ counts self.old }
        ensures told { told self.new ≡ told self.old }
        ensures due { IsTrue obeys → due self.new ≡ armed what (counts self.old).clock (due self.old) };
}
