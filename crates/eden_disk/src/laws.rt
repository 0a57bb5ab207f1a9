// Laws of what a crash may have left of a disk, in the middle of a device call and behind it.
ghost use Rattle.std.specs.Prelude.{◌≡◌, ◌≢◌, ◌⊎◌, ◌↔◌, ◌^◌, ◌-◌, ◌≤◌, ◌<◌, ◌++◌, ℕ, List, length};
ghost use Rattle.eden_disk.specs.Told.{Told, contents, Left};
ghost use Rattle.eden_disk.specs.Calls.{Counts, End, AtFault, AtStop, DeviceCall, ReadTold, SyncTold, WriteTold, IsCut, IsSpent};
ghost use Rattle.eden_disk.specs.Moments.{LeftIn, LeftAfter};
ghost use Rattle.eden_disk.specs.Timed.{Timed};
ghost use Rattle.eden_disk.specs.InCall.{unsynced_too};

/// What a crash in the middle of one device call may leave.
///
/// It is what a crash before the call may leave. For a write its range counts as unsynced too, unless the write fails
/// and changes nothing.
pub fn left_in_a_call()
    ensures read { (before after : ℕ) (old new : Told) (end : End) (image : List ℕ) → before < after → ReadTold after old new end
        → LeftIn old before new after image ↔ Left (contents old) image }
    ensures sync { (before after : ℕ) (old new : Told) (end : End) (image : List ℕ) → before < after → SyncTold after old new end
        → LeftIn old before new after image ↔ Left (contents old) image }
    ensures write { (before after at : ℕ) (bytes : List ℕ) (old new : Told) (end : End) (image : List ℕ) → before < after
        → WriteTold after at bytes old new end →
        ((new ≡ old) × (end ≡ AtFault) × (LeftIn old before new after image ↔ Left (contents old) image))
        ⊎ (LeftIn old before new after image ↔ Left (unsynced_too at (length bytes) (contents old)) image) }
{}

/// What a crash behind one device call that was not stopped may leave is what it may leave of the contents then.
pub fn left_after_a_call()
    ensures read { (before after : ℕ) (old new : Told) (end : End) (image : List ℕ) → before < after → end ≢ AtStop
        → ReadTold after old new end → LeftAfter old before new after image ↔ Left (contents new) image }
    ensures sync { (before after : ℕ) (old new : Told) (end : End) (image : List ℕ) → before < after → end ≢ AtStop
        → SyncTold after old new end → LeftAfter old before new after image ↔ Left (contents new) image }
    ensures write { (before after at : ℕ) (bytes : List ℕ) (old new : Told) (end : End) (image : List ℕ) → before < after → end ≢ AtStop
        → WriteTold after at bytes old new end → LeftAfter old before new after image ↔ Left (contents new) image }
{}

/// Each call changes the contents between the clock before it and the clock after it, and so do several.
pub fn calls_are_timed()
    ensures read { (before after : Counts) (old new : Told) (end : End) → DeviceCall before after end → ReadTold after.clock old new end
        → Timed before.clock old after.clock new }
    ensures sync { (before after : Counts) (old new : Told) (end : End) → DeviceCall before after end
        → (2 ^ 64 - 1 ≤ before.clock → IsSpent before after old new end) → SyncTold after.clock old new end
        → Timed before.clock old after.clock new }
    ensures write { (at : ℕ) (bytes : List ℕ) (before after : Counts) (old new : Told) (end : End) → DeviceCall before after end
        → (2 ^ 64 - 1 ≤ before.clock → IsSpent before after old new end) → WriteTold after.clock at bytes old new end →
        Timed before.clock old after.clock new }
    ensures cut { (clock : ℕ) (old new : Told) → IsCut clock old new → Timed clock old clock new }
    ensures join { (before between after : ℕ) (old mid new : Told) → Timed before old between mid → Timed between mid after new
        → Timed before old after new }
{}

/// No later call changes what a crash may have left in or behind an earlier one.
///
/// `first` is the disk as it was handed in, `mid` and `last` the same disk later. What a crash past the clock of `mid`
/// may have left hangs on what changed since `mid` alone.
pub fn earlier_moments_stay()
    ensures after { (begin between end m : ℕ) (first mid last : Told) (image : List ℕ) → Timed begin first between mid
        → Timed between mid end last → m ≤ between → LeftAfter first begin last m image ↔ LeftAfter first begin mid m image }
    ensures within { (begin between end m : ℕ) (first mid last : Told) (image : List ℕ) → Timed begin first between mid
        → Timed between mid end last → m ≤ between → LeftIn first begin last m image ↔ LeftIn first begin mid m image }
    ensures after_later { (begin between end m : ℕ) (first mid last : Told) (image : List ℕ) → Timed begin first between mid
        → Timed between mid end last → between < m → LeftAfter first begin last m image → LeftAfter mid between last m image }
    ensures within_later { (begin between end m : ℕ) (first mid last : Told) (image : List ℕ) → Timed begin first between mid
        → Timed between mid end last → between < m → LeftIn first begin last m image → LeftIn mid between last m image }
{}
