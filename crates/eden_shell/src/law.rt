//! What may be handed in for a run.
ghost use Rattle.passive_blocks.specs.BlockLayout.{block_layout};
ghost use Rattle.twin_world.specs.Disks.{ZerosKeepNothing};
ghost use Rattle.eden_shell.specs.Blank.{BlankDisksMayBeHandedIn, BlankDisksMayBeHandedInForMany, BlankDisksKeepNothing};
ghost use Rattle.eden_shell.specs.Blank.{BlankDisksKeepNoTexts, BlankDisksCanRise};
ghost use Rattle.eden_shell.specs.HandedOn.{PowerCutsHandOn};

/// A disk of zeros, on which nothing was ever written, is handed in as it has to be, whatever its size: those of 4,194,304 bytes,
/// and those of 1,048,576 bytes, which become blocks too. It is so for as many runs as make 2^63 changes, one behind the other.
pub fn blank_disks_may_be_handed_in()
    ensures once { BlankDisksMayBeHandedIn }
    ensures often { BlankDisksMayBeHandedInForMany }
{}

/// A disk that a run gave back is handed on once its power is cut, where it holds bytes then.
pub fn a_power_cut_hands_on()
    ensures { PowerCutsHandOn }
{}

/// Of Ejects that wander a disk of zeros keeps nothing, where blocks may stand on it, whatever a crash leaves of it.
pub fn blank_disks_keep_nothing()
    ensures { BlankDisksKeepNothing }
{}

/// Nor does it of pairs of disks, and what a blanking leaves, an image of zeros, keeps nothing where blocks may stand on it. The count of
/// faults of a disk of zeros can rise as often as a script has commands.
pub fn blank_disks_keep_no_texts()
    ensures keep { BlankDisksKeepNoTexts }
    ensures zeros { ZerosKeepNothing block_layout }
    ensures rise { BlankDisksCanRise }
{}
