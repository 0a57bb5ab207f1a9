//! What two disks vouch for, whatever becomes of one of them; and what the room of a log is.
ghost use Rattle.passive_store.specs.LogLayout.{log_layout};
ghost use Rattle.twin_store.specs.Rooms.{RoomIsLength};
ghost use Rattle.twin_store.specs.VouchedLaws.{MixedIsHeld, GreaterIsRight, FaultLeavesOther, BlankLeavesOther, SecondMayBeBrought};
ghost use Rattle.twin_store.specs.VouchedLaws.{LesserMayBeRefilled};
ghost use Rattle.twin_store.specs.VouchedLaws.{LesserMayBeRaised, SecondMayBegin, OneMayBeRaised, ImagesAreVouched};

/// What two disks vouch for.
pub fn disks_vouch()
    ensures mixed { MixedIsHeld }
    ensures right { GreaterIsRight }
    ensures fault { FaultLeavesOther }
    ensures blank { BlankLeavesOther }
    ensures brought { SecondMayBeBrought }
    ensures refilled { LesserMayBeRefilled }
    ensures raised { LesserMayBeRaised }
    ensures begins { SecondMayBegin }
    ensures alone { OneMayBeRaised }
    ensures images { ImagesAreVouched }
{}

/// Bytes of an Eject find room in a log where they are no longer than the longest body that does.
pub fn the_room_of_a_log_is_a_length()
    ensures { RoomIsLength log_layout }
{}
