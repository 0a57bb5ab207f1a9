//! The room of blocks.
ghost use Rattle.passive_blocks.specs.BlockLayout.{block_layout};
ghost use Rattle.twin_store.specs.Rooms.{RoomIsLength};

/// Bytes of an Eject find room on blocks where they are no longer than the longest body that does.
pub fn the_room_of_blocks_is_a_length()
    ensures { RoomIsLength block_layout }
{}
