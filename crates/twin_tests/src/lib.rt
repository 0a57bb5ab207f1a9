//! Tests of pairs of disks, and a law on the room of blocks.
#![tactic(auto)]

mod rooms;
#[cfg(test)]
mod twin_world_tests;

pub use rooms::the_room_of_blocks_is_a_length;
