use crate::calls::{Answer, Call, play_over_blocks};
use crate::changes::{EPOCH, FIRST};
use passive_blocks::{a_log_to_be_converted_keeps_its_bodies, blocks_are_a_layout};
use passive_store::StoreRefusal;

const ROOM: &[(Call, Answer)] = &[
    (Call::Clock, Answer::Clock(38)),
    (Call::Put(EPOCH, (&[0, 0, 0, 1], 1)), Answer::Made),
    (Call::Clock, Answer::Clock(43)),
    (Call::Room, Answer::Room(Some(28_616))),
    (Call::Put(FIRST, (&[5], 28_616)), Answer::Made),
    (Call::Room, Answer::Room(None)),
    (Call::Delete(FIRST), Answer::Made),
    (Call::Room, Answer::Room(Some(28_616))),
];

const ONE_BYTE_TOO_MANY: &[(Call, Answer)] = &[
    (Call::Put(EPOCH, (&[0, 0, 0, 1], 1)), Answer::Made),
    (
        Call::Put(FIRST, (&[5], 28_617)),
        Answer::Refused(StoreRefusal::Full),
    ),
];

#[test]
fn the_room_of_blocks(rt: HostRuntime) {
    for &calls in &[ROOM, ONE_BYTE_TOO_MANY] {
        play_over_blocks(&rt, rt.alloc(), 32_768, calls);
    }
}

#[test]
fn laws_are_there_to_be_called(_rt: HostRuntime) {
    blocks_are_a_layout();
    a_log_to_be_converted_keeps_its_bodies();
}
