use crate::calls::{Answer, Call, play_over_blocks, play_over_log};
use crate::changes::{SECOND, THIRD};
use capability::Uid;

const FOURTH: Uid = Uid {
    node: 1,
    epoch: 1,
    serial: 4,
};

const FIFTH: Uid = Uid {
    node: 1,
    epoch: 1,
    serial: 5,
};

const SIXTH: Uid = Uid {
    node: 1,
    epoch: 1,
    serial: 6,
};

/// Puts of several sizes, some of them over what is kept, removals, also of what is not kept, reads and questions.
const CALLS: &[(Call, Answer)] = &[
    (Call::After(None), Answer::Named(None)),
    (Call::Get(SECOND, None), Answer::Is(true)),
    (Call::Delete(SECOND), Answer::Made),
    (Call::Put(SECOND, (&[7], 1)), Answer::Made),
    (Call::Put(THIRD, (&[225], 1022)), Answer::Made),
    (Call::Put(FOURTH, (&[0], 1023)), Answer::Made),
    (Call::Get(THIRD, Some((&[225], 1022))), Answer::Is(true)),
    (Call::After(None), Answer::Named(Some(SECOND))),
    (Call::After(Some(SECOND)), Answer::Named(Some(THIRD))),
    (Call::Put(THIRD, (&[9], 3)), Answer::Made),
    (Call::Get(THIRD, Some((&[9], 3))), Answer::Is(true)),
    (Call::Put(FIFTH, (&[235], 40_000)), Answer::Made),
    (Call::Holds(FIFTH), Answer::Is(true)),
    (Call::Delete(THIRD), Answer::Made),
    (Call::Holds(THIRD), Answer::Is(false)),
    (Call::Get(THIRD, None), Answer::Is(true)),
    (Call::After(Some(SECOND)), Answer::Named(Some(FOURTH))),
    (Call::Delete(THIRD), Answer::Made),
    (Call::Idle, Answer::Idle(None, None)),
    (Call::Put(SIXTH, (&[1], 0)), Answer::Made),
    (Call::Get(SIXTH, Some((&[1], 0))), Answer::Is(true)),
    (Call::Put(FIFTH, (&[237], 65_535)), Answer::Made),
    (Call::Get(FIFTH, Some((&[237], 65_535))), Answer::Is(true)),
    (Call::Settle, Answer::Made),
    (Call::Put(THIRD, (&[4], 5000)), Answer::Made),
    (Call::Get(THIRD, Some((&[4], 5000))), Answer::Is(true)),
    (Call::Delete(SECOND), Answer::Made),
    (Call::Delete(FOURTH), Answer::Made),
    (Call::After(None), Answer::Named(Some(THIRD))),
    (Call::After(Some(THIRD)), Answer::Named(Some(FIFTH))),
    (Call::After(Some(SIXTH)), Answer::Named(None)),
    (Call::Put(SECOND, (&[8], 300)), Answer::Made),
    (Call::Get(SECOND, Some((&[8], 300))), Answer::Is(true)),
    (Call::Get(FOURTH, None), Answer::Is(true)),
    (Call::Get(FIFTH, Some((&[237], 65_535))), Answer::Is(true)),
    (Call::Get(SIXTH, Some((&[1], 0))), Answer::Is(true)),
];

#[test]
fn a_log_and_blocks_answer_alike(rt: HostRuntime) {
    play_over_log(&rt, rt.alloc(), 1_048_576, CALLS);
    play_over_blocks(&rt, rt.alloc(), 4_194_304, CALLS);
}
