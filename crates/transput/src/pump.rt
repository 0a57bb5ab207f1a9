//! A Pump of a Sink that waits for an item.
ghost use Rattle.std.specs.Prelude.{◌<◌, ◌^◌};

/// How many items a Pump is to take, and how many it took. A Pump that waits took fewer than it is to take, so fewer than 2^63.
#[derive(Clone, Copy, Debug, PartialEq, Eq)]
pub struct Pump {
    pub wanted: i64,
    pub taken: u64,
    pub ghost countable: { taken < 2 ^ 63 },
}
