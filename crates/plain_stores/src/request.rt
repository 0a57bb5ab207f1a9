//! A request to a node's store.
ghost use Rattle.std.specs.Prelude.{◌≤◌};
ghost use Rattle.capability.specs.declared.TheConstants.{BODY_LIMIT};
ghost use Rattle.plain_ejects.specs.Limits.{length_put};

use capability::Uid;
use checkpoint::Wish;

/// A put or a removal that waits for the store, or has made so many device calls. No body is past its limit.
#[derive(Drop)]
pub struct PlainRequest {
    /// The Eject whose body is put or removed.
    pub uid: Uid,
    /// The process that is told how it ended; none where nobody is told any more.
    pub process: Option<u8>,
    /// What is asked.
    pub wish: Wish,
    /// How many device calls of its own it has made.
    pub made: u32,
    pub ghost within: { length_put wish ≤ BODY_LIMIT },
}
