//! What a packet says besides its value.

/// What stands in front of the value of a packet, or a packet that has none. Values stay with whoever knows them by their numbers.
#[derive(Clone, Copy, Debug, PartialEq, Eq)]
pub enum Header {
    /// The value with this number, from 1, comes behind.
    Carried { number: u32 },
    /// So many values were delivered.
    Known { upto: u32 },
}
