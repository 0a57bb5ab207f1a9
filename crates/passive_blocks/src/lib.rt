//! The layout of blocks, and the store over it.
#![tactic(auto)]

mod block_store;
mod convert;
mod convert_law;
mod law;
mod opening;
mod values;

pub use block_store::BlockStore;
pub use convert_law::conversions_say_the_same;
pub use law::{
    a_log_to_be_converted_keeps_its_bodies, blocks_are_a_layout, blocks_are_read_by_calls,
};
