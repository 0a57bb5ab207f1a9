//! What is known in memory of a disk of blocks, and its heads and blocks on the disk.
#![tactic(auto)]

mod block_table;
mod head_table;
mod heads;
mod index;
mod number_set;
mod peaks;
mod table;

pub use block_table::BlockTable;
pub use head_table::HeadTable;
pub use heads::{
    BLOCK, CLOSED, DATA, HeadFields, LAST_SEQUENCE, OPEN, blocks_of, head_place, is_block_size,
    read_gate, read_head, read_next, spell_head, write_block, write_gate, write_head,
};
pub use index::IndexEntry;
pub use number_set::NumberSet;
pub use peaks::Peaks;
pub use table::Table;
