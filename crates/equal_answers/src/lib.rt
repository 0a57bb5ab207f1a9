//! Two stores answer alike, whatever their layouts: from blank disks on no answer tells which is which, but those of their
//! room and their marks.
#![tactic(auto)]

mod law;

pub use law::{alike_stores_answer_alike, blank_disks_keep_nothing, logs_and_blocks_answer_alike};
