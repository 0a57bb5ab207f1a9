//! Stores.
#![tactic(auto)]

mod index;
mod laws;
mod log_store;
mod opening;
mod records;
mod steps;
mod store;

pub use index::Slot;
pub use laws::{images_are_told_by_marks, log_layout_is_a_layout, picks_are_told_by_marks};
pub use log_store::LogStore;
pub use opening::{Found, read_records};
pub use steps::{finish, settle_whole};
pub use store::{Doubt, Pick, Progress, Store, StoreRefusal};
