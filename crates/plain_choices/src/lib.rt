//! What a disk may decide in an entry of a history, as tests: how a turn of a store, an activation and a boot may end, what they may
//! pick, and which clock they may show. Each test is the definition of it.
#![tactic(auto)]

mod boots;
mod clocks;
mod starts;
mod stores;

pub use boots::{BootFacts, may_boot};
pub use clocks::{may_show, may_show_store};
pub use starts::{Found, StartFacts, may_start};
pub use stores::{Work, has_call_left, makes_call, makes_own_call, may_end};
