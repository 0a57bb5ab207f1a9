//! All values of every history of every fit script are within the limits of values.
#![tactic(auto)]

mod law;

pub use law::{bytes_give_limited, histories_keep_limits, types_keep_limits};
