//! A site as the definitions have it: a node and all calls. What each event there changes, by equality.
#![tactic(auto)]

mod activations;
mod births;
mod effects;
mod ejects;
mod endings;
mod messages;
mod processes;
mod stores;
mod turns;
mod wakings;

pub use activations::{activate, may_activate};
pub use births::{bear, next_uid};
pub use endings::{crash, end_active, turn_away, turn_away_unkept};
pub use messages::{deliver, hear, refusal};
pub use stores::take_turn;
pub use turns::take_process_turn;
