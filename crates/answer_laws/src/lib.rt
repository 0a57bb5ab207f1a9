//! What holds besides of whatever the program answers.
#![tactic(auto)]

mod law;

pub use law::{answers_hold_besides, every_number_runs};
