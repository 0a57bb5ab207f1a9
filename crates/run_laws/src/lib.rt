//! What holds besides of every legal run: of values, of monitors, of streams, and of disks that neither failed nor stopped.
#![tactic(auto)]

mod law;

pub use law::{legal_runs_hold_besides, spent_disks_are_full};
