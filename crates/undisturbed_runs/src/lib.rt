//! What is promised of a run over disks that neither failed nor stopped: whatever their nodes ask of them comes to its end.
#![tactic(auto)]

mod law;

pub use law::{checkpoints_are_answered, undisturbed_runs_are_complete};
