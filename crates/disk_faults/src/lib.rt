//! What the entries of a history show of the disk of a node: each fault and each stop, and the command that asked for it.
#![tactic(auto)]

mod law;

pub use law::faults_are_shown;
