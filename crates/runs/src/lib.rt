//! Runs of a script by any machine: the turns and commands that follow the script, and the history of what happened.
#![tactic(auto)]

mod law;
mod machine;
mod path;
mod run;
mod walk;

pub use law::{a_run_may_begin, entries_are_few};
pub use machine::Machine;
pub use path::components;
pub use run::Run;
