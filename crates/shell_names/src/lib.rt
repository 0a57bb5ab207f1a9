//! The names of a script: what each stands for, and what the shell's own commands make of them.
//!
//! What names, arguments and commands mean is said in `journal`. The contracts here speak of each world in which the names
//! stand for the same.
#![tactic(auto)]

mod arguments;
mod commands;
mod law;
mod meant;
mod names;

pub use law::names_stand_on;
pub use names::ShellNames;
