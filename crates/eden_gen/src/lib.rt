//! A script for each number: Cells on three nodes, calls of them, crashes and restarts.
#![tactic(auto)]

mod draws;
mod lines;
mod script;

pub use script::gen_script;
