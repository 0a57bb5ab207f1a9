//! Tests of a node's history, and of checkpoints.
#![tactic(auto)]

#[cfg(test)]
mod checkpoint_tests;
pub mod common;
#[cfg(test)]
mod journal_tests;
