//! Tests of nodes in which Ejects wander, and of scripts of them.
#![tactic(auto)]

#[cfg(test)]
mod common;
#[cfg(test)]
mod eden_move_calls;
#[cfg(test)]
mod move_world_scripts;
#[cfg(test)]
mod move_world_stops;
