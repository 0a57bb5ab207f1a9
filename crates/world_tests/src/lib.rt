//! Tests of the world and the whole call.
#![tactic(auto)]

#[cfg(test)]
mod eden_shell_changed;
#[cfg(test)]
mod eden_shell_others;
#[cfg(test)]
mod eden_shell_rows;
#[cfg(test)]
mod eden_shell_stops;
#[cfg(test)]
mod eden_shell_tests;
#[cfg(test)]
mod eden_world_tests;
#[cfg(test)]
mod fixtures;
#[cfg(test)]
mod runs_tests;
#[cfg(test)]
mod script_steps;
#[cfg(test)]
mod shell_answers_tests;
#[cfg(test)]
mod shell_names_tests;
