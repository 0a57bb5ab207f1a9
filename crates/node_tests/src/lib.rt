//! Tests of a node.
#![tactic(auto)]

#[cfg(test)]
mod agenda_tests;
#[cfg(test)]
mod common;
#[cfg(test)]
mod eden_kernel_acts;
#[cfg(test)]
mod eden_kernel_ends;
#[cfg(test)]
mod eden_kernel_tests;
#[cfg(test)]
mod ejects_tests;
#[cfg(test)]
mod scheduled_node_tests;
