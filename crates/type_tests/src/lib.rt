//! Tests of the parts of an Eject.
#![tactic(auto)]

#[cfg(test)]
mod common;
#[cfg(test)]
mod coordinator_tests;
#[cfg(test)]
mod directory_eject_tests;
#[cfg(test)]
mod edentypes_tests;
#[cfg(test)]
mod eject_table_tests;
#[cfg(test)]
mod invocation_tests;
#[cfg(test)]
mod transput_tests;
