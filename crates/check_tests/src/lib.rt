//! Tests of what holds a history against the definitions.
#![tactic(auto)]

#[cfg(test)]
mod plain_calls_tests;
#[cfg(test)]
mod plain_choices_tests;
#[cfg(test)]
mod plain_ejects_tests;
#[cfg(test)]
mod plain_sites_tests;
#[cfg(test)]
mod plain_stores_tests;
