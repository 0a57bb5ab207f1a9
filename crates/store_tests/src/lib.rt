//! Tests of disks and stores.
#![tactic(auto)]

#[cfg(test)]
mod block_tables_tests;
#[cfg(test)]
mod calls;
#[cfg(test)]
mod changes;
#[cfg(test)]
mod disks;
#[cfg(test)]
mod eden_disk_tests;
#[cfg(test)]
mod equal_answers_tests;
#[cfg(test)]
mod file_disk_tests;
#[cfg(test)]
mod passive_blocks_conversion;
#[cfg(test)]
mod passive_blocks_opening;
#[cfg(test)]
mod passive_blocks_store;
#[cfg(test)]
mod passive_store_tests;
