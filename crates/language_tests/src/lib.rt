//! Tests of the language.
#![tactic(auto)]

#[cfg(test)]
mod epl_check_bindings;
#[cfg(test)]
mod epl_check_bodies;
#[cfg(test)]
mod epl_check_counts;
#[cfg(test)]
mod epl_check_types;
#[cfg(test)]
mod epl_parser_expressions;
#[cfg(test)]
mod epl_parser_types;
#[cfg(test)]
mod epl_run_tests;
#[cfg(test)]
mod epl_syntax_tests;
#[cfg(test)]
mod epl_syntax_types;
#[cfg(test)]
mod epl_values_tests;
#[cfg(test)]
mod marked;
#[cfg(test)]
mod sample;
#[cfg(test)]
mod texts;
