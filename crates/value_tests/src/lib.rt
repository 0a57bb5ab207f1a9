//! Tests of capabilities, values, their bytes, streams and generated scripts.
#![tactic(auto)]

#[cfg(test)]
mod capability_tests;
#[cfg(test)]
mod eden_codec_tests;
#[cfg(test)]
mod eden_gen_tests;
#[cfg(test)]
mod eden_io_tests;
#[cfg(test)]
mod eden_value_tests;
#[cfg(test)]
mod grammar_tests;
#[cfg(test)]
mod locator_tests;
