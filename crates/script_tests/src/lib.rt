//! Tests of scripts, of mistakes in them, of transcripts and wires.
#![tactic(auto)]

#[cfg(test)]
mod eden_script_tests;
#[cfg(test)]
mod lossy_wire_tests;
#[cfg(test)]
mod mistakes_tests;
#[cfg(test)]
mod transcript_tests;
