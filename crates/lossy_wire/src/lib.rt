//! A wire between stations that loses, repeats and reorders packets, and ends that deliver each value once and in order.
//!
//! The model stands in `specs/Wire.antt`, the forms of lines in `specs/Commands.antt`, and in `specs/Texts.antt` what a script writes.
#![tactic(auto)]

mod commands;
mod end;
mod ends;
mod law;
mod lists;
mod packet;
mod run;
mod text;

pub use ends::{Ends, Taken};
pub use law::{texts_are_one, wires_are_orderly};
pub use packet::Header;
pub use run::run_wire;
