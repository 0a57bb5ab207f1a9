//! Turns of processes of declared types.
#![tactic(auto)]

mod act;
mod answer;
mod beginning;
mod block;
mod process;
mod rest;
mod run;
mod upgrade;

pub use beginning::{begin, processes};
pub use block::is_counted;
pub use process::turn;
pub use rest::{Branch, Frame, Rest};
pub use upgrade::upgraded;
