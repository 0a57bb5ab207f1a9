//! A world of nodes in which Ejects wander: commands, what they are answered, and what is written.
#![tactic(auto)]

mod answer;
mod ask;
mod commands;
mod disks;
mod law;
mod letters;
mod reading;
mod run;
mod seat;
mod text;
mod whole;
mod world;

pub use answer::{Answer, Ended, Entry, Log};
pub use commands::MoveCommand;
pub use law::ejects_are_held_once;
pub use reading::{MoveScript, read_script};
pub use run::run_moves;
pub use text::text_of;
pub use whole::{Moved, carry_moves};
pub use world::MoveWorld;
