//! Pairs of disks: commands, what they are answered, and what is written.
#![tactic(auto)]

mod act;
mod answer;
mod ask;
mod blank;
mod commands;
mod law;
mod pair;
mod place;
mod reading;
mod run;
mod text;
mod whole;
mod world;

pub use answer::{Answer, Done, Entry, Log};
pub use ask::{Asked, delete_text, get_text, put_text};
pub use commands::{TwinCommand, TwinScript};
pub use law::{calls_are_steps, one_disk_is_enough};
pub use pair::close_pair;
pub use place::Place;
pub use reading::read_script;
pub use run::Twinned;
pub use text::text_of;
pub use whole::carry_twins;
pub use world::TwinWorld;
