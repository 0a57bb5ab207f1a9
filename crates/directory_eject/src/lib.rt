//! The native type Directory, run: names with a capability for each, in the order in which they were added.
//!
//! The entries stand in an ordered map, so that a look-up takes a time that does not grow with their
//! number. What each call means is the meaning of the type, `specs/Directory.antt` of `epl_syntax`.
#![tactic(auto)]

mod condition;
mod directory;
mod effect;
mod law;
mod stage;
mod turn;

pub use condition::native_start;
pub use directory::Directory;
pub use law::directories_may_start_again;
pub use stage::{Stage, native_begin};
pub use turn::native_turn;
