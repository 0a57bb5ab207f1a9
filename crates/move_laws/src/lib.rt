//! Laws of Ejects that wander between nodes: each is held by one node at most, and none is lost.
#![tactic(auto)]

mod law;

pub use law::{never_two_active, never_two_holders};
