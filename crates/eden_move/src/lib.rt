//! Ejects that wander between nodes: on each node a store keeps records of which are here, lent or gone.
#![tactic(auto)]

mod calls;
mod due;
mod letter;
mod mind;
mod node;
mod record;
mod refusal;
mod steps;

pub use letter::{Letter, Took};
pub use node::MoveNode;
pub use record::{Record, bytes_of, record_of};
pub use refusal::MoveRefusal;
