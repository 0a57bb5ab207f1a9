//! A node with the agenda of its turns, so that its next turn is found among its busy Ejects alone.
#![tactic(auto)]

mod boots;
mod creations;
mod down;
mod looks;
mod noting;
mod steps;

use agenda::Agenda;
use eden_kernel::Node;
use passive_store::Store;

/// A node that is up, with the agenda of its turns.
#[derive(Drop)]
pub struct ScheduledNode<St: Store> {
    node: Node<St>,
    agenda: Agenda,
}
