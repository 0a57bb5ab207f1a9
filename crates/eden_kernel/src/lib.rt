//! A node: its Ejects, its store with the requests that wait for it, and the turns that it takes.
#![tactic(auto)]

mod activations;
mod creations;
mod deliveries;
mod down;
mod looks;
mod processes;
mod starts;
mod stores;
mod up;

use checkpoint::Worker;
use ejects::Ejects;
use passive_store::Store;
pub use stores::TurnEnd;

/// A node that is up.
#[derive(Drop)]
pub struct Node<St: Store> {
    number: u8,
    ejects: Ejects,
    worker: Worker,
    store: St,
}
