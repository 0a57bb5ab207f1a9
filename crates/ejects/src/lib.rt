//! The Ejects of a node, and the turns that calls and processes take there.
#![tactic(auto)]

mod activations;
mod asking;
mod boots;
mod creations;
mod deliveries;
mod endings;
mod marks;
mod processes;
mod replies;
mod requests;
mod starts;
mod stores;
mod waiting;

ghost use Rattle.std.specs.Prelude.{◌≡◌, ◌<◌, ◌≤◌, length};
ghost use Rattle.std.specs.Prelude.{OnOk, Some, None, cond};
ghost use Rattle.eden_model.specs.Map.{value_at, uid_cmp};
ghost use Rattle.std.specs.Ordering.{eq_by_cmp};
ghost use Rattle.ejects.specs.Parts.{queue_in};

use crate::waiting::Waiting;
use active_part::Part;
use capability::{CallNumbers, Seq, Uid};
use eject_table::EjectTable;
pub use marks::May;
pub use requests::Admission;
use std::alloc::{AllocError, Global};
use std::collections::BTreeMap;

/// The Ejects of a node: those that are active or passive, and the queues of the passive ones.
#[derive(Drop)]
pub struct Ejects {
    table: EjectTable<Part>,
    waiting: BTreeMap<Uid, Waiting>,
}

// The queue of a passive Eject leaves the node.
fn take_waiting(alloc: Global, waiting: &mut BTreeMap<Uid, Waiting>, uid: Uid) -> CallNumbers
    ensures calls { result ≡ queue_in (value_at uid_cmp uid waiting.old.entries) }
    ensures at { (q : Uid) → value_at uid_cmp q waiting.new.entries
        ≡ cond (eq_by_cmp uid_cmp uid q) None (value_at uid_cmp q waiting.old.entries) }
    ensures few { length result ≤ 64 }
{
    match waiting.remove(&uid) {
        Some(calls) => calls.into_calls(),
        None => Seq {
            items: Vec::new(alloc),
        },
    }
}

// The queue of a passive Eject is this one.
fn put_waiting(
    waiting: &mut BTreeMap<Uid, Waiting>,
    uid: Uid,
    calls: CallNumbers,
) -> Result<(), AllocError>
    requires { length calls ≤ 64 }
    ensures { OnOk result ((q : Uid) → value_at uid_cmp q waiting.new.entries
        ≡ cond (eq_by_cmp uid_cmp uid q) (Some calls) (value_at uid_cmp q waiting.old.entries)) }
{
    match waiting.insert(uid, Waiting::of(calls)) {
        Ok(_) => Ok(()),
        Err(_) => Err(AllocError),
    }
}
