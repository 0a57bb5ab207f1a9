//! The key at a place among all keys of a node, in their order.
ghost use Rattle.std.specs.Prelude.{◌≡◌, ◌↔◌, IsTrue, is_some, [], ◌∷◌};
ghost use Rattle.epl_syntax.specs.Rules.OfTypes.{TypeList};
ghost use Rattle.eden_model.specs.Map.{first};
ghost use Rattle.journal.specs.Enabled.{node_keys};
ghost use Rattle.journal.specs.Sites.{IsSoundSite};
ghost use Rattle.journal.specs.World.{Site};
ghost use Rattle.ejects.specs.Parts.{Stands, body_at};
ghost use Rattle.ejects.specs.View.{parts_of};
ghost use Rattle.agenda.specs.Indexed.{uids_of, indices_of, wake_keys_but, store_key, WorksOn};
ghost use Rattle.agenda.specs.Keys.{IsAgenda, start_keys, run_keys, run_keys_of};
ghost use Rattle.agenda.specs.Places.{at_place};

use crate::index::{Index, is_it};
use crate::{Agenda, NO_UID, key_of};
use capability::Uid;
use ejects::Ejects;
use journal::Key;
use std::ops::ControlFlow;

/// The key, if the place is the first one, or else the places left behind it.
pub fn key_or_left(key: Key, place: usize) -> ControlFlow<Key, usize>
    ensures { result ≡ at_place (key ∷ []) place }
{
    match place.checked_sub(1) {
        Some(left) => ControlFlow::Continue(left),
        None => ControlFlow::Break(key),
    }
}

// Among the keys of activations, but for the Eject on which the store works. Without such an Eject they are passed over at once.
fn wake_at(index: &Index, station: u8, worked: Option<Uid>, place: usize) -> ControlFlow<Key, usize>
    ensures { result ≡ at_place (wake_keys_but station worked (uids_of index.now)) place }
{
    let number = index.len();
    if worked.is_none() && number <= place {
        return ControlFlow::Continue(place - number);
    }
    let mut left = place;
    for (uid, _) in &index.uids {
        if !is_it(worked, *uid) {
            left = key_or_left(key_of(station, 2, *uid, 0), left)?;
        }
    }
    ControlFlow::Continue(left)
}

// Among the keys of starts.
fn start_at(index: &Index, station: u8, place: usize) -> ControlFlow<Key, usize>
    ensures { result ≡ at_place (start_keys station (uids_of index.now)) place }
{
    let number = index.len();
    if number <= place {
        return ControlFlow::Continue(place - number);
    }
    let mut left = place;
    for (uid, _) in &index.uids {
        left = key_or_left(key_of(station, 3, *uid, 0), left)?;
    }
    ControlFlow::Continue(left)
}

// Among the keys of the processes of an Eject that wait for nothing.
fn process_at(ejects: &Ejects, uid: Uid, place: usize) -> ControlFlow<Key, usize>
    ensures { (ts : TypeList) → result ≡ at_place (run_keys_of uid (body_at (parts_of ts ejects.now) uid)) place }
{
    let mut left = place;
    let mut next = ejects.next_ready(uid, 0);
    while let Some(process) = next {
        left = key_or_left(key_of(uid.node, 4, uid, process), left)?;
        next = ejects.next_ready(uid, process);
    }
    ControlFlow::Continue(left)
}

// Among the keys of processes.
fn run_at(index: &Index, ejects: &Ejects, place: usize) -> ControlFlow<Key, usize>
    ensures { (ts : TypeList) → result ≡ at_place (run_keys (parts_of ts ejects.now) (uids_of index.now)) place }
{
    let mut left = place;
    for (uid, _) in &index.uids {
        left = process_at(ejects, *uid, left)?;
    }
    ControlFlow::Continue(left)
}

// The key of a turn of the store, where a request waits.
fn store_at(station: u8, pending: bool, place: usize) -> ControlFlow<Key, usize>
    ensures { result ≡ at_place (store_key station pending) place }
{
    if pending {
        key_or_left(key_of(station, 5, NO_UID, 0), place)
    } else {
        ControlFlow::Continue(place)
    }
}

impl Agenda {
    /// The key at this place among all keys of the node, in their order from 0, or the places left behind all of them.
    ///
    /// `worked` is the Eject on which the store works, and `pending` says whether a request waits for it.
    pub fn key_at(
        &self,
        ejects: &Ejects,
        worked: Option<Uid>,
        pending: bool,
        place: usize,
    ) -> ControlFlow<Key, usize>
        ensures { (ts : TypeList) (s : Site) → IsSoundSite s → Stands (parts_of ts ejects.now) s
            → IsAgenda (indices_of self.now) (parts_of ts ejects.now) → WorksOn s worked
            → (IsTrue pending ↔ IsTrue (is_some (first s.node.requests))) → result ≡ at_place (node_keys s) place }
    {
        let station = ejects.number();
        let left = wake_at(&self.wake, station, worked, place)?;
        let left = start_at(&self.start, station, left)?;
        let left = run_at(&self.run, ejects, left)?;
        store_at(station, pending, left)
    }
}
