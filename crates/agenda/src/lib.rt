//! The Ejects of a node that may take a turn, and the keys of their turns.
#![tactic(auto)]

mod behind;
mod index;
mod noting;
mod places;

ghost use Rattle.std.specs.Prelude.{◌≡◌, ◌↔◌, OnOk, IfSome, None, [], IsTrue, is_some};
ghost use Rattle.std.specs.List.{find};
ghost use Rattle.epl_syntax.specs.Rules.OfTypes.{TypeList};
ghost use Rattle.eden_model.specs.Map.{with_item, first};
ghost use Rattle.journal.specs.Enabled.{activity, is_past, node_keys};
ghost use Rattle.journal.specs.Sites.{IsSoundSite};
ghost use Rattle.journal.specs.World.{Site};
ghost use Rattle.ejects.specs.Marks.{may_run, MayButOne};
ghost use Rattle.ejects.specs.Parts.{Parts, Stands, body_at};
ghost use Rattle.ejects.specs.View.{parts_of};
ghost use Rattle.agenda.specs.Indexed.{uids_of, indices_of, wake_keys_but, store_key, WorksOn, AreAt};
ghost use Rattle.agenda.specs.Keys.{Indexes, IsAgenda, start_keys, run_keys, run_keys_of};

use crate::behind::{Behind, keys_behind};
use crate::index::Index;
use capability::Uid;
use ejects::Ejects;
use journal::Key;
pub use places::key_or_left;
use std::alloc::{AllocError, Global};

// The uid in the keys of turns that are no Eject's.
const NO_UID: Uid = Uid {
    node: 0,
    epoch: 0,
    serial: 0,
};

/// The Ejects of a node that may take a turn of their own: passive ones with queued calls, those with a call that may
/// start, and those with a process that waits for nothing.
#[derive(Drop)]
pub struct Agenda {
    wake: Index,
    start: Index,
    run: Index,
}

// The key of a turn of an Eject.
fn key_of(station: u8, kind: u8, uid: Uid, process: u8) -> Key
    ensures { result ≡ activity station kind uid process }
{
    Key {
        station,
        kind,
        sender: 0,
        uid,
        process,
    }
}

// The key of the first process of an Eject that waits for nothing.
fn first_run(ejects: &Ejects, station: u8, uid: Option<Uid>) -> Option<Key>
    ensures { (ts : TypeList) → IfSome uid (λ u. u.node ≡ station)
        → result ≡ with_item uid (λ u. first (run_keys_of u (body_at (parts_of ts ejects.now) u))) None }
{
    match uid {
        Some(uid) => match ejects.next_ready(uid, 0) {
            Some(process) => Some(key_of(station, 4, uid, process)),
            None => None,
        },
        None => None,
    }
}

// The key of a turn of the store, where a request waits and the key comes behind the last one.
fn next_store(station: u8, pending: bool, last: Option<Key>) -> Option<Key>
    ensures { result ≡ find (is_past last) (store_key station pending) }
{
    match keys_behind(last, station, 5) {
        Behind::All if pending => Some(key_of(station, 5, NO_UID, 0)),
        _ => None,
    }
}

impl Agenda {
    /// No Eject may take a turn.
    pub fn new(alloc: Global) -> Agenda
        ensures { indices_of result ≡ record { wake = []; start = []; run = [] } }
    {
        Agenda {
            wake: Index::new(alloc),
            start: Index::new(alloc),
            run: Index::new(alloc),
        }
    }

    /// What an Eject may do now is noted, after a turn that changed what it may do alone.
    pub fn note(&mut self, ejects: &Ejects, uid: Uid) -> Result<(), AllocError>
        ensures { OnOk result ((ts : TypeList) (n : Parts) → IsAgenda (indices_of self.old) n
            → MayButOne uid n (parts_of ts ejects.now) → IsAgenda (indices_of self.new) (parts_of ts ejects.now)) }
    {
        let may = ejects.may(uid);
        self.wake.set(uid, may.wake)?;
        self.start.set(uid, may.start)?;
        self.run.set(uid, may.run)
    }

    // The first key of an activation behind the last one, but for the Eject on which the store works.
    fn next_wake(&self, station: u8, worked: Option<Uid>, last: Option<Key>) -> Option<Key>
        ensures { result ≡ find (is_past last) (wake_keys_but station worked (uids_of self.now.wake)) }
    {
        if self.wake.is_empty() {
            return None;
        }
        match self.wake.first_but(keys_behind(last, station, 2), worked) {
            Some(uid) => Some(key_of(station, 2, uid, 0)),
            None => None,
        }
    }

    // The first key of a start behind the last one.
    fn next_start(&self, station: u8, last: Option<Key>) -> Option<Key>
        ensures { result ≡ find (is_past last) (start_keys station (uids_of self.now.start)) }
    {
        if self.start.is_empty() {
            return None;
        }
        match self.start.first_behind(keys_behind(last, station, 3)) {
            Some(uid) => Some(key_of(station, 3, uid, 0)),
            None => None,
        }
    }

    // The first key of a process behind the last one: of the same Eject, or else of the next one.
    fn next_run(&self, ejects: &Ejects, station: u8, last: Option<Key>) -> Option<Key>
        ensures { (ts : TypeList) → Indexes (uids_of self.now.run) (λ u. may_run (body_at (parts_of ts ejects.now) u))
            → AreAt station (uids_of self.now.run)
            → result ≡ find (is_past last) (run_keys (parts_of ts ejects.now) (uids_of self.now.run)) }
    {
        match keys_behind(last, station, 4) {
            Behind::All => first_run(ejects, station, self.run.first()),
            Behind::Past { uid, process } => match ejects.next_ready(uid, process) {
                Some(next) => Some(key_of(station, 4, uid, next)),
                None => first_run(ejects, station, self.run.past(uid)),
            },
            Behind::Nothing => None,
        }
    }

    /// The first key of the node past the last one, by a look-up in each index.
    ///
    /// `worked` is the Eject on which the store works, and `pending` says whether a request waits for it.
    pub fn next(
        &self,
        ejects: &Ejects,
        worked: Option<Uid>,
        pending: bool,
        last: Option<Key>,
    ) -> Option<Key>
        ensures { (ts : TypeList) (s : Site) → IsSoundSite s → Stands (parts_of ts ejects.now) s
            → IsAgenda (indices_of self.now) (parts_of ts ejects.now) → WorksOn s worked
            → (IsTrue pending ↔ IsTrue (is_some (first s.node.requests))) → result ≡ find (is_past last) (node_keys s) }
    {
        let station = ejects.number();
        if let Some(key) = self.next_wake(station, worked, last) {
            return Some(key);
        }
        if let Some(key) = self.next_start(station, last) {
            return Some(key);
        }
        if let Some(key) = self.next_run(ejects, station, last) {
            return Some(key);
        }
        next_store(station, pending, last)
    }
}
