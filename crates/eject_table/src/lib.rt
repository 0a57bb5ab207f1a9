//! A node's Ejects: which are active, with their active parts, and which are passive.
//!
//! The table is a map from uid to active or passive. The active parts stand in a slab, and an
//! ordered index gives each uid its place there, so that a look-up costs at most a logarithm of
//! the number of Ejects.
#![tactic(auto)]

mod store;

ghost use Rattle.std.specs.Prelude.{◌≡◌, ◌≢◌, ◌<◌, ◌≤◌, ◌+◌, ℕ, List, [], min, Some, None, IfOk, MatchOption, MatchResult, option_copied};
ghost use Rattle.std.specs.Option.{option_copied_mut};
ghost use Rattle.std.specs.FinMap.{insert, remove, get, len, keys, empty};
ghost use Rattle.std.specs.Borrow.{sem, LendsIf};
ghost use Rattle.capability.specs.Uids.{uid_cmp};
ghost use Rattle.eject_table.specs.Table.{Table, empty_table, active_at, standing_at, next_key, with_active, with_entry, without_entry};
ghost use Rattle.eject_table.specs.Table.{dropped, AllBefore};
ghost use Rattle.eject_table.specs.Creates.{Creates, Refuses};
ghost use Rattle.eject_table.specs.Changes.{TableChange, Runs, GivesOnce};
ghost use Rattle.eject_table.specs.contracts.EjectTable.{the_row};

use crate::store::{
    after_key, drop_at, forget_at, part_at, place_of, put_active, put_passive, standing_in,
};
use capability::Uid;
use slab::Slab;
use std::alloc::{AllocError, Global};
use std::collections::BTreeMap;
use std::marker::Model;

/// Why a creation is refused.
#[derive(Clone, Copy, Debug, PartialEq, Eq)]
pub enum CreateRefusal {
    /// The table has 4,096 Ejects or more.
    TooMany,
    /// The last serial is the greatest there is.
    SerialsSpent,
    /// There is no memory for another Eject.
    OutOfMemory,
}

/// How an Eject stands at its node.
#[derive(Clone, Copy, Debug, PartialEq, Eq)]
pub enum EjectStanding {
    /// It has an active part.
    Active,
    /// It is in the table without an active part: a representation of it is kept.
    Passive,
    /// It is not in the table.
    Absent,
}

/// The Ejects of one node in one epoch, with active parts of the type `A`.
#[derive(Drop)]
pub struct EjectTable<A> {
    node: u8,
    epoch: u32,
    last_serial: u32,
    active: Slab<A>,
    places: BTreeMap<Uid, Option<usize>>,
}

impl<A> Model for EjectTable<A> {
    ghost use Rattle.eject_table.specs.Table.{Table, map_of, IsKept, table_code};

    ghost Value = { Table A };

    ghost coded = { table_code A.code };

    ghost view = { λ t. record {
      node = t.node;
      epoch = t.epoch;
      last_serial = t.last_serial;
      standings = map_of t.active t.places.entries;
    } };

    ghost invariant = { λ t. IsKept t.node t.active t.places.entries };
}

impl<A> EjectTable<A> {
    /// A table with no Eject. The next creation has the serial after `last_serial`.
    pub fn new(
        alloc: Global,
        node: u8,
        epoch: u32,
        last_serial: u32,
    ) -> Result<EjectTable<A>, AllocError>
        requires { node ≤ 8 }
        ensures { IfOk result (λ t. t ≡ empty_table node epoch last_serial) }
    {
        Ok(EjectTable {
            node,
            epoch,
            last_serial,
            active: Slab::new(alloc),
            places: BTreeMap::new(alloc),
        })
    }

    /// A new active Eject, under a uid with the next serial. The first that holds of TooMany,
    /// SerialsSpent and OutOfMemory hands the value back and changes nothing.
    ///
    /// The table keeps the allocator that it was made with, as in all its calls.
    pub fn create(&mut self, _alloc: Global, active: A) -> Result<Uid, (A, CreateRefusal)>
        ensures cases { MatchResult result (Creates self.old self.new active)
            (λ e. (e.0 ≡ active) × (self.new ≡ self.old) × Refuses self.old e.1) }
        // where each uid noted is of an earlier epoch
        ensures fresh { AllBefore self.old → IfOk result (λ u. get self.old.standings u ≡ None) }
    {
        if self.places.len() >= 4096 {
            return Err((active, CreateRefusal::TooMany));
        }
        let Some(serial) = self.last_serial.checked_add(1) else {
            return Err((active, CreateRefusal::SerialsSpent));
        };
        let uid = Uid {
            node: self.node,
            epoch: self.epoch,
            serial,
        };
        match put_active(&mut self.active, &mut self.places, uid, active) {
            Ok(()) => {
                self.last_serial = serial;
                Ok(uid)
            }
            Err(active) => Err((active, CreateRefusal::OutOfMemory)),
        }
    }

    /// The Eject, which is not active, is passive from now on: a representation of it is kept.
    pub fn note_passive(&mut self, _alloc: Global, uid: Uid) -> Result<(), AllocError>
        requires { standing_at self.old uid ≢ EjectStanding.Active }
        ensures { MatchResult result (λ _. self.new ≡ with_entry self.old uid None)
            (λ _. self.new ≡ self.old) }
    {
        put_passive(&self.active, &mut self.places, uid)
    }

    /// The Eject, which is not active, is active from now on. A refusal hands the value back.
    pub fn wake(&mut self, _alloc: Global, uid: Uid, active: A) -> Result<(), (A, AllocError)>
        requires { standing_at self.old uid ≢ EjectStanding.Active }
        ensures { MatchResult result (λ _. self.new ≡ with_entry self.old uid (Some active))
            (λ e. (e.0 ≡ active) × (self.new ≡ self.old)) }
    {
        match put_active(&mut self.active, &mut self.places, uid, active) {
            Ok(()) => Ok(()),
            Err(active) => Err((active, AllocError)),
        }
    }

    /// The number of the node.
    pub fn node(&self) -> u8
        ensures value { result ≡ self.now.node }
        ensures within { result ≤ 8 }
    {
        self.node
    }

    /// How the Eject stands.
    pub fn find(&self, uid: Uid) -> EjectStanding
        ensures { result ≡ standing_at self.now uid }
    {
        standing_in(&self.places, uid)
    }

    /// The active part, exactly where the Eject is active.
    pub fn active(&self, uid: Uid) -> Option<&A>
        ensures { option_copied result ≡ active_at self.now uid }
    {
        part_at(&self.active, &self.places, uid)
    }

    /// The active part, to be changed, exactly where the Eject is active.
    pub fn active_mut(&mut self, uid: Uid) -> Option<&mut A>
        ensures* writes_back { sem 𝓛 (LendsIf (the_row A.row) A.row self.entry result (with_active self.old uid) self.old) }
        ensures value { option_copied_mut result ≡ active_at self.old uid }
    {
        match place_of(&self.places, uid) {
            Some(key) => Some(&mut self.active[key]),
            None => None,
        }
    }

    /// The least uid in the table past this one, or the least of all. None where there is none.
    pub fn after(&self, uid: Option<Uid>) -> Option<Uid>
        ensures { result ≡ next_key uid (keys self.now.standings) }
    {
        after_key(&self.places, uid)
    }

    /// The active part leaves: its Eject is passive where it stays, and absent otherwise. None, and
    /// no change, exactly where the Eject is not active. No memory is taken.
    pub fn drop_active(&mut self, uid: Uid, stays: bool) -> Option<A>
        ensures part { result ≡ active_at self.old uid }
        ensures after { self.new ≡ record self.old { standings = dropped self.old.standings uid stays } }
    {
        drop_at(&mut self.active, &mut self.places, uid, stays)
    }

    /// The Eject, which is not active, is absent from now on.
    pub fn forget(&mut self, uid: Uid)
        requires { standing_at self.old uid ≢ EjectStanding.Active }
        ensures { self.new ≡ without_entry self.old uid }
    {
        forget_at(&self.active, &mut self.places, uid);
    }

    /// How many Ejects the table has, active and passive.
    pub fn count(&self) -> u32
        ensures { result ≡ min (len self.now.standings) 4294967295 }
    {
        self.places.len().min(u32::MAX as usize) as u32
    }
}

/// No uid is given twice: over any run of a new table's calls in which each uid noted is of an
/// earlier epoch, each uid created differs from all created or noted before.
pub fn no_uid_twice<A>()
    ensures { (node epoch last : ℕ) (cs : List (TableChange A))
        → Runs (empty_table node epoch last) cs → GivesOnce [] cs }
{}
