//! What a node has in memory of the Ejects that are here.
ghost use Rattle.std.specs.Prelude.{◌≡◌, Bool, IsTrue, OnOk, OnErr, Some, None, is_some, if◌then◌else◌};
ghost use Rattle.std.specs.Option.{option_map};
ghost use Rattle.capability.specs.Uids.{uid_eq};
ghost use Rattle.eden_move.specs.Minds.{has_place, remembered, seen_known, memory_seen, mind_by};

use crate::due::Memory;
use capability::Uid;
use eden_value::Value;
use std::alloc::{AllocError, Global};
use std::collections::BTreeMap;

/// An Eject that is here: the value and the generation that were acknowledged or read last, and whether it is active.
#[derive(Drop)]
pub struct Known {
    /// How often it was lent before, and one.
    pub generation: u32,
    /// Its value.
    pub value: Value,
    /// Whether it has an active part.
    pub active: bool,
}

/// All of them by their uids. A place may be empty, which was made before a put.
#[derive(Drop)]
pub struct Mind {
    slots: BTreeMap<Uid, Option<Known>>,
}

impl Mind {
    /// With nothing in it.
    pub fn new(alloc: Global) -> Mind
        ensures { (q : Uid) → remembered result q ≡ None }
    {
        Mind {
            slots: BTreeMap::new(alloc),
        }
    }

    /// What is known of an Eject, if anything is.
    pub fn get(&self, uid: Uid) -> Option<&Known>
        ensures { option_map (λ k. seen_known k.now) result ≡ remembered self.now uid }
    {
        match self.slots.get(&uid) {
            Some(known) => known.as_ref(),
            None => None,
        }
    }

    /// Makes a place for an Eject, so that the next `learn` of it takes no memory.
    pub fn make_place(&mut self, uid: Uid) -> Result<(), AllocError>
        ensures place { OnOk result (IsTrue (has_place self.new uid)) }
        ensures same { (q : Uid) → remembered self.new q ≡ remembered self.old q }
    {
        if self.slots.contains_key(&uid) {
            return Ok(());
        }
        match self.slots.insert(uid, None) {
            Ok(_) => Ok(()),
            Err(_) => Err(AllocError),
        }
    }

    /// Forgets an Eject.
    pub fn forget(&mut self, uid: Uid)
        ensures { (q : Uid) → remembered self.new q ≡ (if uid_eq q uid then None else remembered self.old q) }
    {
        let _ = self.slots.remove(&uid);
    }

    /// From now on this is known of an Eject that has a place.
    pub fn note(&mut self, uid: Uid, known: Known)
        requires { IsTrue (has_place self.old uid) }
        ensures { (q : Uid) → remembered self.new q ≡ (if uid_eq q uid then Some (seen_known known) else remembered self.old q) }
    {
        match self.slots.insert(uid, Some(known)) {
            Ok(_) => {}
            Err(_) => unreachable!(),
        }
    }

    /// What a call leaves in memory of an Eject that has a place.
    pub fn learn(&mut self, uid: Uid, memory: Memory)
        requires { IsTrue (has_place self.old uid) }
        ensures { (q : Uid) → remembered self.new q ≡ mind_by (memory_seen memory) uid (remembered self.old) q }
    {
        match memory {
            Memory::Forgotten => self.forget(uid),
            Memory::Same => {}
            Memory::Learnt {
                active,
                generation,
                value,
            } => self.note(
                uid,
                Known {
                    generation,
                    value,
                    active,
                },
            ),
        }
    }
}
