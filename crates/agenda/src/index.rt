//! An ordered index of Ejects that may take a turn of one kind.
ghost use Rattle.std.specs.Prelude.{◌≡◌, ◌↔◌, IsTrue, None, cond, not, OnOk, ◌&&◌, [], length};
ghost use Rattle.std.specs.Ordering.{eq_by_cmp, is_lt};
ghost use Rattle.std.specs.List.{find};
ghost use Rattle.std.specs.List.Sorted.{IsStrictlySortedBy};
ghost use Rattle.capability.specs.declared.Uid.{Uid as Name};
ghost use Rattle.capability.specs.Uids.{uid_cmp};
ghost use Rattle.eden_model.specs.Map.{first, value_at};
ghost use Rattle.agenda.specs.Indexed.{uids_of, entry_if, comes, is_it};

use crate::behind::Behind;
use capability::Uid;
use std::alloc::{AllocError, Global};
use std::collections::BTreeMap;
use std::ops::Bound;

/// The uids of Ejects that may take a turn of one kind, in order.
#[derive(Drop)]
pub struct Index {
    pub(crate) uids: BTreeMap<Uid, bool>,
}

// Whether it is this Eject.
pub(crate) fn is_it(it: Option<Uid>, uid: Uid) -> bool
    ensures { result ≡ is_it it uid }
{
    match it {
        Some(other) => other == uid,
        None => false,
    }
}

impl Index {
    /// No Eject is among them.
    pub fn new(alloc: Global) -> Index
        ensures { uids_of result ≡ [] }
    {
        Index {
            uids: BTreeMap::new(alloc),
        }
    }

    // They ascend.
    fn ascend(&self)
        ensures { IsStrictlySortedBy uid_cmp (uids_of self.now) }
    {
        let _number = self.uids.len();
    }

    /// Whether no Eject is among them.
    pub fn is_empty(&self) -> bool
        ensures { IsTrue result ↔ (uids_of self.now ≡ []) }
    {
        self.uids.is_empty()
    }

    /// How many Ejects are among them.
    pub fn len(&self) -> usize
        ensures { result ≡ length (uids_of self.now) }
    {
        self.uids.len()
    }

    /// The least uid of all.
    pub fn first(&self) -> Option<Uid>
        ensures { result ≡ first (uids_of self.now) }
    {
        match self.uids.first_key_value() {
            Some((uid, _)) => Some(*uid),
            None => None,
        }
    }

    /// The least uid past this one.
    pub fn past(&self, uid: Uid) -> Option<Uid>
        ensures { result ≡ find (λ v. is_lt (uid_cmp uid v)) (uids_of self.now) }
    {
        match self
            .uids
            .range((Bound::Excluded(uid), Bound::Unbounded))
            .next()
        {
            Some((uid, _)) => Some(*uid),
            None => None,
        }
    }

    /// The Eject is among them from now on, or is not.
    pub fn set(&mut self, uid: Uid, among: bool) -> Result<(), AllocError>
        ensures at { OnOk result ((q : Name) → value_at uid_cmp q self.new.uids.entries
            ≡ cond (eq_by_cmp uid_cmp uid q) (entry_if among) (value_at uid_cmp q self.old.uids.entries)) }
        ensures ascend { IsStrictlySortedBy uid_cmp (uids_of self.new) }
    {
        if among {
            match self.uids.insert(uid, true) {
                Ok(_) => Ok(()),
                Err(_) => Err(AllocError),
            }
        } else if self.is_empty() {
            Ok(())
        } else {
            let _ = self.uids.remove(&uid);
            Ok(())
        }
    }

    /// The first of them whose key comes behind, where it is one of no process.
    pub fn first_behind(&self, behind: Behind) -> Option<Uid>
        ensures { result ≡ find (λ u. comes behind u 0) (uids_of self.now) }
    {
        match behind {
            Behind::All => self.first(),
            Behind::Past { uid, .. } => self.past(uid),
            Behind::Nothing => None,
        }
    }

    /// The same, passing over one Eject.
    pub fn first_but(&self, behind: Behind, but: Option<Uid>) -> Option<Uid>
        ensures { result ≡ find (λ u. not (is_it but u) && comes behind u 0) (uids_of self.now) }
    {
        let Some(uid) = self.first_behind(behind) else {
            return None;
        };
        if is_it(but, uid) {
            self.ascend();
            self.past(uid)
        } else {
            Some(uid)
        }
    }
}
