//! The slab and the index of a table.
ghost use Rattle.std.specs.Prelude.{◌≡◌, Some, None, IsSome, cond, map, MatchResult, option_copied};
ghost use Rattle.std.specs.Ordering.{eq_by_cmp, is_lt};
ghost use Rattle.std.specs.BTreeMap.{IsOrdered};
ghost use Rattle.std.specs.FinMap.{insert, remove, get};
ghost use Rattle.capability.specs.Uids.{uid_cmp};
ghost use Rattle.eden_model.specs.Map.{value_at, with_item, first};
ghost use Rattle.eject_table.specs.Table.{map_of, IsWhole, active_in, dropped, place_standing, next_key};
ghost use Rattle.std.specs.List.{find};

use crate::EjectStanding;
use capability::Uid;
use slab::Slab;
use std::alloc::AllocError;
use std::collections::BTreeMap;
use std::ops::Bound;

/// The place of the active part in the slab.
pub fn place_of(places: &BTreeMap<Uid, Option<usize>>, uid: Uid) -> Option<usize>
    ensures { result ≡ with_item (value_at uid_cmp uid places.now.entries) (λ k. k) None }
{
    match places.get(&uid) {
        Some(place) => *place,
        None => None,
    }
}

/// The Eject's active part is this one from now on. Memory is taken first, so that a refusal
/// changes nothing.
pub fn put_active<A>(
    slab: &mut Slab<A>,
    places: &mut BTreeMap<Uid, Option<usize>>,
    uid: Uid,
    active: A,
) -> Result<(), A>
    requires { IsWhole slab.old places.old.entries }
    ensures whole { IsWhole slab.new places.new.entries }
    ensures after { MatchResult result
        (λ _. map_of slab.new places.new.entries ≡ insert (map_of slab.old places.old.entries) uid (Some active))
        (λ a. (a ≡ active) × (map_of slab.new places.new.entries ≡ map_of slab.old places.old.entries)) }
{
    if slab.reserve(1).is_err() {
        return Err(active);
    }
    let key = slab.vacant_key();
    match places.insert(uid, Some(key)) {
        Ok(_) => {
            slab.insert_reserved(active);
            Ok(())
        }
        Err(_) => Err(active),
    }
}

/// The Eject is passive from now on; it was not active.
pub fn put_passive<A>(
    slab: &Slab<A>,
    places: &mut BTreeMap<Uid, Option<usize>>,
    uid: Uid,
) -> Result<(), AllocError>
    requires { IsWhole slab.now places.old.entries }
    ensures whole { IsWhole slab.now places.new.entries }
    ensures after { MatchResult result
        (λ _. map_of slab.now places.new.entries ≡ insert (map_of slab.now places.old.entries) uid None)
        (λ _. map_of slab.now places.new.entries ≡ map_of slab.now places.old.entries) }
{
    match places.insert(uid, None) {
        Ok(_) => Ok(()),
        Err(_) => Err(AllocError),
    }
}

/// The Eject, which is in the index, has no place.
fn make_passive(places: &mut BTreeMap<Uid, Option<usize>>, uid: Uid)
    requires { IsSome (value_at uid_cmp uid places.old.entries) }
    ensures at { (q : Uid) → value_at uid_cmp q places.new.entries
        ≡ cond (eq_by_cmp uid_cmp uid q) (Some None) (value_at uid_cmp q places.old.entries) }
    ensures sorted { IsOrdered uid_cmp places.new }
{
    match places.insert(uid, None) {
        Ok(_) => {}
        Err(_) => unreachable!(),
    }
}

/// The Eject is no longer in the index.
fn make_absent(places: &mut BTreeMap<Uid, Option<usize>>, uid: Uid)
    ensures at { (q : Uid) → value_at uid_cmp q places.new.entries
        ≡ cond (eq_by_cmp uid_cmp uid q) None (value_at uid_cmp q places.old.entries) }
    ensures sorted { IsOrdered uid_cmp places.new }
{
    let _ = places.remove(&uid);
}

/// The Eject, which is in the index, is passive, or absent.
fn unplace(places: &mut BTreeMap<Uid, Option<usize>>, uid: Uid, stays: bool)
    requires { IsSome (value_at uid_cmp uid places.old.entries) }
    ensures at { (q : Uid) → value_at uid_cmp q places.new.entries
        ≡ cond (eq_by_cmp uid_cmp uid q) (cond stays (Some None) None) (value_at uid_cmp q places.old.entries) }
    ensures sorted { IsOrdered uid_cmp places.new }
{
    if stays {
        make_passive(places, uid);
    } else {
        make_absent(places, uid);
    }
}

/// The active part leaves; its Eject is passive, or absent.
pub fn drop_at<A>(
    slab: &mut Slab<A>,
    places: &mut BTreeMap<Uid, Option<usize>>,
    uid: Uid,
    stays: bool,
) -> Option<A>
    requires { IsWhole slab.old places.old.entries }
    ensures whole { IsWhole slab.new places.new.entries }
    ensures part { result ≡ active_in (get (map_of slab.old places.old.entries) uid) }
    ensures after { map_of slab.new places.new.entries ≡ dropped (map_of slab.old places.old.entries) uid stays }
{
    match place_of(places, uid) {
        Some(key) => {
            unplace(places, uid, stays);
            slab.try_remove(key)
        }
        None => None,
    }
}

/// The Eject, which is not active, is absent.
pub fn forget_at<A>(slab: &Slab<A>, places: &mut BTreeMap<Uid, Option<usize>>, uid: Uid)
    requires { IsWhole slab.now places.old.entries }
    ensures whole { IsWhole slab.now places.new.entries }
    ensures after { map_of slab.now places.new.entries ≡ remove (map_of slab.now places.old.entries) uid }
{
    make_absent(places, uid);
}

/// The active part.
pub fn part_at<'a, A>(
    slab: &'a Slab<A>,
    places: &BTreeMap<Uid, Option<usize>>,
    uid: Uid,
) -> Option<&'a A>
    requires { IsWhole slab.now places.now.entries }
    ensures { option_copied result ≡ active_in (get (map_of slab.now places.now.entries) uid) }
{
    match place_of(places, uid) {
        Some(key) => slab.get(key),
        None => None,
    }
}

/// How the Eject stands.
pub fn standing_in(places: &BTreeMap<Uid, Option<usize>>, uid: Uid) -> EjectStanding
    ensures { result ≡ place_standing (value_at uid_cmp uid places.now.entries) }
{
    match places.get(&uid) {
        Some(Some(_)) => EjectStanding::Active,
        Some(None) => EjectStanding::Passive,
        None => EjectStanding::Absent,
    }
}

/// The least uid past this one, or the least of all.
pub fn after_key(places: &BTreeMap<Uid, Option<usize>>, uid: Option<Uid>) -> Option<Uid>
    ensures { result ≡ next_key uid (map (λ e. e.0) places.now.entries) }
{
    match uid {
        None => first_key(places),
        Some(uid) => key_past(places, uid),
    }
}

/// The least uid of all.
fn first_key(places: &BTreeMap<Uid, Option<usize>>) -> Option<Uid>
    ensures { result ≡ first (map (λ e. e.0) places.now.entries) }
{
    match places.first_key_value() {
        Some((uid, _)) => Some(*uid),
        None => None,
    }
}

/// The least uid past this one.
fn key_past(places: &BTreeMap<Uid, Option<usize>>, uid: Uid) -> Option<Uid>
    ensures { result ≡ find (λ v. is_lt (uid_cmp uid v)) (map (λ e. e.0) places.now.entries) }
{
    match places
        .range((Bound::Excluded(uid), Bound::Unbounded))
        .next()
    {
        Some((uid, _)) => Some(*uid),
        None => None,
    }
}
