//! The Ejects of a node by their uids.
ghost use Rattle.std.specs.Prelude.{◌≡◌, ◌≤◌, T, IfSome, None, OnOk, is_some, length, map, option_copied};
ghost use Rattle.std.specs.FinMap.Entries.{is_sorted};
ghost use Rattle.std.specs.List.{filter_map};
ghost use Rattle.std.specs.Option.{option_map};
ghost use Rattle.std.specs.Ordering.{is_lt};
ghost use Rattle.capability.specs.declared.TheConstants.{BODY_LIMIT};
ghost use Rattle.eden_model.specs.Crew.{Waits, outside};
ghost use Rattle.eden_model.specs.Map.{changed_at, each_value, first, put_at, same_uid, uid_cmp, value_at};
ghost use Rattle.epl_syntax.specs.Rules.OfTypes.{TypeList};
ghost use Rattle.journal.specs.Crashes.{fallen};
ghost use Rattle.journal.specs.EjectChange.{kept_of};
ghost use Rattle.journal.specs.Ejects.{on_active, told};
ghost use Rattle.journal.specs.Settling.{doubt_entry, settled_eject};
ghost use Rattle.plain_ejects.specs.Limits.{length_put};
ghost use Rattle.plain_ejects.specs.View.{change_of, eject_of, with_doubt, with_kept};
ghost use Rattle.plain_stores.specs.Places.{IsBehindLesser};
ghost use Rattle.plain_stores.specs.View.{ejects_of, IsPlaceOf};

use capability::Uid;
use checkpoint::Wish;
use epl_syntax::Answer;
use passive_store::Pick;
use plain_ejects::PlainEject;
use std::alloc::{AllocError, Global};

/// An Eject under its uid.
#[derive(Drop)]
pub struct PlainEntry {
    /// Its uid.
    pub uid: Uid,
    /// The Eject.
    pub eject: PlainEject,
}

/// Whether the entry is that of the Eject of this uid.
fn is_of(entry: &PlainEntry, uid: Uid) -> bool
    ensures { result ≡ same_uid uid entry.now.uid }
{
    uid == entry.uid
}

/// The place of the Eject of this uid.
pub fn place_of(entries: &[PlainEntry], uid: Uid) -> Option<usize>
    ensures { IsPlaceOf uid entries.now result }
{
    for i in 0..entries.len() {
        if is_of(&entries[i], uid) {
            return Some(i);
        }
    }
    None
}

/// Whether the entry is that of an Eject with a lesser uid.
fn is_lesser(entry: &PlainEntry, uid: Uid) -> bool
    ensures { result ≡ is_lt (uid_cmp entry.now.uid uid) }
{
    entry.uid < uid
}

/// How many of the first Ejects have lesser uids.
fn place_behind(entries: &[PlainEntry], uid: Uid) -> usize
    ensures within { result ≤ length entries.now }
    ensures behind { IsBehindLesser (λ (e : PlainEntry). e.uid) uid entries.now result }
{
    for i in 0..entries.len() {
        if !is_lesser(&entries[i], uid) {
            return i;
        }
    }
    entries.len()
}

/// A new Eject joins the others, under a uid that none of them has.
pub fn add(entries: &mut Vec<PlainEntry>, uid: Uid, eject: PlainEject) -> Result<(), AllocError>
    ensures { OnOk result ((ts : TypeList) → value_at uid_cmp uid (ejects_of ts entries.old.items) ≡ None
        → ejects_of ts entries.new.items ≡ put_at uid_cmp uid (eject_of ts eject) (ejects_of ts entries.old.items)) }
{
    let place = place_behind(entries, uid);
    entries.insert(place, PlainEntry { uid, eject })?;
    Ok(())
}

/// The Eject of this uid.
pub fn find(entries: &[PlainEntry], uid: Uid) -> Option<&PlainEject>
    ensures { (ts : TypeList) → option_map (eject_of ts) (option_copied result) ≡ value_at uid_cmp uid (ejects_of ts entries.now) }
{
    match place_of(entries, uid) {
        Some(place) => Some(&entries[place].eject),
        None => None,
    }
}

/// Whether a change of one of these Ejects is in doubt.
pub fn has_doubt(entries: &[PlainEntry]) -> bool
    ensures { (ts : TypeList) → result ≡ is_some (first (filter_map doubt_entry (ejects_of ts entries.now))) }
{
    for entry in entries {
        if entry.eject.doubt.is_some() {
            return true;
        }
    }
    false
}

/// A change of the Eject of this uid is in doubt.
pub fn leave_in_doubt(entries: &mut Vec<PlainEntry>, uid: Uid, wish: Wish)
    requires { length_put wish ≤ BODY_LIMIT }
    ensures { (ts : TypeList) → T (is_sorted uid_cmp (ejects_of ts entries.old.items)) → ejects_of ts entries.new.items
        ≡ changed_at uid_cmp uid (with_doubt (change_of wish)) (ejects_of ts entries.old.items) }
{
    match place_of(entries, uid) {
        Some(place) => entries[place].eject.leave_in_doubt(wish),
        None => {}
    }
}

/// A change of the Eject of this uid was made, and nothing is in doubt of it.
pub fn keep(entries: &mut Vec<PlainEntry>, uid: Uid, wish: Wish)
    requires { length_put wish ≤ BODY_LIMIT }
    ensures { (ts : TypeList) → T (is_sorted uid_cmp (ejects_of ts entries.old.items)) → ejects_of ts entries.new.items
        ≡ changed_at uid_cmp uid (with_kept (kept_of (change_of wish))) (ejects_of ts entries.old.items) }
{
    match place_of(entries, uid) {
        Some(place) => entries[place].eject.keep(wish),
        None => {}
    }
}

/// A process of the Eject of this uid, which waits for what is outside, is told an answer.
pub fn tell(entries: &mut Vec<PlainEntry>, uid: Uid, process: u8, answer: Answer)
    ensures { (ts : TypeList) → T (is_sorted uid_cmp (ejects_of ts entries.old.items))
        → IfSome (value_at uid_cmp uid (ejects_of ts entries.old.items)) (λ e. IfSome e.active (λ it. Waits it.crew process outside))
        → ejects_of ts entries.new.items ≡ changed_at uid_cmp uid (on_active (told process answer)) (ejects_of ts entries.old.items) }
{
    match place_of(entries, uid) {
        Some(place) => entries[place].eject.tell(process, answer),
        None => {}
    }
}

/// A settling has made this pick for each of these Ejects.
pub fn settle_each(entries: &mut Vec<PlainEntry>, pick: Pick)
    ensures { (ts : TypeList) → ejects_of ts entries.new.items ≡ each_value (settled_eject pick) (ejects_of ts entries.old.items) }
{
    for i in 0..entries.len() {
        entries[i].eject.settle(pick);
    }
}

/// The node of these Ejects has crashed.
pub fn fell_each(alloc: Global, entries: &mut Vec<PlainEntry>)
    ensures { (ts : TypeList) → ejects_of ts entries.new.items ≡ each_value fallen (ejects_of ts entries.old.items) }
{
    for i in 0..entries.len() {
        entries[i].eject.fall(alloc);
    }
}
