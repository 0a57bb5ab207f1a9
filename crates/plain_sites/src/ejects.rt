//! Changes of one Eject among those of a node.
ghost use Rattle.std.specs.Prelude.{◌≡◌, ◌<◌, [], None, IfSome, OnOk, length};
ghost use Rattle.eden_model.specs.Map.{changed_at, uid_cmp, value_at};
ghost use Rattle.epl_syntax.specs.Rules.OfTypes.{TypeList};
ghost use Rattle.journal.specs.Ejects.{with_active, with_queued};
ghost use Rattle.journal.specs.Sites.{InOrder};
ghost use Rattle.plain_ejects.specs.View.{eject_of};
ghost use Rattle.plain_sites.specs.View.{IsPassive, is_unkept, joined, queue_in, ran_in};
ghost use Rattle.plain_stores.specs.View.{ejects_of};

use capability::{CallNumbers, Uid};
use coordinator::Pairs;
use plain_ejects::PlainEject;
use plain_stores::{PlainEntry, find, place_of};
use std::alloc::{AllocError, Global};

/// The active part of an Eject goes, where it has one. The calls that ran, each with the process that served it.
pub fn end_part(entries: &mut Vec<PlainEntry>, uid: Uid) -> Option<Pairs>
    ensures ran { (ts : TypeList) → result ≡ ran_in (value_at uid_cmp uid (ejects_of ts entries.old.items)) }
    ensures after { (ts : TypeList) → InOrder (ejects_of ts entries.old.items)
        → ejects_of ts entries.new.items ≡ changed_at uid_cmp uid (with_active None) (ejects_of ts entries.old.items) }
{
    match place_of(entries, uid) {
        Some(place) => entries[place].eject.deactivate(),
        None => None,
    }
}

/// No calls.
fn no_calls(alloc: Global) -> CallNumbers
    ensures { result ≡ [] }
{
    CallNumbers {
        items: Vec::new(alloc),
    }
}

/// The queued calls of an Eject that is passive. None is queued any more.
fn empty_queue(alloc: Global, eject: &mut PlainEject) -> CallNumbers
    ensures queued { (ts : TypeList) → (eject_of ts eject.old).active ≡ None → result ≡ (eject_of ts eject.old).queued }
    ensures after { (ts : TypeList) → (eject_of ts eject.old).active ≡ None
        → eject_of ts eject.new ≡ with_queued [] (eject_of ts eject.old) }
{
    match &eject.part {
        Some(_) => no_calls(alloc),
        None => eject.turn_away(alloc),
    }
}

/// The queued calls of an Eject that is passive, where it is there. None is queued any more.
pub fn take_queue(alloc: Global, entries: &mut Vec<PlainEntry>, uid: Uid) -> CallNumbers
    ensures queued { (ts : TypeList) → IsPassive (value_at uid_cmp uid (ejects_of ts entries.old.items))
        → result ≡ queue_in (value_at uid_cmp uid (ejects_of ts entries.old.items)) }
    ensures after { (ts : TypeList) → InOrder (ejects_of ts entries.old.items)
        → IsPassive (value_at uid_cmp uid (ejects_of ts entries.old.items))
        → ejects_of ts entries.new.items ≡ changed_at uid_cmp uid (with_queued []) (ejects_of ts entries.old.items) }
{
    match place_of(entries, uid) {
        Some(place) => empty_queue(alloc, &mut entries[place].eject),
        None => no_calls(alloc),
    }
}

/// A call joins the queue of an Eject in which fewer than 64 are queued.
fn join_queue(eject: &mut PlainEject, call: u32, class: u8) -> Result<(), AllocError>
    ensures { OnOk result ((ts : TypeList) → length (eject_of ts eject.old).queued < 64
        → eject_of ts eject.new ≡ joined call (eject_of ts eject.old)) }
{
    if eject.is_full() {
        return Ok(());
    }
    eject.enqueue(call, class)
}

/// The same, where the Eject is there.
pub fn join(entries: &mut Vec<PlainEntry>, uid: Uid, call: u32, class: u8) -> Result<(), AllocError>
    ensures { OnOk result ((ts : TypeList) → InOrder (ejects_of ts entries.old.items)
        → IfSome (value_at uid_cmp uid (ejects_of ts entries.old.items)) (λ e. length e.queued < 64)
        → ejects_of ts entries.new.items ≡ changed_at uid_cmp uid (joined call) (ejects_of ts entries.old.items)) }
{
    match place_of(entries, uid) {
        Some(place) => join_queue(&mut entries[place].eject, call, class)?,
        None => {}
    }
    Ok(())
}

/// Whether an Eject is there, but is not active, and nothing is kept of it or may be kept.
pub fn is_gone(entries: &[PlainEntry], uid: Uid) -> bool
    ensures { (ts : TypeList) → result ≡ is_unkept (value_at uid_cmp uid (ejects_of ts entries.now)) }
{
    match find(entries, uid) {
        Some(eject) => !eject.is_there(),
        None => false,
    }
}
