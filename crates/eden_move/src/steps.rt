//! The steps of which each call is made, over any store: a settling, a read and a put.
ghost use Rattle.std.specs.Prelude.{◌≡◌, ◌≤◌, ◌+◌, ◌⊎◌, Bool, IsTrue, OnOk, MatchResult, Option, Result, Err, is_some, length};
ghost use Rattle.std.specs.Option.{option_map};
ghost use Rattle.eden_value.specs.Datum.{Datum};
ghost use Rattle.passive_store.specs.declared.store.StoreRefusal.TheVariants.{OutOfMemory, Stopped};
ghost use Rattle.passive_store.specs.Kept.{Idle, end_of_store, is_busy, IsDiskRefusal, IsEarlyRefusal, IsFullBy};
ghost use Rattle.passive_store.specs.Seen.{asked, has_room_for};
ghost use Rattle.move_laws.specs.World.{Node, keeping, doubting};
ghost use Rattle.move_laws.specs.Wander.{Record as AnyRecord};
ghost use Rattle.eden_move.specs.Records.{record_in};
ghost use Rattle.eden_move.specs.Minds.{Remembered};
ghost use Rattle.eden_move.specs.Shown.{key, IsWanderer, Shows, IsSettled, Goes, KeepsRoom};

use capability::{Body, Uid};
use passive_store::{Store, StoreRefusal};
use std::alloc::Global;

/// The uid under which the record of an Eject is kept on a node.
pub fn key_of(number: u8, uid: Uid) -> Uid
    ensures { result ≡ key number uid }
{
    Uid {
        node: number,
        epoch: u32::from(uid.node),
        serial: uid.serial,
    }
}

/// Settles the doubt, if there is one.
pub fn settles<St: Store>(store: &mut St) -> Result<(), StoreRefusal>
    requires power { IsTrue (St.seen store.old).disk.counts.power }
    requires idle { is_busy (St.seen store.old).work ≡ Bool.false }
    ensures idle { is_busy (St.seen store.new).work ≡ Bool.false }
    ensures work { OnOk result ((St.seen store.new).work ≡ Idle) }
    ensures node { (St.seen store.new).node ≡ (St.seen store.old).node }
    ensures power { (result ≡ Err Stopped → ⊥) → IsTrue (St.seen store.new).disk.counts.power }
    ensures goes { Goes Bool.true Bool.false Bool.false St.Device.tells St.layout (end_of_store result)
        (St.seen store.old) (St.seen store.new) }
    ensures room { IsTrue St.Device.tells → KeepsRoom (St.seen store.old) (St.seen store.new) }
    ensures more { (St.seen store.new).more ≡ (St.seen store.old).more }
    ensures settled { IsTrue St.Device.tells → (m : Uid → Option Remembered) (x : Node Datum) → Shows (St.seen store.old) m x
        → MatchResult result
        (λ _. IsSettled x (St.seen store.new) m)
        (λ e. IsDiskRefusal e × IsTrue (is_some x.doubt) × Shows (St.seen store.new) m x) }
{
    store.settle()
}

/// What is kept of an Eject, where nothing is in doubt.
pub fn reads_kept<St: Store>(
    alloc: Global,
    store: &mut St,
    number: u8,
    uid: Uid,
) -> Result<Option<Body>, StoreRefusal>
    requires power { IsTrue (St.seen store.old).disk.counts.power }
    requires idle { (St.seen store.old).work ≡ Idle }
    requires of { number ≡ (St.seen store.old).node }
    requires wanderer { IsWanderer uid }
    ensures work { (St.seen store.new).work ≡ Idle }
    ensures node { (St.seen store.new).node ≡ (St.seen store.old).node }
    ensures power { (result ≡ Err Stopped → ⊥) → IsTrue (St.seen store.new).disk.counts.power }
    ensures goes { Goes Bool.false Bool.true Bool.false St.Device.tells St.layout (end_of_store result)
        (St.seen store.old) (St.seen store.new) }
    ensures room { IsTrue St.Device.tells → KeepsRoom (St.seen store.old) (St.seen store.new) }
    ensures more { (St.seen store.new).more ≡ (St.seen store.old).more }
    ensures read { IsTrue St.Device.tells → (m : Uid → Option Remembered) (x : Node Datum) → Shows (St.seen store.old) m x
        → Shows (St.seen store.new) m x × MatchResult result
        (λ body. option_map record_in body ≡ x.kept uid)
        (λ e. (e ≡ OutOfMemory) ⊎ (IsDiskRefusal e × IsTrue (is_some (x.kept uid)))) }
{
    store.get(alloc, key_of(number, uid))
}

/// Puts the bytes of a record, where nothing is in doubt.
pub fn puts_record<St: Store>(
    alloc: Global,
    store: &mut St,
    number: u8,
    uid: Uid,
    body: Body,
) -> Result<(), StoreRefusal>
    requires power { IsTrue (St.seen store.old).disk.counts.power }
    requires idle { (St.seen store.old).work ≡ Idle }
    requires of { number ≡ (St.seen store.old).node }
    requires wanderer { IsWanderer uid }
    requires limit { length body ≤ 262144 }
    ensures idle { is_busy (St.seen store.new).work ≡ Bool.false }
    ensures node { (St.seen store.new).node ≡ (St.seen store.old).node }
    ensures power { (result ≡ Err Stopped → ⊥) → IsTrue (St.seen store.new).disk.counts.power }
    ensures goes { Goes Bool.false Bool.false Bool.true St.Device.tells St.layout (end_of_store result)
        (St.seen store.old) (St.seen store.new) }
    ensures put { IsTrue St.Device.tells → (m : Uid → Option Remembered) (x : Node Datum) (r : AnyRecord Datum)
        → Shows (St.seen store.old) m x → record_in body ≡ Option.Some r
        → MatchResult result
        (λ _. Shows (St.seen store.new) m (keeping uid r x))
        (λ e. (IsEarlyRefusal e × Shows (St.seen store.new) m x)
        ⊎ (IsDiskRefusal e × Shows (St.seen store.new) m (doubting (Option.Some (uid, r)) x))) }
    // As long as the room is told, it is refused as Full exactly where there is none; and the room goes on being told.
    ensures full { IsTrue St.Device.tells → 1 ≤ (St.seen store.old).more
        → IsFullBy (has_room_for St.layout (St.seen store.old).disk.counts.size (St.seen store.old).kept
        (asked (key number uid) (Option.Some body))) Option.None Idle result }
    ensures more { (St.seen store.old).more ≤ (St.seen store.new).more + 1 }
{
    store.put(alloc, key_of(number, uid), body.as_slice())
}
