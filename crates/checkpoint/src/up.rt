//! A node boots: its store is opened, the doubt is settled, and the next epoch is put.
ghost use Rattle.std.specs.Prelude.{◌≡◌, ◌⊎◌, ◌≤◌, ℕ, [], List, Bool, Option, IsTrue, IfOk, IfErr, IfSome, OnOk, OnErr, MatchResult};
ghost use Rattle.std.specs.Prelude.{is_some};
ghost use Rattle.eden_disk.specs.Told.{Told};
ghost use Rattle.eden_disk.specs.Calls.{Fine};
ghost use Rattle.passive_store.specs.declared.store.Pick.{Pick};
ghost use Rattle.passive_store.specs.declared.store.StoreRefusal.TheVariants.{OutOfMemory};
ghost use Rattle.journal.specs.Ejects.{stored_epoch as epoch_stored};
ghost use Rattle.journal.specs.Settling.{settled, epoch_bytes as bytes_of};
ghost use Rattle.passive_store.specs.Kept.{Idle, IsDiskRefusal, IsEarlyRefusal, doubt_in, end_of_store};
ghost use Rattle.passive_store.specs.Layout.{IsLayout};
ghost use Rattle.passive_store.specs.Seen.{disk_seen};
ghost use Rattle.journal.specs.Sites.{HasEpochs};
ghost use Rattle.journal.specs.World.{Site};
ghost use Rattle.checkpoint.specs.Turns.{RestStands};
ghost use Rattle.checkpoint.specs.Asked.{noted_in};
ghost use Rattle.checkpoint.specs.Calls.{MakesCalls, powered, call_of_refusal, call_of_fall};
ghost use Rattle.checkpoint.specs.Touches.{ObeyedIn, RaisesClock};
ghost use Rattle.checkpoint.specs.Booting.{PicksBy, OpensTo, RefusedTo, PutsTo};
ghost use Rattle.checkpoint.specs.Boots.{end_of_boot, BootsUp, FallsTo, IsDownSite};
ghost use Rattle.checkpoint.specs.BarredBoots.{Bar, BarStands, nothing_begun, FallsBarred};

use crate::down::noted;
use capability::Uid;
use eden_disk::Disk;
use journal::BootEnd;
use passive_store::{Doubt, Pick, Store, StoreRefusal, finish};
use std::alloc::Global;

/// What is noted of a boot.
#[derive(Clone, Copy, Debug, PartialEq, Eq)]
pub struct BootNote {
    /// The epoch that was put or begun, or 0.
    pub epoch: u32,
    /// Which state of the doubt was found.
    pub pick: Option<Pick>,
    /// Whether a put was begun.
    pub began: bool,
}

/// A boot that did not bring its node up: how it ended, or None where there was no memory; and what is in doubt then.
#[derive(Clone, Copy, Debug, PartialEq, Eq)]
pub struct BootFall {
    pub note: BootNote,
    pub end: Option<BootEnd>,
    pub doubt: Option<Doubt>,
}

/// Which state of the change that was in doubt is there.
fn pick_of<St: Store>(store: &St, noted: Option<Doubt>) -> Option<Pick>
    ensures { IsTrue St.Device.tells → PicksBy noted (St.seen store.now).kept result }
{
    match noted {
        None => None,
        Some(doubt) => {
            if store.mark(doubt.uid) == doubt.mark {
                Some(Pick::Old)
            } else {
                Some(Pick::New)
            }
        }
    }
}

/// Opens the store of a node that was down, and tells which state of its doubt is there.
fn open_store<St: Store>(
    alloc: Global,
    disk: St::Device,
    node: u8,
    noted: Option<Doubt>,
) -> Result<(St, Option<Pick>), (St::Device, StoreRefusal)>
    requires power { IsTrue (St.Device.counts disk).power }
    requires node { (1 ≤ node) × (node ≤ 8) }
    ensures node { IfOk result (λ p. (St.seen p.0).node ≡ node) }
    ensures idle { IfOk result (λ p. (St.seen p.0).work ≡ Idle) }
    ensures power { IfOk result (λ p. IsTrue (St.seen p.0).disk.counts.power) }
    ensures calls { MatchResult result (λ p. MakesCalls (St.Device.counts disk) (St.seen p.0).disk.counts Fine)
        (λ r. MakesCalls (St.Device.counts disk) (St.Device.counts r.0) (call_of_refusal r.1)) }
    ensures obeyed { let of = disk_seen St.Device.counts St.Device.told St.Device.due in
        MatchResult result (λ p. ObeyedIn St.Device.obeys (of disk) (St.seen p.0).disk Fine)
        (λ r. ObeyedIn St.Device.obeys (of disk) (of r.0) (call_of_refusal r.1)) }
    ensures raises { IsTrue St.Device.tells → IfErr result (λ r.
        RaisesClock (call_of_refusal r.1) (St.Device.counts disk).clock (St.Device.counts r.0).clock) }
    ensures opened { IsTrue St.Device.tells → IfOk result (λ p. (s : Site)
        → IsLayout St.layout → (more : ℕ)
        → RestStands St.layout node more s noted (St.Device.counts disk).size (St.Device.counts disk).clock (St.Device.told disk)
        → OpensTo St.layout node more s (St.Device.told disk) (St.Device.counts disk).clock p.1 (St.seen p.0)) }
    ensures refused { IsTrue St.Device.tells → IfErr result (λ r. (s : Site)
        → (more : ℕ)
        → RestStands St.layout node more s noted (St.Device.counts disk).size (St.Device.counts disk).clock (St.Device.told disk)
        → RefusedTo St.layout node more s noted (St.Device.told disk) (St.Device.counts disk).clock r.1 (St.Device.told r.0)
        (St.Device.counts r.0)) }
    ensures barred { IsTrue St.Device.tells → (s : Site) → IsLayout St.layout → (bar : Bar)
        → BarStands St.layout node s bar (St.Device.counts disk).size (St.Device.counts disk).clock (St.Device.told disk)
        → MatchResult result (λ _. ⊥) (λ r. FallsBarred St.layout node s bar (St.Device.told disk) (St.Device.counts disk).clock
        (end_of_boot r.1) nothing_begun (St.Device.told r.0) (St.Device.counts r.0)) }
{
    let _size = disk.size();
    match St::open_disk(alloc, disk, node) {
        Err((disk, refusal)) => Err((disk, refusal)),
        Ok(store) => {
            let pick = pick_of(&store, noted);
            Ok((store, pick))
        }
    }
}

/// The four bytes of an epoch, the highest first.
fn epoch_bytes(epoch: u32) -> [u8; 4]
    ensures { result ≡ bytes_of epoch }
{
    [
        (epoch / 16_777_216 % 256) as u8,
        (epoch / 65_536 % 256) as u8,
        (epoch / 256 % 256) as u8,
        (epoch % 256) as u8,
    ]
}

/// The epoch of which these are the bytes.
fn epoch_of(bytes: &[u8]) -> u32
    ensures { (e : ℕ) → e ≤ 4294967295 → bytes.now ≡ bytes_of e → result ≡ e }
{
    if bytes.len() != 4 {
        return 0;
    }
    u32::from(bytes[0]) * 16_777_216
        + u32::from(bytes[1]) * 65_536
        + u32::from(bytes[2]) * 256
        + u32::from(bytes[3])
}

/// The epoch that is stored, or 0 where none is.
fn read_epoch<St: Store>(alloc: Global, store: &mut St, node: u8) -> Result<u32, StoreRefusal>
    requires power { IsTrue (St.seen store.old).disk.counts.power }
    requires idle { (St.seen store.old).work ≡ Idle }
    requires node { (St.seen store.old).node ≡ node }
    ensures node { (St.seen store.new).node ≡ node }
    ensures idle { (St.seen store.new).work ≡ Idle }
    ensures only { IfErr result (λ e. IsDiskRefusal e ⊎ (e ≡ OutOfMemory)) }
    ensures power { OnOk result (IsTrue (St.seen store.new).disk.counts.power) }
    ensures calls { MakesCalls (St.seen store.old).disk.counts (St.seen store.new).disk.counts (end_of_store result) }
    ensures obeyed { ObeyedIn St.Device.obeys (St.seen store.old).disk (St.seen store.new).disk (end_of_store result) }
    ensures raises { RaisesClock (end_of_store result) (St.seen store.old).disk.counts.clock (St.seen store.new).disk.counts.clock }
    ensures reads { IsTrue St.Device.tells → (more : ℕ) (s : Site) (told : Told) (clock : ℕ) (p : Option Pick)
        → OpensTo St.layout node more s told clock p (St.seen store.old) → OpensTo St.layout node more s told clock p (St.seen store.new) }
    ensures epoch { IsTrue St.Device.tells → IfOk result (λ e. (more : ℕ) (s : Site) (told : Told) (clock : ℕ) (p : Option Pick)
        → OpensTo St.layout node more s told clock p (St.seen store.old)
        → IfSome (settled p s).node.epoch (λ k. k ≤ 4294967295) → e ≡ epoch_stored (settled p s).node) }
    ensures stored { IsTrue St.Device.tells → OnErr result ((more : ℕ) (s : Site) (told : Told) (clock : ℕ) (p : Option Pick)
        → OpensTo St.layout node more s told clock p (St.seen store.old) → IsTrue (is_some (settled p s).node.epoch)) }
{
    let uid = Uid {
        node,
        epoch: 0,
        serial: 0,
    };
    if !store.holds(uid) {
        return Ok(0);
    }
    match store.get(alloc, uid) {
        Ok(Some(body)) => Ok(epoch_of(body.as_slice())),
        Ok(None) => Ok(0),
        Err(refusal) => Err(refusal),
    }
}

/// Puts an epoch.
fn put_epoch<St: Store>(
    alloc: Global,
    store: &mut St,
    node: u8,
    epoch: u32,
) -> Result<(), StoreRefusal>
    requires power { IsTrue (St.seen store.old).disk.counts.power }
    requires idle { (St.seen store.old).work ≡ Idle }
    requires node { (St.seen store.old).node ≡ node }
    ensures node { (St.seen store.new).node ≡ node }
    ensures idle { OnOk result ((St.seen store.new).work ≡ Idle) }
    ensures power { OnOk result (IsTrue (St.seen store.new).disk.counts.power) }
    ensures only { IfErr result (λ e. IsDiskRefusal e ⊎ IsEarlyRefusal e) }
    ensures calls { MakesCalls (St.seen store.old).disk.counts (St.seen store.new).disk.counts (end_of_store result) }
    ensures obeyed { ObeyedIn St.Device.obeys (St.seen store.old).disk (St.seen store.new).disk (end_of_store result) }
    ensures raises { RaisesClock (end_of_store result) (St.seen store.old).disk.counts.clock (St.seen store.new).disk.counts.clock }
    ensures puts { IsTrue St.Device.tells → (more : ℕ) (s : Site) (told : Told) (clock : ℕ) (p : Option Pick) → 1 ≤ more
        → s.number ≡ node → s.layout ≡ St.layout → HasEpochs s.node → OpensTo St.layout node more s told clock p (St.seen store.old)
        → PutsTo St.layout node more s told clock p epoch (St.seen store.old) result (St.seen store.new) }
{
    let uid = Uid {
        node,
        epoch: 0,
        serial: 0,
    };
    match store.begin_put(alloc, uid, &epoch_bytes(epoch)) {
        Ok(()) => finish(store),
        Err(StoreRefusal::Full) => Err(StoreRefusal::Full),
        Err(StoreRefusal::OutOfMemory) => Err(StoreRefusal::OutOfMemory),
        Err(_) => unreachable!(),
    }
}

// How a refusal ends a boot.
fn end_of(refusal: StoreRefusal) -> Option<BootEnd>
    ensures { result ≡ end_of_boot refusal }
{
    match refusal {
        StoreRefusal::Failed => Some(BootEnd::DiskFault),
        StoreRefusal::Stopped => Some(BootEnd::Stop),
        StoreRefusal::Full => Some(BootEnd::Full),
        StoreRefusal::Damaged { place } => Some(BootEnd::Damaged { place }),
        StoreRefusal::OutOfMemory => None,
    }
}

fn fall<St: Store>(store: St, note: BootNote, end: Option<BootEnd>) -> (St::Device, BootFall)
    ensures disk { disk_seen St.Device.counts St.Device.told St.Device.due result.0 ≡ (St.seen store).disk }
    ensures note { result.1.note ≡ note }
    ensures end { result.1.end ≡ end }
    ensures doubt { IsTrue St.Device.tells → result.1.doubt ≡ noted_in (doubt_in (St.seen store).work) (St.seen store).kept }
{
    let doubt = noted(&store);
    (store.close(), BootFall { note, end, doubt })
}

// The store was opened: the epoch is read, and the next one put.
fn boot_opened<St: Store>(
    alloc: Global,
    mut store: St,
    node: u8,
    pick: Option<Pick>,
) -> Result<(St, BootNote), (St::Device, BootFall)>
    requires power { IsTrue (St.seen store).disk.counts.power }
    requires idle { (St.seen store).work ≡ Idle }
    requires node { (St.seen store).node ≡ node }
    ensures node { IfOk result (λ r. (St.seen r.0).node ≡ node) }
    ensures idle { IfOk result (λ r. (St.seen r.0).work ≡ Idle) }
    ensures power { IfOk result (λ r. IsTrue (St.seen r.0).disk.counts.power) }
    ensures calls { MatchResult result (λ r. MakesCalls (St.seen store).disk.counts (St.seen r.0).disk.counts Fine)
        (λ r. MakesCalls (St.seen store).disk.counts (St.Device.counts r.0) (call_of_fall r.1.end)) }
    ensures obeyed { let of = disk_seen St.Device.counts St.Device.told St.Device.due in
        MatchResult result (λ r. ObeyedIn St.Device.obeys (St.seen store).disk (St.seen r.0).disk Fine)
        (λ r. ObeyedIn St.Device.obeys (St.seen store).disk (of r.0) (call_of_fall r.1.end)) }
    ensures raises { IfErr result (λ r.
        RaisesClock (call_of_fall r.1.end) (St.seen store).disk.counts.clock (St.Device.counts r.0).clock) }
    ensures up { IsTrue St.Device.tells → IfOk result (λ r. (more : ℕ) (s : Site) (told : Told) (clock : ℕ) → 1 ≤ more
        → IsDownSite St.layout node s → OpensTo St.layout node more s told clock pick (St.seen store)
        → BootsUp St.layout node more s told clock r.1 (St.seen r.0)) }
    ensures falls { IsTrue St.Device.tells → IfErr result (λ r. (more : ℕ) (s : Site) (told : Told) (clock : ℕ) → 1 ≤ more
        → IsDownSite St.layout node s → OpensTo St.layout node more s told clock pick (St.seen store)
        → FallsTo St.layout node more s told clock r.1.end r.1.note r.1.doubt (St.Device.told r.0) (St.Device.counts r.0)) }
{
    let nothing = BootNote {
        epoch: 0,
        pick,
        began: false,
    };
    match read_epoch(alloc, &mut store, node) {
        Err(refusal) => Err(fall(store, nothing, end_of(refusal))),
        Ok(epoch) => {
            if epoch == 4_294_967_295 {
                return Err(fall(store, nothing, Some(BootEnd::EpochsSpent)));
            }
            let begun = BootNote {
                epoch: epoch + 1,
                pick,
                began: true,
            };
            match put_epoch(alloc, &mut store, node, epoch + 1) {
                Ok(()) => Ok((store, begun)),
                Err(StoreRefusal::Full) => Err(fall(store, nothing, Some(BootEnd::Full))),
                Err(StoreRefusal::OutOfMemory) => Err(fall(store, nothing, None)),
                Err(StoreRefusal::Failed) => Err(fall(store, begun, Some(BootEnd::DiskFault))),
                Err(StoreRefusal::Stopped) => Err(fall(store, begun, Some(BootEnd::Stop))),
                Err(StoreRefusal::Damaged { place: _ }) => unreachable!(),
            }
        }
    }
}

/// A node that is down boots: its disk gets power, its store is opened, what was noted of its doubt is settled, and the next epoch is put.
pub fn boot<St: Store>(
    alloc: Global,
    mut disk: St::Device,
    node: u8,
    noted: Option<Doubt>,
) -> Result<(St, BootNote), (St::Device, BootFall)>
    requires node { (1 ≤ node) × (node ≤ 8) }
    ensures node { IfOk result (λ r. (St.seen r.0).node ≡ node) }
    ensures idle { IfOk result (λ r. (St.seen r.0).work ≡ Idle) }
    ensures power { IfOk result (λ r. IsTrue (St.seen r.0).disk.counts.power) }
    ensures calls { MatchResult result (λ r. MakesCalls (powered (St.Device.counts disk)) (St.seen r.0).disk.counts Fine)
        (λ r. MakesCalls (powered (St.Device.counts disk)) (St.Device.counts r.0) (call_of_fall r.1.end)) }

    // Where the disk obeys, what it was refused was due.
    ensures obeyed { let of = disk_seen St.Device.counts St.Device.told St.Device.due in
        MatchResult result (λ r. ObeyedIn St.Device.obeys (of disk) (St.seen r.0).disk Fine)
        (λ r. ObeyedIn St.Device.obeys (of disk) (of r.0) (call_of_fall r.1.end)) }
    ensures raises { IsTrue St.Device.tells → IfErr result (λ r.
        RaisesClock (call_of_fall r.1.end) (St.Device.counts disk).clock (St.Device.counts r.0).clock) }
    ensures up { IsTrue St.Device.tells → IfOk result (λ r. (s : Site)
        → IsLayout St.layout → HasEpochs s.node → (more : ℕ) → 1 ≤ more
        → RestStands St.layout node more s noted (St.Device.counts disk).size (St.Device.counts disk).clock (St.Device.told disk)
        → BootsUp St.layout node more s (St.Device.told disk) (St.Device.counts disk).clock r.1 (St.seen r.0)) }
    ensures falls { IsTrue St.Device.tells → IfErr result (λ r. (s : Site)
        → IsLayout St.layout → HasEpochs s.node → (more : ℕ) → 1 ≤ more
        → RestStands St.layout node more s noted (St.Device.counts disk).size (St.Device.counts disk).clock (St.Device.told disk)
        → FallsTo St.layout node more s (St.Device.told disk) (St.Device.counts disk).clock r.1.end r.1.note r.1.doubt
        (St.Device.told r.0) (St.Device.counts r.0)) }

    // One whose disk cannot be opened does not come up.
    ensures barred { IsTrue St.Device.tells → (s : Site) → IsLayout St.layout → (bar : Bar)
        → BarStands St.layout node s bar (St.Device.counts disk).size (St.Device.counts disk).clock (St.Device.told disk)
        → MatchResult result (λ _. ⊥) (λ r. (r.1.doubt ≡ noted)
        × FallsBarred St.layout node s bar (St.Device.told disk) (St.Device.counts disk).clock r.1.end r.1.note (St.Device.told r.0)
        (St.Device.counts r.0)) }
{
    disk.restart();
    match open_store::<St>(alloc, disk, node, noted) {
        Err((disk, refusal)) => Err((
            disk,
            BootFall {
                note: BootNote {
                    epoch: 0,
                    pick: None,
                    began: false,
                },
                end: end_of(refusal),
                doubt: noted,
            },
        )),
        Ok((store, pick)) => boot_opened(alloc, store, node, pick),
    }
}
