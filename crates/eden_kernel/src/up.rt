//! A node comes up.
ghost use Rattle.std.specs.Prelude.{◌≡◌, ◌≤◌, ◌<◌, ◌⊎◌, ℕ, IfOk, IfErr, IfSome, IsTrue, MatchResult, Some, None};
ghost use Rattle.epl_syntax.specs.Rules.OfTypes.{TypeList};
ghost use Rattle.epl_syntax.specs.Meaning.{types_in};
ghost use Rattle.invocation.specs.Mail.{Mail};
ghost use Rattle.invocation.specs.Carries.{Carries};
ghost use Rattle.eden_disk.specs.Calls.{Fine};
ghost use Rattle.passive_store.specs.Kept.{IsEject, IsNextKept};
ghost use Rattle.passive_store.specs.Layout.{IsLayout};
ghost use Rattle.passive_store.specs.Seen.{disk_seen};
ghost use Rattle.journal.specs.declared.event.BootEnd.TheVariants.{Up};
ghost use Rattle.journal.specs.World.{Site};
ghost use Rattle.journal.specs.Sites.{HasEpochs};
ghost use Rattle.checkpoint.specs.Boots.{FallsTo};
ghost use Rattle.checkpoint.specs.BarredBoots.{Bar, BarStands, FallsBarred};
ghost use Rattle.checkpoint.specs.Calls.{MakesCalls, powered, call_of_fall};
ghost use Rattle.checkpoint.specs.Turns.{RestStands};
ghost use Rattle.ejects.specs.View.{parts_of};
ghost use Rattle.eden_kernel.specs.Boots.{HasNoted, IsLater, rank_of, IsAsleep, NodeBoots, BootsPut};
ghost use Rattle.disk_faults.specs.Shows.{ShowsCounts};
ghost use Rattle.eden_kernel.specs.Shows.{FallShows, boot_event};
ghost use Rattle.eden_kernel.specs.Stands.{held, IsWhole};

use crate::Node;
use capability::Uid;
use checkpoint::{BootFall, BootNote, Worker, noted};
use ejects::Ejects;
use passive_store::{Doubt, Store};
use std::alloc::{AllocError, Global};

// The place of a uid among those of its node.
fn rank(uid: Uid) -> u64
    ensures place { result ≡ rank_of uid }
    ensures small { uid.serial ≤ 4294967295 }
    ensures fits { rank_of uid < 18446744073709551616 }
{
    u64::from(uid.epoch) * 4_294_967_296 + u64::from(uid.serial)
}

// The next uid behind this one, or the first, of which something is kept.
fn next_kept<St: Store>(store: &St, from: Option<Uid>) -> Option<Uid>
    requires own { IfSome from (IsEject (St.seen store.now).node) }
    ensures later { IfSome result (IsLater from) }
    ensures next { IsTrue St.Device.tells → IsNextKept (St.seen store.now).node (St.seen store.now).kept from result }
    ensures own { IfSome result (IsEject (St.seen store.now).node) }
{
    let next = store.after(from)?;
    let place = rank(next);
    match from {
        Some(uid) if rank(uid) >= place => None,
        _ => Some(next),
    }
}

// The Ejects of a node that has come up: those of which something is kept, all passive.
fn passive_ejects<St: Store>(
    alloc: Global,
    store: &St,
    number: u8,
    epoch: u32,
) -> Result<Ejects, AllocError>
    requires number { (St.seen store.now).node ≡ number }
    requires within { number ≤ 8 }
    ensures { IsTrue St.Device.tells
        → IfOk result (λ n. (ts : TypeList) → HasNoted (parts_of ts n) number epoch (St.seen store.now).kept None) }
{
    let mut ejects = Ejects::new(alloc, number, epoch)?;
    let mut next = next_kept(store, None);
    while let Some(uid) = next {
        ejects.note(alloc, uid)?;
        next = next_kept(store, Some(uid));
    }
    Ok(ejects)
}

impl<St: Store> Node<St> {
    /// A node that is down boots: its disk gets power, what was in doubt there is settled, and the next epoch is put.
    /// Its Ejects are those of which something is kept, all passive.
    pub fn boot(
        alloc: Global,
        disk: St::Device,
        number: u8,
        doubt: Option<Doubt>,
    ) -> Result<(Node<St>, BootNote), (St::Device, BootFall)>
        requires node { (1 ≤ number) × (number ≤ 8) }
        ensures whole { IfOk result (λ r. IsWhole (held St.seen r.0)) }
        ensures number { IfOk result (λ r. r.0.number ≡ number) }
        ensures calls { MatchResult result
            (λ r. MakesCalls (powered (St.Device.counts disk)) (St.seen r.0.store).disk.counts Fine)
            (λ r. MakesCalls (powered (St.Device.counts disk)) (St.Device.counts r.0) (call_of_fall r.1.end)) }

        // What the event of the boot shows of the disk was due, where that obeys.
        ensures shows { IsTrue St.Device.tells → let of = disk_seen St.Device.counts St.Device.told St.Device.due in
            MatchResult result (λ r. ShowsCounts St.Device.obeys number (boot_event number Up r.1) (of disk) (St.seen r.0.store).disk)
            (λ r. FallShows St.Device.obeys number r.1.end r.1.note (of disk) (of r.0)) }
        ensures up { IsTrue St.Device.tells → IfOk result (λ r. (ts : TypeList) (m : Mail) (s : Site)
            → IsLayout St.layout → HasEpochs s.node → (more : ℕ) → 1 ≤ more → s.types ≡ types_in ts → IsAsleep s → Carries m s.traffic
            → RestStands St.layout number more s doubt (St.Device.counts disk).size (St.Device.counts disk).clock (St.Device.told disk)
            → NodeBoots St.layout ts number more s (St.Device.told disk) (St.Device.counts disk).clock r.1 (held St.seen r.0) m) }
        ensures falls { IsTrue St.Device.tells → IfErr result (λ r. (s : Site)
            → IsLayout St.layout → HasEpochs s.node → (more : ℕ) → 1 ≤ more
            → RestStands St.layout number more s doubt (St.Device.counts disk).size (St.Device.counts disk).clock (St.Device.told disk)
            → FallsTo St.layout number more s (St.Device.told disk) (St.Device.counts disk).clock r.1.end r.1.note r.1.doubt
            (St.Device.told r.0) (St.Device.counts r.0)
            ⊎ ((r.1.end ≡ None) × BootsPut St.layout number more s (St.Device.told disk) (St.Device.counts disk).clock r.1.note
            (St.Device.told r.0) (St.Device.counts r.0).clock)) }

        // One whose disk cannot be opened does not come up.
        ensures barred { IsTrue St.Device.tells → (s : Site) → IsLayout St.layout → (bar : Bar)
            → BarStands St.layout number s bar (St.Device.counts disk).size (St.Device.counts disk).clock (St.Device.told disk)
            → MatchResult result (λ _. ⊥) (λ r. (r.1.doubt ≡ doubt)
            × FallsBarred St.layout number s bar (St.Device.told disk) (St.Device.counts disk).clock r.1.end r.1.note
            (St.Device.told r.0) (St.Device.counts r.0)) }
    {
        let (store, note) = checkpoint::boot::<St>(alloc, disk, number, doubt)?;
        match passive_ejects(alloc, &store, number, note.epoch) {
            Ok(ejects) => {
                let node = Node {
                    number,
                    ejects,
                    worker: Worker::new(alloc),
                    store,
                };
                Ok((node, note))
            }
            Err(AllocError) => {
                let doubt = noted(&store);
                let fall = BootFall {
                    note,
                    end: None,
                    doubt,
                };
                Err((store.close(), fall))
            }
        }
    }
}
