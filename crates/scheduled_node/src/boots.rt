//! A node comes up.
ghost use Rattle.std.specs.Prelude.{◌≡◌, ◌≤◌, ◌⊎◌, ℕ, IfOk, IfErr, IsTrue, MatchResult, None};
ghost use Rattle.epl_syntax.specs.Rules.OfTypes.{TypeList};
ghost use Rattle.epl_syntax.specs.Meaning.{types_in};
ghost use Rattle.invocation.specs.Mail.{Mail};
ghost use Rattle.invocation.specs.Carries.{Carries};
ghost use Rattle.eden_disk.specs.Calls.{Fine};
ghost use Rattle.passive_store.specs.Layout.{IsLayout};
ghost use Rattle.passive_store.specs.Seen.{disk_seen};
ghost use Rattle.journal.specs.declared.event.BootEnd.TheVariants.{Up};
ghost use Rattle.journal.specs.World.{Site};
ghost use Rattle.journal.specs.Sites.{HasEpochs};
ghost use Rattle.checkpoint.specs.Boots.{FallsTo};
ghost use Rattle.checkpoint.specs.BarredBoots.{Bar, BarStands, FallsBarred};
ghost use Rattle.checkpoint.specs.Calls.{MakesCalls, powered, call_of_fall};
ghost use Rattle.checkpoint.specs.Turns.{RestStands};
ghost use Rattle.ejects.specs.View.{parts_of};
ghost use Rattle.agenda.specs.Indexed.{indices_of};
ghost use Rattle.agenda.specs.Keys.{IsAgenda};
ghost use Rattle.eden_kernel.specs.Boots.{IsAsleep, NodeBoots, BootsPut};
ghost use Rattle.disk_faults.specs.Shows.{ShowsCounts};
ghost use Rattle.eden_kernel.specs.Shows.{FallShows, boot_event};
ghost use Rattle.eden_kernel.specs.Stands.{held, IsWhole};

use crate::ScheduledNode;
use agenda::Agenda;
use checkpoint::{BootFall, BootNote};
use eden_kernel::Node;
use passive_store::{Doubt, Store};
use std::alloc::Global;

impl<St: Store> ScheduledNode<St> {
    /// A node that is down boots: its disk gets power, what was in doubt there is settled, and the next epoch is put.
    /// None of its Ejects may take a turn: all are passive and have no queued call.
    pub fn boot(
        alloc: Global,
        disk: St::Device,
        number: u8,
        doubt: Option<Doubt>,
    ) -> Result<(ScheduledNode<St>, BootNote), (St::Device, BootFall)>
        requires node { (1 ≤ number) × (number ≤ 8) }
        ensures whole { IfOk result (λ r. IsWhole (held St.seen r.0.node)) }
        ensures number { IfOk result (λ r. r.0.node.number ≡ number) }
        ensures calls { MatchResult result
            (λ r. MakesCalls (powered (St.Device.counts disk)) (St.seen r.0.node.store).disk.counts Fine)
            (λ r. MakesCalls (powered (St.Device.counts disk)) (St.Device.counts r.0) (call_of_fall r.1.end)) }

        // What the event of the boot shows of the disk was due, where that obeys.
        ensures shows { IsTrue St.Device.tells → let of = disk_seen St.Device.counts St.Device.told St.Device.due in
            MatchResult result
            (λ r. ShowsCounts St.Device.obeys number (boot_event number Up r.1) (of disk) (St.seen r.0.node.store).disk)
            (λ r. FallShows St.Device.obeys number r.1.end r.1.note (of disk) (of r.0)) }
        ensures up { IsTrue St.Device.tells → IfOk result (λ r. (ts : TypeList) (m : Mail) (s : Site)
            → IsLayout St.layout → HasEpochs s.node → (more : ℕ) → 1 ≤ more → s.types ≡ types_in ts → IsAsleep s → Carries m s.traffic
            → RestStands St.layout number more s doubt (St.Device.counts disk).size (St.Device.counts disk).clock (St.Device.told disk)
            → NodeBoots St.layout ts number more s (St.Device.told disk) (St.Device.counts disk).clock r.1 (held St.seen r.0.node) m
            × IsAgenda (indices_of r.0.agenda) (parts_of ts r.0.node.ejects)) }
        ensures falls { IsTrue St.Device.tells → IfErr result (λ r. (s : Site)
            → IsLayout St.layout → HasEpochs s.node → (more : ℕ) → 1 ≤ more
            → RestStands St.layout number more s doubt (St.Device.counts disk).size (St.Device.counts disk).clock (St.Device.told disk)
            → FallsTo St.layout number more s (St.Device.told disk) (St.Device.counts disk).clock r.1.end r.1.note r.1.doubt
            (St.Device.told r.0) (St.Device.counts r.0)
            ⊎ ((r.1.end ≡ None) × BootsPut St.layout number more s (St.Device.told disk) (St.Device.counts disk).clock r.1.note
            (St.Device.told r.0) (St.Device.counts r.0).clock)) }

        // One whose disk cannot be opened does not come up.
        ensures barred { IsTrue St.Device.tells → (s : Site) → IsLayout St.layout → (bar : Bar)
            → BarStands St.layout number s bar (St.Device.counts disk).size (St.Device.counts disk).clock (St.Device.told disk)
            → MatchResult result (λ _. ⊥) (λ r. (r.1.doubt ≡ doubt)
            × FallsBarred St.layout number s bar (St.Device.told disk) (St.Device.counts disk).clock r.1.end r.1.note
            (St.Device.told r.0) (St.Device.counts r.0)) }
    {
        let (node, note) = Node::<St>::boot(alloc, disk, number, doubt)?;
        let agenda = Agenda::new(alloc);
        Ok((ScheduledNode { node, agenda }, note))
    }
}
