//! A node goes down, its disk is armed, and its processes are told of calls that broke elsewhere.
ghost use Rattle.std.specs.Prelude.{◌≡◌, ◌≤◌, ℕ, Bool, IsTrue, OnOk};
ghost use Rattle.epl_syntax.specs.Rules.OfTypes.{TypeList};
ghost use Rattle.invocation.specs.Mail.{Mail};
ghost use Rattle.eden_disk.specs.Calls.{armed, calls_until};
ghost use Rattle.passive_store.specs.Kept.{doubt_in};
ghost use Rattle.passive_store.specs.Seen.{disk_seen};
ghost use Rattle.journal.specs.World.{Site};
ghost use Rattle.journal.specs.Crashes.{crashed};
ghost use Rattle.checkpoint.specs.Asked.{noted_in};
ghost use Rattle.checkpoint.specs.Turns.{with_clock};
ghost use Rattle.ejects.specs.Marks.{IsLooseIn};
ghost use Rattle.ejects.specs.Parts.{body_at};
ghost use Rattle.ejects.specs.View.{parts_of};
ghost use Rattle.journal.specs.declared.event.Event.TheVariants.{Armed, Crash};
ghost use Rattle.disk_faults.specs.Shows.{ShowsCounts};
ghost use Rattle.eden_kernel.specs.Boots.{IsAsleep};
ghost use Rattle.eden_kernel.specs.Stands.{held, IsWhole, NodeStands};
ghost use Rattle.eden_kernel.specs.Turns.{Crashes, OnDisk, told_broken};
ghost use Rattle.scheduled_node.specs.Scheduled.{manned, ScheduledStands};

use crate::ScheduledNode;
use capability::Uid;
use eden_disk::{Arm, ImageMode};
use passive_store::{Doubt, Store};
use std::alloc::{AllocError, Global};

impl<St: Store> ScheduledNode<St> {
    /// The node crashes. Its disk is left, without power, and what was in doubt there.
    pub fn crash(self, mode: ImageMode) -> (St::Device, Option<Doubt>)
        ensures counts { St.Device.counts result.0 ≡ record (St.seen self.node.store).disk.counts { power = Bool.false } }

        // What falls due is not forgotten.
        ensures due { St.Device.due result.0 ≡ (St.seen self.node.store).disk.due }
        ensures shows { ShowsCounts St.Device.obeys self.node.number (Crash self.node.number) (St.seen self.node.store).disk
            (disk_seen St.Device.counts St.Device.told St.Device.due result.0) }
        ensures asleep { (s : Site) (clock : ℕ) → IsAsleep (with_clock clock (crashed s)) }
        ensures turn { IsTrue St.Device.tells → (ts : TypeList) (m : Mail) (s : Site)
            → NodeStands St.layout ts (held St.seen self.node) m s
            → Crashes St.layout (held St.seen self.node) s result.1 (St.Device.counts result.0) (St.Device.told result.0) }
    {
        self.node.crash(mode)
    }

    /// What is left of a node whose disk stopped, or whose run ends: its disk as it is, and what was in doubt there.
    pub fn close(self) -> (St::Device, Option<Doubt>)
        ensures disk { disk_seen St.Device.counts St.Device.told St.Device.due result.0 ≡ (St.seen self.node.store).disk }
        ensures doubt { IsTrue St.Device.tells
            → result.1 ≡ noted_in (doubt_in (St.seen self.node.store).work) (St.seen self.node.store).kept }
    {
        self.node.close()
    }

    /// A failure or a stop is asked of its disk.
    pub fn arm(&mut self, what: Arm)
        requires calls { 1 ≤ calls_until what }
        requires whole { IsWhole (held St.seen self.old.node) }
        ensures whole { IsWhole (held St.seen self.new.node) }
        ensures number { self.new.node.number ≡ self.old.node.number }
        ensures more { (St.seen self.new.node.store).more ≡ (St.seen self.old.node.store).more }
        ensures counts { (St.seen self.new.node.store).disk.counts ≡ (St.seen self.old.node.store).disk.counts }

        // It falls due so many calls later.
        ensures due { IsTrue St.Device.obeys → (St.seen self.new.node.store).disk.due
            ≡ armed what (St.seen self.old.node.store).disk.counts.clock (St.seen self.old.node.store).disk.due }
        ensures shows { ShowsCounts St.Device.obeys self.old.node.number (Armed self.old.node.number what)
            (St.seen self.old.node.store).disk (St.seen self.new.node.store).disk }
        ensures stands { IsTrue St.Device.tells → (ts : TypeList) (m : Mail) (s : Site)
            → ScheduledStands St.layout ts (manned St.seen self.old) m s → ScheduledStands St.layout ts (manned St.seen self.new) m s }
        ensures disk { IsTrue St.Device.tells → (ts : TypeList) (m : Mail) (s : Site)
            → NodeStands St.layout ts (held St.seen self.old.node) m s
            → OnDisk St.layout (held St.seen self.old.node) (held St.seen self.new.node) s s }
    {
        self.node.arm(what);
    }

    /// Its disk.
    pub fn disk(&self) -> &St::Device
        ensures { disk_seen St.Device.counts St.Device.told St.Device.due result.now ≡ (St.seen self.now.node.store).disk }
    {
        self.node.disk()
    }

    /// What is in doubt on its disk, with the mark of its old state.
    pub fn doubt(&self) -> Option<Doubt>
        ensures { IsTrue St.Device.tells
            → result ≡ noted_in (doubt_in (St.seen self.now.node.store).work) (St.seen self.now.node.store).kept }
    {
        self.node.doubt()
    }

    /// A process that waits for a call elsewhere is told that the call is broken.
    pub fn broken(&mut self, alloc: Global, uid: Uid, process: u8) -> Result<(), AllocError>
        requires whole { IsWhole (held St.seen self.old.node) }
        ensures whole { OnOk result (IsWhole (held St.seen self.new.node)) }
        ensures number { self.new.node.number ≡ self.old.node.number }
        ensures store { St.seen self.new.node.store ≡ St.seen self.old.node.store }
        ensures stands { IsTrue St.Device.tells → OnOk result ((ts : TypeList) (m : Mail) (s : Site)
            → IsLooseIn (body_at (parts_of ts self.old.node.ejects) uid) process
            → NodeStands St.layout ts (held St.seen self.old.node) m s
            → NodeStands St.layout ts (held St.seen self.new.node) m (told_broken uid process s)) }
        ensures told { IsTrue St.Device.tells → OnOk result ((ts : TypeList) (m : Mail) (s : Site)
            → IsLooseIn (body_at (parts_of ts self.old.node.ejects) uid) process
            → ScheduledStands St.layout ts (manned St.seen self.old) m s
            → ScheduledStands St.layout ts (manned St.seen self.new) m (told_broken uid process s)) }
    {
        self.node.broken(alloc, uid, process);
        self.agenda.note_each(self.node.ejects(), Some(uid), None)
    }
}
