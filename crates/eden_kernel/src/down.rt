//! A node goes down, its disk is armed, and its processes are told of calls that broke elsewhere.
ghost use Rattle.std.specs.Prelude.{◌≡◌, ◌≤◌, ℕ, Bool, IsTrue};
ghost use Rattle.epl_syntax.specs.Rules.OfTypes.{TypeList};
ghost use Rattle.invocation.specs.Mail.{Mail};
ghost use Rattle.eden_disk.specs.Calls.{armed, calls_until};
ghost use Rattle.passive_store.specs.Kept.{doubt_in};
ghost use Rattle.passive_store.specs.Seen.{disk_seen};
ghost use Rattle.journal.specs.World.{Site};
ghost use Rattle.journal.specs.Crashes.{crashed};
ghost use Rattle.checkpoint.specs.Asked.{noted_in};
ghost use Rattle.checkpoint.specs.Turns.{with_clock};
ghost use Rattle.ejects.specs.Marks.{IsLooseIn};
ghost use Rattle.ejects.specs.Parts.{body_at};
ghost use Rattle.ejects.specs.View.{parts_of};
ghost use Rattle.journal.specs.declared.event.Event.TheVariants.{Armed, Crash};
ghost use Rattle.eden_kernel.specs.Boots.{IsAsleep};
ghost use Rattle.disk_faults.specs.Shows.{ShowsCounts};
ghost use Rattle.eden_kernel.specs.Stands.{held, IsWhole, NodeStands};
ghost use Rattle.eden_kernel.specs.Turns.{Crashes, OnDisk, told_broken};

use crate::Node;
use capability::Uid;
use checkpoint::noted;
use eden_disk::{Arm, Disk, ImageMode};
use passive_store::{Doubt, Store};
use std::alloc::Global;

impl<St: Store> Node<St> {
    /// The node crashes. Its disk is left, without power, and what was in doubt there.
    pub fn crash(self, mode: ImageMode) -> (St::Device, Option<Doubt>)
        ensures counts { St.Device.counts result.0 ≡ record (St.seen self.store).disk.counts { power = Bool.false } }

        // What falls due is not forgotten.
        ensures due { St.Device.due result.0 ≡ (St.seen self.store).disk.due }
        ensures shows { ShowsCounts St.Device.obeys self.number (Crash self.number) (St.seen self.store).disk
            (disk_seen St.Device.counts St.Device.told St.Device.due result.0) }
        ensures asleep { (s : Site) (clock : ℕ) → IsAsleep (with_clock clock (crashed s)) }
        ensures turn { IsTrue St.Device.tells → (ts : TypeList) (m : Mail) (s : Site) → NodeStands St.layout ts (held St.seen self) m s
            → Crashes St.layout (held St.seen self) s result.1 (St.Device.counts result.0) (St.Device.told result.0) }
    {
        checkpoint::crash(self.store, mode)
    }

    /// What is left of a node whose disk stopped, or whose run ends: its disk as it is, and what was in doubt there.
    pub fn close(self) -> (St::Device, Option<Doubt>)
        ensures disk { disk_seen St.Device.counts St.Device.told St.Device.due result.0 ≡ (St.seen self.store).disk }
        ensures doubt { IsTrue St.Device.tells
            → result.1 ≡ noted_in (doubt_in (St.seen self.store).work) (St.seen self.store).kept }
    {
        let doubt = noted(&self.store);
        (self.store.close(), doubt)
    }

    /// A failure or a stop is asked of its disk.
    pub fn arm(&mut self, what: Arm)
        requires calls { 1 ≤ calls_until what }
        requires whole { IsWhole (held St.seen self.old) }
        ensures whole { IsWhole (held St.seen self.new) }
        ensures number { self.new.number ≡ self.old.number }
        ensures more { (St.seen self.new.store).more ≡ (St.seen self.old.store).more }
        ensures counts { (St.seen self.new.store).disk.counts ≡ (St.seen self.old.store).disk.counts }

        // It falls due so many calls later.
        ensures due { IsTrue St.Device.obeys → (St.seen self.new.store).disk.due
            ≡ armed what (St.seen self.old.store).disk.counts.clock (St.seen self.old.store).disk.due }
        ensures shows { ShowsCounts St.Device.obeys self.old.number (Armed self.old.number what) (St.seen self.old.store).disk
            (St.seen self.new.store).disk }
        ensures stands { IsTrue St.Device.tells → (ts : TypeList) (m : Mail) (s : Site)
            → NodeStands St.layout ts (held St.seen self.old) m s → NodeStands St.layout ts (held St.seen self.new) m s }
        ensures disk { IsTrue St.Device.tells → (ts : TypeList) (m : Mail) (s : Site) → NodeStands St.layout ts (held St.seen self.old) m s
            → OnDisk St.layout (held St.seen self.old) (held St.seen self.new) s s }
    {
        checkpoint::arm(&mut self.store, what);
    }

    /// Its disk.
    pub fn disk(&self) -> &St::Device
        ensures { disk_seen St.Device.counts St.Device.told St.Device.due result.now ≡ (St.seen self.now.store).disk }
    {
        self.store.disk()
    }

    /// What is in doubt on its disk, with the mark of its old state.
    pub fn doubt(&self) -> Option<Doubt>
        ensures { IsTrue St.Device.tells
            → result ≡ noted_in (doubt_in (St.seen self.now.store).work) (St.seen self.now.store).kept }
    {
        noted(&self.store)
    }

    /// A process that waits for a call elsewhere is told that the call is broken.
    pub fn broken(&mut self, alloc: Global, uid: Uid, process: u8)
        requires whole { IsWhole (held St.seen self.old) }
        ensures whole { IsWhole (held St.seen self.new) }
        ensures number { self.new.number ≡ self.old.number }
        ensures store { St.seen self.new.store ≡ St.seen self.old.store }
        ensures told { IsTrue St.Device.tells → (ts : TypeList) (m : Mail) (s : Site)
            → IsLooseIn (body_at (parts_of ts self.old.ejects) uid) process → NodeStands St.layout ts (held St.seen self.old) m s
            → NodeStands St.layout ts (held St.seen self.new) m (told_broken uid process s) }
    {
        self.ejects.broken(alloc, uid, process);
    }
}
