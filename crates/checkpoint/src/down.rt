//! A node goes down, and its disk is armed.
ghost use Rattle.std.specs.Prelude.{◌≡◌, ◌≤◌, [], List, Bool, IsTrue};
ghost use Rattle.eden_disk.specs.Calls.{armed, calls_until};
ghost use Rattle.passive_store.specs.Kept.{doubt_in};
ghost use Rattle.passive_store.specs.Seen.{DiskSeen, disk_seen};
ghost use Rattle.journal.specs.World.{Site, StoreRequest};
ghost use Rattle.journal.specs.Crashes.{crashed};
ghost use Rattle.checkpoint.specs.StoreStands.{NodeOnDisk};
ghost use Rattle.checkpoint.specs.Turns.{with_clock, RestStands};
ghost use Rattle.checkpoint.specs.Asked.{noted_in, StandsNow};

use eden_disk::{Arm, Disk, ImageMode};
use passive_store::{Doubt, Store};

/// The change in doubt, with the mark that its uid has before it.
pub fn noted<St: Store>(store: &St) -> Option<Doubt>
    ensures { IsTrue St.Device.tells → result ≡ noted_in (doubt_in (St.seen store.now).work) (St.seen store.now).kept }
{
    match store.unsure() {
        None => None,
        Some(uid) => Some(Doubt {
            uid,
            mark: store.mark(uid),
        }),
    }
}

/// The node crashes: its disk loses its power, and what was in doubt is noted.
pub fn crash<St: Store>(store: St, mode: ImageMode) -> (St::Device, Option<Doubt>)
    ensures counts { St.Device.counts result.0 ≡ record (St.seen store).disk.counts { power = Bool.false } }

    // What falls due is not forgotten.
    ensures due { St.Device.due result.0 ≡ (St.seen store).disk.due }
    ensures rests { IsTrue St.Device.tells → (s : Site) (requests : List StoreRequest)
        → StandsNow St.layout (St.seen store).node s requests (St.seen store)
        → RestStands St.layout (St.seen store).node (St.seen store).more (with_clock (St.Device.counts result.0).clock (crashed s)) result.1
        (St.Device.counts result.0).size (St.Device.counts result.0).clock (St.Device.told result.0) }
    ensures disk { IsTrue St.Device.tells → (s : Site) (requests : List StoreRequest)
        → StandsNow St.layout (St.seen store).node s requests (St.seen store)
        → NodeOnDisk St.layout (St.seen store).node s.node [] (crashed s).node (St.seen store).disk.told (St.seen store).disk.counts.clock
        (St.Device.told result.0) (St.Device.counts result.0).clock }
{
    let doubt = noted(&store);
    let mut disk = store.close();
    disk.cut_power(mode);
    (disk, doubt)
}

/// A failure or a stop is asked of the disk.
pub fn arm<St: Store>(store: &mut St, what: Arm)
    requires { 1 ≤ calls_until what }
    ensures node { (St.seen store.new).node ≡ (St.seen store.old).node }
    ensures more { (St.seen store.new).more ≡ (St.seen store.old).more }
    ensures work { (St.seen store.new).work ≡ (St.seen store.old).work }
    ensures counts { (St.seen store.new).disk.counts ≡ (St.seen store.old).disk.counts }

    // It falls due so many calls later.
    ensures due { IsTrue St.Device.obeys
        → (St.seen store.new).disk.due ≡ armed what (St.seen store.old).disk.counts.clock (St.seen store.old).disk.due }
    ensures stands { IsTrue St.Device.tells → (s : Site) (requests : List StoreRequest)
        → StandsNow St.layout (St.seen store.old).node s requests (St.seen store.old)
        → StandsNow St.layout (St.seen store.new).node s requests (St.seen store.new) }
    ensures disk { IsTrue St.Device.tells → (s : Site) (requests : List StoreRequest)
        → StandsNow St.layout (St.seen store.old).node s requests (St.seen store.old)
        → NodeOnDisk St.layout (St.seen store.old).node s.node [] s.node (St.seen store.old).disk.told (St.seen store.old).disk.counts.clock
        (St.seen store.new).disk.told (St.seen store.new).disk.counts.clock }
{
    store.disk_mut_arm(what);
}
