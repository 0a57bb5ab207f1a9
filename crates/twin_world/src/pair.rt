//! A pair of disks is closed.
ghost use Rattle.std.specs.Prelude.{ℕ};
ghost use Rattle.passive_store.specs.Seen.{disk_seen};
ghost use Rattle.twin_store.specs.Twins.{twin_seen};
ghost use Rattle.twin_world.specs.Logs.{Pair, Texts, Made, shut_by};
ghost use Rattle.twin_world.specs.InHand.{Serves, Rests};

use passive_store::Store;
use twin_store::TwinStore;

/// Closes a pair, and gives both disks back: they stand for what the pair stood for.
pub fn close_pair<St: Store>(twin: TwinStore<St>) -> (St::Device, St::Device)
    ensures steps { let look = disk_seen St.Device.counts St.Device.told St.Device.due in (n : ℕ) (p : Pair) (m : Texts)
        → Serves St.layout n p m (twin_seen St.seen look twin) → Rests St.layout n (shut_by Made p) m (look result.0) (look result.1) }
{
    twin.close()
}
