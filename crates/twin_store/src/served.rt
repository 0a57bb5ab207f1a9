//! What a call of a store means for a twin.
ghost use Rattle.std.specs.Prelude.{◌≡◌, ◌≤◌, Option, IsTrue, length};
ghost use Rattle.std.specs.FinMap as map;
ghost use Rattle.passive_store.specs.Kept.{IsOwn, IsEject};
ghost use Rattle.passive_store.specs.Seen.{asked};
ghost use Rattle.twin_store.specs.Serving.{served_as, IsReady, Serves, IfFound};

use capability::{Body, Uid};
use passive_store::{Store, StoreRefusal};
use std::alloc::Global;

/// Why a call of a twin is refused.
#[derive(Clone, Copy, Debug, PartialEq, Eq)]
pub enum TwinRefusal {
    /// No disk is left in use.
    Lost,
    /// A disk stopped, and has no power until it is restarted.
    Stopped,
    /// The change has no room on a disk in use; or, at an opening, a disk keeps too much to be opened or to be brought over.
    Full,
    /// The generation cannot be raised.
    GenerationsSpent,
    /// There was no memory for the call.
    OutOfMemory,
}

/// What a store answered, or None where its disk failed, so that it leaves use. All other refusals are those of the twin.
pub(crate) fn served<T>(answer: Result<T, StoreRefusal>) -> Result<Option<T>, TwinRefusal>
    ensures { result ≡ served_as answer }
{
    match answer {
        Ok(value) => Ok(Some(value)),
        Err(StoreRefusal::Failed) => Ok(None),
        Err(StoreRefusal::Damaged { .. }) => Ok(None),
        Err(StoreRefusal::Stopped) => Err(TwinRefusal::Stopped),
        Err(StoreRefusal::Full) => Err(TwinRefusal::Full),
        Err(StoreRefusal::OutOfMemory) => Err(TwinRefusal::OutOfMemory),
    }
}

/// Puts bytes in a store in use.
pub(crate) fn put_in<St: Store>(
    alloc: Global,
    store: &mut St,
    node: u8,
    uid: Uid,
    body: &[u8],
) -> Result<Option<()>, TwinRefusal>
    requires ready { IsReady node (St.seen store.old) }
    requires own { IsOwn node uid (length body.now) }
    requires limit { length body.now ≤ 262144 }
    ensures { Serves St.Device.tells St.layout node (Option.Some (asked uid (Option.Some body.now))) result (St.seen store.old)
        (St.seen store.new) }
{
    served(store.put(alloc, uid, body))
}

/// Removes what a store in use keeps under a uid.
pub(crate) fn delete_in<St: Store>(
    alloc: Global,
    store: &mut St,
    node: u8,
    uid: Uid,
) -> Result<Option<()>, TwinRefusal>
    requires ready { IsReady node (St.seen store.old) }
    requires own { IsEject node uid }
    ensures { Serves St.Device.tells St.layout node (Option.Some (asked uid Option.None)) result (St.seen store.old) (St.seen store.new) }
{
    served(store.delete(alloc, uid))
}

/// What a store in use keeps under a uid.
pub(crate) fn get_in<St: Store>(
    alloc: Global,
    store: &mut St,
    node: u8,
    uid: Uid,
) -> Result<Option<Option<Body>>, TwinRefusal>
    requires ready { IsReady node (St.seen store.old) }
    ensures serves { Serves St.Device.tells St.layout node Option.None result (St.seen store.old) (St.seen store.new) }
    ensures found { IsTrue St.Device.tells → IfFound result (map.get (St.seen store.old).kept.bodies uid) }
{
    served(store.get(alloc, uid))
}
