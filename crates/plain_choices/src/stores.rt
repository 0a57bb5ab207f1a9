//! Turns of a store.
ghost use Rattle.std.specs.Prelude.{◌≡◌, ◌↔◌, ◌<◌, ◌^◌, IsTrue};
ghost use Rattle.journal.specs.Stores as stores;
ghost use Rattle.journal.specs.World.{Node, StoreRequest};
ghost use Rattle.plain_choices.specs.View.{work_of};

use journal::RequestEnd;
use passive_store::Pick;

/// What a turn of a store is about.
#[derive(Clone, Copy, Debug, PartialEq, Eq)]
pub enum Work {
    /// The sync of a settling.
    Syncs,
    /// The read of a settling.
    Reads,
    /// A removal of what is not kept.
    Unkept,
    /// A change for which there is no room.
    WithoutRoom,
    /// A device call of the request's own.
    Calls,
}

/// Whether a turn with this work may end so, with this pick.
pub fn may_end(work: Work, end: RequestEnd, pick: Option<Pick>) -> bool
    ensures { IsTrue result ↔ stores.EndsSo (work_of work) end pick }
{
    match (work, end) {
        (Work::Syncs, RequestEnd::Part) => pick.is_none(),
        (Work::Reads, RequestEnd::Part) => pick.is_some(),
        (Work::Calls, RequestEnd::Part) => pick.is_none(),
        (Work::Calls, RequestEnd::Done) => pick.is_none(),
        (Work::Unkept, RequestEnd::Done) => pick.is_none(),
        (Work::WithoutRoom, RequestEnd::Full) => pick.is_none(),
        (Work::Unkept, _) => false,
        (Work::WithoutRoom, _) => false,
        (_, RequestEnd::Fault) => pick.is_none(),
        (_, RequestEnd::Stop) => pick.is_none(),
        _ => false,
    }
}

/// Whether a turn with this work makes a device call.
pub fn makes_call(work: Work) -> bool
    ensures { result ≡ stores.makes_call (work_of work) }
{
    match work {
        Work::Unkept => false,
        Work::WithoutRoom => false,
        _ => true,
    }
}

/// Whether that device call is the request's own.
pub fn makes_own_call(work: Work) -> bool
    ensures { result ≡ stores.makes_own_call (work_of work) }
{
    match work {
        Work::Calls => true,
        _ => false,
    }
}

/// Whether a request that has made so many device calls has one left for this end, on a disk of this size. Of a turn that makes none of
/// the request's own nothing is asked.
pub fn has_call_left(own: bool, end: RequestEnd, made: u32, size: u32) -> bool
    ensures { (r : StoreRequest) (it : Node) → r.made ≡ made → it.size ≡ size → IsTrue result ↔ stores.HasCallLeft own end r it }
{
    if !own {
        return true;
    }
    let more = match end {
        RequestEnd::Part => 2,
        _ => 1,
    };
    u64::from(made) + more <= 2 * (u64::from(size) / 1024) + 4
}
