//! The entry of a turn.
ghost use Rattle.std.specs.Prelude.{◌≡◌, []};
ghost use Rattle.eden_world.specs.Steps.{ShowsIf, TouchesNone, event_touches, start_touches, store_touches, turn_touches};

use capability::Seq;
use journal::{Entry, Event, RequestEnd, StartEnd};
use passive_store::Pick;
use std::alloc::Global;

// Whether an activation touched the disk: there was a change in doubt, or something was kept.
fn is_start_touched(end: StartEnd, pick: Option<Pick>) -> bool
    ensures { result ≡ start_touches end pick }
{
    match end {
        StartEnd::Gone => pick.is_some(),
        StartEnd::Ok | StartEnd::Fault | StartEnd::Damaged | StartEnd::Stop => true,
    }
}

// Whether a turn of the store touched it. A device call that succeeds raises the clock, which stands still at its last number alone.
fn is_store_touched(end: RequestEnd, before: u64, after: u64) -> bool
    ensures { result ≡ store_touches end before after }
{
    match end {
        RequestEnd::Done => before != after,
        RequestEnd::Full => false,
        RequestEnd::Part | RequestEnd::Fault | RequestEnd::Stop => true,
    }
}

// Whether the event of a turn shows that it touched the disk of its node.
fn is_touch_shown(event: &Event, before: u64, after: u64) -> bool
    ensures { result ≡ event_touches event.now before after }
{
    match event {
        Event::Activate { end, pick, .. } => is_start_touched(*end, *pick),
        Event::Store { end, .. } => is_store_touched(*end, before, after),
        _ => false,
    }
}

// Whether a turn touched the disk of its node, whose clock was read before and after it.
fn is_touched(event: &Event, before: u64, after: u64) -> bool
    ensures { result ≡ turn_touches event.now before after }
{
    before != after || is_touch_shown(event, before, after)
}

// An entry that answers no call of the shell `broken`.
pub(crate) fn entry(alloc: Global, event: Event, node: u8, clock: u64) -> Entry
    ensures event { result.event ≡ event }
    ensures node { result.node ≡ node }
    ensures clock { result.clock ≡ clock }
    ensures broken { result.broken ≡ [] }
{
    Entry {
        event,
        node,
        clock,
        broken: Seq {
            items: Vec::new(alloc),
        },
    }
}

/// The entry of a turn that touched no disk.
pub(crate) fn entry_of_none(alloc: Global, event: Event) -> Entry
    ensures event { result.event ≡ event }
    ensures none { TouchesNone result }
{
    entry(alloc, event, 0, 0)
}

/// The entry of a turn behind which its node goes on. It shows the node's disk, whose clock was read before and after the
/// turn, exactly where the turn touched it.
pub fn entry_of_turn(alloc: Global, event: Event, node: u8, before: u64, after: u64) -> Entry
    ensures event { result.event ≡ event }
    ensures broken { result.broken ≡ [] }
    ensures shows { ShowsIf (turn_touches event before after) node after result }
{
    if is_touched(&event, before, after) {
        return entry(alloc, event, node, after);
    }
    entry(alloc, event, 0, 0)
}
