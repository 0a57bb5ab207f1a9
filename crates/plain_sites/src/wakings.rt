//! An Eject starts from what is kept of it.
ghost use Rattle.std.specs.Prelude.{◌≡◌, ◌+◌, ◌<◌, ◌≤◌, ◌∷◌, [], IfOk, OnOk, length};
ghost use Rattle.std.specs.Option.{option_map};
ghost use Rattle.capability.specs.declared.TheConstants.{BODY_LIMIT};
ghost use Rattle.eden_model.specs.Map.{changed_at, uid_cmp};
ghost use Rattle.epl_syntax.specs.Meaning.{types_in};
ghost use Rattle.epl_syntax.specs.Rules.OfTypes.{TypeList};
ghost use Rattle.active_part.specs.View.{body_of, coordination_of};
ghost use Rattle.journal.specs.Sites.{InOrder};
ghost use Rattle.journal.specs.Starts.{start_of};
ghost use Rattle.plain_calls.specs.View.{traffic_of};
ghost use Rattle.plain_ejects.specs.View.{with_body};
ghost use Rattle.plain_sites.specs.Activations.{IsStarted, begun_as, joined_all, start_of_kept};
ghost use Rattle.plain_stores.specs.View.{ejects_of};

use active_part::{Part, no_items};
use capability::{Body, Uid};
use eden_codec::{DecodeRefusal, decode_rep};
use edentypes::{Begun, Fit, fit_call};
use epl_syntax::Types;
use plain_calls::PlainCalls;
use plain_ejects::PlainEject;
use plain_stores::{PlainEntry, place_of};
use std::alloc::{AllocError, Global};

/// What starts from bytes that are no more than a body may have.
pub fn begun_from(
    alloc: Global,
    types: &Types,
    bytes: &Body,
    me: Uid,
) -> Result<Option<Begun>, AllocError>
    requires { length bytes.now ≤ BODY_LIMIT }
    ensures { IfOk result (λ it. option_map (begun_as types.now) it ≡ start_of (types_in types.now) bytes.now me) }
{
    match decode_rep(alloc, bytes.as_slice()) {
        Ok(rep) => edentypes::start_from(alloc, types, &rep, me),
        Err(DecodeRefusal::TooLarge) => Ok(None),
        Err(DecodeRefusal::NotRep { place: _ }) => Ok(None),
        Err(DecodeRefusal::OutOfMemory) => Err(AllocError),
    }
}

/// What starts from what is kept of an Eject.
pub fn begun_by(
    alloc: Global,
    types: &Types,
    eject: &PlainEject,
    me: Uid,
) -> Result<Option<Begun>, AllocError>
    ensures { IfOk result (λ it. option_map (begun_as types.now) it ≡ start_of_kept types.now me eject.now.kept) }
{
    match &eject.kept {
        Some(bytes) => begun_from(alloc, types, bytes, me),
        None => Ok(None),
    }
}

/// A call that was queued joins the active part, or is answered where it does not fit. One that was never asked is passed over.
fn join_or_answer(
    alloc: Global,
    types: &Types,
    calls: &mut PlainCalls,
    part: &mut Part,
    number: u32,
) -> Result<(), AllocError>
    requires { length (coordination_of part.old).queued < 64 }
    ensures joins { OnOk result ((body_of types.now part.new, traffic_of calls.new)
        ≡ joined_all (number ∷ []) (body_of types.now part.old, traffic_of calls.old)) }
    ensures one { OnOk result (length (coordination_of part.new).queued ≤ length (coordination_of part.old).queued + 1) }
{
    let Some(call) = calls.call(number) else {
        return Ok(());
    };
    let fit = fit_call(types, part.kind(), call.target, &call.operation, &call.args);
    match fit {
        Fit::Fits { class } => part.offer(number, class)?,
        Fit::Misfits { status } => calls.reply(status, no_items(alloc), number)?,
    }
    Ok(())
}

/// Each of these calls, in order.
fn join_all(
    alloc: Global,
    types: &Types,
    calls: &mut PlainCalls,
    part: &mut Part,
    numbers: &[u32],
) -> Result<(), AllocError>
    requires { length (coordination_of part.old).queued + length numbers.now ≤ 64 }
    ensures { OnOk result ((body_of types.now part.new, traffic_of calls.new)
        ≡ joined_all numbers.now (body_of types.now part.old, traffic_of calls.old)) }
{
    for number in numbers {
        join_or_answer(alloc, types, calls, part, *number)?;
    }
    Ok(())
}

/// The active part of an Eject that starts. The queued calls that fit its type join its queue, and the others are answered, both in order.
pub fn started(
    alloc: Global,
    types: &Types,
    calls: &mut PlainCalls,
    begun: &Begun,
    numbers: &[u32],
) -> Result<Part, AllocError>
    requires { length numbers.now ≤ 64 }
    ensures { IfOk result (λ part. IsStarted (begun_as types.now begun.now) numbers.now (traffic_of calls.old) (traffic_of calls.new)
        (body_of types.now part)) }
{
    let vars = edentypes::start(alloc, types, begun)?;
    let mut part = Part::fresh(alloc, types, begun.kind, vars)?;
    join_all(alloc, types, calls, &mut part, numbers)?;
    Ok(part)
}

/// An Eject has this active part, in which all its queued calls stand.
pub fn enter(entries: &mut Vec<PlainEntry>, uid: Uid, part: Part)
    ensures { (ts : TypeList) → InOrder (ejects_of ts entries.old.items)
        → ejects_of ts entries.new.items ≡ changed_at uid_cmp uid (with_body (body_of ts part)) (ejects_of ts entries.old.items) }
{
    match place_of(entries, uid) {
        Some(place) => entries[place].eject.wake(part),
        None => {}
    }
}
