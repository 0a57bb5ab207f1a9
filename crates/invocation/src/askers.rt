//! Which Eject made which calls, so that those of one are found without a look at the others.
ghost use Rattle.std.specs.Prelude.{◌≡◌, ◌++◌, ◌∷◌, [], cond, map, OnOk, OnErr};
ghost use Rattle.std.specs.List.{filter};
ghost use Rattle.capability.specs.declared.Uid.{Uid};
ghost use Rattle.eden_model.specs.Map.{same_uid};
ghost use Rattle.eden_model.specs.Traffic.{asks};
ghost use Rattle.invocation.specs.Mail.{is_open};
ghost use Rattle.invocation.specs.Numbers.{passes_at};
ghost use Rattle.invocation.specs.Causes.{closed_by};
ghost use Rattle.invocation.specs.Made.{is_own, made_by, AreMade};

use crate::call::Call;
use crate::closing::{Cause, call_at, close_each, is_open_at};
use capability::Uid;
use eden_model::Asker;
use std::alloc::{AllocError, Global};
use std::collections::BTreeMap;

/// Whether there is an open call of this number that the Eject made.
fn is_own_at(calls: &[Call], number: u32, uid: Uid) -> bool
    ensures { result ≡ passes_at (is_own uid) calls.now number }
{
    match call_at(calls, number) {
        Some(call) => !call.closed && call.is_of(uid),
        None => false,
    }
}

/// The call joins the open ones among those that are noted.
fn join_open(calls: &[Call], numbers: &mut Vec<u32>, call: u32) -> Result<(), AllocError>
    ensures joined { OnOk result (numbers.new.items ≡ filter (passes_at is_open calls.now) numbers.old.items ++ call ∷ []) }
    ensures unchanged { OnErr result (numbers.new.items ≡ numbers.old.items) }
{
    numbers.reserve(1)?;
    numbers.retain(|number| is_open_at(calls, *number));
    numbers.push_reserved(call);
    Ok(())
}

/// The numbers that are noted of an Eject, and this call in place of those that are closed.
fn note_of(
    alloc: Global,
    calls: &[Call],
    made: &mut BTreeMap<Uid, Vec<u32>>,
    uid: Uid,
    call: u32,
) -> Result<(), AllocError>
    ensures noted { OnOk result ((q : Uid) → made_by q made.new
        ≡ cond (same_uid uid q) (filter (passes_at is_open calls.now) (made_by q made.old) ++ call ∷ []) (made_by q made.old)) }
    ensures unchanged { OnErr result ((q : Uid) → made_by q made.new ≡ made_by q made.old) }
{
    match made.get_mut(&uid) {
        Some(numbers) => join_open(calls, numbers, call),
        None => {
            let mut numbers = Vec::with_capacity(alloc, 1)?;
            numbers.push_reserved(call);
            made.insert(uid, numbers)?;
            Ok(())
        }
    }
}

/// A new call is noted of the Eject that made it, if one did, in place of its calls that are
/// closed.
pub fn note(
    alloc: Global,
    calls: &[Call],
    made: &mut BTreeMap<Uid, Vec<u32>>,
    asker: &Asker,
    call: u32,
) -> Result<(), AllocError>
    ensures noted { OnOk result ((q : Uid) → made_by q made.new
        ≡ cond (asks q asker.now) (filter (passes_at is_open calls.now) (made_by q made.old) ++ call ∷ []) (made_by q made.old)) }
    ensures unchanged { OnErr result ((q : Uid) → made_by q made.new ≡ made_by q made.old) }
{
    match asker {
        Asker::Shell { .. } => Ok(()),
        Asker::Eject { uid, .. } => note_of(alloc, calls, made, *uid, call),
    }
}

/// The numbers of the Eject's open calls are kept, and no others.
fn keep_own(calls: &[Call], numbers: &mut Vec<u32>, uid: Uid)
    ensures { numbers.new.items ≡ filter (passes_at (is_own uid) calls.now) numbers.old.items }
{
    numbers.retain(|number| is_own_at(calls, *number, uid));
}

/// Closes the open calls of an Eject. Nothing is noted of it then.
pub fn close_own(alloc: Global, calls: &mut Vec<Call>, made: &mut BTreeMap<Uid, Vec<u32>>, uid: Uid)
    requires { AreMade calls.old.items made.old }
    ensures calls { calls.new.items ≡ map (closed_by (Cause.Lost uid)) calls.old.items }
    ensures made { (q : Uid) → made_by q made.new ≡ cond (same_uid uid q) [] (made_by q made.old) }
{
    if let Some(mut numbers) = made.remove(&uid) {
        keep_own(calls, &mut numbers, uid);
        close_each(alloc, calls, &numbers, Cause::Lost { uid });
    }
}
