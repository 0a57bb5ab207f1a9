//! The processes of an Eject among those of a node.
ghost use Rattle.std.specs.Prelude.{◌≡◌, ◌↔◌, ◌≤◌, None, Some, IfOk, IfSome, IsSomeAnd, IsTrue, is_some, length, true};
ghost use Rattle.capability.specs.declared.TheConstants.{BODY_LIMIT};
ghost use Rattle.eden_codec.specs.Spelling.{spelling};
ghost use Rattle.eden_model.specs.Crew.{Runs};
ghost use Rattle.eden_model.specs.Map.{changed_at, uid_cmp, value_at};
ghost use Rattle.epl_syntax.specs.Meaning.{Turned, rep_of};
ghost use Rattle.epl_syntax.specs.Rules.OfTypes.{TypeList};
ghost use Rattle.active_part.specs.Bodies.{turned_body};
ghost use Rattle.active_part.specs.Body.{active_of};
ghost use Rattle.active_part.specs.View.{IsEncoded, body_of, coordination_of};
ghost use Rattle.journal.specs.Ejects.{on_active, told};
ghost use Rattle.journal.specs.Processes.{turn_of, turned, without_process};
ghost use Rattle.journal.specs.Sites.{InOrder};
ghost use Rattle.journal.specs.World.{Active, Eject};
ghost use Rattle.plain_ejects.specs.View.{eject_of};
ghost use Rattle.plain_sites.specs.Turns.{IsRunning, MayDo, RunsAt, done_by, served_by};
ghost use Rattle.plain_stores.specs.View.{ejects_of};

use active_part::{Part, Step};
use capability::{Body, Uid};
use eden_value::Status;
use epl_syntax::{Answer, Effect, Types};
use plain_ejects::PlainEject;
use plain_stores::{PlainEntry, find, place_of};
use std::alloc::{AllocError, Global};

/// What comes of a turn to its process, unless that ends.
#[derive(Drop)]
pub enum Deed {
    /// It waits for the store.
    Wait,
    /// It waits for a call that it made, or is told the status that refused it at once.
    Ask { at_once: Option<Status> },
    /// It does something at its monitors.
    Coordinate { step: Step },
    /// It is told an answer at once.
    Hear { answer: Answer },
}

/// Whether an Eject is active, and this process of it runs.
fn runs(eject: &PlainEject, process: u8) -> bool
    ensures runs { IsTrue result ↔ IsSomeAnd eject.now.part (λ it. Runs (coordination_of it).crew process) }
    ensures may { result ≡ true → IfSome eject.now.part (λ it. Runs (coordination_of it).crew process) }
{
    match &eject.part {
        Some(part) => part.runs(process),
        None => false,
    }
}

/// A process that runs is told an answer at once.
fn tell_at_once(eject: &mut PlainEject, process: u8, answer: Answer)
    requires { IfSome eject.old.part (λ it. Runs (coordination_of it).crew process) }
    ensures { (ts : TypeList) → eject_of ts eject.new ≡ on_active (told process answer) (eject_of ts eject.old) }
{
    match &mut eject.part {
        Some(part) => part.tell_at_once(process, answer),
        None => {}
    }
}

/// What comes of a turn to a process that runs.
fn carry(alloc: Global, eject: &mut PlainEject, process: u8, deed: Deed)
    requires { IfSome eject.old.part (λ it. Runs (coordination_of it).crew process) }
    ensures { (ts : TypeList) → IfSome eject.old.part (λ it. MayDo deed process (coordination_of it).crew)
        → eject_of ts eject.new ≡ on_active (done_by deed process) (eject_of ts eject.old) }
{
    match deed {
        Deed::Wait => eject.wait(process),
        Deed::Ask { at_once } => eject.ask(alloc, process, at_once),
        Deed::Coordinate { step } => eject.coordinate(process, step),
        Deed::Hear { answer } => tell_at_once(eject, process, answer),
    }
}

/// The same, where the process runs.
fn act(alloc: Global, eject: &mut PlainEject, process: u8, deed: Deed)
    ensures { (ts : TypeList) (it : Active) → (eject_of ts eject.old).active ≡ Some it → Runs it.crew process → MayDo deed process it.crew
        → eject_of ts eject.new ≡ on_active (done_by deed process) (eject_of ts eject.old) }
{
    if runs(eject, process) {
        carry(alloc, eject, process, deed);
    }
}

/// The same, of the Eject of this uid.
pub fn act_at(alloc: Global, entries: &mut Vec<PlainEntry>, uid: Uid, process: u8, deed: Deed)
    ensures { (ts : TypeList) (e : Eject) (it : Active) → RunsAt (ejects_of ts entries.old.items) uid process e it
        → MayDo deed process it.crew
        → ejects_of ts entries.new.items ≡ changed_at uid_cmp uid (on_active (done_by deed process)) (ejects_of ts entries.old.items) }
{
    match place_of(entries, uid) {
        Some(place) => act(alloc, &mut entries[place].eject, process, deed),
        None => {}
    }
}

/// A process that runs ends; the call that it served.
fn end(eject: &mut PlainEject, process: u8) -> Option<u32>
    ensures served { (ts : TypeList) (it : Active) → (eject_of ts eject.old).active ≡ Some it → Runs it.crew process
        → result ≡ served_by it process }
    ensures after { (ts : TypeList) (it : Active) → (eject_of ts eject.old).active ≡ Some it → Runs it.crew process
        → eject_of ts eject.new ≡ on_active (without_process process) (eject_of ts eject.old) }
{
    if runs(eject, process) {
        eject.end(process)
    } else {
        None
    }
}

/// The same, of the Eject of this uid.
pub fn end_at(entries: &mut Vec<PlainEntry>, uid: Uid, process: u8) -> Option<u32>
    ensures served { (ts : TypeList) (e : Eject) (it : Active) → RunsAt (ejects_of ts entries.old.items) uid process e it
        → result ≡ served_by it process }
    ensures after { (ts : TypeList) (e : Eject) (it : Active) → RunsAt (ejects_of ts entries.old.items) uid process e it
        → ejects_of ts entries.new.items ≡ changed_at uid_cmp uid (on_active (without_process process)) (ejects_of ts entries.old.items) }
{
    match place_of(entries, uid) {
        Some(place) => end(&mut entries[place].eject, process),
        None => None,
    }
}

/// A process of an active part takes its turn, up to its effect, where it runs; else there is none.
fn take(
    alloc: Global,
    types: &Types,
    part: &mut Part,
    uid: Uid,
    process: u8,
) -> Result<Option<Effect>, AllocError>
    ensures runs { IfOk result (λ it. (is_some it ≡ true) ↔ Runs (coordination_of part.old).crew process) }
    ensures rests { IfOk result (λ it. it ≡ None → part.new ≡ part.old) }
    ensures turned { IfOk result (λ it. IfSome it (λ effect. (t : Turned)
        → turn_of uid (active_of (body_of types.now part.old)) process ≡ Some t
        → (effect ≡ t.effect) × (body_of types.now part.new ≡ turned_body process t (body_of types.now part.old)))) }
{
    if part.runs(process) {
        let effect = part.turn(alloc, types, process, uid)?;
        Ok(Some(effect))
    } else {
        Ok(None)
    }
}

/// The same of an Eject, where it is active.
fn turn(
    alloc: Global,
    types: &Types,
    eject: &mut PlainEject,
    uid: Uid,
    process: u8,
) -> Result<Option<Effect>, AllocError>
    ensures runs { IfOk result (λ it. (is_some it ≡ true) ↔ IsSomeAnd (eject_of types.now eject.old).active (λ a. Runs a.crew process)) }
    ensures rests { IfOk result (λ it. it ≡ None → eject_of types.now eject.new ≡ eject_of types.now eject.old) }
    ensures turned { IfOk result (λ it. IfSome it (λ effect. (a : Active) (t : Turned) → (eject_of types.now eject.old).active ≡ Some a
        → turn_of uid a process ≡ Some t
        → (effect ≡ t.effect) × (eject_of types.now eject.new ≡ on_active (turned process t) (eject_of types.now eject.old)))) }
{
    match &mut eject.part {
        Some(part) => {
            let effect = take(alloc, types, part, uid, process)?;
            Ok(effect)
        }
        None => Ok(None),
    }
}

/// The same, of the Eject of this uid.
pub fn turn_at(
    alloc: Global,
    types: &Types,
    entries: &mut Vec<PlainEntry>,
    uid: Uid,
    process: u8,
) -> Result<Option<Effect>, AllocError>
    ensures runs { IfOk result (λ it. (is_some it ≡ true) ↔ IsRunning (ejects_of types.now entries.old.items) uid process) }
    ensures rests { IfOk result (λ it. it ≡ None → InOrder (ejects_of types.now entries.old.items)
        → ejects_of types.now entries.new.items ≡ ejects_of types.now entries.old.items) }
    ensures turned { IfOk result (λ it. IfSome it (λ effect. (e : Eject) (a : Active) (t : Turned)
        → RunsAt (ejects_of types.now entries.old.items) uid process e a → turn_of uid a process ≡ Some t
        → (effect ≡ t.effect) × (ejects_of types.now entries.new.items
        ≡ changed_at uid_cmp uid (on_active (turned process t)) (ejects_of types.now entries.old.items)))) }
{
    match place_of(entries, uid) {
        Some(place) => {
            let effect = turn(alloc, types, &mut entries[place].eject, uid, process)?;
            Ok(effect)
        }
        None => Ok(None),
    }
}

/// The bytes that are to be kept of an Eject, as it is now, where it is active. None where they are too many.
fn encoded(alloc: Global, types: &Types, eject: &PlainEject) -> Result<Option<Body>, AllocError>
    ensures bytes { IfOk result (λ bytes. IfSome (eject_of types.now eject.now).active (λ it.
        IsEncoded (spelling (rep_of it.kind it.vars)) bytes)) }
    ensures within { IfOk result (λ it. IfSome it (λ body. length body ≤ BODY_LIMIT)) }
{
    match &eject.part {
        Some(part) => Ok(part.encoded(alloc, types)?),
        None => Ok(None),
    }
}

/// The same of the Eject of this uid.
pub fn encoded_at(
    alloc: Global,
    types: &Types,
    entries: &[PlainEntry],
    uid: Uid,
) -> Result<Option<Body>, AllocError>
    ensures bytes { IfOk result (λ bytes. (e : Eject) (it : Active) → value_at uid_cmp uid (ejects_of types.now entries.now) ≡ Some e
        → e.active ≡ Some it → IsEncoded (spelling (rep_of it.kind it.vars)) bytes) }
    ensures within { IfOk result (λ it. IfSome it (λ body. length body ≤ BODY_LIMIT)) }
{
    match find(entries, uid) {
        Some(eject) => {
            let bytes = encoded(alloc, types, eject)?;
            Ok(bytes)
        }
        None => Ok(None),
    }
}
