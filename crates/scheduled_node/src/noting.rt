//! What an event was about is noted in the agenda.
ghost use Rattle.std.specs.Prelude.{◌≡◌, OnOk, None};
ghost use Rattle.std.specs.Option.{option_map};
ghost use Rattle.epl_syntax.specs.Rules.OfTypes.{TypeList};
ghost use Rattle.eden_model.specs.Map.{with_item};
ghost use Rattle.invocation.specs.Numbers.{item_in};
ghost use Rattle.ejects.specs.Parts.{Parts};
ghost use Rattle.ejects.specs.View.{parts_of};
ghost use Rattle.agenda.specs.Indexed.{indices_of};
ghost use Rattle.agenda.specs.Keys.{IsAgenda};
ghost use Rattle.agenda.specs.Marks.{MayBut};
ghost use Rattle.eden_kernel.specs.declared.stores.TurnEnd.TheVariants.{Up};
ghost use Rattle.scheduled_node.specs.Others.{eject_of as eject_asking, concerned as about, turn_about, uid_shown};
ghost use Rattle.scheduled_node.specs.Others.{created_in as created_by, is_either};

use agenda::Agenda;
use capability::Uid;
use eden_kernel::TurnEnd;
use ejects::Ejects;
use invocation::{Asker, Calls};
use journal::{Event, Shown};
use std::alloc::AllocError;

// The Eject that asked a call, if it was not the shell.
fn eject_of(asker: &Asker) -> Option<Uid>
    ensures { result ≡ eject_asking asker.now }
{
    match asker {
        Asker::Shell { .. } => None,
        Asker::Eject { uid, .. } => Some(*uid),
    }
}

// The target of a call.
fn target_of(calls: &Calls, number: u32) -> Option<Uid>
    ensures { result ≡ option_map (λ c. c.target.uid) (item_in number calls.now.calls) }
{
    match calls.call(number) {
        Some(call) => Some(call.target.uid),
        None => None,
    }
}

// The Eject that asked a call of this number.
fn asker_of(calls: &Calls, number: u32) -> Option<Uid>
    ensures { result ≡ with_item (item_in number calls.now.calls) (λ c. eject_asking c.asker) None }
{
    match calls.call(number) {
        Some(call) => eject_of(&call.asker),
        None => None,
    }
}

// The Eject of a process, where its turn may have changed what the Eject may do. It has not where the process let others go on.
fn changed_by(uid: Uid, shown: &Shown) -> Option<Uid>
    ensures { result ≡ turn_about uid shown.now }
{
    match shown {
        Shown::Yield => None,
        _ => Some(uid),
    }
}

// The Eject that an event is about.
fn concerned(calls: &Calls, event: &Event) -> Option<Uid>
    ensures { result ≡ about calls.now event.now }
{
    match event {
        Event::Request { call, .. } => target_of(calls, *call),
        Event::Reply { call, .. } => asker_of(calls, *call),
        Event::Activate { uid, .. } => Some(*uid),
        Event::Start { uid, .. } => Some(*uid),
        Event::Process { uid, shown, .. } => changed_by(*uid, shown),
        Event::Store { uid, .. } => Some(*uid),
        _ => None,
    }
}

// The Eject that a process is shown to have created.
fn created_as(shown: &Shown) -> Option<Uid>
    ensures { result ≡ uid_shown shown.now }
{
    match shown {
        Shown::Created { uid } => Some(*uid),
        _ => None,
    }
}

// The Eject that a process created in its turn.
fn created_in(event: &Event) -> Option<Uid>
    ensures { result ≡ created_by event.now }
{
    match event {
        Event::Process { shown, .. } => created_as(shown),
        _ => None,
    }
}

// What the Ejects may do that an event was about is noted.
fn note(
    agenda: &mut Agenda,
    ejects: &Ejects,
    calls: &Calls,
    event: &Event,
) -> Result<(), AllocError>
    ensures { OnOk result ((ts : TypeList) (n : Parts) → IsAgenda (indices_of agenda.old) n
        → MayBut (is_either (about calls.now event.now) (created_by event.now)) n (parts_of ts ejects.now)
        → IsAgenda (indices_of agenda.new) (parts_of ts ejects.now)) }
{
    let one = concerned(calls, event);
    let other = created_in(event);
    agenda.note_each(ejects, one, other)
}

// The same behind a turn in which the disk was called, where the node goes on.
pub(crate) fn note_behind(
    agenda: &mut Agenda,
    ejects: &Ejects,
    calls: &Calls,
    event: &Event,
    end: TurnEnd,
) -> Result<(), AllocError>
    ensures { OnOk result (end ≡ Up → (ts : TypeList) (n : Parts) → IsAgenda (indices_of agenda.old) n
        → MayBut (is_either (about calls.now event.now) (created_by event.now)) n (parts_of ts ejects.now)
        → IsAgenda (indices_of agenda.new) (parts_of ts ejects.now)) }
{
    match end {
        TurnEnd::Up => note(agenda, ejects, calls, event),
        TurnEnd::Down => Ok(()),
    }
}
