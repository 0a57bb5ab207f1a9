//! Passive Ejects are activated.
ghost use Rattle.std.specs.Prelude.{◌≡◌, ◌<◌, ◌≤◌, ◌+◌, ◌∷◌, [], ℕ, Bool, length};
ghost use Rattle.std.specs.Prelude.{OnOk, None, Some};
ghost use Rattle.epl_syntax.specs.Rules.OfTypes.{TypeList};
ghost use Rattle.passive_store.specs.declared.store.Pick.{Pick};
ghost use Rattle.std.specs.Prelude.{Option};
ghost use Rattle.edentypes.specs.View.{kind_in};
ghost use Rattle.journal.specs.declared.event.Event.TheVariants.{Activate};
ghost use Rattle.journal.specs.declared.event.StartEnd.{StartEnd};
ghost use Rattle.journal.specs.declared.event.StartEnd.TheVariants as end;
ghost use Rattle.journal.specs.World.{Site};
ghost use Rattle.journal.specs.Sites.{IsSoundSite};
ghost use Rattle.journal.specs.Starts.{start_settled};
ghost use Rattle.journal.specs.Step.{AllowsAt, site_turn};
ghost use Rattle.checkpoint.specs.Starting.{StartsWith};
ghost use Rattle.active_part.specs.View.{body_of, coordination_of};
ghost use Rattle.ejects.specs.Activations.{JoinsAll, answer_of};
ghost use Rattle.ejects.specs.Counts.{AsksNone};
ghost use Rattle.ejects.specs.Parts.{IsAt, body_at};
ghost use Rattle.ejects.specs.View.{parts_of, with_body};

use crate::replies::{reply, reply_all};
use crate::{Ejects, take_waiting};
use active_part::{Part, no_items};
use capability::{CallNumbers, Uid};
use eden_value::Status;
use edentypes::{Begun, Fit, fit_call};
use epl_syntax::Types;
use invocation::Calls;
use std::alloc::{AllocError, Global};

// A call that was queued joins the active part, or is answered where it does not fit. One that was never asked is passed over.
fn join_or_answer(
    alloc: Global,
    types: &Types,
    calls: &mut Calls,
    part: &mut Part,
    number: u32,
) -> Result<(), AllocError>
    requires { length (coordination_of part.old).queued < 64 }
    ensures joins { OnOk result (JoinsAll (body_of types.now part.old) (body_of types.now part.new) (number ∷ []) calls.old calls.new) }
    ensures one { OnOk result (length (coordination_of part.new).queued ≤ length (coordination_of part.old).queued + 1) }
    ensures asks { OnOk result (AsksNone calls.old calls.new) }
{
    let Some(asked) = calls.call(number) else {
        return Ok(());
    };
    let fit = fit_call(
        types,
        part.kind(),
        asked.target,
        &asked.operation,
        &asked.args,
    );
    match fit {
        Fit::Fits { class } => part.offer(number, class)?,
        Fit::Misfits { status } => reply(alloc, calls, number, status, no_items(alloc))?,
    }
    Ok(())
}

// Each of these calls, in order.
fn join_all(
    alloc: Global,
    types: &Types,
    calls: &mut Calls,
    part: &mut Part,
    numbers: &CallNumbers,
) -> Result<(), AllocError>
    requires { length (coordination_of part.old).queued + length numbers.now ≤ 64 }
    ensures joins { OnOk result (JoinsAll (body_of types.now part.old) (body_of types.now part.new) numbers.now calls.old calls.new) }
    ensures asks { OnOk result (AsksNone calls.old calls.new) }
{
    for number in &numbers.items {
        join_or_answer(alloc, types, calls, part, *number)?;
    }
    Ok(())
}

impl Ejects {
    // An Eject that is not active has this active part.
    fn enter(&mut self, alloc: Global, uid: Uid, part: Part) -> Result<(), AllocError>
        requires { (ts : TypeList) → body_at (parts_of ts self.old) uid ≡ None }
        ensures { OnOk result ((ts : TypeList) → parts_of ts self.new ≡ with_body uid (body_of ts part) (parts_of ts self.old)) }
    {
        match self.table.wake(alloc, uid, part) {
            Ok(()) => Ok(()),
            Err(_) => Err(AllocError),
        }
    }

    /// An Eject that is not active starts, behind the settling of its activation. The calls of its queue that fit its type join the
    /// active part, and the others are answered, both in order.
    ///
    /// For want of memory the queue may have left the node.
    pub fn wake(
        &mut self,
        alloc: Global,
        types: &Types,
        calls: &mut Calls,
        uid: Uid,
        begun: &Begun,
    ) -> Result<(), AllocError>
        requires { (ts : TypeList) → body_at (parts_of ts self.old) uid ≡ None }
        ensures turn { OnOk result ((reach : ℕ → Bool) (s : Site) (p : Option Pick) → IsSoundSite s
            → AllowsAt s (Activate uid end.Ok p) → StartsWith s uid p (kind_in types.now begun.now.kind, begun.now.durable)
            → IsAt (parts_of types.now self.old) calls.old (start_settled p s)
            → IsAt (parts_of types.now self.new) calls.new (site_turn reach (Activate uid end.Ok p) s)) }
        ensures asks { OnOk result (AsksNone calls.old calls.new) }
    {
        let vars = edentypes::start(alloc, types, begun)?;
        let mut part = Part::fresh(alloc, types, begun.kind, vars)?;
        let queued = take_waiting(alloc, &mut self.waiting, uid);
        join_all(alloc, types, calls, &mut part, &queued)?;
        self.enter(alloc, uid, part)?;
        Ok(())
    }

    /// The queue of an Eject that does not start is answered, in order, behind the settling of its activation.
    pub fn turn_away(
        &mut self,
        alloc: Global,
        calls: &mut Calls,
        uid: Uid,
        status: Status,
    ) -> Result<(), AllocError>
        ensures turn { OnOk result ((ts : TypeList) (reach : ℕ → Bool) (s : Site) (how : StartEnd) (p : Option Pick) → IsSoundSite s
            → AllowsAt s (Activate uid how p) → answer_of how ≡ Some status
            → IsAt (parts_of ts self.old) calls.old (start_settled p s)
            → IsAt (parts_of ts self.new) calls.new (site_turn reach (Activate uid how p) s)) }
        ensures asks { OnOk result (AsksNone calls.old calls.new) }
    {
        let queued = take_waiting(alloc, &mut self.waiting, uid);
        reply_all(alloc, calls, &queued, status)?;
        Ok(())
    }
}
