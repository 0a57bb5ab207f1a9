//! Turns of processes.
ghost use Rattle.std.specs.Prelude.{◌≡◌, ◌<◌, ◌↔◌, ℕ, Bool, IfOk, IfSome, IsSomeAnd, None, Some, length};
ghost use Rattle.journal.specs.FitTurns.{TurnsAreFit};
ghost use Rattle.journal.specs.Processes.{AllowsTurn, process_turn, worker_at};
ghost use Rattle.journal.specs.Sites.{IsSoundSite};
ghost use Rattle.journal.specs.Step.{IsActiveAnd};
ghost use Rattle.journal.specs.declared.event.Shown.{Shown as ShownOf};
ghost use Rattle.plain_sites.specs.Turns.{HasNewUid, Reaches};
ghost use Rattle.plain_sites.specs.View.{site_at};

use crate::effects::carry_out;
use crate::processes::turn_at;
use capability::Uid;
use epl_syntax::Types;
use journal::Shown;
use plain_calls::PlainCalls;
use plain_stores::PlainNode;
use std::alloc::{AllocError, Global};

/// A process of an Eject takes its turn, up to its effect; what is shown of that. None, and nothing is changed, where it may
/// take none.
///
/// `reached` says of each node, by its number, whether it is reached from this one.
pub fn take_process_turn(
    alloc: Global,
    types: &Types,
    node: &mut PlainNode,
    calls: &mut PlainCalls,
    reached: &[bool],
    uid: Uid,
    process: u8,
) -> Result<Option<Shown>, AllocError>
    requires few { length calls.old.calls.items < 4294967295 }
    ensures shows { IfOk result (λ it. IsSoundSite (site_at types.now node.old calls.old)
        → TurnsAreFit (site_at types.now node.old calls.old)
        → HasNewUid (site_at types.now node.old calls.old) → (said : ShownOf) → (it ≡ Some said)
        ↔ IsActiveAnd (site_at types.now node.old calls.old) uid (λ e a. IsSomeAnd (worker_at a process)
        (AllowsTurn (site_at types.now node.old calls.old) uid process said a))) }
    ensures rests { IfOk result (λ it. it ≡ None → IsSoundSite (site_at types.now node.old calls.old)
        → site_at types.now node.new calls.new ≡ site_at types.now node.old calls.old) }
    ensures changes { IfOk result (λ it. IsSoundSite (site_at types.now node.old calls.old)
        → TurnsAreFit (site_at types.now node.old calls.old) → HasNewUid (site_at types.now node.old calls.old)
        → IfSome it (λ said. (reach : ℕ → Bool) → Reaches reach reached.now
        → site_at types.now node.new calls.new ≡ process_turn reach uid process (site_at types.now node.old calls.old))) }
{
    let turned = turn_at(alloc, types, &mut node.ejects, uid, process)?;
    match turned {
        Some(effect) => {
            let shown = carry_out(alloc, types, node, calls, reached, uid, process, effect)?;
            Ok(Some(shown))
        }
        None => Ok(None),
    }
}
