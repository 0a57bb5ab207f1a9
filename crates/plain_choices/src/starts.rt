//! Activations.
ghost use Rattle.std.specs.Prelude.{◌≡◌, ◌↔◌, IsTrue, Option, List, ℕ};
ghost use Rattle.capability.specs.declared.Uid.{Uid as UidOf};
ghost use Rattle.journal.specs.Settling.{to_settle};
ghost use Rattle.journal.specs.Starts.{StartsSo, FailsSettling, StartsFrom};
ghost use Rattle.journal.specs.World.{Site};
ghost use Rattle.epl_syntax.specs.Edentype.{Edentype};
ghost use Rattle.plain_choices.specs.View.{found_in, IsStartOf};

use journal::StartEnd;
use passive_store::Pick;

/// What is found of an Eject.
#[derive(Clone, Copy, Debug, PartialEq, Eq)]
pub enum Found {
    /// Nothing is kept of it.
    Nothing,
    /// Bytes are kept from which it starts.
    Starts,
    /// Bytes are kept from which it does not start.
    Unreadable,
}

/// What decides how an activation may end.
#[derive(Clone, Copy, Debug)]
pub struct StartFacts {
    /// Whether there is a doubt to settle first.
    pub doubted: bool,
    /// What is found once a settling picked the old state, or where there is no doubt.
    pub old: Found,
    /// What is found once it picked the new one.
    pub new: Found,
}

/// Whether an activation that finds this may end so.
fn may_find(found: Found, end: StartEnd) -> bool
    ensures { (types : List Edentype) (u : UidOf) (kept : Option (List ℕ)) → found ≡ found_in types u kept
        → IsTrue result ↔ StartsSo types u kept end }
{
    match (found, end) {
        (Found::Nothing, StartEnd::Gone) => true,
        (Found::Nothing, _) => false,
        (_, StartEnd::Gone) => false,
        (Found::Starts, StartEnd::Damaged) => false,
        (Found::Unreadable, StartEnd::Ok) => false,
        _ => true,
    }
}

/// Whether an activation may end so whose settling failed.
fn may_fail(end: StartEnd) -> bool
    ensures { IsTrue result ↔ FailsSettling end }
{
    match end {
        StartEnd::Fault => true,
        StartEnd::Stop => true,
        _ => false,
    }
}

/// Whether an activation may end so, with this pick.
pub fn may_start(facts: &StartFacts, end: StartEnd, pick: Option<Pick>) -> bool
    ensures { (s : Site) (u : UidOf) → IsStartOf facts.now s u → IsTrue result ↔ StartsFrom s u (to_settle s) end pick }
{
    match (facts.doubted, pick) {
        (false, None) => may_find(facts.old, end),
        (false, Some(_)) => false,
        (true, None) => may_fail(end),
        (true, Some(Pick::Old)) => may_find(facts.old, end),
        (true, Some(Pick::New)) => may_find(facts.new, end),
    }
}
