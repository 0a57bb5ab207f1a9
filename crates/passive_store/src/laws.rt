// Laws of what a store shows.
ghost use Rattle.std.specs.Prelude.{ℕ, Bool, List, [], ◌∷◌, Option, Result};
ghost use Rattle.passive_store.specs.declared.store.Pick.{Pick};
ghost use Rattle.passive_store.specs.Kept.{Kept, StoreChange, IsAnyOf, IsFresh};
ghost use Rattle.passive_store.specs.Layout.{IsLayout};
ghost use Rattle.passive_store.specs.LogLayout.{log_layout};
ghost use Rattle.passive_store.specs.Marks.{PickTellsMark, IsOldOrNew};

/// A settling found the new state exactly where it changed the mark of the uid in doubt.
pub fn picks_are_told_by_marks()
    ensures { (pick : Option Pick) (c : StoreChange) (synced : Bool) (k : Kept) → IsFresh c k → PickTellsMark pick c synced k }
{}

/// An image that stands for what is kept, with a change in doubt, has for its uid the old mark and the old body or
/// another mark and the new body, and for every other uid what is kept.
pub fn images_are_told_by_marks()
    ensures { (kept : Kept) (c : StoreChange) (found : Result Kept ℕ) → IsAnyOf kept (c ∷ []) found → IsOldOrNew kept c found }
{}

/// A log is a layout: uids are own, bodies within the limit and marked, numbers in range, the reserved four bytes respell, and
/// an opening of a disk of an allowed size makes a device call.
pub fn log_layout_is_a_layout()
    ensures { IsLayout log_layout }
{}
