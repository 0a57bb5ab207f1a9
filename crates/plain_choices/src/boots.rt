//! Boots.
ghost use Rattle.std.specs.Prelude.{◌≡◌, ◌↔◌, ◌+◌, IsTrue, Option};
ghost use Rattle.journal.specs.Ejects.{stored_epoch};
ghost use Rattle.journal.specs.Settling.{settled};
ghost use Rattle.passive_store.specs.declared.store.Pick.{Pick as PickOf};
ghost use Rattle.journal.specs.World.{Site};
ghost use Rattle.journal.specs.Boots.{BootsSo, OpenedNothing, Opened, BeganNothing, BeganNext, ReadsEpoch, OpensStore, Failed};
ghost use Rattle.journal.specs.Boots.{IsDamaged, IsOverfull, IsSpent, HasNoRoom, epoch_has_room};
ghost use Rattle.plain_choices.specs.View.{IsBootOf};

use journal::BootEnd;
use passive_store::Pick;

/// What decides how a node may boot, behind a pick.
#[derive(Clone, Copy, Debug)]
pub struct BootFacts {
    /// The first damaged place of its opening image.
    pub damaged: Option<u32>,
    /// Whether that image keeps too much.
    pub overfull: bool,
    /// Whether the layout allows a disk of its size.
    pub allowed: bool,
    /// Whether a change is in doubt.
    pub doubted: bool,
    /// The epoch that is stored behind the pick.
    pub stored: Option<u32>,
    /// Whether what is kept then leaves room for the next one.
    pub room: bool,
    /// Whether of its opening image the room is told for no change more.
    pub untold: bool,
}

/// Whether the boot shows nothing past the opening.
fn opened_nothing(epoch: u32, pick: Option<Pick>, began: bool) -> bool
    ensures { IsTrue result ↔ OpenedNothing epoch pick began }
{
    pick.is_none() && epoch == 0 && !began
}

/// The stored epoch, 0 for none.
fn stored_or_zero(facts: &BootFacts) -> u32
    ensures { (s : Site) (p : Option PickOf) → IsBootOf facts.now s p → result ≡ stored_epoch (settled p s).node }
{
    match facts.stored {
        Some(epoch) => epoch,
        None => 0,
    }
}

/// Whether the store was opened, with this pick.
fn is_opened(facts: &BootFacts, pick: Option<Pick>) -> bool
    ensures { (s : Site) → IsBootOf facts.now s pick → IsTrue result ↔ Opened s pick }
{
    facts.damaged.is_none() && !facts.overfull && pick.is_some() == facts.doubted
}

/// Whether the next epoch finds room.
fn has_room(facts: &BootFacts) -> bool
    ensures { (s : Site) (p : Option PickOf) → IsBootOf facts.now s p
        → result ≡ epoch_has_room (settled p s) (stored_epoch (settled p s).node + 1) }
{
    facts.room && !facts.untold
}

/// Whether the put of the next epoch was not begun.
fn began_nothing(facts: &BootFacts, epoch: u32, pick: Option<Pick>, began: bool) -> bool
    ensures { (s : Site) → IsBootOf facts.now s pick → IsTrue result ↔ BeganNothing s epoch pick began }
{
    is_opened(facts, pick) && epoch == 0 && !began
}

/// Whether it was begun.
fn began_next(facts: &BootFacts, epoch: u32, pick: Option<Pick>, began: bool) -> bool
    ensures { (s : Site) → IsBootOf facts.now s pick → IsTrue result ↔ BeganNext s epoch pick began }
{
    let stored = stored_or_zero(facts);
    is_opened(facts, pick) && stored < u32::MAX && epoch == stored + 1 && has_room(facts) && began
}

/// Whether the epoch was to be read.
fn reads_epoch(facts: &BootFacts, epoch: u32, pick: Option<Pick>, began: bool) -> bool
    ensures { (s : Site) → IsBootOf facts.now s pick → IsTrue result ↔ ReadsEpoch s epoch pick began }
{
    began_nothing(facts, epoch, pick, began) && facts.stored.is_some()
}

/// Whether the store was to be opened.
fn opens_store(facts: &BootFacts, epoch: u32, pick: Option<Pick>, began: bool) -> bool
    ensures { (s : Site) → IsBootOf facts.now s pick → IsTrue result ↔ OpensStore s epoch pick began }
{
    facts.allowed && opened_nothing(epoch, pick, began)
}

/// Whether a device call may have been refused there.
fn may_fail(facts: &BootFacts, epoch: u32, pick: Option<Pick>, began: bool) -> bool
    ensures { (s : Site) → IsBootOf facts.now s pick → IsTrue result ↔ Failed s epoch pick began }
{
    opens_store(facts, epoch, pick, began)
        || reads_epoch(facts, epoch, pick, began)
        || began_next(facts, epoch, pick, began)
}

/// Whether a boot may end so, and show this epoch, this pick, and whether the epoch's put was begun.
pub fn may_boot(
    facts: &BootFacts,
    epoch: u32,
    end: BootEnd,
    pick: Option<Pick>,
    began: bool,
) -> bool
    ensures { (s : Site) → IsBootOf facts.now s pick → IsTrue result ↔ BootsSo s epoch end pick began }
{
    match end {
        BootEnd::Up => began_next(facts, epoch, pick, began),
        BootEnd::DiskFault => may_fail(facts, epoch, pick, began),
        BootEnd::Stop => may_fail(facts, epoch, pick, began),
        BootEnd::Damaged { place } => {
            facts.damaged == Some(place) && opened_nothing(epoch, pick, began)
        }
        BootEnd::EpochsSpent => {
            began_nothing(facts, epoch, pick, began) && stored_or_zero(facts) == u32::MAX
        }
        BootEnd::Full => {
            facts.damaged.is_none() && facts.overfull && opened_nothing(epoch, pick, began)
                || began_nothing(facts, epoch, pick, began)
                    && stored_or_zero(facts) < u32::MAX
                    && !has_room(facts)
        }
    }
}
