//! How a node may boot, and what a boot changes.
ghost use Rattle.std.specs.Prelude.{◌≡◌, ◌↔◌, IsTrue};
ghost use Rattle.eden_model.specs.Traffic.{Traffic};
ghost use Rattle.epl_syntax.specs.Rules.OfTypes.{TypeList};
ghost use Rattle.journal.specs.Boots.{AllowsBoot, boot_turn};
ghost use Rattle.plain_choices.specs.View.{IsBootOf};
ghost use Rattle.plain_stores.specs.View.{site_of};

use crate::PlainNode;
use block_tables::is_block_size;
use journal::BootEnd;
use passive_store::Pick;
use plain_choices::{BootFacts, may_boot};

impl PlainNode {
    /// What decides how the node may boot, behind a pick. An epoch finds room over blocks, whatever is kept.
    fn boot_facts(&self, pick: Option<Pick>) -> BootFacts
        ensures { (ts : TypeList) (t : Traffic) → IsBootOf result (site_of ts t self.now) pick }
    {
        BootFacts {
            damaged: self.damaged,
            overfull: self.overfull,
            allowed: is_block_size(self.size),
            doubted: self.is_in_doubt(),
            stored: self.epoch_by(pick),
            room: true,
            untold: self.untold,
        }
    }

    /// Whether the node may boot with this end, and show this epoch, this pick, and whether the epoch's put was begun.
    pub fn may_boot(&self, epoch: u32, end: BootEnd, pick: Option<Pick>, began: bool) -> bool
        ensures { (ts : TypeList) (t : Traffic) → IsTrue result ↔ AllowsBoot (site_of ts t self.now) epoch end pick began }
    {
        !self.up
            && self.requests.is_empty()
            && may_boot(&self.boot_facts(pick), epoch, end, pick, began)
    }

    /// A boot that ended so: what was picked is settled, and then the node is up with its new epoch, or has it in doubt.
    pub fn boot(&mut self, epoch: u32, end: BootEnd, pick: Option<Pick>, began: bool)
        ensures { (ts : TypeList) (t : Traffic) → site_of ts t self.new ≡ boot_turn epoch end pick began (site_of ts t self.old) }
    {
        self.settle(pick);
        match end {
            BootEnd::Up => {
                self.up = true;
                self.epoch = Some(epoch);
                self.last_serial = 0;
            }
            _ => {
                if began {
                    self.epoch_doubt = Some(epoch);
                }
            }
        }
    }
}
