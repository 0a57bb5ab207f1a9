//! What is in doubt on a node, and how a settling ends that.
ghost use Rattle.std.specs.Prelude.{◌≡◌, true};
ghost use Rattle.eden_model.specs.Traffic.{Traffic};
ghost use Rattle.epl_syntax.specs.Rules.OfTypes.{TypeList};
ghost use Rattle.journal.specs.Crashes.{down};
ghost use Rattle.journal.specs.Settling.{in_doubt, is_working, settled, settled_epoch, to_settle, unsynced};
ghost use Rattle.plain_stores.specs.View.{node_of, site_of};

use crate::PlainNode;
use crate::entries::{fell_each, has_doubt, settle_each};
use passive_store::Pick;
use std::alloc::Global;

impl PlainNode {
    /// Whether a change is in doubt: a put of an epoch, or a change of an Eject.
    pub fn is_in_doubt(&self) -> bool
        ensures { (ts : TypeList) → result ≡ in_doubt self.now.number (node_of ts self.now) }
    {
        self.epoch_doubt.is_some() || has_doubt(&self.ejects)
    }

    /// Whether the store is at work on its first request.
    pub fn is_working(&self) -> bool
        ensures { (ts : TypeList) → result ≡ is_working (node_of ts self.now) }
    {
        match self.requests.front() {
            Some(request) => request.made > 0,
            None => false,
        }
    }

    /// Whether there is a doubt to settle.
    pub fn is_to_settle(&self) -> bool
        ensures { (ts : TypeList) (t : Traffic) → result ≡ to_settle (site_of ts t self.now) }
    {
        self.is_in_doubt() && !self.is_working()
    }

    /// The sync of a settling was made.
    pub fn sync(&mut self)
        ensures node { (ts : TypeList) → node_of ts self.new ≡ record (node_of ts self.old) { synced = true } }
        ensures number { self.new.number ≡ self.old.number }
    {
        self.synced = true;
    }

    /// A settling begins anew, with its sync.
    pub fn unsync(&mut self)
        ensures { (ts : TypeList) (t : Traffic) → site_of ts t self.new ≡ unsynced (site_of ts t self.old) }
    {
        self.synced = false;
    }

    /// The epoch that is stored once a settling has made this pick.
    fn epoch_picked(&self, pick: Pick) -> Option<u32>
        ensures { (ts : TypeList) → result ≡ settled_epoch pick (node_of ts self.now) }
    {
        match pick {
            Pick::Old => self.epoch,
            Pick::New => self.epoch_doubt.or(self.epoch),
        }
    }

    /// The epoch that is stored behind a pick.
    pub fn epoch_by(&self, pick: Option<Pick>) -> Option<u32>
        ensures { (ts : TypeList) (t : Traffic) → result ≡ (settled pick (site_of ts t self.now)).node.epoch }
    {
        match pick {
            Some(made) => self.epoch_picked(made),
            None => self.epoch,
        }
    }

    /// A settling has made this pick, and nothing is in doubt; where nothing was picked, all is as it was.
    pub fn settle(&mut self, pick: Option<Pick>)
        ensures { (ts : TypeList) (t : Traffic) → site_of ts t self.new ≡ settled pick (site_of ts t self.old) }
    {
        let Some(made) = pick else {
            return;
        };
        self.epoch = self.epoch_picked(made);
        self.epoch_doubt = None;
        self.synced = false;
        settle_each(&mut self.ejects, made);
    }

    /// The node has crashed: it is down, its requests are gone, and its Ejects have fallen.
    pub fn fall(&mut self, alloc: Global)
        ensures node { (ts : TypeList) → node_of ts self.new ≡ down (node_of ts self.old) }
        ensures number { self.new.number ≡ self.old.number }
    {
        self.up = false;
        self.requests.clear();
        self.synced = false;
        fell_each(alloc, &mut self.ejects);
    }
}
