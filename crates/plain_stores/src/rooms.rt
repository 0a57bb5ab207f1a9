//! What room the disk of a node has for bodies, where nothing is in doubt.
ghost use Rattle.std.specs.Prelude.{◌≡◌, ◌≤◌, ◌-◌, length, sum_by};
ghost use Rattle.std.specs.List.{filter_map};
ghost use Rattle.eden_model.specs.Map.{with_item};
ghost use Rattle.eden_model.specs.Traffic.{Traffic};
ghost use Rattle.epl_syntax.specs.Rules.OfTypes.{TypeList};
ghost use Rattle.block_tables.specs.Blocks.{blocks_for, data_count};
ghost use Rattle.passive_store.specs.LogLayout.{within_room};
ghost use Rattle.journal.specs.Settling.{finds_room, kept_entry, kept_map, room};
ghost use Rattle.plain_ejects.specs.View.{change_of};
ghost use Rattle.plain_stores.specs.View.{KeptInOrder, ejects_of, node_of, size_kept, site_of};

use crate::PlainNode;
use crate::entries::PlainEntry;
use capability::{Body, Uid};
use checkpoint::Wish;

/// The length of a body.
fn length_of(body: &Body) -> u64
    ensures { result ≡ length body.now }
{
    body.items.len() as u64
}

/// How many blocks a body takes; none where there is no body.
fn blocks_of(body: &Option<Body>) -> u64
    ensures { result ≡ blocks_for body.now }
{
    match body {
        Some(body) => (body.items.len() as u64).div_ceil(1022).max(1),
        None => 0,
    }
}

/// How many of so many blocks the bodies of these Ejects leave.
fn left_by(entries: &[PlainEntry], all: u64) -> u64
    ensures left { (ts : TypeList) → result ≡ all - sum_by size_kept (filter_map kept_entry (ejects_of ts entries.now)) }
    ensures bound { result ≤ all }
{
    let mut left = all;
    for entry in entries {
        left = left.saturating_sub(blocks_of(&entry.eject.kept));
    }
    left
}

/// How many of so many blocks a stored epoch leaves.
fn left_by_epoch(epoch: Option<u32>, all: u64) -> u64
    ensures left { result ≡ all - with_item epoch (λ e. 1) 0 }
    ensures bound { result ≤ all }
{
    match epoch {
        Some(_) => all.saturating_sub(1),
        None => all,
    }
}

/// Whether a body of this length is no longer than the longest that finds room.
fn is_within(room: Option<u64>, length: u64) -> bool
    ensures { result ≡ within_room room length }
{
    match room {
        Some(longest) => length <= longest,
        None => false,
    }
}

impl PlainNode {
    /// How many blocks for data are left by what is kept.
    fn blocks_left(&self) -> u64
        ensures left { (ts : TypeList) → result
            ≡ data_count self.now.size - sum_by size_kept (kept_map self.now.number (node_of ts self.now)) }
        ensures bound { result ≤ 4194304 }
    {
        let size = u64::from(self.size);
        let all = (size / 1024).saturating_sub(1 + size / 32_768);
        left_by(&self.ejects, left_by_epoch(self.epoch, all))
    }

    /// The longest body that finds room.
    pub fn room(&self) -> Option<u64>
        ensures { (ts : TypeList) (t : Traffic) → KeptInOrder (site_of ts t self.now) → result ≡ room (site_of ts t self.now) }
    {
        let left = self.blocks_left();
        if left >= 2 {
            Some(1022 * (left - 1))
        } else {
            None
        }
    }

    /// Whether a change of this uid finds room.
    pub fn finds_room(&self, uid: Uid, wish: &Wish) -> bool
        ensures { (ts : TypeList) (t : Traffic) → KeptInOrder (site_of ts t self.now)
            → result ≡ finds_room uid (change_of wish.now) (site_of ts t self.now) }
    {
        match wish {
            Wish::Delete => true,
            Wish::Put { body } => { uid.epoch == 0 || is_within(self.room(), length_of(body)) }
        }
    }
}
