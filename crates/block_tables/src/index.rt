// The index of a disk of blocks: of each uid the head that counts.
ghost use Rattle.std.specs.Prelude.{◌≡◌, IsSome, OnOk};
ghost use Rattle.std.specs.BTreeMap as tree;
ghost use Rattle.capability.specs.Uids.{uid_cmp};
ghost use Rattle.block_tables.specs.HeadState.{SetsEntry, entry_at};

use capability::Uid;
use std::alloc::AllocError;
use std::collections::BTreeMap;

/// The number of the open head of a uid that counts, and how many open heads it has beside it.
#[derive(Clone, Copy, Debug, PartialEq, Eq)]
pub struct IndexEntry {
    /// The number of the open head that counts.
    pub latest: Option<u32>,
    /// How many open heads the uid has beside it.
    pub others: u32,
}

/// Makes an empty entry for a uid that has none.
pub fn make_entry(index: &mut BTreeMap<Uid, IndexEntry>, uid: Uid) -> Result<(), AllocError>
    ensures entries { (q : _) → entry_at index.new q ≡ entry_at index.old q }
    ensures entry { OnOk result (IsSome (tree.get uid_cmp index.new uid)) }
    ensures keys { (q : _) → IsSome (tree.get uid_cmp index.old q) → IsSome (tree.get uid_cmp index.new q) }
{
    if !index.contains_key(&uid) {
        index.insert(
            uid,
            IndexEntry {
                latest: None,
                others: 0,
            },
        )?;
    }
    Ok(())
}

/// Sets the entry of a uid that has one.
pub fn set_entry(index: &mut BTreeMap<Uid, IndexEntry>, uid: Uid, entry: IndexEntry)
    requires { IsSome (tree.get uid_cmp index.old uid) }
    ensures sets { SetsEntry index.old index.new uid entry }
    ensures keys { (q : _) → IsSome (tree.get uid_cmp index.old q) → IsSome (tree.get uid_cmp index.new q) }
{
    let _ = index.insert(uid, entry);
}

/// The entry of a uid, or an empty one.
pub fn find_entry(index: &BTreeMap<Uid, IndexEntry>, uid: Uid) -> IndexEntry
    ensures { result ≡ entry_at index.now uid }
{
    match index.get(&uid) {
        Some(entry) => *entry,
        None => IndexEntry {
            latest: None,
            others: 0,
        },
    }
}
