//! Where the keys of one kind go on behind the last one.
ghost use Rattle.std.specs.Prelude.{◌≡◌, ℕ};
ghost use Rattle.capability.specs.declared.Uid.{Uid as Name};
ghost use Rattle.journal.specs.Enabled.{activity, is_past};
ghost use Rattle.agenda.specs.Indexed.{comes};

use capability::Uid;
use journal::Key;
use std::cmp::Ordering;

/// Which keys of one kind at one station come behind the last key.
#[derive(Clone, Copy, Debug)]
pub enum Behind {
    All,
    /// Those of this Eject whose process is past this one, and those of the Ejects past it.
    Past { uid: Uid, process: u8 },
    Nothing,
}

/// Which keys of this kind at this station come behind the last key. All do where there is none.
pub fn keys_behind(last: Option<Key>, station: u8, kind: u8) -> Behind
    ensures { (u : Name) (q : ℕ) → is_past last (activity station kind u q) ≡ comes result u q }
{
    let Some(key) = last else {
        return Behind::All;
    };
    let segment = key.kind.cmp(&kind).then(key.sender.cmp(&0));
    match key.station.cmp(&station).then(segment) {
        Ordering::Less => Behind::All,
        Ordering::Equal => Behind::Past {
            uid: key.uid,
            process: key.process,
        },
        Ordering::Greater => Behind::Nothing,
    }
}
