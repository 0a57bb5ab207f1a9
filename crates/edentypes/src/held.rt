//! The values of the variables of an Eject.
ghost use Rattle.std.specs.Prelude.{◌≡◌, IfOk, []};
ghost use Rattle.directory_eject.specs.Kept.{MayStart};

use directory_eject::Directory;
use eden_value::{Items, copy_items};
use std::alloc::{AllocError, Global};
use std::marker::Model;

/// How values are held: in order, or as the entries of a directory.
#[derive(Drop)]
enum Held {
    Plain { items: Items },
    Entries { directory: Directory },
}

/// The values of all variables of an Eject. A directory whose entries were looked at holds them in a map.
///
/// Contracts see them as the list of the values, in order of declaration.
#[derive(Drop)]
pub struct Values {
    held: Held,
}

impl Model for Values {
    ghost use Rattle.std.specs.Prelude.{List};
    ghost use Rattle.eden_value.specs.Datum.{Datum};
    ghost use Rattle.eden_value.specs.Code.{coded_items};

    ghost Value = { List Datum };

    ghost coded = { coded_items };

    ghost use Rattle.edentypes.specs.Held.{held_values};

    ghost view = { λ v. held_values v.held };
}

impl Values {
    /// These values.
    pub fn plain(items: Items) -> Values
        ensures { result ≡ items }
    {
        Values {
            held: Held::Plain { items },
        }
    }

    /// No values.
    pub(crate) fn none(alloc: Global) -> Values
        ensures { result ≡ [] }
    {
        Values::plain(Items {
            values: Vec::new(alloc),
        })
    }

    /// The values of a directory.
    pub(crate) fn entries(directory: Directory) -> Values
        ensures { result ≡ directory }
    {
        Values {
            held: Held::Entries { directory },
        }
    }

    /// The values, in order.
    pub fn items(&self, alloc: Global) -> Result<Items, AllocError>
        ensures { IfOk result (λ items. items ≡ self.now) }
    {
        match &self.held {
            Held::Plain { items } => copy_items(alloc, items),
            Held::Entries { directory } => directory.values(alloc),
        }
    }

    /// The values, in order.
    pub(crate) fn into_items(self, alloc: Global) -> Result<Items, AllocError>
        ensures { IfOk result (λ items. items ≡ self) }
    {
        match self.held {
            Held::Plain { items } => Ok(items),
            Held::Entries { directory } => directory.values(alloc),
        }
    }

    /// The directory of the values, whatever held them before.
    pub(crate) fn into_directory(self, alloc: Global) -> Result<Directory, AllocError>
        requires { MayStart self }
        ensures { IfOk result (λ directory. directory ≡ self) }
    {
        match self.held {
            Held::Entries { directory } => Ok(directory),
            Held::Plain { items } => Directory::from_values(alloc, &items),
        }
    }
}
