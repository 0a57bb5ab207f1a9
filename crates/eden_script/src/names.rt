//! The names that a script has introduced.

ghost use Rattle.std.specs.Prelude.{◌≡◌, [], OnOk};
ghost use Rattle.script_words.specs.Form.{is_among};
ghost use Rattle.eden_script.specs.Names.{with_name};

use std::alloc::{AllocError, Global};
use std::collections::BTreeSet;
use std::marker::Model;

/// Names in the order of their bytes, so that no choice of names makes a look-up slow.
#[derive(Drop)]
pub struct Names {
    in_order: BTreeSet<Vec<u8>>,
}

impl Model for Names {
    ghost use Rattle.std.specs.Prelude.{ℕ, List, map};

    ghost Value = { List (List ℕ) };

    ghost view = { λ n. map (λ v. v.items) n.in_order.keys };
}

impl Names {
    /// No name.
    pub fn new(alloc: Global) -> Names
        ensures { result ≡ [] }
    {
        Names {
            in_order: BTreeSet::new(alloc),
        }
    }

    /// Whether a name was introduced.
    pub fn has(&self, name: &[u8]) -> bool
        ensures { result ≡ is_among self.now name.now }
    {
        self.in_order.contains(name)
    }

    /// One name more. Where memory runs out, nothing is said of the names.
    pub fn add(&mut self, alloc: Global, name: &[u8]) -> Result<(), AllocError>
        ensures { OnOk result (self.new ≡ with_name self.old name.now) }
    {
        let name = Vec::from_slice(alloc, name)?;
        self.keep(name)
    }

    fn keep(&mut self, name: Vec<u8>) -> Result<(), AllocError>
        ensures { OnOk result (self.new ≡ with_name self.old name.items) }
    {
        self.in_order.insert(name)?;
        Ok(())
    }
}
