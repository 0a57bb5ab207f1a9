//! The names of a script.
ghost use Rattle.std.specs.Prelude.{◌≡◌, IfOk, OnOk, OnErr, None, ℕ, List, [], option_copied};
ghost use Rattle.std.specs.Option.{option_map};
ghost use Rattle.eden_value.specs.View.{datum};
ghost use Rattle.journal.specs.References.{cap_at, value_at_name};
ghost use Rattle.journal.specs.Run.{is_found, next_directory};
ghost use Rattle.journal.specs.World.{World, capability, results, nothing};
ghost use Rattle.shell_names.specs.Names.{meaning, meanings, NamesStand, Binds, StandsWith};

use crate::meant::{Meant, cap_in, first_is_zero, value_in};
use capability::Cap;
use eden_value::{Items, Txt, Value};
use journal::Ref;
use std::alloc::{AllocError, Global};
use std::collections::BTreeMap;
use std::marker::Model;

/// The names of a script that were bound, and what each stands for.
///
/// Contracts see it as the names in a row, each with its meaning; `meanings` says what a name stands for. They stand in
/// order, so that no choice of names makes a look-up slow.
#[derive(Drop)]
pub struct ShellNames {
    names: BTreeMap<Vec<u8>, Meant>,
}

impl Model for ShellNames {
    ghost use Rattle.std.specs.Prelude.{List, ℕ};
    ghost use Rattle.std.specs.Coded.{codes};
    ghost use Rattle.eden_value.specs.Code.{coded_datum};
    ghost use Rattle.journal.specs.World.{Meaning};

    ghost Value = { List (List ℕ × Meaning) };

    ghost coded = { Prim.hlevel (codes, coded_datum) };

    ghost use Rattle.shell_names.specs.Names.{names_in};

    ghost view = { λ s. names_in s.names.entries };
}

impl ShellNames {
    /// No name is bound.
    pub fn new(alloc: Global) -> ShellNames
        ensures none { (name : List ℕ) → meanings result name ≡ None }
        ensures stands { (w : World) → w.names ≡ [] → NamesStand result w }
    {
        ShellNames {
            names: BTreeMap::new(alloc),
        }
    }

    /// What a name stands for.
    fn meant(&self, name: &Txt) -> Option<&Meant>
        ensures { option_map meaning (option_copied result) ≡ meanings self.now name.now }
    {
        self.names.get(name.as_slice())
    }

    /// The name stands for this from now on. Where memory runs out nothing changes.
    fn bind(&mut self, alloc: Global, name: &Txt, meant: Meant) -> Result<(), AllocError>
        ensures means { OnOk result (Binds self.old self.new name.now (meaning meant)) }
        ensures stands { OnOk result (StandsWith self.old self.new name.now (meaning meant)) }
        ensures err { OnErr result (self.new ≡ self.old) }
    {
        let key = Vec::from_slice(alloc, name.as_slice())?;
        self.names.insert(key, meant)?;
        Ok(())
    }

    /// The name stands for a capability from now on, and all other names for what they stood for. Where memory runs out
    /// nothing changes.
    pub fn bind_capability(&mut self, alloc: Global, name: &Txt, cap: Cap) -> Result<(), AllocError>
        ensures means { OnOk result (Binds self.old self.new name.now (capability cap)) }
        ensures stands { OnOk result (StandsWith self.old self.new name.now (capability cap)) }
        ensures err { OnErr result (self.new ≡ self.old) }
    {
        self.bind(alloc, name, Meant::Capability { cap })
    }

    /// The name stands for the results of a call from now on, and all other names for what they stood for. Where memory
    /// runs out nothing changes.
    pub fn bind_results(
        &mut self,
        alloc: Global,
        name: &Txt,
        items: Items,
    ) -> Result<(), AllocError>
        ensures means { OnOk result (Binds self.old self.new name.now (results items)) }
        ensures stands { OnOk result (StandsWith self.old self.new name.now (results items)) }
        ensures err { OnErr result (self.new ≡ self.old) }
    {
        self.bind(alloc, name, Meant::Results { items })
    }

    /// The name stands for nothing from now on, and all other names for what they stood for. Where memory runs out nothing
    /// changes.
    pub fn bind_nothing(&mut self, alloc: Global, name: &Txt) -> Result<(), AllocError>
        ensures means { OnOk result (Binds self.old self.new name.now nothing) }
        ensures stands { OnOk result (StandsWith self.old self.new name.now nothing) }
        ensures err { OnErr result (self.new ≡ self.old) }
    {
        self.bind(alloc, name, Meant::Nothing)
    }

    /// The value of a name alone, where `k` is 0, or of its `k`-th result; none where there is no such value.
    pub fn value(&self, alloc: Global, name: &Txt, k: u8) -> Result<Option<Value>, AllocError>
        ensures { IfOk result (λ found. (w : World) → NamesStand self.now w → option_map datum found ≡ value_at_name w name.now k) }
    {
        match self.meant(name) {
            Some(meant) => value_in(alloc, meant, k),
            None => Ok(None),
        }
    }

    /// The capability that a reference stands for; none where it stands for no capability that is present.
    pub fn capability(&self, by: &Ref) -> Option<Cap>
        ensures { (w : World) → NamesStand self.now w → result ≡ cap_at w by.now }
    {
        cap_in(self.meant(&by.name)?, by.result)
    }

    /// Of a walk under this name: whether its last call found its component, so that the walk goes on.
    pub fn found(&self, name: &Txt) -> bool
        ensures { (w : World) → NamesStand self.now w → result ≡ is_found w name.now }
    {
        match self.meant(name) {
            Some(meant) => first_is_zero(meant),
            None => false,
        }
    }

    /// Of a walk under this name: the directory that its last call found.
    pub fn next_directory(&self, name: &Txt) -> Option<Cap>
        ensures { (w : World) → NamesStand self.now w → result ≡ next_directory w name.now }
    {
        cap_in(self.meant(name)?, 2)
    }
}
