//! A type that keeps the rules, whose names are resolved.
ghost use Rattle.std.specs.Prelude.{◌≡◌, ℕ, List, [], true};
ghost use Rattle.epl_syntax.specs.Tree.{type_tree};
ghost use Rattle.epl_syntax.specs.Rules.InItems.{broken_program};
ghost use Rattle.epl_syntax.specs.Bindings.{is_resolved};
ghost use Rattle.epl_syntax.specs.Rules.Limits.{IsWithinLimits};

use crate::tree::Program;
use crate::types::Types;

/// A type that keeps the rules, with some types before it. What its names stand for is found.
#[derive(Drop)]
pub struct Checked {
    pub program: Program,
    pub ghost keeps_rules: { ∥ ((earlier : List (List ℕ)) × (broken_program earlier (type_tree program) ≡ [])) ∥₁ },
    pub ghost limits: { IsWithinLimits program },
    pub ghost resolved: { is_resolved program ≡ true },
}

impl Checked {
    ghost use Rattle.epl_syntax.specs.Rules.OfTypes.{names_of, HasMonitors};

    /// A type that keeps the rules with the types before it, whose conditions are of its monitors, and whose names are resolved.
    pub fn of(program: Program, earlier: &Types) -> Checked
        requires rules { broken_program (names_of earlier.now) (type_tree program) ≡ [] }
        requires monitors { HasMonitors program }
        requires resolved { is_resolved program ≡ true }
        ensures { result.program ≡ program }
    {
        Checked { program }
    }
}
