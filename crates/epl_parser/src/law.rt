//! What the grammar of a text promises, apart from any code.
ghost use Rattle.std.specs.Prelude.{◌≡◌, ℕ, List};
ghost use Rattle.epl_syntax.specs.Constants.{TreeFits};
ghost use Rattle.epl_syntax.specs.Tree.{TypeTree};
ghost use Rattle.epl_parser.specs.Program.{SpellsType, IsNamed, AreInMonitors, RefusesType};

/// A text spells at most one Edentype.
pub fn types_are_one()
    ensures one_tree { (text : List ℕ) (e f : TypeTree) → SpellsType text e → SpellsType text f → e ≡ f }
{}

/// A text is refused at one place at most, and at none where it spells an Edentype.
pub fn refusals_are_one()
    ensures one_place { (text : List ℕ) (p q : ℕ) → RefusesType text p → RefusesType text q → p ≡ q }
    ensures never_both { (text : List ℕ) (e : TypeTree) (p : ℕ) → SpellsType text e → RefusesType text p → ⊥ }
{}

/// The name of an Edentype stands in its text behind `edentype`.
pub fn types_are_named()
    ensures named { (text : List ℕ) (e : TypeTree) → SpellsType text e → IsNamed text e.name }
{}

/// Each condition of an Edentype is of one of its monitors: that in which it stands in the text.
pub fn conditions_are_in_monitors()
    ensures inside { (text : List ℕ) (e : TypeTree) → SpellsType text e → AreInMonitors e }
{}

/// The constants of an Edentype are values: integers of 64 bits, and texts within their limits.
pub fn constants_are_values()
    ensures values { (text : List ℕ) (e : TypeTree) → SpellsType text e → TreeFits e }
{}
