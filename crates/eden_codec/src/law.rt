//! What the format promises, apart from any code.
ghost use Rattle.std.specs.Prelude.{◌≡◌, ◌↔◌, ℕ, List, [], ◌++◌, Some};
ghost use Rattle.grammar.specs.FirstBad.{FirstBad};
ghost use Rattle.eden_codec.specs.declared.rep.Rep.{Rep};
ghost use Rattle.eden_codec.specs.Form.{IsRep, RepInRange};
ghost use Rattle.eden_codec.specs.Spells.{SpellsRep};
ghost use Rattle.eden_codec.specs.Spelling.{spelling};
ghost use Rattle.eden_codec.specs.Reading.{reading};

/// Each representation has one spelling, no two have the same, and none begins another. It is the one
/// that `spelling` gives, and `reading` gives the representation back. Bytes that spell none have one
/// first bad place.
pub fn each_rep_has_one_spelling()
    ensures spelled { (r : Rep) → IsRep r → RepInRange r → SpellsRep (spelling r) r }
    ensures only { (bytes : List ℕ) (r : Rep) → SpellsRep bytes r → IsRep r × RepInRange r }
    ensures one { (r : Rep) (x y : List ℕ) → SpellsRep x r → SpellsRep y r → x ≡ y }
    ensures own { (bytes : List ℕ) (r s : Rep) → SpellsRep bytes r → SpellsRep bytes s → r ≡ s }
    ensures apart { (front more : List ℕ) (r s : Rep) → SpellsRep front r → SpellsRep (front ++ more) s → more ≡ [] }
    ensures computed { (bytes : List ℕ) (r : Rep) → SpellsRep bytes r → bytes ≡ spelling r }
    ensures place { (bytes : List ℕ) (p q : ℕ) → FirstBad SpellsRep bytes p → FirstBad SpellsRep bytes q → p ≡ q }
    ensures read { (bytes : List ℕ) (r : Rep) → (reading bytes ≡ Some r) ↔ SpellsRep bytes r }
{}
