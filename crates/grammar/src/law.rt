//! What the spelling of numbers promises, apart from any code.
ghost use Rattle.std.specs.Prelude.{◌≡◌, ◌^◌, ◌≤◌, ◌<◌, ℕ, List, [], ◌++◌};
ghost use Rattle.std.specs.Int.{bytes_high_first};
ghost use Rattle.grammar.specs.Numbers.{Number};

/// Each number within the bounds has one spelling in so many bytes, no two have the same, and none
/// begins another.
pub fn numbers_have_one_spelling()
    ensures spelled { (width least most n : ℕ) → n < 256 ^ width → least ≤ n → n ≤ most
        → Number width least most (bytes_high_first width n) n }
    ensures one { (width least most n : ℕ) (x y : List ℕ)
        → Number width least most x n → Number width least most y n → x ≡ y }
    ensures own { (width least most m n : ℕ) (bytes : List ℕ)
        → Number width least most bytes m → Number width least most bytes n → m ≡ n }
    ensures apart { (width least most m n : ℕ) (front more : List ℕ)
        → Number width least most front m → Number width least most (front ++ more) n → more ≡ [] }
{}
