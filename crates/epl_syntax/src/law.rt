//! What is promised of definitions, apart from any code.
ghost use Rattle.std.specs.Prelude.{◌≡◌, ℕ, List};
ghost use Rattle.epl_syntax.specs.declared.token.Token.{Token};
ghost use Rattle.epl_syntax.specs.Token.{SpellsTokens, Breaks};
ghost use Rattle.epl_syntax.specs.Authority.{TurnKeepsCaps, BeginKeepsCaps, DeclaredHaveNone, FirstHaveNone};
ghost use Rattle.epl_syntax.specs.Authority.{DurableKeepCaps, StartKeepsCaps};
ghost use Rattle.epl_syntax.specs.Monitors.{OperationsBeginGuarded, ProcessesBeginGuarded, TurnStaysGuarded, TurnKeepsMonitors};
ghost use Rattle.epl_syntax.specs.Pipelines.{FiltersMakeTheirFunctions, FiltersEndAsTheirFunctions, PipelinesKeepFronts};

/// A text spells at most one list of tokens; where it spells one, no place is refused, and else at
/// most one place is.
pub fn tokens_are_one()
    ensures one_list { (text : List ℕ) (ts us : List Token) → SpellsTokens text ts → SpellsTokens text us → ts ≡ us }
    ensures one_place { (text : List ℕ) (p q : ℕ) → Breaks text p → Breaks text q → p ≡ q }
    ensures never_both { (text : List ℕ) (ts : List Token) (p : ℕ) → SpellsTokens text ts → Breaks text p → ⊥ }
{}

/// No type makes capabilities: whatever is held, those in the values, the rest and the effect of a turn are below it where those
/// in the values, the rest and the answer before it are, and the Eject's own; and so with how processes and Ejects begin, and with
/// what a checkpoint keeps.
pub fn types_make_no_capabilities()
    ensures turn { TurnKeepsCaps }
    ensures begin { BeginKeepsCaps }
    ensures declared { DeclaredHaveNone }
    ensures first { FirstHaveNone }
    ensures durable { DurableKeepCaps }
    ensures start { StartKeepsCaps }
{}

/// A process of a type that keeps the rules begins guarded, and every turn leaves it so: it locks a monitor only outside of all,
/// leaves the one that it is inside of, and waits on and signals conditions of that one alone; and a turn neither changes a
/// variable of a monitor that its process is not inside of nor depends on one.
pub fn types_keep_monitors()
    ensures operations { OperationsBeginGuarded }
    ensures processes { ProcessesBeginGuarded }
    ensures turns { TurnStaysGuarded }
    ensures others { TurnKeepsMonitors }
{}

/// A filter of a stream makes of an item, and of the end, what its function makes of them, behind what it has taken in; and of the
/// beginning of a list a pipeline makes the beginning of what it makes of all.
pub fn filters_make_their_functions()
    ensures one_more { FiltersMakeTheirFunctions }
    ensures end { FiltersEndAsTheirFunctions }
    ensures fronts { PipelinesKeepFronts }
{}
