//! The first of the broken rules.
ghost use Rattle.std.specs.Prelude.{◌≡◌, None};
ghost use Rattle.epl_syntax.specs.declared.rule.Rule.TheVariants.{KindDiffers};
ghost use Rattle.epl_syntax.specs.Rules.First.{before, sooner, least, broken_if};

use crate::difference::Difference;
use epl_syntax::{Broken, Rule};
use std::marker::Model;

/// The first of the rules that were found to be broken so far, if one was, and what differs there.
///
/// Contracts see it as that rule with its place, or None.
#[derive(Drop)]
pub(crate) struct First {
    pub broken: Option<Broken>,
    pub difference: Option<Difference>,
}

impl Model for First {
    ghost use Rattle.std.specs.Prelude.{Option};
    ghost use Rattle.epl_syntax.specs.declared.rule.Broken.{Broken};

    ghost Value = { Option Broken };

    ghost view = { λ f. f.broken };
}

/// No rule is broken.
pub(crate) fn unbroken() -> First
    ensures { result ≡ None }
{
    First {
        broken: None,
        difference: None,
    }
}

/// The first rule that was found to be broken, if one was.
pub(crate) fn broken_first(first: &First) -> Option<Broken>
    ensures { result ≡ first.now }
{
    first.broken
}

fn is_before(a: Broken, b: Broken) -> bool
    ensures { result ≡ before a b }
{
    a.place < b.place || (a.place == b.place && (a.rule as u8) < (b.rule as u8))
}

/// Keeps the first of the broken rules.
fn tell(first: &mut First, b: Broken, difference: Option<Difference>)
    ensures { first.new ≡ sooner first.old b }
{
    let found = First {
        broken: Some(b),
        difference,
    };
    match first.broken {
        None => *first = found,
        Some(a) => {
            if is_before(b, a) {
                *first = found;
            }
        }
    }
}

/// Tells that a rule is broken, where that is so.
pub(crate) fn tell_if(broken: bool, rule: Rule, place: u32, first: &mut First)
    ensures { first.new ≡ least first.old (broken_if broken rule place) }
{
    if broken {
        tell(first, Broken { rule, place }, None);
    }
}

/// Tells that kinds, or numbers of values, differ, where that is so.
pub(crate) fn tell_difference(differ: bool, difference: Difference, place: u32, first: &mut First)
    ensures { first.new ≡ least first.old (broken_if differ KindDiffers place) }
{
    if differ {
        let rule = Rule::KindDiffers;
        tell(first, Broken { rule, place }, Some(difference));
    }
}
