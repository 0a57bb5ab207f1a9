//! Names that are declared twice, and counts of what is declared.
ghost use Rattle.std.specs.Prelude.{◌≡◌, ◌+◌, ◌++◌, length, map, not, Some, OnOk};
ghost use Rattle.std.specs.Ordering.{nat_cmp};
ghost use Rattle.std.specs.BTreeMap.{get, Updates};
ghost use Rattle.epl_syntax.specs.declared.rule.Rule.TheVariants.{UnknownName};
ghost use Rattle.epl_syntax.specs.Rules.First.{least, broken_if};
ghost use Rattle.epl_syntax.specs.Rules.Scopes as scopes;
ghost use Rattle.epl_syntax.specs.Rules.InItems.{too_many, places_of};
ghost use Rattle.epl_check.specs.Numbered.{IsIndex};
ghost use Rattle.epl_check.specs.Numbered.{least_with, told_among};
ghost use Rattle.epl_check.specs.View.{doubled_before, is_past};

use crate::first::{First, tell_if};
use crate::index::{Listed, has};
use eden_value::Txt;
use epl_syntax::{
    Assignment, ClassDecl, CondDecl, LocalDecl, Name, Number, OpDecl, ParDecl, ProcDecl, Rule,
    UpgradeDecl, VarDecl, same_text,
};
use std::alloc::{AllocError, Global};
use std::collections::BTreeMap;

/// What has a name.
pub(crate) trait Named {
    ghost use Rattle.epl_syntax.specs.declared.tree.Name.{Name};

    ghost named: { Self → Name };

    fn name(&self) -> &Name
        ensures { result.now ≡ named self.now };
}

impl Named for Name {
    ghost named = { λ n. n };

    fn name(&self) -> &Name {
        self
    }
}

impl Named for VarDecl {
    ghost named = { λ v. v.name };

    fn name(&self) -> &Name {
        &self.name
    }
}

impl Named for LocalDecl {
    ghost named = { λ v. v.name };

    fn name(&self) -> &Name {
        &self.name
    }
}

impl Named for ParDecl {
    ghost named = { λ p. p.name };

    fn name(&self) -> &Name {
        &self.name
    }
}

impl Named for ClassDecl {
    ghost named = { λ c. c.name };

    fn name(&self) -> &Name {
        &self.name
    }
}

impl Named for CondDecl {
    ghost named = { λ c. c.name };

    fn name(&self) -> &Name {
        &self.name
    }
}

impl Named for OpDecl {
    ghost named = { λ o. o.name };

    fn name(&self) -> &Name {
        &self.name
    }
}

impl Named for ProcDecl {
    ghost named = { λ p. p.name };

    fn name(&self) -> &Name {
        &self.name
    }
}

impl Named for Assignment {
    ghost named = { λ a. a.name };

    fn name(&self) -> &Name {
        &self.name
    }
}

/// Tells the first of what is declared past a limit.
pub(crate) fn check_count<T: Named>(limit: usize, items: &[T], first: &mut First)
    ensures { first.new ≡ least first.old (too_many limit (places_of (map T.named items.now))) }
{
    if let Some(item) = items.get(limit) {
        tell_if(true, Rule::BadLimit, item.name().place, first);
    }
}

/// Whether a name is among these.
fn is_among<T: Named>(items: &[T], text: &Txt) -> bool
    ensures { result ≡ scopes.is_among (map T.named items.now) text.now }
{
    for item in items {
        if same_text(&item.name().text, text) {
            return true;
        }
    }
    false
}

/// Tells where a name is not among these.
pub(crate) fn check_among<T: Named>(items: &[T], name: &Name, first: &mut First)
    ensures { first.new ≡ least first.old
        (broken_if (not (scopes.is_among (map T.named items.now) name.now.text)) UnknownName name.now.place) }
{
    if is_past(first, name.place) {
        return;
    }
    tell_if(
        !is_among(items, &name.text),
        Rule::UnknownName,
        name.place,
        first,
    );
}

/// Whether something before a place is told already.
pub(crate) fn is_past(first: &First, place: u32) -> bool
    ensures { result ≡ is_past first.now place }
{
    match first.broken {
        None => false,
        Some(b) => b.place < place,
    }
}

/// Tells which of these have a name, at the later of both places.
fn check_clashes<T: Named>(name: &Name, others: &[T], first: &mut First)
    ensures { first.new ≡ least first.old (scopes.clashes name.now (map T.named others.now)) }
{
    if is_past(first, name.place) {
        return;
    }
    for other in others {
        let other = other.name();
        tell_if(
            same_text(&name.text, &other.text),
            Rule::Doubled,
            name.place.max(other.place),
            first,
        );
    }
}

/// Tells which names of the first list stand again behind them, there or in the other lists.
pub(crate) fn check_doubled<A: Named, B: Named, C: Named>(
    a: &[A],
    b: &[B],
    c: &[C],
    first: &mut First,
)
    ensures { first.new ≡ least first.old (doubled_before (map A.named a.now) (map B.named b.now ++ map C.named c.now)) }
{
    for i in 0..a.len() {
        let name = a[i].name();
        check_clashes(name, &a[i + 1..], first);
        check_clashes(name, b, first);
        check_clashes(name, c, first);
    }
}

/// Tells where a variable of the type has the name, too.
fn check_as_variable(vars: Listed<'_, VarDecl>, name: &Name, first: &mut First)
    requires { IsIndex vars.numbers.now (map (λ v. v.name) vars.items.now) }
    ensures { first.new ≡ least first.old (scopes.as_variable (map (λ v. v.name) vars.entry.items.now) name.now) }
{
    tell_if(has(vars, &name.text), Rule::Doubled, name.place, first);
}

/// Tells which names a variable of the type has, too.
pub(crate) fn check_as_variables<T: Named>(
    vars: Listed<'_, VarDecl>,
    items: &[T],
    first: &mut First,
)
    requires { IsIndex vars.numbers.now (map (λ v. v.name) vars.items.now) }
    ensures { first.new ≡ least first.old (scopes.as_variables (map (λ v. v.name) vars.entry.items.now) (map T.named items.now)) }
{
    for item in items {
        check_as_variable(vars, item.name(), first);
    }
}

/// The least place of each number.
pub(crate) type Places = BTreeMap<u64, u32>;

/// Tells where a number is among those of a list, and adds its place to theirs.
fn check_same_number(
    number: Number,
    places: &mut Places,
    first: &mut First,
) -> Result<(), AllocError>
    ensures told { OnOk result (first.new ≡ least first.old (told_among number (get nat_cmp places.old number.n))) }
    ensures placed { OnOk result (Updates nat_cmp places.old places.new number.n
        (Some (least_with number.place (get nat_cmp places.old number.n)))) }
{
    let mut place = number.place;
    if let Some(other) = places.get(&number.n) {
        tell_if(true, Rule::Doubled, place.max(*other), first);
        place = place.min(*other);
    }
    places.insert(number.n, place)?;
    Ok(())
}

/// Tells which upgrades are from one version.
pub(crate) fn check_doubled_numbers(
    alloc: Global,
    upgrades: &[UpgradeDecl],
    first: &mut First,
) -> Result<(), AllocError>
    ensures { OnOk result (first.new ≡ least first.old (scopes.doubled_numbers (map (λ u. u.from) upgrades.now))) }
{
    let mut places = BTreeMap::new(alloc);
    let mut i = upgrades.len();
    while i > 0 {
        check_same_number(upgrades[i - 1].from, &mut places, first)?;
        i -= 1;
    }
    Ok(())
}
