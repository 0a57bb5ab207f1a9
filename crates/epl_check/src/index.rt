//! Declared names, found by their order.
ghost use Rattle.std.specs.Prelude.{◌≡◌, map, IfOk};
ghost use Rattle.std.specs.Option.{option_copied};
ghost use Rattle.epl_syntax.specs.Rules.Scopes.{number_in, is_among};
ghost use Rattle.epl_check.specs.Numbered.{IsIndex, first_named};

use crate::names::Named;
use eden_value::Txt;
use std::alloc::{AllocError, Global};
use std::collections::BTreeMap;

/// The number of each name in a list, counted from 1. Of equal names the first one counts.
pub(crate) type Numbers = BTreeMap<Vec<u8>, usize>;

/// What is declared in one list, with the numbers of its names.
#[derive_where(Clone, Copy)]
pub(crate) struct Listed<'a, T> {
    /// What is declared, in order.
    pub items: &'a [T],
    /// The number of each name among them, counted from 1.
    pub numbers: &'a Numbers,
}

/// The numbers of the names in a list.
pub(crate) fn index<T: Named>(alloc: Global, items: &[T]) -> Result<Numbers, AllocError>
    ensures { IfOk result (λ numbers. IsIndex numbers (map T.named items.now)) }
{
    let mut numbers = BTreeMap::new(alloc);
    let mut i = items.len();
    while i > 0 {
        let name = items[i - 1].name();
        let bytes = Vec::from_slice(alloc, name.text.bytes.as_slice())?;
        numbers.insert(bytes, i)?;
        i -= 1;
    }
    Ok(numbers)
}

/// The number of a name in its list, counted from 1.
pub(crate) fn number_of<T: Named>(listed: Listed<'_, T>, text: &Txt) -> Option<usize>
    requires { IsIndex listed.numbers.now (map T.named listed.items.now) }
    ensures { result ≡ number_in (map T.named listed.entry.items.now) text.now 0 }
{
    listed.numbers.get(text.bytes.as_slice()).copied()
}

/// What has a name.
#[tactic(auto, using(crate::proofs::Named::none_at, crate::proofs::Named::named_at, crate::proofs::Named::item_at))]
pub(crate) fn find<'a, T: Named>(listed: Listed<'a, T>, text: &Txt) -> Option<&'a T>
    requires { IsIndex listed.numbers.now (map T.named listed.items.now) }
    ensures { option_copied result ≡ first_named T.named listed.entry.items.now text.now }
{
    let number = number_of(listed, text)?;
    listed.items.get(number.saturating_sub(1))
}

/// Whether something has a name.
#[tactic(auto, using(crate::proofs::Named::among_at))]
pub(crate) fn has<T: Named>(listed: Listed<'_, T>, text: &Txt) -> bool
    requires { IsIndex listed.numbers.now (map T.named listed.items.now) }
    ensures { result ≡ is_among (map T.named listed.entry.items.now) text.now }
{
    number_of(listed, text).is_some()
}
