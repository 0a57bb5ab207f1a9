//! What tells the four filters apart.
ghost use Rattle.std.specs.Prelude.{◌≡◌, IfOk, length, pos, ◌+ℤ◌, ◌<ℤ◌};
ghost use Rattle.epl_syntax.specs.Filters as filters;
ghost use Rattle.epl_syntax.specs.Operators.{greatest};
ghost use Rattle.transput.specs.View.{rule_of, filter_of};

use crate::filter::Filter;
use crate::values::{number_at, text_at};
use eden_value::{TEXT_LIMIT, Txt, Value, print, texted};
use std::alloc::{AllocError, Global};

/// The type of a filter.
#[derive(Clone, Copy, Debug, PartialEq, Eq)]
pub enum Rule {
    /// It hands on so many items.
    Take,
    /// It hands on all but so many.
    Skip,
    /// It hands on those that begin with a text.
    Only,
    /// It hands on all, each with its number.
    Number,
}

/// Whether an item begins with a text.
fn begins_with(front: &[u8], item: &[u8]) -> bool
    ensures { result ≡ filters.begins_with front.now item.now }
{
    item.starts_with(front)
}

/// A number, a colon, a blank and an item, cut to the greatest length of a text.
fn numbered(alloc: Global, n: i64, item: &Txt) -> Result<Txt, AllocError>
    ensures { IfOk result (λ text. text ≡ filters.numbered n item.now) }
{
    let mut bytes = Vec::new(alloc);
    print(alloc, &Value::Int { n }, &mut bytes)?;
    bytes.extend_from_slice(b": ")?;
    bytes.extend_from_slice(item.as_slice())?;
    bytes.truncate(TEXT_LIMIT);
    texted(bytes)
}

impl Rule {
    /// How many values its argument has: one, or none where there is no argument.
    pub fn arguments(self) -> usize
        ensures { result ≡ length (rule_of self).arg }
    {
        match self {
            Rule::Number => 0,
            _ => 1,
        }
    }

    /// Whether it hands on no more.
    pub fn is_over(self, filter: &Filter) -> bool
        ensures { result ≡ (rule_of self).is_over (filter_of filter.now) }
    {
        match self {
            Rule::Take => number_at(&filter.arg, 0) <= filter.made,
            _ => false,
        }
    }

    /// Whether it hands on this item, the next one.
    pub fn passes(self, filter: &Filter, item: &Txt) -> bool
        ensures { result ≡ (rule_of self).passes (filter_of filter.now) item.now }
    {
        match self {
            Rule::Skip => number_at(&filter.arg, 0) <= filter.got,
            Rule::Only => begins_with(text_at(&filter.arg, 0), &item.bytes),
            _ => true,
        }
    }

    /// What an item becomes.
    pub fn becomes(self, alloc: Global, filter: &Filter, item: Txt) -> Result<Txt, AllocError>
        requires { filter.now.made <ℤ greatest }
        ensures { IfOk result (λ text. text ≡ (rule_of self).becomes (filter_of filter.now) item) }
    {
        match self {
            Rule::Number => numbered(alloc, filter.made + 1, &item),
            _ => Ok(item),
        }
    }
}
