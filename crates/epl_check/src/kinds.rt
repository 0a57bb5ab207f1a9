//! Kinds: their copies, and what is asked of them.
ghost use Rattle.std.specs.Prelude.{◌≡◌, IfOk, nat_le};
ghost use Rattle.eden_value.specs.Shape.{shape, lists};
ghost use Rattle.epl_syntax.specs.Rules.KindsOf as kinds;
ghost use Rattle.epl_syntax.specs.Rules.InExpressions.{lists_in};
ghost use Rattle.epl_check.specs.View.{found};

use eden_value::Kind;
use std::alloc::{AllocError, Global};

/// The kind of lists of a kind.
pub(crate) fn list_of(alloc: Global, item: Kind) -> Result<Kind, AllocError>
    ensures { IfOk result (λ k. shape k ≡ lists (shape item)) }
{
    Ok(Kind::List {
        of: Box::new(alloc, item)?,
    })
}

/// The same kind once more.
pub(crate) fn copy_of(alloc: Global, kind: &Kind) -> Result<Kind, AllocError>
    ensures { IfOk result (λ k. shape k ≡ shape kind.now) }
{
    match kind {
        Kind::Int => Ok(Kind::Int),
        Kind::Bool => Ok(Kind::Bool),
        Kind::Text => Ok(Kind::Text),
        Kind::Cap => Ok(Kind::Cap),
        Kind::List { of } => {
            let item = copy_of(alloc, of)?;
            list_of(alloc, item)
        }
    }
}

/// Whether at most so many lists stand in one another.
pub(crate) fn is_within(kind: &Kind, most: u8) -> bool
    ensures { result ≡ nat_le (lists_in (shape kind.now)) most }
{
    match kind {
        Kind::List { of } => most > 0 && is_within(of, most - 1),
        _ => true,
    }
}

/// Whether both are one kind.
pub(crate) fn same(a: &Kind, b: &Kind) -> bool
    ensures { result ≡ kinds.same_shape (shape a.now) (shape b.now) }
{
    match (a, b) {
        (Kind::Int, Kind::Int) => true,
        (Kind::Bool, Kind::Bool) => true,
        (Kind::Text, Kind::Text) => true,
        (Kind::Cap, Kind::Cap) => true,
        (Kind::List { of: a }, Kind::List { of: b }) => same(a, b),
        _ => false,
    }
}

pub(crate) fn is_list(kind: &Kind) -> bool
    ensures { result ≡ kinds.is_list (shape kind.now) }
{
    match kind {
        Kind::List { .. } => true,
        _ => false,
    }
}

/// Whether it is text or a list.
pub(crate) fn has_size(kind: &Kind) -> bool
    ensures { result ≡ kinds.has_size (shape kind.now) }
{
    match kind {
        Kind::Text | Kind::List { .. } => true,
        _ => false,
    }
}

/// The kind of a list's items.
pub(crate) fn item_of(list: Option<Kind>) -> Option<Kind>
    ensures { found result ≡ kinds.item_kind (found list) }
{
    match list {
        Some(Kind::List { of }) => Some(Box::into_inner(of)),
        _ => None,
    }
}

/// The kind, where it is one of lists.
pub(crate) fn if_list(kind: Option<Kind>) -> Option<Kind>
    ensures { found result ≡ kinds.list_kind (found kind) }
{
    match kind {
        Some(Kind::List { of }) => Some(Kind::List { of }),
        _ => None,
    }
}

/// The kind, where it is text or one of lists.
pub(crate) fn if_sized(kind: Option<Kind>) -> Option<Kind>
    ensures { found result ≡ kinds.sized_kind (found kind) }
{
    match kind {
        Some(Kind::Text) => Some(Kind::Text),
        Some(Kind::List { of }) => Some(Kind::List { of }),
        _ => None,
    }
}

/// The kind of lists of a kind that may be unknown.
pub(crate) fn if_listed(alloc: Global, item: Option<Kind>) -> Result<Option<Kind>, AllocError>
    ensures { IfOk result (λ k. found k ≡ kinds.kind_of_list (found item)) }
{
    match item {
        None => Ok(None),
        Some(item) => {
            let list = list_of(alloc, item)?;
            Ok(Some(list))
        }
    }
}
