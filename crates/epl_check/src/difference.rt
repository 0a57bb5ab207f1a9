//! What was wanted where kinds, or numbers of values, differ.

use eden_value::Kind;

/// A kind in short: what stands in its lists, or alone.
#[derive(Clone, Copy, Debug, PartialEq, Eq)]
pub enum Plain {
    Int,
    Bool,
    Text,
    Cap,
}

/// A kind: something plain, and how many lists stand around it.
#[derive(Clone, Copy, Debug, PartialEq, Eq)]
pub struct Shape {
    pub plain: Plain,
    pub lists: u32,
}

/// What was wanted at the place of a rule that is broken since kinds differ, and what stands there.
#[derive(Clone, Copy, Debug, PartialEq, Eq)]
pub enum Difference {
    /// One kind was wanted, and another is there.
    Kind { wanted: Shape, found: Shape },
    /// A list was wanted.
    List { found: Shape },
    /// A text or a list was wanted.
    Sized { found: Shape },
    /// So many values were wanted, and so many are there.
    Count { wanted: usize, found: usize },
    /// Nothing is returned here.
    Return,
}

/// Nothing but this.
fn alone(plain: Plain) -> Shape {
    Shape { plain, lists: 0 }
}

/// A kind in short.
pub(crate) fn shape_of(kind: &Kind) -> Shape {
    match kind {
        Kind::Int => alone(Plain::Int),
        Kind::Bool => alone(Plain::Bool),
        Kind::Text => alone(Plain::Text),
        Kind::Cap => alone(Plain::Cap),
        Kind::List { of } => {
            let Shape { plain, lists } = shape_of(of);
            Shape {
                plain,
                lists: lists.saturating_add(1),
            }
        }
    }
}
