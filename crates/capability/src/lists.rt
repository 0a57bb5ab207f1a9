//! A list as contracts see it.
ghost use Rattle.std.specs.Prelude.{◌≡◌};

use std::marker::Model;

/// A list, seen as its items in order.
#[derive(Drop)]
pub struct Seq<T> {
    pub items: Vec<T>,
}

impl<T> Model for Seq<T> {
    ghost use Rattle.std.specs.Prelude.{List};

    ghost Value = { List T };

    ghost view = { λ s. s.items.items };
}

/// The bytes of a representation, as they are kept of an Eject.
pub type Body = Seq<u8>;

/// Numbers of calls in a row. Calls are numbered from 1 over a whole script.
pub type CallNumbers = Seq<u32>;

impl<T> Seq<T> {
    /// The items in order.
    pub fn as_slice(&self) -> &[T]
        ensures { result.now ≡ self.now }
    {
        &self.items
    }
}
