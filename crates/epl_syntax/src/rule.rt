//! The rules of a checked program, and where one is broken.

/// Which rule is broken, in the order in which they are told at one place.
#[derive(Clone, Copy, Debug, PartialEq, Eq)]
pub enum Rule {
    UnknownName,
    KindDiffers,
    Unguarded,
    Nested,
    Doubled,
    BadLimit,
}

/// A broken rule, and the place of the token whose name, expression, statement or number breaks it.
#[derive(Clone, Copy, Debug, PartialEq, Eq)]
pub struct Broken {
    pub rule: Rule,
    pub place: u32,
}
