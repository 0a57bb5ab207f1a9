//! Whether a type of the language keeps its rules, and else which is broken first, and what the names in its bodies stand for.
#![tactic(auto)]

mod checker;
mod difference;
mod expression;
mod first;
mod fit;
mod index;
mod item;
mod kinds;
mod names;
mod noted;
mod resolver;
mod scope;
mod sight;
mod statement;
mod walk;

pub use checker::{CheckRefusal, check, kind_difference};
pub use difference::{Difference, Plain, Shape};
pub use resolver::resolve;
