//! The parser of the language in which types of Ejects are written.
//!
//! Which tokens spell which type, and at which depth each token stands, is the grammar in `specs/`: kinds, constants,
//! expressions, statements and items, a file each. What is answered for a whole text stands in `specs/Program.antt`.
#![tactic(auto)]

mod build;
mod collect;
mod constant_parser;
mod expression_parser;
mod head;
mod item;
mod kind_parser;
mod law;
mod lists;
mod parens;
mod program;
mod reading;
mod statement;

pub use law::{
    conditions_are_in_monitors, constants_are_values, refusals_are_one, types_are_named,
    types_are_one,
};
pub use program::parse_edentype;
