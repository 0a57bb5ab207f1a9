//! Values of the variables that a process sees, and of expressions.
#![tactic(auto)]

mod assignment;
mod builtin;
mod by_name;
mod constant;
mod expression;
mod named;
mod numbers;
mod operator;
mod stop;
mod variables;

pub use assignment::assign;
pub use constant::value_of_constant;
pub use expression::{copy_named, value_of, values_of};
pub use named::{Kinded, Named, place_of};
pub use stop::Stop;
pub use variables::{Owner, Variables, kind_named, set, value_named};
