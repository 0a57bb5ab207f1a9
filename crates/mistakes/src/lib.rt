//! What is wrong with a script, and where: the first bad line, its cause, the place on the line, and what was wanted there.
//!
//! What an answer says stands in `specs/Answers.antt`, where a type is refused in `specs/TypePlaces.antt`, the places on a line in
//! `specs/Columns.antt`, and the words of an answer in `specs/Words.antt`.
#![tactic(auto)]

mod bad_type;
mod before;
mod column;
mod cut;
mod declared;
mod differing;
mod find;
mod form;
mod mistake;
mod pieces;
mod text;
mod told;
mod values;
mod wanted;

pub use find::first_mistake;
pub use mistake::{Mistake, TypeFault};
pub use text::text_of;
