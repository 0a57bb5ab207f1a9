//! Scripts whose lines have forms that are data.
//!
//! A form is a word, numbers at their places behind it, and what the line ends with; a kind of script is the form of its first
//! line with those of the lines behind it (`specs/Forms.antt`). How a line is spelled by its form stands in
//! `specs/Spelling.antt`, why one is refused in `specs/Tests.antt`, and what the whole says in `specs/Scripts.antt`.
#![tactic(auto)]

mod ending;
mod form;
mod law;
mod line;
mod numbers;
mod script;

pub use form::{Bound, Ending, Form, Kind, Last, Mark, Place, Row};
pub use law::{rows_are_fit, scripts_are_one};
pub use script::{Rows, read_rows, row_at};
