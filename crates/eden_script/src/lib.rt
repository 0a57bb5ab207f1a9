//! Scripts: what a person gives the program.
//!
//! A script is cut into parts, which are lines and the texts of Edentypes (`specs/Parts.antt`). Which bytes spell which line
//! stands in `specs/Grammar.antt`, why a part is refused in `specs/Causes.antt`, and what the whole says in
//! `specs/Script.antt`.
#![tactic(auto)]

mod command;
mod cut;
mod declared;
mod flaw;
mod law;
mod line;
mod names;
mod parse;
mod part;

pub use law::a_script_is_fit;
pub use parse::{one_reading, parse_script};
pub use script_words::{ScriptCause, ScriptRefusal, read_value};
