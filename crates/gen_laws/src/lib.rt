//! Whatever the number, its text is a script.
#![tactic(auto)]

mod law;

pub use law::every_number_has_a_script;
