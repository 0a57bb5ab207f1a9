//! Traces: what the text of a history says of it, and which traces are the text of one.
#![tactic(auto)]

mod law;

pub use law::{
    a_beginning_has_an_ending, a_first_bad_line_is_shown, a_history_is_determined_by_its_text,
    a_trace_has_one_verdict, an_entry_is_determined_by_its_lines, an_entry_is_whole_lines,
};
