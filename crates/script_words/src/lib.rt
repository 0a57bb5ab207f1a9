//! Words, numbers, texts, values and modes on a line of a script, and how bytes are cut into lines.
//!
//! How each is spelled stands in `specs/Grammar.antt`, the ranges of numbers in `specs/Causes.antt`, and in `specs/Alone.antt` what a value
//! alone is.
#![tactic(auto)]

mod alone;
mod cause;
mod cut;
mod modes;
mod reader;
mod value;

pub use alone::read_value;
pub use cause::{ScriptCause, ScriptRefusal};
pub use cut::{all_printable, first_line, first_word, is_idle};
pub use modes::{crash_mode, mode, mode_in_range, same_number};
pub use reader::{
    Fault, Piece, behind, digits, digits_and, end, is_upper, last_digits, lower_and_blank,
    name_length, two_digits, up_to, upper, within, word,
};
pub use value::{FoundValues, RefWords, quoted, reference, reference_words, txt, values};
