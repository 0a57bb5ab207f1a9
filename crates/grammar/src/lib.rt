//! Exact readers of lists of symbols, for formats and languages.
//!
//! A grammar says which symbols spell a value. A reader goes over symbols from left to right. It is
//! exact for a grammar where it reads all that is spelled and nothing else, and stops at the first
//! symbol that no spelling has there. Sequences, choices and repetitions of exact readers are exact,
//! and so are readers of numbers of any width and bounds.
//!
//! The definitions and their laws stand in `specs/`. The code here is what readers of bytes share.
#![tactic(auto)]

mod halt;
mod law;
mod number;
mod stop;

pub use halt::Halt;
pub use law::numbers_have_one_spelling;
pub use number::number_of;
pub use stop::Stop;
