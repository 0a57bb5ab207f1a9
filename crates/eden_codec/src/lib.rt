//! Representations of Ejects as bytes.
//!
//! A representation is what survives a crash: the name and the version of an Eject's type, and its
//! durable values. Each has one spelling. All numbers have the highest byte first.
#![tactic(auto)]

mod decode;
mod encode;
mod field;
mod law;
mod rep;
mod size;
mod tag;
mod value;

pub use decode::{DecodeRefusal, decode_rep};
pub use encode::{EncodeRefusal, encode_rep};
pub use law::each_rep_has_one_spelling;
pub use rep::Rep;
pub use size::values_size;
