//! Values that Ejects hold, send and keep, their kinds, and the statuses of what was asked.
#![tactic(auto)]

mod bytes;
mod kind;
mod limits;
mod printing;
mod shared;
mod status;
mod value;
mod walk;

pub use bytes::{is_name_byte, is_printable};
pub use kind::{Kind, has_kind};
pub use limits::{are_shallow, is_shallow, list_of, text_of};
pub use printing::print;
pub use shared::{listed, texted};
pub use status::Status;
pub use value::{DEPTH_LIMIT, Items, LIST_LIMIT, Listed, TEXT_LIMIT, Txt, Value, ValueRefusal};
pub use walk::{caps, copy, copy_items, equal, share};
