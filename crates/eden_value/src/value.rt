//! Values, and the small lists that they hold.
use capability::Cap;
use std::marker::Model;
use std::rc::Rc;

/// The greatest length of a text, in bytes.
pub const TEXT_LIMIT: usize = 1024;

/// The greatest number of values in a list.
pub const LIST_LIMIT: usize = 256;

/// How deep lists may nest. A value that is no list has depth 0, and a list has one more than its
/// deepest item, so an empty list has depth 1.
pub const DEPTH_LIMIT: u8 = 4;

/// A text. Contracts see it as the list of its bytes; `text_of` makes one of bytes from 0x20 to
/// 0x7E, at most `TEXT_LIMIT` of them.
#[derive(Drop)]
pub struct Txt {
    pub bytes: Rc<Vec<u8>>,
}

impl Model for Txt {
    ghost use Rattle.std.specs.Prelude.{ℕ, List};

    ghost Value = { List ℕ };

    ghost view = { λ t. t.bytes.value.items };
}

/// Values in a row: the arguments or results of an invocation, or variables.
///
/// Contracts see them as a list of plain data, in which no value of the code is left.
#[derive(Drop)]
pub struct Items {
    pub values: Vec<Value>,
}

impl Model for Items {
    ghost use Rattle.std.specs.Prelude.{List};
    ghost use Rattle.eden_value.specs.Datum.{Datum};
    ghost use Rattle.eden_value.specs.Code.{coded_items};

    ghost Value = { List Datum };

    ghost coded = { coded_items };

    ghost use Rattle.eden_value.specs.View.{datums};

    ghost view = { λ a. datums a.values.items };
}

/// The items of a list, which its copies share, and how deep lists nest in them, 255 where that is deeper.
#[derive(Drop)]
#[cycle(value)]
pub struct Listed {
    pub values: Rc<Vec<Value>>,
    pub depth: u8,
}

impl Model for Listed {
    ghost use Rattle.std.specs.Prelude.{List};
    ghost use Rattle.eden_value.specs.Datum.{Datum, weight_of};
    ghost use Rattle.eden_value.specs.Code.{coded_items};

    ghost Value = { List Datum };

    ghost coded = { coded_items };

    ghost use Rattle.eden_value.specs.View.{datums};

    ghost view = { λ a. datums a.values.value.items };

    ghost use Rattle.std.specs.Prelude.{◌≡◌, min};
    ghost use Rattle.eden_value.specs.Limits.{depth_of};

    ghost invariant = { λ a. a.depth ≡ min (depth_of (datums a.values.value.items)) 255 };

    ghost size = { weight_of };

    ghost use Rattle.eden_value.specs.Falls.{most_le-weight};

    ghost size_decreases = { λ a h. most_le-weight a.values.value.items };
}

/// A value: an integer of 64 bits, a truth value, a text, a capability or none, or a list of
/// values.
#[derive(Drop)]
#[cycle(value)]
pub enum Value {
    Int { n: i64 },
    Bool { b: bool },
    Text { text: Txt },
    Cap { cap: Option<Cap> },
    List { items: Listed },
}

/// Why a text or a list was not made.
#[derive(Clone, Copy, Debug, PartialEq, Eq)]
pub enum ValueRefusal {
    /// A byte of a text is outside 0x20 to 0x7E.
    BadByte,
    /// A text has more than `TEXT_LIMIT` bytes, or a list more than `LIST_LIMIT` values.
    TooLong,
    /// A list would be deeper than `DEPTH_LIMIT`.
    TooDeep,
    OutOfMemory,
}
