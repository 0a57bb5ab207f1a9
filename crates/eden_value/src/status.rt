//! How an invocation, a creation, a checkpoint or a destroy was answered.
ghost use Rattle.std.specs.Prelude.{◌≡◌};
ghost use Rattle.eden_value.specs.Status.{status_number, status_word};

/// The answer to what was asked, with a number from 0 to 14 and a word.
#[derive(Clone, Copy, Debug, PartialEq, Eq)]
pub enum Status {
    /// The operation returned.
    Ok,
    /// The operation's mask is not within the capability's rights.
    NoRight,
    /// The type has no operation of that name.
    NoOperation,
    /// The number or the kinds of the arguments differ from the declaration.
    BadArguments,
    /// The target is neither active nor kept.
    Gone,
    /// The link is cut, or the target's node is not up.
    Unreachable,
    /// The link was cut or the target's node crashed before the reply was delivered.
    Broken,
    /// The disk failed in what was asked. A change of what is kept may have been made all the same.
    StoreFault,
    /// The bytes that are kept are no representation that fits a type.
    Damaged,
    /// The target lost its active part.
    Dropped,
    /// The target's queue was full.
    Busy,
    /// The arguments, the results or the representation are longer than their limit.
    TooLarge,
    /// The store has no room.
    Full,
    /// The node has as many Ejects as it may have.
    TooMany,
    /// The node gave its last serial.
    SerialsSpent,
}

impl Status {
    /// The number that stands in answers and printed lines.
    pub fn number(self) -> u8
        ensures { result ≡ status_number self }
    {
        match self {
            Status::Ok => 0,
            Status::NoRight => 1,
            Status::NoOperation => 2,
            Status::BadArguments => 3,
            Status::Gone => 4,
            Status::Unreachable => 5,
            Status::Broken => 6,
            Status::StoreFault => 7,
            Status::Damaged => 8,
            Status::Dropped => 9,
            Status::Busy => 10,
            Status::TooLarge => 11,
            Status::Full => 12,
            Status::TooMany => 13,
            Status::SerialsSpent => 14,
        }
    }

    /// The word that stands in printed lines.
    pub fn word(self) -> &'static str
        ensures { result.now ≡ status_word self }
    {
        match self {
            Status::Ok => "ok",
            Status::NoRight => "no right",
            Status::NoOperation => "no operation",
            Status::BadArguments => "bad arguments",
            Status::Gone => "gone",
            Status::Unreachable => "unreachable",
            Status::Broken => "broken",
            Status::StoreFault => "store fault",
            Status::Damaged => "damaged",
            Status::Dropped => "dropped",
            Status::Busy => "busy",
            Status::TooLarge => "too large",
            Status::Full => "full",
            Status::TooMany => "too many",
            Status::SerialsSpent => "serials spent",
        }
    }
}
