//! What a process's turn ends in, and what its next turn is told.
use capability::Cap;
use eden_value::{Items, Status, Txt};

/// Why a process faults. A fault removes the active part of the whole Eject.
#[derive(Clone, Copy, Debug, PartialEq, Eq)]
pub enum FaultCause {
    /// A result leaves 64 bits.
    Overflow,
    ZeroDivisor,
    /// An index or a part lies outside its list or text.
    BadIndex,
    /// A reply has other results than the invocation takes.
    BadKind,
    /// A text or a list is past its limit.
    TooLong,
    /// A list is deeper than its limit.
    TooDeep,
    /// A mask of rights is outside 0 to 65,535.
    BadMask,
    /// The absent capability was invoked.
    NoCapability,
    /// The last statement of an operation was passed without a return.
    NoReturn,
    /// One turn would run its 10,001st statement.
    Budget,
}

/// What a turn ends in. Conditions are counted from 0, and monitors from 1.
#[derive(Drop)]
pub enum Effect {
    Invoke {
        target: Cap,
        operation: Txt,
        args: Items,
    },
    Return {
        results: Items,
    },
    Checkpoint,
    Deactivate,
    Destroy,
    Create {
        type_name: Txt,
    },
    Lock {
        monitor: u8,
    },
    Leave {
        monitor: u8,
    },
    Wait {
        condition: u8,
    },
    Signal {
        condition: u8,
    },
    Yield,
    /// The process has nothing left to do.
    End,
    Fault {
        cause: FaultCause,
    },
}

/// What the next turn is told.
#[derive(Drop)]
pub enum Answer {
    /// After any other effect, and at the begin.
    Go,
    /// After an invocation.
    Reply { status: Status, results: Items },
    /// After a checkpoint or a destroy.
    Code { status: Status },
    /// After a creation. The capability is there exactly where the status is `Ok`.
    Created { status: Status, cap: Option<Cap> },
}
