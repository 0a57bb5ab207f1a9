//! The native types as tables: their names, variables and operations.
ghost use Rattle.std.specs.Prelude.{◌≡◌, map};
ghost use Rattle.epl_syntax.specs.Natives as natives;
ghost use Rattle.transput.specs.View.{native_of};
ghost use Rattle.edentypes.specs.Forms.{slot_of, operation_of, IsStreamOf};

use crate::kinds::Plain;
use epl_syntax::Native;
use transput::Stream;

/// The version of each native type.
pub(crate) const NATIVE_VERSION: u16 = 1;

/// What a variable of a native type holds at first.
#[derive(Clone, Copy, Debug, PartialEq, Eq)]
pub(crate) enum First {
    Zero,
    False,
    True,
    NoText,
    NoCap,
    NoItems,
}

/// A variable of a native type. The durable ones are kept by a checkpoint.
#[derive(Clone, Copy, Debug, PartialEq, Eq)]
pub(crate) struct Slot {
    pub first: First,
    pub kind: Plain,
    pub durable: bool,
}

/// An operation of a native type: the rights that its caller needs as bits, and the kinds of its arguments.
#[derive(Clone, Copy)]
pub(crate) struct Operation {
    pub name: &'static [u8],
    pub needs: u16,
    pub params: &'static [Plain],
}

const NUMBER: Slot = Slot {
    first: First::Zero,
    kind: Plain::Int,
    durable: true,
};

const TEXT: Slot = Slot {
    first: First::NoText,
    kind: Plain::Text,
    durable: true,
};

const SOURCE: Slot = Slot {
    first: First::NoCap,
    kind: Plain::Cap,
    durable: true,
};

const TEXTS: Slot = Slot {
    first: First::NoItems,
    kind: Plain::Texts,
    durable: true,
};

const CAPS: Slot = Slot {
    first: First::NoItems,
    kind: Plain::Caps,
    durable: true,
};

const FILLED: Slot = Slot {
    first: First::False,
    kind: Plain::Bool,
    durable: true,
};

const SAVED: Slot = Slot {
    first: First::True,
    kind: Plain::Bool,
    durable: false,
};

const CELL_SLOTS: [Slot; 1] = [NUMBER];

const DIRECTORY_SLOTS: [Slot; 2] = [TEXTS, CAPS];

const LINES_SLOTS: [Slot; 3] = [FILLED, TEXTS, SAVED];

const COUNTING_SLOTS: [Slot; 6] = [SOURCE, NUMBER, NUMBER, NUMBER, TEXT, SAVED];

const ONLY_SLOTS: [Slot; 6] = [SOURCE, TEXT, NUMBER, NUMBER, TEXT, SAVED];

const NUMBERING_SLOTS: [Slot; 5] = [SOURCE, NUMBER, NUMBER, TEXT, SAVED];

const SINK_SLOTS: [Slot; 3] = [SOURCE, TEXTS, SAVED];

const CELL_OPERATIONS: [Operation; 5] = [
    Operation {
        name: b"Set",
        needs: 1,
        params: &[Plain::Int],
    },
    Operation {
        name: b"Get",
        needs: 2,
        params: &[],
    },
    Operation {
        name: b"Save",
        needs: 4,
        params: &[],
    },
    Operation {
        name: b"Sleep",
        needs: 8,
        params: &[],
    },
    Operation {
        name: b"Kill",
        needs: 16,
        params: &[],
    },
];

const DIRECTORY_OPERATIONS: [Operation; 4] = [
    Operation {
        name: b"AddEntry",
        needs: 1,
        params: &[Plain::Text, Plain::Cap],
    },
    Operation {
        name: b"LookUp",
        needs: 2,
        params: &[Plain::Text],
    },
    Operation {
        name: b"DeleteEntry",
        needs: 4,
        params: &[Plain::Text],
    },
    Operation {
        name: b"List",
        needs: 8,
        params: &[],
    },
];

const LINES_OPERATIONS: [Operation; 2] = [
    Operation {
        name: b"Fill",
        needs: 1,
        params: &[Plain::Texts],
    },
    Operation {
        name: b"Transfer",
        needs: 2,
        params: &[Plain::Int],
    },
];

const COUNTING_OPERATIONS: [Operation; 2] = [
    Operation {
        name: b"Open",
        needs: 1,
        params: &[Plain::Cap, Plain::Int],
    },
    Operation {
        name: b"Transfer",
        needs: 2,
        params: &[Plain::Int],
    },
];

const ONLY_OPERATIONS: [Operation; 2] = [
    Operation {
        name: b"Open",
        needs: 1,
        params: &[Plain::Cap, Plain::Text],
    },
    Operation {
        name: b"Transfer",
        needs: 2,
        params: &[Plain::Int],
    },
];

const NUMBERING_OPERATIONS: [Operation; 2] = [
    Operation {
        name: b"Open",
        needs: 1,
        params: &[Plain::Cap],
    },
    Operation {
        name: b"Transfer",
        needs: 2,
        params: &[Plain::Int],
    },
];

const SINK_OPERATIONS: [Operation; 3] = [
    Operation {
        name: b"Open",
        needs: 1,
        params: &[Plain::Cap],
    },
    Operation {
        name: b"Pump",
        needs: 2,
        params: &[Plain::Int],
    },
    Operation {
        name: b"Read",
        needs: 4,
        params: &[],
    },
];

/// The name of a native type.
pub(crate) fn name_of(native: Native) -> &'static [u8]
    ensures { result.now ≡ natives.native_name native }
{
    match native {
        Native::Cell => b"Cell",
        Native::Directory => b"Directory",
        Native::Lines => b"Lines",
        Native::Take => b"Take",
        Native::Skip => b"Skip",
        Native::Only => b"Only",
        Native::Number => b"Number",
        Native::Sink => b"Sink",
    }
}

/// The variables of a native type, in order.
pub(crate) fn slots_of(native: Native) -> &'static [Slot]
    ensures { map slot_of result.now ≡ (natives.native_outline native).slots }
{
    match native {
        Native::Cell => &CELL_SLOTS,
        Native::Directory => &DIRECTORY_SLOTS,
        Native::Lines => &LINES_SLOTS,
        Native::Take => &COUNTING_SLOTS,
        Native::Skip => &COUNTING_SLOTS,
        Native::Only => &ONLY_SLOTS,
        Native::Number => &NUMBERING_SLOTS,
        Native::Sink => &SINK_SLOTS,
    }
}

/// The operations of a native type, in order.
pub(crate) fn operations_of(native: Native) -> &'static [Operation]
    ensures { map operation_of result.now ≡ (natives.native_outline native).operations }
{
    match native {
        Native::Cell => &CELL_OPERATIONS,
        Native::Directory => &DIRECTORY_OPERATIONS,
        Native::Lines => &LINES_OPERATIONS,
        Native::Take => &COUNTING_OPERATIONS,
        Native::Skip => &COUNTING_OPERATIONS,
        Native::Only => &ONLY_OPERATIONS,
        Native::Number => &NUMBERING_OPERATIONS,
        Native::Sink => &SINK_OPERATIONS,
    }
}

/// The stream type that a native type is. Of Cell and Directory, which are none, it is never asked.
pub(crate) fn stream_of(native: Native) -> Stream
    ensures { IsStreamOf native (native_of result) }
{
    match native {
        Native::Cell => Stream::Take,
        Native::Directory => Stream::Take,
        Native::Lines => Stream::Lines,
        Native::Take => Stream::Take,
        Native::Skip => Stream::Skip,
        Native::Only => Stream::Only,
        Native::Number => Stream::Number,
        Native::Sink => Stream::Sink,
    }
}
