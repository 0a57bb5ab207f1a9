//! The forms of commands.

/// A command.
#[derive(Clone, Copy)]
pub enum Form {
    Nodes,
    Create,
    Hold,
    Call,
    Restrict,
    Walk,
    Turn,
    Go,
    Crash,
    Restart,
    Cut,
    Join,
    Fail,
    Stop,
    End,
}

/// What stands at one place of a form.
#[derive(Clone, Copy)]
pub enum Piece {
    /// This byte.
    Byte { b: u8 },
    /// A name that the line introduces.
    NewName,
    /// A name that a line before introduced, or a result of it.
    Reference,
    /// A name that begins with a capital letter.
    Upper,
    /// A number within its bounds.
    Number { low: u64, high: u64 },
    /// A number from 1 to the number of nodes.
    Node,
    /// A number from 0 to the number of nodes.
    Station,
    /// The values of a call, with the parenthesis behind them.
    Values,
    /// A text in quotes.
    Text,
    /// A mode, with the blank before it.
    Mode,
    /// A mode, or nothing.
    CrashMode,
}

const BLANK: Piece = Piece::Byte { b: b' ' };

const POINT: Piece = Piece::Byte { b: b'.' };

const COUNT: Piece = Piece::Number {
    low: 1,
    high: 1_000_000,
};

const LONG_COUNT: Piece = Piece::Number {
    low: 1,
    high: 4_294_967_295,
};

const NODES: [Piece; 2] = [BLANK, Piece::Number { low: 1, high: 8 }];

const CREATE: [Piece; 6] = [
    BLANK,
    Piece::NewName,
    BLANK,
    Piece::Node,
    BLANK,
    Piece::Upper,
];

const HOLD: [Piece; 8] = [
    BLANK,
    Piece::NewName,
    BLANK,
    Piece::Node,
    POINT,
    LONG_COUNT,
    POINT,
    LONG_COUNT,
];

const CALL: [Piece; 8] = [
    BLANK,
    Piece::NewName,
    BLANK,
    Piece::Reference,
    POINT,
    Piece::Upper,
    Piece::Byte { b: b'(' },
    Piece::Values,
];

const RESTRICT: [Piece; 6] = [
    BLANK,
    Piece::NewName,
    BLANK,
    Piece::Reference,
    BLANK,
    Piece::Number {
        low: 0,
        high: 65_535,
    },
];

const WALK: [Piece; 6] = [
    BLANK,
    Piece::NewName,
    BLANK,
    Piece::Reference,
    BLANK,
    Piece::Text,
];

const TURN: [Piece; 2] = [
    BLANK,
    Piece::Number {
        low: 0,
        high: 1_000_000,
    },
];

const GO: [Piece; 2] = [BLANK, COUNT];

const CRASH: [Piece; 3] = [BLANK, Piece::Node, Piece::CrashMode];

const RESTART: [Piece; 2] = [BLANK, Piece::Node];

const LINK: [Piece; 4] = [BLANK, Piece::Station, BLANK, Piece::Station];

const FAIL: [Piece; 4] = [BLANK, Piece::Node, BLANK, COUNT];

const STOP: [Piece; 5] = [BLANK, Piece::Node, BLANK, COUNT, Piece::Mode];

const END: [Piece; 0] = [];

/// What stands behind the word of a command, in order.
pub fn pieces_of(form: Form) -> &'static [Piece] {
    match form {
        Form::Nodes => &NODES,
        Form::Create => &CREATE,
        Form::Hold => &HOLD,
        Form::Call => &CALL,
        Form::Restrict => &RESTRICT,
        Form::Walk => &WALK,
        Form::Turn => &TURN,
        Form::Go => &GO,
        Form::Crash => &CRASH,
        Form::Restart => &RESTART,
        Form::Cut | Form::Join => &LINK,
        Form::Fail => &FAIL,
        Form::Stop => &STOP,
        Form::End => &END,
    }
}

const FORMS: [(&[u8], Form); 15] = [
    (b"nodes", Form::Nodes),
    (b"create", Form::Create),
    (b"hold", Form::Hold),
    (b"call", Form::Call),
    (b"restrict", Form::Restrict),
    (b"walk", Form::Walk),
    (b"turn", Form::Turn),
    (b"go", Form::Go),
    (b"crash", Form::Crash),
    (b"restart", Form::Restart),
    (b"cut", Form::Cut),
    (b"join", Form::Join),
    (b"fail", Form::Fail),
    (b"stop", Form::Stop),
    (b"end", Form::End),
];

fn find_form(table: &[(&[u8], Form)], word: &[u8]) -> Option<Form> {
    for entry in table {
        if word == entry.0 {
            return Some(entry.1);
        }
    }
    None
}

/// The command of a word.
pub fn form_of(word: &[u8]) -> Option<Form> {
    find_form(&FORMS, word)
}
