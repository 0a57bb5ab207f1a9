//! Tokens of the language, with their places in the text, and why a text is refused.
use crate::word::Word;
use std::alloc::{AllocError, AllocFailed};

/// A mark of the language.
#[derive(Clone, Copy, Debug, PartialEq, Eq)]
pub enum Mark {
    /// `:=`
    Assign,
    /// `:`
    Colon,
    /// `,`
    Comma,
    /// `.`
    Dot,
    /// `(`
    Open,
    /// `)`
    Close,
    /// `[`
    OpenList,
    /// `]`
    CloseList,
    /// `=`
    Equal,
    /// `<>`
    Different,
    /// `<`
    Less,
    /// `<=`
    LessEqual,
    /// `>`
    Greater,
    /// `>=`
    GreaterEqual,
    /// `+`
    Plus,
    /// `-`
    Minus,
    /// `&`
    Join,
    /// `*`
    Times,
    /// `/`
    Divide,
}

/// What a token is. The bytes of a name or a text are those at its place.
#[derive(Clone, Copy, Debug, PartialEq, Eq)]
pub enum TokenKind {
    /// A name that begins with A to Z.
    Upper,
    /// A name that begins with a to z and is no word.
    Lower,
    /// A number from 0 to `INT_LIMIT`.
    Int { n: u64 },
    /// A text in double quotes.
    Text,
    Mark { mark: Mark },
    Word { word: Word },
}

/// A token, and its bytes from `start` up to `end`, counted in the whole text from 0.
#[derive(Clone, Copy, Debug, PartialEq, Eq)]
pub struct Token {
    pub kind: TokenKind,
    pub start: u32,
    pub end: u32,
}

/// The greatest number that a text may write.
pub const INT_LIMIT: u64 = 9_223_372_036_854_775_807;

/// The most bytes of a name.
pub const NAME_LIMIT: usize = 32;

/// Why a text is refused, and where.
#[derive(Clone, Copy, Debug, PartialEq, Eq)]
pub enum ParseRefusal {
    /// The place of a byte with which no token begins, or of the first token that does not go on
    /// with the tokens before it, or the text's length.
    BadToken { place: u32 },
    /// The place of the first token whose depth is past the limit.
    TooDeep { place: u32 },
    OutOfMemory,
}

impl From<AllocError> for ParseRefusal {
    ghost use Rattle.std.specs.Prelude.{◌≡◌};
    ghost use Rattle.epl_syntax.specs.declared.token.ParseRefusal.TheVariants.{OutOfMemory};

    ghost from_gives = { λ _ e. e ≡ OutOfMemory };

    fn from(_: AllocError) -> ParseRefusal {
        ParseRefusal::OutOfMemory
    }
}

impl<T: Drop> From<AllocFailed<T>> for ParseRefusal {
    ghost use Rattle.std.specs.Prelude.{◌≡◌};
    ghost use Rattle.epl_syntax.specs.declared.token.ParseRefusal.TheVariants.{OutOfMemory};

    ghost from_gives = { λ _ e. e ≡ OutOfMemory };

    fn from(_: AllocFailed<T>) -> ParseRefusal {
        ParseRefusal::OutOfMemory
    }
}
