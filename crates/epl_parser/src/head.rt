//! What single tokens lead to.
ghost use Rattle.std.specs.Prelude.{◌≡◌};
ghost use Rattle.epl_parser.specs.WrittenKinds.{kind_head};
ghost use Rattle.epl_parser.specs.Heads.{operator_at, comparison, primary_head, constant_head, negated};

use epl_syntax::{Builtin, INT_LIMIT, Mark, Operator, TokenKind, Word};

/// What a kind begins with.
#[derive(Clone, Copy)]
pub(crate) enum KindHead {
    Int,
    Bool,
    Text,
    Cap,
    List,
}

#[tactic(auto, unfolding(crate::specs::WrittenKinds::kind_head))]
pub(crate) fn kind_head(kind: TokenKind) -> Option<KindHead>
    ensures { result ≡ kind_head kind }
{
    match kind {
        TokenKind::Word { word: Word::Int } => Some(KindHead::Int),
        TokenKind::Word { word: Word::Bool } => Some(KindHead::Bool),
        TokenKind::Word { word: Word::Text } => Some(KindHead::Text),
        TokenKind::Word { word: Word::Cap } => Some(KindHead::Cap),
        TokenKind::Word { word: Word::List } => Some(KindHead::List),
        _ => None,
    }
}

/// Operators that group to the left, from the loosest to the closest.
#[derive(Clone, Copy)]
pub(crate) enum Level {
    Or,
    And,
    Sum,
    Term,
}

/// What an operand begins with, behind its prefixes.
#[derive(Clone, Copy)]
pub(crate) enum PrimaryHead {
    Int { n: i64 },
    Text,
    Bool { b: bool },
    Absent,
    Me,
    Name,
    Parens,
    List,
    EmptyList,
    Apply { builtin: Builtin },
}

/// What the constant of a declaration begins with.
#[derive(Clone, Copy)]
pub(crate) enum ConstantHead {
    Int { n: i64 },
    Minus,
    Text,
    Bool { b: bool },
    Absent,
    EmptyList,
}

/// The operator of a level that a token is.
#[tactic(auto, unfolding(crate::specs::Heads::operator_at))]
pub(crate) fn operator_at(level: Level, kind: TokenKind) -> Option<Operator>
    ensures { result ≡ operator_at level kind }
{
    match (level, kind) {
        (Level::Or, TokenKind::Word { word: Word::Or }) => Some(Operator::Or),
        (Level::And, TokenKind::Word { word: Word::And }) => Some(Operator::And),
        (Level::Sum, TokenKind::Mark { mark: Mark::Plus }) => Some(Operator::Add),
        (Level::Sum, TokenKind::Mark { mark: Mark::Minus }) => Some(Operator::Subtract),
        (Level::Sum, TokenKind::Mark { mark: Mark::Join }) => Some(Operator::Join),
        (Level::Term, TokenKind::Mark { mark: Mark::Times }) => Some(Operator::Multiply),
        (Level::Term, TokenKind::Mark { mark: Mark::Divide }) => Some(Operator::Divide),
        (Level::Term, TokenKind::Word { word: Word::Mod }) => Some(Operator::Modulo),
        _ => None,
    }
}

#[tactic(auto, unfolding(crate::specs::Heads::comparison))]
pub(crate) fn comparison(kind: TokenKind) -> Option<Operator>
    ensures { result ≡ comparison kind }
{
    match kind {
        TokenKind::Mark { mark: Mark::Equal } => Some(Operator::Equal),
        TokenKind::Mark {
            mark: Mark::Different,
        } => Some(Operator::Different),
        TokenKind::Mark { mark: Mark::Less } => Some(Operator::Less),
        TokenKind::Mark {
            mark: Mark::LessEqual,
        } => Some(Operator::LessEqual),
        TokenKind::Mark {
            mark: Mark::Greater,
        } => Some(Operator::Greater),
        TokenKind::Mark {
            mark: Mark::GreaterEqual,
        } => Some(Operator::GreaterEqual),
        _ => None,
    }
}

#[tactic(auto, unfolding(crate::specs::Heads::primary_head))]
pub(crate) fn primary_head(kind: TokenKind) -> Option<PrimaryHead>
    ensures { result ≡ primary_head kind }
{
    match kind {
        TokenKind::Int { n } if n <= INT_LIMIT => Some(PrimaryHead::Int { n: n as i64 }),
        TokenKind::Text => Some(PrimaryHead::Text),
        TokenKind::Lower => Some(PrimaryHead::Name),
        TokenKind::Word { word: Word::True } => Some(PrimaryHead::Bool { b: true }),
        TokenKind::Word { word: Word::False } => Some(PrimaryHead::Bool { b: false }),
        TokenKind::Word { word: Word::None } => Some(PrimaryHead::Absent),
        TokenKind::Word { word: Word::Me } => Some(PrimaryHead::Me),
        TokenKind::Mark { mark: Mark::Open } => Some(PrimaryHead::Parens),
        TokenKind::Mark {
            mark: Mark::OpenList,
        } => Some(PrimaryHead::List),
        TokenKind::Word { word: Word::List } => Some(PrimaryHead::EmptyList),
        TokenKind::Word { word: Word::Size } => Some(PrimaryHead::Apply {
            builtin: Builtin::Size,
        }),
        TokenKind::Word { word: Word::Str } => Some(PrimaryHead::Apply {
            builtin: Builtin::Str,
        }),
        TokenKind::Word { word: Word::Put } => Some(PrimaryHead::Apply {
            builtin: Builtin::Put,
        }),
        TokenKind::Word { word: Word::Cut } => Some(PrimaryHead::Apply {
            builtin: Builtin::Cut,
        }),
        TokenKind::Word { word: Word::Part } => Some(PrimaryHead::Apply {
            builtin: Builtin::Part,
        }),
        TokenKind::Word {
            word: Word::Restrict,
        } => Some(PrimaryHead::Apply {
            builtin: Builtin::Restrict,
        }),
        _ => None,
    }
}

#[tactic(auto, unfolding(crate::specs::Heads::constant_head))]
pub(crate) fn constant_head(kind: TokenKind) -> Option<ConstantHead>
    ensures { result ≡ constant_head kind }
{
    match kind {
        TokenKind::Int { n } if n <= INT_LIMIT => Some(ConstantHead::Int { n: n as i64 }),
        TokenKind::Mark { mark: Mark::Minus } => Some(ConstantHead::Minus),
        TokenKind::Text => Some(ConstantHead::Text),
        TokenKind::Word { word: Word::True } => Some(ConstantHead::Bool { b: true }),
        TokenKind::Word { word: Word::False } => Some(ConstantHead::Bool { b: false }),
        TokenKind::Word { word: Word::None } => Some(ConstantHead::Absent),
        TokenKind::Word { word: Word::List } => Some(ConstantHead::EmptyList),
        _ => None,
    }
}

/// The number that INT makes behind a minus.
#[tactic(auto, unfolding(crate::specs::Heads::negated))]
pub(crate) fn negated(kind: TokenKind) -> Option<i64>
    ensures { result ≡ negated kind }
{
    match kind {
        TokenKind::Int { n } if n <= INT_LIMIT => Some(-(n as i64)),
        _ => None,
    }
}
