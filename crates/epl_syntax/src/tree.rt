//! The tree of a declared type. It follows the grammar; places are those of first tokens.
use crate::binding::Binding;
use eden_value::{Kind, Txt};

/// A name as it is written.
#[derive(Drop)]
pub struct Name {
    pub text: Txt,
    pub place: u32,
}

/// A number as it is written, from 0 to `INT_LIMIT`.
#[derive(Clone, Copy, Debug, PartialEq, Eq)]
pub struct Number {
    pub n: u64,
    pub place: u32,
}

/// A kind as it is written.
#[derive(Drop)]
pub struct WrittenKind {
    pub kind: Kind,
    pub place: u32,
}

/// A constant: a number, which may be negative where a variable starts with it, a text, a truth
/// value, the absent capability, or the empty list of items of a kind.
#[derive(Drop)]
pub enum Const {
    Int { n: i64 },
    Text { text: Txt },
    Bool { b: bool },
    Absent,
    EmptyList { of: WrittenKind },
}

/// An operator before its operand.
#[derive(Clone, Copy, Debug, PartialEq, Eq)]
pub enum Prefix {
    Not,
    Negate,
}

/// An operator between its operands.
#[derive(Clone, Copy, Debug, PartialEq, Eq)]
pub enum Operator {
    Or,
    And,
    Equal,
    Different,
    Less,
    LessEqual,
    Greater,
    GreaterEqual,
    Add,
    Subtract,
    Join,
    Multiply,
    Divide,
    Modulo,
}

/// What is applied to arguments in parentheses.
#[derive(Clone, Copy, Debug, PartialEq, Eq)]
pub enum Builtin {
    Size,
    Str,
    Put,
    Cut,
    Part,
    Restrict,
}

/// An expression, with the place of its first token. One in parentheses has the place of the
/// expression inside.
#[derive(Drop)]
#[cycle(expr)]
pub enum Expr {
    Const {
        value: Const,
        place: u32,
    },
    Name {
        name: Name,
    },
    /// `self`
    Me {
        place: u32,
    },
    Unary {
        prefix: Prefix,
        of: Box<Expr>,
        place: u32,
    },
    Binary {
        operator: Operator,
        left: Box<Expr>,
        right: Box<Expr>,
        place: u32,
    },
    /// `of[at]`
    Index {
        of: Box<Expr>,
        at: Box<Expr>,
        place: u32,
    },
    /// `[items]`, at least one
    ListOf {
        items: Vec<Expr>,
        place: u32,
    },
    /// A built-in function and its arguments, at least one
    Apply {
        builtin: Builtin,
        args: Vec<Expr>,
        place: u32,
    },
}

/// Whom an invocation is sent to.
#[derive(Drop)]
pub enum Target {
    Name { name: Name },
    Me { place: u32 },
}

/// A statement, with the place of its first token.
#[derive(Drop)]
#[cycle(stmt)]
pub enum Stmt {
    Assign {
        name: Name,
        value: Expr,
    },
    If {
        test: Expr,
        so: Vec<Stmt>,
        otherwise: Vec<Stmt>,
        place: u32,
    },
    While {
        test: Expr,
        body: Vec<Stmt>,
        place: u32,
    },
    With {
        monitor: Name,
        body: Vec<Stmt>,
        place: u32,
    },
    Wait {
        condition: Name,
        place: u32,
    },
    Signal {
        condition: Name,
        place: u32,
    },
    Yield {
        place: u32,
    },
    Deactivate {
        place: u32,
    },
    Checkpoint {
        status: Name,
        place: u32,
    },
    Destroy {
        status: Name,
        place: u32,
    },
    Create {
        type_name: Name,
        status: Name,
        gives: Name,
        place: u32,
    },
    /// Without `gives`, no results are wanted, and the list is empty.
    Invoke {
        target: Target,
        operation: Name,
        args: Vec<Expr>,
        status: Name,
        gives: Vec<Name>,
        place: u32,
    },
    Return {
        results: Vec<Expr>,
        place: u32,
    },
}

/// What a variable holds at first.
#[derive(Drop)]
pub struct Start {
    pub value: Const,
    pub place: u32,
}

/// A variable of the type: it stands in the monitor of this number, counted from 1, or in none,
/// which is 0. The durable ones are kept by a checkpoint.
#[derive(Drop)]
pub struct VarDecl {
    pub name: Name,
    pub kind: WrittenKind,
    pub durable: bool,
    pub start: Start,
    pub monitor: u32,
}

/// A variable of one operation or process.
#[derive(Drop)]
pub struct LocalDecl {
    pub name: Name,
    pub kind: WrittenKind,
    pub start: Start,
}

/// A parameter of an operation or an upgrade.
#[derive(Drop)]
pub struct ParDecl {
    pub name: Name,
    pub kind: WrittenKind,
}

/// A class of operations: at most so many of them run at a time.
#[derive(Drop)]
pub struct ClassDecl {
    pub name: Name,
    pub limit: Number,
}

/// A condition of the monitor of this number, counted from 1.
#[derive(Drop)]
pub struct CondDecl {
    pub name: Name,
    pub monitor: u32,
}

/// An operation: the rights that its caller needs, and its class as it is written.
#[derive(Drop)]
pub struct OpDecl {
    pub name: Name,
    pub needs: Number,
    pub class: Name,
    pub params: Vec<ParDecl>,
    pub results: Vec<WrittenKind>,
    pub locals: Vec<LocalDecl>,
    pub body: Vec<Stmt>,
}

/// A process that starts with each active part.
#[derive(Drop)]
pub struct ProcDecl {
    pub name: Name,
    pub locals: Vec<LocalDecl>,
    pub body: Vec<Stmt>,
}

/// One assignment of an upgrade.
#[derive(Drop)]
pub struct Assignment {
    pub name: Name,
    pub value: Expr,
}

/// How the durable values of an earlier version become those of this one.
#[derive(Drop)]
pub struct UpgradeDecl {
    pub from: Number,
    pub params: Vec<ParDecl>,
    pub assignments: Vec<Assignment>,
    pub place: u32,
}

/// A declared type, as its text spells it. Without `version` it has version 1. Each list is in the order of the text.
/// Beside the tree stands what its names stand for: `bindings` has one for each place of the text up to its own end.
#[derive(Drop)]
pub struct Program {
    pub name: Name,
    pub version: Option<Number>,
    pub vars: Vec<VarDecl>,
    pub classes: Vec<ClassDecl>,
    pub monitors: Vec<Name>,
    pub conditions: Vec<CondDecl>,
    pub operations: Vec<OpDecl>,
    pub processes: Vec<ProcDecl>,
    pub upgrades: Vec<UpgradeDecl>,
    pub bindings: Vec<Binding>,
}
