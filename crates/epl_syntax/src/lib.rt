//! Types of Ejects: the language in which they are written, the effects of a process's turn and the answers to them, and
//! what a type means.
//!
//! What a type means stands in `specs/Meaning.antt`: its name and version, which representations it starts from, and a
//! turn of a process as one definition.
#![tactic(auto)]

mod binding;
mod checked;
mod effect;
mod law;
mod lexer;
mod rule;
mod text;
mod token;
mod tree;
mod types;
mod word;

pub use binding::{Binding, binding_at};
pub use checked::Checked;
pub use effect::{Answer, Effect, FaultCause};
pub use law::{
    filters_make_their_functions, tokens_are_one, types_keep_monitors, types_make_no_capabilities,
};
pub use lexer::{leading_tokens, tokens};
pub use rule::{Broken, Rule};
pub use text::{is_called, same_text};
pub use token::{INT_LIMIT, Mark, NAME_LIMIT, ParseRefusal, Token, TokenKind};
pub use tree::{
    Assignment, Builtin, ClassDecl, CondDecl, Const, Expr, LocalDecl, Name, Number, OpDecl,
    Operator, ParDecl, Prefix, ProcDecl, Program, Start, Stmt, Target, UpgradeDecl, VarDecl,
    WrittenKind,
};
pub use types::{Native, Types};
pub use word::Word;
