//! A mistake in a script.

use eden_script::ScriptCause;
use epl_check::Difference;
use epl_syntax::Rule;

/// Why the text of an Edentype declares no type.
#[derive(Clone, Copy, Debug, PartialEq, Eq)]
pub enum TypeFault {
    /// There are as many types before it as a script may declare.
    TooMany,
    /// No Edentype has this token behind the tokens before it, or no token begins here, or the text ends too soon.
    BadToken,
    /// The token stands too deep.
    TooDeep,
    /// The type breaks a rule; of kinds that differ, what was wanted and what is there.
    Broken {
        rule: Rule,
        difference: Option<Difference>,
    },
}

/// The first mistake in a script.
#[derive(Debug, Drop)]
pub struct Mistake {
    /// The first bad line, counted from 1.
    pub line: u32,
    /// The place on it, counted from 1 in bytes.
    pub column: u32,
    /// Why the line is bad.
    pub cause: ScriptCause,
    /// Of a type: why it is refused.
    pub fault: Option<TypeFault>,
    /// Of a token that no type goes on with: what may stand there, in words.
    pub wanted: Vec<&'static [u8]>,
}
