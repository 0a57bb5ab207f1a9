//! The words of the language, which are no names in it.
ghost use Rattle.std.specs.Prelude.{◌≡◌, map};
ghost use Rattle.epl_syntax.specs.Words.{word_in, word_of};

/// A word of the language. `Me` is spelled `self`, and each other one as it is called here.
#[derive(Clone, Copy, Debug, PartialEq, Eq)]
pub enum Word {
    Edentype,
    Endtype,
    Version,
    Class,
    Limit,
    Monitor,
    Condition,
    Operation,
    Needs,
    Returns,
    Process,
    Durable,
    Working,
    Var,
    Upgrade,
    From,
    End,
    Int,
    Bool,
    Text,
    Cap,
    List,
    Of,
    True,
    False,
    None,
    If,
    Then,
    Else,
    While,
    Do,
    With,
    Wait,
    Signal,
    Yield,
    Deactivate,
    Checkpoint,
    Destroy,
    Create,
    Invoke,
    Me,
    Status,
    Gives,
    Return,
    Or,
    And,
    Not,
    Mod,
    Size,
    Str,
    Put,
    Cut,
    Part,
    Restrict,
}

const WORDS: [(&[u8], Word); 54] = [
    (b"edentype", Word::Edentype),
    (b"endtype", Word::Endtype),
    (b"version", Word::Version),
    (b"class", Word::Class),
    (b"limit", Word::Limit),
    (b"monitor", Word::Monitor),
    (b"condition", Word::Condition),
    (b"operation", Word::Operation),
    (b"needs", Word::Needs),
    (b"returns", Word::Returns),
    (b"process", Word::Process),
    (b"durable", Word::Durable),
    (b"working", Word::Working),
    (b"var", Word::Var),
    (b"upgrade", Word::Upgrade),
    (b"from", Word::From),
    (b"end", Word::End),
    (b"int", Word::Int),
    (b"bool", Word::Bool),
    (b"text", Word::Text),
    (b"cap", Word::Cap),
    (b"list", Word::List),
    (b"of", Word::Of),
    (b"true", Word::True),
    (b"false", Word::False),
    (b"none", Word::None),
    (b"if", Word::If),
    (b"then", Word::Then),
    (b"else", Word::Else),
    (b"while", Word::While),
    (b"do", Word::Do),
    (b"with", Word::With),
    (b"wait", Word::Wait),
    (b"signal", Word::Signal),
    (b"yield", Word::Yield),
    (b"deactivate", Word::Deactivate),
    (b"checkpoint", Word::Checkpoint),
    (b"destroy", Word::Destroy),
    (b"create", Word::Create),
    (b"invoke", Word::Invoke),
    (b"self", Word::Me),
    (b"status", Word::Status),
    (b"gives", Word::Gives),
    (b"return", Word::Return),
    (b"or", Word::Or),
    (b"and", Word::And),
    (b"not", Word::Not),
    (b"mod", Word::Mod),
    (b"size", Word::Size),
    (b"str", Word::Str),
    (b"put", Word::Put),
    (b"cut", Word::Cut),
    (b"part", Word::Part),
    (b"restrict", Word::Restrict),
];

fn find_word(mut table: &[(&[u8], Word)], name: &[u8]) -> Option<Word>
    ensures { result ≡ word_in (map (λ k. (k.0.now, k.1)) table.entry.now) name.now }
{
    while let [entry, rest @ ..] = table {
        if name == entry.0 {
            return Some(entry.1);
        }
        table = rest;
    }
    None
}

/// The word that is spelled so.
pub(crate) fn word_of(name: &[u8]) -> Option<Word>
    ensures { result ≡ word_of name.now }
{
    find_word(&WORDS, name)
}
