//! Reading single tokens: marks, words, names and numbers at a depth.
ghost use Rattle.std.specs.Prelude.{◌≡◌, ◌≤◌, ◌^◌, IfOk, drop, take};
ghost use Rattle.grammar.specs.Tells.{Tells};
ghost use Rattle.epl_parser.specs.OneToken.{bytes_at, name_at, the_mark, the_word, the_lower, the_upper, the_number};
ghost use Rattle.epl_parser.specs.OneToken.{peeked, take_found, look_one, number_behind};

use eden_value::{Txt, texted};
use epl_syntax::{Mark, Name, Number, Token, TokenKind, Word};
use grammar::Halt;
use std::alloc::{AllocError, Global};

/// The greatest depth of a token.
pub(crate) const DEPTH_LIMIT: u32 = 32;

/// What every part of the parser reads from: the text whose tokens are read, and how many turns a
/// loop may take, which is more than there can be tokens. So no loop takes them all.
#[derive(Clone, Copy)]
pub(crate) struct Source<'a> {
    pub(crate) alloc: Global,
    pub(crate) text: &'a [u8],
    pub(crate) turns: usize,
    pub(crate) ghost enough: { 2 ^ 63 ≤ turns },
}

/// The first token's value, and the tokens behind it.
pub(crate) fn take_found<T: Copy>(
    depth: u32,
    found: Option<T>,
    tokens: &[Token],
) -> Result<(T, &[Token]), Halt>
    ensures tells { Tells (λ x. (x.0, x.1.now)) result (take_found depth found tokens.now) }
    ensures fits { IfOk result (λ x. depth ≤ 32) }
{
    let Some((_, rest)) = tokens.split_first() else {
        return Err(Halt::Bad { left: 0 });
    };
    let Some(value) = found else {
        return Err(Halt::Bad { left: tokens.len() });
    };
    if depth > DEPTH_LIMIT {
        return Err(Halt::Deep { left: tokens.len() });
    }
    Ok((value, rest))
}

#[tactic(auto, unfolding(crate::specs::OneToken::the_mark))]
pub(crate) fn is_mark(mark: Mark, token: Token) -> Option<Token>
    ensures { result ≡ the_mark mark token }
{
    match token.kind {
        TokenKind::Mark { mark: found } if found == mark => Some(token),
        _ => None,
    }
}

#[tactic(auto, unfolding(crate::specs::OneToken::the_word))]
pub(crate) fn is_word(word: Word, token: Token) -> Option<Token>
    ensures { result ≡ the_word word token }
{
    match token.kind {
        TokenKind::Word { word: found } if found == word => Some(token),
        _ => None,
    }
}

#[tactic(auto, unfolding(crate::specs::OneToken::the_number))]
pub(crate) fn is_number(token: Token) -> Option<Number>
    ensures { result ≡ the_number token }
{
    match token.kind {
        TokenKind::Int { n } => Some(Number {
            n,
            place: token.start,
        }),
        _ => None,
    }
}

/// The first token, where it is this mark.
pub(crate) fn peek_mark(mark: Mark, tokens: &[Token]) -> Option<Token>
    ensures { result ≡ peeked (the_mark mark) tokens.now }
{
    is_mark(mark, *tokens.first()?)
}

/// The first token, where it is this word.
pub(crate) fn peek_word(word: Word, tokens: &[Token]) -> Option<Token>
    ensures { result ≡ peeked (the_word word) tokens.now }
{
    is_word(word, *tokens.first()?)
}

/// This mark, and the tokens behind it.
#[tactic(auto, using(crate::proofs::Steps::take_is_look))]
pub(crate) fn take_mark(mark: Mark, depth: u32, tokens: &[Token]) -> Result<(Token, &[Token]), Halt>
    ensures tells { Tells (λ x. (x.0, x.1.now)) result (look_one depth (the_mark mark) tokens.now) }
    ensures fits { IfOk result (λ x. depth ≤ 32) }
{
    take_found(depth, peek_mark(mark, tokens), tokens)
}

/// This word, and the tokens behind it.
#[tactic(auto, using(crate::proofs::Steps::take_is_look))]
pub(crate) fn take_word(word: Word, depth: u32, tokens: &[Token]) -> Result<(Token, &[Token]), Halt>
    ensures tells { Tells (λ x. (x.0, x.1.now)) result (look_one depth (the_word word) tokens.now) }
    ensures fits { IfOk result (λ x. depth ≤ 32) }
{
    take_found(depth, peek_word(word, tokens), tokens)
}

/// A number, and the tokens behind it.
#[tactic(auto, using(crate::proofs::Steps::take_is_look))]
pub(crate) fn take_number(depth: u32, tokens: &[Token]) -> Result<(Number, &[Token]), Halt>
    ensures tells { Tells (λ x. (x.0, x.1.now)) result (look_one depth the_number tokens.now) }
    ensures fits { IfOk result (λ x. depth ≤ 32) }
{
    let found = match tokens.first() {
        Some(token) => is_number(*token),
        None => None,
    };
    take_found(depth, found, tokens)
}

/// The number behind a word, and the tokens behind it.
#[tactic(auto, unfolding(crate::specs::OneToken::number_behind))]
pub(crate) fn number_behind(
    word: Word,
    depth: u32,
    tokens: &[Token],
) -> Result<(Number, &[Token]), Halt>
    ensures { Tells (λ x. (x.0, x.1.now)) result (number_behind word depth tokens.now) }
{
    let (_, rest) = take_word(word, depth, tokens)?;
    take_number(depth, rest)
}

/// The bytes from a place on; none behind the end.
#[tactic(auto, using(std::proofs::lemmas::List::drop_all))]
fn bytes_from(bytes: &[u8], start: usize) -> &[u8]
    ensures { result.now ≡ drop start bytes.now }
{
    if start < bytes.len() {
        return &bytes[start..];
    }
    &[]
}

/// So many bytes, or all where there are fewer.
#[tactic(auto, using(std::proofs::lemmas::List::take_all))]
fn first_bytes(bytes: &[u8], size: usize) -> &[u8]
    ensures { result.now ≡ take size bytes.now }
{
    if size < bytes.len() {
        return &bytes[..size];
    }
    bytes
}

/// The bytes that stand at a token.
pub(crate) fn bytes_of(alloc: Global, text: &[u8], token: Token) -> Result<Txt, AllocError>
    ensures { IfOk result (λ bytes. bytes ≡ bytes_at text.now token) }
{
    let size = token.end.saturating_sub(token.start) as usize;
    let spelled = first_bytes(bytes_from(text, token.start as usize), size);
    texted(Vec::from_slice(alloc, spelled)?)
}

/// The name that stands at a token.
pub(crate) fn name_of(alloc: Global, text: &[u8], token: Token) -> Result<Name, AllocError>
    ensures { IfOk result (λ name. name ≡ name_at text.now token) }
{
    Ok(Name {
        text: bytes_of(alloc, text, token)?,
        place: token.start,
    })
}
