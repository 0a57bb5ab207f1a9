//! Reading tokens. A token takes as many bytes as its form allows; blanks and line feeds part tokens.
ghost use Rattle.std.specs.Prelude.{◌≡◌, ◌≤◌, ◌<◌, ◌^◌, length, drop, false, None, IfOk, IfSome};
ghost use Rattle.epl_syntax.specs.Form.{is_blank, name_length, digit_count, number_of, text_body};
ghost use Rattle.epl_syntax.specs.Token.{mark_of, name_token, number_token, text_token, token_at, AreBlanks, Leads, TokensAre};
ghost use Rattle.epl_syntax.specs.Token.{SpellsTokens, Breaks};

use crate::token::{INT_LIMIT, Mark, NAME_LIMIT, ParseRefusal, Token, TokenKind};
use crate::word::word_of;
use eden_value::{TEXT_LIMIT, is_name_byte, is_printable};
use std::alloc::{AllocError, Global};

fn is_blank(b: u8) -> bool
    ensures { result ≡ is_blank b }
{
    b == b' ' || b == b'\n'
}

/// How many bytes of a name stand in front.
fn name_length(bytes: &[u8]) -> usize
    ensures { result ≡ name_length bytes.now }
{
    bytes.iter().take_while(|b| is_name_byte(**b)).count()
}

/// How many digits stand in front.
fn digit_count(bytes: &[u8]) -> usize
    ensures { result ≡ digit_count bytes.now }
{
    bytes.iter().take_while(|b| b.is_ascii_digit()).count()
}

/// The number that digits stand for, within the limit.
fn number(digits: &[u8]) -> Option<u64>
    ensures { result ≡ number_of digits.now }
{
    let mut value: u128 = 0;
    for d in digits {
        value = value * 10 + u128::from(d.saturating_sub(b'0'));
        if value > INT_LIMIT as u128 {
            return None;
        }
    }
    Some(value as u64)
}

/// The mark that begins with the first byte, and how many bytes it takes.
fn mark_of(first: u8, second: u8) -> Option<(Mark, usize)>
    ensures { result ≡ mark_of first second }
{
    match first {
        b':' if second == b'=' => Some((Mark::Assign, 2)),
        b':' => Some((Mark::Colon, 1)),
        b'<' if second == b'=' => Some((Mark::LessEqual, 2)),
        b'<' if second == b'>' => Some((Mark::Different, 2)),
        b'<' => Some((Mark::Less, 1)),
        b'>' if second == b'=' => Some((Mark::GreaterEqual, 2)),
        b'>' => Some((Mark::Greater, 1)),
        b',' => Some((Mark::Comma, 1)),
        b'.' => Some((Mark::Dot, 1)),
        b'(' => Some((Mark::Open, 1)),
        b')' => Some((Mark::Close, 1)),
        b'[' => Some((Mark::OpenList, 1)),
        b']' => Some((Mark::CloseList, 1)),
        b'=' => Some((Mark::Equal, 1)),
        b'+' => Some((Mark::Plus, 1)),
        b'-' => Some((Mark::Minus, 1)),
        b'&' => Some((Mark::Join, 1)),
        b'*' => Some((Mark::Times, 1)),
        b'/' => Some((Mark::Divide, 1)),
        _ => None,
    }
}

/// How many bytes a text takes behind its first quote, and how many it stands for.
fn text_body(bytes: &[u8]) -> Option<(usize, usize)>
    ensures body { result ≡ text_body false bytes.now }
    ensures within { IfSome result (λ found. found.0 ≤ length bytes.now) }
{
    let mut escaped = false;
    let mut stands = 0;
    for (i, b) in bytes.iter().enumerate() {
        if escaped {
            if *b != b'"' && *b != b'\\' {
                return None;
            }
            escaped = false;
            stands += 1;
        } else if *b == b'"' {
            return Some((i + 1, stands));
        } else if *b == b'\\' {
            escaped = true;
        } else if is_printable(*b) {
            stands += 1;
        } else {
            return None;
        }
    }
    None
}

fn name_token(bytes: &[u8], upper: bool) -> Option<(TokenKind, usize)>
    ensures { result ≡ name_token bytes.now upper }
{
    let n = name_length(bytes);
    if n > NAME_LIMIT {
        return None;
    }
    if upper {
        return Some((TokenKind::Upper, n));
    }
    match word_of(&bytes[..n]) {
        Some(word) => Some((TokenKind::Word { word }, n)),
        None => Some((TokenKind::Lower, n)),
    }
}

fn number_token(bytes: &[u8]) -> Option<(TokenKind, usize)>
    ensures { result ≡ number_token bytes.now }
{
    let n = digit_count(bytes);
    match number(&bytes[..n]) {
        Some(value) => Some((TokenKind::Int { n: value }, n)),
        None => None,
    }
}

fn text_token(body: &[u8]) -> Option<(TokenKind, usize)>
    ensures { result ≡ text_token body.now }
{
    let (taken, stands) = text_body(body)?;
    if stands > TEXT_LIMIT {
        return None;
    }
    Some((TokenKind::Text, taken + 1))
}

/// The token that begins with the first byte, and how many bytes it takes.
fn token_at(bytes: &[u8]) -> Option<(TokenKind, usize)>
    ensures { result ≡ token_at bytes.now }
{
    let (first, rest) = bytes.split_first()?;
    if first.is_ascii_uppercase() {
        name_token(bytes, true)
    } else if first.is_ascii_lowercase() {
        name_token(bytes, false)
    } else if first.is_ascii_digit() {
        number_token(bytes)
    } else if *first == b'"' {
        text_token(rest)
    } else {
        let second = rest.first().copied().unwrap_or(0);
        match mark_of(*first, second) {
            Some((mark, n)) => Some((TokenKind::Mark { mark }, n)),
            None => None,
        }
    }
}

/// The same, within the bytes.
fn front_token(bytes: &[u8]) -> Option<(TokenKind, usize)>
    ensures token { result ≡ token_at bytes.now }
    ensures within { IfSome result (λ found. (0 < found.1) × (found.1 ≤ length bytes.now)) }
{
    token_at(bytes)
}

/// The first place from `from` on that holds no blank, or the text's end.
fn blanks_end(text: &[u8], from: usize) -> usize
    requires { from ≤ length text.now }
    ensures { AreBlanks text.now from result }
{
    let mut at = from;
    while at < text.len() && is_blank(text[at]) {
        at += 1;
    }
    at
}

/// The tokens before the first place where none begins, and that place, or the text's length.
pub fn leading_tokens(alloc: Global, text: &[u8]) -> Result<(Vec<Token>, usize), AllocError>
    requires short { length text.now < 2 ^ 32 }
    ensures leads { IfOk result (λ found. Leads text.now 0 found.0.items found.1) }
    ensures stops { IfOk result (λ found. token_at (drop found.1 text.now) ≡ None) }
    ensures within { IfOk result (λ found. found.1 ≤ length text.now) }
{
    let mut found = Vec::new(alloc);
    let mut at = blanks_end(text, 0);
    while let Some((kind, taken)) = front_token(&text[at..]) {
        found.push(Token {
            kind,
            start: at as u32,
            end: (at + taken) as u32,
        })?;
        at = blanks_end(text, at + taken);
    }
    Ok((found, at))
}

/// The tokens of the whole text, with their places.
///
/// `BadToken` comes exactly where the text has other bytes than tokens and blanks, at the first byte
/// with which no token begins. `TooDeep` never comes.
pub fn tokens(alloc: Global, text: &[u8]) -> Result<Vec<Token>, ParseRefusal>
    requires short { length text.now < 2 ^ 32 }
    ensures answers { TokensAre text.now result }
{
    let (found, place) = leading_tokens(alloc, text)?;
    if place < text.len() {
        return Err(ParseRefusal::BadToken {
            place: place as u32,
        });
    }
    Ok(found)
}
