//! Reading the constants with which variables start.
ghost use Rattle.std.specs.Prelude.{◌≡◌, false, IfOk};
ghost use Rattle.grammar.specs.Tells.{Tells};
ghost use Rattle.epl_syntax.specs.Tree.{written, constant, beginning};
ghost use Rattle.epl_parser.specs.OneToken.{headed, look_one};
ghost use Rattle.epl_parser.specs.Heads.{constant_head, negated, stands_for};
ghost use Rattle.epl_parser.specs.Constants.{text_at, begins_with, read_kind_in_parens, read_constant_rest, read_constant};

use crate::head::{ConstantHead, constant_head, negated};
use crate::kind_parser::written_kind;
use crate::reading::{Source, bytes_of, take_found, take_mark};
use eden_value::{Txt, texted};
use epl_syntax::{Const, Mark, Start, Token, WrittenKind};
use grammar::Halt;
use std::alloc::{AllocError, Global};

/// What a constant begins with, its token, and the tokens behind it.
#[tactic(auto, using(crate::proofs::Steps::take_is_look))]
fn take_head(depth: u32, tokens: &[Token]) -> Result<((ConstantHead, Token), &[Token]), Halt>
    ensures { Tells (λ x. (x.0, x.1.now)) result (look_one depth (headed constant_head) tokens.now) }
{
    let found = match tokens.first() {
        Some(token) => match constant_head(token.kind) {
            Some(head) => Some((head, *token)),
            None => None,
        },
        None => None,
    };
    take_found(depth, found, tokens)
}

/// The number that INT makes behind a minus, and the tokens behind it.
#[tactic(auto, using(crate::proofs::Steps::take_is_look))]
fn take_negated(depth: u32, tokens: &[Token]) -> Result<(i64, &[Token]), Halt>
    ensures { Tells (λ x. (x.0, x.1.now)) result (look_one depth (λ t. negated t.kind) tokens.now) }
{
    let found = match tokens.first() {
        Some(token) => negated(token.kind),
        None => None,
    };
    take_found(depth, found, tokens)
}

/// What a text stands for, behind its first quote.
fn unescaped(alloc: Global, body: &[u8]) -> Result<Vec<u8>, AllocError>
    ensures { IfOk result (λ bytes. bytes.items ≡ stands_for false body.now) }
{
    let mut bytes = Vec::new(alloc);
    let mut escaped = false;
    for b in body {
        if escaped {
            escaped = false;
            bytes.push(*b)?;
        } else if *b == b'"' {
            return Ok(bytes);
        } else if *b == b'\\' {
            escaped = true;
        } else {
            bytes.push(*b)?;
        }
    }
    Ok(bytes)
}

/// What a text in quotes stands for.
pub(crate) fn text_value(alloc: Global, text: &[u8], token: Token) -> Result<Txt, AllocError>
    ensures { IfOk result (λ value. value ≡ text_at text.now token) }
{
    let spelled = bytes_of(alloc, text, token)?;
    match spelled.as_slice().split_first() {
        Some((_, body)) => texted(unescaped(alloc, body)?),
        None => texted(Vec::new(alloc)),
    }
}

/// A kind in parentheses, which is that of the items of an empty list.
pub(crate) fn kind_in_parens<'a>(
    alloc: Global,
    outer: u32,
    tokens: &'a [Token],
) -> Result<(WrittenKind, &'a [Token]), Halt>
    ensures { Tells (λ x. (written x.0, x.1.now)) result (read_kind_in_parens outer tokens.now) }
{
    let (_, rest) = take_mark(Mark::Open, outer, tokens)?;
    let (kind, rest) = written_kind(alloc, outer, rest)?;
    let (_, rest) = take_mark(Mark::Close, outer, rest)?;
    Ok((kind, rest))
}

/// A constant, behind the token with which it begins.
fn constant_rest<'a>(
    source: &Source<'_>,
    outer: u32,
    head: ConstantHead,
    token: Token,
    tokens: &'a [Token],
) -> Result<(Const, &'a [Token]), Halt>
    ensures { Tells (λ x. (begins_with (constant x.0) token, x.1.now)) result
        (read_constant_rest source.now.text.now outer head token tokens.now) }
{
    match head {
        ConstantHead::Int { n } => Ok((Const::Int { n }, tokens)),
        ConstantHead::Minus => {
            let (n, rest) = take_negated(outer, tokens)?;
            Ok((Const::Int { n }, rest))
        }
        ConstantHead::Text => {
            let text = text_value(source.alloc, source.text, token)?;
            Ok((Const::Text { text }, tokens))
        }
        ConstantHead::Bool { b } => Ok((Const::Bool { b }, tokens)),
        ConstantHead::Absent => Ok((Const::Absent, tokens)),
        ConstantHead::EmptyList => {
            let (of, rest) = kind_in_parens(source.alloc, outer, tokens)?;
            Ok((Const::EmptyList { of }, rest))
        }
    }
}

/// The constant with which a variable starts, with its place.
#[tactic(auto, unfolding(crate::specs::Constants::read_constant))]
pub(crate) fn constant<'a>(
    source: &Source<'_>,
    outer: u32,
    tokens: &'a [Token],
) -> Result<(Start, &'a [Token]), Halt>
    ensures { Tells (λ x. (beginning x.0, x.1.now)) result (read_constant source.now.text.now outer tokens.now) }
{
    let ((head, token), rest) = take_head(outer, tokens)?;
    let (value, rest) = constant_rest(source, outer, head, token, rest)?;
    Ok((
        Start {
            value,
            place: token.start,
        },
        rest,
    ))
}
