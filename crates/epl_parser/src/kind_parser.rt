//! Reading kinds.
ghost use Rattle.std.specs.Prelude.{◌≡◌, ◌+◌, ◌≤◌, IfOk};
ghost use Rattle.grammar.specs.Tells.{Tells};
ghost use Rattle.eden_value.specs.Shape.{shape, lists};
ghost use Rattle.epl_syntax.specs.Tree.{written};
ghost use Rattle.epl_parser.specs.OneToken.{look_one};
ghost use Rattle.epl_parser.specs.WrittenKinds.{kind_head, read_kind, read_written_kind};

use crate::head::{KindHead, kind_head};
use crate::reading::{DEPTH_LIMIT, take_found, take_word};
use eden_value::Kind;
use epl_syntax::{Token, Word, WrittenKind};
use grammar::Halt;
use std::alloc::{AllocError, Global};

/// What a kind begins with, and the tokens behind it.
#[tactic(auto, using(crate::proofs::Steps::take_is_look))]
fn take_head(depth: u32, tokens: &[Token]) -> Result<(KindHead, &[Token]), Halt>
    ensures tells { Tells (λ x. (x.0, x.1.now)) result (look_one depth (λ t. kind_head t.kind) tokens.now) }
    ensures fits { IfOk result (λ x. depth ≤ 32) }
{
    let found = match tokens.first() {
        Some(token) => kind_head(token.kind),
        None => None,
    };
    take_found(depth, found, tokens)
}

fn list_kind(alloc: Global, of: Kind) -> Result<Kind, AllocError>
    ensures { IfOk result (λ k. shape k ≡ lists (shape of)) }
{
    Ok(Kind::List {
        of: Box::new(alloc, of)?,
    })
}

/// A kind that stands in so many kinds; `levels` more may stand in it, so that a token in all of them
/// is past the limit of depth. A token's depth is at least `outer`.
#[tactic(auto, unfolding(crate::specs::WrittenKinds::read_kind), using(crate::proofs::Steps::inner_kind_is))]
fn kind<'a>(
    alloc: Global,
    levels: u32,
    outer: u32,
    depth: u32,
    tokens: &'a [Token],
) -> Result<(Kind, &'a [Token]), Halt>
    requires { depth + levels ≡ 33 }
    ensures { Tells (λ x. (shape x.0, x.1.now)) result (read_kind levels outer depth tokens.now) }
{
    let place = outer.max(depth);
    let (head, rest) = take_head(place, tokens)?;
    match head {
        KindHead::Int => Ok((Kind::Int, rest)),
        KindHead::Bool => Ok((Kind::Bool, rest)),
        KindHead::Text => Ok((Kind::Text, rest)),
        KindHead::Cap => Ok((Kind::Cap, rest)),
        KindHead::List => {
            let (_, rest) = take_word(Word::Of, place, rest)?;
            let (of, rest) = kind(alloc, levels - 1, outer, depth + 1, rest)?;
            Ok((list_kind(alloc, of)?, rest))
        }
    }
}

/// A kind with its place, in a declaration or in parentheses.
pub(crate) fn written_kind<'a>(
    alloc: Global,
    outer: u32,
    tokens: &'a [Token],
) -> Result<(WrittenKind, &'a [Token]), Halt>
    ensures { Tells (λ x. (written x.0, x.1.now)) result (read_written_kind outer tokens.now) }
{
    let place = match tokens.first() {
        Some(token) => token.start,
        None => 0,
    };
    let (kind, rest) = kind(alloc, DEPTH_LIMIT, outer, 1, tokens)?;
    Ok((WrittenKind { kind, place }, rest))
}
