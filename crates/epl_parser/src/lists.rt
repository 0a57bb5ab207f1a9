//! Lists with a comma between each two of their parts.
ghost use Rattle.std.specs.Prelude.{◌≡◌, ◌<◌, map, [], length, IfOk};
ghost use Rattle.grammar.specs.Tells.{Tells};
ghost use Rattle.grammar.specs.Depths.{look_if};
ghost use Rattle.grammar.specs.Separated.{look_next, look_separated};
ghost use Rattle.epl_syntax.specs.declared.token.Mark.TheVariants as mark;
ghost use Rattle.epl_parser.specs.OneToken.{the_mark, peeked};
ghost use Rattle.epl_parser.specs.StatementReader.{not_mark, look_in_parens};

use crate::reading::{Source, is_mark, peek_mark, take_mark};
use epl_syntax::{Mark, Token};
use grammar::Halt;

/// What stands in lists.
pub(crate) trait Part: Sized + Drop {
    ghost use Rattle.std.specs.Prelude.{◌≤◌, ℕ, List, length, IfOk};
    ghost use Rattle.grammar.specs.Depths.{Looker};
    ghost use Rattle.grammar.specs.Tells.{Tells};
    ghost use Rattle.epl_syntax.specs.declared.token.Token.{Token as Symbol};

    /// What it is in a tree.
    ghost Tree: { Type 0 };

    ghost tree: { Self → Tree };

    /// How it is read from a text, in so many turns and at a depth.
    ghost reader: { List ℕ → ℕ → ℕ → Looker Symbol Tree };

    /// A part, and the tokens behind it.
    fn read<'a>(
        source: &Source<'_>,
        depth: u32,
        tokens: &'a [Token],
    ) -> Result<(Self, &'a [Token]), Halt>
        ensures tells { Tells (λ x. (tree x.0, x.1.now)) result (reader source.now.text.now source.now.turns depth tokens.now) }
        ensures behind { IfOk result (λ x. length x.1.now ≤ length tokens.now) };
}

/// Parts with a comma between each two, at least one.
pub(crate) fn separated<'a, T: Part>(
    source: &Source<'_>,
    depth: u32,
    tokens: &'a [Token],
) -> Result<(Vec<T>, &'a [Token]), Halt>
    ensures { Tells (λ x. (map T.tree x.0.items, x.1.now)) result
        (look_separated 32 depth (the_mark mark.Comma) source.now.turns (T.reader source.now.text.now source.now.turns depth) tokens.now) }
{
    let (first, mut rest) = T::read(source, depth, tokens)?;
    let mut found = Vec::new(source.alloc);
    found.push(first)?;
    let mut left = source.turns;
    while left > 0 {
        let Some(_) = peek_mark(Mark::Comma, rest) else {
            return Ok((found, rest));
        };
        let (more, behind) = one_more(source, depth, found, rest)?;
        found = more;
        rest = behind;
        left -= 1;
    }
    unreachable!()
}

/// The parts that were found and one more, behind a comma.
fn one_more<'a, T: Part>(
    source: &Source<'_>,
    depth: u32,
    mut found: Vec<T>,
    tokens: &'a [Token],
) -> Result<(Vec<T>, &'a [Token]), Halt>
    ensures tells { Tells (λ x. (map T.tree x.0.items, x.1.now)) result
        (look_next 32 depth (the_mark mark.Comma) (T.reader source.now.text.now source.now.turns depth) (map T.tree found.items)
        tokens.now) }
    ensures behind { IfOk result (λ x. length x.1.now < length tokens.now) }
{
    let (_, rest) = take_mark(Mark::Comma, depth, tokens)?;
    let (next, rest) = T::read(source, depth, rest)?;
    found.push(next)?;
    Ok((found, rest))
}

/// Whether something else than a closing parenthesis comes.
fn peek_part(tokens: &[Token]) -> Option<()>
    ensures { result ≡ peeked (not_mark mark.Close) tokens.now }
{
    let token = tokens.first()?;
    match is_mark(Mark::Close, *token) {
        Some(_) => None,
        None => Some(()),
    }
}

/// The same, or none before a closing parenthesis.
#[tactic(auto, using(crate::proofs::RowLoops::if_over, crate::proofs::RowLoops::if_on))]
fn optional<'a, T: Part>(
    source: &Source<'_>,
    depth: u32,
    tokens: &'a [Token],
) -> Result<(Vec<T>, &'a [Token]), Halt>
    ensures { Tells (λ x. (map T.tree x.0.items, x.1.now)) result
        (look_if (not_mark mark.Close) [] (look_separated 32 depth (the_mark mark.Comma) source.now.turns
        (T.reader source.now.text.now source.now.turns depth)) tokens.now) }
{
    let Some(_) = peek_part(tokens) else {
        return Ok((Vec::new(source.alloc), tokens));
    };
    separated(source, depth, tokens)
}

/// The same, in parentheses.
pub(crate) fn in_parens<'a, T: Part>(
    source: &Source<'_>,
    depth: u32,
    tokens: &'a [Token],
) -> Result<(Vec<T>, &'a [Token]), Halt>
    ensures { Tells (λ x. (map T.tree x.0.items, x.1.now)) result
        (look_in_parens depth (look_separated 32 depth (the_mark mark.Comma) source.now.turns
        (T.reader source.now.text.now source.now.turns depth)) tokens.now) }
{
    let (_, rest) = take_mark(Mark::Open, depth, tokens)?;
    let (found, rest) = optional(source, depth, rest)?;
    let (_, rest) = take_mark(Mark::Close, depth, rest)?;
    Ok((found, rest))
}
