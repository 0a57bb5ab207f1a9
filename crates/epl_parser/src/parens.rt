//! Names, and parts of lists.
ghost use Rattle.std.specs.Prelude.{[]};
ghost use Rattle.grammar.specs.Tells.{Tells};
ghost use Rattle.grammar.specs.Depths.{look_if};
ghost use Rattle.epl_syntax.specs.declared.tree.Name.{Name};
ghost use Rattle.epl_syntax.specs.declared.word.Word.TheVariants as word;
ghost use Rattle.epl_syntax.specs.Tree.{Expression, expression};
ghost use Rattle.epl_parser.specs.OneToken.{the_lower, the_upper, the_word, look_one, lower_behind};
ghost use Rattle.epl_parser.specs.ExpressionReader.{read_expression};
ghost use Rattle.epl_parser.specs.StatementReader.{read_gives};

use crate::expression_parser::expression;
use crate::lists::{Part, separated};
use crate::reading::{DEPTH_LIMIT, Source, name_of, peek_word, take_mark, take_word};
use epl_syntax::{Expr, Mark, Name, Token, TokenKind, Word};
use grammar::Halt;

/// A name with a small first letter that is no word, and the tokens behind it.
#[tactic(auto, unfolding(crate::specs::OneToken::the_lower))]
pub(crate) fn take_lower<'a>(
    source: &Source<'_>,
    depth: u32,
    tokens: &'a [Token],
) -> Result<(Name, &'a [Token]), Halt>
    ensures { Tells (λ x. (x.0, x.1.now)) result (look_one depth (the_lower source.now.text.now) tokens.now) }
{
    let Some((token, rest)) = tokens.split_first() else {
        return Err(Halt::Bad { left: 0 });
    };
    let TokenKind::Lower = token.kind else {
        return Err(Halt::Bad { left: tokens.len() });
    };
    if depth > DEPTH_LIMIT {
        return Err(Halt::Deep { left: tokens.len() });
    }
    Ok((name_of(source.alloc, source.text, *token)?, rest))
}

/// A name with a great first letter, and the tokens behind it.
#[tactic(auto, unfolding(crate::specs::OneToken::the_upper))]
pub(crate) fn take_upper<'a>(
    source: &Source<'_>,
    depth: u32,
    tokens: &'a [Token],
) -> Result<(Name, &'a [Token]), Halt>
    ensures { Tells (λ x. (x.0, x.1.now)) result (look_one depth (the_upper source.now.text.now) tokens.now) }
{
    let Some((token, rest)) = tokens.split_first() else {
        return Err(Halt::Bad { left: 0 });
    };
    let TokenKind::Upper = token.kind else {
        return Err(Halt::Bad { left: tokens.len() });
    };
    if depth > DEPTH_LIMIT {
        return Err(Halt::Deep { left: tokens.len() });
    }
    Ok((name_of(source.alloc, source.text, *token)?, rest))
}

/// The name with a small first letter behind a word, and the tokens behind it.
#[tactic(auto, unfolding(crate::specs::OneToken::lower_behind))]
pub(crate) fn lower_behind<'a>(
    word: Word,
    source: &Source<'_>,
    depth: u32,
    tokens: &'a [Token],
) -> Result<(Name, &'a [Token]), Halt>
    ensures { Tells (λ x. (x.0, x.1.now)) result (lower_behind source.now.text.now word depth tokens.now) }
{
    let (_, rest) = take_word(word, depth, tokens)?;
    take_lower(source, depth, rest)
}

impl Part for Name {
    ghost Tree = { Name };

    ghost tree = { λ name. name };

    ghost reader = { λ bytes turns depth. look_one depth (the_lower bytes) };

    fn read<'a>(
        source: &Source<'_>,
        depth: u32,
        tokens: &'a [Token],
    ) -> Result<(Name, &'a [Token]), Halt> {
        take_lower(source, depth, tokens)
    }
}

impl Part for Expr {
    ghost Tree = { Expression };

    ghost tree = { expression };

    ghost reader = { λ bytes turns depth. read_expression bytes turns depth };

    fn read<'a>(
        source: &Source<'_>,
        depth: u32,
        tokens: &'a [Token],
    ) -> Result<(Expr, &'a [Token]), Halt> {
        expression(source, depth, tokens)
    }
}

/// The names of the variables that take results.
#[tactic(auto, unfolding(crate::specs::StatementReader::read_gives, crate::specs::StatementReader::read_names))]
fn gives<'a>(
    source: &Source<'_>,
    depth: u32,
    tokens: &'a [Token],
) -> Result<(Vec<Name>, &'a [Token]), Halt>
    ensures { Tells (λ x. (x.0.items, x.1.now)) result (read_gives source.now.text.now source.now.turns depth tokens.now) }
{
    let (_, rest) = take_word(Word::Gives, depth, tokens)?;
    let (_, rest) = take_mark(Mark::Open, depth, rest)?;
    let (found, rest) = separated(source, depth, rest)?;
    let (_, rest) = take_mark(Mark::Close, depth, rest)?;
    Ok((found, rest))
}

/// The same, or no names where none are given.
#[tactic(auto, using(crate::proofs::RowLoops::if_over, crate::proofs::RowLoops::if_on))]
pub(crate) fn optional_gives<'a>(
    source: &Source<'_>,
    depth: u32,
    tokens: &'a [Token],
) -> Result<(Vec<Name>, &'a [Token]), Halt>
    ensures { Tells (λ x. (x.0.items, x.1.now)) result
        (look_if (the_word word.Gives) [] (read_gives source.now.text.now source.now.turns depth) tokens.now) }
{
    let Some(_) = peek_word(Word::Gives, tokens) else {
        return Ok((Vec::new(source.alloc), tokens));
    };
    gives(source, depth, tokens)
}
