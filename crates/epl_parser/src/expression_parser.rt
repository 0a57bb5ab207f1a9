//! Reading expressions: a function for each rule of the grammar.
ghost use Rattle.std.specs.Prelude.{◌≡◌, ◌≤◌, ◌+◌, suc, max, IfOk, map};
ghost use Rattle.grammar.specs.Depths.{look_here, look_mapped};
ghost use Rattle.grammar.specs.Separated.{look_closed};
ghost use Rattle.grammar.specs.Tells.{Tells};
ghost use Rattle.epl_syntax.specs.Tree.{constant, text, empty_list, Const_, Name_, expression};
ghost use Rattle.epl_parser.specs.declared.head.PrimaryHead.TheVariants as head;
ghost use Rattle.epl_parser.specs.OneToken.{peeked, headed, look_one, name_at, the_mark};
ghost use Rattle.epl_parser.specs.Heads.{operator_at, comparison, primary_head};
ghost use Rattle.epl_parser.specs.Constants.{text_at, read_kind_in_parens};
ghost use Rattle.epl_parser.specs.Expressions.{joined, prefixed, at_index, single};
ghost use Rattle.epl_parser.specs.ExpressionReader.{IsClosing, parsed, read_step, read_index, read_exprs_to, inner};
ghost use Rattle.epl_parser.specs.ExpressionReader.{read_part, read_chain, read_neg, read_cmp, read_unit};
ghost use Rattle.epl_parser.specs.ExpressionReader.{read_indexed, read_primary, read_primary_rest, read_expression};

use crate::build::{apply, binary, index as index_of, list_of, unary};
use crate::constant_parser::{kind_in_parens, text_value};
use crate::head::{Level, PrimaryHead, comparison, operator_at, primary_head};
use crate::reading::{
    DEPTH_LIMIT, Source, name_of, peek_mark, peek_word, take_found, take_mark, take_word,
};
use epl_syntax::{Builtin, Const, Expr, Mark, Operator, Prefix, Token, Word};
use grammar::Halt;
use std::alloc::Global;

/// An expression, the depth at its end, and the place of its first token. A token behind it that
/// goes on with it is at least one deeper.
#[derive(Drop)]
pub(crate) struct Found {
    tree: Expr,
    behind: u32,
    begins: u32,
}

// ---- single tokens

/// The first token's operator of a level.
fn peek_operator(level: Level, tokens: &[Token]) -> Option<Operator>
    ensures { result ≡ peeked (λ t. operator_at level t.kind) tokens.now }
{
    operator_at(level, tokens.first()?.kind)
}

/// An operator of a level, and the tokens behind it.
#[tactic(auto, using(crate::proofs::Steps::take_is_look))]
fn take_operator(level: Level, depth: u32, tokens: &[Token]) -> Result<(Operator, &[Token]), Halt>
    ensures tells { Tells (λ x. (x.0, x.1.now)) result (look_one depth (λ t. operator_at level t.kind) tokens.now) }
    ensures fits { IfOk result (λ x. depth ≤ 32) }
{
    take_found(depth, peek_operator(level, tokens), tokens)
}

/// The first token's comparison.
fn peek_comparison(tokens: &[Token]) -> Option<Operator>
    ensures { result ≡ peeked (λ t. comparison t.kind) tokens.now }
{
    comparison(tokens.first()?.kind)
}

/// A comparison, and the tokens behind it.
#[tactic(auto, using(crate::proofs::Steps::take_is_look))]
fn take_comparison(depth: u32, tokens: &[Token]) -> Result<(Operator, &[Token]), Halt>
    ensures tells { Tells (λ x. (x.0, x.1.now)) result (look_one depth (λ t. comparison t.kind) tokens.now) }
    ensures fits { IfOk result (λ x. depth ≤ 32) }
{
    take_found(depth, peek_comparison(tokens), tokens)
}

/// What an operand begins with, its token, and the tokens behind it.
#[tactic(auto, using(crate::proofs::Steps::take_is_look))]
fn take_primary(depth: u32, tokens: &[Token]) -> Result<((PrimaryHead, Token), &[Token]), Halt>
    ensures tells { Tells (λ x. (x.0, x.1.now)) result (look_one depth (headed primary_head) tokens.now) }
    ensures fits { IfOk result (λ x. depth ≤ 32) }
{
    let found = match tokens.first() {
        Some(token) => match primary_head(token.kind) {
            Some(head) => Some((head, *token)),
            None => None,
        },
        None => None,
    };
    take_found(depth, found, tokens)
}

// ---- what is made of parts, with the tokens behind it

fn join<'a>(
    alloc: Global,
    operator: Operator,
    left: Found,
    right: Found,
    rest: &'a [Token],
) -> Result<(Found, &'a [Token]), Halt>
    ensures made { Tells (λ x. (parsed x.0, x.1.now)) result (look_here (joined operator (parsed left) (parsed right)) rest.now) }
    ensures behind { IfOk result (λ x. x.0.behind ≡ right.behind) }
{
    let begins = left.begins;
    let found = Found {
        tree: binary(alloc, operator, left.tree, right.tree, begins)?,
        behind: right.behind,
        begins,
    };
    Ok((found, rest))
}

fn prefix<'a>(
    alloc: Global,
    prefix: Prefix,
    token: Token,
    of: Found,
    rest: &'a [Token],
) -> Result<(Found, &'a [Token]), Halt>
    ensures made { Tells (λ x. (parsed x.0, x.1.now)) result (look_here (prefixed prefix token (parsed of)) rest.now) }
    ensures behind { IfOk result (λ x. x.0.behind ≡ of.behind) }
{
    let found = Found {
        tree: unary(alloc, prefix, of.tree, token.start)?,
        behind: of.behind,
        begins: token.start,
    };
    Ok((found, rest))
}

fn item<'a>(
    alloc: Global,
    of: Found,
    at: Found,
    rest: &'a [Token],
) -> Result<(Found, &'a [Token]), Halt>
    requires { of.behind ≤ 32 }
    ensures made { Tells (λ x. (parsed x.0, x.1.now)) result (look_here (at_index (parsed of) (parsed at)) rest.now) }
    ensures behind { IfOk result (λ x. x.0.behind ≡ of.behind + 1) }
{
    let begins = of.begins;
    let found = Found {
        tree: index_of(alloc, of.tree, at.tree, begins)?,
        behind: of.behind + 1,
        begins,
    };
    Ok((found, rest))
}

fn one(tree: Expr, token: Token, depth: u32) -> Found
    ensures made { parsed result ≡ single (expression tree) token depth }
    ensures behind { result.behind ≡ depth }
{
    Found {
        tree,
        behind: depth,
        begins: token.start,
    }
}

fn value(value: Const, token: Token, depth: u32) -> Found
    ensures made { parsed result ≡ single (Const_ (constant value) token.start) token depth }
    ensures behind { result.behind ≡ depth }
{
    let tree = Expr::Const {
        value,
        place: token.start,
    };
    one(tree, token, depth)
}

/// The text that a token stands for.
fn text<'a>(
    source: &Source<'_>,
    token: Token,
    depth: u32,
    rest: &'a [Token],
) -> Result<(Found, &'a [Token]), Halt>
    ensures made { Tells (λ x. (parsed x.0, x.1.now)) result
        (look_here (single (Const_ (text (text_at source.now.text.now token)) token.start) token depth) rest.now) }
    ensures behind { IfOk result (λ x. x.0.behind ≡ depth) }
{
    let text = text_value(source.alloc, source.text, token)?;
    Ok((value(Const::Text { text }, token, depth), rest))
}

/// The variable whose name a token is.
fn variable<'a>(
    source: &Source<'_>,
    token: Token,
    depth: u32,
    rest: &'a [Token],
) -> Result<(Found, &'a [Token]), Halt>
    ensures made { Tells (λ x. (parsed x.0, x.1.now)) result
        (look_here (single (Name_ (name_at source.now.text.now token)) token depth) rest.now) }
    ensures behind { IfOk result (λ x. x.0.behind ≡ depth) }
{
    let name = name_of(source.alloc, source.text, token)?;
    Ok((one(Expr::Name { name }, token, depth), rest))
}

// ---- the rules

/// Parts of a level with its operators between them, grouped to the left. It stands in so many
/// expressions and operators, and `levels` more may stand in it; a token's depth is at least
/// `outer`.
#[cycle(expression)]
#[tactic(auto, unfolding(crate::specs::ExpressionReader::read_chain))]
fn chain<'a>(
    level: Level,
    source: &Source<'_>,
    levels: u32,
    outer: u32,
    depth: u32,
    tokens: &'a [Token],
) -> Result<(Found, &'a [Token]), Halt>
    requires depth { depth ≤ 33 }
    requires levels { 33 ≤ depth + levels }
    ensures read { Tells (λ x. (parsed x.0, x.1.now)) result
        (read_chain source.now.text.now source.now.turns outer level levels depth tokens.now) }
    ensures small { IfOk result (λ x. x.0.behind ≤ 32) }
    ensures great { IfOk result (λ x. depth ≤ x.0.behind) }
{
    let (mut found, mut rest) = part(level, source, levels, outer, depth, tokens)?;
    let mut left = source.turns;
    while left > 0 {
        let Some(_) = peek_operator(level, rest) else {
            return Ok((found, rest));
        };
        let (next, behind) = step(level, source, levels, outer, found, rest)?;
        found = next;
        rest = behind;
        left -= 1;
    }
    unreachable!()
}

/// An operator of a level, and the part behind it.
#[cycle(expression)]
fn step<'a>(
    level: Level,
    source: &Source<'_>,
    levels: u32,
    outer: u32,
    found: Found,
    tokens: &'a [Token],
) -> Result<(Found, &'a [Token]), Halt>
    requires depth { found.behind ≤ 32 }
    requires levels { 32 ≤ found.behind + levels }
    ensures read { Tells (λ x. (parsed x.0, x.1.now)) result
        (read_step source.now.text.now source.now.turns outer level
        (read_part source.now.text.now source.now.turns outer level levels) (parsed found) tokens.now) }
    ensures small { IfOk result (λ x. x.0.behind ≤ 32) }
    ensures great { IfOk result (λ x. found.behind ≤ x.0.behind) }
{
    let depth = found.behind + 1;
    let (operator, rest) = take_operator(level, outer.max(depth), tokens)?;
    let (right, rest) = part(level, source, levels, outer, depth, rest)?;
    join(source.alloc, operator, found, right, rest)
}

/// What stands between the operators of a level.
#[cycle(expression)]
#[tactic(auto, unfolding(crate::specs::ExpressionReader::read_part, crate::specs::ExpressionReader::read_chain, crate::specs::ExpressionReader::read_neg, crate::specs::ExpressionReader::read_unit))]
fn part<'a>(
    level: Level,
    source: &Source<'_>,
    levels: u32,
    outer: u32,
    depth: u32,
    tokens: &'a [Token],
) -> Result<(Found, &'a [Token]), Halt>
    requires depth { depth ≤ 33 }
    requires levels { 33 ≤ depth + levels }
    ensures read { Tells (λ x. (parsed x.0, x.1.now)) result
        (read_part source.now.text.now source.now.turns outer level levels depth tokens.now) }
    ensures small { IfOk result (λ x. x.0.behind ≤ 32) }
    ensures great { IfOk result (λ x. depth ≤ x.0.behind) }
{
    match level {
        Level::Or => chain(Level::And, source, levels, outer, depth, tokens),
        Level::And => negation(source, levels, outer, depth, tokens),
        Level::Sum => chain(Level::Term, source, levels, outer, depth, tokens),
        Level::Term => unit(source, levels, outer, depth, tokens),
    }
}

/// A comparison with `not` before it, or without.
#[cycle(expression)]
#[tactic(auto, unfolding(crate::specs::ExpressionReader::read_neg, crate::specs::ExpressionReader::read_cmp), using(crate::proofs::InnerLevels::inner_neg))]
fn negation<'a>(
    source: &Source<'_>,
    levels: u32,
    outer: u32,
    depth: u32,
    tokens: &'a [Token],
) -> Result<(Found, &'a [Token]), Halt>
    requires depth { depth ≤ 33 }
    requires levels { 33 ≤ depth + levels }
    ensures read { Tells (λ x. (parsed x.0, x.1.now)) result (read_neg source.now.text.now source.now.turns outer levels depth tokens.now) }
    ensures small { IfOk result (λ x. x.0.behind ≤ 32) }
    ensures great { IfOk result (λ x. depth ≤ x.0.behind) }
{
    let Some(_) = peek_word(Word::Not, tokens) else {
        return compared(source, levels, outer, depth, tokens);
    };
    let (token, rest) = take_word(Word::Not, outer.max(depth + 1), tokens)?;
    let (of, rest) = negation(source, levels - 1, outer, depth + 1, rest)?;
    prefix(source.alloc, Prefix::Not, token, of, rest)
}

/// A sum, or two that are compared.
#[cycle(expression)]
#[tactic(auto, unfolding(crate::specs::ExpressionReader::read_cmp, crate::specs::ExpressionReader::read_chain, crate::specs::ExpressionReader::read_part))]
fn compared<'a>(
    source: &Source<'_>,
    levels: u32,
    outer: u32,
    depth: u32,
    tokens: &'a [Token],
) -> Result<(Found, &'a [Token]), Halt>
    requires depth { depth ≤ 33 }
    requires levels { 33 ≤ depth + levels }
    ensures read { Tells (λ x. (parsed x.0, x.1.now)) result (read_cmp source.now.text.now source.now.turns outer levels depth tokens.now) }
    ensures small { IfOk result (λ x. x.0.behind ≤ 32) }
    ensures great { IfOk result (λ x. depth ≤ x.0.behind) }
{
    let (found, rest) = chain(Level::Sum, source, levels, outer, depth, tokens)?;
    let Some(_) = peek_comparison(rest) else {
        return Ok((found, rest));
    };
    let inner = found.behind + 1;
    let (operator, rest) = take_comparison(outer.max(inner), rest)?;
    let (right, rest) = chain(Level::Sum, source, levels, outer, inner, rest)?;
    join(source.alloc, operator, found, right, rest)
}

/// An operand with a minus before it, or with its indices.
#[cycle(expression)]
#[tactic(auto, unfolding(crate::specs::ExpressionReader::read_unit, crate::specs::ExpressionReader::read_indexed), using(crate::proofs::InnerLevels::inner_unit))]
fn unit<'a>(
    source: &Source<'_>,
    levels: u32,
    outer: u32,
    depth: u32,
    tokens: &'a [Token],
) -> Result<(Found, &'a [Token]), Halt>
    requires depth { depth ≤ 33 }
    requires levels { 33 ≤ depth + levels }
    ensures read { Tells (λ x. (parsed x.0, x.1.now)) result
        (read_unit source.now.text.now source.now.turns outer levels depth tokens.now) }
    ensures small { IfOk result (λ x. x.0.behind ≤ 32) }
    ensures great { IfOk result (λ x. depth ≤ x.0.behind) }
{
    let Some(_) = peek_mark(Mark::Minus, tokens) else {
        return indexed(source, levels, outer, depth, tokens);
    };
    let (token, rest) = take_mark(Mark::Minus, outer.max(depth + 1), tokens)?;
    let (of, rest) = unit(source, levels - 1, outer, depth + 1, rest)?;
    prefix(source.alloc, Prefix::Negate, token, of, rest)
}

/// An operand and the indices behind it.
#[cycle(expression)]
#[tactic(auto, unfolding(crate::specs::ExpressionReader::read_indexed, crate::specs::ExpressionReader::read_primary))]
fn indexed<'a>(
    source: &Source<'_>,
    levels: u32,
    outer: u32,
    depth: u32,
    tokens: &'a [Token],
) -> Result<(Found, &'a [Token]), Halt>
    requires depth { depth ≤ 33 }
    requires levels { 33 ≤ depth + levels }
    ensures read { Tells (λ x. (parsed x.0, x.1.now)) result
        (read_indexed source.now.text.now source.now.turns outer levels depth tokens.now) }
    ensures small { IfOk result (λ x. x.0.behind ≤ 32) }
    ensures great { IfOk result (λ x. depth ≤ x.0.behind) }
{
    let (mut found, mut rest) = primary(source, levels, outer, depth, tokens)?;
    let mut left = source.turns;
    while left > 0 {
        let Some(_) = peek_mark(Mark::OpenList, rest) else {
            return Ok((found, rest));
        };
        let (next, behind) = index(source, levels, outer, found, rest)?;
        found = next;
        rest = behind;
        left -= 1;
    }
    unreachable!()
}

/// An index in brackets.
#[cycle(expression)]
fn index<'a>(
    source: &Source<'_>,
    levels: u32,
    outer: u32,
    found: Found,
    tokens: &'a [Token],
) -> Result<(Found, &'a [Token]), Halt>
    requires depth { found.behind ≤ 32 }
    requires levels { 32 ≤ found.behind + levels }
    ensures read { Tells (λ x. (parsed x.0, x.1.now)) result
        (read_index source.now.text.now source.now.turns outer
        (inner source.now.text.now source.now.turns outer levels).expr (parsed found) tokens.now) }
    ensures small { IfOk result (λ x. x.0.behind ≤ 32) }
    ensures great { IfOk result (λ x. found.behind ≤ x.0.behind) }
{
    let depth = found.behind + 1;
    let (_, rest) = take_mark(Mark::OpenList, outer.max(depth), tokens)?;
    let (at, rest) = closed(Mark::CloseList, source, levels, outer, depth, rest)?;
    item(source.alloc, found, at, rest)
}

/// An operand without prefixes and indices.
#[cycle(expression)]
#[tactic(auto, unfolding(crate::specs::ExpressionReader::read_primary))]
fn primary<'a>(
    source: &Source<'_>,
    levels: u32,
    outer: u32,
    depth: u32,
    tokens: &'a [Token],
) -> Result<(Found, &'a [Token]), Halt>
    requires depth { depth ≤ 33 }
    requires levels { 33 ≤ depth + levels }
    ensures read { Tells (λ x. (parsed x.0, x.1.now)) result
        (read_primary source.now.text.now source.now.turns outer levels depth tokens.now) }
    ensures small { IfOk result (λ x. x.0.behind ≤ 32) }
    ensures great { IfOk result (λ x. depth ≤ x.0.behind) }
{
    let ((head, token), rest) = take_primary(outer.max(depth), tokens)?;
    match head {
        PrimaryHead::Int { n } => Ok((value(Const::Int { n }, token, depth), rest)),
        PrimaryHead::Text => text(source, token, depth, rest),
        PrimaryHead::Bool { b } => Ok((value(Const::Bool { b }, token, depth), rest)),
        PrimaryHead::Absent => Ok((value(Const::Absent, token, depth), rest)),
        PrimaryHead::Me => Ok((one(Expr::Me { place: token.start }, token, depth), rest)),
        PrimaryHead::Name => variable(source, token, depth, rest),
        PrimaryHead::Parens => grouped(source, levels, outer, depth, token, rest),
        PrimaryHead::List => list(source, levels, outer, depth, token, rest),
        PrimaryHead::EmptyList => empty_list(source, outer, depth, token, rest),
        PrimaryHead::Apply { builtin } => {
            applied(builtin, source, levels, outer, depth, token, rest)
        }
    }
}

/// The rest of an expression in parentheses.
#[cycle(expression)]
fn grouped<'a>(
    source: &Source<'_>,
    levels: u32,
    outer: u32,
    depth: u32,
    token: Token,
    tokens: &'a [Token],
) -> Result<(Found, &'a [Token]), Halt>
    requires depth { depth ≤ 32 }
    requires levels { 33 ≤ depth + levels }
    ensures read { Tells (λ x. (parsed x.0, x.1.now)) result
        (read_primary_rest source.now.text.now source.now.turns outer
        (inner source.now.text.now source.now.turns outer levels).expr depth head.Parens token tokens.now) }
    ensures behind { IfOk result (λ x. x.0.behind ≡ depth) }
{
    let (found, rest) = closed(Mark::Close, source, levels, outer, depth, tokens)?;
    Ok((one(found.tree, token, depth), rest))
}

/// The rest of a list with items.
#[cycle(expression)]
fn list<'a>(
    source: &Source<'_>,
    levels: u32,
    outer: u32,
    depth: u32,
    token: Token,
    tokens: &'a [Token],
) -> Result<(Found, &'a [Token]), Halt>
    requires depth { depth ≤ 32 }
    requires levels { 33 ≤ depth + levels }
    ensures read { Tells (λ x. (parsed x.0, x.1.now)) result
        (read_primary_rest source.now.text.now source.now.turns outer
        (inner source.now.text.now source.now.turns outer levels).expr depth head.List token tokens.now) }
    ensures behind { IfOk result (λ x. x.0.behind ≡ depth) }
{
    let (items, rest) = items(Mark::CloseList, source, levels, outer, depth, tokens)?;
    Ok((one(list_of(items, token.start), token, depth), rest))
}

/// The rest of a list without items, which is the kind of its items.
fn empty_list<'a>(
    source: &Source<'_>,
    outer: u32,
    depth: u32,
    token: Token,
    tokens: &'a [Token],
) -> Result<(Found, &'a [Token]), Halt>
    ensures read { Tells (λ x. (parsed x.0, x.1.now)) result
        (look_mapped (λ k. single (Const_ (empty_list k) token.start) token depth) (read_kind_in_parens (max outer depth)) tokens.now) }
    ensures behind { IfOk result (λ x. x.0.behind ≡ depth) }
{
    let (of, rest) = kind_in_parens(source.alloc, outer.max(depth), tokens)?;
    Ok((value(Const::EmptyList { of }, token, depth), rest))
}

/// The arguments of a built-in function.
#[cycle(expression)]
fn applied<'a>(
    builtin: Builtin,
    source: &Source<'_>,
    levels: u32,
    outer: u32,
    depth: u32,
    token: Token,
    tokens: &'a [Token],
) -> Result<(Found, &'a [Token]), Halt>
    requires depth { depth ≤ 32 }
    requires levels { 33 ≤ depth + levels }
    ensures read { Tells (λ x. (parsed x.0, x.1.now)) result
        (read_primary_rest source.now.text.now source.now.turns outer
        (inner source.now.text.now source.now.turns outer levels).expr depth (head.Apply builtin) token tokens.now) }
    ensures behind { IfOk result (λ x. x.0.behind ≡ depth) }
{
    let (_, rest) = take_mark(Mark::Open, outer.max(depth), tokens)?;
    let (args, rest) = items(Mark::Close, source, levels, outer, depth, rest)?;
    Ok((one(apply(builtin, args, token.start), token, depth), rest))
}

/// An expression one level further in, and the mark behind it.
#[cycle(expression)]
fn closed<'a>(
    mark: Mark,
    source: &Source<'_>,
    levels: u32,
    outer: u32,
    depth: u32,
    tokens: &'a [Token],
) -> Result<(Found, &'a [Token]), Halt>
    requires depth { depth ≤ 32 }
    requires levels { 33 ≤ depth + levels }
    ensures { Tells (λ x. (parsed x.0, x.1.now)) result
        (look_closed 32 (max outer depth) (the_mark mark)
        ((inner source.now.text.now source.now.turns outer levels).expr (suc depth)) tokens.now) }
{
    let (found, rest) = inside(source, levels, outer, depth + 1, tokens)?;
    let (_, rest) = take_mark(mark, outer.max(depth), rest)?;
    Ok((found, rest))
}

/// An expression one level further in.
#[cycle(expression)]
#[tactic(auto, using(crate::proofs::InnerLevels::inner_expr))]
fn inside<'a>(
    source: &Source<'_>,
    levels: u32,
    outer: u32,
    depth: u32,
    tokens: &'a [Token],
) -> Result<(Found, &'a [Token]), Halt>
    requires depth { depth ≤ 33 }
    requires levels { 34 ≤ depth + levels }
    ensures read { Tells (λ x. (parsed x.0, x.1.now)) result
        ((inner source.now.text.now source.now.turns outer levels).expr depth tokens.now) }
    ensures small { IfOk result (λ x. x.0.behind ≤ 32) }
    ensures great { IfOk result (λ x. depth ≤ x.0.behind) }
{
    chain(Level::Or, source, levels - 1, outer, depth, tokens)
}

/// Expressions with commas between them, and the mark behind them.
#[cycle(expression)]
fn items<'a>(
    mark: Mark,
    source: &Source<'_>,
    levels: u32,
    outer: u32,
    depth: u32,
    tokens: &'a [Token],
) -> Result<(Vec<Expr>, &'a [Token]), Halt>
    requires closing { IsClosing mark }
    requires depth { depth ≤ 32 }
    requires levels { 33 ≤ depth + levels }
    ensures { Tells (λ x. (map expression x.0.items, x.1.now)) result
        (read_exprs_to source.now.text.now source.now.turns outer mark
        (inner source.now.text.now source.now.turns outer levels).expr depth tokens.now) }
{
    let place = outer.max(depth);
    let (first, mut rest) = inside(source, levels, outer, depth + 1, tokens)?;
    let mut found = Vec::new(source.alloc);
    found.push(first.tree)?;
    let mut left = source.turns;
    while left > 0 {
        let Some(_) = peek_mark(Mark::Comma, rest) else {
            let (_, rest) = take_mark(mark, place, rest)?;
            return Ok((found, rest));
        };
        let (_, behind) = take_mark(Mark::Comma, place, rest)?;
        let (next, behind) = inside(source, levels, outer, depth + 1, behind)?;
        found.push(next.tree)?;
        rest = behind;
        left -= 1;
    }
    unreachable!()
}

/// An expression that stands in no other; a token's depth is at least `outer`.
#[tactic(auto, unfolding(crate::specs::ExpressionReader::read_expression))]
pub(crate) fn expression<'a>(
    source: &Source<'_>,
    outer: u32,
    tokens: &'a [Token],
) -> Result<(Expr, &'a [Token]), Halt>
    ensures { Tells (λ x. (expression x.0, x.1.now)) result (read_expression source.now.text.now source.now.turns outer tokens.now) }
{
    let (found, rest) = chain(Level::Or, source, DEPTH_LIMIT, outer, 1, tokens)?;
    Ok((found.tree, rest))
}
