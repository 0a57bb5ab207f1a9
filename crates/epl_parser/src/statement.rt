//! Reading statements.
ghost use Rattle.std.specs.Prelude.{◌≡◌, ◌<◌, ◌≤◌, ◌+◌, suc, IfOk, map};
ghost use Rattle.grammar.specs.Separated.{look_closed};
ghost use Rattle.grammar.specs.Tells.{Tells};
ghost use Rattle.epl_syntax.specs.declared.word.Word.TheVariants as word;
ghost use Rattle.epl_syntax.specs.Tree.{expression, statement, statements};
ghost use Rattle.epl_parser.specs.OneToken.{peeked, headed, the_word, look_one};
ghost use Rattle.epl_parser.specs.Statements.{statement_head, the_target, IsPlain};
ghost use Rattle.epl_parser.specs.StatementReader.{read_assign, read_receiver, read_create, read_request, read_invoke};
ghost use Rattle.epl_parser.specs.StatementReader.{read_return, read_plain};
ghost use Rattle.epl_parser.specs.StatementReader.{read_else, read_tested, read_branches, read_if, read_while, read_with, inner_block};
ghost use Rattle.epl_parser.specs.StatementReader.{read_statement, read_statements, read_body};

use crate::build::{make_if, make_while, make_with};
use crate::expression_parser::expression;
use crate::lists::in_parens;
use crate::parens::{lower_behind, optional_gives, take_lower, take_upper};
use crate::reading::{DEPTH_LIMIT, Source, name_of, peek_word, take_found, take_mark, take_word};
use epl_syntax::{Expr, Mark, Name, Stmt, Target, Token, TokenKind, Word};
use grammar::Halt;

/// What a statement begins with.
#[derive(Clone, Copy)]
pub(crate) enum StatementHead {
    Assign,
    If,
    While,
    With,
    Wait,
    Signal,
    Yield,
    Deactivate,
    Checkpoint,
    Destroy,
    Create,
    Invoke,
    Return,
}

#[tactic(auto, unfolding(crate::specs::Statements::statement_head))]
pub(crate) fn statement_head(kind: TokenKind) -> Option<StatementHead>
    ensures { result ≡ statement_head kind }
{
    match kind {
        TokenKind::Lower => Some(StatementHead::Assign),
        TokenKind::Word { word: Word::If } => Some(StatementHead::If),
        TokenKind::Word { word: Word::While } => Some(StatementHead::While),
        TokenKind::Word { word: Word::With } => Some(StatementHead::With),
        TokenKind::Word { word: Word::Wait } => Some(StatementHead::Wait),
        TokenKind::Word { word: Word::Signal } => Some(StatementHead::Signal),
        TokenKind::Word { word: Word::Yield } => Some(StatementHead::Yield),
        TokenKind::Word {
            word: Word::Deactivate,
        } => Some(StatementHead::Deactivate),
        TokenKind::Word {
            word: Word::Checkpoint,
        } => Some(StatementHead::Checkpoint),
        TokenKind::Word {
            word: Word::Destroy,
        } => Some(StatementHead::Destroy),
        TokenKind::Word { word: Word::Create } => Some(StatementHead::Create),
        TokenKind::Word { word: Word::Invoke } => Some(StatementHead::Invoke),
        TokenKind::Word { word: Word::Return } => Some(StatementHead::Return),
        _ => None,
    }
}

/// The first token's head of a statement, with the token.
fn peek_head(tokens: &[Token]) -> Option<(StatementHead, Token)>
    ensures { result ≡ peeked (headed statement_head) tokens.now }
{
    let token = tokens.first()?;
    Some((statement_head(token.kind)?, *token))
}

#[tactic(auto, using(crate::proofs::Steps::take_is_look))]
fn take_head(depth: u32, tokens: &[Token]) -> Result<((StatementHead, Token), &[Token]), Halt>
    ensures tells { Tells (λ x. (x.0, x.1.now)) result (look_one depth (headed statement_head) tokens.now) }
    ensures fits { IfOk result (λ x. depth ≤ 32) }
{
    take_found(depth, peek_head(tokens), tokens)
}

/// Whom an invocation is sent to, and the tokens behind it.
#[tactic(auto, unfolding(crate::specs::Statements::the_target))]
fn take_target<'a>(
    source: &Source<'_>,
    depth: u32,
    tokens: &'a [Token],
) -> Result<(Target, &'a [Token]), Halt>
    ensures { Tells (λ x. (x.0, x.1.now)) result (look_one depth (the_target source.now.text.now) tokens.now) }
{
    let Some((token, rest)) = tokens.split_first() else {
        return Err(Halt::Bad { left: 0 });
    };
    match token.kind {
        TokenKind::Lower => {
            if depth > DEPTH_LIMIT {
                return Err(Halt::Deep { left: tokens.len() });
            }
            let name = name_of(source.alloc, source.text, *token)?;
            Ok((Target::Name { name }, rest))
        }
        TokenKind::Word { word: Word::Me } => {
            if depth > DEPTH_LIMIT {
                return Err(Halt::Deep { left: tokens.len() });
            }
            Ok((Target::Me { place: token.start }, rest))
        }
        _ => Err(Halt::Bad { left: tokens.len() }),
    }
}

// ---- statements without statements, behind their first token

#[tactic(auto, unfolding(crate::specs::StatementReader::read_assign))]
fn assign<'a>(
    source: &Source<'_>,
    depth: u32,
    token: Token,
    tokens: &'a [Token],
) -> Result<(Stmt, &'a [Token]), Halt>
    ensures { Tells (λ x. (statement x.0, x.1.now)) result (read_assign source.now.text.now source.now.turns depth token tokens.now) }
{
    let (_, rest) = take_mark(Mark::Assign, depth, tokens)?;
    let (value, rest) = expression(source, depth, rest)?;
    let name = name_of(source.alloc, source.text, token)?;
    Ok((Stmt::Assign { name, value }, rest))
}

/// The one variable that takes what a `create` gives.
#[tactic(auto, unfolding(crate::specs::StatementReader::read_receiver))]
fn receiver<'a>(
    source: &Source<'_>,
    depth: u32,
    tokens: &'a [Token],
) -> Result<(Name, &'a [Token]), Halt>
    ensures { Tells (λ x. (x.0, x.1.now)) result (read_receiver source.now.text.now source.now.turns depth tokens.now) }
{
    let (_, rest) = take_word(Word::Gives, depth, tokens)?;
    let (_, rest) = take_mark(Mark::Open, depth, rest)?;
    let (name, rest) = take_lower(source, depth, rest)?;
    let (_, rest) = take_mark(Mark::Close, depth, rest)?;
    Ok((name, rest))
}

#[tactic(auto, unfolding(crate::specs::StatementReader::read_create))]
fn create<'a>(
    source: &Source<'_>,
    depth: u32,
    token: Token,
    tokens: &'a [Token],
) -> Result<(Stmt, &'a [Token]), Halt>
    ensures { Tells (λ x. (statement x.0, x.1.now)) result (read_create source.now.text.now source.now.turns depth token tokens.now) }
{
    let (type_name, rest) = take_upper(source, depth, tokens)?;
    let (status, rest) = lower_behind(Word::Status, source, depth, rest)?;
    let (gives, rest) = receiver(source, depth, rest)?;
    let place = token.start;
    Ok((
        Stmt::Create {
            type_name,
            status,
            gives,
            place,
        },
        rest,
    ))
}

/// The operation that is invoked, and its arguments.
#[tactic(auto, unfolding(crate::specs::StatementReader::read_request, crate::specs::StatementReader::read_expressions))]
fn request<'a>(
    source: &Source<'_>,
    depth: u32,
    tokens: &'a [Token],
) -> Result<((Name, Vec<Expr>), &'a [Token]), Halt>
    ensures { Tells (λ x. ((x.0.0, map expression x.0.1.items), x.1.now)) result
        (read_request source.now.text.now source.now.turns depth tokens.now) }
{
    let (_, rest) = take_mark(Mark::Dot, depth, tokens)?;
    let (operation, rest) = take_upper(source, depth, rest)?;
    let (args, rest) = in_parens(source, depth, rest)?;
    Ok(((operation, args), rest))
}

#[tactic(auto, unfolding(crate::specs::StatementReader::read_invoke))]
fn invoke<'a>(
    source: &Source<'_>,
    depth: u32,
    token: Token,
    tokens: &'a [Token],
) -> Result<(Stmt, &'a [Token]), Halt>
    ensures { Tells (λ x. (statement x.0, x.1.now)) result (read_invoke source.now.text.now source.now.turns depth token tokens.now) }
{
    let (target, rest) = take_target(source, depth, tokens)?;
    let ((operation, args), rest) = request(source, depth, rest)?;
    let (status, rest) = lower_behind(Word::Status, source, depth, rest)?;
    let (gives, rest) = optional_gives(source, depth, rest)?;
    let place = token.start;
    Ok((
        Stmt::Invoke {
            target,
            operation,
            args,
            status,
            gives,
            place,
        },
        rest,
    ))
}

#[tactic(auto, unfolding(crate::specs::StatementReader::read_return, crate::specs::StatementReader::read_expressions))]
fn make_return<'a>(
    source: &Source<'_>,
    depth: u32,
    token: Token,
    tokens: &'a [Token],
) -> Result<(Stmt, &'a [Token]), Halt>
    ensures { Tells (λ x. (statement x.0, x.1.now)) result (read_return source.now.text.now source.now.turns depth token tokens.now) }
{
    let (results, rest) = in_parens(source, depth, tokens)?;
    let place = token.start;
    Ok((Stmt::Return { results, place }, rest))
}

/// What stands behind the first token of a statement in which no statements stand.
#[tactic(auto, unfolding(crate::specs::StatementReader::read_plain))]
fn plain<'a>(
    source: &Source<'_>,
    depth: u32,
    head: StatementHead,
    token: Token,
    tokens: &'a [Token],
) -> Result<(Stmt, &'a [Token]), Halt>
    requires { IsPlain head }
    ensures { Tells (λ x. (statement x.0, x.1.now)) result (read_plain source.now.text.now source.now.turns depth head token tokens.now) }
{
    let place = token.start;
    match head {
        StatementHead::Assign => assign(source, depth, token, tokens),
        StatementHead::Wait => {
            let (condition, rest) = take_lower(source, depth, tokens)?;
            Ok((Stmt::Wait { condition, place }, rest))
        }
        StatementHead::Signal => {
            let (condition, rest) = take_lower(source, depth, tokens)?;
            Ok((Stmt::Signal { condition, place }, rest))
        }
        StatementHead::Yield => Ok((Stmt::Yield { place }, tokens)),
        StatementHead::Deactivate => Ok((Stmt::Deactivate { place }, tokens)),
        StatementHead::Checkpoint => {
            let (status, rest) = take_lower(source, depth, tokens)?;
            Ok((Stmt::Checkpoint { status, place }, rest))
        }
        StatementHead::Destroy => {
            let (status, rest) = take_lower(source, depth, tokens)?;
            Ok((Stmt::Destroy { status, place }, rest))
        }
        StatementHead::Create => create(source, depth, token, tokens),
        StatementHead::Invoke => invoke(source, depth, token, tokens),
        StatementHead::Return => make_return(source, depth, token, tokens),
        // Statements with statements in them are read by `statement`.
        StatementHead::If | StatementHead::While | StatementHead::With => unreachable!(),
    }
}

// ---- statements in statements

/// The expression that is tested, and the word behind it.
fn tested<'a>(
    word: Word,
    source: &Source<'_>,
    depth: u32,
    tokens: &'a [Token],
) -> Result<(Expr, &'a [Token]), Halt>
    ensures { Tells (λ x. (expression x.0, x.1.now)) result
        (read_tested source.now.text.now source.now.turns word depth tokens.now) }
{
    let (test, rest) = expression(source, depth, tokens)?;
    let (_, rest) = take_word(word, depth, rest)?;
    Ok((test, rest))
}

/// What stands behind `if`.
#[cycle(statement)]
#[tactic(auto, unfolding(crate::specs::StatementReader::read_if, crate::specs::StatementReader::read_branches))]
fn if_rest<'a>(
    source: &Source<'_>,
    levels: u32,
    depth: u32,
    token: Token,
    tokens: &'a [Token],
) -> Result<(Stmt, &'a [Token]), Halt>
    requires depth { depth + levels ≡ 33 }
    requires inside { 0 < levels }
    ensures { Tells (λ x. (statement x.0, x.1.now)) result (read_if source.now.text.now source.now.turns levels depth token tokens.now) }
{
    let (test, rest) = tested(Word::Then, source, depth, tokens)?;
    let ((so, otherwise), rest) = branches(source, levels, depth, rest)?;
    Ok((make_if(test, so, otherwise, token.start), rest))
}

/// The statements behind `then` and those behind `else`, up to the end.
#[cycle(statement)]
#[tactic(auto, unfolding(crate::specs::StatementReader::read_branches, crate::specs::StatementReader::read_else))]
fn branches<'a>(
    source: &Source<'_>,
    levels: u32,
    depth: u32,
    tokens: &'a [Token],
) -> Result<((Vec<Stmt>, Vec<Stmt>), &'a [Token]), Halt>
    requires depth { depth + levels ≡ 33 }
    requires inside { 0 < levels }
    ensures { Tells (λ x. ((statements x.0.0.items, statements x.0.1.items), x.1.now)) result
        (read_branches source.now.text.now source.now.turns levels depth tokens.now) }
{
    let (so, rest) = block(source, levels, depth, tokens)?;
    let (otherwise, rest) = otherwise(source, levels, depth, rest)?;
    let (_, rest) = take_word(Word::End, depth, rest)?;
    Ok(((so, otherwise), rest))
}

/// The statements behind `else`, or none.
#[cycle(statement)]
#[tactic(auto, unfolding(crate::specs::StatementReader::read_else), using(crate::proofs::RowLoops::if_over, crate::proofs::RowLoops::if_on))]
fn otherwise<'a>(
    source: &Source<'_>,
    levels: u32,
    depth: u32,
    tokens: &'a [Token],
) -> Result<(Vec<Stmt>, &'a [Token]), Halt>
    requires depth { depth + levels ≡ 33 }
    requires inside { 0 < levels }
    ensures { Tells (λ x. (statements x.0.items, x.1.now)) result (read_else source.now.text.now source.now.turns levels depth tokens.now) }
{
    let Some(_) = peek_word(Word::Else, tokens) else {
        return Ok((Vec::new(source.alloc), tokens));
    };
    let (_, rest) = take_word(Word::Else, depth, tokens)?;
    block(source, levels, depth, rest)
}

/// What stands behind `while`.
#[cycle(statement)]
#[tactic(auto, unfolding(crate::specs::StatementReader::read_while))]
fn while_rest<'a>(
    source: &Source<'_>,
    levels: u32,
    depth: u32,
    token: Token,
    tokens: &'a [Token],
) -> Result<(Stmt, &'a [Token]), Halt>
    requires depth { depth + levels ≡ 33 }
    requires inside { 0 < levels }
    ensures { Tells (λ x. (statement x.0, x.1.now)) result (read_while source.now.text.now source.now.turns levels depth token tokens.now) }
{
    let (test, rest) = tested(Word::Do, source, depth, tokens)?;
    let (body, rest) = ended_block(source, levels, depth, rest)?;
    Ok((make_while(test, body, token.start), rest))
}

/// What stands behind `with`.
#[cycle(statement)]
#[tactic(auto, unfolding(crate::specs::StatementReader::read_with))]
fn with_rest<'a>(
    source: &Source<'_>,
    levels: u32,
    depth: u32,
    token: Token,
    tokens: &'a [Token],
) -> Result<(Stmt, &'a [Token]), Halt>
    requires depth { depth + levels ≡ 33 }
    requires inside { 0 < levels }
    ensures { Tells (λ x. (statement x.0, x.1.now)) result (read_with source.now.text.now source.now.turns levels depth token tokens.now) }
{
    let (monitor, rest) = take_upper(source, depth, tokens)?;
    let (_, rest) = take_word(Word::Do, depth, rest)?;
    let (body, rest) = ended_block(source, levels, depth, rest)?;
    Ok((make_with(monitor, body, token.start), rest))
}

/// The statements in one at this depth, up to its end.
#[cycle(statement)]
fn ended_block<'a>(
    source: &Source<'_>,
    levels: u32,
    depth: u32,
    tokens: &'a [Token],
) -> Result<(Vec<Stmt>, &'a [Token]), Halt>
    requires depth { depth + levels ≡ 33 }
    requires inside { 0 < levels }
    ensures { Tells (λ x. (statements x.0.items, x.1.now)) result (look_closed 32 depth (the_word word.End)
        (inner_block source.now.text.now source.now.turns levels (suc depth)) tokens.now) }
{
    let (found, rest) = block(source, levels, depth, tokens)?;
    let (_, rest) = take_word(Word::End, depth, rest)?;
    Ok((found, rest))
}

/// The statements in one at this depth.
#[cycle(statement)]
#[tactic(auto, using(crate::proofs::RowLoops::inner_block_is))]
fn block<'a>(
    source: &Source<'_>,
    levels: u32,
    depth: u32,
    tokens: &'a [Token],
) -> Result<(Vec<Stmt>, &'a [Token]), Halt>
    requires depth { depth + levels ≡ 33 }
    requires inside { 0 < levels }
    ensures { Tells (λ x. (statements x.0.items, x.1.now)) result
        (inner_block source.now.text.now source.now.turns levels (suc depth) tokens.now) }
{
    row(source, levels - 1, depth + 1, tokens)
}

/// A statement that stands in so many; `levels` more may stand in it.
#[cycle(statement)]
#[tactic(auto, unfolding(crate::specs::StatementReader::read_statement, crate::specs::StatementReader::read_plain, crate::specs::StatementReader::read_if, crate::specs::StatementReader::read_while, crate::specs::StatementReader::read_with))]
fn statement<'a>(
    source: &Source<'_>,
    levels: u32,
    depth: u32,
    tokens: &'a [Token],
) -> Result<(Stmt, &'a [Token]), Halt>
    requires { depth + levels ≡ 33 }
    ensures { Tells (λ x. (statement x.0, x.1.now)) result (read_statement source.now.text.now source.now.turns levels depth tokens.now) }
{
    let ((head, token), rest) = take_head(depth, tokens)?;
    match head {
        StatementHead::If => if_rest(source, levels, depth, token, rest),
        StatementHead::While => while_rest(source, levels, depth, token, rest),
        StatementHead::With => with_rest(source, levels, depth, token, rest),
        StatementHead::Assign
        | StatementHead::Wait
        | StatementHead::Signal
        | StatementHead::Yield
        | StatementHead::Deactivate
        | StatementHead::Checkpoint
        | StatementHead::Destroy
        | StatementHead::Create
        | StatementHead::Invoke
        | StatementHead::Return => plain(source, depth, head, token, rest),
    }
}

/// Statements one behind another, each at this depth; `levels` more may stand in each.
#[cycle(statement)]
#[tactic(auto, unfolding(crate::specs::StatementReader::read_statements, crate::specs::StatementReader::read_statement))]
fn row<'a>(
    source: &Source<'_>,
    levels: u32,
    depth: u32,
    tokens: &'a [Token],
) -> Result<(Vec<Stmt>, &'a [Token]), Halt>
    requires { depth + levels ≡ 33 }
    ensures { Tells (λ x. (map statement x.0.items, x.1.now)) result
        (read_statements source.now.text.now source.now.turns levels depth tokens.now) }
{
    let mut rest = tokens;
    let mut found = Vec::new(source.alloc);
    let mut left = source.turns;
    while left > 0 {
        let Some(_) = peek_head(rest) else {
            return Ok((found, rest));
        };
        let (next, behind) = statement(source, levels, depth, rest)?;
        found.push(next)?;
        rest = behind;
        left -= 1;
    }
    unreachable!()
}

/// The statements of an operation or a process.
#[tactic(auto, unfolding(crate::specs::StatementReader::read_body))]
pub(crate) fn body<'a>(
    source: &Source<'_>,
    tokens: &'a [Token],
) -> Result<(Vec<Stmt>, &'a [Token]), Halt>
    ensures { Tells (λ x. (map statement x.0.items, x.1.now)) result (read_body source.now.text.now source.now.turns tokens.now) }
{
    row(source, DEPTH_LIMIT, 1, tokens)
}
