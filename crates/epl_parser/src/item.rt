//! Reading the items and upgrades of an Edentype.
ghost use Rattle.std.specs.Prelude.{◌≡◌, ◌<◌, ◌+◌, ◌^◌, length, map};
ghost use Rattle.grammar.specs.Separated.{look_closed};
ghost use Rattle.grammar.specs.Tells.{Tells};
ghost use Rattle.epl_syntax.specs.declared.word.Word.TheVariants as word;
ghost use Rattle.epl_syntax.specs.Tree.{PlacedShape, Parameter, written, local_of, parameter, statement};
ghost use Rattle.epl_syntax.specs.Tree.{operation, process, change, upgrade, type_tree};
ghost use Rattle.epl_parser.specs.OneToken.{peeked, the_word, look_one};
ghost use Rattle.epl_parser.specs.Items.{item_head, member_head};
ghost use Rattle.epl_parser.specs.WrittenKinds.{read_written_kind};
ghost use Rattle.epl_parser.specs.ItemReader.{lower_kind, read_version, read_binding, read_local, read_locals};
ghost use Rattle.epl_parser.specs.ItemReader.{read_parameter};
ghost use Rattle.epl_parser.specs.ItemReader.{read_class, read_signature, read_code, read_operation, read_process, read_variable};
ghost use Rattle.epl_parser.specs.ItemReader.{read_condition, read_member, read_members, read_monitor, read_item};
ghost use Rattle.epl_parser.specs.ItemReader.{read_items, read_change, read_changes, read_conversion, read_upgrade, read_upgrades};
ghost use Rattle.epl_parser.specs.ItemReader.{read_edentype};

use crate::collect::{
    with_class, with_condition, with_monitor, with_operation, with_process, with_upgrades,
    with_variable, without_items,
};
use crate::constant_parser::constant;
use crate::expression_parser::expression;
use crate::kind_parser::written_kind;
use crate::lists::{Part, in_parens};
use crate::parens::{lower_behind, take_lower, take_upper};
use crate::reading::{
    Source, number_behind, peek_mark, peek_word, take_found, take_mark, take_word,
};
use crate::statement::body;
use epl_syntax::{
    Assignment, ClassDecl, CondDecl, LocalDecl, Mark, Number, OpDecl, ParDecl, ProcDecl, Program,
    Stmt, Token, TokenKind, UpgradeDecl, VarDecl, Word, WrittenKind,
};
use grammar::Halt;

/// What an item begins with.
#[derive(Clone, Copy)]
pub(crate) enum ItemHead {
    Durable,
    Working,
    Class,
    Monitor,
    Operation,
    Process,
}

/// What a part of a monitor begins with.
#[derive(Clone, Copy)]
pub(crate) enum MemberHead {
    Durable,
    Working,
    Condition,
}

#[tactic(auto, unfolding(crate::specs::Items::item_head))]
fn item_head(kind: TokenKind) -> Option<ItemHead>
    ensures { result ≡ item_head kind }
{
    match kind {
        TokenKind::Word {
            word: Word::Durable,
        } => Some(ItemHead::Durable),
        TokenKind::Word {
            word: Word::Working,
        } => Some(ItemHead::Working),
        TokenKind::Word { word: Word::Class } => Some(ItemHead::Class),
        TokenKind::Word {
            word: Word::Monitor,
        } => Some(ItemHead::Monitor),
        TokenKind::Word {
            word: Word::Operation,
        } => Some(ItemHead::Operation),
        TokenKind::Word {
            word: Word::Process,
        } => Some(ItemHead::Process),
        _ => None,
    }
}

#[tactic(auto, unfolding(crate::specs::Items::member_head))]
fn member_head(kind: TokenKind) -> Option<MemberHead>
    ensures { result ≡ member_head kind }
{
    match kind {
        TokenKind::Word {
            word: Word::Durable,
        } => Some(MemberHead::Durable),
        TokenKind::Word {
            word: Word::Working,
        } => Some(MemberHead::Working),
        TokenKind::Word {
            word: Word::Condition,
        } => Some(MemberHead::Condition),
        _ => None,
    }
}

// ---- variables and parameters

/// A name and its kind.
#[tactic(auto, unfolding(crate::specs::ItemReader::read_parameter))]
fn parameter<'a>(source: &Source<'_>, tokens: &'a [Token]) -> Result<(ParDecl, &'a [Token]), Halt>
    ensures { Tells (λ x. (parameter x.0, x.1.now)) result (read_parameter source.now.text.now source.now.turns tokens.now) }
{
    let (name, rest) = take_lower(source, 0, tokens)?;
    let (_, rest) = take_mark(Mark::Colon, 0, rest)?;
    let (kind, rest) = written_kind(source.alloc, 0, rest)?;
    Ok((ParDecl { name, kind }, rest))
}

/// A name, its kind and what it holds at first.
#[tactic(auto, unfolding(crate::specs::ItemReader::read_binding))]
fn binding<'a>(source: &Source<'_>, tokens: &'a [Token]) -> Result<(LocalDecl, &'a [Token]), Halt>
    ensures { Tells (λ x. (local_of x.0, x.1.now)) result (read_binding source.now.text.now source.now.turns tokens.now) }
{
    let (ParDecl { name, kind }, rest) = parameter(source, tokens)?;
    let (_, rest) = take_mark(Mark::Equal, 0, rest)?;
    let (start, rest) = constant(source, 0, rest)?;
    Ok((LocalDecl { name, kind, start }, rest))
}

#[tactic(auto, unfolding(crate::specs::ItemReader::read_local))]
fn local<'a>(source: &Source<'_>, tokens: &'a [Token]) -> Result<(LocalDecl, &'a [Token]), Halt>
    ensures { Tells (λ x. (local_of x.0, x.1.now)) result (read_local source.now.text.now source.now.turns tokens.now) }
{
    let (_, rest) = take_word(Word::Var, 0, tokens)?;
    binding(source, rest)
}

/// The variables of an operation or a process.
#[tactic(auto, unfolding(crate::specs::ItemReader::read_locals))]
fn locals<'a>(
    source: &Source<'_>,
    tokens: &'a [Token],
) -> Result<(Vec<LocalDecl>, &'a [Token]), Halt>
    ensures { Tells (λ x. (map local_of x.0.items, x.1.now)) result (read_locals source.now.text.now source.now.turns tokens.now) }
{
    let mut rest = tokens;
    let mut found = Vec::new(source.alloc);
    let mut left = source.turns;
    while left > 0 {
        let Some(_) = peek_word(Word::Var, rest) else {
            return Ok((found, rest));
        };
        let (next, behind) = local(source, rest)?;
        found.push(next)?;
        rest = behind;
        left -= 1;
    }
    unreachable!()
}

impl Part for ParDecl {
    ghost Tree = { Parameter };

    ghost tree = { parameter };

    ghost reader = { λ bytes turns depth. read_parameter bytes turns };

    fn read<'a>(
        source: &Source<'_>,
        _depth: u32,
        tokens: &'a [Token],
    ) -> Result<(ParDecl, &'a [Token]), Halt> {
        parameter(source, tokens)
    }
}

impl Part for WrittenKind {
    ghost Tree = { PlacedShape };

    ghost tree = { written };

    ghost reader = { λ bytes turns depth. read_written_kind depth };

    fn read<'a>(
        source: &Source<'_>,
        depth: u32,
        tokens: &'a [Token],
    ) -> Result<(WrittenKind, &'a [Token]), Halt> {
        written_kind(source.alloc, depth, tokens)
    }
}

// ---- items, behind their first words

#[tactic(auto, unfolding(crate::specs::ItemReader::read_class))]
fn class<'a>(source: &Source<'_>, tokens: &'a [Token]) -> Result<(ClassDecl, &'a [Token]), Halt>
    ensures { Tells (λ x. (x.0, x.1.now)) result (read_class source.now.text.now source.now.turns tokens.now) }
{
    let (name, rest) = take_lower(source, 0, tokens)?;
    let (limit, rest) = number_behind(Word::Limit, 0, rest)?;
    Ok((ClassDecl { name, limit }, rest))
}

/// The parameters and the results of an operation.
#[tactic(auto, unfolding(crate::specs::ItemReader::read_signature, crate::specs::ItemReader::read_parameter_list, crate::specs::ItemReader::read_parameters, crate::specs::ItemReader::read_results, crate::specs::ItemReader::read_kinds))]
fn signature<'a>(
    source: &Source<'_>,
    tokens: &'a [Token],
) -> Result<((Vec<ParDecl>, Vec<WrittenKind>), &'a [Token]), Halt>
    ensures { Tells (λ x. ((map parameter x.0.0.items, map written x.0.1.items), x.1.now)) result
        (read_signature source.now.text.now source.now.turns tokens.now) }
{
    let (params, rest) = in_parens(source, 0, tokens)?;
    let (_, rest) = take_word(Word::Returns, 0, rest)?;
    let (results, rest) = in_parens(source, 0, rest)?;
    Ok(((params, results), rest))
}

/// The variables and the statements of an operation or a process, up to its end.
#[tactic(auto, unfolding(crate::specs::ItemReader::read_code))]
fn code<'a>(
    source: &Source<'_>,
    tokens: &'a [Token],
) -> Result<((Vec<LocalDecl>, Vec<Stmt>), &'a [Token]), Halt>
    ensures { Tells (λ x. ((map local_of x.0.0.items, map statement x.0.1.items), x.1.now)) result
        (read_code source.now.text.now source.now.turns tokens.now) }
{
    let (locals, rest) = locals(source, tokens)?;
    let (body, rest) = body(source, rest)?;
    let (_, rest) = take_word(Word::End, 0, rest)?;
    Ok(((locals, body), rest))
}

#[tactic(auto, unfolding(crate::specs::ItemReader::read_operation))]
fn operation<'a>(source: &Source<'_>, tokens: &'a [Token]) -> Result<(OpDecl, &'a [Token]), Halt>
    ensures { Tells (λ x. (operation x.0, x.1.now)) result (read_operation source.now.text.now source.now.turns tokens.now) }
{
    let (name, rest) = take_upper(source, 0, tokens)?;
    let (needs, rest) = number_behind(Word::Needs, 0, rest)?;
    let (class, rest) = lower_behind(Word::Class, source, 0, rest)?;
    let ((params, results), rest) = signature(source, rest)?;
    let ((locals, body), rest) = code(source, rest)?;
    Ok((
        OpDecl {
            name,
            needs,
            class,
            params,
            results,
            locals,
            body,
        },
        rest,
    ))
}

#[tactic(auto, unfolding(crate::specs::ItemReader::read_process))]
fn process<'a>(source: &Source<'_>, tokens: &'a [Token]) -> Result<(ProcDecl, &'a [Token]), Halt>
    ensures { Tells (λ x. (process x.0, x.1.now)) result (read_process source.now.text.now source.now.turns tokens.now) }
{
    let (name, rest) = take_upper(source, 0, tokens)?;
    let ((locals, body), rest) = code(source, rest)?;
    Ok((ProcDecl { name, locals, body }, rest))
}

/// A variable of the type, in the monitor of this number or in none.
#[tactic(auto, unfolding(crate::specs::ItemReader::read_variable))]
fn variable<'a>(
    source: &Source<'_>,
    durable: bool,
    monitor: u32,
    program: Program,
    tokens: &'a [Token],
) -> Result<(Program, &'a [Token]), Halt>
    ensures { Tells (λ x. (type_tree x.0, x.1.now)) result
        (read_variable source.now.text.now source.now.turns durable monitor (type_tree program) tokens.now) }
{
    let (LocalDecl { name, kind, start }, rest) = binding(source, tokens)?;
    let v = VarDecl {
        name,
        kind,
        durable,
        start,
        monitor,
    };
    Ok((with_variable(program, v)?, rest))
}

#[tactic(auto, unfolding(crate::specs::ItemReader::read_condition))]
fn condition<'a>(
    source: &Source<'_>,
    monitor: u32,
    program: Program,
    tokens: &'a [Token],
) -> Result<(Program, &'a [Token]), Halt>
    ensures { Tells (λ x. (type_tree x.0, x.1.now)) result
        (read_condition source.now.text.now source.now.turns monitor (type_tree program) tokens.now) }
{
    let (name, rest) = take_lower(source, 0, tokens)?;
    let c = CondDecl { name, monitor };
    Ok((with_condition(program, c)?, rest))
}

fn peek_member(tokens: &[Token]) -> Option<MemberHead>
    ensures { result ≡ peeked (λ t. member_head t.kind) tokens.now }
{
    member_head(tokens.first()?.kind)
}

#[tactic(auto, using(crate::proofs::Steps::take_is_look))]
fn take_member(tokens: &[Token]) -> Result<(MemberHead, &[Token]), Halt>
    ensures { Tells (λ x. (x.0, x.1.now)) result (look_one 0 (λ t. member_head t.kind) tokens.now) }
{
    take_found(0, peek_member(tokens), tokens)
}

/// A part of the monitor of this number.
#[tactic(auto, unfolding(crate::specs::ItemReader::read_member))]
fn member<'a>(
    source: &Source<'_>,
    monitor: u32,
    program: Program,
    tokens: &'a [Token],
) -> Result<(Program, &'a [Token]), Halt>
    ensures { Tells (λ x. (type_tree x.0, x.1.now)) result
        (read_member source.now.text.now source.now.turns monitor (type_tree program) tokens.now) }
{
    let (head, rest) = take_member(tokens)?;
    match head {
        MemberHead::Durable => variable(source, true, monitor, program, rest),
        MemberHead::Working => variable(source, false, monitor, program, rest),
        MemberHead::Condition => condition(source, monitor, program, rest),
    }
}

/// The parts of the monitor of this number.
#[tactic(auto, unfolding(crate::specs::ItemReader::read_members))]
fn members<'a>(
    source: &Source<'_>,
    monitor: u32,
    program: Program,
    tokens: &'a [Token],
) -> Result<(Program, &'a [Token]), Halt>
    ensures { Tells (λ x. (type_tree x.0, x.1.now)) result
        (read_members source.now.text.now source.now.turns monitor (type_tree program) tokens.now) }
{
    let mut rest = tokens;
    let mut found = program;
    let mut left = source.turns;
    while left > 0 {
        let Some(_) = peek_member(rest) else {
            return Ok((found, rest));
        };
        let (next, behind) = member(source, monitor, found, rest)?;
        found = next;
        rest = behind;
        left -= 1;
    }
    unreachable!()
}

/// The parts of the monitor of this number, up to its end.
fn ended_members<'a>(
    source: &Source<'_>,
    monitor: u32,
    program: Program,
    tokens: &'a [Token],
) -> Result<(Program, &'a [Token]), Halt>
    ensures { Tells (λ x. (type_tree x.0, x.1.now)) result (look_closed 32 0 (the_word word.End)
        (read_members source.now.text.now source.now.turns monitor (type_tree program)) tokens.now) }
{
    let (program, rest) = members(source, monitor, program, tokens)?;
    let (_, rest) = take_word(Word::End, 0, rest)?;
    Ok((program, rest))
}

/// What stands behind `monitor`.
#[tactic(auto, unfolding(crate::specs::ItemReader::read_monitor))]
fn monitor<'a>(
    source: &Source<'_>,
    program: Program,
    tokens: &'a [Token],
) -> Result<(Program, &'a [Token]), Halt>
    requires few { length program.monitors.items + length tokens.now < 2 ^ 32 }
    ensures { Tells (λ x. (type_tree x.0, x.1.now)) result
        (read_monitor source.now.text.now source.now.turns (type_tree program) tokens.now) }
{
    let (name, rest) = take_upper(source, 0, tokens)?;
    let number = next_number(program.monitors.len());
    let program = with_monitor(program, name)?;
    ended_members(source, number, program, rest)
}

/// The number behind `count`.
fn next_number(count: usize) -> u32
    requires { count + 1 < 2 ^ 32 }
    ensures { result ≡ count + 1 }
{
    count as u32 + 1
}

fn peek_item_head(tokens: &[Token]) -> Option<ItemHead>
    ensures { result ≡ peeked (λ t. item_head t.kind) tokens.now }
{
    item_head(tokens.first()?.kind)
}

#[tactic(auto, using(crate::proofs::Steps::take_is_look))]
fn take_item_head(tokens: &[Token]) -> Result<(ItemHead, &[Token]), Halt>
    ensures { Tells (λ x. (x.0, x.1.now)) result (look_one 0 (λ t. item_head t.kind) tokens.now) }
{
    take_found(0, peek_item_head(tokens), tokens)
}

/// An item, added to the type.
#[tactic(auto, unfolding(crate::specs::ItemReader::read_item))]
fn item<'a>(
    source: &Source<'_>,
    program: Program,
    tokens: &'a [Token],
) -> Result<(Program, &'a [Token]), Halt>
    requires few { length program.monitors.items + length tokens.now < 2 ^ 32 }
    ensures { Tells (λ x. (type_tree x.0, x.1.now)) result (read_item source.now.text.now source.now.turns (type_tree program) tokens.now) }
{
    let (head, rest) = take_item_head(tokens)?;
    match head {
        ItemHead::Durable => variable(source, true, 0, program, rest),
        ItemHead::Working => variable(source, false, 0, program, rest),
        ItemHead::Class => {
            let (c, rest) = class(source, rest)?;
            Ok((with_class(program, c)?, rest))
        }
        ItemHead::Monitor => monitor(source, program, rest),
        ItemHead::Operation => {
            let (o, rest) = operation(source, rest)?;
            Ok((with_operation(program, o)?, rest))
        }
        ItemHead::Process => {
            let (p, rest) = process(source, rest)?;
            Ok((with_process(program, p)?, rest))
        }
    }
}

/// The items of a type.
#[tactic(auto, unfolding(crate::specs::ItemReader::read_items))]
fn items<'a>(
    source: &Source<'_>,
    program: Program,
    tokens: &'a [Token],
) -> Result<(Program, &'a [Token]), Halt>
    requires few { length program.monitors.items + length tokens.now < 2 ^ 32 }
    ensures { Tells (λ x. (type_tree x.0, x.1.now)) result
        (read_items source.now.text.now source.now.turns (type_tree program) tokens.now) }
{
    let mut rest = tokens;
    let mut found = program;
    let mut left = source.turns;
    while left > 0 {
        let Some(_) = peek_item_head(rest) else {
            return Ok((found, rest));
        };
        let (next, behind) = item(source, found, rest)?;
        found = next;
        rest = behind;
        left -= 1;
    }
    unreachable!()
}

// ---- upgrades

#[tactic(auto, unfolding(crate::specs::ItemReader::read_change))]
fn change<'a>(source: &Source<'_>, tokens: &'a [Token]) -> Result<(Assignment, &'a [Token]), Halt>
    ensures { Tells (λ x. (change x.0, x.1.now)) result (read_change source.now.text.now source.now.turns tokens.now) }
{
    let (name, rest) = take_lower(source, 0, tokens)?;
    let (_, rest) = take_mark(Mark::Assign, 0, rest)?;
    let (value, rest) = expression(source, 0, rest)?;
    Ok((Assignment { name, value }, rest))
}

/// Whether a name with a small first letter comes.
#[tactic(auto, unfolding(crate::specs::ItemReader::lower_kind))]
fn peek_lower(tokens: &[Token]) -> Option<()>
    ensures { result ≡ peeked (λ t. lower_kind t.kind) tokens.now }
{
    let token = tokens.first()?;
    match token.kind {
        TokenKind::Lower => Some(()),
        _ => None,
    }
}

/// The assignments of an upgrade.
#[tactic(auto, unfolding(crate::specs::ItemReader::read_changes))]
fn changes<'a>(
    source: &Source<'_>,
    tokens: &'a [Token],
) -> Result<(Vec<Assignment>, &'a [Token]), Halt>
    ensures { Tells (λ x. (map change x.0.items, x.1.now)) result (read_changes source.now.text.now source.now.turns tokens.now) }
{
    let mut rest = tokens;
    let mut found = Vec::new(source.alloc);
    let mut left = source.turns;
    while left > 0 {
        let Some(_) = peek_lower(rest) else {
            return Ok((found, rest));
        };
        let (next, behind) = change(source, rest)?;
        found.push(next)?;
        rest = behind;
        left -= 1;
    }
    unreachable!()
}

/// The parameters and the assignments of an upgrade, up to its end.
#[tactic(auto, unfolding(crate::specs::ItemReader::read_conversion, crate::specs::ItemReader::read_parameter_list, crate::specs::ItemReader::read_parameters))]
fn conversion<'a>(
    source: &Source<'_>,
    tokens: &'a [Token],
) -> Result<((Vec<ParDecl>, Vec<Assignment>), &'a [Token]), Halt>
    ensures { Tells (λ x. ((map parameter x.0.0.items, map change x.0.1.items), x.1.now)) result
        (read_conversion source.now.text.now source.now.turns tokens.now) }
{
    let (params, rest) = in_parens(source, 0, tokens)?;
    let (assignments, rest) = changes(source, rest)?;
    let (_, rest) = take_word(Word::End, 0, rest)?;
    Ok(((params, assignments), rest))
}

#[tactic(auto, unfolding(crate::specs::ItemReader::read_upgrade))]
fn upgrade<'a>(source: &Source<'_>, tokens: &'a [Token]) -> Result<(UpgradeDecl, &'a [Token]), Halt>
    ensures { Tells (λ x. (upgrade x.0, x.1.now)) result (read_upgrade source.now.text.now source.now.turns tokens.now) }
{
    let (first, rest) = take_word(Word::Upgrade, 0, tokens)?;
    let (from, rest) = number_behind(Word::From, 0, rest)?;
    let ((params, assignments), rest) = conversion(source, rest)?;
    let place = first.start;
    Ok((
        UpgradeDecl {
            from,
            params,
            assignments,
            place,
        },
        rest,
    ))
}

/// The upgrades of a type.
#[tactic(auto, unfolding(crate::specs::ItemReader::read_upgrades))]
fn upgrades<'a>(
    source: &Source<'_>,
    tokens: &'a [Token],
) -> Result<(Vec<UpgradeDecl>, &'a [Token]), Halt>
    ensures { Tells (λ x. (map upgrade x.0.items, x.1.now)) result (read_upgrades source.now.text.now source.now.turns tokens.now) }
{
    let mut rest = tokens;
    let mut found = Vec::new(source.alloc);
    let mut left = source.turns;
    while left > 0 {
        let Some(_) = peek_word(Word::Upgrade, rest) else {
            return Ok((found, rest));
        };
        let (next, behind) = upgrade(source, rest)?;
        found.push(next)?;
        rest = behind;
        left -= 1;
    }
    unreachable!()
}

// ---- the type

/// The version, where one is written.
#[tactic(auto, unfolding(crate::specs::ItemReader::read_version), using(crate::proofs::RowLoops::if_over, crate::proofs::RowLoops::if_on))]
fn version(tokens: &[Token]) -> Result<(Option<Number>, &[Token]), Halt>
    ensures { Tells (λ x. (x.0, x.1.now)) result (read_version tokens.now) }
{
    let Some(_) = peek_word(Word::Version, tokens) else {
        return Ok((None, tokens));
    };
    let (number, rest) = number_behind(Word::Version, 0, tokens)?;
    Ok((Some(number), rest))
}

/// An Edentype, and the tokens behind it.
#[tactic(auto, unfolding(crate::specs::ItemReader::read_edentype))]
pub(crate) fn edentype<'a>(
    source: &Source<'_>,
    tokens: &'a [Token],
) -> Result<(Program, &'a [Token]), Halt>
    requires few { length tokens.now < 2 ^ 32 }
    ensures { Tells (λ x. (type_tree x.0, x.1.now)) result (read_edentype source.now.text.now source.now.turns tokens.now) }
{
    let (_, rest) = take_word(Word::Edentype, 0, tokens)?;
    let (name, rest) = take_upper(source, 0, rest)?;
    let (version, rest) = version(rest)?;
    let program = without_items(source.alloc, name, version);
    let (program, rest) = items(source, program, rest)?;
    let (upgrades, rest) = upgrades(source, rest)?;
    let (_, rest) = take_word(Word::Endtype, 0, rest)?;
    Ok((with_upgrades(program, upgrades), rest))
}
