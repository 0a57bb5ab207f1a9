//! Texts of types with a mark `|` before the token at which the one refusal is told.
use crate::texts::{built, once, resolved, type_of};
use epl_check::{CheckRefusal, check};
use epl_syntax::{Checked, Rule, Types};
use std::alloc::Global;
use std::process::Abort;

/// A rule, and texts that each break it at their mark, or without a rule, texts that keep all rules.
pub(crate) type Table = (Option<Rule>, &'static [&'static [u8]]);

/// Declares the type of a text, which keeps the rules with the types before it and has another name.
fn declare(rt: &impl Abort, alloc: Global, types: &mut Types, text: &[u8]) {
    let program = resolved(rt, alloc, text);
    match check(alloc, &program, types) {
        Ok(()) => {}
        Err(_) => panic!(rt; "a type breaks a rule"),
    }
    assert!(rt; !types.has(&program.name.text));
    let checked = Checked::of(Box::into_inner(program), types);
    types.add(checked).expect(rt, "memory");
}

/// The native types.
pub(crate) fn native_types(rt: &impl Abort, alloc: Global) -> Box<Types> {
    let types = Types::native(alloc).expect(rt, "memory");
    Box::new(alloc, types).expect(rt, "memory")
}

/// The native types, and `Older` and `Old` behind them.
pub(crate) fn types_with_older(rt: &impl Abort, alloc: Global) -> Box<Types> {
    let mut types = native_types(rt, alloc);
    declare(rt, alloc, &mut types, b"edentype Older endtype");
    declare(rt, alloc, &mut types, b"edentype Old endtype");
    types
}

/// The text without its marks, and the place of the last one.
fn unmarked(rt: &impl Abort, alloc: Global, marked: &[u8]) -> (Vec<u8>, usize) {
    let mut text = Vec::new(alloc);
    let mut place = 0;
    for byte in marked {
        if *byte == b'|' {
            place = text.len();
        } else {
            text.push(*byte).expect(rt, "memory");
        }
    }
    (text, place)
}

/// The rule of a refusal, and the place at which it is broken.
fn broken_by(rt: &impl Abort, refusal: CheckRefusal) -> (Rule, usize) {
    let (rule, place) = match refusal {
        CheckRefusal::UnknownName { place } => (Rule::UnknownName, place),
        CheckRefusal::KindDiffers { place } => (Rule::KindDiffers, place),
        CheckRefusal::Unguarded { place } => (Rule::Unguarded, place),
        CheckRefusal::Nested { place } => (Rule::Nested, place),
        CheckRefusal::Doubled { place } => (Rule::Doubled, place),
        CheckRefusal::BadLimit { place } => (Rule::BadLimit, place),
        CheckRefusal::OutOfMemory => panic!(rt; "memory"),
    };
    (rule, place as usize)
}

/// The rule that the type of a text breaks behind the types before it, if it breaks one, and the place.
fn broken(rt: &impl Abort, alloc: Global, types: &Types, text: &[u8]) -> Option<(Rule, usize)> {
    let program = type_of(rt, alloc, text);
    match check(alloc, &program, types) {
        Ok(()) => None,
        Err(refusal) => Some(broken_by(rt, refusal)),
    }
}

/// Whether a type keeps the rules behind the types before it, or breaks this one at the mark.
pub(crate) fn is_answered(
    rt: &impl Abort,
    alloc: Global,
    types: &Types,
    rule: Option<Rule>,
    marked: &[u8],
) -> bool {
    let (text, mark) = unmarked(rt, alloc, marked);
    let found = broken(rt, alloc, types, &text);
    match rule {
        Some(rule) => found == Some((rule, mark)),
        None => found.is_none(),
    }
}

/// What stands before a text and behind it.
type Frame<'a> = [&'a [u8]; 2];

/// Whether a text is answered so in a frame.
fn is_answered_in(
    rt: &impl Abort,
    alloc: Global,
    types: &Types,
    [front, back]: Frame<'_>,
    rule: Option<Rule>,
    text: &[u8],
) -> bool {
    let whole = built(rt, alloc, &[once(front), once(text), once(back)]);
    is_answered(rt, alloc, types, rule, &whole)
}

/// Each text of the tables is answered so in this frame.
pub(crate) fn all_are_answered(
    rt: &impl Abort,
    alloc: Global,
    types: &Types,
    frame: Frame<'_>,
    tables: &[Table],
) {
    for &(rule, texts) in tables {
        for i in 0..texts.len() {
            assert!(rt;
                is_answered_in(rt, alloc, types, frame, rule, texts[i]),
                "text {i} of {rule:?}"
            );
        }
    }
}
