//! What is told of causes, rules and forms.

ghost use Rattle.std.specs.Prelude.{◌≡◌, ◌++◌, map, IfOk, OnOk};
ghost use Rattle.script_words.specs.Form.{is_among};
ghost use Rattle.mistakes.specs.Words as words;

use eden_script::ScriptCause;
use epl_syntax::Rule;
use std::alloc::{AllocError, Global};

/// A word, and what is told of it.
type Entry = (&'static [u8], &'static [u8]);

/// The forms of commands.
const FORMS: [Entry; 15] = [
    (b"nodes", b"nodes N, with N from 1 to 8"),
    (b"create", b"create NAME N TYPE, with N a node"),
    (
        b"hold",
        b"hold NAME N.E.S, with N a node, E and S from 1 to 4294967295",
    ),
    (
        b"call",
        b"call NAME REF.OP(VALUE, VALUE), with any number of values",
    ),
    (
        b"restrict",
        b"restrict NAME REF MASK, with MASK from 0 to 65535",
    ),
    (b"walk", b"walk NAME REF \"PATH\""),
    (b"turn", b"turn I, with I from 0 to 1000000"),
    (b"go", b"go N, with N from 1 to 1000000"),
    (
        b"crash",
        b"crash N or crash N MODE, with N a node and MODE keep, lose or garble B",
    ),
    (b"restart", b"restart N, with N a node"),
    (
        b"cut",
        b"cut A B, with A and B two stations from 0 to the number of nodes",
    ),
    (
        b"join",
        b"join A B, with A and B two stations from 0 to the number of nodes",
    ),
    (b"fail", b"fail N K, with N a node and K from 1 to 1000000"),
    (
        b"stop",
        b"stop N K MODE, with N a node, K from 1 to 1000000, and MODE keep, lose or garble B",
    ),
    (b"end", b"end"),
];

/// Words that may stand wherever others may, each with one of those.
const COVERED: [Entry; 11] = [
    (b"a name that begins with a small letter", b"an expression"),
    (b"a name that begins with a small letter", b"a statement"),
    (b"a number", b"a constant"),
    (b"a constant", b"an expression"),
    (b"`self`", b"an expression"),
    (b"`(`", b"an expression"),
    (b"`[`", b"an expression"),
    (b"`[`", b"an operator"),
    (b"`=`", b"an operator"),
    (b"`class`", b"an item of a type"),
    (b"`durable` or `working`", b"an item of a type"),
];

/// What a table has for a word.
fn look_up(table: &[Entry], word: &[u8]) -> &'static [u8]
    ensures { result.now ≡ words.look_up (map (λ e. (e.0.now, e.1.now)) table.now) word.now }
{
    for entry in table {
        if word == entry.0 {
            return entry.1;
        }
    }
    b""
}

/// The form of the command with this word.
pub fn form_told(word: &[u8]) -> &'static [u8]
    ensures { result.now ≡ words.look_up words.forms word.now }
{
    look_up(&FORMS, word)
}

/// The words for a cause.
pub fn cause_word(cause: ScriptCause) -> &'static str
    ensures { result.now ≡ words.cause_text cause }
{
    match cause {
        ScriptCause::BadByte => "bad byte",
        ScriptCause::LongLine => "long line",
        ScriptCause::AfterEnd => "after end",
        ScriptCause::NoCommand => "no command",
        ScriptCause::Misplaced => "misplaced",
        ScriptCause::BadForm => "bad form",
        ScriptCause::BadNumber => "bad number",
        ScriptCause::UnknownName => "unknown name",
        ScriptCause::UnknownType => "unknown type",
        ScriptCause::DoubledName => "doubled name",
        ScriptCause::BadEdentype => "bad edentype",
        ScriptCause::NoEnd => "no end",
    }
}

/// The words for a rule.
pub fn rule_word(rule: Rule) -> &'static str
    ensures { result.now ≡ words.rule_text rule }
{
    match rule {
        Rule::UnknownName => "unknown name",
        Rule::KindDiffers => "kind differs",
        Rule::Unguarded => "unguarded",
        Rule::Nested => "nested",
        Rule::Doubled => "doubled",
        Rule::BadLimit => "bad limit",
    }
}

/// What a rule asks for.
pub fn rule_told(rule: Rule) -> &'static str
    ensures { result.now ≡ words.rule_wanted rule }
{
    match rule {
        Rule::UnknownName =>
            "a name that is declared for this place; of a type: a native one, one that stands before, or this one",
        Rule::KindDiffers =>
            "the kind that is declared for this place; at `return` the kinds behind `returns`, and none in a process",
        Rule::Unguarded => "a `with` of its monitor around it",
        Rule::Nested => "no `with` inside a `with`",
        Rule::Doubled => "a name or a number that does not stand before in the same scope",
        Rule::BadLimit =>
            "a number within its limits, a kind at most 4 lists deep, and no more of these than a type may have",
    }
}

/// What was wanted of a line that is bad for a cause other than its form.
pub fn line_told(cause: ScriptCause) -> &'static str
    ensures { result.now ≡ words.whole_line_wanted cause }
{
    match cause {
        ScriptCause::BadByte => "bytes from 0x20 to 0x7E alone",
        ScriptCause::LongLine => "at most 4096 bytes",
        ScriptCause::AfterEnd => "nothing behind `end` but empty lines and comments",
        ScriptCause::NoCommand =>
            "nodes, create, hold, call, restrict, walk, turn, go, crash, restart, cut, join, fail, stop or end",
        ScriptCause::Misplaced => "the types first, then `nodes` once, and then the other commands",
        ScriptCause::UnknownName => "a name that a line before introduces",
        ScriptCause::UnknownType =>
            "Cell, Directory, Lines, Take, Skip, Only, Number, Sink, or a type that is declared before",
        ScriptCause::DoubledName =>
            "a name that no line before introduces, and that no type has where it is a type's",
        ScriptCause::NoEnd => "`endtype` behind each type, and `end` as the last line",
        ScriptCause::BadForm | ScriptCause::BadNumber | ScriptCause::BadEdentype => "",
    }
}

fn has(words: &[&'static [u8]], word: &[u8]) -> bool
    ensures { result ≡ is_among (map (λ w. w.now) words.now) word.now }
{
    for one in words {
        if *one == word {
            return true;
        }
    }
    false
}

/// Whether some words are told by others among these.
fn is_covered(table: &[Entry], wanted: &[&'static [u8]], word: &[u8]) -> bool
    ensures { result ≡ words.is_covered (map (λ e. (e.0.now, e.1.now)) table.now) (map (λ w. w.now) wanted.now) word.now }
{
    for entry in table {
        if entry.0 == word && has(wanted, entry.1) {
            return true;
        }
    }
    false
}

/// Whether no others among these tell some words.
fn is_kept(wanted: &[&'static [u8]], word: &[u8]) -> bool
    ensures { result ≡ words.is_kept (map (λ w. w.now) wanted.now) word.now }
{
    !is_covered(&COVERED, wanted, word)
}

/// Those words that no others tell.
fn kept(alloc: Global, wanted: &[&'static [u8]]) -> Result<Vec<&'static [u8]>, AllocError>
    ensures { IfOk result (λ v. map (λ w. w.now) v.items ≡ words.kept (map (λ w. w.now) wanted.now)) }
{
    let mut found = Vec::new(alloc);
    for word in wanted {
        if is_kept(wanted, word) {
            found.push(*word)?;
        }
    }
    Ok(found)
}

fn add_listed_behind(texts: &[&'static [u8]], out: &mut Vec<u8>) -> Result<(), AllocError>
    ensures { OnOk result (out.new.items ≡ out.old.items ++ words.listed_behind (map (λ w. w.now) texts.now)) }
{
    for text in texts {
        out.extend_from_slice(b", ")?;
        out.extend_from_slice(text)?;
    }
    Ok(())
}

fn add_listed(texts: &[&'static [u8]], out: &mut Vec<u8>) -> Result<(), AllocError>
    ensures { OnOk result (out.new.items ≡ out.old.items ++ words.listed (map (λ w. w.now) texts.now)) }
{
    match texts {
        [] => out.extend_from_slice(b"nothing more"),
        [first, more @ ..] => {
            out.extend_from_slice(first)?;
            add_listed_behind(more, out)
        }
    }
}

/// Adds those words that no others tell, with commas.
pub fn add_kept(
    alloc: Global,
    wanted: &[&'static [u8]],
    out: &mut Vec<u8>,
) -> Result<(), AllocError>
    ensures { OnOk result (out.new.items ≡ out.old.items ++ words.listed (words.kept (map (λ w. w.now) wanted.now))) }
{
    let found = kept(alloc, wanted)?;
    add_listed(&found, out)
}
