//! A line, and what the lines before it leave.

ghost use Rattle.std.specs.Prelude.{◌≡◌, ◌≤◌, ◌<◌, map, length};
ghost use Rattle.std.specs.List.{list_all, take_while};
ghost use Rattle.script_words.specs.Form as letter;
ghost use Rattle.script_words.specs.Causes as causes;
ghost use Rattle.script_words.specs.Reading as script;
ghost use Rattle.script_words.specs.View.{Gives};
ghost use Rattle.line_forms.specs.Forms as meaning;
ghost use Rattle.line_forms.specs.Reading as reading;
ghost use Rattle.line_forms.specs.View.{form_of, kind_of, last_of, line_of, which_of, seen_of};

use crate::ending::{in_range, read_ending};
use crate::form::{Form, Kind, Last, Row};
use crate::numbers::{apart, ranged, read_places};
use script_words::{Fault, ScriptCause, all_printable, end, first_word, is_idle, word};
use std::alloc::Global;

/// What the lines so far leave: whether the first line stood, the number in it, and whether `end` stood.
#[derive(Clone, Copy)]
pub struct Seen {
    pub begun: bool,
    pub most: u32,
    pub ended: bool,
}

/// What a line says.
#[derive(Drop)]
pub enum Line {
    /// Nothing: a blank line or a comment.
    Idle,
    /// The first line.
    Begins { numbers: Vec<u32>, last: Last },
    /// A line behind it.
    Does { row: Row },
    /// `end`.
    Finish,
}

/// What a first word stands for.
#[derive(Clone, Copy)]
pub enum Which<'a> {
    Unknown,
    First,
    End,
    Other { number: usize, form: Form<'a> },
}

fn among<'a>(forms: &'a [Form<'a>], word: &[u8]) -> Which<'a>
    ensures { which_of result ≡ meaning.among 0 (map form_of forms.now) word.now }
{
    for (i, form) in forms.iter().enumerate() {
        if form.word == word {
            return Which::Other {
                number: i,
                form: *form,
            };
        }
    }
    Which::Unknown
}

/// What a word stands for.
fn stands_for<'a>(kind: &Kind<'a>, word: &[u8]) -> Which<'a>
    ensures { which_of result ≡ meaning.which (kind_of kind.now) word.now }
{
    if kind.first.word == word {
        return Which::First;
    }
    if b"end".as_slice() == word {
        return Which::End;
    }
    among(kind.others, word)
}

/// What stands behind the word of a form, where the first line has the number `most`.
fn read_behind(
    alloc: Global,
    most: u32,
    form: Form,
    bytes: &[u8],
) -> Result<(Vec<u32>, Last), Fault>
    ensures { Gives (λ x. (x.0.items, last_of x.1)) result (reading.read_behind most (form_of form.entry) bytes.now) }
{
    let (words, rest) = read_places(alloc, form.places, bytes)?;
    let last = read_ending(alloc, form.ending, rest)?;
    apart(form.places, &words)?;
    let numbers = ranged(alloc, most, form.places, &words)?;
    let last = in_range(last)?;
    Ok((numbers, last))
}

fn read_form(alloc: Global, most: u32, form: Form, bytes: &[u8]) -> Result<(Vec<u32>, Last), Fault>
    ensures { Gives (λ x. (x.0.items, last_of x.1)) result (reading.read_form most (form_of form.entry) bytes.now) }
{
    let rest = word(bytes, form.word)?;
    read_behind(alloc, most, form, rest)
}

fn read_first(alloc: Global, kind: &Kind, bytes: &[u8]) -> Result<Line, Fault>
    ensures { Gives line_of result (reading.read_first (kind_of kind.now) bytes.now) }
{
    let (numbers, last) = read_form(alloc, 0, kind.first, bytes)?;
    Ok(Line::Begins { numbers, last })
}

fn read_row(
    alloc: Global,
    most: u32,
    number: usize,
    form: Form,
    bytes: &[u8],
) -> Result<Line, Fault>
    ensures { Gives line_of result (reading.read_row most number (form_of form.entry) bytes.now) }
{
    let (numbers, last) = read_form(alloc, most, form, bytes)?;
    Ok(Line::Does {
        row: Row {
            form: number,
            numbers,
            last,
        },
    })
}

fn read_finish(bytes: &[u8]) -> Result<Line, Fault>
    ensures { Gives line_of result (reading.read_finish bytes.now) }
{
    let rest = word(bytes, b"end")?;
    end(rest)?;
    Ok(Line::Finish)
}

fn judge_word(
    alloc: Global,
    kind: &Kind,
    seen: Seen,
    which: Which,
    bytes: &[u8],
) -> Result<Line, Fault>
    ensures { Gives line_of result (reading.judge_word (kind_of kind.now) (seen_of seen) (which_of which.entry) bytes.now) }
{
    match which {
        Which::Unknown => Err(Fault::Bad {
            cause: ScriptCause::NoCommand,
        }),
        Which::First if !seen.begun => read_first(alloc, kind, bytes),
        Which::End if seen.begun => read_finish(bytes),
        Which::Other { number, form } if seen.begun => {
            read_row(alloc, seen.most, number, form, bytes)
        }
        _ => Err(Fault::Bad {
            cause: ScriptCause::Misplaced,
        }),
    }
}

/// What a line says.
pub fn judge(alloc: Global, kind: &Kind, seen: Seen, bytes: &[u8]) -> Result<Line, Fault>
    ensures { Gives line_of result (reading.judge (kind_of kind.now) (seen_of seen) bytes.now) }
{
    if !all_printable(bytes) {
        return Err(Fault::Bad {
            cause: ScriptCause::BadByte,
        });
    }
    if bytes.len() > 4096 {
        return Err(Fault::Bad {
            cause: ScriptCause::LongLine,
        });
    }
    if is_idle(bytes) {
        return Ok(Line::Idle);
    }
    if seen.ended {
        return Err(Fault::Bad {
            cause: ScriptCause::AfterEnd,
        });
    }
    judge_word(
        alloc,
        kind,
        seen,
        stands_for(kind, first_word(bytes)),
        bytes,
    )
}
