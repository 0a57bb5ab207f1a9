//! Where the lines of a part fail a test.

ghost use Rattle.std.specs.Prelude.{◌≡◌, ◌<◌, ◌≤◌, ◌^◌, length, Some, None};
ghost use Rattle.std.specs.List.{list_all};
ghost use Rattle.std.specs.Option.{option_map};
ghost use Rattle.script_words.specs.Causes.{rank};
ghost use Rattle.eden_script.specs.Flaws as flaws;
ghost use Rattle.script_words.specs.Form as form;
ghost use Rattle.eden_script.specs.Parts.{line_of_place};
ghost use Rattle.script_words.specs.Lines.{lines_of};
ghost use Rattle.eden_script.specs.View.{place_of};

use script_words::{ScriptCause, all_printable, first_line};
use std::alloc::AllocError;

/// A line of a part, counted from 0, and a test that it fails.
#[derive(Clone, Copy, Debug, PartialEq, Eq)]
pub struct Place {
    pub line: u32,
    pub cause: ScriptCause,
}

/// Why the reading of a part stops.
#[derive(Debug, Drop)]
pub enum Flaw {
    /// The first line that fails a test, and the first one that it fails.
    At { at: Place },
    /// No memory was left.
    Memory,
}

impl From<AllocError> for Flaw {
    ghost use Rattle.std.specs.Prelude.{◌≡◌};
    ghost use Rattle.eden_script.specs.declared.flaw.Flaw.TheVariants.{Memory};

    ghost from_gives = { λ _ e. e ≡ Memory };

    fn from(_: AllocError) -> Flaw {
        Flaw::Memory
    }
}

/// The first line that has a bad byte or is too long.
pub fn line_flaw(bytes: &[u8]) -> Option<Place>
    requires { length bytes.now < 2 ^ 32 }
    ensures { option_map place_of result ≡ flaws.line_flaw 0 (lines_of bytes.now) }
{
    let mut rest = bytes;
    let mut line = 0;
    while !rest.is_empty() {
        let (text, behind) = first_line(rest);
        if !all_printable(text) {
            return Some(Place {
                line,
                cause: ScriptCause::BadByte,
            });
        }
        if text.len() > 4096 {
            return Some(Place {
                line,
                cause: ScriptCause::LongLine,
            });
        }
        rest = behind;
        line += 1;
    }
    None
}

/// The place of a cause in the order of the tests.
fn rank_of(cause: ScriptCause) -> u8
    ensures { result ≡ rank cause }
{
    match cause {
        ScriptCause::BadByte => 0,
        ScriptCause::LongLine => 1,
        ScriptCause::AfterEnd => 2,
        ScriptCause::NoCommand => 3,
        ScriptCause::Misplaced => 4,
        ScriptCause::BadForm => 5,
        ScriptCause::BadNumber => 6,
        ScriptCause::UnknownName => 7,
        ScriptCause::UnknownType => 8,
        ScriptCause::DoubledName => 9,
        ScriptCause::BadEdentype => 10,
        ScriptCause::NoEnd => 11,
    }
}

/// Whether one place stands on an earlier line than another, or on the same one by an earlier test.
pub fn is_earlier(a: Place, b: Place) -> bool
    ensures { result ≡ flaws.is_earlier (place_of a) (place_of b) }
{
    a.line < b.line || (a.line == b.line && rank_of(a.cause) <= rank_of(b.cause))
}

/// The earlier one of two, if any.
pub fn earlier(a: Option<Place>, b: Option<Place>) -> Option<Place>
    ensures { option_map place_of result ≡ flaws.earlier (option_map place_of a) (option_map place_of b) }
{
    match (a, b) {
        (None, b) => b,
        (Some(a), None) => Some(a),
        (Some(a), Some(b)) => Some(if is_earlier(a, b) { a } else { b }),
    }
}
