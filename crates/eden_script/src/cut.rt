//! How a script is cut.

ghost use Rattle.std.specs.Prelude.{◌≡◌, ◌⊎◌, ◌<◌, ◌≤◌, ◌^◌, ◌++◌, ◌∷◌, [], length, true, take, Some, None};
ghost use Rattle.std.specs.List.{list_all, take_while, filter};
ghost use Rattle.script_words.specs.Form as form;
ghost use Rattle.eden_script.specs.Parts as parts;
ghost use Rattle.eden_script.specs.Parts.{Part, parts_of, line_of_place, begins_type, ends_type};
ghost use Rattle.script_words.specs.Lines.{lines_of};
ghost use Rattle.eden_script.specs.Cuts.{IsDeclaration};
ghost use Rattle.script_words.specs.Lines.{IsFirstLine};

use script_words::first_line;

/// How many lines there are.
pub fn count_lines(bytes: &[u8]) -> u32
    requires { length bytes.now < 2 ^ 32 }
    ensures count { result ≡ length (lines_of bytes.now) }
    ensures few { result ≤ length bytes.now }
{
    let mut rest = bytes;
    let mut count = 0;
    while !rest.is_empty() {
        let (_, behind) = first_line(rest);
        rest = behind;
        count += 1;
    }
    count
}

/// The line in which a place of a text stands, counted from 0.
pub fn line_at_place(text: &[u8], place: u32) -> u32
    requires { length text.now < 2 ^ 32 }
    ensures { result ≡ line_of_place text.now place }
{
    feeds(text.get(..place as usize).unwrap_or(text)) as u32
}

fn feeds(bytes: &[u8]) -> usize
    ensures count { result ≡ parts.feeds bytes.now }
    ensures few { result ≤ length bytes.now }
{
    bytes.iter().filter(|b| **b == b'\n').count()
}

/// Whether a line begins an Edentype.
pub fn begins_edentype(line: &[u8]) -> bool
    ensures { result ≡ begins_type line.now }
{
    line.starts_with(b"edentype")
}

/// Whether a line ends an Edentype.
fn ends_edentype(line: &[u8]) -> bool
    ensures { result ≡ ends_type line.now }
{
    line == b"endtype".as_slice()
}

/// The text of the Edentype that begins with the first line, and the bytes behind it; none where it has no end.
pub fn declaration<'a>(
    bytes: &'a [u8],
    first: &[u8],
    behind: &'a [u8],
) -> Option<(&'a [u8], &'a [u8])>
    requires first { IsFirstLine bytes.now first.now behind.now }
    requires line { lines_of bytes.now ≡ first.now ∷ lines_of behind.now }
    requires begins { begins_type first.now ≡ true }
    ensures { IsDeclaration bytes.now result }
{
    let mut rest = behind;
    while !rest.is_empty() {
        let (line, behind) = first_line(rest);
        if ends_edentype(line) {
            let end = bytes.len() - rest.len() + line.len();
            return Some((&bytes[..end], behind));
        }
        rest = behind;
    }
    None
}
