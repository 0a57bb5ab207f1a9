//! How a script is cut into lines and Edentypes.

ghost use Rattle.std.specs.Prelude.{◌≡◌, ◌<◌, ◌≤◌, ◌+◌, ◌∷◌, ◌^◌, length, true};
ghost use Rattle.std.specs.List.{take_while};
ghost use Rattle.script_words.specs.Lines.{IsFirstLine};
ghost use Rattle.eden_script.specs.Cuts.{IsDeclaration};
ghost use Rattle.script_words.specs.Form as form;
ghost use Rattle.eden_script.specs.Parts.{begins_type, ends_type, line_at};
ghost use Rattle.script_words.specs.Lines.{lines_of};
ghost use Rattle.mistakes.specs.Columns.{length_behind};
ghost use Rattle.mistakes.specs.TypePlaces.{column_of};

fn is_no_feed(b: u8) -> bool
    ensures { result ≡ form.is_no_feed b }
{
    b != b'\n'
}

fn line_length(bytes: &[u8]) -> usize
    ensures { result ≡ length (take_while form.is_no_feed bytes.now) }
{
    bytes.iter().take_while(|b| is_no_feed(**b)).count()
}

/// The first line, and the lines behind it.
pub fn first_line(bytes: &[u8]) -> (&[u8], &[u8])
    requires { 0 < length bytes.now }
    ensures line { lines_of bytes.now ≡ result.0.now ∷ lines_of result.1.now }
    ensures first { IsFirstLine bytes.now result.0.now result.1.now }
    ensures shorter { length result.1.now < length bytes.now }
{
    let n = line_length(bytes);
    if n < bytes.len() {
        (&bytes[..n], &bytes[n + 1..])
    } else {
        (bytes, &bytes[n..])
    }
}

/// Whether a line begins an Edentype.
pub fn begins_edentype(line: &[u8]) -> bool
    ensures { result ≡ begins_type line.now }
{
    line.starts_with(b"edentype")
}

/// Whether a line ends an Edentype.
pub fn ends_edentype(line: &[u8]) -> bool
    ensures { result ≡ ends_type line.now }
{
    line == b"endtype".as_slice()
}

/// The text of the Edentype that begins with the first line, and the bytes behind it; none where it has no end.
pub fn declaration<'a>(
    bytes: &'a [u8],
    first: &[u8],
    behind: &'a [u8],
) -> Option<(&'a [u8], &'a [u8])>
    requires first { IsFirstLine bytes.now first.now behind.now }
    requires line { lines_of bytes.now ≡ first.now ∷ lines_of behind.now }
    requires begins { begins_type first.now ≡ true }
    ensures { IsDeclaration bytes.now result }
{
    let mut rest = behind;
    while !rest.is_empty() {
        let (line, behind) = first_line(rest);
        if ends_edentype(line) {
            let end = bytes.len() - rest.len() + line.len();
            return Some((&bytes[..end], behind));
        }
        rest = behind;
    }
    None
}

/// The line so many behind the first, and the bytes from its beginning on; no bytes where there is none.
pub fn line_behind(bytes: &[u8], count: u32) -> (&[u8], &[u8])
    ensures line { result.0.now ≡ line_at (lines_of bytes.now) count }
    ensures short { length result.0.now ≤ length bytes.now }
{
    let mut rest = bytes;
    let mut left = count;
    while !rest.is_empty() {
        let (line, behind) = first_line(rest);
        if left == 0 {
            return (line, rest);
        }
        left -= 1;
        rest = behind;
    }
    (rest, rest)
}

/// How many bytes stand behind the last byte of this value, or all where it stands nowhere.
pub fn length_behind(b: u8, bytes: &[u8]) -> u32
    requires { length bytes.now < 2 ^ 32 }
    ensures length { result ≡ length_behind b bytes.now }
    ensures within { result ≤ length bytes.now }
{
    let mut count = 0;
    for c in bytes {
        count = if *c == b { 0 } else { count + 1 };
    }
    count
}

/// The column of a place of a text, counted from 1 behind the last line feed before it.
pub fn column_in(text: &[u8], place: u32) -> u32
    requires { length text.now < 4294967295 }
    ensures { result ≡ column_of text.now place }
{
    let before = text.get(..place as usize).unwrap_or(text);
    length_behind(b'\n', before) + 1
}
