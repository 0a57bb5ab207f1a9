//! How bytes are cut into lines, and the first word of a line.

ghost use Rattle.std.specs.Prelude.{◌≡◌, ◌<◌, ◌∷◌, length};
ghost use Rattle.std.specs.List.{list_all, take_while};
ghost use Rattle.script_words.specs.Causes as causes;
ghost use Rattle.script_words.specs.Form as form;
ghost use Rattle.script_words.specs.Lines.{lines_of, IsFirstLine};
ghost use Rattle.script_words.specs.Reading as reading;

use eden_value::is_printable;

fn is_no_feed(b: u8) -> bool
    ensures { result ≡ form.is_no_feed b }
{
    b != b'\n'
}

fn line_length(bytes: &[u8]) -> usize
    ensures { result ≡ length (take_while form.is_no_feed bytes.now) }
{
    bytes.iter().take_while(|b| is_no_feed(**b)).count()
}

/// The first line, and the lines behind it.
pub fn first_line(bytes: &[u8]) -> (&[u8], &[u8])
    requires { 0 < length bytes.now }
    ensures line { lines_of bytes.now ≡ result.0.now ∷ lines_of result.1.now }
    ensures first { IsFirstLine bytes.now result.0.now result.1.now }
    ensures shorter { length result.1.now < length bytes.now }
{
    let n = line_length(bytes);
    if n < bytes.len() {
        (&bytes[..n], &bytes[n + 1..])
    } else {
        (bytes, &bytes[n..])
    }
}

/// Whether each byte may stand in a line.
pub fn all_printable(bytes: &[u8]) -> bool
    ensures { result ≡ list_all form.is_printable bytes.now }
{
    bytes.iter().all(|b| is_printable(*b))
}

/// Whether a line is blank or a comment.
pub fn is_idle(bytes: &[u8]) -> bool
    ensures { result ≡ reading.is_idle bytes.now }
{
    match bytes.first() {
        Some(b) => *b == b'#',
        None => true,
    }
}

fn is_no_blank(b: u8) -> bool
    ensures { result ≡ form.is_no_blank b }
{
    b != b' '
}

fn word_length(bytes: &[u8]) -> usize
    ensures { result ≡ length (take_while form.is_no_blank bytes.now) }
{
    bytes.iter().take_while(|b| is_no_blank(**b)).count()
}

/// The bytes before the first blank.
pub fn first_word(bytes: &[u8]) -> &[u8]
    ensures { result.now ≡ causes.first_word bytes.now }
{
    let n = word_length(bytes);
    &bytes[..n]
}
