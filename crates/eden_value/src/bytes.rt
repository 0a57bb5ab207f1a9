//! Classes of bytes that texts and names are made of.
ghost use Rattle.std.specs.Prelude.{◌≡◌};
ghost use Rattle.eden_value.specs.Bytes as class;

/// A space, or a character of ASCII that is seen: from 0x20 to 0x7E.
pub fn is_printable(b: u8) -> bool
    ensures { result ≡ class.is_printable b }
{
    0x20 <= b && b <= 0x7E
}

/// A letter, a digit or an underscore.
pub fn is_name_byte(b: u8) -> bool
    ensures { result ≡ class.is_name_byte b }
{
    b.is_ascii_alphanumeric() || b == b'_'
}
