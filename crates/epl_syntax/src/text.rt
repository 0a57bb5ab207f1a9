//! Comparison of texts.
ghost use Rattle.std.specs.Prelude.{◌≡◌};
ghost use Rattle.eden_model.specs.Map.{same_text};

use eden_value::Txt;

/// Whether both are one text.
pub fn same_text(a: &Txt, b: &Txt) -> bool
    ensures { result ≡ same_text a.now b.now }
{
    a.as_slice() == b.as_slice()
}

/// Whether a text is these bytes.
pub fn is_called(text: &Txt, name: &[u8]) -> bool
    ensures { result ≡ same_text text.now name.now }
{
    text.as_slice() == name
}
