//! What holds of every text, apart from any code.

ghost use Rattle.line_forms.specs.Fit.{RowsAreFit};
ghost use Rattle.line_forms.specs.One.{ScriptsAreOne};

/// A text spells at most one script of a kind whose words begin neither a blank line nor a comment, and then it has no bad line; and it
/// has at most one first bad line, with one cause.
pub fn scripts_are_one()
    ensures { ScriptsAreOne }
{}

/// Whatever text spells a script of such a kind, its first line fits the first form, each row fits the form that has its number, and there
/// are at most as many rows as bytes.
pub fn rows_are_fit()
    ensures { RowsAreFit }
{}
