//! What holds of every wire.

ghost use Rattle.std.specs.Prelude.{ℕ, List};
ghost use Rattle.lossy_wire.specs.Laws.{WiresAreOrderly, TextsAreOne};

use line_forms::scripts_are_one;

/// Whatever the commands, what was delivered is a front of what was sent, so that each value comes once and in order, and no more is
/// known than was delivered.
pub fn wires_are_orderly()
    ensures { WiresAreOrderly }
{}

/// What is written is a function of the bytes that are read.
pub fn texts_are_one()
    ensures { (bytes : List ℕ) → TextsAreOne bytes }
{
    scripts_are_one();
}
