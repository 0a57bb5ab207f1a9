//! The scripts of numbers.
ghost use Rattle.gen_laws.specs.Scripts.{EveryNumberHasAScript, ItsScriptIsFit, ItHasNoBadLine};

use eden_script::{a_script_is_fit, one_reading};

/// Whatever the number, its text spells a script. That is fit for a world, and the text has no bad line.
pub fn every_number_has_a_script()
    ensures script { EveryNumberHasAScript }
    ensures fit { ItsScriptIsFit }
    ensures clean { ItHasNoBadLine }
{
    a_script_is_fit();
    one_reading();
}
