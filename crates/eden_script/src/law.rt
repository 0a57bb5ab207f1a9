//! What holds of every text that is a script, apart from any code.

ghost use Rattle.eden_script.specs.Script.{ScriptsAreFit, FitScriptsAreBare, FewCallsAreAsked};

use epl_parser::{conditions_are_in_monitors, constants_are_values, types_are_named};

/// Whatever text spells a script, it is fit for a world: its numbers are in their ranges and its stations are there, its names are
/// new where they have to be and known where they are used, its types are known, keep the rules and have names of their own, and its
/// values and the constants of its types are within their limits. A fit script writes out no capability. Its commands ask for at most
/// as many calls as the text has bytes.
pub fn a_script_is_fit()
    ensures fit { ScriptsAreFit }
    ensures bare { FitScriptsAreBare }
    ensures calls { FewCallsAreAsked }
{
    types_are_named();
    conditions_are_in_monitors();
    constants_are_values();
}
