//! What the commands of a fit script hand to a world.
ghost use Rattle.journal.specs.Fit.{ArgumentsAreValues, ComponentsAreTexts, HeldAreEjects};

/// A fit command hands values within their limits to a world: the arguments of its call, where what the names stand for is
/// within its limits; the components of its path, each a text; and the uid that it holds, which is an Eject's.
pub fn a_fit_command_hands_values()
    ensures arguments { ArgumentsAreValues }
    ensures path { ComponentsAreTexts }
    ensures held { HeldAreEjects }
{}
