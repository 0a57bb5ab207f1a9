//! What holds of Ejects that wander, whatever is called, fails, stops, crashes, or comes late or twice.
ghost use Rattle.move_laws.specs.OneHolder.{AlwaysOneHolder, NeverLost};
ghost use Rattle.move_laws.specs.World.{OneHolderOfEach, EachShowsFresh, NoneIsLost};

/// An Eject by itself: over every list of the smallest steps from where there is nothing it has at most one holder, and is not lost.
pub fn never_two_holders()
    // At most one node has it active, and what may be here on one node is here on no other, and no other has a later generation.
    ensures one { AlwaysOneHolder }
    // Where any node keeps a record of it, one node keeps its value.
    ensures kept { NeverLost }
{}

/// All Ejects of a world: over every list of events from a blank world each has at most one holder, and none is lost.
pub fn never_two_active()
    // At most one node has it active, and what may be here on one node is here on no other, and no other has a later generation.
    ensures one { OneHolderOfEach }
    // What a waking finds is the value of the last acknowledged make or save, or of one that was cut short since.
    ensures fresh { EachShowsFresh }
    // Where any node keeps a record of an Eject, one node keeps its value.
    ensures kept { NoneIsLost }
{}
