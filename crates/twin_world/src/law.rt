//! What holds of every log, and what the calls of a twin do to it.
ghost use Rattle.twin_world.specs.Laws.{OneDiskIsEnough};
ghost use Rattle.twin_world.specs.Steps.{MadeIsStep, RefusedIsStep, FoundIsStep, UnseenIsStep, ClosingIsStep, OpeningIsStep, ShutIsStep};

/// Of every log, in which each command was answered by its rule over what the pairs had.
pub fn one_disk_is_enough()
    // Whatever becomes of one disk of a node, the other gives what was acknowledged.
    ensures enough { OneDiskIsEnough }
{}

/// What the contract of each call of a twin says is the step of its command, from whatever pair the twin stands for.
pub fn calls_are_steps()
    ensures made { MadeIsStep }
    ensures refused { RefusedIsStep }
    ensures found { FoundIsStep }
    ensures unseen { UnseenIsStep }
    ensures closing { ClosingIsStep }
    ensures opening { OpeningIsStep }
    ensures shut { ShutIsStep }
{}
