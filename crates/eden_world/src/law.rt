//! What holds of the entries of one node.
ghost use Rattle.eden_world.specs.Steps.{TurnsGo};

/// A turn of a node, behind which it goes on, is a step of the world for which what is in hand stood: its entry
/// is allowed there, what is in hand then stands for the world after it, and each of the disks did what
/// that step may do to it.
pub fn a_turn_is_a_step()
    ensures { TurnsGo }
{}
