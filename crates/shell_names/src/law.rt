//! What is promised of definitions, apart from any code.
ghost use Rattle.shell_names.specs.Events.{OthersBindNone, StandAfterEntries};

/// Names that stand after an event stand after its entry; and they stand on after every entry whose event binds no name: all
/// but those of `create`, `hold`, `restrict`, a call of the shell, and a reply to it.
pub fn names_stand_on()
    ensures entries { StandAfterEntries }
    ensures others { OthersBindNone }
{}
