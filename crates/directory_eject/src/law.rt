//! What is promised of definitions, apart from any code.
ghost use Rattle.epl_syntax.specs.declared.types.Native.TheVariants as types;
ghost use Rattle.epl_syntax.specs.Edentype.{native};
ghost use Rattle.epl_syntax.specs.Meaning.{first_values};
ghost use Rattle.directory_eject.specs.Kept.{IsDirectory, TurnsStay, TurnsMayStart};

/// A directory may start again from whatever values it comes to: they are of the kinds of the variables, with as many
/// capabilities as names, no name twice, and at most 256 names. So it is at first, and so after each turn. The kinds, and that as many
/// names differ, stay over a turn however many names there are.
pub fn directories_may_start_again()
    ensures first { IsDirectory (first_values (native types.Directory)) }
    ensures turns { TurnsStay }
    ensures starts { TurnsMayStart }
{}
