//! What the names in the bodies of a type stand for, found once.
ghost use Rattle.std.specs.Prelude.{◌≡◌};
ghost use Rattle.epl_syntax.specs.Bindings as spec;

/// What a name stands for: a parameter or a variable of its body, a variable of its type, a monitor or a condition, each
/// counted from 0 in order of declaration. `ByName` where that has to be looked up.
#[derive(Clone, Copy, Debug, PartialEq, Eq)]
pub enum Binding {
    ByName,
    Parameter { at: u16 },
    Local { at: u16 },
    Variable { at: u16 },
    Monitor { at: u16 },
    Condition { at: u16 },
}

/// The binding at a place of a type's text. Behind the table's end none is known.
pub fn binding_at(bindings: &[Binding], place: u32) -> Binding
    ensures { result ≡ spec.binding_at bindings.now place }
{
    match bindings.get(place as usize) {
        Some(binding) => *binding,
        None => Binding::ByName,
    }
}
