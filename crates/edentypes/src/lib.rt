//! What an Eject of each type does: the values with which it starts, what of them is kept, its operations, and the turns
//! of its processes.
#![tactic(auto)]

mod beginning;
mod cell;
mod form;
mod held;
mod kinds;
mod layout;
mod native;
mod operations;
mod starting;
mod turns;
mod variables;

ghost use Rattle.std.specs.Prelude.{◌≡◌};
ghost use Rattle.std.specs.Option.{option_map};
ghost use Rattle.epl_syntax.specs.Meaning.{type_of, types_in};
ghost use Rattle.edentypes.specs.View.{kind_in, type_at};

pub use beginning::{begin, processes};
pub use cell::CellStage;
use eden_value::Txt;
use epl_syntax::{Native, Types};
pub use held::Values;
pub use layout::setup;
pub use operations::{Fit, fit_call};
pub use starting::{Begun, first_values, rep, start, start_from};
pub use turns::turn;

/// Which type an Eject is of, as `find` tells it: a native one, or the one that the script declares at a place among its types.
#[derive(Clone, Copy, Debug, PartialEq, Eq)]
pub enum Kind {
    Native { native: Native },
    Declared { place: usize },
}

/// What is left to do of a process: of a native type, or of a declared one. That of a declared one is ten times as long as
/// that of a native one, and stands in a box, so that processes of native types are moved cheaply.
#[derive(Drop)]
pub enum Rest {
    Cell { stage: CellStage },
    Directory { stage: directory_eject::Stage },
    Stream { stage: transput::Stage },
    Declared { rest: Box<epl_run::Rest> },
}

/// The type at a place.
fn kind_at(types: &Types, place: usize) -> Kind
    ensures { kind_in types.now result ≡ type_at types.now place }
{
    match types.native_at(place) {
        Some(native) => Kind::Native { native },
        None => Kind::Declared { place },
    }
}

/// The type of this name. None exactly where the script has none.
pub fn find(types: &Types, name: &Txt) -> Option<Kind>
    ensures { option_map (kind_in types.now) result ≡ type_of (types_in types.now) name.now }
{
    match types.find(name) {
        Some(place) => Some(kind_at(types, place)),
        None => None,
    }
}
