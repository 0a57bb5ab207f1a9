//! The type of a kind.
ghost use Rattle.std.specs.Prelude.{◌≡◌};
ghost use Rattle.edentypes.specs.View.{kind_in};
ghost use Rattle.edentypes.specs.Fitting.{is_directory, is_directory_form};
ghost use Rattle.edentypes.specs.Forms.{form_of, IsLimited, IsResolved};

use crate::Kind;
use epl_syntax::{Native, Program, Types};

/// A type: a native one, or one that the script declares, within the limits and with its names resolved.
#[derive(Clone, Copy)]
pub(crate) enum Form<'a> {
    Native { native: Native },
    Declared { program: &'a Program },
}

/// The type of a kind.
pub(crate) fn form_at(types: &Types, kind: Kind) -> Form<'_>
    ensures form { form_of result ≡ kind_in types.now kind }
    ensures limits { IsLimited result }
    ensures resolved { IsResolved result }
    ensures directory { is_directory_form result ≡ is_directory kind }
{
    match kind {
        Kind::Native { native } => Form::Native { native },
        Kind::Declared { place } => match types.declared_at(place) {
            Some(program) => Form::Declared { program },
            None => Form::Native {
                native: Native::Cell,
            },
        },
    }
}
