//! The Edentype in which the first bad line of a script stands.

ghost use Rattle.std.specs.Prelude.{◌≡◌, ◌<◌, ◌^◌, IfOk, length};
ghost use Rattle.eden_script.specs.Declarations as declarations;
ghost use Rattle.script_words.specs.declared.cause.ScriptCause.TheVariants.{BadEdentype};
ghost use Rattle.eden_script.specs.Script.{IsBadLine};
ghost use Rattle.mistakes.specs.TypePlaces.{IsBadType, IsFault, IsRefusedAs};

use crate::cut::{begins_edentype, declaration, first_line};
use crate::declared::{Refused, declared};
use crate::mistake::TypeFault;
use epl_parser::{refusals_are_one, types_are_named, types_are_one};
use epl_syntax::Types;
use std::alloc::{AllocError, Global};

/// The greatest number of types that a script may declare.
const DECLARED_LIMIT: u8 = 64;

/// A text of an Edentype, the place at which it is refused, and why.
#[derive(Clone, Copy)]
pub struct BadType<'a> {
    pub text: &'a [u8],
    pub place: u32,
    pub fault: TypeFault,
}

/// A text with the place at which it is refused, where that is not for want of memory.
fn refusal_of<'a>(text: &'a [u8], refused: Refused) -> Result<BadType<'a>, AllocError>
    ensures { (types : declarations.Types) → IsRefusedAs types text.now refused
        → IfOk result (λ b. (b.text.now ≡ text.now) × IsFault types text.now b.place b.fault) }
{
    match refused {
        Refused::At { place, fault } => Ok(BadType { text, place, fault }),
        Refused::Memory => Err(AllocError),
    }
}

/// The Edentype in which the first bad line of a script stands, where that is so.
pub fn bad_type<'a>(alloc: Global, bytes: &'a [u8], line: u32) -> Result<BadType<'a>, AllocError>
    requires short { length bytes.now < 2 ^ 31 }
    requires bad { IsBadLine bytes.now line BadEdentype }
    ensures bad { IfOk result (λ b. IsBadType bytes.now line b.text.now b.place b.fault) }
    ensures short { IfOk result (λ b. length b.text.now < 2 ^ 31) }
{
    types_are_one();
    refusals_are_one();
    types_are_named();
    let mut types = Types::native(alloc)?;
    let mut room = DECLARED_LIMIT;
    let mut rest = bytes;
    while !rest.is_empty() {
        let (first, behind) = first_line(rest);
        if !begins_edentype(first) {
            rest = behind;
            continue;
        }
        let Some((text, behind)) = declaration(rest, first, behind) else {
            unreachable!()
        };
        if room == 0 {
            return Ok(BadType {
                text,
                place: 0,
                fault: TypeFault::TooMany,
            });
        }
        match declared(alloc, &types, text) {
            Ok(edentype) => types.add(edentype)?,
            Err(refused) => return refusal_of(text, refused),
        }
        rest = behind;
        room -= 1;
    }
    unreachable!()
}
