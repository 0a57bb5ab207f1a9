//! The types that a script declares.

ghost use Rattle.std.specs.Prelude.{◌≡◌, ◌<◌, ◌≤◌, ◌^◌, nat_lt, List, ℕ, length, take, drop, true, Some, None, Err, IfOk, IfErr};
ghost use Rattle.std.specs.List.{take_while};
ghost use Rattle.std.specs.Option.{option_map};
ghost use Rattle.epl_syntax.specs.Rules.InItems.{broken_program};
ghost use Rattle.epl_syntax.specs.Tree as tree;
ghost use Rattle.epl_parser.specs.Program.{SpellsType, TypeIs};
ghost use Rattle.epl_check.specs.Refusals.{Refuses};
ghost use Rattle.eden_script.specs.Causes.{declared_count};
ghost use Rattle.eden_script.specs.Declarations as declarations;
ghost use Rattle.eden_script.specs.Declarations.{Declares, IsRefused, type_names, types_in};
ghost use Rattle.eden_script.specs.Flaws as flaws;
ghost use Rattle.script_words.specs.Form as form;
ghost use Rattle.eden_script.specs.View.{IsCounted, place_of, seen_of};

use crate::cut::line_at_place;
use crate::flaw::Place;
use crate::line::Seen;
use eden_value::{Txt, texted};
use epl_check::{CheckRefusal, check, resolve};
use epl_parser::{conditions_are_in_monitors, parse_edentype};
use epl_syntax::{Checked, ParseRefusal, Types};
use script_words::{ScriptCause, is_upper, name_length};
use std::alloc::{AllocError, Global};

/// The greatest number of types that a script may declare.
pub const DECLARED_LIMIT: u8 = 64;

/// Why a text declares no type.
#[derive(Clone, Copy, Debug, PartialEq, Eq)]
pub enum Refused {
    /// The text is refused at this place.
    At { place: u32 },
    /// No memory was left.
    Memory,
}

/// Whether a type has this name.
#[tactic(auto, using(crate::proofs::TypeNames::has_name))]
pub fn is_type(types: &Types, name: &Txt) -> bool
    ensures { result ≡ form.is_among (type_names (types_in types.now)) name.now }
{
    types.has(name)
}

fn is_space(b: u8) -> bool
    ensures { result ≡ declarations.is_space b }
{
    b == b' ' || b == b'\n'
}

fn space_length(bytes: &[u8]) -> usize
    ensures { result ≡ length (take_while declarations.is_space bytes.now) }
{
    bytes.iter().take_while(|b| is_space(**b)).count()
}

/// The bytes of a name at the front.
fn front_name(bytes: &[u8]) -> &[u8]
    ensures { result.now ≡ take_while form.is_name_byte bytes.now }
{
    let n = name_length(bytes);
    &bytes[..n]
}

/// The place and the bytes of the name of a text's type, where the text begins with `edentype` and a name.
fn declared_name(text: &[u8]) -> Option<(u32, &[u8])>
    requires long { 8 ≤ length text.now }
    requires short { length text.now < 2 ^ 32 }
    ensures { option_map (λ x. (x.0, x.1.now)) result ≡ declarations.declared_name text.now }
{
    let place = 8 + space_length(&text[8..]);
    let name = front_name(&text[place..]);
    if 8 < place && is_upper(name) {
        Some((place as u32, name))
    } else {
        None
    }
}

/// A name of a type that is there.
pub fn name_flaw(alloc: Global, types: &Types, text: &[u8]) -> Result<Option<Place>, AllocError>
    requires long { 8 ≤ length text.now }
    requires short { length text.now < 2 ^ 32 }
    ensures { IfOk result (λ o. option_map place_of o ≡ flaws.name_flaw (types_in types.now) text.now) }
{
    let Some((place, name)) = declared_name(text) else {
        return Ok(None);
    };
    let bytes = Vec::from_slice(alloc, name)?;
    if !is_type(types, &texted(bytes)?) {
        return Ok(None);
    }
    Ok(Some(Place {
        line: line_at_place(text, place),
        cause: ScriptCause::DoubledName,
    }))
}

/// An Edentype behind `end` or `nodes`.
pub fn place_flaw(seen: &Seen) -> Option<Place>
    ensures { option_map place_of result ≡ flaws.place_flaw (seen_of seen.now) }
{
    if seen.ended {
        return Some(Place {
            line: 0,
            cause: ScriptCause::AfterEnd,
        });
    }
    if seen.nodes == 0 {
        return None;
    }
    Some(Place {
        line: 0,
        cause: ScriptCause::Misplaced,
    })
}

/// Whether one more type may be declared.
pub fn is_room(seen: &Seen) -> bool
    requires { IsCounted seen.now }
    ensures { result ≡ nat_lt (declared_count (seen_of seen.now)) declarations.DECLARED_LIMIT }
{
    0 < seen.room
}

/// Where a text that spells no type is refused.
fn refused_by_grammar(refusal: ParseRefusal) -> Refused
    ensures { (types : declarations.Types) (text : List ℕ) → TypeIs text (Err refusal) → IsRefused types text result }
{
    match refusal {
        ParseRefusal::BadToken { place } => Refused::At { place },
        ParseRefusal::TooDeep { place } => Refused::At { place },
        ParseRefusal::OutOfMemory => Refused::Memory,
    }
}

/// Where a type breaks a rule.
fn refused_by_rule(refusal: CheckRefusal) -> Refused
    ensures { (types : declarations.Types) (text : List ℕ) (t : tree.TypeTree) → SpellsType text t
        → Refuses (broken_program (type_names types) t) refusal → IsRefused types text result }
{
    match refusal {
        CheckRefusal::UnknownName { place } => Refused::At { place },
        CheckRefusal::KindDiffers { place } => Refused::At { place },
        CheckRefusal::Unguarded { place } => Refused::At { place },
        CheckRefusal::Nested { place } => Refused::At { place },
        CheckRefusal::Doubled { place } => Refused::At { place },
        CheckRefusal::BadLimit { place } => Refused::At { place },
        CheckRefusal::OutOfMemory => Refused::Memory,
    }
}

/// The type that a text declares behind some types, or the place at which it is refused: by the grammar, or, where the
/// text spells a type, by the rules.
pub fn declared(alloc: Global, types: &Types, text: &[u8]) -> Result<Checked, Refused>
    requires { length text.now < 2 ^ 32 }
    ensures declares { IfOk result (λ c. Declares (types_in types.now) text.now (tree.type_tree c.program)) }
    ensures refused { IfErr result (IsRefused (types_in types.now) text.now) }
{
    let mut program = match parse_edentype(alloc, text) {
        Ok(program) => program,
        Err(refusal) => return Err(refused_by_grammar(refusal)),
    };
    if let Err(refusal) = check(alloc, &program, types) {
        return Err(refused_by_rule(refusal));
    }
    conditions_are_in_monitors();
    match resolve(alloc, &mut program, text.len()) {
        Ok(()) => Ok(Checked::of(program, types)),
        Err(_) => Err(Refused::Memory),
    }
}
