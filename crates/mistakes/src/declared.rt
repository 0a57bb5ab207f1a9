//! What the text of an Edentype declares.

ghost use Rattle.std.specs.Prelude.{◌≡◌, ◌<◌, ◌^◌, List, ℕ, length, Err, IfOk, IfErr};
ghost use Rattle.epl_syntax.specs.Rules.InItems.{broken_program};
ghost use Rattle.epl_syntax.specs.Tree as tree;
ghost use Rattle.epl_parser.specs.Program.{SpellsType, TypeIs};
ghost use Rattle.epl_check.specs.Refusals.{Refuses};
ghost use Rattle.eden_script.specs.Declarations as declarations;
ghost use Rattle.eden_script.specs.Declarations.{Declares, type_names, types_in};
ghost use Rattle.mistakes.specs.TypePlaces.{IsRefusedAs};

use crate::mistake::TypeFault;
use epl_check::{CheckRefusal, Difference, check, kind_difference, resolve};
use epl_parser::{conditions_are_in_monitors, parse_edentype};
use epl_syntax::{Checked, ParseRefusal, Program, Rule, Types};
use std::alloc::{AllocError, Global};

/// Why a text declares no type.
#[derive(Clone, Copy)]
pub enum Refused {
    /// The text is refused at this place, for this.
    At { place: u32, fault: TypeFault },
    /// No memory was left.
    Memory,
}

/// Where a text that spells no type is refused.
fn refused_by_grammar(refusal: ParseRefusal) -> Refused
    ensures { (types : declarations.Types) (text : List ℕ) → TypeIs text (Err refusal) → IsRefusedAs types text result }
{
    match refusal {
        ParseRefusal::BadToken { place } => Refused::At {
            place,
            fault: TypeFault::BadToken,
        },
        ParseRefusal::TooDeep { place } => Refused::At {
            place,
            fault: TypeFault::TooDeep,
        },
        ParseRefusal::OutOfMemory => Refused::Memory,
    }
}

fn broken(rule: Rule, difference: Option<Difference>, place: u32) -> Refused
    ensures { result ≡ Refused.At place (TypeFault.Broken rule difference) }
{
    Refused::At {
        place,
        fault: TypeFault::Broken { rule, difference },
    }
}

/// What differs where a type is refused since kinds do.
fn difference_of(
    alloc: Global,
    program: &Program,
    types: &Types,
    refusal: CheckRefusal,
) -> Result<Option<Difference>, AllocError> {
    match refusal {
        CheckRefusal::KindDiffers { .. } => kind_difference(alloc, program, types),
        _ => Ok(None),
    }
}

/// Where a type breaks a rule.
fn refused_by_rule(refusal: CheckRefusal, difference: Option<Difference>) -> Refused
    ensures { (types : declarations.Types) (text : List ℕ) (t : tree.TypeTree) → SpellsType text t
        → Refuses (broken_program (type_names types) t) refusal → IsRefusedAs types text result }
{
    match refusal {
        CheckRefusal::UnknownName { place } => broken(Rule::UnknownName, difference, place),
        CheckRefusal::KindDiffers { place } => broken(Rule::KindDiffers, difference, place),
        CheckRefusal::Unguarded { place } => broken(Rule::Unguarded, difference, place),
        CheckRefusal::Nested { place } => broken(Rule::Nested, difference, place),
        CheckRefusal::Doubled { place } => broken(Rule::Doubled, difference, place),
        CheckRefusal::BadLimit { place } => broken(Rule::BadLimit, difference, place),
        CheckRefusal::OutOfMemory => Refused::Memory,
    }
}

/// Why a type that breaks a rule is refused.
fn refused_type(alloc: Global, program: &Program, types: &Types, refusal: CheckRefusal) -> Refused
    ensures { (earlier : declarations.Types) (text : List ℕ) (t : tree.TypeTree) → SpellsType text t
        → Refuses (broken_program (type_names earlier) t) refusal → IsRefusedAs earlier text result }
{
    match difference_of(alloc, program, types, refusal) {
        Ok(difference) => refused_by_rule(refusal, difference),
        Err(_) => Refused::Memory,
    }
}

/// The type that a text declares behind some types, or where and why it is refused: by the grammar, or, where the text
/// spells a type, by the rules.
pub fn declared(alloc: Global, types: &Types, text: &[u8]) -> Result<Checked, Refused>
    requires { length text.now < 2 ^ 32 }
    ensures declares { IfOk result (λ c. Declares (types_in types.now) text.now (tree.type_tree c.program)) }
    ensures refused { IfErr result (IsRefusedAs (types_in types.now) text.now) }
{
    let mut program = match parse_edentype(alloc, text) {
        Ok(program) => program,
        Err(refusal) => return Err(refused_by_grammar(refusal)),
    };
    if let Err(refusal) = check(alloc, &program, types) {
        return Err(refused_type(alloc, &program, types, refusal));
    }
    conditions_are_in_monitors();
    match resolve(alloc, &mut program, text.len()) {
        Ok(()) => Ok(Checked::of(program, types)),
        Err(_) => Err(Refused::Memory),
    }
}
