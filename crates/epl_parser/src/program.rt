//! Reading a whole Edentype.
ghost use Rattle.std.specs.Prelude.{◌≡◌, ◌<◌, ◌≤◌, ◌^◌, ℕ, List, [], length};
ghost use Rattle.grammar.specs.Tells.{Tells};
ghost use Rattle.epl_syntax.specs.Tree.{TypeTree, type_tree};
ghost use Rattle.epl_parser.specs.ItemReader.{read_program};
ghost use Rattle.epl_parser.specs.Program.{SpellsType, TypeIs, IsTaken, place_of};

use crate::item::edentype;
use crate::reading::Source;
use epl_syntax::{ParseRefusal, Program, Token, leading_tokens};
use grammar::Halt;
use std::alloc::Global;

/// An Edentype of all the tokens.
#[tactic(auto, unfolding(crate::specs::ItemReader::read_program))]
fn whole(source: &Source<'_>, tokens: &[Token]) -> Result<Program, Halt>
    requires few { length tokens.now < 2 ^ 32 }
    ensures { Tells (λ p. (type_tree p, [])) result (read_program source.now.text.now source.now.turns tokens.now) }
{
    let (program, rest) = edentype(source, tokens)?;
    if !rest.is_empty() {
        return Err(Halt::Bad { left: rest.len() });
    }
    Ok(program)
}

/// The start of the token from which on so many are left, or else the end.
fn place_of(end: u32, tokens: &[Token], left: usize) -> u32
    ensures { result ≡ place_of end tokens.now left }
{
    match tokens[tokens.len().saturating_sub(left)..].first() {
        Some(token) => token.start,
        None => end,
    }
}

/// The Edentype that the text spells, with the place of each of its parts.
///
/// `BadToken` comes at the start of the first token that no Edentype with the same tokens before it
/// has, at the first byte with which no token begins, or at the text's end. `TooDeep` comes at the
/// start of the first token that stands in more than 32 statements, kinds or expressions, each
/// operator and index up to it counted with its expression. Of both the first one is answered.
pub fn parse_edentype(alloc: Global, text: &[u8]) -> Result<Program, ParseRefusal>
    requires short { length text.now < 2 ^ 32 }
    // What is answered is so by the text's tokens and the grammar.
    ensures answers { TypeIs text.now result }
    // What is spelled is taken, unless memory runs out.
    ensures taken { (e : TypeTree) → SpellsType text.now e → IsTaken e result }
{
    let (tokens, end) = leading_tokens(alloc, text)?;
    let turns = usize::MAX;
    let source = Source { alloc, text, turns };
    match whole(&source, &tokens) {
        Ok(program) => {
            if end < text.len() {
                return Err(ParseRefusal::BadToken { place: end as u32 });
            }
            Ok(program)
        }
        Err(Halt::Memory) => Err(ParseRefusal::OutOfMemory),
        Err(Halt::Bad { left }) => Err(ParseRefusal::BadToken {
            place: place_of(end as u32, &tokens, left),
        }),
        Err(Halt::Deep { left }) => Err(ParseRefusal::TooDeep {
            place: place_of(end as u32, &tokens, left),
        }),
    }
}
