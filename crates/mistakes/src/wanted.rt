//! What may stand at a place of a type.

ghost use Rattle.std.specs.Prelude.{◌≡◌, ◌<◌, ◌≤◌, ◌^◌, ◌+◌, ◌++◌, ◌∷◌, [], if◌then◌else◌, nat_lt, true, map, length, IfOk, OnOk};
ghost use Rattle.std.specs.List.{list_all};
ghost use Rattle.mistakes.specs.Wanted.{MayStand, Decides, IsSifted, samples, trial};

use epl_parser::{parse_edentype, refusals_are_one};
use epl_syntax::ParseRefusal;
use std::alloc::{AllocError, Global};

/// A token that is tried at a place, and what is told where it may stand there.
type Sample = (&'static [u8], &'static [u8]);

/// All samples. A word with which only expressions begin stands for them all; so it is with items, statements, constants and kinds, and
/// with an operator that stands where the others do.
const SAMPLES: [Sample; 38] = [
    (b"edentype", b"`edentype`"),
    (b"A", b"a name that begins with a capital letter"),
    (b"a", b"a name that begins with a small letter"),
    (b"0", b"a number"),
    (b"process", b"an item of a type"),
    (b"yield", b"a statement"),
    (b"size", b"an expression"),
    (b"none", b"a constant"),
    (b"int", b"a kind"),
    (b"mod", b"an operator"),
    (b"version", b"`version`"),
    (b"class", b"`class`"),
    (b"limit", b"`limit`"),
    (b"durable", b"`durable` or `working`"),
    (b"condition", b"`condition`"),
    (b"needs", b"`needs`"),
    (b"returns", b"`returns`"),
    (b"var", b"`var`"),
    (b"upgrade", b"`upgrade`"),
    (b"from", b"`from`"),
    (b"of", b"`of`"),
    (b"then", b"`then`"),
    (b"else", b"`else`"),
    (b"do", b"`do`"),
    (b"self", b"`self`"),
    (b"status", b"`status`"),
    (b"gives", b"`gives`"),
    (b"end", b"`end`"),
    (b"endtype", b"`endtype`"),
    (b":=", b"`:=`"),
    (b":", b"`:`"),
    (b"=", b"`=`"),
    (b",", b"`,`"),
    (b".", b"`.`"),
    (b"(", b"`(`"),
    (b")", b"`)`"),
    (b"[", b"`[`"),
    (b"]", b"`]`"),
];

/// The text up to a place, and a word behind it.
fn trial_of(alloc: Global, before: &[u8], word: &[u8]) -> Result<Vec<u8>, AllocError>
    ensures { IfOk result (λ v. v.items ≡ trial before.now word.now) }
{
    let mut text = Vec::with_capacity(alloc, before.len() + word.len() + 1)?;
    text.extend_from_slice(before)?;
    text.push(b' ')?;
    text.extend_from_slice(word)?;
    Ok(text)
}

/// Whether a word may stand behind the text up to a place.
fn may_stand(alloc: Global, before: &[u8], word: &[u8]) -> Result<bool, AllocError>
    requires { length before.now + length word.now < 4294967294 }
    ensures { IfOk result (Decides (MayStand before.now word.now)) }
{
    refusals_are_one();
    let text = trial_of(alloc, before, word)?;
    match parse_edentype(alloc, &text) {
        Ok(_) => Ok(true),
        Err(ParseRefusal::BadToken { place }) => Ok(place as usize >= text.len()),
        Err(ParseRefusal::TooDeep { place }) => Ok(place as usize >= text.len()),
        Err(ParseRefusal::OutOfMemory) => Err(AllocError),
    }
}

fn add_where(
    holds: bool,
    told: &'static [u8],
    found: &mut Vec<&'static [u8]>,
) -> Result<(), AllocError>
    ensures { OnOk result (found.new.items ≡ (if holds then found.old.items ++ told.entry ∷ [] else found.old.items)) }
{
    if holds {
        found.push(told)?;
    }
    Ok(())
}

/// What is told of those words of a table that may stand behind the text up to a place.
fn sifted(alloc: Global, before: &[u8], table: &[Sample]) -> Result<Vec<&'static [u8]>, AllocError>
    requires text { length before.now < 2 ^ 31 }
    requires short { list_all (λ s. nat_lt (length s.0.now) 100) table.now ≡ true }
    ensures { IfOk result (λ v. IsSifted (MayStand before.now) (map (λ s. (s.0.now, s.1.now)) table.now) (map (λ w. w.now) v.items)) }
{
    let mut found = Vec::new(alloc);
    for sample in table {
        let holds = may_stand(alloc, before, sample.0)?;
        add_where(holds, sample.1, &mut found)?;
    }
    Ok(found)
}

/// What may stand behind the text up to a place, in words.
pub fn wanted(alloc: Global, before: &[u8]) -> Result<Vec<&'static [u8]>, AllocError>
    requires { length before.now < 2 ^ 31 }
    ensures { IfOk result (λ v. IsSifted (MayStand before.now) samples (map (λ w. w.now) v.items)) }
{
    sifted(alloc, before, &SAMPLES)
}
