//! What is told of kinds, and of numbers of values, that differ.

ghost use Rattle.std.specs.Prelude.{◌≡◌, ◌++◌, OnOk};
ghost use Rattle.std.specs.Fmt.{decimal};
ghost use Rattle.mistakes.specs.Words as words;

use epl_check::{Difference, Plain, Shape};
use itoa::Buffer;
use std::alloc::AllocError;

pub fn add_number(n: u64, out: &mut Vec<u8>) -> Result<(), AllocError>
    ensures { OnOk result (out.new.items ≡ out.old.items ++ decimal n) }
{
    let mut digits = Buffer::new();
    out.extend_from_slice(digits.format(n).as_bytes())
}

fn plain_word(plain: Plain) -> &'static str
    ensures { result.now ≡ words.plain_text plain }
{
    match plain {
        Plain::Int => "int",
        Plain::Bool => "bool",
        Plain::Text => "text",
        Plain::Cap => "cap",
    }
}

fn add_lists(count: u32, out: &mut Vec<u8>) -> Result<(), AllocError>
    ensures { OnOk result (out.new.items ≡ out.old.items ++ words.lists_text count) }
{
    for _ in 0..count {
        out.extend_from_slice(b"list of ")?;
    }
    Ok(())
}

/// A kind as a type writes it.
fn add_shape(shape: Shape, out: &mut Vec<u8>) -> Result<(), AllocError>
    ensures { OnOk result (out.new.items ≡ out.old.items ++ words.shape_text shape) }
{
    add_lists(shape.lists, out)?;
    out.extend_from_slice(plain_word(shape.plain).as_bytes())
}

fn add_found(wanted: &[u8], found: Shape, out: &mut Vec<u8>) -> Result<(), AllocError>
    ensures { OnOk result (out.new.items ≡ out.old.items ++ (wanted.now ++ words.shape_text found)) }
{
    out.extend_from_slice(wanted)?;
    add_shape(found, out)
}

/// A number of values, behind these words.
#[tactic(auto, unfolding(crate::specs::Words::count_text))]
fn add_count(front: &[u8], count: usize, out: &mut Vec<u8>) -> Result<(), AllocError>
    ensures { OnOk result (out.new.items ≡ out.old.items ++ words.count_text front.now count) }
{
    out.extend_from_slice(front)?;
    add_number(count as u64, out)
}

fn add_counts(wanted: usize, found: usize, out: &mut Vec<u8>) -> Result<(), AllocError>
    ensures { OnOk result (out.new.items ≡ out.old.items ++ words.counts_text wanted found) }
{
    add_count(b"values in the parentheses: ", wanted, out)?;
    add_count(b"; here: ", found, out)?;
    Ok(())
}

/// What was wanted, and what is there.
pub fn add_difference(difference: Difference, out: &mut Vec<u8>) -> Result<(), AllocError>
    ensures { OnOk result (out.new.items ≡ out.old.items ++ words.difference_text difference) }
{
    match difference {
        Difference::Kind { wanted, found } => {
            add_shape(wanted, out)?;
            add_found(b"; this is ", found, out)
        }
        Difference::List { found } => add_found(b"a list; this is ", found, out),
        Difference::Sized { found } => add_found(b"text or a list; this is ", found, out),
        Difference::Count { wanted, found } => add_counts(wanted, found, out),
        Difference::Return => {
            out.extend_from_slice(b"no `return`: only an operation returns values")
        }
    }
}
