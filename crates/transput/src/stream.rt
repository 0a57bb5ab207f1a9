//! The six types as one.
ghost use Rattle.std.specs.Prelude.{◌≡◌, IfOk, IfSome, is_some};
ghost use Rattle.epl_syntax.specs.Outline.{starts};
ghost use Rattle.epl_syntax.specs.Natives as natives;
ghost use Rattle.transput.specs.View.{native_of, is_stream, stage_of, rule_of};

use crate::filter::{FilterStage, filter_begin, filter_turn, filter_values};
use crate::lines::{LinesStage, lines_begin, lines_turn, lines_values};
use crate::rule::Rule;
use crate::sink::{SinkStage, sink_begin, sink_turn, sink_values};
use eden_value::{Items, Txt};
use epl_syntax::{Answer, Effect, Native};
use std::alloc::{AllocError, Global};
use std::mem;

/// A stream type.
#[derive(Clone, Copy, Debug, PartialEq, Eq)]
pub enum Stream {
    /// The first stage, filled with texts.
    Lines,
    /// It hands on the first items.
    Take,
    /// It hands on all but the first items.
    Skip,
    /// It hands on the items that begin with a text.
    Only,
    /// It hands on each item with its number.
    Number,
    /// The last stage.
    Sink,
}

/// What is left to do of a process of a stream type.
#[derive(Drop)]
pub enum Stage {
    OfLines { stage: LinesStage },
    OfFilter { stage: FilterStage },
    OfSink { stage: SinkStage },
}

impl Stream {
    /// The stream type that a native type is, if it is one.
    pub fn of(native: Native) -> Option<Stream>
        ensures some { IfSome result (λ stream. native_of stream ≡ native) }
        ensures is_one { is_some result ≡ is_stream native }
    {
        match native {
            Native::Cell => None,
            Native::Directory => None,
            Native::Lines => Some(Stream::Lines),
            Native::Take => Some(Stream::Take),
            Native::Skip => Some(Stream::Skip),
            Native::Only => Some(Stream::Only),
            Native::Number => Some(Stream::Number),
            Native::Sink => Some(Stream::Sink),
        }
    }

    /// What tells a filter from the others. That of a type that is no filter is never looked at.
    fn rule(self) -> Rule
        ensures { rule_of result ≡ natives.rule_of (native_of self) }
    {
        match self {
            Stream::Skip => Rule::Skip,
            Stream::Only => Rule::Only,
            Stream::Number => Rule::Number,
            _ => Rule::Take,
        }
    }
}

/// The values of all variables of a new Eject, in order.
pub fn native_values(alloc: Global, stream: Stream) -> Result<Items, AllocError>
    ensures { IfOk result (λ vars. vars ≡ starts (natives.native_outline (native_of stream)).slots) }
{
    match stream {
        Stream::Lines => lines_values(alloc),
        Stream::Take => filter_values(alloc, Rule::Take),
        Stream::Skip => filter_values(alloc, Rule::Skip),
        Stream::Only => filter_values(alloc, Rule::Only),
        Stream::Number => filter_values(alloc, Rule::Number),
        Stream::Sink => sink_values(alloc),
    }
}

/// How an operation begins.
pub fn native_begin(
    alloc: Global,
    stream: Stream,
    operation: &Txt,
    args: &Items,
) -> Result<Stage, AllocError>
    ensures { IfOk result (λ stage. stage_of stage ≡ natives.first_stage (native_of stream) operation.now args.now) }
{
    match stream {
        Stream::Lines => {
            let stage = lines_begin(alloc, operation, args)?;
            Ok(Stage::OfLines { stage })
        }
        Stream::Sink => {
            let stage = sink_begin(operation, args);
            Ok(Stage::OfSink { stage })
        }
        _ => {
            let stage = filter_begin(alloc, operation, args)?;
            Ok(Stage::OfFilter { stage })
        }
    }
}

/// What comes of a stage, and the stage behind it.
fn proceeds(
    alloc: Global,
    stream: Stream,
    vars: &mut Items,
    stage: Stage,
    answer: Answer,
) -> Result<(Stage, Effect), AllocError>
    ensures { IfOk result (λ r. (vars.new, stage_of r.0, r.1)
        ≡ natives.native_turn (native_of stream) vars.old (stage_of stage) answer) }
{
    match stage {
        Stage::OfLines { stage: before } => {
            let (stage, effect) = lines_turn(alloc, vars, before, &answer)?;
            Ok((Stage::OfLines { stage }, effect))
        }
        Stage::OfFilter { stage: before } => {
            let (stage, effect) = filter_turn(alloc, stream.rule(), vars, before, answer)?;
            Ok((Stage::OfFilter { stage }, effect))
        }
        Stage::OfSink { stage: before } => {
            let (stage, effect) = sink_turn(alloc, vars, before, answer)?;
            Ok((Stage::OfSink { stage }, effect))
        }
    }
}

/// A turn of a process, up to its effect, where it is told the answer to the effect before. Where memory runs out, the
/// values and what is left to do are no longer those of the Eject.
pub fn native_turn(
    alloc: Global,
    stream: Stream,
    vars: &mut Items,
    stage: &mut Stage,
    answer: Answer,
) -> Result<Effect, AllocError>
    ensures { IfOk result (λ effect. (vars.new, stage_of stage.new, effect)
        ≡ natives.native_turn (native_of stream) vars.old (stage_of stage.old) answer) }
{
    let left = Stage::OfLines {
        stage: LinesStage::FillSaved,
    };
    let before = mem::replace(stage, left);
    let (after, effect) = proceeds(alloc, stream, vars, before, answer)?;
    *stage = after;
    Ok(effect)
}
