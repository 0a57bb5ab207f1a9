//! Entries and histories by their lines, and the verdict of a trace.
ghost use Rattle.trace_laws.specs.Determined.{EntriesAreDetermined, HistoriesAreDetermined, TextsHaveOneHistory};
ghost use Rattle.trace_laws.specs.Verdict.{EntriesAreWholeLines, FirstBadLinesAreShown, HasOneVerdict};
ghost use Rattle.trace_laws.specs.Endings.{BeginningsHaveEndings};

/// An entry is determined by its lines in the full trace: of two entries that may come next, neither has lines with which those of
/// the other begin, unless they are one.
pub fn an_entry_is_determined_by_its_lines()
    ensures { EntriesAreDetermined }
{}

/// The law of determinism. Of two histories of a script, each so far, whose full traces begin alike, one is the beginning of the
/// other; and no two histories that came to their ends have one text.
pub fn a_history_is_determined_by_its_text()
    ensures so_far { HistoriesAreDetermined }
    ensures whole { TextsHaveOneHistory }
{}

/// No trace has two verdicts: it is a legal text, or there is one first line with which no legal text begins, and not both.
pub fn a_trace_has_one_verdict()
    ensures { HasOneVerdict }
{}

/// What shows that a line is the first bad one: where the history so far stands in front of the trace, no entry that is due agrees
/// with the trace for one line more than j, and some history so far has its first j lines, then the next line is it.
pub fn a_first_bad_line_is_shown()
    ensures { FirstBadLinesAreShown }
{}

/// Each entry is whole lines in the full trace, so behind it the lines go on.
pub fn an_entry_is_whole_lines()
    ensures { EntriesAreWholeLines }
{}

/// Whatever begins a fit script can be ended: more entries follow, with which the history comes to the end of its script.
pub fn a_beginning_has_an_ending()
    ensures { BeginningsHaveEndings }
{}
