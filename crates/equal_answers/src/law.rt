//! What two stores of different layouts answer to the same calls, apart from any code.
ghost use Rattle.passive_store.specs.LogLayout.{log_layout};
ghost use Rattle.passive_blocks.specs.BlockLayout.{block_layout};
ghost use Rattle.equal_answers.specs.Alike.{AlikeStoresAnswerAlike, StoresAnswerAlike, AnswerAlikeFromBlankDisks, KeepsNothingInZeros};

/// Stores of one node that keep the same bytes answer the same calls alike, refuse none of them, and keep the same bytes
/// behind them, where no count of their disks rises and no call is refused for want of room or of memory. Their layouts
/// need not be the same.
pub fn alike_stores_answer_alike()
    ensures from_any { AlikeStoresAnswerAlike }

    // So do stores that were opened over blank disks, of layouts that keep nothing there.
    ensures from_blank { StoresAnswerAlike }
{}

/// So does a store over a log as one over blocks, from blank disks on, of whatever sizes.
pub fn logs_and_blocks_answer_alike()
    ensures { AnswerAlikeFromBlankDisks log_layout block_layout }
{}

/// A blank disk keeps nothing, by either layout.
pub fn blank_disks_keep_nothing()
    ensures log { KeepsNothingInZeros log_layout }
    ensures blocks { KeepsNothingInZeros block_layout }
{}
