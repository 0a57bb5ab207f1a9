//! What the layout of blocks owes to those who use it.
ghost use Rattle.std.specs.Prelude.{◌≡◌, ℕ, ◌≤◌, List, Some, length, true};
ghost use Rattle.passive_store.specs.Layout.{IsLayout};
ghost use Rattle.passive_store.specs.Log.{log_map};
ghost use Rattle.block_tables.specs.Blocks.{is_block_size};
ghost use Rattle.passive_blocks.specs.Conversion.{old_log};
ghost use Rattle.passive_blocks.specs.BlockLayout.{block_layout, block_map, format_of, OldLog, KeepsAsLog};

use passive_store::log_layout_is_a_layout;

/// The layout of blocks is a layout: of each image it tells what is kept there, or the first damaged place; what is
/// kept is kept under uids of the node, with a mark each; and a disk of a size that it allows is not opened without a
/// device call. Of a log that is to be converted this rests on the law of the log.
pub fn blocks_are_a_layout()
    ensures { IsLayout block_layout }
{
    log_layout_is_a_layout();
}

/// An image on which a log stands that is to be converted keeps the bodies that the log keeps, or is damaged where the log
/// is.
pub fn a_log_to_be_converted_keeps_its_bodies()
    ensures { (node : ℕ) (image : List ℕ) → is_block_size (length image) ≡ true → format_of image ≡ OldLog
        → KeepsAsLog (log_map node (old_log image)) (block_map node image) }
{}

/// What blocks keep is read by device calls: a value of no bytes has a block too.
pub fn blocks_are_read_by_calls()
    ensures { (body : List ℕ) → 1 ≤ block_layout.reading_calls (Some body) }
{}
