//! What a crash may leave of a disk while its log becomes blocks.
ghost use Rattle.std.specs.Prelude.{◌≡◌, ℕ, false, List, Result, length, slice_range};
ghost use Rattle.std.specs.List.{AllByRecursion};
ghost use Rattle.std.specs.FinMap as finite;
ghost use Rattle.capability.specs.declared.Uid.{Uid};
ghost use Rattle.eden_disk.specs.Told.{Told, contents, at_rest};
ghost use Rattle.eden_disk.specs.Calls.{End};
ghost use Rattle.eden_disk.specs.Held.{Passes};
ghost use Rattle.passive_store.specs.Acts.{CallsTold};
ghost use Rattle.passive_store.specs.Kept.{Kept};
ghost use Rattle.passive_store.specs.Log.{log_map};
ghost use Rattle.passive_blocks.specs.Conversion.{staging_calls, finishing_calls, old_log, is_too_much};
ghost use Rattle.passive_blocks.specs.Converting.{SaysSame, IsOldLog, IsStagedLog, IsGoodEntry};

/// At each moment of a conversion, in and between its device calls and however they end, an opening finds of each image that a
/// crash may leave what it found before: the same map or damaged place, and the same room.
pub fn conversions_say_the_same()
    // while the values of a log are copied and their heads are staged
    ensures beginning { (node : ℕ) (start : List ℕ) (kept : Kept) (old new : Told) (end : End) → contents old ≡ at_rest start
        → IsOldLog start → log_map node (old_log start) ≡ Result.Ok kept → is_too_much (Result.Ok kept) ≡ false
        → AllByRecursion (λ (e : Uid × List ℕ). IsGoodEntry node e.0 (length e.1)) (finite.entries kept.bodies)
        → CallsTold (staging_calls kept) old new end → Passes (λ image. SaysSame node image start) old new }
    // and while staged heads are moved to their places
    ensures finishing { (node : ℕ) (start : List ℕ) (old new : Told) (end : End) → contents old ≡ at_rest start → IsStagedLog start
        → CallsTold (finishing_calls (slice_range start 4063232 4194304)) old new end
        → Passes (λ image. SaysSame node image start) old new }
{}
