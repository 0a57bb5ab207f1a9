//! Clocks of disks.
ghost use Rattle.std.specs.Prelude.{◌≡◌, ◌↔◌, ℕ, IsTrue};
ghost use Rattle.journal.specs.Step.{ClockFits, NotBefore, StoreClockFits, clock_before};
ghost use Rattle.journal.specs.World.{World};
ghost use Rattle.plain_choices.specs.View.{IsTouched};

/// Whether the clock does not fall: the last one of the disk, if there was one, is no greater.
fn is_not_before(before: Option<u64>, clock: u64) -> bool
    ensures { IsTrue result ↔ NotBefore clock before }
{
    match before {
        Some(last) => last <= clock,
        None => true,
    }
}

/// Whether an entry may show this clock: any from the last one of the disk that it touched on, 0 where it touched none.
pub fn may_show(touched: bool, before: Option<u64>, clock: u64) -> bool
    ensures { (w : World) (n : ℕ) → IsTouched touched n → before ≡ clock_before w n → IsTrue result ↔ ClockFits w n clock }
{
    if touched {
        is_not_before(before, clock)
    } else {
        clock == 0
    }
}

/// Whether a turn of a store may show this clock, in an entry that shows that one: the last one of the disk where it makes no device
/// call, and else one more, up to the last that there is, which both show.
pub fn may_show_store(touched: bool, before: Option<u64>, shown: u64, clock: u64) -> bool
    ensures { (n : ℕ) → IsTouched touched n → IsTrue result ↔ StoreClockFits n before shown clock }
{
    match (touched, before) {
        (false, Some(last)) => shown == last,
        (false, None) => true,
        (true, Some(last)) => shown == clock && clock == last.saturating_add(1),
        (true, None) => shown == clock,
    }
}
