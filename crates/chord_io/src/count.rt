//! Counts that stand still at their last value.
ghost use Rattle.std.specs.Prelude.{◌≡◌};
ghost use Rattle.chord_io.specs.Faults as faults;

/// The count after one more.
pub fn one_more(count: u64) -> u64
    ensures { result ≡ faults.one_more count }
{
    count.saturating_add(1)
}
