//! Numbers of methods as the plan has them.
#![tactic(auto)]

ghost use Rattle.std.specs.Prelude.{◌≡◌};
ghost use Rattle.chord_classes.specs.Table.{among};

/// Whether a number is among numbers.
pub fn among(number: u32, numbers: &[u32]) -> bool
    ensures { result ≡ among number numbers.now }
{
    for other in numbers {
        if number == *other {
            return true;
        }
    }
    false
}
