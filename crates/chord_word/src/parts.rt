//! A part of a word: the number in a run of its bits.
ghost use Rattle.std.specs.Prelude.{◌≡◌, ◌/◌, ◌%◌, ◌^◌, ◌<◌};

/// The number in the `width` bits of `word` from bit `from` on.
#[inline]
pub fn part(word: u64, from: u32, width: u32) -> u64
    requires from { from < 64 }
    requires width { width < 64 }
    ensures value { result ≡ word / 2 ^ from % 2 ^ width }
{
    (word >> from) % (1 << width)
}
