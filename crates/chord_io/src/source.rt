//! A source of bytes, and what each read of it tells.
ghost use Rattle.std.specs.Prelude.{◌≡◌, ℕ, ◌<◌, ◌≤◌, List, length, take, Option, IfOk, OnOk, OnErr};
ghost use Rattle.chord_io.specs.Faults.{Rose};
ghost use Rattle.chord_io.specs.Pieces.{Gave, IsSpent};

use crate::Failed;

/// Where bytes come from, in pieces of the source's choice.
pub trait Source {
    // The bytes that are left to read, where they are specified.
    ghost left: { Self → Option (List ℕ) };

    // How many reads have failed.
    ghost faults: { Self → ℕ };

    /// Reads a piece into the beginning of the buffer, and says how many bytes it has.
    /// 0 into a buffer that has room is the end of input.
    ///
    /// # Errors
    ///
    /// `Failed` exactly where the source failed, which its count of faults shows. What is left stays.
    fn read(&mut self, buf: &mut [u8]) -> Result<usize, Failed>
        ensures within { IfOk result (λ n. n ≤ length buf.old) }
        ensures gave { IfOk result (λ n. Gave (left self.old) (take n buf.new) (left self.new)) }
        ensures end { IfOk result (λ n. n ≡ 0 → 0 < length buf.old → IsSpent (left self.new)) }
        ensures kept { OnErr result (left self.new ≡ left self.old) }
        ensures unfailed { OnOk result (faults self.new ≡ faults self.old) }
        ensures failed { OnErr result (Rose (faults self.old) (faults self.new)) }
        ensures never_falls { faults self.old ≤ faults self.new };
}
