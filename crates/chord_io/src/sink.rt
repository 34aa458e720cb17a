//! A sink of bytes, and what each write to it tells.
ghost use Rattle.std.specs.Prelude.{◌≡◌, ℕ, ◌≤◌, List, length, take, Option, IfOk, OnOk, OnErr};
ghost use Rattle.chord_io.specs.Faults.{Rose};
ghost use Rattle.chord_io.specs.Pieces.{Took};

use crate::Failed;

/// Where bytes go, in pieces of the sink's choice.
pub trait Sink {
    // The bytes that were taken, where they are specified.
    ghost taken: { Self → Option (List ℕ) };

    // How many writes have failed.
    ghost faults: { Self → ℕ };

    /// Takes a prefix of the piece, and says how many bytes it has.
    /// To take none of a piece that has some is a fault.
    ///
    /// # Errors
    ///
    /// `Failed` exactly where the sink failed, which its count of faults shows. What was taken stays.
    fn write(&mut self, piece: &[u8]) -> Result<usize, Failed>
        ensures within { IfOk result (λ n. n ≤ length piece.now) }
        ensures took { IfOk result (λ n. Took (taken self.old) (take n piece.now) (taken self.new)) }
        ensures none { IfOk result (λ n. n ≡ 0 → length piece.now ≡ 0) }
        ensures kept { OnErr result (taken self.new ≡ taken self.old) }
        ensures unfailed { OnOk result (faults self.new ≡ faults self.old) }
        ensures failed { OnErr result (Rose (faults self.old) (faults self.new)) }
        ensures never_falls { faults self.old ≤ faults self.new };
}
