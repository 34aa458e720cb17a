//! Writing a whole piece.
ghost use Rattle.std.specs.Prelude.{◌≡◌, ◌≤◌, OnOk, OnErr};
ghost use Rattle.chord_io.specs.Faults.{Rose};
ghost use Rattle.chord_io.specs.Pieces.{Took, TookProperPrefix};

use crate::{Failed, Sink};

/// Writes the whole piece.
///
/// # Errors
///
/// `Failed` exactly where a write failed, which the sink's count of faults shows; it is the only one that failed.
/// A proper prefix of the piece was written.
pub fn write_all<K: Sink>(sink: &mut K, piece: &[u8]) -> Result<(), Failed>
    ensures whole { OnOk result (Took (K.taken sink.old) piece.now (K.taken sink.new)) }
    ensures prefix { OnErr result (TookProperPrefix (K.taken sink.old) piece.now (K.taken sink.new)) }
    ensures unfailed { OnOk result (K.faults sink.new ≡ K.faults sink.old) }
    ensures failed { OnErr result (Rose (K.faults sink.old) (K.faults sink.new)) }
    ensures never_falls { K.faults sink.old ≤ K.faults sink.new }
{
    let mut taken = 0;
    while taken < piece.len() {
        let count = sink.write(&piece[taken..])?;
        taken += count;
    }
    Ok(())
}
