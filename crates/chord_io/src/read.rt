//! Reading a source to its end.
ghost use Rattle.std.specs.Prelude.{◌≡◌, ℕ, ◌<◌, ◌≤◌, ◌+◌, List, length, Ok, IfOk, OnOk, OnErr, IsErrOf, IfSome, vec_len, ◌⊎◌};
ghost use Rattle.chord_io.specs.Faults.{Rose};
ghost use Rattle.chord_io.specs.Pieces.{Gave, IsSpent};
ghost use Rattle.chord_io.specs.declared.read.ReadFault.TheVariants as faults;

use crate::{Failed, Source};
use std::alloc::{AllocError, Global};

/// The most bytes that the source of a program may have.
pub const MAX_SOURCE_BYTES: u32 = 1_048_576;

/// The bytes that one read asks for.
const PIECE_BYTES: usize = 4096;

/// Why the bytes of a source were not had.
#[derive(Clone, Copy, Debug, PartialEq, Eq)]
pub enum ReadFault {
    /// A read failed.
    Failed,
    /// The source gave more bytes than are allowed.
    TooLong,
    /// The call ran out of memory.
    Memory,
}

impl From<Failed> for ReadFault {
    ghost from_gives = { λ _ fault. fault ≡ faults.Failed };

    fn from(_failed: Failed) -> ReadFault {
        ReadFault::Failed
    }
}

impl From<AllocError> for ReadFault {
    ghost from_gives = { λ _ fault. fault ≡ faults.Memory };

    fn from(_error: AllocError) -> ReadFault {
        ReadFault::Memory
    }
}

/// Reads the source of a program: `read_up_to` of `MAX_SOURCE_BYTES`.
pub fn read_all<S: Source>(alloc: Global, source: &mut S) -> Result<Vec<u8>, ReadFault>
    ensures all { IfOk result (λ bytes. IfSome (S.left source.old) (λ left. bytes.items ≡ left)) }
    ensures gave { IfOk result (λ bytes. Gave (S.left source.old) bytes.items (S.left source.new)) }
    ensures spent { OnOk result (IsSpent (S.left source.new)) }
    ensures fits { IfOk result (λ bytes. vec_len bytes ≤ 1048576) }
    ensures too_long { IsErrOf result ReadFault.TooLong → (given : List ℕ) × (length given ≡ 1048577)
        × Gave (S.left source.old) given (S.left source.new) }
    ensures failed { IsErrOf result ReadFault.Failed → Rose (S.faults source.old) (S.faults source.new) }
    ensures unfailed { IsErrOf result ReadFault.Failed ⊎ (S.faults source.new ≡ S.faults source.old) }
    ensures failed_within { IsErrOf result ReadFault.Failed → (given : List ℕ) × (length given ≤ 1048576)
        × Gave (S.left source.old) given (S.left source.new) }
    ensures memory_within { IsErrOf result ReadFault.Memory → (given : List ℕ) × (0 < length given) × (length given ≤ 1048576)
        × Gave (S.left source.old) given (S.left source.new) }
    ensures part { OnErr result ((given : List ℕ) × (length given ≤ 1048577) × Gave (S.left source.old) given (S.left source.new)) }
    ensures never_falls { S.faults source.old ≤ S.faults source.new }
{
    read_up_to(alloc, source, MAX_SOURCE_BYTES)
}

/// Reads all bytes to the end of input, of which there may be `most`.
///
/// # Errors
///
/// `Failed` exactly where a read failed before the source had given more than `most` bytes; the source's count of faults shows it.
/// `TooLong` exactly where the source gave more than `most` bytes, which ends the reading at `most + 1`. `Memory` where
/// the call ran out of memory for bytes that it may have. What was read then is lost. At most one read fails, and at most `most + 1`
/// bytes are read.
pub fn read_up_to<S: Source>(alloc: Global, source: &mut S, most: u32) -> Result<Vec<u8>, ReadFault>
    ensures all { IfOk result (λ bytes. IfSome (S.left source.old) (λ left. bytes.items ≡ left)) }
    ensures gave { IfOk result (λ bytes. Gave (S.left source.old) bytes.items (S.left source.new)) }
    ensures spent { OnOk result (IsSpent (S.left source.new)) }
    ensures fits { IfOk result (λ bytes. vec_len bytes ≤ most) }
    ensures too_long { IsErrOf result ReadFault.TooLong → (given : List ℕ) × (length given ≡ most + 1)
        × Gave (S.left source.old) given (S.left source.new) }
    ensures failed { IsErrOf result ReadFault.Failed → Rose (S.faults source.old) (S.faults source.new) }
    ensures unfailed { IsErrOf result ReadFault.Failed ⊎ (S.faults source.new ≡ S.faults source.old) }
    ensures failed_within { IsErrOf result ReadFault.Failed → (given : List ℕ) × (length given ≤ most)
        × Gave (S.left source.old) given (S.left source.new) }
    ensures memory_within { IsErrOf result ReadFault.Memory → (given : List ℕ) × (0 < length given) × (length given ≤ most)
        × Gave (S.left source.old) given (S.left source.new) }
    ensures part { OnErr result ((given : List ℕ) × (length given ≤ most + 1) × Gave (S.left source.old) given (S.left source.new)) }
    ensures never_falls { S.faults source.old ≤ S.faults source.new }
{
    let most = most as usize;
    let mut bytes = Vec::new(alloc);
    let mut buffer = [0; PIECE_BYTES];
    loop {
        let left = most - bytes.len();
        let room = PIECE_BYTES.min(left + 1);
        let count = source.read(&mut buffer[..room])?;
        if count == 0 {
            return Ok(bytes);
        }
        // What is too long is thrown away, so no memory is asked for it.
        if left < count {
            return Err(ReadFault::TooLong);
        }
        bytes.extend_from_slice(&buffer[..count])?;
    }
}
