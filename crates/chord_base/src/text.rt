//! Texts of the language: bytes, at most 1,024, of which up to 8 lie in the text itself.
#![tactic(auto)]

ghost use Rattle.std.specs.Prelude.{◌≡◌, ℕ, ◌+◌, ◌<◌, ◌≤◌, List, ◌++◌, length, IsOk, IfOk, ◌↔◌};
ghost use Rattle.chord_base.specs.Texts.{stored_bytes, IsStored};

use std::alloc::{AllocError, Global};
use std::marker::Model;
use std::mem::size_of;
use std::sync::Arc;

/// The most bytes that a text has.
pub const MAX_TEXT_BYTES: usize = 1024;

/// The most bytes that lie in a text itself: as many as a pointer has.
const MAX_SHORT_BYTES: usize = 8;

// Most texts are names, and a text is moved by value: so it is two words, and a short one asks for no memory. Room for more bytes than a register holds
// is cleared and copied in memory wherever a text passes: with 22 in three words a firing was dearer, and lexing and parsing gained half as much.
const _: () = prove!(size_of::<Text>() == 2 * size_of::<usize>());

/// A text of at most 1,024 bytes. Contracts see the list of its bytes.
#[derive(Drop)]
pub struct Text {
    bytes: Storage,
}

impl Model for Text {
    ghost use Rattle.std.specs.Prelude.{ℕ, List};

    ghost Value = { List ℕ };

    ghost use Rattle.chord_base.specs.Texts.{stored_bytes, IsStored};

    ghost view = { λ t. stored_bytes t.bytes };

    ghost invariant = { λ t. IsStored t.bytes };
}

/// Where the bytes of a text lie.
#[derive(Drop)]
enum Storage {
    /// In the text, the first so many of these.
    Short {
        length: u32,
        bytes: [u8; MAX_SHORT_BYTES],
    },
    /// Shared with its copies, so that a copy asks for no memory.
    Long(Arc<Vec<u8>>),
}

/// Why a text was not made.
#[derive(Drop)]
pub enum TextFault {
    /// No memory was found.
    Memory,
    /// The text would have more than 1,024 bytes.
    TooLong,
}

impl Text {
    /// The text of these bytes.
    ///
    /// `TooLong` comes exactly for more than 1,024 bytes, and none of up to 8 asks for memory.
    pub fn of_bytes(alloc: Global, bytes: &[u8]) -> Result<Text, TextFault>
        ensures made { IfOk result (λ t. t ≡ bytes.now) }
        ensures fits { IfOk result (λ _. length bytes.now ≤ 1024) }
        ensures too_long { (result ≡ Err TextFault.TooLong) ↔ (1024 < length bytes.now) }
        ensures short { length bytes.now ≤ 8 → IsOk result }
    {
        if bytes.len() <= MAX_SHORT_BYTES {
            return Ok(Text {
                bytes: in_place(bytes, b""),
            });
        }
        if bytes.len() > MAX_TEXT_BYTES {
            return Err(TextFault::TooLong);
        }
        match in_memory(alloc, bytes, b"") {
            Ok(bytes) => Ok(Text { bytes }),
            Err(_) => Err(TextFault::Memory),
        }
    }

    /// The bytes.
    #[inline]
    pub fn items(&self) -> &[u8]
        ensures bytes { result.now ≡ self.now }
        ensures few { length self.now ≤ 1024 }
    {
        match &self.bytes {
            Storage::Short { length, bytes } => &bytes[..*length as usize],
            Storage::Long(bytes) => bytes.as_slice(),
        }
    }

    /// The two texts joined.
    ///
    /// `TooLong` comes exactly where they have more than 1,024 bytes together, and up to 8 ask for no memory.
    pub fn joined(alloc: Global, left: &Text, right: &Text) -> Result<Text, TextFault>
        ensures made { IfOk result (λ t. t ≡ left.now ++ right.now) }
        ensures fits { IfOk result (λ _. length left.now + length right.now ≤ 1024) }
        ensures too_long { (result ≡ Err TextFault.TooLong) ↔ (1024 < length left.now + length right.now) }
        ensures short { length left.now + length right.now ≤ 8 → IsOk result }
    {
        let left = left.items();
        let right = right.items();
        if left.len() + right.len() <= MAX_SHORT_BYTES {
            return Ok(Text {
                bytes: in_place(left, right),
            });
        }
        if left.len() + right.len() > MAX_TEXT_BYTES {
            return Err(TextFault::TooLong);
        }
        match in_memory(alloc, left, right) {
            Ok(bytes) => Ok(Text { bytes }),
            Err(_) => Err(TextFault::Memory),
        }
    }

    /// An equal text. One of up to 8 bytes always is made; a longer one shares its bytes, and fails where their owners are too many to be counted.
    pub fn copied(&self, _alloc: Global) -> Result<Text, AllocError>
        ensures equal { IfOk result (λ t. t ≡ self.now) }
        ensures short { length self.now ≤ 8 → IsOk result }
    {
        match &self.bytes {
            Storage::Short { length, bytes } => Ok(Text {
                bytes: Storage::Short {
                    length: *length,
                    bytes: *bytes,
                },
            }),
            Storage::Long(bytes) => Ok(Text {
                bytes: Storage::Long(Arc::clone(bytes)?),
            }),
        }
    }
}

/// The bytes of both, in place.
#[inline]
fn in_place(left: &[u8], right: &[u8]) -> Storage
    requires few { length left.now + length right.now ≤ 8 }
    ensures bytes { stored_bytes result ≡ left.now ++ right.now }
    ensures stored { IsStored result }
{
    let length = left.len() + right.len();
    let mut bytes = [0; MAX_SHORT_BYTES];
    bytes[..left.len()].copy_from_slice(left);
    bytes[left.len()..length].copy_from_slice(right);
    Storage::Short {
        length: length as u32,
        bytes,
    }
}

/// The bytes of both, in memory that is asked for.
#[inline(never)]
fn in_memory(alloc: Global, left: &[u8], right: &[u8]) -> Result<Storage, AllocError>
    requires many { 8 < length left.now + length right.now }
    requires fit { length left.now + length right.now ≤ 1024 }
    ensures bytes { IfOk result (λ b. stored_bytes b ≡ left.now ++ right.now) }
    ensures stored { IfOk result IsStored }
{
    let mut bytes = Vec::with_capacity(alloc, left.len() + right.len())?;
    bytes.extend_from_slice(left)?;
    bytes.extend_from_slice(right)?;
    Ok(Storage::Long(Arc::new(alloc, bytes)?))
}
