//! Where the bytes of a run come from and where they go: sources and sinks that count their faults.
//! Stands on: arrayvec, itoa (texts of numbers). Used by: many crates.
//! Promise: `read_all` gives exactly the bytes that were left, `write_all` adds exactly the piece,
//! and a fault is answered exactly where the count of faults rose (specs/Pieces.antt, specs/Faults.antt).
//! Not here: what the bytes mean, and any text of the program.
#![tactic(auto)]

mod count;
mod digits;
mod memory;
mod pen;
mod read;
mod sink;
mod source;
mod standard;
mod write;

pub use memory::{MemSink, MemSource};
pub use pen::Pen;
pub use read::{MAX_SOURCE_BYTES, ReadFault, read_all, read_up_to};
pub use sink::Sink;
pub use source::Source;
pub use standard::{StdSink, StdSource};
pub use write::write_all;

/// A read or a write that failed.
#[derive(Clone, Copy, Debug, PartialEq, Eq)]
pub struct Failed;
