//! The journal as text, in both directions, and a journal gathered from its entries.
//! Stands on: arrayvec, chord_base (the journal), chord_io (sinks), thiserror. Used by: chord_pool, chord_run, chord_tests.
//! Promise: `write_text` writes exactly the text of a journal (specs/Text.antt), `write_counts` how many entries of each kind it
//! has (specs/Counts.antt), and `read` takes exactly these texts and names the least line that is wrong (specs/Wrong.antt); `laws`
//! says that one text is the text of one journal.
//! Not here: what a journal means (chord_base).
#![tactic(auto)]

mod counts;
mod gathered;
pub mod laws;
mod line;
mod lines;
mod merged;
mod parts;
mod reading;
mod values;
mod write;

pub use counts::write_counts;
pub use gathered::gather;
pub use lines::{write_and_look, write_lines};
pub use merged::gather_lists;
pub use reading::{JournalFault, read};
pub use write::write_text;
