//! The words of the shared table: what one 64-bit word says of a message, a bag or a place, and back.
//! Stands on: chord_base (objects). Used by: many crates.
//! Promise: packing and unpacking are exact in both directions; `unpack` refuses just the words that are no cell (specs/Cells.antt),
//! and `unpack_cell` and `unpack_next` take a word that is known to be some cell's.
//! Not here: which word stands where in the table, and who may change it (chord_space).
#![tactic(auto)]

mod cells;
mod parts;
mod places;

pub use cells::{Cell, Word, pack, pack_head, unpack, unpack_cell, unpack_head, unpack_next};
pub use places::{pack_place, unpack_place};
