//! The shared table: messages and firings, and which desk has which of them in hand.
//! Stands on: atomic_table (words, slots, seats), chord_base (entries), chord_code (the code, parcels), chord_rule (the rule), chord_word (cells and places as words). Used by: many crates.
//! Promise: between any two steps of any desks the rule of chord_rule holds; each call says what it makes of the desk's view
//! (chord_rule, specs/Kinds.antt), and `laws` what the rule says of the journal.
//! Not here: which message to claim and which chord to fire, and what a bag is walked for.
#![tactic(auto)]

mod as_entry;
mod bypasses;
mod claims;
mod closed;
mod cross;
mod draws;
mod firings;
pub mod laws;
mod lends;
mod links;
mod looks;
mod plays;
mod space;

pub use as_entry::AsEntry;
pub use bypasses::Pointer;
pub use closed::Closed;
pub use cross::may_cross;
pub use space::{Desk, Space, Spent};
