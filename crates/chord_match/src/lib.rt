//! Chords are found and fired: for a message that a desk has a duty on, one message for each other method of a chord.
//! Stands on: arrayvec (nexts), chord_bag (a bag is sought), chord_base (members, hands), chord_code (chords), chord_rule (views), chord_space (claims, draws), chord_word (cells). Used by: chord_tests, chord_worker.
//! Promise: `find` says which chord can be fired, or why none can, and lays the duty down only where nothing is left to do
//! (specs/Findings.antt); `fire` claims all members and takes all their parcels, or claims none (specs/Fires.antt).
//! Not here: who calls them, and what is done with a firing.
#![tactic(auto)]

mod claiming;
mod handing;
mod held;
pub mod nexts;
mod notes;
mod search;
mod unnoted;

pub use claiming::Missed;
pub use handing::{Firing, Receive, fire, fire_to};
pub use search::{Finding, find};
