//! The roll: how many workers of a run are at work, and whether all are to stop.
//! Stands on: atomic_table (words that threads share, and seats). Used by: chord_pool, chord_tests.
//! Promise: between any two steps of any workers the number on the roll is the number of cards that count (specs/Roll.antt); each call
//! says what it makes of its card, and `laws` what the rule says of who is at work.
//! Not here: when a worker is at work, and when it goes (chord_pool).
#![tactic(auto)]

mod card;
pub mod laws;
mod plays;
mod turnout;

pub use card::Card;
