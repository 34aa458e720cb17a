//! Bags of waiting messages, walked without a lock.
//! Stands on: chord_base (objects), chord_code (parcels), chord_rule (views, ways, walks), chord_space (looks), chord_word (cells). Used by: chord_match, chord_tests, chord_worker.
//! Promise: `seek` answers Found, Bare or Busy, and each answer is told by the one way through the bag that the call went
//! (specs/Seeking.antt); it ends, takes no memory and waits for nobody.
//! Not here: which messages make a chord (chord_match), and what a bag is (chord_rule, specs/Bags.antt).
#![tactic(auto)]

mod walk;

pub use walk::{Sought, seek};
