//! One worker of the pool: a desk of the shared table, and the task that is played at it.
//! Stands on: chord_space (the table), chord_task (bodies and their pasts), chord_match (chords are found and fired), chord_bag, chord_base, chord_code, chord_rule, chord_vm, chord_word (what these speak of), crossbeam_utils (waiting). Used by: chord_pool, chord_run (its tests).
//! Promise: between two calls a worker is at rest (specs/Resting.antt): its lists have what its desk drew, its task may go on, and
//! each other body that its desk keeps has ended or waits.
//! Not here: threads, who plays when, and when a run is over.
#![tactic(auto)]

mod calls;
mod ending;
mod fired;
mod messages;
mod minding;
mod playing;
mod step;
mod worker;

pub use worker::{Gate, Worker};
