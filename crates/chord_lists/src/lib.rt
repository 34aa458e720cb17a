//! The engine of one thread, over any program, and the codes that it plays.
//! Stands on: chord_base (entries, the join machine, its laws), chord_code (codes), chord_task (the bodies of a code), chord_vm (frames). Used by: chord_run.
//! Promise: `code_run::play` gives a complete run of a sound code, or a run of exactly as many entries as are allowed; of the
//! journal of a run `code_run::may_go_on` tells whether an entry may follow.
//! Not here: what a code means (chord_code), and the making of codes (chord_gen).
#![tactic(auto)]

mod bag;
mod code_bodies;
mod code_play;
pub mod code_run;
mod engine;
