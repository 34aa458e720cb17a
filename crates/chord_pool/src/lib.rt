//! The pool: many threads play one run, and it is complete.
//! Stands on: atomic_table (what of a table may go to a thread), chord_base (entries, the join machine), chord_code (codes), chord_journal (gathering), chord_roll (who is at work), chord_rule (when a table may be closed), chord_space (the table), chord_task (parcels), chord_word (cells), chord_worker (what one worker does), crossbeam_utils (the pause of an idle worker). Used by: chord_run.
//! Promise: `play` gives the journal of a complete run, or of a run of exactly as many entries as are allowed, and the closed table
//! that drew it.
//! Not here: what a worker does with its task (chord_worker), and which chord it fires (chord_match).
#![tactic(auto)]

mod closing;
mod crew;
mod crowd;
mod ending;
mod pause;
mod player;
mod pool;
mod run;
mod threads;

pub use chord_worker::Gate;
pub use pool::play;
