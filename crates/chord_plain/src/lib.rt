//! The plain, slow machine of a code: what its bodies ask, told by running each body from its beginning anew.
//! Stands on: chord_base (values, the join machine), chord_code (codes and what they mean), chord_vm (frames). Used by: chord_run (its tests).
//! Promise: `Plain` answers exactly as the meaning of the code does, also where that is undefined; so `prefix::run_length`
//! tells how much of any journal is a run of the code.
//! Not here: how code is run fast (chord_vm), and engines (chord_lists, chord_pool).
#![tactic(auto)]

mod effect;
mod entering;
mod instructions;
mod moves;
mod operands;
pub mod plain;
mod running;
mod stack;
