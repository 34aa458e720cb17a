//! Tasks: stacks of bodies, each waiting for the one above it, and the entries that they made.
//! Stands on: chord_base (entries), chord_code (what a code means), chord_vm (the machine of a body). Used by: many crates.
//! Promise: the past of a task is a story of its code. `turn` adds exactly the next ask of the body on top to it, and to the list of whoever
//! drew the entry; so do `come`, `make_room` and then `settle`, and `prepare`, `reserve` and then `note`. The calls that resume add exactly the
//! firing that they are told. `note`, `settle` and the calls that resume, other than `resume_with`, take no memory. `resume_with` never fails
//! where no text of more than 8 bytes is among its values.
//! Not here: which body goes on next, and which chord fires (the engines).
#![tactic(auto)]

pub mod apart;
pub mod args;
pub mod body;
pub mod come;
pub mod cross;
pub mod enclosed;
pub mod firing;
pub mod gathered;
mod lone;
pub mod parcel;
pub mod past;
pub mod task;
pub mod turn;
