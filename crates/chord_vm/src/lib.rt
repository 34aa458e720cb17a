//! The machine of one body: its frames, and what they ask next.
//! Stands on: chord_base (values, operators), chord_code (instructions and what they mean). Used by: many crates.
//! Promise: `advance` and `advance_to` give the ask to which the code's meaning brings the body; `answer` goes on as that meaning
//! does; a body that begins awaits nothing; `begin`, `begin_moved` and `answer` take no memory, and `begin_with` never fails where no text of
//! more than 8 bytes is among its arguments.
//! Not here: entries and stacks of bodies (chord_task).
#![tactic(auto)]

pub mod ask;
pub mod frames;
mod fused;
mod loads;
mod numbers;
pub mod step;
