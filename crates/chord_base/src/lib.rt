//! What a run is made of: texts, values, messages, entries and the journal, and what a run of the join machine is.
//! Stands on: itoa (texts of numbers). Used by: many crates.
//! Promise: each value is within its limits by its type; `prefix` says how many of some entries are a run; `laws` says what
//! is true of every run.
//! Read `specs/` in the order of its `Lib.antt`: it is the language's meaning, and every theorem above cites it.
//! Not here: what the bodies of a program ask (chord_code for codes, chord_source for sources), and how a journal is written (chord_journal).
#![tactic(auto)]

pub mod agreement;
mod body;
pub mod cross;
pub mod equal;
pub mod event;
mod firing;
pub mod hand;
pub mod journal;
pub mod laws;
pub mod listed;
pub mod meaning;
pub mod members;
pub mod operation;
pub mod origins;
mod past;
pub mod prefix;
pub mod room;
pub mod spelled;
pub mod static_type;
pub mod text;
pub mod value;
