//! The top call: from the arguments of the command line and the bytes of a source to what is written, and the status.
//! Stands on: chord_base, chord_bodies, chord_classes, chord_code, chord_gen, chord_io, chord_journal, chord_lexer, chord_lists, chord_parser, chord_plain (its tests), chord_pool, chord_rule (its tests), chord_rules, chord_source, chord_space, chord_task, chord_tree, chord_types, chord_word (its tests), chord_worker (its tests), clap, itoa. Used by: chord_prog.
//! Promise: `chord` writes the lines of the journal it keeps, which is a complete run of the source's join machine, or a run
//! of as many entries as are allowed; every other answer has its cause (specs/Rows.antt, specs/Answers.antt).
//! A source has one machine, whose bodies end and whose runs serve their callers and keep to types, or one cause of a refusal (`laws`).
//! Not here: what a program means (chord_base, chord_source), and what a terminal or a file gives (chord_prog).
#![tactic(auto)]

mod command;
mod compile;
mod engine;
mod front;
pub mod laws;
mod load;
mod output;
mod position;
mod refusal;
mod report;
mod status;
mod top;
mod words;

pub use chord_pool::Gate;
pub use load::load_source;
pub use refusal::Refusal;
pub use report::Report;
pub use top::chord;

#[cfg(test)]
mod code_tests;
#[cfg(test)]
mod engine_tests;
#[cfg(test)]
mod parse_tests;
#[cfg(test)]
mod piece_tests;
#[cfg(test)]
mod schedule_tests;
#[cfg(test)]
mod sources;
#[cfg(test)]
mod tests;
#[cfg(test)]
mod worker_tests;
