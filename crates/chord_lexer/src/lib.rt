//! The tokens of a source, each as long as it can be.
//! Stands on: chord_base (texts), thiserror. Used by: chord_tree (spelling), chord_parser, chord_run, chord_tests.
//! Promise: `lex` gives the one list of tokens that a source reads as, with their places, or the one byte at which it is refused
//! (specs/Reading.antt); each source has one of the two (`laws`). Read `specs/` in the order of its `Lib.antt`; its last file, `Scanning`, is of the code alone.
//! Not here: which lists of tokens are programs (chord_tree), what a name means (chord_types).
#![tactic(auto)]

pub mod bytes;
mod comment;
mod identifier;
pub mod laws;
pub mod lexer;
mod literal;
mod mark;
mod number;
pub mod piece;
mod scan;
pub mod token;
