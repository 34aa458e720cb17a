//! From tokens to a program, or the exact token at which they are none.
//! Stands on: chord_tree (grammar, trees), chord_lexer (tokens), chord_base (texts), thiserror. Used by: chord_run.
//! Promise: `parse` gives the one program that the tokens spell, or the first token that fits no program, or the first that is tall, which is deeper than 200 (specs/Answers.antt);
//! each list of kinds has one of the three, and each list that the grammar derives a program (`laws`).
//! Not here: what a program is (chord_tree), what it means (chord_types, chord_rules).
#![tactic(auto)]

mod classes;
mod exprs;
mod faults;
pub mod laws;
pub mod parser;
mod plain;
mod stmts;
mod terminal;
mod tokens;
mod words;
