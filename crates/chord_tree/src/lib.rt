//! Programs as trees, the grammar that says which trees there are, and the tokens that a tree spells.
//! Stands on: chord_lexer (kinds of tokens), chord_base (texts). Used by: many crates.
//! Promise: `spell` gives the tokens of a program, which the grammar derives with that tree and no other (specs/Program.antt); `laws` says what a walk over a program notes.
//! Not here: which tokens are a program's (chord_parser), what a name in it means (chord_types).
#![tactic(auto)]

pub mod classes;
pub mod exprs;
pub mod laws;
pub mod names;
pub mod program;
mod puts;
mod spell_classes;
mod spell_exprs;
mod spell_stmts;
pub mod spelling;
pub mod stmts;
