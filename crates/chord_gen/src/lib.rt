//! The code of a source: its translation, what that keeps, and its listing.
//! Stands on: chord_base (texts, values, the join machine), chord_bodies (resolved bodies, the plan), chord_classes (which programs keep to their types), chord_code (parts, instructions, validity), chord_io (sinks), chord_source (the source's meaning), chord_tree (trees). Used by: chord_run.
//! Promise: `generate` gives the code that specs/Translation.antt says, which is valid, whose next asks and runs are the source's, and which is sound in every run; `listing` writes its text (specs/Listing.antt) and takes no memory. `laws` says the same of the translation as a definition.
//! Not here: how a program is checked and resolved in code.
#![tactic(auto)]

mod blocks;
mod building;
mod built;
mod expressions;
pub mod generate;
mod instructions;
pub mod laws;
mod lines;
pub mod listing;
mod statements;
