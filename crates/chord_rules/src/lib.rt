//! The rules on declarations, headers, chords, constructors, `Main` and limits, and the plan of a program.
//! Stands on: chord_base (texts), chord_bodies (layouts), chord_classes (the rules, the table, the least break), chord_tree (trees), thiserror. Used by: chord_run.
//! Promise: `plan::plan` gives the layout of a program that breaks none of these rules, or exactly the first break of them. `laws::groups`: labels tell the groups of a class.
//! Not here: what the rules say (chord_classes, specs/Rules.antt), the rules on names and types (chord_types).
#![tactic(auto)]

mod agreement;
mod chords;
mod class_plan;
mod classes;
mod declarations;
pub mod fault;
mod first_headers;
mod formals;
mod groups;
mod headers;
pub mod laws;
mod limits;
mod locals;
mod mains;
mod members;
mod modifiers;
mod numbers;
mod overrides;
mod own_methods;
pub mod plan;
mod splits;
