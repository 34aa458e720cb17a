//! The classes of a program, and its rules as definitions: what each of the twenty-four says of the whole program, the resolved program, and the least break.
//! Stands on: chord_base (static types, room), chord_bodies (resolved programs), chord_tree (trees, walks). Used by: many crates.
//! Promise: specs/Rules.antt says when a program breaks a rule at a token. `laws::types`: the bodies of a program that breaks no rule on names and types keep to their static types; `laws::plan`: a plan is as sound code needs it; `laws::breaks`: a program has at most one break, the first of those of two families of rules; `laws::least`: its break among the rules on names and types is the least number that is noted. `build::table_of` gives the classes by name, with no list copied. `numbers::narrow` and `numbers::after` refuse no number that fits.
//! Not here: which rule a program breaks first, in code.
#![tactic(auto)]

pub mod build;
pub mod entry;
pub mod growth;
mod index;
pub mod laws;
pub mod least;
pub mod main_headers;
pub mod method;
pub mod methods;
pub mod names;
pub mod numbers;
mod owners;
pub mod table;
mod versions;
