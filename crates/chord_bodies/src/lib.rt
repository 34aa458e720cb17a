//! Resolved programs: bodies in which each name is a slot, a class or a method by its number, and the plan of each class.
//! Stands on: chord_base (texts, operators, static types). Used by: many crates.
//! Promise: specs/Resolved.antt is what a body and a plan in memory stand for (specs/View.antt), and specs/Types.antt says when a body keeps to its static types. `laws::types`: an expression that keeps to its types, in a scope in which each variable has the type of its slot, has the type that its outermost form shows; `laws::scopes`: in each scope of a body that keeps to its types a variable has the type of its slot.
//! Not here: how a program is resolved (chord_classes), what a resolved body does when it runs.
#![tactic(auto)]

pub mod body;
mod chain;
pub mod expr;
pub mod laws;
pub mod plan;
pub mod stmt;
