//! Names and types of programs: the least break of the rules on them, or the bodies with all names resolved.
//! Stands on: chord_base (static types, texts), chord_bodies (resolved bodies), chord_classes (rules, the table of classes), chord_tree (trees), thiserror. Used by: chord_run.
//! Promise: `type_program` gives exactly the least break among the rules on names and types, C02, C14 to C20 and C22 to C24 (least by its token, then by its rule), or the bodies that the definitions give, in which no chain begins with a chain of its own kind; unless memory runs out.
//! Not here: the rules on classes, chords and limits; what a resolved body does when it runs.
#![tactic(auto)]

mod arguments;
mod calls;
mod exprs;
mod leaves;
mod members;
mod names;
mod operand;
mod operators;
mod plain;
pub mod program;
mod returns;
mod scope;
mod site;
mod stmts;
