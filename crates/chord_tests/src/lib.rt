//! The tests of public calls that stand apart from their crates: a check of a crate's tests proves its library once more.
//! Stands on: chord_bag, chord_base, chord_classes, chord_code, chord_io, chord_journal, chord_lexer, chord_match, chord_roll, chord_rule, chord_space, chord_task, chord_tree, chord_vm, chord_word. Used by: nobody.
//! Promise: nothing but its tests; the first line of each module says what it tests.
//! Not here: tests of calls that are private to their crate, which stand there, and those of whole sources (chord_run).
#![tactic(auto)]

#[cfg(test)]
mod asks;
#[cfg(test)]
mod bypasses;
#[cfg(test)]
mod cards;
#[cfg(test)]
mod classes;
#[cfg(test)]
mod codes;
#[cfg(test)]
mod entries;
#[cfg(test)]
mod hands;
#[cfg(test)]
mod journals;
#[cfg(test)]
mod operators;
#[cfg(test)]
mod prefixes;
#[cfg(test)]
mod streams;
#[cfg(test)]
mod tables;
#[cfg(test)]
mod tasks;
#[cfg(test)]
mod texts;
#[cfg(test)]
mod tokens;
#[cfg(test)]
mod trees;
#[cfg(test)]
mod validity;
#[cfg(test)]
mod words;
