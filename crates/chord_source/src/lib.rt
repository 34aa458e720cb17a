//! The meaning of a source: what its resolved bodies do, step by step, and so its join machine.
//! Stands on: chord_base (values, operators, the join machine), chord_bodies (resolved bodies, their types, the plan), chord_code (plays, the meaning of code). Used by: chord_gen, chord_run.
//! Promise: specs/ reads as the language's manual, from expressions up to `source_program`. `laws`: where all bodies keep to their static types and the plan is as it must be, a body never goes wrong and comes to an end, the join machine is sound, its runs keep to types, serve callers and take no message twice, a trap changes its own body and, through calls, those that wait for it alone, and any code that plays a source's plays is sound in every run and has the source's runs.
//! Not here: which programs keep to their types (chord_classes), and how a source becomes code (chord_gen).
#![tactic(auto)]

pub mod laws;
