//! A meaning that is written down: the asks of finitely many bodies. Tests give a program's meaning so.
#![tactic(auto)]

ghost use Rattle.std.specs.Prelude.{◌≡◌, find, take, IsTrue, ◌↔◌, option_copied};
ghost use Rattle.std.specs.Cmp.Lexicographic.{pointwise};
ghost use Rattle.chord_base.specs.Called.{start_of};
ghost use Rattle.chord_base.specs.Listed.{equal_starts, equal_ends, is_tale_of};

use crate::equal::{same_ends, same_object, same_values};
use crate::event::End;
use crate::meaning::{Meaning, Next, Start};
use std::alloc::{AllocError, Global};

/// What one body asks: as it began so at this depth, and got these answers in turn, it asks these in turn.
#[derive(Drop)]
pub struct Tale {
    pub start: Start,
    pub depth: u64,
    pub answers: Vec<End>,
    pub asks: Vec<Next>,
}

/// A class: the methods of each of its chords, and whether the callers of each of its methods wait.
#[derive(Drop)]
pub struct Class {
    pub chords: Vec<Vec<u8>>,
    pub waits: Vec<bool>,
}

/// A program, as the tales of its bodies and its classes by number.
#[derive(Drop)]
pub struct Listed {
    pub tales: Vec<Tale>,
    pub classes: Vec<Class>,
}

/// Whether two bodies begin in the same way.
fn same_start(left: &Start, right: &Start) -> bool
    ensures { IsTrue result ↔ (start_of left.now ≡ start_of right.now) }
{
    match (left, right) {
        (Start::Main, Start::Main) => true,
        (Start::Chord(k, o, vs), Start::Chord(l, q, ws)) => {
            *k == *l && same_object(*o, *q) && same_values(vs.items(), ws.items())
        }
        _ => false,
    }
}

/// The same, as the meaning tests it.
fn starts_so(left: &Start, right: &Start) -> bool
    ensures { result ≡ equal_starts (start_of left.now) (start_of right.now) }
{
    same_start(left, right)
}

/// Whether two lists of ends are equal, as the meaning tests it.
fn ends_so(left: &[End], right: &[End]) -> bool
    ensures { result ≡ pointwise equal_ends left.now right.now }
{
    same_ends(left, right)
}

/// The first n of these, or all where there are fewer.
fn first_of(ends: &[End], n: usize) -> &[End]
    ensures { result.now ≡ take n ends.now }
{
    if n < ends.len() { &ends[..n] } else { ends }
}

impl Tale {
    /// Whether it is of a body that began so at this depth, and that got these answers first.
    fn is_tale_of(&self, start: &Start, depth: u64, answers: &[End]) -> bool
        ensures { result ≡ is_tale_of (start_of start.now) depth answers.now self.now }
    {
        starts_so(&self.start, start)
            && self.depth == depth
            && ends_so(first_of(&self.answers, answers.len()), answers)
    }
}

impl Listed {
    /// The first tale of such a body.
    fn tale_of(&self, start: &Start, depth: u64, answers: &[End]) -> Option<&Tale>
        ensures { option_copied result ≡ find (is_tale_of (start_of start.now) depth answers.now) self.now.tales.items }
    {
        self.tales
            .iter()
            .find(|tale| tale.is_tale_of(start, depth, answers))
    }
}

impl Meaning for Listed {
    ghost use Rattle.chord_base.specs.Listed.{listed};

    ghost program = { listed };

    fn next(
        &self,
        alloc: Global,
        start: &Start,
        depth: u64,
        answers: &[End],
    ) -> Result<Option<Next>, AllocError> {
        let Some(tale) = self.tale_of(start, depth, answers) else {
            return Ok(None);
        };
        match tale.asks.get(answers.len()) {
            Some(next) => Ok(Some(Next {
                what: next.what.copied(alloc)?,
                depth: next.depth,
            })),
            None => Ok(None),
        }
    }

    fn chord(&self, alloc: Global, class: u16, chord: u16) -> Result<Option<Vec<u8>>, AllocError> {
        let Some(class) = self.classes.get(class as usize) else {
            return Ok(None);
        };
        match class.chords.get(chord as usize) {
            Some(methods) => Ok(Some(Vec::from_slice(alloc, methods.as_slice())?)),
            None => Ok(None),
        }
    }

    fn is_sync(&self, class: u16, method: u8) -> bool {
        let Some(class) = self.classes.get(class as usize) else {
            return false;
        };
        match class.waits.get(method as usize) {
            Some(waits) => *waits,
            None => false,
        }
    }
}
