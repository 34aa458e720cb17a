//! A program's meaning as calls, for code that is given one.
#![tactic(auto)]

ghost use Rattle.std.specs.Prelude.{◌≡◌, slice_get, IfOk};
ghost use Rattle.chord_base.specs.Meaning.{Program};
ghost use Rattle.chord_base.specs.Called.{start_of, asked_by, methods_by};

use crate::event::{End, What};
use crate::value::{Object, Values};
use std::alloc::{AllocError, Global};

/// How a body begins.
#[derive(Drop)]
pub enum Start {
    /// As `Main`.
    Main,
    /// As the body of this chord of the object, with the arguments of the messages taken concatenated.
    Chord(u16, Object, Values),
}

/// What a body asks next.
#[derive(Drop)]
pub struct Next {
    /// What its next entry says.
    pub what: What,
    /// How deep the place of the ask is.
    pub depth: u32,
}

/// A program's meaning, which a caller may ask. Each call answers as the meaning `program` does.
pub trait Meaning {
    ghost program: { Self → Program };

    /// The next ask of a body that began so at this depth and got these answers, oldest first.
    ///
    /// None where the meaning of the body is not defined.
    fn next(
        &self,
        alloc: Global,
        start: &Start,
        depth: u64,
        answers: &[End],
    ) -> Result<Option<Next>, AllocError>
        ensures { IfOk result (λ ask. asked_by ask ≡ (program self.now).next (start_of start.now) depth answers.now) };

    /// The methods of a chord of the class, in header order. None past the last chord.
    fn chord(&self, alloc: Global, class: u16, chord: u16) -> Result<Option<Vec<u8>>, AllocError>
        ensures { IfOk result (λ methods. methods_by methods ≡ slice_get ((program self.now).chords class) chord) };

    /// Whether callers of this method of the class wait.
    fn is_sync(&self, class: u16, method: u8) -> bool
        ensures { result ≡ (program self.now).is_sync class method };
}

impl Start {
    /// An equal start.
    pub fn copied(&self, alloc: Global) -> Result<Start, AllocError>
        ensures { IfOk result (λ start. start ≡ self.now) }
    {
        match self {
            Start::Main => Ok(Start::Main),
            Start::Chord(chord, object, values) => Ok(Start::Chord(
                *chord,
                *object,
                values.copied(alloc)?,
            )),
        }
    }
}
