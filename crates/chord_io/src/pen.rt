//! Writing a text of many small pieces in few writes.
ghost use Rattle.std.specs.Prelude.{◌≡◌, ℕ, ◌≤◌, List, [], ◌++◌, Option, Some, None, OnOk, OnErr, if◌then◌else◌};
ghost use Rattle.chord_io.specs.Faults.{Rose};
ghost use Rattle.chord_io.specs.Pieces.{Took, TookProperPrefix};
ghost use Rattle.chord_io.specs.Pen.{Writes};

use crate::{Failed, Sink, write_all};
use arrayvec::ArrayVec;
use std::marker::Model;

/// The bytes that a pen holds at most.
const HELD_BYTES: usize = 4096;

/// A pen in front of a sink, for a text of many small pieces. It holds back bytes that it is given, and takes no memory.
/// Once a write has failed it is broken and writes nothing more: `finish` tells.
#[derive(Drop)]
pub struct Pen {
    held: ArrayVec<u8, HELD_BYTES>,
    broken: bool,
}

impl Model for Pen {
    ghost Value = { Option (List ℕ) };

    ghost view = { λ pen. if pen.broken then None else Some pen.held.items };
}

impl Pen {
    /// A pen that holds nothing.
    pub fn new() -> Pen
        ensures { result ≡ Some [] }
    {
        Pen {
            held: ArrayVec::new(),
            broken: false,
        }
    }

    /// Holds a piece back where there is room for it behind what is held, and else writes both to the sink.
    pub fn put<K: Sink>(&mut self, sink: &mut K, piece: &[u8])
        ensures { Writes (K.taken sink.old) (K.faults sink.old) self.old piece.now (K.taken sink.new) (K.faults sink.new) self.new }
    {
        if self.broken || self.held.try_extend_from_slice(piece).is_ok() {
            return;
        }
        match write_both(sink, self.held.as_slice(), piece) {
            Ok(()) => self.held.clear(),
            Err(_) => self.broken = true,
        }
    }

    /// Writes what the pen holds, and tells whether all that it was given is written.
    ///
    /// # Errors
    ///
    /// `Failed` exactly where a write failed, which the sink's count of faults shows. A proper prefix of what the pen was given was
    /// written.
    pub fn finish<K: Sink>(self, sink: &mut K) -> Result<(), Failed>
        ensures whole { OnOk result ((before : Option (List ℕ)) (f : ℕ) (text : List ℕ) →
            Writes before f (Some []) text (K.taken sink.old) (K.faults sink.old) self → Took before text (K.taken sink.new)) }
        ensures prefix { OnErr result ((before : Option (List ℕ)) (f : ℕ) (text : List ℕ) →
            Writes before f (Some []) text (K.taken sink.old) (K.faults sink.old) self → TookProperPrefix before text (K.taken sink.new)) }
        ensures unfailed { OnOk result ((before : Option (List ℕ)) (f : ℕ) (text : List ℕ) →
            Writes before f (Some []) text (K.taken sink.old) (K.faults sink.old) self → K.faults sink.new ≡ f) }
        ensures failed { OnErr result ((before : Option (List ℕ)) (f : ℕ) (text : List ℕ) →
            Writes before f (Some []) text (K.taken sink.old) (K.faults sink.old) self → Rose f (K.faults sink.new)) }
        ensures never_falls { K.faults sink.old ≤ K.faults sink.new }
    {
        if self.broken {
            return Err(Failed);
        }
        write_all(sink, self.held.as_slice())
    }
}

/// Writes two pieces one after the other.
fn write_both<K: Sink>(sink: &mut K, first: &[u8], second: &[u8]) -> Result<(), Failed>
    ensures whole { OnOk result (Took (K.taken sink.old) (first.now ++ second.now) (K.taken sink.new)) }
    ensures prefix { OnErr result (TookProperPrefix (K.taken sink.old) (first.now ++ second.now) (K.taken sink.new)) }
    ensures unfailed { OnOk result (K.faults sink.new ≡ K.faults sink.old) }
    ensures failed { OnErr result (Rose (K.faults sink.old) (K.faults sink.new)) }
    ensures never_falls { K.faults sink.old ≤ K.faults sink.new }
{
    write_all(sink, first)?;
    write_all(sink, second)
}
