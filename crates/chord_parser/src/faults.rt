//! Why the parser stopped, by the number of tokens that are left.
#![tactic(auto)]

ghost use Rattle.std.specs.Prelude.{◌≡◌};
ghost use Rattle.chord_parser.specs.declared.faults.Fault.TheVariants.{Memory};

use std::alloc::{AllocError, AllocFailed};

/// With the number of tokens that are left there.
#[derive(Clone, Copy)]
pub enum Fault {
    /// No memory was found.
    Memory,
    /// The next token fits nothing.
    At(usize),
    /// The next token fits, and is too deep.
    Tall(usize),
}

impl From<AllocError> for Fault {
    ghost from_gives = { λ _ fault. fault ≡ Memory };

    fn from(_error: AllocError) -> Fault {
        Fault::Memory
    }
}

impl<T: Drop> From<AllocFailed<T>> for Fault {
    ghost from_gives = { λ _ fault. fault ≡ Memory };

    fn from(_error: AllocFailed<T>) -> Fault {
        Fault::Memory
    }
}
