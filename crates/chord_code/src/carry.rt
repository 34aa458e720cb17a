//! What is told of a parcel, which the shared table carries from one thread to another.
#![tactic(auto)]

ghost use Rattle.std.specs.Prelude.{List};
ghost use Rattle.chord_base.specs.declared.value.Value.{Value};
ghost use Rattle.chord_base.specs.declared.event.Entry.{Entry};
ghost use Rattle.chord_base.specs.declared.event.Limits.{Limits};
ghost use Rattle.chord_code.specs.declared.parts.Parts.{Parts};

/// The meanings of a parcel. It has no call of its own.
pub trait Carry {
    /// The entries that the parcel keeps, the newest first.
    ghost entries: { Self → List Entry };

    /// The arguments that it holds.
    ghost arguments: { Self → List Value };

    /// Its task, if it has one, is of this code under these limits.
    ghost keeps_to: { Self → Parts → Limits → Type 0 };
}
