//! Where the objects of a run come from, as a function whose contract is the law.
#![tactic(auto)]

ghost use Rattle.chord_base.specs.Objects.{ObjectsWereMade};

/// Objects: each object of an entry of a run was made before it, where a body asks only of objects that it was given.
pub fn objects()
    ensures { ObjectsWereMade }
{}
