//! What is true of every valid code: functions whose contracts are the laws.
#![tactic(auto)]

ghost use Rattle.std.specs.Prelude.{◌≡◌, ℕ, ◌≤◌, Bool, true, Some, List, [], ◌∷◌, ◌++◌, length};
ghost use Rattle.chord_base.specs.declared.value.Object.{Object};
ghost use Rattle.chord_base.specs.declared.value.Value.{Value as AValue};
ghost use Rattle.chord_base.specs.declared.event.Trap.{Trap};
ghost use Rattle.chord_base.specs.declared.event.End.{End};
ghost use Rattle.chord_base.specs.declared.event.End.TheVariants as an_end;
ghost use Rattle.chord_base.specs.declared.event.Limits.{Limits};
ghost use Rattle.chord_base.specs.declared.event.What.{What};
ghost use Rattle.chord_base.specs.declared.event.What.TheVariants as what;
ghost use Rattle.chord_base.specs.Meaning.{Start, Asked};
ghost use Rattle.chord_base.specs.declared.event.Entry.{Entry};
ghost use Rattle.chord_base.specs.Bounds.{AreWithin};
ghost use Rattle.chord_base.specs.Machine.{IsPast};
ghost use Rattle.chord_base.specs.Objects.{IsTame, WhatAmong, was_made};
ghost use Rattle.chord_code.specs.Machine.{Machine, Waiting, Asking, Goes, Bad, step, ComesTo, ComesToAsk};
ghost use Rattle.chord_code.specs.Fuel.{comes_to};
ghost use Rattle.chord_code.specs.Meaning.{code_program};
ghost use Rattle.chord_code.specs.Within.{IsAskWithin};
ghost use Rattle.chord_code.specs.Laws.{ChordsAreRight};

use crate::code::Code;

/// Asks are found: what a machine comes to is what the bounded run of it comes to; it is one ask, and no machine of a
/// valid code runs for ever.
pub fn asks_are_found(code: &Code)
    ensures found { (m : Machine) (a : What) (w : Waiting) → ComesTo code.now m a w → comes_to code.now m ≡ Asking a w }
    ensures only { (m : Machine) (a : What) (w : Waiting) → comes_to code.now m ≡ Asking a w → ComesTo code.now m a w }
    ensures one { (m : Machine) (a b : What) (w v : Waiting) → ComesTo code.now m a w → ComesTo code.now m b v → (a ≡ b) × (w ≡ v) }
    ensures ends { (m n : Machine) → comes_to code.now m ≡ Goes n → ⊥ }
{
    let _parts = code.parts();
}

/// A call that is answered by a trap: the body next asks its own end by that trap.
pub fn traps_are_handed_on(code: &Code)
    ensures { (limits : Limits) (s : Start) (d : ℕ) (rs : List End) (t : Trap) (l : ℕ) (o : Object) (j : ℕ) (vs : List AValue) → (code_program code.now limits).next s d rs ≡ Some (record { what = what.Called o j vs; depth = l }) → (code_program code.now limits).next s d (rs ++ an_end.Traps t ∷ []) ≡ Some (record { what = what.Ended (an_end.Traps t); depth = 0 }) }
{
    let _parts = code.parts();
}

/// A body asks only of objects that it was given, and within the bounds of a journal.
pub fn asks_are_tame(code: &Code)
    ensures tame { (limits : Limits) → IsTame (code_program code.now limits) }
    ensures within { (limits : Limits) (s : Start) (d : ℕ) (rs : List End) (a : Asked) → (code_program code.now limits).next s d rs ≡ Some a → IsAskWithin a.what }
{
    let _parts = code.parts();
}

/// The chords of a class have methods, all different and at most one of them synchronous.
pub fn chords_are_right(code: &Code)
    ensures { (limits : Limits) → ChordsAreRight (code_program code.now limits) }
{
    let _parts = code.parts();
}

/// Each entry of a run of at most 65,536 entries is within the bounds of a journal, and each object in it was made before it.
pub fn entries_are_within(code: &Code)
    ensures within { (limits : Limits) (h : List Entry) → IsPast (code_program code.now limits) h → length h ≤ 65536 → AreWithin h }
    ensures made { (limits : Limits) (e : Entry) (h : List Entry) → IsPast (code_program code.now limits) (e ∷ h) → WhatAmong (was_made h) e.what }
{
    let _parts = code.parts();
}

/// Safe code comes to asks: where each instruction keeps what a test says of a machine, and none of such a machine is
/// undefined, each such machine comes to an ask after finitely many instructions.
pub fn safe_code_asks(code: &Code)
    ensures { (t : Machine → Bool) → ((m : Machine) → t m ≡ true → step code.now m ≡ Bad → ⊥) → ((m n : Machine) → t m ≡ true → step code.now m ≡ Goes n → t n ≡ true) → (m : Machine) → t m ≡ true → ComesToAsk code.now m }
{
    let _parts = code.parts();
}
