//! What the code of a source keeps of it, as the contracts of functions that do nothing.
#![tactic(auto)]

ghost use Rattle.chord_gen.specs.TypedSource.{AcceptedIsTyped};
ghost use Rattle.chord_gen.specs.Laws.{TranslationKeeps, TranslationValid};

/// The code of a source whose bodies keep to their static types (`AreWellTyped`), and whose plan is as it must be (`IsPlanned`),
/// asks what the source asks, its runs are the source's, and it is sound in every run.
pub fn translation()
    ensures { TranslationKeeps }
{}

/// The code of such a source is valid.
pub fn valid()
    ensures { TranslationValid }
{}

/// A program that breaks no rule on names and types, and none of the plan's, keeps to its types: it has a code.
pub fn accepted()
    ensures { AcceptedIsTyped }
{}
