//! What holds of the rules, the bodies and the plan of a program, as the contracts of functions that do nothing.
#![tactic(auto)]

ghost use Rattle.chord_classes.specs.Breaks.{AllJoin};
ghost use Rattle.chord_classes.specs.AllNotes.{LeastIsBreak};
ghost use Rattle.chord_classes.specs.Laws.{TypesKept, MethodsInherited, ChordsKept, PlanKept};

/// Of two families of rules, one of which each broken rule is of, the break of all is the first of theirs; and a family has at most one.
pub fn breaks()
    ensures { AllJoin }
{}

/// The bodies of a program that breaks no rule on names and types keep to their static types.
pub fn types()
    ensures { TypesKept }
{}

/// A class has the methods of the classes that it derives from, with the same signatures. Where the headers of one name agree, the body of each chord but that
/// of `Main` has its methods' parameters laid together, and gives the result of the synchronous one, in its own class and in those that derive from it.
pub fn methods()
    ensures inherited { MethodsInherited }
    ensures chords { ChordsKept }
{}

/// The plan of a program that breaks none of its rules is as sound code needs it.
pub fn plan()
    ensures { PlanKept }
{}

/// The least number that is noted on one walk for all rules on names and types is the break of the program among these.
pub fn least()
    ensures { LeastIsBreak }
{}
