//! What holds of each source, of its join machine, of what programs spell, and of some command lines, as the contracts of functions
//! that do nothing.
#![tactic(auto)]

ghost use Rattle.chord_run.specs.Examples.{HasExamples, HasRefusedExamples};
ghost use Rattle.chord_run.specs.Laws.{AcceptedHasMachine, CauseHasLine, HasOneCause, HasOneLine, HasOneMachine, HasOneProgram, IsAcceptedOrHasCause, IsRefusedByRule, MachineEndsBodies, MachineIsOfAccepted, MachineIsSound, MachineKeepsTraps, MachineKeepsTypes, MachinePlaysWell, MachineServesCallers, RefusedIsNotAccepted, ReportIsRun, SpellingIsReadAgain};

use chord_classes::laws::{breaks, plan, types};
use chord_rules::laws::splits;
use chord_source::laws::{bodies, callers, ends, sound, traps, typed};

/// A source has at most one program. It is accepted exactly where it has a join machine, and within its limits it has one at
/// most. It is accepted or has a cause of a refusal, and not both. It has at most one cause, which has one line; where it has a
/// program, the cause is a rule.
pub fn sources()
    ensures program { HasOneProgram }
    ensures machine { HasOneMachine }
    ensures accepted { AcceptedHasMachine }
    ensures of_accepted { MachineIsOfAccepted }
    ensures cause { HasOneCause }
    ensures some_line { CauseHasLine }
    ensures line { HasOneLine }
    ensures exhaustive { IsAcceptedOrHasCause }
    ensures apart { RefusedIsNotAccepted }
    ensures by_rule { IsRefusedByRule }
{
    // a program has at most one first break
    breaks();
    // the one rule that is no list has one
    splits();
}

/// The join machine of a source is sound. Each of its bodies, begun on arguments of the types that the source's classes declare,
/// comes to its end after finitely many asks, whatever fits they are answered: an object of the class that is made, the unit value
/// for what is sent or printed, for a call a trap or a value of its method's result type. A value that the body gives has its own.
///
/// In each run of the machine, and so in the journal of each report, no message is taken twice, each caller that is served goes
/// on with the end of the body of the one firing that took its call, and each other caller waits. A body that ends by a trap got
/// no trap as an answer, or got this one as the answer to its call. Each body that waits for the call which it serves asks its own
/// end by the same trap next, and what every other body does stays as it was.
///
/// Each run keeps to the types that the source's classes declare. What is sent names an asynchronous method of its object's class,
/// and what is called a synchronous one, with a value of its type for each parameter. A value that a body gives has the result type
/// of the method whose call it serves; where that method has none, and where it serves no call, it is the unit value. Each body
/// begins as it may, so that it never goes wrong, at any depth, and comes to an end of that type.
pub fn machines()
    ensures sound { MachineIsSound }
    ensures ends { MachineEndsBodies }
    ensures runs { MachineServesCallers }
    ensures traps { MachineKeepsTraps }
    ensures types { MachineKeepsTypes }
    ensures bodies { MachinePlaysWell }
    ensures reports { ReportIsRun }
{
    // the bodies of a program that breaks no rule keep to the types that its classes declare
    types();
    // and its plan is as it must be
    plan();
    // so its machine is sound
    sound();
    // its bodies come to their ends
    ends();
    // its runs keep to types
    typed();
    // so that no body of a run goes wrong
    bodies();
    // and the runs of a sound machine serve their callers
    callers();
    // the machine of a source hands traps on, and the runs of such a machine keep them to their callers
    traps();
}

/// The tokens that a program spells, none of them deeper than 200, are read as that program and as no other.
pub fn spellings()
    ensures { SpellingIsReadAgain }
{}

/// What some command lines request, and some that request nothing: what the definition says of words that are written out.
pub fn words()
    ensures accepted { HasExamples }
    ensures refused { HasRefusedExamples }
{}
