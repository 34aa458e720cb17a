//! Programs that agree in runs, as a function whose contract is the law.
#![tactic(auto)]

ghost use Rattle.chord_base.specs.Agreement.{SameRuns};

/// Agreement: where the bodies of a program ask the same as those of another in every run of the first, a history is a run of the first exactly where it is one of the other, and a complete run exactly where it is a complete one.
pub fn same_runs()
    ensures { SameRuns }
{}
