//! What holds of groups and of breaks, as the contracts of functions that do nothing.
#![tactic(auto)]

ghost use Rattle.chord_rules.specs.Family.{PassesJoin, PlanRulesKept};
ghost use Rattle.chord_rules.specs.Groups.{LabelsGroup};
ghost use Rattle.chord_rules.specs.Splits.{SplitsAreListed};

/// Methods have one label exactly where effective chords link them, directly or through others.
pub fn groups()
    ensures { LabelsGroup }
{}

/// A class overrides some and not all methods of a group exactly at the tokens of a list that labels compute.
pub fn splits()
    ensures { SplitsAreListed }
{}

/// The break of all rules is the first of those that the two passes give; a program without either breaks none.
pub fn passes()
    ensures { PassesJoin }
{}

/// A program that has a layout breaks none of the rules that the soundness of its plan rests on.
pub fn plan_rules()
    ensures { PlanRulesKept }
{}
