//! What holds of each list of kinds of tokens and of each program, as the contracts of functions that do nothing.
#![tactic(auto)]

ghost use Rattle.chord_parser.specs.Nesting.{NestingIsTied};
ghost use Rattle.chord_parser.specs.Laws.{AtMeansWrong, DerivedWhereSpelled, EachIsAnswered, HasOneAnswer, NotTallHasNone, TallMeansTall};

/// The grammar derives tokens exactly where some program spells them, with the same depths. Each list of kinds is that of a
/// program without a tall token, or has a first token that is wrong, or a first that is tall, and only one of the three; and
/// wrong and tall, as `At` and `Tall` answer them, are said of programs.
pub fn programs()
    ensures derived { DerivedWhereSpelled }
    ensures at { AtMeansWrong }
    ensures tall { TallMeansTall }
    ensures answered { EachIsAnswered }
    ensures one { HasOneAnswer }
    ensures none { NotTallHasNone }
{}

/// Of each program: it is nested as a tree no deeper than eight times its deepest token.
pub fn nesting()
    ensures { NestingIsTied }
{}
