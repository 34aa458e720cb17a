//! What holds of the bodies of a source, as the contracts of functions that do nothing.
#![tactic(auto)]

ghost use Rattle.chord_source.specs.Callers.{RunsServeCallers};
ghost use Rattle.chord_source.specs.Laws.{GoodPlays, EachEnds, MachinesAreSound};
ghost use Rattle.chord_source.specs.Sources.{SoundRuns};
ghost use Rattle.chord_source.specs.Traps.{RunsKeepTraps, SourcesHandTrapsOn};
ghost use Rattle.chord_source.specs.TypedRuns.{RunsKeepTypes, RunsPlayWell};

/// Where all bodies keep to their static types and the plan of the classes is as it must be, a body that begins as it may never
/// goes wrong: its messages have the arguments of their methods, and a value that it gives has its result's type.
pub fn good()
    ensures { GoodPlays }
{}

/// There a body that begins as it may comes to an end after finitely many asks, whatever fits they are answered.
pub fn ends()
    ensures { EachEnds }
{}

/// The join machine of such a source is sound: in every run, what each body does is defined and each message has the kind of
/// its method; that there is such a method `typed` says. Each of its chords has one to eight methods, all different and at most
/// one of them synchronous.
pub fn sound()
    ensures { MachinesAreSound }
{}

/// In each run of the join machine of such a source each message that is sent names an asynchronous method of its object's
/// class, and each that is called a synchronous one, with a value of its type for each parameter and no more values. Each
/// body begins as it may: `Main` without a result, and that of a firing on values of its parameters' types, with its declared
/// result as its result type. A body that gives a value gives one of its result type, which is that of the method whose call
/// it serves, and the unit value where that method has none; one that serves no call gives the unit value.
pub fn typed()
    ensures { RunsKeepTypes }
{}

/// So no body of such a run goes wrong, at any depth, and each comes to an end of its result type after finitely many asks,
/// whatever fits they are answered.
pub fn bodies()
    ensures { RunsPlayWell }
{}

/// In each run of a sound machine no message is taken twice, each caller that is served goes on with the end of the body of
/// the one firing that took its call, and each other caller waits.
pub fn callers()
    ensures { RunsServeCallers }
{}

/// The join machine of a source hands traps on: a body whose call is answered by a trap asks its own end by that trap. In each
/// run of a machine that does, a body that ends by a trap got no trap as an answer, or its last entry before is a call and the
/// trap is the end of the body that served it. The trap ends that body, which has no later entry. A body that waits for the
/// call which it serves asks its own end by the same trap and has no other entry from there on, and what every other body
/// does stays as it was.
pub fn traps()
    ensures sources { SourcesHandTrapsOn }
    ensures runs { RunsKeepTraps }
{}

/// Any code whose bodies play what those of a source do is sound in every run, and its runs are the source's.
pub fn runs()
    ensures { SoundRuns }
{}
