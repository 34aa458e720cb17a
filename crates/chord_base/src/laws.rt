//! The laws of the join machine, each as the contract of a function that does nothing.
//!
//! They hold of every program, sound or not, but where a law says that it is of a sound one.
#![tactic(auto)]

ghost use Rattle.chord_base.specs.Laws.{OthersChangeNothing, EndAnswersCaller, CallerMadeCall, PendingUntilTaken, TakesPending, TakenOnce, MembersDiffer, PendingIsSentNotTaken, PlaceKnows, PlaceAsks, NoteKeepsPlaces, FiringKeepsPlaces, UnionKeepsPlaces, MovingKeepsPlaces, PartsTogether, PartingKeepsPlaces, PlacesAreStories, RunIsTold, PlacesGather, CompleteWhenQuiet, QuietWhenComplete, CompleteInPlaces, ServesItsMember, ServesOnlyCalls, ServedGoesOn, ServedOnce, ServedWaitsNoMore, OthersWait, AnswersOfEntries, AnswersBeforeCall, EntriesAreAsks, CallIsLastAsk};

/// Locality: an entry of another body changes nothing of what a body does, unless it ends the body that serves its open
/// call; that end is the caller's answer. In a run a body waits only for a call that it has made itself.
pub fn locality()
    ensures others { OthersChangeNothing }
    ensures answer { EndAnswersCaller }
    ensures caller { CallerMadeCall }
{}

/// Messages: in a run a message is pending exactly where it was sent or called and no firing has taken it. It stays so until
/// a firing takes it, a firing takes only what is pending, and no two firings take one message, nor does one take it twice
/// where its chord has no method twice.
pub fn messages()
    ensures pending { PendingIsSentNotTaken }
    ensures stays { PendingUntilTaken }
    ensures taken { TakesPending }
    ensures once { TakenOnce }
    ensures different { MembersDiffer }
{}

/// Places, where each keeps what it tells: what a body does in the place that keeps it is what it does in the whole run,
/// unless it lacks its call there. So its next ask in its place is its next ask, and the run stays one in places as a
/// place adds it, or a firing of pending messages.
pub fn growing_places()
    ensures knows { PlaceKnows }
    ensures asks { PlaceAsks }
    ensures note { NoteKeepsPlaces }
    ensures firing { FiringKeepsPlaces }
{}

/// Places that become one still tell what they keep, and so do parts that are told each; a place may take over what another
/// keeps; a run in places gathers to itself, and each place of a sound program's run keeps a story.
pub fn moving_places()
    ensures whole { RunIsTold }
    ensures union { UnionKeepsPlaces }
    ensures moving { MovingKeepsPlaces }
    ensures together { PartsTogether }
    ensures parting { PartingKeepsPlaces }
    ensures stories { PlacesAreStories }
    ensures gathered { PlacesGather }
{}

/// Complete runs: nothing may follow exactly where `Main` has begun, no body has a next ask, and no chord is
/// enabled; for a run in places each body may be asked in its place.
pub fn completeness()
    ensures quiet { CompleteWhenQuiet }
    ensures only { QuietWhenComplete }
    ensures places { CompleteInPlaces }
{}

/// Calls: in a run of a sound program, whose chords have at most one synchronous method each, the firing that serves a
/// call is the one that has the call among its members.
pub fn calls()
    ensures member { ServesItsMember }
    ensures only { ServesOnlyCalls }
{}

/// Callers: in a run of a sound program, whose chords have at most one synchronous method each, a caller is served where a
/// firing took its call and the body of that firing has ended. It then goes on with that end, and with no other. Every other
/// caller waits.
pub fn callers()
    ensures served { ServedGoesOn }
    ensures once { ServedOnce }
    ensures no_more { ServedWaitsNoMore }
    ensures others { OthersWait }
{}

/// Answers: in a run, the answers of a body are those of its entries after its first: the object that an entry made, the
/// unit value for a message and a line, and for a call the end that served it.
pub fn answers()
    ensures ready { AnswersOfEntries }
    ensures waits { AnswersBeforeCall }
{}

/// Asks: in a run, what a body's entries after its first say, and then its next ask, is the list of the asks that the
/// program's meaning gives it for its answers so far.
pub fn asks()
    ensures ready { EntriesAreAsks }
    ensures waits { CallIsLastAsk }
{}
