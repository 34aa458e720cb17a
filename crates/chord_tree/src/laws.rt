//! What holds of each walk over a program, as the contract of a function that does nothing.
#![tactic(auto)]

ghost use Rattle.chord_tree.specs.Laws.{NotesAtSpots, NotesTogether};

/// A walk notes what is noted at each of its spots, in their order. So one walk for two rules notes of each kind as many as a
/// walk for each: neither rule hides what the other notes.
pub fn walks<Around, Note>()
    ensures spots { NotesAtSpots Around Note }
    ensures together { NotesTogether Around Note }
{}
