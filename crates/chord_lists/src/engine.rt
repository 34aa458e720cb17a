//! The engine of one thread: which messages are pending, and which chord fires.
//!
//! It plays the bodies of any program (`Playable`), one entry a turn. After a message it fires a chord that the message has
//! completed, if there is one; otherwise some body goes on.
#![tactic(auto)]

ghost use Rattle.std.specs.Prelude.{◌≡◌, ℕ, ◌+◌, ◌<◌, ◌≤◌, ◌⊎◌, List, length, reverse, slice_get, true, Option, Some, None, IfOk, IfSome, IfNone};
ghost use Rattle.chord_base.specs.declared.event.Entry.{Entry};
ghost use Rattle.chord_base.specs.Meaning.{HaveMethods, Program};
ghost use Rattle.chord_base.specs.Messages.{has};
ghost use Rattle.chord_base.specs.Machine.{IsRun, IsComplete};
ghost use Rattle.chord_code.specs.Headers.{LackHeader};
ghost use Rattle.chord_lists.specs.Bag.{HasMessages, numbers_of};
ghost use Rattle.chord_lists.specs.Engine.{main_begun, HasChord, MayGoOn, MayBegin, Went, Began, Ends, IsPlayedOut, EachLacksAMessage, State, Stepped};

use crate::bag::Bag;
use chord_base::event::Limits;
use chord_base::journal::Journal;
use chord_base::members::Members;
use chord_base::value::Object;
use std::alloc::{AllocError, Global};

/// What a turn of the bodies was.
#[derive(Drop)]
pub enum Turn {
    /// No body has a next ask.
    Over,
    /// An entry that is no message.
    Plain,
    /// A message to this method of this object.
    Message(Object, u8),
}

/// A chord of a class that has the method that was asked for: its number, and its methods in header order.
#[derive(Clone, Copy)]
pub struct Candidate<'a> {
    pub chord: u16,
    pub methods: &'a [u8],
}

/// A program that the engine can play: its chords, and the bodies of a run.
pub trait Playable {
    /// The bodies of a run, with all that they did.
    type Bodies: Drop;

    /// What the program means.
    ghost program: { Self → Program };

    /// What the bodies are after a history, newest entry first.
    ghost stands: { Self → Self.Bodies → List Entry → Type 0 };

    /// The body of `Main`, which has just begun.
    fn start(&self, alloc: Global) -> Result<Self::Bodies, AllocError>
        ensures bodies { IfOk result (λ bodies. stands self.now bodies main_begun) }
        ensures chords { HaveMethods (program self.now) };

    /// Some body goes on: the bodies make the entry of this number, and say what it was. They keep what a message carries.
    fn go_on(
        &self,
        alloc: Global,
        bodies: &mut Self::Bodies,
        number: u32,
    ) -> Result<Turn, AllocError>
        requires room { number < 65536 }
        requires may { MayGoOn (program self.now) (stands self.now bodies.old) number }
        ensures { IfOk result (λ turn. Went (program self.now) (stands self.now bodies.old) (stands self.now bodies.new) number turn) };

    /// A chord of the object fires and takes these messages, one to each of its methods: the bodies make the entry of this number,
    /// and the body of the chord begins with what the messages carry.
    fn begin(
        &self,
        alloc: Global,
        bodies: &mut Self::Bodies,
        number: u32,
        chord: u16,
        object: Object,
        methods: &[u8],
        members: &mut Members,
    ) -> Result<(), AllocError>
        requires room { number < 65536 }
        requires methods { slice_get ((program self.now).chords object.class) chord ≡ Some methods.now }
        requires may { MayBegin (program self.now) (stands self.now bodies.old) number chord object members.old }
        ensures { IfOk result (λ _. Began (program self.now) (stands self.now bodies.old) (stands self.now bodies.new) number chord object members.old) };

    /// The first chord of the class from this one on that has the method; nothing where there is none.
    fn chord_with(&self, class: u16, from: u16, method: u8) -> Option<Candidate<'_>>
        ensures chord { IfSome result (λ found. HasChord ((program self.now).chords class) found.chord found.methods.now) }
        ensures from { IfSome result (λ found. from ≤ found.chord) }
        ensures has { IfSome result (λ found. has method found.methods.now ≡ true) }
        ensures skipped { IfSome result (λ found. LackHeader method ((program self.now).chords class) from found.chord) }
        ensures none { IfNone result (LackHeader method ((program self.now).chords class) from (length ((program self.now).chords class))) };

    /// The journal of all that the bodies did.
    fn journal(&self, alloc: Global, bodies: Self::Bodies) -> Result<Journal, AllocError>
        requires { Ends (program self.now) (stands self.now bodies) }
        ensures { IfOk result (λ journal. (h : List Entry) → stands self.now bodies h → journal ≡ reverse h) };
}

/// A chord of the object that has the method and is enabled.
///
/// A message enables only chords that have its method, so no other is looked at.
#[inline(always)]
pub fn find_chord<'a, P: Playable>(
    program: &'a P,
    bag: &Bag,
    object: Object,
    method: u8,
) -> Option<Candidate<'a>>
    ensures chord { IfSome result (λ found. HasChord ((P.program program.now).chords object.class) found.chord found.methods.now) }
    ensures some { IfSome result (λ found. HasMessages object found.methods.now (numbers_of bag.now)) }
    ensures none { IfNone result (EachLacksAMessage (P.program program.now) object method (numbers_of bag.now)) }
{
    let mut from = 0;
    while let Some(found) = program.chord_with(object.class, from, method) {
        if bag.has_all(object, found.methods) {
            return Some(found);
        }
        from = found.chord + 1;
    }
    None
}

/// What a step of the engine was.
enum Step {
    /// Nothing may follow.
    Done,
    /// An entry, after which no chord is enabled.
    Idle,
    /// A message to this method of this object, of which a chord that has the method may now be enabled.
    Fresh(Object, u8),
}

/// Lets some body go on.
#[inline(always)]
fn take_turn<P: Playable>(
    alloc: Global,
    program: &P,
    bodies: &mut P::Bodies,
    bag: &mut Bag,
    number: u32,
) -> Result<Step, AllocError>
    requires some { 0 < number }
    requires room { number < 65536 }
    requires state { State (P.program program.now) (P.stands program.now bodies.old) (numbers_of bag.old) None number }
    ensures { IfOk result (λ step. Stepped (P.program program.now) (P.stands program.now bodies.new) (numbers_of bag.new) number step) }
{
    match program.go_on(alloc, bodies, number)? {
        Turn::Over => Ok(Step::Done),
        Turn::Plain => Ok(Step::Idle),
        Turn::Message(object, method) => {
            bag.note(alloc, object, method, number as u16)?;
            Ok(Step::Fresh(object, method))
        }
    }
}

/// Fires a chord of the object, whose messages are all in the bag.
fn fire<P: Playable>(
    alloc: Global,
    program: &P,
    bodies: &mut P::Bodies,
    bag: &mut Bag,
    object: Object,
    chord: u16,
    methods: &[u8],
    number: u32,
) -> Result<(), AllocError>
    requires room { number < 65536 }
    requires state { (j : ℕ) × State (P.program program.now) (P.stands program.now bodies.old) (numbers_of bag.old) (Some (object, j)) number }
    requires chord { HasChord ((P.program program.now).chords object.class) chord methods.now }
    requires messages { HasMessages object methods.now (numbers_of bag.old) }
    ensures { IfOk result (λ _. State (P.program program.now) (P.stands program.now bodies.new) (numbers_of bag.new) None (number + 1)) }
{
    let mut members = Members::new();
    bag.take_all(object, methods, &mut members);
    program.begin(alloc, bodies, number, chord, object, methods, &mut members)?;
    Ok(())
}

/// Makes the next entry: a firing where the fresh message has enabled a chord, and otherwise what a body asks.
fn advance<P: Playable>(
    alloc: Global,
    program: &P,
    bodies: &mut P::Bodies,
    bag: &mut Bag,
    fresh: Option<(Object, u8)>,
    number: u32,
) -> Result<Step, AllocError>
    requires some { 0 < number }
    requires room { number < 65536 }
    requires state { State (P.program program.now) (P.stands program.now bodies.old) (numbers_of bag.old) fresh number }
    ensures { IfOk result (λ step. Stepped (P.program program.now) (P.stands program.now bodies.new) (numbers_of bag.new) number step) }
{
    match fresh {
        None => take_turn(alloc, program, bodies, bag, number),
        Some((object, method)) => match find_chord(program, bag, object, method) {
            None => take_turn(alloc, program, bodies, bag, number),
            Some(Candidate { chord, methods }) => {
                fire(alloc, program, bodies, bag, object, chord, methods, number)?;
                Ok(Step::Idle)
            }
        },
    }
}

/// The bodies after a complete run, or after a run of exactly `events` entries.
fn play_bodies<P: Playable>(
    alloc: Global,
    program: &P,
    events: u32,
) -> Result<P::Bodies, AllocError>
    requires some { 1 ≤ events }
    requires bound { events ≤ 65536 }
    ensures { IfOk result (λ bodies. IsPlayedOut (P.program program.now) (P.stands program.now bodies) events) }
{
    let mut bodies = program.start(alloc)?;
    let mut bag = Bag::new(alloc);
    let mut fresh = None;
    for number in 1..events {
        match advance(alloc, program, &mut bodies, &mut bag, fresh, number)? {
            Step::Done => return Ok(bodies),
            Step::Idle => fresh = None,
            Step::Fresh(object, method) => fresh = Some((object, method)),
        }
    }
    Ok(bodies)
}

/// Plays a program: the journal of a complete run, or of a run of exactly `limits.events` entries.
///
/// `limits.events` is 1 to 65,536. A journal of fewer entries is complete.
pub fn play<P: Playable>(alloc: Global, program: &P, limits: &Limits) -> Result<Journal, AllocError>
    requires some { 1 ≤ limits.now.events }
    requires bound { limits.now.events ≤ 65536 }
    ensures run { IfOk result (λ journal. IsRun (P.program program.now) journal) }
    ensures whole { IfOk result (λ journal. IsComplete (P.program program.now) journal ⊎ (length journal ≡ limits.now.events)) }
    ensures few { IfOk result (λ journal. length journal ≤ limits.now.events) }
    ensures short { IfOk result (λ journal. length journal < limits.now.events → IsComplete (P.program program.now) journal) }
{
    let bodies = play_bodies(alloc, program, limits.events)?;
    program.journal(alloc, bodies)
}
