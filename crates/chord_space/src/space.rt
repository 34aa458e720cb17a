//! The space and its desks.
ghost use Rattle.std.specs.Prelude.{◌≡◌, ℕ, ◌+◌, ◌<◌, ◌≤◌, false, [], None, IfOk, replicate};
ghost use Rattle.chord_code.specs.Sound.{IsSoundCode};
ghost use Rattle.chord_rule.specs.Kinds.{newcomer_first};
ghost use Rattle.chord_rule.specs.Layout.{spread, breadth_for, word_count};
ghost use Rattle.chord_space.specs.Ruled.{Ruled};
ghost use Rattle.chord_space.specs.Widest.{widest};
ghost use Rattle.chord_word.specs.Cells.{link_of};

use atomic_table::{Seat, Table, TableRule};
use chord_base::event::Limits;
use chord_base::value::Object;
use chord_code::carry::Carry;
use chord_code::code::Code;
use chord_rule::view::View;
use std::alloc::{AllocError, Global};
use std::marker::PhantomData;
use std::snapshot::Snapshot;

/// What the rule is told once, when the table is made: the code and the limits of its runs.
#[derive(Drop)]
pub struct Key {
    pub code: Snapshot<Code>,
    pub limits: Limits,
}

/// The rule of the table, for parcels of this type.
pub struct Law<P: Carry> {
    of: PhantomData<P>,
}

impl<P: Carry> TableRule<Option<P>, View, Key> for Law<P> {
    ghost holds = { λ key. Ruled P.entries P.arguments P.keeps_to key.code.value key.limits };

    ghost first = { λ _. newcomer_first };
}

/// A shared table for the runs of one code: a counter, and for each event a cell, a place word and a slot for a parcel, and as
/// many heads of bags as the code's largest class has methods. Threads share it, and each makes its steps with a desk of its own.
#[derive(Drop)]
pub struct Space<P: Carry> {
    pub(crate) table: Table<Option<P>, View, Key, Law<P>, Global>,
    pub(crate) events: u32,
    pub(crate) heads: usize,
    ghost sized: { (table.shared.key.limits.events ≡ events) × (table.shared.table_id.words ≡ word_count events heads) × (table.shared.table_id.slots ≡ events) × (0 < events) × (events ≤ 65536) × (heads ≡ widest table.shared.key.code.value) × (heads ≤ 16) },
}

/// A seat at the table: what its view says it keeps and has in hand. Between two calls no slot is out with it.
#[derive(Drop)]
pub struct Desk<P> {
    pub(crate) seat: Seat<Option<P>, View>,
    // The head that the last link read, as a word: 0 for none, else the number plus 1.
    pub(crate) above: u64,
    ghost settled: { (seat.me.1 ≡ []) × (above ≡ link_of seat.me.0.above) × (above < 65537) × (seat.me.0.placing ≡ None) × (seat.me.0.posting ≡ None) × (seat.me.0.starting ≡ None) × (seat.me.0.gone ≡ false) × (seat.me.0.emptying ≡ None) },
}

/// The counter had reached the limit on events, and the entry was not drawn.
#[derive(Clone, Copy, Debug, PartialEq, Eq, Drop)]
pub struct Spent;

/// The words of an entry, less those of a slot with a parcel.
const WORDS_AN_EVENT: usize = 6;

/// How many methods the code's largest class has. Each object of a table has as many heads: an event of a code whose classes
/// are small takes a few words, where the limit on methods would ask for all sixteen.
fn heads_of(code: &Code) -> usize
    ensures widest { result ≡ widest code.now }
    ensures few { result ≤ 16 }
{
    let mut most = 0;
    for class in code.parts().classes.items() {
        if most < class.methods.items().len() {
            most = class.methods.items().len();
        }
    }
    most
}

/// So many words that are 0, which a table for these events copies.
///
/// Their memory is given back once the table is made, with that of a list of its slots beside it. Together the two have room for an entry of each event, also
/// where classes are small, so that the first list of a run may lie there, in pages of which most were touched before.
fn zeros(alloc: Global, words: usize, events: usize) -> Result<Vec<u64>, AllocError>
    requires few { events ≤ 65536 }
    ensures { IfOk result (λ zeros. zeros.items ≡ replicate words 0) }
{
    let mut zeros = Vec::with_capacity(alloc, words.max(WORDS_AN_EVENT * events))?;
    zeros.resize(words, 0)?;
    Ok(zeros)
}

/// Where the word of this number lies among those of all numbers. Threads draw numbers that follow each other in turn, and write their words in turn: these lie in
/// cache lines of their own, so that no line goes back and forth between processors.
fn spread_of(number: u32) -> usize
    ensures word { result ≡ spread number }
    ensures inside { (events : ℕ) → number < events → result < breadth_for events }
    ensures few { result ≤ number + 56 }
{
    let number = number as usize;
    number + 8 * (number % 8)
}

/// How many words there are of which each of so many numbers has one.
fn breadth_of(events: u32) -> usize
    ensures breadth { result ≡ breadth_for events }
    ensures few { result ≤ events + 56 }
{
    events as usize + 56
}

impl<P: Carry> Space<P> {
    ghost use Rattle.chord_rule.specs.Layout.{cell_at, place_at, head_at};
    ghost use Rattle.chord_space.specs.Desks.{view, heads, space_code, space_limits, IsDeskOf};

    /// A table for the runs of the code under these limits, and its first desk. For each event it takes memory for a slot, for two
    /// words, and for a head for each method of the code's largest class.
    pub fn make(
        alloc: Global,
        code: &Code,
        limits: &Limits,
    ) -> Result<(Space<P>, Desk<P>), AllocError>
        requires events { (0 < limits.now.events) × (limits.now.events ≤ 65536) }
        requires depth { (0 < limits.now.depth) × (limits.now.depth ≤ 256) }
        requires sound { IsSoundCode code.now }
        ensures { IfOk result (λ r. (space_code r.0 ≡ code.now) × (space_limits r.0 ≡ limits.now) × IsDeskOf r.0 r.1 × (view r.1 ≡ newcomer_first)) }
    {
        let _ = code.parts();
        let events = limits.events;
        let count = events as usize;
        let heads = heads_of(code);
        let breadth = breadth_of(events);
        let words = zeros(alloc, 1 + 2 * breadth + heads * breadth, count)?;
        let key = Key {
            code: Snapshot::of(code),
            limits: *limits,
        };
        let (table, seat) = Table::vacant(alloc, words.as_slice(), count, &key)?;
        let space = Space {
            table,
            events,
            heads,
        };
        Ok((space, Desk { seat, above: 0 }))
    }

    /// Which word of the table is the cell of this number: the cells lie behind the counter.
    pub(crate) fn cell_word(&self, number: u32) -> usize
        requires bounds { number < self.now.events }
        ensures word { result ≡ cell_at number }
        ensures inside { result < self.now.table.shared.table_id.words }
    {
        1 + spread_of(number)
    }

    /// Which word is the place word of this number: they lie behind the cells.
    pub(crate) fn place_word(&self, number: u32) -> usize
        requires bounds { number < self.now.events }
        ensures word { result ≡ place_at self.now.events number }
        ensures inside { result < self.now.table.shared.table_id.words }
    {
        1 + breadth_of(self.events) + spread_of(number)
    }

    /// Which word is the head for this method of the object: they lie behind the place words.
    pub(crate) fn head_word(&self, object: Object, method: u8) -> usize
        requires bounds { (object.number < self.now.events) × (method < heads self.now) }
        ensures word { result ≡ head_at self.now.events (heads self.now) object.number method }
        ensures inside { result < self.now.table.shared.table_id.words }
    {
        let first = 1 + 2 * breadth_of(self.events);
        first + spread_of(object.number) * self.heads + method as usize
    }
}
