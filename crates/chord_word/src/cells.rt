//! The words of cells and heads: how a message stands in the table, and which message follows it.
ghost use Rattle.std.specs.Prelude.{◌≡◌, ◌≢◌, ◌⊎◌, ◌↔◌, ℕ, ◌+◌, ◌<◌, ◌≤◌, IsTrue, Option, Some, None, IsNone, IfSome, MatchOption};
ghost use Rattle.chord_word.specs.Cells.{state_of, link_of, waker_of, word_of, HasNext, WordFits, ShowsCell, IsNoCell};

use crate::parts::part;

/// The width of a cell's state, from bit 0 on.
const STATE_BITS: u32 = 3;

/// The width of a cell's next, from bit `NEXT_FROM` on.
const NEXT_BITS: u32 = 17;

/// The width of a waking message's number, from bit `WAKER_FROM` on.
const WAKER_BITS: u32 = 16;

/// The first bit of a cell's next.
const NEXT_FROM: u32 = STATE_BITS;

/// The first bit of a waking message's number.
const WAKER_FROM: u32 = NEXT_FROM + NEXT_BITS;

/// The bits of a word that a cell may use: no later one is set.
const CELL_BITS: u32 = WAKER_FROM + WAKER_BITS;

/// The largest next: the last message's number plus 1.
const MAX_NEXT: u64 = 65_536;

/// How a message or a firing stands.
#[derive(Clone, Copy, PartialEq, Eq, Debug)]
pub enum Cell {
    /// Not there yet: nothing was drawn, or what was drawn is not shown yet.
    Empty,
    /// A message that any desk may claim.
    Pending,
    /// A message that one desk has claimed, for a firing of its own or to give it back.
    Claimed,
    /// A message that a firing has taken.
    Consumed,
    /// A call whose caller was signalled by the message of this number.
    Woken(u32),
    /// A firing whose body any desk may start.
    Ready,
    /// A firing whose body a desk has started.
    Started,
}

/// What a cell's word says: how the message stands, and which message of its bag comes after it.
#[derive(Clone, Copy, PartialEq, Eq, Debug)]
pub struct Word {
    pub cell: Cell,
    pub next: Option<u32>,
}

impl Cell {
    // The number of this state.
    fn state(self) -> u64
        ensures value { result ≡ state_of self }
    {
        match self {
            Cell::Empty => 0,
            Cell::Pending => 1,
            Cell::Claimed => 2,
            Cell::Consumed => 3,
            Cell::Woken(_) => 4,
            Cell::Ready => 5,
            Cell::Started => 6,
        }
    }

    // The number of the message that woke this call, 0 for any other cell.
    fn waker(self) -> u64
        ensures value { result ≡ waker_of self }
    {
        match self {
            Cell::Woken(message) => message as u64,
            _ => 0,
        }
    }

    // Whether a word with this cell may name a next message.
    fn may_have_next(self) -> bool
        ensures value { IsTrue result ↔ HasNext self }
    {
        match self {
            Cell::Empty | Cell::Ready | Cell::Started => false,
            Cell::Pending | Cell::Claimed | Cell::Consumed | Cell::Woken(_) => true,
        }
    }

    // The cell of this state and this waking message, if there is one.
    fn of_parts(state: u64, waker: u64) -> Option<Cell>
        requires waker { waker < 65536 }
        ensures value { MatchOption result ((6 < state) ⊎ ((state ≢ 4) × (waker ≢ 0)))
            (λ c. (state_of c ≡ state) × (waker_of c ≡ waker)) }
    {
        match (state, waker) {
            (4, message) => Some(Cell::Woken(message as u32)),
            (0, 0) => Some(Cell::Empty),
            (1, 0) => Some(Cell::Pending),
            (2, 0) => Some(Cell::Claimed),
            (3, 0) => Some(Cell::Consumed),
            (5, 0) => Some(Cell::Ready),
            (6, 0) => Some(Cell::Started),
            _ => None,
        }
    }

    // The cell of this state and this waking message, where it is known that there is one.
    fn of_state(state: u64, waker: u64) -> Cell
        requires waker { waker < 65536 }
        requires cell { (c : Cell) × (state_of c ≡ state) × (waker_of c ≡ waker) }
        ensures back { (c : Cell) → state_of c ≡ state → waker_of c ≡ waker → result ≡ c }
    {
        match state {
            0 => Cell::Empty,
            1 => Cell::Pending,
            2 => Cell::Claimed,
            3 => Cell::Consumed,
            4 => Cell::Woken(waker as u32),
            5 => Cell::Ready,
            6 => Cell::Started,
            _ => unreachable!(),
        }
    }
}

/// The word of a bag's head, or the next of a cell: 0 for no message, else the message's number plus 1.
#[inline]
pub fn pack_head(first: Option<u32>) -> u64
    ensures value { result ≡ link_of first }
{
    match first {
        None => 0,
        Some(number) => number as u64 + 1,
    }
}

/// The message that the word of a head names.
#[inline]
pub fn unpack_head(word: u64) -> Option<u32>
    requires head { word ≤ 65536 }
    ensures value { link_of result ≡ word }
    ensures back { (first : Option ℕ) → link_of first ≡ word → result ≡ first }
{
    if word == 0 {
        None
    } else {
        Some((word - 1) as u32)
    }
}

/// The word of a cell. No bit of one part changes another, and no other cell has this word.
#[inline]
pub fn pack(word: &Word) -> u64
    requires fits { WordFits word.now }
    ensures value { result ≡ word_of word.now }
    ensures parts { ShowsCell result word.now }
    ensures cell { ¬ IsNoCell result }
    ensures alone { (other : Word) → WordFits other → word_of other ≡ result → other ≡ word.now }
{
    word.cell.state() | (pack_head(word.next) << NEXT_FROM) | (word.cell.waker() << WAKER_FROM)
}

/// The cell of a word, None exactly where no cell has it. What was packed comes back.
#[inline]
pub fn unpack(word: u64) -> Option<Word>
    ensures none { IsNone result ↔ IsNoCell word }
    ensures some { IfSome result (λ w. WordFits w × (word_of w ≡ word)) }
    ensures parts { IfSome result (λ w. ShowsCell word w) }
    ensures back { (w : Word) → WordFits w → word_of w ≡ word → result ≡ Some w }
{
    if word >> CELL_BITS != 0 {
        return None;
    }
    let state = part(word, 0, STATE_BITS);
    let waker = part(word, WAKER_FROM, WAKER_BITS);
    let cell = Cell::of_parts(state, waker)?;
    let next = part(word, NEXT_FROM, NEXT_BITS);
    if next > MAX_NEXT || (next != 0 && !cell.may_have_next()) {
        return None;
    }
    Some(Word {
        cell,
        next: unpack_head(next),
    })
}

/// The cell of a word that was packed from one. It asks nothing of the word: who reads a cell of the table knows that each
/// store there was of a packed cell.
#[inline]
pub fn unpack_cell(word: u64) -> Word
    requires cell { (w : Word) × WordFits w × (word_of w ≡ word) }
    ensures back { (w : Word) → WordFits w → word_of w ≡ word → result ≡ w }
{
    let state = part(word, 0, STATE_BITS);
    let waker = part(word, WAKER_FROM, WAKER_BITS);
    Word {
        cell: Cell::of_state(state, waker),
        next: unpack_next(word),
    }
}

/// The next of a word that was packed from a cell.
#[inline]
pub fn unpack_next(word: u64) -> Option<u32>
    requires cell { (w : Word) × WordFits w × (word_of w ≡ word) }
    ensures next { (w : Word) → WordFits w → word_of w ≡ word → result ≡ w.next }
{
    unpack_head(part(word, NEXT_FROM, NEXT_BITS))
}
