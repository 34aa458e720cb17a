//! The parts of a code: its classes, with their methods and chords, and its blocks.
#![tactic(auto)]

ghost use Rattle.std.specs.Prelude.{◌≡◌, ℕ, ◌<◌, ◌≤◌, List, [], ◌∷◌, ◌++◌, length, take, map};
ghost use Rattle.chord_base.specs.Messages.{has};
ghost use Rattle.chord_code.specs.Headers.{LackHeader, HasHeader};
ghost use Rattle.chord_code.specs.Meaning.{methods_of};

use crate::instruction::Instructions;
use crate::lines::Lines;
use chord_base::text::Text;
use std::marker::Model;

/// The most methods of a chord.
pub const MAX_HEADERS: usize = 8;

/// So many methods, as many as a class may have, have a flag in each chord.
const FLAGS: usize = 16;

/// The methods of a chord in header order, at most eight. Contracts see the list of their numbers, which stand in the value itself.
///
/// For each method that a class may have a flag says whether it stands among them: an engine asks that of each chord of a class, after
/// each message.
#[derive(Drop)]
pub struct MethodNumbers {
    count: u8,
    numbers: [u8; MAX_HEADERS],
    flags: [bool; FLAGS],
}

impl Model for MethodNumbers {
    ghost use Rattle.std.specs.Prelude.{ℕ, ◌≤◌, List, take};
    ghost use Rattle.chord_code.specs.Headers.{AreFlags};

    ghost Value = { List ℕ };

    ghost view = { λ m. take m.count m.numbers };

    ghost invariant = { λ m. (m.count ≤ 8) × AreFlags (take m.count m.numbers) m.flags };
}

/// Whether a number stands among these.
pub(crate) fn stands_among(number: u8, numbers: &[u8]) -> bool
    ensures { result ≡ has number numbers.now }
{
    match numbers.split_first() {
        None => false,
        Some((first, rest)) => number == *first || stands_among(number, rest),
    }
}

impl MethodNumbers {
    /// No methods.
    pub fn new() -> MethodNumbers
        ensures { result ≡ [] }
    {
        MethodNumbers {
            count: 0,
            numbers: [0; MAX_HEADERS],
            flags: [false; FLAGS],
        }
    }

    /// Adds a method at the end.
    pub fn push(&mut self, number: u8)
        requires { length self.old < 8 }
        ensures { self.new ≡ self.old ++ number ∷ [] }
    {
        self.numbers[self.count as usize] = number;
        self.count += 1;
        if (number as usize) < FLAGS {
            self.flags[number as usize] = true;
        }
    }

    /// Whether a method stands among them.
    #[inline]
    pub fn has(&self, method: u8) -> bool
        ensures { result ≡ has method self.now }
    {
        match self.flags.get(method as usize) {
            Some(flag) => *flag,
            None => stands_among(method, self.items()),
        }
    }

    /// The methods.
    pub fn items(&self) -> &[u8]
        ensures numbers { result.now ≡ self.now }
        ensures few { length self.now ≤ 8 }
    {
        &self.numbers[..self.count as usize]
    }
}

/// An effective chord: the block of its body, and its methods in header order.
#[derive(Drop)]
pub struct ChordLine {
    pub block: u32,
    pub methods: MethodNumbers,
}

/// The first of these lines from this one on whose chord has the method; where there is none, how many lines there are.
#[inline]
pub fn line_with(lines: &[ChordLine], from: usize, method: u8) -> usize
    requires from { from ≤ length lines.now }
    ensures place { (from ≤ result) × (result ≤ length lines.now) }
    ensures skipped { LackHeader method (map methods_of lines.now) from result }
    ensures here { HasHeader method (map methods_of lines.now) result }
{
    for at in from..lines.len() {
        if lines[at].methods.has(method) {
            return at;
        }
    }
    lines.len()
}

/// The effective chords of a class, from number 0.
pub type Chords = Lines<ChordLine>;

/// A method: its name, whether its callers wait, and its number of parameters.
#[derive(Drop)]
pub struct MethodLine {
    pub name: Text,
    pub sync: bool,
    pub parameters: u8,
}

/// The methods of a class, from number 0.
pub type Methods = Lines<MethodLine>;

/// A class: its name, the block of its builder, if it has one, its methods, and its effective chords.
#[derive(Drop)]
pub struct ClassLine {
    pub name: Text,
    pub builder: Option<u32>,
    pub methods: Methods,
    pub chords: Chords,
}

/// The classes of a program, from number 0.
pub type Classes = Lines<ClassLine>;

/// A block: its number of slots, and its instructions.
///
/// Slot 0 is `this`, and the unit value in `Main`. The arguments follow, and then the body's own slots. A slot that was
/// given nothing holds the unit value.
#[derive(Drop)]
pub struct Block {
    pub slots: u32,
    pub instructions: Instructions,
}

/// The blocks of a program, from number 0, which is that of `Main`.
pub type Blocks = Lines<Block>;

/// The classes and the blocks of a program.
#[derive(Drop)]
pub struct Parts {
    pub classes: Classes,
    pub blocks: Blocks,
}
