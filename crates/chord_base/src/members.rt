//! The messages that a firing takes, by their numbers.
#![tactic(auto)]

ghost use Rattle.std.specs.Prelude.{◌≡◌, ℕ, ◌<◌, ◌≤◌, List, [], ◌∷◌, ◌++◌, length, take};

use std::marker::Model;

/// The most headers of a chord, and so the most members of a firing.
pub const MAX_MEMBERS: usize = 8;

/// At most eight numbers of messages, one for each method of a chord in header order.
///
/// They stand in the value itself, which an entry of a journal holds: a firing takes no memory for them. A number takes two bytes, since a journal
/// has at most 65,536 entries.
#[derive(Drop)]
pub struct Members {
    count: u8,
    numbers: [u16; MAX_MEMBERS],
}

impl Model for Members {
    ghost Value = { List ℕ };

    ghost view = { λ m. take m.count m.numbers };

    ghost invariant = { λ m. m.count ≤ 8 };
}

impl Members {
    /// No members.
    pub fn new() -> Members
        ensures { result ≡ [] }
    {
        Members {
            count: 0,
            numbers: [0; MAX_MEMBERS],
        }
    }

    /// Adds a member at the end.
    #[inline]
    pub fn push(&mut self, number: u16)
        requires { length self.old < 8 }
        ensures { self.new ≡ self.old ++ number ∷ [] }
    {
        self.numbers[self.count as usize] = number;
        self.count += 1;
    }

    /// The members.
    #[inline]
    pub fn items(&self) -> &[u16]
        ensures numbers { result.now ≡ self.now }
        ensures few { length self.now ≤ 8 }
    {
        &self.numbers[..self.count as usize]
    }

    /// An equal list.
    pub fn copied(&self) -> Members
        ensures { result ≡ self.now }
    {
        Members {
            count: self.count,
            numbers: self.numbers,
        }
    }
}
