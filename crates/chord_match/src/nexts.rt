//! The nexts of the members of a firing, as they were read.
ghost use Rattle.std.specs.Prelude.{◌≡◌, ℕ, ◌<◌, ◌≤◌, List, [], ◌∷◌, ◌++◌, length, Option};

use arrayvec::ArrayVec;
use chord_base::members::MAX_MEMBERS;
use std::marker::Model;

/// At most eight nexts, one for each member. Contracts see the list of them.
///
/// They stand in the value itself: a firing takes no memory.
#[derive(Drop)]
pub struct Nexts {
    nexts: ArrayVec<Option<u32>, MAX_MEMBERS>,
}

impl Model for Nexts {
    ghost Value = { List (Option ℕ) };

    ghost view = { λ n. n.nexts.items };

    ghost invariant = { λ n. length n.nexts.items ≤ 8 };
}

impl Nexts {
    /// No nexts.
    pub fn new() -> Nexts
        ensures { result ≡ [] }
    {
        Nexts {
            nexts: ArrayVec::new(),
        }
    }

    /// Adds a next at the end.
    pub fn push(&mut self, next: Option<u32>)
        requires { length self.old < 8 }
        ensures { self.new ≡ self.old ++ next ∷ [] }
    {
        self.nexts.push(next);
    }

    /// Takes all nexts out. Where there are none, nothing is written.
    #[inline(always)]
    pub fn clear(&mut self)
        ensures { self.new ≡ [] }
    {
        self.nexts.clear();
    }

    /// The nexts.
    pub fn items(&self) -> &[Option<u32>]
        ensures nexts { result.now ≡ self.now }
        ensures few { length self.now ≤ 8 }
    {
        self.nexts.as_slice()
    }
}
