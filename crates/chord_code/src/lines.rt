//! Lists of the lines of a code.
#![tactic(auto)]

ghost use Rattle.std.specs.Prelude.{◌≡◌, List};

use std::marker::Model;

/// Some lines in order, as classes, methods, chords, blocks or instructions. Contracts see the list of them.
#[derive(Drop)]
pub struct Lines<T> {
    lines: Vec<T>,
}

impl<T> Model for Lines<T> {
    ghost Value = { List T };

    ghost view = { λ l. l.lines.items };
}

impl<T: Drop> Lines<T> {
    /// The list of these lines.
    pub fn of_items(lines: Vec<T>) -> Lines<T>
        ensures { result ≡ lines.items }
    {
        Lines { lines }
    }

    /// The lines.
    #[inline(always)]
    pub fn items(&self) -> &[T]
        ensures { result.now ≡ self.now }
    {
        self.lines.as_slice()
    }
}
