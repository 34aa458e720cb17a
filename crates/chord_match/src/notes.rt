//! What is known of a bag while a chord is looked for.
ghost use Rattle.std.specs.Prelude.{◌≡◌, Some};
ghost use Rattle.chord_match.specs.Noting.{told_by};

use chord_bag::Sought;

/// What a walk through a bag came to, or that it was not walked. It is `Option<Sought>` in less room: sixteen of them are cleared
/// for each search of several chords.
#[derive(Clone, Copy, Drop)]
pub enum Note {
    /// The bag was not walked.
    Nothing,
    /// Nothing was pending, and nothing in another desk's hand.
    Bare,
    /// This message was in another desk's hand.
    Busy(u32),
    /// This message was pending, the last of its bag.
    Last(u32),
    /// This message was pending, before this one.
    Before(u32, u32),
}

impl Note {
    /// The note of what a walk came to.
    pub fn of(sought: Sought) -> Note
        ensures { told_by result ≡ Some sought }
    {
        match sought {
            Sought::Found(i, Some(next)) => Note::Before(i, next),
            Sought::Found(i, None) => Note::Last(i),
            Sought::Bare => Note::Bare,
            Sought::Busy(i) => Note::Busy(i),
        }
    }

    /// What the walk came to, if there was one.
    pub fn answer(self) -> Option<Sought>
        ensures { result ≡ told_by self }
    {
        match self {
            Note::Nothing => None,
            Note::Bare => Some(Sought::Bare),
            Note::Busy(i) => Some(Sought::Busy(i)),
            Note::Last(i) => Some(Sought::Found(i, None)),
            Note::Before(i, next) => Some(Sought::Found(i, Some(next))),
        }
    }
}
