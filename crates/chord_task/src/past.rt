//! What the bodies of a task did, which contracts alone read.
#![tactic(auto)]

ghost use Rattle.std.specs.Prelude.{◌≡◌, ◌<◌, List, [], ◌∷◌, ◌++◌, length, vec_len, vec_capacity};
ghost use Rattle.chord_base.specs.declared.event.Entry.{Entry as TheEntry};

use chord_base::event::Entry;
use std::marker::Model;
use std::mem;
use std::snapshot::Snapshot;

/// What is known of a list: its last item, and what is known of those before it.
#[derive(Drop)]
pub enum Known {
    Nothing,
    More(Snapshot<Known>, Snapshot<Entry>),
}

/// The entries that the bodies of a task made, the oldest first, as contracts see them. No memory keeps them here: each stands in
/// the list of whoever drew it, with those of all other tasks.
#[derive(Drop)]
pub struct Past {
    known: Snapshot<Known>,
}

impl Model for Past {
    ghost use Rattle.std.specs.Prelude.{List};
    ghost use Rattle.chord_base.specs.declared.event.Entry.{Entry as AnEntry};
    ghost use Rattle.chord_task.specs.Past.{entries_known};

    ghost Value = { List AnEntry };

    ghost view = { λ past. entries_known past.known.value };
}

impl Past {
    /// No entry.
    #[inline(always)]
    pub fn none() -> Past
        ensures { result ≡ [] }
    {
        let known = Known::Nothing;
        Past {
            known: Snapshot::of(&known),
        }
    }

    /// One entry more.
    #[inline(always)]
    pub fn add(&mut self, entry: &Entry)
        ensures { self.new ≡ self.old ++ entry.now ∷ [] }
    {
        let Past { known } = mem::replace(self, Past::none());
        let more = Known::More(known, Snapshot::of(entry));
        *self = Past {
            known: Snapshot::of(&more),
        };
    }
    /// The last entry of this list as well.
    #[inline(always)]
    pub(crate) fn add_last(&mut self, list: &[Entry])
        requires { 0 < length list.now }
        ensures { (before : List TheEntry) (last : TheEntry) → list.now ≡ before ++ last ∷ [] → self.new ≡ self.old ++ last ∷ [] }
    {
        match list.last() {
            None => unreachable!(),
            Some(entry) => self.add(entry),
        }
    }
}

/// Adds an entry to a past, and to the list of whoever drew it, in which there is room.
#[inline(always)]
pub(crate) fn append(past: &mut Past, list: &mut Vec<Entry>, entry: Entry)
    requires place { vec_len list.old < vec_capacity list.old }
    ensures past { past.new ≡ past.old ++ entry ∷ [] }
    ensures items { list.new.items ≡ list.old.items ++ entry ∷ [] }
    ensures capacity { vec_capacity list.new ≡ vec_capacity list.old }
{
    past.add(&entry);
    list.push_reserved(entry);
}
