//! The journal of a run, and its status.
#![tactic(auto)]

ghost use Rattle.std.specs.Prelude.{◌≡◌, slice_get};
ghost use Rattle.std.specs.List.{list_any};
ghost use Rattle.chord_base.specs.Bounds.{IsJournal};
ghost use Rattle.chord_base.specs.Printed.{call_in, has_failed, is_end, is_trap, main_ended, serves_caller, status_of};

use crate::event::{End, Entry, What};
use std::marker::Model;

/// The most entries of a journal.
pub const MAX_ENTRIES: usize = 65_536;

/// A list of entries in which entry i has number i and each part is within the bounds of the journal's format:
/// at most 65,536 entries; numbers of entries, bodies, objects and members below 65,536; classes below 1,024;
/// chords below 256; methods below 16; at most 8 values of a message; 1 to 8 members and at most 64 values of a firing.
#[derive(Drop)]
pub struct Journal {
    entries: Vec<Entry>,
}

impl Model for Journal {
    ghost use Rattle.std.specs.Prelude.{List};
    ghost use Rattle.chord_base.specs.declared.event.Entry.{Entry};
    ghost use Rattle.chord_base.specs.Bounds.{IsJournal};

    ghost Value = { List Entry };

    ghost view = { λ j. j.entries.items };

    ghost invariant = { λ j. IsJournal j.entries.items };
}

/// Whether the entry of this number is a call.
fn is_called(entries: &[Entry], number: u32) -> bool
    ensures { result ≡ call_in (slice_get entries.now number) }
{
    match entries.get(number as usize) {
        Some(entry) => match entry.what {
            What::Called(..) => true,
            _ => false,
        },
        None => false,
    }
}

/// Whether one of these entries is a call.
fn has_call(entries: &[Entry], numbers: &[u16]) -> bool
    ensures { result ≡ list_any (λ n. call_in (slice_get entries.now n)) numbers.now }
{
    numbers.iter().any(|n| is_called(entries, u32::from(*n)))
}

/// Whether the body serves a caller.
fn has_caller(entries: &[Entry], body: u32) -> bool
    ensures { result ≡ serves_caller entries.now body }
{
    match entries.get(body as usize) {
        Some(entry) => match &entry.what {
            What::Fired(_, _, members, _) => has_call(entries, members.items()),
            _ => false,
        },
        None => false,
    }
}

/// Whether an entry is an end by a trap.
fn traps(what: &What) -> bool
    ensures { result ≡ is_trap what.now }
{
    match what {
        What::Ended(End::Traps(_)) => true,
        _ => false,
    }
}

/// Whether an entry is an end.
fn ends(what: &What) -> bool
    ensures { result ≡ is_end what.now }
{
    match what {
        What::Ended(_) => true,
        _ => false,
    }
}

/// Whether a body that serves no caller ended by a trap.
fn has_trap(entries: &[Entry]) -> bool
    ensures { result ≡ has_failed entries.now }
{
    entries
        .iter()
        .any(|e| traps(&e.what) && !has_caller(entries, e.body))
}

/// Whether `Main` has ended.
fn has_main_end(entries: &[Entry]) -> bool
    ensures { result ≡ main_ended entries.now }
{
    entries.iter().any(|e| ends(&e.what) && e.body == 0)
}

impl Journal {
    /// The journal of these entries.
    pub fn of_entries(entries: Vec<Entry>) -> Journal
        requires { IsJournal entries.items }
        ensures { result ≡ entries.items }
    {
        Journal { entries }
    }

    /// The entries.
    pub fn entries(&self) -> &[Entry]
        ensures entries { result.now ≡ self.now }
        ensures within { IsJournal self.now }
    {
        self.entries.as_slice()
    }

    /// 8 if a body that serves no caller ended by a trap, else 4 if `Main` has not ended, else 0.
    pub fn status(&self) -> u8
        ensures { result ≡ status_of self.now }
    {
        let entries = self.entries.as_slice();
        if has_trap(entries) {
            8
        } else if has_main_end(entries) {
            0
        } else {
            4
        }
    }
}
