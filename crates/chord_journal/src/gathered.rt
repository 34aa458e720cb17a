//! A journal from its entries, in whatever order they were kept.
ghost use Rattle.std.specs.Prelude.{◌≤◌, ◌<◌, IfOk, OnOk, IsPermutation, length};
ghost use Rattle.std.specs.List.Sorted.{IsNonDecreasingBy};
ghost use Rattle.chord_journal.specs.Gathered.{AreOfJournal, StandInPlace};

use chord_base::event::Entry;
use chord_base::journal::Journal;
use std::alloc::{AllocError, Global};

/// The journal of these entries, each of which goes to the place of its number.
///
/// # Errors
///
/// `AllocError` where there is no memory for sorting. The code asks for it only where a number is there twice, which the `requires` excludes; no clause says so.
pub fn gather(alloc: Global, entries: Vec<Entry>) -> Result<Journal, AllocError>
    requires { AreOfJournal entries.items }
    ensures { IfOk result (λ journal. IsPermutation entries.items journal) }
{
    let mut entries = entries;
    arrange(alloc, entries.as_mut_slice())?;
    Ok(Journal::of_entries(entries))
}

/// Brings the entries into the order of their numbers: in place, or by sorting where that comes to no end.
fn arrange(alloc: Global, entries: &mut [Entry]) -> Result<(), AllocError>
    requires { AreOfJournal entries.old }
    ensures moved { IsPermutation entries.old entries.new }
    ensures placed { OnOk result (StandInPlace (length entries.new) entries.new) }
{
    if put_in_place(entries) == entries.len() {
        return Ok(());
    }
    sort(alloc, entries)?;
    Ok(())
}

/// Puts each entry into the place of its number, from the front on, and gives how many stand there in the end. By the code these are all,
/// where no number is there twice: a step passes an entry or puts one into its place, so that twice as many steps as there are entries
/// do. No clause says so.
fn put_in_place(entries: &mut [Entry]) -> usize
    requires few { length entries.old ≤ 65536 }
    ensures moved { IsPermutation entries.old entries.new }
    ensures placed { StandInPlace result entries.new }
{
    let count = entries.len();
    let mut place = 0;
    for _ in 0..2 * count {
        if place == count {
            return place;
        }
        place = step_at(entries, place);
    }
    place
}

/// Passes the entry at this place if it has its number, and gives the next place. Else it goes where it belongs, and the one that
/// stood there comes here.
fn step_at(entries: &mut [Entry], place: usize) -> usize
    requires inside { place < length entries.old }
    ensures moved { IsPermutation entries.old entries.new }
    ensures placed { StandInPlace place entries.old → StandInPlace result entries.new }
    ensures inside { result ≤ length entries.new }
{
    let number = entries[place].number as usize;
    if number == place {
        return place + 1;
    }
    if number < entries.len() {
        entries.swap(place, number);
    }
    place
}

/// Sorts entries by their numbers.
fn sort(alloc: Global, entries: &mut [Entry]) -> Result<(), AllocError>
    ensures moved { IsPermutation entries.old entries.new }
    ensures ok { OnOk result (IsNonDecreasingBy (λ e. e.number) entries.new) }
{
    entries.sort_by_key(alloc, |entry| entry.number)
}
