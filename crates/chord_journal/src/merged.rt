//! A journal from lists, each of which has its entries in the order of their numbers.
ghost use Rattle.std.specs.Prelude.{◌≡◌, ◌≤◌, ◌<◌, ◌^◌, ◌++◌, ◌∷◌, true, length, IfOk, OnOk, IfSome, IsPermutation, flat_map};
ghost use Rattle.std.specs.Vec.{vec_capacity};
ghost use Rattle.chord_journal.specs.Gathered.{AreOfJournal, StandInPlace, IsNumberNext, IsHole, in_places};

use crate::gathered::gather;
use chord_base::event::{Entry, What};
use chord_base::journal::Journal;
use std::alloc::{AllocError, Global};
use std::collections::VecDeque;
use std::mem;

/// As many places as are filled from all lists before the next ones are, so that what is written to them lies near.
const STRETCH: usize = 1024;

/// The journal of the entries of these lists. They are laid at the places of their numbers, with holes before them for those that come later.
/// Where each list has its entries in the order of their numbers, as a worker draws them, memory is gone through in its order.
///
/// # Errors
///
/// `AllocError` where there is no memory for the entries beside the lists, or for sorting. The code asks for that only where a number is there twice,
/// which the `requires` excludes; no clause says so.
pub fn gather_lists(alloc: Global, lists: Vec<Vec<Entry>>) -> Result<Journal, AllocError>
    requires { AreOfJournal (flat_map (λ list. list.items) lists.items) }
    ensures { IfOk result (λ journal. IsPermutation (flat_map (λ list. list.items) lists.items) journal) }
{
    let (entries, placed) = merged(alloc, lists)?;
    if placed == entries.len() {
        return Ok(Journal::of_entries(entries));
    }
    gather(alloc, entries)
}

/// The entries of the lists side by side, and how many stand in the places of their numbers, from the front on. By the code these are all, where no number
/// is there twice; no clause says so.
fn merged(alloc: Global, lists: Vec<Vec<Entry>>) -> Result<(Vec<Entry>, usize), AllocError>
    requires few { length (flat_map (λ list. list.items) lists.items) ≤ 65536 }
    ensures moved { IfOk result (λ r. IsPermutation (flat_map (λ list. list.items) lists.items) r.0.items) }
    ensures placed { IfOk result (λ r. StandInPlace r.1 r.0.items) }
{
    let count = count_of(&lists);
    let mut strays = Vec::new(alloc);
    let mut entries = Vec::with_capacity(alloc, count)?;
    let rests = rests_of(alloc, lists)?;
    place_all(rests, count, &mut entries, &mut strays)?;
    // as many as came are there, so none is a hole
    if strays.is_empty() && entries.len() == count {
        return Ok((entries, count));
    }
    add_placed(entries, &mut strays)?;
    Ok((strays, 0))
}

/// How many entries the lists have.
fn count_of(lists: &[Vec<Entry>]) -> usize
    requires few { length (flat_map (λ list. list.items) lists.now) ≤ 65536 }
    ensures { result ≡ length (flat_map (λ list. list.items) lists.now) }
{
    let mut count = 0;
    for list in lists {
        count += list.len();
    }
    count
}

/// The lists, from whose fronts entries are to be taken.
fn rests_of(alloc: Global, lists: Vec<Vec<Entry>>) -> Result<Vec<VecDeque<Entry>>, AllocError>
    ensures { IfOk result (λ rests. flat_map (λ rest. rest.items) rests.items ≡ flat_map (λ list. list.items) lists.items) }
{
    let mut rests = Vec::new(alloc);
    for list in lists {
        rests.push(VecDeque::from_vec(list))?;
    }
    Ok(rests)
}

/// What stands in a place whose entry has not come.
fn hole() -> Entry
    ensures { result.number ≡ 4294967295 }
{
    Entry {
        number: u32::MAX,
        body: 0,
        what: What::Begun,
    }
}

/// The number of the next entry of a list, if it is below this one.
fn next_below(rest: &VecDeque<Entry>, reach: usize) -> Option<usize>
    ensures next { IfSome result (λ number. IsNumberNext number rest.now.items) }
    ensures range { IfSome result (λ number. number < 2 ^ 32) }
{
    match rest.front() {
        None => None,
        Some(entry) => {
            let number = entry.number as usize;
            if number < reach { Some(number) } else { None }
        }
    }
}

/// Whether the next entry of a list has this number.
fn is_next(rest: &VecDeque<Entry>, number: usize) -> bool
    ensures { result ≡ true → IsNumberNext number rest.now.items }
{
    match rest.front() {
        None => false,
        Some(entry) => entry.number as usize == number,
    }
}

/// Whether a hole stands in this place.
fn is_hole(entries: &[Entry], place: usize) -> bool
    ensures { result ≡ true → IsHole place entries.now }
{
    place < entries.len() && entries[place].number as usize != place
}

/// Takes the next entry of a list.
fn take_next(rest: &mut VecDeque<Entry>) -> Entry
    requires { 0 < length rest.old.items }
    ensures { rest.old.items ≡ result ∷ rest.new.items }
{
    match rest.pop_front() {
        None => unreachable!(),
        Some(entry) => entry,
    }
}

/// Moves the next entry of a list behind the others, which is its place.
fn append_next(rest: &mut VecDeque<Entry>, entries: &mut Vec<Entry>)
    requires next { IsNumberNext (length entries.old.items) rest.old.items }
    requires room { length entries.old.items < vec_capacity entries.old }
    ensures moved { in_places 0 entries.new.items ++ rest.new.items ≡ in_places 0 entries.old.items ++ rest.old.items }
    ensures shorter { length rest.new.items < length rest.old.items }
{
    entries.push_reserved(take_next(rest));
}

/// Moves the next entry of a list behind the others, and those after it for as long as each has the number of the place to which it comes.
fn append_run(rest: &mut VecDeque<Entry>, entries: &mut Vec<Entry>)
    requires next { IsNumberNext (length entries.old.items) rest.old.items }
    requires room { length entries.old.items < vec_capacity entries.old }
    ensures moved { in_places 0 entries.new.items ++ rest.new.items ≡ in_places 0 entries.old.items ++ rest.old.items }
    ensures shorter { length rest.new.items < length rest.old.items }
{
    append_next(rest, entries);
    while is_next(rest, entries.len()) && entries.len() < entries.capacity() {
        append_next(rest, entries);
    }
}

/// Leaves holes for the entries up to this place.
fn leave_holes(entries: &mut Vec<Entry>, place: usize)
    requires behind { length entries.old.items ≤ place }
    requires room { place < vec_capacity entries.old }
    requires range { place < 2 ^ 32 }
    ensures same { in_places 0 entries.new.items ≡ in_places 0 entries.old.items }
    ensures reached { length entries.new.items ≡ place }
    ensures capacity { vec_capacity entries.new ≡ vec_capacity entries.old }
{
    while entries.len() < place {
        entries.push_reserved(hole());
    }
}

/// Moves the next entry of a list into the hole that stands in its place.
fn fill(rest: &mut VecDeque<Entry>, entries: &mut Vec<Entry>, place: usize)
    requires next { IsNumberNext place rest.old.items }
    requires hole { IsHole place entries.old.items }
    ensures moved { IsPermutation (in_places 0 entries.old.items ++ rest.old.items) (in_places 0 entries.new.items ++ rest.new.items) }
    ensures shorter { length rest.new.items < length rest.old.items }
{
    // a hole has nothing to drop
    mem::forget(mem::replace(&mut entries[place], take_next(rest)));
}

/// Moves the next entry of a list aside.
fn set_aside(rest: &mut VecDeque<Entry>, strays: &mut Vec<Entry>) -> Result<(), AllocError>
    requires { 0 < length rest.old.items }
    ensures moved { OnOk result (strays.new.items ++ rest.new.items ≡ strays.old.items ++ rest.old.items) }
    ensures shorter { length rest.new.items < length rest.old.items }
{
    strays.push(take_next(rest))?;
    Ok(())
}

/// Moves the next entries of a list to the places of their numbers, up to one whose number is not below this one. One for which there is no place, or another in its place, is a stray.
fn place_below(
    rest: &mut VecDeque<Entry>,
    reach: usize,
    entries: &mut Vec<Entry>,
    strays: &mut Vec<Entry>,
) -> Result<(), AllocError>
    ensures { OnOk result (IsPermutation (in_places 0 entries.old.items ++ (strays.old.items ++ rest.old.items)) (in_places 0 entries.new.items ++ (strays.new.items ++ rest.new.items))) }
{
    while let Some(place) = next_below(rest, reach) {
        if is_hole(entries, place) {
            fill(rest, entries, place);
        } else if entries.len() <= place && place < entries.capacity() {
            leave_holes(entries, place);
            append_run(rest, entries);
        } else {
            set_aside(rest, strays)?;
        }
    }
    Ok(())
}

/// Moves the next entries of each list so.
fn place_stretch(
    rests: &mut [VecDeque<Entry>],
    reach: usize,
    entries: &mut Vec<Entry>,
    strays: &mut Vec<Entry>,
) -> Result<(), AllocError>
    ensures moved { OnOk result (IsPermutation (in_places 0 entries.old.items ++ (strays.old.items ++ flat_map (λ rest. rest.items) rests.old)) (in_places 0 entries.new.items ++ (strays.new.items ++ flat_map (λ rest. rest.items) rests.new))) }
    ensures count { length rests.new ≡ length rests.old }
{
    for rest in rests.iter_mut() {
        place_below(rest, reach, entries, strays)?;
    }
    Ok(())
}

/// Moves what is left of a list aside.
fn set_rest_aside(rest: VecDeque<Entry>, strays: &mut Vec<Entry>) -> Result<(), AllocError>
    ensures { OnOk result (strays.new.items ≡ strays.old.items ++ rest.items) }
{
    let mut rest = rest;
    while !rest.is_empty() {
        set_aside(&mut rest, strays)?;
    }
    Ok(())
}

/// Moves what is left of all lists aside.
fn set_all_aside(rests: Vec<VecDeque<Entry>>, strays: &mut Vec<Entry>) -> Result<(), AllocError>
    ensures { OnOk result (strays.new.items ≡ strays.old.items ++ flat_map (λ rest. rest.items) rests.items) }
{
    for rest in rests {
        set_rest_aside(rest, strays)?;
    }
    Ok(())
}

/// Moves the entries of all lists to the places of their numbers, stretch by stretch. What is left behind the last stretch are strays.
fn place_all(
    rests: Vec<VecDeque<Entry>>,
    count: usize,
    entries: &mut Vec<Entry>,
    strays: &mut Vec<Entry>,
) -> Result<(), AllocError>
    requires few { count ≤ 65536 }
    ensures { OnOk result (IsPermutation (in_places 0 entries.old.items ++ (strays.old.items ++ flat_map (λ rest. rest.items) rests.items)) (in_places 0 entries.new.items ++ strays.new.items)) }
{
    let mut rests = rests;
    let mut reach = 0;
    while reach < count {
        reach += STRETCH;
        place_stretch(&mut rests, reach, entries, strays)?;
    }
    set_all_aside(rests, strays)?;
    Ok(())
}

/// Adds the entries that stand in the places of their numbers.
fn add_placed(entries: Vec<Entry>, strays: &mut Vec<Entry>) -> Result<(), AllocError>
    ensures { OnOk result (strays.new.items ≡ strays.old.items ++ in_places 0 entries.items) }
{
    let mut place = 0;
    for entry in entries {
        if entry.number as usize == place {
            strays.push(entry)?;
        } else {
            // a hole has nothing to drop
            mem::forget(entry);
        }
        place += 1;
    }
    Ok(())
}
