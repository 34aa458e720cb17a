//! The end of a run: the table is closed, and what was drawn is gathered.
ghost use Rattle.std.specs.Prelude.{◌≡◌, ℕ, ◌≤◌, true, [], ◌∷◌, None, IfOk, IsOk, IsPermutation, flat_map, length, min, reverse, Some, Vec};
ghost use Rattle.std.specs.Global.{Global};
ghost use Rattle.chord_base.specs.Bounds.{IsJournal};
ghost use Rattle.chord_base.specs.declared.event.Entry.{Entry};
ghost use Rattle.chord_base.specs.Machine.{IsRun, IsComplete};
ghost use Rattle.chord_base.specs.Story.{IsIn};
ghost use Rattle.chord_code.specs.Meaning.{code_program};
ghost use Rattle.chord_journal.specs.Gathered.{AreOfJournal};
ghost use Rattle.chord_rule.specs.Closing.{MayClose, AreQuiet};
ghost use Rattle.chord_space.specs.Desks.{view, space_code, space_limits, IsDeskOf};
ghost use Rattle.chord_space.specs.Ends.{parcels, closing_view};

use chord_base::event::{Entry, Limits};
use chord_base::journal::Journal;
use chord_code::code::Code;
use chord_code::laws::entries_are_within;
use chord_journal::gather_lists;
use chord_space::{Closed, Desk, Space};
use chord_task::parcel::Parcel;
use std::alloc::{AllocError, Global};

#[tactic(auto, using(crate::proofs::Journals::last_of_one))]
/// The journal of the entries of these lists. One that is alone is the journal already.
///
/// # Errors
///
/// `AllocError` where there is no memory for the entries beside several lists that have them, or for sorting them.
fn journal_of(alloc: Global, lists: Vec<Vec<Entry>>) -> Result<Journal, AllocError>
    requires held { AreOfJournal (flat_map (λ list. list.items) lists.items) }
    requires alone { (list : Vec Entry Global) → lists.items ≡ list ∷ [] → IsJournal list.items }
    ensures gathered { IfOk result (λ journal. IsPermutation (flat_map (λ list. list.items) lists.items) journal) }
    ensures found { (list : Vec Entry Global) → lists.items ≡ list ∷ [] → IsOk result }
{
    let mut lists = lists;
    if lists.len() == 1 {
        let list = lists.take_last();
        return Ok(Journal::of_entries(list));
    }
    gather_lists(alloc, lists)
}

/// Closes the table with its first desk, which has lent none, and has no claim and nothing in flight. The entries that it drew, and
/// those that the desks drew which it took in, are gathered from the lists in which they are handed over: they are the run. One list
/// alone has them in the order in which they were drawn.
///
/// # Errors
///
/// `AllocError` where there is no memory for the entries beside several lists that have them, or for sorting them.
pub(crate) fn finish(
    alloc: Global,
    space: Space<Parcel>,
    code: &Code,
    limits: &Limits,
    desk: Desk<Parcel>,
    entries: Vec<Vec<Entry>>,
) -> Result<(Journal, Closed<Parcel>), AllocError>
    requires code { (space_code space ≡ code.now) × (space_limits space ≡ limits.now) }
    requires desk { IsDeskOf space desk }
    requires alone { ((view desk).first ≡ true) × ((view desk).lent ≡ 0) }
    requires idle { ((view desk).claims ≡ []) × ((view desk).flight ≡ None) }
    requires held { IsPermutation (flat_map (λ list. list.items) entries.items) (view desk).draws }
    requires order { (list : Vec Entry Global) → entries.items ≡ list ∷ [] → list.items ≡ reverse (view desk).draws }
    ensures run { IfOk result (λ r. IsRun (code_program code.now limits.now) r.0) }
    ensures whole { IfOk result (λ r. MayClose (view desk) → AreQuiet (code_program code.now limits.now) (view desk).kept → IsComplete (code_program code.now limits.now) r.0) }
    ensures full { IfOk result (λ r. (view desk).spent ≡ true → length r.0 ≡ limits.now.events) }
    ensures counted { IfOk result (λ r. (c : ℕ) → (view desk).looked.count ≡ Some c → length r.0 ≡ min c limits.now.events) }
    ensures few { IfOk result (λ r. length r.0 ≤ limits.now.events) }
    ensures view { IfOk result (λ r. closing_view r.1 ≡ view desk) }
    ensures released { IfOk result (λ r. parcels r.1 ≡ []) }
    ensures closed { IfOk result (λ r. (r.1.drawn ≡ length r.0) × ((e : Entry) → IsIn e (closing_view r.1).kept → IsIn e r.0)) }
    ensures drew { IfOk result (λ r. (closing_view r.1).draws ≡ reverse r.0) }
    ensures found { (list : Vec Entry Global) → entries.items ≡ list ∷ [] → IsOk result }
{
    entries_are_within(code);
    let mut closed = space.close(desk);
    // the journal may then lie where the table lay, and the system has fewer pages to clear
    closed.release();
    let journal = journal_of(alloc, entries)?;
    let _within = journal.entries();
    Ok((journal, closed))
}
