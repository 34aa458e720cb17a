//! Plays a code, and tells of a run of it whether it may go on.
#![tactic(auto)]

ghost use Rattle.std.specs.Prelude.{◌≡◌, ◌<◌, ◌≤◌, ◌⊎◌, length, reverse, true, false, Some, IfOk, OnOk};
ghost use Rattle.chord_base.specs.declared.event.Entry.{Entry};
ghost use Rattle.chord_base.specs.Bounds.{AreWithin, IsJournal};
ghost use Rattle.chord_base.specs.Machine.{IsRun, IsComplete, MayFollow, NoneFires};
ghost use Rattle.chord_base.specs.Messages.{members_of, message_of, pending};
ghost use Rattle.chord_code.specs.Meaning.{code_program};
ghost use Rattle.chord_code.specs.Sound.{IsSoundCode};
ghost use Rattle.chord_lists.specs.Bag.{Lists, numbers_of};
ghost use Rattle.chord_lists.specs.CodeStands.{StandsAfter};
ghost use Rattle.chord_lists.specs.CodeGoes.{IsNoted, message_left, HasTaken, HasTakenNext, MarksTaken, CanFire, FiresAt, LacksAt};

use crate::bag::Bag;
use crate::code_bodies::{CodeBodies, next_ready};
use crate::code_play::CodePlay;
use crate::engine::{self, Playable, find_chord};
use chord_base::event::{Entry, Limits, What};
use chord_base::journal::Journal;
use chord_code::code::Code;
use std::alloc::{AllocError, Global};

/// Plays a sound code: the journal of a complete run, or of a run of exactly `limits.events` entries.
///
/// `limits.events` is 1 to 65,536, `limits.depth` 1 to 256. A journal of fewer entries is complete. Fails where no memory is
/// found. That the cost of an entry does not grow with the entries and tasks so far is meant, and no clause says it.
pub fn play(alloc: Global, code: &Code, limits: &Limits) -> Result<Journal, AllocError>
    requires some { 1 ≤ limits.now.events }
    requires bound { limits.now.events ≤ 65536 }
    requires shallow { 1 ≤ limits.now.depth }
    requires deep { limits.now.depth ≤ 256 }
    requires sound { IsSoundCode code.now }
    ensures run { IfOk result (λ journal. IsRun (code_program code.now limits.now) journal) }
    ensures whole { IfOk result (λ journal. IsComplete (code_program code.now limits.now) journal ⊎ (length journal ≡ limits.now.events)) }
    ensures few { IfOk result (λ journal. length journal ≤ limits.now.events) }
    ensures short { IfOk result (λ journal. length journal < limits.now.events → IsComplete (code_program code.now limits.now) journal) }
{
    let program = CodePlay { code, limits };
    engine::play(alloc, &program, limits)
}

/// The bodies after the run of these entries.
fn bodies_after<'a>(
    alloc: Global,
    program: &CodePlay<'a>,
    entries: &[Entry],
) -> Result<CodeBodies, AllocError>
    requires some { 0 < length entries.now }
    requires run { IsRun (code_program program.now.code.now program.now.limits.now) entries.now }
    requires within { IsJournal entries.now }
    ensures { IfOk result (λ bodies. StandsAfter program.now.code.now program.now.limits.now bodies (reverse entries.now)) }
{
    let mut bodies = program.start(alloc)?;
    for i in 1..entries.len() {
        program.replay(alloc, &mut bodies, &entries[i])?;
    }
    Ok(bodies)
}

/// Notes the entry, if it is a message.
fn note_entry(alloc: Global, bag: &mut Bag, entry: &Entry) -> Result<(), AllocError>
    requires { entry.now.number < 65536 }
    ensures { IfOk result (λ _. IsNoted entry.now.number (message_of entry.now.what) (numbers_of bag.old) (numbers_of bag.new)) }
{
    match &entry.what {
        What::Sent(object, method, _) => {
            bag.note(alloc, *object, *method, entry.number as u16)?;
            Ok(())
        }
        What::Called(object, method, _) => {
            bag.note(alloc, *object, *method, entry.number as u16)?;
            Ok(())
        }
        _ => Ok(()),
    }
}

/// Notes the entry, if it is a message and none has taken it.
fn note_left(alloc: Global, bag: &mut Bag, taken: bool, entry: &Entry) -> Result<(), AllocError>
    requires { entry.now.number < 65536 }
    ensures { IfOk result (λ _. IsNoted entry.now.number (message_left taken (message_of entry.now.what)) (numbers_of bag.old) (numbers_of bag.new)) }
{
    if taken {
        return Ok(());
    }
    note_entry(alloc, bag, entry)?;
    Ok(())
}

/// Says of these numbers that they were taken.
fn take_numbers(taken: &mut Vec<bool>, numbers: &[u16])
    ensures { HasTaken numbers.now taken.old.items taken.new.items }
{
    for number in numbers {
        let at = *number as usize;
        if at < taken.len() {
            taken[at] = true;
        }
    }
}

/// Says of one entry more that none has taken it, and of those that it takes that they were taken.
fn take_next(taken: &mut Vec<bool>, what: &What) -> Result<(), AllocError>
    ensures { OnOk result (HasTakenNext (members_of what.now) taken.old.items taken.new.items) }
{
    if let What::Fired(_, _, members, _) = what {
        take_numbers(taken, members.items());
    }
    taken.push(false)?;
    Ok(())
}

/// Of each entry, whether a firing has taken it.
fn taken_of(alloc: Global, entries: &[Entry]) -> Result<Vec<bool>, AllocError>
    requires { AreWithin (reverse entries.now) }
    ensures { IfOk result (λ taken. MarksTaken taken.items entries.now (reverse entries.now)) }
{
    let mut taken = Vec::with_capacity(alloc, entries.len())?;
    for entry in entries {
        take_next(&mut taken, &entry.what)?;
    }
    Ok(taken)
}

/// The pending messages, by what they are to.
fn pending_bag(alloc: Global, entries: &[Entry]) -> Result<Bag, AllocError>
    requires within { AreWithin (reverse entries.now) }
    requires few { length entries.now ≤ 65536 }
    ensures { IfOk result (λ bag. Lists (λ i. pending i (reverse entries.now)) (length entries.now) (numbers_of bag)) }
{
    let taken = taken_of(alloc, entries)?;
    let mut bag = Bag::new(alloc);
    for i in 0..entries.len() {
        note_left(alloc, &mut bag, taken[i], &entries[i])?;
    }
    Ok(bag)
}

/// Whether a chord that has the method to which this entry is a message has all its messages.
fn fires_at<'a>(program: &CodePlay<'a>, bag: &Bag, entry: &Entry) -> bool
    ensures yes { result ≡ true → FiresAt (code_program program.now.code.now program.now.limits.now) (numbers_of bag.now) }
    ensures no { result ≡ false → LacksAt (code_program program.now.code.now program.now.limits.now) (numbers_of bag.now) entry.now }
{
    match &entry.what {
        What::Sent(object, method, _) => find_chord(program, bag, *object, *method).is_some(),
        What::Called(object, method, _) => find_chord(program, bag, *object, *method).is_some(),
        _ => false,
    }
}

/// Whether a chord has all its messages.
fn fires<'a>(program: &CodePlay<'a>, bag: &Bag, entries: &[Entry]) -> bool
    requires within { AreWithin (reverse entries.now) }
    requires lists { Lists (λ i. pending i (reverse entries.now)) (length entries.now) (numbers_of bag.now) }
    ensures yes { result ≡ true → CanFire (code_program program.now.code.now program.now.limits.now) (reverse entries.now) }
    ensures no { result ≡ false → NoneFires (code_program program.now.code.now program.now.limits.now) (reverse entries.now) }
{
    let _parts = program.code.parts();
    for entry in entries {
        if fires_at(program, bag, entry) {
            return true;
        }
    }
    false
}

/// Whether an entry may follow the run of a code that a journal tells. If none may, the run is complete.
///
/// `limits.depth` is 1 to 256. The run is made again, entry by entry, which is meant to take the time in which it was made: no
/// clause speaks of time. Fails where no memory is found.
pub fn may_go_on(
    alloc: Global,
    code: &Code,
    limits: &Limits,
    journal: &Journal,
) -> Result<bool, AllocError>
    requires shallow { 1 ≤ limits.now.depth }
    requires deep { limits.now.depth ≤ 256 }
    requires sound { IsSoundCode code.now }
    requires run { IsRun (code_program code.now limits.now) journal.now }
    ensures yes { IfOk result (λ yes. yes ≡ true → (e : Entry) × MayFollow (code_program code.now limits.now) (reverse journal.now) e) }
    ensures no { IfOk result (λ yes. yes ≡ false → IsComplete (code_program code.now limits.now) journal.now) }
{
    let program = CodePlay { code, limits };
    let entries = journal.entries();
    if entries.is_empty() {
        return Ok(true);
    }
    let mut bodies = bodies_after(alloc, &program, entries)?;
    match next_ready(&bodies.tasks, &mut bodies.ready) {
        Some(_) => Ok(true),
        None => {
            let bag = pending_bag(alloc, entries)?;
            Ok(fires(&program, &bag, entries))
        }
    }
}
