//! Journals that the engines make, of one thread and of four workers, judged by the plain machine of the code.
ghost use Rattle.std.specs.Prelude.{◌<◌, ◌≤◌};
ghost use Rattle.chord_code.specs.Sound.{IsSoundCode};

use crate::schedule_tests::{CASES, Case, Open, compiled};
use crate::sources::BUFFER;
use chord_base::event::{Entry, Limits};
use chord_base::journal::Journal;
use chord_base::prefix::run_length;
use chord_code::code::Code;
use chord_code::valid::valid;
use chord_io::MemSink;
use chord_journal::{write_lines, write_text};
use chord_lists::code_run::{may_go_on, play as play_alone};
use chord_plain::plain::Plain;
use chord_pool::play as play_shared;
use std::alloc::{AllocError, Global};
use std::process::Abort;
use std::sync::Wait;
use std::test::Fail;
use std::thread::Threads;

/// How many of these entries are a run of the code, and how many there are.
fn lengths(
    alloc: Global,
    code: &Code,
    limits: &Limits,
    entries: &[Entry],
) -> Result<(usize, usize), AllocError> {
    let limits = *limits;
    let run = run_length(alloc, &Plain { code, limits }, entries)?;
    Ok((run, entries.len()))
}

/// The lengths of the journal of one thread.
fn alone(alloc: Global, code: &Code, limits: &Limits) -> Result<(usize, usize), AllocError>
    requires events { (1 ≤ limits.now.events) × (limits.now.events ≤ 65536) }
    requires depth { (1 ≤ limits.now.depth) × (limits.now.depth ≤ 256) }
    requires sound { IsSoundCode code.now }
{
    let journal = play_alone(alloc, code, limits)?;
    lengths(alloc, code, limits, journal.entries())
}

/// The lengths of the journal of four workers.
fn together<R: Threads + Wait + Sync>(
    rt: &R,
    alloc: Global,
    code: &Code,
    limits: &Limits,
) -> Result<(usize, usize), AllocError>
    requires events { (1 ≤ limits.now.events) × (limits.now.events ≤ 65536) }
    requires depth { (1 ≤ limits.now.depth) × (limits.now.depth ≤ 256) }
    requires sound { IsSoundCode code.now }
{
    let (journal, _table) = play_shared(rt, alloc, code, limits, 4, &Open)?;
    lengths(alloc, code, limits, journal.entries())
}

/// Both journals of one case are runs, whole.
fn engines<R: Abort + Threads + Wait + Sync>(
    rt: &R,
    alloc: Global,
    case: &Case,
) -> Result<(), Fail> {
    let code = compiled(alloc, case.source)?;
    let events = case.events;
    if events == 0 || events > 65_536 {
        return Err(Fail::from("no limit on events"));
    }
    let limits = Limits {
        events,
        turns: 1000,
        depth: 256,
    };
    let name = case.name;
    let whole = (case.entries as usize, case.entries as usize);
    assert_eq!(rt; alone(alloc, &code, &limits)?, whole, "{name}");
    assert_eq!(rt; together(rt, alloc, &code, &limits)?, whole, "{name}");
    Ok(())
}

#[test]
fn parts_of_a_source_are_valid(rt: HostRuntime) -> Result<(), Fail> {
    for case in &CASES {
        let code = compiled(rt.alloc(), case.source)?;
        let name = case.name;
        assert!(rt; valid(code.parts()), "{name}");
    }
    Ok(())
}

#[test]
fn engines_make_runs(rt: HostRuntime) -> Result<(), Fail> {
    for case in &CASES {
        engines(&rt, rt.alloc(), case)?;
    }
    Ok(())
}

/// The first seven entries of the buffer's run.
const SEVEN_ENTRIES: &str = "journal 1 7\n\
    0 0 begun\n\
    1 0 made 0\n\
    2 0 sent o1.0 1 x6869\n\
    3 0 called o1.0 0\n\
    4 4 fired 0 o1.0 2 3 2 x6869\n\
    5 4 ended x6869\n\
    6 0 printed x6869\n";

/// All eight.
const EIGHT_ENTRIES: &str = "journal 1 8\n\
    0 0 begun\n\
    1 0 made 0\n\
    2 0 sent o1.0 1 x6869\n\
    3 0 called o1.0 0\n\
    4 4 fired 0 o1.0 2 3 2 x6869\n\
    5 4 ended x6869\n\
    6 0 printed x6869\n\
    7 0 ended u\n";

/// Writes the text and the lines of a journal: whether both were written.
fn shows(journal: &Journal, text: &mut MemSink, lines: &mut MemSink) -> bool {
    write_text(journal, text).is_ok() && write_lines(journal, lines).is_ok()
}

/// Plays on one thread, and writes the text and the lines of the journal. Whether an entry may follow.
fn goes_on(
    alloc: Global,
    code: &Code,
    limits: &Limits,
    text: &mut MemSink,
    lines: &mut MemSink,
) -> Result<bool, AllocError>
    requires events { (1 ≤ limits.now.events) × (limits.now.events ≤ 65536) }
    requires depth { (1 ≤ limits.now.depth) × (limits.now.depth ≤ 256) }
    requires sound { IsSoundCode code.now }
{
    let journal = play_alone(alloc, code, limits)?;
    if !shows(&journal, text, lines) {
        return Ok(false);
    }
    may_go_on(alloc, code, limits, &journal)
}

/// Of a run of so many entries on one thread: whether this is its text, whether `hi` is its only line, and whether an entry may follow.
fn cut_off(
    alloc: Global,
    code: &Code,
    events: u32,
    text: &str,
) -> Result<(bool, bool, bool), AllocError>
    requires events { (1 ≤ events) × (events ≤ 65536) }
    requires sound { IsSoundCode code.now }
{
    let limits = Limits {
        events,
        turns: 1000,
        depth: 256,
    };
    let mut taken = MemSink::new(alloc, 1000, 1000, Vec::new(alloc))?;
    let mut lines = MemSink::new(alloc, 100, 100, Vec::new(alloc))?;
    let follows = goes_on(alloc, code, &limits, &mut taken, &mut lines)?;
    Ok((
        taken.taken() == text.as_bytes(),
        lines.taken() == "hi\n".as_bytes(),
        follows,
    ))
}

#[test]
fn a_run_that_stops_at_its_limit(rt: HostRuntime) -> Result<(), Fail> {
    let code = compiled(rt.alloc(), BUFFER)?;
    let seven = cut_off(rt.alloc(), &code, 7, SEVEN_ENTRIES)?;
    let eight = cut_off(rt.alloc(), &code, 8, EIGHT_ENTRIES)?;
    assert_eq!(rt; (seven, eight), ((true, true, true), (true, true, false)));
    Ok(())
}
