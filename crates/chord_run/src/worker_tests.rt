//! Runs that workers make: what they write, how many entries they have and of which bodies the gate is told, however many workers there are; and two bodies
//! side by side.
use crate::sources::{DIVIDES_BESIDE_MAIN, SANTA};
use crate::tests::{Open, PLAYED, Played, words_of};
use crate::{Gate, Report, chord};
use chord_base::event::{End, Entry, Trap, What};
use chord_base::value::Value;
use chord_io::{MemSink, MemSource};
use std::alloc::{AllocError, Global};
use std::sync::Wait;
use std::sync::atomic::{AtomicU64, Ordering};
use std::test::Fail;
use std::thread::{Threads, yield_now};

/// A gate counts the bodies of runs of no more entries than these.
const MOST_ENTRIES: usize = 1024;

const WORDS: [&str; 5] = [
    "run --workers 1",
    "run --workers 2",
    "run",
    "run --workers 8",
    "run --workers 64",
];

const SIDE_BY_SIDE: &str = "class A { public async a() { } public async b() { } }
class P { static void Main() { A o = new A(); o.a(); o.b(); } }
";

/// A gate that counts how often it was told of each body of a short run.
#[derive(Drop)]
struct Counting {
    told: Vec<AtomicU64>,
}

impl Counting {
    /// It was told of none.
    fn new(alloc: Global) -> Result<Counting, AllocError> {
        let mut told = Vec::new(alloc);
        for _ in 0..MOST_ENTRIES {
            told.push(AtomicU64::new(0))?;
        }
        Ok(Counting { told })
    }

    /// Whether it was told of each body of the run that a report has once, and of nothing else. Where the run is full, a body that has no entry behind
    /// its firing may not have begun.
    fn told_once(&self, report: &Report) -> bool {
        let entries = match &report.journal {
            Some(journal) => journal.entries(),
            None => return false,
        };
        for (number, count) in self.told.iter().enumerate() {
            let told = count.load(Ordering::SeqCst);
            let begins = match entries.get(number) {
                Some(entry) => begins_a_body(&entry.what),
                None => false,
            };
            let began = begins && (report.status != 6 || went_on(entries, number));
            if told > begins as u64 || told < began as u64 {
                return false;
            }
        }
        entries.len() <= MOST_ENTRIES
    }
}

impl Gate for Counting {
    fn started(&self, body: u32) {
        if let Some(count) = self.told.get(body as usize) {
            count.fetch_add(1, Ordering::SeqCst);
        }
    }
}

/// Whether an entry is the beginning of a body.
fn begins_a_body(what: &What) -> bool {
    matches!(what, What::Begun | What::Fired(_, _, _, _))
}

/// Whether a body has an entry behind its beginning.
fn went_on(entries: &[Entry], body: usize) -> bool {
    for entry in entries {
        if entry.body as usize == body && entry.number != entry.body {
            return true;
        }
    }
    false
}

/// A gate that holds the first body after `Main` until another one has started, and marks where none did.
#[derive(Drop)]
struct Meeting {
    told: Counting,
    /// How often it looks whether another body has started.
    looks: u32,
    others: AtomicU64,
    missed: AtomicU64,
}

impl Gate for Meeting {
    fn started(&self, body: u32) {
        self.told.started(body);
        if body == 0 || self.others.fetch_add(1, Ordering::SeqCst) != 0 {
            return;
        }
        for _ in 0..self.looks {
            if self.others.load(Ordering::SeqCst) > 1 {
                return;
            }
            yield_now();
        }
        self.missed.fetch_add(1, Ordering::SeqCst);
    }
}

/// The top call over memory.
fn answer<R: Threads + Wait + Sync, G: Gate + Sync>(
    rt: &R,
    alloc: Global,
    words: &str,
    source: &str,
    sink: &mut MemSink,
    gate: &G,
) -> Result<Report, AllocError> {
    let words = words_of(alloc, words)?;
    let bytes = Vec::from_slice(alloc, source.as_bytes())?;
    let mut source = MemSource::new(bytes, 4096, Vec::new(alloc));
    Ok(chord(rt, alloc, &words, &mut source, sink, gate))
}

/// The number of entries of the journal in a report, which its table has drawn.
fn entries_of(report: &Report) -> usize {
    match (&report.journal, &report.table) {
        (Some(journal), Some(table)) if table.drawn() as usize == journal.entries().len() => {
            journal.entries().len()
        }
        _ => 0,
    }
}

/// The chord of each firing of a report's journal; `None` where there is no firing, or they are of several.
fn only_chord(report: &Report) -> Option<u16> {
    let mut only: Option<u16> = None;
    if let Some(journal) = &report.journal {
        for entry in journal.entries() {
            if let What::Fired(chord, _, _, _) = &entry.what {
                let chord = *chord;
                if only.unwrap_or(chord) != chord {
                    return None;
                }
                only = Some(chord);
            }
        }
    }
    only
}

/// Of a run of a program with these words: whether it writes what is due, its status, how many entries its table has drawn, of which chord its firings
/// are, and whether the gate was told of each body once.
fn observe<R: Threads + Wait + Sync>(
    rt: &R,
    alloc: Global,
    words: &str,
    case: &Played,
) -> Result<(bool, u8, usize, Option<u16>, bool), AllocError> {
    let limit = case.limit;
    let words = format!(in alloc; "{words}{limit}")?;
    let mut sink = MemSink::new(alloc, 100, 4096, Vec::new(alloc))?;
    let gate = Counting::new(alloc)?;
    let report = answer(rt, alloc, words.as_str(), case.source, &mut sink, &gate)?;
    Ok((
        sink.taken() == case.written.as_bytes(),
        report.status,
        entries_of(&report),
        only_chord(&report),
        gate.told_once(&report),
    ))
}

#[test]
fn workers_make_the_runs(rt: HostRuntime) -> Result<(), Fail> {
    for words in &WORDS {
        for case in &PLAYED {
            let found = observe(&rt, rt.alloc(), words, case)?;
            let wanted = (true, case.status, case.entries, case.chord, true);
            let name = case.name;
            assert_eq!(rt; found, wanted, "{name}: {words}");
        }
    }
    Ok(())
}

/// How many entries of each kind a journal has.
#[derive(Clone, Copy, Debug, PartialEq, Eq)]
struct Kinds {
    begun: u32,
    made: u32,
    sent: u32,
    called: u32,
    fired: u32,
    printed: u32,
    ended: u32,
}

/// The kinds of the entries of a report's journal.
fn kinds_of(report: &Report) -> Kinds {
    let mut kinds = Kinds {
        begun: 0,
        made: 0,
        sent: 0,
        called: 0,
        fired: 0,
        printed: 0,
        ended: 0,
    };
    if let Some(journal) = &report.journal {
        for entry in journal.entries() {
            let count = match &entry.what {
                What::Begun => &mut kinds.begun,
                What::Made(_) => &mut kinds.made,
                What::Sent(..) => &mut kinds.sent,
                What::Called(..) => &mut kinds.called,
                What::Fired(..) => &mut kinds.fired,
                What::Printed(_) => &mut kinds.printed,
                What::Ended(_) => &mut kinds.ended,
            };
            *count = count.saturating_add(1);
        }
    }
    kinds
}

/// How many of the lines are this one.
fn lines_like(taken: &[u8], wanted: &[u8]) -> u32 {
    let mut like = 0u32;
    for line in taken.split(|byte| *byte == b'\n') {
        if line == wanted {
            like = like.saturating_add(1);
        }
    }
    like
}

/// What a run of Santa leaves behind, whoever makes it: four lines in whatever order, told by the bytes of all together and by how many are of each kind,
/// the status, and the kinds of its entries.
type Delivered = (usize, u32, u32, u8, Kinds);

const DELIVERED: Delivered = (
    20 + 3 * 18,
    1,
    3,
    0,
    Kinds {
        begun: 1,
        made: 2,
        sent: 63,
        called: 4,
        fired: 42,
        printed: 4,
        ended: 43,
    },
);

/// What a run of Santa with these words leaves behind, how many entries its table has drawn, and whether the gate was told of each body once.
fn observe_santa<R: Threads + Wait + Sync>(
    rt: &R,
    alloc: Global,
    words: &str,
) -> Result<(Delivered, usize, bool), AllocError> {
    let mut sink = MemSink::new(alloc, 100, 4096, Vec::new(alloc))?;
    let gate = Counting::new(alloc)?;
    let report = answer(rt, alloc, words, SANTA, &mut sink, &gate)?;
    let toys = lines_like(sink.taken(), b"Santa delivers toys");
    let elves = lines_like(sink.taken(), b"Santa meets elves");
    let written = sink.taken().len();
    let delivered = (written, toys, elves, report.status, kinds_of(&report));
    Ok((delivered, entries_of(&report), gate.told_once(&report)))
}

#[test]
fn santa(rt: HostRuntime) -> Result<(), Fail> {
    // one thread has no table and tells no gate
    let (alone, _, _) = observe_santa(&rt, rt.alloc(), "run --one")?;
    assert_eq!(rt; alone, DELIVERED);
    for words in &WORDS {
        let together = observe_santa(&rt, rt.alloc(), words)?;
        assert_eq!(rt; together, (DELIVERED, 159, true), "{words}");
    }
    Ok(())
}

/// Of the bodies that ended in the journal of a report, how many there are, how many are `Main` with the unit value, and how many divided by 0.
fn ends_of(report: &Report) -> (usize, usize, usize) {
    let entries = match &report.journal {
        Some(journal) => journal.entries(),
        None => return (0, 0, 0),
    };
    let mut all = 0usize;
    let mut mains = 0usize;
    let mut divided = 0usize;
    for entry in entries {
        if let What::Ended(end) = &entry.what {
            all = all.saturating_add(1);
            match end {
                End::Gives(Value::Unit) if entry.body == 0 => mains = mains.saturating_add(1),
                End::Traps(Trap::DivideByZero) if entry.body != 0 => divided =
                    divided.saturating_add(1),
                _ => {}
            }
        }
    }
    (all, mains, divided)
}

/// What `ends_of` says of a run with these words in which an asynchronous body divides by 0.
fn ends_beside_main<R: Threads + Wait + Sync>(
    rt: &R,
    alloc: Global,
    words: &str,
) -> Result<(usize, usize, usize), AllocError> {
    let mut sink = MemSink::new(alloc, 100, 4096, Vec::new(alloc))?;
    let report = answer(rt, alloc, words, DIVIDES_BESIDE_MAIN, &mut sink, &Open)?;
    Ok(ends_of(&report))
}

#[test]
fn a_trap_ends_its_body_and_no_other(rt: HostRuntime) -> Result<(), Fail> {
    let alone = ends_beside_main(&rt, rt.alloc(), "run --one")?;
    assert_eq!(rt; alone, (2, 1, 1));
    for words in &WORDS {
        let ends = ends_beside_main(&rt, rt.alloc(), words)?;
        assert_eq!(rt; ends, (2, 1, 1), "{words}");
    }
    Ok(())
}

#[test]
fn a_sink_that_fails_at_its_second_write(rt: HostRuntime) -> Result<(), Fail> {
    for words in &WORDS {
        let alloc = rt.alloc();
        let fails = Vec::from_slice(alloc, &[2])?;
        let mut sink = MemSink::new(alloc, 100, 4096, fails)?;
        let report = answer(&rt, alloc, words, SANTA, &mut sink, &Open)?;
        let taken = sink.taken();
        let lines = ["Santa delivers toys\n", "Santa meets elves\n"];
        let is_line = taken == lines[0].as_bytes() || taken == lines[1].as_bytes();
        assert!(rt; is_line, "{words}");
        assert_eq!(rt; report.status, 5, "{words}");
        assert_eq!(rt; entries_of(&report), 159, "{words}");
    }
    Ok(())
}

/// How many of these entries printed a line.
fn printed_among(entries: &[Entry]) -> usize {
    let mut printed = 0usize;
    for entry in entries {
        if let What::Printed(_) = entry.what {
            printed = printed.saturating_add(1);
        }
    }
    printed
}

/// Words, and how the line of counts begins: by one that plays alone the whole of it, counted along the source. On one thread the first body that `Main` sends
/// puts twice before `Main` goes on; one worker goes on with `Main` until it waits.
const LOADS_OF_FEW_EVENTS: [(&str, &str); 3] = [
    (
        "load 1 --events 16 --one",
        "begun 1 made 3 sent 6 called 2 fired 3 printed 0 ended 1\n",
    ),
    (
        "load 1 --events 16 --workers 1",
        "begun 1 made 3 sent 6 called 2 fired 3 printed 0 ended 1\n",
    ),
    ("load 1 --events 16", "begun 1 made "),
];

#[test]
fn a_large_program_of_few_events(rt: HostRuntime) -> Result<(), Fail> {
    for (words, counts) in &LOADS_OF_FEW_EVENTS {
        let alloc = rt.alloc();
        let mut sink = MemSink::new(alloc, 200, 4096, Vec::new(alloc))?;
        let report = answer(&rt, alloc, words, "", &mut sink, &Open)?;
        // no line stands before the line of counts
        assert!(rt; sink.taken().starts_with(counts.as_bytes()), "{words}");
        assert!(rt; sink.taken().ends_with(b"\n"), "{words}");
        assert_eq!(rt; report.status, 6, "{words}");
        let (entries, printed) = match &report.journal {
            Some(journal) => (journal.entries().len(), printed_among(journal.entries())),
            None => (0, 0),
        };
        assert_eq!(rt; (entries, printed), (16, 0), "{words}");
    }
    Ok(())
}

/// Words, how often the gate looks whether the other body has started, and how often none had: one worker plays no second body beside the first.
const MEETINGS: [(&str, u32, u64); 5] = [
    ("run --workers 1", 1000, 1),
    ("run --workers 2", 1_000_000, 0),
    ("run --workers 4", 1_000_000, 0),
    ("run --workers 8", 1_000_000, 0),
    ("run --workers 64", 1_000_000, 0),
];

/// Of a run in which two bodies should meet: its status, of how many bodies beside `Main` the gate was told, how often it missed one, and whether it was
/// told of each once.
fn observe_meeting<R: Threads + Wait + Sync>(
    rt: &R,
    alloc: Global,
    words: &str,
    looks: u32,
) -> Result<(u8, u64, u64, bool), AllocError> {
    let gate = Meeting {
        told: Counting::new(alloc)?,
        looks,
        others: AtomicU64::new(0),
        missed: AtomicU64::new(0),
    };
    let mut sink = MemSink::new(alloc, 100, 4096, Vec::new(alloc))?;
    let report = answer(rt, alloc, words, SIDE_BY_SIDE, &mut sink, &gate)?;
    Ok((
        report.status,
        gate.others.load(Ordering::SeqCst),
        gate.missed.load(Ordering::SeqCst),
        gate.told.told_once(&report),
    ))
}

#[test]
fn two_bodies_side_by_side(rt: HostRuntime) -> Result<(), Fail> {
    for (words, looks, missed) in &MEETINGS {
        let found = observe_meeting(&rt, rt.alloc(), words, *looks)?;
        assert_eq!(rt; found, (0, 2, *missed, true), "{words}");
    }
    Ok(())
}
