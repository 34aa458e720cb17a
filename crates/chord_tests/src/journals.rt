//! What no clause says: journals of the language's own examples byte for byte, a text at each bound and one past it,
//! that calls succeed with memory, and a write that fails in mid-stream.
ghost use Rattle.std.specs.Prelude.{◌≡◌, ◌≤◌, ◌∷◌, [], IfOk, flat_map};
ghost use Rattle.chord_base.specs.declared.event.What.TheVariants.{Begun, Made};
ghost use Rattle.chord_journal.specs.Gathered.{AreOfJournal};

use chord_base::event::{Entry, What};
use chord_base::journal::Journal;
use chord_io::{Failed, MemSink};
use chord_journal::{JournalFault, gather, gather_lists, read, write_lines, write_text};
use std::alloc::{AllocError, Global};
use std::fmt::Write;
use std::process::Abort;
use std::test::Fail;

/// A buffer: one text is put and got, and printed.
const BUFFER: &str = "journal 1 8\n\
    0 0 begun\n\
    1 0 made 0\n\
    2 0 sent o1.0 1 x6869\n\
    3 0 called o1.0 0\n\
    4 4 fired 0 o1.0 2 3 2 x6869\n\
    5 4 ended x6869\n\
    6 0 printed x6869\n\
    7 0 ended u\n";

/// Calls of an overridden group, with texts.
const GROUPS: &str = "journal 1 24\n\
    0 0 begun\n\
    1 0 made 0\n\
    2 0 made 1\n\
    3 0 called o1.0 1\n\
    4 4 fired 1 o1.0 1 3\n\
    5 4 called o1.0 0\n\
    6 6 fired 0 o1.0 1 5\n\
    7 6 ended x41\n\
    8 4 called o1.0 0\n\
    9 9 fired 0 o1.0 1 8\n\
    10 9 ended x41\n\
    11 4 ended x4141\n\
    12 0 called o2.1 1\n\
    13 13 fired 0 o2.1 1 12\n\
    14 13 called o2.1 0\n\
    15 15 fired 1 o2.1 1 14\n\
    16 15 ended x4235\n\
    17 13 called o2.1 0\n\
    18 18 fired 1 o2.1 1 17\n\
    19 18 ended x4235\n\
    20 13 ended x42354235\n\
    21 0 printed x414142354235\n\
    22 0 printed x46616c7365\n\
    23 0 ended u\n";

/// A recursion, with ints.
const RECURSION: &str = "journal 1 13\n\
    0 0 begun\n\
    1 0 made 0\n\
    2 0 called o1.0 0 i2\n\
    3 3 fired 0 o1.0 1 2 i2\n\
    4 3 called o1.0 0 i1\n\
    5 5 fired 0 o1.0 1 4 i1\n\
    6 5 ended i1\n\
    7 3 called o1.0 0 i0\n\
    8 8 fired 0 o1.0 1 7 i0\n\
    9 8 ended i0\n\
    10 3 ended i1\n\
    11 0 printed x31\n\
    12 0 ended u\n";

/// A caller that is never served.
const PARKED: &str = "journal 1 3\n\
    0 0 begun\n\
    1 0 made 0\n\
    2 0 called o1.0 0\n";

/// The line at which a text is wrong, if it is.
fn wrong_line(alloc: Global, text: &str) -> Option<u32> {
    match read(alloc, text.as_bytes()) {
        Ok(_) => None,
        Err(JournalFault::At(line)) => Some(line),
        Err(JournalFault::Memory) => Some(u32::MAX),
    }
}

/// The text of a journal of one entry whose line goes on with `line`.
fn one_entry(alloc: Global, line: &str) -> Result<String, AllocError> {
    format!(in alloc; "journal 1 1\n0 {line}\n")
}

/// How many entries a text's journal has, what writing it into a sink with that room answers, and whether it writes the text.
fn again(
    alloc: Global,
    text: &str,
    room: u32,
    piece: u32,
) -> Result<(usize, Result<(), Failed>, bool), Fail>
    requires { 1 ≤ piece }
{
    let journal = read(alloc, text.as_bytes())?;
    let mut sink = MemSink::new(alloc, room, piece, Vec::new(alloc))?;
    let written = write_text(&journal, &mut sink);
    Ok((
        journal.entries().len(),
        written,
        sink.taken() == text.as_bytes(),
    ))
}

#[test]
fn writes_what_it_read(rt: HostRuntime) -> Result<(), Fail> {
    for (text, entries) in [(BUFFER, 8), (GROUPS, 24), (RECURSION, 13), (PARKED, 3)] {
        assert_eq!(rt;
            again(rt.alloc(), text, 2000, 7)?,
            (entries, Ok(()), true),
            "{text}"
        );
    }
    Ok(())
}

/// A text, and the line at which it is wrong, if it is.
const WRONG_LINES: [(&str, &str, Option<u32>); 7] = [
    ("whole", BUFFER, None),
    ("empty", "", Some(0)),
    ("a missing line", "journal 1 2\n0 0 begun\n", Some(2)),
    ("another version", "journal 2 0\n", Some(0)),
    ("no entries", "journal 1 0\n", None),
    ("too many entries", "journal 1 65537\n", Some(0)),
    ("the most entries, missing", "journal 1 65536\n", Some(1)),
];

fn is_wrong_at(rt: &impl Abort, name: &str, found: Option<u32>, line: Option<u32>) {
    assert_eq!(rt; found, line, "{name}");
}

/// The line at which the buffer's text is wrong with this in place of that.
fn changed(alloc: Global, old: &str, new: &str) -> Result<Option<u32>, AllocError> {
    let text = BUFFER.replace(alloc, old, new)?;
    Ok(wrong_line(alloc, text.as_str()))
}

/// The line at which the buffer's text is wrong with a byte behind its end.
fn followed(alloc: Global) -> Result<Option<u32>, AllocError> {
    let buffer = BUFFER;
    let text = format!(in alloc; "{buffer}x")?;
    Ok(wrong_line(alloc, text.as_str()))
}

#[test]
fn names_the_least_wrong_line(rt: HostRuntime) -> Result<(), Fail> {
    for (name, text, line) in &WRONG_LINES {
        is_wrong_at(&rt, name, wrong_line(rt.alloc(), text), *line);
    }
    Ok(())
}

/// The line at which the buffer's text is wrong without this end.
fn without(alloc: Global, end: &str) -> Option<u32> {
    wrong_line(alloc, BUFFER.strip_suffix(end).unwrap_or(""))
}

#[test]
fn names_the_line_of_a_change(rt: HostRuntime) -> Result<(), Fail> {
    let unended = without(rt.alloc(), "\n");
    is_wrong_at(&rt, "no end of the last line", unended, Some(8));
    let cut_off = without(rt.alloc(), "7 0 ended u\n");
    is_wrong_at(&rt, "no last line", cut_off, Some(8));
    let another_number = changed(rt.alloc(), "2 0 sent", "3 0 sent")?;
    is_wrong_at(&rt, "another number", another_number, Some(3));
    let leading_zero = changed(rt.alloc(), "journal 1 8", "journal 1 08")?;
    is_wrong_at(&rt, "a leading zero", leading_zero, Some(0));
    is_wrong_at(&rt, "a byte behind the end", followed(rt.alloc())?, Some(9));
    Ok(())
}

/// A line without its number, and whether it is right.
const PARTS: [(&str, bool); 35] = [
    ("65535 begun", true),
    ("65536 begun", false),
    ("00 begun", false),
    ("0 begun ", false),
    ("0 Begun", false),
    ("0 made 1023", true),
    ("0 made 1024", false),
    ("0 sent o65535.1023 15", true),
    ("0 sent o65536.0 0", false),
    ("0 sent o0.1024 0", false),
    ("0 sent o0.0 16", false),
    ("0 sent o0 0", false),
    ("0 called o0.0 0 i2147483647 i-2147483648", true),
    ("0 called o0.0 0 i2147483648", false),
    ("0 called o0.0 0 i-2147483649", false),
    ("0 called o0.0 0 i-0", false),
    ("0 called o0.0 0 i01", false),
    ("0 called o0.0 0 i", false),
    ("0 called o0.0 0 u t f o1.2 x x00ff", true),
    ("0 called o0.0 0 o1", false),
    ("0 called o0.0 0 xF0", false),
    ("0 called o0.0 0 x0", false),
    ("0 fired 255 o0.0 1 65535", true),
    ("0 fired 256 o0.0 1 0", false),
    ("0 fired 0 o0.0 1 65536", false),
    ("0 fired 0 o0.0 0", false),
    ("0 fired 0 o0.0 8 1 2 3 4 5 6 7 8", true),
    ("0 fired 0 o0.0 9 1 2 3 4 5 6 7 8 9", false),
    ("0 fired 0 o0.0 2 1", false),
    ("0 ended !divide", true),
    ("0 ended !turns", true),
    ("0 ended !deep", true),
    ("0 ended !long", true),
    ("0 ended !short", false),
    ("0 printed", false),
];

/// The line at which the text of one entry is wrong, if it is.
fn wrong_entry(alloc: Global, line: &str) -> Result<Option<u32>, AllocError> {
    let text = one_entry(alloc, line)?;
    Ok(wrong_line(alloc, text.as_str()))
}

#[test]
fn keeps_the_bounds_of_each_part(rt: HostRuntime) -> Result<(), Fail> {
    for (line, right) in &PARTS {
        let expected = if *right { None } else { Some(1) };
        is_wrong_at(&rt, line, wrong_entry(rt.alloc(), line)?, expected);
    }
    Ok(())
}

/// The front of a line, what follows it so many times, and whether that is right.
const LISTS: [(&str, &str, u32, bool); 6] = [
    ("0 sent o0.0 0", " u", 8u32, true),
    ("0 sent o0.0 0", " u", 9, false),
    ("0 fired 0 o0.0 1 0", " t", 64, true),
    ("0 fired 0 o0.0 1 0", " t", 65, false),
    ("0 printed x", "0a", 1024, true),
    ("0 printed x", "0a", 1025, false),
];

/// The line at which a text is wrong whose entry goes on with one part so many times, if it is.
fn wrong_list(
    alloc: Global,
    front: &str,
    part: &str,
    times: u32,
) -> Result<Option<u32>, AllocError> {
    let mut line = String::from_str(alloc, front)?;
    for _ in 0..times {
        line.push_str(part)?;
    }
    wrong_entry(alloc, line.as_str())
}

#[test]
fn keeps_the_bounds_of_each_list(rt: HostRuntime) -> Result<(), Fail> {
    for (front, part, times, right) in &LISTS {
        let expected = if *right { None } else { Some(1) };
        let found = wrong_list(rt.alloc(), front, part, *times)?;
        is_wrong_at(&rt, front, found, expected);
    }
    Ok(())
}

#[test]
fn faults_say_what_is_wrong(rt: HostRuntime) -> Result<(), Fail> {
    for (fault, expected) in [
        (JournalFault::Memory, "out of memory"),
        (JournalFault::At(0), "line 0 is no line of a journal"),
        (
            JournalFault::At(65_537),
            "line 65537 is no line of a journal",
        ),
    ] {
        assert_eq!(rt; format!(in rt.alloc(); "{fault}")?.as_str(), expected);
    }
    Ok(())
}

/// The text of a journal of the most entries.
fn most_entries(alloc: Global) -> Result<String, Fail> {
    let mut text = String::from_str(alloc, "journal 1 65536\n")?;
    for number in 0..65_536u32 {
        writeln!(text, "{number} 0 made 1")?;
    }
    Ok(text)
}

#[test]
fn reads_the_most_entries(rt: HostRuntime) -> Result<(), Fail> {
    let text = most_entries(rt.alloc())?;
    assert_eq!(rt;
        again(rt.alloc(), text.as_str(), 2_000_000, 100_000)?,
        (65_536, Ok(()), true)
    );
    Ok(())
}

/// What writing the text of a journal into a sink with that room answers, and whether this is written.
fn text_written(
    alloc: Global,
    journal: &Journal,
    room: u32,
    taken: &[u8],
) -> Result<(Result<(), Failed>, bool), AllocError> {
    let mut sink = MemSink::new(alloc, room, 5, Vec::new(alloc))?;
    let written = write_text(journal, &mut sink);
    Ok((written, sink.taken() == taken))
}

/// What writing the lines of a journal answers where this write fails, if it is not 0, and whether this is written.
fn lines_written(
    alloc: Global,
    journal: &Journal,
    call: u32,
    taken: &[u8],
) -> Result<(Result<(), Failed>, bool), AllocError> {
    let mut sink = MemSink::new(alloc, 100, 5, vec![in alloc; call]?)?;
    let written = write_lines(journal, &mut sink);
    Ok((written, sink.taken() == taken))
}

/// What writing the lines of the journal of groups answers.
fn groups_lines(
    alloc: Global,
    call: u32,
    taken: &[u8],
) -> Result<(Result<(), Failed>, bool), Fail> {
    let journal = read(alloc, GROUPS.as_bytes())?;
    Ok(lines_written(alloc, &journal, call, taken)?)
}

/// What writing the text of the journal of groups answers.
fn groups_text(alloc: Global, room: u32, taken: &[u8]) -> Result<(Result<(), Failed>, bool), Fail> {
    let journal = read(alloc, GROUPS.as_bytes())?;
    Ok(text_written(alloc, &journal, room, taken)?)
}

#[test]
fn a_write_fails_in_mid_stream(rt: HostRuntime) -> Result<(), Fail> {
    let whole = groups_lines(rt.alloc(), 0, b"AAB5B5\nFalse\n")?;
    let failing = groups_lines(rt.alloc(), 3, b"AAB5B5\n")?;
    let full = groups_text(rt.alloc(), 14, b"journal 1 24\n0")?;
    assert_eq!(rt;
        (whole, failing, full),
        ((Ok(()), true), (Err(Failed), true), (Err(Failed), true))
    );
    Ok(())
}

/// `Main` begins.
fn begun() -> Entry
    ensures { result ≡ record { number = 0; body = 0; what = Begun } }
{
    Entry {
        number: 0,
        body: 0,
        what: What::Begun,
    }
}

/// `Main` makes an object of this class.
fn made(number: u32, class: u16) -> Entry
    ensures { result ≡ record { number = number; body = 0; what = Made class } }
{
    Entry {
        number,
        body: 0,
        what: What::Made(class),
    }
}

/// Two entries of a journal, the later one first.
fn swapped(alloc: Global) -> Result<Vec<Entry>, AllocError>
    ensures { IfOk result (λ entries. AreOfJournal entries.items) }
{
    let mut entries = Vec::new(alloc);
    entries.push(made(1, 7))?;
    entries.push(begun())?;
    Ok(entries)
}

#[test]
fn gathers_entries_by_their_numbers(rt: HostRuntime) -> Result<(), Fail> {
    let journal = gather(rt.alloc(), swapped(rt.alloc())?)?;
    let taken = b"journal 1 2\n0 0 begun\n1 0 made 7\n";
    let written = text_written(rt.alloc(), &journal, 100, taken)?;
    assert_eq!(rt; written, (Ok(()), true));
    Ok(())
}

/// A list of one entry.
fn list_of(alloc: Global, entry: Entry) -> Result<Vec<Entry>, AllocError>
    ensures { IfOk result (λ list. list.items ≡ entry ∷ []) }
{
    let mut list = Vec::with_capacity(alloc, 1)?;
    list.push(entry)?;
    Ok(list)
}

/// Two entries of a journal in a list each, the later one in the first.
fn parted(alloc: Global) -> Result<Vec<Vec<Entry>>, AllocError>
    ensures { IfOk result (λ lists. AreOfJournal (flat_map (λ list. list.items) lists.items)) }
{
    let later = list_of(alloc, made(1, 7))?;
    let first = list_of(alloc, begun())?;
    let mut lists = Vec::new(alloc);
    lists.push(later)?;
    lists.push(first)?;
    Ok(lists)
}

#[test]
fn gathers_lists_by_their_numbers(rt: HostRuntime) -> Result<(), Fail> {
    let journal = gather_lists(rt.alloc(), parted(rt.alloc())?)?;
    let taken = b"journal 1 2\n0 0 begun\n1 0 made 7\n";
    let written = text_written(rt.alloc(), &journal, 100, taken)?;
    assert_eq!(rt; written, (Ok(()), true));
    Ok(())
}

/// A list of two entries.
fn list_of_two(alloc: Global, first: Entry, second: Entry) -> Result<Vec<Entry>, AllocError>
    ensures { IfOk result (λ list. list.items ≡ first ∷ second ∷ []) }
{
    let mut list = Vec::with_capacity(alloc, 2)?;
    list.push(first)?;
    list.push(second)?;
    Ok(list)
}

/// The entries of a journal in two lists, of which the second begins before the first and goes on behind it, with one without entries between them.
fn crossing(alloc: Global) -> Result<Vec<Vec<Entry>>, AllocError>
    ensures { IfOk result (λ lists. AreOfJournal (flat_map (λ list. list.items) lists.items)) }
{
    let inner = list_of_two(alloc, made(1, 7), made(2, 8))?;
    let outer = list_of_two(alloc, begun(), made(3, 9))?;
    let mut lists = Vec::new(alloc);
    lists.push(inner)?;
    lists.push(Vec::new(alloc))?;
    lists.push(outer)?;
    Ok(lists)
}

#[test]
fn gathers_lists_that_cross(rt: HostRuntime) -> Result<(), Fail> {
    let journal = gather_lists(rt.alloc(), crossing(rt.alloc())?)?;
    let taken = b"journal 1 4\n0 0 begun\n1 0 made 7\n2 0 made 8\n3 0 made 9\n";
    let written = text_written(rt.alloc(), &journal, 100, taken)?;
    assert_eq!(rt; written, (Ok(()), true));
    Ok(())
}
