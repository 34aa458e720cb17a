//! The top call on whole sources: what is written, the status, and what the report has.
use crate::sources::{
    BUFFER, DIVIDES_BESIDE_MAIN, FIRINGS_PAST_16, PUTS_PAST_16, READERS_AND_WRITERS,
};
use crate::{Gate, Refusal, Report, chord};
use chord_io::{MemSink, MemSource};
use std::alloc::{AllocError, Global};
use std::sync::Wait;
use std::test::Fail;
use std::thread::Threads;

/// The gate that does nothing.
pub(crate) struct Open;

impl Gate for Open {
    fn started(&self, _body: u32) {}
}

const HEAD: &str = "class Buffer {
  public string Get() & public async Put(string s) { return s; }
}
class Program {
  static void Main() {
    Buffer b = new Buffer();
";

const TAIL: &str = "  }
}
";

/// A source, and what the top call answers on it.
struct Case {
    name: &'static str,
    words: &'static str,
    /// The lines of `Main`, so many times each.
    puts: usize,
    gets: usize,
    /// The bytes that the sink takes, and the write that fails.
    room: u32,
    failing_write: u32,
    written: &'static str,
    status: u8,
    /// The number of entries, where there is a journal.
    entries: Option<usize>,
}

const NEVER: u32 = u32::MAX;

const CASES: [Case; 11] = [
    Case {
        name: "buffer",
        words: "run --one",
        puts: 1,
        gets: 1,
        room: 100,
        failing_write: NEVER,
        written: "hi\n",
        status: 0,
        entries: Some(8),
    },
    Case {
        name: "parked Main",
        words: "run --one",
        puts: 0,
        gets: 1,
        room: 100,
        failing_write: NEVER,
        written: "",
        status: 4,
        entries: Some(3),
    },
    Case {
        name: "a put for each of two gets",
        words: "run --one",
        puts: 2,
        gets: 2,
        room: 100,
        failing_write: NEVER,
        written: "hi\nhi\n",
        status: 0,
        entries: Some(13),
    },
    Case {
        name: "journal just full",
        words: "run --one",
        puts: 65_533,
        gets: 0,
        room: 100,
        failing_write: NEVER,
        written: "",
        status: 0,
        entries: Some(65_536),
    },
    Case {
        name: "one entry too many",
        words: "run --one",
        puts: 65_534,
        gets: 0,
        room: 100,
        failing_write: NEVER,
        written: "",
        status: 6,
        entries: Some(65_536),
    },
    Case {
        name: "a buffer that four workers play",
        words: "run",
        puts: 1,
        gets: 1,
        room: 100,
        failing_write: NEVER,
        written: "hi\n",
        status: 0,
        entries: Some(8),
    },
    Case {
        name: "a journal that four workers fill",
        words: "run --events 16",
        puts: 20,
        gets: 0,
        room: 100,
        failing_write: NEVER,
        written: "",
        status: 6,
        entries: Some(16),
    },
    Case {
        name: "a parked Main of eight workers",
        words: "run --workers 8",
        puts: 0,
        gets: 1,
        room: 100,
        failing_write: NEVER,
        written: "",
        status: 4,
        entries: Some(3),
    },
    Case {
        name: "other arguments",
        words: "walk",
        puts: 1,
        gets: 1,
        room: 100,
        failing_write: NEVER,
        written: "",
        status: 2,
        entries: None,
    },
    Case {
        name: "first write fails",
        words: "run --one",
        puts: 1,
        gets: 1,
        room: 100,
        failing_write: 1,
        written: "",
        status: 5,
        entries: Some(8),
    },
    Case {
        name: "a sink with room for two bytes",
        words: "run --one",
        puts: 1,
        gets: 1,
        room: 2,
        failing_write: NEVER,
        written: "hi",
        status: 5,
        entries: Some(8),
    },
];

/// The source of a case.
fn source_of(alloc: Global, case: &Case) -> Result<Vec<u8>, AllocError> {
    let mut source = Vec::from_slice(alloc, HEAD.as_bytes())?;
    for _ in 0..case.puts {
        source.extend_from_slice(b"b.Put(\"hi\");\n")?;
    }
    for _ in 0..case.gets {
        source.extend_from_slice(b"Console.WriteLine(b.Get());\n")?;
    }
    source.extend_from_slice(TAIL.as_bytes())?;
    Ok(source)
}

/// The words of a command line that has one blank between two of them.
pub(crate) fn words_of(alloc: Global, line: &str) -> Result<Vec<String>, AllocError> {
    let mut words = Vec::new(alloc);
    for word in line.split(' ') {
        words.push(String::from_str(alloc, word)?)?;
    }
    Ok(words)
}

/// The top call over memory.
fn answer<R: Threads + Wait + Sync>(
    rt: &R,
    alloc: Global,
    words: &str,
    mut source: MemSource,
    sink: &mut MemSink,
) -> Result<Report, AllocError> {
    let words = words_of(alloc, words)?;
    Ok(chord(rt, alloc, &words, &mut source, sink, &Open))
}

#[test]
fn runs(rt: HostRuntime) -> Result<(), Fail> {
    for case in &CASES {
        let alloc = rt.alloc();
        let source = MemSource::new(source_of(alloc, case)?, 4096, Vec::new(alloc));
        let fails = Vec::from_slice(alloc, &[case.failing_write])?;
        let mut sink = MemSink::new(alloc, case.room, 4096, fails)?;
        let report = answer(&rt, alloc, case.words, source, &mut sink)?;
        let name = case.name;
        assert_eq!(rt; sink.taken(), case.written.as_bytes(), "{name}");
        assert_eq!(rt; report.status, case.status, "{name}");
        assert_eq!(rt; report.refusal, None, "{name}");
        let entries = match &report.journal {
            Some(journal) => Some(journal.entries().len()),
            None => None,
        };
        assert_eq!(rt; entries, case.entries, "{name}");
    }
    Ok(())
}

/// A program, and what its run prints.
pub(crate) struct Played {
    pub(crate) name: &'static str,
    pub(crate) source: &'static str,
    /// The words that limit its entries, if any do, behind a blank.
    pub(crate) limit: &'static str,
    pub(crate) written: &'static str,
    pub(crate) status: u8,
    /// The number of entries of its journal.
    pub(crate) entries: usize,
    /// The chord of each firing that workers make; `None` where there is none, or they are of several.
    pub(crate) chord: Option<u16>,
}

pub(crate) const PLAYED: [Played; 12] = [
    Played {
        name: "empty Main",
        source: "class P { static void Main() { } }
",
        limit: "",
        written: "",
        status: 0,
        entries: 2,
        chord: None,
    },
    Played {
        name: "a group overridden whole",
        source: "class A {
  public virtual async a() & public virtual async b() { Console.WriteLine(\"A\"); }
}
class B : A {
  public override async a() & public override async b() { Console.WriteLine(\"B\"); }
}
class Q { static void Main() { A x = new B(); x.a(); x.b(); } }
",
        limit: "",
        written: "B\n",
        status: 0,
        entries: 8,
        chord: Some(0),
    },
    Played {
        name: "a division by 0 in a method ends its caller",
        source: "class A { public int Div(int a, int b) { return a / b; } }
class Q { static void Main() { A a = new A(); Console.WriteLine(\"before\"); Console.WriteLine(a.Div(1, 0)); Console.WriteLine(\"after\"); } }
",
        limit: "",
        written: "before\n",
        status: 8,
        entries: 7,
        chord: Some(0),
    },
    Played {
        name: "the turns of a body are used up",
        source: "class P { static void Main() { while (true) {} } }
",
        limit: "",
        written: "",
        status: 8,
        entries: 2,
        chord: None,
    },
    Played {
        name: "calls too deep",
        source: "class A { public int Go(int n) { return Go(n + 1); } }
class P { static void Main() { new A().Go(1); } }
",
        limit: "",
        written: "",
        status: 8,
        entries: 768,
        chord: Some(0),
    },
    Played {
        name: "objects too deep",
        source: "class A { public A() { new A(); } }
class P { static void Main() { new A(); } }
",
        limit: "",
        written: "",
        status: 8,
        entries: 257,
        chord: None,
    },
    Played {
        name: "a trap of an asynchronous body changes no other",
        source: DIVIDES_BESIDE_MAIN,
        limit: "",
        written: "",
        status: 8,
        entries: 6,
        chord: Some(0),
    },
    Played {
        name: "a lock of readers and writers",
        source: READERS_AND_WRITERS,
        limit: "",
        written: "4\n",
        status: 0,
        entries: 70,
        chord: None,
    },
    Played {
        name: "a buffer",
        source: BUFFER,
        limit: "",
        written: "hi\n",
        status: 0,
        entries: 8,
        chord: Some(0),
    },
    Played {
        name: "a Main that is parked",
        source: "class Buffer { public string Get() & public async Put(string s) { return s; } }
class Program { static void Main() { Buffer b = new Buffer(); Console.WriteLine(b.Get()); } }
",
        limit: "",
        written: "",
        status: 4,
        entries: 3,
        chord: None,
    },
    Played {
        name: "puts that fill the journal",
        source: PUTS_PAST_16,
        limit: " --events 16",
        written: "",
        status: 6,
        entries: 16,
        chord: None,
    },
    Played {
        name: "bodies that fill the journal",
        source: FIRINGS_PAST_16,
        limit: " --events 16",
        written: "",
        status: 6,
        entries: 16,
        chord: Some(0),
    },
];

/// The top call of one thread, with these words behind a blank, if there are any.
fn answer_alone<R: Threads + Wait + Sync>(
    rt: &R,
    alloc: Global,
    more: &str,
    source: MemSource,
    sink: &mut MemSink,
) -> Result<Report, AllocError> {
    let words = format!(in alloc; "run --one{more}")?;
    answer(rt, alloc, words.as_str(), source, sink)
}

#[test]
fn programs(rt: HostRuntime) -> Result<(), Fail> {
    for case in &PLAYED {
        let alloc = rt.alloc();
        let bytes = Vec::from_slice(alloc, case.source.as_bytes())?;
        let source = MemSource::new(bytes, 4096, Vec::new(alloc));
        let mut sink = MemSink::new(alloc, 100, 4096, Vec::new(alloc))?;
        let report = answer_alone(&rt, alloc, case.limit, source, &mut sink)?;
        let name = case.name;
        assert_eq!(rt; sink.taken(), case.written.as_bytes(), "{name}");
        assert_eq!(rt; report.status, case.status, "{name}");
        assert_eq!(rt; report.refusal, None, "{name}");
        let entries = match &report.journal {
            Some(journal) => journal.entries().len(),
            None => 0,
        };
        assert_eq!(rt; entries, case.entries, "{name}");
    }
    Ok(())
}

/// A source that is refused.
struct Refused {
    name: &'static str,
    source: &'static str,
    written: &'static str,
    refusal: Refusal,
}

const REFUSED: [Refused; 18] = [
    Refused {
        name: "empty input",
        source: "",
        written: "refused syntax 1:1\n",
        refusal: Refusal::Syntax(0),
    },
    Refused {
        name: "an open class",
        source: "class P {",
        written: "refused syntax 1:10\n",
        refusal: Refusal::Syntax(3),
    },
    Refused {
        name: "a comment alone",
        source: "//",
        written: "refused syntax 1:3\n",
        refusal: Refusal::Syntax(0),
    },
    Refused {
        name: "two modifiers before a class",
        source: "public private do",
        written: "refused syntax 1:8\n",
        refusal: Refusal::Syntax(1),
    },
    Refused {
        name: "a number behind a name, a token a line",
        source: "class\nA\n{\npublic\nint\nF\n(\nint\nn\n)\n{\nif\n(\nn\n<\nF\n2\n)\nreturn\nn\n;\n}\n}\n",
        written: "refused syntax 17:1\n",
        refusal: Refusal::Syntax(16),
    },
    Refused {
        name: "a brace too many",
        source: "class P { } }",
        written: "refused syntax 1:13\n",
        refusal: Refusal::Syntax(4),
    },
    Refused {
        name: "a byte goes before the syntax",
        source: "class P { } } #",
        written: "refused byte 1:15\n",
        refusal: Refusal::Bad(14),
    },
    Refused {
        name: "tall",
        source: "class P { static void Main() { Console.WriteLine((((((((((((((((((((((((((((((((((((((((((((((((((((((((((((((((((((((((((((((((((((((((((((((((((((1)))))))))))))))))))))))))))))))))))))))))))))))))))))))))))))))))))))))))))))))))))))))))))))))))))); } }",
        written: "refused tall 1:149\n",
        refusal: Refusal::Tall(112),
    },
    Refused {
        name: "byte",
        source: "class P { # }",
        written: "refused byte 1:11\n",
        refusal: Refusal::Bad(10),
    },
    Refused {
        name: "byte behind a mark and three ends of lines",
        source: "\u{FEFF}class P\r\n{\r\n\r  @",
        written: "refused byte 4:3\n",
        refusal: Refusal::Bad(15),
    },
    Refused {
        name: "one class for both names",
        source: "class A { public string G() & public async P(string s) { return s; } }
            class A { static void Main() { A b = new A(); } }",
        written: "refused C01 2:19\n",
        refusal: Refusal::Rule(1, 23),
    },
    Refused {
        name: "no Main: the end of the text",
        source: "class P { }",
        written: "refused C13 1:12\n",
        refusal: Refusal::Rule(13, 4),
    },
    Refused {
        name: "no Main behind the brace of a class in the third line",
        source: "class Buffer {\n  public string Get() & public async Put(string s) { return s; }\n}",
        written: "refused C13 3:2\n",
        refusal: Refusal::Rule(13, 22),
    },
    Refused {
        name: "no Main behind the end of that line",
        source: "class Buffer {\n  public string Get() & public async Put(string s) { return s; }\n}\n",
        written: "refused C13 4:1\n",
        refusal: Refusal::Rule(13, 22),
    },
    Refused {
        name: "an unknown name before a second Main",
        source: "class Q { static void Main() { int x = y; } static void Main() { } }",
        written: "refused C14 1:40\n",
        refusal: Refusal::Rule(14, 12),
    },
    Refused {
        name: "a wrong Main before an unknown name",
        source: "class P { void Main() { int x = y; } }",
        written: "refused C13 1:16\n",
        refusal: Refusal::Rule(13, 4),
    },
    Refused {
        name: "an argument of another type",
        source: "class A { public string G() & public async P(string s) { return s; } }
            class Q { static void Main() { A b = new A(); b.P(1); } }",
        written: "refused C15 2:63\n",
        refusal: Refusal::Rule(15, 43),
    },
    Refused {
        name: "the syntax goes before the rules",
        source: "class Console { } }",
        written: "refused syntax 1:19\n",
        refusal: Refusal::Syntax(4),
    },
];

#[test]
fn refusals(rt: HostRuntime) -> Result<(), Fail> {
    for case in &REFUSED {
        let alloc = rt.alloc();
        let bytes = Vec::from_slice(alloc, case.source.as_bytes())?;
        let source = MemSource::new(bytes, 5, Vec::new(alloc));
        let mut sink = MemSink::new(alloc, 100, 100, Vec::new(alloc))?;
        let report = answer(&rt, alloc, "run --one", source, &mut sink)?;
        let name = case.name;
        assert_eq!(rt; sink.taken(), case.written.as_bytes(), "{name}");
        assert_eq!(rt; report.status, 1, "{name}");
        assert_eq!(rt; report.refusal, Some(case.refusal), "{name}");
        assert!(rt; report.journal.is_none(), "{name}");
    }
    Ok(())
}

/// A source of blanks with a read that fails, and what is answered.
struct Blanks {
    name: &'static str,
    blanks: usize,
    failing_read: u32,
    failing_write: u32,
    written: &'static str,
    status: u8,
    refusal: Option<Refusal>,
}

const BLANKS: [Blanks; 4] = [
    Blanks {
        name: "failing read",
        blanks: 10,
        failing_read: 1,
        failing_write: NEVER,
        written: "",
        status: 3,
        refusal: None,
    },
    Blanks {
        name: "failing read at the end of input",
        blanks: 10,
        failing_read: 2,
        failing_write: NEVER,
        written: "",
        status: 3,
        refusal: None,
    },
    Blanks {
        name: "one byte too many",
        blanks: 1_048_577,
        failing_read: NEVER,
        failing_write: NEVER,
        written: "refused long\n",
        status: 1,
        refusal: Some(Refusal::Long),
    },
    Blanks {
        name: "a refusal that is not written",
        blanks: 1_048_577,
        failing_read: NEVER,
        failing_write: 1,
        written: "",
        status: 5,
        refusal: Some(Refusal::Long),
    },
];

#[test]
fn faults(rt: HostRuntime) -> Result<(), Fail> {
    for case in &BLANKS {
        let alloc = rt.alloc();
        let bytes = vec![in alloc; b' '; case.blanks]?;
        let source = MemSource::new(bytes, 4096, Vec::from_slice(alloc, &[case.failing_read])?);
        let fails = Vec::from_slice(alloc, &[case.failing_write])?;
        let mut sink = MemSink::new(alloc, 100, 100, fails)?;
        let report = answer(&rt, alloc, "run --one", source, &mut sink)?;
        let name = case.name;
        assert_eq!(rt; sink.taken(), case.written.as_bytes(), "{name}");
        assert_eq!(rt; report.status, case.status, "{name}");
        assert_eq!(rt; report.refusal, case.refusal, "{name}");
        assert!(rt; report.journal.is_none(), "{name}");
    }
    Ok(())
}
