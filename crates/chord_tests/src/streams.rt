//! chord_io, what no clause says: that calls succeed with memory, that readers and writers of std are passed on, and one fault
//! in mid-stream of each kind.
use chord_io::{
    Failed, MAX_SOURCE_BYTES, MemSink, MemSource, Pen, ReadFault, StdSink, StdSource, read_all,
    read_up_to, write_all,
};
use std::alloc::{AllocError, Global};
use std::io;
use std::io::{Read, Write};
use std::process::Abort;
use std::test::Fail;

/// A source of so many bytes whose reads give so many at most, the read that fails, counted from 1, the most bytes that are
/// read, and what reading answers.
type Reading = (&'static str, usize, u32, u32, u32, Result<usize, ReadFault>);

const MOST: usize = MAX_SOURCE_BYTES as usize;

const READINGS: [Reading; 14] = [
    ("nothing", 0, 1, 0, MAX_SOURCE_BYTES, Ok(0)),
    ("a byte", 1, 1, 0, MAX_SOURCE_BYTES, Ok(1)),
    ("a last piece of one byte", 9, 2, 0, MAX_SOURCE_BYTES, Ok(9)),
    (
        "as much as is asked for",
        4096,
        5000,
        0,
        MAX_SOURCE_BYTES,
        Ok(4096),
    ),
    ("a byte more", 4097, 5000, 0, MAX_SOURCE_BYTES, Ok(4097)),
    ("three pieces", 9000, 4000, 0, MAX_SOURCE_BYTES, Ok(9000)),
    (
        "the longest text",
        MOST,
        70_000,
        0,
        MAX_SOURCE_BYTES,
        Ok(MOST),
    ),
    (
        "too long a text",
        MOST + 1,
        70_000,
        0,
        MAX_SOURCE_BYTES,
        Err(ReadFault::TooLong),
    ),
    ("up to a bound", 3, 2, 0, 3, Ok(3)),
    ("past a bound", 4, 2, 0, 3, Err(ReadFault::TooLong)),
    // seven bytes in pieces of two are four reads, and a fifth finds the end
    (
        "the first read fails",
        7,
        2,
        1,
        MAX_SOURCE_BYTES,
        Err(ReadFault::Failed),
    ),
    (
        "the third read fails",
        7,
        2,
        3,
        MAX_SOURCE_BYTES,
        Err(ReadFault::Failed),
    ),
    (
        "the read at the end fails",
        7,
        2,
        5,
        MAX_SOURCE_BYTES,
        Err(ReadFault::Failed),
    ),
    (
        "the read behind the end fails",
        7,
        2,
        6,
        MAX_SOURCE_BYTES,
        Ok(7),
    ),
];

/// How many bytes are read of a source in memory.
fn read_of(
    alloc: Global,
    length: usize,
    piece: u32,
    call: u32,
    most: u32,
) -> Result<Result<usize, ReadFault>, Fail> {
    if piece == 0 {
        return Err(Fail::from("no piece"));
    }
    let fails = vec![in alloc; call]?;
    let mut source = MemSource::new(vec![in alloc; b'x'; length]?, piece, fails);
    match read_up_to(alloc, &mut source, most) {
        Ok(bytes) => Ok(Ok(bytes.len())),
        Err(fault) => Ok(Err(fault)),
    }
}

fn is_read(
    rt: &impl Abort,
    name: &str,
    found: Result<usize, ReadFault>,
    expected: Result<usize, ReadFault>,
) {
    assert_eq!(rt; found, expected, "{name}");
}

#[test]
fn reads_in_any_pieces_up_to_a_bound(rt: HostRuntime) -> Result<(), Fail> {
    for (name, length, piece, call, most, expected) in &READINGS {
        let found = read_of(rt.alloc(), *length, *piece, *call, *most)?;
        is_read(&rt, name, found, *expected);
    }
    Ok(())
}

/// The room of a sink, the most that one write takes, the write that fails, what is taken of "chords", and what writing answers.
type Writing = (u32, u32, u32, &'static str, Result<(), Failed>);

const WRITINGS: [Writing; 5] = [
    (6, 1, 0, "chords", Ok(())),
    (9, 4, 0, "chords", Ok(())),
    (4, 3, 0, "chor", Err(Failed)),
    (0, 3, 0, "", Err(Failed)),
    (9, 2, 3, "chor", Err(Failed)),
];

/// What writing answers, and whether this was taken.
fn written(
    alloc: Global,
    room: u32,
    piece: u32,
    call: u32,
    taken: &str,
) -> Result<(Result<(), Failed>, bool), Fail> {
    if piece == 0 {
        return Err(Fail::from("no piece"));
    }
    let fails = vec![in alloc; call]?;
    let mut sink = MemSink::new(alloc, room, piece, fails)?;
    let answer = write_all(&mut sink, b"chords");
    Ok((answer, sink.taken() == taken.as_bytes()))
}

#[test]
fn writes_until_all_is_taken(rt: HostRuntime) -> Result<(), Fail> {
    for (room, piece, call, taken, expected) in &WRITINGS {
        let found = written(rt.alloc(), *room, *piece, *call, taken)?;
        assert_eq!(rt; found, (*expected, true), "room {room}, pieces of {piece}");
    }
    Ok(())
}

/// A reader and writer of std that fails at once.
#[derive(Drop)]
struct Broken;

impl Read for Broken {
    fn read(&mut self, _buf: &mut [u8]) -> io::Result<usize> {
        Err(io::Error::from(io::ErrorKind::Other))
    }
}

impl Write for Broken {
    fn write(&mut self, _buf: &[u8]) -> io::Result<usize> {
        Err(io::Error::from(io::ErrorKind::Other))
    }

    fn flush(&mut self) -> io::Result<()> {
        Ok(())
    }
}

#[test]
fn a_reader_of_std_is_read_to_its_end(rt: HostRuntime) -> Result<(), Fail> {
    let text = read_all(rt.alloc(), &mut StdSource::new(b"class A { }".as_slice()));
    let text = text.map(|bytes| bytes.len());
    let broken = read_all(rt.alloc(), &mut StdSource::new(Broken));
    let broken = broken.map(|bytes| bytes.len());
    assert_eq!(rt; (text, broken), (Ok(11), Err(ReadFault::Failed)));
    Ok(())
}

#[test]
fn a_writer_of_std_gets_the_whole_piece(rt: HostRuntime) -> Result<(), Fail> {
    let mut room = [0u8; 4];
    let mut writer = room.as_mut_slice();
    let whole = write_all(&mut StdSink::new(&mut writer), b"abc");
    let cut = write_all(&mut StdSink::new(&mut writer), b"de");
    let broken = write_all(&mut StdSink::new(Broken), b"a");
    assert_eq!(rt; (whole, cut, broken), (Ok(()), Err(Failed), Err(Failed)));
    assert!(rt; room.as_slice() == b"abcd".as_slice());
    Ok(())
}

/// The length of a piece, the room of a sink, what a pen answers that writes the piece three times, and how many bytes the sink took:
/// a piece that is held, one that fills the pen, and one that is longer than the pen.
const PIECES: [(usize, u32, Result<(), Failed>, usize); 4] = [
    (3, 20_000, Ok(()), 9),
    (4096, 20_000, Ok(()), 12_288),
    (5000, 20_000, Ok(()), 15_000),
    (5000, 9000, Err(Failed), 9000),
];

/// What a pen answers that writes a piece three times, and how many bytes the sink took.
fn put_thrice(
    alloc: Global,
    length: usize,
    room: u32,
) -> Result<(Result<(), Failed>, usize), AllocError> {
    let mut sink = MemSink::new(alloc, room, 700, Vec::new(alloc))?;
    let piece = vec![in alloc; b'p'; length]?;
    let mut pen = Pen::new();
    for _ in 0..3u8 {
        pen.put(&mut sink, piece.as_slice());
    }
    let answer = pen.finish(&mut sink);
    Ok((answer, sink.taken().len()))
}

#[test]
fn a_pen_writes_pieces_of_any_length(rt: HostRuntime) -> Result<(), Fail> {
    for (length, room, answer, taken) in &PIECES {
        let found = put_thrice(rt.alloc(), *length, *room)?;
        assert_eq!(rt; found, (*answer, *taken), "three pieces of {length}");
    }
    Ok(())
}
