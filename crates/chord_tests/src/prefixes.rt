//! Whole journals and changed ones: how many of their entries are a run.

use chord_base::event::{End, Entry, Trap, What};
use chord_base::listed::{Class, Listed, Tale};
use chord_base::meaning::{Next, Start};
use chord_base::members::Members;
use chord_base::prefix::run_length;
use chord_base::text::Text;
use chord_base::value::{MAX_VALUES, Object, Value, Values};
use std::alloc::Global;
use std::process::Abort;
use std::test::Fail;

const FIRST: Object = Object {
    number: 1,
    class: 0,
};

const SECOND: Object = Object {
    number: 2,
    class: 0,
};

/// A text, by name.
#[derive(Clone, Copy)]
enum Word {
    Hi,
    Ho,
    Before,
    One,
    Two,
}

/// A value, written short.
#[derive(Clone, Copy)]
enum Part {
    Unit,
    Int(i32),
    Text(Word),
    Ref(Object),
}

/// At most two values, written short.
#[derive(Clone, Copy)]
enum Parts {
    None,
    One(Part),
    Two(Part, Part),
}

/// The members of a firing, written short.
#[derive(Clone, Copy)]
enum Taken {
    One(u16),
    Two(u16, u16),
}

/// An end, written short.
#[derive(Clone, Copy)]
enum Ends {
    Gives(Part),
    Traps(Trap),
}

/// What an entry says, written short.
#[derive(Clone, Copy)]
enum Says {
    Begun,
    Made,
    Sent(Object, u8, Parts),
    Called(Object, u8, Parts),
    Printed(Word),
    Fired(u16, Object, Taken, Parts),
    Ended(Ends),
}

/// An entry, written short: its number, its body, and what it says.
type Line = (u32, u32, Says);

fn bytes_of(word: Word) -> &'static [u8] {
    match word {
        Word::Hi => b"hi",
        Word::Ho => b"ho",
        Word::Before => b"before",
        Word::One => b"1",
        Word::Two => b"2",
    }
}

fn text(alloc: Global, word: Word) -> Result<Text, Fail> {
    Ok(Text::of_bytes(alloc, bytes_of(word)).ok().ok_or("no text")?)
}

fn value(alloc: Global, part: Part) -> Result<Value, Fail> {
    match part {
        Part::Unit => Ok(Value::Unit),
        Part::Int(number) => Ok(Value::Int(number)),
        Part::Text(word) => Ok(Value::Text(text(alloc, word)?)),
        Part::Ref(object) => Ok(Value::Ref(object)),
    }
}

fn values(alloc: Global, parts: Parts) -> Result<Values, Fail> {
    let mut list = Vec::new(alloc);
    match parts {
        Parts::None => {}
        Parts::One(part) => list.push(value(alloc, part)?)?,
        Parts::Two(first, second) => {
            list.push(value(alloc, first)?)?;
            list.push(value(alloc, second)?)?;
        }
    }
    if list.len() > MAX_VALUES {
        return Err(Fail::from("too many values"));
    }
    Ok(Values::of_items(list))
}

fn members(taken: Taken) -> Members {
    let mut members = Members::new();
    match taken {
        Taken::One(number) => members.push(number),
        Taken::Two(first, second) => {
            members.push(first);
            members.push(second);
        }
    }
    members
}

fn end(alloc: Global, ends: Ends) -> Result<End, Fail> {
    match ends {
        Ends::Gives(part) => Ok(End::Gives(value(alloc, part)?)),
        Ends::Traps(trap) => Ok(End::Traps(trap)),
    }
}

fn what(alloc: Global, says: Says) -> Result<What, Fail> {
    match says {
        Says::Begun => Ok(What::Begun),
        Says::Made => Ok(What::Made(0)),
        Says::Sent(object, method, parts) => Ok(What::Sent(object, method, values(alloc, parts)?)),
        Says::Called(object, method, parts) => Ok(What::Called(
            object,
            method,
            values(alloc, parts)?,
        )),
        Says::Printed(word) => Ok(What::Printed(text(alloc, word)?)),
        Says::Fired(chord, object, taken, parts) => Ok(What::Fired(
            chord,
            object,
            members(taken),
            values(alloc, parts)?,
        )),
        Says::Ended(ends) => Ok(What::Ended(end(alloc, ends)?)),
    }
}

/// The journal of these lines, but with another line at one place.
fn journal(alloc: Global, lines: &[Line], place: usize, other: Line) -> Result<Vec<Entry>, Fail> {
    let mut entries = Vec::new(alloc);
    for i in 0..lines.len() {
        let (number, body, says) = if i == place { other } else { lines[i] };
        let what = what(alloc, says)?;
        entries.push(Entry { number, body, what })?;
    }
    Ok(entries)
}

/// How many entries of that journal are a run.
fn length(
    alloc: Global,
    program: &Listed,
    lines: &[Line],
    place: usize,
    other: Line,
) -> Result<usize, Fail> {
    let entries = journal(alloc, lines, place, other)?;
    Ok(run_length(alloc, program, &entries)?)
}

fn asks_of(alloc: Global, depth: u32, asks: &[Says]) -> Result<Vec<Next>, Fail> {
    let mut list = Vec::new(alloc);
    for says in asks {
        let what = what(alloc, *says)?;
        list.push(Next { what, depth })?;
    }
    Ok(list)
}

fn answers_of(alloc: Global, answers: &[Ends]) -> Result<Vec<End>, Fail> {
    let mut list = Vec::new(alloc);
    for ends in answers {
        list.push(end(alloc, *ends)?)?;
    }
    Ok(list)
}

/// How a body begins, written short: as `Main`, or as the body of a chord of the first object with these arguments.
#[derive(Clone, Copy)]
enum Begins {
    Main,
    Chord(u16, Parts),
}

fn start(alloc: Global, begins: Begins) -> Result<Start, Fail> {
    match begins {
        Begins::Main => Ok(Start::Main),
        Begins::Chord(chord, arguments) => Ok(Start::Chord(
            chord,
            FIRST,
            values(alloc, arguments)?,
        )),
    }
}

/// A body, written short: how it begins and at which depth, what it asks in turn, and the answers that it gets.
type Told = (Begins, u32, &'static [Says], &'static [Ends]);

fn tale(alloc: Global, told: &Told) -> Result<Tale, Fail> {
    let (begins, depth, asks, answers) = told;
    let asks = asks_of(alloc, *depth, asks)?;
    let answers = answers_of(alloc, answers)?;
    Ok(Tale {
        start: start(alloc, *begins)?,
        depth: u64::from(*depth),
        asks,
        answers,
    })
}

/// A program of no body, whose one class has no chord and a method 0 with callers that wait.
fn program(alloc: Global) -> Result<Listed, Fail> {
    let mut waits = Vec::new(alloc);
    waits.push(true)?;
    let mut classes = Vec::new(alloc);
    classes.push(Class {
        chords: Vec::new(alloc),
        waits,
    })?;
    Ok(Listed {
        tales: Vec::new(alloc),
        classes,
    })
}

/// One more chord of the class.
fn chord(program: &mut Listed, alloc: Global, methods: &[u8]) -> Result<(), Fail> {
    let methods = Vec::from_slice(alloc, methods)?;
    program
        .classes
        .get_mut(0)
        .ok_or("no class")?
        .chords
        .push(methods)?;
    Ok(())
}

/// The program of these bodies, whose one class has these chords.
fn listed(alloc: Global, chords: &[&[u8]], tales: &[Told]) -> Result<Listed, Fail> {
    let mut program = program(alloc)?;
    for methods in chords {
        chord(&mut program, alloc, methods)?;
    }
    for told in tales {
        program.tales.push(tale(alloc, told)?)?;
    }
    Ok(program)
}

/// A changed journal: its name, the place and the line that is put there, and how many of its entries are a run.
type Case = (&'static str, usize, Line, usize);

fn is_run_of(rt: &impl Abort, name: &str, found: usize, expected: usize) {
    assert_eq!(rt; found, expected, "{name}");
}

/// Of each case so many entries are a run.
fn judge(
    rt: &impl Abort,
    alloc: Global,
    program: &Listed,
    lines: &[Line],
    cases: &[Case],
) -> Result<(), Fail> {
    for (name, place, other, expected) in cases {
        let found = length(alloc, program, lines, *place, *other)?;
        is_run_of(rt, name, found, *expected);
    }
    Ok(())
}

const HI: Parts = Parts::One(Part::Text(Word::Hi));

const GIVES_HI: Ends = Ends::Gives(Part::Text(Word::Hi));

const GIVES_UNIT: Ends = Ends::Gives(Part::Unit);

const GIVES_FIRST: Ends = Ends::Gives(Part::Ref(FIRST));

const GIVES_SECOND: Ends = Ends::Gives(Part::Ref(SECOND));

const BUFFER_LINES: [Line; 8] = [
    (0, 0, Says::Begun),
    (1, 0, Says::Made),
    (2, 0, Says::Sent(FIRST, 1, HI)),
    (3, 0, Says::Called(FIRST, 0, Parts::None)),
    (4, 4, Says::Fired(0, FIRST, Taken::Two(3, 2), HI)),
    (5, 4, Says::Ended(GIVES_HI)),
    (6, 0, Says::Printed(Word::Hi)),
    (7, 0, Says::Ended(GIVES_UNIT)),
];

const BUFFER_CASES: [Case; 12] = [
    ("as it is", 0, (0, 0, Says::Begun), 8),
    (
        "members in the wrong order",
        4,
        (4, 4, Says::Fired(0, FIRST, Taken::Two(2, 3), HI)),
        4,
    ),
    (
        "one message twice",
        4,
        (4, 4, Says::Fired(0, FIRST, Taken::Two(3, 3), HI)),
        4,
    ),
    (
        "a member that is no message",
        4,
        (4, 4, Says::Fired(0, FIRST, Taken::Two(3, 1), HI)),
        4,
    ),
    (
        "a member less",
        4,
        (4, 4, Says::Fired(0, FIRST, Taken::One(3), Parts::None)),
        4,
    ),
    (
        "no arguments",
        4,
        (4, 4, Says::Fired(0, FIRST, Taken::Two(3, 2), Parts::None)),
        4,
    ),
    (
        "no such chord",
        4,
        (4, 4, Says::Fired(1, FIRST, Taken::Two(3, 2), HI)),
        4,
    ),
    (
        "a firing of another body",
        4,
        (4, 0, Says::Fired(0, FIRST, Taken::Two(3, 2), HI)),
        4,
    ),
    (
        "the end of `Main` for that of the chord's body",
        5,
        (5, 0, Says::Ended(GIVES_HI)),
        5,
    ),
    ("a wrong number", 6, (7, 0, Says::Printed(Word::Hi)), 6),
    ("another line", 6, (6, 0, Says::Printed(Word::Ho)), 6),
    ("a second beginning", 6, (6, 6, Says::Begun), 6),
];

/// The chords of the class of `buffer`.
const BUFFER_CHORDS: [&[u8]; 1] = [&[0, 1]];

/// The bodies of `buffer`.
const BUFFER_TALES: [Told; 2] = [
    (
        Begins::Main,
        1,
        &[
            Says::Made,
            Says::Sent(FIRST, 1, HI),
            Says::Called(FIRST, 0, Parts::None),
            Says::Printed(Word::Hi),
            Says::Ended(GIVES_UNIT),
        ],
        &[GIVES_FIRST, GIVES_UNIT, GIVES_HI, GIVES_UNIT],
    ),
    (Begins::Chord(0, HI), 2, &[Says::Ended(GIVES_HI)], &[]),
];

/// `Main` makes a buffer, puts `hi` into it, gets it and prints it.
#[test]
fn buffer(rt: HostRuntime) -> Result<(), Fail> {
    let program = listed(rt.alloc(), &BUFFER_CHORDS, &BUFFER_TALES)?;
    judge(&rt, rt.alloc(), &program, &BUFFER_LINES, &BUFFER_CASES)
}

const PARKED_MAIN_LINES: [Line; 4] = [
    (0, 0, Says::Begun),
    (1, 0, Says::Made),
    (2, 0, Says::Called(FIRST, 0, Parts::None)),
    (3, 0, Says::Ended(GIVES_UNIT)),
];

const PARKED_MAIN_CASES: [Case; 3] = [
    (
        "the end of a body that waits",
        3,
        (3, 0, Says::Ended(GIVES_UNIT)),
        3,
    ),
    (
        "a chord that lacks a message",
        3,
        (3, 3, Says::Fired(0, FIRST, Taken::One(2), Parts::None)),
        3,
    ),
    (
        "one message in two places",
        3,
        (3, 3, Says::Fired(0, FIRST, Taken::Two(2, 2), Parts::None)),
        3,
    ),
];

const PARKED_MAIN_ALONE: [Case; 1] = [("as it is", 0, (0, 0, Says::Begun), 3)];

/// The chords of the class of `parked_main`.
const PARKED_MAIN_CHORDS: [&[u8]; 1] = [&[0, 1]];

/// The bodies of `parked_main`.
const PARKED_MAIN_TALES: [Told; 1] = [(
    Begins::Main,
    1,
    &[
        Says::Made,
        Says::Called(FIRST, 0, Parts::None),
        Says::Ended(GIVES_UNIT),
    ],
    &[GIVES_FIRST, GIVES_UNIT],
)];

/// `Main` gets from a buffer into which nothing was put, and waits.
#[test]
fn parked_main(rt: HostRuntime) -> Result<(), Fail> {
    let program = listed(rt.alloc(), &PARKED_MAIN_CHORDS, &PARKED_MAIN_TALES)?;
    let parked = &PARKED_MAIN_LINES[..3];
    judge(&rt, rt.alloc(), &program, parked, &PARKED_MAIN_ALONE)?;
    judge(
        &rt,
        rt.alloc(),
        &program,
        &PARKED_MAIN_LINES,
        &PARKED_MAIN_CASES,
    )
}

const BY_ZERO: Ends = Ends::Traps(Trap::DivideByZero);

const ONE_BY_ZERO: Parts = Parts::Two(Part::Int(1), Part::Int(0));

const DIVISION_LINES: [Line; 7] = [
    (0, 0, Says::Begun),
    (1, 0, Says::Made),
    (2, 0, Says::Printed(Word::Before)),
    (3, 0, Says::Called(FIRST, 0, ONE_BY_ZERO)),
    (4, 4, Says::Fired(0, FIRST, Taken::One(3), ONE_BY_ZERO)),
    (5, 4, Says::Ended(BY_ZERO)),
    (6, 0, Says::Ended(BY_ZERO)),
];

const DIVISION_CASES: [Case; 4] = [
    ("as it is", 0, (0, 0, Says::Begun), 7),
    (
        "another trap than the caller got",
        6,
        (6, 0, Says::Ended(Ends::Traps(Trap::TooDeep))),
        6,
    ),
    ("the caller ends first", 5, (5, 0, Says::Ended(BY_ZERO)), 5),
    (
        "arguments in another order",
        4,
        (
            4,
            4,
            Says::Fired(
                0,
                FIRST,
                Taken::One(3),
                Parts::Two(Part::Int(0), Part::Int(1)),
            ),
        ),
        4,
    ),
];

/// The chords of the class of `division_trap_through_a_call`.
const DIVISION_CHORDS: [&[u8]; 1] = [&[0]];

/// The bodies of `division_trap_through_a_call`.
const DIVISION_TALES: [Told; 2] = [
    (
        Begins::Main,
        1,
        &[
            Says::Made,
            Says::Printed(Word::Before),
            Says::Called(FIRST, 0, ONE_BY_ZERO),
            Says::Ended(BY_ZERO),
        ],
        &[GIVES_FIRST, GIVES_UNIT, BY_ZERO],
    ),
    (
        Begins::Chord(0, ONE_BY_ZERO),
        2,
        &[Says::Ended(BY_ZERO)],
        &[],
    ),
];

/// A method divides 1 by 0 for `Main`, which has printed `before`.
#[test]
fn division_trap_through_a_call(rt: HostRuntime) -> Result<(), Fail> {
    let program = listed(rt.alloc(), &DIVISION_CHORDS, &DIVISION_TALES)?;
    judge(&rt, rt.alloc(), &program, &DIVISION_LINES, &DIVISION_CASES)
}

const TOO_DEEP: Ends = Ends::Traps(Trap::TooDeep);

const ONE: Parts = Parts::One(Part::Int(1));

const TWO: Parts = Parts::One(Part::Int(2));

const DEEP_LINES: [Line; 9] = [
    (0, 0, Says::Begun),
    (1, 0, Says::Made),
    (2, 0, Says::Called(FIRST, 0, ONE)),
    (3, 3, Says::Fired(0, FIRST, Taken::One(2), ONE)),
    (4, 3, Says::Called(FIRST, 0, TWO)),
    (5, 5, Says::Fired(0, FIRST, Taken::One(4), TWO)),
    (6, 5, Says::Ended(TOO_DEEP)),
    (7, 3, Says::Ended(TOO_DEEP)),
    (8, 0, Says::Ended(TOO_DEEP)),
];

const DEEP_CASES: [Case; 4] = [
    ("as it is", 0, (0, 0, Says::Begun), 9),
    (
        "a caller ends before the body that serves it",
        6,
        (6, 3, Says::Ended(TOO_DEEP)),
        6,
    ),
    ("a body ends twice", 7, (7, 5, Says::Ended(TOO_DEEP)), 7),
    (
        "the end skips a caller",
        7,
        (7, 0, Says::Ended(TOO_DEEP)),
        7,
    ),
];

/// The chords of the class of `too_deep_in_small`.
const DEEP_CHORDS: [&[u8]; 1] = [&[0]];

/// The bodies of `too_deep_in_small`.
const DEEP_TALES: [Told; 3] = [
    (
        Begins::Main,
        1,
        &[
            Says::Made,
            Says::Called(FIRST, 0, ONE),
            Says::Ended(TOO_DEEP),
        ],
        &[GIVES_FIRST, TOO_DEEP],
    ),
    (
        Begins::Chord(0, ONE),
        2,
        &[Says::Called(FIRST, 0, TWO), Says::Ended(TOO_DEEP)],
        &[TOO_DEEP],
    ),
    (Begins::Chord(0, TWO), 3, &[Says::Ended(TOO_DEEP)], &[]),
];

/// A method calls itself until the depth limit, here 3.
#[test]
fn too_deep_in_small(rt: HostRuntime) -> Result<(), Fail> {
    let program = listed(rt.alloc(), &DEEP_CHORDS, &DEEP_TALES)?;
    judge(&rt, rt.alloc(), &program, &DEEP_LINES, &DEEP_CASES)
}

const ANOTHER_OBJECT_LINES: [Line; 6] = [
    (0, 0, Says::Begun),
    (1, 0, Says::Made),
    (2, 0, Says::Made),
    (3, 0, Says::Sent(FIRST, 1, HI)),
    (4, 0, Says::Called(SECOND, 0, Parts::None)),
    (5, 5, Says::Fired(0, SECOND, Taken::Two(4, 3), HI)),
];

const ANOTHER_OBJECT_CASES: [Case; 2] = [
    (
        "a message of another object",
        5,
        (5, 5, Says::Fired(0, SECOND, Taken::Two(4, 3), HI)),
        5,
    ),
    (
        "the message of the object",
        5,
        (5, 5, Says::Fired(1, FIRST, Taken::One(3), HI)),
        6,
    ),
];

/// The chords of the class of `another_object`.
const ANOTHER_OBJECT_CHORDS: [&[u8]; 2] = [&[0, 1], &[1]];

/// The bodies of `another_object`.
const ANOTHER_OBJECT_TALES: [Told; 1] = [(
    Begins::Main,
    1,
    &[
        Says::Made,
        Says::Made,
        Says::Sent(FIRST, 1, HI),
        Says::Called(SECOND, 0, Parts::None),
    ],
    &[GIVES_FIRST, GIVES_SECOND, GIVES_UNIT],
)];

/// `Main` makes two objects, puts into the first and gets from the second.
#[test]
fn another_object(rt: HostRuntime) -> Result<(), Fail> {
    let program = listed(rt.alloc(), &ANOTHER_OBJECT_CHORDS, &ANOTHER_OBJECT_TALES)?;
    judge(
        &rt,
        rt.alloc(),
        &program,
        &ANOTHER_OBJECT_LINES,
        &ANOTHER_OBJECT_CASES,
    )
}

const INT_ONE: Part = Part::Int(1);

const INT_TWO: Part = Part::Int(2);

const START: Says = Says::Sent(FIRST, 1, Parts::None);

const CALL: Says = Says::Called(FIRST, 0, Parts::One(INT_ONE));

const TWO_CALLERS_LINES: [Line; 11] = [
    (0, 0, Says::Begun),
    (1, 0, Says::Made),
    (2, 0, START),
    (3, 0, CALL),
    (4, 4, Says::Fired(1, FIRST, Taken::One(2), Parts::None)),
    (5, 4, Says::Called(FIRST, 0, Parts::One(INT_TWO))),
    (
        6,
        6,
        Says::Fired(0, FIRST, Taken::One(3), Parts::One(INT_ONE)),
    ),
    (
        7,
        7,
        Says::Fired(0, FIRST, Taken::One(5), Parts::One(INT_TWO)),
    ),
    (8, 7, Says::Ended(Ends::Gives(INT_TWO))),
    (9, 6, Says::Ended(Ends::Gives(INT_ONE))),
    (10, 0, Says::Printed(Word::One)),
];

const TWO_CALLERS_CASES: [Case; 4] = [
    ("each caller gets its own", 0, (0, 0, Says::Begun), 11),
    (
        "`Main` gets the end of the other body",
        10,
        (10, 0, Says::Printed(Word::Two)),
        10,
    ),
    (
        "a message taken twice",
        10,
        (10, 10, Says::Fired(1, FIRST, Taken::One(2), Parts::None)),
        10,
    ),
    (
        "`Main` goes on at the end of the other body",
        9,
        (9, 0, Says::Printed(Word::Two)),
        9,
    ),
];

/// The chords of the class of `two_callers`.
const TWO_CALLERS_CHORDS: [&[u8]; 2] = [&[0], &[1]];

/// The bodies of `two_callers`.
const TWO_CALLERS_TALES: [Told; 5] = [
    (
        Begins::Main,
        1,
        &[Says::Made, START, CALL, Says::Printed(Word::One)],
        &[GIVES_FIRST, GIVES_UNIT, Ends::Gives(INT_ONE)],
    ),
    (
        Begins::Main,
        1,
        &[Says::Made, START, CALL, Says::Printed(Word::Two)],
        &[GIVES_FIRST, GIVES_UNIT, Ends::Gives(INT_TWO)],
    ),
    (
        Begins::Chord(1, Parts::None),
        1,
        &[Says::Called(FIRST, 0, Parts::One(INT_TWO))],
        &[],
    ),
    (
        Begins::Chord(0, Parts::One(INT_ONE)),
        2,
        &[Says::Ended(Ends::Gives(INT_ONE))],
        &[],
    ),
    (
        Begins::Chord(0, Parts::One(INT_TWO)),
        2,
        &[Says::Ended(Ends::Gives(INT_TWO))],
        &[],
    ),
];

/// Two bodies call one method at a time, each with its own number, and get it back; the second is served first.
#[test]
fn two_callers(rt: HostRuntime) -> Result<(), Fail> {
    let program = listed(rt.alloc(), &TWO_CALLERS_CHORDS, &TWO_CALLERS_TALES)?;
    judge(
        &rt,
        rt.alloc(),
        &program,
        &TWO_CALLERS_LINES,
        &TWO_CALLERS_CASES,
    )
}
