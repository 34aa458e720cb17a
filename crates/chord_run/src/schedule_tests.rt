//! Two workers of one run that play in turns, in an order that a seed gives. What they drew is put in order, and judged by the plain
//! machine of the code.
ghost use Rattle.std.specs.Prelude.{◌≡◌, ◌<◌, ◌≤◌, true, false, None, IfOk, IfSome, OnOk};
ghost use Rattle.chord_code.specs.Sound.{IsSoundCode};
ghost use Rattle.chord_rule.specs.Kinds.{newcomer_first};
ghost use Rattle.chord_space.specs.Desks.{view, IsDeskOf};
ghost use Rattle.chord_worker.specs.Resting.{IsAtRest, IsSameRole};
ghost use Rattle.chord_pool.specs.Players.{IsOneRun, IsSettled, HasStopped};

use crate::Gate;
use crate::front::code_of;
use chord_base::event::{Entry, Limits};
use chord_base::prefix::run_length;
use chord_code::code::Code;
use chord_plain::plain::Plain;
use chord_space::{Desk, Space};
use chord_task::parcel::Parcel;
use chord_word::Cell;
use chord_worker::Worker;
use std::alloc::{AllocError, Global};
use std::process::Abort;
use std::sync::Wait;
use std::test::Fail;

/// How many turns a schedule has before one worker after the other plays to its end, and how many of those each may take.
const TURNS: u32 = 60;

const LAST_TURNS: u32 = 1000;

const SEEDS: u32 = 100;

/// One message that three bodies take in turn, each putting it back.
const CELL: &str = "class Cell { public int Take() & public async Put(int n) { return n; } }
class Folk { public async Work(Cell c) { int n = c.Take(); c.Put(n + 1); } }
class Program {
  static void Main() { Cell c = new Cell(); Folk f = new Folk(); c.Put(0); f.Work(c); f.Work(c); f.Work(c); }
}
";

/// Two bodies that put, and `Main`, which gets twice.
const BUFFER: &str =
    "class Buffer { public string Get() & public async Put(string s) { return s; } }
class Folk { public async Give(Buffer b, string s) { b.Put(s); } }
class Program {
  static void Main() {
    Buffer b = new Buffer(); Folk f = new Folk(); f.Give(b, \"a\"); f.Give(b, \"b\");
    Console.WriteLine(b.Get()); Console.WriteLine(b.Get());
  }
}
";

/// A source, its limit on events, and how many entries each of its runs has: those of a complete one, counted by hand, or as many as
/// are allowed.
pub struct Case {
    pub name: &'static str,
    pub source: &'static str,
    pub events: u32,
    pub entries: u32,
}

pub const CASES: [Case; 3] = [
    Case {
        name: "cell",
        source: CELL,
        events: 64,
        entries: 26,
    },
    Case {
        name: "buffer",
        source: BUFFER,
        events: 64,
        entries: 20,
    },
    Case {
        name: "cell, spent",
        source: CELL,
        events: 17,
        entries: 17,
    },
];

/// A gate that nobody watches.
pub struct Open;

impl Gate for Open {
    fn started(&self, _body: u32) {}
}

/// The numbers of a linear congruential generator.
#[derive(Drop)]
struct Dice {
    state: u32,
}

impl Dice {
    /// The next number, below this one.
    fn below(&mut self, n: u32) -> u32
        requires { 0 < n }
        ensures { result < n }
    {
        self.state = self
            .state
            .wrapping_mul(1_664_525)
            .wrapping_add(1_013_904_223);
        (self.state >> 16) % n
    }
}

/// The code of a source.
pub fn compiled(alloc: Global, source: &str) -> Result<Code, Fail>
    ensures { IfOk result (λ code. IsSoundCode code) }
{
    let bytes = source.as_bytes();
    if bytes.len() > 1_048_576 {
        return Err(Fail::from("too long a source"));
    }
    match code_of(alloc, bytes) {
        Ok(code) => Ok(code),
        Err(_) => Err(Fail::from("a source that is refused")),
    }
}

/// Looks at the cell of number i, and starts its firing where it is ready.
fn look_at(space: &Space<Parcel>, code: &Code, limits: &Limits, worker: &mut Worker, i: u32)
    requires run { IsOneRun space.now code.now limits.now }
    requires rest { IsAtRest space.now worker.old }
    requires idle { worker.old.task ≡ None }
    requires room { (view worker.old.desk).spent ≡ false }
    requires bounds { i < space.now.events }
    ensures worker { IsSettled space.now worker.new }
    ensures role { IsSameRole (view worker.old.desk) (view worker.new.desk) }
{
    match worker.look(space, i) {
        Cell::Ready => {
            worker.start(space, code, limits, i, &Open);
        }
        _ => {}
    }
}

/// One turn of a worker: a step of its task, or a look at one cell.
fn turn<R: Wait>(
    rt: &R,
    alloc: Global,
    space: &Space<Parcel>,
    code: &Code,
    limits: &Limits,
    worker: &mut Worker,
    i: u32,
) -> Result<(), AllocError>
    requires run { IsOneRun space.now code.now limits.now }
    requires worker { IsSettled space.now worker.old }
    ensures worker { OnOk result (IsSettled space.now worker.new) }
    ensures role { OnOk result (IsSameRole (view worker.old.desk) (view worker.new.desk)) }
{
    if worker.is_spent() {
        return Ok(());
    }
    if worker.has_task() {
        worker.step(rt, alloc, space, code, limits, &Open)?;
        return Ok(());
    }
    if i < limits.events {
        look_at(space, code, limits, worker, i);
    }
    Ok(())
}

/// Plays until the worker has nothing to play. Whether it came so far.
fn play_out<R: Wait>(
    rt: &R,
    alloc: Global,
    space: &Space<Parcel>,
    code: &Code,
    limits: &Limits,
    worker: &mut Worker,
) -> Result<bool, AllocError>
    requires run { IsOneRun space.now code.now limits.now }
    requires worker { IsSettled space.now worker.old }
    ensures worker { OnOk result (IsSettled space.now worker.new) }
    ensures role { OnOk result (IsSameRole (view worker.old.desk) (view worker.new.desk)) }
    ensures over { IfOk result (λ over. over ≡ true → worker.new.task ≡ None) }
{
    for _ in 0..LAST_TURNS {
        if !worker.has_task() {
            return Ok(true);
        }
        turn(rt, alloc, space, code, limits, worker, limits.events)?;
    }
    Ok(false)
}

/// Both workers take turns as the dice say, and each looks at the cells that the dice name.
fn take_turns<R: Wait>(
    rt: &R,
    alloc: Global,
    space: &Space<Parcel>,
    code: &Code,
    limits: &Limits,
    first: &mut Worker,
    second: &mut Worker,
    dice: &mut Dice,
) -> Result<(), AllocError>
    requires run { IsOneRun space.now code.now limits.now }
    requires workers { IsSettled space.now first.old × IsSettled space.now second.old }
    requires events { 0 < limits.now.events }
    ensures workers { OnOk result (IsSettled space.now first.new × IsSettled space.now second.new) }
    ensures role { OnOk result (IsSameRole (view first.old.desk) (view first.new.desk)) }
{
    for _ in 0..TURNS {
        let i = dice.below(limits.events);
        if dice.below(2) == 0 {
            turn(rt, alloc, space, code, limits, first, i)?;
        } else {
            turn(rt, alloc, space, code, limits, second, i)?;
        }
    }
    Ok(())
}

/// The first worker takes turns alone, and looks at one cell after the other, all round.
fn sweep<R: Wait>(
    rt: &R,
    alloc: Global,
    space: &Space<Parcel>,
    code: &Code,
    limits: &Limits,
    worker: &mut Worker,
) -> Result<(), AllocError>
    requires run { IsOneRun space.now code.now limits.now }
    requires worker { IsSettled space.now worker.old }
    requires events { 0 < limits.now.events }
    ensures worker { OnOk result (IsSettled space.now worker.new) }
    ensures role { OnOk result (IsSameRole (view worker.old.desk) (view worker.new.desk)) }
{
    for i in 0..LAST_TURNS {
        turn(rt, alloc, space, code, limits, worker, i % limits.events)?;
    }
    Ok(())
}

/// The first worker and one that it hires play in turns, and then it plays alone. The first worker, with what both kept, or None where a
/// task was not over after so many turns.
fn play<R: Wait>(
    rt: &R,
    alloc: Global,
    space: &Space<Parcel>,
    code: &Code,
    limits: &Limits,
    desk: Desk<Parcel>,
    seed: u32,
) -> Result<Option<Worker>, AllocError>
    requires run { IsOneRun space.now code.now limits.now }
    requires events { 0 < limits.now.events }
    requires desk { IsDeskOf space.now desk × (view desk ≡ newcomer_first) }
    ensures last { IfOk result (λ last. IfSome last (λ w. HasStopped space.now w × ((view w.desk).first ≡ true) × ((view w.desk).lent ≡ 0))) }
{
    let mut first = Worker::main(alloc, space, code, limits, desk)?;
    let mut second = first.hired(alloc, space);
    let mut dice = Dice { state: seed };
    take_turns(
        rt,
        alloc,
        space,
        code,
        limits,
        &mut first,
        &mut second,
        &mut dice,
    )?;
    if !play_out(rt, alloc, space, code, limits, &mut second)? {
        return Ok(None);
    }
    if !play_out(rt, alloc, space, code, limits, &mut first)? {
        return Ok(None);
    }
    first.take_in(space, second)?;
    sweep(rt, alloc, space, code, limits, &mut first)?;
    if !play_out(rt, alloc, space, code, limits, &mut first)? {
        return Ok(None);
    }
    Ok(Some(first))
}

/// The entries of all lists, one behind the other.
fn entries_of(alloc: Global, lists: Vec<Vec<Entry>>) -> Result<Vec<Entry>, AllocError> {
    let mut entries = Vec::new(alloc);
    for list in lists {
        let mut list = list;
        entries.append(&mut list)?;
    }
    Ok(entries)
}

/// The entries by their numbers, from 0 on, as far as there is one.
fn in_order(alloc: Global, entries: &[Entry]) -> Result<Vec<Entry>, AllocError> {
    let mut ordered = Vec::new(alloc);
    for number in 0..entries.len() {
        for entry in entries {
            if entry.number as usize == number {
                ordered.push(entry.copied(alloc)?)?;
            }
        }
    }
    Ok(ordered)
}

/// How many entries of a schedule are a run of the code, how many are in the workers' lists, and how many were drawn.
#[derive(Clone, Copy, Debug, PartialEq, Eq)]
struct Verdict {
    run: usize,
    listed: usize,
    drawn: u32,
}

/// How many of these lists have an entry.
fn filled_among(lists: &[Vec<Entry>]) -> usize {
    let mut filled = 0usize;
    for list in lists {
        if !list.is_empty() {
            filled = filled.saturating_add(1);
        }
    }
    filled
}

/// Plays the schedule of a seed, and judges what was drawn: the verdict, and how many of the workers drew an entry.
fn judged<R: Wait>(
    rt: &R,
    alloc: Global,
    code: &Code,
    limits: &Limits,
    seed: u32,
) -> Result<(Option<Verdict>, usize), AllocError>
    requires events { (0 < limits.now.events) × (limits.now.events ≤ 65536) }
    requires depth { (0 < limits.now.depth) × (limits.now.depth ≤ 256) }
    requires sound { IsSoundCode code.now }
{
    let (space, desk) = Space::make(alloc, code, limits)?;
    match play(rt, alloc, &space, code, limits, desk, seed)? {
        None => Ok((None, 0)),
        Some(last) => {
            let (desk, lists) = last.into_parts(&space)?;
            let closed = space.close(desk);
            let drawn = closed.drawn();
            let filled = filled_among(&lists);
            let entries = entries_of(alloc, lists)?;
            let listed = entries.len();
            let ordered = in_order(alloc, &entries)?;
            let limits = *limits;
            let run = run_length(alloc, &Plain { code, limits }, &ordered)?;
            Ok((Some(Verdict { run, listed, drawn }), filled))
        }
    }
}

/// The schedules of all seeds, of one case, in some of which both workers draw.
fn schedules<R: Abort + Wait>(rt: &R, alloc: Global, case: &Case) -> Result<(), Fail> {
    let code = compiled(alloc, case.source)?;
    let events = case.events;
    if events == 0 || events > 65_536 {
        return Err(Fail::from("no limit on events"));
    }
    let limits = Limits {
        events,
        turns: 1000,
        depth: 256,
    };
    let name = case.name;
    let mut shared = 0u32;
    for seed in 0..SEEDS {
        let (verdict, filled) = judged(rt, alloc, &code, &limits, seed)?;
        assert_eq!(rt;
            verdict,
            Some(Verdict {
                run: case.entries as usize,
                listed: case.entries as usize,
                drawn: case.entries,
            }),
            "{name} {seed}"
        );
        if filled == 2 {
            shared = shared.saturating_add(1);
        }
    }
    assert!(rt; shared > 0, "{name}");
    Ok(())
}

#[test]
fn two_workers_in_turns(rt: HostRuntime) -> Result<(), Fail> {
    for case in &CASES {
        schedules(&rt, rt.alloc(), case)?;
    }
    Ok(())
}
