//! The bodies of a run of a code: tasks, and the entries that these made.
#![tactic(auto)]

ghost use Rattle.std.specs.Prelude.{◌≡◌, ◌≢◌, ◌<◌, ◌≤◌, ◌+◌, ℕ, ◌++◌, [], List, reverse, length, take, IfOk, OnOk, IfSome, IfNone, Some, None, true, false, slice_get, ◌∷◌, is_none, if◌then◌else◌};
ghost use Rattle.chord_base.specs.Bounds.{IsJournal};
ghost use Rattle.chord_base.specs.Story.{IsOwn, IsSound};
ghost use Rattle.chord_base.specs.declared.event.Entry.{Entry};
ghost use Rattle.chord_base.specs.Bodies.{served_among};
ghost use Rattle.chord_code.specs.Meaning.{code_program, method_is_sync};
ghost use Rattle.chord_lists.specs.Engine.{main_begun, IsRunOfLength, MayGoOn, Went, MayBegin, Began};
ghost use Rattle.chord_task.specs.Standing.{view_of};
ghost use Rattle.chord_lists.specs.CodeStands.{StandsAfter, StandsWith, IsCut, over_after, AreReady, AreOver, StoodOrAlone, ready_at, over_at, with_over, is_on_top, topped_by, turn_to, WentAt, HasTurnedAt, HasTurnedIfAny, KeepsOthers, IsMessageAt, AreMessagesAt, message_at, sent_arguments, sent_values, home, Serves, FitsAt, MayReplay, Replayed};

use crate::engine::Turn;
use chord_base::event::{Entry, Limits, What};
use chord_base::journal::Journal;
use chord_base::members::Members;
use chord_base::value::{Object, Value, Values};
use chord_code::code::Code;
use chord_task::task::Task;
use std::alloc::{AllocError, Global};
use std::mem;

/// The bodies of a run of a code: the tasks, the places of those that may go on, the entries of the run in order, and the task
/// that made each of them.
///
/// Each task that may go on stands in `ready`, and each that has no body left in `over`. One that stands in either and is not so
/// is passed over. A firing that serves no call begins in a task that has no body left, if there is one.
#[derive(Drop)]
pub struct CodeBodies {
    pub tasks: Vec<Task>,
    pub ready: Vec<u32>,
    pub entries: Vec<Entry>,
    pub homes: Vec<u16>,
    pub over: Vec<u32>,
}

/// What an entry is to the engine that is a message to this, or none.
fn turn_to(sent: Option<(Object, u8)>) -> Turn
    ensures { result ≡ turn_to sent }
{
    match sent {
        Some((object, method)) => Turn::Message(object, method),
        None => Turn::Plain,
    }
}

/// Whether the task of this place may go on.
fn goes_at(tasks: &[Task], at: u32) -> bool
    ensures { result ≡ ready_at tasks.now at }
{
    match tasks.get(at as usize) {
        None => false,
        Some(task) => task.is_ready(),
    }
}

/// The place of a task that may go on, the topmost in the list. It stays on top, and those above it are taken off.
pub fn next_ready(tasks: &[Task], ready: &mut Vec<u32>) -> Option<u32>
    requires { AreReady tasks.now (reverse ready.old.items) }
    ensures ready { AreReady tasks.now (reverse ready.new.items) }
    ensures cut { IsCut ready.old.items ready.new.items }
    ensures top { result ≡ slice_get (reverse ready.new.items) 0 }
    ensures some { IfSome result (λ at. ready_at tasks.now at ≡ true) }
    ensures none { IfNone result ((i : ℕ) → ready_at tasks.now i ≡ false) }
{
    while let Some(at) = ready.last() {
        let at = *at;
        if goes_at(tasks, at) {
            return Some(at);
        }
        let _ = ready.pop();
    }
    None
}

/// Whether this place is the one on top.
fn is_on_top(ready: &[u32], at: u32) -> bool
    ensures { result ≡ is_on_top at (reverse ready.now) }
{
    match ready.last() {
        None => false,
        Some(top) => *top == at,
    }
}

/// Puts the place of a task that may go on on top, if it is not there: a caller that was served at once stands there still.
#[inline(always)]
fn put_ready(ready: &mut Vec<u32>, at: u32) -> Result<(), AllocError>
    ensures { OnOk result (reverse ready.new.items ≡ topped_by at (reverse ready.old.items)) }
{
    if is_on_top(ready, at) {
        return Ok(());
    }
    ready.push(at)?;
    Ok(())
}

/// Whether the task of this place has no body left.
fn is_over_at(tasks: &[Task], at: u32) -> bool
    ensures { result ≡ over_at tasks.now at }
{
    match tasks.get(at as usize) {
        None => false,
        Some(task) => task.over(),
    }
}

/// Keeps the place of a task that has no body left.
fn keep_over(task: &Task, over: &mut Vec<u32>, at: u32) -> Result<(), AllocError>
    ensures { OnOk result (reverse over.new.items ≡ (if is_none (view_of task.now).top then at ∷ reverse over.old.items else reverse over.old.items)) }
{
    if task.over() {
        over.push(at)?;
    }
    Ok(())
}

/// The place of a task that has no body left, the topmost in the list. It is taken off, and so are those above it.
fn next_over(tasks: &[Task], over: &mut Vec<u32>) -> Option<u32>
    requires { AreOver tasks.now (reverse over.old.items) }
    ensures some { IfSome result (λ at. over_at tasks.now at ≡ true) }
    ensures cut { IfSome result (λ at. IsCut over.old.items (over.new.items ++ at ∷ [])) }
    ensures empty { IfNone result (over.new.items ≡ []) }
    ensures left { IfSome result (λ at. AreOver tasks.now (at ∷ reverse over.new.items)) }
    ensures none { IfNone result ((i : ℕ) → over_at tasks.now i ≡ false) }
{
    while let Some(at) = over.pop() {
        if is_over_at(tasks, at) {
            return Some(at);
        }
    }
    None
}

/// The place of a task as `homes` keeps it, in two bytes.
#[inline(always)]
fn as_home(at: u32) -> u16
    requires { at < 65536 }
    ensures { result ≡ at }
{
    at as u16
}

/// The task of this place makes the entry of this number.
fn make(
    alloc: Global,
    code: &Code,
    limits: &Limits,
    bodies: &mut CodeBodies,
    at: u32,
    number: u32,
) -> Result<Turn, AllocError>
    requires room { number < 65536 }
    requires sound { IsSound (code_program code.now limits.now) }
    requires ready { ready_at bodies.old.tasks.items at ≡ true }
    requires may { MayGoOn (code_program code.now limits.now) (StandsAfter code.now limits.now bodies.old) number }
    ensures went { IfOk result (λ turn. (h : List Entry) → IsRunOfLength (code_program code.now limits.now) number h → StandsAfter code.now limits.now bodies.old h → WentAt (code_program code.now limits.now) bodies.old.tasks.items at (StandsAfter code.now limits.now bodies.new) h turn) }
    ensures ready { OnOk result (bodies.new.ready.items ≡ bodies.old.ready.items) }
    ensures homed { OnOk result (bodies.new.homes.items ≡ bodies.old.homes.items ++ at ∷ []) }
    ensures over { OnOk result (reverse bodies.new.over.items ≡ with_over bodies.new.tasks.items at (reverse bodies.old.over.items)) }
    ensures tasks { OnOk result (length bodies.new.tasks.items ≡ length bodies.old.tasks.items) }
    ensures turned { OnOk result (HasTurnedAt code.now limits.now bodies.old.tasks.items bodies.new.tasks.items at number) }
{
    let _parts = code.parts();
    let task = &mut bodies.tasks[at as usize];
    let sent = task.turn(alloc, code, limits, number, &mut bodies.entries)?;
    keep_over(task, &mut bodies.over, at)?;
    bodies.homes.push(as_home(at))?;
    Ok(turn_to(sent))
}

/// The bodies of a run in which `Main` has just begun.
pub fn begin_run(alloc: Global, code: &Code, limits: &Limits) -> Result<CodeBodies, AllocError>
    requires sound { IsSound (code_program code.now limits.now) }
    ensures stands { IfOk result (λ bodies. StandsAfter code.now limits.now bodies main_begun) }
    ensures ready { IfOk result (λ bodies. bodies.ready.items ≡ 0 ∷ []) }
    ensures over { IfOk result (λ bodies. bodies.over.items ≡ []) }
{
    let events = limits.events as usize;
    // meant, and said by no clause: where there is room for all that the run may come to, nothing is moved later
    let mut entries = Vec::new(alloc);
    let _ = entries.reserve(events);
    let main = Task::main(alloc, code, limits, &mut entries)?;
    let mut tasks = Vec::new(alloc);
    tasks.push(main)?;
    let mut ready = Vec::new(alloc);
    ready.push(0)?;
    let mut homes = Vec::new(alloc);
    let _ = homes.reserve(events);
    homes.push(0)?;
    Ok(CodeBodies {
        tasks,
        ready,
        entries,
        homes,
        over: Vec::new(alloc),
    })
}

/// Some body makes the entry of this number.
pub fn go_on(
    alloc: Global,
    code: &Code,
    limits: &Limits,
    bodies: &mut CodeBodies,
    number: u32,
) -> Result<Turn, AllocError>
    requires room { number < 65536 }
    requires sound { IsSound (code_program code.now limits.now) }
    requires may { MayGoOn (code_program code.now limits.now) (StandsAfter code.now limits.now bodies.old) number }
    ensures went { IfOk result (λ turn. Went (code_program code.now limits.now) (StandsAfter code.now limits.now bodies.old) (StandsAfter code.now limits.now bodies.new) number turn) }
    ensures cut { OnOk result (IsCut bodies.old.ready.items bodies.new.ready.items) }
    ensures top { OnOk result (bodies.new.homes.items ≡ bodies.old.homes.items ++ take 1 (reverse bodies.new.ready.items)) }
    ensures over { OnOk result (reverse bodies.new.over.items ≡ over_after bodies.new.tasks.items (slice_get (reverse bodies.new.ready.items) 0) (reverse bodies.old.over.items)) }
    ensures tasks { OnOk result (length bodies.new.tasks.items ≡ length bodies.old.tasks.items) }
    ensures turned { OnOk result (HasTurnedIfAny code.now limits.now bodies.old.tasks.items bodies.new.tasks.items (slice_get (reverse bodies.new.ready.items) 0) number) }
{
    match next_ready(&bodies.tasks, &mut bodies.ready) {
        None => Ok(Turn::Over),
        Some(at) => {
            let turn = make(alloc, code, limits, bodies, at, number)?;
            Ok(turn)
        }
    }
}

/// The journal of all that the bodies did.
pub fn journal_of(bodies: CodeBodies) -> Journal
    requires { IsJournal bodies.entries.items }
    ensures { result ≡ bodies.entries.items }
{
    let CodeBodies {
        tasks: _,
        ready: _,
        entries,
        homes: _,
        over: _,
    } = bodies;
    Journal::of_entries(entries)
}

/// The call that a firing of these methods and members serves.
pub fn served_by(code: &Code, class: u16, methods: &[u8], numbers: &[u16]) -> Option<u32>
    requires { length methods.now ≡ length numbers.now }
    ensures { result ≡ served_among (method_is_sync code.now class) methods.now numbers.now }
{
    for (i, method) in methods.iter().enumerate() {
        if code.is_sync(class, *method) {
            return Some(u32::from(numbers[i]));
        }
    }
    None
}

/// The task that made the entry of this number.
fn home_of(homes: &[u16], number: u32) -> u32
    requires { number < length homes.now }
    ensures { result ≡ home homes.now number }
{
    homes[number as usize] as u32
}

/// Adds copies of these values. A lone number that comes first is written where it comes to stand.
#[inline(always)]
fn add_list(alloc: Global, values: &mut Values, more: &[Value]) -> Result<(), AllocError>
    requires { length values.old + length more.now ≤ 64 }
    ensures { OnOk result (values.new ≡ values.old ++ more.now) }
{
    if let [Value::Int(number)] = more {
        if values.items().is_empty() {
            // there is nothing to drop, which an assignment would look for
            mem::forget(mem::replace(values, Values::one(Value::Int(*number))));
            return Ok(());
        }
    }
    values.add_copies(alloc, more)
}

/// Adds the arguments of the message that is the entry of this number.
#[inline(always)]
fn add_arguments(
    alloc: Global,
    values: &mut Values,
    entries: &[Entry],
    number: u32,
) -> Result<(), AllocError>
    requires there { IsMessageAt entries.now number }
    requires few { length values.old + length (sent_arguments (message_at entries.now number)) ≤ 64 }
    ensures { OnOk result (values.new ≡ values.old ++ sent_arguments (message_at entries.now number)) }
{
    match &entries[number as usize].what {
        What::Sent(_, _, arguments) => add_list(alloc, values, arguments.items()),
        What::Called(_, _, arguments) => add_list(alloc, values, arguments.items()),
        _ => unreachable!(),
    }
}

/// Adds the arguments of these messages, one after another.
#[inline(always)]
fn add_all_arguments(
    alloc: Global,
    values: &mut Values,
    entries: &[Entry],
    members: &[u16],
) -> Result<(), AllocError>
    requires there { AreMessagesAt entries.now members.now }
    requires few { length (sent_values entries.now members.now) ≤ 64 }
    requires none { values.old ≡ [] }
    ensures { OnOk result (values.new ≡ sent_values entries.now members.now) }
{
    for number in members {
        add_arguments(alloc, values, entries, u32::from(*number))?;
    }
    Ok(())
}

/// Begins the body of a firing in the task of this place: above the caller that it serves, or where no body is left. All other
/// tasks that have none stand in `over`.
#[inline(always)]
fn begin_at(
    alloc: Global,
    code: &Code,
    limits: &Limits,
    bodies: &mut CodeBodies,
    number: u32,
    chord: u16,
    object: Object,
    members: &mut Members,
    at: u32,
) -> Result<(), AllocError>
    requires room { number < 65536 }
    requires sound { IsSound (code_program code.now limits.now) }
    requires may { MayBegin (code_program code.now limits.now) (StandsWith code.now limits.now bodies.old (at ∷ reverse bodies.old.over.items)) number chord object members.old }
    requires fits { FitsAt (code_program code.now limits.now) bodies.old chord object members.old at }
    ensures began { IfOk result (λ _. Began (code_program code.now limits.now) (StandsWith code.now limits.now bodies.old (at ∷ reverse bodies.old.over.items)) (StandsAfter code.now limits.now bodies.new) number chord object members.old) }
    ensures ready { OnOk result (reverse bodies.new.ready.items ≡ topped_by at (reverse bodies.old.ready.items)) }
    ensures top { OnOk result (bodies.new.homes.items ≡ bodies.old.homes.items ++ take 1 (reverse bodies.new.ready.items)) }
    ensures over { OnOk result (bodies.new.over.items ≡ bodies.old.over.items) }
    ensures tasks { OnOk result (length bodies.new.tasks.items ≡ length bodies.old.tasks.items) }
    ensures others { OnOk result (KeepsOthers bodies.old.tasks.items bodies.new.tasks.items at) }
{
    let _parts = code.parts();
    let mut values = Values::none();
    add_all_arguments(alloc, &mut values, &bodies.entries, members.items())?;
    bodies.entries.reserve(1)?;
    let task = &mut bodies.tasks[at as usize];
    task.resume_with(
        alloc,
        code,
        number,
        chord,
        object,
        members,
        &mut values,
        &mut bodies.entries,
    )?;
    put_ready(&mut bodies.ready, at)?;
    bodies.homes.push(as_home(at))?;
    Ok(())
}

/// The place of one more task.
fn place_after(tasks: &[Task]) -> u32
    requires { length tasks.now < 65536 }
    ensures place { result ≡ length tasks.now }
    ensures room { result < 65536 }
{
    tasks.len() as u32
}

/// Begins the body of a firing that serves no caller in a task of its own.
#[inline(never)]
fn begin_alone(
    alloc: Global,
    code: &Code,
    limits: &Limits,
    bodies: &mut CodeBodies,
    number: u32,
    chord: u16,
    object: Object,
    members: &mut Members,
) -> Result<(), AllocError>
    requires room { number < 65536 }
    requires sound { IsSound (code_program code.now limits.now) }
    requires may { MayBegin (code_program code.now limits.now) (StandsAfter code.now limits.now bodies.old) number chord object members.old }
    requires call { Serves (code_program code.now limits.now) chord object members.old None }
    ensures began { IfOk result (λ _. Began (code_program code.now limits.now) (StandsAfter code.now limits.now bodies.old) (StandsAfter code.now limits.now bodies.new) number chord object members.old) }
    ensures ready { OnOk result (reverse bodies.new.ready.items ≡ topped_by (length bodies.old.tasks.items) (reverse bodies.old.ready.items)) }
    ensures top { OnOk result (bodies.new.homes.items ≡ bodies.old.homes.items ++ take 1 (reverse bodies.new.ready.items)) }
    ensures over { OnOk result (bodies.new.over.items ≡ bodies.old.over.items) }
    ensures tasks { OnOk result (length bodies.new.tasks.items ≡ length bodies.old.tasks.items + 1) }
    ensures others { OnOk result (KeepsOthers bodies.old.tasks.items bodies.new.tasks.items (length bodies.old.tasks.items)) }
{
    let at = place_after(&bodies.tasks);
    let _parts = code.parts();
    let mut values = Values::none();
    add_all_arguments(alloc, &mut values, &bodies.entries, members.items())?;
    bodies.entries.reserve(1)?;
    let mut task = Task::spare(alloc, code, limits)?;
    task.resume_with(
        alloc,
        code,
        number,
        chord,
        object,
        members,
        &mut values,
        &mut bodies.entries,
    )?;
    bodies.tasks.push(task)?;
    put_ready(&mut bodies.ready, at)?;
    bodies.homes.push(as_home(at))?;
    Ok(())
}

/// Begins the body of a firing that serves this call, if it serves one.
pub fn begin_body(
    alloc: Global,
    code: &Code,
    limits: &Limits,
    bodies: &mut CodeBodies,
    number: u32,
    chord: u16,
    object: Object,
    members: &mut Members,
    served: Option<u32>,
) -> Result<(), AllocError>
    requires room { number < 65536 }
    requires sound { IsSound (code_program code.now limits.now) }
    requires may { MayBegin (code_program code.now limits.now) (StandsAfter code.now limits.now bodies.old) number chord object members.old }
    requires call { Serves (code_program code.now limits.now) chord object members.old served }
    ensures began { IfOk result (λ _. Began (code_program code.now limits.now) (StandsAfter code.now limits.now bodies.old) (StandsAfter code.now limits.now bodies.new) number chord object members.old) }
    ensures top { OnOk result (bodies.new.homes.items ≡ bodies.old.homes.items ++ take 1 (reverse bodies.new.ready.items)) }
    ensures ready { OnOk result (reverse bodies.new.ready.items ≡ topped_by (home bodies.new.homes.items number) (reverse bodies.old.ready.items)) }
    ensures over { OnOk result (IsCut bodies.old.over.items bodies.new.over.items) }
    ensures kept { OnOk result (served ≢ None → bodies.new.over.items ≡ bodies.old.over.items) }
    ensures reuse { OnOk result (StoodOrAlone bodies.old.tasks.items bodies.new.tasks.items served) }
    ensures others { OnOk result (KeepsOthers bodies.old.tasks.items bodies.new.tasks.items (home bodies.new.homes.items number)) }
{
    match served {
        Some(call) => {
            let at = home_of(&bodies.homes, call);
            begin_at(
                alloc, code, limits, bodies, number, chord, object, members, at,
            )?;
            Ok(())
        }
        None => match next_over(&bodies.tasks, &mut bodies.over) {
            Some(at) => {
                begin_at(
                    alloc, code, limits, bodies, number, chord, object, members, at,
                )?;
                Ok(())
            }
            None => {
                begin_alone(alloc, code, limits, bodies, number, chord, object, members)?;
                Ok(())
            }
        },
    }
}

/// The body of this entry makes it again.
pub fn repeat(
    alloc: Global,
    code: &Code,
    limits: &Limits,
    bodies: &mut CodeBodies,
    entry: &Entry,
) -> Result<(), AllocError>
    requires room { entry.now.number < 65536 }
    requires sound { IsSound (code_program code.now limits.now) }
    requires own { IsOwn entry.now.what }
    requires may { MayReplay (code_program code.now limits.now) (StandsAfter code.now limits.now bodies.old) entry.now }
    ensures replayed { IfOk result (λ _. Replayed (code_program code.now limits.now) (StandsAfter code.now limits.now bodies.old) (StandsAfter code.now limits.now bodies.new) entry.now) }
    ensures ready { OnOk result (bodies.new.ready.items ≡ bodies.old.ready.items) }
    ensures homed { OnOk result (bodies.new.homes.items ≡ bodies.old.homes.items ++ home bodies.old.homes.items entry.now.body ∷ []) }
    ensures over { OnOk result (reverse bodies.new.over.items ≡ with_over bodies.new.tasks.items (home bodies.old.homes.items entry.now.body) (reverse bodies.old.over.items)) }
    ensures tasks { OnOk result (length bodies.new.tasks.items ≡ length bodies.old.tasks.items) }
    ensures turned { OnOk result (HasTurnedAt code.now limits.now bodies.old.tasks.items bodies.new.tasks.items (home bodies.old.homes.items entry.now.body) entry.now.number) }
{
    let at = home_of(&bodies.homes, entry.body);
    let _ = make(alloc, code, limits, bodies, at, entry.number)?;
    Ok(())
}
