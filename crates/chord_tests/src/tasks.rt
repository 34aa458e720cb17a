//! A task of a small code, on its happy path.
#![tactic(auto)]

ghost use Rattle.std.specs.Prelude.{◌≡◌, true, Some, IfOk};
ghost use Rattle.chord_task.specs.Standing.{view_of, MainBegins, IsTaskOf, is_ready_of};
ghost use Rattle.chord_tests.specs.Seven.{seven_code, seven_limits, seven_begun};

use chord_base::event::{Entry, Limits, What};
use chord_code::code::Code;
use chord_code::instruction::Instruction;
use chord_code::lines::Lines;
use chord_code::parts::{Block, Parts};
use chord_code::valid::valid;
use chord_task::task::Task;
use chord_vm::ask::Ask;
use std::alloc::{AllocError, Global};
use std::test::Fail;

/// Of a run of that code.
pub const LIMITS: Limits = Limits {
    events: 9,
    turns: 9,
    depth: 9,
};

/// The code of a `Main` that prints 7.
pub fn seven(alloc: Global) -> Result<Code, Fail>
    ensures { IfOk result (λ code. code ≡ seven_code) }
{
    let mut instructions = Vec::new(alloc);
    instructions.push(Instruction::Int(7))?;
    instructions.push(Instruction::Print)?;
    instructions.push(Instruction::End)?;
    let mut blocks = Vec::new(alloc);
    blocks.push(Block {
        slots: 1,
        instructions: Lines::of_items(instructions),
    })?;
    let parts = Parts {
        classes: Lines::of_items(Vec::new(alloc)),
        blocks: Lines::of_items(blocks),
    };
    if valid(&parts) {
        Ok(Code::of_parts(parts))
    } else {
        Err(Fail::from("not valid"))
    }
}

/// How many bytes the text of an ask has, if it prints one.
pub fn printed(ask: Ask) -> Option<usize> {
    match ask {
        Ask::Print(text) => Some(text.items().len()),
        _ => None,
    }
}

/// Whether a task is ready, how many bytes it prints next, and whether it is over then.
fn first_ask(
    alloc: Global,
    code: &Code,
    task: &mut Task,
) -> Result<(bool, Option<usize>, bool), AllocError>
    requires task { IsTaskOf code.now seven_limits task.old }
    requires ready { is_ready_of task.old ≡ true }
{
    let is_ready = task.is_ready();
    let first = task.ask(alloc, code, &LIMITS)?;
    Ok((is_ready, printed(first), task.over()))
}

/// The same of the task of `Main`. What it drew goes into the list.
fn first_of_main(
    alloc: Global,
    code: &Code,
    list: &mut Vec<Entry>,
) -> Result<(bool, Option<usize>, bool), AllocError>
    requires { MainBegins code.now seven_limits }
{
    let mut task = Task::main(alloc, code, &LIMITS, list)?;
    first_ask(alloc, code, &mut task)
}

/// Whether a spare task is over.
fn spare_is_over(alloc: Global, code: &Code) -> Result<bool, AllocError> {
    let spare = Task::spare(alloc, code, &LIMITS)?;
    Ok(spare.over())
}

/// What `first_of_main` says of the code that prints 7, and whether a spare task for it is over.
fn told_of_seven(
    alloc: Global,
    list: &mut Vec<Entry>,
) -> Result<(bool, Option<usize>, bool, bool), Fail> {
    let code = seven(alloc)?;
    let (is_ready, length, is_over) = first_of_main(alloc, &code, list)?;
    let spare = spare_is_over(alloc, &code)?;
    Ok((is_ready, length, is_over, spare))
}

/// The same, and how many entries the task of `Main` drew.
fn drawn_by_seven(alloc: Global) -> Result<(bool, Option<usize>, bool, bool, usize), Fail> {
    let mut list = Vec::new(alloc);
    let (is_ready, length, is_over, spare) = told_of_seven(alloc, &mut list)?;
    Ok((is_ready, length, is_over, spare, list.len()))
}

#[test]
fn main_prints(rt: HostRuntime) -> Result<(), Fail> {
    let (is_ready, length, is_over, spare, drawn) = drawn_by_seven(rt.alloc())?;
    assert!(rt; is_ready);
    assert_eq!(rt; length, Some(1));
    assert!(rt; !is_over);
    assert!(rt; spare);
    assert_eq!(rt; drawn, 1);
    Ok(())
}

/// `Main` comes to its line, room for it is reserved twice, and it becomes entry 1.
fn note_line(
    alloc: Global,
    code: &Code,
    task: &mut Task,
    list: &mut Vec<Entry>,
) -> Result<(), AllocError>
    requires code { code.now ≡ seven_code }
    requires task { IsTaskOf code.now seven_limits task.old }
    requires begun { ((view_of task.old).past ≡ seven_begun) × ((view_of task.old).top ≡ Some 0) }
    requires ready { is_ready_of task.old ≡ true }
{
    task.prepare(alloc, code, &LIMITS)?;
    task.reserve(alloc, code, list)?;
    task.reserve(alloc, code, list)?;
    task.note(1, list);
    Ok(())
}

/// The same of the task of `Main`. What it drew goes into the list.
fn note_line_of_main(alloc: Global, code: &Code, list: &mut Vec<Entry>) -> Result<(), AllocError>
    requires { code.now ≡ seven_code }
{
    let mut task = Task::main(alloc, code, &LIMITS, list)?;
    note_line(alloc, code, &mut task, list)
}

/// The number of the last of these entries and how many bytes its text has, if it is a line.
fn last_line(entries: &[Entry]) -> Option<(u32, usize)> {
    match entries.last() {
        None => None,
        Some(entry) => match &entry.what {
            What::Printed(text) => Some((entry.number, text.items().len())),
            _ => None,
        },
    }
}

/// How many entries the task of `Main` drew when its line was noted, and what `last_line` says of them.
fn noted_by_seven(alloc: Global) -> Result<(usize, Option<(u32, usize)>), Fail> {
    let code = seven(alloc)?;
    let mut list = Vec::new(alloc);
    note_line_of_main(alloc, &code, &mut list)?;
    Ok((list.len(), last_line(&list)))
}

#[test]
fn room_is_reserved_twice_before_a_note(rt: HostRuntime) -> Result<(), Fail> {
    let (drawn, line) = noted_by_seven(rt.alloc())?;
    assert_eq!(rt; drawn, 2);
    assert_eq!(rt; line, Some((1, 1)));
    Ok(())
}
