//! The asks of a body by the machine alone: its line, and its end behind the answer.
#![tactic(auto)]

ghost use Rattle.std.specs.Prelude.{◌≡◌, OnOk};
ghost use Rattle.chord_vm.specs.Frames.{machine_of};
ghost use Rattle.chord_tests.specs.Seven.{seven_code, seven_at};

use crate::tasks::{LIMITS, printed, seven};
use chord_base::event::End;
use chord_base::hand::Hand;
use chord_base::value::Value;
use chord_code::code::Code;
use chord_vm::ask::Ask;
use chord_vm::frames::{Frames, answer, begin, blank, reserve};
use chord_vm::step::advance;
use std::alloc::{AllocError, Global};
use std::test::Fail;

/// `Main` runs to its line, which is answered: how many bytes the line has.
fn line(alloc: Global, code: &Code, frames: &mut Frames) -> Result<Option<usize>, AllocError>
    requires code { code.now ≡ seven_code }
    requires begun { machine_of frames.old ≡ seven_at 0 }
    ensures answered { OnOk result (machine_of frames.new ≡ seven_at 2) }
{
    let length = printed(advance(alloc, code, frames, &LIMITS)?);
    reserve(alloc, frames)?;
    answer(frames, Value::Unit);
    Ok(length)
}

/// Whether `Main` runs to its end, with the unit value.
fn ends(alloc: Global, code: &Code, frames: &mut Frames) -> Result<bool, AllocError>
    requires code { code.now ≡ seven_code }
    requires answered { machine_of frames.old ≡ seven_at 2 }
{
    match advance(alloc, code, frames, &LIMITS)? {
        Ask::End(End::Gives(Value::Unit)) => Ok(true),
        _ => Ok(false),
    }
}

/// How many bytes the line of `Main` has, and whether it ends behind it.
fn asks(alloc: Global, code: &Code) -> Result<(Option<usize>, bool), AllocError>
    requires { code.now ≡ seven_code }
{
    let mut frames = blank(alloc, code, &LIMITS)?;
    begin(code, &mut frames, 0, Value::Unit, Hand::new(), 1);
    let length = line(alloc, code, &mut frames)?;
    let ended = ends(alloc, code, &mut frames)?;
    Ok((length, ended))
}

#[test]
fn main_asks_for_a_line_and_its_end(rt: HostRuntime) -> Result<(), Fail> {
    let code = seven(rt.alloc())?;
    assert_eq!(rt; asks(rt.alloc(), &code)?, (Some(1), true));
    Ok(())
}
