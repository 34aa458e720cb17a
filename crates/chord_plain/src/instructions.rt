//! What each instruction does to the frames of a body, or that it is not defined there.
#![tactic(auto)]

ghost use Rattle.std.specs.Prelude.{◌≡◌, ℕ, ◌+◌, ◌^◌, ◌<◌, ◌≤◌, ◌∷◌, [], IfOk, Some, slice_get};
ghost use Rattle.chord_code.specs.Within.{IsInstructionWithin};
ghost use Rattle.chord_code.specs.Machine.{act, operate as operate_of, negates, denies, skips, again as again_of, if_deeper, makes_object, builder_of as the_builder_of, init_by, goes_back, loads, store_top, pop_top, pops, send_by, call_by, print_top, end_with, pushed};
ghost use Rattle.chord_vm.specs.Frames.{machine_of};
ghost use Rattle.chord_plain.specs.Effects.{IsEffect};

use crate::effect::Effect;
use crate::entering::{begin_above, framed};
use crate::moves::{after, ask, end_by, go_on, go_to, push_on};
use crate::operands::{computed, has_text, takes};
use crate::stack::{copied, pop, pop_message, push, set};
use chord_base::event::{End, Trap, What};
use chord_base::operation::{Operation, printed};
use chord_base::value::Value;
use chord_code::awaited::Awaited;
use chord_code::instruction::Instruction;
use chord_code::parts::Parts;
use chord_vm::frames::Frames;
use std::alloc::{AllocError, Global};
use std::mem;

/// `load`.
fn load(alloc: Global, frames: &mut Frames, slot: usize) -> Result<Effect, AllocError>
    requires fits { frames.old.top.place + 1 < 2 ^ 64 }
    ensures { IfOk result (λ effect. IsEffect (loads (machine_of frames.old) (slice_get frames.old.top.slots.items slot)) effect frames.new) }
{
    match frames.top.slots.get(slot) {
        None => Ok(Effect::GoesWrong),
        Some(value) => {
            let value = value.copied(alloc)?;
            push_on(frames, value)
        }
    }
}

/// `store`.
fn store(frames: &mut Frames, slot: usize) -> Effect
    requires fits { frames.old.top.place + 1 < 2 ^ 64 }
    ensures { IsEffect (store_top slot (machine_of frames.old) (machine_of frames.old).top.stack) result frames.new }
{
    match pop(&mut frames.top.stack) {
        None => Effect::GoesWrong,
        Some(value) => {
            if !set(&mut frames.top.slots, slot, value) {
                return Effect::GoesWrong;
            }
            go_on(frames)
        }
    }
}

/// `drop`.
fn let_go(frames: &mut Frames) -> Effect
    requires fits { frames.old.top.place + 1 < 2 ^ 64 }
    ensures { IsEffect (pop_top (machine_of frames.old) (machine_of frames.old).top.stack) result frames.new }
{
    match pop(&mut frames.top.stack) {
        None => Effect::GoesWrong,
        Some(_) => go_on(frames),
    }
}

/// `neg`.
fn negate_top(frames: &mut Frames) -> Result<Effect, AllocError>
    requires fits { frames.old.top.place + 1 < 2 ^ 64 }
    ensures { IfOk result (λ effect. IsEffect (negates (machine_of frames.old) (machine_of frames.old).top.stack) effect frames.new) }
{
    match pop(&mut frames.top.stack) {
        Some(Value::Int(number)) => push_on(frames, Value::Int(number.wrapping_neg())),
        _ => Ok(Effect::GoesWrong),
    }
}

/// `not`.
fn deny_top(frames: &mut Frames) -> Result<Effect, AllocError>
    requires fits { frames.old.top.place + 1 < 2 ^ 64 }
    ensures { IfOk result (λ effect. IsEffect (denies (machine_of frames.old) (machine_of frames.old).top.stack) effect frames.new) }
{
    match pop(&mut frames.top.stack) {
        Some(Value::Flag(flag)) => push_on(frames, Value::Flag(!flag)),
        _ => Ok(Effect::GoesWrong),
    }
}

/// The operators of two operands. The right one stands on top.
fn operate(alloc: Global, frames: &mut Frames, operation: Operation) -> Result<Effect, AllocError>
    requires fits { frames.old.top.place + 1 < 2 ^ 64 }
    ensures { IfOk result (λ effect. IsEffect (operate_of operation (machine_of frames.old) (machine_of frames.old).top.stack) effect frames.new) }
{
    let Some(right) = pop(&mut frames.top.stack) else {
        return Ok(Effect::GoesWrong);
    };
    let Some(left) = pop(&mut frames.top.stack) else {
        return Ok(Effect::GoesWrong);
    };
    operate_on(alloc, frames, operation, left, right)
}

/// The same, with the operands that were popped. Where a trap comes in place of a value they are on the stack again.
fn operate_on(
    alloc: Global,
    frames: &mut Frames,
    operation: Operation,
    left: Value,
    right: Value,
) -> Result<Effect, AllocError>
    requires fits { frames.old.top.place + 1 < 2 ^ 64 }
    ensures { IfOk result (λ effect. IsEffect (operate_of operation (pushed (machine_of frames.old) right (left ∷ (machine_of frames.old).top.stack)) (right ∷ left ∷ (machine_of frames.old).top.stack)) effect frames.new) }
{
    if !takes(operation, &left, &right) {
        return Ok(Effect::GoesWrong);
    }
    match computed(alloc, operation, &left, &right)? {
        Ok(value) => push_on(frames, value),
        Err(trap) => {
            push(&mut frames.top.stack, left)?;
            push(&mut frames.top.stack, right)?;
            Ok(end_by(frames, End::Traps(trap)))
        }
    }
}

/// `skip`.
fn skip(frames: &mut Frames, to: usize) -> Effect
    requires fits { frames.old.top.place + 1 < 2 ^ 64 }
    ensures { IsEffect (skips to (machine_of frames.old) (machine_of frames.old).top.stack) result frames.new }
{
    match pop(&mut frames.top.stack) {
        Some(Value::Flag(true)) => go_on(frames),
        Some(Value::Flag(false)) => go_to(frames, to),
        _ => Effect::GoesWrong,
    }
}

/// `again`.
fn again(frames: &mut Frames, to: usize) -> Result<Effect, AllocError>
    requires fits { frames.old.top.place + 1 < 2 ^ 64 }
    ensures { IfOk result (λ effect. IsEffect (again_of to (machine_of frames.old) (machine_of frames.old).top.stack) effect frames.new) }
{
    match pop(&mut frames.top.stack) {
        Some(Value::Flag(true)) => {
            if frames.turns == 0 {
                push(&mut frames.top.stack, Value::Flag(true))?;
                return Ok(end_by(frames, End::Traps(Trap::OutOfTurns)));
            }
            frames.turns -= 1;
            Ok(go_to(frames, to))
        }
        Some(Value::Flag(false)) => Ok(go_on(frames)),
        _ => Ok(Effect::GoesWrong),
    }
}

/// `send`.
fn send(alloc: Global, frames: &mut Frames, method: u8, n: usize) -> Result<Effect, AllocError>
    requires fits { frames.old.top.place + 1 < 2 ^ 64 }
    requires few { n ≤ 8 }
    ensures { IfOk result (λ effect. IsEffect (send_by method (machine_of frames.old) (pops n [] (machine_of frames.old).top.stack)) effect frames.new) }
{
    match pop_message(alloc, &mut frames.top.stack, n)? {
        None => Ok(Effect::GoesWrong),
        Some((object, arguments)) => {
            let what = What::Sent(object, method, arguments);
            Ok(ask(frames, what, Awaited::ForNothing))
        }
    }
}

/// `call` where a call may go deeper.
fn call_deeper(
    alloc: Global,
    frames: &mut Frames,
    method: u8,
    n: usize,
) -> Result<Effect, AllocError>
    requires fits { frames.old.top.place + 1 < 2 ^ 64 }
    requires few { n ≤ 8 }
    requires room { 0 < frames.old.top.room }
    ensures { IfOk result (λ effect. IsEffect (call_by method (machine_of frames.old) (pops n [] (machine_of frames.old).top.stack)) effect frames.new) }
{
    match pop_message(alloc, &mut frames.top.stack, n)? {
        None => Ok(Effect::GoesWrong),
        Some((object, arguments)) => {
            let what = What::Called(object, method, arguments);
            Ok(ask(frames, what, Awaited::ForValue))
        }
    }
}

/// `call` at the depth limit. The operands are looked at first, and stay.
fn call_too_deep(alloc: Global, frames: &mut Frames, n: usize) -> Result<Effect, AllocError>
    requires few { n ≤ 8 }
    requires room { frames.old.top.room ≡ 0 }
    ensures { (j : ℕ) → IfOk result (λ effect. IsEffect (call_by j (machine_of frames.old) (pops n [] (machine_of frames.old).top.stack)) effect frames.new) }
{
    let mut stack = copied(alloc, &frames.top.stack)?;
    match pop_message(alloc, &mut stack, n)? {
        None => Ok(Effect::GoesWrong),
        Some(_) => Ok(end_by(frames, End::Traps(Trap::TooDeep))),
    }
}

/// `call`.
fn call(alloc: Global, frames: &mut Frames, method: u8, n: usize) -> Result<Effect, AllocError>
    requires fits { frames.old.top.place + 1 < 2 ^ 64 }
    requires few { n ≤ 8 }
    ensures { IfOk result (λ effect. IsEffect (call_by method (machine_of frames.old) (pops n [] (machine_of frames.old).top.stack)) effect frames.new) }
{
    if frames.top.room == 0 {
        return call_too_deep(alloc, frames, n);
    }
    call_deeper(alloc, frames, method, n)
}

/// The builder of a class, a block and its slots, where the class has one. None where a class or a block is not there.
fn builder_of(parts: &Parts, class: u16) -> Option<Option<(u32, u32)>>
    ensures { result ≡ the_builder_of parts.now class }
{
    match parts.classes.items().get(class as usize) {
        None => None,
        Some(line) => match line.builder {
            None => Some(None),
            Some(number) => match parts.blocks.items().get(number as usize) {
                None => None,
                Some(block) => Some(Some((number, block.slots))),
            },
        },
    }
}

/// `new`. The arguments stay on the stack until the object is there.
fn make(parts: &Parts, frames: &mut Frames, class: u16, n: u32) -> Effect
    requires fits { frames.old.top.place + 1 < 2 ^ 64 }
    ensures { IsEffect (if_deeper frames.old.top.room (machine_of frames.old) (makes_object class n (machine_of frames.old) (the_builder_of parts.now class))) result frames.new }
{
    if frames.top.room == 0 {
        return end_by(frames, End::Traps(Trap::TooDeep));
    }
    match builder_of(parts, class) {
        None => Effect::GoesWrong,
        Some(builder) => ask(frames, What::Made(class), Awaited::ForObject(builder, n)),
    }
}

/// `init`: the builder of the base class begins.
fn init(alloc: Global, parts: &Parts, frames: &mut Frames, class: u16) -> Result<Effect, AllocError>
    requires fits { frames.old.top.place + 1 < 2 ^ 64 }
    ensures { IfOk result (λ effect. IsEffect (init_by (machine_of frames.old) (slice_get frames.old.top.slots.items 0) (the_builder_of parts.now class)) effect frames.new) }
{
    match frames.top.slots.get(0) {
        None => Ok(Effect::GoesWrong),
        Some(this) => {
            let this = this.copied(alloc)?;
            match builder_of(parts, class) {
                Some(Some((block, slots))) => {
                    enter(alloc, frames, block as usize, slots as usize, this)
                }
                _ => Ok(Effect::GoesWrong),
            }
        }
    }
}

/// A builder's block begins on `this` alone, above the block at work.
fn enter(
    alloc: Global,
    frames: &mut Frames,
    block: usize,
    slots: usize,
    this: Value,
) -> Result<Effect, AllocError>
    requires fits { frames.old.top.place + 1 < 2 ^ 64 }
    ensures { IfOk result (λ effect. IsEffect (init_by (machine_of frames.old) (Some this) (Some (Some (block, slots)))) effect frames.new) }
{
    let values = vec![in alloc; this]?;
    let room = frames.top.room;
    match framed(alloc, block, slots, room, values)? {
        None => Ok(Effect::GoesWrong),
        Some(fresh) => {
            frames.top.place = after(frames.top.place);
            begin_above(frames, fresh)?;
            Ok(Effect::GoesOn)
        }
    }
}

/// Prints the text of the value on top.
fn print(alloc: Global, frames: &mut Frames) -> Result<Effect, AllocError>
    requires fits { frames.old.top.place + 1 < 2 ^ 64 }
    ensures { IfOk result (λ effect. IsEffect (print_top (machine_of frames.old) (machine_of frames.old).top.stack) effect frames.new) }
{
    match pop(&mut frames.top.stack) {
        None => Ok(Effect::GoesWrong),
        Some(value) => {
            if !has_text(&value) {
                return Ok(Effect::GoesWrong);
            }
            let text = printed(alloc, &value)?;
            Ok(ask(frames, What::Printed(text), Awaited::ForNothing))
        }
    }
}

/// `endv`. The value stays on the stack.
fn end_with_top(alloc: Global, frames: &mut Frames) -> Result<Effect, AllocError>
    ensures { IfOk result (λ effect. IsEffect (end_with (machine_of frames.old) (machine_of frames.old).top.stack) effect frames.new) }
{
    match pop(&mut frames.top.stack) {
        None => Ok(Effect::GoesWrong),
        Some(value) => {
            let given = value.copied(alloc)?;
            push(&mut frames.top.stack, value)?;
            Ok(end_by(frames, End::Gives(given)))
        }
    }
}

/// `back`.
fn go_back(frames: &mut Frames) -> Effect
    ensures { IsEffect (goes_back (machine_of frames.old) (machine_of frames.old).below) result frames.new }
{
    match frames.below.pop() {
        None => Effect::GoesWrong,
        Some(frame) => {
            let _ = mem::replace(&mut frames.top, frame);
            Effect::GoesOn
        }
    }
}

/// One instruction.
pub(crate) fn step(
    alloc: Global,
    parts: &Parts,
    frames: &mut Frames,
    instruction: &Instruction,
) -> Result<Effect, AllocError>
    requires fits { frames.old.top.place + 1 < 2 ^ 64 }
    requires within { IsInstructionWithin instruction.now }
    ensures { IfOk result (λ effect. IsEffect (act parts.now (Some instruction.now) (machine_of frames.old)) effect frames.new) }
{
    match instruction {
        Instruction::Int(number) => push_on(frames, Value::Int(*number)),
        Instruction::Flag(flag) => push_on(frames, Value::Flag(*flag)),
        Instruction::Text(text) => {
            let text = text.copied(alloc)?;
            push_on(frames, Value::Text(text))
        }
        Instruction::Load(slot) => load(alloc, frames, *slot as usize),
        Instruction::Store(slot) => Ok(store(frames, *slot as usize)),
        Instruction::Drop => Ok(let_go(frames)),
        Instruction::Neg => negate_top(frames),
        Instruction::Not => deny_top(frames),
        Instruction::Add => operate(alloc, frames, Operation::Add),
        Instruction::Sub => operate(alloc, frames, Operation::Subtract),
        Instruction::Mul => operate(alloc, frames, Operation::Multiply),
        Instruction::Div => operate(alloc, frames, Operation::Divide),
        Instruction::Rem => operate(alloc, frames, Operation::Remainder),
        Instruction::Cat => operate(alloc, frames, Operation::Join),
        Instruction::Eq => operate(alloc, frames, Operation::Equal),
        Instruction::Ne => operate(alloc, frames, Operation::NotEqual),
        Instruction::Lt => operate(alloc, frames, Operation::Less),
        Instruction::Le => operate(alloc, frames, Operation::LessOrEqual),
        Instruction::Gt => operate(alloc, frames, Operation::Greater),
        Instruction::Ge => operate(alloc, frames, Operation::GreaterOrEqual),
        Instruction::Jump(to) => Ok(go_to(frames, *to as usize)),
        Instruction::Skip(to) => Ok(skip(frames, *to as usize)),
        Instruction::Again(to) => again(frames, *to as usize),
        Instruction::New(class, n) => Ok(make(parts, frames, *class, *n)),
        Instruction::Init(class) => init(alloc, parts, frames, *class),
        Instruction::Send(method, n) => send(alloc, frames, *method, *n as usize),
        Instruction::Call(method, n) => call(alloc, frames, *method, *n as usize),
        Instruction::Print => print(alloc, frames),
        Instruction::End => Ok(end_by(frames, End::Gives(Value::Unit))),
        Instruction::Endv => end_with_top(alloc, frames),
        Instruction::Back => Ok(go_back(frames)),
    }
}
