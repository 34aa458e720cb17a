//! The instructions of a block at work.
#![tactic(auto)]

ghost use Rattle.std.specs.Prelude.{◌≡◌, ◌≢◌, ◌⊎◌, suc, ◌+◌, ◌^◌, ◌<◌, ◌≤◌, true, false, [], Option, IfOk, OnOk, OnErr, Some, None, slice_get};
ghost use Rattle.chord_base.specs.Operators.{text_of};
ghost use Rattle.chord_code.specs.Valid.{IsValid};
ghost use Rattle.chord_code.specs.Within.{IsInstructionWithin};
ghost use Rattle.chord_code.specs.Machine.{Did, Goes, step as step_of, Bad, act, operate as operate_of, negates, denies, skips, again as again_of, if_deeper, makes_object, builder_of, init_by, fetch, ComesToAsk, loads, store_top, pops, pop_top, send_by, call_by, print_top, end_with};
ghost use Rattle.chord_vm.specs.Frames.{shown_frame, machine_of, HasStepped, frame_with, Advanced, changes_block, instructions_in, with_pushed, takes_memory, IsInStock, RunsOut};
ghost use Rattle.chord_vm.specs.declared.frames.Frames.{Frames as TheFrames};
ghost use Rattle.chord_vm.specs.declared.ask.Ask.{Ask as AnAsk};

use crate::ask::{Ask, clear_ask, put_ask};
use crate::frames::{Frame, Frames, back, enter, move_last, push, push_reserved, take};
use crate::fused::{AtOnce, load_at_once, stores_at_once};
use crate::numbers::{operate_on, operator_of, put_value};
use chord_base::event::{End, Limits, Trap};
use chord_base::operation::{Operation, compute, deny, negate, printed};
use chord_base::text::Text;
use chord_base::value::{Value, Values};
use chord_code::awaited::Awaited;
use chord_code::code::Code;
use chord_code::instruction::Instruction;
use chord_code::parts::Parts;
use std::alloc::{AllocError, Global};
use std::mem;

/// What comes after an instruction. It is one byte, so that each arm of the machine's loop goes straight on.
enum After {
    /// The body goes on in the same block.
    Goes,
    /// The body goes on, in another block perhaps.
    Moves,
    /// Its ask was put beside: an ask is large, and is moved once in a while, and not with each instruction.
    Asks,
    /// No memory was found.
    Fails,
}

/// The body goes on, if memory was found.
#[inline(always)]
fn went(done: Result<(), AllocError>) -> After
    ensures stepped { (d : Did) (f : TheFrames) (asked : Option AnAsk) → OnOk done (d ≡ Goes (machine_of f)) → HasStepped d result asked f }
{
    match done {
        Ok(()) => After::Goes,
        Err(_) => After::Fails,
    }
}

/// The body goes on in a block that came to work, if memory was found.
#[inline(always)]
fn moved(done: Result<(), AllocError>) -> After
    ensures stepped { (d : Did) (f : TheFrames) (asked : Option AnAsk) → OnOk done (d ≡ Goes (machine_of f)) → HasStepped d result asked f }
    ensures elsewhere { result ≢ After.Goes }
{
    match done {
        Ok(()) => After::Moves,
        Err(_) => After::Fails,
    }
}

/// Pops values, so many, and gives them in the order in which they were pushed.
#[inline(never)]
fn take_all(alloc: Global, frame: &mut Frame, n: usize) -> Result<Values, AllocError>
    requires few { n ≤ 8 }
    requires some { pops n [] (shown_frame frame.old).stack ≢ None }
    ensures values { IfOk result (λ xs. pops n [] (shown_frame frame.old).stack ≡ Some (xs, (shown_frame frame.new).stack)) }
    ensures rest { IfOk result (λ xs. shown_frame frame.new ≡ frame_with (shown_frame frame.old) frame.old.place (shown_frame frame.new).stack (shown_frame frame.old).slots) }
{
    let mut xs = Vec::with_capacity(alloc, n)?;
    move_last(&mut frame.stack, &mut xs, n);
    Ok(Values::of_items(xs))
}

/// One instruction.
#[inline(always)]
fn step(
    alloc: Global,
    parts: &Parts,
    frames: &mut Frames,
    instruction: &Instruction,
    asked: &mut Option<Ask>,
) -> After
    requires fits { frames.old.top.place + 1 < 2 ^ 64 }
    requires within { IsInstructionWithin instruction.now }
    requires sound { act parts.now (Some instruction.now) (machine_of frames.old) ≢ Bad }
    requires empty { asked.old ≡ None }
    ensures stepped { HasStepped (act parts.now (Some instruction.now) (machine_of frames.old)) result asked.new frames.new }
    ensures unasked { result ≢ After.Asks → asked.new ≡ asked.old }
    ensures stays { result ≡ After.Goes → changes_block instruction.now ≡ false }
    ensures lean { result ≡ After.Fails → takes_memory instruction.now ≡ true }
    ensures stocked { instruction.now ≡ Instruction.Back → IsInStock frames.old.top frames.new.builder }
{
    match instruction {
        Instruction::Int(number) => return went(push_value(frames, Value::Int(*number))),
        Instruction::Flag(flag) => return went(push_value(frames, Value::Flag(*flag))),
        Instruction::Text(text) => return went(push_text(alloc, frames, text)),
        Instruction::Load(slot) => return went(load(alloc, frames, *slot as usize)),
        Instruction::Store(slot) => store(frames, *slot as usize),
        Instruction::Drop => drop_top(frames),
        Instruction::Neg => negated_top(frames),
        Instruction::Not => denied_top(frames),
        Instruction::Add => return operate(alloc, frames, Operation::Add, asked),
        Instruction::Sub => return operate(alloc, frames, Operation::Subtract, asked),
        Instruction::Mul => return operate(alloc, frames, Operation::Multiply, asked),
        Instruction::Div => return operate(alloc, frames, Operation::Divide, asked),
        Instruction::Rem => return operate(alloc, frames, Operation::Remainder, asked),
        Instruction::Cat => return operate(alloc, frames, Operation::Join, asked),
        Instruction::Eq => return operate(alloc, frames, Operation::Equal, asked),
        Instruction::Ne => return operate(alloc, frames, Operation::NotEqual, asked),
        Instruction::Lt => return operate(alloc, frames, Operation::Less, asked),
        Instruction::Le => return operate(alloc, frames, Operation::LessOrEqual, asked),
        Instruction::Gt => return operate(alloc, frames, Operation::Greater, asked),
        Instruction::Ge => return operate(alloc, frames, Operation::GreaterOrEqual, asked),
        Instruction::Jump(to) => frames.top.place = *to as usize,
        Instruction::Skip(to) => skip(frames, *to as usize),
        Instruction::Again(to) => return again(frames, *to as usize, asked),
        Instruction::New(class, n) => return make(parts, frames, *class, *n, asked),
        Instruction::Init(class) => return moved(init(alloc, parts, frames, *class)),
        Instruction::Send(method, n) => return send(alloc, frames, *method, *n as usize, asked),
        Instruction::Call(method, n) => return call(alloc, frames, *method, *n as usize, asked),
        Instruction::Print => return print(alloc, frames, asked),
        Instruction::End => return end(asked),
        Instruction::Endv => return end_with_top(frames, asked),
        Instruction::Back => {
            back(frames);
            return After::Moves;
        }
    }
    After::Goes
}

/// A trap ends the body.
#[inline(never)]
fn ends_by(trap: Trap, asked: &mut Option<Ask>) -> After
    requires empty { asked.old ≡ None }
    ensures { (result ≡ After.Asks) × (asked.new ≡ Some (Ask.End (End.Traps trap))) }
{
    put_ask(asked, Ask::End(End::Traps(trap)));
    After::Asks
}

/// `end`.
#[inline(never)]
fn end(asked: &mut Option<Ask>) -> After
    requires empty { asked.old ≡ None }
    ensures { (result ≡ After.Asks) × (asked.new ≡ Some (Ask.End (End.Gives Value.Unit))) }
{
    put_ask(asked, Ask::End(End::Gives(Value::Unit)));
    After::Asks
}

/// `endv`.
#[inline(always)]
fn end_with_top(frames: &mut Frames, asked: &mut Option<Ask>) -> After
    requires sound { end_with (machine_of frames.old) (machine_of frames.old).top.stack ≢ Bad }
    requires empty { asked.old ≡ None }
    ensures stepped { HasStepped (end_with (machine_of frames.old) (machine_of frames.old).top.stack) result asked.new frames.new }
    ensures unasked { result ≢ After.Asks → asked.new ≡ asked.old }
    ensures never { result ≢ After.Fails }
{
    let value = take(&mut frames.top);
    put_ask(asked, Ask::End(End::Gives(value)));
    After::Asks
}

/// `text`.
#[inline(never)]
fn push_text(alloc: Global, frames: &mut Frames, text: &Text) -> Result<(), AllocError>
    requires { frames.old.top.place + 1 < 2 ^ 64 }
    ensures { OnOk result (loads (machine_of frames.old) (Some (Value.Text text.now)) ≡ Goes (machine_of frames.new)) }
{
    let text = text.copied(alloc)?;
    push_value(frames, Value::Text(text))
}

/// `drop`.
#[inline(never)]
fn drop_top(frames: &mut Frames)
    requires fits { frames.old.top.place + 1 < 2 ^ 64 }
    requires sound { pop_top (machine_of frames.old) (machine_of frames.old).top.stack ≢ Bad }
    ensures { pop_top (machine_of frames.old) (machine_of frames.old).top.stack ≡ Goes (machine_of frames.new) }
{
    let _ = take(&mut frames.top);
    frames.top.place += 1;
}

/// `int` and `flag`.
#[inline(always)]
fn push_value(frames: &mut Frames, value: Value) -> Result<(), AllocError>
    requires { frames.old.top.place + 1 < 2 ^ 64 }
    ensures { OnOk result (loads (machine_of frames.old) (Some value) ≡ Goes (machine_of frames.new)) }
{
    push(&mut frames.top, value)
}

/// `neg`.
#[inline(never)]
fn negated_top(frames: &mut Frames)
    requires fits { frames.old.top.place + 1 < 2 ^ 64 }
    requires sound { negates (machine_of frames.old) (machine_of frames.old).top.stack ≢ Bad }
    ensures { negates (machine_of frames.old) (machine_of frames.old).top.stack ≡ Goes (machine_of frames.new) }
{
    let value = take(&mut frames.top);
    push_reserved(&mut frames.top, negate(value));
}

/// `not`.
#[inline(never)]
fn denied_top(frames: &mut Frames)
    requires fits { frames.old.top.place + 1 < 2 ^ 64 }
    requires sound { denies (machine_of frames.old) (machine_of frames.old).top.stack ≢ Bad }
    ensures { denies (machine_of frames.old) (machine_of frames.old).top.stack ≡ Goes (machine_of frames.new) }
{
    let value = take(&mut frames.top);
    push_reserved(&mut frames.top, deny(value));
}

/// The text that a value prints. A text is moved.
fn into_text(alloc: Global, value: Value) -> Result<Text, AllocError>
    requires { text_of value ≢ None }
    ensures { IfOk result (λ text. text_of value ≡ Some text) }
{
    match value {
        Value::Text(text) => Ok(text),
        other => printed(alloc, &other),
    }
}

/// `print`.
#[inline(never)]
fn print(alloc: Global, frames: &mut Frames, asked: &mut Option<Ask>) -> After
    requires fits { frames.old.top.place + 1 < 2 ^ 64 }
    requires sound { print_top (machine_of frames.old) (machine_of frames.old).top.stack ≢ Bad }
    requires empty { asked.old ≡ None }
    ensures stepped { HasStepped (print_top (machine_of frames.old) (machine_of frames.old).top.stack) result asked.new frames.new }
    ensures unasked { result ≢ After.Asks → asked.new ≡ asked.old }
{
    let value = take(&mut frames.top);
    let Ok(text) = into_text(alloc, value) else {
        return After::Fails;
    };
    frames.top.place += 1;
    frames.awaited = Awaited::ForNothing;
    put_ask(asked, Ask::Print(text));
    After::Asks
}

/// A copy of a value that may be a text is pushed.
#[inline(never)]
fn push_copy(alloc: Global, frames: &mut Frames, slot: usize) -> Result<(), AllocError>
    requires fits { frames.old.top.place + 1 < 2 ^ 64 }
    requires sound { loads (machine_of frames.old) (slice_get frames.old.top.slots.items slot) ≢ Bad }
    ensures { OnOk result (loads (machine_of frames.old) (slice_get frames.old.top.slots.items slot) ≡ Goes (machine_of frames.new)) }
{
    match frames.top.slots.get(slot) {
        None => unreachable!(),
        Some(value) => {
            let value = value.copied(alloc)?;
            push_value(frames, value)
        }
    }
}

/// `load` of what is no number. An object is written where it is pushed.
#[inline(always)]
fn load_other(alloc: Global, frames: &mut Frames, slot: usize) -> Result<(), AllocError>
    requires fits { frames.old.top.place + 1 < 2 ^ 64 }
    requires sound { loads (machine_of frames.old) (slice_get frames.old.top.slots.items slot) ≢ Bad }
    ensures { OnOk result (loads (machine_of frames.old) (slice_get frames.old.top.slots.items slot) ≡ Goes (machine_of frames.new)) }
{
    match &frames.top.slots[slot] {
        Value::Ref(object) => {
            let object = *object;
            push_value(frames, Value::Ref(object))
        }
        _ => push_copy(alloc, frames, slot),
    }
}

/// `load`. A number is looked for first, and written where it is pushed.
#[inline(always)]
fn load(alloc: Global, frames: &mut Frames, slot: usize) -> Result<(), AllocError>
    requires fits { frames.old.top.place + 1 < 2 ^ 64 }
    requires sound { loads (machine_of frames.old) (slice_get frames.old.top.slots.items slot) ≢ Bad }
    ensures { OnOk result (loads (machine_of frames.old) (slice_get frames.old.top.slots.items slot) ≡ Goes (machine_of frames.new)) }
{
    match &frames.top.slots[slot] {
        Value::Int(number) => {
            let number = *number;
            push_value(frames, Value::Int(number))
        }
        _ => load_other(alloc, frames, slot),
    }
}

/// `store`.
#[inline(always)]
fn store(frames: &mut Frames, i: usize)
    requires fits { frames.old.top.place + 1 < 2 ^ 64 }
    requires sound { store_top i (machine_of frames.old) (machine_of frames.old).top.stack ≢ Bad }
    ensures { store_top i (machine_of frames.old) (machine_of frames.old).top.stack ≡ Goes (machine_of frames.new) }
{
    let v = take(&mut frames.top);
    put_value(&mut frames.top.slots[i], v);
    frames.top.place += 1;
}

/// The operators of two operands. The right one stands on top.
#[inline(always)]
fn operate(
    alloc: Global,
    frames: &mut Frames,
    operation: Operation,
    asked: &mut Option<Ask>,
) -> After
    requires fits { frames.old.top.place + 1 < 2 ^ 64 }
    requires sound { operate_of operation (machine_of frames.old) (machine_of frames.old).top.stack ≢ Bad }
    requires empty { asked.old ≡ None }
    ensures stepped { HasStepped (operate_of operation (machine_of frames.old) (machine_of frames.old).top.stack) result asked.new frames.new }
    ensures unasked { result ≢ After.Asks → asked.new ≡ asked.old }
    ensures lean { operation ≢ Operation.Join → result ≢ After.Fails }
{
    let right = take(&mut frames.top);
    let left = take(&mut frames.top);
    match compute(alloc, operation, left, right) {
        Ok(Ok(value)) => {
            push_reserved(&mut frames.top, value);
            After::Goes
        }
        Ok(Err(trap)) => ends_by(trap, asked),
        Err(_) => After::Fails,
    }
}

/// `skip`.
#[inline(always)]
fn skip(frames: &mut Frames, to: usize)
    requires fits { frames.old.top.place + 1 < 2 ^ 64 }
    requires sound { skips to (machine_of frames.old) (machine_of frames.old).top.stack ≢ Bad }
    ensures { skips to (machine_of frames.old) (machine_of frames.old).top.stack ≡ Goes (machine_of frames.new) }
{
    match take(&mut frames.top) {
        Value::Flag(true) => frames.top.place += 1,
        Value::Flag(false) => frames.top.place = to,
        _ => unreachable!(),
    }
}

/// `again`.
#[inline(always)]
fn again(frames: &mut Frames, to: usize, asked: &mut Option<Ask>) -> After
    requires fits { frames.old.top.place + 1 < 2 ^ 64 }
    requires sound { again_of to (machine_of frames.old) (machine_of frames.old).top.stack ≢ Bad }
    requires empty { asked.old ≡ None }
    ensures stepped { HasStepped (again_of to (machine_of frames.old) (machine_of frames.old).top.stack) result asked.new frames.new }
    ensures unasked { result ≢ After.Asks → asked.new ≡ asked.old }
    ensures never { result ≢ After.Fails }
{
    match take(&mut frames.top) {
        Value::Flag(true) => {
            if frames.turns == 0 {
                ends_by(Trap::OutOfTurns, asked)
            } else {
                frames.turns -= 1;
                frames.top.place = to;
                After::Goes
            }
        }
        Value::Flag(false) => {
            frames.top.place += 1;
            After::Goes
        }
        _ => unreachable!(),
    }
}

/// A message to the receiver, which stands on top.
#[inline(always)]
fn send_to(frames: &mut Frames, method: u8, arguments: Values, asked: &mut Option<Ask>) -> After
    requires fits { frames.old.top.place + 1 < 2 ^ 64 }
    requires sound { send_by method (machine_of frames.old) (Some (arguments, (machine_of frames.old).top.stack)) ≢ Bad }
    requires empty { asked.old ≡ None }
    ensures stepped { HasStepped (send_by method (machine_of frames.old) (Some (arguments, (machine_of frames.old).top.stack))) result asked.new frames.new }
    ensures unasked { result ≢ After.Asks → asked.new ≡ asked.old }
    ensures never { result ≢ After.Fails }
{
    match take(&mut frames.top) {
        Value::Ref(object) => {
            frames.top.place += 1;
            frames.awaited = Awaited::ForNothing;
            put_ask(asked, Ask::Send(object, method, arguments));
            After::Asks
        }
        _ => unreachable!(),
    }
}

/// `send` of several arguments, which lie in memory.
#[inline(never)]
fn send_several(
    alloc: Global,
    frames: &mut Frames,
    method: u8,
    n: usize,
    asked: &mut Option<Ask>,
) -> After
    requires few { n ≤ 8 }
    requires fits { frames.old.top.place + 1 < 2 ^ 64 }
    requires sound { send_by method (machine_of frames.old) (pops n [] (machine_of frames.old).top.stack) ≢ Bad }
    requires empty { asked.old ≡ None }
    ensures stepped { HasStepped (send_by method (machine_of frames.old) (pops n [] (machine_of frames.old).top.stack)) result asked.new frames.new }
    ensures unasked { result ≢ After.Asks → asked.new ≡ asked.old }
{
    let Ok(arguments) = take_all(alloc, &mut frames.top, n) else {
        return After::Fails;
    };
    send_to(frames, method, arguments, asked)
}

/// `send`. Each number of arguments goes its own way to the end, since lists that ways hand on are merged field by field.
#[inline(always)]
fn send(alloc: Global, frames: &mut Frames, method: u8, n: usize, asked: &mut Option<Ask>) -> After
    requires few { n ≤ 8 }
    requires fits { frames.old.top.place + 1 < 2 ^ 64 }
    requires sound { send_by method (machine_of frames.old) (pops n [] (machine_of frames.old).top.stack) ≢ Bad }
    requires empty { asked.old ≡ None }
    ensures stepped { HasStepped (send_by method (machine_of frames.old) (pops n [] (machine_of frames.old).top.stack)) result asked.new frames.new }
    ensures unasked { result ≢ After.Asks → asked.new ≡ asked.old }
    ensures few { n ≤ 1 → result ≢ After.Fails }
{
    if n == 0 {
        return send_to(frames, method, Values::none(), asked);
    }
    if n == 1 {
        let argument = take(&mut frames.top);
        return send_to(frames, method, Values::one(argument), asked);
    }
    send_several(alloc, frames, method, n, asked)
}

/// A call of the receiver, which stands on top. It is looked at before the depth.
#[inline(always)]
fn call_of(frames: &mut Frames, method: u8, arguments: Values, asked: &mut Option<Ask>) -> After
    requires fits { frames.old.top.place + 1 < 2 ^ 64 }
    requires sound { call_by method (machine_of frames.old) (Some (arguments, (machine_of frames.old).top.stack)) ≢ Bad }
    requires empty { asked.old ≡ None }
    ensures stepped { HasStepped (call_by method (machine_of frames.old) (Some (arguments, (machine_of frames.old).top.stack))) result asked.new frames.new }
    ensures unasked { result ≢ After.Asks → asked.new ≡ asked.old }
    ensures never { result ≢ After.Fails }
{
    match take(&mut frames.top) {
        Value::Ref(object) => {
            if frames.top.room == 0 {
                return ends_by(Trap::TooDeep, asked);
            }
            frames.top.place += 1;
            frames.awaited = Awaited::ForValue;
            put_ask(asked, Ask::Call(object, method, arguments));
            After::Asks
        }
        _ => unreachable!(),
    }
}

/// `call` of several arguments, which lie in memory.
#[inline(never)]
fn call_several(
    alloc: Global,
    frames: &mut Frames,
    method: u8,
    n: usize,
    asked: &mut Option<Ask>,
) -> After
    requires few { n ≤ 8 }
    requires fits { frames.old.top.place + 1 < 2 ^ 64 }
    requires sound { call_by method (machine_of frames.old) (pops n [] (machine_of frames.old).top.stack) ≢ Bad }
    requires empty { asked.old ≡ None }
    ensures stepped { HasStepped (call_by method (machine_of frames.old) (pops n [] (machine_of frames.old).top.stack)) result asked.new frames.new }
    ensures unasked { result ≢ After.Asks → asked.new ≡ asked.old }
{
    let Ok(arguments) = take_all(alloc, &mut frames.top, n) else {
        return After::Fails;
    };
    call_of(frames, method, arguments, asked)
}

/// `call`. The operands are looked at before the depth.
#[inline(always)]
fn call(alloc: Global, frames: &mut Frames, method: u8, n: usize, asked: &mut Option<Ask>) -> After
    requires few { n ≤ 8 }
    requires fits { frames.old.top.place + 1 < 2 ^ 64 }
    requires sound { call_by method (machine_of frames.old) (pops n [] (machine_of frames.old).top.stack) ≢ Bad }
    requires empty { asked.old ≡ None }
    ensures stepped { HasStepped (call_by method (machine_of frames.old) (pops n [] (machine_of frames.old).top.stack)) result asked.new frames.new }
    ensures unasked { result ≢ After.Asks → asked.new ≡ asked.old }
    ensures few { n ≤ 1 → result ≢ After.Fails }
{
    if n == 0 {
        return call_of(frames, method, Values::none(), asked);
    }
    if n == 1 {
        let argument = take(&mut frames.top);
        return call_of(frames, method, Values::one(argument), asked);
    }
    call_several(alloc, frames, method, n, asked)
}

/// `new`. The arguments stay on the stack until the object is there.
#[inline(never)]
fn make(parts: &Parts, frames: &mut Frames, class: u16, n: u32, asked: &mut Option<Ask>) -> After
    requires fits { frames.old.top.place + 1 < 2 ^ 64 }
    requires sound { if_deeper frames.old.top.room (machine_of frames.old) (makes_object class n (machine_of frames.old) (builder_of parts.now class)) ≢ Bad }
    requires empty { asked.old ≡ None }
    ensures stepped { HasStepped (if_deeper frames.old.top.room (machine_of frames.old) (makes_object class n (machine_of frames.old) (builder_of parts.now class))) result asked.new frames.new }
    ensures unasked { result ≢ After.Asks → asked.new ≡ asked.old }
    ensures never { result ≢ After.Fails }
{
    if frames.top.room == 0 {
        return ends_by(Trap::TooDeep, asked);
    }
    let builder = match parts.classes.items()[class as usize].builder {
        None => None,
        Some(block) => Some((block, parts.blocks.items()[block as usize].slots)),
    };
    frames.top.place += 1;
    frames.awaited = Awaited::ForObject(builder, n);
    put_ask(asked, Ask::Make(class));
    After::Asks
}

/// `init`: the builder of the base class begins.
#[inline(never)]
fn init(alloc: Global, parts: &Parts, frames: &mut Frames, class: u16) -> Result<(), AllocError>
    requires fits { frames.old.top.place + 1 < 2 ^ 64 }
    requires sound { init_by (machine_of frames.old) (slice_get frames.old.top.slots.items 0) (builder_of parts.now class) ≢ Bad }
    ensures { OnOk result (init_by (machine_of frames.old) (slice_get frames.old.top.slots.items 0) (builder_of parts.now class) ≡ Goes (machine_of frames.new)) }
{
    match frames.top.slots.get(0) {
        None => unreachable!(),
        Some(this) => {
            let this = this.copied(alloc)?;
            match parts.classes.items()[class as usize].builder {
                None => unreachable!(),
                Some(block) => {
                    let slots = parts.blocks.items()[block as usize].slots;
                    enter(alloc, frames, block, slots, this)
                }
            }
        }
    }
}

/// The instructions of the block at work.
#[inline(always)]
fn at_work<'a>(parts: &'a Parts, frames: &Frames) -> &'a [Instruction]
    requires sound { ComesToAsk parts.now (machine_of frames.now) }
    ensures { instructions_in parts.now frames.now.top.block ≡ Some result.now }
{
    let block = &parts.blocks.items()[frames.top.block];
    block.instructions.items()
}

/// The instruction at the place of the top frame, among the instructions of its block.
#[inline(always)]
fn next<'a>(instructions: &'a [Instruction], parts: &Parts, frames: &Frames) -> &'a Instruction
    requires valid { IsValid parts.now }
    requires sound { ComesToAsk parts.now (machine_of frames.now) }
    requires here { instructions_in parts.now frames.now.top.block ≡ Some instructions.now }
    ensures instruction { fetch parts.now frames.now.top.block frames.now.top.place ≡ Some result.now }
    ensures within { IsInstructionWithin result.now }
    ensures fits { frames.now.top.place + 1 < 2 ^ 64 }
{
    let _count = instructions.len();
    &instructions[frames.top.place]
}

/// The instruction behind one that pushes a number.
#[inline(always)]
fn following<'a>(
    instructions: &'a [Instruction],
    parts: &Parts,
    frames: &Frames,
    number: i32,
) -> &'a Instruction
    requires sound { ComesToAsk parts.now (machine_of frames.now) }
    requires here { instructions_in parts.now frames.now.top.block ≡ Some instructions.now }
    requires number { fetch parts.now frames.now.top.block frames.now.top.place ≡ Some (Instruction.Int number) }
    ensures pushes { step_of parts.now (machine_of frames.now) ≡ Goes (with_pushed (Value.Int number) (machine_of frames.now)) }
    ensures instruction { fetch parts.now frames.now.top.block (suc frames.now.top.place) ≡ Some result.now }
    ensures fits { frames.now.top.place + 2 < 2 ^ 64 }
{
    let _count = instructions.len();
    &instructions[frames.top.place + 1]
}

/// The instruction behind one that loads.
#[inline(always)]
fn behind_load<'a>(
    instructions: &'a [Instruction],
    parts: &Parts,
    frames: &Frames,
    slot: usize,
) -> &'a Instruction
    requires sound { ComesToAsk parts.now (machine_of frames.now) }
    requires here { instructions_in parts.now frames.now.top.block ≡ Some instructions.now }
    requires load { fetch parts.now frames.now.top.block frames.now.top.place ≡ Some (Instruction.Load slot) }
    ensures instruction { fetch parts.now frames.now.top.block (suc frames.now.top.place) ≡ Some result.now }
    ensures fits { frames.now.top.place + 2 < 2 ^ 64 }
{
    let _count = instructions.len();
    &instructions[frames.top.place + 1]
}

/// Runs to the next ask, which is put. It stands in line. Called, it would have each turn save all registers for a few instructions.
///
/// The instructions of a block are looked up once, until another block comes to work. The next instruction is fetched where the loop ends:
/// each arm of the step goes there by itself, and no test stands between.
#[inline(always)]
fn run(
    alloc: Global,
    parts: &Parts,
    frames: &mut Frames,
    asked: &mut Option<Ask>,
) -> Result<(), AllocError>
    requires valid { IsValid parts.now }
    requires sound { ComesToAsk parts.now (machine_of frames.old) }
    requires empty { asked.old ≡ None }
    ensures asked { OnOk result ((ask : Ask) × (asked.new ≡ Some ask) × Advanced parts.now (machine_of frames.old) ask frames.new) }
    ensures lean { OnErr result (RunsOut parts.now (machine_of frames.old)) }
{
    let mut instructions = at_work(parts, frames);
    let mut instruction = next(instructions, parts, frames);
    'steps: loop {
        if let Instruction::Int(number) = instruction {
            let number = *number;
            if let Some(operation) = operator_of(following(instructions, parts, frames, number)) {
                if stores_at_once(frames, parts, instructions, operation, number) {
                    instruction = next(instructions, parts, frames);
                    continue 'steps;
                }
                operate_on(frames, operation, number);
                instruction = next(instructions, parts, frames);
                continue 'steps;
            }
        }
        if let Instruction::Load(slot) = instruction {
            let slot = *slot as usize;
            let behind = behind_load(instructions, parts, frames, slot);
            match load_at_once(frames, parts, instructions, slot, behind, asked) {
                AtOnce::Nothing => {}
                AtOnce::Branch => {
                    instruction = next(instructions, parts, frames);
                    continue 'steps;
                }
                AtOnce::Ask => return Ok(()),
            }
            load(alloc, frames, slot)?;
            instruction = next(instructions, parts, frames);
            continue 'steps;
        }
        match step(alloc, parts, frames, instruction, asked) {
            After::Goes => instruction = next(instructions, parts, frames),
            After::Moves => {
                instructions = at_work(parts, frames);
                instruction = next(instructions, parts, frames);
            }
            After::Asks => return Ok(()),
            After::Fails => return Err(AllocError),
        }
    }
}

/// The ask that was put.
#[inline(always)]
fn put(asked: Option<Ask>) -> Ask
    requires { asked ≢ None }
    ensures { asked ≡ Some result }
{
    match asked {
        Some(ask) => ask,
        None => unreachable!(),
    }
}

/// Takes out the ask that was put.
#[inline(always)]
pub fn take_ask(asked: &mut Option<Ask>) -> Ask
    requires { asked.old ≢ None }
    ensures asked { asked.old ≡ Some result }
    ensures taken { asked.new ≡ None }
{
    put(mem::replace(asked, None))
}

/// Runs to the next ask, which is put where the caller wants it; an ask that stood there is dropped. Where no memory is found, and then
/// there is an instruction on the way that may take some, the frames can only be dropped.
#[inline(always)]
pub fn advance_to(
    alloc: Global,
    code: &Code,
    frames: &mut Frames,
    asked: &mut Option<Ask>,
) -> Result<(), AllocError>
    requires sound { ComesToAsk code.now (machine_of frames.old) }
    ensures asked { OnOk result ((ask : Ask) × (asked.new ≡ Some ask) × Advanced code.now (machine_of frames.old) ask frames.new) }
    ensures lean { OnErr result (RunsOut code.now (machine_of frames.old)) }
{
    clear_ask(asked);
    run(alloc, code.parts(), frames, asked)
}

/// Runs to the next ask. Where no memory is found, and then there is an instruction on the way that may take some, the frames can only be dropped.
///
/// The turns and the depth that are left stand in the frames, so the limits are not looked at.
pub fn advance(
    alloc: Global,
    code: &Code,
    frames: &mut Frames,
    _limits: &Limits,
) -> Result<Ask, AllocError>
    requires sound { ComesToAsk code.now (machine_of frames.old) }
    ensures advanced { IfOk result (λ ask. Advanced code.now (machine_of frames.old) ask frames.new) }
    ensures lean { OnErr result (RunsOut code.now (machine_of frames.old)) }
{
    let mut asked = None;
    run(alloc, code.parts(), frames, &mut asked)?;
    Ok(put(asked))
}

/// The place at which a body goes on that stands at a place: that of its jump, if it stands at one.
fn through_jump(instructions: &[Instruction], place: usize) -> usize
    ensures { (result ≡ place) ⊎ (slice_get instructions.now place ≡ Some (Instruction.Jump result)) }
{
    match instructions.get(place) {
        Some(Instruction::Jump(to)) => *to as usize,
        _ => place,
    }
}

/// Whether `end` stands at a place.
fn ends_at(instructions: &[Instruction], place: usize) -> bool
    ensures { result ≡ true → slice_get instructions.now place ≡ Some Instruction.End }
{
    match instructions.get(place) {
        Some(Instruction::End) => true,
        _ => false,
    }
}

/// Whether the body comes to its end next, without a value: its next instruction is `end`, or a jump that leads to one.
pub fn ends_next(code: &Code, frames: &Frames) -> bool
    ensures { result ≡ true → Advanced code.now (machine_of frames.now) (Ask.End (End.Gives Value.Unit)) frames.now }
{
    match code.parts().blocks.items().get(frames.top.block) {
        None => false,
        Some(block) => {
            let instructions = block.instructions.items();
            let place = through_jump(instructions, frames.top.place);
            ends_at(instructions, place)
        }
    }
}
