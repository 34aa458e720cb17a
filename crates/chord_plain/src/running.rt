//! A body from ask to ask, and from its beginning through its answers.
#![tactic(auto)]

ghost use Rattle.std.specs.Prelude.{◌≡◌, ◌-◌, ◌∷◌, [], IfOk};
ghost use Rattle.chord_base.specs.Called.{start_of};
ghost use Rattle.chord_code.specs.Valid.{IsValid};
ghost use Rattle.chord_code.specs.Machine.{step as step_of, pops, pred_of, with_answer, with_object as the_object, begins_block};
ghost use Rattle.chord_code.specs.Slots.{first_slots};
ghost use Rattle.chord_code.specs.Fuel.{comes_to};
ghost use Rattle.chord_code.specs.Meaning.{begins, stands, point_of, point_replied, reply as the_reply, reply_to};
ghost use Rattle.chord_vm.specs.Frames.{machine_of, waiting_of};
ghost use Rattle.chord_plain.specs.Effects.{IsEffect, IsComeTo, IsFound, IsGoneOn, point_of_reached};

use crate::effect::Effect;
use crate::entering::{begin_above, body_in, framed};
use crate::instructions::step;
use crate::stack::{pop_all, push};
use chord_base::event::{End, Limits, Trap, What};
use chord_base::meaning::Start;
use chord_base::value::{Object, Value};
use chord_code::awaited::Awaited;
use chord_code::code::Code;
use chord_code::parts::Parts;
use chord_vm::frames::Frames;
use std::alloc::{AllocError, Global};

/// Where a body stands once its asks were answered.
#[derive(Drop)]
pub enum Reached {
    /// At these frames: it goes on.
    Stands(Frames),
    /// Before its end by this trap, which the end of its call was.
    Fails(Trap),
    /// It is not defined: it went wrong, or got an answer that its ask does not have.
    Nowhere,
}

/// The instruction at the place of the block at work.
fn take_step(alloc: Global, parts: &Parts, frames: &mut Frames) -> Result<Effect, AllocError>
    requires valid { IsValid parts.now }
    ensures { IfOk result (λ effect. IsEffect (step_of parts.now (machine_of frames.old)) effect frames.new) }
{
    let Some(block) = parts.blocks.items().get(frames.top.block) else {
        return Ok(Effect::GoesWrong);
    };
    let instructions = block.instructions.items();
    let Some(instruction) = instructions.get(frames.top.place) else {
        return Ok(Effect::GoesWrong);
    };
    let effect = step(alloc, parts, frames, instruction)?;
    Ok(effect)
}

/// Runs the body to its next ask. None where it goes wrong.
pub(crate) fn run(
    alloc: Global,
    code: &Code,
    frames: &mut Frames,
) -> Result<Option<What>, AllocError>
    ensures { IfOk result (λ what. IsComeTo (comes_to code.now (machine_of frames.old)) what frames.new) }
{
    let parts = code.parts();
    loop {
        match take_step(alloc, parts, frames)? {
            Effect::GoesOn => {}
            Effect::Asks(what) => return Ok(Some(what)),
            Effect::GoesWrong => return Ok(None),
        }
    }
}

/// The object and the values, in this order.
fn object_first(alloc: Global, object: Object, values: &[Value]) -> Result<Vec<Value>, AllocError>
    ensures { IfOk result (λ all. all.items ≡ Value.Ref object ∷ values.now) }
{
    let mut all = Vec::new(alloc);
    all.push(Value::Ref(object))?;
    for value in values {
        all.push(value.copied(alloc)?)?;
    }
    Ok(all)
}

/// The builder of a new object begins with its arguments, one deeper. Whether they fit its slots.
fn build(
    alloc: Global,
    frames: &mut Frames,
    block: u32,
    slots: u32,
    object: Object,
    arguments: &[Value],
) -> Result<bool, AllocError>
    ensures { IfOk result (λ fits. IsGoneOn (begins_block block (pred_of frames.old.top.room) frames.old.turns ((machine_of frames.old).top ∷ (machine_of frames.old).below) (first_slots slots (Value.Ref object ∷ arguments.now))) fits frames.new) }
{
    let values = object_first(alloc, object, arguments)?;
    let room = frames.top.room.saturating_sub(1);
    match framed(alloc, block as usize, slots as usize, room, values)? {
        None => Ok(false),
        Some(fresh) => {
            begin_above(frames, fresh)?;
            Ok(true)
        }
    }
}

/// A new object takes the place of its arguments, so many, and its builder begins, if it has one. Whether they are there, and fit.
fn place(
    alloc: Global,
    frames: &mut Frames,
    builder: Option<(u32, u32)>,
    n: usize,
    object: Object,
) -> Result<bool, AllocError>
    ensures { IfOk result (λ fits. IsGoneOn (the_object (machine_of frames.old) builder object (pops n [] (machine_of frames.old).top.stack)) fits frames.new) }
{
    match pop_all(alloc, &mut frames.top.stack, n)? {
        None => Ok(false),
        Some(arguments) => {
            push(&mut frames.top.stack, Value::Ref(object))?;
            match builder {
                None => Ok(true),
                Some((block, slots)) => build(alloc, frames, block, slots, object, &arguments),
            }
        }
    }
}

/// Goes on with a value. Whether the body may.
fn answer(alloc: Global, frames: &mut Frames, value: &Value) -> Result<bool, AllocError>
    ensures { IfOk result (λ fits. IsGoneOn (with_answer (machine_of frames.old) frames.old.awaited value.now) fits frames.new) }
{
    match frames.awaited {
        Awaited::ForNothing => Ok(true),
        Awaited::ForValue => {
            let value = value.copied(alloc)?;
            push(&mut frames.top.stack, value)?;
            Ok(true)
        }
        Awaited::ForObject(builder, n) => match value {
            Value::Ref(object) => place(alloc, frames, builder, n as usize, *object),
            _ => Ok(false),
        },
    }
}

/// Where a body stands that waits for a value, and was given it.
fn given(alloc: Global, frames: Frames, value: &Value) -> Result<Reached, AllocError>
    ensures { IfOk result (λ next. point_of_reached next ≡ the_reply (waiting_of frames) (End.Gives value.now)) }
{
    let mut frames = frames;
    if answer(alloc, &mut frames, value)? {
        return Ok(Reached::Stands(frames));
    }
    Ok(Reached::Nowhere)
}

/// Where a body stands whose ask was answered so.
fn reply(alloc: Global, frames: Frames, end: &End) -> Result<Reached, AllocError>
    ensures { IfOk result (λ next. point_of_reached next ≡ the_reply (waiting_of frames) end.now) }
{
    match end {
        End::Gives(value) => given(alloc, frames, value),
        End::Traps(trap) => match frames.awaited {
            Awaited::ForValue => Ok(Reached::Fails(*trap)),
            Awaited::ForNothing => Ok(Reached::Nowhere),
            Awaited::ForObject(_, _) => Ok(Reached::Nowhere),
        },
    }
}

/// Where a body stands that runs from these frames to its ask, and is answered so.
fn run_answered(
    alloc: Global,
    code: &Code,
    frames: Frames,
    end: &End,
) -> Result<Reached, AllocError>
    ensures { IfOk result (λ next. point_of_reached next ≡ reply_to (comes_to code.now (machine_of frames)) end.now) }
{
    let mut frames = frames;
    match run(alloc, code, &mut frames)? {
        None => Ok(Reached::Nowhere),
        Some(_) => reply(alloc, frames, end),
    }
}

/// Where a body stands after one more answer.
fn replied(alloc: Global, code: &Code, reached: Reached, end: &End) -> Result<Reached, AllocError>
    ensures { IfOk result (λ next. point_of_reached next ≡ point_replied code.now (point_of_reached reached) end.now) }
{
    match reached {
        Reached::Stands(frames) => run_answered(alloc, code, frames, end),
        Reached::Fails(_) => Ok(Reached::Nowhere),
        Reached::Nowhere => Ok(Reached::Nowhere),
    }
}

/// What the depth leaves of the limit.
fn room_at(limits: &Limits, depth: u64) -> usize
    ensures { result ≡ limits.now.depth - depth }
{
    u64::from(limits.depth).saturating_sub(depth) as usize
}

/// A body begins at this depth. None where what it begins with is not there.
fn begun(
    alloc: Global,
    code: &Code,
    limits: &Limits,
    start: &Start,
    depth: u64,
) -> Result<Option<Frames>, AllocError>
    ensures { IfOk result (λ frames. IsFound (begins code.now limits.now (start_of start.now) depth) frames) }
{
    let parts = code.parts();
    let room = room_at(limits, depth);
    match start {
        Start::Main => {
            let mut values = Vec::new(alloc);
            values.push(Value::Unit)?;
            body_in(alloc, parts, limits, 0, room, values)
        }
        Start::Chord(chord, object, arguments) => {
            match code.chords(object.class).get(*chord as usize) {
                None => Ok(None),
                Some(line) => {
                    let values = object_first(alloc, *object, arguments.items())?;
                    body_in(alloc, parts, limits, line.block, room, values)
                }
            }
        }
    }
}

/// Where a body stands at its beginning.
fn first(
    alloc: Global,
    code: &Code,
    limits: &Limits,
    start: &Start,
    depth: u64,
) -> Result<Reached, AllocError>
    ensures { IfOk result (λ reached. point_of_reached reached ≡ point_of (begins code.now limits.now (start_of start.now) depth)) }
{
    match begun(alloc, code, limits, start, depth)? {
        None => Ok(Reached::Nowhere),
        Some(frames) => Ok(Reached::Stands(frames)),
    }
}

/// Where a body stands that began so at this depth, and got these answers.
pub(crate) fn after_all(
    alloc: Global,
    code: &Code,
    limits: &Limits,
    start: &Start,
    depth: u64,
    answers: &[End],
) -> Result<Reached, AllocError>
    ensures { IfOk result (λ reached. point_of_reached reached ≡ stands code.now limits.now (start_of start.now) depth answers.now) }
{
    let mut reached = first(alloc, code, limits, start, depth)?;
    for end in answers {
        reached = replied(alloc, code, reached, end)?;
    }
    Ok(reached)
}
