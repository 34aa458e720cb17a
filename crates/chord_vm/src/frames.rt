//! The frames of one body: its blocks at work, and how they begin and are answered without memory.
#![tactic(auto)]

ghost use Rattle.std.specs.Prelude.{◌≡◌, ◌≢◌, ◌⊎◌, suc, ◌+◌, ◌-◌, ◌^◌, ◌<◌, ◌≤◌, true, false, List, [], ◌∷◌, ◌++◌, IfOk, IsOk, OnOk, All, Some, None, length, slice_get, vec_len, vec_capacity, reverse, replicate};
ghost use Rattle.chord_base.specs.Copies.{IsAlwaysCopied};
ghost use Rattle.chord_base.specs.Room.{HasGrown};
ghost use Rattle.chord_code.specs.Slots.{first_slots};
ghost use Rattle.chord_code.specs.Machine.{body_in_block, with_answer, with_object, init_by, goes_back, pops, Bad, Goes};
ghost use Rattle.chord_vm.specs.Frames.{shown_frame, machine_of, frame_with, IsSpacious, IsReady, HasRoom, KeepsRoom, IsInStock, IsLeanBuilder, KeepsLists, KeepsUnbuilt, IsMoved, IsRoomFor, AreBlank, laid};

use chord_base::event::Limits;
use chord_base::hand::Hand;
use chord_base::room::reserve_one;
use chord_base::value::{Object, Value, Values};
use chord_code::awaited::Awaited;
use chord_code::code::Code;
use std::alloc::{AllocError, Global};
use std::mem;

/// A block at work.
#[derive(Drop)]
pub struct Frame {
    /// The block's number.
    pub block: usize,
    /// The number of its next instruction.
    pub place: usize,
    /// How much deeper than this a `new` or a call may go.
    pub room: usize,
    /// Its operands, the last one on top.
    pub stack: Vec<Value>,
    /// Its slots.
    pub slots: Vec<Value>,
}

/// The frames of one body, or of none.
#[derive(Drop)]
pub struct Frames {
    /// The block at work.
    pub top: Frame,
    /// The blocks that wait for it, the last one directly below it.
    pub below: Vec<Frame>,
    /// How many `while` conditions may still come out true.
    pub turns: u32,
    /// What an ask waits for.
    pub awaited: Awaited,
    /// Room for a builder's frame.
    pub builder: Option<Frame>,
    /// The limits for which the frames were made.
    pub limits: Limits,
}

/// Frames of no body, with room to begin any block of the code. They hold nothing, and have no other room.
pub fn blank(alloc: Global, code: &Code, limits: &Limits) -> Result<Frames, AllocError>
    ensures room { IfOk result (λ frames. IsRoomFor code.now frames) }
    ensures limits { IfOk result (λ frames. frames.limits ≡ limits.now) }
    ensures lean { IfOk result (λ frames. AreBlank code.now frames) }
{
    let most = code.most_slots() as usize;
    let top = Frame {
        block: 0,
        place: 0,
        room: 0,
        stack: Vec::new(alloc),
        slots: Vec::with_capacity(alloc, most)?,
    };
    Ok(Frames {
        top,
        below: Vec::new(alloc),
        turns: 0,
        awaited: Awaited::ForNothing,
        builder: None,
        limits: *limits,
    })
}

/// Whether frames were made for these limits, and have room to begin any block of the code.
pub fn can_begin(code: &Code, limits: &Limits, frames: &Frames) -> bool
    ensures room { result ≡ true → IsRoomFor code.now frames.now }
    ensures limits { result ≡ true → frames.now.limits ≡ limits.now }
    ensures none { result ≡ false → IsRoomFor code.now frames.now → frames.now.limits ≡ limits.now → ⊥ }
{
    if frames.limits.events != limits.events {
        return false;
    }
    if frames.limits.turns != limits.turns {
        return false;
    }
    if frames.limits.depth != limits.depth {
        return false;
    }
    frames.top.slots.capacity() >= code.most_slots() as usize
}

/// Pushes a value for which there is room, and goes to the next instruction.
#[inline(always)]
pub(crate) fn push_reserved(frame: &mut Frame, value: Value)
    requires fits { frame.old.place + 1 < 2 ^ 64 }
    requires room { vec_len frame.old.stack < vec_capacity frame.old.stack }
    ensures pushed { shown_frame frame.new ≡ frame_with (shown_frame frame.old) (suc frame.old.place) (value ∷ (shown_frame frame.old).stack) (shown_frame frame.old).slots }
    ensures capacity { vec_capacity frame.new.stack ≡ vec_capacity frame.old.stack }
{
    frame.stack.push_reserved(value);
    frame.place += 1;
}

/// Takes room for more operands, where there is none for one more. It stands apart, since there is room as a rule.
#[inline(never)]
fn grow(frame: &mut Frame) -> Result<(), AllocError>
    ensures same { shown_frame frame.new ≡ shown_frame frame.old }
    ensures room { OnOk result (vec_len frame.new.stack < vec_capacity frame.new.stack) }
    ensures grown { OnOk result (HasGrown (vec_len frame.old.stack) (vec_capacity frame.old.stack) (vec_capacity frame.new.stack)) }
{
    reserve_one(&mut frame.stack)
}

/// Pushes a value, and goes to the next instruction. Where there is room for it, no memory is taken.
#[inline(always)]
pub(crate) fn push(frame: &mut Frame, value: Value) -> Result<(), AllocError>
    requires { frame.old.place + 1 < 2 ^ 64 }
    ensures pushed { OnOk result (shown_frame frame.new ≡ frame_with (shown_frame frame.old) (suc frame.old.place) (value ∷ (shown_frame frame.old).stack) (shown_frame frame.old).slots) }
    ensures stays { vec_len frame.old.stack < vec_capacity frame.old.stack → (IsOk result) × (vec_capacity frame.new.stack ≡ vec_capacity frame.old.stack) }
    ensures grown { OnOk result (HasGrown (vec_len frame.old.stack) (vec_capacity frame.old.stack) (vec_capacity frame.new.stack)) }
{
    if frame.stack.len() == frame.stack.capacity() {
        grow(frame)?;
    }
    push_reserved(frame, value);
    Ok(())
}

/// Pops. The stack keeps the room of the value.
#[inline(always)]
pub(crate) fn take(frame: &mut Frame) -> Value
    requires { (shown_frame frame.old).stack ≢ [] }
    ensures popped { shown_frame frame.old ≡ frame_with (shown_frame frame.new) frame.new.place (result ∷ (shown_frame frame.new).stack) (shown_frame frame.new).slots }
    ensures room { vec_len frame.new.stack < vec_capacity frame.new.stack }
{
    frame.stack.take_last()
}

/// Moves the last values, so many, to the end of another list, in their order.
pub(crate) fn move_last(from: &mut Vec<Value>, to: &mut Vec<Value>, n: usize)
    requires some { n ≤ vec_len from.old }
    requires room { vec_len to.old + n ≤ vec_capacity to.old }
    ensures moved { IsMoved n from.old.items from.new.items to.old.items to.new.items }
    ensures len { vec_len to.new ≡ vec_len to.old + n }
    ensures capacity { vec_capacity to.new ≡ vec_capacity to.old }
    ensures from_capacity { vec_capacity from.new ≡ vec_capacity from.old }
    ensures from_len { vec_len from.new + n ≡ vec_len from.old }
{
    if n == 0 {
        return;
    }
    let value = from.take_last();
    move_last(from, to, n - 1);
    to.push_reserved(value);
}

/// Adds unit values, so many.
fn pad(slots: &mut Vec<Value>, n: usize)
    requires { vec_len slots.old + n ≤ vec_capacity slots.old }
    ensures items { slots.new.items ≡ slots.old.items ++ replicate n Value.Unit }
    ensures capacity { vec_capacity slots.new ≡ vec_capacity slots.old }
{
    for _ in 0..n {
        slots.push_reserved(Value::Unit);
    }
}

/// Fills the slots of a block with `this` and the last values of a list, so many.
pub(crate) fn fill(slots: &mut Vec<Value>, n: usize, this: Value, from: &mut Vec<Value>, k: usize)
    requires some { k ≤ vec_len from.old }
    requires fits { k < n }
    requires room { n ≤ vec_capacity slots.old }
    ensures moved { (xs : List Value) × (first_slots n (this ∷ xs) ≡ Some slots.new.items) × (pops k [] (reverse from.old.items) ≡ Some (xs, reverse from.new.items)) }
    ensures capacity { vec_capacity slots.new ≡ vec_capacity slots.old }
    ensures from_capacity { vec_capacity from.new ≡ vec_capacity from.old }
    ensures from_len { vec_len from.new + k ≡ vec_len from.old }
{
    slots.truncate(0);
    slots.push_reserved(this);
    move_last(from, slots, k);
    pad(slots, n - 1 - k);
}

/// Adds the values of each message, one message after the other.
fn lay(slots: &mut Vec<Value>, arguments: &mut Hand<Values>)
    requires { vec_len slots.old + length (laid arguments.old) ≤ vec_capacity slots.old }
    ensures items { slots.new.items ≡ slots.old.items ++ laid arguments.old }
    ensures capacity { vec_capacity slots.new ≡ vec_capacity slots.old }
{
    match arguments.take_first() {
        None => {}
        Some(values) => {
            values.move_to(slots);
            lay(slots, arguments);
        }
    }
}

/// Fills the slots of a block with `this` and the values of the messages, and the rest with the unit value.
fn fill_from(slots: &mut Vec<Value>, n: usize, this: Value, arguments: Hand<Values>)
    requires fits { first_slots n (this ∷ laid arguments) ≢ None }
    requires room { n ≤ vec_capacity slots.old }
    ensures filled { first_slots n (this ∷ laid arguments) ≡ Some slots.new.items }
    ensures capacity { vec_capacity slots.new ≡ vec_capacity slots.old }
{
    let mut arguments = arguments;
    slots.truncate(0);
    slots.push_reserved(this);
    lay(slots, &mut arguments);
    let rest = n - slots.len();
    pad(slots, rest);
}

/// Adds a copy of a value. A number is looked for first, and written where it comes to stand.
#[inline(always)]
fn lay_copy(alloc: Global, slots: &mut Vec<Value>, value: &Value) -> Result<(), AllocError>
    requires { vec_len slots.old < vec_capacity slots.old }
    ensures items { OnOk result (slots.new.items ≡ slots.old.items ++ value.now ∷ []) }
    ensures len { OnOk result (vec_len slots.new ≡ vec_len slots.old + 1) }
    ensures capacity { vec_capacity slots.new ≡ vec_capacity slots.old }
    ensures short { IsAlwaysCopied value.now → IsOk result }
{
    match value {
        Value::Int(number) => {
            let number = *number;
            slots.push_reserved(Value::Int(number));
            Ok(())
        }
        _ => lay_other(alloc, slots, value),
    }
}

/// Adds a copy of a value that may be a text.
#[inline(never)]
fn lay_other(alloc: Global, slots: &mut Vec<Value>, value: &Value) -> Result<(), AllocError>
    requires { vec_len slots.old < vec_capacity slots.old }
    ensures items { OnOk result (slots.new.items ≡ slots.old.items ++ value.now ∷ []) }
    ensures len { OnOk result (vec_len slots.new ≡ vec_len slots.old + 1) }
    ensures capacity { vec_capacity slots.new ≡ vec_capacity slots.old }
    ensures short { IsAlwaysCopied value.now → IsOk result }
{
    let copy = value.copied(alloc)?;
    slots.push_reserved(copy);
    Ok(())
}

/// Drops all values, from the last to the first.
#[inline(always)]
fn clear(slots: &mut Vec<Value>)
    ensures items { slots.new.items ≡ [] }
    ensures len { vec_len slots.new ≡ 0 }
    ensures capacity { vec_capacity slots.new ≡ vec_capacity slots.old }
{
    while !slots.is_empty() {
        let _ = slots.take_last();
    }
}

/// Adds a copy of each value.
#[inline(always)]
fn lay_copies(alloc: Global, slots: &mut Vec<Value>, values: &[Value]) -> Result<(), AllocError>
    requires { vec_len slots.old + length values.now ≤ vec_capacity slots.old }
    ensures items { OnOk result (slots.new.items ≡ slots.old.items ++ values.now) }
    ensures capacity { vec_capacity slots.new ≡ vec_capacity slots.old }
    ensures short { All IsAlwaysCopied values.now → IsOk result }
{
    for value in values {
        lay_copy(alloc, slots, value)?;
    }
    Ok(())
}

/// Fills the slots of a block with `this` and copies of the values, and the rest with the unit value.
#[inline(always)]
fn fill_with(
    alloc: Global,
    slots: &mut Vec<Value>,
    n: usize,
    this: Value,
    values: &[Value],
) -> Result<(), AllocError>
    requires fits { first_slots n (this ∷ values.now) ≢ None }
    requires room { n ≤ vec_capacity slots.old }
    ensures filled { OnOk result (first_slots n (this ∷ values.now) ≡ Some slots.new.items) }
    ensures short { All IsAlwaysCopied values.now → IsOk result }
    ensures capacity { vec_capacity slots.new ≡ vec_capacity slots.old }
{
    clear(slots);
    slots.push_reserved(this);
    lay_copies(alloc, slots, values)?;
    let rest = n - slots.len();
    pad(slots, rest);
    Ok(())
}

/// A block whose slots are filled comes to work, at its first instruction.
#[inline(always)]
fn open(frames: &mut Frames, block: usize, depth: u32)
    ensures opened { machine_of frames.new ≡ record { top = record { block = block; place = 0; room = frames.old.limits.depth - depth; stack = []; slots = frames.old.top.slots.items }; below = []; turns = frames.old.limits.turns } }
    ensures awaits { frames.new.awaited ≡ Awaited.ForNothing }
    ensures limits { frames.new.limits ≡ frames.old.limits }
    ensures room { KeepsLists frames.old frames.new }
{
    clear(&mut frames.top.stack);
    frames.below.truncate(0);
    frames.top.block = block;
    frames.top.place = 0;
    frames.top.room = frames.limits.depth.saturating_sub(depth) as usize;
    frames.turns = frames.limits.turns;
    frames.awaited = Awaited::ForNothing;
}

/// Begins a body in a block. Takes no memory.
pub fn begin(
    code: &Code,
    frames: &mut Frames,
    block: u32,
    this: Value,
    arguments: Hand<Values>,
    depth: u32,
)
    requires fits { body_in_block code.now block (frames.old.limits.depth - depth) (this ∷ laid arguments) frames.old.limits.turns ≢ None }
    requires space { IsSpacious frames.old (slice_get code.now.blocks block) }
    ensures begun { body_in_block code.now block (frames.old.limits.depth - depth) (this ∷ laid arguments) frames.old.limits.turns ≡ Some (machine_of frames.new) }
    ensures awaits { frames.new.awaited ≡ Awaited.ForNothing }
    ensures limits { frames.new.limits ≡ frames.old.limits }
    ensures room { KeepsLists frames.old frames.new }
{
    let block = block as usize;
    let slots = code.parts().blocks.items()[block].slots as usize;
    fill_from(&mut frames.top.slots, slots, this, arguments);
    open(frames, block, depth);
}

/// Begins a body in a block with copies of these arguments. Takes no memory, and fails only where a text of more than 8 bytes has too many
/// owners. Where it fails, the frames are of no body.
#[inline(always)]
pub fn begin_with(
    alloc: Global,
    code: &Code,
    frames: &mut Frames,
    block: u32,
    this: Value,
    arguments: &[Value],
    depth: u32,
) -> Result<(), AllocError>
    requires fits { body_in_block code.now block (frames.old.limits.depth - depth) (this ∷ arguments.now) frames.old.limits.turns ≢ None }
    requires space { IsSpacious frames.old (slice_get code.now.blocks block) }
    ensures begun { OnOk result (body_in_block code.now block (frames.old.limits.depth - depth) (this ∷ arguments.now) frames.old.limits.turns ≡ Some (machine_of frames.new)) }
    ensures awaits { OnOk result (frames.new.awaited ≡ Awaited.ForNothing) }
    ensures limits { frames.new.limits ≡ frames.old.limits }
    ensures room { KeepsLists frames.old frames.new }
    ensures short { All IsAlwaysCopied arguments.now → IsOk result }
{
    let block = block as usize;
    let slots = code.parts().blocks.items()[block].slots as usize;
    fill_with(alloc, &mut frames.top.slots, slots, this, arguments)?;
    open(frames, block, depth);
    Ok(())
}

/// Takes the room that the next answer needs, and that of an operand, where there is none yet. Where there is room for both nothing changes, and where no memory is
/// found the body is as it was.
#[inline(always)]
pub fn reserve(alloc: Global, frames: &mut Frames) -> Result<(), AllocError>
    ensures same { (machine_of frames.new ≡ machine_of frames.old) × (frames.new.awaited ≡ frames.old.awaited) }
    ensures ready { OnOk result (IsReady frames.new.awaited frames.new) }
    ensures kept { KeepsRoom frames.old frames.new }
    ensures idle { vec_len frames.old.top.stack < vec_capacity frames.old.top.stack → IsReady frames.old.awaited frames.old → (IsOk result) × (frames.new ≡ frames.old) }
    ensures grown { OnOk result (HasGrown (vec_len frames.old.top.stack) (vec_capacity frames.old.top.stack) (vec_capacity frames.new.top.stack)) }
    ensures blocks { OnOk result ((frames.new.below ≡ frames.old.below) ⊎ HasGrown (vec_len frames.old.below) (vec_capacity frames.old.below) (vec_capacity frames.new.below)) }
{
    reserve_one(&mut frames.top.stack)?;
    match frames.awaited {
        Awaited::ForObject(Some((_, slots)), _) => reserve_builder(alloc, frames, slots),
        _ => Ok(()),
    }
}

/// Whether a builder's frame is there, with room for so many slots.
fn has_builder(builder: &Option<Frame>, slots: u32) -> bool
    ensures room { result ≡ true → HasRoom builder.now slots }
    ensures none { result ≡ false → HasRoom builder.now slots → ⊥ }
{
    match builder {
        None => false,
        Some(frame) => frame.slots.capacity() >= slots as usize,
    }
}

/// Takes the room for a builder with so many slots, where there is none yet.
#[inline(never)]
fn reserve_builder(alloc: Global, frames: &mut Frames, slots: u32) -> Result<(), AllocError>
    ensures same { (machine_of frames.new ≡ machine_of frames.old) × (frames.new.awaited ≡ frames.old.awaited) }
    ensures ready { OnOk result ((vec_len frames.new.below < vec_capacity frames.new.below) × HasRoom frames.new.builder slots) }
    ensures top { frames.new.top ≡ frames.old.top }
    ensures stays { vec_len frames.old.below < vec_capacity frames.old.below → frames.new.below ≡ frames.old.below }
    ensures builder { HasRoom frames.old.builder slots → frames.new.builder ≡ frames.old.builder }
    ensures lean { (frames.new.builder ≡ frames.old.builder) ⊎ IsLeanBuilder slots frames.new.builder }
    ensures idle { vec_len frames.old.below < vec_capacity frames.old.below → HasRoom frames.old.builder slots → (IsOk result) × (frames.new ≡ frames.old) }
    ensures grown { OnOk result (HasGrown (vec_len frames.old.below) (vec_capacity frames.old.below) (vec_capacity frames.new.below)) }
    ensures limits { frames.new.limits ≡ frames.old.limits }
{
    reserve_one(&mut frames.below)?;
    if has_builder(&frames.builder, slots) {
        return Ok(());
    }
    frames.builder = Some(Frame {
        block: 0,
        place: 0,
        room: 0,
        stack: Vec::new(alloc),
        slots: Vec::with_capacity(alloc, slots as usize)?,
    });
    Ok(())
}

/// Goes on with an answer. Takes no memory, and leaves the limits as they were. Where no builder begins, each list keeps its room, and the frame in stock stays there.
#[inline(always)]
pub fn answer(frames: &mut Frames, value: Value)
    requires ready { IsReady frames.old.awaited frames.old }
    requires fits { with_answer (machine_of frames.old) frames.old.awaited value ≢ None }
    ensures answered { with_answer (machine_of frames.old) frames.old.awaited value ≡ Some (machine_of frames.new) }
    ensures limits { frames.new.limits ≡ frames.old.limits }
    ensures room { KeepsUnbuilt frames.old.awaited frames.old frames.new }
{
    match (frames.awaited, value) {
        (Awaited::ForNothing, _) => {}
        (Awaited::ForValue, given) => frames.top.stack.push_reserved(given),
        (Awaited::ForObject(None, n), Value::Ref(object)) => place(frames, n, object),
        (Awaited::ForObject(Some((block, slots)), n), Value::Ref(object)) => {
            build(frames, block, slots, n, object)
        }
        _ => unreachable!(),
    }
}

/// The new object takes the place of its arguments. It has no builder.
fn place(frames: &mut Frames, n: u32, object: Object)
    requires ready { vec_len frames.old.top.stack < vec_capacity frames.old.top.stack }
    requires fits { with_object (machine_of frames.old) None object (pops n [] (machine_of frames.old).top.stack) ≢ None }
    ensures placed { with_object (machine_of frames.old) None object (pops n [] (machine_of frames.old).top.stack) ≡ Some (machine_of frames.new) }
    ensures limits { frames.new.limits ≡ frames.old.limits }
    ensures room { KeepsLists frames.old frames.new }
{
    let at = frames.top.stack.len() - n as usize;
    frames.top.stack.truncate(at);
    frames.top.stack.push_reserved(Value::Ref(object));
}

/// The new object's builder begins with its arguments.
#[inline(never)]
fn build(frames: &mut Frames, block: u32, slots: u32, n: u32, object: Object)
    requires ready { IsReady (Awaited.ForObject (Some (block, slots)) n) frames.old }
    requires fits { with_object (machine_of frames.old) (Some (block, slots)) object (pops n [] (machine_of frames.old).top.stack) ≢ None }
    ensures built { with_object (machine_of frames.old) (Some (block, slots)) object (pops n [] (machine_of frames.old).top.stack) ≡ Some (machine_of frames.new) }
    ensures limits { frames.new.limits ≡ frames.old.limits }
{
    match frames.builder.take() {
        None => unreachable!(),
        Some(mut fresh) => {
            let this = Value::Ref(object);
            let arguments = n as usize;
            fill(
                &mut fresh.slots,
                slots as usize,
                this,
                &mut frames.top.stack,
                arguments,
            );
            frames.top.stack.push_reserved(Value::Ref(object));
            let room = frames.top.room.saturating_sub(1);
            interrupt(frames, fresh, block as usize, room);
        }
    }
}

/// A builder's block begins on `this` alone, above the block at work, which goes to its next instruction. No memory is taken where there is room for it.
#[inline(never)]
pub(crate) fn enter(
    alloc: Global,
    frames: &mut Frames,
    block: u32,
    slots: u32,
    this: Value,
) -> Result<(), AllocError>
    requires fits { frames.old.top.place + 1 < 2 ^ 64 }
    requires sound { init_by (machine_of frames.old) (Some this) (Some (Some (block, slots))) ≢ Bad }
    ensures entered { OnOk result (init_by (machine_of frames.old) (Some this) (Some (Some (block, slots))) ≡ Goes (machine_of frames.new)) }
    ensures idle { vec_len frames.old.below < vec_capacity frames.old.below → HasRoom frames.old.builder slots → IsOk result }
{
    reserve_builder(alloc, frames, slots)?;
    match frames.builder.take() {
        None => unreachable!(),
        Some(mut fresh) => {
            fill(
                &mut fresh.slots,
                slots as usize,
                this,
                &mut Vec::new(alloc),
                0,
            );
            frames.top.place += 1;
            let room = frames.top.room;
            interrupt(frames, fresh, block as usize, room);
        }
    }
    Ok(())
}

/// A block whose slots are filled comes to work above the block at work, which waits for it.
fn interrupt(frames: &mut Frames, fresh: Frame, block: usize, room: usize)
    requires { vec_len frames.old.below < vec_capacity frames.old.below }
    ensures interrupted { machine_of frames.new ≡ record { top = record { block = block; place = 0; room = room; stack = []; slots = fresh.slots.items }; below = (machine_of frames.old).top ∷ (machine_of frames.old).below; turns = frames.old.turns } }
    ensures limits { frames.new.limits ≡ frames.old.limits }
{
    let mut fresh = fresh;
    clear(&mut fresh.stack);
    fresh.block = block;
    fresh.place = 0;
    fresh.room = room;
    let old = mem::replace(&mut frames.top, fresh);
    frames.below.push_reserved(old);
}

/// The builder at work is done, and the block below goes on. The builder's frame stays in stock, empty, for the next one.
#[inline(never)]
pub(crate) fn back(frames: &mut Frames)
    requires sound { goes_back (machine_of frames.old) (machine_of frames.old).below ≢ Bad }
    ensures resumed { goes_back (machine_of frames.old) (machine_of frames.old).below ≡ Goes (machine_of frames.new) }
    ensures stocked { IsInStock frames.old.top frames.new.builder }
{
    let mut done = mem::replace(&mut frames.top, frames.below.take_last());
    clear(&mut done.stack);
    clear(&mut done.slots);
    frames.builder = Some(done);
}

/// Fills the slots of a block with `this` and the values, which are moved, and the rest with the unit value.
#[inline(always)]
fn fill_moved(slots: &mut Vec<Value>, n: usize, this: Value, values: Values)
    requires fits { first_slots n (this ∷ values) ≢ None }
    requires room { n ≤ vec_capacity slots.old }
    ensures filled { first_slots n (this ∷ values) ≡ Some slots.new.items }
    ensures capacity { vec_capacity slots.new ≡ vec_capacity slots.old }
{
    clear(slots);
    slots.push_reserved(this);
    values.move_to(slots);
    let rest = n - slots.len();
    pad(slots, rest);
}

/// Begins a body in a block with these arguments, which are moved. Takes no memory.
#[inline(always)]
pub fn begin_moved(
    code: &Code,
    frames: &mut Frames,
    block: u32,
    this: Value,
    arguments: Values,
    depth: u32,
)
    requires fits { body_in_block code.now block (frames.old.limits.depth - depth) (this ∷ arguments) frames.old.limits.turns ≢ None }
    requires space { IsSpacious frames.old (slice_get code.now.blocks block) }
    ensures begun { body_in_block code.now block (frames.old.limits.depth - depth) (this ∷ arguments) frames.old.limits.turns ≡ Some (machine_of frames.new) }
    ensures awaits { frames.new.awaited ≡ Awaited.ForNothing }
    ensures limits { frames.new.limits ≡ frames.old.limits }
    ensures room { KeepsLists frames.old frames.new }
{
    let block = block as usize;
    let slots = code.parts().blocks.items()[block].slots as usize;
    fill_moved(&mut frames.top.slots, slots, this, arguments);
    open(frames, block, depth);
}
