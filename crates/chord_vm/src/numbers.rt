//! Operators whose right operand is a number that stands in the code.
#![tactic(auto)]

ghost use Rattle.std.specs.Prelude.{◌≡◌, ◌≢◌, ℤ, ◌+◌, ◌^◌, ◌<◌, true, ◌∷◌, IfSome};
ghost use Rattle.chord_base.specs.Operators.{Is, Mistyped, compute as compute_of};
ghost use Rattle.chord_code.specs.declared.parts.Parts.{Parts as TheParts};
ghost use Rattle.chord_code.specs.Machine.{Machine, Goes, Bad, act, operate as operate_of};
ghost use Rattle.chord_vm.specs.Frames.{machine_of, gives_always, with_pushed};

use crate::frames::Frames;
use chord_base::operation::Operation;
use chord_base::value::Value;
use chord_code::instruction::Instruction;
use std::mem;

/// The operator of an instruction that takes two numbers and gives a value always.
#[inline(always)]
pub(crate) fn operator_of(instruction: &Instruction) -> Option<Operation>
    ensures { IfSome result (λ operation. (gives_always operation ≡ true) × ((code : TheParts) (m : Machine) → act code (Some instruction.now) m ≡ operate_of operation m m.top.stack)) }
{
    match instruction {
        Instruction::Add => Some(Operation::Add),
        Instruction::Sub => Some(Operation::Subtract),
        Instruction::Mul => Some(Operation::Multiply),
        Instruction::Lt => Some(Operation::Less),
        Instruction::Le => Some(Operation::LessOrEqual),
        Instruction::Gt => Some(Operation::Greater),
        Instruction::Ge => Some(Operation::GreaterOrEqual),
        _ => None,
    }
}

/// The number that a value is.
#[inline(always)]
fn number_of(value: &Value) -> i32
    requires { (n : ℤ) × (value.now ≡ Value.Int n) }
    ensures { value.now ≡ Value.Int result }
{
    match value {
        Value::Int(number) => *number,
        _ => unreachable!(),
    }
}

/// Another number comes in the place of a number. Nothing else of the value is written.
#[inline(always)]
pub(crate) fn set_number(value: &mut Value, number: i32)
    requires { (n : ℤ) × (value.old ≡ Value.Int n) }
    ensures { value.new ≡ Value.Int number }
{
    match value {
        Value::Int(place) => *place = number,
        _ => unreachable!(),
    }
}

/// A number comes in the place of a value, which most often is a number.
#[inline(always)]
fn put_number(value: &mut Value, number: i32)
    ensures { value.new ≡ Value.Int number }
{
    match value {
        Value::Int(place) => *place = number,
        _ => *value = Value::Int(number),
    }
}

/// A value comes in the place of another. A number is looked for first, and written alone where a number stands.
#[inline(always)]
pub(crate) fn put_value(place: &mut Value, value: Value)
    ensures { place.new ≡ value }
{
    match value {
        Value::Int(number) => put_number(place, number),
        other => *place = other,
    }
}

/// A truth value comes in the place of a number, of which there is nothing to drop.
#[inline(always)]
fn set_flag(value: &mut Value, flag: bool)
    ensures { value.new ≡ Value.Flag flag }
{
    mem::forget(mem::replace(value, Value::Flag(flag)));
}

/// What an operator comes to stands where its left operand stood.
#[inline(always)]
fn compute_at(left: &mut Value, operation: Operation, right: i32)
    requires plain { gives_always operation ≡ true }
    requires sound { compute_of operation left.old (Value.Int right) ≢ Mistyped }
    ensures { compute_of operation left.old (Value.Int right) ≡ Is left.new }
{
    let number = number_of(left);
    match operation {
        Operation::Add => set_number(left, number.wrapping_add(right)),
        Operation::Subtract => set_number(left, number.wrapping_sub(right)),
        Operation::Multiply => set_number(left, number.wrapping_mul(right)),
        Operation::Less => set_flag(left, number < right),
        Operation::LessOrEqual => set_flag(left, number <= right),
        Operation::Greater => set_flag(left, number > right),
        Operation::GreaterOrEqual => set_flag(left, number >= right),
        _ => unreachable!(),
    }
}

/// A number and this operator behind it are done at once: the number goes to it straight.
#[inline(always)]
fn operate_top(frames: &mut Frames, operation: Operation, right: i32)
    requires fits { frames.old.top.place + 2 < 2 ^ 64 }
    requires plain { gives_always operation ≡ true }
    requires sound { operate_of operation (with_pushed (Value.Int right) (machine_of frames.old)) (Value.Int right ∷ (machine_of frames.old).top.stack) ≢ Bad }
    ensures goes { operate_of operation (with_pushed (Value.Int right) (machine_of frames.old)) (Value.Int right ∷ (machine_of frames.old).top.stack) ≡ Goes (machine_of frames.new) }
    ensures block { frames.new.top.block ≡ frames.old.top.block }
    ensures rest { frames.new ≡ record frames.old { top = frames.new.top } }
{
    match frames.top.stack.last_mut() {
        Some(left) => compute_at(left, operation, right),
        None => unreachable!(),
    }
    frames.top.place += 2;
}

/// A number and the operator behind it are done at once: the number goes to it straight. Each operator goes its own way from the start,
/// since what they share would be a second jump for all.
#[inline(always)]
pub(crate) fn operate_on(frames: &mut Frames, operation: Operation, right: i32)
    requires fits { frames.old.top.place + 2 < 2 ^ 64 }
    requires plain { gives_always operation ≡ true }
    requires sound { operate_of operation (with_pushed (Value.Int right) (machine_of frames.old)) (Value.Int right ∷ (machine_of frames.old).top.stack) ≢ Bad }
    ensures goes { operate_of operation (with_pushed (Value.Int right) (machine_of frames.old)) (Value.Int right ∷ (machine_of frames.old).top.stack) ≡ Goes (machine_of frames.new) }
    ensures block { frames.new.top.block ≡ frames.old.top.block }
    ensures rest { frames.new ≡ record frames.old { top = frames.new.top } }
{
    match operation {
        Operation::Add => operate_top(frames, Operation::Add, right),
        Operation::Subtract => operate_top(frames, Operation::Subtract, right),
        Operation::Multiply => operate_top(frames, Operation::Multiply, right),
        Operation::Less => operate_top(frames, Operation::Less, right),
        Operation::LessOrEqual => operate_top(frames, Operation::LessOrEqual, right),
        Operation::Greater => operate_top(frames, Operation::Greater, right),
        Operation::GreaterOrEqual => operate_top(frames, Operation::GreaterOrEqual, right),
        _ => unreachable!(),
    }
}
