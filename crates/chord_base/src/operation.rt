//! The operators on values, as code that is at work evaluates them.
#![tactic(auto)]

ghost use Rattle.std.specs.Prelude.{◌≡◌, ◌≢◌, IfOk, IsOk, Some};
ghost use Rattle.std.specs.Int.{int_wrapping_div};
ghost use Rattle.std.specs.Int.RustNames.{int_rem};
ghost use mir.Syntax.{w32};
ghost use Rattle.chord_base.specs.Operators.{Is, Mistyped, compute as computed, joined, negated, denied, text_of, unless_zero, IsComputed};

use crate::equal::same_value;
use crate::event::Trap;
use crate::text::{Text, TextFault};
use crate::value::Value;
use std::alloc::{AllocError, Global};

/// An operator on two values. `+` is told apart as the sum of ints and the join of texts.
#[derive(Clone, Copy, Debug, PartialEq, Eq)]
pub enum Operation {
    /// `+` of two ints: wrapping.
    Add,
    /// `-` of two ints: wrapping.
    Subtract,
    /// `*`: wrapping.
    Multiply,
    /// `/`: toward zero, and the least int by -1 is itself. By 0 it traps.
    Divide,
    /// `%`: with the sign of the left operand. By 0 it traps.
    Remainder,
    /// `+` where one operand is a text. It traps above 1,024 bytes.
    Join,
    /// `==`.
    Equal,
    /// `!=`.
    NotEqual,
    /// `<`.
    Less,
    /// `>`.
    Greater,
    /// `<=`.
    LessOrEqual,
    /// `>=`.
    GreaterOrEqual,
}

/// A value, or the trap that comes in its place.
pub type Outcome = Result<Value, Trap>;

/// What the operator comes to: its value, or its trap.
///
/// Only a join takes memory.
#[inline(always)]
pub fn compute(
    alloc: Global,
    operation: Operation,
    left: Value,
    right: Value,
) -> Result<Outcome, AllocError>
    requires { computed operation left right ≢ Mistyped }
    ensures value { IfOk result (λ outcome. IsComputed (computed operation left right) outcome) }
    ensures lean { operation ≢ Operation.Join → IsOk result }
{
    match operation {
        Operation::Join => join(alloc, &left, &right),
        Operation::Equal => Ok(Ok(Value::Flag(same_value(&left, &right)))),
        Operation::NotEqual => Ok(Ok(Value::Flag(!same_value(&left, &right)))),
        _ => match (left, right) {
            (Value::Int(left), Value::Int(right)) => Ok(compute_ints(operation, left, right)),
            _ => unreachable!(),
        },
    }
}

/// What an operator on two ints comes to.
#[inline(always)]
fn compute_ints(operation: Operation, left: i32, right: i32) -> Outcome
    requires { operation ≢ Operation.Join }
    ensures { IsComputed (computed operation (Value.Int left) (Value.Int right)) result }
{
    match operation {
        Operation::Add => Ok(Value::Int(left.wrapping_add(right))),
        Operation::Subtract => Ok(Value::Int(left.wrapping_sub(right))),
        Operation::Multiply => Ok(Value::Int(left.wrapping_mul(right))),
        Operation::Divide => divide(left, right),
        Operation::Remainder => remainder(left, right),
        Operation::Less => Ok(Value::Flag(left < right)),
        Operation::Greater => Ok(Value::Flag(left > right)),
        Operation::LessOrEqual => Ok(Value::Flag(left <= right)),
        Operation::GreaterOrEqual => Ok(Value::Flag(left >= right)),
        Operation::Equal => Ok(Value::Flag(left == right)),
        Operation::NotEqual => Ok(Value::Flag(left != right)),
        Operation::Join => unreachable!(),
    }
}

/// The quotient, toward zero, or the trap at 0.
fn divide(left: i32, right: i32) -> Outcome
    ensures { IsComputed (unless_zero right (int_wrapping_div w32 left right)) result }
{
    if right == 0 {
        return Err(Trap::DivideByZero);
    }
    Ok(Value::Int(left.wrapping_div(right)))
}

/// The remainder, with the sign of the left operand, or the trap at 0.
fn remainder(left: i32, right: i32) -> Outcome
    ensures { IsComputed (unless_zero right (int_rem left right)) result }
{
    if right == 0 {
        return Err(Trap::DivideByZero);
    }
    Ok(Value::Int(left.wrapping_rem(right)))
}

/// The two values' texts joined, or the trap above 1,024 bytes.
fn join(alloc: Global, left: &Value, right: &Value) -> Result<Outcome, AllocError>
    requires { joined (text_of left.now) (text_of right.now) ≢ Mistyped }
    ensures { IfOk result (λ outcome. IsComputed (joined (text_of left.now) (text_of right.now)) outcome) }
{
    let left = printed(alloc, left)?;
    let right = printed(alloc, right)?;
    match Text::joined(alloc, &left, &right) {
        Ok(text) => Ok(Ok(Value::Text(text))),
        Err(TextFault::TooLong) => Ok(Err(Trap::TextTooLong)),
        Err(TextFault::Memory) => Err(AllocError),
    }
}

/// The text of an int, a truth value or a text: what printing it prints.
pub fn printed(alloc: Global, value: &Value) -> Result<Text, AllocError>
    requires { text_of value.now ≢ None }
    ensures { IfOk result (λ text. text_of value.now ≡ Some text) }
{
    match value {
        Value::Int(number) => Text::of_int(alloc, *number),
        Value::Flag(flag) => Text::of_flag(alloc, *flag),
        Value::Text(text) => text.copied(alloc),
        _ => unreachable!(),
    }
}

/// Unary `-`: wrapping.
pub fn negate(value: Value) -> Value
    requires { negated value ≢ Mistyped }
    ensures { negated value ≡ Is result }
{
    match value {
        Value::Int(number) => Value::Int(number.wrapping_neg()),
        _ => unreachable!(),
    }
}

/// `!`.
pub fn deny(value: Value) -> Value
    requires { denied value ≢ Mistyped }
    ensures { denied value ≡ Is result }
{
    match value {
        Value::Flag(flag) => Value::Flag(!flag),
        _ => unreachable!(),
    }
}
