//! Whether operands are of the kinds that an operator takes, and what it then comes to.
#![tactic(auto)]

ghost use Rattle.std.specs.Prelude.{◌≡◌, ◌≢◌, ◌↔◌, IsTrue, IfOk, None};
ghost use Rattle.chord_base.specs.Operators.{Mistyped, compute as compute_of, text_of, IsComputed};
ghost use Rattle.chord_plain.specs.Stacks.{are_numbers};

use chord_base::operation::{Operation, Outcome, compute};
use chord_base::value::Value;
use std::alloc::{AllocError, Global};

/// Whether the value has a text: an int, a truth value or a text.
pub(crate) fn has_text(value: &Value) -> bool
    ensures { IsTrue result ↔ (text_of value.now ≢ None) }
{
    match value {
        Value::Int(_) => true,
        Value::Flag(_) => true,
        Value::Text(_) => true,
        Value::Unit => false,
        Value::Ref(_) => false,
    }
}

/// Whether both are ints, truth values, texts or objects.
fn are_alike(left: &Value, right: &Value) -> bool
    ensures equal { IsTrue result ↔ (compute_of Operation.Equal left.now right.now ≢ Mistyped) }
    ensures other { IsTrue result ↔ (compute_of Operation.NotEqual left.now right.now ≢ Mistyped) }
{
    match (left, right) {
        (Value::Int(_), Value::Int(_)) => true,
        (Value::Flag(_), Value::Flag(_)) => true,
        (Value::Text(_), Value::Text(_)) => true,
        (Value::Ref(_), Value::Ref(_)) => true,
        _ => false,
    }
}

/// Whether both are ints.
fn are_ints(left: &Value, right: &Value) -> bool
    ensures { result ≡ are_numbers left.now right.now }
{
    match (left, right) {
        (Value::Int(_), Value::Int(_)) => true,
        _ => false,
    }
}

/// Whether the operator takes operands of these kinds.
pub(crate) fn takes(operation: Operation, left: &Value, right: &Value) -> bool
    ensures { IsTrue result ↔ (compute_of operation left.now right.now ≢ Mistyped) }
{
    match operation {
        Operation::Join => has_text(left) && has_text(right),
        Operation::Equal => are_alike(left, right),
        Operation::NotEqual => are_alike(left, right),
        Operation::Add => are_ints(left, right),
        Operation::Subtract => are_ints(left, right),
        Operation::Multiply => are_ints(left, right),
        Operation::Divide => are_ints(left, right),
        Operation::Remainder => are_ints(left, right),
        Operation::Less => are_ints(left, right),
        Operation::Greater => are_ints(left, right),
        Operation::LessOrEqual => are_ints(left, right),
        Operation::GreaterOrEqual => are_ints(left, right),
    }
}

/// What the operator comes to. The operands are left as they are.
pub(crate) fn computed(
    alloc: Global,
    operation: Operation,
    left: &Value,
    right: &Value,
) -> Result<Outcome, AllocError>
    requires { compute_of operation left.now right.now ≢ Mistyped }
    ensures { IfOk result (λ outcome. IsComputed (compute_of operation left.now right.now) outcome) }
{
    let left = left.copied(alloc)?;
    let right = right.copied(alloc)?;
    compute(alloc, operation, left, right)
}
