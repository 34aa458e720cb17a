//! Operators of chord_base: ints at their edges, and numbers that are joined as texts.

use chord_base::operation::{Operation, Outcome, compute};
use chord_base::text::Text;
use chord_base::value::Value;
use std::alloc::{AllocError, Global};
use std::test::Fail;

/// The number that was computed, if it is no trap.
fn number_of(outcome: Outcome) -> Option<i32> {
    match outcome {
        Ok(Value::Int(number)) => Some(number),
        _ => None,
    }
}

fn quotient(alloc: Global, left: i32, right: i32) -> Result<Option<i32>, AllocError> {
    let outcome = compute(
        alloc,
        Operation::Divide,
        Value::Int(left),
        Value::Int(right),
    )?;
    Ok(number_of(outcome))
}

fn remainder(alloc: Global, left: i32, right: i32) -> Result<Option<i32>, AllocError> {
    let outcome = compute(
        alloc,
        Operation::Remainder,
        Value::Int(left),
        Value::Int(right),
    )?;
    Ok(number_of(outcome))
}

fn sum(alloc: Global, left: i32, right: i32) -> Result<Option<i32>, AllocError> {
    let outcome = compute(alloc, Operation::Add, Value::Int(left), Value::Int(right))?;
    Ok(number_of(outcome))
}

/// The quotient, the remainder and the sum of two ints.
fn computed(
    alloc: Global,
    left: i32,
    right: i32,
) -> Result<(Option<i32>, Option<i32>, Option<i32>), AllocError> {
    let divided = quotient(alloc, left, right)?;
    let remaining = remainder(alloc, left, right)?;
    let added = sum(alloc, left, right)?;
    Ok((divided, remaining, added))
}

/// Two ints, their quotient and remainder, and their sum.
const EDGES: [(i32, i32, Option<i32>, Option<i32>, i32); 6] = [
    (7, 2, Some(3), Some(1), 9),
    (-7, 2, Some(-3), Some(-1), -5),
    (7, -2, Some(-3), Some(1), 5),
    (i32::MIN, -1, Some(i32::MIN), Some(0), i32::MAX),
    (i32::MAX, 1, Some(i32::MAX), Some(0), i32::MIN),
    (1, 0, None, None, 1),
];

#[test]
fn operators_at_the_edges_of_ints(rt: HostRuntime) -> Result<(), Fail> {
    for (left, right, divided, remaining, added) in EDGES {
        assert_eq!(rt;
            computed(rt.alloc(), left, right)?,
            (divided, remaining, Some(added)),
            "{left} and {right}"
        );
    }
    Ok(())
}

/// The length of the text of two numbers joined, if it is no trap.
fn joined_numbers(alloc: Global, left: i32, right: i32) -> Result<usize, AllocError> {
    match compute(alloc, Operation::Join, Value::Int(left), Value::Int(right))? {
        Ok(Value::Text(text)) => Ok(text.items().len()),
        _ => Ok(0),
    }
}

/// Whether a truth value's text is this.
fn is_text_of_flag(alloc: Global, flag: bool, wanted: &[u8]) -> Result<bool, AllocError> {
    let text = Text::of_flag(alloc, flag)?;
    Ok(text.items() == wanted)
}

/// Whether an int's text is this.
fn is_text_of_int(alloc: Global, number: i32, wanted: &[u8]) -> Result<bool, AllocError> {
    let text = Text::of_int(alloc, number)?;
    Ok(text.items() == wanted)
}

#[test]
fn numbers_are_joined_as_texts(rt: HostRuntime) -> Result<(), Fail> {
    assert_eq!(rt; joined_numbers(rt.alloc(), i32::MIN, 0)?, 12);
    let is_true = is_text_of_flag(rt.alloc(), true, b"True")?;
    let is_number = is_text_of_int(rt.alloc(), -17, b"-17")?;
    assert_eq!(rt; (is_true, is_number), (true, true), "`True`, `-17`");
    Ok(())
}
