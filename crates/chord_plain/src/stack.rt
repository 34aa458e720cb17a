//! Stacks of values, and the slots of a block.
#![tactic(auto)]

ghost use Rattle.std.specs.Prelude.{◌≡◌, ◌≤◌, [], ◌∷◌, IfOk, OnOk, reverse};
ghost use Rattle.chord_code.specs.Slots.{first_slots};
ghost use Rattle.chord_code.specs.Machine.{pops};
ghost use Rattle.chord_plain.specs.Stacks.{IsTakenOff, AreTakenOff, IsMessagePopped, IsSlotSet, items_if_there};

use chord_base::value::{Object, Value, Values};
use std::alloc::{AllocError, Global};

/// Pushes a value.
pub(crate) fn push(stack: &mut Vec<Value>, value: Value) -> Result<(), AllocError>
    ensures { OnOk result (reverse stack.new.items ≡ value ∷ reverse stack.old.items) }
{
    stack.push(value)?;
    Ok(())
}

/// Pops the value on top. None where the stack is empty.
pub(crate) fn pop(stack: &mut Vec<Value>) -> Option<Value>
    ensures { IsTakenOff (reverse stack.old.items) result (reverse stack.new.items) }
{
    stack.pop()
}

/// Pops so many values. They come in the order in which they were pushed. None where there are fewer.
pub(crate) fn pop_all(
    alloc: Global,
    stack: &mut Vec<Value>,
    n: usize,
) -> Result<Option<Vec<Value>>, AllocError>
    ensures { IfOk result (λ values. AreTakenOff n (reverse stack.old.items) values (reverse stack.new.items)) }
{
    let mut values = Vec::new(alloc);
    for _ in 0..n {
        match pop(stack) {
            Some(value) => values.push(value)?,
            None => return Ok(None),
        }
    }
    values.reverse();
    Ok(Some(values))
}

/// Pops the arguments of a message, so many, and then its object. None where they are not there.
pub(crate) fn pop_message(
    alloc: Global,
    stack: &mut Vec<Value>,
    n: usize,
) -> Result<Option<(Object, Values)>, AllocError>
    requires few { n ≤ 8 }
    ensures { IfOk result (λ message. IsMessagePopped (pops n [] (reverse stack.old.items)) message (reverse stack.new.items)) }
{
    match pop_all(alloc, stack, n)? {
        None => Ok(None),
        Some(arguments) => match pop(stack) {
            Some(Value::Ref(object)) => Ok(Some((object, Values::of_items(arguments)))),
            _ => Ok(None),
        },
    }
}

/// An equal stack.
pub(crate) fn copied(alloc: Global, stack: &[Value]) -> Result<Vec<Value>, AllocError>
    ensures { IfOk result (λ copy. copy.items ≡ stack.now) }
{
    let mut copy = Vec::new(alloc);
    for value in stack {
        copy.push(value.copied(alloc)?)?;
    }
    Ok(copy)
}

/// The slots of a block that begins with these values. None where it has fewer slots.
pub(crate) fn filled(n: usize, values: Vec<Value>) -> Result<Option<Vec<Value>>, AllocError>
    ensures { IfOk result (λ slots. items_if_there slots ≡ first_slots n values.items) }
{
    if values.len() > n {
        return Ok(None);
    }
    let missing = n - values.len();
    let mut slots = values;
    for _ in 0..missing {
        slots.push(Value::Unit)?;
    }
    Ok(Some(slots))
}

/// Sets slot i. Whether it is there.
pub(crate) fn set(slots: &mut Vec<Value>, i: usize, value: Value) -> bool
    ensures { IsSlotSet i value slots.old.items result slots.new.items }
{
    if i >= slots.len() {
        return false;
    }
    slots[i] = value;
    true
}
