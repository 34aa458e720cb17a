//! Whether two texts, values, ends or asks are equal.
#![tactic(auto)]

ghost use Rattle.std.specs.Prelude.{◌≡◌, false, IsTrue, ◌↔◌};

use crate::event::{End, Trap, What};
use crate::members::Members;
use crate::text::Text;
use crate::value::{Object, Value, Values};

/// Whether two objects are one: their numbers and their classes are equal.
pub fn same_object(left: Object, right: Object) -> bool
    ensures { IsTrue result ↔ (left ≡ right) }
{
    left.number == right.number && left.class == right.class
}

/// Whether two texts have the same bytes.
pub fn same_text(left: &Text, right: &Text) -> bool
    ensures { IsTrue result ↔ (left.now ≡ right.now) }
{
    left.items() == right.items()
}

/// Whether two lists of members have the same numbers in the same order.
pub fn same_members(left: &Members, right: &Members) -> bool
    ensures { IsTrue result ↔ (left.now ≡ right.now) }
{
    left.items() == right.items()
}

/// Whether two values are equal.
pub fn same_value(left: &Value, right: &Value) -> bool
    ensures { IsTrue result ↔ (left.now ≡ right.now) }
{
    match (left, right) {
        (Value::Unit, Value::Unit) => true,
        (Value::Int(left), Value::Int(right)) => *left == *right,
        (Value::Flag(left), Value::Flag(right)) => *left == *right,
        (Value::Text(left), Value::Text(right)) => same_text(left, right),
        (Value::Ref(left), Value::Ref(right)) => same_object(*left, *right),
        _ => false,
    }
}

/// Whether two traps are one.
pub fn same_trap(left: Trap, right: Trap) -> bool
    ensures { IsTrue result ↔ (left ≡ right) }
{
    match (left, right) {
        (Trap::DivideByZero, Trap::DivideByZero) => true,
        (Trap::OutOfTurns, Trap::OutOfTurns) => true,
        (Trap::TooDeep, Trap::TooDeep) => true,
        (Trap::TextTooLong, Trap::TextTooLong) => true,
        _ => false,
    }
}

/// Whether two ends are equal.
pub fn same_end(left: &End, right: &End) -> bool
    ensures { IsTrue result ↔ (left.now ≡ right.now) }
{
    match (left, right) {
        (End::Gives(left), End::Gives(right)) => same_value(left, right),
        (End::Traps(left), End::Traps(right)) => same_trap(*left, *right),
        _ => false,
    }
}

/// Whether two lists of values are equal.
pub fn same_values(left: &[Value], right: &[Value]) -> bool
    ensures { IsTrue result ↔ (left.now ≡ right.now) }
{
    if left.len() != right.len() {
        return false;
    }
    for i in 0..left.len() {
        if !same_value(&left[i], &right[i]) {
            return false;
        }
    }
    true
}

/// Whether two lists of ends are equal.
pub fn same_ends(left: &[End], right: &[End]) -> bool
    ensures { IsTrue result ↔ (left.now ≡ right.now) }
{
    if left.len() != right.len() {
        return false;
    }
    for i in 0..left.len() {
        if !same_end(&left[i], &right[i]) {
            return false;
        }
    }
    true
}

/// Whether two messages are to one method of one object, with equal arguments.
fn same_message(
    object: Object,
    method: u8,
    values: &Values,
    other: Object,
    its_method: u8,
    its_values: &Values,
) -> bool
    ensures same { IsTrue result → (object ≡ other) × (method ≡ its_method) × (values.now ≡ its_values.now) }
    ensures other { result ≡ false → (object ≡ other) → (method ≡ its_method) → (values.now ≡ its_values.now) → ⊥ }
{
    same_object(object, other)
        && method == its_method
        && same_values(values.items(), its_values.items())
}

/// Whether two entries say the same.
pub fn same_what(left: &What, right: &What) -> bool
    ensures { IsTrue result ↔ (left.now ≡ right.now) }
{
    match (left, right) {
        (What::Begun, What::Begun) => true,
        (What::Made(left), What::Made(right)) => *left == *right,
        (What::Sent(o, j, vs), What::Sent(p, k, ws)) => same_message(*o, *j, vs, *p, *k, ws),
        (What::Called(o, j, vs), What::Called(p, k, ws)) => same_message(*o, *j, vs, *p, *k, ws),
        (What::Printed(left), What::Printed(right)) => same_text(left, right),
        (What::Fired(k, o, ms, vs), What::Fired(l, p, ns, ws)) => {
            *k == *l && same_members(ms, ns) && same_message(*o, 0, vs, *p, 0, ws)
        }
        (What::Ended(left), What::Ended(right)) => same_end(left, right),
        _ => false,
    }
}
