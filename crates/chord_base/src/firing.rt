//! Whether a chord may fire after a list of entries.
#![tactic(auto)]

ghost use Rattle.std.specs.Prelude.{◌≡◌, ◌++◌, List, reverse, IsTrue, IfSome, IfNone, Some, ◌↔◌};
ghost use Rattle.chord_base.specs.declared.value.Value as value;
ghost use Rattle.chord_base.specs.Messages.{pending};
ghost use Rattle.chord_base.specs.Machine.{Takes};

use crate::equal::{same_object, same_values};
use crate::event::{Entry, What};
use crate::past::pending_of;
use crate::value::{Object, Value, Values};

/// The arguments of the pending message of this number, if it is one to this method of the object.
fn arguments_of(past: &[Entry], number: u32, object: Object, method: u8) -> Option<&Values>
    ensures some { IfSome result (λ vs. pending number (reverse past.now) ≡ Some (record { object = object; method = method; arguments = vs.now })) }
    ensures none { IfNone result ((vs : List value.Value) → pending number (reverse past.now) ≡ Some (record { object = object; method = method; arguments = vs }) → ⊥) }
{
    match &pending_of(past, number)?.what {
        What::Sent(to, its_method, values) if same_object(*to, object) && *its_method == method =>
            Some(values),
        What::Called(to, its_method, values) if same_object(*to, object) && *its_method == method =>
            Some(values),
        _ => None,
    }
}

/// Whether a list begins with these values.
fn begins_with(values: &[Value], first: &[Value]) -> bool
    ensures { IsTrue result ↔ ((rest : List value.Value) × (values.now ≡ first.now ++ rest)) }
{
    first.len() <= values.len() && same_values(&values[..first.len()], first)
}

/// Whether the members are pending messages to the object, one for each method in order, and the values are their
/// arguments concatenated.
pub(crate) fn are_taken(
    past: &[Entry],
    object: Object,
    methods: &[u8],
    members: &[u16],
    values: &[Value],
) -> bool
    ensures { IsTrue result ↔ Takes (reverse past.now) object methods.now members.now values.now }
{
    if methods.len() != members.len() {
        return false;
    }
    let mut rest = values;
    for i in 0..members.len() {
        match arguments_of(past, u32::from(members[i]), object, methods[i]) {
            Some(arguments) if begins_with(rest, arguments.items()) => {
                rest = &rest[arguments.items().len()..];
            }
            _ => return false,
        }
    }
    rest.is_empty()
}
