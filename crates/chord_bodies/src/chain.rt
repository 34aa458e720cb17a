//! What the last operator and the last call of a chain give, and a type by its place.
#![tactic(auto)]

ghost use Rattle.std.specs.Prelude.{◌≡◌, map, slice_get};
ghost use Rattle.chord_bodies.specs.View.{view_link, view_call};
ghost use Rattle.chord_bodies.specs.Types.{operation_type};
ghost use Rattle.chord_bodies.specs.Chains.{binary_type, last_link, last_call};

use crate::expr::{BinaryOperator, Call, Link};
use chord_base::operation::Operation;
use chord_base::static_type::StaticType;

/// The operator of the last link.
pub fn last_operator(link: &Link, more: &[Link]) -> BinaryOperator
    ensures { result ≡ last_link (view_link link.now).operator (map view_link more.now) }
{
    match more.last() {
        Some(last) => last.operator,
        None => link.operator,
    }
}

/// The result of the last call.
pub fn last_result(call: &Call, more: &[Call]) -> Option<StaticType>
    ensures { result ≡ last_call (view_call call.now).result (map view_call more.now) }
{
    match more.last() {
        Some(last) => last.result,
        None => call.result,
    }
}

/// The type of what an operator gives.
pub fn operator_type(operator: BinaryOperator) -> StaticType
    ensures { result ≡ binary_type operator }
{
    match operator {
        BinaryOperator::And | BinaryOperator::Or => StaticType::Bool,
        BinaryOperator::By(operation) => operation_type(operation),
    }
}

/// The type of what an operator on two values gives.
fn operation_type(operation: Operation) -> StaticType
    ensures { result ≡ operation_type operation }
{
    match operation {
        Operation::Add
        | Operation::Subtract
        | Operation::Multiply
        | Operation::Divide
        | Operation::Remainder => StaticType::Int,
        Operation::Join => StaticType::Text,
        Operation::Equal
        | Operation::NotEqual
        | Operation::Less
        | Operation::Greater
        | Operation::LessOrEqual
        | Operation::GreaterOrEqual => StaticType::Bool,
    }
}

/// The type at this place.
pub fn type_at(types: &[StaticType], place: usize) -> Option<StaticType>
    ensures { result ≡ slice_get types.now place }
{
    types.get(place).copied()
}
