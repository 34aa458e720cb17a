//! Whether headers agree: in result, parameter types, access and modifiers.
#![tactic(auto)]

ghost use Rattle.std.specs.Prelude.{◌≡◌, option_map};
ghost use Rattle.chord_tree.specs.View.{see_header};
ghost use Rattle.chord_classes.specs.Table.{formal_types};
ghost use Rattle.chord_classes.specs.OverrideRules.{same_basic, same_written, same_all, same_result, same_access, agree, may_override};
ghost use Rattle.chord_classes.specs.MethodViews.{see_access, see_found};

use crate::headers::{is_virtual, may_be_overridden, overrides};
use chord_classes::method::{Access, Found, access_of};
use chord_tree::classes::{Formal, Header, ReturnType};
use chord_tree::names::{BasicType, ValueType};

fn same_basic(left: BasicType, right: BasicType) -> bool
    ensures { result ≡ same_basic left right }
{
    match left {
        BasicType::Int => matches!(right, BasicType::Int),
        BasicType::Bool => matches!(right, BasicType::Bool),
        BasicType::String => matches!(right, BasicType::String),
    }
}

/// Whether two written types are the same: classes by their names.
fn same_written(left: &ValueType, right: &ValueType) -> bool
    ensures { result ≡ same_written left.now right.now }
{
    match left {
        ValueType::Basic { basic, at: _ } => match right {
            ValueType::Basic {
                basic: other,
                at: _,
            } => same_basic(*basic, *other),
            ValueType::Class(_) => false,
        },
        ValueType::Class(name) => match right {
            ValueType::Basic { .. } => false,
            ValueType::Class(other) => name.text.items() == other.text.items(),
        },
    }
}

/// Whether the parameters have the same types, one by one.
fn same_parameters(left: &[Formal], right: &[Formal]) -> bool
    ensures { result ≡ same_all (formal_types left.now) (formal_types right.now) }
{
    let mut left = left;
    let mut right = right;
    while let [first, more @ ..] = left {
        let [other, others @ ..] = right else {
            return false;
        };
        if !same_written(&first.value_type, &other.value_type) {
            return false;
        }
        left = more;
        right = others;
    }
    right.is_empty()
}

fn same_result(left: &ReturnType, right: &ReturnType) -> bool
    ensures { result ≡ same_result left.now right.now }
{
    match left {
        ReturnType::Async { at: _ } => matches!(right, ReturnType::Async { .. }),
        ReturnType::Void { at: _ } => matches!(right, ReturnType::Void { .. }),
        ReturnType::Value(written) => match right {
            ReturnType::Value(other) => same_written(written, other),
            _ => false,
        },
    }
}

fn same_access(left: Access, right: Access) -> bool
    ensures { result ≡ same_access (see_access left) (see_access right) }
{
    match left {
        Access::Public => matches!(right, Access::Public),
        Access::Protected => matches!(right, Access::Protected),
        Access::Private => matches!(right, Access::Private),
    }
}

/// Whether two headers agree in result and parameter types, access, `virtual` and `override`.
pub fn agree(first: &Header, header: &Header) -> bool
    ensures { result ≡ agree (see_header first.now) (see_header header.now) }
{
    if !same_result(&first.result_type, &header.result_type) {
        return false;
    }
    if !same_parameters(&first.formals.parameters, &header.formals.parameters) {
        return false;
    }
    if !same_access(access_of(&first.modifiers), access_of(&header.modifiers)) {
        return false;
    }
    if is_virtual(first) != is_virtual(header) {
        return false;
    }
    overrides(first) == overrides(header)
}

/// Whether a header may override what is found in the base class.
pub fn may_override(header: &Header, found: Option<Found>) -> bool
    ensures { result ≡ may_override (see_header header.now) (option_map see_found found.entry) }
{
    let Some(found) = found else {
        return false;
    };
    let method = found.method;
    if !same_result(&method.header.result_type, &header.result_type) {
        return false;
    }
    if !same_parameters(
        &method.header.formals.parameters,
        &header.formals.parameters,
    ) {
        return false;
    }
    if !may_be_overridden(method.header) {
        return false;
    }
    same_access(method.access, access_of(&header.modifiers))
}
