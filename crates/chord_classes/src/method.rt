//! Methods and constructors of classes, by their first headers.
#![tactic(auto)]

ghost use Rattle.std.specs.Prelude.{◌≡◌};
ghost use Rattle.chord_tree.specs.View.{see_header};
ghost use Rattle.chord_classes.specs.Table.{access_of, method_of};
ghost use Rattle.chord_classes.specs.MethodViews.{see_access, see_method};

use chord_tree::classes::{Formal, Header, Modifier, ModifierKeyword};

/// Who may use a method or a constructor.
#[derive(Clone, Copy)]
pub enum Access {
    Public,
    Protected,
    Private,
}

/// A method: its first header, who may use it, and the class in which it is new.
#[derive(Clone, Copy)]
pub struct Method<'a> {
    pub header: &'a Header,
    pub access: Access,
    pub owner: u32,
}

/// A method that is new in a class, and its place among those.
#[derive(Clone, Copy)]
pub struct OwnMethod<'a> {
    pub place: usize,
    pub method: Method<'a>,
}

/// A method and its number.
#[derive(Clone, Copy)]
pub struct Found<'a> {
    pub number: u32,
    pub method: Method<'a>,
}

/// A constructor: who may use it, and its parameters.
#[derive(Clone, Copy)]
pub struct Builder<'a> {
    pub access: Access,
    pub formals: &'a [Formal],
}

/// The method that a header makes, which is new in this class.
pub fn method_of(owner: u32, header: &Header) -> Method
    ensures { see_method result ≡ method_of owner (see_header header.now) }
{
    Method {
        header,
        access: access_of(&header.modifiers),
        owner,
    }
}

/// What modifiers say of access: the first that says something counts, and without one it is private.
pub fn access_of(modifiers: &[Modifier]) -> Access
    ensures { see_access result ≡ access_of modifiers.now }
{
    for modifier in modifiers {
        match modifier.keyword {
            ModifierKeyword::Public => return Access::Public,
            ModifierKeyword::Protected => return Access::Protected,
            ModifierKeyword::Private => return Access::Private,
            _ => {}
        }
    }
    Access::Private
}
