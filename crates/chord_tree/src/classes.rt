//! Classes, their members and headers, and the `using` lines before them.
#![tactic(auto)]

ghost use Rattle.std.specs.Prelude.{◌≡◌, map};
ghost use Rattle.chord_tree.specs.Tree.{ConstructorMember, ChordMember};
ghost use Rattle.chord_tree.specs.View.{see_formals, see_header, see_member, see_class, see_using};
ghost use Rattle.chord_tree.specs.ViewStmts.{see_block};

use crate::names::{Name, ValueType};
use crate::stmts::Block;

/// What a modifier says.
#[derive(Clone, Copy, Debug, PartialEq, Eq)]
pub enum ModifierKeyword {
    /// `public`
    Public,
    /// `private`
    Private,
    /// `protected`
    Protected,
    /// `virtual`
    Virtual,
    /// `override`
    Override,
    /// `static`
    Static,
}

/// A modifier, and the number of its token.
#[derive(Drop)]
pub struct Modifier {
    /// What it says.
    pub keyword: ModifierKeyword,
    /// The number of its token.
    pub at: u32,
}

/// What stands in the place of a method's result.
#[derive(Drop)]
pub enum ReturnType {
    /// `async`
    Async { at: u32 },
    /// `void`
    Void { at: u32 },
    /// The type of a value.
    Value(ValueType),
}

/// A parameter.
#[derive(Drop)]
pub struct Formal {
    /// Its type.
    pub value_type: ValueType,
    /// Its name.
    pub name: Name,
}

/// Parameters in brackets.
#[derive(Drop)]
pub struct Formals {
    /// The number of `(`.
    pub at: u32,
    /// The parameters.
    pub parameters: Vec<Formal>,
}

/// A method's header.
#[derive(Drop)]
pub struct Header {
    /// Its modifiers, in their order.
    pub modifiers: Vec<Modifier>,
    /// Its result.
    pub result_type: ReturnType,
    /// The method's name.
    pub name: Name,
    /// Its parameters.
    pub formals: Formals,
}

/// A member of a class.
#[derive(Drop)]
pub enum Member {
    /// A constructor.
    Constructor {
        modifiers: Vec<Modifier>,
        name: Name,
        formals: Formals,
        body: Block,
    },
    /// A chord: one header or more, joined by `&`, and their body.
    Chord {
        headers: Vec<Header>,
        body: Block,
    },
}

/// A class.
#[derive(Drop)]
pub struct Class {
    /// The number of `public`, if it is there.
    pub public: Option<u32>,
    /// Its name.
    pub name: Name,
    /// The name of its base class, if it has one.
    pub base: Option<Name>,
    /// Its members.
    pub members: Vec<Member>,
    /// The number of `}`.
    pub end: u32,
}

/// A further part of a name in a `using` line.
#[derive(Drop)]
pub struct NamePart {
    /// The number of `.`.
    pub at: u32,
    /// The part.
    pub name: Name,
}

/// A `using` line.
#[derive(Drop)]
pub struct Using {
    /// The first part of its name.
    pub first: Name,
    /// The other parts.
    pub more: Vec<NamePart>,
}

impl Modifier {
    /// A modifier, and the number of its token.
    pub fn new(keyword: ModifierKeyword, at: u32) -> Modifier
        ensures { result ≡ record { keyword = keyword; at = at } }
    {
        Modifier { keyword, at }
    }
}

impl ReturnType {
    /// `async`
    pub fn asynchronous(at: u32) -> ReturnType
        ensures { result ≡ ReturnType.Async at }
    {
        ReturnType::Async { at }
    }

    /// `void`
    pub fn void(at: u32) -> ReturnType
        ensures { result ≡ ReturnType.Void at }
    {
        ReturnType::Void { at }
    }

    /// The type of a value.
    pub fn value(value_type: ValueType) -> ReturnType
        ensures { result ≡ ReturnType.Value value_type }
    {
        ReturnType::Value(value_type)
    }
}

impl Formal {
    /// A parameter.
    pub fn new(value_type: ValueType, name: Name) -> Formal
        ensures { result ≡ record { value_type = value_type; name = name } }
    {
        Formal { value_type, name }
    }
}

impl Formals {
    /// Parameters in brackets; the number is that of `(`.
    pub fn new(at: u32, parameters: Vec<Formal>) -> Formals
        ensures { see_formals result ≡ record { at = at; parameters = parameters.items } }
    {
        Formals { at, parameters }
    }
}

impl Header {
    /// A method's header.
    pub fn new(
        modifiers: Vec<Modifier>,
        result_type: ReturnType,
        name: Name,
        formals: Formals,
    ) -> Header
        ensures { see_header result ≡ record { modifiers = modifiers.items; result_type = result_type; name = name; formals = see_formals formals } }
    {
        Header {
            modifiers,
            result_type,
            name,
            formals,
        }
    }
}

impl Member {
    /// A constructor of a class.
    pub fn constructor(
        modifiers: Vec<Modifier>,
        name: Name,
        formals: Formals,
        body: Block,
    ) -> Member
        ensures { see_member result ≡ ConstructorMember modifiers.items name (see_formals formals) (see_block body) }
    {
        Member::Constructor {
            modifiers,
            name,
            formals,
            body,
        }
    }

    /// A chord.
    pub fn chord(headers: Vec<Header>, body: Block) -> Member
        ensures { see_member result ≡ ChordMember (map see_header headers.items) (see_block body) }
    {
        Member::Chord { headers, body }
    }
}

impl Class {
    /// A class; the numbers are those of `public`, if it is there, and of `}`.
    pub fn new(
        public: Option<u32>,
        name: Name,
        base: Option<Name>,
        members: Vec<Member>,
        end: u32,
    ) -> Class
        ensures { see_class result ≡ record { public_at = public; name = name; base = base; members = map see_member members.items; end = end } }
    {
        Class {
            public,
            name,
            base,
            members,
            end,
        }
    }
}

impl NamePart {
    /// A dot and a part of a name.
    pub fn new(at: u32, name: Name) -> NamePart
        ensures { result ≡ record { at = at; name = name } }
    {
        NamePart { at, name }
    }
}

impl Using {
    /// A `using` line.
    pub fn new(first: Name, more: Vec<NamePart>) -> Using
        ensures { see_using result ≡ record { first = first; parts = more.items } }
    {
        Using { first, more }
    }
}
