//! Names and the written types, with the numbers of their tokens.
#![tactic(auto)]

ghost use Rattle.std.specs.Prelude.{◌≡◌};

use chord_base::text::Text;

/// A name, and the number of its token.
#[derive(Drop)]
pub struct Name {
    /// Its bytes.
    pub text: Text,
    /// The number of its token.
    pub at: u32,
}

/// A type that has a word of its own.
#[derive(Clone, Copy, Debug, PartialEq, Eq)]
pub enum BasicType {
    /// `int`
    Int,
    /// `bool`
    Bool,
    /// `string`
    String,
}

/// The type of a value, as it is written.
#[derive(Drop)]
pub enum ValueType {
    /// The word of a basic type, and the number of its token.
    Basic { basic: BasicType, at: u32 },
    /// The name of a class.
    Class(Name),
}

impl Name {
    /// A name, and the number of its token.
    pub fn new(text: Text, at: u32) -> Name
        ensures { result ≡ record { text = text; at = at } }
    {
        Name { text, at }
    }
}

impl ValueType {
    /// The word of a basic type, and the number of its token.
    pub fn basic(basic: BasicType, at: u32) -> ValueType
        ensures { result ≡ ValueType.Basic basic at }
    {
        ValueType::Basic { basic, at }
    }

    /// The name of a class.
    pub fn class(name: Name) -> ValueType
        ensures { result ≡ ValueType.Class name }
    {
        ValueType::Class(name)
    }
}
