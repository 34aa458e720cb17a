//! Static types: what is known of a value before the program runs.
#![tactic(auto)]

/// The static type of a value. A class is known by its number.
#[derive(Clone, Copy, Debug, PartialEq, Eq)]
pub enum StaticType {
    /// A number of 32 bits.
    Int,
    /// A truth value.
    Bool,
    /// A text.
    Text,
    /// An object of this class, or of one that derives from it.
    Class(u32),
}
