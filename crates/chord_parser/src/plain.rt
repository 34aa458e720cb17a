//! The words that say a result.
#![tactic(auto)]

/// A word that stands in the place of a result.
#[derive(Clone, Copy)]
pub enum ResultKeyword {
    /// `async`
    Async,
    /// `void`
    Void,
    /// `int`
    Int,
    /// `bool`
    Bool,
    /// `string`
    String,
}
