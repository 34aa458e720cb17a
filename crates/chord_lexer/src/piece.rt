//! What a source is made of: blanks, comments and tokens.
#![tactic(auto)]

use crate::token::Kind;

/// A piece of a source.
#[derive(Drop)]
pub enum Piece {
    /// One of the bytes 20, 09, 0D and 0A.
    Blank,
    /// From `//` to the end of its line, or from `/*` through `*/`.
    Comment,
    /// A token of this kind.
    Token(Kind),
}
