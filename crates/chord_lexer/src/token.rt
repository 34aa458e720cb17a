//! Tokens, their kinds, and where they stand in the text.
#![tactic(auto)]

ghost use Rattle.std.specs.Prelude.{◌≡◌, IfOk, IsOk};
ghost use Rattle.chord_lexer.specs.Copies.{IsSurelyCopied};

use crate::bytes::Bytes;
use chord_base::text::Text;
use std::alloc::{AllocError, Global};

/// A token and its place.
#[derive(Drop)]
pub struct Token {
    /// What it is.
    pub kind: Kind,
    /// The number of its first byte, from 0. A leading mark EF BB BF is not counted.
    pub start: u32,
    /// The number of the byte after its last.
    pub end: u32,
}

/// What a token is.
#[derive(Drop)]
pub enum Kind {
    /// A reserved word.
    Word(Keyword),
    /// A name: 1 to 255 bytes.
    Name(Text),
    /// A number: at most 2,147,483,648.
    Number(u32),
    /// A text literal: the bytes that it stands for.
    Literal(Bytes),
    /// A mark.
    Mark(Mark),
}

/// The reserved words: those that the grammar uses and `do`, each by its name, and one variant for all others.
#[derive(Clone, Copy, Debug, PartialEq, Eq)]
pub enum Keyword {
    Async,
    Bool,
    Class,
    /// `do` stands in no program.
    Do,
    Else,
    False,
    If,
    Int,
    New,
    Override,
    Private,
    Protected,
    Public,
    Return,
    Static,
    String,
    This,
    True,
    Using,
    Virtual,
    Void,
    While,
    /// Each reserved word that no program has, but `do`.
    Unused,
}

/// The marks.
#[derive(Clone, Copy, Debug, PartialEq, Eq)]
pub enum Mark {
    /// `{`
    OpenBrace,
    /// `}`
    CloseBrace,
    /// `(`
    OpenParenthesis,
    /// `)`
    CloseParenthesis,
    /// `;`
    Semicolon,
    /// `,`
    Comma,
    /// `.`
    Dot,
    /// `:`
    Colon,
    /// `=`
    Assign,
    /// `==`
    Equal,
    /// `!=`
    NotEqual,
    /// `<`
    Less,
    /// `>`
    Greater,
    /// `<=`
    LessOrEqual,
    /// `>=`
    GreaterOrEqual,
    /// `+`
    Plus,
    /// `-`
    Minus,
    /// `*`
    Times,
    /// `/`
    Divide,
    /// `%`
    Remainder,
    /// `!`
    Not,
    /// `&&`
    And,
    /// `||`
    Or,
    /// `&`
    Ampersand,
    /// `++` stands in no program.
    Increment,
    /// `--` stands in no program.
    Decrement,
}

impl Kind {
    /// An equal kind. It is always made but of a literal, which is copied in memory, and of a name of more than 8 bytes, which has too many owners to be counted where it fails.
    pub fn copied(&self, alloc: Global) -> Result<Kind, AllocError>
        ensures equal { IfOk result (λ kind. kind ≡ self.now) }
        ensures short { IsSurelyCopied self.now → IsOk result }
    {
        match self {
            Kind::Word(keyword) => Ok(Kind::Word(*keyword)),
            Kind::Name(name) => Ok(Kind::Name(name.copied(alloc)?)),
            Kind::Number(number) => Ok(Kind::Number(*number)),
            Kind::Literal(bytes) => Ok(Kind::Literal(bytes.copied(alloc)?)),
            Kind::Mark(mark) => Ok(Kind::Mark(*mark)),
        }
    }
}
