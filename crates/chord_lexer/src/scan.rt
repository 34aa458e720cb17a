//! The longest piece at the front of a text: what its first bytes say of it, and runs of bytes.
#![tactic(auto)]

ghost use Rattle.std.specs.Prelude.{◌≡◌, ◌+◌, ◌<◌, ◌≤◌, ◌++◌, ◌∷◌, [], length, take, drop, IfOk, IfErr};
ghost use Rattle.chord_lexer.specs.Letters.{IsMaximalRun, first_passes, is_blank, is_letter};
ghost use Rattle.chord_lexer.specs.Comments.{begins_comment};
ghost use Rattle.chord_lexer.specs.Scanning.{test_of, lead_of, IsAdded, IsStop};

use crate::comment::comment;
use crate::identifier::identifier;
use crate::literal::literal;
use crate::mark::mark;
use crate::number::number;
use crate::token::{Kind, Token};
use std::alloc::Global;

/// Why no piece was found.
#[derive(Clone, Copy, Debug, PartialEq, Eq)]
pub enum Stop {
    /// For want of memory.
    Memory,
    /// None begins here.
    Nothing,
}

/// Bytes that runs are made of.
#[derive(Clone, Copy, Debug, PartialEq, Eq)]
pub enum ByteKind {
    Digit,
    /// What an identifier goes on with.
    Identifier,
    /// All but the ends of lines.
    Line,
}

/// What may begin a text, by its first bytes.
#[derive(Clone, Copy, Debug, PartialEq, Eq)]
pub enum Lead {
    Digit,
    Letter,
    Blank,
    Quote,
    Comment,
    Mark,
}

/// Whether an identifier may begin with the byte. Most bytes that are no letter are told by the first test.
#[inline]
fn is_letter(byte: u8) -> bool
    ensures { result ≡ is_letter byte }
{
    byte >= b'A' && (byte.is_ascii_alphabetic() || byte == b'_')
}

#[inline]
fn fits(kind: ByteKind, byte: u8) -> bool
    ensures { result ≡ test_of kind byte }
{
    match kind {
        ByteKind::Digit => byte.is_ascii_digit(),
        ByteKind::Identifier => is_letter(byte) || byte.is_ascii_digit(),
        ByteKind::Line => byte != b'\r' && byte != b'\n',
    }
}

/// How many bytes at the front are of the kind.
#[inline]
pub fn run(bytes: &[u8], kind: ByteKind) -> usize
    ensures within { result ≤ length bytes.now }
    ensures is { IsMaximalRun (test_of kind) (take result bytes.now) (drop result bytes.now) }
{
    let mut at = 0;
    while at < bytes.len() && fits(kind, bytes[at]) {
        at += 1;
    }
    at
}

/// The bytes after the first `n`.
pub fn after(bytes: &[u8], n: usize) -> &[u8]
    requires { n ≤ length bytes.now }
    ensures { result.now ≡ drop n bytes.now }
{
    &bytes[n..]
}

/// Whether a byte of the kind stands there.
pub fn follows(bytes: &[u8], at: usize, kind: ByteKind) -> bool
    ensures { result ≡ first_passes (test_of kind) (drop at bytes.now) }
{
    at < bytes.len() && fits(kind, bytes[at])
}

/// Whether a comment is the only thing that may begin here.
fn begins_comment(text: &[u8]) -> bool
    ensures { result ≡ begins_comment text.now }
{
    match text {
        [first, second, ..] => *first == b'/' && (*second == b'/' || *second == b'*'),
        _ => false,
    }
}

#[inline]
pub fn is_blank(byte: u8) -> bool
    ensures { result ≡ is_blank byte }
{
    byte == b' ' || byte == b'\t' || byte == b'\r' || byte == b'\n'
}

/// What may begin the text. Blanks, which nearly half of the pieces are, are told by the first test.
fn leading(text: &[u8]) -> Lead
    requires { 0 < length text.now }
    ensures { result ≡ lead_of text.now }
{
    let first = text[0];
    if is_blank(first) {
        Lead::Blank
    } else if first.is_ascii_digit() {
        Lead::Digit
    } else if is_letter(first) {
        Lead::Letter
    } else if first == b'"' {
        Lead::Quote
    } else if first == b'/' && begins_comment(text) {
        Lead::Comment
    } else {
        Lead::Mark
    }
}

/// Adds the token of this kind that stands at `start`, and gives its length.
// It is written where it is called, so that each kind of token stores the fields that it has and no other's.
#[inline(always)]
pub fn add(tokens: &mut Vec<Token>, kind: Kind, start: u32, length: usize) -> Result<usize, Stop>
    requires { start + length ≤ 1048576 }
    ensures length { IfOk result (λ n. n ≡ length) }
    ensures added { IfOk result (λ _. tokens.new.items ≡ tokens.old.items ++ record { kind = kind; start = start; end = start + length } ∷ []) }
    ensures memory { IfErr result (λ stop. stop ≡ Stop.Memory) }
{
    match tokens.push(Token {
        kind,
        start,
        end: start + length as u32,
    }) {
        Ok(()) => Ok(length),
        Err(_) => Err(Stop::Memory),
    }
}

/// Adds the token that the longest piece at the front is, if it is one, and gives the length of that piece.
///
/// `Nothing` comes exactly where no piece begins the text.
pub fn longest(
    alloc: Global,
    text: &[u8],
    start: u32,
    tokens: &mut Vec<Token>,
) -> Result<usize, Stop>
    requires some { 0 < length text.now }
    requires few { start + length text.now ≤ 1048576 }
    ensures found { IfOk result (IsAdded text.now start tokens.old.items tokens.new.items) }
    ensures none { IfErr result (IsStop text.now) }
{
    match leading(text) {
        Lead::Blank => Ok(1),
        Lead::Digit => number(text, start, tokens),
        Lead::Letter => identifier(alloc, text, start, tokens),
        Lead::Quote => literal(alloc, text, start, tokens),
        Lead::Comment => comment(text),
        Lead::Mark => mark(text, start, tokens),
    }
}
