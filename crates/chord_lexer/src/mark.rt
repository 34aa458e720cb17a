//! Marks, by the longest reading.
#![tactic(auto)]

ghost use Rattle.std.specs.Prelude.{◌≡◌, ◌+◌, ◌<◌, ◌≤◌, ◌∷◌, [], length, slice_index, IfSome, IfOk, IfErr};
ghost use Rattle.chord_lexer.specs.Marks.{mark_bytes};
ghost use Rattle.chord_lexer.specs.Scanning.{lead_of, single_mark, second_mark, pair_after, IsAdded, IsStop};
ghost use Rattle.chord_lexer.specs.declared.scan.Lead.TheVariants as leads;

use crate::scan::{Stop, add};
use crate::token::{Kind, Mark, Token};

/// The mark of one byte.
fn single(byte: u8) -> Option<Mark>
    ensures value { result ≡ single_mark byte }
    ensures spelled { IfSome result (λ mark. mark_bytes mark ≡ byte ∷ []) }
{
    match byte {
        b'{' => Some(Mark::OpenBrace),
        b'}' => Some(Mark::CloseBrace),
        b'(' => Some(Mark::OpenParenthesis),
        b')' => Some(Mark::CloseParenthesis),
        b';' => Some(Mark::Semicolon),
        b',' => Some(Mark::Comma),
        b'.' => Some(Mark::Dot),
        b':' => Some(Mark::Colon),
        b'=' => Some(Mark::Assign),
        b'<' => Some(Mark::Less),
        b'>' => Some(Mark::Greater),
        b'+' => Some(Mark::Plus),
        b'-' => Some(Mark::Minus),
        b'*' => Some(Mark::Times),
        b'/' => Some(Mark::Divide),
        b'%' => Some(Mark::Remainder),
        b'!' => Some(Mark::Not),
        b'&' => Some(Mark::Ampersand),
        _ => None,
    }
}

/// The mark of two bytes, if this is the second one.
// In line, so that a mark is told by one jump on its first byte and not by a test of the length before.
#[inline(always)]
fn second(text: &[u8], byte: u8, mark: Mark) -> Option<Mark>
    ensures { result ≡ second_mark text.now byte mark }
{
    if text.len() > 1 && text[1] == byte {
        Some(mark)
    } else {
        None
    }
}

/// The mark of the first two bytes.
#[inline(always)]
fn pair_at(text: &[u8]) -> Option<Mark>
    requires { 0 < length text.now }
    ensures { result ≡ pair_after (slice_index text.now 0) text.now }
{
    match text[0] {
        b'=' => second(text, b'=', Mark::Equal),
        b'!' => second(text, b'=', Mark::NotEqual),
        b'<' => second(text, b'=', Mark::LessOrEqual),
        b'>' => second(text, b'=', Mark::GreaterOrEqual),
        b'&' => second(text, b'&', Mark::And),
        b'|' => second(text, b'|', Mark::Or),
        b'+' => second(text, b'+', Mark::Increment),
        b'-' => second(text, b'-', Mark::Decrement),
        _ => None,
    }
}

/// Adds the mark at the front, of two bytes if it can be.
pub fn mark(text: &[u8], start: u32, tokens: &mut Vec<Token>) -> Result<usize, Stop>
    requires some { 0 < length text.now }
    requires lead { lead_of text.now ≡ leads.Mark }
    requires few { start + length text.now ≤ 1048576 }
    ensures found { IfOk result (IsAdded text.now start tokens.old.items tokens.new.items) }
    ensures none { IfErr result (IsStop text.now) }
{
    match pair_at(text) {
        Some(mark) => add(tokens, Kind::Mark(mark), start, 2),
        None => match single(text[0]) {
            Some(mark) => add(tokens, Kind::Mark(mark), start, 1),
            None => Err(Stop::Nothing),
        },
    }
}
