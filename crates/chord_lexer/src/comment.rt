//! Comments.
#![tactic(auto)]

ghost use Rattle.std.specs.Prelude.{◌≡◌, ◌↔◌, IsTrue, ◌<◌, ◌≤◌, ◌+◌, length, IfSome, IfNone, IfOk, IfErr};
ghost use Rattle.chord_lexer.specs.Comments.{IsUnclosed};
ghost use Rattle.chord_lexer.specs.Scanning.{lead_of, Begins, IsClosedAt, IsExtent, IsStop, IsUndelimited};
ghost use Rattle.chord_lexer.specs.declared.piece.Piece.TheVariants as pieces;
ghost use Rattle.chord_lexer.specs.declared.scan.Lead.TheVariants as leads;

use crate::scan::{ByteKind, Stop, after, run};

/// Whether the two bytes are `*/`.
fn is_close(first: u8, second: u8) -> bool
    ensures { IsTrue result ↔ ((first ≡ 42) × (second ≡ 47)) }
{
    first == b'*' && second == b'/'
}

/// How many bytes stand before the first `*/`.
fn close(text: &[u8]) -> Option<usize>
    ensures within { IfSome result (λ n. n + 2 ≤ length text.now) }
    ensures some { IfSome result (IsClosedAt text.now) }
    ensures none { IfNone result (IsUnclosed text.now) }
{
    for at in 1..text.len() {
        if is_close(text[at - 1], text[at]) {
            return Some(at - 1);
        }
    }
    None
}

/// How many bytes a comment takes, whatever they are.
fn extent(text: &[u8]) -> Option<usize>
    requires { lead_of text.now ≡ leads.Comment }
    ensures some { IfSome result (IsExtent text.now) }
    ensures none { IfNone result (IsUndelimited text.now) }
{
    let body = after(text, 2);
    if text[1] == b'/' {
        return Some(run(body, ByteKind::Line) + 2);
    }
    match close(body) {
        Some(length) => Some(length + 4),
        None => None,
    }
}

/// How many bytes the comment at the front has.
///
/// Its bytes are UTF-8. One that is not, or that `*/` does not close, is none.
pub fn comment(text: &[u8]) -> Result<usize, Stop>
    requires { lead_of text.now ≡ leads.Comment }
    ensures found { IfOk result (Begins text.now pieces.Comment) }
    ensures none { IfErr result (IsStop text.now) }
{
    match extent(text) {
        Some(length) => match str::from_utf8(&text[..length]) {
            Ok(_) => Ok(length),
            Err(_) => Err(Stop::Nothing),
        },
        None => Err(Stop::Nothing),
    }
}
