//! Text literals.
#![tactic(auto)]

ghost use Rattle.std.specs.Prelude.{◌≡◌, ◌+◌, ◌<◌, ◌≤◌, length, slice_index, IfSome, IfNone, IfOk, IfErr};
ghost use Rattle.chord_lexer.specs.Literals.{is_plain, escaped};
ghost use Rattle.chord_lexer.specs.Scanning.{lead_of, IsAdded, IsStop, Bytewise, IsBody, IsQuoted, IsUnquoted};
ghost use Rattle.chord_lexer.specs.declared.scan.Lead.TheVariants as leads;

use crate::bytes::Bytes;
use crate::scan::{Stop, add, after};
use crate::token::{Kind, Token};
use std::alloc::{AllocError, Global};

/// Whether a byte is part of a character that stands for itself.
fn is_plain(byte: u8) -> bool
    ensures { result ≡ is_plain byte }
{
    byte != b'"' && byte != b'\\' && byte != b'\r' && byte != b'\n'
}

/// The byte that an escape stands for, by the byte after its `\`.
fn escape(byte: u8) -> Option<u8>
    ensures { result ≡ escaped byte }
{
    match byte {
        b'"' => Some(b'"'),
        b'\\' => Some(b'\\'),
        b'n' => Some(b'\n'),
        b't' => Some(b'\t'),
        b'r' => Some(b'\r'),
        _ => None,
    }
}

/// What the escape stands for whose second byte stands there.
fn escape_at(text: &[u8], at: usize) -> Option<u8>
    ensures some { IfSome result (λ byte. (at < length text.now) × (escaped (slice_index text.now at) ≡ Some byte)) }
    ensures none { IfNone result (at < length text.now → escaped (slice_index text.now at) ≡ None) }
{
    if at < text.len() {
        escape(text[at])
    } else {
        None
    }
}

/// How many bytes stand before the closing quote.
fn body_length(text: &[u8]) -> Option<usize>
    ensures within { IfSome result (λ n. n < length text.now) }
    ensures some { IfSome result (IsQuoted text.now) }
    ensures none { IfNone result (IsUnquoted text.now) }
{
    let mut at = 0;
    while at < text.len() {
        let byte = text[at];
        if is_plain(byte) {
            at += 1;
        } else if byte == b'"' {
            return Some(at);
        } else if byte == b'\\' {
            match escape_at(text, at + 1) {
                Some(_) => at += 2,
                None => return None,
            }
        } else {
            return None;
        }
    }
    None
}

/// The bytes that a body stands for. Each byte or escape gives one, so its length is room enough.
fn meaning(alloc: Global, body: &[u8]) -> Result<Vec<u8>, AllocError>
    requires { IsBody body.now }
    ensures { IfOk result (λ bytes. Bytewise body.now bytes.items) }
{
    let mut bytes = Vec::with_capacity(alloc, body.len())?;
    let mut at = 0;
    while at < body.len() {
        if body[at] == b'\\' {
            bytes.push(escape(body[at + 1]).unwrap())?;
            at += 2;
        } else {
            bytes.push(body[at])?;
            at += 1;
        }
    }
    Ok(bytes)
}

/// Adds the literal at the front.
pub fn literal(
    alloc: Global,
    text: &[u8],
    start: u32,
    tokens: &mut Vec<Token>,
) -> Result<usize, Stop>
    requires lead { lead_of text.now ≡ leads.Quote }
    requires few { start + length text.now ≤ 1048576 }
    ensures found { IfOk result (IsAdded text.now start tokens.old.items tokens.new.items) }
    ensures none { IfErr result (IsStop text.now) }
{
    let tail = after(text, 1);
    let length = match body_length(tail) {
        Some(length) => length,
        None => return Err(Stop::Nothing),
    };
    let body = &tail[..length];
    match str::from_utf8(body) {
        Ok(_) => match meaning(alloc, body) {
            Ok(bytes) => add(
                tokens,
                Kind::Literal(Bytes::of_items(bytes)),
                start,
                length + 2,
            ),
            Err(_) => Err(Stop::Memory),
        },
        Err(_) => Err(Stop::Nothing),
    }
}
