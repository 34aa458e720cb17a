//! Numbers.
#![tactic(auto)]

ghost use Rattle.std.specs.Prelude.{◌≡◌, ◌+◌, ◌≤◌, length, IfSome, IfNone, IfOk, IfErr};
ghost use Rattle.chord_lexer.specs.Scanning.{lead_of, IsAdded, IsStop, IsTooLarge, IsValue};
ghost use Rattle.chord_lexer.specs.declared.scan.Lead.TheVariants as leads;

use crate::scan::{ByteKind, Stop, add, follows};
use crate::token::{Kind, Token};

/// The largest number that a token has. That it stands behind a unary `-` alone is a rule on programs.
const MAX_NUMBER: u64 = 2147483648;

/// The value of the digits at the front, and how many there are, if the value is not too large. Zeros may lead.
#[inline]
fn decimal(text: &[u8]) -> Option<(u32, usize)>
    ensures some { IfSome result (λ r. IsValue text.now r.0 r.1) }
    ensures none { IfNone result (IsTooLarge text.now) }
{
    let mut value: u64 = 0;
    let mut at = 0;
    while at < text.len() && text[at].is_ascii_digit() {
        value = 10 * value + (text[at] - b'0') as u64;
        if value > MAX_NUMBER {
            return None;
        }
        at += 1;
    }
    Some((value as u32, at))
}

/// Adds the number at the front: digits with no letter after them, of a value that is not too large.
pub fn number(text: &[u8], start: u32, tokens: &mut Vec<Token>) -> Result<usize, Stop>
    requires lead { lead_of text.now ≡ leads.Digit }
    requires few { start + length text.now ≤ 1048576 }
    ensures found { IfOk result (IsAdded text.now start tokens.old.items tokens.new.items) }
    ensures none { IfErr result (IsStop text.now) }
{
    match decimal(text) {
        Some((value, length)) => {
            if follows(text, length, ByteKind::Identifier) {
                return Err(Stop::Nothing);
            }
            add(tokens, Kind::Number(value), start, length)
        }
        None => Err(Stop::Nothing),
    }
}
