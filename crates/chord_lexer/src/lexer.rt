//! From bytes to tokens.
#![tactic(auto)]

ghost use Rattle.std.specs.Prelude.{◌≡◌, ℕ, ◌≤◌, ◌⊎◌, List, length, IfOk, IfErr, MatchResult};
ghost use Rattle.chord_lexer.specs.Reading.{after_byte_order_mark, IsRead, IsRefused, IsFault};
ghost use Rattle.chord_lexer.specs.declared.token.Token.{Token};

use crate::scan::{Stop, after, is_blank, longest};
use crate::token::Token;
use std::alloc::Global;
use thiserror::Error;

/// Why a source has no tokens.
#[derive(Clone, Copy, Debug, PartialEq, Eq, Error)]
pub enum LexFault {
    /// The call ran out of memory.
    #[error("out of memory")]
    Memory,
    /// The bytes before this one are whole tokens, blanks and comments, and none of these begins here.
    /// It is counted from 0, after a leading mark EF BB BF.
    #[error("no token begins at byte {0}")]
    Bad(u32),
}

/// The text after a leading mark EF BB BF.
pub fn unmarked(source: &[u8]) -> &[u8]
    ensures { result.now ≡ after_byte_order_mark source.now }
{
    match source {
        [0xEF, 0xBB, 0xBF, text @ ..] => text,
        _ => source,
    }
}

/// The tokens of the text after the mark.
fn read(alloc: Global, source: &[u8], text: &[u8]) -> Result<Vec<Token>, LexFault>
    requires few { length source.now ≤ 1048576 }
    requires unmarked { text.now ≡ after_byte_order_mark source.now }
    ensures read { IfOk result (λ tokens. IsRead source.now tokens.items) }
    ensures fault { IfErr result (IsFault source.now) }
{
    let mut tokens = Vec::new(alloc);
    let mut at = 0;
    while at < text.len() {
        // Nearly half of the pieces are blanks.
        if is_blank(text[at]) {
            at += 1;
        } else {
            let start = at as u32;
            match longest(alloc, after(text, at), start, &mut tokens) {
                Ok(length) => at += length,
                Err(Stop::Memory) => return Err(LexFault::Memory),
                Err(Stop::Nothing) => return Err(LexFault::Bad(start)),
            }
        }
    }
    Ok(tokens)
}

/// The tokens that the source reads as: the one list that there is.
///
/// The source has at most 1,048,576 bytes, so that a place fits 32 bits. At each place the longest reading is taken, as
/// in ECMA-334's lexical structure. The work is a bounded number of passes over the bytes.
/// `Memory` comes only for want of memory: for the list, for a name or for a literal.
/// `Bad(k)` comes exactly where the source has a byte k, the bytes before it are a chain of tokens, blanks and
/// comments, each as long as it can be in the whole text, and no token, blank or comment begins at k.
// in its one caller, which is large, the loop would have too few registers
#[inline(never)]
pub fn lex(alloc: Global, bytes: &[u8]) -> Result<Vec<Token>, LexFault>
    requires { length bytes.now ≤ 1048576 }
    ensures read { IfOk result (λ tokens. IsRead bytes.now tokens.items) }
    ensures few { IfOk result (λ tokens. length tokens.items ≤ length bytes.now) }
    ensures fault { IfErr result (IsFault bytes.now) }

    // It is the one list that the source reads as, or the one byte at which the source is refused.
    ensures only_list { (tokens : List Token) → IsRead bytes.now tokens → MatchResult result (λ found. found.items ≡ tokens) (λ fault. fault ≡ LexFault.Memory) }
    ensures only_place { (k : ℕ) → IsRefused bytes.now k → MatchResult result (λ found. ⊥) (λ fault. (fault ≡ LexFault.Memory) ⊎ (fault ≡ LexFault.Bad k)) }
{
    read(alloc, bytes, unmarked(bytes))
}
