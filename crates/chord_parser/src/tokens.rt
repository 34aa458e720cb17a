//! Single tokens: each is tested for its terminal, and then for its depth.
#![tactic(auto)]

ghost use Rattle.std.specs.Prelude.{◌≡◌, ◌<◌, ◌≤◌, ◌-◌, length, IfOk, IfErr, false, true};
ghost use Rattle.chord_lexer.specs.declared.token.Kind.TheVariants as kinds;
ghost use Rattle.chord_tree.specs.Terminals.{terminal_of, keyword_symbol, mark_symbol};
ghost use Rattle.chord_tree.specs.Derivation.{next, includes};
ghost use Rattle.chord_tree.specs.Node.{Leaf, unnumbered};
ghost use Rattle.chord_tree.specs.Symbol.{Terminal, number_of};
ghost use Rattle.chord_tree.specs.Program.{token_kinds};
ghost use Rattle.chord_tree.specs.ExprNodes.{name};
ghost use Rattle.chord_tree.specs.Symbols as grammar;
ghost use Rattle.chord_parser.specs.Runs.{Reads};
ghost use Rattle.chord_parser.specs.Reading.{Heads, StopsAs, valued};
ghost use Rattle.chord_parser.specs.Samples.{sample};

use crate::faults::Fault;
use crate::terminal;
use chord_lexer::bytes::Bytes;
use chord_lexer::token::{Keyword, Kind, Mark, Token};
use chord_tree::names::Name;
use std::alloc::Global;

/// The most nodes around a token that the depth counts.
const MAX_DEPTH: u32 = 200;

fn terminal_of_keyword(word: Keyword) -> u8
    ensures { result ≡ number_of (keyword_symbol word) }
{
    match word {
        Keyword::Using => terminal::USING,
        Keyword::Class => terminal::CLASS,
        Keyword::Public => terminal::PUBLIC,
        Keyword::Private => terminal::PRIVATE,
        Keyword::Protected => terminal::PROTECTED,
        Keyword::Virtual => terminal::VIRTUAL,
        Keyword::Override => terminal::OVERRIDE,
        Keyword::Static => terminal::STATIC,
        Keyword::Async => terminal::ASYNC,
        Keyword::Void => terminal::VOID,
        Keyword::Int => terminal::INT,
        Keyword::Bool => terminal::BOOL,
        Keyword::String => terminal::STRING,
        Keyword::If => terminal::IF,
        Keyword::While => terminal::WHILE,
        Keyword::Return => terminal::RETURN,
        Keyword::This => terminal::THIS,
        Keyword::New => terminal::NEW,
        Keyword::Else => terminal::ELSE,
        Keyword::True => terminal::TRUE,
        Keyword::False => terminal::FALSE,
        Keyword::Do => terminal::DO,
        Keyword::Unused => terminal::UNUSED,
    }
}

fn terminal_of_mark(mark: Mark) -> u8
    ensures { result ≡ number_of (mark_symbol mark) }
{
    match mark {
        Mark::OpenBrace => terminal::OPEN_BRACE,
        Mark::CloseBrace => terminal::CLOSE_BRACE,
        Mark::OpenParenthesis => terminal::OPEN,
        Mark::CloseParenthesis => terminal::CLOSE,
        Mark::Semicolon => terminal::SEMICOLON,
        Mark::Comma => terminal::COMMA,
        Mark::Dot => terminal::DOT,
        Mark::Colon => terminal::COLON,
        Mark::Assign => terminal::ASSIGN,
        Mark::Equal => terminal::EQUAL,
        Mark::NotEqual => terminal::NOT_EQUAL,
        Mark::Less => terminal::LESS,
        Mark::Greater => terminal::GREATER,
        Mark::LessOrEqual => terminal::LESS_OR_EQUAL,
        Mark::GreaterOrEqual => terminal::GREATER_OR_EQUAL,
        Mark::Plus => terminal::PLUS,
        Mark::Minus => terminal::MINUS,
        Mark::Times => terminal::TIMES,
        Mark::Divide => terminal::DIVIDE,
        Mark::Remainder => terminal::REMAINDER,
        Mark::Not => terminal::NOT,
        Mark::And => terminal::AND,
        Mark::Or => terminal::OR,
        Mark::Ampersand => terminal::AMPERSAND,
        Mark::Increment => terminal::INCREMENT,
        Mark::Decrement => terminal::DECREMENT,
    }
}

/// The terminal of a kind.
#[inline]
fn terminal_of_kind(kind: &Kind) -> u8
    ensures { result ≡ terminal_of kind.now }
{
    match kind {
        Kind::Word(word) => terminal_of_keyword(*word),
        Kind::Name(_) => terminal::NAME,
        Kind::Number(_) => terminal::NUMBER,
        Kind::Literal(_) => terminal::LITERAL,
        Kind::Mark(mark) => terminal_of_mark(*mark),
    }
}

/// The terminal of the next token, or `END`.
#[inline]
pub fn next(tokens: &[Token]) -> u8
    ensures { result ≡ next (token_kinds tokens.now) }
{
    match tokens.split_first() {
        Some((token, _)) => terminal_of_kind(&token.kind),
        None => terminal::END,
    }
}

/// The number of the next token, of all.
pub fn token_number(count: u32, tokens: &[Token]) -> u32
    ensures { result ≡ count - length (token_kinds tokens.now) }
{
    (count as usize).saturating_sub(tokens.len()) as u32
}

/// The next token, which is the terminal, and those after it.
#[inline(always)]
fn one(tokens: &[Token], wanted: u8, depth: u32) -> Result<(&Token, &[Token]), Fault>
    requires { wanted < 52 }
    ensures ok { IfOk result (λ r. Heads wanted (token_kinds tokens.now) (token_kinds r.1.now) r.0.now.kind) }
    ensures err { IfErr result (λ fault. StopsAs (Terminal wanted) depth (token_kinds tokens.now) fault) }
    ensures not_tall { IfOk result (λ _. depth ≤ 200) }
{
    match tokens.split_first() {
        None => Err(Fault::At(tokens.len())),
        Some((first, rest)) => {
            if terminal_of_kind(&first.kind) != wanted {
                return Err(Fault::At(tokens.len()));
            }
            if depth > MAX_DEPTH {
                return Err(Fault::Tall(tokens.len()));
            }
            Ok((first, rest))
        }
    }
}

/// The tokens after the terminal, which has no number in the tree.
#[inline(always)]
pub fn skip(count: u32, tokens: &[Token], wanted: u8, depth: u32) -> Result<&[Token], Fault>
    requires unnumbered { includes unnumbered wanted ≡ true }
    requires bare { includes valued wanted ≡ false }
    requires small { wanted < 52 }
    ensures ok { IfOk result (λ rest. Reads count (Terminal wanted) depth (token_kinds tokens.now) (token_kinds rest.now) (Leaf (sample wanted) 0)) }
    ensures err { IfErr result (λ fault. StopsAs (Terminal wanted) depth (token_kinds tokens.now) fault) }
    ensures not_tall { IfOk result (λ _. depth ≤ 200) }
{
    let (_, rest) = one(tokens, wanted, depth)?;
    Ok(rest)
}

/// The number of the terminal's token, and the tokens after it.
#[inline]
pub fn take(count: u32, tokens: &[Token], wanted: u8, depth: u32) -> Result<(u32, &[Token]), Fault>
    requires marked { includes unnumbered wanted ≡ false }
    requires bare { includes valued wanted ≡ false }
    requires small { wanted < 52 }
    ensures ok { IfOk result (λ r. Reads count (Terminal wanted) depth (token_kinds tokens.now) (token_kinds r.1.now) (Leaf (sample wanted) r.0)) }
    ensures err { IfErr result (λ fault. StopsAs (Terminal wanted) depth (token_kinds tokens.now) fault) }
    ensures not_tall { IfOk result (λ _. depth ≤ 200) }
{
    let (_, rest) = one(tokens, wanted, depth)?;
    Ok((token_number(count, tokens), rest))
}

/// The number of the next token, which is the terminal, and the tokens after it. Its kind is not looked at again.
#[inline]
pub fn take_known(
    count: u32,
    tokens: &[Token],
    wanted: u8,
    depth: u32,
) -> Result<(u32, &[Token]), Fault>
    requires next { next (token_kinds tokens.now) ≡ wanted }
    requires marked { includes unnumbered wanted ≡ false }
    requires bare { includes valued wanted ≡ false }
    requires small { wanted < 52 }
    ensures ok { IfOk result (λ r. Reads count (Terminal wanted) depth (token_kinds tokens.now) (token_kinds r.1.now) (Leaf (sample wanted) r.0)) }
    ensures err { IfErr result (λ fault. StopsAs (Terminal wanted) depth (token_kinds tokens.now) fault) }
    ensures not_tall { IfOk result (λ _. depth ≤ 200) }
{
    let Some((_, rest)) = tokens.split_first() else {
        unreachable!()
    };
    if depth > MAX_DEPTH {
        return Err(Fault::Tall(tokens.len()));
    }
    let number = token_number(count, tokens);
    Ok((number, rest))
}

/// The name that comes next, and the tokens after it.
pub fn name_of(
    alloc: Global,
    count: u32,
    tokens: &[Token],
    depth: u32,
) -> Result<(Name, &[Token]), Fault>
    ensures ok { IfOk result (λ r. Reads count grammar.NAME depth (token_kinds tokens.now) (token_kinds r.1.now) (name r.0)) }
    ensures err { IfErr result (λ fault. StopsAs grammar.NAME depth (token_kinds tokens.now) fault) }
    ensures not_tall { IfOk result (λ _. depth ≤ 200) }
{
    let (first, rest) = one(tokens, terminal::NAME, depth)?;
    let at = token_number(count, tokens);
    match &first.kind {
        Kind::Name(text) => {
            let text = text.copied(alloc)?;
            Ok((Name { text, at }, rest))
        }
        _ => unreachable!(),
    }
}

/// The number that comes next, the number of its token, and the tokens after it.
#[inline]
pub fn number_next(count: u32, tokens: &[Token], depth: u32) -> Result<(u32, u32, &[Token]), Fault>
    ensures ok { IfOk result (λ r. Reads count grammar.NUMBER depth (token_kinds tokens.now) (token_kinds r.2.now) (Leaf (kinds.Number r.0) r.1)) }
    ensures err { IfErr result (λ fault. StopsAs grammar.NUMBER depth (token_kinds tokens.now) fault) }
    ensures not_tall { IfOk result (λ _. depth ≤ 200) }
{
    let (first, rest) = one(tokens, terminal::NUMBER, depth)?;
    let at = token_number(count, tokens);
    match &first.kind {
        Kind::Number(value) => Ok((*value, at, rest)),
        _ => unreachable!(),
    }
}

/// The literal that comes next, the number of its token, and the tokens after it.
pub fn literal_next(
    alloc: Global,
    count: u32,
    tokens: &[Token],
    depth: u32,
) -> Result<(Bytes, u32, &[Token]), Fault>
    ensures ok { IfOk result (λ r. Reads count grammar.LITERAL depth (token_kinds tokens.now) (token_kinds r.2.now) (Leaf (kinds.Literal r.0) r.1)) }
    ensures err { IfErr result (λ fault. StopsAs grammar.LITERAL depth (token_kinds tokens.now) fault) }
    ensures not_tall { IfOk result (λ _. depth ≤ 200) }
{
    let (first, rest) = one(tokens, terminal::LITERAL, depth)?;
    let at = token_number(count, tokens);
    match &first.kind {
        Kind::Literal(bytes) => {
            let bytes = bytes.copied(alloc)?;
            Ok((bytes, at, rest))
        }
        _ => unreachable!(),
    }
}
