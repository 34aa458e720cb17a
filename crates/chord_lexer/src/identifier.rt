//! Identifiers: reserved words and names.
#![tactic(auto)]

ghost use Rattle.std.specs.Prelude.{◌≡◌, ◌+◌, ◌<◌, ◌≤◌, length, map, bytes_eq, IfOk, IfErr};
ghost use Rattle.chord_lexer.specs.Identifiers.{find_reserved, keyword_of};
ghost use Rattle.chord_lexer.specs.Scanning.{lead_of, reserved_with, IsAdded, IsStop};
ghost use Rattle.chord_lexer.specs.declared.scan.Lead.TheVariants as leads;

use crate::scan::{ByteKind, Stop, add, run};
use crate::token::{Keyword, Kind, Token};
use chord_base::text::Text;
use std::alloc::Global;

/// The most bytes that an identifier has.
const MAX_IDENTIFIER_BYTES: usize = 255;

// A table for each first letter: one table of all is too large a constant for the prover, and a look-up then reads the
// words of its letter alone.
const A_WORDS: [(&[u8], Keyword); 3] = [
    (b"async", Keyword::Async),
    (b"abstract", Keyword::Unused),
    (b"as", Keyword::Unused),
];

const B_WORDS: [(&[u8], Keyword); 4] = [
    (b"bool", Keyword::Bool),
    (b"base", Keyword::Unused),
    (b"break", Keyword::Unused),
    (b"byte", Keyword::Unused),
];

const C_WORDS: [(&[u8], Keyword); 7] = [
    (b"class", Keyword::Class),
    (b"case", Keyword::Unused),
    (b"catch", Keyword::Unused),
    (b"char", Keyword::Unused),
    (b"checked", Keyword::Unused),
    (b"const", Keyword::Unused),
    (b"continue", Keyword::Unused),
];

const D_WORDS: [(&[u8], Keyword); 5] = [
    (b"do", Keyword::Do),
    (b"decimal", Keyword::Unused),
    (b"default", Keyword::Unused),
    (b"delegate", Keyword::Unused),
    (b"double", Keyword::Unused),
];

const E_WORDS: [(&[u8], Keyword); 5] = [
    (b"else", Keyword::Else),
    (b"enum", Keyword::Unused),
    (b"event", Keyword::Unused),
    (b"explicit", Keyword::Unused),
    (b"extern", Keyword::Unused),
];

const F_WORDS: [(&[u8], Keyword); 6] = [
    (b"false", Keyword::False),
    (b"finally", Keyword::Unused),
    (b"fixed", Keyword::Unused),
    (b"float", Keyword::Unused),
    (b"for", Keyword::Unused),
    (b"foreach", Keyword::Unused),
];

const G_WORDS: [(&[u8], Keyword); 1] = [(b"goto", Keyword::Unused)];

const I_WORDS: [(&[u8], Keyword); 7] = [
    (b"if", Keyword::If),
    (b"int", Keyword::Int),
    (b"implicit", Keyword::Unused),
    (b"in", Keyword::Unused),
    (b"interface", Keyword::Unused),
    (b"internal", Keyword::Unused),
    (b"is", Keyword::Unused),
];

const L_WORDS: [(&[u8], Keyword); 2] = [(b"lock", Keyword::Unused), (b"long", Keyword::Unused)];

const N_WORDS: [(&[u8], Keyword); 3] = [
    (b"new", Keyword::New),
    (b"namespace", Keyword::Unused),
    (b"null", Keyword::Unused),
];

const O_WORDS: [(&[u8], Keyword); 4] = [
    (b"override", Keyword::Override),
    (b"object", Keyword::Unused),
    (b"operator", Keyword::Unused),
    (b"out", Keyword::Unused),
];

const P_WORDS: [(&[u8], Keyword); 4] = [
    (b"private", Keyword::Private),
    (b"protected", Keyword::Protected),
    (b"public", Keyword::Public),
    (b"params", Keyword::Unused),
];

const R_WORDS: [(&[u8], Keyword); 3] = [
    (b"return", Keyword::Return),
    (b"readonly", Keyword::Unused),
    (b"ref", Keyword::Unused),
];

const S_WORDS: [(&[u8], Keyword); 9] = [
    (b"static", Keyword::Static),
    (b"string", Keyword::String),
    (b"sbyte", Keyword::Unused),
    (b"sealed", Keyword::Unused),
    (b"short", Keyword::Unused),
    (b"sizeof", Keyword::Unused),
    (b"stackalloc", Keyword::Unused),
    (b"struct", Keyword::Unused),
    (b"switch", Keyword::Unused),
];

const T_WORDS: [(&[u8], Keyword); 5] = [
    (b"this", Keyword::This),
    (b"true", Keyword::True),
    (b"throw", Keyword::Unused),
    (b"try", Keyword::Unused),
    (b"typeof", Keyword::Unused),
];

const U_WORDS: [(&[u8], Keyword); 6] = [
    (b"using", Keyword::Using),
    (b"uint", Keyword::Unused),
    (b"ulong", Keyword::Unused),
    (b"unchecked", Keyword::Unused),
    (b"unsafe", Keyword::Unused),
    (b"ushort", Keyword::Unused),
];

const V_WORDS: [(&[u8], Keyword); 3] = [
    (b"virtual", Keyword::Virtual),
    (b"void", Keyword::Void),
    (b"volatile", Keyword::Unused),
];

const W_WORDS: [(&[u8], Keyword); 1] = [(b"while", Keyword::While)];

/// Whether the bytes are equal. Most words of a table have another length, which is told without a call.
#[inline(always)]
fn same(these: &[u8], those: &[u8]) -> bool
    ensures { result ≡ bytes_eq these.now those.now }
{
    these.len() == those.len() && these == those
}

/// What the table has for the identifier.
#[inline(always)]
fn find(table: &[(&[u8], Keyword)], identifier: &[u8]) -> Option<Keyword>
    ensures { result ≡ find_reserved (map (λ entry. (entry.0.now, entry.1)) table.now) identifier.now }
{
    for (text, keyword) in table {
        if same(identifier, text) {
            return Some(*keyword);
        }
    }
    None
}

/// What the reserved words that begin with the letter have for the identifier.
fn find_with(letter: u8, identifier: &[u8]) -> Option<Keyword>
    ensures { result ≡ find_reserved (reserved_with letter) identifier.now }
{
    match letter {
        b'a' => find(&A_WORDS, identifier),
        b'b' => find(&B_WORDS, identifier),
        b'c' => find(&C_WORDS, identifier),
        b'd' => find(&D_WORDS, identifier),
        b'e' => find(&E_WORDS, identifier),
        b'f' => find(&F_WORDS, identifier),
        b'g' => find(&G_WORDS, identifier),
        b'i' => find(&I_WORDS, identifier),
        b'l' => find(&L_WORDS, identifier),
        b'n' => find(&N_WORDS, identifier),
        b'o' => find(&O_WORDS, identifier),
        b'p' => find(&P_WORDS, identifier),
        b'r' => find(&R_WORDS, identifier),
        b's' => find(&S_WORDS, identifier),
        b't' => find(&T_WORDS, identifier),
        b'u' => find(&U_WORDS, identifier),
        b'v' => find(&V_WORDS, identifier),
        b'w' => find(&W_WORDS, identifier),
        _ => None,
    }
}

/// The keyword of an identifier, if it is reserved.
fn keyword(identifier: &[u8]) -> Option<Keyword>
    requires { 0 < length identifier.now }
    ensures { result ≡ keyword_of identifier.now }
{
    find_with(identifier[0], identifier)
}

/// Adds the identifier at the front.
pub fn identifier(
    alloc: Global,
    text: &[u8],
    start: u32,
    tokens: &mut Vec<Token>,
) -> Result<usize, Stop>
    requires lead { lead_of text.now ≡ leads.Letter }
    requires few { start + length text.now ≤ 1048576 }
    ensures found { IfOk result (IsAdded text.now start tokens.old.items tokens.new.items) }
    ensures none { IfErr result (IsStop text.now) }
{
    let length = run(text, ByteKind::Identifier);
    if length > MAX_IDENTIFIER_BYTES {
        return Err(Stop::Nothing);
    }
    let identifier = &text[..length];
    match keyword(identifier) {
        Some(keyword) => add(tokens, Kind::Word(keyword), start, length),
        None => match Text::of_bytes(alloc, identifier) {
            Ok(name) => add(tokens, Kind::Name(name), start, length),
            Err(_) => Err(Stop::Memory),
        },
    }
}
