//! The parser of classes and programs. No node here counts for the depth, and all lists are loops.
#![tactic(auto)]

ghost use Rattle.std.specs.Prelude.{◌≡◌, [], ◌∷◌, map, IfOk, IfErr, Option};
ghost use Rattle.chord_lexer.specs.declared.token.Keyword.TheVariants as keywords;
ghost use Rattle.chord_lexer.specs.declared.token.Mark.TheVariants as marks;
ghost use Rattle.chord_tree.specs.Derivation.{next};
ghost use Rattle.chord_tree.specs.Node.{End, ◌▸◌};
ghost use Rattle.chord_tree.specs.ExprNodes.{keyword_leaf, mark_leaf, name};
ghost use Rattle.chord_tree.specs.StmtNodes.{node_block};
ghost use Rattle.chord_tree.specs.ClassNodes.{node_modifiers, node_type, node_formal, node_formal_list, node_formals, node_result, node_header, node_member, node_members, node_public, node_base, node_class, node_name_parts, node_using, node_usings, node_all_classes};
ghost use Rattle.chord_tree.specs.Symbol.{number_of};
ghost use Rattle.chord_tree.specs.Program.{token_kinds};
ghost use Rattle.chord_tree.specs.Symbols as grammar;
ghost use Rattle.chord_tree.specs.View.{see_formals, see_header, see_member, see_class, see_using};
ghost use Rattle.chord_tree.specs.ViewStmts.{see_block};
ghost use Rattle.chord_parser.specs.Reading.{StopsAs, StopsBefore};
ghost use Rattle.chord_parser.specs.Lists.{node_rest_of, chord_parts, IsHeaded, IsChordOf, headers_after, classes_after, IsFirst};
ghost use Rattle.chord_parser.specs.Runs.{Reads, ReadAll};

use crate::faults::Fault;
use crate::stmts::block;
use crate::terminal;
use crate::tokens::{name_of, next, skip, take};
use crate::words::{modifier, modifier_next, plain, plain_next};
use chord_lexer::token::Token;
use chord_tree::classes::{
    Class, Formal, Formals, Header, Member, Modifier, NamePart, ReturnType, Using,
};
use chord_tree::names::{BasicType, Name, ValueType};
use chord_tree::stmts::Block;
use std::alloc::Global;

/// { Modifier }
fn modifiers_of(
    alloc: Global,
    count: u32,
    tokens: &[Token],
) -> Result<(Vec<Modifier>, &[Token]), Fault>
    ensures ok { IfOk result (λ r. Reads count grammar.Modifiers 0 (token_kinds tokens.now) (token_kinds r.1.now) (node_modifiers r.0.items)) }
    ensures err { IfErr result (λ fault. StopsAs grammar.Modifiers 0 (token_kinds tokens.now) fault) }
{
    let mut list = Vec::new(alloc);
    let mut left = tokens;
    'each: while let Some(word) = modifier_next(left) {
        let (one, rest) = modifier(count, left, word)?;
        list.push(one)?;
        left = rest;
    }
    Ok((list, left))
}

/// ValueType = "int" | "bool" | "string" | Name
fn value_type(alloc: Global, count: u32, tokens: &[Token]) -> Result<(ValueType, &[Token]), Fault>
    ensures ok { IfOk result (λ r. Reads count grammar.Value_type 0 (token_kinds tokens.now) (token_kinds r.1.now) (node_type r.0)) }
    ensures err { IfErr result (λ fault. StopsAs grammar.Value_type 0 (token_kinds tokens.now) fault) }
{
    let ahead = next(tokens);
    if ahead == terminal::INT {
        let (at, rest) = take(count, tokens, terminal::INT, 0)?;
        return Ok((
            ValueType::Basic {
                basic: BasicType::Int,
                at,
            },
            rest,
        ));
    }
    if ahead == terminal::BOOL {
        let (at, rest) = take(count, tokens, terminal::BOOL, 0)?;
        return Ok((
            ValueType::Basic {
                basic: BasicType::Bool,
                at,
            },
            rest,
        ));
    }
    if ahead == terminal::STRING {
        let (at, rest) = take(count, tokens, terminal::STRING, 0)?;
        return Ok((
            ValueType::Basic {
                basic: BasicType::String,
                at,
            },
            rest,
        ));
    }
    if ahead == terminal::NAME {
        let (name, rest) = name_of(alloc, count, tokens, 0)?;
        return Ok((ValueType::Class(name), rest));
    }
    Err(Fault::At(tokens.len()))
}

/// Formal = ValueType Name
fn formal(alloc: Global, count: u32, tokens: &[Token]) -> Result<(Formal, &[Token]), Fault>
    ensures ok { IfOk result (λ r. Reads count grammar.Formal 0 (token_kinds tokens.now) (token_kinds r.1.now) (node_formal r.0)) }
    ensures err { IfErr result (λ fault. StopsAs grammar.Formal 0 (token_kinds tokens.now) fault) }
{
    let (kind, rest) = value_type(alloc, count, tokens)?;
    let (name, rest) = name_of(alloc, count, rest, 0)?;
    Ok((
        Formal {
            value_type: kind,
            name,
        },
        rest,
    ))
}

/// [ Formal { "," Formal } ]
fn formals_inside(
    alloc: Global,
    count: u32,
    tokens: &[Token],
) -> Result<(Vec<Formal>, &[Token]), Fault>
    ensures ok { IfOk result (λ r. Reads count grammar.Optional_formals 0 (token_kinds tokens.now) (token_kinds r.1.now) (node_formal_list r.0.items)) }
    ensures err { IfErr result (λ fault. StopsAs grammar.Optional_formals 0 (token_kinds tokens.now) fault) }
{
    let mut list = Vec::new(alloc);
    if next(tokens) == terminal::CLOSE {
        return Ok((list, tokens));
    }
    let (first, mut left) = formal(alloc, count, tokens)?;
    list.push(first)?;
    'each: while next(left) == terminal::COMMA {
        let rest = skip(count, left, terminal::COMMA, 0)?;
        let (one, rest) = formal(alloc, count, rest)?;
        list.push(one)?;
        left = rest;
    }
    Ok((list, left))
}

/// Formals = "(" [ Formal { "," Formal } ] ")"
fn formals(alloc: Global, count: u32, tokens: &[Token]) -> Result<(Formals, &[Token]), Fault>
    ensures ok { IfOk result (λ r. Reads count grammar.Formals 0 (token_kinds tokens.now) (token_kinds r.1.now) (node_formals (see_formals r.0))) }
    ensures err { IfErr result (λ fault. StopsAs grammar.Formals 0 (token_kinds tokens.now) fault) }
{
    let (at, rest) = take(count, tokens, terminal::OPEN, 0)?;
    let (list, rest) = formals_inside(alloc, count, rest)?;
    let rest = skip(count, rest, terminal::CLOSE, 0)?;
    Ok((
        Formals {
            at,
            parameters: list,
        },
        rest,
    ))
}

/// Result = Plain | Name
fn result_type(alloc: Global, count: u32, tokens: &[Token]) -> Result<(ReturnType, &[Token]), Fault>
    ensures ok { IfOk result (λ r. Reads count grammar.Result 0 (token_kinds tokens.now) (token_kinds r.1.now) (node_result r.0)) }
    ensures err { IfErr result (λ fault. StopsAs grammar.Result 0 (token_kinds tokens.now) fault) }
{
    if next(tokens) == terminal::NAME {
        let (name, rest) = name_of(alloc, count, tokens, 0)?;
        return Ok((ReturnType::Value(ValueType::Class(name)), rest));
    }
    let Some(word) = plain_next(tokens) else {
        return Err(Fault::At(tokens.len()));
    };
    let (kind, rest) = plain(count, tokens, word)?;
    Ok((kind, rest))
}

/// Name Formals
fn named_formals(
    alloc: Global,
    count: u32,
    tokens: &[Token],
) -> Result<(Name, Formals, &[Token]), Fault>
    ensures ok { IfOk result (λ r. ReadAll count (grammar.NAME ∷ grammar.Formals ∷ []) 0 (token_kinds tokens.now) (token_kinds r.2.now) (name r.0 ▸ node_formals (see_formals r.1) ▸ End)) }
    ensures err { IfErr result (λ fault. StopsBefore (grammar.NAME ∷ grammar.Formals ∷ []) 0 (token_kinds tokens.now) fault) }
{
    let (name, rest) = name_of(alloc, count, tokens, 0)?;
    let (list, rest) = formals(alloc, count, rest)?;
    Ok((name, list, rest))
}

/// Header = { Modifier } Result Name Formals
fn header(alloc: Global, count: u32, tokens: &[Token]) -> Result<(Header, &[Token]), Fault>
    ensures ok { IfOk result (λ r. Reads count grammar.Header 0 (token_kinds tokens.now) (token_kinds r.1.now) (node_header (see_header r.0))) }
    ensures err { IfErr result (λ fault. StopsAs grammar.Header 0 (token_kinds tokens.now) fault) }
{
    let (modifiers, rest) = modifiers_of(alloc, count, tokens)?;
    let (kind, rest) = result_type(alloc, count, rest)?;
    let (name, list, rest) = named_formals(alloc, count, rest)?;
    Ok((
        Header {
            modifiers,
            result_type: kind,
            name,
            formals: list,
        },
        rest,
    ))
}

/// { "&" Header }
///
/// The headers after the first, which is put before them.
fn headers_of(
    alloc: Global,
    count: u32,
    tokens: &[Token],
    first: Header,
) -> Result<(Vec<Header>, &[Token]), Fault>
    ensures ok { IfOk result (λ r. Reads count grammar.Headers 0 (token_kinds tokens.now) (token_kinds r.1.now) (headers_after (map see_header r.0.items))) }
    ensures err { IfErr result (λ fault. StopsAs grammar.Headers 0 (token_kinds tokens.now) fault) }
    ensures first { IfOk result (λ r. IsFirst (see_header first) (map see_header r.0.items)) }
{
    let mut list = Vec::new(alloc);
    list.push(first)?;
    let mut left = tokens;
    'each: while next(left) == terminal::AMPERSAND {
        let rest = skip(count, left, terminal::AMPERSAND, 0)?;
        let (one, rest) = header(alloc, count, rest)?;
        list.push(one)?;
        left = rest;
    }
    Ok((list, left))
}

/// { "&" Header } Block
///
/// The headers after the first, which is put before them, and the body.
fn headers_block(
    alloc: Global,
    count: u32,
    tokens: &[Token],
    first: Header,
) -> Result<(Vec<Header>, Block, &[Token]), Fault>
    ensures ok { IfOk result (λ r. ReadAll count (grammar.Headers ∷ grammar.Block ∷ []) 0 (token_kinds tokens.now) (token_kinds r.2.now) (headers_after (map see_header r.0.items) ▸ node_block (see_block r.1) ▸ End)) }
    ensures err { IfErr result (λ fault. StopsBefore (grammar.Headers ∷ grammar.Block ∷ []) 0 (token_kinds tokens.now) fault) }
    ensures first { IfOk result (λ r. IsFirst (see_header first) (map see_header r.0.items)) }
{
    let (headers, rest) = headers_of(alloc, count, tokens, first)?;
    let (body, rest) = block(alloc, count, rest, 0)?;
    Ok((headers, body, rest))
}

/// Name Formals { "&" Header } Block
///
/// A chord behind the modifiers and the result of its first header.
fn chord_named(
    alloc: Global,
    count: u32,
    tokens: &[Token],
    modifiers: Vec<Modifier>,
    kind: ReturnType,
) -> Result<(Member, &[Token]), Fault>
    ensures ok { IfOk result (λ r. ReadAll count (grammar.NAME ∷ grammar.Formals ∷ grammar.Headers ∷ grammar.Block ∷ []) 0 (token_kinds tokens.now) (token_kinds r.1.now) (chord_parts (see_member r.0))) }
    ensures err { IfErr result (λ fault. StopsBefore (grammar.NAME ∷ grammar.Formals ∷ grammar.Headers ∷ grammar.Block ∷ []) 0 (token_kinds tokens.now) fault) }
    ensures headed { IfOk result (λ r. IsHeaded (see_member r.0) modifiers.items) }
    ensures gives { IfOk result (λ r. IsChordOf (see_member r.0) kind) }
{
    let (name, list, rest) = named_formals(alloc, count, tokens)?;
    let one = Header {
        modifiers,
        result_type: kind,
        name,
        formals: list,
    };
    let (headers, body, rest) = headers_block(alloc, count, rest, one)?;
    Ok((Member::Chord { headers, body }, rest))
}

/// Formals Block
fn formals_block(
    alloc: Global,
    count: u32,
    tokens: &[Token],
) -> Result<(Formals, Block, &[Token]), Fault>
    ensures ok { IfOk result (λ r. ReadAll count (grammar.Formals ∷ grammar.Block ∷ []) 0 (token_kinds tokens.now) (token_kinds r.2.now) (node_formals (see_formals r.0) ▸ node_block (see_block r.1) ▸ End)) }
    ensures err { IfErr result (λ fault. StopsBefore (grammar.Formals ∷ grammar.Block ∷ []) 0 (token_kinds tokens.now) fault) }
{
    let (list, rest) = formals(alloc, count, tokens)?;
    let (body, rest) = block(alloc, count, rest, 0)?;
    Ok((list, body, rest))
}

/// Rest = Name After
/// After = Formals Block
///     | Name Formals { "&" Header } Block
fn after_name(
    alloc: Global,
    count: u32,
    tokens: &[Token],
    modifiers: Vec<Modifier>,
) -> Result<(Member, &[Token]), Fault>
    requires first { next (token_kinds tokens.now) ≡ number_of grammar.NAME }
    ensures ok { IfOk result (λ r. Reads count grammar.Rest 0 (token_kinds tokens.now) (token_kinds r.1.now) (node_rest_of (see_member r.0))) }
    ensures err { IfErr result (λ fault. StopsAs grammar.Rest 0 (token_kinds tokens.now) fault) }
    ensures headed { IfOk result (λ r. IsHeaded (see_member r.0) modifiers.items) }
{
    let (first, rest) = name_of(alloc, count, tokens, 0)?;
    let ahead = next(rest);
    if ahead == terminal::OPEN {
        let (list, body, rest) = formals_block(alloc, count, rest)?;
        return Ok((
            Member::Constructor {
                modifiers,
                name: first,
                formals: list,
                body,
            },
            rest,
        ));
    }
    if ahead == terminal::NAME {
        let kind = ReturnType::Value(ValueType::Class(first));
        return chord_named(alloc, count, rest, modifiers, kind);
    }
    Err(Fault::At(rest.len()))
}

/// Rest = Name After | Plain Name Formals { "&" Header } Block
///
/// What follows the modifiers of a member.
fn rest_of(
    alloc: Global,
    count: u32,
    tokens: &[Token],
    modifiers: Vec<Modifier>,
) -> Result<(Member, &[Token]), Fault>
    ensures ok { IfOk result (λ r. Reads count grammar.Rest 0 (token_kinds tokens.now) (token_kinds r.1.now) (node_rest_of (see_member r.0))) }
    ensures err { IfErr result (λ fault. StopsAs grammar.Rest 0 (token_kinds tokens.now) fault) }
    ensures headed { IfOk result (λ r. IsHeaded (see_member r.0) modifiers.items) }
{
    if next(tokens) == terminal::NAME {
        return after_name(alloc, count, tokens, modifiers);
    }
    let Some(word) = plain_next(tokens) else {
        return Err(Fault::At(tokens.len()));
    };
    let (kind, rest) = plain(count, tokens, word)?;
    chord_named(alloc, count, rest, modifiers, kind)
}

/// Member = { Modifier } Rest
fn member(alloc: Global, count: u32, tokens: &[Token]) -> Result<(Member, &[Token]), Fault>
    ensures ok { IfOk result (λ r. Reads count grammar.Member 0 (token_kinds tokens.now) (token_kinds r.1.now) (node_member (see_member r.0))) }
    ensures err { IfErr result (λ fault. StopsAs grammar.Member 0 (token_kinds tokens.now) fault) }
{
    let (modifiers, rest) = modifiers_of(alloc, count, tokens)?;
    let (one, rest) = rest_of(alloc, count, rest, modifiers)?;
    Ok((one, rest))
}

/// { Member }
fn members_of(alloc: Global, count: u32, tokens: &[Token]) -> Result<(Vec<Member>, &[Token]), Fault>
    ensures ok { IfOk result (λ r. Reads count grammar.Members 0 (token_kinds tokens.now) (token_kinds r.1.now) (node_members (map see_member r.0.items))) }
    ensures err { IfErr result (λ fault. StopsAs grammar.Members 0 (token_kinds tokens.now) fault) }
{
    let mut list = Vec::new(alloc);
    let mut left = tokens;
    'each: while next(left) != terminal::CLOSE_BRACE {
        let (one, rest) = member(alloc, count, left)?;
        list.push(one)?;
        left = rest;
    }
    Ok((list, left))
}

/// [ "public" ]
fn public_of(count: u32, tokens: &[Token]) -> Result<(Option<u32>, &[Token]), Fault>
    ensures ok { IfOk result (λ r. Reads count grammar.Optional_public 0 (token_kinds tokens.now) (token_kinds r.1.now) (node_public r.0)) }
    ensures err { IfErr result (λ fault. StopsAs grammar.Optional_public 0 (token_kinds tokens.now) fault) }
{
    if next(tokens) == terminal::PUBLIC {
        let (at, rest) = take(count, tokens, terminal::PUBLIC, 0)?;
        return Ok((Some(at), rest));
    }
    Ok((None, tokens))
}

/// [ ":" Name ]
fn base_of(alloc: Global, count: u32, tokens: &[Token]) -> Result<(Option<Name>, &[Token]), Fault>
    ensures ok { IfOk result (λ r. Reads count grammar.Optional_base 0 (token_kinds tokens.now) (token_kinds r.1.now) (node_base r.0)) }
    ensures err { IfErr result (λ fault. StopsAs grammar.Optional_base 0 (token_kinds tokens.now) fault) }
{
    if next(tokens) == terminal::COLON {
        let rest = skip(count, tokens, terminal::COLON, 0)?;
        let (name, rest) = name_of(alloc, count, rest, 0)?;
        return Ok((Some(name), rest));
    }
    Ok((None, tokens))
}

/// [ "public" ] "class" Name
fn class_head(
    alloc: Global,
    count: u32,
    tokens: &[Token],
) -> Result<(Option<u32>, Name, &[Token]), Fault>
    ensures ok { IfOk result (λ r. ReadAll count (grammar.Optional_public ∷ grammar.CLASS ∷ grammar.NAME ∷ []) 0 (token_kinds tokens.now) (token_kinds r.2.now) (node_public r.0 ▸ keyword_leaf keywords.Class 0 ▸ name r.1 ▸ End)) }
    ensures err { IfErr result (λ fault. StopsBefore (grammar.Optional_public ∷ grammar.CLASS ∷ grammar.NAME ∷ []) 0 (token_kinds tokens.now) fault) }
{
    let (public, rest) = public_of(count, tokens)?;
    let rest = skip(count, rest, terminal::CLASS, 0)?;
    let (name, rest) = name_of(alloc, count, rest, 0)?;
    Ok((public, name, rest))
}

/// "{" { Member } "}"
fn class_body(
    alloc: Global,
    count: u32,
    tokens: &[Token],
) -> Result<(Vec<Member>, u32, &[Token]), Fault>
    ensures ok { IfOk result (λ r. ReadAll count (grammar.OPEN_BRACE ∷ grammar.Members ∷ grammar.CLOSE_BRACE ∷ []) 0 (token_kinds tokens.now) (token_kinds r.2.now) (mark_leaf marks.OpenBrace 0 ▸ node_members (map see_member r.0.items) ▸ mark_leaf marks.CloseBrace r.1 ▸ End)) }
    ensures err { IfErr result (λ fault. StopsBefore (grammar.OPEN_BRACE ∷ grammar.Members ∷ grammar.CLOSE_BRACE ∷ []) 0 (token_kinds tokens.now) fault) }
{
    let rest = skip(count, tokens, terminal::OPEN_BRACE, 0)?;
    let (members, rest) = members_of(alloc, count, rest)?;
    let (end, rest) = take(count, rest, terminal::CLOSE_BRACE, 0)?;
    Ok((members, end, rest))
}

/// Class = [ "public" ] "class" Name [ ":" Name ] "{" { Member } "}"
fn class_of(alloc: Global, count: u32, tokens: &[Token]) -> Result<(Class, &[Token]), Fault>
    ensures ok { IfOk result (λ r. Reads count grammar.Class 0 (token_kinds tokens.now) (token_kinds r.1.now) (node_class (see_class r.0))) }
    ensures err { IfErr result (λ fault. StopsAs grammar.Class 0 (token_kinds tokens.now) fault) }
{
    let (public, name, rest) = class_head(alloc, count, tokens)?;
    let (base, rest) = base_of(alloc, count, rest)?;
    let (members, end, rest) = class_body(alloc, count, rest)?;
    Ok((
        Class {
            public,
            name,
            base,
            members,
            end,
        },
        rest,
    ))
}

/// { Class }
///
/// The classes after the first, which is put before them: all tokens are read.
fn classes_of(
    alloc: Global,
    count: u32,
    tokens: &[Token],
    first: Class,
) -> Result<(Vec<Class>, &[Token]), Fault>
    ensures ok { IfOk result (λ r. Reads count grammar.Classes 0 (token_kinds tokens.now) (token_kinds r.1.now) (classes_after (map see_class r.0.items))) }
    ensures err { IfErr result (λ fault. StopsAs grammar.Classes 0 (token_kinds tokens.now) fault) }
    ensures first { IfOk result (λ r. IsFirst (see_class first) (map see_class r.0.items)) }
    ensures end { IfOk result (λ r. token_kinds r.1.now ≡ []) }
{
    let mut list = Vec::new(alloc);
    list.push(first)?;
    let mut left = tokens;
    'each: while next(left) != terminal::END {
        let (one, rest) = class_of(alloc, count, left)?;
        list.push(one)?;
        left = rest;
    }
    Ok((list, left))
}

/// { "." Name }
fn parts_of(alloc: Global, count: u32, tokens: &[Token]) -> Result<(Vec<NamePart>, &[Token]), Fault>
    ensures ok { IfOk result (λ r. Reads count grammar.Name_parts 0 (token_kinds tokens.now) (token_kinds r.1.now) (node_name_parts r.0.items)) }
    ensures err { IfErr result (λ fault. StopsAs grammar.Name_parts 0 (token_kinds tokens.now) fault) }
{
    let mut list = Vec::new(alloc);
    let mut left = tokens;
    'each: while next(left) == terminal::DOT {
        let (at, rest) = take(count, left, terminal::DOT, 0)?;
        let (name, rest) = name_of(alloc, count, rest, 0)?;
        list.push(NamePart { at, name })?;
        left = rest;
    }
    Ok((list, left))
}

/// Using = "using" Name { "." Name } ";"
fn using(alloc: Global, count: u32, tokens: &[Token]) -> Result<(Using, &[Token]), Fault>
    ensures ok { IfOk result (λ r. Reads count grammar.Using 0 (token_kinds tokens.now) (token_kinds r.1.now) (node_using (see_using r.0))) }
    ensures err { IfErr result (λ fault. StopsAs grammar.Using 0 (token_kinds tokens.now) fault) }
{
    let rest = skip(count, tokens, terminal::USING, 0)?;
    let (first, rest) = name_of(alloc, count, rest, 0)?;
    let (more, rest) = parts_of(alloc, count, rest)?;
    let rest = skip(count, rest, terminal::SEMICOLON, 0)?;
    Ok((Using { first, more }, rest))
}

/// { Using }
fn usings_of(alloc: Global, count: u32, tokens: &[Token]) -> Result<(Vec<Using>, &[Token]), Fault>
    ensures ok { IfOk result (λ r. Reads count grammar.Usings 0 (token_kinds tokens.now) (token_kinds r.1.now) (node_usings (map see_using r.0.items))) }
    ensures err { IfErr result (λ fault. StopsAs grammar.Usings 0 (token_kinds tokens.now) fault) }
{
    let mut list = Vec::new(alloc);
    let mut left = tokens;
    'each: while next(left) == terminal::USING {
        let (one, rest) = using(alloc, count, left)?;
        list.push(one)?;
        left = rest;
    }
    Ok((list, left))
}

/// Program = { Using } Class { Class }
///
/// The lines and the classes of a program: all tokens are read.
pub fn program(
    alloc: Global,
    count: u32,
    tokens: &[Token],
) -> Result<(Vec<Using>, Vec<Class>, &[Token]), Fault>
    ensures ok { IfOk result (λ r. Reads count grammar.Whole_program 0 (token_kinds tokens.now) (token_kinds r.2.now) (node_all_classes (map see_using r.0.items) (map see_class r.1.items))) }
    ensures err { IfErr result (λ fault. StopsAs grammar.Whole_program 0 (token_kinds tokens.now) fault) }
    ensures end { IfOk result (λ r. token_kinds r.2.now ≡ []) }
{
    let (usings, rest) = usings_of(alloc, count, tokens)?;
    let (first, rest) = class_of(alloc, count, rest)?;
    let (classes, rest) = classes_of(alloc, count, rest, first)?;
    Ok((usings, classes, rest))
}
