//! What no clause says: which whole sources are programs, and at which token the others are refused.
//! The numbers of tokens were counted by another reader of sources.
use crate::sources::{BUFFER, READERS_AND_WRITERS, SANTA};
use chord_lexer::lexer::lex;
use chord_lexer::token::{Kind, Token};
use chord_parser::parser::{ParseFault, parse};
use chord_tree::program::Program;
use chord_tree::spelling::spell;
use std::alloc::{AllocError, Global};
use std::test::Fail;

fn same(left: &Kind, right: &Kind) -> bool {
    match (left, right) {
        (Kind::Word(a), Kind::Word(b)) => a == b,
        (Kind::Name(a), Kind::Name(b)) => a.items() == b.items(),
        (Kind::Number(a), Kind::Number(b)) => a == b,
        (Kind::Literal(a), Kind::Literal(b)) => a.items() == b.items(),
        (Kind::Mark(a), Kind::Mark(b)) => a == b,
        _ => false,
    }
}

fn same_kinds(left: &[Token], right: &[Token]) -> bool {
    if left.len() != right.len() {
        return false;
    }
    for (a, b) in left.iter().zip(right) {
        if !same(&a.kind, &b.kind) {
            return false;
        }
    }
    true
}

/// What `parse` says of the tokens that a program spells. Where that is a program, `only_one` takes the two: their tree is the same.
fn again(alloc: Global, first: &Program, tokens: &[Token]) -> Result<String, AllocError> {
    let spelled = spell(alloc, first)?;
    if spelled.len() > 1_048_576 {
        return String::from_str(alloc, "too long");
    }
    if !same_kinds(tokens, &spelled) {
        return String::from_str(alloc, "spelled otherwise");
    }
    match parse(alloc, &spelled) {
        Ok(second) => {
            first.only_one(&second);
            format!(in alloc; "program of {} tokens", spelled.len())
        }
        Err(_) => String::from_str(alloc, "not parsed again"),
    }
}

fn parsed(alloc: Global, tokens: &[Token]) -> Result<String, AllocError> {
    if tokens.len() > 1_048_576 {
        return String::from_str(alloc, "too long");
    }
    match parse(alloc, tokens) {
        Ok(program) => again(alloc, &program, tokens),
        Err(ParseFault::At(k)) => format!(in alloc; "at {k}"),
        Err(ParseFault::Tall(k)) => format!(in alloc; "tall {k}"),
        Err(ParseFault::Memory) => String::from_str(alloc, "no memory"),
    }
}

/// What `parse` says of the tokens of a source.
fn answer(alloc: Global, source: &[u8]) -> Result<String, AllocError> {
    if source.len() > 1_048_576 {
        return String::from_str(alloc, "too long");
    }
    match lex(alloc, source) {
        Ok(tokens) => parsed(alloc, &tokens),
        Err(_) => String::from_str(alloc, "no tokens"),
    }
}

/// A local whose value stands in so many brackets.
fn nested(alloc: Global, brackets: u32) -> Result<String, AllocError> {
    let mut source = String::from_str(alloc, "class A { A() { int x = ")?;
    for _ in 0..brackets {
        source.push('(')?;
    }
    source.push('1')?;
    for _ in 0..brackets {
        source.push(')')?;
    }
    source.push_str("; } }")?;
    Ok(source)
}

/// So many pieces between a beginning and an end.
fn repeated(
    alloc: Global,
    first: &str,
    piece: &str,
    times: u32,
    last: &str,
) -> Result<String, AllocError> {
    let mut source = String::from_str(alloc, first)?;
    for _ in 0..times {
        source.push_str(piece)?;
    }
    source.push_str(last)?;
    Ok(source)
}

#[test]
fn sources_are_programs_or_refused_at_a_token(rt: HostRuntime) -> Result<(), Fail> {
    let cases: &[(&str, &[u8], &str)] = &[
        ("nothing", b"", "at 0"),
        ("a word alone", b"int", "at 0"),
        ("an empty class", b"class A { }", "program of 4 tokens"),
        ("a class that is cut off", b"class A {", "at 3"),
        ("a brace too many", b"class A { } }", "at 4"),
        (
            "using first",
            b"using System.Text; class A { }",
            "program of 9 tokens",
        ),
        ("using last", b"class A { } using System;", "at 4"),
        (
            "else of the nearest if",
            b"class A { A() { if (1) if (2) ; else ; } }",
            "program of 20 tokens",
        ),
        (
            "else without if",
            b"class A { A() { if (1) ; else ; else ; } }",
            "at 14",
        ),
        (
            "branches and loops",
            b"class A { A() { if (!(-1 < 2)) ; else while (true) if (false) return; } }",
            "program of 31 tokens",
        ),
        ("a name alone", b"class A { A() { x; } }", "at 8"),
        ("a field", b"class A { A() { a.b; } }", "at 10"),
        (
            "a sum as a statement",
            b"class A { A() { 1 + 2; } }",
            "at 7",
        ),
        (
            "a header that is missing",
            b"class A { async f() { } & }",
            "at 9",
        ),
        (
            "two names of a constructor",
            b"class A { f() g() { } }",
            "at 6",
        ),
        (
            "a chord of three",
            b"class A { int f() & async g(int x) & async h(A a, bool b) { return x; } }",
            "program of 30 tokens",
        ),
        (
            "marks that no program has",
            b"class A { A() { x = 1 ++ 2; } }",
            "at 10",
        ),
        (
            "a number after a literal",
            b"class A { A() { x = \"a\" 1; } }",
            "at 10",
        ),
        ("buffer", BUFFER.as_bytes(), "program of 59 tokens"),
        (
            "readers and writers",
            READERS_AND_WRITERS.as_bytes(),
            "program of 336 tokens",
        ),
        ("santa", SANTA.as_bytes(), "program of 260 tokens"),
    ];
    for (name, source, wanted) in cases {
        let found = answer(rt.alloc(), source)?;
        assert_eq!(rt; found.as_str(), *wanted, "{name}");
    }
    Ok(())
}

#[test]
fn faults_say_what_is_wrong(rt: HostRuntime) -> Result<(), Fail> {
    for (fault, expected) in [
        (ParseFault::Memory, "out of memory"),
        (ParseFault::At(7), "token 7 fits no program"),
        (ParseFault::Tall(200), "token 200 is too deep"),
    ] {
        assert_eq!(rt; format!(in rt.alloc(); "{fault}")?.as_str(), expected);
    }
    Ok(())
}

#[test]
fn a_token_is_at_most_200_deep(rt: HostRuntime) -> Result<(), Fail> {
    let source = nested(rt.alloc(), 98)?;
    let found = answer(rt.alloc(), source.as_bytes())?;
    assert_eq!(rt; found.as_str(), "program of 210 tokens");
    let source = nested(rt.alloc(), 99)?;
    let found = answer(rt.alloc(), source.as_bytes())?;
    assert_eq!(rt; found.as_str(), "tall 109");
    Ok(())
}

#[test]
fn chains_and_classes_are_read_in_loops(rt: HostRuntime) -> Result<(), Fail> {
    let source = repeated(rt.alloc(), "class A { A() { x = 1", "+1", 99_999, "; } }")?;
    let found = answer(rt.alloc(), source.as_bytes())?;
    assert_eq!(rt; found.as_str(), "program of 200011 tokens");
    let source = repeated(rt.alloc(), "", "class A{}", 10_000, "")?;
    let found = answer(rt.alloc(), source.as_bytes())?;
    assert_eq!(rt; found.as_str(), "program of 40000 tokens");
    Ok(())
}
