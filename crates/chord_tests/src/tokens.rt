//! What no clause says: the tokens of whole sources, which byte is refused in each of many changed texts, and edge texts.
//! Each answer was made by another reading of the rules.
use chord_lexer::bytes::Bytes;
use chord_lexer::laws::one_reading;
use chord_lexer::lexer::{LexFault, lex};
use chord_lexer::token::{Kind, Token};
use std::alloc::{AllocError, Global};
use std::fmt::Write;
use std::test::Fail;

/// The tokens, each as `KIND@START-END`.
fn shown(alloc: Global, tokens: &[Token], places: bool) -> Result<String, AllocError> {
    let mut out = String::new(alloc);
    for token in tokens {
        if !out.is_empty() {
            out.push(' ')?;
        }
        match &token.kind {
            Kind::Word(keyword) => write!(out, "{keyword:?}")?,
            Kind::Name(name) => write!(out, "name({})", text_of(name.items()))?,
            Kind::Number(number) => write!(out, "number({number})")?,
            Kind::Literal(bytes) => write!(out, "literal({})", text_of(bytes.items()))?,
            Kind::Mark(mark) => write!(out, "{mark:?}")?,
        }
        if places {
            write!(out, "@{}-{}", token.start, token.end)?;
        }
    }
    Ok(out)
}

fn text_of(bytes: &[u8]) -> &str {
    str::from_utf8(bytes).unwrap_or("?")
}

/// What `lex` answers: the tokens, or the byte.
fn answer(alloc: Global, text: &[u8], places: bool) -> Result<String, AllocError> {
    if text.len() > 1_048_576 {
        return String::from_str(alloc, "too long");
    }
    match lex(alloc, text) {
        Ok(tokens) => shown(alloc, &tokens, places),
        Err(LexFault::Bad(k)) => format!(in alloc; "bad {k}"),
        Err(LexFault::Memory) => String::from_str(alloc, "no memory"),
    }
}

const BUFFER: &[u8] = b"class Buffer {
  public string Get() & public async Put(string s) { return s; }
}
class Program {
  static void Main() {
    Buffer b = new Buffer();
    b.Put(\"hi\");
    Console.WriteLine(b.Get());
  }
}
";

const BUFFER_KINDS: &str = "\
Class name(Buffer) OpenBrace Public String name(Get) OpenParenthesis CloseParenthesis \
Ampersand Public Async name(Put) OpenParenthesis String name(s) CloseParenthesis OpenBrace \
Return name(s) Semicolon CloseBrace CloseBrace Class name(Program) OpenBrace Static Void \
name(Main) OpenParenthesis CloseParenthesis OpenBrace name(Buffer) name(b) Assign New \
name(Buffer) OpenParenthesis CloseParenthesis Semicolon name(b) Dot name(Put) \
OpenParenthesis literal(hi) CloseParenthesis Semicolon name(Console) Dot name(WriteLine) \
OpenParenthesis name(b) Dot name(Get) OpenParenthesis CloseParenthesis CloseParenthesis \
Semicolon CloseBrace CloseBrace";

const LOCK: &[u8] = b"class Lock {
  public Lock() { idle(); }
  public void Shared() & async idle() { held(1); }
  public void Shared() & async held(int n) { held(n + 1); }
  public void ReleaseShared() & async held(int n) {
    if (n == 1) idle(); else held(n - 1);
  }
  public void Exclusive() & async idle() { }
  public void ReleaseExclusive() { idle(); }
}
class Total {
  public Total(int n) { sum(0, n); }
  public async Add(int v) & async sum(int s, int n) {
    if (n == 1) done(s + v); else sum(s + v, n - 1);
  }
  public int Wait() & async done(int s) { return s; }
}
class Work {
  public async Reader(Lock k, Total t) { k.Shared(); k.ReleaseShared(); t.Add(1); }
  public async Writer(Lock k, Total t) { k.Exclusive(); k.ReleaseExclusive(); t.Add(1); }
}
class Program {
  static void Main() {
    Lock k = new Lock(); Total t = new Total(4); Work w = new Work();
    w.Reader(k, t); w.Reader(k, t); w.Writer(k, t); w.Reader(k, t);
    Console.WriteLine(t.Wait());
  }
}
";

const LOCK_KINDS: &str = "\
Class name(Lock) OpenBrace Public name(Lock) OpenParenthesis CloseParenthesis OpenBrace \
name(idle) OpenParenthesis CloseParenthesis Semicolon CloseBrace Public Void name(Shared) \
OpenParenthesis CloseParenthesis Ampersand Async name(idle) OpenParenthesis \
CloseParenthesis OpenBrace name(held) OpenParenthesis number(1) CloseParenthesis Semicolon \
CloseBrace Public Void name(Shared) OpenParenthesis CloseParenthesis Ampersand Async \
name(held) OpenParenthesis Int name(n) CloseParenthesis OpenBrace name(held) \
OpenParenthesis name(n) Plus number(1) CloseParenthesis Semicolon CloseBrace Public Void \
name(ReleaseShared) OpenParenthesis CloseParenthesis Ampersand Async name(held) \
OpenParenthesis Int name(n) CloseParenthesis OpenBrace If OpenParenthesis name(n) Equal \
number(1) CloseParenthesis name(idle) OpenParenthesis CloseParenthesis Semicolon Else \
name(held) OpenParenthesis name(n) Minus number(1) CloseParenthesis Semicolon CloseBrace \
Public Void name(Exclusive) OpenParenthesis CloseParenthesis Ampersand Async name(idle) \
OpenParenthesis CloseParenthesis OpenBrace CloseBrace Public Void name(ReleaseExclusive) \
OpenParenthesis CloseParenthesis OpenBrace name(idle) OpenParenthesis CloseParenthesis \
Semicolon CloseBrace CloseBrace Class name(Total) OpenBrace Public name(Total) \
OpenParenthesis Int name(n) CloseParenthesis OpenBrace name(sum) OpenParenthesis number(0) \
Comma name(n) CloseParenthesis Semicolon CloseBrace Public Async name(Add) OpenParenthesis \
Int name(v) CloseParenthesis Ampersand Async name(sum) OpenParenthesis Int name(s) Comma \
Int name(n) CloseParenthesis OpenBrace If OpenParenthesis name(n) Equal number(1) \
CloseParenthesis name(done) OpenParenthesis name(s) Plus name(v) CloseParenthesis Semicolon \
Else name(sum) OpenParenthesis name(s) Plus name(v) Comma name(n) Minus number(1) \
CloseParenthesis Semicolon CloseBrace Public Int name(Wait) OpenParenthesis \
CloseParenthesis Ampersand Async name(done) OpenParenthesis Int name(s) CloseParenthesis \
OpenBrace Return name(s) Semicolon CloseBrace CloseBrace Class name(Work) OpenBrace Public \
Async name(Reader) OpenParenthesis name(Lock) name(k) Comma name(Total) name(t) \
CloseParenthesis OpenBrace name(k) Dot name(Shared) OpenParenthesis CloseParenthesis \
Semicolon name(k) Dot name(ReleaseShared) OpenParenthesis CloseParenthesis Semicolon \
name(t) Dot name(Add) OpenParenthesis number(1) CloseParenthesis Semicolon CloseBrace \
Public Async name(Writer) OpenParenthesis name(Lock) name(k) Comma name(Total) name(t) \
CloseParenthesis OpenBrace name(k) Dot name(Exclusive) OpenParenthesis CloseParenthesis \
Semicolon name(k) Dot name(ReleaseExclusive) OpenParenthesis CloseParenthesis Semicolon \
name(t) Dot name(Add) OpenParenthesis number(1) CloseParenthesis Semicolon CloseBrace \
CloseBrace Class name(Program) OpenBrace Static Void name(Main) OpenParenthesis \
CloseParenthesis OpenBrace name(Lock) name(k) Assign New name(Lock) OpenParenthesis \
CloseParenthesis Semicolon name(Total) name(t) Assign New name(Total) OpenParenthesis \
number(4) CloseParenthesis Semicolon name(Work) name(w) Assign New name(Work) \
OpenParenthesis CloseParenthesis Semicolon name(w) Dot name(Reader) OpenParenthesis name(k) \
Comma name(t) CloseParenthesis Semicolon name(w) Dot name(Reader) OpenParenthesis name(k) \
Comma name(t) CloseParenthesis Semicolon name(w) Dot name(Writer) OpenParenthesis name(k) \
Comma name(t) CloseParenthesis Semicolon name(w) Dot name(Reader) OpenParenthesis name(k) \
Comma name(t) CloseParenthesis Semicolon name(Console) Dot name(WriteLine) OpenParenthesis \
name(t) Dot name(Wait) OpenParenthesis CloseParenthesis CloseParenthesis Semicolon \
CloseBrace CloseBrace";

const SANTA: &[u8] = b"class Santa {
  public Santa() { deer(0); elves(0); }
  public async Back() & async deer(int n) {
    if (n == 8) { deer(0); sleigh(); } else deer(n + 1);
  }
  public async Ask() & async elves(int n) {
    if (n == 2) { elves(0); group(); } else elves(n + 1);
  }
  public void Work() & async sleigh() { Console.WriteLine(\"Santa delivers toys\"); }
  public void Work() & async group() { Console.WriteLine(\"Santa meets elves\"); }
}
class Folk {
  public async Reindeer(Santa s) { s.Back(); }
  public async Elf(Santa s) { s.Ask(); }
}
class Program {
  static void Main() {
    Santa s = new Santa(); Folk f = new Folk();
    int i = 0;
    while (i < 10) { if (i < 9) f.Reindeer(s); f.Elf(s); i = i + 1; }
    s.Work(); s.Work(); s.Work(); s.Work();
  }
}
";

const SANTA_KINDS: &str = "\
Class name(Santa) OpenBrace Public name(Santa) OpenParenthesis CloseParenthesis OpenBrace \
name(deer) OpenParenthesis number(0) CloseParenthesis Semicolon name(elves) OpenParenthesis \
number(0) CloseParenthesis Semicolon CloseBrace Public Async name(Back) OpenParenthesis \
CloseParenthesis Ampersand Async name(deer) OpenParenthesis Int name(n) CloseParenthesis \
OpenBrace If OpenParenthesis name(n) Equal number(8) CloseParenthesis OpenBrace name(deer) \
OpenParenthesis number(0) CloseParenthesis Semicolon name(sleigh) OpenParenthesis \
CloseParenthesis Semicolon CloseBrace Else name(deer) OpenParenthesis name(n) Plus \
number(1) CloseParenthesis Semicolon CloseBrace Public Async name(Ask) OpenParenthesis \
CloseParenthesis Ampersand Async name(elves) OpenParenthesis Int name(n) CloseParenthesis \
OpenBrace If OpenParenthesis name(n) Equal number(2) CloseParenthesis OpenBrace name(elves) \
OpenParenthesis number(0) CloseParenthesis Semicolon name(group) OpenParenthesis \
CloseParenthesis Semicolon CloseBrace Else name(elves) OpenParenthesis name(n) Plus \
number(1) CloseParenthesis Semicolon CloseBrace Public Void name(Work) OpenParenthesis \
CloseParenthesis Ampersand Async name(sleigh) OpenParenthesis CloseParenthesis OpenBrace \
name(Console) Dot name(WriteLine) OpenParenthesis literal(Santa delivers toys) \
CloseParenthesis Semicolon CloseBrace Public Void name(Work) OpenParenthesis \
CloseParenthesis Ampersand Async name(group) OpenParenthesis CloseParenthesis OpenBrace \
name(Console) Dot name(WriteLine) OpenParenthesis literal(Santa meets elves) \
CloseParenthesis Semicolon CloseBrace CloseBrace Class name(Folk) OpenBrace Public Async \
name(Reindeer) OpenParenthesis name(Santa) name(s) CloseParenthesis OpenBrace name(s) Dot \
name(Back) OpenParenthesis CloseParenthesis Semicolon CloseBrace Public Async name(Elf) \
OpenParenthesis name(Santa) name(s) CloseParenthesis OpenBrace name(s) Dot name(Ask) \
OpenParenthesis CloseParenthesis Semicolon CloseBrace CloseBrace Class name(Program) \
OpenBrace Static Void name(Main) OpenParenthesis CloseParenthesis OpenBrace name(Santa) \
name(s) Assign New name(Santa) OpenParenthesis CloseParenthesis Semicolon name(Folk) \
name(f) Assign New name(Folk) OpenParenthesis CloseParenthesis Semicolon Int name(i) Assign \
number(0) Semicolon While OpenParenthesis name(i) Less number(10) CloseParenthesis \
OpenBrace If OpenParenthesis name(i) Less number(9) CloseParenthesis name(f) Dot \
name(Reindeer) OpenParenthesis name(s) CloseParenthesis Semicolon name(f) Dot name(Elf) \
OpenParenthesis name(s) CloseParenthesis Semicolon name(i) Assign name(i) Plus number(1) \
Semicolon CloseBrace name(s) Dot name(Work) OpenParenthesis CloseParenthesis Semicolon \
name(s) Dot name(Work) OpenParenthesis CloseParenthesis Semicolon name(s) Dot name(Work) \
OpenParenthesis CloseParenthesis Semicolon name(s) Dot name(Work) OpenParenthesis \
CloseParenthesis Semicolon CloseBrace CloseBrace";

/// Texts, and what each reads as, with the byte FE after each.
const TEXTS: &[u8] = b"\
\xFE\xFE\
\x20\t\r\n\xFE\xFE\
\xEF\xBB\xBF\xFE\xFE\
\xEF\xBB\xBFa b\xFEname(a)@0-1 name(b)@2-3\xFE\
\xEF\xBB\xBF\xEF\xBB\xBFa\xFEbad 0\xFE\
a\xEF\xBB\xBF\xFEbad 1\xFE\
\xEF\xBB\xFEbad 0\xFE\
=== =\xFEEqual@0-2 Assign@2-3 Assign@4-5\xFE\
!==!\xFENotEqual@0-2 Assign@2-3 Not@3-4\xFE\
<==<\xFELessOrEqual@0-2 Assign@2-3 Less@3-4\xFE\
>==>\xFEGreaterOrEqual@0-2 Assign@2-3 Greater@3-4\xFE\
&&&\xFEAnd@0-2 Ampersand@2-3\xFE\
|||\xFEbad 2\xFE\
+++\xFEIncrement@0-2 Plus@2-3\xFE\
---\xFEDecrement@0-2 Minus@2-3\xFE\
{}();,.:*%\xFEOpenBrace@0-1 CloseBrace@1-2 OpenParenthesis@2-3 CloseParenthesis@3-4 Semicolon@4-5 Comma@5-6 Dot@6-7 Colon@7-8 Times@8-9 Remainder@9-10\xFE\
/ /\xFEDivide@0-1 Divide@2-3\xFE\
a/b\xFEname(a)@0-1 Divide@1-2 name(b)@2-3\xFE\
a/ *b\xFEname(a)@0-1 Divide@1-2 Times@3-4 name(b)@4-5\xFE\
*/\xFETimes@0-1 Divide@1-2\xFE\
//\xFE\xFE\
//\xFF\xFEbad 0\xFE\
// \xC3\xA9\ra\xFEname(a)@6-7\xFE\
//a\n//b\r\nc\xFEname(c)@9-10\xFE\
/**/a\xFEname(a)@4-5\xFE\
/*/\xFEbad 0\xFE\
/***/a\xFEname(a)@5-6\xFE\
/****/\xFE\xFE\
/* * / */a\xFEname(a)@9-10\xFE\
/*\n\xE2\x82\xAC*/a\xFEname(a)@8-9\xFE\
/*\xFF*/\xFEbad 0\xFE\
/* \xC3*/\xA9\xFEbad 0\xFE\
a /* b\xFEbad 2\xFE\
a//*\nb\xFEname(a)@0-1 name(b)@5-6\xFE\
/*//*/b\xFEname(b)@6-7\xFE\
0\xFEnumber(0)@0-1\xFE\
007\xFEnumber(7)@0-3\xFE\
2147483648\xFEnumber(2147483648)@0-10\xFE\
2147483649\xFEbad 0\xFE\
0000000000002147483648\xFEnumber(2147483648)@0-22\xFE\
99999999999999999999999999\xFEbad 0\xFE\
12a\xFEbad 0\xFE\
12_\xFEbad 0\xFE\
12.5\xFEnumber(12)@0-2 Dot@2-3 number(5)@3-4\xFE\
1 a\xFEnumber(1)@0-1 name(a)@2-3\xFE\
1\xC3\xA9\xFEbad 1\xFE\
\"\"\xFEliteral()@0-2\xFE\
\"a b\"c\xFEliteral(a b)@0-5 name(c)@5-6\xFE\
\"\\\"\\\\\\n\\t\\r\"\xFEliteral(\"\\\n\t\r)@0-12\xFE\
\"\xC3\xA9\xE2\x82\xAC\xF0\x9F\x98\x80\"\xFEliteral(\xC3\xA9\xE2\x82\xAC\xF0\x9F\x98\x80)@0-11\xFE\
\"a\xFEbad 0\xFE\
\"a\n\"\xFEbad 0\xFE\
\"a\r\"\xFEbad 0\xFE\
\"\\q\"\xFEbad 0\xFE\
\"\\\xFEbad 0\xFE\
\"\\\"\xFEbad 0\xFE\
\"\xC3\"\xFEbad 0\xFE\
\"\xC3\\n\xA9\"\xFEbad 0\xFE\
\"\xED\xA0\x80\"\xFEbad 0\xFE\
\"\\\xC3\xA9\"\xFEbad 0\xFE\
\"//\"\xFEliteral(//)@0-4\xFE\
a\"b\"1\xFEname(a)@0-1 literal(b)@1-4 number(1)@4-5\xFE\
'a'\xFEbad 0\xFE\
class classes Class _ _1 a1b do double readonly as async\xFEClass@0-5 name(classes)@6-13 name(Class)@14-19 name(_)@20-21 name(_1)@22-24 name(a1b)@25-28 Do@29-31 Unused@32-38 Unused@39-47 Unused@48-50 Async@51-56\xFE\
\x00\xFEbad 0\xFE\
\x7F\xFEbad 0\xFE\
\xC3\xA9\xFEbad 0\xFE\
a@\xFEbad 1\xFE\
999\xF4\x90\x80\x80999999999\xFEbad 3\xFE\
\xED\xA0\x80\xF4\x90\x80\x80\xFEbad 0\xFE\
\xF4\x90\x80\x80#\xF4\x90\x80#\x80\xFEbad 0\xFE\
\xEF999999999999\xBB\xBF\xFEbad 0\xFE\
#\xFEbad 0\xFE\
\"\xFEbad 0\xFE\
\\\xFEbad 0\xFE\
\xEF\xC0\xF4\x90\x80\x80\xFEbad 0\xFE\
|\xFEbad 0\xFE\
|+\xEF\xBB\xBF\xFEbad 0\xFE\
#/\xC3\xE7\xFEbad 0\xFE\
\xC0\x80\xFEbad 0\xFE\
\r\xC6\xFEbad 1\xFE\
1\xEF\xBB\xBF\xFEbad 1\xFE\
\xC0#\x80\xFEbad 0\xFE\
\x00\xED\xA0\x80\xFEbad 0\xFE\
|/999999999999\xFEbad 0\xFE\
999999999999\xFEbad 0\xFE\
++\r\xF1\xC3\xED\xA0\x80\xFEbad 3\xFE\
999999999999\r\xC0\x80\xFEbad 0\xFE\
\xC3\xFEbad 0\xFE\
\xC3\r\xFEbad 0\xFE\
1a\xFEbad 0\xFE\
3\xF4\x90\x80\x80\xFEbad 1\xFE\
++9991a\x80999\xF4\x90\x80\x80\xFEbad 2\xFE\
\xC0\x80\r///*1a\xFEbad 0\xFE\
\xED\xA0\xEF\xBB\xBF\x80\xFEbad 0\xFE\
'\xFEbad 0\xFE\
\xED\xF4\x90\x80\x80\xFEbad 0\xFE\
class A { pu999999999999nt n) { if\\ (n < 2) return n; return F(++n - 1) + F(n - 2); } } class P { static void Main() { Console.WriteLine(new A(\r).F(3)); } }\xFEbad 34\xFE\
class \xC0\x80P { static void Main() { Console.Write\xEF\xBB\xBFe((46341 != -1) \xC0\x80&& (!(false)) ||/* (((true) || (true) |\xC3 (true)) && (false) || (true)));  } }\xFEbad 6\xFE\
class A { public async T() & public async U(int n)' { if (n > 0) { T(); U(n - 1); } else Console.WriteLine(\"end\"); } } class P { static void Main() { A a \xF4\x90\x80\x80= new A(); a.T(); a.U(3); } }\xFEbad 50\xFE\
class A { public async T() & public asy\xED\xA0\x80U(int n) { if (n > 0) {\r T(); U(n - 1); \xED\xA0\x80} else Con\x00ole.WriteLine(\"end\"); } } class P { st\xEF\xBB\xBFc void Main() { A a = new A(); a.T(); a.U(5); } }\xFEbad 39\xFE\
class A { \xC3public async T() & public async //int n) 1aif (n > 0) { T(); U(n - 1); } else Consol\xC3e.WriteLine(\"end\"); } } class P { static void Main() { A a = new \xEF\xBB\xBFA(); a.T(); a.U(2); } }\xFEbad 10\xFE\
class A { public async T() & public async U(int n) { if (n > 0) { T(); U(n - 1); } el\xEF\xBB\xBFse Console.WriteLine(\"end\"); } } class P { static void Main() { A a = new A(); a*/(); a.U(1); } }\xFEbad 85\xFE\
class A { public int F(int# n) { if (n < 2) return n; return F(n - 1) + F(n - 2); } } class P { static void Main() { Console.WriteLine(new A().F(4)); } }\xFEbad 26\xFE\
class P { st\"atic void Main() { Console.W/*teLine(!((\"True\") == (\"-1\"))); Console.WriteLin\xC0\x80(((\"-1\") == (\"\")) && ((false) && (true) || (true)) || (463\x0041 > 65536)) || (!(65536 >= 1)) && (true)\r;  } }\xFEbad 68\xFE\
";

#[test]
fn kinds_of_the_sources(rt: HostRuntime) -> Result<(), Fail> {
    for (source, kinds) in [
        (BUFFER, BUFFER_KINDS),
        (LOCK, LOCK_KINDS),
        (SANTA, SANTA_KINDS),
    ] {
        let found = answer(rt.alloc(), source, false)?;
        assert_eq!(rt; found.as_str(), kinds);
    }
    Ok(())
}

#[test]
fn texts_at_the_edges(rt: HostRuntime) -> Result<(), Fail> {
    let mut text: Option<&[u8]> = None;
    for part in TEXTS.split(|byte| *byte == 0xFE) {
        match text {
            None => text = Some(part),
            Some(bytes) => {
                let found = answer(rt.alloc(), bytes, true)?;
                assert_eq!(rt; found.as_bytes(), part, "{bytes:?}");
                text = None;
            }
        }
    }
    Ok(())
}

/// A text of one byte `n` times, between two others.
fn repeated(
    alloc: Global,
    first: &[u8],
    byte: u8,
    n: usize,
    last: &[u8],
) -> Result<Vec<u8>, AllocError> {
    let mut text = Vec::new(alloc);
    text.extend_from_slice(first)?;
    for _ in 0..n {
        text.push(byte)?;
    }
    text.extend_from_slice(last)?;
    Ok(text)
}

/// How many tokens there are, or the byte.
fn count(alloc: Global, text: &[u8]) -> Result<usize, u32> {
    if text.len() > 1_048_576 {
        return Err(u32::MAX);
    }
    match lex(alloc, text) {
        Ok(tokens) => Ok(tokens.len()),
        Err(LexFault::Bad(k)) => Err(k),
        Err(LexFault::Memory) => Err(u32::MAX),
    }
}

/// How many tokens a text of one byte `n` times between two others has, or the byte at which it is refused.
fn repeated_count(
    alloc: Global,
    first: &[u8],
    byte: u8,
    n: usize,
    last: &[u8],
) -> Result<Result<usize, u32>, AllocError> {
    let text = repeated(alloc, first, byte, n, last)?;
    Ok(count(alloc, &text))
}

/// The front of a text, a byte and how many times it stands behind it, the end of the text, and what is counted.
const LONGEST: [(&[u8], u8, usize, &[u8], Result<usize, u32>); 12] = [
    (b"", b'a', 255, b"", Ok(1)),
    (b"", b'a', 256, b"", Err(0)),
    (b"if ", b'a', 256, b"", Err(3)),
    (b"_", b'9', 254, b"+", Ok(2)),
    (b"_", b'9', 255, b"+", Err(0)),
    (b"", b'0', 300, b"2147483648", Ok(1)),
    (b"", b'0', 300, b"2147483649", Err(0)),
    (b"\"", b'a', 4000, b"\"", Ok(1)),
    (b"\"", b'a', 4000, b"", Err(0)),
    (b"/*", b'*', 4000, b"/", Ok(0)),
    (b"/*", b'*', 4000, b" /", Err(0)),
    (b"//", b'/', 4000, b"", Ok(0)),
];

#[test]
fn the_longest_of_each_kind(rt: HostRuntime) -> Result<(), Fail> {
    for (first, byte, n, last, tokens) in &LONGEST {
        let found = repeated_count(rt.alloc(), first, *byte, *n, last)?;
        assert_eq!(rt; found, *tokens, "{byte} {n} times");
    }
    Ok(())
}

#[test]
fn faults_say_what_is_wrong(rt: HostRuntime) -> Result<(), Fail> {
    for (fault, expected) in [
        (LexFault::Memory, "out of memory"),
        (LexFault::Bad(7), "no token begins at byte 7"),
    ] {
        assert_eq!(rt; format!(in rt.alloc(); "{fault}")?.as_str(), expected);
    }
    Ok(())
}

#[test]
fn copies(rt: HostRuntime) -> Result<(), Fail> {
    let bytes = Bytes::of_items(vec![in rt.alloc(); 1u8, 2]?);
    let copy = bytes.copied(rt.alloc())?;
    assert_eq!(rt; copy.items(), bytes.items());
    assert_eq!(rt; bytes.into_items().len(), 2);
    let kind = Kind::Literal(copy).copied(rt.alloc())?;
    assert!(rt; matches!(&kind, Kind::Literal(_)));
    one_reading();
    Ok(())
}
