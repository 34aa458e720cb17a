//! From the bytes of a source to its code, or to the cause of its refusal.
#![tactic(auto)]

ghost use Rattle.std.specs.Prelude.{◌≡◌, ◌≤◌, IfErr, IfOk, length};
ghost use Rattle.chord_lexer.specs.Reading.{IsRead, after_byte_order_mark};
ghost use Rattle.chord_run.specs.Compiled.{IsCompiledSource};
ghost use Rattle.chord_run.specs.Refusals.{IsFrontFault, token_start};
ghost use Rattle.chord_run.specs.Sources.{IsProgramOf, IsShort};
ghost use Rattle.chord_tree.specs.Program.{spelling, token_kinds};
ghost use Rattle.chord_tree.specs.View.{tree_of};

use crate::compile::{CompileFault, compile};
use crate::refusal::Refusal;
use chord_code::code::Code;
use chord_lexer::lexer::{LexFault, lex, unmarked};
use chord_lexer::token::Token;
use chord_parser::parser::{ParseFault, parse};
use chord_tree::program::Program;
use std::alloc::Global;

/// Why a source has no code.
#[derive(Clone, Copy, Debug, PartialEq, Eq)]
pub enum FrontFault {
    /// The call ran out of memory.
    Memory,
    /// It is refused, and the refusal points at this byte, where it points at one.
    Refused(Refusal, u32),
}

/// The code of an accepted source.
pub fn code_of(alloc: Global, source: &[u8]) -> Result<Code, FrontFault>
    requires { IsShort source.now }
    ensures code { IfOk result (λ code. IsCompiledSource source.now code) }
    ensures fault { IfErr result (λ fault. IsFrontFault source.now fault) }
{
    match lex(alloc, source) {
        Ok(tokens) => code_of_tokens(alloc, source, &tokens),
        Err(LexFault::Memory) => Err(FrontFault::Memory),
        Err(LexFault::Bad(k)) => Err(FrontFault::Refused(Refusal::Bad(k), k)),
    }
}

/// The code of an accepted source that reads as these tokens.
fn code_of_tokens(alloc: Global, source: &[u8], tokens: &[Token]) -> Result<Code, FrontFault>
    requires short { IsShort source.now }
    requires read { IsRead source.now tokens.now }
    requires few { length tokens.now ≤ 1048576 }
    ensures code { IfOk result (λ code. IsCompiledSource source.now code) }
    ensures fault { IfErr result (λ fault. IsFrontFault source.now fault) }
{
    match parse(alloc, tokens) {
        Ok(program) => code_of_program(alloc, source, tokens, &program),
        Err(ParseFault::Memory) => Err(FrontFault::Memory),
        Err(ParseFault::At(k)) => {
            Err(FrontFault::Refused(Refusal::Syntax(k), start_byte(source, tokens, k)))
        }
        Err(ParseFault::Tall(k)) => {
            Err(FrontFault::Refused(Refusal::Tall(k), start_byte(source, tokens, k)))
        }
    }
}

/// The code of an accepted source that reads as the tokens of this program.
fn code_of_program(
    alloc: Global,
    source: &[u8],
    tokens: &[Token],
    program: &Program,
) -> Result<Code, FrontFault>
    requires read { IsRead source.now tokens.now }
    requires few { length tokens.now ≤ 1048576 }
    requires spelled { spelling (tree_of program.now) ≡ token_kinds tokens.now }
    requires of_source { IsProgramOf source.now (tree_of program.now) }
    ensures code { IfOk result (λ code. IsCompiledSource source.now code) }
    ensures fault { IfErr result (λ fault. IsFrontFault source.now fault) }
{
    match compile(alloc, program) {
        Ok(code) => Ok(code),
        Err(CompileFault::Memory) => Err(FrontFault::Memory),
        Err(CompileFault::Broken(found)) => Err(FrontFault::Refused(
            Refusal::Rule(found.rule, found.token),
            start_byte(source, tokens, found.token),
        )),
    }
}

/// The byte at which token `k` begins, or the end of the text.
fn start_byte(source: &[u8], tokens: &[Token], k: u32) -> u32
    requires { IsShort source.now }
    ensures { result ≡ token_start tokens.now k (length (after_byte_order_mark source.now)) }
{
    match tokens.get(k as usize) {
        Some(token) => token.start,
        None => unmarked(source).len() as u32,
    }
}
