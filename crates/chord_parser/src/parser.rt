//! From tokens to a program, or the exact token at which they are none.
#![tactic(auto)]

ghost use Rattle.std.specs.Prelude.{◌<◌, ◌≤◌, ◌^◌, ◌≡◌, ◌⊎◌, ℕ, IfOk, IfErr, MatchResult, length};
ghost use Rattle.chord_tree.specs.Program.{IsProgram, spelling, token_kinds};
ghost use Rattle.chord_tree.specs.Tree.{ProgramTree};
ghost use Rattle.chord_tree.specs.View.{tree_of};
ghost use Rattle.chord_parser.specs.Answers.{IsAnswer, IsNotTall, IsStopped};
ghost use Rattle.chord_parser.specs.Nesting.{program_depth};
ghost use Rattle.chord_parser.specs.declared.parser.ParseFault.TheVariants as faults;

use crate::classes::program;
use crate::faults::Fault;
use chord_lexer::token::Token;
use chord_tree::program::Program;
use std::alloc::Global;
use thiserror::Error;

/// Why tokens are no program.
#[derive(Clone, Copy, Debug, PartialEq, Eq, Error)]
pub enum ParseFault {
    /// The call ran out of memory.
    #[error("out of memory")]
    Memory,
    /// The first token, by its number, that fits no program, or the number of tokens where they end too soon.
    #[error("token {0} fits no program")]
    At(u32),
    /// The first token, by its number, that is tall: deeper than 200.
    #[error("token {0} is too deep")]
    Tall(u32),
}

/// The program that the tokens spell, by their kinds alone.
///
/// `At(k)`: some program begins with the first k tokens, which are not too deep, and none with token k too; or these are all tokens, and no program.
/// `Tall(k)`: some program begins with the tokens up to k, and k is the first that is too deep.
pub fn parse(alloc: Global, tokens: &[Token]) -> Result<Program, ParseFault>
    requires { length tokens.now < 2 ^ 32 }
    ensures spelled { IfOk result (λ p. spelling (tree_of p) ≡ token_kinds tokens.now) }
    ensures program { IfOk result (λ p. IsProgram (tree_of p)) }
    ensures not_tall { IfOk result (λ p. IsNotTall (tree_of p)) }
    // so statements and expressions stand in one another at most so often
    ensures nested { IfOk result (λ p. program_depth (tree_of p) ≤ 1600) }
    ensures fault { IfErr result (λ fault. IsAnswer (token_kinds tokens.now) fault) }
    // where the tokens are those of a program, that is the one
    ensures the_one { (t : ProgramTree) → IsProgram t → spelling t ≡ token_kinds tokens.now → IfOk result (λ p. tree_of p ≡ t) }
    // and only memory may lack, if none of them is too deep
    ensures found { (t : ProgramTree) → IsProgram t → IsNotTall t → spelling t ≡ token_kinds tokens.now → IfErr result (λ fault. fault ≡ faults.Memory) }
    // where token k is the first that fits no program, or the first that is too deep, that is the answer
    ensures at { (k : ℕ) → IsAnswer (token_kinds tokens.now) (faults.At k) → MatchResult result (λ _. ⊥) (λ fault. (fault ≡ faults.Memory) ⊎ (fault ≡ faults.At k)) }
    ensures tall { (k : ℕ) → IsAnswer (token_kinds tokens.now) (faults.Tall k) → MatchResult result (λ _. ⊥) (λ fault. (fault ≡ faults.Memory) ⊎ (fault ≡ faults.Tall k)) }
{
    match program(alloc, tokens.len() as u32, tokens) {
        Ok((usings, classes, _)) => Ok(Program::new(usings, classes)),
        Err(fault) => Err(numbered(tokens, fault)),
    }
}

/// The fault by the number of its token.
fn numbered(tokens: &[Token], fault: Fault) -> ParseFault
    requires short { length tokens.now < 2 ^ 32 }
    requires stopped { IsStopped (token_kinds tokens.now) fault }
    ensures { IsAnswer (token_kinds tokens.now) result }
{
    match fault {
        Fault::Memory => ParseFault::Memory,
        Fault::At(left) => ParseFault::At((tokens.len() - left) as u32),
        Fault::Tall(left) => ParseFault::Tall((tokens.len() - left) as u32),
    }
}
