//! The tokens that a program spells.
#![tactic(auto)]

ghost use Rattle.std.specs.Prelude.{◌≡◌, map, IfOk};
ghost use Rattle.chord_tree.specs.Program.{IsProgram, spelling, without_span};
ghost use Rattle.chord_tree.specs.View.{tree_of};

use crate::program::Program;
use crate::spell_classes::{put_classes, put_usings};
use chord_lexer::token::Token;
use std::alloc::{AllocError, Global};

/// The tokens that the program spells, in their order. Each has an empty span.
pub fn spell(alloc: Global, program: &Program) -> Result<Vec<Token>, AllocError>
    ensures spelled { IfOk result (λ tokens. tokens.items ≡ map without_span (spelling (tree_of program.now))) }
    ensures program { IsProgram (tree_of program.now) }
{
    let mut tokens = Vec::new(alloc);
    let classes = program.classes();
    put_usings(alloc, &mut tokens, program.usings())?;
    put_classes(alloc, &mut tokens, classes)?;
    Ok(tokens)
}
