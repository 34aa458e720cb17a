//! Programs: what the grammar derives, each number the place of its token.
#![tactic(auto)]

use crate::classes::{Class, Using};
use std::marker::Model;

/// A program. Contracts see its lines and classes; its tree is `tree_of` of them.
///
/// The grammar derives it, and each number in it is the place of its token in the list that it spells.
#[derive(Drop)]
pub struct Program {
    usings: Vec<Using>,
    classes: Vec<Class>,
}

impl Model for Program {
    ghost use Rattle.std.specs.Coded.{codes};
    ghost use Rattle.chord_tree.specs.contracts.stmts.Block as block;
    ghost use Rattle.chord_tree.specs.View.{Parts, tree_of};
    ghost use Rattle.chord_tree.specs.Program.{IsProgram};

    ghost Value = { Parts };

    ghost coded = { Prim.hlevel (codes, block.the_row.coded) };

    ghost view = { λ p. record { usings = p.usings.items; classes = p.classes.items } };

    ghost invariant = { λ p. IsProgram (tree_of (record { usings = p.usings.items; classes = p.classes.items })) };
}

impl Program {
    ghost use Rattle.std.specs.Prelude.{◌≡◌, ◌<◌, ◌^◌, ◌∷◌, [], length};
    ghost use Rattle.chord_tree.specs.View.{tree_of};
    ghost use Rattle.chord_tree.specs.Program.{IsProgram, spelling};
    ghost use Rattle.chord_tree.specs.ClassNodes.{node_program};
    ghost use Rattle.chord_tree.specs.Derivation.{Derives};
    ghost use Rattle.chord_tree.specs.Node.{spell};
    ghost use Rattle.chord_tree.specs.Symbols.{Whole_program};
    ghost use Rattle.chord_tree.specs.Positions.{AreInOrder, IsBelow};

    /// The program of these lines and classes.
    pub fn new(usings: Vec<Using>, classes: Vec<Class>) -> Program
        requires { IsProgram (tree_of (record { usings = usings.items; classes = classes.items })) }
        ensures { result ≡ record { usings = usings.items; classes = classes.items } }
    {
        Program { usings, classes }
    }

    /// The `using` lines.
    pub fn usings(&self) -> &[Using]
        ensures { result.now ≡ self.now.usings }
    {
        self.usings.as_slice()
    }

    /// The classes.
    pub fn classes(&self) -> &[Class]
        ensures classes { result.now ≡ self.now.classes }
        ensures program { IsProgram (tree_of self.now) }
    {
        self.classes.as_slice()
    }

    /// How many tokens it spells, which is the number of the end of the text.
    pub fn token_count(&self) -> u32
        requires { length (spelling (tree_of self.now)) < 2 ^ 32 }
        ensures { result ≡ length (spelling (tree_of self.now)) }
    {
        match self.classes.last() {
            Some(class) => class.end + 1,
            None => 0,
        }
    }

    /// A law: the grammar derives the tokens that the program spells, each with its depth.
    pub fn derivation(&self)
        ensures { Derives ((Whole_program, 0) ∷ []) (spell (node_program (tree_of self.now)) 0 []) }
    {
        let _ = &self.classes;
    }

    /// A law: each class ends before the name of the next, and each number in the tree is below the number of its tokens.
    pub fn positions(&self)
        ensures order { AreInOrder (tree_of self.now).classes }
        ensures below { IsBelow (length (spelling (tree_of self.now))) (node_program (tree_of self.now)) }
    {
        let _ = &self.classes;
    }

    /// A law: programs that spell the same tokens have the same tree.
    pub fn only_one(&self, other: &Program)
        requires { spelling (tree_of self.now) ≡ spelling (tree_of other.now) }
        ensures { tree_of self.now ≡ tree_of other.now }
    {
        let _ = &self.classes;
        let _ = &other.classes;
    }
}
