//! From a program to its code, or to the first rule that it breaks: both passes look at its tree, and the earlier of their
//! breaks counts.
#![tactic(auto)]

ghost use Rattle.std.specs.Prelude.{◌≡◌, ◌≤◌, IfErr, IfOk, length, map};
ghost use Rattle.chord_bodies.specs.BodyView.{view_body};
ghost use Rattle.chord_classes.specs.Breaks.{IsBreak};
ghost use Rattle.chord_classes.specs.Resolve.{bodies_of};
ghost use Rattle.chord_classes.specs.Rules.{IsFree, is_type_rule};
ghost use Rattle.chord_run.specs.Compiled.{IsCompiled, IsCompileFault, IsEarlier};
ghost use Rattle.chord_tree.specs.Program.{IsProgram, spelling};
ghost use Rattle.chord_tree.specs.View.{tree_of};

use chord_bodies::body::Body;
use chord_code::code::Code;
use chord_gen::generate::generate;
use chord_gen::laws::accepted;
use chord_rules::fault::RuleFault;
use chord_rules::laws::{passes, plan_rules};
use chord_rules::plan::plan;
use chord_tree::program::Program;
use chord_types::program::{TypeFault, type_program};
use std::alloc::Global;

/// A rule by its number, and the token, counted from 0, at which a program breaks it.
#[derive(Clone, Copy, Debug, PartialEq, Eq)]
pub struct Break {
    pub rule: u8,
    pub token: u32,
}

/// Why a program has no code.
#[derive(Clone, Copy, Debug, PartialEq, Eq)]
pub enum CompileFault {
    /// The call ran out of memory.
    Memory,
    /// The program's first break: that with the least token, and of those the one with the least rule.
    Broken(Break),
}

/// The code of a program that breaks no rule.
pub fn compile(alloc: Global, program: &Program) -> Result<Code, CompileFault>
    requires few { length (spelling (tree_of program.now)) ≤ 1048576 }
    requires grammatical { IsProgram (tree_of program.now) }
    ensures code { IfOk result (λ code. IsCompiled (tree_of program.now) code) }
    ensures fault { IfErr result (λ fault. IsCompileFault (tree_of program.now) fault) }
{
    match type_program(alloc, program) {
        Ok(typed) => compile_bodies(alloc, program, typed.bodies()),
        Err(TypeFault::Rule(rule, token)) => Err(broken(alloc, program, Break { rule, token })),
        Err(TypeFault::Memory) => Err(CompileFault::Memory),
    }
}

/// The code of a program whose bodies, which keep to the rules on names and types, are these.
fn compile_bodies(alloc: Global, program: &Program, bodies: &[Body]) -> Result<Code, CompileFault>
    requires few { length (spelling (tree_of program.now)) ≤ 1048576 }
    requires grammatical { IsProgram (tree_of program.now) }
    requires typed { map view_body bodies.now ≡ bodies_of (tree_of program.now) }
    requires free { IsFree is_type_rule (tree_of program.now) }
    ensures code { IfOk result (λ code. IsCompiled (tree_of program.now) code) }
    ensures fault { IfErr result (λ fault. IsCompileFault (tree_of program.now) fault) }
{
    // the earlier break of the two passes is that of all rules
    passes();
    // what a layout rests on is enough for the plan to be sound
    plan_rules();
    // and then there is a code
    accepted();
    match plan(alloc, program) {
        Ok(layout) => match generate(alloc, &layout, bodies) {
            Ok(code) => Ok(code),
            Err(_) => Err(CompileFault::Memory),
        },
        Err(RuleFault::Rule(rule, token)) => Err(CompileFault::Broken(Break { rule, token })),
        Err(RuleFault::Memory) => Err(CompileFault::Memory),
    }
}

/// The first break of a program, of which this is the first break of a rule on names and types.
fn broken(alloc: Global, program: &Program, one: Break) -> CompileFault
    requires few { length (spelling (tree_of program.now)) ≤ 1048576 }
    requires of_types { IsBreak is_type_rule (tree_of program.now) one.rule one.token }
    ensures { IsCompileFault (tree_of program.now) result }
{
    passes();
    match plan(alloc, program) {
        Ok(_layout) => CompileFault::Broken(one),
        Err(RuleFault::Rule(rule, token)) => {
            CompileFault::Broken(earlier(one, Break { rule, token }))
        }
        Err(RuleFault::Memory) => CompileFault::Memory,
    }
}

/// The earlier of two breaks.
fn earlier(one: Break, other: Break) -> Break
    ensures { IsEarlier one other result }
{
    if one.token < other.token {
        return one;
    }
    if one.token == other.token && one.rule <= other.rule {
        return one;
    }
    other
}
