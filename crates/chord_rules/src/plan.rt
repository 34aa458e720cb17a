//! The plan of a program, or the first break of the rules that it rests on.
#![tactic(auto)]

ghost use Rattle.std.specs.Prelude.{◌≡◌, ◌<◌, ◌≤◌, ◌^◌, ◌%◌, ◌/◌, IfOk, IfErr, OnOk, length};
ghost use Rattle.chord_tree.specs.View.{tree_of};
ghost use Rattle.chord_tree.specs.Program.{spelling};
ghost use Rattle.chord_classes.specs.Plan.{plan_of, main_of};
ghost use Rattle.chord_classes.specs.Rules.{IsFree};
ghost use Rattle.chord_rules.specs.Family.{is_layout_rule, IsRuleFault};

use crate::classes::look;
use crate::fault::RuleFault;
use crate::mains::{main_member, wrong_mains};
use chord_bodies::plan::Layout;
use chord_classes::least::Least;
use chord_tree::program::Program;
use std::alloc::Global;

/// The plan of a program: its classes with their methods, effective chords and constructors by number, and its `Main`.
///
/// `Rule(r, k)`: of C01, C03 to C13 and C21 the program breaks rule r at token k, and none of them before it.
pub fn plan(alloc: Global, program: &Program) -> Result<Layout, RuleFault>
    requires few { length (spelling (tree_of program.now)) ≤ 1048576 }
    ensures planned { IfOk result (λ layout. layout ≡ record { classes = plan_of (tree_of program.now); main = main_of (tree_of program.now) }) }
    ensures free { OnOk result (IsFree is_layout_rule (tree_of program.now)) }
    ensures fault { IfErr result (λ fault. IsRuleFault (tree_of program.now) fault) }
{
    let mut breaks = Least::none();
    let classes = program.classes();
    let plans = look(alloc, classes, &mut breaks)?;
    wrong_mains(classes, program.token_count(), &mut breaks);
    match breaks.found {
        Some(key) => Err(rule_fault(key)),
        None => Ok(Layout::new(plans, main_member(classes)?)),
    }
}

/// The break that a number stands for.
fn rule_fault(key: u64) -> RuleFault
    requires { key < 2 ^ 37 }
    ensures { result ≡ RuleFault.Rule (key % 32) (key / 32) }
{
    RuleFault::Rule((key % 32) as u8, (key / 32) as u32)
}
