//! A program with its names and types: the least break of the rules on them, or its bodies resolved.
#![tactic(auto)]

ghost use Rattle.std.specs.Prelude.{◌≡◌, ℕ, ◌%◌, ◌/◌, OnOk, IfOk, IfErr, map};
ghost use Rattle.chord_tree.specs.View.{tree_of, see_class, see_member};
ghost use Rattle.chord_bodies.specs.BodyView.{view_body};
ghost use Rattle.chord_classes.specs.Table.{table_of};
ghost use Rattle.chord_classes.specs.Resolve.{bodies_of};
ghost use Rattle.chord_classes.specs.Rules.{in_program, is_type_rule, IsFree};
ghost use Rattle.chord_classes.specs.Least.{least};
ghost use Rattle.chord_classes.specs.AllNotes.{all_notes};
ghost use Rattle.chord_types.specs.Answer.{IsTypeFault, AreMembersChecked, AreClassesChecked};
ghost use Rattle.chord_types.specs.Flat.{AreFlat};
ghost use Rattle.chord_types.specs.declared.program.TypeFault.TheVariants as faults;

use crate::members::member;
use chord_bodies::body::Body;
use chord_classes::build::table_of;
use chord_classes::laws;
use chord_classes::least::Least;
use chord_classes::numbers::narrow;
use chord_classes::table::Table;
use chord_tree::classes::{Class, Member};
use chord_tree::program::Program;
use std::alloc::{AllocError, Global};
use std::marker::Model;
use thiserror::Error;

/// Why the bodies of a program were not resolved.
#[derive(Error, Clone, Copy, Debug, PartialEq, Eq)]
pub enum TypeFault {
    /// No memory was found.
    #[error("out of memory")]
    Memory,
    /// The break: the number of a rule, and that of the token at which it is broken.
    #[error("rule C{0:02} is broken at token {1}")]
    Rule(u8, u32),
}

/// The bodies of a program, by the numbers of their members. Contracts see them; what they stand for is `view_body` of each.
///
/// A body tells its slots and their types (`Body::slots`, `Body::slot_type`), and the static type of each of its expressions (`Body::type_of`). Its expressions and statements name each variable by its slot, each call by its class and method, `WriteLine` as `Stmt::Print`, and each `new` by its class.
#[derive(Drop)]
pub struct Typed {
    bodies: Vec<Body>,
}

impl Model for Typed {
    ghost use Rattle.std.specs.Prelude.{List};
    ghost use Rattle.std.specs.Coded.{codes};
    ghost use Rattle.chord_bodies.specs.declared.body.Body.{Body};
    ghost use Rattle.chord_bodies.specs.contracts.body.Body as body;

    ghost Value = { List Body };

    ghost coded = { Prim.hlevel (codes, body.the_row.coded) };

    ghost view = { λ t. t.bodies.items };
}

impl Typed {
    ghost use Rattle.std.specs.Prelude.{◌≡◌};

    /// The bodies, by the numbers of their members.
    pub fn bodies(&self) -> &[Body]
        ensures { result.now ≡ self.now }
    {
        self.bodies.as_slice()
    }
}

/// The bodies of the members of a class, after others.
fn class_bodies<'t, 'a>(
    alloc: Global,
    table: &'t Table<'a>,
    number: u32,
    members: &'a [Member],
    bodies: &mut Vec<Body>,
    breaks: &mut Least,
) -> Result<(), AllocError>
    ensures { OnOk result (AreMembersChecked table.now number (map see_member members.now) breaks.old.found breaks.new.found bodies.old.items bodies.new.items) }
{
    'each: for one in members {
        let body = member(alloc, table, number, one, breaks)?;
        bodies.push(body)?;
    }
    Ok(())
}

/// The bodies of classes.
fn all_bodies<'t, 'a>(
    alloc: Global,
    table: &'t Table<'a>,
    classes: &'a [Class],
    breaks: &mut Least,
) -> Result<Vec<Body>, AllocError>
    ensures { IfOk result (λ bodies. AreClassesChecked table.now (map see_class classes.now) breaks.old.found breaks.new.found bodies.items) }
{
    let mut bodies = Vec::new(alloc);
    let mut number: usize = 0;
    'each: for class in classes {
        let own = narrow(number)?;
        class_bodies(alloc, table, own, &class.members, &mut bodies, breaks)?;
        number += 1;
    }
    Ok(bodies)
}

/// The break that the least number that was noted stands for.
fn told(program: &Program, breaks: &Least) -> Result<(), TypeFault>
    requires { breaks.now.found ≡ least None (in_program (tree_of program.now) (all_notes (tree_of program.now))) }
    ensures none { OnOk result (breaks.now.found ≡ None) }
    ensures free { OnOk result (IsFree is_type_rule (tree_of program.now)) }
    ensures fault { IfErr result (λ fault. IsTypeFault (tree_of program.now) fault) }
    ensures rule { IfErr result (λ fault. (key : ℕ) × (breaks.now.found ≡ Some key) × (fault ≡ faults.Rule (key % 32) (key / 32))) }
{
    laws::least();
    let Some(key) = breaks.found else {
        return Ok(());
    };
    Err(TypeFault::Rule((key % 32) as u8, (key / 32) as u32))
}

/// The bodies of a program with this table, or its break.
fn typed_by<'t, 'a>(
    alloc: Global,
    table: &'t Table<'a>,
    program: &'a Program,
) -> Result<Typed, TypeFault>
    requires { table.now ≡ table_of (tree_of program.now) }
    ensures typed { IfOk result (λ typed. map view_body typed ≡ bodies_of (tree_of program.now)) }
    ensures flat { IfOk result (λ typed. AreFlat typed) }
    ensures free { OnOk result (IsFree is_type_rule (tree_of program.now)) }
    ensures fault { IfErr result (λ fault. IsTypeFault (tree_of program.now) fault) }
{
    let mut breaks = Least::none();
    let Ok(bodies) = all_bodies(alloc, table, program.classes(), &mut breaks) else {
        return Err(TypeFault::Memory);
    };
    told(program, &breaks)?;
    Ok(Typed { bodies })
}

/// The bodies of a program with all names resolved, or its break among the rules on names and types.
///
/// `Rule` comes exactly where one of these rules is broken, C02, C14 to C20 and C22 to C24, unless memory runs out. It is the one at the least token, and of several there the least rule. Takes time linear in the program, but for the logarithm of a look-up by name. No chain in a body begins with a chain of its own kind.
pub fn type_program(alloc: Global, program: &Program) -> Result<Typed, TypeFault>
    ensures typed { IfOk result (λ typed. map view_body typed ≡ bodies_of (tree_of program.now)) }
    ensures flat { IfOk result (λ typed. AreFlat typed) }
    ensures free { OnOk result (IsFree is_type_rule (tree_of program.now)) }
    ensures fault { IfErr result (λ fault. IsTypeFault (tree_of program.now) fault) }
{
    match table_of(alloc, program) {
        Ok(table) => typed_by(alloc, &table, program),
        Err(_) => Err(TypeFault::Memory),
    }
}
