//! The blocks of bodies and of builders.
#![tactic(auto)]

ghost use Rattle.std.specs.Prelude.{◌≡◌, ℕ, IfSome, Some, ◌++◌, ◌∷◌, [], length, map, true, IfOk, OnOk, OnErr, slice_get, option_map};
ghost use Rattle.std.specs.Option.{option_copied};
ghost use Rattle.chord_bodies.specs.BodyView.{view_body};
ghost use Rattle.chord_gen.specs.Emitted.{then_code};
ghost use Rattle.chord_gen.specs.Translation.{body_block, has_own, own_code, own_slots};
ghost use Rattle.chord_gen.specs.Building.{AreNarrowBodies, named_body, is_told, init_listed};
ghost use Rattle.chord_code.specs.declared.instruction.Instruction.TheVariants as i;

use crate::instructions::put;
use crate::statements::statements;
use chord_bodies::body::Body;
use chord_code::instruction::Instruction;
use chord_code::lines::Lines;
use chord_code::parts::Block;
use std::alloc::{AllocError, Global};

/// The block of a body: its statements, and `end`.
pub fn block_of_body(alloc: Global, bodies: &[Body], member: u32) -> Result<Block, AllocError>
    requires narrow { AreNarrowBodies bodies.now }
    ensures { IfOk result (λ block. block ≡ body_block (slice_get (map view_body bodies.now) member)) }
{
    match bodies.get(member as usize) {
        None => missing_block(alloc),
        Some(body) => {
            let mut code = Vec::new(alloc);
            statements(alloc, &mut code, false, &body.stmts)?;
            put(&mut code, Instruction::End)?;
            Ok(Block {
                slots: body.slots(),
                instructions: Lines::of_items(code),
            })
        }
    }
}

/// The block of a member that is not there.
fn missing_block(alloc: Global) -> Result<Block, AllocError>
    ensures { IfOk result (λ block. block ≡ record { slots = 1; instructions = i.End ∷ [] }) }
{
    let mut code = Vec::new(alloc);
    put(&mut code, Instruction::End)?;
    Ok(Block {
        slots: 1,
        instructions: Lines::of_items(code),
    })
}

/// The block of a builder: the builder of the base class, if it has one, the class's own constructor, and `back`.
pub fn block_of_builder(
    alloc: Global,
    bodies: &[Body],
    init: Option<u16>,
    constructor_body: Option<u32>,
) -> Result<Block, AllocError>
    requires narrow { AreNarrowBodies bodies.now }
    ensures { IfOk result (λ block. block ≡ record { slots = own_slots (named_body bodies.now constructor_body); instructions = then_code 0 (init_listed init) (λ a. own_code (named_body bodies.now constructor_body) a ++ i.Back ∷ []) }) }
{
    let mut code = Vec::new(alloc);
    put_init(&mut code, init)?;
    put_own(alloc, &mut code, bodies, constructor_body)?;
    put(&mut code, Instruction::Back)?;
    Ok(Block {
        slots: slots_of_own(bodies, constructor_body),
        instructions: Lines::of_items(code),
    })
}

/// Emits the instruction that runs the builder of a class, if there is one.
fn put_init(code: &mut Vec<Instruction>, init: Option<u16>) -> Result<(), AllocError>
    ensures emitted { OnOk result (code.new.items ≡ code.old.items ++ init_listed init) }
    ensures lacks { OnErr result (is_told init ≡ true) }
{
    match init {
        None => Ok(()),
        Some(class) => put(code, Instruction::Init(class)),
    }
}

/// Emits the code of a class's own constructor, if it has one.
fn put_own(
    alloc: Global,
    code: &mut Vec<Instruction>,
    bodies: &[Body],
    constructor_body: Option<u32>,
) -> Result<(), AllocError>
    requires narrow { AreNarrowBodies bodies.now }
    ensures emitted { OnOk result (code.new.items ≡ code.old.items ++ own_code (named_body bodies.now constructor_body) (length code.old.items)) }
    ensures lacks { OnErr result (has_own (named_body bodies.now constructor_body) ≡ true) }
{
    match own_constructor(bodies, constructor_body) {
        None => Ok(()),
        Some(body) => statements(alloc, code, true, &body.stmts),
    }
}

/// The slots of a builder: those of its class's own constructor, or one.
fn slots_of_own(bodies: &[Body], constructor_body: Option<u32>) -> u32
    ensures { result ≡ own_slots (named_body bodies.now constructor_body) }
{
    match own_constructor(bodies, constructor_body) {
        None => 1,
        Some(body) => body.slots(),
    }
}

/// The body of a class's own constructor, if it has one.
pub fn own_constructor(bodies: &[Body], constructor_body: Option<u32>) -> Option<&Body>
    ensures body { named_body bodies.now constructor_body ≡ option_map view_body (option_copied result) }
    ensures among { IfSome (option_copied result) (λ b. (j : ℕ) × (slice_get bodies.now j ≡ Some b)) }
{
    match constructor_body {
        None => None,
        Some(member) => bodies.get(member as usize),
    }
}
