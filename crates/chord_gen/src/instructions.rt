//! A block's instructions as they are written.
#![tactic(auto)]

ghost use Rattle.std.specs.Prelude.{◌≡◌, ◌≤◌, ◌<◌, [], ◌∷◌, ◌++◌, length, vec_len, vec_capacity, OnOk, OnErr, IfOk, IsOk, slice_set};
ghost use Rattle.chord_base.specs.Room.{HasGrown};
ghost use Rattle.chord_gen.specs.Emitted.{operator_code};

use chord_base::operation::Operation;
use chord_base::room::reserve_one;
use chord_code::instruction::Instruction;
use std::alloc::AllocError;

/// Adds an instruction at the end. A full block gets twice its room.
pub fn put(code: &mut Vec<Instruction>, instruction: Instruction) -> Result<(), AllocError>
    ensures added { OnOk result (code.new.items ≡ code.old.items ++ instruction ∷ []) }
    ensures stays { vec_len code.old < vec_capacity code.old → IsOk result }
    ensures grown { OnOk result (HasGrown (vec_len code.old) (vec_capacity code.old) (vec_capacity code.new)) }
{
    reserve_one(code)?;
    code.push_reserved(instruction);
    Ok(())
}

/// The place of the next instruction. One past 2^32 is taken for too much memory.
pub fn next_place(code: &Vec<Instruction>) -> Result<u32, AllocError>
    ensures place { IfOk result (λ place. place ≡ length code.now.items) }
    ensures large { OnErr result (4294967296 ≤ length code.now.items) }
{
    match u32::try_from(code.len()) {
        Ok(place) => Ok(place),
        Err(_) => Err(AllocError),
    }
}

/// Writes the instruction at this place anew, once it is known where it leads.
pub fn patch(code: &mut Vec<Instruction>, place: u32, instruction: Instruction)
    requires { place < length code.old.items }
    ensures { code.new.items ≡ slice_set code.old.items place instruction }
{
    code[place as usize] = instruction;
}

/// The instruction of an operator.
pub fn instruction_of(operation: Operation) -> Instruction
    ensures { result ≡ operator_code operation }
{
    match operation {
        Operation::Add => Instruction::Add,
        Operation::Subtract => Instruction::Sub,
        Operation::Multiply => Instruction::Mul,
        Operation::Divide => Instruction::Div,
        Operation::Remainder => Instruction::Rem,
        Operation::Join => Instruction::Cat,
        Operation::Equal => Instruction::Eq,
        Operation::NotEqual => Instruction::Ne,
        Operation::Less => Instruction::Lt,
        Operation::Greater => Instruction::Gt,
        Operation::LessOrEqual => Instruction::Le,
        Operation::GreaterOrEqual => Instruction::Ge,
    }
}
