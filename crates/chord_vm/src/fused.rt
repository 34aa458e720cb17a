//! A load or a number and the instructions behind it, which are done at once: up to four.
#![tactic(auto)]

ghost use Rattle.std.specs.Prelude.{◌≡◌, ◌≢◌, ℕ, ℤ, suc, ◌+◌, ◌^◌, ◌<◌, true, false, List, [], ◌∷◌, IfSome, Some, None, slice_get};
ghost use Rattle.chord_base.specs.Operators.{Is, compute as compute_of};
ghost use Rattle.chord_base.specs.declared.value.Value.{Value as AValue};
ghost use Rattle.chord_code.specs.declared.parts.Parts.{Parts as TheParts};
ghost use Rattle.chord_code.specs.Machine.{Machine, Goes, act, fetch, with_top, operate as operate_of, store_top, send_by, run as run_of, ComesToAsk};
ghost use Rattle.chord_vm.specs.Frames.{machine_of, instructions_in, with_pushed, SteppedTo};

use crate::ask::{Ask, put_ask};
use crate::frames::{Frames, take};
use crate::loads::asks_at_once;
use crate::numbers::set_number;
use chord_base::operation::Operation;
use chord_base::value::{Object, Value, Values};
use chord_code::awaited::Awaited;
use chord_code::instruction::Instruction;
use chord_code::parts::Parts;
use std::mem;

/// The number in a slot, if one stands there.
#[inline(always)]
fn number_in(frames: &Frames, slot: usize) -> Option<i32>
    ensures { IfSome result (λ number. slice_get frames.now.top.slots.items slot ≡ Some (Value.Int number)) }
{
    match frames.top.slots.get(slot) {
        Some(Value::Int(number)) => Some(*number),
        _ => None,
    }
}

/// The object in a slot, if one stands there.
#[inline(always)]
fn object_in(frames: &Frames, slot: usize) -> Option<Object>
    ensures { IfSome result (λ object. slice_get frames.now.top.slots.items slot ≡ Some (Value.Ref object)) }
{
    match frames.top.slots.get(slot) {
        Some(Value::Ref(object)) => Some(*object),
        _ => None,
    }
}

/// The number on top, if one stands there.
#[inline(always)]
fn number_on_top(frames: &Frames) -> Option<i32>
    ensures { IfSome result (λ number. slice_get (machine_of frames.now).top.stack 0 ≡ Some (Value.Int number)) }
{
    match frames.top.stack.last() {
        Some(Value::Int(number)) => Some(*number),
        _ => None,
    }
}

/// The sum, the difference or the product of two numbers, if the operator is one of these.
#[inline(always)]
fn result_of(operation: Operation, left: i32, right: i32) -> Option<i32>
    ensures { IfSome result (λ number. compute_of operation (Value.Int left) (Value.Int right) ≡ Is (Value.Int number)) }
{
    match operation {
        Operation::Add => Some(left.wrapping_add(right)),
        Operation::Subtract => Some(left.wrapping_sub(right)),
        Operation::Multiply => Some(left.wrapping_mul(right)),
        _ => None,
    }
}

/// The slot to which the instruction at a place stores, if it stores.
#[inline(always)]
fn slot_stored(instructions: &[Instruction], place: usize) -> Option<usize>
    ensures slot { IfSome result (λ slot. slice_get instructions.now place ≡ Some (Instruction.Store slot)) }
    ensures fits { IfSome result (λ slot. place + 1 < 2 ^ 64) }
{
    match instructions.get(place) {
        Some(Instruction::Store(slot)) => Some(*slot as usize),
        _ => None,
    }
}

/// Whether a number stands in a slot. Where one does, the number on top is taken, and the operator's result is written to the slot: of
/// neither there is anything to drop. The body is then three instructions further.
#[inline(always)]
fn store_number(frames: &mut Frames, slot: usize, number: i32) -> bool
    requires some { (n : ℤ) × (s : List AValue) × ((machine_of frames.old).top.stack ≡ Value.Int n ∷ s) }
    requires fits { frames.old.top.place + 3 < 2 ^ 64 }
    ensures yes { result ≡ true → (v : AValue) × (s : List AValue) × ((machine_of frames.old).top.stack ≡ v ∷ s) × (store_top slot (with_top (machine_of frames.old) (frames.old.top.place + 2) (Value.Int number ∷ s) frames.old.top.slots.items frames.old.turns) (Value.Int number ∷ s) ≡ Goes (machine_of frames.new)) }
    ensures block { frames.new.top.block ≡ frames.old.top.block }
    ensures rest { frames.new ≡ record frames.old { top = frames.new.top } }
    ensures no { result ≡ false → frames.new ≡ frames.old }
{
    match number_in(frames, slot) {
        None => false,
        Some(_) => {
            set_number(&mut frames.top.slots[slot], number);
            mem::forget(take(&mut frames.top));
            frames.top.place += 3;
            true
        }
    }
}

/// Whether a number and the number on top go to an operator, and its result to a slot in which a number stands. All three instructions are
/// then done, and nothing otherwise.
#[inline(always)]
pub(crate) fn stores_at_once(
    frames: &mut Frames,
    parts: &Parts,
    instructions: &[Instruction],
    operation: Operation,
    right: i32,
) -> bool
    requires fits { frames.old.top.place + 2 < 2 ^ 64 }
    requires here { instructions_in parts.now frames.old.top.block ≡ Some instructions.now }
    requires number { fetch parts.now frames.old.top.block frames.old.top.place ≡ Some (Instruction.Int right) }
    requires operator { (m : Machine) → act parts.now (fetch parts.now frames.old.top.block (suc frames.old.top.place)) m ≡ operate_of operation m m.top.stack }
    ensures yes { result ≡ true → run_of parts.now 3 (machine_of frames.old) ≡ Goes (machine_of frames.new) }
    ensures block { frames.new.top.block ≡ frames.old.top.block }
    ensures rest { frames.new ≡ record frames.old { top = frames.new.top } }
    ensures no { result ≡ false → frames.new ≡ frames.old }
{
    match slot_stored(instructions, frames.top.place + 2) {
        None => false,
        Some(slot) => match number_on_top(frames) {
            None => false,
            Some(left) => match result_of(operation, left, right) {
                None => false,
                Some(number) => store_number(frames, slot, number),
            },
        },
    }
}

/// What the comparison at a place says of two numbers, if one stands there.
#[inline(always)]
fn compared_at(instructions: &[Instruction], place: usize, left: i32, right: i32) -> Option<bool>
    ensures compares { IfSome result (λ flag. (code : TheParts) (m : Machine) → act code (slice_get instructions.now place) (with_pushed (Value.Int right) (with_pushed (Value.Int left) m)) ≡ Goes (with_top m (suc (suc (suc m.top.place))) (Value.Flag flag ∷ m.top.stack) m.top.slots m.turns)) }
    ensures fits { IfSome result (λ flag. place + 1 < 2 ^ 64) }
{
    match instructions.get(place) {
        Some(Instruction::Lt) => Some(left < right),
        Some(Instruction::Le) => Some(left <= right),
        Some(Instruction::Gt) => Some(left > right),
        Some(Instruction::Ge) => Some(left >= right),
        _ => None,
    }
}

/// Whether `again` or `skip` at a place branches on a truth value, which it then does. Where no turn is left, `again` still goes on where the
/// value is false, and does not go back where it is true: that is the end of the body.
#[inline(always)]
fn branch_at(frames: &mut Frames, instructions: &[Instruction], place: usize, flag: bool) -> bool
    ensures yes { result ≡ true → (code : TheParts) → act code (slice_get instructions.now place) (with_top (machine_of frames.old) place (Value.Flag flag ∷ (machine_of frames.old).top.stack) frames.old.top.slots.items frames.old.turns) ≡ Goes (machine_of frames.new) }
    ensures block { frames.new.top.block ≡ frames.old.top.block }
    ensures rest { frames.new ≡ record frames.old { top = frames.new.top; turns = frames.new.turns } }
    ensures no { result ≡ false → frames.new ≡ frames.old }
{
    match instructions.get(place) {
        Some(Instruction::Again(to)) => {
            if !flag {
                frames.top.place = place + 1;
                return true;
            }
            if frames.turns == 0 {
                return false;
            }
            frames.turns -= 1;
            frames.top.place = *to as usize;
            true
        }
        Some(Instruction::Skip(to)) => {
            frames.top.place = if flag { place + 1 } else { *to as usize };
            true
        }
        _ => false,
    }
}

/// Whether a number that is loaded from a slot is compared with a number and branched on. All four instructions are then done, and nothing
/// otherwise.
#[inline(always)]
pub(crate) fn branches_at_once(
    frames: &mut Frames,
    parts: &Parts,
    instructions: &[Instruction],
    slot: usize,
    right: i32,
) -> bool
    requires fits { frames.old.top.place + 2 < 2 ^ 64 }
    requires here { instructions_in parts.now frames.old.top.block ≡ Some instructions.now }
    requires load { fetch parts.now frames.old.top.block frames.old.top.place ≡ Some (Instruction.Load slot) }
    requires number { fetch parts.now frames.old.top.block (suc frames.old.top.place) ≡ Some (Instruction.Int right) }
    ensures yes { result ≡ true → run_of parts.now 4 (machine_of frames.old) ≡ Goes (machine_of frames.new) }
    ensures block { frames.new.top.block ≡ frames.old.top.block }
    ensures rest { frames.new ≡ record frames.old { top = frames.new.top; turns = frames.new.turns } }
    ensures no { result ≡ false → frames.new ≡ frames.old }
{
    let place = frames.top.place;
    match number_in(frames, slot) {
        None => false,
        Some(left) => match compared_at(instructions, place + 2, left, right) {
            None => false,
            Some(flag) => branch_at(frames, instructions, place + 3, flag),
        },
    }
}

/// The method of a message with one argument that is sent at a place, if one is.
#[inline(always)]
fn method_sent(instructions: &[Instruction], place: usize) -> Option<u8>
    ensures method { IfSome result (λ method. slice_get instructions.now place ≡ Some (Instruction.Send method 1)) }
    ensures fits { IfSome result (λ method. place + 1 < 2 ^ 64) }
{
    match instructions.get(place) {
        Some(Instruction::Send(method, 1)) => Some(*method),
        _ => None,
    }
}

/// A number is sent to an object.
#[inline(always)]
fn send_to_object(
    frames: &mut Frames,
    object: Object,
    method: u8,
    number: i32,
    asked: &mut Option<Ask>,
)
    requires fits { frames.old.top.place + 3 < 2 ^ 64 }
    requires empty { asked.old ≡ None }
    ensures { SteppedTo (send_by method (with_pushed (Value.Int number) (with_pushed (Value.Ref object) (machine_of frames.old))) (Some (Value.Int number ∷ [], Value.Ref object ∷ (machine_of frames.old).top.stack))) asked.new frames.new }
{
    frames.top.place += 3;
    frames.awaited = Awaited::ForNothing;
    put_ask(
        asked,
        Ask::Send(object, method, Values::one(Value::Int(number))),
    );
}

/// Whether an object and a number are loaded, and the number is sent to the object. All three instructions are then done, and nothing
/// otherwise.
#[inline(always)]
pub(crate) fn sends_loaded(
    frames: &mut Frames,
    parts: &Parts,
    instructions: &[Instruction],
    slot: usize,
    argument: usize,
    asked: &mut Option<Ask>,
) -> bool
    requires fits { frames.old.top.place + 2 < 2 ^ 64 }
    requires here { instructions_in parts.now frames.old.top.block ≡ Some instructions.now }
    requires object { fetch parts.now frames.old.top.block frames.old.top.place ≡ Some (Instruction.Load slot) }
    requires argument { fetch parts.now frames.old.top.block (suc frames.old.top.place) ≡ Some (Instruction.Load argument) }
    requires empty { asked.old ≡ None }
    ensures yes { result ≡ true → SteppedTo (run_of parts.now 3 (machine_of frames.old)) asked.new frames.new }
    ensures no { result ≡ false → frames.new ≡ frames.old }
    ensures unasked { result ≡ false → asked.new ≡ asked.old }
{
    match method_sent(instructions, frames.top.place + 2) {
        None => false,
        Some(method) => match object_in(frames, slot) {
            None => false,
            Some(object) => match number_in(frames, argument) {
                None => false,
                Some(number) => {
                    send_to_object(frames, object, method, number, asked);
                    true
                }
            },
        },
    }
}

/// What was done at once where a value is loaded.
pub(crate) enum AtOnce {
    /// Nothing.
    Nothing,
    /// A branch: the body goes on in the same block.
    Branch,
    /// An ask, which was put.
    Ask,
}

/// Does a load and what stands behind it at once where that is what stands in blocks most often: a branch on a number, a message with a
/// number, or an ask with what is loaded. Where it is not, nothing was done.
#[inline(always)]
pub(crate) fn load_at_once(
    frames: &mut Frames,
    parts: &Parts,
    instructions: &[Instruction],
    slot: usize,
    behind: &Instruction,
    asked: &mut Option<Ask>,
) -> AtOnce
    requires fits { frames.old.top.place + 2 < 2 ^ 64 }
    requires sound { ComesToAsk parts.now (machine_of frames.old) }
    requires here { instructions_in parts.now frames.old.top.block ≡ Some instructions.now }
    requires load { fetch parts.now frames.old.top.block frames.old.top.place ≡ Some (Instruction.Load slot) }
    requires behind { fetch parts.now frames.old.top.block (suc frames.old.top.place) ≡ Some behind.now }
    requires empty { asked.old ≡ None }
    ensures branch { result ≡ AtOnce.Branch → run_of parts.now 4 (machine_of frames.old) ≡ Goes (machine_of frames.new) }
    ensures block { result ≡ AtOnce.Branch → frames.new.top.block ≡ frames.old.top.block }
    ensures rest { result ≡ AtOnce.Branch → frames.new ≡ record frames.old { top = frames.new.top; turns = frames.new.turns } }
    ensures ask { result ≡ AtOnce.Ask → (n : ℕ) × SteppedTo (run_of parts.now n (machine_of frames.old)) asked.new frames.new }
    ensures nothing { result ≡ AtOnce.Nothing → frames.new ≡ frames.old }
    ensures unasked { result ≢ AtOnce.Ask → asked.new ≡ asked.old }
{
    match behind {
        Instruction::Int(number) => {
            if branches_at_once(frames, parts, instructions, slot, *number) {
                return AtOnce::Branch;
            }
            AtOnce::Nothing
        }
        Instruction::Load(argument) => {
            if sends_loaded(frames, parts, instructions, slot, *argument as usize, asked) {
                return AtOnce::Ask;
            }
            AtOnce::Nothing
        }
        _ => {
            if asks_at_once(frames, slot, behind, asked) {
                return AtOnce::Ask;
            }
            AtOnce::Nothing
        }
    }
}
