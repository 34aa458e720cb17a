//! Whether parts are those of a valid code.
#![tactic(auto)]

ghost use Rattle.std.specs.Prelude.{◌≡◌, ◌<◌, ◌≤◌, ◌-◌, ℕ, length, IsTrue, ◌↔◌, slice_get, Some};
ghost use Rattle.chord_base.specs.Messages.{AreDifferent};
ghost use Rattle.chord_base.specs.Meaning.{OneSync, NoneSync};
ghost use Rattle.chord_code.specs.Valid.{IsValid, IsClassLine, IsChordLine, IsBlock, IsRight, BuildsBefore, Closes, AllLess, class_is_sync};

use crate::instruction::Instruction;
use crate::parts::{Block, ChordLine, ClassLine, MethodLine, Parts, stands_among};

/// The most classes of a program.
pub const MAX_CLASSES: usize = 1024;

/// The most methods of a class.
pub const MAX_METHODS: usize = 16;

/// The most effective chords of a class.
pub const MAX_CHORDS: usize = 256;

/// The most parameters of a method, and so the most arguments of a message.
pub const MAX_PARAMETERS: u8 = 8;

/// Whether the parts are those of a valid code.
pub fn valid(parts: &Parts) -> bool
    ensures { IsTrue result ↔ IsValid parts.now }
{
    if parts.blocks.items().is_empty() {
        return false;
    }
    if parts.classes.items().len() > MAX_CLASSES {
        return false;
    }
    if !are_classes(parts) {
        return false;
    }
    are_blocks(parts)
}

/// Whether each class is as it must be.
fn are_classes(parts: &Parts) -> bool
    ensures { IsTrue result ↔ ((k : ℕ) (c : ClassLine) → slice_get parts.now.classes k ≡ Some c → IsClassLine parts.now c) }
{
    for class in parts.classes.items() {
        if !is_class(parts, class) {
            return false;
        }
    }
    true
}

/// Whether each block is as it must be.
fn are_blocks(parts: &Parts) -> bool
    ensures { IsTrue result ↔ ((b : ℕ) (block : Block) → slice_get parts.now.blocks b ≡ Some block → IsBlock parts.now b block) }
{
    for (number, block) in parts.blocks.items().iter().enumerate() {
        if !is_block(parts, number, block) {
            return false;
        }
    }
    true
}

/// Whether a class is as it must be.
fn is_class(parts: &Parts, class: &ClassLine) -> bool
    ensures { IsTrue result ↔ IsClassLine parts.now class.now }
{
    if !has_builder(parts, class) {
        return false;
    }
    if class.methods.items().len() > MAX_METHODS {
        return false;
    }
    if class.chords.items().len() > MAX_CHORDS {
        return false;
    }
    if !have_few_parameters(class) {
        return false;
    }
    are_chords(parts, class)
}

/// Whether the builder of a class is there, if it has one.
fn has_builder(parts: &Parts, class: &ClassLine) -> bool
    ensures { IsTrue result ↔ ((b : ℕ) → class.now.builder ≡ Some b → b < length parts.now.blocks) }
{
    match class.builder {
        None => true,
        Some(block) => (block as usize) < parts.blocks.items().len(),
    }
}

/// Whether each method of a class has at most eight parameters.
fn have_few_parameters(class: &ClassLine) -> bool
    ensures { IsTrue result ↔ ((j : ℕ) (m : MethodLine) → slice_get class.now.methods j ≡ Some m → m.parameters ≤ 8) }
{
    for method in class.methods.items() {
        if method.parameters > MAX_PARAMETERS {
            return false;
        }
    }
    true
}

/// Whether each chord of a class is as it must be.
fn are_chords(parts: &Parts, class: &ClassLine) -> bool
    ensures { IsTrue result ↔ ((k : ℕ) (line : ChordLine) → slice_get class.now.chords k ≡ Some line → IsChordLine parts.now class.now line) }
{
    for chord in class.chords.items() {
        if !is_chord(parts, class, chord) {
            return false;
        }
    }
    true
}

/// Whether a chord is as it must be.
fn is_chord(parts: &Parts, class: &ClassLine, chord: &ChordLine) -> bool
    ensures { IsTrue result ↔ IsChordLine parts.now class.now chord.now }
{
    if (chord.block as usize) >= parts.blocks.items().len() {
        return false;
    }
    let methods = chord.methods.items();
    if methods.is_empty() {
        return false;
    }
    if !are_below(methods, class.methods.items().len()) {
        return false;
    }
    if !are_different(methods) {
        return false;
    }
    has_one_sync(class, methods)
}

/// Whether each number is below a bound.
fn are_below(numbers: &[u8], bound: usize) -> bool
    ensures { IsTrue result ↔ AllLess bound numbers.now }
{
    match numbers.split_first() {
        None => true,
        Some((first, rest)) => (*first as usize) < bound && are_below(rest, bound),
    }
}

/// Whether no number stands among these twice.
fn are_different(numbers: &[u8]) -> bool
    ensures { IsTrue result ↔ AreDifferent numbers.now }
{
    match numbers.split_first() {
        None => true,
        Some((first, rest)) => !stands_among(*first, rest) && are_different(rest),
    }
}

/// Whether at most one of these methods has callers that wait.
fn has_one_sync(class: &ClassLine, numbers: &[u8]) -> bool
    ensures { IsTrue result ↔ OneSync (class_is_sync class.now) numbers.now }
{
    match numbers.split_first() {
        None => true,
        Some((first, rest)) => {
            (!is_sync(class, *first) || has_no_sync(class, rest)) && has_one_sync(class, rest)
        }
    }
}

/// Whether none of these methods has callers that wait.
fn has_no_sync(class: &ClassLine, numbers: &[u8]) -> bool
    ensures { IsTrue result ↔ NoneSync (class_is_sync class.now) numbers.now }
{
    match numbers.split_first() {
        None => true,
        Some((first, rest)) => !is_sync(class, *first) && has_no_sync(class, rest),
    }
}

/// Whether callers of a method of the class wait. A method that is not there has none.
fn is_sync(class: &ClassLine, method: u8) -> bool
    ensures { result ≡ class_is_sync class.now method }
{
    match class.methods.items().get(method as usize) {
        None => false,
        Some(line) => line.sync,
    }
}

/// Whether a block ends, and each of its instructions is right.
fn is_block(parts: &Parts, number: usize, block: &Block) -> bool
    ensures { IsTrue result ↔ IsBlock parts.now number block.now }
{
    closes(block.instructions.items()) && are_right(parts, number, block)
}

/// Whether the last instruction ends a body or goes back from a builder.
fn closes(instructions: &[Instruction]) -> bool
    ensures { IsTrue result ↔ Closes (slice_get instructions.now (length instructions.now - 1)) }
{
    matches!(
        instructions.last(),
        Some(Instruction::End | Instruction::Endv | Instruction::Back)
    )
}

/// Whether each instruction of a block is right.
fn are_right(parts: &Parts, number: usize, block: &Block) -> bool
    ensures { IsTrue result ↔ ((p : ℕ) (x : Instruction) → slice_get block.now.instructions p ≡ Some x → IsRight parts.now number block.now.slots (length block.now.instructions) p x) }
{
    let count = block.instructions.items().len();
    for (place, instruction) in block.instructions.items().iter().enumerate() {
        if !is_right(
            parts,
            number,
            block.slots as usize,
            count,
            place,
            instruction,
        ) {
            return false;
        }
    }
    true
}

/// Whether an instruction of a block with so many slots and instructions names what is there, and jumps as it may.
fn is_right(
    parts: &Parts,
    number: usize,
    slots: usize,
    count: usize,
    place: usize,
    instruction: &Instruction,
) -> bool
    ensures { IsTrue result ↔ IsRight parts.now number slots count place instruction.now }
{
    match instruction {
        Instruction::Load(slot) | Instruction::Store(slot) => (*slot as usize) < slots,
        Instruction::Jump(to) | Instruction::Skip(to) => {
            place < (*to as usize) && (*to as usize) < count
        }
        Instruction::Again(to) => (*to as usize) < place,
        Instruction::New(class, arguments) => {
            (*class as usize) < parts.classes.items().len() && *arguments <= MAX_PARAMETERS as u32
        }
        Instruction::Init(class) => builds_before(parts, number, *class),
        Instruction::Send(method, arguments) | Instruction::Call(method, arguments) => {
            (*method as usize) < MAX_METHODS && *arguments <= MAX_PARAMETERS as u32
        }
        _ => true,
    }
}

/// Whether the builder of this class stands before the block of this number.
fn builds_before(parts: &Parts, number: usize, class: u16) -> bool
    ensures { IsTrue result ↔ BuildsBefore parts.now number class }
{
    match parts.classes.items().get(class as usize) {
        None => false,
        Some(line) => match line.builder {
            None => false,
            Some(block) => (block as usize) < number,
        },
    }
}
