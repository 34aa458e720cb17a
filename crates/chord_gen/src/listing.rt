//! The listing of a code as text.
#![tactic(auto)]

ghost use Rattle.std.specs.Prelude.{◌≡◌, ◌≤◌, OnOk, OnErr};
ghost use Rattle.std.specs.List.{flat_map};
ghost use Rattle.chord_io.specs.Faults.{Rose};
ghost use Rattle.chord_io.specs.Pieces.{Took, TookProperPrefix};
ghost use Rattle.chord_io.specs.Pen.{Writes};
ghost use Rattle.chord_code.specs.declared.instruction.Instruction.TheVariants as i;
ghost use Rattle.chord_gen.specs.Listing.{numbered, number_listed, flag_listed, name_listed, operands_listed, instruction_listed, block_listed, kind_listed, method_listed, chord_listed, builder_listed, class_listed, listing_text};

use chord_base::text::Text;
use chord_code::code::Code;
use chord_code::instruction::Instruction;
use chord_code::parts::{Block, ChordLine, ClassLine, MethodLine};
use chord_io::{Failed, Pen, Sink};

/// Writes the listing of a code. It takes no memory.
///
/// # Errors
///
/// `Failed` exactly where the sink failed, which its count of faults shows. A proper prefix of the listing was written.
pub fn listing<K: Sink>(code: &Code, sink: &mut K) -> Result<(), Failed>
    ensures whole { OnOk result (Took (K.taken sink.old) (listing_text code.now) (K.taken sink.new)) }
    ensures prefix { OnErr result (TookProperPrefix (K.taken sink.old) (listing_text code.now) (K.taken sink.new)) }
    ensures unfailed { OnOk result (K.faults sink.new ≡ K.faults sink.old) }
    ensures failed { OnErr result (Rose (K.faults sink.old) (K.faults sink.new)) }
    ensures never_falls { K.faults sink.old ≤ K.faults sink.new }
{
    let mut pen = Pen::new();
    let parts = code.parts();
    put_classes(&mut pen, sink, parts.classes.items());
    put_blocks(&mut pen, sink, parts.blocks.items());
    pen.finish(sink)
}

/// Writes the classes.
fn put_classes<K: Sink>(pen: &mut Pen, sink: &mut K, classes: &[ClassLine])
    ensures { Writes (K.taken sink.old) (K.faults sink.old) pen.old (numbered class_listed 0 classes.now) (K.taken sink.new) (K.faults sink.new) pen.new }
{
    for (number, class) in classes.iter().enumerate() {
        put_class(pen, sink, number, class);
    }
}

/// Writes a class, its methods and its chords.
fn put_class<K: Sink>(pen: &mut Pen, sink: &mut K, number: usize, class: &ClassLine)
    ensures { Writes (K.taken sink.old) (K.faults sink.old) pen.old (class_listed number class.now) (K.taken sink.new) (K.faults sink.new) pen.new }
{
    pen.put(sink, b"class");
    put_number(pen, sink, number);
    pen.put(sink, b" ");
    pen.put(sink, class.name.items());
    put_builder(pen, sink, class.builder);
    pen.put(sink, b"\n");
    put_methods(pen, sink, class.methods.items());
    put_chords(pen, sink, class.chords.items());
}

/// Writes the block of a builder behind a blank, or a dash.
fn put_builder<K: Sink>(pen: &mut Pen, sink: &mut K, builder: Option<u32>)
    ensures { Writes (K.taken sink.old) (K.faults sink.old) pen.old (builder_listed builder) (K.taken sink.new) (K.faults sink.new) pen.new }
{
    match builder {
        None => pen.put(sink, b" -"),
        Some(block) => put_number(pen, sink, block as usize),
    }
}

/// Writes the lines of methods.
fn put_methods<K: Sink>(pen: &mut Pen, sink: &mut K, methods: &[MethodLine])
    ensures { Writes (K.taken sink.old) (K.faults sink.old) pen.old (numbered method_listed 0 methods.now) (K.taken sink.new) (K.faults sink.new) pen.new }
{
    for (number, method) in methods.iter().enumerate() {
        put_method(pen, sink, number, method);
    }
}

/// Writes the line of a method.
fn put_method<K: Sink>(pen: &mut Pen, sink: &mut K, number: usize, method: &MethodLine)
    ensures { Writes (K.taken sink.old) (K.faults sink.old) pen.old (method_listed number method.now) (K.taken sink.new) (K.faults sink.new) pen.new }
{
    pen.put(sink, b"method");
    put_number(pen, sink, number);
    pen.put(sink, b" ");
    pen.put(sink, method.name.items());
    put_kind(pen, sink, method.sync);
    put_number(pen, sink, method.parameters as usize);
    pen.put(sink, b"\n");
}

/// Writes whether callers of a method wait.
fn put_kind<K: Sink>(pen: &mut Pen, sink: &mut K, sync: bool)
    ensures { Writes (K.taken sink.old) (K.faults sink.old) pen.old (kind_listed sync) (K.taken sink.new) (K.faults sink.new) pen.new }
{
    if sync {
        pen.put(sink, b" sync");
    } else {
        pen.put(sink, b" async");
    }
}

/// Writes the lines of chords.
fn put_chords<K: Sink>(pen: &mut Pen, sink: &mut K, chords: &[ChordLine])
    ensures { Writes (K.taken sink.old) (K.faults sink.old) pen.old (numbered chord_listed 0 chords.now) (K.taken sink.new) (K.faults sink.new) pen.new }
{
    for (number, chord) in chords.iter().enumerate() {
        put_chord(pen, sink, number, chord);
    }
}

/// Writes the line of a chord.
fn put_chord<K: Sink>(pen: &mut Pen, sink: &mut K, number: usize, chord: &ChordLine)
    ensures { Writes (K.taken sink.old) (K.faults sink.old) pen.old (chord_listed number chord.now) (K.taken sink.new) (K.faults sink.new) pen.new }
{
    pen.put(sink, b"chord");
    put_number(pen, sink, number);
    put_number(pen, sink, chord.block as usize);
    put_numbers(pen, sink, chord.methods.items());
    pen.put(sink, b"\n");
}

/// Writes numbers, each behind a blank.
fn put_numbers<K: Sink>(pen: &mut Pen, sink: &mut K, numbers: &[u8])
    ensures { Writes (K.taken sink.old) (K.faults sink.old) pen.old (flat_map number_listed numbers.now) (K.taken sink.new) (K.faults sink.new) pen.new }
{
    for number in numbers {
        put_number(pen, sink, *number as usize);
    }
}

/// Writes the blocks.
fn put_blocks<K: Sink>(pen: &mut Pen, sink: &mut K, blocks: &[Block])
    ensures { Writes (K.taken sink.old) (K.faults sink.old) pen.old (numbered block_listed 0 blocks.now) (K.taken sink.new) (K.faults sink.new) pen.new }
{
    for (number, block) in blocks.iter().enumerate() {
        put_block(pen, sink, number, block);
    }
}

/// Writes a block and its instructions.
fn put_block<K: Sink>(pen: &mut Pen, sink: &mut K, number: usize, block: &Block)
    ensures { Writes (K.taken sink.old) (K.faults sink.old) pen.old (block_listed number block.now) (K.taken sink.new) (K.faults sink.new) pen.new }
{
    pen.put(sink, b"block");
    put_number(pen, sink, number);
    put_number(pen, sink, block.slots as usize);
    pen.put(sink, b"\n");
    put_instructions(pen, sink, block.instructions.items());
}

/// Writes the lines of instructions.
fn put_instructions<K: Sink>(pen: &mut Pen, sink: &mut K, instructions: &[Instruction])
    ensures { Writes (K.taken sink.old) (K.faults sink.old) pen.old (numbered instruction_listed 0 instructions.now) (K.taken sink.new) (K.faults sink.new) pen.new }
{
    for (place, instruction) in instructions.iter().enumerate() {
        put_instruction(pen, sink, place, instruction);
    }
}

/// Writes the line of an instruction.
fn put_instruction<K: Sink>(pen: &mut Pen, sink: &mut K, place: usize, instruction: &Instruction)
    ensures { Writes (K.taken sink.old) (K.faults sink.old) pen.old (instruction_listed place instruction.now) (K.taken sink.new) (K.faults sink.new) pen.new }
{
    pen.put_number(sink, place);
    pen.put(sink, b" ");
    put_name(pen, sink, instruction);
    put_operands(pen, sink, instruction);
    pen.put(sink, b"\n");
}

/// Writes the name of an instruction.
fn put_name<K: Sink>(pen: &mut Pen, sink: &mut K, instruction: &Instruction)
    ensures { Writes (K.taken sink.old) (K.faults sink.old) pen.old (name_listed instruction.now) (K.taken sink.new) (K.faults sink.new) pen.new }
{
    match instruction {
        Instruction::Int(_) => pen.put(sink, b"int"),
        Instruction::Flag(_) => pen.put(sink, b"flag"),
        Instruction::Text(_) => pen.put(sink, b"text"),
        Instruction::Load(_) => pen.put(sink, b"load"),
        Instruction::Store(_) => pen.put(sink, b"store"),
        Instruction::Drop => pen.put(sink, b"drop"),
        Instruction::Neg => pen.put(sink, b"neg"),
        Instruction::Not => pen.put(sink, b"not"),
        Instruction::Add => pen.put(sink, b"add"),
        Instruction::Sub => pen.put(sink, b"sub"),
        Instruction::Mul => pen.put(sink, b"mul"),
        Instruction::Div => pen.put(sink, b"div"),
        Instruction::Rem => pen.put(sink, b"rem"),
        Instruction::Cat => pen.put(sink, b"cat"),
        Instruction::Eq => pen.put(sink, b"eq"),
        Instruction::Ne => pen.put(sink, b"ne"),
        Instruction::Lt => pen.put(sink, b"lt"),
        Instruction::Le => pen.put(sink, b"le"),
        Instruction::Gt => pen.put(sink, b"gt"),
        Instruction::Ge => pen.put(sink, b"ge"),
        Instruction::Jump(_) => pen.put(sink, b"jump"),
        Instruction::Skip(_) => pen.put(sink, b"skip"),
        Instruction::Again(_) => pen.put(sink, b"again"),
        Instruction::New(_, _) => pen.put(sink, b"new"),
        Instruction::Init(_) => pen.put(sink, b"init"),
        Instruction::Send(_, _) => pen.put(sink, b"send"),
        Instruction::Call(_, _) => pen.put(sink, b"call"),
        Instruction::Print => pen.put(sink, b"print"),
        Instruction::End => pen.put(sink, b"end"),
        Instruction::Endv => pen.put(sink, b"endv"),
        Instruction::Back => pen.put(sink, b"back"),
    }
}

/// Writes the operands of an instruction, each behind a blank.
fn put_operands<K: Sink>(pen: &mut Pen, sink: &mut K, instruction: &Instruction)
    ensures { Writes (K.taken sink.old) (K.faults sink.old) pen.old (operands_listed instruction.now) (K.taken sink.new) (K.faults sink.new) pen.new }
{
    match instruction {
        Instruction::Int(number) => {
            pen.put(sink, b" ");
            pen.put_signed(sink, number);
        }
        Instruction::Flag(flag) => {
            pen.put(sink, b" ");
            put_flag(pen, sink, *flag);
        }
        Instruction::Text(text) => put_text(pen, sink, text),
        Instruction::Load(number)
        | Instruction::Store(number)
        | Instruction::Jump(number)
        | Instruction::Skip(number)
        | Instruction::Again(number) => put_number(pen, sink, *number as usize),
        Instruction::New(class, count) => {
            put_number(pen, sink, *class as usize);
            put_number(pen, sink, *count as usize);
        }
        Instruction::Init(class) => put_number(pen, sink, *class as usize),
        Instruction::Send(method, count) | Instruction::Call(method, count) => {
            put_number(pen, sink, *method as usize);
            put_number(pen, sink, *count as usize);
        }
        _ => {}
    }
}

/// Writes a truth value.
fn put_flag<K: Sink>(pen: &mut Pen, sink: &mut K, flag: bool)
    ensures { Writes (K.taken sink.old) (K.faults sink.old) pen.old (flag_listed flag) (K.taken sink.new) (K.faults sink.new) pen.new }
{
    if flag {
        pen.put(sink, b"true");
    } else {
        pen.put(sink, b"false");
    }
}

/// Writes a text behind a blank: an x, and two hexadecimal digits for each byte.
fn put_text<K: Sink>(pen: &mut Pen, sink: &mut K, text: &Text)
    ensures { Writes (K.taken sink.old) (K.faults sink.old) pen.old (operands_listed (i.Text text.now)) (K.taken sink.new) (K.faults sink.new) pen.new }
{
    pen.put(sink, b" x");
    pen.put_hexadecimal(sink, text.items());
}

/// Writes a number behind a blank.
fn put_number<K: Sink>(pen: &mut Pen, sink: &mut K, number: usize)
    ensures { Writes (K.taken sink.old) (K.faults sink.old) pen.old (number_listed number) (K.taken sink.new) (K.faults sink.new) pen.new }
{
    pen.put(sink, b" ");
    pen.put_number(sink, number);
}
