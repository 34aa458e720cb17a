//! The parts of a buffer's code: they are valid, and are not with a block that jumps out of itself.
use crate::schedule_tests::compiled;
use crate::sources::BUFFER;
use chord_base::text::Text;
use chord_code::code::Code;
use chord_code::instruction::Instruction;
use chord_code::lines::Lines;
use chord_code::parts::{Block, ChordLine, ClassLine, MethodLine, MethodNumbers, Parts};
use chord_code::valid::valid;
use chord_gen::listing::listing;
use chord_io::MemSink;
use std::alloc::{AllocError, Global};
use std::test::Fail;

/// A text.
fn text(alloc: Global, bytes: &[u8]) -> Result<Text, Fail> {
    match Text::of_bytes(alloc, bytes) {
        Ok(text) => Ok(text),
        Err(_) => Err(Fail::from("memory")),
    }
}

/// A class with these methods and chords.
fn class(
    alloc: Global,
    name: &[u8],
    methods: Vec<MethodLine>,
    chords: Vec<ChordLine>,
) -> Result<ClassLine, Fail> {
    Ok(ClassLine {
        name: text(alloc, name)?,
        builder: None,
        methods: Lines::of_items(methods),
        chords: Lines::of_items(chords),
    })
}

/// A method.
fn method(alloc: Global, name: &[u8], sync: bool, parameters: u8) -> Result<MethodLine, Fail> {
    Ok(MethodLine {
        name: text(alloc, name)?,
        sync,
        parameters,
    })
}

/// The class of the buffer.
fn buffer(alloc: Global) -> Result<ClassLine, Fail> {
    let get = method(alloc, b"Get", true, 0)?;
    let put = method(alloc, b"Put", false, 1)?;
    let mut methods = MethodNumbers::new();
    methods.push(0);
    methods.push(1);
    let chords = vec![in alloc; ChordLine { block: 1, methods }]?;
    class(alloc, b"Buffer", vec![in alloc; get, put]?, chords)
}

/// What `Main` does.
fn main(alloc: Global) -> Result<Vec<Instruction>, Fail> {
    Ok(vec![in alloc;
        Instruction::New(0, 0),
        Instruction::Store(1),
        Instruction::Load(1),
        Instruction::Text(text(alloc, b"hi")?),
        Instruction::Send(1, 1),
        Instruction::Load(1),
        Instruction::Call(0, 0),
        Instruction::Print,
        Instruction::End,
    ]?)
}

/// The body of the buffer's chord.
fn body(alloc: Global) -> Result<Vec<Instruction>, AllocError> {
    Ok(vec![in alloc; Instruction::Load(1), Instruction::Endv, Instruction::End]?)
}

/// The parts of the buffer's code, with these instructions in the block of its chord.
fn parts(alloc: Global, chord: Vec<Instruction>) -> Result<Parts, Fail> {
    let program = class(alloc, b"Program", Vec::new(alloc), Vec::new(alloc))?;
    let classes = vec![in alloc; buffer(alloc)?, program]?;
    let first = Block {
        slots: 2,
        instructions: Lines::of_items(main(alloc)?),
    };
    let second = Block {
        slots: 2,
        instructions: Lines::of_items(chord),
    };
    let blocks = vec![in alloc; first, second]?;
    Ok(Parts {
        classes: Lines::of_items(classes),
        blocks: Lines::of_items(blocks),
    })
}

/// Writes the listing of the code of the source. Whether its parts are valid.
fn list_compiled(alloc: Global, sink: &mut MemSink) -> Result<bool, Fail> {
    let code = compiled(alloc, BUFFER)?;
    Ok(valid(code.parts()) && listing(&code, sink).is_ok())
}

/// Writes the listing of the code by hand. Whether its parts are valid.
fn list_by_hand(alloc: Global, sink: &mut MemSink) -> Result<bool, Fail> {
    let parts = parts(alloc, body(alloc)?)?;
    if !valid(&parts) {
        return Ok(false);
    }
    let code = Code::of_parts(parts);
    Ok(listing(&code, sink).is_ok())
}

/// Whether the parts are valid where the chord's body is one jump, behind itself.
fn is_valid_with_a_jump(alloc: Global) -> Result<bool, Fail> {
    let chord = vec![in alloc; Instruction::Jump(1)]?;
    Ok(valid(&parts(alloc, chord)?))
}

#[test]
fn the_parts_of_a_buffer_are_valid(rt: HostRuntime) -> Result<(), Fail> {
    let alloc = rt.alloc();
    let mut compiled = MemSink::new(alloc, 1000, 1000, Vec::new(alloc))?;
    let mut by_hand = MemSink::new(alloc, 1000, 1000, Vec::new(alloc))?;
    assert!(rt; list_compiled(alloc, &mut compiled)?);
    assert!(rt; list_by_hand(alloc, &mut by_hand)?);
    assert_eq!(rt; by_hand.taken(), compiled.taken());
    assert!(rt; !is_valid_with_a_jump(alloc)?);
    Ok(())
}
