//! chord_code: which parts are those of a valid code.
use crate::codes::named;
use chord_code::code::Code;
use chord_code::instruction::Instruction;
use chord_code::lines::Lines;
use chord_code::parts::{Block, ChordLine, ClassLine, MethodLine, MethodNumbers, Parts};
use chord_code::valid::valid;
use std::alloc::Global;
use std::test::Fail;

/// A class of two methods and one chord of both, and whether it is valid beside two blocks.
struct Case {
    builder: Option<u32>,
    block: u32,
    methods: [u8; 2],
    waits: [bool; 2],
    parameters: u8,
    expected: bool,
}

const CLASSES: [Case; 8] = [
    Case {
        builder: Some(0),
        block: 1,
        methods: [1, 0],
        waits: [true, false],
        parameters: 8,
        expected: true,
    },
    Case {
        builder: None,
        block: 1,
        methods: [0, 1],
        waits: [false, false],
        parameters: 0,
        expected: true,
    },
    Case {
        builder: Some(2),
        block: 1,
        methods: [0, 1],
        waits: [true, false],
        parameters: 0,
        expected: false,
    },
    Case {
        builder: None,
        block: 2,
        methods: [0, 1],
        waits: [true, false],
        parameters: 0,
        expected: false,
    },
    Case {
        builder: None,
        block: 1,
        methods: [0, 2],
        waits: [true, false],
        parameters: 0,
        expected: false,
    },
    Case {
        builder: None,
        block: 1,
        methods: [1, 1],
        waits: [true, false],
        parameters: 0,
        expected: false,
    },
    Case {
        builder: None,
        block: 1,
        methods: [0, 1],
        waits: [true, true],
        parameters: 0,
        expected: false,
    },
    Case {
        builder: None,
        block: 1,
        methods: [0, 1],
        waits: [true, false],
        parameters: 9,
        expected: false,
    },
];

/// A method.
fn method(alloc: Global, sync: bool, parameters: u8) -> Result<MethodLine, Fail> {
    Ok(MethodLine {
        name: named(alloc, b"m")?,
        sync,
        parameters,
    })
}

/// The headers of the chord.
fn headers(first: u8, second: u8) -> MethodNumbers {
    let mut headers = MethodNumbers::new();
    headers.push(first);
    headers.push(second);
    headers
}

/// The class of a case.
fn class(alloc: Global, case: &Case) -> Result<ClassLine, Fail> {
    let methods = headers(case.methods[0], case.methods[1]);
    let chords = vec![in alloc;
        ChordLine {
            block: case.block,
            methods
        },
    ]?;
    let first = method(alloc, case.waits[0], case.parameters)?;
    let second = method(alloc, case.waits[1], case.parameters)?;
    Ok(ClassLine {
        name: named(alloc, b"A")?,
        builder: case.builder,
        methods: Lines::of_items(vec![in alloc; first, second]?),
        chords: Lines::of_items(chords),
    })
}

/// A block of two slots that begins with a `flag`, and then has this instruction and an end.
fn block(alloc: Global, instruction: Instruction) -> Result<Block, Fail> {
    let instructions = vec![in alloc; Instruction::Flag(true), instruction, Instruction::End]?;
    Ok(Block {
        slots: 2,
        instructions: Lines::of_items(instructions),
    })
}

/// The class of a case beside two blocks whose second one has this instruction.
fn parts(alloc: Global, case: &Case, instruction: Instruction) -> Result<Parts, Fail> {
    let first = block(alloc, Instruction::Drop)?;
    let second = block(alloc, instruction)?;
    let blocks = vec![in alloc; first, second]?;
    let classes = vec![in alloc; class(alloc, case)?]?;
    Ok(Parts {
        classes: Lines::of_items(classes),
        blocks: Lines::of_items(blocks),
    })
}

#[test]
fn a_class_is_valid(rt: HostRuntime) -> Result<(), Fail> {
    for case in &CLASSES {
        let (block, parameters) = (case.block, case.parameters);
        let found = valid(&parts(rt.alloc(), case, Instruction::Drop)?);
        assert_eq!(rt; found, case.expected, "{block}, {parameters}");
    }
    Ok(())
}

/// The instruction of a case.
fn instruction_of(case: u8) -> Instruction {
    match case {
        0 => Instruction::Load(1),
        1 => Instruction::Load(2),
        2 => Instruction::Skip(2),
        3 => Instruction::Skip(1),
        4 => Instruction::Jump(3),
        5 => Instruction::Again(0),
        6 => Instruction::Again(1),
        7 => Instruction::New(0, 8),
        8 => Instruction::New(1, 0),
        9 => Instruction::New(0, 9),
        10 => Instruction::Init(0),
        11 => Instruction::Init(1),
        12 => Instruction::Send(15, 8),
        13 => Instruction::Send(16, 0),
        14 => Instruction::Call(0, 9),
        _ => Instruction::Store(2),
    }
}

/// Which of these instructions are right beside the first class above.
const RIGHT: [bool; 16] = [
    true, false, true, false, false, true, false, true, false, false, true, false, true, false,
    false, false,
];

#[test]
fn an_instruction_is_right(rt: HostRuntime) -> Result<(), Fail> {
    for case in 0..16u8 {
        let found = valid(&parts(rt.alloc(), &CLASSES[0], instruction_of(case))?);
        assert_eq!(rt; found, RIGHT[case as usize], "instruction {case}");
    }
    Ok(())
}

/// The number of a class and of a method, and whether its callers wait.
const WAITS: [(u16, u8, bool); 4] = [(0, 0, true), (0, 1, false), (0, 2, false), (1, 0, false)];

#[test]
fn callers_of_a_method_wait(rt: HostRuntime) -> Result<(), Fail> {
    let parts = parts(rt.alloc(), &CLASSES[0], Instruction::Drop)?;
    if !valid(&parts) {
        return Err(Fail::from("the class is not valid"));
    }
    let code = Code::of_parts(parts);
    for (class, method, expected) in &WAITS {
        let found = code.is_sync(*class, *method);
        assert_eq!(rt; found, *expected, "class {class}, method {method}");
    }
    Ok(())
}
