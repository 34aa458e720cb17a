//! The codes and the tables of the tests by hand, and what their parcels keep.
ghost use Rattle.std.specs.Prelude.{◌≡◌, ◌≤◌, ◌<◌, false, [], ◌∷◌, None, IfOk};
ghost use Rattle.chord_rule.specs.Kinds.{newcomer_first};
ghost use Rattle.chord_space.specs.Desks.{view, IsDeskOf};
ghost use Rattle.chord_tests.specs.Pairs.{main_body, pair_code, IsPairTable, IsLetter};

use chord_base::event::{Entry, Limits};
use chord_base::text::Text;
use chord_base::value::Object;
use chord_code::carry::Carry;
use chord_code::code::Code;
use chord_code::instruction::Instruction;
use chord_code::lines::Lines;
use chord_code::parts::{Block, ChordLine, ClassLine, MethodLine, MethodNumbers, Parts};
use chord_code::valid::valid;
use chord_space::{Desk, Space};
use std::alloc::Global;
use std::test::Fail;

/// The object that `Main` makes first.
pub const FIRST: Object = Object {
    number: 1,
    class: 0,
};

/// The object that it makes second, where it makes two.
pub const SECOND: Object = Object {
    number: 2,
    class: 0,
};

/// A parcel that keeps nothing, or the entry of a firing.
#[derive(Drop)]
pub struct Letter {
    pub past: Vec<Entry>,
}

impl Carry for Letter {
    ghost entries = { λ q. q.past.items };

    ghost arguments = { λ _. [] };

    ghost keeps_to = { λ q _ _. IsLetter q.past.items };
}

/// What `Main` does.
fn instructions(alloc: Global, two: bool) -> Result<Vec<Instruction>, Fail>
    ensures { IfOk result (λ is. is.items ≡ main_body two) }
{
    if two {
        return Ok(vec![in alloc;
            Instruction::New(0, 0),
            Instruction::Store(1),
            Instruction::New(0, 0),
            Instruction::Store(2),
            Instruction::Load(1),
            Instruction::Send(0, 0),
            Instruction::Load(2),
            Instruction::Send(1, 0),
            Instruction::End,
        ]?);
    }
    Ok(vec![in alloc;
        Instruction::New(0, 0),
        Instruction::Store(1),
        Instruction::Load(1),
        Instruction::Send(0, 0),
        Instruction::Load(1),
        Instruction::Send(1, 0),
        Instruction::End,
    ]?)
}

/// A name.
pub fn named(alloc: Global, name: &[u8]) -> Result<Text, Fail>
    ensures { IfOk result (λ text. text ≡ name.now) }
{
    match Text::of_bytes(alloc, name) {
        Ok(text) => Ok(text),
        Err(_) => Err(Fail::from("memory")),
    }
}

/// The class with the chord.
fn paired(alloc: Global) -> Result<ClassLine, Fail>
    ensures { IfOk result (λ line. line ≡ record { name = 65 ∷ []; builder = None; methods = record { name = 120 ∷ []; sync = false; parameters = 0 } ∷ record { name = 121 ∷ []; sync = false; parameters = 0 } ∷ []; chords = record { block = 1; methods = 0 ∷ 1 ∷ [] } ∷ [] }) }
{
    let methods = vec![in alloc;
        MethodLine {
            name: named(alloc, b"x")?,
            sync: false,
            parameters: 0
        },
        MethodLine {
            name: named(alloc, b"y")?,
            sync: false,
            parameters: 0
        },
    ]?;
    let mut numbers = MethodNumbers::new();
    numbers.push(0);
    numbers.push(1);
    let chords = vec![in alloc;
        ChordLine {
            block: 1,
            methods: numbers
        },
    ]?;
    Ok(ClassLine {
        name: named(alloc, b"A")?,
        builder: None,
        methods: Lines::of_items(methods),
        chords: Lines::of_items(chords),
    })
}

/// The code.
pub fn coded(alloc: Global, two: bool) -> Result<Code, Fail>
    ensures { IfOk result (λ code. code ≡ pair_code two) }
{
    let main = ClassLine {
        name: named(alloc, b"Q")?,
        builder: None,
        methods: Lines::of_items(Vec::new(alloc)),
        chords: Lines::of_items(Vec::new(alloc)),
    };
    let classes = vec![in alloc; paired(alloc)?, main]?;
    let end = vec![in alloc; Instruction::End]?;
    let blocks = vec![in alloc;
        Block {
            slots: if two { 3 } else { 2 },
            instructions: Lines::of_items(instructions(alloc, two)?),
        },
        Block {
            slots: 1,
            instructions: Lines::of_items(end),
        },
    ]?;
    let parts = Parts {
        classes: Lines::of_items(classes),
        blocks: Lines::of_items(blocks),
    };
    if valid(&parts) {
        Ok(Code::of_parts(parts))
    } else {
        Err(Fail::from("not valid"))
    }
}

/// A table for the code.
pub fn table(
    alloc: Global,
    code: &Code,
    two: bool,
    events: u32,
) -> Result<(Space<Letter>, Desk<Letter>), Fail>
    requires { (code.now ≡ pair_code two) × (0 < events) × (events ≤ 65536) }
    ensures { IfOk result (λ r. IsPairTable two r.0 × (r.0.events ≡ events) × IsDeskOf r.0 r.1 × (view r.1 ≡ newcomer_first)) }
{
    let limits = Limits {
        events,
        turns: 9,
        depth: 9,
    };
    Ok(Space::make(alloc, code, &limits)?)
}
