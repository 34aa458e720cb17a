//! A table by hand: one body begins and ends.
#![tactic(auto)]

ghost use Rattle.std.specs.Prelude.{◌≡◌, ◌≤◌, ◌<◌, ◌+◌, true, false, [], ◌∷◌, None, IfOk};
ghost use Rattle.chord_code.specs.declared.instruction.Instruction.TheVariants as instr;
ghost use Rattle.chord_rule.specs.Kinds.{newcomer_first, drew, saw_count};
ghost use Rattle.chord_base.specs.declared.event.What.TheVariants.{Begun, Made, Sent};
ghost use Rattle.chord_space.specs.Desks.{view, space_code, space_limits, IsDeskOf, IsSameDesk};

use chord_base::event::{End, Limits, What};
use chord_base::text::Text;
use chord_base::value::{Object, Value, Values};
use chord_code::carry::Carry;
use chord_code::code::Code;
use chord_code::instruction::Instruction;
use chord_code::lines::Lines;
use chord_code::parts::{Block, ClassLine, MethodLine, Parts};
use chord_code::valid::valid;
use chord_space::{Desk, Space};
use chord_word::{Cell, Word};
use std::alloc::Global;
use std::test::Fail;

/// A parcel that keeps no entry.
#[derive(Drop)]
struct Letter {
    number: u32,
}

impl Carry for Letter {
    ghost entries = { λ _. [] };

    ghost arguments = { λ _. [] };

    ghost keeps_to = { λ _ _ _. Unit {0} };
}

/// The code of a `Main` that ends.
fn ending(alloc: Global) -> Result<Code, Fail>
    ensures { IfOk result (λ code. code ≡ record { classes = []; blocks = record { slots = 1; instructions = instr.End ∷ [] } ∷ [] }) }
{
    let mut instructions = Vec::new(alloc);
    instructions.push(Instruction::End)?;
    let mut blocks = Vec::new(alloc);
    blocks.push(Block {
        slots: 1,
        instructions: Lines::of_items(instructions),
    })?;
    let parts = Parts {
        classes: Lines::of_items(Vec::new(alloc)),
        blocks: Lines::of_items(blocks),
    };
    if valid(&parts) {
        Ok(Code::of_parts(parts))
    } else {
        Err(Fail::from("not valid"))
    }
}

/// A table for that code.
fn table(alloc: Global, events: u32) -> Result<(Space<Letter>, Desk<Letter>), Fail>
    requires { (0 < events) × (events ≤ 65536) }
    ensures { IfOk result (λ r. (space_code r.0 ≡ record { classes = []; blocks = record { slots = 1; instructions = instr.End ∷ [] } ∷ [] }) × (r.0.events ≡ events) × IsDeskOf r.0 r.1 × (view r.1 ≡ newcomer_first)) }
{
    let code = ending(alloc)?;
    let limits = Limits {
        events,
        turns: 9,
        depth: 9,
    };
    Ok(Space::make(alloc, &code, &limits)?)
}

/// `Main` begins and ends: how many of its two entries have a number.
fn drawn(space: &Space<Letter>, desk: &mut Desk<Letter>) -> u32
    requires code { space_code space.now ≡ record { classes = []; blocks = record { slots = 1; instructions = instr.End ∷ [] } ∷ [] } }
    requires desk { IsDeskOf space.now desk.old × (view desk.old ≡ newcomer_first) }
    ensures desk { IsDeskOf space.now desk.new × ((view desk.new).first ≡ true) × ((view desk.new).splits ≡ 0) × ((view desk.new).lent ≡ 0) × ((view desk.new).claims ≡ []) × ((view desk.new).flight ≡ None) }
{
    if space.draw(desk, 0, &What::Begun).is_err() {
        return 0;
    }
    match space.draw(desk, 0, &What::Ended(End::Gives(Value::Unit))) {
        Ok(_) => 2,
        Err(_) => 1,
    }
}

/// The code of a `Main` that makes an object and sends it a message that no chord takes.
fn sending(alloc: Global) -> Result<Code, Fail>
    ensures { IfOk result (λ code. code ≡ record { classes = record { name = 65 ∷ []; builder = None; methods = record { name = 120 ∷ []; sync = false; parameters = 0 } ∷ []; chords = [] } ∷ []; blocks = record { slots = 1; instructions = instr.New 0 0 ∷ instr.Send 0 0 ∷ instr.End ∷ [] } ∷ [] }) }
{
    let Ok(class) = Text::of_bytes(alloc, b"A") else {
        return Err(Fail::from("memory"))
    };
    let Ok(method) = Text::of_bytes(alloc, b"x") else {
        return Err(Fail::from("memory"))
    };
    let methods = vec![in alloc;
        MethodLine {
            name: method,
            sync: false,
            parameters: 0
        },
    ]?;
    let classes = vec![in alloc;
        ClassLine {
            name: class,
            builder: None,
            methods: Lines::of_items(methods),
            chords: Lines::of_items(Vec::new(alloc)),
        },
    ]?;
    let instructions = vec![in alloc;
        Instruction::New(0, 0),
        Instruction::Send(0, 0),
        Instruction::End,
    ]?;
    let blocks = vec![in alloc;
        Block {
            slots: 1,
            instructions: Lines::of_items(instructions)
        },
    ]?;
    let parts = Parts {
        classes: Lines::of_items(classes),
        blocks: Lines::of_items(blocks),
    };
    if valid(&parts) {
        Ok(Code::of_parts(parts))
    } else {
        Err(Fail::from("not valid"))
    }
}

/// A table of 16 events for that code.
fn bag_table(alloc: Global) -> Result<(Space<Letter>, Desk<Letter>), Fail>
    ensures { IfOk result (λ r. (space_code r.0 ≡ record { classes = record { name = 65 ∷ []; builder = None; methods = record { name = 120 ∷ []; sync = false; parameters = 0 } ∷ []; chords = [] } ∷ []; blocks = record { slots = 1; instructions = instr.New 0 0 ∷ instr.Send 0 0 ∷ instr.End ∷ [] } ∷ [] }) × (space_limits r.0 ≡ record { events = 16; turns = 9; depth = 9 }) × (r.0.events ≡ 16) × IsDeskOf r.0 r.1 × (view r.1 ≡ newcomer_first)) }
{
    let code = sending(alloc)?;
    let limits = Limits {
        events: 16,
        turns: 9,
        depth: 9,
    };
    Ok(Space::make(alloc, &code, &limits)?)
}

/// `Main` makes an object and sends it a message: the numbers of the three entries.
fn sent(
    alloc: Global,
    space: &Space<Letter>,
    desk: &mut Desk<Letter>,
) -> Result<(u32, u32, u32), Fail>
    requires code { (space_code space.now ≡ record { classes = record { name = 65 ∷ []; builder = None; methods = record { name = 120 ∷ []; sync = false; parameters = 0 } ∷ []; chords = [] } ∷ []; blocks = record { slots = 1; instructions = instr.New 0 0 ∷ instr.Send 0 0 ∷ instr.End ∷ [] } ∷ [] }) × (space_limits space.now ≡ record { events = 16; turns = 9; depth = 9 }) }
    requires desk { IsDeskOf space.now desk.old × (view desk.old ≡ newcomer_first) }
    ensures desk { IsSameDesk desk.old desk.new }
    ensures sent { IfOk result (λ r. (r.0 ≡ 0) × (r.0 < r.1) × (r.1 < r.2) × (r.2 < space.now.events) × (view desk.new ≡ saw_count (drew (saw_count (drew (saw_count (drew newcomer_first r.0 0 Begun) (r.0 + 1)) r.1 0 (Made 0)) (r.1 + 1)) r.2 0 (Sent (record { number = r.1; class = 0 }) 0 [])) (r.2 + 1))) }
{
    let Ok(begun) = space.draw(desk, 0, &What::Begun) else {
        return Err(Fail::from("spent"))
    };
    let Ok(made) = space.draw(desk, 0, &What::Made(0)) else {
        return Err(Fail::from("spent"))
    };
    let object = Object {
        number: made,
        class: 0,
    };
    let what = What::Sent(object, 0, Values::of_items(Vec::new(alloc)));
    let Ok(message) = space.draw(desk, 0, &what) else {
        return Err(Fail::from("spent"))
    };
    Ok((begun, made, message))
}

/// The message is linked in its bag, and armed.
fn pending(space: &Space<Letter>, desk: &mut Desk<Letter>, begun: u32, made: u32, message: u32)
    requires code { (space_code space.now ≡ record { classes = record { name = 65 ∷ []; builder = None; methods = record { name = 120 ∷ []; sync = false; parameters = 0 } ∷ []; chords = [] } ∷ []; blocks = record { slots = 1; instructions = instr.New 0 0 ∷ instr.Send 0 0 ∷ instr.End ∷ [] } ∷ [] }) × (space_limits space.now ≡ record { events = 16; turns = 9; depth = 9 }) × (space.now.events ≡ 16) }
    requires desk { IsDeskOf space.now desk.old }
    requires sent { (begun ≡ 0) × (begun < made) × (made < message) × (message < 16) × (view desk.old ≡ saw_count (drew (saw_count (drew (saw_count (drew newcomer_first begun 0 Begun) (begun + 1)) made 0 (Made 0)) (made + 1)) message 0 (Sent (record { number = made; class = 0 }) 0 [])) (message + 1)) }
    ensures desk { IsSameDesk desk.old desk.new }
    ensures armed { ((view desk.new).first ≡ true) × ((view desk.new).lent ≡ 0) × ((view desk.new).splits ≡ 0) × ((view desk.new).claims ≡ []) × ((view desk.new).flight ≡ None) }
{
    let object = Object {
        number: made,
        class: 0,
    };
    space.link(desk, message, object, 0, Letter { number: 7 });
    space.arm(desk, message);
}

/// Whether the desk looks at the message, claims it and gives it back.
fn claimed(space: &Space<Letter>, desk: &mut Desk<Letter>, message: u32) -> bool
    requires desk { IsDeskOf space.now desk.old × (message < space.now.events) }
    requires alone { ((view desk.old).first ≡ true) × ((view desk.old).lent ≡ 0) × ((view desk.old).splits ≡ 0) × ((view desk.old).claims ≡ []) × ((view desk.old).flight ≡ None) }
    ensures desk { IsSameDesk desk.old desk.new }
    ensures alone { ((view desk.new).first ≡ true) × ((view desk.new).lent ≡ 0) × ((view desk.new).splits ≡ 0) × ((view desk.new).claims ≡ []) × ((view desk.new).flight ≡ None) }
{
    let Word {
        cell: Cell::Pending,
        next: None,
    } = space.look_cell(desk, message)
    else {
        return false;
    };
    match space.claim(desk, message, None) {
        Ok(()) => {
            space.give_back(desk, message);
            true
        }
        Err(_) => false,
    }
}

#[test]
fn main_begins_and_ends(rt: HostRuntime) -> Result<(), Fail> {
    let (space, mut desk) = table(rt.alloc(), 2)?;
    assert!(rt; drawn(&space, &mut desk) == 2);
    let mut other = space.split(&mut desk);
    assert!(rt; space.start(&mut other, 1).err() == Some(Cell::Empty));
    assert!(rt; space.look_count(&mut other) == 2);
    assert!(rt; space.look_cell(&mut other, 0).cell == Cell::Empty);
    assert!(rt; space.look_place(&mut other, 1).is_none());
    space.join(&mut desk, other);
    let mut closed = space.close(desk);
    assert!(rt; closed.drawn() == 2);
    assert!(rt; closed.parcel(1).is_none());
    Ok(())
}

#[test]
fn spent(rt: HostRuntime) -> Result<(), Fail> {
    let (space, mut desk) = table(rt.alloc(), 1)?;
    assert!(rt; drawn(&space, &mut desk) == 1);
    assert!(rt; space.close(desk).drawn() == 1);
    Ok(())
}

#[test]
fn a_message_by_hand(rt: HostRuntime) -> Result<(), Fail> {
    let (space, mut desk) = bag_table(rt.alloc())?;
    let (begun, made, message) = sent(rt.alloc(), &space, &mut desk)?;
    assert!(rt; begun == 0 && made == 1 && message == 2);
    pending(&space, &mut desk, begun, made, message);
    let object = Object {
        number: made,
        class: 0,
    };
    assert!(rt; space.look_head(&mut desk, object, 0) == Some(message));
    assert!(rt; claimed(&space, &mut desk, message));
    assert!(rt; space.look_place(&mut desk, message).is_some());
    let mut other = space.split(&mut desk);
    assert!(rt; space.start(&mut other, 4).err() == Some(Cell::Empty));
    space.join(&mut desk, other);
    let mut closed = space.close(desk);
    assert!(rt; closed.drawn() == 3);
    assert!(rt; closed.parcel(2).is_some());
    assert!(rt; closed.parcel(2).is_none());
    assert!(rt; closed.parcel(3).is_none());
    Ok(())
}
