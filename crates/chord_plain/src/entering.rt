//! How a block begins, above the one at work or alone.
#![tactic(auto)]

ghost use Rattle.std.specs.Prelude.{◌≡◌, ◌∷◌, IfOk, OnOk};
ghost use Rattle.chord_code.specs.Machine.{body_in_block};
ghost use Rattle.chord_vm.specs.Frames.{machine_of, shown_frame};
ghost use Rattle.chord_plain.specs.Effects.{IsFound, IsFrameOf};

use crate::stack::filled;
use chord_base::event::Limits;
use chord_base::value::Value;
use chord_code::awaited::Awaited;
use chord_code::parts::Parts;
use chord_vm::frames::{Frame, Frames};
use std::alloc::{AllocError, Global};
use std::mem;

/// A block begins above the one at work, which waits for it.
pub(crate) fn begin_above(frames: &mut Frames, fresh: Frame) -> Result<(), AllocError>
    ensures { OnOk result (machine_of frames.new ≡ record { top = shown_frame fresh; below = (machine_of frames.old).top ∷ (machine_of frames.old).below; turns = frames.old.turns }) }
{
    let waiting = mem::replace(&mut frames.top, fresh);
    frames.below.push(waiting)?;
    Ok(())
}

/// The frame of a block that begins with these values in its slots. None where it has fewer slots.
pub(crate) fn framed(
    alloc: Global,
    block: usize,
    slots: usize,
    room: usize,
    values: Vec<Value>,
) -> Result<Option<Frame>, AllocError>
    ensures { IfOk result (λ frame. IsFrameOf block slots room values.items frame) }
{
    match filled(slots, values)? {
        None => Ok(None),
        Some(slots) => Ok(Some(Frame {
            block,
            place: 0,
            room,
            stack: Vec::new(alloc),
            slots,
        })),
    }
}

/// A body begins in this block with these values, and so much room below the depth limit. None where the block is not
/// there or has fewer slots.
pub(crate) fn body_in(
    alloc: Global,
    parts: &Parts,
    limits: &Limits,
    block: u32,
    room: usize,
    values: Vec<Value>,
) -> Result<Option<Frames>, AllocError>
    ensures { IfOk result (λ frames. IsFound (body_in_block parts.now block room values.items limits.now.turns) frames) }
{
    match parts.blocks.items().get(block as usize) {
        None => Ok(None),
        Some(line) => match framed(alloc, block as usize, line.slots as usize, room, values)? {
            None => Ok(None),
            Some(top) => Ok(Some(Frames {
                top,
                below: Vec::new(alloc),
                turns: limits.turns,
                awaited: Awaited::ForNothing,
                builder: None,
                limits: *limits,
            })),
        },
    }
}
