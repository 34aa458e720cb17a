//! What instructions have in common: how a body goes on, asks and ends.
#![tactic(auto)]

ghost use Rattle.std.specs.Prelude.{◌≡◌, suc, ◌+◌, ◌^◌, ◌<◌, ◌∷◌, IfOk};
ghost use Rattle.chord_code.specs.Machine.{goes, asks, ends};
ghost use Rattle.chord_vm.specs.Frames.{machine_of};
ghost use Rattle.chord_plain.specs.Effects.{IsEffect};

use crate::effect::Effect;
use crate::stack::push;
use chord_base::event::{End, What};
use chord_base::value::Value;
use chord_code::awaited::Awaited;
use chord_vm::frames::Frames;
use std::alloc::AllocError;

/// The place after this one.
pub(crate) fn after(place: usize) -> usize
    requires { place + 1 < 2 ^ 64 }
    ensures { result ≡ suc place }
{
    place + 1
}

/// Goes to this place.
pub(crate) fn go_to(frames: &mut Frames, place: usize) -> Effect
    ensures { IsEffect (goes (machine_of frames.old) place (machine_of frames.old).top.stack) result frames.new }
{
    frames.top.place = place;
    Effect::GoesOn
}

/// Goes to the next place.
pub(crate) fn go_on(frames: &mut Frames) -> Effect
    requires { frames.old.top.place + 1 < 2 ^ 64 }
    ensures { IsEffect (goes (machine_of frames.old) (suc frames.old.top.place) (machine_of frames.old).top.stack) result frames.new }
{
    let next = after(frames.top.place);
    go_to(frames, next)
}

/// Pushes a value, and goes to the next place.
pub(crate) fn push_on(frames: &mut Frames, value: Value) -> Result<Effect, AllocError>
    requires { frames.old.top.place + 1 < 2 ^ 64 }
    ensures { IfOk result (λ effect. IsEffect (goes (machine_of frames.old) (suc frames.old.top.place) (value ∷ (machine_of frames.old).top.stack)) effect frames.new) }
{
    push(&mut frames.top.stack, value)?;
    Ok(go_on(frames))
}

/// Asks, and waits for this answer at the next place.
pub(crate) fn ask(frames: &mut Frames, what: What, awaited: Awaited) -> Effect
    requires { frames.old.top.place + 1 < 2 ^ 64 }
    ensures { IsEffect (asks (machine_of frames.old) what awaited (machine_of frames.old).top.stack) result frames.new }
{
    frames.top.place = after(frames.top.place);
    frames.awaited = awaited;
    Effect::Asks(what)
}

/// Asks the body's end.
pub(crate) fn end_by(frames: &mut Frames, end: End) -> Effect
    ensures { IsEffect (ends (machine_of frames.old) end) result frames.new }
{
    frames.awaited = Awaited::ForNothing;
    Effect::Asks(What::Ended(end))
}
