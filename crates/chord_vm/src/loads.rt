//! A load and the instruction behind it, which asks with what was loaded: both are done at once.
#![tactic(auto)]

ghost use Rattle.std.specs.Prelude.{◌≡◌, ◌≢◌, ◌+◌, ◌^◌, ◌<◌, true, false, [], ◌∷◌, Some, None, slice_get};
ghost use Rattle.chord_base.specs.declared.value.Value.{Value as AValue};
ghost use Rattle.chord_code.specs.declared.parts.Parts.{Parts as TheParts};
ghost use Rattle.chord_code.specs.Machine.{Bad, act, send_by, call_by};
ghost use Rattle.chord_vm.specs.Frames.{machine_of, with_pushed, SteppedTo};

use crate::ask::{Ask, put_ask};
use crate::frames::Frames;
use chord_base::event::End;
use chord_base::value::{Object, Value, Values};
use chord_code::awaited::Awaited;
use chord_code::instruction::Instruction;

/// The body ends with a number.
#[inline(always)]
fn end_with_number(number: i32, asked: &mut Option<Ask>)
    requires empty { asked.old ≡ None }
    ensures { asked.new ≡ Some (Ask.End (End.Gives (Value.Int number))) }
{
    put_ask(asked, Ask::End(End::Gives(Value::Int(number))));
}

/// A number is sent to the object on top.
#[inline(always)]
fn send_number(frames: &mut Frames, method: u8, number: i32, asked: &mut Option<Ask>)
    requires fits { frames.old.top.place + 2 < 2 ^ 64 }
    requires sound { send_by method (with_pushed (Value.Int number) (machine_of frames.old)) (Some (Value.Int number ∷ [], (machine_of frames.old).top.stack)) ≢ Bad }
    requires empty { asked.old ≡ None }
    ensures { SteppedTo (send_by method (with_pushed (Value.Int number) (machine_of frames.old)) (Some (Value.Int number ∷ [], (machine_of frames.old).top.stack))) asked.new frames.new }
{
    match frames.top.stack.take_last() {
        Value::Ref(object) => {
            frames.top.place += 2;
            frames.awaited = Awaited::ForNothing;
            put_ask(
                asked,
                Ask::Send(object, method, Values::one(Value::Int(number))),
            );
        }
        _ => unreachable!(),
    }
}

/// An object is called without arguments.
#[inline(always)]
fn call_object(frames: &mut Frames, method: u8, object: Object, asked: &mut Option<Ask>)
    requires fits { frames.old.top.place + 2 < 2 ^ 64 }
    requires room { 0 < frames.old.top.room }
    requires empty { asked.old ≡ None }
    ensures { SteppedTo (call_by method (with_pushed (Value.Ref object) (machine_of frames.old)) (Some ([], Value.Ref object ∷ (machine_of frames.old).top.stack))) asked.new frames.new }
{
    frames.top.place += 2;
    frames.awaited = Awaited::ForValue;
    put_ask(asked, Ask::Call(object, method, Values::none()));
}

/// Whether a number that is loaded from this slot ends the body, which it then does.
#[inline(always)]
fn ends_at_once(frames: &Frames, slot: usize, asked: &mut Option<Ask>) -> bool
    requires there { slice_get frames.now.top.slots.items slot ≢ None }
    requires empty { asked.old ≡ None }
    ensures yes { result ≡ true → (v : AValue) × (slice_get frames.now.top.slots.items slot ≡ Some v) × (asked.new ≡ Some (Ask.End (End.Gives v))) }
    ensures no { result ≡ false → asked.new ≡ asked.old }
{
    match &frames.top.slots[slot] {
        Value::Int(number) => {
            end_with_number(*number, asked);
            true
        }
        _ => false,
    }
}

/// Whether a number that is loaded from this slot is the argument of a message, which is then sent.
#[inline(always)]
fn sends_at_once(frames: &mut Frames, slot: usize, method: u8, asked: &mut Option<Ask>) -> bool
    requires fits { frames.old.top.place + 2 < 2 ^ 64 }
    requires there { slice_get frames.old.top.slots.items slot ≢ None }
    requires sound { (v : AValue) → slice_get frames.old.top.slots.items slot ≡ Some v → send_by method (with_pushed v (machine_of frames.old)) (Some (v ∷ [], (machine_of frames.old).top.stack)) ≢ Bad }
    requires empty { asked.old ≡ None }
    ensures yes { result ≡ true → (v : AValue) × (slice_get frames.old.top.slots.items slot ≡ Some v) × SteppedTo (send_by method (with_pushed v (machine_of frames.old)) (Some (v ∷ [], (machine_of frames.old).top.stack))) asked.new frames.new }
    ensures no { result ≡ false → frames.new ≡ frames.old }
    ensures unasked { result ≡ false → asked.new ≡ asked.old }
{
    match &frames.top.slots[slot] {
        Value::Int(number) => {
            let number = *number;
            send_number(frames, method, number, asked);
            true
        }
        _ => false,
    }
}

/// Whether an object that is loaded from this slot is called without arguments, which it then is. Where no room is left it is not.
#[inline(always)]
fn calls_at_once(frames: &mut Frames, slot: usize, method: u8, asked: &mut Option<Ask>) -> bool
    requires fits { frames.old.top.place + 2 < 2 ^ 64 }
    requires there { slice_get frames.old.top.slots.items slot ≢ None }
    requires empty { asked.old ≡ None }
    ensures yes { result ≡ true → (v : AValue) × (slice_get frames.old.top.slots.items slot ≡ Some v) × SteppedTo (call_by method (with_pushed v (machine_of frames.old)) (Some ([], v ∷ (machine_of frames.old).top.stack))) asked.new frames.new }
    ensures no { result ≡ false → frames.new ≡ frames.old }
    ensures unasked { result ≡ false → asked.new ≡ asked.old }
{
    if frames.top.room == 0 {
        return false;
    }
    match &frames.top.slots[slot] {
        Value::Ref(object) => {
            let object = *object;
            call_object(frames, method, object, asked);
            true
        }
        _ => false,
    }
}

/// Whether the instruction behind a load asks with what is loaded, which it then does. Where it does not, nothing was done. What is asked most
/// often is looked for: the end by a number, a message with a number, and a call without arguments.
#[inline(always)]
pub(crate) fn asks_at_once(
    frames: &mut Frames,
    slot: usize,
    behind: &Instruction,
    asked: &mut Option<Ask>,
) -> bool
    requires fits { frames.old.top.place + 2 < 2 ^ 64 }
    requires there { slice_get frames.old.top.slots.items slot ≢ None }
    requires sound { (code : TheParts) × ((v : AValue) → slice_get frames.old.top.slots.items slot ≡ Some v → act code (Some behind.now) (with_pushed v (machine_of frames.old)) ≢ Bad) }
    requires empty { asked.old ≡ None }
    ensures yes { result ≡ true → (code : TheParts) → (v : AValue) × (slice_get frames.old.top.slots.items slot ≡ Some v) × SteppedTo (act code (Some behind.now) (with_pushed v (machine_of frames.old))) asked.new frames.new }
    ensures no { result ≡ false → frames.new ≡ frames.old }
    ensures unasked { result ≡ false → asked.new ≡ asked.old }
{
    match behind {
        Instruction::Endv => ends_at_once(frames, slot, asked),
        Instruction::Send(method, n) => {
            if *n == 1 {
                return sends_at_once(frames, slot, *method, asked);
            }
            false
        }
        Instruction::Call(method, n) => {
            if *n == 0 {
                return calls_at_once(frames, slot, *method, asked);
            }
            false
        }
        _ => false,
    }
}
