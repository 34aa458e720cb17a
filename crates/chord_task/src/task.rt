//! A stack of bodies, each waiting for the one above it, and the entries that they made.
#![tactic(auto)]

ghost use Rattle.std.specs.Prelude.{◌≡◌, ◌≢◌, ◌+◌, ◌-◌, ◌<◌, ◌≤◌, [], ◌∷◌, ◌++◌, true, false, All, IfOk, OnOk, OnErr, IsOk, IsSomeAnd, IsTrue, ◌↔◌, Some, None, length, slice_get, is_none, vec_len, vec_capacity, Box};
ghost use Rattle.chord_base.specs.Copies.{IsAlwaysCopied};
ghost use Rattle.chord_base.specs.declared.event.Limits.{Limits as TheLimits};
ghost use Rattle.chord_base.specs.declared.event.What.{What as AWhat};
ghost use Rattle.chord_base.specs.Printed.{is_end};
ghost use Rattle.chord_base.specs.Room.{HasGrown};
ghost use Rattle.chord_code.specs.declared.parts.Parts.{Parts};
ghost use Rattle.chord_code.specs.Meaning.{code_program, chord_lines};
ghost use Rattle.chord_vm.specs.declared.frames.Frames.{Frames as TheFrames};
ghost use Rattle.chord_vm.specs.Frames.{AreBlank, laid, what_of_ask};
ghost use Rattle.chord_task.specs.declared.body.Body.{Body as ABody};
ghost use Rattle.chord_task.specs.Arguments.{for_entry, AreTwice, MayBeList, IsList, HasOneAtMost};
ghost use Rattle.chord_task.specs.Past.{AddsOne};
ghost use Rattle.chord_task.specs.Turning.{RunsOn};
ghost use Rattle.chord_task.specs.Stacks.{task_noted, task_begun, IsNext};
ghost use Rattle.chord_task.specs.Standing.{view_of, IsTaskOf, HasGiven, IsReserved, IsResumable, MayNote, MayResume, is_ready_of, waits_of, room_of, callers_of, WaitsIfAny, LastIsReady, HasReturned, given_by, IsRoomierTop, HasRoomFor, IsSpareOf, IsStocked, LosesNoFrames, LosesNothing, KeepsList, KeepsStock, KeepsFrames, IsReadyFor, MainBegins, CanNote};

use crate::args::{Args, part_all};
use crate::body::{Body, Caller, Next, call_back, come_to_ask, given, note_ask, put_after};
use crate::enclosed::Enclosed;
use crate::past::{Past, append};
use chord_base::event::{End, Entry, Limits, What};
use chord_base::hand::Hand;
use chord_base::members::Members;
use chord_base::room::reserve_one;
use chord_base::value::{Object, Value, Values};
use chord_code::code::Code;
use chord_code::parts::ChordLine;
use chord_vm::ask::Ask;
use chord_vm::frames::{Frames, begin, begin_with, blank, can_begin, reserve as reserve_frames};
use std::alloc::{AllocError, Global};
use std::mem;

/// The most values of an entry.
const MAX_ENTRY_VALUES: usize = 64;

/// A stack of bodies, and what they did.
#[derive(Drop)]
pub struct Task {
    /// The entries that its bodies made, the oldest first.
    pub past: Past,
    /// The body on top.
    pub top: Option<Body>,
    /// The bodies below it, each of which waits for the one above it.
    pub below: Vec<Caller>,
    /// Frames for the next body.
    pub spare: Option<Box<Frames>>,
    /// Frames of a body that has ended.
    pub ended: Option<Box<Frames>>,
    /// A list for the values of the next firing's entry.
    pub values: Option<Vec<Value>>,
    /// The limits of its run.
    pub limits: Limits,
    /// The arguments of the call with which it is on its way. A parcel that is opened leaves none here; that a task has none while it is with a worker no clause says.
    pub enclosed: Enclosed,
}

/// The line of a chord of a class.
pub(crate) fn line_of(code: &Code, class: u16, chord: u16) -> &ChordLine
    requires { slice_get (chord_lines code.now class) chord ≢ None }
    ensures { slice_get (chord_lines code.now class) chord ≡ Some result.now }
{
    match code.parts().classes.items().get(class as usize) {
        None => unreachable!(),
        Some(line) => match line.chords.items().get(chord as usize) {
            None => unreachable!(),
            Some(chord) => chord,
        },
    }
}

/// The depth of a body that is put on top of this one.
pub(crate) fn depth_over(depth: u32, top: &Option<Body>) -> u32
    ensures { (limits : TheLimits) → limits.depth ≡ depth → limits.depth - result ≡ room_of limits top.now }
{
    match top {
        None => 1,
        Some(body) => {
            let place = (depth as usize).saturating_sub(body.frames.top.room);
            (place as u32).saturating_add(1)
        }
    }
}

/// New frames with room for each block, and no other. They lie in a box, so that a body, a task and a parcel are small where they are moved.
fn new_frames(alloc: Global, code: &Code, limits: &Limits) -> Result<Box<Frames>, AllocError>
    ensures spare { IfOk result (λ f. IsSpareOf code.now limits.now f.value) }
    ensures lean { IfOk result (λ f. AreBlank code.now f.value) }
{
    let frames = blank(alloc, code, limits)?;
    let boxed = Box::new(alloc, frames)?;
    Ok(boxed)
}

/// Whether frames of a body that has ended stand here, with room for each block.
#[inline(always)]
fn may_serve(code: &Code, limits: &Limits, ended: &Option<Box<Frames>>) -> bool
    ensures { IsTrue result ↔ IsSomeAnd ended.now (λ f. IsSpareOf code.now limits.now f.value) }
{
    match ended {
        None => false,
        Some(frames) => can_begin(code, limits, &**frames),
    }
}

/// Puts new frames into an empty stock.
#[inline(never)]
fn put_new(
    alloc: Global,
    code: &Code,
    limits: &Limits,
    spare: &mut Option<Box<Frames>>,
) -> Result<(), AllocError>
    requires { spare.old ≡ None }
    ensures kept { HasRoomFor code.now limits.now spare.new }
    ensures some { OnOk result ((f : Box TheFrames Global) × (spare.new ≡ Some f) × IsSpareOf code.now limits.now f.value) }
    ensures lean { OnOk result (IsSomeAnd spare.new (λ f. AreBlank code.now f.value)) }
{
    *spare = Some(new_frames(alloc, code, limits)?);
    Ok(())
}

/// Puts frames into an empty stock: those of a body that has ended, where they have room for each block, and else new ones.
#[inline(always)]
fn restock(
    alloc: Global,
    code: &Code,
    limits: &Limits,
    spare: &mut Option<Box<Frames>>,
    ended: &mut Option<Box<Frames>>,
) -> Result<(), AllocError>
    requires { spare.old ≡ None }
    ensures kept { HasRoomFor code.now limits.now spare.new }
    ensures some { OnOk result ((f : Box TheFrames Global) × (spare.new ≡ Some f) × IsSpareOf code.now limits.now f.value) }
    ensures served { IsSomeAnd ended.old (λ f. IsSpareOf code.now limits.now f.value) → (spare.new ≡ ended.old) × (ended.new ≡ None) × IsOk result }
    ensures lean { OnOk result ((IsSomeAnd ended.old (λ f. IsSpareOf code.now limits.now f.value) → ⊥) → IsSomeAnd spare.new (λ f. AreBlank code.now f.value)) }
    ensures frames { LosesNoFrames spare.old ended.old spare.new ended.new }
{
    if may_serve(code, limits, ended) {
        mem::swap(spare, ended);
        return Ok(());
    }
    put_new(alloc, code, limits, spare)
}

/// Sees to frames in stock.
fn reserve_spare(
    alloc: Global,
    code: &Code,
    limits: &Limits,
    spare: &mut Option<Box<Frames>>,
    ended: &mut Option<Box<Frames>>,
) -> Result<(), AllocError>
    requires { HasRoomFor code.now limits.now spare.old }
    ensures kept { HasRoomFor code.now limits.now spare.new }
    ensures some { OnOk result ((f : Box TheFrames Global) × (spare.new ≡ Some f) × IsSpareOf code.now limits.now f.value) }
    ensures served { spare.old ≡ None → IsSomeAnd ended.old (λ f. IsSpareOf code.now limits.now f.value) → (spare.new ≡ ended.old) × (ended.new ≡ None) × IsOk result }
    ensures stocked { OnOk result (IsStocked code.now limits.now spare.old ended.old spare.new ended.new) }
    ensures frames { LosesNoFrames spare.old ended.old spare.new ended.new }
{
    match spare {
        Some(_) => Ok(()),
        None => restock(alloc, code, limits, spare, ended),
    }
}

/// Sees to a list in stock.
#[inline(always)]
fn reserve_values(alloc: Global, values: &mut Option<Vec<Value>>) -> Result<(), AllocError>
    requires { MayBeList values.old }
    ensures kept { MayBeList values.new }
    ensures some { OnOk result (IsList values.new) }
    ensures stays { KeepsList values.old values.new }
    ensures lean { OnOk result (values.old ≡ None → IsSomeAnd values.new (λ list. vec_capacity list ≡ 64)) }
{
    if values.is_some() {
        return Ok(());
    }
    *values = Some(Vec::with_capacity(alloc, MAX_ENTRY_VALUES)?);
    Ok(())
}

/// The frames of the last body, which has ended. It stands apart, since the place of a body is cleared in a function that moves one.
#[inline(never)]
fn take_last(top: &mut Option<Body>) -> Option<Box<Frames>>
    requires runs { RunsOn top.old }
    ensures none { top.new ≡ None }
    ensures frames { (b : ABody) → top.old ≡ Some b → result ≡ Some b.frames }
{
    match mem::replace(top, None) {
        None => None,
        Some(body) => {
            let Body {
                number: _,
                frames,
                next,
            } = body;
            // nothing is to be dropped, which a drop would look for
            match next {
                Next::Runs => {}
                _ => unreachable!(),
            }
            Some(frames)
        }
    }
}

/// The body on top has ended: its caller comes back in its place, if there is one, and its frames are kept.
#[inline(always)]
pub(crate) fn end_top(
    top: &mut Option<Body>,
    below: &mut Vec<Caller>,
    ended: &mut Option<Box<Frames>>,
    end: End,
)
    requires runs { RunsOn top.old }
    requires ready { LastIsReady below.old.items }
    ensures capacity { vec_capacity below.new ≡ vec_capacity below.old }
    ensures ended { HasReturned end below.old below.new top.new }
    ensures frames { (b : ABody) → top.old ≡ Some b → ended.new ≡ Some b.frames }
{
    match below.pop() {
        None => *ended = take_last(top),
        Some(caller) => match top {
            None => unreachable!(),
            Some(body) => *ended = Some(call_back(body, caller, end)),
        },
    }
}

/// The first body of a task, which runs. It stands apart, since the place of a body is cleared in a function that makes one.
#[inline(never)]
fn put_first(top: &mut Option<Body>, number: u32, frames: Box<Frames>)
    requires none { top.old ≡ None }
    ensures top { top.new ≡ Some (record { number = number; frames = frames; next = Next.Runs }) }
{
    let body = Body {
        number,
        frames,
        next: Next::Runs,
    };
    match mem::replace(top, Some(body)) {
        None => {}
        Some(_) => unreachable!(),
    }
}

/// Puts a body that runs on top, for which there is room: in the place of its caller, if there is one, which goes below.
#[inline(always)]
pub(crate) fn put_on_top(
    top: &mut Option<Body>,
    below: &mut Vec<Caller>,
    number: u32,
    frames: Box<Frames>,
)
    requires room { vec_len below.old < vec_capacity below.old }
    requires waits { WaitsIfAny top.old }
    ensures top { top.new ≡ Some (record { number = number; frames = frames; next = Next.Runs }) }
    ensures below { below.new.items ≡ below.old.items ++ callers_of top.old }
    ensures callers { vec_capacity below.new ≡ vec_capacity below.old }
{
    match top {
        None => put_first(top, number, frames),
        Some(body) => {
            let call = match body.next {
                Next::Waits(call) => call,
                _ => unreachable!(),
            };
            let caller = Caller {
                number: body.number,
                call,
                frames: mem::replace(&mut body.frames, frames),
            };
            below.push_reserved(caller);
            body.number = number;
            put_after(&mut body.next, Next::Runs);
        }
    }
}

/// Room for the answer of the body on top.
#[inline(always)]
fn reserve_top(alloc: Global, top: &mut Option<Body>) -> Result<(), AllocError>
    ensures same { IsRoomierTop top.old top.new }
    ensures ready { OnOk result (IsReadyFor top.new) }
{
    match top {
        None => Ok(()),
        Some(body) => reserve_frames(alloc, &mut *body.frames),
    }
}

/// The past in which body 0 has begun; its entry goes to the list.
fn begun(list: &mut Vec<Entry>) -> Result<Past, AllocError>
    ensures past { IfOk result (λ past. past ≡ record { number = 0; body = 0; what = What.Begun } ∷ []) }
    ensures listed { OnOk result (list.new.items ≡ list.old.items ++ record { number = 0; body = 0; what = What.Begun } ∷ []) }
    ensures kept { OnErr result (list.new.items ≡ list.old.items) }
    ensures grown { OnOk result (HasGrown (vec_len list.old) (vec_capacity list.old) (vec_capacity list.new)) }
{
    reserve_one(list)?;
    let mut past = Past::none();
    append(
        &mut past,
        list,
        Entry {
            number: 0,
            body: 0,
            what: What::Begun,
        },
    );
    Ok(past)
}

impl Task {
    #[tactic(auto, using(chord_code::proofs::Validity::valid_forward))]
    /// Body 0, and the entry that begins it, which goes to the list. It has nothing in stock. Where no memory is found, nothing was made.
    pub fn main(
        alloc: Global,
        code: &Code,
        limits: &Limits,
        list: &mut Vec<Entry>,
    ) -> Result<Task, AllocError>
        requires { MainBegins code.now limits.now }
        ensures task { IfOk result (λ t. IsTaskOf code.now limits.now t) }
        ensures past { IfOk result (λ t. (view_of t).past ≡ record { number = 0; body = 0; what = What.Begun } ∷ []) }
        ensures top { IfOk result (λ t. (view_of t).top ≡ Some 0) }
        ensures lean { IfOk result (λ t. (t.spare ≡ None) × (t.ended ≡ None) × (t.values ≡ None) × (vec_capacity t.below ≡ 0)) }
        ensures listed { OnOk result (list.new.items ≡ list.old.items ++ record { number = 0; body = 0; what = What.Begun } ∷ []) }
        ensures kept { OnErr result (list.new.items ≡ list.old.items) }
        ensures grown { OnOk result (HasGrown (vec_len list.old) (vec_capacity list.old) (vec_capacity list.new)) }
    {
        let _parts = code.parts();
        let mut frames = new_frames(alloc, code, limits)?;
        let past = begun(list)?;
        begin(code, &mut *frames, 0, Value::Unit, Hand::new(), 1);
        Ok(Task {
            past,
            top: Some(Body {
                number: 0,
                frames,
                next: Next::Runs,
            }),
            below: Vec::new(alloc),
            spare: None,
            ended: None,
            values: None,
            limits: *limits,
            enclosed: Enclosed::nothing(),
        })
    }

    /// No body, and room for one: for one caller, frames as chord_vm's `blank` makes them, a list of 64 values, and nothing else.
    pub fn spare(alloc: Global, code: &Code, limits: &Limits) -> Result<Task, AllocError>
        ensures task { IfOk result (λ t. IsTaskOf code.now limits.now t) }
        ensures past { IfOk result (λ t. (view_of t).past ≡ []) }
        ensures top { IfOk result (λ t. (view_of t).top ≡ None) }
        ensures room { IfOk result (λ t. IsResumable code.now t) }
        ensures lean { IfOk result (λ t. (vec_capacity t.below ≡ 1) × IsSomeAnd t.values (λ list. vec_capacity list ≡ 64) × IsSomeAnd t.spare (λ f. AreBlank code.now f.value) × (t.ended ≡ None)) }
    {
        let _parts = code.parts();
        let below = Vec::with_capacity(alloc, 1)?;
        let values = Vec::with_capacity(alloc, MAX_ENTRY_VALUES)?;
        let frames = new_frames(alloc, code, limits)?;
        Ok(Task {
            past: Past::none(),
            top: None,
            below,
            spare: Some(frames),
            ended: None,
            values: Some(values),
            limits: *limits,
            enclosed: Enclosed::nothing(),
        })
    }

    /// The next ask of the body on top. Asked again before a note, it gives the same.
    ///
    /// Where no memory is found the task can only give its past.
    pub fn ask(&mut self, alloc: Global, code: &Code, limits: &Limits) -> Result<Ask, AllocError>
        requires task { IsTaskOf code.now limits.now self.old }
        requires left { is_ready_of self.old ≡ true }
        ensures past { self.new.past ≡ self.old.past }
        ensures task { IfOk result (λ _. IsTaskOf code.now limits.now self.new) }
        ensures same { IfOk result (λ _. view_of self.new ≡ view_of self.old) }
        ensures gave { IfOk result (λ ask. HasGiven self.new (what_of_ask ask)) }
        ensures next { IfOk result (λ ask. IsNext (code_program code.now limits.now) (view_of self.old) (what_of_ask ask)) }
        ensures again { IfOk result (λ ask. (w : AWhat) → HasGiven self.old w → w ≡ what_of_ask ask) }
        ensures stock { KeepsStock self.old self.new }
    {
        match &mut self.top {
            None => unreachable!(),
            Some(body) => {
                come_to_ask(alloc, code, body)?;
                given(alloc, &body.next)
            }
        }
    }

    /// The body on top comes to its next ask, and keeps it until it is noted. As `ask`, but copies nothing.
    pub fn prepare(&mut self, alloc: Global, code: &Code, limits: &Limits) -> Result<(), AllocError>
        requires task { IsTaskOf code.now limits.now self.old }
        requires left { is_ready_of self.old ≡ true }
        ensures past { self.new.past ≡ self.old.past }
        ensures task { IfOk result (λ _. IsTaskOf code.now limits.now self.new) }
        ensures same { IfOk result (λ _. view_of self.new ≡ view_of self.old) }
        ensures gave { IfOk result (λ _. given_by self.new.top ≢ None) }
        ensures stock { KeepsStock self.old self.new }
    {
        match &mut self.top {
            None => unreachable!(),
            Some(body) => come_to_ask(alloc, code, body),
        }
    }

    /// Takes the room that the next note and the next resume need. Where there is none the task is as it was.
    pub fn reserve(
        &mut self,
        alloc: Global,
        code: &Code,
        list: &mut Vec<Entry>,
    ) -> Result<(), AllocError>
        requires task { (limits : TheLimits) × IsTaskOf code.now limits self.old }
        requires left { is_ready_of self.old ≡ true }
        ensures task { (limits : TheLimits) → IsTaskOf code.now limits self.old → IsTaskOf code.now limits self.new }
        ensures same { view_of self.new ≡ view_of self.old }
        ensures past { self.new.past ≡ self.old.past }
        ensures gave { given_by self.new.top ≡ given_by self.old.top }
        ensures ready { OnOk result (IsReserved code.now self.new) }
        ensures listed { list.new.items ≡ list.old.items }
        ensures place { OnOk result (vec_len list.new < vec_capacity list.new) }
        ensures stocked { OnOk result (IsStocked code.now self.old.limits self.old.spare self.old.ended self.new.spare self.new.ended) }
        ensures kept { LosesNothing code.now self.old self.new }
        ensures entries { vec_len list.old < vec_capacity list.old → list.new ≡ list.old }
        ensures grown { OnOk result ((HasGrown (vec_len self.old.below) (vec_capacity self.old.below) (vec_capacity self.new.below)) × HasGrown (vec_len list.old) (vec_capacity list.old) (vec_capacity list.new)) }
        ensures lean { OnOk result (self.old.values ≡ None → IsSomeAnd self.new.values (λ list. vec_capacity list ≡ 64)) }
    {
        self.take_room(alloc, code, list)
    }

    /// Takes the room for one more entry, and for a firing after it that adds to the task, and changes nothing else.
    #[inline(always)]
    pub(crate) fn take_room(
        &mut self,
        alloc: Global,
        code: &Code,
        list: &mut Vec<Entry>,
    ) -> Result<(), AllocError>
        requires spare { HasRoomFor code.now self.old.limits self.old.spare }
        requires values { MayBeList self.old.values }
        ensures past { self.new.past ≡ self.old.past }
        ensures below { self.new.below.items ≡ self.old.below.items }
        ensures top { IsRoomierTop self.old.top self.new.top }
        ensures spare { HasRoomFor code.now self.old.limits self.new.spare }
        ensures values { MayBeList self.new.values }
        ensures limits { self.new.limits ≡ self.old.limits }
        ensures ready { OnOk result (IsReserved code.now self.new) }
        ensures listed { list.new.items ≡ list.old.items }
        ensures place { OnOk result (vec_len list.new < vec_capacity list.new) }
        ensures stocked { OnOk result (IsStocked code.now self.old.limits self.old.spare self.old.ended self.new.spare self.new.ended) }
        ensures room { vec_len self.old.below < vec_capacity self.old.below → self.new.below ≡ self.old.below }
        ensures frames { LosesNoFrames self.old.spare self.old.ended self.new.spare self.new.ended }
        ensures list { KeepsList self.old.values self.new.values }
        ensures enclosed { self.new.enclosed ≡ self.old.enclosed }
        ensures entries { vec_len list.old < vec_capacity list.old → list.new ≡ list.old }
        ensures grown { OnOk result ((HasGrown (vec_len self.old.below) (vec_capacity self.old.below) (vec_capacity self.new.below)) × HasGrown (vec_len list.old) (vec_capacity list.old) (vec_capacity list.new)) }
        ensures lean { OnOk result (self.old.values ≡ None → IsSomeAnd self.new.values (λ list. vec_capacity list ≡ 64)) }
    {
        reserve_one(list)?;
        reserve_one(&mut self.below)?;
        reserve_spare(alloc, code, &self.limits, &mut self.spare, &mut self.ended)?;
        reserve_values(alloc, &mut self.values)?;
        reserve_top(alloc, &mut self.top)
    }

    /// The ask that was given becomes the entry of this number. Takes no memory.
    ///
    /// An object, a message and a line are answered; a call waits. After an end the body below is answered by it.
    pub fn note(&mut self, number: u32, list: &mut Vec<Entry>)
        requires may { CanNote self.old number }
        requires place { vec_len list.old < vec_capacity list.old }
        ensures listed { AddsOne self.old.past self.new.past list.old.items list.new.items }
        ensures noted { (code : Parts) (limits : TheLimits) → IsTaskOf code limits self.old → (may : MayNote code limits self.old number) → IsTaskOf code limits self.new × task_noted (view_of self.old) number may.what (view_of self.new) × (is_end may.what ≡ false → (view_of self.new).top ≡ (view_of self.old).top) }
        ensures frames { (w : AWhat) → given_by self.old.top ≡ Some w → KeepsFrames w self.old self.new }
        ensures callers { vec_capacity self.new.below ≡ vec_capacity self.old.below }
        ensures capacity { vec_capacity list.new ≡ vec_capacity list.old }
    {
        match &mut self.top {
            None => unreachable!(),
            Some(body) => {
                let maker = body.number;
                match mem::replace(&mut body.next, Next::Runs) {
                    Next::Gave(what) => {
                        note_ask(body, number, &what);
                        append(
                            &mut self.past,
                            list,
                            Entry {
                                number,
                                body: maker,
                                what,
                            },
                        );
                    }
                    Next::Ends(first, second) => {
                        append(
                            &mut self.past,
                            list,
                            Entry {
                                number,
                                body: maker,
                                what: What::Ended(first),
                            },
                        );
                        end_top(&mut self.top, &mut self.below, &mut self.ended, second);
                    }
                    _ => unreachable!(),
                }
            }
        }
    }

    /// Puts the body of a firing on top. Takes no memory.
    pub fn resume(
        &mut self,
        code: &Code,
        number: u32,
        chord: u16,
        object: Object,
        members: &Members,
        arguments: Hand<Args>,
        list: &mut Vec<Entry>,
    )
        requires place { vec_len list.old < vec_capacity list.old }
        requires task { IsTaskOf code.now self.old.limits self.old }
        requires may { MayResume code.now self.old.limits self.old number chord object members.now (laid (for_entry arguments)) }
        requires few { length (laid (for_entry arguments)) ≤ 64 }
        requires twice { AreTwice arguments }
        ensures task { IsTaskOf code.now self.old.limits self.new }
        ensures past { task_begun (view_of self.old) number chord object members.now (laid (for_entry arguments)) (view_of self.new) }
        ensures top { (view_of self.new).top ≡ Some number }
        ensures listed { AddsOne self.old.past self.new.past list.old.items list.new.items }
        ensures list { HasOneAtMost (for_entry arguments) → IsList self.new.values }
        ensures ended { self.new.ended ≡ self.old.ended }
        ensures callers { vec_capacity self.new.below ≡ vec_capacity self.old.below }
    {
        let depth = depth_over(self.limits.depth, &self.top);
        let parts = part_all(&mut self.values, arguments);
        match self.spare.take() {
            None => unreachable!(),
            Some(frames) => {
                let mut frames = frames;
                let block = line_of(code, object.class, chord).block;
                let this = Value::Ref(object);
                begin(code, &mut *frames, block, this, parts.body, depth);
                append(
                    &mut self.past,
                    list,
                    Entry {
                        number,
                        body: number,
                        what: What::Fired(chord, object, members.copied(), parts.entry),
                    },
                );
                put_on_top(&mut self.top, &mut self.below, number, frames);
            }
        }
    }

    /// Puts the body of a firing on top, with copies of these values in its slots; members and values go into its entry. Takes no memory, and
    /// fails only where a text of more than 8 bytes has too many owners. Where it fails, the task can only be dropped.
    #[inline(always)]
    pub fn resume_with(
        &mut self,
        alloc: Global,
        code: &Code,
        number: u32,
        chord: u16,
        object: Object,
        members: &mut Members,
        values: &mut Values,
        list: &mut Vec<Entry>,
    ) -> Result<(), AllocError>
        requires place { vec_len list.old < vec_capacity list.old }
        requires task { IsTaskOf code.now self.old.limits self.old }
        requires may { MayResume code.now self.old.limits self.old number chord object members.old values.old }
        ensures task { IfOk result (λ _. IsTaskOf code.now self.old.limits self.new) }
        ensures past { IfOk result (λ _. task_begun (view_of self.old) number chord object members.old values.old (view_of self.new)) }
        ensures top { IfOk result (λ _. (view_of self.new).top ≡ Some number) }
        ensures listed { OnOk result (AddsOne self.old.past self.new.past list.old.items list.new.items) }
        ensures ended { self.new.ended ≡ self.old.ended }
        ensures values { self.new.values ≡ self.old.values }
        ensures callers { vec_capacity self.new.below ≡ vec_capacity self.old.below }
        ensures short { All IsAlwaysCopied values.old → IsOk result }
    {
        let depth = depth_over(self.limits.depth, &self.top);
        let block = line_of(code, object.class, chord).block;
        match &mut self.spare {
            None => unreachable!(),
            Some(frames) => {
                let this = Value::Ref(object);
                begin_with(
                    alloc,
                    code,
                    &mut **frames,
                    block,
                    this,
                    values.items(),
                    depth,
                )?;
            }
        }
        append(
            &mut self.past,
            list,
            Entry {
                number,
                body: number,
                what: What::Fired(
                    chord,
                    object,
                    mem::replace(members, Members::new()),
                    mem::replace(values, Values::none()),
                ),
            },
        );
        match self.spare.take() {
            None => unreachable!(),
            Some(frames) => {
                put_on_top(&mut self.top, &mut self.below, number, frames);
            }
        }
        Ok(())
    }

    /// Whether no body is left.
    pub fn over(&self) -> bool
        ensures { result ≡ is_none (view_of self.now).top }
    {
        self.top.is_none()
    }

    /// A task in which no body is left has no entries then, and its memory serves for the next body, as that of what `spare` makes.
    pub fn renew(&mut self)
        requires over { (view_of self.old).top ≡ None }
        ensures past { (view_of self.new).past ≡ [] }
        ensures top { (view_of self.new).top ≡ None }
        ensures task { (code : Parts) (limits : TheLimits) → IsTaskOf code limits self.old → IsTaskOf code limits self.new × IsResumable code self.new }
        ensures stock { KeepsStock self.old self.new }
    {
        self.past = Past::none();
    }

    /// Whether a body is left, and the top one does not wait.
    pub fn is_ready(&self) -> bool
        ensures { result ≡ is_ready_of self.now }
    {
        match &self.top {
            None => false,
            Some(body) => match body.next {
                Next::Waits(_) => false,
                _ => true,
            },
        }
    }

    /// Whether the body on top waits for this call.
    pub fn waits_for(&self, call: u32) -> bool
        ensures { result ≡ waits_of call self.now }
    {
        match &self.top {
            None => false,
            Some(body) => match body.next {
                Next::Waits(number) => number == call,
                _ => false,
            },
        }
    }
}
