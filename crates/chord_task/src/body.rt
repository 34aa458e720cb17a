//! A body of a task: its frames, and what it does next.
#![tactic(auto)]

ghost use Rattle.std.specs.Prelude.{◌≡◌, ◌≢◌, ℕ, IfOk, OnOk, Some, None};
ghost use Rattle.chord_code.specs.declared.awaited.Awaited.TheVariants as Awaited;
ghost use Rattle.chord_code.specs.Machine.{with_answer, ComesToAsk};
ghost use Rattle.chord_vm.specs.Frames.{machine_of, IsReady, what_of_ask};
ghost use Rattle.chord_task.specs.Standing.{waiting_body, GivenBy, AskedBody, IsRunnable, MayAnswer, AnsweredWith, CalledBack, answer_of, given_of, HasRun, IsAskGiven, IsAnsweredByNote};

use chord_base::event::{End, Trap, What};
use chord_base::value::{Object, Value};
use chord_code::code::Code;
use chord_vm::ask::Ask;
use chord_vm::frames::{Frames, answer};
use chord_vm::step::{advance_to, take_ask};
use std::alloc::{AllocError, Global};
use std::mem;

/// What a body does next.
#[derive(Drop)]
pub enum Next {
    /// Its frames run on.
    Runs,
    /// It gave this ask.
    Gave(What),
    /// It gave its end, which is held twice: for the entry and for the caller.
    Ends(End, End),
    /// It ends by the trap of the body that it called.
    Fails(Trap),
    /// It waits for the end of this call.
    Waits(u32),
}

/// A body, and what it does next.
#[derive(Drop)]
pub struct Body {
    /// The number of the entry that began it.
    pub number: u32,
    /// Its frames.
    pub frames: Box<Frames>,
    /// What it does next.
    pub next: Next,
}

/// A body that waits for the end of a call. It is small, since what it does next is known.
#[derive(Drop)]
pub struct Caller {
    /// The number of the entry that began it.
    pub number: u32,
    /// The call that it waits for.
    pub call: u32,
    /// Its frames.
    pub frames: Box<Frames>,
}

/// What a body that ran does next. There is nothing to drop in its place, which an assignment would not know.
pub(crate) fn put(place: &mut Next, next: Next)
    requires runs { place.old ≡ Next.Runs }
    ensures put { place.new ≡ next }
{
    match mem::replace(place, next) {
        Next::Runs => {}
        _ => unreachable!(),
    }
}

/// What a body does next in the place of one that waits. There is nothing to drop in place of its wait.
#[inline(always)]
pub(crate) fn put_after(place: &mut Next, next: Next)
    requires waits { (q : ℕ) × (place.old ≡ Next.Waits q) }
    ensures put { place.new ≡ next }
{
    match mem::replace(place, next) {
        Next::Waits(_) => {}
        _ => unreachable!(),
    }
}

/// The body comes to its next ask.
pub(crate) fn come_to_ask(alloc: Global, code: &Code, body: &mut Body) -> Result<(), AllocError>
    requires { IsRunnable code.now body.old }
    ensures { OnOk result (AskedBody code.now body.old body.new) }
{
    match body.next {
        Next::Runs => run_on(alloc, code, body),
        Next::Fails(trap) => {
            body.next = Next::Ends(End::Traps(trap), End::Traps(trap));
            Ok(())
        }
        Next::Gave(_) => Ok(()),
        Next::Ends(..) => Ok(()),
        Next::Waits(_) => unreachable!(),
    }
}

/// The body keeps its ask. Each arm writes on its own: what arms hand on is merged field by field, which takes longer than the rest of a turn.
#[inline(always)]
fn keep(alloc: Global, next: &mut Next, ask: Ask) -> Result<(), AllocError>
    requires runs { next.old ≡ Next.Runs }
    ensures { OnOk result (GivenBy (what_of_ask ask) next.new) }
{
    match ask {
        Ask::Make(class) => put(next, Next::Gave(What::Made(class))),
        Ask::Send(object, method, arguments) => {
            let what = What::Sent(object, method, arguments);
            put(next, Next::Gave(what));
        }
        Ask::Call(object, method, arguments) => {
            let what = What::Called(object, method, arguments);
            put(next, Next::Gave(what));
        }
        Ask::Print(text) => put(next, Next::Gave(What::Printed(text))),
        Ask::End(first) => {
            let second = first.copied(alloc)?;
            put(next, Next::Ends(first, second));
        }
    }
    Ok(())
}

/// The frames of the body run on to its next ask.
fn run_on(alloc: Global, code: &Code, body: &mut Body) -> Result<(), AllocError>
    requires asks { ComesToAsk code.now (machine_of body.old.frames.value) }
    requires runs { body.old.next ≡ Next.Runs }
    ensures number { body.new.number ≡ body.old.number }
    ensures asked { OnOk result (HasRun code.now body.old.frames.value body.new) }
{
    let mut asked = None;
    advance_to(alloc, code, &mut *body.frames, &mut asked)?;
    keep(alloc, &mut body.next, take_ask(&mut asked))
}

/// The body gets its answer, so that it runs on.
fn reply(body: &mut Body, value: Value)
    requires ready { IsReady body.old.frames.value.awaited body.old.frames.value }
    requires fits { with_answer (machine_of body.old.frames.value) body.old.frames.value.awaited value ≢ None }
    requires runs { body.old.next ≡ Next.Runs }
    ensures number { body.new.number ≡ body.old.number }
    ensures answered { AnsweredWith (Some value) 0 body.old.frames.value body.new }
{
    answer(&mut *body.frames, value);
}

/// The body's ask became the entry of this number.
pub(crate) fn note_ask(body: &mut Body, number: u32, what: &What)
    requires own { IsAnsweredByNote what.now }
    requires may { MayAnswer (answer_of number what.now) body.old.frames.value }
    requires runs { body.old.next ≡ Next.Runs }
    ensures number { body.new.number ≡ body.old.number }
    ensures answered { AnsweredWith (answer_of number what.now) number body.old.frames.value body.new }
{
    match what {
        What::Made(class) => {
            let class = *class;
            reply(body, Value::Ref(Object { number, class }))
        }
        What::Sent(..) => reply(body, Value::Unit),
        What::Printed(_) => reply(body, Value::Unit),
        What::Called(..) => put(&mut body.next, Next::Waits(number)),
        _ => unreachable!(),
    }
}

/// The caller comes back in the place of the body that it called, which has ended. Gives the frames of the one that ended.
#[inline(always)]
pub(crate) fn call_back(place: &mut Body, caller: Caller, end: End) -> Box<Frames>
    requires ready { IsReady Awaited.ForValue caller.frames.value }
    requires awaited { caller.frames.value.awaited ≡ Awaited.ForValue }
    requires runs { place.old.next ≡ Next.Runs }
    ensures called { CalledBack end (waiting_body caller) place.new }
    ensures frames { result ≡ place.old.frames }
{
    let Caller {
        number,
        call: _,
        frames,
    } = caller;
    let ended = mem::replace(&mut place.frames, frames);
    place.number = number;
    match end {
        End::Gives(value) => answer(&mut *place.frames, value),
        End::Traps(trap) => put(&mut place.next, Next::Fails(trap)),
    }
    ended
}

/// A copy of the ask that a body gave.
pub(crate) fn given(alloc: Global, next: &Next) -> Result<Ask, AllocError>
    requires { IsAskGiven next.now }
    ensures { IfOk result (λ ask. given_of next.now ≡ Some (what_of_ask ask)) }
{
    match next {
        Next::Gave(What::Made(class)) => Ok(Ask::Make(*class)),
        Next::Gave(What::Sent(object, method, arguments)) => {
            let arguments = arguments.copied(alloc)?;
            Ok(Ask::Send(*object, *method, arguments))
        }
        Next::Gave(What::Called(object, method, arguments)) => {
            let arguments = arguments.copied(alloc)?;
            Ok(Ask::Call(*object, *method, arguments))
        }
        Next::Gave(What::Printed(text)) => {
            let text = text.copied(alloc)?;
            Ok(Ask::Print(text))
        }
        Next::Ends(first, _) => {
            let end = first.copied(alloc)?;
            Ok(Ask::End(end))
        }
        _ => unreachable!(),
    }
}
