//! The body of a firing begins: in the task of the caller that it serves, or in a new one.
ghost use Rattle.std.specs.Prelude.{◌≡◌, ◌≢◌, ◌⊎◌, ◌<◌, ◌≤◌, ◌∷◌, ◌++◌, false, length, vec_len, vec_capacity, List, [], None, Some};
ghost use Rattle.chord_base.specs.Story.{IsSound};
ghost use Rattle.chord_rule.specs.declared.view.View.{View};
ghost use Rattle.chord_space.specs.Desks.{view, space_code, space_limits, program_of, IsDeskOf};
ghost use Rattle.chord_task.specs.declared.args.Args.{Args as TheArgs};
ghost use Rattle.chord_task.specs.declared.parcel.Opened.{Opened as TheParcel};
ghost use Rattle.chord_task.specs.declared.task.Task.{Task as ATask};
ghost use Rattle.chord_task.specs.Arguments.{for_entry, AreTwice};
ghost use Rattle.chord_task.specs.Gathering.{AreGathered, gathered_in};
ghost use Rattle.chord_task.specs.Past.{AddsOne};
ghost use Rattle.chord_task.specs.Stacks.{task_begun};
ghost use Rattle.chord_task.specs.Standing.{view_of, IsTaskOf, MayResume};
ghost use Rattle.chord_vm.specs.Frames.{laid};
ghost use Rattle.chord_worker.specs.Beginning.{first_of, caller_or, HasUnpacked, HasBegun};
ghost use Rattle.chord_worker.specs.Firing.{HasFired, ServesNone};
ghost use Rattle.chord_worker.specs.Resting.{IsAtRest, IsSameRole};
ghost use Rattle.chord_worker.specs.Stepping.{HasTakenOn};

use crate::worker::{Gate, Worker};
use chord_base::event::{Entry, Limits};
use chord_base::members::Members;
use chord_base::value::Object;
use chord_code::code::Code;
use chord_code::laws::{chords_are_right, entries_are_within};
use chord_match::Receive;
use chord_space::Space;
use chord_task::apart::Apart;
use chord_task::enclosed::Enclosed;
use chord_task::gathered::Gathered;
use chord_task::parcel::{Opened, Parcel, packed};
use chord_task::task::Task;
use std::mem;

/// A firing that was drawn.
#[derive(Clone, Copy, Drop)]
pub(crate) struct Drawn {
    pub number: u32,
    pub object: Object,
    pub chord: u16,
}

/// What the parcels of a firing hold: the arguments, and the task that one of them may have.
#[derive(Drop)]
pub(crate) struct Unpacked {
    pub arguments: Gathered,
    pub caller: Option<Apart<Task>>,
}

/// A task that is played no more, or that of a second caller, which this firing does not serve.
#[inline(never)]
pub(crate) fn lay_off(task: Apart<Task>) {
    drop(task);
}

/// Keeps the first of two tasks, or else the second.
#[inline(always)]
fn keep_task(place: &mut Option<Apart<Task>>, task: Option<Apart<Task>>)
    ensures { place.new ≡ first_of place.old task }
{
    match place {
        None => match mem::replace(place, task) {
            None => {}
            Some(_) => unreachable!(),
        },
        Some(_) => match task {
            None => {}
            Some(second) => lay_off(second),
        },
    }
}

/// As `gather`, where several messages have values, or one without values comes after one with values.
#[inline(never)]
fn gather_more(to: &mut Gathered, arguments: Enclosed)
    requires room { (all : List TheArgs) × AreGathered to.old.one to.old.more all × (length all < 8) }
    ensures added { (all : List TheArgs) → AreGathered to.old.one to.old.more all → AreGathered to.new.one to.new.more (all ++ arguments ∷ []) }
{
    to.add(arguments);
}

/// Puts arguments where there are none, so that there is nothing to drop.
#[inline(always)]
fn put_arguments(place: &mut Enclosed, arguments: Enclosed)
    requires { place.old.first ≡ [] }
    ensures { place.new ≡ arguments }
{
    mem::forget(mem::replace(place, arguments));
}

/// Adds the arguments of one message more.
#[inline(always)]
fn gather(to: &mut Gathered, arguments: Enclosed)
    requires room { (all : List TheArgs) × AreGathered to.old.one to.old.more all × (length all < 8) }
    ensures added { (all : List TheArgs) → AreGathered to.old.one to.old.more all → AreGathered to.new.one to.new.more (all ++ arguments ∷ []) }
{
    match &to.more {
        None => {
            if to.one.has_none() {
                put_arguments(&mut to.one, arguments);
                return;
            }
        }
        Some(_) => {}
    }
    gather_more(to, arguments);
}

impl Receive<Parcel> for Unpacked {
    ghost holds = { λ u qs. HasUnpacked u.arguments.one u.arguments.more u.caller qs };

    fn receive(&mut self, parcel: Parcel) {
        let Opened { arguments, task } = parcel.open();
        gather(&mut self.arguments, arguments);
        keep_task(&mut self.caller, task);
    }
}

impl Unpacked {
    /// Nothing yet.
    pub(crate) fn nothing() -> Unpacked
        ensures first { result.arguments.one.first ≡ [] }
        ensures second { result.arguments.one.second ≡ [] }
        ensures none { (result.arguments.more ≡ None) × (result.caller ≡ None) }
    {
        Unpacked {
            arguments: Gathered::nothing(),
            caller: None,
        }
    }

    /// Nothing came, so that nothing is looked for to drop.
    pub(crate) fn lay_aside(self)
        requires { (self.arguments.one.first ≡ []) × (self.arguments.more ≡ None) × (self.caller ≡ None) }
    {
        mem::forget(self);
    }
}

/// The caller's task, or else the one in stock.
fn take_task(caller: Option<Apart<Task>>, spare: &mut Option<Apart<Task>>) -> Apart<Task>
    requires stock { spare.old ≢ None }
    ensures task { (stock : ATask) → spare.old ≡ Some stock → result ≡ caller_or caller stock }
    ensures spare { (spare.new ≡ spare.old) ⊎ (spare.new ≡ None) }
    ensures kept { caller ≢ None → spare.new ≡ spare.old }
{
    match caller {
        Some(task) => task,
        None => match spare.take() {
            None => unreachable!(),
            Some(stock) => stock,
        },
    }
}

/// As `begin_body`, where several messages have values.
#[inline(never)]
fn begin_with_several(
    task: &mut Task,
    code: &Code,
    drawn: Drawn,
    members: &Members,
    arguments: &mut Gathered,
    draws: &mut Vec<Entry>,
)
    requires place { vec_len draws.old < vec_capacity draws.old }
    requires several { arguments.old.more ≢ None }
    requires task { IsTaskOf code.now task.old.limits task.old }
    requires may { MayResume code.now task.old.limits task.old drawn.number drawn.chord drawn.object members.now (laid (for_entry (gathered_in arguments.old.one arguments.old.more))) }
    requires few { length (laid (for_entry (gathered_in arguments.old.one arguments.old.more))) ≤ 64 }
    requires twice { AreTwice (gathered_in arguments.old.one arguments.old.more) }
    ensures task { IsTaskOf code.now task.old.limits task.new }
    ensures past { task_begun (view_of task.old) drawn.number drawn.chord drawn.object members.now (laid (for_entry (gathered_in arguments.old.one arguments.old.more))) (view_of task.new) }
    ensures top { (view_of task.new).top ≡ Some drawn.number }
    ensures ended { task.new.ended ≡ task.old.ended }
    ensures listed { AddsOne task.old.past task.new.past draws.old.items draws.new.items }
    ensures none { (arguments.new.one.first ≡ []) × (arguments.new.more ≡ None) }
{
    match arguments.more.take() {
        None => unreachable!(),
        Some(several) => {
            let gathered = Gathered {
                one: mem::replace(&mut arguments.one, Enclosed::nothing()),
                more: Some(several),
            };
            task.resume_gathered(
                code,
                drawn.number,
                drawn.chord,
                drawn.object,
                members,
                gathered,
                draws,
            );
        }
    }
}

/// The body of a firing begins on top, with what was gathered, which is taken out of its place: what is moved by value is cleared and
/// copied, with room for the arguments of eight messages.
#[inline(always)]
fn begin_body(
    task: &mut Task,
    code: &Code,
    drawn: Drawn,
    members: &Members,
    arguments: &mut Gathered,
    draws: &mut Vec<Entry>,
)
    requires place { vec_len draws.old < vec_capacity draws.old }
    requires task { IsTaskOf code.now task.old.limits task.old }
    requires may { MayResume code.now task.old.limits task.old drawn.number drawn.chord drawn.object members.now (laid (for_entry (gathered_in arguments.old.one arguments.old.more))) }
    requires few { length (laid (for_entry (gathered_in arguments.old.one arguments.old.more))) ≤ 64 }
    requires twice { AreTwice (gathered_in arguments.old.one arguments.old.more) }
    ensures task { IsTaskOf code.now task.old.limits task.new }
    ensures past { task_begun (view_of task.old) drawn.number drawn.chord drawn.object members.now (laid (for_entry (gathered_in arguments.old.one arguments.old.more))) (view_of task.new) }
    ensures top { (view_of task.new).top ≡ Some drawn.number }
    ensures ended { task.new.ended ≡ task.old.ended }
    ensures listed { AddsOne task.old.past task.new.past draws.old.items draws.new.items }
    ensures none { (arguments.new.one.first ≡ []) × (arguments.new.more ≡ None) }
{
    match &arguments.more {
        None => {
            let one = mem::replace(&mut arguments.one, Enclosed::nothing());
            task.resume_one(
                code,
                drawn.number,
                drawn.chord,
                drawn.object,
                members,
                one,
                draws,
            );
        }
        Some(_) => begin_with_several(task, code, drawn, members, arguments, draws),
    }
}

impl Worker {
    /// A body that has begun is played, if nothing else is; else it is posted with its task.
    fn take_on<G: Gate>(
        &mut self,
        space: &Space<Parcel>,
        code: &Code,
        limits: &Limits,
        gate: &G,
        number: u32,
        task: Apart<Task>,
    )
        requires code { code.now ≡ space_code space.now }
        requires limits { limits.now ≡ space_limits space.now }
        requires begun { (v : View) × HasBegun space.now self.old v number task }
        ensures desk { IsDeskOf space.now self.new.desk }
        ensures rest { IsAtRest space.now self.new }
        ensures role { IsSameRole (view self.old.desk) (view self.new.desk) }
        ensures untold { self.new.spent ≡ false }
        ensures undrawn { (view self.new.desk).draws ≡ (view self.old.desk).draws }
        ensures spare { self.new.spare ≡ self.old.spare }
        ensures taken { (v : View) → HasBegun space.now self.old v number task → HasTakenOn G.knows v.kept self.old.task self.new number }
        ensures lists { self.new.taken ≡ self.old.taken }
    {
        if self.task.is_none() {
            gate.started(number);
            self.task = Some(task);
            return;
        }
        let parcel = packed(code, limits, Enclosed::nothing(), task);
        space.post(&mut self.desk, number, parcel);
    }

    /// The parcels of a firing's members were handed over: the arguments go to the firing's body, which begins in the task of the
    /// caller that it serves, or in the one in stock. A worker that has no task plays the body itself; else the body is posted
    /// with its task. What is in stock stays there, unless the firing serves no call. Its entry goes to the list of what the worker drew, in
    /// which there is room. Takes no memory.
    pub(crate) fn begin_fired<G: Gate>(
        &mut self,
        space: &Space<Parcel>,
        code: &Code,
        limits: &Limits,
        gate: &G,
        drawn: Drawn,
        members: &Members,
        unpacked: &mut Unpacked,
    )
        requires code { code.now ≡ space_code space.now }
        requires limits { limits.now ≡ space_limits space.now }
        requires sound { IsSound (program_of space.now) }
        requires place { vec_len self.old.draws < vec_capacity self.old.draws }
        requires fired { (v : View) × (qs : List TheParcel) × HasUnpacked unpacked.old.arguments.one unpacked.old.arguments.more unpacked.old.caller qs × HasFired space.now self.old v drawn.object drawn.chord members.now drawn.number qs }
        ensures desk { IsDeskOf space.now self.new.desk }
        ensures rest { IsAtRest space.now self.new }
        ensures role { IsSameRole (view self.old.desk) (view self.new.desk) }
        ensures untold { self.new.spent ≡ false }
        ensures undrawn { (view self.new.desk).draws ≡ (view self.old.desk).draws }
        ensures spare { (self.new.spare ≡ self.old.spare) ⊎ (self.new.spare ≡ None) }
        ensures kept { (v : View) (qs : List TheParcel) → HasUnpacked unpacked.old.arguments.one unpacked.old.arguments.more unpacked.old.caller qs → HasFired space.now self.old v drawn.object drawn.chord members.now drawn.number qs → (self.new.spare ≡ self.old.spare) ⊎ ServesNone space.now drawn.object drawn.chord members.now qs }
        ensures none { (unpacked.new.arguments.one.first ≡ []) × (unpacked.new.arguments.more ≡ None) × (unpacked.new.caller ≡ None) }
        ensures taken { (v : View) (qs : List TheParcel) → HasUnpacked unpacked.old.arguments.one unpacked.old.arguments.more unpacked.old.caller qs → HasFired space.now self.old v drawn.object drawn.chord members.now drawn.number qs → HasTakenOn G.knows v.kept self.old.task self.new drawn.number }
        ensures lists { self.new.taken ≡ self.old.taken }
    {
        chords_are_right(code);
        entries_are_within(code);
        let mut task = take_task(unpacked.caller.take(), &mut self.spare);
        begin_body(
            &mut *task.value,
            code,
            drawn,
            members,
            &mut unpacked.arguments,
            &mut self.draws,
        );
        self.take_on(space, code, limits, gate, drawn.number, task);
    }
}
